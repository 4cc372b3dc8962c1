//! The plain representation of a policy: the policy itself.
ghost use Rattle.std.specs.Prelude.{◌≡◌};

use crate::learning::{apply_learn, apply_make};
use crate::lines::apply_line;
use crate::scan::Scan;
use crate::searching::{search, search_in};
use std::alloc::Global;
use std::marker::Model;
use tm_change_domains::{Standing, apply_fail, live_domain};
use tm_list::{Copied, NoMemory};
use tm_rep::Rep;
use tm_types::entry::Entry;
use tm_types::policy::{Cursor, Policy};
use tm_types::request::{Proc, Request};
use tm_types::step::{EditReply, FileKind, LearnReply, MakeReply};
use tm_types::unions::DomainName;
use tm_types::verdict::Found;

/// A policy as it is, whose lists are scanned at each call. Contracts see the policy.
#[derive(Drop)]
pub struct Plain {
    policy: Policy,
}

impl Model for Plain {
    ghost use Rattle.tm_rules.specs.Types.{Policy};

    ghost Value = { Policy };

    ghost view = { λ s. s.policy };
}

impl Plain {
    /// The plain representation of a policy.
    pub fn new(policy: Policy) -> Plain
        ensures { result ≡ policy }
    {
        Plain { policy }
    }
}

impl Rep for Plain {
    ghost policy = { λ s. s };

    fn policy(&self) -> &Policy {
        &self.policy
    }

    fn search(&self, domain: u32, process: &Proc, request: &Request) -> Option<Found> {
        search(&self.policy, domain, process, request)
    }

    #[tactic(auto, using(tm_change_domains::proofs::Standings::few_here, tm_change_domains::proofs::Standings::few_own))]
    fn search_in(
        &self,
        standing: &Standing<'_>,
        process: &Proc,
        request: &Request,
    ) -> Option<Found> {
        search_in(&Scan, standing.namespace, standing.domain, process, request)
    }

    fn live_domain(&self, name: &DomainName) -> Option<u32> {
        live_domain(&self.policy, name)
    }

    fn apply_line(
        &mut self,
        alloc: Global,
        file: FileKind,
        cursor: &mut Cursor,
        line: &[u8],
    ) -> Result<EditReply, NoMemory> {
        apply_line(alloc, &mut self.policy, file, cursor, line)
    }

    fn apply_learn(
        &mut self,
        alloc: Global,
        domain: u32,
        entry: &Entry,
    ) -> Result<LearnReply, NoMemory> {
        apply_learn(alloc, &mut self.policy, domain, entry)
    }

    fn apply_make(
        &mut self,
        alloc: Global,
        domain: u32,
        name: DomainName,
    ) -> Result<MakeReply, NoMemory> {
        apply_make(alloc, &mut self.policy, domain, name)
    }

    fn apply_fail(&mut self, domain: u32) -> bool {
        apply_fail(&mut self.policy, domain)
    }

    fn into_policy(self) -> Policy {
        let Plain { policy } = self;
        policy
    }

    fn copy(&self, alloc: Global) -> Result<Self, NoMemory> {
        let policy = self.policy.copy(alloc)?;
        Ok(Plain { policy })
    }
}
