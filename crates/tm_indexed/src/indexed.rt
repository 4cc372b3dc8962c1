//! The representation of a policy with an index.
ghost use Rattle.std.specs.Prelude.{◌≡◌, IfOk, [], None, Some, true};
ghost use Rattle.std.specs.List.{position_from};
ghost use Rattle.tm_rules.specs.Prelude.{IsFew, wants_profile};
ghost use Rattle.tm_indexed.specs.Literals.{literal_places, other_places};
ghost use Rattle.tm_indexed.specs.Known.{list_of};

use crate::learning::learn;
use crate::lines::edit;
use crate::lists::{list_at, search, search_standing};
use crate::making::{live_of, make, mark_failed};
use std::alloc::Global;
use std::marker::Model;
use tm_change_domains::Standing;
use tm_index::{Index, index_of};
use tm_list::{Copied, NoMemory};
use tm_policy::PolicyCalls;
use tm_policy::rep::Rep;
use tm_types::entry::Entry;
use tm_types::policy::{Cursor, Policy};
use tm_types::request::{Proc, Request};
use tm_types::step::{EditReply, FileKind, LearnReply, MakeReply};
use tm_types::unions::DomainName;
use tm_types::verdict::Found;
use tm_word::Word;

/// A policy with an index: where the entries of each list stand by the literal that their first
/// name argument is, by their stem, and by a text that equal lines share, how many permissions each
/// domain has, and the live domains by their names. Lines that have nothing of this in common with a
/// request or a line aren't looked at, but for groups, ranges of addresses and patterns without a
/// plain front: what that saves is measured, and no clause says it. Contracts see the policy. Keys
/// are hashed by the default hasher; no answer depends on it.
#[derive(Drop)]
pub struct Indexed {
    policy: Policy,
    index: Index,
}

impl Model for Indexed {
    ghost use Rattle.tm_rules.specs.Types.{Policy};
    ghost use Rattle.tm_rules.specs.Prelude.{IsFew};
    ghost use Rattle.tm_index.specs.Index.{told, telling, IsIndexOf};

    ghost Value = { Policy };

    ghost view = { λ s. s.policy };

    ghost invariant = { λ s. IsFew s.policy × IsIndexOf s.index s.policy };
}

impl Indexed {
    /// The representation of a policy whose places fit a u32, with the index that is made of it.
    ///
    /// Errors: want of memory.
    pub fn new(alloc: Global, policy: Policy) -> Result<Indexed, NoMemory>
        requires { IsFew policy }
        ensures { IfOk result (λ made. made ≡ policy) }
    {
        let index = index_of(alloc, &policy)?;
        Ok(Indexed { policy, index })
    }

    /// Opens the policy, in which each live domain has its profile. Nothing of that is noted. Takes
    /// no memory.
    #[tactic(auto, unfolding(tm_index::specs::Index::telling))]
    pub fn set_opened(&mut self)
        requires { position_from (wants_profile self.old) 0 self.old.domains ≡ None }
        ensures opened { self.new ≡ record self.old { opened = true } }
        ensures few { IsFew self.old → IsFew self.new }
    {
        self.policy.set_opened();
    }

    /// The places, from 0 and rising, of the entries whose first name argument, or for `misc env`
    /// its pattern, is a literal that matches this name: in the own list of the domain of this
    /// number for None, else in that of an ACL group of its namespace. None of them where the
    /// domain isn't there. Takes no memory.
    pub fn literal_places(&self, domain: u32, group: Option<u8>, name: &Word) -> &[u32]
        ensures { result.now ≡ literal_places name.now (list_of self.now domain group) }
    {
        match list_at(&self.policy, &self.index, domain, group) {
            Some(list) => list.named(name),
            None => &[],
        }
    }

    /// The places, from 0 and rising, of the other entries of that list: those that have no name
    /// argument, or a first one that is a group or no literal. Takes no memory.
    pub fn other_places(&self, domain: u32, group: Option<u8>) -> &[u32]
        ensures { result.now ≡ other_places (list_of self.now domain group) }
    {
        match list_at(&self.policy, &self.index, domain, group) {
            Some(list) => list.others(),
            None => &[],
        }
    }
}

impl Rep for Indexed {
    ghost policy = { λ s. s };

    fn policy(&self) -> &Policy {
        &self.policy
    }

    fn search(&self, domain: u32, process: &Proc, request: &Request) -> Option<Found> {
        search(&self.policy, &self.index, domain, process, request)
    }

    fn search_in(
        &self,
        standing: &Standing<'_>,
        process: &Proc,
        request: &Request,
    ) -> Option<Found> {
        search_standing(&self.policy, &self.index, standing, process, request)
    }

    fn live_domain(&self, name: &DomainName) -> Option<u32> {
        live_of(&self.policy, &self.index, name)
    }

    fn apply_line(
        &mut self,
        alloc: Global,
        file: FileKind,
        cursor: &mut Cursor,
        line: &[u8],
    ) -> Result<EditReply, NoMemory> {
        edit(alloc, &mut self.policy, &mut self.index, file, cursor, line)
    }

    fn apply_learn(
        &mut self,
        alloc: Global,
        domain: u32,
        entry: &Entry,
    ) -> Result<LearnReply, NoMemory> {
        learn(alloc, &mut self.policy, &mut self.index, domain, entry)
    }

    fn apply_make(
        &mut self,
        alloc: Global,
        domain: u32,
        name: DomainName,
    ) -> Result<MakeReply, NoMemory> {
        make(alloc, &mut self.policy, &mut self.index, domain, name)
    }

    fn apply_fail(&mut self, domain: u32) -> bool {
        mark_failed(&mut self.policy, &self.index, domain)
    }

    fn into_policy(self) -> Policy {
        let Indexed { policy, .. } = self;
        policy
    }

    fn copy(&self, alloc: Global) -> Result<Self, NoMemory> {
        let policy = self.policy.copy(alloc)?;
        let index = index_of(alloc, &self.policy)?;
        Ok(Indexed { policy, index })
    }
}
