//! A representation of a policy for which no line can be learned, since no memory is left for it.
use std::alloc::{AllocError, Global};
use tm_indexed::Indexed;
use tm_list::NoMemory;
use tm_rep::Rep;
use tm_rep::change_domains::Standing;
use tm_types::entry::Entry;
use tm_types::policy::{Cursor, Policy};
use tm_types::request::{Proc, Request};
use tm_types::step::{EditReply, FileKind, LearnReply, MakeReply};
use tm_types::unions::DomainName;
use tm_types::verdict::Found;

/// A policy with an index that is asked and changed as ever, but learns nothing: each line that is
/// to be learned finds no memory.
#[derive(Drop)]
pub(crate) struct Refusing {
    pub(crate) inner: Indexed,
}

impl Rep for Refusing {
    ghost policy = { λ s. s.inner };

    fn policy(&self) -> &Policy {
        self.inner.policy()
    }

    fn search(&self, domain: u32, process: &Proc, request: &Request) -> Option<Found> {
        self.inner.search(domain, process, request)
    }

    fn search_in(
        &self,
        standing: &Standing<'_>,
        process: &Proc,
        request: &Request,
    ) -> Option<Found> {
        self.inner.search_in(standing, process, request)
    }

    fn live_domain(&self, name: &DomainName) -> Option<u32> {
        self.inner.live_domain(name)
    }

    fn apply_line(
        &mut self,
        alloc: Global,
        file: FileKind,
        cursor: &mut Cursor,
        line: &[u8],
    ) -> Result<EditReply, NoMemory> {
        self.inner.apply_line(alloc, file, cursor, line)
    }

    fn apply_learn(
        &mut self,
        _alloc: Global,
        _domain: u32,
        _entry: &Entry,
    ) -> Result<LearnReply, NoMemory> {
        Err(AllocError)
    }

    fn apply_make(
        &mut self,
        alloc: Global,
        domain: u32,
        name: DomainName,
    ) -> Result<MakeReply, NoMemory> {
        self.inner.apply_make(alloc, domain, name)
    }

    fn apply_fail(&mut self, domain: u32) -> bool {
        self.inner.apply_fail(domain)
    }

    fn into_policy(self) -> Policy {
        let Refusing { inner } = self;
        inner.into_policy()
    }

    fn copy(&self, alloc: Global) -> Result<Self, NoMemory> {
        let inner = self.inner.copy(alloc)?;
        Ok(Refusing { inner })
    }
}
