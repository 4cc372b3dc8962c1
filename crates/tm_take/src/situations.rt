//! The processes of a tree by pid: who each is, the domain that it is in, and its floor.
ghost use Rattle.std.specs.Prelude.{◌≡◌, flat_map, OnOk, Some};
ghost use Rattle.tm_rules.specs.Types.{Take};
ghost use Rattle.tm_legal.specs.Prelude.{after_take, forked, raised, seen, with_ids, with_situation};
ghost use Rattle.tm_take.specs.Situations.{first_situation, situation_of, situations};

use crate::raising::raised_by_looks;
use std::alloc::Global;
use std::collections::BTreeMap;
use tm_list::NoMemory;
use tm_types::request::{Ids, Proc};
use tm_types::step::Take;

/// A process, the number of the domain that it is in, and its floor: the version that no later look
/// of it may fall below. In a play no floor is raised.
#[derive(Clone, Copy)]
pub struct ProcessSituation {
    pub process: Proc,
    pub domain: Option<u32>,
    pub floor: u64,
}

/// The processes of a tree. One that no line has changed yet stands in the tree's first domain,
/// without ids, parent and floor.
#[derive(Drop)]
pub struct ProcessSituations {
    home: Option<u32>,
    changed: BTreeMap<u32, ProcessSituation>,
}

impl ProcessSituation {
    /// The process of that pid as a tree begins with it, in this domain. Takes no memory.
    pub fn first(home: Option<u32>, pid: u32) -> ProcessSituation
        ensures { situation_of result ≡ first_situation home pid }
    {
        let ids = Ids {
            uid: 0,
            euid: 0,
            suid: 0,
            fsuid: 0,
            gid: 0,
            egid: 0,
            sgid: 0,
            fsgid: 0,
        };
        ProcessSituation {
            process: Proc { pid, ppid: 0, ids },
            domain: home,
            floor: 0,
        }
    }

    /// The same process with these ids. Takes no memory.
    pub fn with_ids(self, ids: Ids) -> ProcessSituation
        ensures { situation_of result ≡ with_ids (situation_of self) ids }
    {
        let ProcessSituation {
            process,
            domain,
            floor,
        } = self;
        ProcessSituation {
            process: Proc { ids, ..process },
            domain,
            floor,
        }
    }

    /// The child of that pid that it forks. Takes no memory.
    pub fn forked(self, child: u32) -> ProcessSituation
        ensures { situation_of result ≡ forked (situation_of self) child }
    {
        let ProcessSituation {
            process,
            domain,
            floor,
        } = self;
        ProcessSituation {
            process: Proc {
                pid: child,
                ppid: process.pid,
                ids: process.ids,
            },
            domain,
            floor,
        }
    }
}

impl ProcessSituations {
    /// Every process stands in this domain; None where the tree's first domain isn't there. Takes
    /// no memory.
    #[tactic(auto, unfolding(crate::specs::Situations::situations))]
    pub fn new(alloc: Global, home: Option<u32>) -> ProcessSituations
        ensures { situations result ≡ first_situation home }
    {
        ProcessSituations {
            home,
            changed: BTreeMap::new(alloc),
        }
    }

    /// The process of that pid. Takes no memory.
    #[tactic(auto, unfolding(crate::specs::Situations::situations))]
    pub fn at(&self, pid: u32) -> ProcessSituation
        ensures { situation_of result ≡ situations self.now pid }
    {
        match self.changed.get(&pid) {
            Some(now) => *now,
            None => ProcessSituation::first(self.home, pid),
        }
    }

    // Puts another process in the place of that pid; the others stay.
    #[tactic(auto, unfolding(crate::specs::Situations::situations))]
    fn put(&mut self, pid: u32, now: ProcessSituation) -> Result<(), NoMemory>
        ensures { OnOk result
            (situations self.new ≡ with_situation (situations self.old) pid (situation_of now)) }
    {
        self.changed.insert(pid, now)?;
        Ok(())
    }

    /// An `ids` line: the process has these ids from now on.
    pub fn set_ids(&mut self, pid: u32, ids: Ids) -> Result<(), NoMemory>
        ensures { OnOk result (situations self.new ≡ with_situation (situations self.old) pid
            (with_ids (situations self.old pid) ids)) }
    {
        let now = self.at(pid);
        self.put(pid, now.with_ids(ids))
    }

    /// A `fork` line: the child has its parent's ids, domain and floor.
    pub fn fork(&mut self, pid: u32, child: u32) -> Result<(), NoMemory>
        ensures { OnOk result (situations self.new ≡ with_situation (situations self.old) child
            (forked (situations self.old pid) child)) }
    {
        let now = self.at(pid);
        self.put(child, now.forked(child))
    }

    /// After a take of a play the process is in that domain.
    pub fn move_to(&mut self, pid: u32, domain: u32) -> Result<(), NoMemory>
        ensures { OnOk result (situations self.new ≡ with_situation (situations self.old) pid
            (record (situations self.old pid) { domain = Some domain })) }
    {
        let ProcessSituation { process, floor, .. } = self.at(pid);
        let domain = Some(domain);
        self.put(
            pid,
            ProcessSituation {
                process,
                domain,
                floor,
            },
        )
    }

    /// After a take of a process, which stands there: it is in the domain after the take, and its
    /// floor is above all that the take has seen.
    pub fn take(&mut self, pid: u32, now: ProcessSituation, taken: &Take) -> Result<(), NoMemory>
        requires { situation_of now ≡ situations self.old pid }
        ensures { OnOk result (situations self.new ≡ with_situation (situations self.old) pid
            (after_take (situations self.old pid) taken.now)) }
    {
        let highest = raised_by_looks(0, taken.looks.as_slice());
        self.take_seen(pid, now, taken.after, highest)
    }

    /// The same of a take whose looks aren't at hand: the domain after it, and the highest version
    /// that it has seen.
    pub fn take_seen(
        &mut self,
        pid: u32,
        now: ProcessSituation,
        after: u32,
        highest: u64,
    ) -> Result<(), NoMemory>
        requires { situation_of now ≡ situations self.old pid }
        ensures { OnOk result ((taken : Take) → taken.after ≡ after
            → raised 0 (flat_map seen taken.looks) ≡ highest
            → situations self.new ≡ with_situation (situations self.old) pid
            (after_take (situations self.old pid) taken)) }
    {
        let ProcessSituation { process, floor, .. } = now;
        self.put(
            pid,
            ProcessSituation {
                process,
                domain: Some(after),
                floor: floor.max(highest),
            },
        )
    }
}
