//! A worker's own deque, and a way into another's.
ghost use Rattle.std.specs.Prelude.{◌≡◌, ◌<◌, ◌∷◌, ◌++◌, [], ℕ, List, length, IfOk, OnOk, MatchOption, MatchResult};
ghost use Rattle.tm_share.specs.Deques.{Own, Way, with_put, with_taken, lending, way_into, with_way, stolen, OwnLeaves, Drains};

use crate::tally::{Cut, Fair, Puts, Rest, Takes, Tally};
use crossbeam_deque::protocol::Protocol;
use crossbeam_deque::{Pass, Steal, Stealer, Worker};
use std::alloc::{AllocError, Global};
use std::marker::Model;
use tm_list::NoMemory;

/// How many jobs a deque holds before it grows.
const CAPACITY: usize = 64;

/// How many ways there are into a deque at most.
const MOST_WAYS: u32 = 1023;

/// A worker's own deque, first in first out, and how many ways others have into it. Contracts see
/// which deque it is, that number, and what the worker has put there and taken.
#[derive(Drop)]
pub(crate) struct OwnOf<J, P: Protocol<J, Tally<J>>> {
    worker: Worker<J, Global, Tally<J>, P>,
    lent: u32,
}

impl<J, P: Protocol<J, Tally<J>>> Model for OwnOf<J, P> {
    ghost use Rattle.std.specs.Prelude.{◌≡◌, ◌+◌, ◌<◌};
    ghost use Rattle.crossbeam_deque.specs.Handles.{worker_deque, worker_view, worker_flavor};
    ghost use Rattle.tm_share.specs.Deques.{Own};

    ghost Value = { Own J };

    ghost view = { λ own. record {
      deque = worker_deque own.worker;
      lent = own.lent;
      put = (worker_view own.worker).put;
      taken = (worker_view own.worker).taken;
    } };

    ghost invariant = { λ own. (worker_flavor own.worker ≡ 0)
        × ((worker_view own.worker).parts + own.lent ≡ 1024) × (own.lent < 1024) };
}

/// A way into a deque, by which jobs are stolen and none is put. Contracts see which deque it is,
/// and what was stolen.
#[derive(Drop)]
pub(crate) struct WayOf<J, P: Protocol<J, Tally<J>>> {
    stealer: Stealer<J, Global, Tally<J>, P>,
    pass: Pass<J, Tally<J>>,
}

impl<J, P: Protocol<J, Tally<J>>> Model for WayOf<J, P> {
    ghost use Rattle.std.specs.Prelude.{◌≡◌, []};
    ghost use Rattle.crossbeam_deque.specs.Handles.{IsPassOf, stealer_deque, stealer_flavor};
    ghost use Rattle.tm_share.specs.Deques.{Way, known};

    ghost Value = { Way J };

    ghost view = { λ way. record {
      deque = stealer_deque way.stealer;
      taken = (known way.pass).taken;
    } };

    ghost invariant = { λ way. (stealer_flavor way.stealer ≡ 0)
        × IsPassOf (stealer_deque way.stealer) way.pass
        × ((known way.pass).parts ≡ 1) × ((known way.pass).put ≡ []) };
}

pub(crate) type Own<J> = OwnOf<J, Fair>;

pub(crate) type Way<J> = WayOf<J, Fair>;

impl<J: Drop> OwnOf<J, Fair> {
    /// An empty deque, into which nobody has a way.
    pub(crate) fn new(alloc: Global) -> Result<Own<J>, NoMemory>
        ensures { IfOk result (λ own. (own.lent ≡ 0) × (own.put ≡ []) × (own.taken ≡ [])) }
    {
        let worker = Worker::fifo_as(alloc, CAPACITY)?;
        Ok(OwnOf { worker, lent: 0 })
    }

    /// Puts a job last.
    ///
    /// Errors: want of memory.
    pub(crate) fn put(&mut self, job: J) -> Result<(), NoMemory>
        ensures { MatchResult result (λ _. self.new ≡ with_put self.old job) (λ _. self.new ≡ self.old) }
    {
        match self.worker.push_as::<Puts>(job) {
            Ok(()) => Ok(()),
            Err(_) => Err(AllocError),
        }
    }

    /// Takes the first job.
    pub(crate) fn take(&mut self) -> Option<J>
        ensures { MatchOption result ((self.new ≡ self.old) × OwnLeaves self.old [])
            (λ job. self.new ≡ with_taken self.old job) }
    {
        self.worker.pop_as::<Takes>()
    }

    /// How many jobs are left.
    fn count(&mut self) -> usize
        ensures same { self.new ≡ self.old }
        ensures left { (left : List J) × (length left ≡ result) × OwnLeaves self.old left }
    {
        self.worker.len_as::<Rest>()
    }

    /// A way for another worker.
    ///
    /// Errors: want of memory, or that there are 1023 ways.
    pub(crate) fn way(&mut self) -> Result<Way<J>, NoMemory>
        ensures way { IfOk result (λ way. way ≡ way_into self.old) }
        ensures lent { OnOk result (self.new ≡ lending self.old) }
    {
        if self.lent >= MOST_WAYS {
            return Err(AllocError);
        }
        let stealer = self.worker.stealer()?;
        let pass = self.worker.another::<Cut>();
        self.lent += 1;
        Ok(WayOf { stealer, pass })
    }

    /// Takes a way back.
    pub(crate) fn close(&mut self, way: Way<J>)
        requires way { way.deque ≡ self.old.deque }
        requires lent { 0 < self.old.lent }
        ensures { self.new ≡ with_way self.old way }
    {
        let WayOf { stealer, pass } = way;
        self.worker.absorb::<Cut>(pass);
        self.lent -= 1;
        drop(stealer);
    }

    /// Takes all jobs out, after those that are there. Where nobody has a way into the deque,
    /// nothing is left there.
    pub(crate) fn drain(self, left: &mut Vec<J>) -> Result<(), NoMemory>
        ensures { OnOk result (Drains self left.old.items left.new.items) }
    {
        let mut own = self;
        let count = own.count();
        for _job in 0..count {
            let Some(job) = own.take() else {
                return Ok(());
            };
            left.push(job)?;
        }
        // as many were taken as were left
        own.count();
        Ok(())
    }
}

impl<J> WayOf<J, Fair> {
    /// Takes the first job, if one is found.
    pub(crate) fn steal(&mut self) -> Option<J>
        ensures { MatchOption result (self.new ≡ self.old) (λ job. self.new ≡ stolen self.old job) }
    {
        match self.stealer.steal_as::<Takes>(&mut self.pass) {
            Steal::Success(job) => Some(job),
            Steal::Empty => None,
            Steal::Retry => None,
        }
    }
}
