//! A machine alone, as a seat.
ghost use Rattle.std.specs.Prelude.{◌≡◌, [], IfOk};

use crate::looks::{is_there, judge_at, shown, shown_if_there};
use std::alloc::{AllocError, Global};
use tm_list::NoMemory;
use tm_machine::Machine;
use tm_machine::rep::Rep;
use tm_seat::Seat;
use tm_take::Judged;
use tm_types::request::{Proc, Request};
use tm_types::step::{Answered, Made, Reply, Settled};

/// A machine alone, as a seat: it goes through no gate, and hears the answers that are there. The
/// numbers of the steps made from the seat are kept.
pub struct Lone<R: Rep> {
    pub machine: Machine<R>,
    pub own: Vec<u64>,
}

impl<R: Rep> Lone<R> {
    /// A seat from which nothing was made. Takes no memory.
    pub fn new(alloc: Global, machine: Machine<R>) -> Lone<R>
        ensures machine { result.machine ≡ machine }
        ensures own { result.own.items ≡ [] }
    {
        Lone {
            machine,
            own: Vec::new(alloc),
        }
    }
}

impl<R: Rep> Seat for Lone<R> {
    ghost use Rattle.tm_machine.specs.Office.{start_of, list_of};

    ghost opening = { λ s. start_of s.machine };

    ghost at = { λ s. list_of s.machine };

    ghost own = { λ s. s.own.items };

    fn begin(&mut self, _tree: u32, _place: u32) {}

    fn arrive(&mut self, domain: u32) -> (bool, u64) {
        self.machine.versions();
        (is_there(&self.machine, domain), self.machine.version())
    }

    fn judge(
        &mut self,
        alloc: Global,
        domain: u32,
        process: &Proc,
        request: &Request,
    ) -> Result<(Judged, u64), NoMemory> {
        self.machine.versions();
        match judge_at(alloc, &self.machine, domain, process, request) {
            Ok(found) => Ok((shown(found), self.machine.version())),
            Err(fault) => Err(fault),
        }
    }

    fn judge_if_there(
        &mut self,
        alloc: Global,
        domain: u32,
        process: &Proc,
        request: &Request,
    ) -> Result<Option<(Judged, u64)>, NoMemory> {
        self.machine.versions();
        match judge_at(alloc, &self.machine, domain, process, request) {
            Ok(found) => Ok(shown_if_there(found, self.machine.version())),
            Err(fault) => Err(fault),
        }
    }

    fn settle(&mut self, alloc: Global, made: Made) -> Result<Settled<Reply>, NoMemory> {
        self.machine.versions();
        if self.own.reserve(1).is_err() {
            return Err(AllocError);
        }
        let reply = self.machine.settle(alloc, made)?;
        self.machine.versions();
        let number = self.machine.version();
        self.own.push_reserved(number);
        Ok(Settled { number, reply })
    }

    fn hear(&mut self, serial: u64) -> Result<(Answered, u64), NoMemory> {
        self.machine.versions();
        match self.machine.answer_of(serial) {
            Some(answer) => Ok((answer, self.machine.version())),
            None => Err(AllocError),
        }
    }
}
