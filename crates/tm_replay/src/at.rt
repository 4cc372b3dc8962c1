//! A seat at an engine.
use crate::looks::{arrive_at, look_at, look_if_there};
use crate::moves::{hear_at, settle_at};
use std::alloc::Global;
use std::sync::Wait;
use tm_engine::engine::EngineOf;
use tm_engine::gate::Gate;
use tm_list::NoMemory;
use tm_machine::Machine;
use tm_machine::rep::Rep;
use tm_office::Hall;
use tm_publish::front::Named;
use tm_publish::page::Sheet;
use tm_publish::pass::Pass;
use tm_seat::Seat;
use tm_take::Judged;
use tm_types::request::{Proc, Request};
use tm_types::step::{Answered, Made, Reply, Settled};

/// A pass at an engine, and the gate that it goes through, as a seat.
pub struct At<'a, W: Wait, L: Named, H: Hall, T: Sheet<L, H>, G: Gate> {
    pub rt: &'a W,
    pub engine: &'a EngineOf<L, H, T>,
    pub pass: Pass<L, H>,
    pub gate: &'a G,
}

impl<'a, W: Wait, L: Named, R: Rep, T: Sheet<L, Machine<R>>, G: Gate> Seat
    for At<'a, W, L, Machine<R>, T, G> {
    ghost use Rattle.tm_publish.specs.Words.{known, made_of};
    ghost use Rattle.tm_replay.specs.Seats.{home_of};

    ghost opening = { λ s. home_of s.pass };

    ghost at = { λ s. known s.pass };

    ghost own = { λ s. made_of s.pass };

    fn begin(&mut self, tree: u32, place: u32) {
        self.gate.pass(self.rt, tree, place);
    }

    fn arrive(&mut self, domain: u32) -> (bool, u64) {
        arrive_at(self.rt, self.engine, &mut self.pass, domain)
    }

    fn judge(
        &mut self,
        alloc: Global,
        domain: u32,
        process: &Proc,
        request: &Request,
    ) -> Result<(Judged, u64), NoMemory> {
        look_at(
            self.rt,
            alloc,
            self.engine,
            &mut self.pass,
            domain,
            process,
            request,
        )
    }

    fn judge_if_there(
        &mut self,
        alloc: Global,
        domain: u32,
        process: &Proc,
        request: &Request,
    ) -> Result<Option<(Judged, u64)>, NoMemory> {
        look_if_there(
            self.rt,
            alloc,
            self.engine,
            &mut self.pass,
            domain,
            process,
            request,
        )
    }

    fn settle(&mut self, alloc: Global, made: Made) -> Result<Settled<Reply>, NoMemory> {
        settle_at(self.rt, alloc, self.engine, &mut self.pass, made)
    }

    fn hear(&mut self, serial: u64) -> Result<(Answered, u64), NoMemory> {
        hear_at(self.rt, self.engine, &mut self.pass, serial)
    }
}
