//! The machine as the office of an engine, and as the hall of a desk.
ghost use Rattle.std.specs.Prelude.{◌≡◌, ◌++◌, ◌∷◌, [], true, MatchResult, OnOk, OnErr};
ghost use Rattle.tm_rep.specs.Tomoyo.{tomoyo_grammar};
ghost use Rattle.tm_legal.specs.Prelude.{apply};
ghost use Rattle.tm_machine.specs.Machine.{LeavesDomains, LeavesAllRefused};
ghost use Rattle.tm_machine.specs.Office.{list_of, fits_at, by_desk};

use crate::machine::Machine;
use std::alloc::Global;
use tm_list::{Copied, NoMemory};
use tm_office::{DeskHall, Hall, Office};
use tm_rep::Rep;
use tm_types::step::{Answered, Made, Maker, Query, Reply, Start, Step};

impl<R: Rep> Office for Machine<R> {
    ghost use Rattle.std.specs.Prelude.{◌≡◌, true};
    ghost use Rattle.std.specs.Coded.{coded_bool};
    ghost use base.Stored.{Coded-set};
    ghost use Rattle.tm_machine.specs.Office.{start_of, list_of, fits_at, fits_at_stays};

    type Opening = Start;

    type Step = Made;

    ghost opening = { start_of };

    ghost steps = { list_of };

    ghost fits = { λ start list made. fits_at start list made ≡ true };

    fn apply(&mut self, alloc: Global, made: &Made) -> Result<(), NoMemory>
        requires { fits_at self.old.start (list_of self.old) made.now ≡ true }
        ensures opening { self.new.start ≡ self.old.start }
        ensures steps { MatchResult result
            (λ _. list_of self.new ≡ list_of self.old ++ made.now ∷ [])
            (λ _. list_of self.new ≡ list_of self.old) }
        ensures done { OnOk result
            (self.new.state ≡ (apply tomoyo_grammar self.old.state made.now.step).state) }
        ensures domains { OnOk result
            (LeavesDomains self.old.state made.now.step self.new.state) }
        ensures refused { OnOk result
            (LeavesAllRefused self.old.state made.now.step self.new.state) }
        ensures kept { OnErr result (self.new ≡ self.old) }
    {
        self.versions();
        let made = made.copy(alloc)?;
        self.settle(alloc, made)?;
        Ok(())
    }

    fn copy(&self, alloc: Global) -> Result<Self, NoMemory> {
        self.copied(alloc)
    }

    ghost stays = { λ start list more made h. fits_at_stays start list more made h };

    ghost one_way = { λ start list made. Coded-set coded_bool _ _ };
}

impl<R: Rep> Hall for Machine<R> {
    ghost use Rattle.tm_machine.specs.Office.{reply_in, answer_in, first_in, over_in};

    type Reply = Reply;

    type Query = Query;

    ghost reply_at = { λ start list number. reply_in start list number };

    ghost answer_at = { λ start list serial. answer_in start list serial };

    ghost first_at = { λ start list. first_in start list };

    ghost over_at = { λ start list. over_in start list };

    fn reply(&self, number: u64) -> Option<Reply> {
        self.versions();
        Machine::reply(self, number)
    }

    fn answer_of(&self, serial: u64) -> Option<Answered> {
        self.versions();
        Machine::answer_of(self, serial)
    }

    fn first_query(&self) -> Option<&Query> {
        self.versions();
        Machine::first_query(self)
    }

    fn over(&self) -> bool {
        self.versions();
        Machine::over(self)
    }

    fn copy_query(alloc: Global, query: &Query) -> Result<Query, NoMemory> {
        query.copy(alloc)
    }
}

// A step of the supervisor.
fn by_desk(step: Step) -> Made
    ensures { result ≡ by_desk step }
{
    Made {
        maker: Maker::Desk,
        step,
    }
}

impl<R: Rep> DeskHall for Machine<R> {
    ghost use Rattle.tm_rules.specs.Types.{Step};
    ghost use Rattle.tm_machine.specs.Office.{by_desk, attach_fits, answer_fits, detach_fits};

    ghost attach = { by_desk Step.Attach };

    ghost answer = { λ serial code. by_desk (Step.Answer serial code) };

    ghost detach = { by_desk Step.Detach };

    fn attach_step() -> Made {
        by_desk(Step::Attach)
    }

    fn answer_step(serial: u64, code: u64) -> Made {
        by_desk(Step::Answer(serial, code))
    }

    fn detach_step() -> Made {
        by_desk(Step::Detach)
    }

    ghost attach_fits = { λ start list. attach_fits start list };

    ghost answer_fits = { λ start list serial code. answer_fits start list serial code };

    ghost detach_fits = { λ start list. detach_fits start list };
}
