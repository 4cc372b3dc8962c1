//! A plain hall: a start, and numbers below 100 as steps. How many there are tells the rest.
use std::alloc::{AllocError, Global};
use tm_list::NoMemory;
use tm_office::{Hall, Office};
use tm_types::step::Answered;

/// A start, and the numbers counted since. A step is replied itself. Query 1 has its answer once
/// there is a step; the start is asked for while there are one or two; once there are three nothing
/// is.
#[derive(Drop)]
pub struct Tally {
    pub start: u64,
    pub steps: Vec<u64>,
}

impl Office for Tally {
    ghost use Rattle.std.specs.Prelude.{◌≡◌, nat_lt, true};
    ghost use Rattle.std.specs.Coded.{coded_bool};
    ghost use base.Stored.{Coded-set};

    type Opening = u64;

    type Step = u64;

    ghost opening = { λ t. t.start };

    ghost steps = { λ t. t.steps.items };

    ghost fits = { λ p xs s. nat_lt s 100 ≡ true };

    fn apply(&mut self, _alloc: Global, step: &u64) -> Result<(), NoMemory> {
        match self.steps.push(*step) {
            Ok(()) => Ok(()),
            Err(_) => Err(AllocError),
        }
    }

    fn copy(&self, _alloc: Global) -> Result<Tally, NoMemory> {
        Ok(Tally {
            start: self.start,
            steps: self.steps.clone()?,
        })
    }

    ghost stays = { λ p xs ys s h. h };

    ghost one_way = { λ p xs s. Coded-set coded_bool _ _ };
}

impl Hall for Tally {
    ghost use Rattle.tm_tests_threads.specs.Tallies.{reply_of, answer_in, asked_in, is_over};

    type Reply = u64;

    type Query = u64;

    ghost reply_at = { λ p xs n. reply_of xs n };

    ghost answer_at = { λ p xs serial. answer_in xs serial };

    ghost first_at = { asked_in };

    ghost over_at = { λ p xs. is_over xs };

    fn reply(&self, number: u64) -> Option<u64> {
        if 0 < number && number <= self.steps.len() as u64 {
            Some(self.steps[(number - 1) as usize])
        } else {
            None
        }
    }

    fn answer_of(&self, serial: u64) -> Option<Answered> {
        if serial == 1 && 0 < self.steps.len() {
            Some(Answered::Yes)
        } else {
            None
        }
    }

    fn first_query(&self) -> Option<&u64> {
        if 0 < self.steps.len() && self.steps.len() < 3 {
            Some(&self.start)
        } else {
            None
        }
    }

    fn over(&self) -> bool {
        3 <= self.steps.len()
    }

    fn copy_query(_alloc: Global, query: &u64) -> Result<u64, NoMemory> {
        Ok(*query)
    }
}
