//! What a worker has: its own deque, and a way into each worker's.
ghost use Rattle.std.specs.Prelude.{◌≡◌, ◌<◌, ℕ, length, MatchOption, MatchResult};
ghost use Rattle.tm_share.specs.Hands.{Hand, hand, HasPut, HasTaken, workers_of};
ghost use Rattle.tm_share.specs.Pools.{Steals};

use crate::deque::{Own, OwnOf, Way, WayOf};
use crate::line::Line;
use crate::tally::{Fair, Tally};
use crossbeam_deque::protocol::Protocol;
use std::marker::Model;
use tm_list::{NoMemory, Seq};

/// What a worker has for itself: the jobs that it puts and takes first in first out, and a way to
/// steal from each worker. Contracts see its place among the workers, and the jobs that it has put
/// and taken.
#[derive(Drop)]
pub struct JobHandOf<J, P: Protocol<J, Tally<J>>> {
    own: OwnOf<J, P>,
    ways: Vec<WayOf<J, P>>,
}

impl<J, P: Protocol<J, Tally<J>>> Model for JobHandOf<J, P> {
    ghost use Rattle.tm_share.specs.Hands.{Hand};

    ghost Value = { Hand J };

    ghost view = { λ hand. record { own = hand.own; ways = hand.ways.items } };
}

pub type JobHand<J> = JobHandOf<J, Fair>;

// Steals by the way at this place.
fn steal_by<J>(ways: &mut Vec<Way<J>>, place: usize) -> Option<J>
    requires { place < length ways.old.items }
    ensures { MatchOption result (ways.new.items ≡ ways.old.items)
        (λ job. Steals job ways.old.items ways.new.items) }
{
    ways[place].steal()
}

impl<J: Drop> JobHandOf<J, Fair> {
    /// A hand of a deque, and of ways into those of all.
    pub(crate) fn new(own: Own<J>, ways: Seq<Way<J>>) -> JobHand<J>
        ensures { result ≡ hand own ways }
    {
        JobHandOf {
            own,
            ways: ways.into_vec(),
        }
    }

    /// The deque and the ways.
    pub(crate) fn apart(self) -> (Own<J>, Seq<Way<J>>)
        ensures { (result.0 ≡ self.own) × (result.1 ≡ self.ways) }
    {
        let JobHandOf { own, ways } = self;
        (own, Seq::from_vec(ways))
    }

    /// How many workers there are.
    pub fn workers(&self) -> usize
        ensures { result ≡ workers_of self.now }
    {
        self.ways.len()
    }

    /// Puts a job last.
    ///
    /// Errors: want of memory; then the hand is as it was.
    pub fn put(&mut self, job: J) -> Result<(), NoMemory>
        ensures { MatchResult result (λ _. HasPut job self.old self.new) (λ _. self.new ≡ self.old) }
    {
        self.own.put(job)?;
        Ok(())
    }

    /// Takes the first job of the worker's own.
    pub fn take(&mut self) -> Option<J>
        ensures { MatchOption result (self.new ≡ self.old) (λ job. HasTaken job self.old self.new) }
    {
        self.own.take()
    }

    /// Takes the first job of a worker, from 0, if one is found.
    pub fn steal(&mut self, worker: usize) -> Option<J>
        ensures { MatchOption result (self.new ≡ self.old) (λ job. HasTaken job self.old self.new) }
    {
        if worker >= self.ways.len() {
            return None;
        }
        steal_by(&mut self.ways, worker)
    }

    // Takes a job of the first worker that has one.
    fn steal_any(&mut self) -> Option<J>
        ensures { MatchOption result (self.new ≡ self.old) (λ job. HasTaken job self.old self.new) }
    {
        for worker in 0..self.workers() {
            if let Some(job) = self.steal(worker) {
                return Some(job);
            }
        }
        None
    }

    /// The next job: the first of the worker's own, else one of another's.
    pub fn next(&mut self) -> Option<J>
        ensures { MatchOption result (self.new ≡ self.old) (λ job. HasTaken job self.old self.new) }
    {
        match self.take() {
            Some(job) => Some(job),
            None => self.steal_any(),
        }
    }
}
