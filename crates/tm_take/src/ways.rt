//! A tree on its way through its lines, and its takes.
ghost use Rattle.std.specs.Prelude.{◌≡◌, [], Some, None, IfOk, OnOk};
ghost use Rattle.std.specs.Option.{option_copied};
ghost use Rattle.tm_legal.specs.Prelude.{ended_way, going_on};
ghost use Rattle.tm_grammar.specs.Tomoyo.{tomoyo_grammar};
ghost use Rattle.tm_take.specs.Situations.{first_situation, situation_of};
ghost use Rattle.tm_take.specs.Ways.{way_of, awaited, WayPasses};

use crate::lines::{Lines, pass};
use crate::requests::{NextEvent, RequestInProgress};
use crate::situations::{ProcessSituation, ProcessSituations};
use std::alloc::Global;
use std::mem::replace;
use tm_list::{NoMemory, Seq};
use tm_types::request::{Item, Request};
use tm_types::step::Take;

/// A tree on its way: its processes, the lines that are left, the request in progress, if one is,
/// and the takes that have ended.
#[derive(Drop)]
pub struct TreeOnWay {
    known: ProcessSituations,
    lines: Lines,
    begun: Option<RequestInProgress>,
    takes: Seq<Take>,
}

impl TreeOnWay {
    /// A tree at its beginning: all its lines are left, and its processes stand in this domain.
    /// Takes no memory.
    #[tactic(auto, unfolding(crate::specs::Ways::way_of))]
    pub fn new(alloc: Global, home: Option<u32>, records: Seq<Item>) -> TreeOnWay
        ensures { way_of result
            ≡ record { at = first_situation home; items = records; begun = None; takes = [] } }
    {
        TreeOnWay {
            known: ProcessSituations::new(alloc, home),
            lines: Lines::new(records),
            begun: None,
            takes: Seq::new(alloc),
        }
    }

    /// The process of that pid. Takes no memory.
    #[tactic(auto, unfolding(crate::specs::Ways::way_of))]
    pub fn at(&self, pid: u32) -> ProcessSituation
        ensures { situation_of result ≡ (way_of self.now).at pid }
    {
        self.known.at(pid)
    }

    /// The request in progress. Takes no memory.
    #[tactic(auto, unfolding(crate::specs::Ways::way_of))]
    pub fn begun(&self) -> Option<&RequestInProgress>
        ensures { option_copied result ≡ (way_of self.now).begun }
    {
        self.begun.as_ref()
    }

    /// The serial of the query whose answer it waits for; None where it waits for none. Takes no
    /// memory.
    #[tactic(auto, unfolding(crate::specs::Ways::way_of))]
    pub fn awaits(&self) -> Option<u64>
        ensures { result ≡ awaited (way_of self.now) }
    {
        match &self.begun {
            Some(attempt) => attempt.awaits(),
            None => None,
        }
    }

    /// The takes that have ended, in order. Takes no memory.
    #[tactic(auto, unfolding(crate::specs::Ways::way_of))]
    pub fn takes(&self) -> &[Take]
        ensures { result.now ≡ (way_of self.now).takes }
    {
        self.takes.as_slice()
    }

    /// Passes the `ids` and `fork` lines before the next request and takes the request out, with
    /// the pid of its process; None, and nothing changed, where no request is left.
    #[tactic(auto, unfolding(crate::specs::Ways::way_of))]
    pub fn pass(&mut self) -> Result<Option<(u32, Request)>, NoMemory>
        ensures { IfOk result (λ next. WayPasses next (way_of self.old) (way_of self.new)) }
    {
        let next = pass(&mut self.known, &mut self.lines)?;
        Ok(next)
    }

    /// Takes the request in progress out; None where none is. Takes no memory.
    #[tactic(auto, unfolding(crate::specs::Ways::way_of))]
    pub fn take_begun(&mut self) -> Option<RequestInProgress>
        ensures taken { result ≡ (way_of self.old).begun }
        ensures left { way_of self.new ≡ record (way_of self.old) { begun = None } }
    {
        self.begun.take()
    }

    /// Puts a request in progress in. Takes no memory.
    #[tactic(auto, unfolding(crate::specs::Ways::way_of))]
    pub fn put_back(&mut self, attempt: RequestInProgress)
        ensures { way_of self.new ≡ record (way_of self.old) { begun = Some attempt } }
    {
        drop(replace(&mut self.begun, Some(attempt)));
    }

    // Ends a request in progress: its take is put last, its process is in the domain after it.
    #[tactic(auto, unfolding(crate::specs::Ways::way_of))]
    fn end(&mut self, attempt: RequestInProgress) -> Result<(), NoMemory>
        ensures { OnOk result
            (way_of self.new ≡ ended_way tomoyo_grammar (way_of self.old) attempt) }
    {
        let (take, request) = attempt.into_take()?;
        drop(request);
        match self.known.move_to(take.pid, take.after) {
            Ok(()) => {
                drop(self.begun.take());
                self.takes.push(take)
            }
            Err(fault) => {
                drop(take);
                Err(fault)
            }
        }
    }

    /// A request in progress goes on while it owes a step, waits for an answer or is to look again;
    /// else it ends: its take is put last, and its process is in the domain after it.
    pub fn go_on(&mut self, attempt: RequestInProgress) -> Result<(), NoMemory>
        ensures { OnOk result
            (way_of self.new ≡ going_on tomoyo_grammar (way_of self.old) attempt) }
    {
        match attempt.next_event() {
            NextEvent::End => self.end(attempt),
            NextEvent::OwnStep | NextEvent::Answer(_) | NextEvent::Look => {
                self.put_back(attempt);
                Ok(())
            }
        }
    }

    /// The takes that have ended, in order. Takes no memory.
    #[tactic(auto, unfolding(crate::specs::Ways::way_of))]
    pub fn into_takes(self) -> Seq<Take>
        ensures { result ≡ (way_of self).takes }
    {
        let TreeOnWay {
            known,
            lines,
            begun,
            takes,
        } = self;
        drop(known);
        drop(lines);
        drop(begun);
        takes
    }
}
