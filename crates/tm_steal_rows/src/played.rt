//! What a worker plays that takes processes from others.
ghost use Rattle.std.specs.Prelude.{◌≡◌, ◌<◌, ◌≤◌, ◌++◌, ◌∷◌, [], ℕ, true, List, length, flat_map, if◌then◌else◌, Some, IfOk, IfSome, OnOk};
ghost use Rattle.tm_rules.specs.Types.{Made};
ghost use Rattle.tm_rules.specs.Prelude.{Trace, is_request};
ghost use Rattle.tm_steal_rows.specs.Records.{request_at};
ghost use Rattle.tm_take.specs.Tomoyo.{tomoyo_grammar};
ghost use Rattle.tm_legal.specs.Prelude.{DomainIn, IsNamed, IsOpened, raised, seen};
ghost use Rattle.tm_seat.specs.Seats.{state_of, FitsFrom, Begins};
ghost use Rattle.std.specs.List.{AllByRecursion};
ghost use Rattle.tm_steal_rows.specs.Playing.{Event, StealsOn, ends_from, events_of, IsOfProcess};

use crate::records::RecordPlace;
use std::alloc::Global;
use std::marker::Model;
use tm_list::NoMemory;
use tm_seat::{Seat, play_if_there};
use tm_take::{ProcessSituation, raised_by_looks};
use tm_types::request::Request;
use tm_types::step::{Made, Maker, Settled, Step, Take};

/// A take with the highest version that it has seen, so that nobody has to go to its looks for that
/// again. Contracts see the take.
#[derive(Drop)]
pub struct SeenTake {
    take: Take,
    highest: u64,
}

impl Model for SeenTake {
    ghost use Rattle.std.specs.Prelude.{◌≡◌, flat_map};
    ghost use Rattle.tm_rules.specs.Types.{Take};
    ghost use Rattle.tm_legal.specs.Prelude.{raised, seen};

    ghost Value = { Take };

    ghost view = { λ s. s.take };

    ghost invariant = { λ s. s.highest ≡ raised 0 (flat_map seen s.take.looks) };
}

impl SeenTake {
    /// A take, whose looks are gone through once.
    pub fn new(take: Take) -> SeenTake
        ensures { result ≡ take }
    {
        let highest = raised_by_looks(0, take.looks.as_slice());
        SeenTake { take, highest }
    }

    /// The highest version that it has seen; 0 where it has looked at none.
    pub(crate) fn highest(&self) -> u64
        ensures { result ≡ raised 0 (flat_map seen self.now.looks) }
    {
        self.highest
    }

    /// The process that has played it.
    pub(crate) fn pid(&self) -> u32
        ensures { result ≡ self.now.pid }
    {
        self.take.pid
    }

    /// The number of the domain after it.
    pub fn after(&self) -> u32
        ensures { result ≡ self.now.after }
    {
        self.take.after
    }

    /// The take alone.
    pub(crate) fn into_take(self) -> Take
        ensures { result ≡ self }
    {
        self.take
    }
}

/// A take that was played: the place of its record, where its process stood, how many steps were
/// known when it began, and the take.
#[derive(Drop)]
pub struct PlayedTake {
    pub place: RecordPlace,
    pub stood: ProcessSituation,
    pub since: u64,
    pub take: SeenTake,
}

/// A process that was played: its place among the processes of the trace, tree by tree, from 0, its
/// pid, and its takes in order.
#[derive(Drop)]
pub struct PlayedProcess {
    pub place: usize,
    pub pid: u32,
    pub takes: Vec<PlayedTake>,
}

/// What a worker has played: a process, or the End of the tree of a number, with the number of its
/// step.
#[derive(Drop)]
pub enum Played {
    Process(PlayedProcess),
    End(u32, u64),
}

/// Plays the request at a place, whose process stands here, in the domain of this number: None where
/// that isn't there with its profile at the first look. By that look the take knows at least as many
/// steps as the look's version says. The request is dropped; `spent` is what it is put into for
/// that, so that no list is made for it.
///
/// Errors: want of memory, or that no answer can come any more.
pub fn play_at<S: Seat>(
    seat: &mut S,
    alloc: Global,
    place: RecordPlace,
    now: ProcessSituation,
    domain: u32,
    request: Request,
    spent: &mut Vec<Request>,
) -> Result<Option<PlayedTake>, NoMemory>
    requires opened { IsOpened (S.opening seat.old).policy }
    requires named { IsNamed tomoyo_grammar.is_path (S.opening seat.old).policy }
    requires asked { is_request tomoyo_grammar.is_path request ≡ true }
    requires stands { now.domain ≡ Some domain }
    ensures steals { IfOk result (λ found. IfSome found (λ played. (trace : Trace)
        → request_at trace place ≡ Some request
        → StealsOn (S.opening seat.old) trace (S.at seat.old) (S.own seat.old)
        (S.at seat.new) (S.own seat.new) (Event.Take played ∷ []))) }
    ensures placed { IfOk result (λ found. IfSome found (λ played.
        (played.place ≡ place) × (played.stood ≡ now))) }
    ensures there { IfOk result (λ found. IfSome found (λ played.
        DomainIn (state_of (S.opening seat.old) (S.at seat.new)).policy played.take.after)) }
    ensures fitted { IfOk result (λ found. IfSome found (λ _.
        FitsFrom (S.opening seat.old) (S.at seat.new))) }
    ensures opening { S.opening seat.new ≡ S.opening seat.old }
    ensures grows { Begins (S.at seat.old) (S.at seat.new) }
{
    seat.begin(place.tree, place.item);
    let Some((take, since)) = play_if_there(seat, alloc, now, domain, request, spent)? else {
        return Ok(None);
    };
    spent.clear();
    Ok(Some(PlayedTake {
        place,
        stood: now,
        since,
        take: SeenTake::new(take),
    }))
}

// A tree's End.
fn end_tree<S: Seat>(seat: &mut S, alloc: Global, tree: u32) -> Result<u64, NoMemory>
    requires above { 0 < tree }
    requires inside { tree ≤ (S.opening seat.old).trees }
    ensures steals { IfOk result (λ number. (trace : Trace) →
        StealsOn (S.opening seat.old) trace (S.at seat.old) (S.own seat.old)
        (S.at seat.new) (S.own seat.new) (Event.End tree number ∷ [])) }
    ensures opening { S.opening seat.new ≡ S.opening seat.old }
    ensures grows { Begins (S.at seat.old) (S.at seat.new) }
{
    let made = Made {
        maker: Maker::Tree(tree),
        step: Step::End(tree),
    };
    let Settled { number, .. } = seat.settle(alloc, made)?;
    Ok(number)
}

/// Makes the Ends of all trees, by their numbers from 1, where a supervisor stands, and puts them
/// behind what was played.
///
/// Errors: want of memory.
pub fn end_trees<S: Seat>(
    seat: &mut S,
    alloc: Global,
    trees: u32,
    supervised: bool,
    all: &mut Vec<Played>,
) -> Result<(), NoMemory>
    requires inside { trees ≤ (S.opening seat.old).trees }
    ensures ends { OnOk result ((numbers : List ℕ)
        × (length numbers ≡ (if supervised then trees else 0))
        × (events_of all.new.items ≡ events_of all.old.items ++ ends_from 1 numbers)
        × ((trace : Trace) → StealsOn (S.opening seat.old) trace (S.at seat.old) (S.own seat.old)
        (S.at seat.new) (S.own seat.new) (ends_from 1 numbers))) }
    ensures whose { OnOk result (AllByRecursion IsOfProcess all.old.items → AllByRecursion IsOfProcess all.new.items) }
    ensures opening { S.opening seat.new ≡ S.opening seat.old }
    ensures grows { Begins (S.at seat.old) (S.at seat.new) }
{
    if !supervised {
        return Ok(());
    }
    for before in 0..trees {
        let tree = before + 1;
        let number = end_tree(seat, alloc, tree)?;
        all.push(Played::End(tree, number))?;
    }
    Ok(())
}
