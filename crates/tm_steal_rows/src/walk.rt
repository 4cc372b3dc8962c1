//! The walk through a tree's records, beside the takes that were played of them.
ghost use Rattle.std.specs.Prelude.{◌≡◌, ◌∷◌, flat_map, IsTrue, IfOk, OnOk};
ghost use Rattle.tm_legal.specs.Prelude.{after_take, with_situation};
ghost use Rattle.tm_take.specs.Situations.{situation_of, situations};
ghost use Rattle.tm_steal_rows.specs.Gathering.{StandsThere, AreTheSame, TakesOfProcesses, WalksOn};
ghost use Rattle.tm_steal_rows.specs.declared.played.PlayedTake.{PlayedTake};

use crate::played::PlayedTake;
use crate::queues::{count_left, next_of};
use crate::records::{RecordPlace, numbered};
use std::alloc::Global;
use std::collections::VecDeque;
use tm_list::{NoMemory, Same};
use tm_seat::lost;
use tm_take::{ProcessSituation, ProcessSituations};
use tm_types::request::{Ids, Item, Proc};
use tm_types::step::Take;

// Whether all eight ids are equal.
fn same_ids(left: Ids, right: Ids) -> bool
    ensures { IsTrue result → left ≡ right }
{
    left.uid == right.uid
        && left.euid == right.euid
        && left.suid == right.suid
        && left.fsuid == right.fsuid
        && left.gid == right.gid
        && left.egid == right.egid
        && left.sgid == right.sgid
        && left.fsgid == right.fsgid
}

// Whether they are one process, with the same parent and ids.
fn same_process(left: Proc, right: Proc) -> bool
    ensures { IsTrue result → left ≡ right }
{
    left.pid == right.pid && left.ppid == right.ppid && same_ids(left.ids, right.ids)
}

// Whether they are one place.
fn same_place(left: RecordPlace, right: RecordPlace) -> bool
    ensures { IsTrue result → left ≡ right }
{
    left.tree == right.tree && left.item == right.item
}

// Whether a take began where its process stands, and knew all that the process has seen.
fn stands_there(stand: ProcessSituation, played: &PlayedTake) -> bool
    ensures { IsTrue result → StandsThere (situation_of stand) played.now }
{
    same_process(stand.process, played.stood.process)
        && stand.domain.same(&played.stood.domain)
        && stand.floor <= played.since
}

// The take of the request at a place, which is of the process of this pid: the first that is left
// of the process that stands there among the tree's.
fn next_take(
    known: &mut ProcessSituations,
    queues: &mut Vec<VecDeque<PlayedTake>>,
    process: u32,
    pid: u32,
    place: RecordPlace,
) -> Result<Take, NoMemory>
    ensures { IfOk result (λ take. (played : PlayedTake)
        × AreTheSame (flat_map (λ queue. queue.items) queues.old.items)
        (played ∷ flat_map (λ queue. queue.items) queues.new.items)
        × (take ≡ played.take) × (take.pid ≡ pid) × (played.place ≡ place)
        × StandsThere (situations known.old pid) played
        × (situations known.new ≡ with_situation (situations known.old) pid
        (after_take (situations known.old pid) take))) }
{
    let Some(played) = next_of(queues, process) else {
        return Err(lost());
    };
    let stand = known.at(pid);
    if !same_place(played.place, place) || !stands_there(stand, &played) {
        return Err(lost());
    }
    let take = played.take;
    if take.pid() != pid {
        return Err(lost());
    }
    known.take_seen(pid, stand, take.after(), take.highest())?;
    Ok(take.into_take())
}

// The record at a place: a process has other ids, a child stands where its parent does, or a
// request has its take.
fn walk_record(
    known: &mut ProcessSituations,
    queues: &mut Vec<VecDeque<PlayedTake>>,
    place: RecordPlace,
    process_places: &[u32],
    item: &Item,
    takes: &mut Vec<Take>,
) -> Result<(), NoMemory>
    ensures { OnOk result (WalksOn place.tree place.item (situations known.old) item.now takes.old.items
        (flat_map (λ queue. queue.items) queues.old.items) (situations known.new) takes.new.items
        (flat_map (λ queue. queue.items) queues.new.items)) }
{
    match item {
        Item::Ids(pid, ids) => known.set_ids(*pid, *ids),
        Item::Fork(pid, child) => known.fork(*pid, *child),
        Item::Do(pid, _) => {
            let Some(process) = numbered(process_places, place.item) else {
                return Err(lost());
            };
            let take = next_take(known, queues, *process, *pid, place)?;
            takes.push(take)?;
            Ok(())
        }
    }
}

/// The takes of the requests of the tree of this number, of those that are left of its processes,
/// which start in this domain; each record's process stands at this place among them.
///
/// Errors: want of memory; that a request has no take, that its take began where its process
/// doesn't stand, or didn't know what the process has seen.
pub(crate) fn walk_tree(
    alloc: Global,
    tree: u32,
    home: Option<u32>,
    records: &[Item],
    process_places: &[u32],
    queues: &mut Vec<VecDeque<PlayedTake>>,
) -> Result<Vec<Take>, NoMemory>
    ensures { IfOk result (λ takes. TakesOfProcesses tree home records.now
        (flat_map (λ queue. queue.items) queues.old.items) takes.items
        (flat_map (λ queue. queue.items) queues.new.items)) }
{
    let mut known = ProcessSituations::new(alloc, home);
    let mut takes = Vec::with_capacity(alloc, count_left(queues.as_slice()))?;
    let mut before: u32 = 0;
    for item in records {
        let Some(number) = before.checked_add(1) else {
            return Err(lost());
        };
        let place = RecordPlace { tree, item: number };
        walk_record(&mut known, queues, place, process_places, item, &mut takes)?;
        before = number;
    }
    Ok(takes)
}
