//! A row for each tree, of all that the workers give back.
ghost use Rattle.std.specs.Prelude.{◌≡◌, [], IsTrue, IfOk};
ghost use Rattle.tm_legal.specs.Prelude.{raised};
ghost use Rattle.tm_joint.specs.Played.{seen_by};
ghost use Rattle.tm_steal_rows.specs.Gathering.{EndsNext, StandsAbove, IsRowOf, RowsAreOfParts, IsGathered};

use crate::owners::check_owners;
use crate::parts::{TreePart, TreeRecords, count_processes, parts_of, walk_parts};
use crate::played::Played;
use crate::queues::{Laid, lay_out, no_take_left, none_left};
use std::alloc::{AllocError, Global};
use std::collections::VecDeque;
use std::thread::Threads;
use tm_list::{NoMemory, Seq};
use tm_seat::{PlayedTree, lost};
use tm_take::raised_by_looks;
use tm_types::request::Tree;
use tm_types::step::Take;

// The highest version that these takes have seen.
#[tactic(auto, using(tm_take::proofs::RaisedLaws::raised_more))]
fn highest_seen(takes: &[Take]) -> u64
    ensures { result ≡ raised 0 (seen_by takes.now) }
{
    let mut highest = 0;
    for take in takes {
        highest = raised_by_looks(highest, take.looks.as_slice());
    }
    highest
}

// Whether an End is above all that the tree's takes have seen.
fn stands_above(end: Option<u64>, takes: &[Take]) -> bool
    ensures { IsTrue result → StandsAbove end takes.now }
{
    match end {
        None => true,
        Some(number) => highest_seen(takes) < number,
    }
}

// The End of the tree of this number, where a supervisor stands: the first that is left.
fn next_end(
    supervised: bool,
    number: u32,
    ends: &mut VecDeque<(u32, u64)>,
) -> Result<Option<u64>, NoMemory>
    ensures { IfOk result (λ end. EndsNext supervised number ends.old.items end ends.new.items) }
{
    if !supervised {
        return Ok(None);
    }
    let Some((tree, end)) = ends.pop_front() else {
        return Err(lost());
    };
    if tree != number {
        return Err(lost());
    }
    Ok(Some(end))
}

// The row of a tree, of its part.
fn next_row(
    alloc: Global,
    supervised: bool,
    part: TreePart<'_>,
    ends: &mut VecDeque<(u32, u64)>,
) -> Result<PlayedTree, NoMemory>
    ensures { IfOk result (λ row.
        IsRowOf supervised part.entry ends.old.items row ends.new.items) }
{
    let TreePart {
        number,
        queues,
        takes,
        ..
    } = part;
    if !no_take_left(queues.as_slice()) {
        return Err(lost());
    }
    let Some(takes) = takes else {
        return Err(AllocError);
    };
    let end = next_end(supervised, number, ends)?;
    if !stands_above(end, takes.as_slice()) {
        return Err(lost());
    }
    Ok(PlayedTree {
        number,
        takes: Seq::from_vec(takes),
        end,
        played: Vec::new(alloc),
    })
}

// The rows of all trees, of their parts.
fn all_rows(
    alloc: Global,
    supervised: bool,
    parts: Vec<TreePart<'_>>,
    ends: VecDeque<(u32, u64)>,
) -> Result<Vec<PlayedTree>, NoMemory>
    ensures { IfOk result (λ rows.
        RowsAreOfParts supervised parts.entry.items ends.items rows.items []) }
{
    let mut ends = ends;
    let mut rows = Vec::with_capacity(alloc, parts.len())?;
    for part in parts {
        let row = next_row(alloc, supervised, part, &mut ends)?;
        rows.push(row)?;
    }
    if none_left(&ends) {
        return Ok(rows);
    }
    Err(lost())
}

/// Gathers what the workers give back into a row for each tree of the trace, whose processes start
/// in these domains and of whose records that is known. The trees are walked beside each other, by
/// as many threads as there were workers. Whatever doesn't agree is refused: a process that two
/// workers have played, or takes of one that was played before, a line with no take or a take with
/// no line, a take that began where its process doesn't stand, or before all that the process has
/// seen was known, an End that isn't above all that its tree has seen.
///
/// Errors: want of memory, or that something doesn't agree.
pub fn gather<W: Threads + Sync>(
    rt: &W,
    alloc: Global,
    trace: &[Tree],
    homes: Vec<Option<u32>>,
    records: Vec<TreeRecords>,
    supervised: bool,
    given: Vec<Seq<Played>>,
) -> Result<Vec<PlayedTree>, NoMemory>
    ensures { IfOk result (λ rows.
        IsGathered trace.now homes.items supervised given.items rows.items) }
{
    check_owners(alloc, given.as_slice())?;
    let workers = given.len().max(1);
    let processes = count_processes(records.as_slice());
    let Laid { queues, ends } = lay_out(alloc, given, processes)?;
    let mut parts = parts_of(alloc, trace, homes, records, queues)?;
    walk_parts(rt, alloc, workers, parts.as_mut_slice());
    all_rows(alloc, supervised, parts, ends)
}
