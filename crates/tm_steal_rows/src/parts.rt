//! The trees' parts of what was played, each walked beside the others.
ghost use Rattle.std.specs.Prelude.{◌≡◌, ◌<◌, ◌++◌, flat_map, IfOk};
ghost use Rattle.tm_steal_rows.specs.Gathering.{IsPartOf, PartsAreOf, IsWalked, AreWalked};

use crate::played::PlayedTake;
use crate::queues::none_left;
use crate::walk::walk_tree;
use std::alloc::Global;
use std::collections::VecDeque;
use std::thread::Threads;
use tm_beside::for_each_beside;
use tm_list::NoMemory;
use tm_seat::lost;
use tm_types::request::Tree;
use tm_types::step::Take;

/// What is known of a tree's records before they are walked: of how many processes they are, and
/// the place of each one's process among these, from 0. Wrong places are refused where the takes
/// are gathered.
#[derive(Drop)]
pub struct TreeRecords {
    pub processes: usize,
    pub process_places: Vec<u32>,
}

/// A tree's part: the tree with its number, from 1, the domain that its processes start in, the
/// place of each record's process, the takes of each process that are left to be walked, and, once
/// it has been walked, the takes of its row.
#[derive(Drop)]
pub(crate) struct TreePart<'a> {
    pub(crate) number: u32,
    pub(crate) tree: &'a Tree,
    pub(crate) home: Option<u32>,
    pub(crate) process_places: Vec<u32>,
    pub(crate) queues: Vec<VecDeque<PlayedTake>>,
    pub(crate) takes: Option<Vec<Take>>,
}

/// How many processes all trees have.
pub(crate) fn count_processes(trees: &[TreeRecords]) -> usize {
    let mut count: usize = 0;
    for tree in trees {
        count = count.saturating_add(tree.processes);
    }
    count
}

// The takes of so many first processes.
fn next_queues(
    alloc: Global,
    count: usize,
    queues: &mut VecDeque<VecDeque<PlayedTake>>,
) -> Result<Vec<VecDeque<PlayedTake>>, NoMemory>
    ensures { IfOk result (λ first. flat_map (λ queue. queue.items) queues.old.items
        ≡ flat_map (λ queue. queue.items) first.items ++ flat_map (λ queue. queue.items) queues.new.items) }
{
    let mut first = Vec::with_capacity(alloc, count)?;
    for _process in 0..count {
        let Some(queue) = queues.pop_front() else {
            return Err(lost());
        };
        first.push(queue)?;
    }
    Ok(first)
}

// The part of the tree of this number, which starts in this domain, of the first processes.
fn part_of<'a>(
    alloc: Global,
    number: u32,
    tree: &'a Tree,
    home: Option<u32>,
    records: TreeRecords,
    queues: &mut VecDeque<VecDeque<PlayedTake>>,
) -> Result<TreePart<'a>, NoMemory>
    ensures { IfOk result (λ part. IsPartOf number tree.now home
        (flat_map (λ queue. queue.items) queues.old.items) part
        (flat_map (λ queue. queue.items) queues.new.items)) }
{
    let TreeRecords {
        processes,
        process_places,
    } = records;
    let queues = next_queues(alloc, processes, queues)?;
    Ok(TreePart {
        number,
        tree,
        home,
        process_places,
        queues,
        takes: None,
    })
}

/// The parts of all trees, which start in these domains and of whose records that is known, of the
/// takes of these processes.
///
/// Errors: want of memory; that there are more processes than the trees have, or fewer.
pub(crate) fn parts_of<'a>(
    alloc: Global,
    trace: &'a [Tree],
    homes: Vec<Option<u32>>,
    records: Vec<TreeRecords>,
    queues: Vec<VecDeque<PlayedTake>>,
) -> Result<Vec<TreePart<'a>>, NoMemory>
    ensures { IfOk result (λ parts. PartsAreOf 1 trace.now homes.items
        (flat_map (λ queue. queue.items) queues.items) parts.items) }
{
    let mut homes = VecDeque::from(homes);
    let mut records = VecDeque::from(records);
    let mut queues = VecDeque::from(queues);
    let mut parts = Vec::with_capacity(alloc, trace.len())?;
    let mut before: u32 = 0;
    for tree in trace {
        let Some(number) = before.checked_add(1) else {
            return Err(lost());
        };
        let Some(home) = homes.pop_front() else {
            return Err(lost());
        };
        let Some(its) = records.pop_front() else {
            return Err(lost());
        };
        let part = part_of(alloc, number, tree, home, its, &mut queues)?;
        parts.push(part)?;
        before = number;
    }
    if none_left(&queues) {
        return Ok(parts);
    }
    Err(lost())
}

impl TreePart<'_> {
    // Walks the tree. There are no takes where something doesn't agree, or no memory is left.
    fn walk(&mut self, alloc: Global)
        ensures { IsWalked self.old self.new }
    {
        let records = self.tree.records.as_slice();
        let places = self.process_places.as_slice();
        let queues = &mut self.queues;
        self.takes = walk_tree(alloc, self.number, self.home, records, places, queues).ok();
    }
}

/// Walks each tree, by at most so many threads.
pub(crate) fn walk_parts<W: Threads + Sync>(
    rt: &W,
    alloc: Global,
    threads: usize,
    parts: &mut [TreePart<'_>],
)
    requires { 0 < threads }
    ensures { AreWalked parts.old parts.new }
{
    let walk = move |_place: usize, part: &mut TreePart<'_>|
        ensures { IsWalked part.entry.now part.exit.now }
    { part.walk(alloc) };
    for_each_beside(rt, parts, threads, &walk);
}
