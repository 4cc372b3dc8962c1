//! The processes of each tree of a trace, with the records of their own.
ghost use Rattle.std.specs.Prelude.{◌<◌};

use std::alloc::{AllocError, Global};
use std::collections::BTreeMap;
use std::thread::Threads;
use tm_beside::for_each_beside;
use tm_list::NoMemory;
use tm_replay::seat::lost;
use tm_steal_rows::TreeRecords;
use tm_types::request::{Item, Tree};

/// What follows a record of a tree: the number of the next record of its process, and, where it is
/// a fork, the place of the child among the tree's processes. The number is 0 where none follows.
#[derive(Clone, Copy)]
pub(crate) struct Link {
    pub(crate) next: u32,
    pub(crate) child: u32,
}

/// A process: the numbers of its first and its last record in the tree, from 1, and how many it
/// has.
#[derive(Clone, Copy)]
pub(crate) struct Process {
    pub(crate) first: u32,
    last: u32,
    pub(crate) records: u32,
}

/// The processes of a tree that were met so far, the tree's own first; how many processes all trees
/// before it have; what follows each record; the place of each record's process; by pid the place
/// of each process, and the one that was looked for last; and whether all records were read.
#[derive(Drop)]
pub(crate) struct TreeProcesses {
    pub(crate) all: Vec<Process>,
    pub(crate) before: usize,
    pub(crate) links: Vec<Link>,
    process_places: Vec<u32>,
    places: BTreeMap<u32, u32>,
    last: Option<(u32, u32)>,
    whole: bool,
}

impl TreeProcesses {
    /// None yet. Takes no memory.
    fn new(alloc: Global) -> TreeProcesses {
        TreeProcesses {
            all: Vec::new(alloc),
            before: 0,
            links: Vec::new(alloc),
            process_places: Vec::new(alloc),
            places: BTreeMap::new(alloc),
            last: None,
            whole: false,
        }
    }

    // A process more, whose place this pid has from now on.
    fn add(&mut self, pid: u32) -> Result<u32, NoMemory> {
        let Ok(place) = u32::try_from(self.all.len()) else {
            return Err(lost());
        };
        self.all.push(Process {
            first: 0,
            last: 0,
            records: 0,
        })?;
        self.places.insert(pid, place)?;
        Ok(place)
    }

    // The place of a process; one that nobody forked is the tree's too.
    fn looked_for(&mut self, pid: u32) -> Result<u32, NoMemory> {
        match self.places.get(&pid) {
            Some(place) => Ok(*place),
            None => self.add(pid),
        }
    }

    // The same. Most records are of the process that the record before is of.
    fn place_of(&mut self, pid: u32) -> Result<u32, NoMemory> {
        if let Some((last, place)) = self.last {
            if last == pid {
                return Ok(place);
            }
        }
        let place = self.looked_for(pid)?;
        self.last = Some((pid, place));
        Ok(place)
    }

    // The record of this number follows the one of that number.
    fn follow(&mut self, last: u32, number: u32) {
        if let Some(before) = last.checked_sub(1) {
            if let Some(link) = self.links.get_mut(before as usize) {
                link.next = number;
            }
        }
    }

    // A record more, which is of the process at this place.
    fn push(&mut self, place: u32, child: u32) -> Result<(), NoMemory> {
        self.links.push(Link { next: 0, child })?;
        self.process_places.push(place)?;
        let Ok(number) = u32::try_from(self.links.len()) else {
            return Err(lost());
        };
        let Some(process) = self.all.get_mut(place as usize) else {
            return Err(lost());
        };
        let last = process.last;
        if last == 0 {
            process.first = number;
        }
        process.last = number;
        process.records = process.records.saturating_add(1);
        self.follow(last, number);
        Ok(())
    }

    // The next record of the tree.
    fn read_item(&mut self, item: &Item) -> Result<(), NoMemory> {
        match item {
            Item::Ids(pid, _) => {
                let process = self.place_of(*pid)?;
                self.push(process, 0)
            }
            Item::Fork(pid, child) => {
                let process = self.place_of(*pid)?;
                let born = self.add(*child)?;
                self.push(process, born)
            }
            Item::Do(pid, _) => {
                let process = self.place_of(*pid)?;
                self.push(process, 0)
            }
        }
    }

    // All records of a tree.
    fn read_all(&mut self, alloc: Global, tree: &Tree) -> Result<(), NoMemory> {
        let records = tree.records.as_slice();
        self.links = Vec::with_capacity(alloc, records.len())?;
        self.process_places = Vec::with_capacity(alloc, records.len())?;
        self.add(tree.pid)?;
        for item in records {
            self.read_item(item)?;
        }
        Ok(())
    }

    // The processes of the tree at this place of a trace. They aren't whole where no memory is
    // left.
    fn read(&mut self, alloc: Global, trace: &[Tree], place: usize) {
        if let Some(tree) = trace.get(place) {
            self.whole = self.read_all(alloc, tree).is_ok();
        }
    }

    /// What follows the record of this number.
    pub(crate) fn link_of(&self, number: u32) -> Option<Link> {
        match number.checked_sub(1) {
            Some(before) => match self.links.get(before as usize) {
                Some(link) => Some(*link),
                None => None,
            },
            None => None,
        }
    }
}

/// Whether a process may wait for a worker that has nothing to do: where a tree forks, or where
/// there are more trees than workers.
pub(crate) fn is_shared(trace: &[Tree], workers: u32) -> bool {
    if trace.len() > workers as usize {
        return true;
    }
    for tree in trace {
        if has_fork(tree.records.as_slice()) {
            return true;
        }
    }
    false
}

// Whether one of these records forks.
fn has_fork(records: &[Item]) -> bool {
    for item in records {
        if let Item::Fork(_, _) = item {
            return true;
        }
    }
    false
}

// Counts the processes before each tree, and gives the number of all processes.
fn count_before(trees: &mut Vec<TreeProcesses>) -> Result<usize, NoMemory> {
    let mut processes: usize = 0;
    for tree in trees.as_mut_slice() {
        if !tree.whole {
            return Err(AllocError);
        }
        tree.before = processes;
        processes = processes.saturating_add(tree.all.len());
    }
    Ok(processes)
}

/// What is left to be known of the trees' records once their processes were played.
///
/// Errors: want of memory.
pub(crate) fn records_of(
    alloc: Global,
    trees: Vec<TreeProcesses>,
) -> Result<Vec<TreeRecords>, NoMemory> {
    let mut all = Vec::with_capacity(alloc, trees.len())?;
    for tree in trees {
        all.push(TreeRecords {
            processes: tree.all.len(),
            process_places: tree.process_places,
        })?;
    }
    Ok(all)
}

/// The processes of each tree of a trace, its first one and every child, and the number of all. The
/// trees are read beside each other, by as many threads as there will be workers.
///
/// Errors: want of memory.
pub(crate) fn processes_of<W: Threads + Sync>(
    rt: &W,
    alloc: Global,
    trace: &[Tree],
    workers: u32,
) -> Result<(Vec<TreeProcesses>, usize), NoMemory>
    requires workers { 0 < workers }
{
    let mut trees = Vec::with_capacity(alloc, trace.len())?;
    for _tree in trace {
        trees.push(TreeProcesses::new(alloc))?;
    }
    for_each_beside(
        rt,
        trees.as_mut_slice(),
        workers as usize,
        &|place, tree| { tree.read(alloc, trace, place) },
    );
    let processes = count_before(&mut trees)?;
    Ok((trees, processes))
}
