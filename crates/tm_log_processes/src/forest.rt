//! The lines of a trace that is being made, each with its tree.
ghost use Rattle.std.specs.Prelude.{◌≡◌, ◌≤◌, ◌++◌, ◌∷◌, [], map, length, IfOk, OnOk};
ghost use Rattle.tm_rules.specs.Types.{Item};
ghost use Rattle.tm_log_processes.specs.Forests.{bare, fork_length, ids_length, line_length, counted, added, forked_before, planted, has_room, new_line, with_line, in_trees};
ghost use Rattle.tm_rules.specs.Prelude.{pid_of_line};

use crate::process::digits;
use std::alloc::Global;
use std::marker::Model;
use tm_list::{NoMemory, Seq};
use tm_types::request::{Ids, Item, Trace, Tree};
use tm_types::unions::DomainName;

/// How many lines `ids`, `fork` and `do` a trace may have.
pub const MAX_RECORDS: usize = 200_000;

/// How many trees.
pub const MAX_TREES: usize = 4_096;

/// How many bytes.
pub const MAX_BYTES: usize = 16_777_216;

// The most that a record adds: a parent, its manual transition, a fork, ids and its own request, of
// which the first two name a domain.
const MOST_RECORDS: usize = 5;

const MOST_TREES: usize = 2;

const MOST_BYTES: usize = 9_000;

/// A line of the trace with its tree, and the children that its process makes just before it.
#[derive(Drop)]
pub struct TraceLine {
    pub tree: usize,
    pub children: Seq<u32>,
    pub item: Item,
}

/// The trees and lines of a trace that is being made, and how many records and bytes it will have.
#[derive(Drop)]
pub struct Forest {
    trees: Vec<Tree>,
    lines: Vec<TraceLine>,
    records: usize,
    bytes: usize,
}

impl Model for Forest {
    ghost use Rattle.tm_log_processes.specs.Forests.{Grown};

    ghost Value = { Grown };

    ghost view = { λ s. record { trees = s.trees.items; lines = s.lines.items; records = s.records; bytes = s.bytes } };
}

// The process of a line.
fn pid_of_line(item: &Item) -> u32
    ensures { result ≡ pid_of_line item.now }
{
    match item {
        Item::Ids(pid, _) => *pid,
        Item::Fork(pid, _) => *pid,
        Item::Do(pid, _) => *pid,
    }
}

// How long the line of a fork is.
fn fork_length(pid: u32, child: u32) -> usize
    ensures exact { result ≡ fork_length pid child }
    ensures few { result ≤ 27 }
{
    7 + digits(pid) + digits(child)
}

// How long eight numbers are, each after a space.
fn ids_length(ids: Ids) -> usize
    ensures exact { result ≡ ids_length ids }
    ensures few { result ≤ 88 }
{
    let user = digits(ids.uid) + digits(ids.euid) + digits(ids.suid) + digits(ids.fsuid);
    let group = digits(ids.gid) + digits(ids.egid) + digits(ids.sgid) + digits(ids.fsgid);
    8 + user + group
}

// How long a line is, of which the request has this size.
fn line_length(item: &Item, size: usize) -> usize
    ensures { result ≡ line_length item.now size }
{
    match item {
        Item::Fork(pid, child) => fork_length(*pid, *child),
        Item::Ids(pid, ids) => 5 + digits(*pid) + ids_length(*ids),
        Item::Do(pid, _) => size.saturating_add(5 + digits(*pid)),
    }
}

// Appends forks of a process.
fn push_forks(pid: u32, children: &[u32], out: &mut Seq<Item>) -> Result<(), NoMemory>
    ensures { OnOk result (out.new ≡ out.old ++ map (Item.Fork pid) children.now) }
{
    for child in children {
        out.push(Item::Fork(pid, *child))?;
    }
    Ok(())
}

// Puts a line at the end of its tree, the forks before it first.
fn push_line(pid: u32, children: &[u32], item: Item, out: &mut Seq<Item>) -> Result<(), NoMemory>
    ensures { OnOk result (out.new ≡ out.old ++ (map (Item.Fork pid) children.now ++ item ∷ [])) }
{
    push_forks(pid, children, out)?;
    out.push(item)
}

// Puts a line into its tree.
#[tactic(auto, unfolding(crate::specs::Forests::with_line))]
fn put_line(trees: &mut Vec<Tree>, line: TraceLine) -> Result<(), NoMemory>
    ensures { OnOk result (trees.new.items ≡ with_line trees.old.items line) }
{
    let TraceLine {
        tree,
        children,
        item,
    } = line;
    if tree < trees.len() {
        let pid = pid_of_line(&item);
        push_line(pid, children.as_slice(), item, &mut trees[tree].records)?;
    }
    Ok(())
}

impl Forest {
    /// No tree.
    pub fn new(alloc: Global) -> Forest
        ensures { result ≡ bare }
    {
        Forest {
            trees: Vec::new(alloc),
            lines: Vec::new(alloc),
            records: 0,
            bytes: 0,
        }
    }

    /// How many trees there are.
    pub fn trees(&self) -> usize
        ensures { result ≡ length self.now.trees }
    {
        self.trees.len()
    }

    /// How many lines there are.
    pub fn lines(&self) -> usize
        ensures { result ≡ length self.now.lines }
    {
        self.lines.len()
    }

    /// Whether the lines of a further record have room in a trace: at most five lines and two
    /// trees, one of them a request of this size.
    pub fn has_room(&self, size: usize) -> bool
        ensures { result ≡ has_room self.now size }
    {
        self.records <= MAX_RECORDS - MOST_RECORDS
            && self.trees.len() <= MAX_TREES - MOST_TREES
            && self.bytes.saturating_add(size) <= MAX_BYTES - MOST_BYTES
    }

    // One record more of this length.
    fn count(&mut self, size: usize)
        ensures { self.new ≡ counted self.old size }
    {
        self.records = self.records.saturating_add(1);
        self.bytes = self.bytes.saturating_add(size);
    }

    /// One line more of a tree, of which the request has this size.
    #[tactic(auto, unfolding(crate::specs::Forests::added))]
    pub fn add(
        &mut self,
        alloc: Global,
        tree: usize,
        item: Item,
        size: usize,
    ) -> Result<(), NoMemory>
        ensures { OnOk result (self.new ≡ added self.old tree item size) }
    {
        self.count(line_length(&item, size));
        self.lines.push(TraceLine {
            tree,
            children: Seq::new(alloc),
            item,
        })?;
        Ok(())
    }

    /// A child that the process of a line makes just before it, after those that it made there
    /// earlier.
    #[tactic(auto, unfolding(crate::specs::Forests::forked_before))]
    pub fn fork_before(&mut self, line: usize, child: u32) -> Result<(), NoMemory>
        ensures { OnOk result (self.new ≡ forked_before self.old line child) }
    {
        if line < self.lines.len() {
            let pid = pid_of_line(&self.lines[line].item);
            self.lines[line].children.push(child)?;
            self.count(fork_length(pid, child));
        }
        Ok(())
    }

    /// A new last tree, whose first process starts in this domain.
    #[tactic(auto, unfolding(crate::specs::Forests::planted))]
    pub fn plant(&mut self, alloc: Global, start: DomainName, pid: u32) -> Result<usize, NoMemory>
        ensures { IfOk result (λ tree. planted self.old start pid ≡ (self.new, tree)) }
    {
        let tree = self.trees.len();
        let length = start.len().saturating_add(7 + digits(pid));
        self.bytes = self.bytes.saturating_add(length);
        self.trees.push(Tree {
            start,
            pid,
            records: Seq::new(alloc),
        })?;
        Ok(tree)
    }

    /// The lines in their trees. Errors: want of memory.
    #[tactic(auto, using(crate::proofs::TreeLaws::in_trees_more))]
    pub fn into_trace(self) -> Result<Trace, NoMemory>
        ensures { IfOk result (λ trace. trace ≡ in_trees self.trees self.lines) }
    {
        let Forest {
            mut trees,
            lines,
            ..
        } = self;
        for line in lines {
            put_line(&mut trees, line)?;
        }
        Ok(Seq::from_vec(trees))
    }
}
