//! Reading traces, line by line.
ghost use Rattle.std.specs.Prelude.{◌≡◌, [], ◌++◌, Ok, IfOk, option_to_list};
ghost use Rattle.tm_word.specs.Prelude.{Gives, GivesNow, words_of};
ghost use Rattle.tm_rules.specs.Types.{Item};
ghost use Rattle.tm_trace.specs.Attributes.{request};
ghost use Rattle.tm_trace.specs.Lines.{trace_cause};
ghost use Rattle.tm_trace.specs.Trees.{made_by, new_tree, with_tree, no_trees, all_trees, with_item};
ghost use Rattle.tm_trace.specs.Reading.{new_at, request_of, tree_line, ids_line, fork_line, do_line, line_at, trace_of, is_tree_line, tree_line_at};
ghost use Rattle.tm_trace.specs.Steps.{step_cause, with_attributes, HasMore, IsOnly, process_in, recorded};

use crate::attribute::read_attributes;
use crate::faults::{StepFault, as_step, in_line, step_fault};
use crate::process::{ids_to_end, pid_at};
use crate::request::{path_name, path_request, request_line};
use std::alloc::Global;
use std::collections::BTreeSet;
use std::marker::Model;
use std::mem::replace;
use tm_line::domain_to_end;
use tm_list::{NoMemory, Seq};
use tm_types::entry::Args;
use tm_types::request::{Attributes, Item, Request, Trace, TraceFault, TraceKind, Tree};
use tm_types::unions::DomainName;
use tm_word::{Text, bytes_equal, cut_at, cut_word, normal_words};

// A request of these parts.
fn made(alloc: Global, args: Args, perm: u8, attributes: Attributes) -> Result<Request, StepFault>
    ensures { Gives step_cause (λ made. made) result (Ok (request args perm attributes)) }
{
    match Request::new(alloc, args, perm, attributes) {
        Ok(request) => Ok(request),
        Err(_) => Err(StepFault::NoMemory),
    }
}

// A request with these arguments, and its attributes, which are all words after it.
fn with_attributes(
    alloc: Global,
    args: Args,
    perm: u8,
    words: &[Text],
) -> Result<Request, StepFault>
    ensures { Gives step_cause (λ request. request) result (with_attributes args perm words.now) }
{
    match read_attributes(alloc, &args, perm, words) {
        Err(fault) => Err(step_fault(TraceKind::Attribute, fault)),
        Ok(attributes) => made(alloc, args, perm, attributes),
    }
}

// Any request and its attributes.
#[inline(never)]
#[tactic(auto, unfolding(crate::specs::Reading::request_of, crate::specs::Reading::request_at))]
fn any_request(alloc: Global, text: &[u8]) -> Result<Request, StepFault>
    ensures { Gives step_cause (λ request. request) result (request_of (words_of text.now)) }
{
    let words = normal_words(alloc, text)?;
    match request_line(alloc, &words) {
        Err(fault) => Err(step_fault(TraceKind::Request, fault)),
        Ok((args, perm, rest)) => with_attributes(alloc, args, perm, rest),
    }
}

// A request and its attributes. That of a single path, the most frequent one, is read without a
// list of its words.
#[tactic(auto, unfolding(crate::specs::Reading::request_of, crate::specs::Reading::request_at))]
fn request_of(alloc: Global, text: &[u8]) -> Result<Request, StepFault>
    ensures { Gives step_cause (λ request. request) result (request_of (words_of text.now)) }
{
    match path_request(text) {
        None => any_request(alloc, text),
        Some((perm, name, rest)) => match path_name(alloc, perm, name) {
            Err(fault) => Err(step_fault(TraceKind::Request, fault)),
            Ok(name) => {
                let words = normal_words(alloc, rest)?;
                with_attributes(alloc, Args::Path(name), perm, &words)
            }
        },
    }
}

fn new_tree(alloc: Global, pid: u32, start: DomainName) -> Tree
    ensures { result ≡ new_tree pid start }
{
    Tree {
        start,
        pid,
        records: Seq::new(alloc),
    }
}

fn with_item(tree: Tree, item: Item) -> Result<Tree, NoMemory>
    ensures { IfOk result (λ next. next ≡ with_item tree item) }
{
    let Tree {
        start,
        pid,
        mut records,
    } = tree;
    records.push(item)?;
    Ok(Tree {
        start,
        pid,
        records,
    })
}

fn joined(mut before: Seq<Tree>, last: Option<Tree>) -> Result<Trace, NoMemory>
    ensures { IfOk result (λ trees. trees ≡ before ++ option_to_list last) }
{
    match last {
        None => Ok(before),
        Some(tree) => {
            before.push(tree)?;
            Ok(before)
        }
    }
}

// These pids and one more.
#[tactic(auto, unfolding(crate::specs::Steps::HasMore))]
fn with_pid(mut pids: BTreeSet<u32>, pid: u32) -> Result<BTreeSet<u32>, NoMemory>
    ensures { IfOk result (λ next. HasMore pids next pid) }
{
    pids.insert(pid)?;
    Ok(pids)
}

// This pid alone.
#[tactic(auto, unfolding(crate::specs::Steps::IsOnly))]
fn one_pid(alloc: Global, pid: u32) -> Result<BTreeSet<u32>, NoMemory>
    ensures { IfOk result (λ set. IsOnly set pid) }
{
    let mut set = BTreeSet::new(alloc);
    set.insert(pid)?;
    Ok(set)
}

// The trees that have been read: those before the last one and the last one, and beside them the
// pids of all and those of the last one.
#[derive(Drop)]
struct Reading {
    before: Seq<Tree>,
    last: Option<Tree>,
    made: BTreeSet<u32>,
    own: BTreeSet<u32>,
}

impl Model for Reading {
    ghost use Rattle.std.specs.Prelude.{◌++◌, option_to_list};
    ghost use Rattle.tm_trace.specs.Trees.{Trees, trace_pids};
    ghost use Rattle.tm_trace.specs.Steps.{Holds, last_pids};

    ghost Value = { Trees };

    ghost view = { λ r. record { before = r.before; last = r.last } };

    ghost invariant = { λ r. Holds r.made (trace_pids (r.before ++ option_to_list r.last))
        × Holds r.own (last_pids r.last) };
}

impl Reading {
    // No tree yet.
    fn new(alloc: Global) -> Reading
        ensures { result ≡ no_trees }
    {
        Reading {
            before: Seq::new(alloc),
            last: None,
            made: BTreeSet::new(alloc),
            own: BTreeSet::new(alloc),
        }
    }

    fn trace(self) -> Result<Trace, NoMemory>
        ensures { IfOk result (λ trace. trace ≡ all_trees self) }
    {
        let Reading { before, last, .. } = self;
        joined(before, last)
    }

    // A pid that no line has made.
    #[tactic(auto, unfolding(crate::specs::Reading::new_at))]
    fn new_at<'a>(&self, text: &'a [u8]) -> Result<(u32, &'a [u8]), StepFault>
        ensures { GivesNow step_cause (λ x. (x.0, words_of x.1.now)) result
            (new_at self.now (words_of text.now)) }
    {
        let (pid, rest) = as_step(TraceKind::Number, pid_at(text))?;
        if self.made.contains(&pid) {
            Err(StepFault::Kind(TraceKind::KnownProcess))
        } else {
            Ok((pid, rest))
        }
    }

    // A process of the last tree.
    #[tactic(auto, unfolding(crate::specs::Reading::process_at))]
    fn process_at<'a>(&self, text: &'a [u8]) -> Result<(u32, &'a [u8]), StepFault>
        ensures { GivesNow step_cause (λ x. (x.0, words_of x.1.now)) result
            (process_in self.now.last (words_of text.now)) }
    {
        if self.last.is_none() {
            return Err(StepFault::Kind(TraceKind::NoTree));
        }
        let (pid, rest) = as_step(TraceKind::Number, pid_at(text))?;
        if self.own.contains(&pid) {
            Ok((pid, rest))
        } else {
            Err(StepFault::Kind(TraceKind::NoProcess))
        }
    }

    // One tree more, which is the last one.
    fn with_tree(self, alloc: Global, pid: u32, start: DomainName) -> Result<Reading, NoMemory>
        ensures { IfOk result (λ next. next ≡ with_tree self (new_tree pid start)) }
    {
        let Reading {
            before,
            last,
            made,
            ..
        } = self;
        let before = joined(before, last)?;
        let made = with_pid(made, pid)?;
        let own = one_pid(alloc, pid)?;
        let tree = new_tree(alloc, pid, start);
        Ok(Reading {
            before,
            last: Some(tree),
            made,
            own,
        })
    }

    // One record more of the last tree, which makes no process.
    fn put_record(&mut self, item: Item) -> Result<(), StepFault>
        requires { made_by item ≡ [] }
        ensures { Gives step_cause (λ _. self.new) result (recorded self.old self.old.last item) }
    {
        match &mut self.last {
            None => Err(StepFault::Kind(TraceKind::NoTree)),
            Some(tree) => {
                tree.records.push(item)?;
                Ok(())
            }
        }
    }

    // A child of a process of the last tree.
    fn with_child(self, pid: u32, child: u32) -> Result<Reading, StepFault>
        ensures { Gives step_cause (λ next. next) result
            (recorded self self.last (Item.Fork pid child)) }
    {
        let Reading {
            before,
            last,
            made,
            own,
        } = self;
        match last {
            None => Err(StepFault::Kind(TraceKind::NoTree)),
            Some(tree) => {
                let made = with_pid(made, child)?;
                let own = with_pid(own, child)?;
                let tree = with_item(tree, Item::Fork(pid, child))?;
                Ok(Reading {
                    before,
                    last: Some(tree),
                    made,
                    own,
                })
            }
        }
    }

    // `tree PID DOMAIN`, past the first word.
    #[inline(never)]
    #[tactic(auto, unfolding(crate::specs::Reading::tree_line))]
    fn tree_line(&mut self, alloc: Global, text: &[u8]) -> Result<(), StepFault>
        ensures { Gives step_cause (λ _. self.new) result (tree_line self.old (words_of text.now)) }
    {
        let (pid, rest) = self.new_at(text)?;
        let words = normal_words(alloc, rest)?;
        let start = as_step(TraceKind::NoDomain, domain_to_end(alloc, &words))?;
        *self = replace(self, Reading::new(alloc)).with_tree(alloc, pid, start)?;
        Ok(())
    }

    // `ids PID UID EUID SUID FSUID GID EGID SGID FSGID`, past the first word.
    #[inline(never)]
    #[tactic(auto, unfolding(crate::specs::Reading::ids_line))]
    fn ids_line(&mut self, text: &[u8]) -> Result<(), StepFault>
        ensures { Gives step_cause (λ _. self.new) result
            (ids_line self.old self.old.last (words_of text.now)) }
    {
        let (pid, rest) = self.process_at(text)?;
        let ids = as_step(TraceKind::Number, ids_to_end(rest))?;
        self.put_record(Item::Ids(pid, ids))
    }

    // `fork PID CHILD`, past the first word.
    #[inline(never)]
    #[tactic(auto, unfolding(crate::specs::Reading::fork_line))]
    fn fork_line(&mut self, alloc: Global, text: &[u8]) -> Result<(), StepFault>
        ensures { Gives step_cause (λ _. self.new) result
            (fork_line self.old self.old.last (words_of text.now)) }
    {
        let (pid, rest) = self.process_at(text)?;
        let (child, rest) = self.new_at(rest)?;
        if cut_word(rest).is_some() {
            return Err(StepFault::Kind(TraceKind::Arity));
        }
        *self = replace(self, Reading::new(alloc)).with_child(pid, child)?;
        Ok(())
    }

    // `do PID REQUEST ATTRIBUTES`, past the first word.
    #[tactic(auto, unfolding(crate::specs::Reading::do_line))]
    fn do_line(&mut self, alloc: Global, text: &[u8]) -> Result<(), StepFault>
        ensures { Gives step_cause (λ _. self.new) result
            (do_line self.old self.old.last (words_of text.now)) }
    {
        let (pid, rest) = self.process_at(text)?;
        let request = request_of(alloc, rest)?;
        self.put_record(Item::Do(pid, request))
    }

    // A line. Most of them ask for something, so that `do` comes first.
    #[tactic(auto, using(crate::proofs::Keywords::do_first), unfolding(crate::specs::Reading::line_at))]
    fn read_line(&mut self, alloc: Global, line: &[u8]) -> Result<(), StepFault>
        ensures { Gives step_cause (λ _. self.new) result (line_at self.old (words_of line.now)) }
    {
        match cut_word(line) {
            None => Ok(()),
            Some((word, rest)) => {
                if bytes_equal(word, b"do") {
                    return self.do_line(alloc, rest);
                }
                if bytes_equal(word, b"tree") {
                    return self.tree_line(alloc, rest);
                }
                if bytes_equal(word, b"ids") {
                    return self.ids_line(rest);
                }
                if bytes_equal(word, b"fork") {
                    return self.fork_line(alloc, rest);
                }
                Err(StepFault::Kind(TraceKind::Keyword))
            }
        }
    }
}

/// Reads a trace: trees, each of them a line `tree PID DOMAIN` and then lines `ids`, `fork` and
/// `do` of its processes. A line without words does nothing.
///
/// Errors: the first faulty line, numbered from 1, and the kind of the first word at which it can't
/// go on; or want of memory.
#[tactic(auto, unfolding(crate::specs::Reading::trace_of, crate::specs::Reading::trace_from))]
pub fn read_trace(alloc: Global, bytes: &[u8]) -> Result<Trace, TraceFault>
    ensures { Gives trace_cause (λ trace. trace) result (trace_of bytes.now) }
{
    let mut trees = Reading::new(alloc);
    let mut rest = bytes;
    let mut number = 1;
    while let Some((line, after)) = cut_at(b'\n', rest) {
        in_line(number, trees.read_line(alloc, line))?;
        rest = after;
        number += 1;
    }
    in_line(number, trees.read_line(alloc, rest))?;
    match trees.trace() {
        Ok(trace) => Ok(trace),
        Err(_) => Err(TraceFault::NoMemory),
    }
}

// The first word of a line is `tree`.
fn is_tree_line(line: &[u8]) -> bool
    ensures { result ≡ is_tree_line (words_of line.now) }
{
    match cut_word(line) {
        None => false,
        Some((word, _)) => bytes_equal(word, b"tree"),
    }
}

/// The number of the line, from 1, that begins the tree at this place, from 0; None where the text
/// has no such tree. Takes no memory.
#[tactic(auto, unfolding(crate::specs::Reading::tree_line_at, crate::specs::Reading::tree_line_from))]
pub fn tree_line_at(bytes: &[u8], place: usize) -> Option<u64>
    ensures { result ≡ tree_line_at bytes.now place }
{
    let mut rest = bytes;
    let mut number = 1;
    let mut left = place;
    while let Some((line, after)) = cut_at(b'\n', rest) {
        if is_tree_line(line) {
            if left == 0 {
                return Some(number);
            }
            left -= 1;
        }
        rest = after;
        number += 1;
    }
    if left == 0 && is_tree_line(rest) {
        Some(number)
    } else {
        None
    }
}
