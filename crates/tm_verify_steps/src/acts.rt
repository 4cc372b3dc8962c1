//! What the supervisor and the trees' ends have done so far, and whether they may go on so.
ghost use Rattle.std.specs.Prelude.{◌≡◌, ◌+◌, ◌<◌, ◌^◌, ◌&&◌, ◌||◌, not, [], length, OnOk};
ghost use Rattle.tm_verify_laws.specs.Desk.{has_room, is_stop};
ghost use Rattle.tm_verify_steps.specs.Heights.{height};
ghost use Rattle.tm_verify_steps.specs.Acting.{IsActing, HasActed, have_ended, may_make};

use crate::heights::Heights;
use std::alloc::Global;
use std::collections::BTreeSet;
use tm_list::NoMemory;
use tm_types::request::Tree;
use tm_types::step::{Book, Step};

/// Whether the supervisor has come, and has left, how often it has answered, and which trees have
/// ended.
#[derive(Drop)]
pub(crate) struct Acts {
    pub(crate) came: bool,
    pub(crate) left: bool,
    pub(crate) answers: u64,
    pub(crate) ended: BTreeSet<u32>,
}

// Whether the book allows an answer more.
fn has_room(stop: Option<u64>, answers: u64) -> bool
    ensures { result ≡ has_room stop answers }
{
    match stop {
        None => true,
        Some(stop) => answers < stop,
    }
}

// Whether these are the answers after which the book says that the supervisor leaves.
fn is_stop(stop: Option<u64>, answers: u64) -> bool
    ensures { result ≡ is_stop stop answers }
{
    match stop {
        None => false,
        Some(stop) => stop == answers,
    }
}

impl Acts {
    /// Nothing was done.
    pub(crate) fn none(alloc: Global) -> Acts
        ensures { IsActing [] result }
    {
        Acts {
            came: false,
            left: false,
            answers: 0,
            ended: BTreeSet::new(alloc),
        }
    }

    /// Whether each tree has ended.
    pub(crate) fn have_ended(&self, trace: &[Tree]) -> bool
        requires { length trace.now + 1 < 2 ^ 32 }
        ensures { result ≡ have_ended self.now 1 trace.now }
    {
        let mut number: u32 = 1;
        for tree in trace {
            let _ = tree;
            if !self.ended.contains(&number) {
                return false;
            }
            number += 1;
        }
        true
    }

    // Whether the supervisor is there.
    fn is_there(&self) -> bool
        ensures { result ≡ (self.now.came && not self.now.left) }
    {
        self.came && !self.left
    }

    // Whether the supervisor may leave.
    fn may_leave(&self, trace: &[Tree], book: &Book, suits: bool) -> bool
        requires { length trace.now + 1 < 2 ^ 32 }
        ensures { result ≡ (is_stop book.now.stop self.now.answers
            || (have_ended self.now 1 trace.now && suits)) }
    {
        is_stop(book.stop, self.answers) || (self.have_ended(trace) && suits)
    }

    /// Whether the supervisor of this book, or a tree, may make a step as one of this number, where
    /// the first unanswered query suits or not.
    pub(crate) fn may_make(
        &self,
        heights: &Heights,
        trace: &[Tree],
        book: &Book,
        number: u64,
        suits: bool,
        step: &Step,
    ) -> bool
        requires { length trace.now + 1 < 2 ^ 32 }
        ensures { result
            ≡ may_make self.now (height heights.now) trace.now book.now number suits step.now }
    {
        match step {
            Step::Attach => !self.came,
            Step::Answer(_, _) => self.is_there() && (has_room(book.stop, self.answers) && suits),
            Step::Detach => self.is_there() && self.may_leave(trace, book, suits),
            Step::End(tree) => !self.ended.contains(tree) && heights.of(*tree) < number,
            Step::Learn(_, _)
            | Step::Make(_, _)
            | Step::Fail(_)
            | Step::Ask(_, _, _)
            | Step::Edit(_, _, _) => true,
        }
    }

    /// A step was made.
    pub(crate) fn note(&mut self, step: &Step) -> Result<(), NoMemory>
        requires few { self.old.answers + 1 < 2 ^ 64 }
        ensures { OnOk result (HasActed self.old self.new step.now) }
    {
        match step {
            Step::Attach => self.came = true,
            Step::Detach => self.left = true,
            Step::Answer(_, _) => self.answers += 1,
            Step::End(tree) => {
                self.ended.insert(*tree)?;
            }
            Step::Learn(_, _)
            | Step::Make(_, _)
            | Step::Fail(_)
            | Step::Ask(_, _, _)
            | Step::Edit(_, _, _) => {}
        }
        Ok(())
    }
}
