//! The lines that a tree has left.
ghost use Rattle.std.specs.Prelude.{◌≡◌, [], ◌∷◌, length, not, IfOk, MatchOption};
ghost use Rattle.tm_word.specs.Prelude.{is_empty};
ghost use Rattle.tm_legal.specs.Prelude.{do_pids};
ghost use Rattle.tm_take.specs.Situations.{situations};
ghost use Rattle.tm_take.specs.Passing.{PassesLine, Passes};

use crate::situations::ProcessSituations;
use std::collections::VecDeque;
use std::marker::Model;
use tm_list::{NoMemory, Seq};
use tm_types::request::{Item, Request};

/// The lines of a tree that are left, first one first. How many of them are requests is kept.
#[derive(Drop)]
pub struct Lines {
    items: VecDeque<Item>,
    requests: usize,
}

impl Model for Lines {
    ghost use Rattle.std.specs.Prelude.{◌≡◌, List, length};
    ghost use Rattle.tm_rules.specs.Types.{Item};
    ghost use Rattle.tm_legal.specs.Prelude.{do_pids};

    ghost Value = { List Item };

    ghost view = { λ lines. lines.items.items };

    ghost invariant = { λ lines. lines.requests ≡ length (do_pids lines.items.items) };
}

// How many of these lines are requests.
fn count_requests(items: &[Item]) -> usize
    ensures { result ≡ length (do_pids items.now) }
{
    let mut requests: usize = 0;
    for item in items {
        if let Item::Do(_, _) = item {
            requests += 1;
        }
    }
    requests
}

impl Lines {
    /// These lines, without taking memory.
    pub fn new(records: Seq<Item>) -> Lines
        ensures { result ≡ records }
    {
        let items = records.into_vec();
        let requests = count_requests(items.as_slice());
        Lines {
            items: VecDeque::from(items),
            requests,
        }
    }

    /// Whether a request is left.
    pub fn has_request(&self) -> bool
        ensures { result ≡ not (is_empty (do_pids self.now)) }
    {
        self.requests > 0
    }

    /// Takes the first line out; None where none is left.
    pub fn next(&mut self) -> Option<Item>
        ensures { MatchOption result ((self.old ≡ []) × (self.new ≡ []))
            (λ item. self.old ≡ item ∷ self.new) }
    {
        let item = self.items.pop_front()?;
        if let Item::Do(_, _) = item {
            self.requests -= 1;
        }
        Some(item)
    }
}

// Passes an `ids` or `fork` line; of a request's line it gives its process and the request.
fn pass_line(known: &mut ProcessSituations, item: Item) -> Result<Option<(u32, Request)>, NoMemory>
    ensures { IfOk result
        (λ next. PassesLine next item (situations known.old) (situations known.new)) }
{
    match item {
        Item::Ids(pid, ids) => {
            known.set_ids(pid, ids)?;
            Ok(None)
        }
        Item::Fork(pid, child) => {
            known.fork(pid, child)?;
            Ok(None)
        }
        Item::Do(pid, request) => Ok(Some((pid, request))),
    }
}

/// Passes the `ids` and `fork` lines before the next request and takes the request out, with the
/// pid of its process; None, and nothing changed, where no request is left.
pub fn pass(
    known: &mut ProcessSituations,
    lines: &mut Lines,
) -> Result<Option<(u32, Request)>, NoMemory>
    ensures { IfOk result
        (λ next. Passes next (situations known.old) lines.old (situations known.new) lines.new) }
{
    if !lines.has_request() {
        return Ok(None);
    }
    while let Some(item) = lines.next() {
        if let Some(next) = pass_line(known, item)? {
            return Ok(Some(next));
        }
    }
    Ok(None)
}
