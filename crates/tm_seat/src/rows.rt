//! How rows are gathered.
ghost use Rattle.std.specs.Prelude.{◌≡◌, ◌<◌, ◌∷◌, [], IfOk, IfSome, IsTrue, MatchOption, length};
ghost use Rattle.tm_word.specs.Prelude.{is_empty};
ghost use Rattle.tm_seat.specs.Dealing.{queues_own, TakesFirst, IsGathered};

use crate::never::lost;
use crate::tree::PlayedTree;
use std::alloc::Global;
use std::collections::VecDeque;
use std::marker::Model;
use tm_list::{NoMemory, Seq};

/// The rows of a worker that aren't gathered yet.
#[derive(Drop)]
struct Queue {
    rows: VecDeque<PlayedTree>,
}

impl Model for Queue {
    ghost use Rattle.std.specs.Prelude.{List};
    ghost use Rattle.tm_seat.specs.declared.tree.PlayedTree.{PlayedTree};

    ghost Value = { List PlayedTree };

    ghost view = { λ queue. queue.rows.items };
}

impl Queue {
    /// These rows, without taking memory.
    fn new(rows: Seq<PlayedTree>) -> Queue
        ensures { result ≡ rows }
    {
        Queue {
            rows: VecDeque::from(rows.into_vec()),
        }
    }

    /// Takes the first row out; None where none is left.
    fn next(&mut self) -> Option<PlayedTree>
        ensures { MatchOption result ((self.old ≡ []) × (self.new ≡ []))
            (λ row. self.old ≡ row ∷ self.new) }
    {
        self.rows.pop_front()
    }

    /// Whether none is left.
    fn is_empty(&self) -> bool
        ensures { result ≡ is_empty self.now }
    {
        self.rows.is_empty()
    }
}

// The rows of all workers, to be taken out from the front.
fn line_up(alloc: Global, queues: Vec<Seq<PlayedTree>>) -> Result<Vec<Queue>, NoMemory>
    ensures { IfOk result (λ lined. lined.items ≡ queues.items) }
{
    let mut lined = Vec::new(alloc);
    for rows in queues {
        lined.push(Queue::new(rows))?;
    }
    Ok(lined)
}

// The next row of a worker, where it has this number.
fn next_row(queues: &mut Vec<Queue>, place: usize, number: u32) -> Option<PlayedTree>
    requires { place < length queues.old.items }
    ensures number { IfSome result (λ row. row.number ≡ number) }
    ensures first { IfSome result
        (λ row. TakesFirst queues.old.items place row queues.new.items) }
{
    let row = queues[place].next()?;
    if row.number != number {
        return None;
    }
    Some(row)
}

// Whether no row is left.
fn all_are_empty(queues: &[Queue]) -> bool
    ensures { IsTrue result → queues_own queues.now ≡ [] }
{
    for queue in queues {
        if !queue.is_empty() {
            return false;
        }
    }
    true
}

/// Gathers what workers have played, each in the order of its numbers, dealt to them one after
/// another: so many rows, from number 1.
///
/// Errors: want of memory; that a row is lacking, or one is left.
pub fn gather(
    alloc: Global,
    queues: Vec<Seq<PlayedTree>>,
    count: u32,
) -> Result<Vec<PlayedTree>, NoMemory>
    requires { 0 < length queues.items }
    ensures { IfOk result (λ rows. IsGathered count queues.items rows.items) }
{
    let workers = queues.len();
    let mut queues = line_up(alloc, queues)?;
    let mut rows = Vec::new(alloc);
    for before in 0..count {
        let Some(row) = next_row(&mut queues, before as usize % workers, before + 1) else {
            return Err(lost());
        };
        rows.push(row)?;
    }
    if !all_are_empty(queues.as_slice()) {
        return Err(lost());
    }
    Ok(rows)
}
