//! The takes by their processes.
ghost use Rattle.std.specs.Prelude.{◌≡◌, ◌++◌, ◌∷◌, [], flat_map, IsTrue, IfOk, OnOk, IfSome};
ghost use Rattle.tm_steal_rows.specs.Playing.{events_in, events_of};
ghost use Rattle.tm_steal_rows.specs.Gathering.{all_given, takes_of, ends_of, AreLaid, AreTheSame};

use crate::played::{Played, PlayedProcess, PlayedTake};
use std::alloc::Global;
use std::collections::VecDeque;
use tm_list::{NoMemory, Seq};
use tm_seat::lost;

/// The takes of each process of the trace, in their order, and all Ends, each with its tree's
/// number.
#[derive(Drop)]
pub(crate) struct Laid {
    pub(crate) queues: Vec<VecDeque<PlayedTake>>,
    pub(crate) ends: VecDeque<(u32, u64)>,
}

/// Whether nothing is left.
pub(crate) fn none_left<T>(left: &VecDeque<T>) -> bool
    ensures { IsTrue result → left.now.items ≡ [] }
{
    left.is_empty()
}

// So many processes, of which nothing was played.
fn empty_queues(alloc: Global, count: usize) -> Result<Vec<VecDeque<PlayedTake>>, NoMemory>
    ensures { IfOk result (λ queues. flat_map (λ queue. queue.items) queues.items ≡ []) }
{
    let mut queues = Vec::with_capacity(alloc, count)?;
    for _process in 0..count {
        queues.push(VecDeque::new(alloc))?;
    }
    Ok(queues)
}

// The takes of a process that nobody else has played.
fn fill(queues: &mut Vec<VecDeque<PlayedTake>>, process: PlayedProcess) -> Result<(), NoMemory>
    ensures { OnOk result (AreLaid (flat_map (λ queue. queue.items) queues.old.items)
        process.takes.items (flat_map (λ queue. queue.items) queues.new.items)) }
{
    let PlayedProcess { place, takes, .. } = process;
    match queues.get(place) {
        Some(queue) => {
            if !none_left(queue) {
                return Err(lost());
            }
            queues[place] = VecDeque::from(takes);
            Ok(())
        }
        None => Err(lost()),
    }
}

// What was played: a process, or an End behind the others.
fn lay(
    queues: &mut Vec<VecDeque<PlayedTake>>,
    ends: &mut VecDeque<(u32, u64)>,
    played: Played,
) -> Result<(), NoMemory>
    ensures takes { OnOk result (AreLaid (flat_map (λ queue. queue.items) queues.old.items)
        (takes_of (events_in played)) (flat_map (λ queue. queue.items) queues.new.items)) }
    ensures ends { OnOk result (ends.new.items ≡ ends.old.items ++ ends_of (events_in played)) }
{
    match played {
        Played::Process(process) => fill(queues, process),
        Played::End(tree, number) => {
            ends.push_back((tree, number))?;
            Ok(())
        }
    }
}

// All that a worker has played.
fn lay_all(
    queues: &mut Vec<VecDeque<PlayedTake>>,
    ends: &mut VecDeque<(u32, u64)>,
    all: Seq<Played>,
) -> Result<(), NoMemory>
    ensures takes { OnOk result (AreLaid (flat_map (λ queue. queue.items) queues.old.items)
        (takes_of (events_of all)) (flat_map (λ queue. queue.items) queues.new.items)) }
    ensures ends { OnOk result (ends.new.items ≡ ends.old.items ++ ends_of (events_of all)) }
{
    for played in all.into_vec() {
        lay(queues, ends, played)?;
    }
    Ok(())
}

// All that the workers give back.
fn lay_given(
    queues: &mut Vec<VecDeque<PlayedTake>>,
    ends: &mut VecDeque<(u32, u64)>,
    given: Vec<Seq<Played>>,
) -> Result<(), NoMemory>
    ensures takes { OnOk result (AreLaid (flat_map (λ queue. queue.items) queues.old.items)
        (takes_of (all_given given.items)) (flat_map (λ queue. queue.items) queues.new.items)) }
    ensures ends { OnOk result
        (ends.new.items ≡ ends.old.items ++ ends_of (all_given given.items)) }
{
    for all in given {
        lay_all(queues, ends, all)?;
    }
    Ok(())
}

/// All that the workers give back, where the trace has so many processes.
///
/// Errors: want of memory; that a process was played more than once.
pub(crate) fn lay_out(
    alloc: Global,
    given: Vec<Seq<Played>>,
    count: usize,
) -> Result<Laid, NoMemory>
    ensures takes { IfOk result (λ laid. AreTheSame (takes_of (all_given given.items))
        (flat_map (λ queue. queue.items) laid.queues.items)) }
    ensures ends { IfOk result (λ laid. laid.ends.items ≡ ends_of (all_given given.items)) }
{
    let mut queues = empty_queues(alloc, count)?;
    let mut ends = VecDeque::new(alloc);
    lay_given(&mut queues, &mut ends, given)?;
    Ok(Laid { queues, ends })
}

/// The first take that is left of the process at this place, if there is one.
pub(crate) fn next_of(queues: &mut Vec<VecDeque<PlayedTake>>, process: u32) -> Option<PlayedTake>
    ensures { IfSome result (λ played. AreTheSame (flat_map (λ queue. queue.items) queues.old.items)
        (played ∷ flat_map (λ queue. queue.items) queues.new.items)) }
{
    match queues.get_mut(process as usize) {
        Some(queue) => queue.pop_front(),
        None => None,
    }
}

/// How many takes are left of all processes.
pub(crate) fn count_left(queues: &[VecDeque<PlayedTake>]) -> usize {
    let mut count: usize = 0;
    for queue in queues {
        count = count.saturating_add(queue.len());
    }
    count
}

/// Whether nothing is left of any process.
pub(crate) fn no_take_left(queues: &[VecDeque<PlayedTake>]) -> bool
    ensures { IsTrue result → flat_map (λ queue. queue.items) queues.now ≡ [] }
{
    for queue in queues {
        if !none_left(queue) {
            return false;
        }
    }
    true
}
