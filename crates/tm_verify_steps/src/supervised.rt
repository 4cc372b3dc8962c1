//! With which step the supervisor's steps and the trees' ends can't go on any more.
ghost use Rattle.std.specs.Prelude.{◌≡◌, ◌+◌, ◌<◌, ◌^◌, ◌&&◌, [], not, length, Some, IfOk, MatchOption};
ghost use Rattle.std.specs.Option.{option_copied};
ghost use Rattle.tm_rules.specs.Types.{Reply, Step};
ghost use Rattle.tm_legal.specs.Prelude.{cases_of, is_of_supervisor};
ghost use Rattle.tm_verify_laws.specs.First.{first_failing};
ghost use Rattle.tm_verify_laws.specs.Desk.{DeskHolds, DeskFails, desk_fault};
ghost use Rattle.tm_verify_notes.specs.Given.{scene_of, history_of, run_of};
ghost use Rattle.tm_verify_notes.specs.Stepping.{AreNoted};
ghost use Rattle.tm_verify_steps.specs.Heights.{height, raised_all};
ghost use Rattle.tm_verify_steps.specs.Acting.{IsActing, have_ended};

use crate::acts::Acts;
use crate::heights::{Heights, heights_of};
use crate::noted::note_at;
use std::alloc::{AllocError, Global};
use tm_list::NoMemory;
use tm_types::request::Tree;
use tm_types::step::{Book, Reply, Step};
use tm_verify_notes::{DoCase, Given, StepNote};

// Whether a step is made only where there is a supervisor.
fn is_of_supervisor(step: &Step) -> bool
    ensures { result ≡ is_of_supervisor step.now }
{
    match step {
        Step::Answer(_, _) => true,
        Step::Attach => true,
        Step::Detach => true,
        Step::End(_) => true,
        Step::Learn(_, _) => false,
        Step::Make(_, _) => false,
        Step::Fail(_) => false,
        Step::Ask(_, _, _) => false,
        Step::Edit(_, _, _) => false,
    }
}

// The number of the first step that only a supervisor's run has.
fn first_of_supervisor(steps: &[(Step, Reply)]) -> Option<u64>
    ensures { result
        ≡ first_failing (λ (pair : Step × Reply). not (is_of_supervisor pair.0)) 1 steps.now }
{
    let mut number = 1;
    for pair in steps {
        if is_of_supervisor(&pair.0) {
            return Some(number);
        }
        number += 1;
    }
    None
}

// Whether nothing is missing: the supervisor has come and left, and each tree has ended.
fn is_complete(acts: &Acts, trace: &[Tree]) -> bool
    requires { length trace.now + 1 < 2 ^ 32 }
    ensures { result ≡ (acts.now.came && (acts.now.left && have_ended acts.now 1 trace.now)) }
{
    acts.came && (acts.left && acts.have_ended(trace))
}

// The least step that the supervisor of this book, or a tree, may not make; 0 where only steps are
// missing. No more memory is told where a step has no note.
fn fault_by_book(
    given: &Given<'_>,
    book: &Book,
    heights: &Heights,
    notes: &[StepNote],
    acts: Acts,
) -> Result<Option<u64>, NoMemory>
    requires trees { length given.now.trace.now + 1 < 2 ^ 32 }
    requires book { (scene_of given.now).book ≡ Some book.now }
    requires heights { height heights.now
        ≡ raised_all (λ tree. 0) (cases_of (scene_of given.now) (run_of given.now)) }
    requires noted { AreNoted (scene_of given.now) [] (history_of given.now) notes.now }
    requires acts { IsActing [] acts }
    ensures { IfOk result (λ fault. fault ≡ desk_fault (scene_of given.now) (run_of given.now)) }
{
    let mut acts = acts;
    let mut number: u64 = 1;
    for pair in given.steps {
        let Some(note) = note_at(notes, (number - 1) as usize) else {
            return Err(AllocError);
        };
        if !acts.may_make(heights, given.trace, book, number, note.suits, &pair.0) {
            return Ok(Some(number));
        }
        acts.note(&pair.0)?;
        number += 1;
    }
    if is_complete(&acts, given.trace) {
        Ok(None)
    } else {
        Ok(Some(0))
    }
}

/// The least step that the clause of the supervisor can't have after those before it; 0 where only
/// steps are missing; None where neither is. No more memory is told where a step has no note.
pub(crate) fn desk_fault(
    alloc: Global,
    given: &Given<'_>,
    cases: &[DoCase<'_>],
    notes: &[StepNote],
) -> Result<Option<u64>, NoMemory>
    requires trees { length given.now.trace.now + 1 < 2 ^ 32 }
    requires cases { cases.now ≡ cases_of (scene_of given.now) (run_of given.now) }
    requires noted { AreNoted (scene_of given.now) [] (history_of given.now) notes.now }
    ensures { IfOk result (λ fault. MatchOption fault
        (DeskHolds (scene_of given.now) (run_of given.now))
        (DeskFails (scene_of given.now) (run_of given.now))) }
{
    match given.book {
        None => Ok(first_of_supervisor(given.steps)),
        Some(book) => {
            let heights = heights_of(alloc, cases)?;
            let acts = Acts::none(alloc);
            fault_by_book(given, book, &heights, notes, acts)
        }
    }
}
