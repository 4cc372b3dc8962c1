//! Whether each step has its place: owned as often as its kind asks, the next line of its editor,
//! and with the reply that it has there.
ghost use Rattle.std.specs.Prelude.{◌≡◌, ◌↔◌, [], true, length, Some, None, IfOk, MatchOption, if◌then◌else◌};
ghost use Rattle.tm_legal.specs.Prelude.{is_own, times_owned};
ghost use Rattle.tm_verify_laws.specs.First.{AllAfter, FirstFailsAfter};
ghost use Rattle.tm_verify_laws.specs.Placed.{IsPlaced, NoLineMissing, PlacesFail};
ghost use Rattle.tm_verify_notes.specs.Given.{scene_of, history_of, run_of};
ghost use Rattle.tm_verify_notes.specs.Stepping.{AreNoted};
ghost use Rattle.tm_verify_steps.specs.Counting.{owned_counts};
ghost use Rattle.tm_verify_steps.specs.Lines.{HasHad, IsInPlace, had_after, have_all};

use crate::counts::{count_at, owned_counts};
use crate::lines::take_step;
use crate::noted::note_at;
use std::alloc::{AllocError, Global};
use tm_list::NoMemory;
use tm_types::step::{Editor, Step};
use tm_verify_notes::{Given, StepNote};

// Whether a process makes a step.
fn is_own(step: &Step) -> bool
    ensures { result ≡ is_own step.now }
{
    match step {
        Step::Learn(_, _) => true,
        Step::Make(_, _) => true,
        Step::Fail(_) => true,
        Step::Ask(_, _, _) => true,
        Step::Answer(_, _) => false,
        Step::Attach => false,
        Step::Detach => false,
        Step::Edit(_, _, _) => false,
        Step::End(_) => false,
    }
}

// How often a step is to be an own step.
fn times_owned(step: &Step) -> u8
    ensures { result ≡ times_owned (Some step.now) }
{
    if is_own(step) { 1 } else { 0 }
}

// Whether a step has its place: its number is owned so often, its reply is right or not, and it is
// the next line of its editor, which then has had it.
fn is_in_place(
    editors: &[Editor],
    count: u8,
    replied: bool,
    had: &mut Vec<usize>,
    step: &Step,
) -> bool
    ensures right { (result ≡ true) ↔ IsInPlace editors.now count replied had.old.items step.now }
    ensures had { result ≡ true → had.new.items ≡ had_after had.old.items step.now }
{
    if count != times_owned(step) {
        return false;
    }
    if !replied {
        return false;
    }
    take_step(editors, had, step)
}

// The number of the first step without its place. No more memory is told where a note is missing.
fn first_misplaced(
    given: &Given<'_>,
    notes: &[StepNote],
    counts: &[u8],
    had: &mut Vec<usize>,
) -> Result<Option<u64>, NoMemory>
    requires noted { AreNoted (scene_of given.now) [] (history_of given.now) notes.now }
    requires counted { counts.now ≡ owned_counts given.now.takes.now (history_of given.now) }
    requires had { HasHad (scene_of given.now) [] had.old.items }
    ensures fault { IfOk result (λ fault. MatchOption fault
        (AllAfter (IsPlaced (scene_of given.now) (run_of given.now)) [] (history_of given.now))
        (FirstFailsAfter (IsPlaced (scene_of given.now) (run_of given.now)) [] (history_of given.now))) }
    ensures had { IfOk result (λ fault. fault ≡ None
        → HasHad (scene_of given.now) (history_of given.now) had.new.items) }
{
    let mut place: usize = 0;
    for pair in given.steps {
        let Some(note) = note_at(notes, place) else {
            return Err(AllocError);
        };
        let Some(count) = count_at(counts, place) else {
            return Err(AllocError);
        };
        if !is_in_place(given.editors, *count, note.replied, had, &pair.0) {
            return Ok(Some(place as u64 + 1));
        }
        place += 1;
    }
    Ok(None)
}

// Whether each editor has had all its lines.
fn have_all(editors: &[Editor], had: &[usize]) -> bool
    ensures { result ≡ have_all editors.now had.now }
{
    let mut rest = had;
    for editor in editors {
        match rest {
            [] => return false,
            [number, after @ ..] => {
                if *number != editor.lines.len() {
                    return false;
                }
                rest = after;
            }
        }
    }
    true
}

// 0 where an editor's line is missing.
fn lines_fault(editors: &[Editor], had: &[usize]) -> Option<u64>
    ensures { result ≡ (if have_all editors.now had.now then None else Some 0) }
{
    if have_all(editors, had) {
        None
    } else {
        Some(0)
    }
}

/// The number of the first step without its place; 0 where only lines of editors are missing; None
/// where neither is. No more memory is told where a step has no note.
pub(crate) fn places_fault(
    alloc: Global,
    given: &Given<'_>,
    notes: &[StepNote],
) -> Result<Option<u64>, NoMemory>
    requires noted { AreNoted (scene_of given.now) [] (history_of given.now) notes.now }
    ensures { IfOk result (λ fault. MatchOption fault
        (AllAfter (IsPlaced (scene_of given.now) (run_of given.now)) [] (history_of given.now)
        × NoLineMissing (scene_of given.now) (history_of given.now))
        (PlacesFail (scene_of given.now) (run_of given.now))) }
{
    let counts = owned_counts(alloc, given.takes, given.steps)?;
    let mut had = Vec::from_elem(alloc, 0, given.editors.len())?;
    match first_misplaced(given, notes, counts.as_slice(), &mut had)? {
        Some(place) => Ok(Some(place)),
        None => Ok(lines_fault(given.editors, had.as_slice())),
    }
}
