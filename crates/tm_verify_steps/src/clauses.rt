//! The clauses in their order, by what was noted of looks and of steps.
ghost use Rattle.std.specs.Prelude.{◌≡◌, ◌+◌, ◌<◌, ◌^◌, [], length, IfOk};
ghost use Rattle.tm_legal.specs.Prelude.{Case, cases_of};
ghost use Rattle.tm_verify_laws.specs.First.{first_failing};
ghost use Rattle.tm_verify_laws.specs.Scans.{do_rise};
ghost use Rattle.tm_verify_notes.specs.Given.{scene_of, history_of, run_of};
ghost use Rattle.tm_verify_notes.specs.Stepping.{AreNoted};
ghost use Rattle.tm_verify_steps.specs.Clauses.{HoldBelow, IsJudged, NotesTakes};

use crate::places::places_fault;
use crate::supervised::desk_fault;
use std::alloc::Global;
use tm_list::NoMemory;
use tm_verify_laws::Broken;
use tm_verify_notes::{DoCase, Flag, Given, StepNote, TakeNote, do_rise, take_fault};

/// The number, from 1, of the first take of which a look is below its floor or above the last
/// version.
pub fn rise_fault(last: u64, cases: &[DoCase<'_>]) -> Option<u64>
    ensures { result
        ≡ first_failing (λ (c : Case). do_rise last c.now.floor c.taken.looks) 1 cases.now }
{
    let mut number = 1;
    for case in cases {
        if !do_rise(last, case.stand.floor, case.taken.looks.as_slice()) {
            return Some(number);
        }
        number += 1;
    }
    None
}

// The last clause: each take ends as its last look says.
fn judge_ends(given: &Given<'_>, notes: &[TakeNote]) -> Option<Broken>
    requires below { HoldBelow given.now 8 }
    requires noted { NotesTakes given.now notes.now }
    ensures { IsJudged given.now result }
{
    let _ = given;
    match take_fault(notes, Flag::Ends) {
        Some(place) => Some(Broken { clause: 8, place }),
        None => None,
    }
}

// From the clause on that looks hear what there is to hear.
fn judge_hears(given: &Given<'_>, notes: &[TakeNote]) -> Option<Broken>
    requires below { HoldBelow given.now 7 }
    requires noted { NotesTakes given.now notes.now }
    ensures { IsJudged given.now result }
{
    match take_fault(notes, Flag::Hears) {
        Some(place) => Some(Broken { clause: 7, place }),
        None => judge_ends(given, notes),
    }
}

// From the clause of the supervisor on.
fn judge_desk(
    alloc: Global,
    given: &Given<'_>,
    cases: &[DoCase<'_>],
    notes: &[TakeNote],
    steps: &[StepNote],
) -> Result<Option<Broken>, NoMemory>
    requires trees { length given.now.trace.now + 1 < 2 ^ 32 }
    requires below { HoldBelow given.now 6 }
    requires cases { cases.now ≡ cases_of (scene_of given.now) (run_of given.now) }
    requires noted { NotesTakes given.now notes.now }
    requires steps { AreNoted (scene_of given.now) [] (history_of given.now) steps.now }
    ensures { IfOk result (IsJudged given.now) }
{
    match desk_fault(alloc, given, cases, steps)? {
        Some(place) => Ok(Some(Broken { clause: 6, place })),
        None => Ok(judge_hears(given, notes)),
    }
}

// From the clause on that steps have their places.
fn judge_places(
    alloc: Global,
    given: &Given<'_>,
    cases: &[DoCase<'_>],
    notes: &[TakeNote],
    steps: &[StepNote],
) -> Result<Option<Broken>, NoMemory>
    requires trees { length given.now.trace.now + 1 < 2 ^ 32 }
    requires below { HoldBelow given.now 5 }
    requires cases { cases.now ≡ cases_of (scene_of given.now) (run_of given.now) }
    requires noted { NotesTakes given.now notes.now }
    requires steps { AreNoted (scene_of given.now) [] (history_of given.now) steps.now }
    ensures { IfOk result (IsJudged given.now) }
{
    match places_fault(alloc, given, steps)? {
        Some(place) => Ok(Some(Broken { clause: 5, place })),
        None => judge_desk(alloc, given, cases, notes, steps),
    }
}

// From the clause on that looks have the own steps that are asked for.
fn judge_owns(
    alloc: Global,
    given: &Given<'_>,
    cases: &[DoCase<'_>],
    notes: &[TakeNote],
    steps: &[StepNote],
) -> Result<Option<Broken>, NoMemory>
    requires trees { length given.now.trace.now + 1 < 2 ^ 32 }
    requires below { HoldBelow given.now 4 }
    requires cases { cases.now ≡ cases_of (scene_of given.now) (run_of given.now) }
    requires noted { NotesTakes given.now notes.now }
    requires steps { AreNoted (scene_of given.now) [] (history_of given.now) steps.now }
    ensures { IfOk result (IsJudged given.now) }
{
    match take_fault(notes, Flag::Owns) {
        Some(place) => Ok(Some(Broken { clause: 4, place })),
        None => judge_places(alloc, given, cases, notes, steps),
    }
}

/// The clauses from the third on, that looks show what their versions say, where the first two
/// hold: None where all hold, else the first that fails.
pub fn judge_noted(
    alloc: Global,
    given: &Given<'_>,
    cases: &[DoCase<'_>],
    notes: &[TakeNote],
    steps: &[StepNote],
) -> Result<Option<Broken>, NoMemory>
    requires trees { length given.now.trace.now + 1 < 2 ^ 32 }
    requires below { HoldBelow given.now 3 }
    requires cases { cases.now ≡ cases_of (scene_of given.now) (run_of given.now) }
    requires noted { NotesTakes given.now notes.now }
    requires steps { AreNoted (scene_of given.now) [] (history_of given.now) steps.now }
    ensures { IfOk result (IsJudged given.now) }
{
    match take_fault(notes, Flag::Holds) {
        Some(place) => Ok(Some(Broken { clause: 3, place })),
        None => judge_owns(alloc, given, cases, notes, steps),
    }
}
