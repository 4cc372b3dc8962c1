//! The judge of a run: the clauses in their order, over one machine that makes the steps once.
ghost use Rattle.std.specs.Prelude.{◌≡◌, ◌+◌, ◌<◌, ◌^◌, [], length, IfOk};
ghost use Rattle.std.specs.Option.{option_copied};
ghost use Rattle.std.specs.List.{AllByRecursion};
ghost use Rattle.tm_rules.specs.Prelude.{IsFew};
ghost use Rattle.tm_core.specs.Tomoyo.{tomoyo_grammar};
ghost use Rattle.tm_legal.specs.Prelude.{IsNamed, all_do_pids, cases_of};
ghost use Rattle.tm_verify_notes.specs.Given.{scene_of, history_of, run_of};
ghost use Rattle.tm_verify_notes.specs.Stepping.{AreNoted};
ghost use Rattle.tm_take.specs.Each.{EachWith};
ghost use Rattle.tm_verify_notes.specs.Noting.{all_looks, Asks, IsPartNote, IsTakeNote};
ghost use Rattle.tm_verify_steps.specs.Clauses.{HoldBelow, IsJudged, NotesTakes};
ghost use Rattle.tm_verify.specs.Asking.{IsAsking};
ghost use Rattle.tm_verify.specs.Verified.{IsVerified, judged_scene};

use crate::judging::{all_dues, judge_all};
use crate::pass::Pass;
use std::alloc::Global;
use tm_indexed::Indexed;
use tm_list::{Copied, NoMemory};
use tm_types::policy::Policy;
use tm_types::request::Trace;
use tm_types::step::{Book, Editor, Run};
use tm_verify_laws::Broken;
use tm_verify_notes::rep::Rep;
use tm_verify_notes::{
    DoCase, Given, LookOn, PartNote, StepNote, TakeNote, all_cases, all_completed, all_do_pids,
    all_looks, all_takes, no_parts, pairs_fault,
};
use tm_verify_steps::{judge_noted, rise_fault};

// What is noted of each take, where all was noted of its looks.
fn takes_by(
    alloc: Global,
    given: &Given<'_>,
    cases: &[DoCase<'_>],
    looks: &[LookOn<'_>],
    parts: &[PartNote],
) -> Result<Vec<TakeNote>, NoMemory>
    requires looks { looks.now ≡ all_looks cases.now }
    requires noted { EachWith (IsPartNote (scene_of given.now) (history_of given.now))
        looks.now parts.now }
    ensures { IfOk result (λ takes.
        EachWith (IsTakeNote (scene_of given.now) (history_of given.now)) cases.now takes.items) }
{
    let _ = looks;
    let notes = all_completed(alloc, parts)?;
    all_takes(alloc, given, cases, notes.as_slice())
}

// What one machine notes of each take, whose looks are these, and of each step.
fn notes_by<R: Rep>(
    alloc: Global,
    given: &Given<'_>,
    rep: R,
    cases: &[DoCase<'_>],
    looks: &[LookOn<'_>],
) -> Result<(Vec<TakeNote>, Vec<StepNote>), NoMemory>
    requires few { IsFew (R.policy rep) }
    requires opening { R.policy rep ≡ given.now.opening.now }
    requires named { IsNamed tomoyo_grammar.is_path (R.policy rep) }
    requires trees { length given.now.trace.now + 1 < 2 ^ 32 }
    requires looks { looks.now ≡ all_looks cases.now }
    requires asked { AllByRecursion (λ on. Asks on.0) looks.now }
    ensures takes { IfOk result (λ notes.
        EachWith (IsTakeNote (scene_of given.now) (history_of given.now)) cases.now notes.0.items) }
    ensures steps { IfOk result (λ notes.
        AreNoted (scene_of given.now) [] (history_of given.now) notes.1.items) }
{
    let dues = all_dues(alloc, looks, given.steps.len() as u64)?;
    let mut parts = no_parts(alloc, given, looks)?;
    let mut pass = Pass::start(alloc, given, rep)?;
    judge_all(alloc, given, &mut pass, dues.as_slice(), looks, &mut parts)?;
    let steps = pass.into_notes(alloc, given)?;
    let takes = takes_by(alloc, given, cases, looks, parts.as_slice())?;
    Ok((takes, steps))
}

// What one machine notes of each take, and of each step.
fn notes_of<'a, R: Rep>(
    alloc: Global,
    given: &Given<'_>,
    rep: R,
    cases: &'a [DoCase<'a>],
) -> Result<(Vec<TakeNote>, Vec<StepNote>), NoMemory>
    requires few { IsFew (R.policy rep) }
    requires opening { R.policy rep ≡ given.now.opening.now }
    requires named { IsNamed tomoyo_grammar.is_path (R.policy rep) }
    requires trees { length given.now.trace.now + 1 < 2 ^ 32 }
    requires asked { IsAsking given.now.trace.now }
    requires cases { cases.now ≡ cases_of (scene_of given.now) (run_of given.now) }
    ensures takes { IfOk result (λ notes.
        EachWith (IsTakeNote (scene_of given.now) (history_of given.now)) cases.now notes.0.items) }
    ensures steps { IfOk result (λ notes.
        AreNoted (scene_of given.now) [] (history_of given.now) notes.1.items) }
{
    let looks = all_looks(alloc, cases)?;
    notes_by(alloc, given, rep, cases, looks.as_slice())
}

// From the third clause on, by the notes that one machine makes.
fn judge_notes<'a, R: Rep>(
    alloc: Global,
    given: &Given<'_>,
    rep: R,
    cases: &'a [DoCase<'a>],
) -> Result<Option<Broken>, NoMemory>
    requires few { IsFew (R.policy rep) }
    requires opening { R.policy rep ≡ given.now.opening.now }
    requires named { IsNamed tomoyo_grammar.is_path (R.policy rep) }
    requires trees { length given.now.trace.now + 1 < 2 ^ 32 }
    requires asked { IsAsking given.now.trace.now }
    requires cases { cases.now ≡ cases_of (scene_of given.now) (run_of given.now) }
    requires below { HoldBelow given.now 3 }
    ensures { IfOk result (IsJudged given.now) }
{
    let (notes, steps) = notes_of(alloc, given, rep, cases)?;
    judge_noted(alloc, given, cases, notes.as_slice(), steps.as_slice())
}

// From the second clause on, which is judged before any machine is made.
fn judge_cases<'a, R: Rep>(
    alloc: Global,
    given: &Given<'_>,
    rep: R,
    cases: &'a [DoCase<'a>],
) -> Result<Option<Broken>, NoMemory>
    requires few { IsFew (R.policy rep) }
    requires opening { R.policy rep ≡ given.now.opening.now }
    requires named { IsNamed tomoyo_grammar.is_path (R.policy rep) }
    requires trees { length given.now.trace.now + 1 < 2 ^ 32 }
    requires asked { IsAsking given.now.trace.now }
    requires cases { cases.now ≡ cases_of (scene_of given.now) (run_of given.now) }
    requires below { HoldBelow given.now 2 }
    ensures { IfOk result (IsJudged given.now) }
{
    match rise_fault(given.steps.len() as u64, cases) {
        Some(place) => Ok(Some(Broken { clause: 2, place })),
        None => judge_notes(alloc, given, rep, cases),
    }
}

// The same, where the takes are those of the `do` lines.
fn judge_versions<R: Rep>(
    alloc: Global,
    given: &Given<'_>,
    rep: R,
) -> Result<Option<Broken>, NoMemory>
    requires few { IsFew (R.policy rep) }
    requires opening { R.policy rep ≡ given.now.opening.now }
    requires named { IsNamed tomoyo_grammar.is_path (R.policy rep) }
    requires trees { length given.now.trace.now + 1 < 2 ^ 32 }
    requires asked { IsAsking given.now.trace.now }
    requires below { HoldBelow given.now 2 }
    ensures { IfOk result (IsJudged given.now) }
{
    let cases = all_cases(alloc, &rep, given.trace, given.takes)?;
    judge_cases(alloc, given, rep, cases.as_slice())
}

// All clauses, where these are the pids of the `do` lines.
fn judge_pids<R: Rep>(
    alloc: Global,
    given: &Given<'_>,
    rep: R,
    pids: &[u32],
) -> Result<Option<Broken>, NoMemory>
    requires few { IsFew (R.policy rep) }
    requires opening { R.policy rep ≡ given.now.opening.now }
    requires named { IsNamed tomoyo_grammar.is_path (R.policy rep) }
    requires trees { length given.now.trace.now + 1 < 2 ^ 32 }
    requires asked { IsAsking given.now.trace.now }
    requires pids { pids.now ≡ all_do_pids given.now.trace.now }
    ensures { IfOk result (IsJudged given.now) }
{
    match pairs_fault(given.takes, pids) {
        Some(place) => Ok(Some(Broken { clause: 1, place })),
        None => judge_versions(alloc, given, rep),
    }
}

/// Whether a run is legal, judged with this representation of its opening policy: None where it is,
/// else the clause that it breaks first, and where.
///
/// Errors: want of memory.
pub fn judge_run<R: Rep>(
    alloc: Global,
    given: &Given<'_>,
    rep: R,
) -> Result<Option<Broken>, NoMemory>
    requires few { IsFew (R.policy rep) }
    requires opening { R.policy rep ≡ given.now.opening.now }
    requires named { IsNamed tomoyo_grammar.is_path (R.policy rep) }
    requires trees { length given.now.trace.now + 1 < 2 ^ 32 }
    requires asked { IsAsking given.now.trace.now }
    ensures { IfOk result (IsJudged given.now) }
{
    let pids = all_do_pids(alloc, given.trace)?;
    judge_pids(alloc, given, rep, pids.as_slice())
}

/// Whether a run is legal for its opening policy, trace, editors and book: None where it is, else
/// the clause that it breaks first, and where. The run may hold anything that its types can.
///
/// Errors: want of memory.
pub fn legal(
    alloc: Global,
    opening: &Policy,
    trace: &Trace,
    editors: &[Editor],
    book: Option<&Book>,
    run: &Run,
) -> Result<Option<Broken>, NoMemory>
    requires few { IsFew opening.now }
    requires named { IsNamed tomoyo_grammar.is_path opening.now }
    requires trees { length trace.now + 1 < 2 ^ 32 }
    requires asked { IsAsking trace.now }
    ensures { IfOk result (λ broken. IsVerified
        (judged_scene opening.now trace.now editors.now (option_copied book.entry)) run.now broken) }
{
    let rep = Indexed::new(alloc, opening.copy(alloc)?)?;
    let given = Given {
        opening,
        trace: trace.as_slice(),
        editors,
        book,
        steps: run.steps.as_slice(),
        takes: run.takes.as_slice(),
    };
    let broken = judge_run(alloc, &given, rep)?;
    Ok(broken)
}
