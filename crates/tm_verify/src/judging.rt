//! Looks judged at the versions that they name, as one machine passes them.
ghost use Rattle.std.specs.Prelude.{◌≡◌, ◌↔◌, ◌++◌, true, Some, None, IfOk, OnOk};
ghost use Rattle.std.specs.List.{AllByRecursion};
ghost use Rattle.tm_legal.specs.Prelude.{Hears, LookHears, reply_at};
ghost use Rattle.tm_verify_notes.specs.Given.{scene_of, history_of};
ghost use Rattle.tm_verify.specs.Passing.{IsAt};
ghost use Rattle.tm_verify.specs.Seeing.{IsNotedBeside};
ghost use Rattle.tm_take.specs.Each.{EachWith};
ghost use Rattle.tm_verify_notes.specs.Noting.{looks_on, all_looks, Asks, IsSeen, IsHeard, IsPartNote, IsVerdictNote};

use crate::pass::Pass;
use std::alloc::{AllocError, Global};
use tm_core::judge;
use tm_list::{NoMemory, Same};
use tm_take::Judged;
use tm_types::step::{Answered, Heard, Held, Look, Reply};
use tm_types::verdict::Reason;
use tm_verify_notes::rep::Rep;
use tm_verify_notes::{DoCase, Given, LookOn, PartNote, VerdictNote, owns_in_order, reply_at};
use tm_verify_steps::note_of;

/// A look that is due at a version: its place among all looks, and whether it is its answer that is
/// to be judged.
#[derive(Clone, Copy)]
pub(crate) struct Due {
    pub(crate) version: u64,
    pub(crate) place: usize,
    pub(crate) hears: bool,
}

// What is noted of a look beside the verdict and the audit text of its version.
fn note_found(
    alloc: Global,
    given: &Given<'_>,
    case: &DoCase<'_>,
    look: &Look,
    found: &Judged,
) -> Result<VerdictNote, NoMemory>
    ensures { IfOk result (IsVerdictNote (history_of given.now) case.now.taken.before
        case.now.taken.audit found.now.audit look.now found.now.verdict) }
{
    let taken = case.taken;
    note_of(
        alloc,
        given.steps,
        taken.before,
        &taken.audit,
        look,
        &found.verdict,
        &found.audit,
    )
}

// What is noted of a look beside no verdict.
#[tactic(auto, using(tm_verify_notes::proofs::NoteLaws::order_is))]
fn note_none(given: &Given<'_>, case: &DoCase<'_>, look: &Look) -> VerdictNote
    ensures { IsNotedBeside (history_of given.now) case.now look.now None result }
{
    let _ = given;
    let _ = case;
    VerdictNote {
        shown: false,
        owns: owns_in_order(look),
        audited: true,
    }
}

// What is noted of a look beside what its version shows.
fn note_beside(
    alloc: Global,
    given: &Given<'_>,
    case: &DoCase<'_>,
    look: &Look,
    found: &Option<Judged>,
) -> Result<VerdictNote, NoMemory>
    ensures { IfOk result (IsNotedBeside (history_of given.now) case.now look.now found.now) }
{
    match found {
        Some(found) => note_found(alloc, given, case, look, found),
        None => Ok(note_none(given, case, look)),
    }
}

// Judges a look at its version: no more memory is told at any other.
fn judge_look<R: Rep>(
    alloc: Global,
    given: &Given<'_>,
    pass: &Pass<R>,
    case: &DoCase<'_>,
    look: &Look,
) -> Result<VerdictNote, NoMemory>
    requires at { IsAt given.now pass.now }
    requires asked { Asks case.now }
    ensures { IfOk result
        (IsSeen (scene_of given.now) (history_of given.now) (case.now, look.now)) }
{
    if pass.version != look.version {
        return Err(AllocError);
    }
    let found = judge(
        alloc,
        &pass.machine,
        case.taken.before,
        &case.stand.process,
        case.request,
    )?;
    let note = note_beside(alloc, given, case, look, &found);
    drop(found);
    note
}

// The same of a look beside its take.
fn judge_seen<R: Rep>(
    alloc: Global,
    given: &Given<'_>,
    pass: &Pass<R>,
    on: &LookOn<'_>,
) -> Result<VerdictNote, NoMemory>
    requires at { IsAt given.now pass.now }
    requires asked { Asks on.now.0 }
    ensures { IfOk result (IsSeen (scene_of given.now) (history_of given.now) on.now) }
{
    judge_look(alloc, given, pass, on.case, on.look)
}

// Whether nobody was there to be heard at the Ask of this number.
fn hears_nobody(number: u64, heard: Option<Heard>) -> bool
    ensures { (result ≡ true) ↔ (heard ≡ Some (record { answer = None; version = number })) }
{
    match heard {
        None => false,
        Some(heard) => heard.answer.is_none() && heard.version == number,
    }
}

// Whether the query of a serial has this answer at this version, which isn't below the Ask's number
// or above the last one: no more memory is told at any other.
fn hears_answer<R: Rep>(
    given: &Given<'_>,
    pass: &Pass<R>,
    number: u64,
    serial: u64,
    answer: Answered,
    version: u64,
) -> Result<bool, NoMemory>
    requires at { IsAt given.now pass.now }
    ensures { IfOk result (λ hears. (hears ≡ true) ↔ Hears (scene_of given.now)
        (history_of given.now) number (Some (Reply.Ask (Held.Serial serial)))
        (Some (record { answer = Some answer; version = version }))) }
{
    if version < number || version > given.steps.len() as u64 {
        return Ok(false);
    }
    if pass.version != version {
        return Err(AllocError);
    }
    Ok(pass.machine.answer_of(serial).same(&Some(answer)))
}

// Whether what was heard is what there was to hear of the query of a serial.
fn hears_serial<R: Rep>(
    given: &Given<'_>,
    pass: &Pass<R>,
    number: u64,
    serial: u64,
    heard: Option<Heard>,
) -> Result<bool, NoMemory>
    requires at { IsAt given.now pass.now }
    ensures { IfOk result (λ hears. (hears ≡ true) ↔ Hears (scene_of given.now)
        (history_of given.now) number (Some (Reply.Ask (Held.Serial serial))) heard) }
{
    match heard {
        None => Ok(false),
        Some(heard) => match heard.answer {
            None => Ok(false),
            Some(answer) => hears_answer(given, pass, number, serial, answer, heard.version),
        },
    }
}

// Whether what was heard is what there was to hear of the Ask of this number.
fn hears_ask<R: Rep>(
    given: &Given<'_>,
    pass: &Pass<R>,
    number: u64,
    heard: Option<Heard>,
) -> Result<bool, NoMemory>
    requires at { IsAt given.now pass.now }
    ensures { IfOk result (λ hears. (hears ≡ true) ↔ Hears (scene_of given.now)
        (history_of given.now) number (reply_at (history_of given.now) number) heard) }
{
    match reply_at(given.steps, number) {
        Some(Reply::Ask(Held::Nobody)) => Ok(hears_nobody(number, heard)),
        Some(Reply::Ask(Held::Serial(serial))) => hears_serial(given, pass, number, serial, heard),
        _ => Ok(false),
    }
}

// Judges what a look has heard, at the version that it names.
fn judge_heard<R: Rep>(given: &Given<'_>, pass: &Pass<R>, look: &Look) -> Result<bool, NoMemory>
    requires at { IsAt given.now pass.now }
    ensures { IfOk result (λ hears. (hears ≡ true)
        ↔ LookHears (scene_of given.now) (history_of given.now) look.now) }
{
    match look.reason {
        Reason::Ask => match look.own.as_slice() {
            [] => Ok(false),
            [number, ..] => hears_ask(given, pass, *number, look.heard),
        },
        _ => Ok(look.heard.is_none()),
    }
}

// Judges a look, or what it has heard, and notes it beside what was noted before.
fn judge_part<R: Rep>(
    alloc: Global,
    given: &Given<'_>,
    pass: &Pass<R>,
    hears: bool,
    on: &LookOn<'_>,
    part: PartNote,
) -> Result<PartNote, NoMemory>
    requires at { IsAt given.now pass.now }
    requires asked { Asks on.now.0 }
    requires noted { IsPartNote (scene_of given.now) (history_of given.now) on.now part }
    ensures { IfOk result (IsPartNote (scene_of given.now) (history_of given.now) on.now) }
{
    if hears {
        let heard = judge_heard(given, pass, on.look)?;
        Ok(PartNote {
            verdict: part.verdict,
            hears: Some(heard),
        })
    } else {
        let verdict = judge_seen(alloc, given, pass, on)?;
        Ok(PartNote {
            verdict: Some(verdict),
            hears: part.hears,
        })
    }
}

// Judges the look that is due.
fn judge_due<R: Rep>(
    alloc: Global,
    given: &Given<'_>,
    pass: &Pass<R>,
    due: Due,
    looks: &[LookOn<'_>],
    parts: &mut Vec<PartNote>,
) -> Result<(), NoMemory>
    requires at { IsAt given.now pass.now }
    requires asked { AllByRecursion (λ on. Asks on.0) looks.now }
    requires noted { EachWith (IsPartNote (scene_of given.now) (history_of given.now))
        looks.now parts.old.items }
    ensures { OnOk result (EachWith (IsPartNote (scene_of given.now) (history_of given.now))
        looks.now parts.new.items) }
{
    let Some(on) = looks.get(due.place) else {
        return Err(AllocError);
    };
    let Some(part) = parts.get(due.place) else {
        return Err(AllocError);
    };
    let part = judge_part(alloc, given, pass, due.hears, on, *part)?;
    parts[due.place] = part;
    Ok(())
}

/// Judges every look that is due, in this order, and makes all steps.
pub(crate) fn judge_all<R: Rep>(
    alloc: Global,
    given: &Given<'_>,
    pass: &mut Pass<R>,
    dues: &[Due],
    looks: &[LookOn<'_>],
    parts: &mut Vec<PartNote>,
) -> Result<(), NoMemory>
    requires at { IsAt given.now pass.old }
    requires asked { AllByRecursion (λ on. Asks on.0) looks.now }
    requires noted { EachWith (IsPartNote (scene_of given.now) (history_of given.now))
        looks.now parts.old.items }
    ensures at { OnOk result (IsAt given.now pass.new) }
    ensures noted { OnOk result (EachWith (IsPartNote (scene_of given.now) (history_of given.now))
        looks.now parts.new.items) }
{
    for due in dues {
        pass.reach(alloc, given, due.version)?;
        judge_due(alloc, given, pass, *due, looks, parts)?;
    }
    Ok(())
}

// The version at which what a look has heard can be judged; 0 where it needs none.
fn heard_at(look: &Look, last: u64) -> u64 {
    match look.heard {
        None => 0,
        Some(heard) => if heard.version <= last {
            heard.version
        } else {
            0
        },
    }
}

/// When each look and each answer is due, by rising version.
pub(crate) fn all_dues(
    alloc: Global,
    looks: &[LookOn<'_>],
    last: u64,
) -> Result<Vec<Due>, NoMemory> {
    let mut dues = Vec::new(alloc);
    let mut place: usize = 0;
    for on in looks {
        let version = on.look.version;
        let heard = heard_at(on.look, last);
        dues.push(Due {
            version,
            place,
            hears: false,
        })?;
        dues.push(Due {
            version: heard,
            place,
            hears: true,
        })?;
        place += 1;
    }
    dues.sort_by_key(|due| due.version)?;
    Ok(dues)
}
