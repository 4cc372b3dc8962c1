//! What the looks of a take come to.
ghost use Rattle.std.specs.Prelude.{◌≡◌, ◌↔◌, ◌&&◌, true, Some, IfOk, take, drop};
ghost use Rattle.std.specs.List.{list_all};
ghost use Rattle.std.specs.Option.{IfSome};
ghost use Rattle.tm_legal.specs.Prelude.{EndsWith, domain_after, last_look, last_number, look_grants, made_number, subject_of};
ghost use Rattle.tm_verify_laws.specs.First.{first_failing};
ghost use Rattle.tm_verify_notes.specs.Given.{scene_of, history_of};
ghost use Rattle.tm_take.specs.Each.{EachWith};
ghost use Rattle.tm_verify_notes.specs.Noting.{looks_on, all_looks, IsLookNote, IsTakeNote};
ghost use Rattle.tm_verify_notes.specs.Sums.{Completes, flag};

use crate::cases::DoCase;
use crate::given::Given;
use crate::looks::{do_follow, reply_at};
use crate::notes::{LookNote, PartNote};
use std::alloc::{AllocError, Global};
use tm_list::{NoMemory, Same};
use tm_take::look_grants;
use tm_types::step::{Look, MakeReply, Reply};
use tm_types::verdict::Move;

/// What is noted of a take: whether it begins where its process is and its looks show what their
/// versions say, whether their own steps are those that are asked for, whether they hear what they
/// should, and whether it ends as its last look says.
#[derive(Clone, Copy)]
pub struct TakeNote {
    pub holds: bool,
    pub owns: bool,
    pub hears: bool,
    pub ends: bool,
}

/// One of the four things that are noted of a take.
#[derive(Clone, Copy)]
pub enum Flag {
    Holds,
    Owns,
    Hears,
    Ends,
}

// What was noted of a look, where all of it was: no more memory is told else.
fn completed(part: &PartNote) -> Result<LookNote, NoMemory>
    ensures { IfOk result (Completes part.now) }
{
    match part.verdict {
        Some(verdict) => match part.hears {
            Some(hears) => Ok(LookNote { verdict, hears }),
            None => Err(AllocError),
        },
        None => Err(AllocError),
    }
}

/// What was noted of each look, where all of it was.
pub fn all_completed(alloc: Global, parts: &[PartNote]) -> Result<Vec<LookNote>, NoMemory>
    ensures { IfOk result (λ notes. EachWith Completes parts.now notes.items) }
{
    let mut notes = Vec::new(alloc);
    for part in parts {
        notes.push(completed(part)?)?;
    }
    Ok(notes)
}

// Whether each look shows what its version says.
fn all_shown(notes: &[LookNote]) -> bool
    ensures { result ≡ list_all (λ note. note.verdict.shown) notes.now }
{
    for note in notes {
        if !note.verdict.shown {
            return false;
        }
    }
    true
}

// Whether each look has the own steps that are asked for.
fn all_own(notes: &[LookNote]) -> bool
    ensures { result ≡ list_all (λ note. note.verdict.owns) notes.now }
{
    for note in notes {
        if !note.verdict.owns {
            return false;
        }
    }
    true
}

// Whether each look has heard what it should.
fn all_heard(notes: &[LookNote]) -> bool
    ensures { result ≡ list_all (λ note. note.hears) notes.now }
{
    for note in notes {
        if !note.hears {
            return false;
        }
    }
    true
}

// The last number, or 0.
fn last_number(own: &[u64]) -> u64
    ensures { result ≡ last_number own.now }
{
    let mut last = 0;
    for number in own {
        last = *number;
    }
    last
}

// The number in the reply of a Make.
fn made_number(reply: Option<Reply>) -> Option<u32>
    ensures { result ≡ made_number reply }
{
    match reply {
        Some(Reply::Make(MakeReply::New(number))) => Some(number),
        Some(Reply::Make(MakeReply::Old(number))) => Some(number),
        _ => None,
    }
}

// Where a look that grants leads.
fn led_by(given: &Given<'_>, before: u32, look: &Look) -> Option<u32>
    requires { look_grants look.now ≡ true }
    ensures { result ≡ domain_after (history_of given.now) before look.now }
{
    match look.step {
        Move::Enter(number) => Some(number),
        Move::Make => made_number(reply_at(given.steps, last_number(look.own.as_slice()))),
        _ => Some(before),
    }
}

// Where a look leads.
fn domain_after(given: &Given<'_>, before: u32, look: &Look) -> Option<u32>
    ensures { result ≡ domain_after (history_of given.now) before look.now }
{
    if look_grants(look) {
        led_by(given, before, look)
    } else {
        Some(before)
    }
}

// Whether a take ends as this look says.
fn ends_with(given: &Given<'_>, case: &DoCase<'_>, look: &Look, note: &LookNote) -> bool
    requires { IsLookNote (scene_of given.now) (history_of given.now) (case.now, look.now) note.now }
    ensures { (result ≡ true) ↔ EndsWith (scene_of given.now) (history_of given.now)
        (subject_of case.now) case.now.taken look.now }
{
    case.taken.granted == look_grants(look)
        && domain_after(given, case.taken.before, look).same(&Some(case.taken.after))
        && note.verdict.audited
}

// Whether a take ends as its last look says. No more memory is told where that look has no note.
fn ends(given: &Given<'_>, case: &DoCase<'_>, notes: &[LookNote]) -> Result<bool, NoMemory>
    requires { EachWith (IsLookNote (scene_of given.now) (history_of given.now))
        (looks_on case.now) notes.now }
    ensures { IfOk result (λ ends. (ends ≡ true) ↔ IfSome (last_look case.now.taken.looks)
        (EndsWith (scene_of given.now) (history_of given.now) (subject_of case.now) case.now.taken)) }
{
    let looks = case.taken.looks.as_slice();
    let count = looks.len();
    if count == 0 {
        return Ok(true);
    }
    match notes.get(count - 1) {
        Some(note) => Ok(ends_with(given, case, &looks[count - 1], note)),
        None => Err(AllocError),
    }
}

// Whether a take begins where its process is.
fn begins(case: &DoCase<'_>) -> bool
    ensures { (result ≡ true) ↔ (case.now.now.domain ≡ Some case.now.taken.before) }
{
    case.stand.domain.same(&Some(case.taken.before))
}

// Whether both hold.
fn both(one: bool, other: bool) -> bool
    ensures { result ≡ (one && other) }
{
    one && other
}

// What the notes of its looks come to.
fn take_note(given: &Given<'_>, case: &DoCase<'_>, notes: &[LookNote]) -> Result<TakeNote, NoMemory>
    requires { EachWith (IsLookNote (scene_of given.now) (history_of given.now))
        (looks_on case.now) notes.now }
    ensures { IfOk result (IsTakeNote (scene_of given.now) (history_of given.now) case.now) }
{
    let follows = do_follow(given.steps, case.taken.looks.as_slice());
    let ends = ends(given, case, notes)?;
    let shown = all_shown(notes);
    let heard = all_heard(notes);
    let begins = begins(case);
    let holds = both(begins, shown);
    let hears = both(heard, follows);
    let owns = all_own(notes);
    Ok(TakeNote {
        holds,
        owns,
        hears,
        ends,
    })
}

// So many notes, and those after them: no more memory is told where there are fewer.
fn cut_notes(notes: &[LookNote], own: usize) -> Result<(&[LookNote], &[LookNote]), NoMemory>
    ensures front { IfOk result (λ cut. cut.0.now ≡ take own notes.now) }
    ensures rest { IfOk result (λ cut. cut.1.now ≡ drop own notes.now) }
{
    if notes.len() < own {
        return Err(AllocError);
    }
    Ok((&notes[..own], &notes[own..]))
}

/// What is noted of each take.
pub fn all_takes(
    alloc: Global,
    given: &Given<'_>,
    cases: &[DoCase<'_>],
    notes: &[LookNote],
) -> Result<Vec<TakeNote>, NoMemory>
    requires { EachWith (IsLookNote (scene_of given.now) (history_of given.now))
        (all_looks cases.now) notes.now }
    ensures { IfOk result (λ takes.
        EachWith (IsTakeNote (scene_of given.now) (history_of given.now)) cases.now takes.items) }
{
    let mut takes = Vec::new(alloc);
    let mut rest = notes;
    for case in cases {
        let (own, others) = cut_notes(rest, case.taken.looks.len())?;
        takes.push(take_note(given, case, own)?)?;
        rest = others;
    }
    Ok(takes)
}

// Whether this was noted of a take.
fn was_noted(note: &TakeNote, which: Flag) -> bool
    ensures { result ≡ flag which note.now }
{
    match which {
        Flag::Holds => note.holds,
        Flag::Owns => note.owns,
        Flag::Hears => note.hears,
        Flag::Ends => note.ends,
    }
}

/// The number, from 1, of the first take of which this wasn't noted.
pub fn take_fault(notes: &[TakeNote], which: Flag) -> Option<u64>
    ensures { result ≡ first_failing (flag which) 1 notes.now }
{
    let mut number = 1;
    for note in notes {
        if !was_noted(note, which) {
            return Some(number);
        }
        number += 1;
    }
    None
}
