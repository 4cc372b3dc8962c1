//! A look beside the verdict of its version; no step is made or copied. Throughout, `own` has the
//! numbers in `steps`, from 1, of the look's own steps, and `before` is the domain it looked in.
ghost use Rattle.std.specs.Prelude.{◌≡◌, ◌↔◌, ◌∷◌, ◌&&◌, [], true, IfOk, Some, map, if◌then◌else◌};
ghost use Rattle.std.specs.Option.{option_copied};
ghost use Rattle.tm_verify_notes.specs.Tomoyo.{tomoyo_grammar};
ghost use Rattle.tm_rules.specs.Types.{Reason, Step};
ghost use Rattle.tm_legal.specs.Prelude.{look_grants, retry_written, step_at, steps_asked, steps_of_line, steps_of_move};
ghost use Rattle.tm_verify_notes.specs.Noting.{IsVerdictNote};

use std::alloc::Global;
use tm_list::{NoMemory, Same};
use tm_take::{look_grants, printed};
use tm_types::entry::Entry;
use tm_types::step::{Look, Reply, Step};
use tm_types::unions::DomainName;
use tm_types::verdict::{Move, Reason, Verdict};
use tm_verify_notes::{VerdictNote, is_shown, owns_in_order, retry_written, step_at};
use tm_word::Text;

// Whether this is the Learn of a line.
fn is_learn(found: Option<&Step>, before: u32, line: &Entry) -> bool
    ensures { (result ≡ true) ↔ (option_copied found.entry ≡ Some (Step.Learn before line.now)) }
{
    match found {
        Some(Step::Learn(domain, entry)) => *domain == before && entry.same(line),
        _ => false,
    }
}

// Whether this is the Ask with this text.
fn is_ask(found: Option<&Step>, before: u32, retry: u32, text: &Text) -> bool
    ensures { (result ≡ true) ↔ (option_copied found.entry ≡ Some (Step.Ask before retry text.now)) }
{
    match found {
        Some(Step::Ask(domain, number, line)) => *domain == before
            && *number == retry
            && line.same(text),
        _ => false,
    }
}

// Whether this is the Make of a name.
fn is_make(found: Option<&Step>, before: u32, name: &DomainName) -> bool
    ensures { (result ≡ true) ↔ (option_copied found.entry ≡ Some (Step.Make before name.now)) }
{
    match found {
        Some(Step::Make(domain, made)) => *domain == before && made.same(name),
        _ => false,
    }
}

// Whether this is the Fail of a domain.
fn is_fail(found: Option<&Step>, before: u32) -> bool
    ensures { (result ≡ true) ↔ (option_copied found.entry ≡ Some (Step.Fail before)) }
{
    match found {
        Some(Step::Fail(domain)) => *domain == before,
        _ => false,
    }
}

// Whether no number is left.
fn owns_none(steps: &[(Step, Reply)], own: &[u64]) -> bool
    ensures { (result ≡ true) ↔ (map (step_at steps.now) own.now ≡ map Some []) }
{
    match own {
        [] => true,
        [_, ..] => false,
    }
}

// Whether these are the numbers of the Make of this name alone.
fn owns_make(steps: &[(Step, Reply)], own: &[u64], before: u32, name: &DomainName) -> bool
    ensures { (result ≡ true)
        ↔ (map (step_at steps.now) own.now ≡ map Some (Step.Make before name.now ∷ [])) }
{
    match own {
        [] => false,
        [number, rest @ ..] => is_make(step_at(steps, *number), before, name)
            && owns_none(steps, rest),
    }
}

// Whether this is one number alone, that of the Fail of the domain.
fn owns_fail(steps: &[(Step, Reply)], own: &[u64], before: u32) -> bool
    ensures { (result ≡ true)
        ↔ (map (step_at steps.now) own.now ≡ map Some (Step.Fail before ∷ [])) }
{
    match own {
        [] => false,
        [number, rest @ ..] => is_fail(step_at(steps, *number), before) && owns_none(steps, rest),
    }
}

// Whether these are the numbers of the steps that a move asks for.
fn owns_move(steps: &[(Step, Reply)], own: &[u64], before: u32, verdict: &Verdict) -> bool
    ensures { (result ≡ true) ↔ (map (step_at steps.now) own.now
        ≡ map Some (steps_of_move before verdict.now)) }
{
    match verdict.step {
        Move::Make => match &verdict.target {
            Some(name) => owns_make(steps, own, before, name),
            None => owns_none(steps, own),
        },
        Move::Fail => owns_fail(steps, own, before),
        Move::Stay | Move::Enter(_) => owns_none(steps, own),
    }
}

// The same where it is granted; else whether there are none.
fn owns_move_if(
    steps: &[(Step, Reply)],
    own: &[u64],
    before: u32,
    verdict: &Verdict,
    granted: bool,
) -> bool
    ensures { (result ≡ true) ↔ (map (step_at steps.now) own.now
        ≡ map Some (if granted then steps_of_move before verdict.now else [])) }
{
    if granted {
        owns_move(steps, own, before, verdict)
    } else {
        owns_none(steps, own)
    }
}

// Whether these are the numbers of the Learn of this line, and of what is led to.
fn owns_learn(
    steps: &[(Step, Reply)],
    own: &[u64],
    before: u32,
    line: &Entry,
    verdict: &Verdict,
    granted: bool,
) -> bool
    ensures { (result ≡ true) ↔ (map (step_at steps.now) own.now ≡ map Some
        (Step.Learn before line.now
        ∷ (if granted then steps_of_move before verdict.now else []))) }
{
    match own {
        [] => false,
        [number, rest @ ..] => is_learn(step_at(steps, *number), before, line)
            && owns_move_if(steps, rest, before, verdict, granted),
    }
}

// Whether these are the numbers of the Ask with this text, and of what is led to.
fn owns_ask(
    steps: &[(Step, Reply)],
    own: &[u64],
    before: u32,
    retry: u32,
    text: &Text,
    verdict: &Verdict,
    granted: bool,
) -> bool
    ensures { (result ≡ true) ↔ (map (step_at steps.now) own.now ≡ map Some
        (Step.Ask before retry text.now
        ∷ (if granted then steps_of_move before verdict.now else []))) }
{
    match own {
        [] => false,
        [number, rest @ ..] => is_ask(step_at(steps, *number), before, retry, text)
            && owns_move_if(steps, rest, before, verdict, granted),
    }
}

// Whether these are the numbers of what a verdict `learn` asks for.
#[tactic(auto, using(crate::proofs::OwnLaws::learn_asked, crate::proofs::OwnLaws::learn_none))]
fn owns_by_learn(
    steps: &[(Step, Reply)],
    own: &[u64],
    before: u32,
    retry: u32,
    verdict: &Verdict,
    granted: bool,
) -> bool
    requires { verdict.now.reason ≡ Reason.Learn }
    ensures { (result ≡ true) ↔ (map (step_at steps.now) own.now
        ≡ map Some (steps_asked tomoyo_grammar before retry verdict.now granted)) }
{
    let _ = retry;
    match &verdict.line {
        Some(line) => owns_learn(steps, own, before, line.get(), verdict, granted),
        None => owns_move_if(steps, own, before, verdict, granted),
    }
}

// Whether these are the numbers of what a verdict `ask` asks for.
#[tactic(auto, using(crate::proofs::OwnLaws::ask_none))]
fn owns_by_ask(
    alloc: Global,
    steps: &[(Step, Reply)],
    own: &[u64],
    before: u32,
    retry: u32,
    verdict: &Verdict,
    granted: bool,
) -> Result<bool, NoMemory>
    requires { verdict.now.reason ≡ Reason.Ask }
    ensures { IfOk result (λ owns. (owns ≡ true) ↔ (map (step_at steps.now) own.now
        ≡ map Some (steps_asked tomoyo_grammar before retry verdict.now granted))) }
{
    match &verdict.line {
        Some(line) => {
            let text = printed(alloc, line.get())?;
            Ok(owns_ask(steps, own, before, retry, &text, verdict, granted))
        }
        None => Ok(owns_move_if(steps, own, before, verdict, granted)),
    }
}

// Whether these are the numbers of the steps that a verdict asks for.
#[tactic(auto, using(crate::proofs::OwnLaws::others_asked))]
fn owns_asked(
    alloc: Global,
    steps: &[(Step, Reply)],
    own: &[u64],
    before: u32,
    retry: u32,
    verdict: &Verdict,
    granted: bool,
) -> Result<bool, NoMemory>
    ensures { IfOk result (λ owns. (owns ≡ true) ↔ (map (step_at steps.now) own.now
        ≡ map Some (steps_asked tomoyo_grammar before retry verdict.now granted))) }
{
    match verdict.reason {
        Reason::Learn => Ok(owns_by_learn(steps, own, before, retry, verdict, granted)),
        Reason::Ask => owns_by_ask(alloc, steps, own, before, retry, verdict, granted),
        Reason::Entry(_)
        | Reason::Disabled
        | Reason::Permissive
        | Reason::Quota
        | Reason::NoEntry
        | Reason::NotReady
        | Reason::NoManual => Ok(owns_move_if(steps, own, before, verdict, granted)),
    }
}

// Whether both hold.
fn both(one: bool, other: bool) -> bool
    ensures { result ≡ (one && other) }
{
    one && other
}

/// A look of a take with this audit text beside the verdict and the audit text of its version.
pub fn note_of(
    alloc: Global,
    steps: &[(Step, Reply)],
    before: u32,
    audit: &Option<Text>,
    look: &Look,
    verdict: &Verdict,
    found: &Option<Text>,
) -> Result<VerdictNote, NoMemory>
    ensures { IfOk result
        (IsVerdictNote steps.now before audit.now found.now look.now verdict.now) }
{
    let retry = retry_written(steps, look);
    let granted = look_grants(look);
    let own = look.own.as_slice();
    let asked = owns_asked(alloc, steps, own, before, retry, verdict, granted)?;
    let shown = is_shown(look, verdict);
    let audited = audit.same(found);
    let ordered = owns_in_order(look);
    let owns = both(asked, ordered);
    Ok(VerdictNote {
        shown,
        owns,
        audited,
    })
}
