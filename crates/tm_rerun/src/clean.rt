//! Clean runs.
ghost use Rattle.std.specs.Prelude.{◌≡◌};
ghost use Rattle.std.specs.List.{list_all};
ghost use Rattle.tm_rules.specs.Prelude.{is_calm_mode, is_clean, is_clean_look, is_clean_step, is_clean_take, is_quota};

use crate::quiet::is_quiet;
use tm_types::policy::Mode;
use tm_types::step::{EditReply, LearnReply, Look, Reply, Run, Step, Take};
use tm_types::verdict::Reason;

fn is_calm_mode(mode: Option<Mode>) -> bool
    ensures { result ≡ is_calm_mode mode }
{
    match mode {
        None => true,
        Some(Mode::Disabled) => true,
        Some(Mode::Learning) => true,
        Some(Mode::Permissive) => false,
        Some(Mode::Enforcing) => false,
    }
}

fn is_quota(reason: Reason) -> bool
    ensures { result ≡ is_quota reason }
{
    match reason {
        Reason::Quota => true,
        _ => false,
    }
}

fn is_clean_look(look: &Look) -> bool
    ensures { result ≡ is_clean_look look.now }
{
    is_calm_mode(look.mode) && !is_quota(look.reason)
}

fn are_clean_looks(looks: &[Look]) -> bool
    ensures { result ≡ list_all is_clean_look looks.now }
{
    for look in looks {
        if !is_clean_look(look) {
            return false;
        }
    }
    true
}

fn is_clean_take(take: &Take) -> bool
    ensures { result ≡ is_clean_take take.now }
{
    take.granted && are_clean_looks(take.looks.as_slice())
}

fn are_clean_takes(takes: &[Take]) -> bool
    ensures { result ≡ list_all is_clean_take takes.now }
{
    for take in takes {
        if !is_clean_take(take) {
            return false;
        }
    }
    true
}

// Whether a step is a clean one: a Learn is added or there, no transition fails, and an edit that
// is done is quiet.
fn is_clean_step(step: &(Step, Reply)) -> bool
    ensures { result ≡ is_clean_step step.now }
{
    match &step.0 {
        Step::Learn(_, _) => match step.1 {
            Reply::Learn(LearnReply::Added | LearnReply::There) => true,
            Reply::Learn(LearnReply::Quota | LearnReply::Mode) => false,
            Reply::Make(_) | Reply::Fail(_) | Reply::Ask(_) | Reply::Answer(_) => false,
            Reply::Attach(_) | Reply::Detach(_) | Reply::Edit(_) | Reply::End => false,
        },
        Step::Fail(_) => false,
        Step::Edit(_, file, line) => match step.1 {
            Reply::Edit(EditReply::Done) => is_quiet(*file, line.bytes()),
            Reply::Edit(EditReply::NotManager | EditReply::BadLine(_)) => true,
            Reply::Edit(EditReply::NoDomain | EditReply::NoProfile | EditReply::NoSuchLine) => true,
            Reply::Learn(_) | Reply::Make(_) | Reply::Fail(_) | Reply::Ask(_) => true,
            Reply::Answer(_) | Reply::Attach(_) | Reply::Detach(_) | Reply::End => true,
        },
        Step::Make(_, _) | Step::Ask(_, _, _) | Step::Answer(_, _) => true,
        Step::Attach | Step::Detach | Step::End(_) => true,
    }
}

fn are_clean_steps(steps: &[(Step, Reply)]) -> bool
    ensures { result ≡ list_all is_clean_step steps.now }
{
    for step in steps {
        if !is_clean_step(step) {
            return false;
        }
    }
    true
}

/// Whether a run is clean. Each of its takes is granted, and each look is in mode disabled or
/// learning, or of a manual transition, and isn't granted because the domain is full. Of its steps,
/// each Learn is replied that its line is added or there, no transition fails, and each edit that
/// is done is quiet, which the words of its line alone tell. Takes no memory.
#[tactic(auto, unfolding(tm_rules::specs::Clean::is_clean))]
pub fn is_clean(run: &Run) -> bool
    ensures { result ≡ is_clean run.now }
{
    are_clean_takes(run.takes.as_slice()) && are_clean_steps(run.steps.as_slice())
}
