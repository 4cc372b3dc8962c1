//! Looks and their own steps, as far as no state is needed.
ghost use Rattle.std.specs.Prelude.{◌≡◌, nat_lt, Some};
ghost use Rattle.std.specs.List.{list_all};
ghost use Rattle.std.specs.Option.{option_copied};
ghost use Rattle.tm_rules.specs.Prelude.{numbered};
ghost use Rattle.tm_legal.specs.Prelude.{is_retry, reply_at, retry_of, retry_written, step_at};
ghost use Rattle.tm_verify_laws.specs.Looks.{rises_from, is_after_answer, asks_so, is_followed, goes_on, do_follow};

use tm_types::step::{Answered, Heard, Look, Reply, Step};
use tm_types::verdict::Reason;

/// Whether each number is above the one before.
pub fn rises_from(low: u64, own: &[u64]) -> bool
    ensures { result ≡ rises_from low own.now }
{
    let mut last = low;
    for number in own {
        if *number <= last {
            return false;
        }
        last = *number;
    }
    true
}

/// Whether all numbers are above a version.
fn all_above(version: u64, numbers: &[u64]) -> bool
    ensures { result ≡ list_all (λ n. nat_lt version n) numbers.now }
{
    for number in numbers {
        if *number <= version {
            return false;
        }
    }
    true
}

/// Whether what stands after an Ask is above the version at which its answer was taken.
fn is_after_ask(heard: Option<Heard>, own: &[u64]) -> bool
    ensures { result ≡ is_after_answer Reason.Ask heard own.now }
{
    match heard {
        None => true,
        Some(heard) => match own {
            [] => true,
            [_, make @ ..] => all_above(heard.version, make),
        },
    }
}

/// The same of a look of any reason.
pub fn is_after_answer(reason: Reason, heard: Option<Heard>, own: &[u64]) -> bool
    ensures { result ≡ is_after_answer reason heard own.now }
{
    match reason {
        Reason::Ask => is_after_ask(heard, own),
        Reason::Entry(_) => true,
        Reason::Disabled => true,
        Reason::Permissive => true,
        Reason::Quota => true,
        Reason::Learn => true,
        Reason::NoEntry => true,
        Reason::NotReady => true,
        Reason::NoManual => true,
    }
}

/// The step of a number, from 1.
pub fn step_at(steps: &[(Step, Reply)], number: u64) -> Option<&Step>
    ensures { option_copied result ≡ step_at steps.now number }
{
    if number == 0 {
        return None;
    }
    match steps.get((number - 1) as usize) {
        Some((step, _)) => Some(step),
        None => None,
    }
}

/// The retry number of an Ask; 0 of every other step.
fn retry_of(step: &Step) -> u32
    ensures { result ≡ retry_of (Some step.now) }
{
    match step {
        Step::Ask(_, retry, _) => *retry,
        Step::Learn(_, _) => 0,
        Step::Make(_, _) => 0,
        Step::Fail(_) => 0,
        Step::Answer(_, _) => 0,
        Step::Attach => 0,
        Step::Detach => 0,
        Step::Edit(_, _, _) => 0,
        Step::End(_) => 0,
    }
}

/// The retry number that the Ask of a look has.
pub fn retry_written(steps: &[(Step, Reply)], look: &Look) -> u32
    ensures { result ≡ retry_written steps.now look.now }
{
    match look.own.as_slice() {
        [] => 0,
        [number, ..] => match step_at(steps, *number) {
            Some(step) => retry_of(step),
            None => 0,
        },
    }
}

fn is_retry(heard: Option<Heard>) -> bool
    ensures { result ≡ is_retry heard }
{
    match heard {
        None => false,
        Some(heard) => match heard.answer {
            None => false,
            Some(answer) => match answer {
                Answered::Retry => true,
                Answered::Yes => false,
                Answered::No => false,
                Answered::Detached => false,
            },
        },
    }
}

fn asks_so(reason: Reason, written: u32, retry: u64) -> bool
    ensures { result ≡ asks_so reason written retry }
{
    match reason {
        Reason::Ask => u64::from(written) == retry,
        Reason::Entry(_) => true,
        Reason::Disabled => true,
        Reason::Permissive => true,
        Reason::Quota => true,
        Reason::Learn => true,
        Reason::NoEntry => true,
        Reason::NotReady => true,
        Reason::NoManual => true,
    }
}

/// Whether the answer retry was learned where another look follows, and only there.
fn is_followed(more: &[Look], heard: Option<Heard>) -> bool
    ensures { result ≡ is_followed more.now heard }
{
    match more {
        [] => !is_retry(heard),
        [_, ..] => is_retry(heard),
    }
}

/// Whether a look asks with its retry number, and is followed by another one where it should be.
fn goes_on(steps: &[(Step, Reply)], retry: u64, more: &[Look], look: &Look) -> bool
    ensures { result ≡ goes_on steps.now retry more.now look.now }
{
    asks_so(look.reason, retry_written(steps, look), retry) && is_followed(more, look.heard)
}

/// Whether another look follows after `retry`, and only then, each Ask with the retry number one
/// higher.
pub fn do_follow(steps: &[(Step, Reply)], looks: &[Look]) -> bool
    ensures { result ≡ do_follow steps.now 0 looks.now }
{
    let mut retry = 0;
    let mut rest = looks;
    while let Some((look, more)) = rest.split_first() {
        if !goes_on(steps, retry, more, look) {
            return false;
        }
        rest = more;
        retry += 1;
    }
    true
}

// What a number, from 1, names among the steps.
fn numbered(steps: &[(Step, Reply)], number: u64) -> Option<&(Step, Reply)>
    ensures { option_copied result ≡ numbered steps.now number }
{
    if number == 0 {
        return None;
    }
    steps.get((number - 1) as usize)
}

/// The reply of the step of a number, from 1.
pub fn reply_at(steps: &[(Step, Reply)], number: u64) -> Option<Reply>
    ensures { result ≡ reply_at steps.now number }
{
    match numbered(steps, number) {
        Some((_, reply)) => Some(*reply),
        None => None,
    }
}
