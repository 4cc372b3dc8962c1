//! The summary of a run.
ghost use Rattle.std.specs.Prelude.{◌≡◌, ◌++◌, [], ◌∷◌, decimal, IfOk, OnOk};
ghost use Rattle.tm_rerun.specs.Summary.{yes_or_no, is_added_reply, is_added, granted_count, learned_count, live_count, counts_text, growth_text, kinds_text, summary_text};
ghost use Rattle.tm_rerun.specs.Rerun.{rerun_text, no_rerun_text};

use crate::clean::is_clean;
use crate::plainness::is_plain;
use std::alloc::Global;
use tm_list::NoMemory;
use tm_number::{Base, Number, write_number};
use tm_types::policy::{Domain, Policy};
use tm_types::step::{LearnReply, Reply, Run, Step, Take};

fn push_count(alloc: Global, count: usize, out: &mut Vec<u8>) -> Result<(), NoMemory>
    ensures { OnOk result (out.new.items ≡ out.old.items ++ decimal count) }
{
    let number = Number {
        value: count as u64,
        base: Base::Decimal,
    };
    write_number(alloc, &number, out)
}

fn push_yes_or_no(yes: bool, out: &mut Vec<u8>) -> Result<(), NoMemory>
    ensures { OnOk result (out.new.items ≡ out.old.items ++ yes_or_no yes) }
{
    if yes {
        out.extend_from_slice(b"yes")
    } else {
        out.extend_from_slice(b"no")
    }
}

fn is_added_reply(reply: Reply) -> bool
    ensures { result ≡ is_added_reply reply }
{
    match reply {
        Reply::Learn(LearnReply::Added) => true,
        _ => false,
    }
}

fn granted_count(takes: &[Take]) -> usize
    ensures { result ≡ granted_count takes.now }
{
    takes.iter().filter(|take| take.granted).count()
}

fn learned_count(steps: &[(Step, Reply)]) -> usize
    ensures { result ≡ learned_count steps.now }
{
    let mut count = 0;
    for step in steps {
        if is_added_reply(step.1) {
            count += 1;
        }
    }
    count
}

fn live_count(domains: &[Domain]) -> usize
    ensures { result ≡ live_count domains.now }
{
    let mut count = 0;
    for domain in domains {
        if domain.live {
            count += 1;
        }
    }
    count
}

fn push_counts(alloc: Global, run: &Run, out: &mut Vec<u8>) -> Result<(), NoMemory>
    ensures { OnOk result (out.new.items ≡ out.old.items ++ counts_text run.now) }
{
    let requests = run.takes.len();
    let granted = granted_count(run.takes.as_slice());
    out.extend_from_slice(b"requests ")?;
    push_count(alloc, requests, out)?;
    out.extend_from_slice(b" granted ")?;
    push_count(alloc, granted, out)?;
    out.extend_from_slice(b" denied ")?;
    push_count(alloc, requests.saturating_sub(granted), out)
}

fn push_growth(
    alloc: Global,
    run: &Run,
    policy_final: &Policy,
    out: &mut Vec<u8>,
) -> Result<(), NoMemory>
    ensures { OnOk result (out.new.items ≡ out.old.items ++ growth_text run.now policy_final.now) }
{
    out.extend_from_slice(b" learned ")?;
    push_count(alloc, learned_count(run.steps.as_slice()), out)?;
    out.extend_from_slice(b" steps ")?;
    push_count(alloc, run.steps.len(), out)?;
    out.extend_from_slice(b" domains ")?;
    push_count(alloc, live_count(policy_final.domains.as_slice()), out)
}

fn push_kinds(run: &Run, policy_opening: &Policy, out: &mut Vec<u8>) -> Result<(), NoMemory>
    ensures { OnOk result (out.new.items ≡ out.old.items ++ kinds_text run.now policy_opening.now) }
{
    out.extend_from_slice(b" clean ")?;
    push_yes_or_no(is_clean(run), out)?;
    out.extend_from_slice(b" plain ")?;
    push_yes_or_no(is_plain(policy_opening), out)
}

/// The line that a run is summed up by: how many requests it has and how many of them are granted
/// and denied, how many lines it learned, its steps, the live domains of its final policy, whether
/// it is clean, and whether its opening policy is plain. Fails for want of memory alone.
#[tactic(auto, unfolding(crate::specs::Summary::summary_text))]
pub fn summary_line(
    alloc: Global,
    run: &Run,
    policy_opening: &Policy,
    policy_final: &Policy,
) -> Result<Vec<u8>, NoMemory>
    ensures { IfOk result
        (λ line. line.items ≡ summary_text run.now policy_opening.now policy_final.now) }
{
    let mut line = Vec::new(alloc);
    push_counts(alloc, run, &mut line)?;
    push_growth(alloc, run, policy_final, &mut line)?;
    push_kinds(run, policy_opening, &mut line)?;
    line.push(b'\n')?;
    Ok(line)
}

/// The line that a rerun adds to the summary: how many requests it has and how many of them are
/// granted and denied, its steps, and whether its processes are in the domains that they were in.
/// Fails for want of memory alone.
#[tactic(auto, unfolding(crate::specs::Rerun::rerun_text))]
pub fn rerun_line(alloc: Global, run: &Run, same: bool) -> Result<Vec<u8>, NoMemory>
    ensures { IfOk result (λ line. line.items ≡ rerun_text run.now same) }
{
    let mut line = Vec::new(alloc);
    line.extend_from_slice(b"rerun ")?;
    push_counts(alloc, run, &mut line)?;
    line.extend_from_slice(b" steps ")?;
    push_count(alloc, run.steps.len(), &mut line)?;
    line.extend_from_slice(b" same ")?;
    push_yes_or_no(same, &mut line)?;
    line.push(b'\n')?;
    Ok(line)
}

/// The line that stands in its place where the rerun is left out. Fails for want of memory alone.
pub fn no_rerun_line(alloc: Global) -> Result<Vec<u8>, NoMemory>
    ensures { IfOk result (λ line. line.items ≡ no_rerun_text) }
{
    let mut line = Vec::new(alloc);
    line.extend_from_slice(b"rerun none\n")?;
    Ok(line)
}
