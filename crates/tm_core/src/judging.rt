//! One look: the verdict on a request and its audit text.
ghost use Rattle.std.specs.Prelude.{◌≡◌, true, Some, IsSome, IfOk};
ghost use Rattle.tm_audit.specs.Standing.{StandsIn};
ghost use Rattle.tm_rules.specs.Prelude.{is_request};
ghost use Rattle.tm_audit.specs.Tomoyo.{tomoyo_grammar};
ghost use Rattle.tm_legal.specs.Prelude.{IsNamed};
ghost use Rattle.tm_take.specs.Looking.{verdict_at};
ghost use Rattle.tm_core.specs.Judging.{judged};

use std::alloc::Global;
use tm_audit::audit_in;
use tm_audit::change_domains::{Standing, standing_at};
use tm_list::NoMemory;
use tm_machine::Machine;
use tm_take::Judged;
use tm_types::request::{Proc, Request};
use tm_types::verdict::Verdict;
use tm_verdict::rep::Rep;
use tm_verdict::{verdict_in, verdict_of};

// Judges a request of a process where the look's standing is known.
fn judge_in<R: Rep>(
    alloc: Global,
    machine: &Machine<R>,
    standing: &Standing<'_>,
    process: &Proc,
    request: &Request,
) -> Result<Option<Judged>, NoMemory>
    requires named { IsNamed tomoyo_grammar.is_path machine.now.state.policy }
    requires standing { StandsIn machine.now.state.policy standing.now }
    requires asked { is_request tomoyo_grammar.is_path request.now ≡ true }
    ensures { IfOk result (λ found. found
        ≡ judged machine.now.state standing.now.number process.now request.now) }
{
    let attached = machine.attached();
    match verdict_in(alloc, machine.rep(), attached, standing, process, request) {
        Ok(Some(verdict)) => match audit_in(alloc, standing, process, request, &verdict) {
            Ok(audit) => Ok(Some(Judged { verdict, audit })),
            Err(fault) => {
                drop(verdict);
                Err(fault)
            }
        },
        Ok(None) => Ok(None),
        Err(fault) => Err(fault),
    }
}

/// Judges a request of a process in the domain of this number at the machine's newest version, with
/// its audit text. None where the domain or its profile isn't there.
#[tactic(auto, using(tm_verdict::proofs::VerdictLaws::nowhere))]
pub fn judge<R: Rep>(
    alloc: Global,
    machine: &Machine<R>,
    domain: u32,
    process: &Proc,
    request: &Request,
) -> Result<Option<Judged>, NoMemory>
    requires named { IsNamed tomoyo_grammar.is_path machine.now.state.policy }
    requires asked { is_request tomoyo_grammar.is_path request.now ≡ true }
    ensures { IfOk result
        (λ found. found ≡ judged machine.now.state domain process.now request.now) }
{
    match standing_at(machine.policy(), domain) {
        Some(standing) => judge_in(alloc, machine, &standing, process, request),
        None => Ok(None),
    }
}

/// The verdict on a request of this process in the domain of this number, at the machine's newest
/// version. The domain and its profile are there.
pub fn verdict<R: Rep>(
    alloc: Global,
    machine: &Machine<R>,
    domain: u32,
    process: &Proc,
    request: &Request,
) -> Result<Verdict, NoMemory>
    requires named { IsNamed tomoyo_grammar.is_path machine.now.state.policy }
    requires asked { is_request tomoyo_grammar.is_path request.now ≡ true }
    requires there { IsSome (verdict_at machine.now.state domain process.now request.now) }
    ensures { IfOk result
        (λ v. verdict_at machine.now.state domain process.now request.now ≡ Some v) }
{
    let attached = machine.attached();
    match verdict_of(alloc, machine.rep(), attached, domain, process, request)? {
        Some(verdict) => Ok(verdict),
        None => unreachable!(),
    }
}
