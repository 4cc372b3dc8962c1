//! A look of a tree: the take that it begins.
ghost use Rattle.std.specs.Prelude.{◌≡◌, true, IsSome, IfOk, OnOk};
ghost use Rattle.tm_rules.specs.Prelude.{is_request};
ghost use Rattle.tm_audit.specs.Tomoyo.{tomoyo_grammar};
ghost use Rattle.tm_legal.specs.Prelude.{IsNamed};
ghost use Rattle.tm_take.specs.Ways.{way_of};
ghost use Rattle.tm_core.specs.Judging.{begun_by, first_looked, looked_again, GoesOn};

use crate::judging::judge;
use std::alloc::Global;
use tm_list::NoMemory;
use tm_machine::Machine;
use tm_take::{Judged, PendingLook, RequestInProgress, TreeOnWay, begin};
use tm_types::request::Request;
use tm_verdict::rep::Rep;

// A look at the newest version: the take that it begins, or goes on with.
fn look<R: Rep>(
    alloc: Global,
    machine: &Machine<R>,
    pending: PendingLook,
) -> Result<Option<RequestInProgress>, NoMemory>
    requires named { IsNamed tomoyo_grammar.is_path machine.now.state.policy }
    requires asked { is_request tomoyo_grammar.is_path pending.request ≡ true }
    ensures { IfOk result (λ begun. begun ≡ begun_by machine.now pending) }
{
    let Some(domain) = pending.now.domain else {
        drop(pending);
        return Ok(None);
    };
    match judge(
        alloc,
        machine,
        domain,
        &pending.now.process,
        &pending.request,
    ) {
        Ok(Some(Judged { verdict, audit })) => {
            let begun = begin(alloc, machine.version(), domain, pending, verdict, audit)?;
            Ok(Some(begun))
        }
        Ok(None) => {
            drop(pending);
            Ok(None)
        }
        Err(fault) => {
            drop(pending);
            Err(fault)
        }
    }
}

// A look that there is, and the take goes on or ends.
fn look_and_go<R: Rep>(
    alloc: Global,
    machine: &Machine<R>,
    tree: &mut TreeOnWay,
    pending: PendingLook,
) -> Result<(), NoMemory>
    requires named { IsNamed tomoyo_grammar.is_path machine.now.state.policy }
    requires asked { is_request tomoyo_grammar.is_path pending.request ≡ true }
    requires there { IsSome (begun_by machine.now pending) }
    ensures { OnOk result
        (GoesOn (begun_by machine.now pending) (way_of tree.old) (way_of tree.new)) }
{
    match look(alloc, machine, pending)? {
        Some(begun) => tree.go_on(begun),
        None => unreachable!(),
    }
}

/// The first look of a request, which a tree has passed to.
pub(crate) fn first_look<R: Rep>(
    alloc: Global,
    machine: &Machine<R>,
    tree: &mut TreeOnWay,
    pid: u32,
    request: Request,
) -> Result<(), NoMemory>
    requires named { IsNamed tomoyo_grammar.is_path machine.now.state.policy }
    requires asked { is_request tomoyo_grammar.is_path request ≡ true }
    requires there { IsSome (first_looked machine.now ((way_of tree.old).at pid) request) }
    ensures { OnOk result (GoesOn
        (first_looked machine.now ((way_of tree.old).at pid) request)
        (way_of tree.old) (way_of tree.new)) }
{
    let now = tree.at(pid);
    look_and_go(
        alloc,
        machine,
        tree,
        PendingLook::first(alloc, now, request),
    )
}

/// The next look of a take that has heard `retry`.
pub(crate) fn look_again<R: Rep>(
    alloc: Global,
    machine: &Machine<R>,
    tree: &mut TreeOnWay,
    attempt: RequestInProgress,
) -> Result<(), NoMemory>
    requires named { IsNamed tomoyo_grammar.is_path machine.now.state.policy }
    requires asked { is_request tomoyo_grammar.is_path attempt.request ≡ true }
    requires there { IsSome (looked_again machine.now attempt) }
    ensures { OnOk result
        (GoesOn (looked_again machine.now attempt) (way_of tree.old) (way_of tree.new)) }
{
    let pending = attempt.again()?;
    look_and_go(alloc, machine, tree, pending)
}
