//! The event of a tree: its next look, its next own step, the taking of its answer, or its end.
ghost use Rattle.std.specs.Prelude.{◌≡◌, ◌≤◌, ◌<◌, ◌-◌, ◌∷◌, ℕ, Bool, true, List, Some, None, IfOk, OnOk};
ghost use Rattle.tm_rules.specs.Types.{Step};
ghost use Rattle.tm_audit.specs.Tomoyo.{tomoyo_grammar};
ghost use Rattle.tm_rules.specs.Prelude.{is_request};
ghost use Rattle.tm_legal.specs.Prelude.{IsNamed, Needs, Stage, StageFits};
ghost use Rattle.tm_take.specs.Ways.{way_of};
ghost use Rattle.tm_core.specs.Moves.{MakesOwn, Hears, Ends, TreeMoves, is_waiting};

use crate::looks::{first_look, look_again};
use std::alloc::Global;
use tm_list::NoMemory;
use tm_machine::Machine;
use tm_take::{NextEvent, RequestInProgress, TreeOnWay};
use tm_types::step::{Made, Maker, Step};
use tm_verdict::rep::Rep;

// The next own step of a take, which is made by its process; the take goes on or ends.
fn own_step<R: Rep>(
    alloc: Global,
    machine: &mut Machine<R>,
    tree: &mut TreeOnWay,
    attempt: RequestInProgress,
) -> Result<bool, NoMemory>
    requires owes { (step : Step) × (rest : List Step)
        × (attempt.stage ≡ Stage.Owing (step ∷ rest)) }
    requires fits { StageFits tomoyo_grammar machine.old.state attempt attempt.stage }
    ensures moved { IfOk result (λ moved. moved ≡ true) }
    ensures makes { OnOk result
        (MakesOwn machine.old attempt (way_of tree.old) machine.new (way_of tree.new)) }
{
    match attempt.next_owed() {
        Some((step, left)) => {
            let made = Made {
                maker: Maker::Process(left.process().pid),
                step,
            };
            match machine.settle(alloc, made) {
                Ok(reply) => {
                    let next = left.after_step(machine.version(), reply)?;
                    tree.go_on(next)?;
                    Ok(true)
                }
                Err(fault) => {
                    drop(left);
                    Err(fault)
                }
            }
        }
        None => unreachable!(),
    }
}

// The taking of a query's answer, and the take goes on or ends; where there is no answer yet, the
// take waits on.
fn hear<R: Rep>(
    alloc: Global,
    machine: &Machine<R>,
    tree: &mut TreeOnWay,
    attempt: RequestInProgress,
    serial: u64,
) -> Result<bool, NoMemory>
    ensures { IfOk result
        (λ moved. Hears machine.now serial attempt (way_of tree.old) moved (way_of tree.new)) }
{
    match machine.answer_of(serial) {
        Some(answer) => {
            let next = attempt.after_answer(alloc, machine.version(), answer)?;
            tree.go_on(next)?;
            Ok(true)
        }
        None => {
            tree.put_back(attempt);
            Ok(false)
        }
    }
}

// Whether a tree waits for the answer of a query that has none.
fn is_waiting<R: Rep>(machine: &Machine<R>, tree: &TreeOnWay) -> bool
    ensures { result ≡ is_waiting machine.now.state (way_of tree.now) }
{
    match tree.awaits() {
        Some(serial) => machine.answer_of(serial).is_none(),
        None => false,
    }
}

// The end of the tree of this number, where a supervisor stands and it hasn't ended yet.
fn end_tree<R: Rep>(
    alloc: Global,
    machine: &mut Machine<R>,
    number: u32,
    desk: bool,
) -> Result<bool, NoMemory>
    requires some { 0 < number }
    requires there { number ≤ machine.old.state.trees }
    ensures { IfOk result (λ moved. Ends desk number moved machine.old machine.new) }
{
    if !desk || machine.has_ended(number) {
        return Ok(false);
    }
    let made = Made {
        maker: Maker::Tree(number),
        step: Step::End(number),
    };
    machine.settle(alloc, made)?;
    Ok(true)
}

// The next event of a take that has begun, and was taken out of its tree.
fn take_event<R: Rep>(
    alloc: Global,
    machine: &mut Machine<R>,
    tree: &mut TreeOnWay,
    attempt: RequestInProgress,
) -> Result<bool, NoMemory>
    requires named { IsNamed tomoyo_grammar.is_path machine.old.state.policy }
    requires asked { is_request tomoyo_grammar.is_path attempt.request ≡ true }
    requires fits { StageFits tomoyo_grammar machine.old.state attempt attempt.stage }
    requires taken { (way_of tree.old).begun ≡ None }
    ensures { IfOk result (λ moved. (desk : Bool) (t : ℕ) → TreeMoves desk t moved
        machine.old (record (way_of tree.old) { begun = Some attempt })
        machine.new (way_of tree.new)) }
{
    match attempt.next_event() {
        NextEvent::OwnStep => own_step(alloc, machine, tree, attempt),
        NextEvent::Answer(serial) => hear(alloc, machine, tree, attempt, serial),
        NextEvent::Look => {
            look_again(alloc, machine, tree, attempt)?;
            Ok(true)
        }
        NextEvent::End => {
            tree.put_back(attempt);
            Ok(false)
        }
    }
}

// The first look of a tree's next request; the end of the tree where none is left.
fn next_request<R: Rep>(
    alloc: Global,
    machine: &mut Machine<R>,
    tree: &mut TreeOnWay,
    number: u32,
    desk: bool,
) -> Result<bool, NoMemory>
    requires some { 0 < number }
    requires there { number ≤ machine.old.state.trees }
    requires needs { Needs tomoyo_grammar machine.old.state (way_of tree.old) }
    requires idle { (way_of tree.old).begun ≡ None }
    ensures { IfOk result (λ moved. TreeMoves desk (number - 1) moved
        machine.old (way_of tree.old) machine.new (way_of tree.new)) }
{
    match tree.pass()? {
        Some((pid, request)) => {
            first_look(alloc, machine, tree, pid, request)?;
            Ok(true)
        }
        None => end_tree(alloc, machine, number, desk),
    }
}

/// The event of the tree of this number, from 1: true, or false with nothing changed where it can't
/// move. After want of memory neither the machine nor the tree is used again.
pub(crate) fn tree_event<R: Rep>(
    alloc: Global,
    machine: &mut Machine<R>,
    tree: &mut TreeOnWay,
    number: u32,
    desk: bool,
) -> Result<bool, NoMemory>
    requires some { 0 < number }
    requires there { number ≤ machine.old.state.trees }
    requires needs { Needs tomoyo_grammar machine.old.state (way_of tree.old) }
    ensures { IfOk result (λ moved. TreeMoves desk (number - 1) moved
        machine.old (way_of tree.old) machine.new (way_of tree.new)) }
{
    if is_waiting(machine, tree) {
        return Ok(false);
    }
    match tree.take_begun() {
        Some(attempt) => take_event(alloc, machine, tree, attempt),
        None => next_request(alloc, machine, tree, number, desk),
    }
}
