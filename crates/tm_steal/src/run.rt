//! A trace played by threads that share its processes, from its opening to its closing.
ghost use Rattle.std.specs.Prelude.{◌≡◌, ◌<◌, [], length, IfOk};
ghost use Rattle.tm_rules.specs.Prelude.{IsFew};
ghost use Rattle.tm_replay.specs.Written.{IsTrace};
ghost use Rattle.tm_legal.specs.Prelude.{CanPlay, Legal, NoLookBeforeAttach, final_policy, opening};
ghost use Rattle.tm_replay.specs.Scenes.{scene_of};
ghost use Rattle.tm_desk.specs.Desks.{desk_book, IsDesk};
ghost use Rattle.tm_replay.specs.Machine.{history_of};
ghost use Rattle.tm_replay.specs.Office.{list_of};
ghost use Rattle.tm_steal_rows.specs.Gathering.{homes_of};
ghost use Rattle.tm_steal.specs.Boards.{AreStolen};

use crate::board::{Hand, board_of};
use crate::processes::{is_shared, records_of};
use std::alloc::Global;
use std::sync::Wait;
use std::thread::{Threads, spawn};
use tm_desk::Desk;
use tm_engine::gate::Gate;
use tm_list::NoMemory;
use tm_replay::machine::Machine;
use tm_replay::rep::Rep;
use tm_replay::seat::PlayedTree;
use tm_replay::{play_parts, replay_all, replay_run, takes_of};
use tm_steal_rows::{gather, stolen_runs_are_legal};
use tm_types::policy::Policy;
use tm_types::request::{Trace, Tree};
use tm_types::step::{Query, Run, Start};

// The domain that each tree starts in, which is live in the opening.
fn homes_of<R: Rep>(
    alloc: Global,
    machine: &Machine<R>,
    trace: &[Tree],
) -> Result<Vec<Option<u32>>, NoMemory>
    ensures { IfOk result (λ homes. homes.items ≡ homes_of machine.now.state.policy trace.now) }
{
    let mut homes = Vec::new(alloc);
    for tree in trace {
        homes.push(machine.rep().live_domain(&tree.start))?;
    }
    Ok(homes)
}

// The machine with all steps, and a row for each tree of the trace.
fn steal_trace<
    R: Rep + Send + Sync,
    F: Fn(&Query) -> u64 + Sync,
    W: Threads + Wait + Sync,
    G: Gate,
>(
    rt: &W,
    alloc: Global,
    machine: Machine<R>,
    trace: &Trace,
    workers: u32,
    desk: &Desk<'_, F>,
    gate: &G,
) -> Result<(Machine<R>, Vec<PlayedTree>), NoMemory>
    requires made { machine.made ≡ [] }
    requires opened { machine.state ≡ opening machine.start }
    requires trees { length trace.now ≡ machine.start.trees }
    requires workers { 0 < workers }
    requires can { CanPlay (scene_of machine.start trace.now (desk_book desk.now)) }
    requires desk { IsDesk F.Fn desk.now }
    ensures opening { IfOk result (λ r. r.0.start ≡ machine.start) }
    ensures played { IfOk result (λ r.
        AreStolen machine.start trace.now (desk_book desk.now) (list_of r.0) r.1.items) }
{
    let supervised = machine.opening().desk;
    let homes = homes_of(alloc, &machine, trace.as_slice())?;
    let (board, hands) = board_of(rt, alloc, trace.as_slice(), homes.as_slice(), workers)?;
    let (machine, given) = play_parts(rt, alloc, machine, hands, desk, gate, &board)?;
    let records = records_of(alloc, board.tree_processes)?;
    let rows = gather(
        rt,
        alloc,
        trace.as_slice(),
        homes,
        records,
        supervised,
        given,
    )?;
    Ok((machine, rows))
}

// Frees a trace by a thread of its own, which goes on beside what its caller does then.
fn free_beside<W: Threads>(rt: &W, trace: Trace) {
    if let Err(refused) = spawn(rt, move || drop(trace)) {
        drop(refused);
    }
}

/// Plays a trace by so many workers beside each other, while the machine's editors make their lines
/// and, where a supervisor stands, the desk answers. The workers share the processes of the trees:
/// a process can be played from its fork on, by whichever worker takes it first. The supervisor
/// comes first, and every thread is told of it. Each tree starts in the domain that is live in the
/// opening, and ends when all trees have been played. The gate is called before each request is
/// first looked at, and before each line of an editor. Gives the run, its takes in the order of the
/// trace, the opening, and the policy at the last version. Where no process would ever wait for a
/// worker, trees are played as `replay_run` plays them. Nothing of the trace is copied; a thread of
/// its own frees it, beside what the caller does then.
///
/// Errors: want of memory, or more than 32 threads.
pub fn steal_run<
    R: Rep + Send + Sync,
    F: Fn(&Query) -> u64 + Sync,
    W: Threads + Wait + Sync,
    G: Gate,
>(
    rt: &W,
    alloc: Global,
    machine: Machine<R>,
    trace: Trace,
    workers: u32,
    desk: &Desk<'_, F>,
    gate: &G,
) -> Result<(Run, Start, Policy), NoMemory>
    requires made { machine.made ≡ [] }
    requires opened { machine.state ≡ opening machine.start }
    requires trees { length trace ≡ machine.start.trees }
    requires workers { 0 < workers }
    requires written { IsTrace trace }
    requires can { CanPlay (scene_of machine.start trace (desk_book desk.now)) }
    requires desk { IsDesk F.Fn desk.now }
    ensures legal { IfOk result
        (λ ended. Legal (scene_of machine.start trace (desk_book desk.now)) ended.0) }
    ensures attached { IfOk result (λ ended. NoLookBeforeAttach ended.0) }
    ensures opening { IfOk result (λ ended. ended.1 ≡ machine.start) }
    ensures policy { IfOk result (λ ended.
        final_policy (scene_of machine.start trace (desk_book desk.now)) ended.0 ≡ ended.2) }
    ensures few { IfOk result (λ ended. IsFew ended.2) }
{
    if !is_shared(trace.as_slice(), workers) {
        return replay_run(rt, alloc, machine, trace, workers, desk, gate);
    }
    stolen_runs_are_legal::<Hand>();
    let (machine, rows) = steal_trace(rt, alloc, machine, &trace, workers, desk, gate)?;
    machine.versions();
    let takes = takes_of(alloc, rows)?;
    let (steps, opening, last) = machine.into_history(alloc)?;
    free_beside(rt, trace);
    Ok((Run { steps, takes }, opening, last))
}

/// `steal_run` of a trace that is kept: the run, with a copy of the steps, and the machine at its
/// last version.
///
/// Errors: want of memory, or more than 32 threads.
pub fn steal_all<
    R: Rep + Send + Sync,
    F: Fn(&Query) -> u64 + Sync,
    W: Threads + Wait + Sync,
    G: Gate,
>(
    rt: &W,
    alloc: Global,
    machine: Machine<R>,
    trace: &Trace,
    workers: u32,
    desk: &Desk<'_, F>,
    gate: &G,
) -> Result<(Run, Machine<R>), NoMemory>
    requires made { machine.made ≡ [] }
    requires opened { machine.state ≡ opening machine.start }
    requires trees { length trace.now ≡ machine.start.trees }
    requires workers { 0 < workers }
    requires written { IsTrace trace.now }
    requires can { CanPlay (scene_of machine.start trace.now (desk_book desk.now)) }
    requires desk { IsDesk F.Fn desk.now }
    ensures legal { IfOk result
        (λ ended. Legal (scene_of machine.start trace.now (desk_book desk.now)) ended.0) }
    ensures attached { IfOk result (λ ended. NoLookBeforeAttach ended.0) }
    ensures opening { IfOk result (λ ended. ended.1.start ≡ machine.start) }
    ensures steps { IfOk result (λ ended. ended.0.steps ≡ history_of ended.1) }
{
    if !is_shared(trace.as_slice(), workers) {
        return replay_all(rt, alloc, machine, trace, workers, desk, gate);
    }
    stolen_runs_are_legal::<Hand>();
    let (machine, rows) = steal_trace(rt, alloc, machine, trace, workers, desk, gate)?;
    machine.versions();
    let takes = takes_of(alloc, rows)?;
    let steps = machine.history(alloc)?;
    Ok((Run { steps, takes }, machine))
}
