//! A trace played at an engine, from its opening to its closing.
ghost use Rattle.std.specs.Prelude.{◌≡◌, ◌<◌, ◌≤◌, ◌+◌, ◌++◌, ℕ, [], length, map, Some, IfOk, OnOk, IfSome, if◌then◌else◌};
ghost use Rattle.tm_rules.specs.Types.{Start};
ghost use Rattle.std.specs.List.{AllByRecursion};
ghost use Rattle.tm_rules.specs.Prelude.{IsFew};
ghost use Rattle.tm_machine.specs.Written.{IsTrace};
ghost use Rattle.tm_legal.specs.Prelude.{CanPlay, Legal, NoLookBeforeAttach, final_policy, opening};
ghost use Rattle.tm_core.specs.Scenes.{scene_of};
ghost use Rattle.tm_desk.specs.Desks.{desk_book, IsDesk};
ghost use Rattle.tm_publish.specs.Boards.{Names, blank_parts};
ghost use Rattle.tm_publish.specs.Words.{IsFresh};
ghost use Rattle.tm_joint.specs.Joint.{takes_in};
ghost use Rattle.tm_machine.specs.Machine.{history_of};
ghost use Rattle.tm_machine.specs.Office.{list_of};
ghost use Rattle.tm_seat.specs.Rows.{row_of};
ghost use Rattle.tm_seat.specs.Parts.{tree_to_play, trees_from, CanBegin, IsWorking, PartWaits, PlayedTogether, desk_parts};
ghost use Rattle.tm_seat.specs.Replayed.{Replayed};
ghost use Rattle.tm_replay.specs.Jobs.{ArePlayed};
ghost use Rattle.tm_replay.specs.Replays.{AreAllPlayed};

use crate::job::FieldOf;
use crate::jobs::{begin_jobs, run_jobs, take_apart};
use std::alloc::{AllocError, Global};
use std::marker::Brand;
use std::sync::Wait;
use std::thread::Threads;
use tm_desk::Desk;
use tm_engine::engine::Engine;
use tm_engine::gate::Gate;
use tm_engine::open::open_engine;
use tm_list::{Copied, NoMemory, Seq};
use tm_machine::Machine;
use tm_machine::rep::Rep;
use tm_publish::blank::Blank;
use tm_publish::front::Named;
use tm_publish::pass::Pass;
use tm_seat::{
    Part, PlayedTree, TreeToPlay, Trees, Work, deal, gather, lost, replayed_runs_are_legal,
    working_parts,
};
use tm_types::policy::Policy;
use tm_types::request::{Trace, Tree};
use tm_types::step::{Query, Run, Start, Take};

// A tree of a number, which starts in the live domain of its name.
fn tree_to_play<R: Rep>(machine: &Machine<R>, number: u32, tree: Tree) -> TreeToPlay
    ensures { result ≡ tree_to_play machine.now.state.policy number tree }
{
    let home = machine.rep().live_domain(&tree.start).unwrap_or(0);
    TreeToPlay {
        number,
        home,
        records: tree.records,
    }
}

// The trees of a trace, by their numbers from 1, each with the domain that it starts in.
fn trees_of<R: Rep>(
    alloc: Global,
    machine: &Machine<R>,
    trace: Trace,
) -> Result<Vec<TreeToPlay>, NoMemory>
    ensures { IfOk result (λ trees. trees.items ≡ trees_from machine.now.state.policy 1 trace) }
{
    let mut trees = Vec::new(alloc);
    let mut number: u32 = 0;
    for tree in trace.into_vec() {
        let Some(next) = number.checked_add(1) else {
            return Err(lost());
        };
        number = next;
        trees.push(tree_to_play(machine, number, tree))?;
    }
    Ok(trees)
}

// How many passes there are: one for each part, and one for the supervisor where one stands.
fn count_passes<H>(parts: &[Part<H>], supervised: bool) -> Option<u32>
    ensures { IfSome result (λ count. (0 < count) × (count ≤ 32)
        × (count ≡ (if supervised then length parts.now + 1 else length parts.now))) }
{
    let count = if supervised {
        parts.len() as u64 + 1
    } else {
        parts.len() as u64
    };
    if count == 0 || count > 32 {
        return None;
    }
    Some(count as u32)
}

// All parts, played at an engine whose passes come and go back: what each has given; nothing where
// a part failed.
fn play_at<
    L: Named + Send + Sync,
    R: Rep + Send + Sync,
    F: Fn(&Query) -> u64 + Sync,
    W: Threads + Wait + Sync,
    G: Gate,
    H: Send + Drop,
    D: Send + Drop,
    K: Work<H, D> + Sync,
>(
    rt: &W,
    alloc: Global,
    engine: &Engine<L, Machine<R>>,
    desk: &Desk<'_, F>,
    gate: &G,
    way: &K,
    parts: Vec<Part<H>>,
    passes: Vec<Pass<L, Machine<R>>>,
    supervised: bool,
) -> Result<(Vec<Pass<L, Machine<R>>>, Option<Seq<Seq<D>>>), NoMemory>
    requires desk { IsDesk F.Fn desk.now }
    requires fresh { (start : Start) × AllByRecursion (IsFresh start) passes.items
        × CanBegin start × (supervised ≡ start.desk)
        × AllByRecursion (PartWaits (K.ready way.now) start) parts.items }
    ensures { IfOk result (λ r. (start : Start) → AllByRecursion (IsFresh start) passes.items
        → supervised ≡ start.desk → AllByRecursion IsWorking parts.items
        → ArePlayed (K.did way.now) start (desk_book desk.now) (parts.items ++ desk_parts start.desk)
        r.0.items r.1) }
{
    let jobs = begin_jobs(rt, alloc, engine, parts, passes, supervised)?;
    let field = FieldOf {
        rt,
        alloc,
        engine,
        desk,
        gate,
        way,
        supervised,
    };
    let done = run_jobs(&field, jobs);
    take_apart(alloc, done)
}

// All parts, played at an engine of the machine, under a name that its board has: the machine with
// all steps, and what each part has given.
fn play_as<
    L: Named + Send + Sync,
    R: Rep + Send + Sync,
    F: Fn(&Query) -> u64 + Sync,
    W: Threads + Wait + Sync,
    G: Gate,
    H: Send + Drop,
    D: Send + Drop,
    K: Work<H, D> + Sync,
>(
    rt: &W,
    alloc: Global,
    blank: Blank<Machine<R>>,
    machine: Machine<R>,
    desk: &Desk<'_, F>,
    gate: &G,
    way: &K,
    parts: Vec<Part<H>>,
    count: u32,
) -> Result<(Machine<R>, Vec<Seq<D>>), NoMemory>
    requires named { Names L.name L.parts L.history blank }
    requires passes { blank_parts blank ≡ count }
    requires some { 0 < count }
    requires few { count ≤ 32 }
    requires made { machine.made ≡ [] }
    requires count { count ≡ length (parts.items ++ desk_parts machine.start.desk) }
    requires can { CanBegin machine.start }
    requires waits { AllByRecursion (PartWaits (K.ready way.now) machine.start) parts.items }
    requires desk { IsDesk F.Fn desk.now }
    ensures { IfOk result (λ r. AreAllPlayed (K.did way.now) machine.start (desk_book desk.now)
        parts.items r.0 r.1.items) }
{
    let supervised = machine.opening().desk;
    let (engine, passes) = open_engine::<L, Machine<R>, W>(rt, alloc, blank, machine, count)?;
    let (passes, queues) = play_at(
        rt, alloc, &engine, desk, gate, way, parts, passes, supervised,
    )?;
    let closed = engine.close(rt, passes)?;
    match queues {
        Some(queues) => Ok((closed.office, queues.into_vec())),
        None => Err(AllocError),
    }
}

/// Plays these hands by a worker each, in this way, beside each other, while the machine's editors
/// make their lines and, where a supervisor stands, the desk answers. The supervisor comes first,
/// and every thread is told of it. The gate is called before each request is first looked at, and
/// before each line of an editor. Gives the machine with all steps, and what each worker gave.
///
/// Errors: want of memory, or more than 32 threads.
pub fn play_parts<
    R: Rep + Send + Sync,
    F: Fn(&Query) -> u64 + Sync,
    W: Threads + Wait + Sync,
    G: Gate,
    H: Send + Drop,
    D: Send + Drop,
    K: Work<H, D> + Sync,
>(
    rt: &W,
    alloc: Global,
    machine: Machine<R>,
    hands: Vec<H>,
    desk: &Desk<'_, F>,
    gate: &G,
    way: &K,
) -> Result<(Machine<R>, Vec<Seq<D>>), NoMemory>
    requires made { machine.made ≡ [] }
    requires can { CanBegin machine.start }
    requires ready { AllByRecursion (K.ready way.now machine.start) hands.items }
    requires desk { IsDesk F.Fn desk.now }
    ensures opening { IfOk result (λ r. r.0.start ≡ machine.start) }
    ensures played { IfOk result (λ r. PlayedTogether (K.did way.now) machine.start
        (desk_book desk.now) hands.items (list_of r.0) r.1.items) }
{
    let workers = hands.as_slice().len();
    let supervised = machine.opening().desk;
    let editors = machine.opening().editors.copy(alloc)?;
    let parts = working_parts(alloc, hands, editors)?;
    let Some(count) = count_passes(parts.as_slice(), supervised) else {
        return Err(AllocError);
    };
    let blank = Blank::new(count as u64);
    let (machine, mut given) = play_as::<Brand, R, F, W, G, H, D, K>(
        rt, alloc, blank, machine, desk, gate, way, parts, count,
    )?;
    given.truncate(workers);
    machine.versions();
    Ok((machine, given))
}

// The machine with all steps, and a row for each tree of the trace.
fn play_trace<R: Rep + Send + Sync, F: Fn(&Query) -> u64 + Sync, W: Threads + Wait + Sync, G: Gate>(
    rt: &W,
    alloc: Global,
    machine: Machine<R>,
    trace: Trace,
    workers: u32,
    desk: &Desk<'_, F>,
    gate: &G,
) -> Result<(Machine<R>, Vec<PlayedTree>), NoMemory>
    requires made { machine.made ≡ [] }
    requires opened { machine.state ≡ opening machine.start }
    requires trees { length trace ≡ machine.start.trees }
    requires workers { 0 < workers }
    requires can { CanPlay (scene_of machine.start trace (desk_book desk.now)) }
    requires desk { IsDesk F.Fn desk.now }
    ensures opening { IfOk result (λ r. r.0.start ≡ machine.start) }
    ensures played { IfOk result (λ r.
        Replayed machine.start trace (desk_book desk.now) workers (list_of r.0) r.1.items) }
{
    let trees = machine.opening().trees;
    let to_play = trees_of(alloc, &machine, trace)?;
    let hands = deal(alloc, to_play, workers)?;
    let (machine, queues) = play_parts(rt, alloc, machine, hands, desk, gate, &Trees)?;
    if queues.is_empty() {
        return Err(lost());
    }
    let rows = gather(alloc, queues, trees)?;
    Ok((machine, rows))
}

// How many takes these rows have.
fn count_takes(rows: &[PlayedTree]) -> usize {
    let mut count: usize = 0;
    for row in rows {
        count = count.saturating_add(row.takes.len());
    }
    count
}

/// The takes of all rows, in their order.
///
/// Errors: want of memory.
pub fn takes_of(alloc: Global, rows: Vec<PlayedTree>) -> Result<Seq<Take>, NoMemory>
    ensures { IfOk result (λ takes. takes ≡ takes_in (map row_of rows.items)) }
{
    let mut takes = Vec::with_capacity(alloc, count_takes(rows.as_slice()))?;
    for row in rows {
        push_all(&mut takes, row.takes)?;
    }
    Ok(Seq::from_vec(takes))
}

// Appends takes.
fn push_all(takes: &mut Vec<Take>, more: Seq<Take>) -> Result<(), NoMemory>
    ensures { OnOk result (takes.new.items ≡ takes.old.items ++ more) }
{
    let mut more = more.into_vec();
    takes.append(&mut more)
}

/// Plays a trace by so many workers beside each other, while the machine's editors make their lines
/// and, where a supervisor stands, the desk answers: worker w of n plays the trees whose number
/// less 1 leaves w less 1, divided by n, in order. The supervisor comes first, and every thread is
/// told of it. Each tree starts in the domain that is live in the opening. The gate is called
/// before each request is first looked at, and before each line of an editor. Gives the run, its
/// takes in the order of the trace, the opening, and the policy at the last version. Nothing of the
/// trace is copied.
///
/// Errors: want of memory, or more than 32 threads.
pub fn replay_run<
    R: Rep + Send + Sync,
    F: Fn(&Query) -> u64 + Sync,
    W: Threads + Wait + Sync,
    G: Gate,
>(
    rt: &W,
    alloc: Global,
    machine: Machine<R>,
    trace: Trace,
    workers: u32,
    desk: &Desk<'_, F>,
    gate: &G,
) -> Result<(Run, Start, Policy), NoMemory>
    requires made { machine.made ≡ [] }
    requires opened { machine.state ≡ opening machine.start }
    requires trees { length trace ≡ machine.start.trees }
    requires workers { 0 < workers }
    requires written { IsTrace trace }
    requires can { CanPlay (scene_of machine.start trace (desk_book desk.now)) }
    requires desk { IsDesk F.Fn desk.now }
    ensures legal { IfOk result
        (λ ended. Legal (scene_of machine.start trace (desk_book desk.now)) ended.0) }
    ensures attached { IfOk result (λ ended. NoLookBeforeAttach ended.0) }
    ensures opening { IfOk result (λ ended. ended.1 ≡ machine.start) }
    ensures policy { IfOk result (λ ended.
        final_policy (scene_of machine.start trace (desk_book desk.now)) ended.0 ≡ ended.2) }
    ensures few { IfOk result (λ ended. IsFew ended.2) }
{
    replayed_runs_are_legal();
    let (machine, rows) = play_trace(rt, alloc, machine, trace, workers, desk, gate)?;
    machine.versions();
    let takes = takes_of(alloc, rows)?;
    let (steps, opening, last) = machine.into_history(alloc)?;
    Ok((Run { steps, takes }, opening, last))
}

/// `replay_run` of a trace that is kept: the run, with a copy of the steps, and the machine at its
/// last version.
///
/// Errors: want of memory, or more than 32 threads.
pub fn replay_all<
    R: Rep + Send + Sync,
    F: Fn(&Query) -> u64 + Sync,
    W: Threads + Wait + Sync,
    G: Gate,
>(
    rt: &W,
    alloc: Global,
    machine: Machine<R>,
    trace: &Trace,
    workers: u32,
    desk: &Desk<'_, F>,
    gate: &G,
) -> Result<(Run, Machine<R>), NoMemory>
    requires made { machine.made ≡ [] }
    requires opened { machine.state ≡ opening machine.start }
    requires trees { length trace.now ≡ machine.start.trees }
    requires workers { 0 < workers }
    requires written { IsTrace trace.now }
    requires can { CanPlay (scene_of machine.start trace.now (desk_book desk.now)) }
    requires desk { IsDesk F.Fn desk.now }
    ensures legal { IfOk result
        (λ ended. Legal (scene_of machine.start trace.now (desk_book desk.now)) ended.0) }
    ensures attached { IfOk result (λ ended. NoLookBeforeAttach ended.0) }
    ensures opening { IfOk result (λ ended. ended.1.start ≡ machine.start) }
    ensures steps { IfOk result (λ ended. ended.0.steps ≡ history_of ended.1) }
{
    replayed_runs_are_legal();
    let copy = trace.copy(alloc)?;
    let (machine, rows) = play_trace(rt, alloc, machine, copy, workers, desk, gate)?;
    machine.versions();
    let takes = takes_of(alloc, rows)?;
    let steps = machine.history(alloc)?;
    Ok((Run { steps, takes }, machine))
}
