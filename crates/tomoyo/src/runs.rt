//! How what was read is played: by turns on one thread, or on threads.
ghost use Rattle.std.specs.Prelude.{◌≡◌, ◌<◌, true, IfOk};
ghost use Rattle.tm_rules.specs.Prelude.{IsFew};
ghost use Rattle.tm_trace.specs.Written.{IsTrace};
ghost use Rattle.tm_script.specs.Written.{has_supervisor};
ghost use Rattle.tm_legal.specs.Prelude.{CanPlay};
ghost use Rattle.tm_steal.specs.Machine.{course_from};
ghost use Rattle.tm_call.specs.Words.{is_by_turns, HasWorkers};
ghost use Rattle.tm_call.specs.declared.words.How.{How};
ghost use Rattle.tm_gen_laws.specs.Reading.{start_of, scene_of};
ghost use Rattle.tomoyo.specs.Play.{IsPlayOf};
ghost use Rattle.tomoyo.specs.Closures.{IsPlayable, IsEnded, PlaysSo};

use std::alloc::{AllocError, Global};
use std::sync::Wait;
use std::thread::Threads;
use tm_call::How;
use tm_desk::Desk;
use tm_engine::gate::Gate;
use tm_gen_laws::call_input::Loaded;
use tm_list::{NoMemory, Seq};
use tm_script::{book_code, has_supervisor};
use tm_steal::machine::Machine;
use tm_steal::replay::replay_run;
use tm_steal::steal_run;
use tm_types::policy::Policy;
use tm_types::step::{Book, Editor, Query, Run, Start};
use tm_verify::indexed::Indexed;
use tm_verify::plays::{into_run, play_out, start_play};

/// A run, its opening, and the policy at its last version; or want of memory.
pub type Ended = Result<(Run, Start, Policy), NoMemory>;

// A machine at this opening, for so many trees, with a supervisor where the book has a line.
fn machine_of(
    alloc: Global,
    policy: Indexed,
    editors: Seq<Editor>,
    trees: usize,
    book: &Book,
) -> Result<Machine<Indexed>, NoMemory>
    requires { IsFew policy }
    ensures { IfOk result (λ machine. machine ≡ course_from (record {
      policy = policy;
      editors = editors;
      trees = trees;
      desk = has_supervisor book.now;
    })) }
{
    let Ok(trees) = u32::try_from(trees) else {
        return Err(AllocError);
    };
    let stands = has_supervisor(book);
    Machine::start(alloc, policy, editors.into_vec(), trees, stands)
}

/// Plays what was read by its schedule, and then in the default order.
#[inline(never)]
pub fn run_by_turns(alloc: Global, loaded: Loaded) -> Ended
    requires few { IsFew loaded.policy }
    requires can { CanPlay (scene_of loaded) }
    ensures plays { IfOk result (λ ended. IsPlayOf How.ByTurns loaded ended.0 ended.2) }
    ensures opening { IfOk result (λ ended. ended.1 ≡ start_of loaded) }
    ensures few { IfOk result (λ ended. IsFew ended.2) }
{
    let Loaded {
        policy,
        trace,
        editors,
        book,
        schedule,
    } = loaded;
    let machine = machine_of(alloc, policy, editors, trace.len(), &book)?;
    let player = start_play(alloc, machine, trace)?;
    let desk = Desk::new(&book, |query: &Query| book_code(&book, query));
    let played = play_out(alloc, player, &desk, schedule.as_slice())?;
    into_run(alloc, played)
}

// Plays what was read on so many threads, beside those of the editors and of the supervisor. The
// gate may hold them back on their way.
#[inline(never)]
fn run_on_threads<W: Threads + Wait + Sync, G: Gate>(
    rt: &W,
    alloc: Global,
    workers: u32,
    gate: &G,
    loaded: Loaded,
) -> Ended
    requires some { 0 < workers }
    requires playable { IsPlayable loaded }
    ensures { IfOk result (IsEnded (How.OnThreads workers) loaded) }
{
    let Loaded {
        policy,
        trace,
        editors,
        book,
        ..
    } = loaded;
    let machine = machine_of(alloc, policy, editors, trace.len(), &book)?;
    let desk = Desk::new(&book, |query: &Query| book_code(&book, query));
    replay_run(rt, alloc, machine, trace, workers, &desk, gate)
}

// Plays what was read on so many threads that share the processes of its trees, beside those of
// the editors and of the supervisor. The gate may hold them back on their way.
#[inline(never)]
fn run_stealing<W: Threads + Wait + Sync, G: Gate>(
    rt: &W,
    alloc: Global,
    workers: u32,
    gate: &G,
    loaded: Loaded,
) -> Ended
    requires some { 0 < workers }
    requires playable { IsPlayable loaded }
    ensures { IfOk result (IsEnded (How.Stealing workers) loaded) }
{
    let Loaded {
        policy,
        trace,
        editors,
        book,
        ..
    } = loaded;
    let machine = machine_of(alloc, policy, editors, trace.len(), &book)?;
    let desk = Desk::new(&book, |query: &Query| book_code(&book, query));
    steal_run(rt, alloc, machine, trace, workers, &desk, gate)
}

/// Plays what was read, which is played by turns.
pub fn run_without_threads(alloc: Global, how: How, loaded: Loaded) -> Ended
    requires turns { is_by_turns how ≡ true }
    requires playable { IsPlayable loaded }
    ensures { IfOk result (IsEnded how loaded) }
{
    match how {
        How::ByTurns => run_by_turns(alloc, loaded),
        How::OnThreads(_) | How::Stealing(_) => unreachable!(),
    }
}

/// Plays what was read, by turns or on threads, which the gate may hold back on their way.
pub fn run_with_threads<W: Threads + Wait + Sync, G: Gate>(
    rt: &W,
    alloc: Global,
    gate: &G,
    how: How,
    loaded: Loaded,
) -> Ended
    requires workers { HasWorkers how }
    requires playable { IsPlayable loaded }
    ensures { IfOk result (IsEnded how loaded) }
{
    match how {
        How::ByTurns => run_by_turns(alloc, loaded),
        How::OnThreads(workers) => run_on_threads(rt, alloc, workers, gate, loaded),
        How::Stealing(workers) => run_stealing(rt, alloc, workers, gate, loaded),
    }
}

/// Plays what was read by a closure, which is told how.
pub fn play_by<P: Fn(How, Loaded) -> Ended>(play: &P, how: How, loaded: Loaded) -> Ended
    requires so { PlaysSo P.Fn how play.now }
    requires playable { IsPlayable loaded }
    ensures { IfOk result (IsEnded how loaded) }
{
    play(how, loaded)
}
