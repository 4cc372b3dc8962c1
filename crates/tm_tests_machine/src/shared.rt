//! Engines of a machine that two threads share.
ghost use Rattle.std.specs.Prelude.{◌≡◌, []};
ghost use Rattle.tm_publish.specs.Boards.{Names, blank_parts};

use crate::opened::{ask, learn, machine};
use crate::steps::{answer_heard, closed, is_answered, is_replied, is_seen, settle_if_it_fits};
use std::alloc::Global;
use std::marker::Brand;
use std::process::Abort;
use std::sync::Wait;
use std::test::Fail;
use std::thread;
use std::thread::Threads;
use tm_engine::engine::Engine;
use tm_engine::open::open_engine;
use tm_list::NoMemory;
use tm_machine::Machine;
use tm_office::DeskHall;
use tm_publish::blank::Blank;
use tm_publish::front::Named;
use tm_publish::pass::Pass;
use tm_rep::Rep;
use tm_types::step::{Answered, Held, Reply};

// The first pass answers while the second waits for it: whether it is answered, and what is heard.
fn answer_beside<L: Named + Send + Sync, R: Rep + Send + Sync, W: Threads + Wait + Sync>(
    rt: &W,
    alloc: Global,
    engine: &Engine<L, Machine<R>>,
    a: &mut Pass<L, Machine<R>>,
    b: &mut Pass<L, Machine<R>>,
) -> (bool, Result<(Answered, u64), NoMemory>) {
    thread::join(
        rt,
        || is_answered(rt, alloc, engine, a, (1, 1), 3, None),
        || answer_heard(rt, engine, b, 1),
    )
}

// A query that is held, is answered by one pass, and heard by the other.
fn answer_and_hear<L: Named + Send + Sync, R: Rep + Send + Sync, W: Threads + Wait + Abort + Sync>(
    rt: &W,
    alloc: Global,
    engine: &Engine<L, Machine<R>>,
    a: &mut Pass<L, Machine<R>>,
    b: &mut Pass<L, Machine<R>>,
) -> Result<(), Fail> {
    let attach = Machine::<R>::attach_step();
    assert!(rt; is_replied(rt, alloc, engine, a, attach, 1, Reply::Attach(true)));
    let held = Reply::Ask(Held::Serial(1));
    assert!(rt; is_replied(rt, alloc, engine, b, ask(alloc)?, 2, held));
    let (answered, found) = answer_beside(rt, alloc, engine, a, b);
    assert!(rt; answered);
    assert!(rt; matches!(found, Ok((Answered::Yes, 3))));
    Ok(())
}

// Opens an engine for it, and wants the answer as the last step.
fn answered<L: Named + Send + Sync, R: Rep + Send + Sync, W: Threads + Wait + Abort + Sync>(
    rt: &W,
    alloc: Global,
    blank: Blank<Machine<R>>,
    office: Machine<R>,
) -> Result<(), Fail>
    requires named { Names L.name L.parts L.history blank }
    requires two { blank_parts blank ≡ 2 }
    requires none { office.made ≡ [] }
{
    let (engine, mut passes) = open_engine::<L, Machine<R>, W>(rt, alloc, blank, office, 2)?;
    let mut b = passes.pop().ok_or("two passes")?;
    let mut a = passes.pop().ok_or("two passes")?;
    answer_and_hear(rt, alloc, &engine, &mut a, &mut b)?;
    passes.push(a)?;
    passes.push(b)?;
    let closed = engine.close(rt, passes)?;
    assert_eq!(rt; (closed.own, closed.office.version()), (3, 3));
    Ok(())
}

#[test]
fn one_answers_and_the_other_waits_for_it(rt: HostRuntime) -> Result<(), Fail> {
    let opened = machine(rt.alloc())?;
    answered::<Brand, _, _>(&rt, rt.alloc(), Blank::new(2), opened)
}

// Whether the pass that waits for an answer finds no memory while the engine is stopped.
fn is_stopped_beside<L: Named + Send + Sync, R: Rep + Send + Sync, W: Threads + Wait + Sync>(
    rt: &W,
    engine: &Engine<L, Machine<R>>,
    pass: &mut Pass<L, Machine<R>>,
) -> bool {
    let (unheard, ()) = thread::join(
        rt,
        || answer_heard(rt, engine, pass, 1).is_err(),
        || engine.stop(rt),
    );
    unheard
}

// A stop, while one waits for the answer to a query that is held.
fn stop_and_go_on<L: Named + Send + Sync, R: Rep + Send + Sync, W: Threads + Wait + Abort + Sync>(
    rt: &W,
    alloc: Global,
    engine: &Engine<L, Machine<R>>,
    a: &mut Pass<L, Machine<R>>,
    b: &mut Pass<L, Machine<R>>,
) -> Result<(), Fail> {
    let attach = Machine::<R>::attach_step();
    assert!(rt; is_replied(rt, alloc, engine, a, attach, 1, Reply::Attach(true)));
    let held = Reply::Ask(Held::Serial(1));
    assert!(rt; is_replied(rt, alloc, engine, b, ask(alloc)?, 2, held));
    assert!(rt; is_stopped_beside(rt, engine, b));
    assert!(rt; settle_if_it_fits(rt, alloc, engine, a, learn(alloc)?).is_err());
    assert!(rt; is_seen(engine, a, 2, Some(held), 2));
    assert_eq!(rt; engine.front(rt, b).version(), 2);
    Ok(())
}

// Opens an engine for it, and wants the steps before the stop.
fn stopped<L: Named + Send + Sync, R: Rep + Send + Sync, W: Threads + Wait + Abort + Sync>(
    rt: &W,
    alloc: Global,
    blank: Blank<Machine<R>>,
    office: Machine<R>,
) -> Result<(), Fail>
    requires named { Names L.name L.parts L.history blank }
    requires two { blank_parts blank ≡ 2 }
    requires none { office.made ≡ [] }
{
    let (engine, mut passes) = open_engine::<L, Machine<R>, W>(rt, alloc, blank, office, 2)?;
    let mut b = passes.pop().ok_or("two passes")?;
    let mut a = passes.pop().ok_or("two passes")?;
    stop_and_go_on(rt, alloc, &engine, &mut a, &mut b)?;
    passes.push(a)?;
    passes.push(b)?;
    assert_eq!(rt; closed(rt, engine, passes)?.version(), 2);
    Ok(())
}

#[test]
fn a_stopped_machine_keeps_its_steps(rt: HostRuntime) -> Result<(), Fail> {
    for _ in 0..10 {
        let opened = machine(rt.alloc())?;
        stopped::<Brand, _, _>(&rt, rt.alloc(), Blank::new(2), opened)?;
    }
    Ok(())
}
