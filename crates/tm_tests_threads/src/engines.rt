//! Engines that threads share.
ghost use Rattle.std.specs.Prelude.{◌≡◌, []};
ghost use Rattle.tm_publish.specs.Boards.{Names, blank_parts};

use crate::tally::Tally;
use std::alloc::Global;
use std::cell::RefCell;
use std::marker::Brand;
use std::process::Abort;
use std::sync::Wait;
use std::test::Fail;
use std::thread;
use std::thread::Threads;
use tm_engine::gate::{Gate, NoGate};
use tm_engine::open::open_engine;
use tm_publish::blank::Blank;
use tm_publish::front::Named;
use tm_types::step::Answered;

fn tally(alloc: Global) -> Tally
    ensures { (result.start ≡ 5) × (result.steps.items ≡ []) }
{
    Tally {
        start: 5,
        steps: Vec::new(alloc),
    }
}

#[test]
fn one_settles_and_the_other_waits_for_the_answer(rt: HostRuntime) -> Result<(), Fail> {
    answered::<Brand, _>(&rt, rt.alloc(), Blank::new(2))
}

fn answered<L: Named + Send + Sync, R: Threads + Wait + Abort + Sync>(
    rt: &R,
    alloc: Global,
    blank: Blank<Tally>,
) -> Result<(), Fail>
    requires named { Names L.name L.parts L.history blank }
    requires two { blank_parts blank ≡ 2 }
{
    let (engine, mut passes) = open_engine::<L, Tally, R>(rt, alloc, blank, tally(alloc), 2)?;
    let mut b = passes.pop().ok_or("two passes")?;
    let mut a = passes.pop().ok_or("two passes")?;
    let (made, found) = thread::join(
        rt,
        || {
            engine
                .settle(rt, alloc, &mut a, 7)
                .map(|s| (s.number, s.reply))
        },
        || engine.await_answer(rt, &mut b, 1),
    );
    assert_eq!(rt; made, Ok((1, 7)));
    assert!(rt; matches!(found, Ok((Answered::Yes, 1))));
    let second = engine
        .settle(rt, alloc, &mut b, 8)
        .map(|s| (s.number, s.reply));
    assert_eq!(rt; second, Ok((2, 8)));
    let third = engine
        .settle(rt, alloc, &mut b, 9)
        .map(|s| (s.number, s.reply));
    assert_eq!(rt; third, Ok((3, 9)));
    let front = engine.front(rt, &mut b);
    a.told(&front);
    assert_eq!(rt;
        a.look(|hall: &Tally, version: u64| (hall.steps.len(), version)),
        Some((3, 3))
    );
    assert_eq!(rt; (a.refused(), b.refused()), (0, 0));
    passes.push(a)?;
    passes.push(b)?;
    let closed = engine.close(rt, passes)?;
    assert_eq!(rt;
        (closed.own, closed.office.steps.as_slice()),
        (3, [7, 8, 9].as_slice())
    );
    Ok(())
}

#[test]
fn one_waits_for_a_query_until_none_comes(rt: HostRuntime) -> Result<(), Fail> {
    queried::<Brand, _>(&rt, rt.alloc(), Blank::new(2))
}

fn queried<L: Named + Send + Sync, R: Threads + Wait + Abort + Sync>(
    rt: &R,
    alloc: Global,
    blank: Blank<Tally>,
) -> Result<(), Fail>
    requires named { Names L.name L.parts L.history blank }
    requires two { blank_parts blank ≡ 2 }
{
    let (engine, mut passes) = open_engine::<L, Tally, R>(rt, alloc, blank, tally(alloc), 2)?;
    let mut b = passes.pop().ok_or("two passes")?;
    let mut a = passes.pop().ok_or("two passes")?;
    let (first, made) = thread::join(
        rt,
        || engine.await_query(rt, alloc, &mut a),
        || engine.settle(rt, alloc, &mut b, 7).map(|s| s.number),
    );
    assert_eq!(rt; (first, made), (Ok(Some(5)), Ok(1)));
    NoGate.pass(rt, 1, 1);
    let (last, made) = thread::join(
        rt,
        || engine.await_query(rt, alloc, &mut a),
        || engine.settle(rt, alloc, &mut b, 8).map(|s| s.number),
    );
    assert_eq!(rt; (last, made), (Ok(Some(5)), Ok(2)));
    assert_eq!(rt;
        engine.settle(rt, alloc, &mut b, 9).map(|s| s.number),
        Ok(3)
    );
    assert_eq!(rt; engine.await_query(rt, alloc, &mut a), Ok(None));
    passes.push(a)?;
    passes.push(b)?;
    assert_eq!(rt; engine.close(rt, passes)?.own, 3);
    Ok(())
}

#[test]
fn a_stop_wakes_who_waits(rt: HostRuntime) -> Result<(), Fail> {
    for _ in 0..10 {
        stopped::<Brand, _>(&rt, rt.alloc(), Blank::new(2))?;
    }
    Ok(())
}

fn stopped<L: Named + Send + Sync, R: Threads + Wait + Abort + Sync>(
    rt: &R,
    alloc: Global,
    blank: Blank<Tally>,
) -> Result<(), Fail>
    requires named { Names L.name L.parts L.history blank }
    requires two { blank_parts blank ≡ 2 }
{
    let (engine, mut passes) = open_engine::<L, Tally, R>(rt, alloc, blank, tally(alloc), 2)?;
    let mut b = passes.pop().ok_or("two passes")?;
    let mut a = passes.pop().ok_or("two passes")?;
    assert_eq!(rt;
        engine.settle(rt, alloc, &mut b, 7).map(|s| s.number),
        Ok(1)
    );
    let (found, ()) = thread::join(
        rt,
        || engine.await_answer(rt, &mut a, 2).is_err(),
        || engine.stop(rt),
    );
    assert!(rt; found);
    assert!(rt; engine.settle(rt, alloc, &mut b, 8).is_err());
    passes.push(a)?;
    passes.push(b)?;
    let closed = engine.close(rt, passes)?;
    assert_eq!(rt;
        (closed.own, closed.office.steps.as_slice()),
        (1, [7].as_slice())
    );
    Ok(())
}

#[test]
fn a_stop_wakes_who_waits_for_a_query(rt: HostRuntime) -> Result<(), Fail> {
    for _ in 0..10 {
        stopped_unasked::<Brand, _>(&rt, rt.alloc(), Blank::new(2))?;
    }
    Ok(())
}

fn stopped_unasked<L: Named + Send + Sync, R: Threads + Wait + Abort + Sync>(
    rt: &R,
    alloc: Global,
    blank: Blank<Tally>,
) -> Result<(), Fail>
    requires named { Names L.name L.parts L.history blank }
    requires two { blank_parts blank ≡ 2 }
{
    let (engine, mut passes) = open_engine::<L, Tally, R>(rt, alloc, blank, tally(alloc), 2)?;
    let mut a = passes.pop().ok_or("two passes")?;
    let (found, ()) = thread::join(
        rt,
        || engine.await_query(rt, alloc, &mut a).is_err(),
        || engine.stop(rt),
    );
    assert!(rt; found);
    passes.push(a)?;
    assert_eq!(rt; engine.close(rt, passes)?.own, 0);
    Ok(())
}

#[test]
fn a_read_stands_within_a_read(rt: HostRuntime) -> Result<(), Fail> {
    within::<Brand, _>(&rt, rt.alloc(), Blank::new(2))
}

fn within<L: Named, R: Wait + Abort>(rt: &R, alloc: Global, blank: Blank<Tally>) -> Result<(), Fail>
    requires named { Names L.name L.parts L.history blank }
    requires two { blank_parts blank ≡ 2 }
{
    let (engine, mut passes) = open_engine::<L, Tally, R>(rt, alloc, blank, tally(alloc), 2)?;
    let b = RefCell::new(passes.pop().ok_or("two passes")?);
    let mut a = passes.pop().ok_or("two passes")?;
    let found = engine.read(&mut a, |_, outer: u64| match b.try_borrow_mut() {
        Ok(mut inner) => engine.read(&mut *inner, |_, version: u64| (outer, version)),
        Err(_) => None,
    });
    assert_eq!(rt; found, Some(Some((0, 0))));
    passes.push(a)?;
    passes.push(b.into_inner())?;
    assert_eq!(rt; engine.close(rt, passes)?.own, 0);
    Ok(())
}
