//! Calls that threads make beside each other.
ghost use Rattle.std.specs.Prelude.{◌<◌};

use std::alloc::Global;
use std::process::Abort;
use std::sync::Wait;
use std::sync::atomic::{AtomicU64, Ordering};
use std::test::Fail;
use std::thread::{Threads, yield_now};
use tm_beside::{call_together, for_each_beside};

// Comes to where so many are awaited: whether they all came before this one gave up.
fn meets(come: &AtomicU64, awaited: u64) -> bool {
    come.fetch_add(1, Ordering::SeqCst);
    for _ in 0..50_000_000_u64 {
        if come.load(Ordering::SeqCst) >= awaited {
            return true;
        }
        yield_now();
    }
    false
}

// How many of so many calls, each of which waits for this many, have met, by so many threads.
fn count_met<W: Threads + Sync>(
    rt: &W,
    alloc: Global,
    calls: usize,
    threads: usize,
    awaited: u64,
) -> Result<usize, Fail>
    requires threads { 0 < threads }
{
    let mut met = Vec::new(alloc);
    for _ in 0..calls {
        met.push(false)?;
    }
    let come = AtomicU64::new(0);
    for_each_beside(
        rt,
        met.as_mut_slice(),
        threads,
        &|_place: usize, one: &mut bool| {
            *one = meets(&come, awaited);
        },
    );
    let mut count: usize = 0;
    for one in met.as_slice() {
        if *one {
            count = count.saturating_add(1);
        }
    }
    Ok(count)
}

#[test]
fn as_many_calls_as_threads_go_on_beside_each_other(rt: HostRuntime) -> Result<(), Fail> {
    assert_eq!(&rt; count_met(&rt, rt.alloc(), 3, 3, 3)?, 3);
    assert_eq!(&rt; count_met(&rt, rt.alloc(), 32, 32, 32)?, 32);
    assert_eq!(&rt; count_met(&rt, rt.alloc(), 4, 16, 4)?, 4);
    Ok(())
}

// Each place in turn: of seven in parts of three the calls 0, 1 and 2 are made one after another.
#[test]
fn each_place_has_its_call(rt: HostRuntime) -> Result<(), Fail> {
    let mut places = Vec::new(rt.alloc());
    for _ in 0..7_u64 {
        places.push(0)?;
    }
    for_each_beside(
        &rt,
        places.as_mut_slice(),
        3,
        &|place: usize, one: &mut u64| {
            *one = place as u64;
        },
    );
    let mut place: u64 = 0;
    for one in places.as_slice() {
        assert_eq!(&rt; *one, place);
        place = place.saturating_add(1);
    }
    assert_eq!(&rt; place, 7);
    assert_eq!(&rt; count_met(&rt, rt.alloc(), 0, 3, 1)?, 0);
    assert_eq!(&rt; count_met(&rt, rt.alloc(), 5, 1, 1)?, 5);
    Ok(())
}

// What is left of the numbers below this one, each of which waits for all: one more where they met.
fn left_together<W: Threads + Wait>(rt: &W, alloc: Global, awaited: u64) -> Result<Vec<u64>, Fail> {
    let mut list = Vec::new(alloc);
    for number in 0..awaited {
        list.push(number)?;
    }
    let come = AtomicU64::new(0);
    let left = call_together(
        rt,
        list,
        &|place: usize, number: &mut u64| {
            if meets(&come, awaited) && place as u64 == *number {
                *number = number.saturating_add(1);
            }
        },
        &|| (),
    );
    Ok(left)
}

#[test]
fn calls_that_wait_for_each_other_go_on(rt: HostRuntime) -> Result<(), Fail> {
    for awaited in [0, 1, 2, 25] {
        let left = left_together(&rt, rt.alloc(), awaited)?;
        let mut count: u64 = 0;
        for number in left.as_slice() {
            count = count.saturating_add(1);
            assert_eq!(&rt; *number, count);
        }
        assert_eq!(&rt; count, awaited);
    }
    Ok(())
}
