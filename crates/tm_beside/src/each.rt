//! A call at each place of a list, in parts that threads make beside each other.
ghost use Rattle.std.specs.Prelude.{◌≡◌, ℕ, ◌+◌, ◌^◌, ◌<◌, length, slice_index_or};
ghost use Rattle.std.specs.Fork.{AcceptsAt, ChangesAt, AcceptsEach, ChangesEach};
ghost use Rattle.tm_beside.specs.Parts.{AcceptsFrom, ChangesFrom};

use std::thread::{Threads, join_mut};

// The call at one place.
fn call_at<T, F: Fn(usize, &mut T)>(call: &F, place: usize, one: &mut T)
    requires { AcceptsAt F.Fn call.now place one.old }
    ensures { ChangesAt F.Fn call.now place one.old one.new }
{
    call(place, one);
}

// The calls at all places of a part, which begins at this place of the list, one after another.
fn call_part<T, F: Fn(usize, &mut T)>(call: &F, begin: usize, part: &mut [T])
    requires room { begin + length part.old < 2 ^ 64 }
    requires accepts { AcceptsFrom F.Fn call.now begin part.old }
    ensures { ChangesFrom F.Fn call.now begin part.old part.new }
{
    for k in 0..part.len() {
        call_at(call, begin + k, &mut part[k]);
    }
}

// The calls of all that is left of the list, which begins at this place, in parts of this size.
#[cycle(parts)]
fn call_parts<W: Threads + Sync, T: Send, F: Fn(usize, &mut T) + Sync>(
    rt: &W,
    call: &F,
    begin: usize,
    size: usize,
    left: &mut [T],
)
    requires size { 0 < size }
    requires room { begin + length left.old < 2 ^ 64 }
    requires accepts { AcceptsFrom F.Fn call.now begin left.old }
    ensures { ChangesFrom F.Fn call.now begin left.old left.new }
{
    if left.len() <= size {
        call_part(call, begin, left);
        return;
    }
    let (part, rest) = left.split_at_mut(size);
    call_both(rt, call, size, begin, part, begin + size, rest);
}

// The calls of a part by a new thread, and those of the rest by this one.
#[cycle(parts)]
fn call_both<W: Threads + Sync, T: Send, F: Fn(usize, &mut T) + Sync>(
    rt: &W,
    call: &F,
    size: usize,
    begin: usize,
    part: &mut [T],
    end: usize,
    rest: &mut [T],
)
    requires size { 0 < size }
    requires part_room { begin + length part.old < 2 ^ 64 }
    requires part { AcceptsFrom F.Fn call.now begin part.old }
    requires rest_room { end + length rest.old < 2 ^ 64 }
    requires rest { AcceptsFrom F.Fn call.now end rest.old }
    ensures part { ChangesFrom F.Fn call.now begin part.old part.new }
    ensures rest { ChangesFrom F.Fn call.now end rest.old rest.new }
{
    let mut theirs = ||
        requires { (begin + length part.now < 2 ^ 64) × AcceptsFrom F.Fn call.now begin part.now }
        ensures { ChangesFrom F.Fn call.entry.now begin part.entry.now part.exit.now }
    { call_part(call, begin, part) };
    let mut ours = ||
        requires { (0 < size) × (end + length rest.now < 2 ^ 64) × AcceptsFrom F.Fn call.now end rest.now }
        ensures { ChangesFrom F.Fn call.entry.now end rest.entry.now rest.exit.now }
    { call_parts(rt, call, end, size, rest) };
    join_mut(rt, &mut theirs, &mut ours);
}

/// Calls `call(place, &mut element)` at each place of a list, in at most so many threads, of which
/// the caller is one. As `std::thread::for_each_mut`, but the caller starts every thread: some
/// kernels leave a thread on the processor of the one that starts it where that has hardly run
/// itself, and another processor idle for tens of milliseconds.
pub fn for_each_beside<W: Threads + Sync, T: Send, F: Fn(usize, &mut T) + Sync>(
    rt: &W,
    list: &mut [T],
    threads: usize,
    call: &F,
)
    requires threads { 0 < threads }
    requires accepts { AcceptsEach F.Fn call.now list.old }
    ensures { ChangesEach F.Fn call.now list.old list.new }
{
    let size = list.len().div_ceil(threads).max(1);
    call_parts(rt, call, 0, size, list);
}
