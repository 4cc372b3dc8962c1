//! A call with each element of a list, beside each other, where one may wait for others.
ghost use Rattle.std.specs.Prelude.{◌≡◌, ◌≤◌, ◌<◌, ◌^◌, ◌++◌, ◌∷◌, [], length, IfOk, IfErr, vec_len, vec_capacity};
ghost use Rattle.std.specs.Fork.{AcceptsEach, ChangesEach};
ghost use Rattle.tm_beside.specs.Calls.{AcceptsAll, LeavesAll};

use std::snapshot::Snapshot;
use std::sync::Wait;
use std::thread::{Promise, PromisedHandle, Scope, Threads, scope, scope_env};

// What is done with the element at a place: what it asks of it, and what it leaves of it.
trait Task<T> {
    ghost use Rattle.std.specs.Prelude.{ℕ};

    ghost accepts: { Self → ℕ → T → Type 0 };

    ghost leaves: { Self → ℕ → T → T → Type 0 };

    fn run(&self, place: usize, element: T) -> T
        requires { accepts self.now place element }
        ensures { leaves self.now place element result };
}

// The call of a closure.
#[derive(Drop)]
struct Calling<'a, F> {
    call: &'a F,
}

impl<'a, T, F: Fn(usize, &mut T)> Task<T> for Calling<'a, F> {
    ghost use Rattle.std.specs.Fork.{AcceptsAt, ChangesAt};

    ghost accepts = { λ c place element. AcceptsAt F.Fn c.call.now place element };

    ghost leaves = { λ c place element left. ChangesAt F.Fn c.call.now place element left };

    fn run(&self, place: usize, element: T) -> T {
        let mut element = element;
        let call = self.call;
        call(place, &mut element);
        element
    }
}

// That a thread leaves what the task leaves of the element at a place.
#[derive(Drop)]
struct LeftOf<C, T>(Snapshot<C>, Snapshot<usize>, Snapshot<T>);

impl<T, C: Task<T>> Promise<T> for LeftOf<C, T> {
    ghost kept_by = { λ p left. C.leaves p.0.value p.1.value p.2.value left };
}

// Begins the task with the element at a place in a thread of its own. Where none can be made, those
// that wait are told to give up, and then it is done here.
//
// Errors: what is left, where it was done here.
fn begin<'s, 'e, T: Send + Drop + 'e, C: Task<T> + Sync + 'e, G: Fn()>(
    threads: &Scope<'s, &'e ()>,
    task: &'e C,
    give_up: &G,
    place: usize,
    element: T,
) -> Result<PromisedHandle<T, LeftOf<C, T>>, T>
    requires task { C.accepts task.now place element }
    requires give_up { G.pre give_up.now }
    ensures thread { IfOk result (λ thread. (thread.promise.0.value ≡ task.now)
        × (thread.promise.1.value ≡ place) × (thread.promise.2.value ≡ element)) }
    ensures here { IfErr result (λ left. C.leaves task.now place element left) }
    ensures gave_up { IfErr result (λ _. G.post give_up.now tt) }
{
    let promise = LeftOf(
        Snapshot::of(task),
        Snapshot::of(&place),
        Snapshot::of(&element),
    );
    let begun = threads.spawn_with(
        promise,
        move || -> T
            requires { C.accepts task.now place element }
            ensures { C.leaves task.entry.now place element result }
        { task.run(place, element) },
    );
    match begun {
        Ok(thread) => Ok(thread),
        Err(refused) => {
            give_up();
            Err((refused.value)())
        }
    }
}

// The list with an element more, for which it has room.
fn put_back<T: Drop>(list: Vec<T>, element: T) -> Vec<T>
    requires room { vec_len list < vec_capacity list }
    ensures items { result.items ≡ list.items ++ element ∷ [] }
    ensures capacity { vec_capacity list ≤ vec_capacity result }
{
    let mut list = list;
    let Ok(()) = list.push(element) else {
        unreachable!()
    };
    list
}

// The task with each element: with the first by this thread, with each other by one of its own.
fn run_all<'s, 'e, W: Threads, T: Send + Drop + 'e, C: Task<T> + Sync + 'e, G: Fn()>(
    rt: &W,
    threads: &Scope<'s, &'e ()>,
    task: &'e C,
    give_up: &G,
    list: Vec<T>,
) -> Vec<T>
    requires accepts { AcceptsAll (C.accepts task.now) list.items }
    requires give_up { G.pre give_up.now }
    ensures leaves { LeavesAll (C.leaves task.now) list.items result.items }
    ensures capacity { vec_capacity list ≤ vec_capacity result }
{
    let mut list = list;
    let Some(element) = list.pop() else {
        return list;
    };
    let place = list.len();
    if place == 0 {
        return put_back(list, task.run(place, element));
    }
    match begin(threads, task, give_up, place, element) {
        Ok(thread) => {
            let list = run_all(rt, threads, task, give_up, list);
            put_back(list, thread.join(rt))
        }
        Err(left) => {
            let list = run_all(rt, threads, task, give_up, list);
            put_back(list, left)
        }
    }
}

// The task with each element, in threads that end before this does.
fn run_together<W: Threads + Wait, T: Send + Drop, C: Task<T> + Sync, G: Fn()>(
    rt: &W,
    task: &C,
    give_up: &G,
    list: Vec<T>,
) -> Vec<T>
    requires accepts { AcceptsAll (C.accepts task.now) list.items }
    requires give_up { G.pre give_up.now }
    ensures { LeavesAll (C.leaves task.now) list.items result.items }
{
    scope(
        scope_env(),
        rt,
        move |threads| -> Vec<T>
            requires { AcceptsAll (C.accepts task.now) list.items × G.pre give_up.now }
            ensures { LeavesAll (C.leaves task.entry.now) list.items result.items }
        { run_all(rt, threads, task, give_up, list) },
    )
}

/// Calls `call(place, &mut element)` with each element of a list, beside each other: with the first
/// in the caller, with each other in a thread of its own. Gives the elements back, in their order.
///
/// Calls may wait for each other. Where a thread can't be made, `give_up` is called at once, before
/// the caller makes that call itself: it has to see to it that from then on no call waits.
pub fn call_together<W: Threads + Wait, T: Send + Drop, F: Fn(usize, &mut T) + Sync, G: Fn()>(
    rt: &W,
    list: Vec<T>,
    call: &F,
    give_up: &G,
) -> Vec<T>
    requires accepts { AcceptsEach F.Fn call.now list.items }
    requires give_up { G.pre give_up.now }
    ensures len { length result.items ≡ length list.items }
    ensures each { ChangesEach F.Fn call.now list.items result.items }
{
    run_together(rt, &Calling { call }, give_up, list)
}
