//! Steps and looks of a machine at an engine, as a caller of it makes them.
ghost use Rattle.std.specs.Prelude.{◌≡◌, ◌≤◌, ℕ, List, Some, None, true, IsTrue, length, slice_get};
ghost use Rattle.std.specs.Prelude.{IfOk, IfSome, MatchOption};
ghost use Rattle.std.specs.List.{sum_by};
ghost use mathlib.Core.List.{IsPrefix};
ghost use Rattle.tm_rules.specs.Types.{Made, Start};
ghost use Rattle.tm_machine.specs.Office.{list_of, fits_at, reply_in, answer_in, first_in, over_in};
ghost use Rattle.tm_publish.specs.Words.{home, known, HasSeen, made_of};
ghost use Rattle.tm_tests_machine.specs.Steps.{IsMade};

use std::alloc::Global;
use std::sync::Wait;
use tm_engine::engine::Engine;
use tm_list::NoMemory;
use tm_machine::Machine;
use tm_office::{DeskHall, Hall};
use tm_publish::board::Closed;
use tm_publish::front::Named;
use tm_publish::pass::Pass;
use tm_rep::Rep;
use tm_types::step::{AnswerFault, Answered, Made, Query, Reply, Settled};

// Whether the step fits after the machine's steps.
fn fits_newest<R: Rep>(alloc: Global, machine: &Machine<R>, made: &Made) -> Result<bool, NoMemory>
    ensures { IfOk result
        (λ fits. fits ≡ fits_at machine.now.start (list_of machine.now) made.now) }
{
    machine.versions();
    machine.fits(alloc, &made.step)
}

// Whether the step fits in the version that is looked at; false too where the look was refused.
fn may_settle<L: Named, R: Rep>(
    alloc: Global,
    engine: &Engine<L, Machine<R>>,
    pass: &mut Pass<L, Machine<R>>,
    made: &Made,
) -> Result<bool, NoMemory>
    ensures fits { IfOk result (λ fits. IsTrue fits → (p : Start) → home pass.old ≡ Some p
        → fits_at p (known pass.new) made.now ≡ true) }
    ensures knows { (xs : List Made) → HasSeen pass.old xs → HasSeen pass.new xs }
    ensures opening { home pass.new ≡ home pass.old }
    ensures made { made_of pass.new ≡ made_of pass.old }
{
    let tried = engine.read(
        pass,
        |machine: &Machine<R>, _version: u64| -> Result<bool, NoMemory>
            ensures { IfOk result (λ fits.
                fits ≡ fits_at machine.entry.now.start (list_of machine.entry.now) made.entry.now) }
        { fits_newest(alloc, machine, made) },
    );
    match tried {
        Some(fits) => fits,
        None => Ok(false),
    }
}

// Makes a step of the pass that fits what the pass knows.
fn settle_that_fits<L: Named, R: Rep, W: Wait>(
    rt: &W,
    alloc: Global,
    engine: &Engine<L, Machine<R>>,
    pass: &mut Pass<L, Machine<R>>,
    made: Made,
) -> Result<Settled<Reply>, NoMemory>
    requires fits { (p : Start) → home pass.old ≡ Some p → fits_at p (known pass.old) made ≡ true }
    ensures settled { IfOk result (λ s. (p : Start) → home pass.old ≡ Some p →
        IsMade p pass.old pass.new made s.number s.reply) }
    ensures knows { (xs : List Made) → HasSeen pass.old xs → HasSeen pass.new xs }
    ensures opening { home pass.new ≡ home pass.old }
{
    pass.seen();
    engine.settle(rt, alloc, pass, made)
}

/// Makes a step of the pass where it fits in the version that is looked at: its number and its
/// reply. None where it doesn't fit, or where the look was refused.
///
/// Errors: want of memory, or that the engine was stopped.
pub fn settle_if_it_fits<L: Named, R: Rep, W: Wait>(
    rt: &W,
    alloc: Global,
    engine: &Engine<L, Machine<R>>,
    pass: &mut Pass<L, Machine<R>>,
    made: Made,
) -> Result<Option<Settled<Reply>>, NoMemory>
    ensures settled { IfOk result (λ settled. IfSome settled
        (λ s. (p : Start) → home pass.old ≡ Some p →
        IsMade p pass.old pass.new made s.number s.reply)) }
    ensures knows { (xs : List Made) → HasSeen pass.old xs → HasSeen pass.new xs }
    ensures opening { home pass.new ≡ home pass.old }
{
    match may_settle(alloc, engine, pass, &made) {
        Ok(true) => match settle_that_fits(rt, alloc, engine, pass, made) {
            Ok(settled) => Ok(Some(settled)),
            Err(fault) => Err(fault),
        },
        Ok(false) => {
            drop(made);
            Ok(None)
        }
        Err(fault) => {
            drop(made);
            Err(fault)
        }
    }
}

/// The reply of the step of this number in the version that is looked at, and that version. None
/// where the look was refused.
pub fn reply_seen<L: Named, R: Rep>(
    engine: &Engine<L, Machine<R>>,
    pass: &mut Pass<L, Machine<R>>,
    number: u64,
) -> Option<(Option<Reply>, u64)>
    ensures reply { IfSome result (λ seen. (p : Start) → home pass.old ≡ Some p →
        seen.0 ≡ reply_in p (known pass.new) number) }
    ensures version { IfSome result (λ seen. seen.1 ≡ length (known pass.new)) }
    ensures knows { (xs : List Made) → HasSeen pass.old xs → HasSeen pass.new xs }
    ensures opening { home pass.new ≡ home pass.old }
{
    engine.read(
        pass,
        |machine: &Machine<R>, version: u64| -> (Option<Reply>, u64)
            ensures { (result.0 ≡ reply_in machine.entry.now.start (list_of machine.entry.now) number)
                × (result.1 ≡ version) }
        { (Hall::reply(machine, number), version) },
    )
}

/// Waits for the answer to the query of this serial, and gives it with the version at which it is
/// taken.
///
/// Errors: that the engine was stopped.
pub fn answer_heard<L: Named, R: Rep, W: Wait>(
    rt: &W,
    engine: &Engine<L, Machine<R>>,
    pass: &mut Pass<L, Machine<R>>,
    serial: u64,
) -> Result<(Answered, u64), NoMemory>
    ensures answer { IfOk result (λ heard. (p : Start) → home pass.old ≡ Some p →
        answer_in p (known pass.new) serial ≡ Some heard.0) }
    ensures version { IfOk result (λ heard. heard.1 ≡ length (known pass.new)) }
    ensures knows { (xs : List Made) → HasSeen pass.old xs → HasSeen pass.new xs }
    ensures opening { home pass.new ≡ home pass.old }
    ensures made { made_of pass.new ≡ made_of pass.old }
{
    engine.await_answer(rt, pass, serial)
}

/// Waits for the first query without an answer; none where each has one and no query will come.
///
/// Errors: want of memory for the query, or that the engine was stopped.
pub fn query_heard<L: Named, R: Rep, W: Wait>(
    rt: &W,
    alloc: Global,
    engine: &Engine<L, Machine<R>>,
    pass: &mut Pass<L, Machine<R>>,
) -> Result<Option<Query>, NoMemory>
    ensures query { IfOk result (λ first. (p : Start) → home pass.old ≡ Some p → MatchOption first
        ((first_in p (known pass.new) ≡ None) × (over_in p (known pass.new) ≡ true))
        (λ query. first_in p (known pass.new) ≡ Some query)) }
    ensures knows { (xs : List Made) → HasSeen pass.old xs → HasSeen pass.new xs }
    ensures opening { home pass.new ≡ home pass.old }
    ensures made { made_of pass.new ≡ made_of pass.old }
{
    engine.await_query(rt, alloc, pass)
}

/// Tells a pass of the newest version, for which another one asks, and gives that version.
pub fn told_newest<L: Named, R: Rep, W: Wait>(
    rt: &W,
    engine: &Engine<L, Machine<R>>,
    asking: &mut Pass<L, Machine<R>>,
    pass: &mut Pass<L, Machine<R>>,
) -> u64
    ensures begins { (xs : List Made) → HasSeen asking.old xs → IsPrefix xs (known asking.new) }
    ensures version { result ≡ length (known asking.new) }
    ensures told { HasSeen pass.new (known asking.new) }
    ensures newer { length (known pass.old) ≤ length (known asking.new)
        → known pass.new ≡ known asking.new }
    ensures knows { (xs : List Made) → HasSeen pass.old xs → HasSeen pass.new xs }
    ensures opening { home pass.new ≡ home pass.old }
{
    let front = engine.front(rt, asking);
    pass.told(&front);
    front.version()
}

/// Closes an engine, whose passes are all given back: the machine at its last version. It has as
/// many steps as the passes have made, and all that any of them had seen begins them.
///
/// Errors: where a pass knows more than was made, which doesn't happen.
pub fn closed<L: Named, R: Rep, W: Wait>(
    rt: &W,
    engine: Engine<L, Machine<R>>,
    passes: Vec<Pass<L, Machine<R>>>,
) -> Result<Machine<R>, NoMemory>
    requires { length passes.items ≡ L.parts }
    ensures steps { IfOk result (λ machine.
        length (list_of machine) ≡ sum_by (λ p. length (made_of p)) passes.items) }
    ensures begins { IfOk result (λ machine. (k : ℕ) (p : _) (xs : List Made) →
        slice_get passes.items k ≡ Some p → HasSeen p xs → IsPrefix xs (list_of machine)) }
    ensures opening { IfOk result (λ machine. (k : ℕ) (p : _) →
        slice_get passes.items k ≡ Some p → home p ≡ Some machine.start) }
{
    let Closed { office, own: _ } = engine.close(rt, passes)?;
    Ok(office)
}

/// Whether a step fits, is made, and has this number and this reply.
pub fn is_replied<L: Named, R: Rep, W: Wait>(
    rt: &W,
    alloc: Global,
    engine: &Engine<L, Machine<R>>,
    pass: &mut Pass<L, Machine<R>>,
    made: Made,
    number: u64,
    reply: Reply,
) -> bool {
    match settle_if_it_fits(rt, alloc, engine, pass, made) {
        Ok(Some(settled)) => settled.number == number && settled.reply == reply,
        _ => false,
    }
}

/// Whether a look shows this version, and this reply of the step of that number.
pub fn is_seen<L: Named, R: Rep>(
    engine: &Engine<L, Machine<R>>,
    pass: &mut Pass<L, Machine<R>>,
    number: u64,
    reply: Option<Reply>,
    version: u64,
) -> bool {
    match reply_seen(engine, pass, number) {
        Some((found, at)) => found == reply && at == version,
        None => false,
    }
}

/// Whether an answer to the query of this serial, with this code, is made, has that number, and is
/// replied so: None where it is taken.
pub fn is_answered<L: Named, R: Rep, W: Wait>(
    rt: &W,
    alloc: Global,
    engine: &Engine<L, Machine<R>>,
    pass: &mut Pass<L, Machine<R>>,
    answer: (u64, u64),
    number: u64,
    fault: Option<AnswerFault>,
) -> bool {
    let step = Machine::<R>::answer_step(answer.0, answer.1);
    is_replied(rt, alloc, engine, pass, step, number, Reply::Answer(fault))
}
