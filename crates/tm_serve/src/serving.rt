//! How a supervisor answers, and leaves.
ghost use Rattle.std.specs.Prelude.{◌≡◌, ◌<◌, ◌+◌, ◌⊎◌, ◌↔◌, List, Some, IfOk, OnOk, IsTrue, MatchOption};
ghost use Rattle.tm_rules.specs.Prelude.{book_answer, code_of};
ghost use Rattle.tm_desk.specs.Desks.{desk_book, IsDesk};
ghost use Rattle.tm_publish.specs.Words.{home, known, HasSeen, made_of};
ghost use Rattle.tm_engine.specs.Waits.{IsFirstQuery};
ghost use mathlib.Core.List.{IsPrefix};
ghost use Rattle.tm_serve.specs.Serving.{HasMade, HasAnswered, HasWaited, IsServing, IsOver, HasServed};

use crate::making::make;
use std::alloc::Global;
use std::sync::Wait;
use tm_desk::Desk;
use tm_engine::engine::Engine;
use tm_list::NoMemory;
use tm_office::DeskHall;
use tm_publish::front::Named;
use tm_publish::pass::Pass;
use tm_types::step::{Book, Query};

// Waits for a query: the first one; or None where each has its answer and none will come.
fn await_first<L: Named, H: DeskHall, W: Wait>(
    rt: &W,
    alloc: Global,
    engine: &Engine<L, H>,
    pass: &mut Pass<L, H>,
) -> Result<Option<Query>, NoMemory>
    ensures first { IfOk result (IsFirstQuery H.fits H.first_at H.over_at pass.old pass.new) }
    ensures begins { OnOk result (IsPrefix (known pass.old) (known pass.new)) }
    ensures knows { (xs : List H.Step) → HasSeen pass.old xs → HasSeen pass.new xs }
    ensures opening { home pass.new ≡ home pass.old }
    ensures made { made_of pass.new ≡ made_of pass.old }
{
    pass.seen();
    let first = engine.await_query(rt, alloc, pass)?;
    pass.seen();
    Ok(first)
}

// Answers this query by the book, with the step of this number.
fn answer_query<L: Named, H: DeskHall, F: Fn(&Query) -> u64, W: Wait>(
    rt: &W,
    alloc: Global,
    engine: &Engine<L, H>,
    pass: &mut Pass<L, H>,
    desk: &Desk<'_, F>,
    query: Query,
) -> Result<u64, NoMemory>
    requires desk { IsDesk F.Fn desk.now }
    ensures made { IfOk result (HasMade
        (H.answer query.serial (code_of (book_answer (desk_book desk.now) query)))
        pass.old pass.new) }
    ensures knows { (xs : List H.Step) → HasSeen pass.old xs → HasSeen pass.new xs }
    ensures opening { home pass.new ≡ home pass.old }
{
    let step = H::answer_step(query.serial, desk.code(&query));
    drop(query);
    make(rt, alloc, engine, pass, step)
}

// Waits for a query, and answers the first one by the book, with the step of this number; None
// where each has its answer and none will come.
fn answer_next<L: Named, H: DeskHall, F: Fn(&Query) -> u64, W: Wait>(
    rt: &W,
    alloc: Global,
    engine: &Engine<L, H>,
    pass: &mut Pass<L, H>,
    desk: &Desk<'_, F>,
) -> Result<Option<u64>, NoMemory>
    requires desk { IsDesk F.Fn desk.now }
    ensures next { IfOk result
        (λ next. MatchOption next
        (HasWaited H.first_at H.over_at pass.old pass.new)
        (HasAnswered H.first_at H.answer (desk_book desk.now) pass.old pass.new)) }
    ensures knows { (xs : List H.Step) → HasSeen pass.old xs → HasSeen pass.new xs }
    ensures opening { home pass.new ≡ home pass.old }
{
    let first = await_first(rt, alloc, engine, pass)?;
    match first {
        Some(query) => {
            let number = answer_query(rt, alloc, engine, pass, desk, query)?;
            Ok(Some(number))
        }
        None => Ok(None),
    }
}

// Whether this is the book's number of answers.
fn is_enough(book: &Book, count: u64) -> bool
    ensures { IsTrue result ↔ (book.now.stop ≡ Some count) }
{
    match book.stop {
        Some(most) => most == count,
        None => false,
    }
}

// A count below a number, and one more.
fn one_more(count: u64, number: u64) -> u64
    requires { count < number }
    ensures { result ≡ count + 1 }
{
    count + 1
}

// Answers query after query, until the book's number is reached or none will come: how many.
fn answer_all<L: Named, H: DeskHall, F: Fn(&Query) -> u64, W: Wait>(
    rt: &W,
    alloc: Global,
    engine: &Engine<L, H>,
    pass: &mut Pass<L, H>,
    desk: &Desk<'_, F>,
) -> Result<u64, NoMemory>
    requires desk { IsDesk F.Fn desk.now }
    ensures serving { IfOk result
        (IsServing H.first_at H.answer (desk_book desk.now) pass.old pass.new) }
    ensures due { IfOk result (λ count. ((desk_book desk.now).stop ≡ Some count)
        ⊎ IsOver H.first_at H.over_at pass.old (known pass.new)) }
    ensures knows { (xs : List H.Step) → HasSeen pass.old xs → HasSeen pass.new xs }
    ensures opening { home pass.new ≡ home pass.old }
{
    let mut count = 0;
    for _ in rt.forever() {
        if is_enough(desk.book(), count) {
            return Ok(count);
        }
        let next = answer_next(rt, alloc, engine, pass, desk)?;
        match next {
            Some(number) => {
                let more = one_more(count, number);
                count = more;
            }
            None => return Ok(count),
        }
    }
    unreachable!()
}

/// Answers the first query again and again, with the desk's code of it, and then leaves: after the
/// book's number of answers, or when each query has its answer and none will come. It answers how
/// many it answered.
///
/// Errors: want of memory, or that the engine was stopped; what was answered stays so.
pub fn serve<L: Named, H: DeskHall, F: Fn(&Query) -> u64, W: Wait>(
    rt: &W,
    alloc: Global,
    engine: &Engine<L, H>,
    pass: &mut Pass<L, H>,
    desk: &Desk<'_, F>,
) -> Result<u64, NoMemory>
    requires desk { IsDesk F.Fn desk.now }
    ensures served { IfOk result
        (HasServed H.first_at H.over_at H.answer H.detach (desk_book desk.now) pass.old pass.new) }
    ensures knows { (xs : List H.Step) → HasSeen pass.old xs → HasSeen pass.new xs }
    ensures opening { home pass.new ≡ home pass.old }
{
    let count = answer_all(rt, alloc, engine, pass, desk)?;
    make(rt, alloc, engine, pass, H::detach_step())?;
    Ok(count)
}
