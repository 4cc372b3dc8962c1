//! The one writer of a history: the last pen is its own, so nobody else enters anything.
ghost use Rattle.std.specs.Prelude.{◌≡◌, ◌<◌, ◌≤◌, ◌^◌, [], length, Some, None, IfSome};
ghost use mathlib.Core.List.{IsPrefix};
ghost use Rattle.logbook.specs.Pages.{right_number};
ghost use Rattle.tm_publish.specs.History.{opening_of, steps_of, next_key, IsNext};
ghost use Rattle.tm_publish.specs.Rules.{head_of};

use crate::event::{
    Add, Beside, Event, First, Grow, Idle, Law, Making, Nothing, Open, Opening, Step, Whole,
};
use crate::front::{Front, Named};
use logbook::{Offer, Pen, Plain, Seen, Word};
use std::marker::PhantomData;
use tm_office::Office;

/// The word of a history, and the pen that enters what comes next.
#[derive(Drop)]
pub struct Last<L: Named, O: Office> {
    head: Word<Event<O::Opening, O::Step>, u64, Law>,
    pub(crate) pen: Pen,
    of: PhantomData<L>,
    pub ghost head_is: { head ≡ head_of L.history },
    pub ghost pen_of: { pen.book ≡ L.history },
    pub ghost may: { right_number pen.nib.right ≡ 1 },
}

// A pen that nobody has had.
fn new_pen<P, S, X, M: Plain<X, Event<P, S>, u64>>(
    seen: &Seen<Event<P, S>, u64, Law>,
    head: &Word<Event<P, S>, u64, Law>,
    about: &X,
) -> Pen
    requires head { head.now ≡ head_of seen.now.book }
    requires plain { M.state about.now ≡ None }
    ensures { (result.book ≡ seen.now.book) × (right_number result.nib.right ≡ 1) }
{
    let mut next = seen.again();
    let mut offer: Offer<Event<P, S>, u64, Law, Nothing> = next.plain::<Nothing, X, M>(about);
    let mut pen = next.no_pen();
    head.compare_exchange::<Grow, Nothing>(0, 0, &mut next, &mut offer, &mut pen);
    let word: Word<Event<P, S>, u64, Law> = Word::tracked(0, &mut pen);
    drop(word);
    pen
}

impl<L: Named, O: Office> Last<L, O> {
    /// Enters the opening of an office with no step; None where something was entered before, which
    /// doesn't happen.
    pub(crate) fn open(
        seen: &Seen<Event<O::Opening, O::Step>, u64, Law>,
        head: Word<Event<O::Opening, O::Step>, u64, Law>,
        office: &O,
    ) -> Option<(Last<L, O>, Front<L, O>)>
        requires named { seen.now.book ≡ L.history }
        requires head { head ≡ head_of L.history }
        requires empty { seen.now.log ≡ [] }
        ensures opening { IfSome result
            (λ r. opening_of r.1.seen.log ≡ Some (O.opening office.now)) }
        ensures steps { IfSome result (λ r. steps_of r.1.seen.log ≡ []) }
        ensures key { IfSome result (λ r. r.0.pen.nib.key ≡ next_key r.1.seen.log) }
    {
        let pen = new_pen::<O::Opening, O::Step, O, Idle<O>>(seen, &head, office);
        let mut next = seen.again();
        let opening = Opening { office, pen: &pen };
        let mut offer: Offer<Event<O::Opening, O::Step>, u64, Law, Nothing> = next.plain::<
            Nothing,
            Opening<'_, O>,
            Open<O>,
        >(&opening);
        let mut none = next.no_pen();
        let found = head.compare_exchange::<First, Nothing>(0, 1, &mut next, &mut offer, &mut none);
        if found != 0 {
            return None;
        }
        let front = Front::of_seen(next, 0);
        let last = Last {
            head,
            pen,
            of: PhantomData,
        };
        Some((last, front))
    }

    /// Enters a step behind the front, which is all that was entered.
    pub(crate) fn enter(&mut self, now: &Front<L, O>, step: &O::Step) -> Front<L, O>
        requires key { self.old.pen.nib.key ≡ next_key now.now.seen.log }
        requires room { now.now.version < 2 ^ 62 }
        ensures next { IsNext now.now.seen.log step.now result.seen.log }
        ensures key { self.new.pen.nib.key ≡ next_key result.seen.log }
    {
        let fresh = new_pen::<O::Opening, O::Step, O::Step, Beside<O::Step>>(
            &now.seen, &self.head, step,
        );
        let place = now.version + 1;
        let mut next = now.seen.again();
        let making = Making { step, pen: &fresh };
        let mut offer: Offer<Event<O::Opening, O::Step>, u64, Law, Nothing> = next.plain::<
            Nothing,
            Making<'_, O::Step>,
            Step<O::Step>,
        >(&making);
        self.head
            .compare_exchange::<Add, Nothing>(
                place,
                place + 1,
                &mut next,
                &mut offer,
                &mut self.pen,
            );
        self.pen = fresh;
        Front::of_seen(next, place)
    }

    /// The front is all that was entered, so nobody has seen more.
    pub(crate) fn meet(
        &mut self,
        now: &Front<L, O>,
        all: &Seen<Event<O::Opening, O::Step>, u64, Law>,
        office: &O,
    )
        requires key { self.old.pen.nib.key ≡ next_key now.now.seen.log }
        requires named { all.now.book ≡ L.history }
        ensures met { IsPrefix all.now.log now.now.seen.log }
        ensures same { self.new.pen.nib.key ≡ self.old.pen.nib.key }
    {
        let mut both = now.seen.again();
        both.learn(all);
        let mut offer: Offer<Event<O::Opening, O::Step>, u64, Law, Nothing> = both.plain::<
            Nothing,
            O,
            Idle<O>,
        >(office);
        self.head
            .compare_exchange::<Whole, Nothing>(0, 0, &mut both, &mut offer, &mut self.pen);
    }
}
