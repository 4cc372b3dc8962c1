//! The history of a board, which stands in proofs alone.
use logbook::{Gain, Pen, Plain, Play, Rule};
use std::marker::PhantomData;
use tm_office::Office;

/// An entry of the history: the opening, or a step; and the key of the pen that enters the next one.
pub enum Event<P, S> {
    Opened(P, u64),
    Made(S, u64),
}

/// The rule of the history: its word counts its entries, and a pen enters one.
pub struct Law;

impl<P, S> Rule<Event<P, S>, u64> for Law {
    ghost use Rattle.std.specs.Prelude.{[]};
    ghost use base.Fml.{ftrue};
    ghost use Rattle.tm_publish.specs.Rules.{IsKept};

    ghost holds = { λ cells log. IsKept cells log };

    ghost first = { [] };

    ghost hinted = { λ n log. Unit {0} };

    ghost shows = { λ log. [] };

    ghost keeps = { λ names log. ftrue };

    ghost moves = { λ ask before after answer. Unit {0} };
}

/// That a step of the history trades nothing.
pub struct Nothing;

impl<E> Gain<E, u64> for Nothing {
    ghost use base.Fml.{ftrue};

    ghost after = { λ names about answer. ftrue };
}

/// The step of the history that enters the opening.
pub struct First;

impl<E> Play<E, u64> for First {
    ghost use Rattle.tm_publish.specs.Rules.{Begins};

    ghost then = { Begins };
}

/// The step of the history that adds an entry, by the last pen.
pub struct Add;

impl<E> Play<E, u64> for Add {
    ghost use Rattle.tm_publish.specs.Rules.{Adds};

    ghost then = { Adds };
}

/// The step of the history that adds nothing: who has the last pen knows the whole.
pub struct Whole;

impl<P, S> Play<Event<P, S>, u64> for Whole {
    ghost use Rattle.tm_publish.specs.Rules.{IsWhole};

    ghost then = { IsWhole };
}

/// The step of the history that makes a pen.
pub struct Grow;

impl<E> Play<E, u64> for Grow {
    ghost use Rattle.tm_publish.specs.Rules.{Grows};

    ghost then = { Grows };
}

/// A step, and the pen that enters the one after it.
#[derive(Drop)]
pub struct Making<'a, S> {
    pub(crate) step: &'a S,
    pub(crate) pen: &'a Pen,
}

/// What a step asks for: that the step is made.
pub struct Step<S> {
    of: PhantomData<S>,
}

impl<'a, P, S> Plain<Making<'a, S>, Event<P, S>, u64> for Step<S> {
    ghost use Rattle.std.specs.Prelude.{None};
    ghost use Rattle.tm_publish.specs.declared.event.Event.TheVariants.{Made};

    ghost ask = { λ m. Made m.step.now m.pen.now.nib.key };

    ghost state = { λ m. None };
}

/// What asks for nothing, beside a step.
pub struct Beside<S> {
    of: PhantomData<S>,
}

impl<P, S> Plain<S, Event<P, S>, u64> for Beside<S> {
    ghost use Rattle.std.specs.Prelude.{None};
    ghost use Rattle.tm_publish.specs.declared.event.Event.TheVariants.{Made};

    ghost ask = { λ s. Made s 0 };

    ghost state = { λ s. None };
}

/// An office, and the pen that enters its first step.
#[derive(Drop)]
pub struct Opening<'a, O> {
    pub(crate) office: &'a O,
    pub(crate) pen: &'a Pen,
}

/// What the first step asks for: that the office is opened.
pub struct Open<O> {
    of: PhantomData<O>,
}

impl<'a, O: Office> Plain<Opening<'a, O>, Event<O::Opening, O::Step>, u64> for Open<O> {
    ghost use Rattle.std.specs.Prelude.{None};
    ghost use Rattle.tm_publish.specs.declared.event.Event.TheVariants.{Opened};

    ghost ask = { λ o. Opened (O.opening o.office.now) o.pen.now.nib.key };

    ghost state = { λ o. None };
}

/// What asks for nothing, beside an office.
pub struct Idle<O> {
    of: PhantomData<O>,
}

impl<O: Office> Plain<O, Event<O::Opening, O::Step>, u64> for Idle<O> {
    ghost use Rattle.std.specs.Prelude.{None};
    ghost use Rattle.tm_publish.specs.declared.event.Event.TheVariants.{Opened};

    ghost ask = { λ o. Opened (O.opening o) 0 };

    ghost state = { λ o. None };
}
