//! The rule of a deque, and what each of its passes knows.

use crossbeam_deque::protocol::{Join, Lesson, Outcome, Protocol, Split};
use std::collections::LinkedList;

/// What a pass of a deque has put there and taken, and its parts of the right to know the whole. No
/// value of it is made.
pub struct Tally<J> {
    pub parts: u64,
    pub put: LinkedList<J>,
    pub taken: LinkedList<J>,
}

/// The rule of a deque: what was put is what was taken and what the deque holds.
pub struct Fair;

impl<J> Protocol<J, Tally<J>> for Fair {
    ghost use Rattle.std.specs.Prelude.{[]};
    ghost use Rattle.tm_share.specs.Tallies.{tally, Balanced};

    ghost holds = { Balanced };

    ghost first = { tally 1024 [] [] };

    ghost guest = { tally 0 [] [] };
}

/// A part for a pass of its own, which has put and taken nothing.
pub(crate) struct Cut;

impl<J> Split<Tally<J>> for Cut {
    ghost use Rattle.std.specs.Prelude.{◌-◌, []};
    ghost use Rattle.tm_share.specs.Tallies.{tally};

    ghost left = { λ v. tally (v.parts - 1) v.put v.taken };

    ghost right = { λ v. tally 1 [] [] };
}

impl<J> Join<Tally<J>> for Cut {
    ghost use Rattle.std.specs.Prelude.{[]};
    ghost use Rattle.tm_share.specs.Tallies.{tally, joined};

    ghost both = { λ v w. joined v w };

    ghost spent = { tally 0 [] [] };
}

/// A job joins the deque.
pub(crate) struct Puts;

impl<J> Outcome<J, Tally<J>> for Puts {
    ghost use Rattle.std.specs.Prelude.{◌≡◌, ◌++◌};
    ghost use Rattle.tm_share.specs.Tallies.{tally};

    ghost then = { λ v xs w. w ≡ tally v.parts (v.put ++ xs) v.taken };
}

/// A job leaves the deque. Who has every part and finds none knows that all that was put was taken.
pub(crate) struct Takes;

impl<J> Outcome<J, Tally<J>> for Takes {
    ghost use Rattle.std.specs.Prelude.{◌≡◌, ◌++◌, []};
    ghost use Rattle.tm_share.specs.Tallies.{tally, Leaves};

    ghost then = { λ v xs w. w ≡ tally v.parts v.put (v.taken ++ xs) };

    ghost empty = { λ v. Leaves v [] };
}

/// What the deque holds.
pub(crate) struct Rest;

impl<J> Lesson<J, Tally<J>> for Rest {
    ghost use Rattle.tm_share.specs.Tallies.{Leaves};

    ghost fact = { λ v items. Leaves v items };
}
