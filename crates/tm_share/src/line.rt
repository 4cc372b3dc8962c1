//! Items that are taken from the front.
ghost use Rattle.std.specs.Prelude.{◌≡◌, ◌∷◌, [], MatchOption};

use std::collections::VecDeque;
use std::marker::Model;

/// Items that are taken from the front. Contracts see those that are left.
#[derive(Drop)]
pub(crate) struct Line<T> {
    items: VecDeque<T>,
}

impl<T> Model for Line<T> {
    ghost use Rattle.std.specs.Prelude.{List};

    ghost Value = { List T };

    ghost view = { λ line. line.items.items };
}

impl<T> Line<T> {
    /// These items, without taking memory.
    pub(crate) fn new(items: Vec<T>) -> Line<T>
        ensures { result ≡ items.items }
    {
        Line {
            items: VecDeque::from(items),
        }
    }

    /// Takes the first item out; None where none is left.
    pub(crate) fn next(&mut self) -> Option<T>
        ensures { MatchOption result ((self.old ≡ []) × (self.new ≡ []))
            (λ item. self.old ≡ item ∷ self.new) }
    {
        self.items.pop_front()
    }
}
