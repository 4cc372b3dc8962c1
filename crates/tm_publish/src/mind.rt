//! What a pass knows.
ghost use Rattle.std.specs.Prelude.{◌≡◌, ℕ, ◌+◌, ◌<◌, ◌≤◌, ◌⊎◌, ◌++◌, ◌∷◌, [], List, IsTrue};
ghost use Rattle.std.specs.Prelude.{length, take, slice_index, vec_capacity};
ghost use mathlib.Core.List.{IsPrefix};
ghost use Rattle.tm_publish.specs.Beginnings.{longer};
ghost use Rattle.tm_publish.specs.History.{opening_of, steps_of, next_key, Knows};

use crate::event::{Event, Law};
use crate::front::{Front, Named};
use crate::last::Last;
use logbook::Seen;
use std::sync::ledger::{Book, Share};
use tm_office::Office;

/// The longest list that a pass knows, what it has learned of the history, how many entries were
/// refused to it, and the numbers of its own steps.
#[derive(Drop)]
pub struct Mind<L: Named, O: Office> {
    pub(crate) front: Front<L, O>,
    pub(crate) all: Seen<Event<O::Opening, O::Step>, u64, Law>,
    pub(crate) refused: u64,
    pub(crate) made: Vec<u64>,
    share: Share<L>,
    pub ghost named: { all.book ≡ L.history },
    pub ghost begins: { take (length front.seen.log) all.log ≡ front.seen.log },
    pub ghost part: { share.parts ≡ 1 },
    pub ghost counted: { share.amount ≡ length made.items },
    pub ghost below: { (k : ℕ) → k < length made.items → slice_index made.items k ≤ front.version },
}

impl<L: Named, O: Office> Mind<L, O> {
    pub(crate) fn new(front: &Front<L, O>, share: Share<L>, made: Vec<u64>) -> Mind<L, O>
        requires { (share.parts ≡ 1) × (share.amount ≡ 0) × (made.items ≡ []) }
        ensures { (result.front.seen.log ≡ front.now.seen.log)
            × (result.all.log ≡ front.now.seen.log)
            × (result.made.items ≡ []) × (result.refused ≡ 0) }
    {
        Mind {
            front: front.twin(),
            all: front.seen.again(),
            refused: 0,
            made,
            share,
        }
    }

    /// Makes the front known.
    pub fn told(&mut self, front: &Front<L, O>)
        ensures longer { steps_of self.new.front.seen.log
            ≡ longer (steps_of self.old.front.seen.log) (steps_of front.now.seen.log) }
        ensures newer { self.old.front.version ≤ front.now.version →
            steps_of self.new.front.seen.log ≡ steps_of front.now.seen.log }
        ensures knows { (xs : List O.Step) → Knows self.old.all.log self.old.front.version xs →
            Knows self.new.all.log self.new.front.version xs }
        ensures front { Knows self.new.all.log self.new.front.version
            (steps_of front.now.seen.log) }
        ensures met { self.old.front.version ≤ front.now.version → (xs : List O.Step) →
            Knows self.old.all.log self.old.front.version xs →
            IsPrefix xs (steps_of front.now.seen.log) }
        ensures opening { (opening_of front.now.seen.log ≡ opening_of self.old.front.seen.log)
            × (opening_of self.new.front.seen.log ≡ opening_of self.old.front.seen.log) }
        ensures same { (self.new.refused ≡ self.old.refused) × (self.new.made ≡ self.old.made)
            × (self.new.share ≡ self.old.share) }
    {
        self.all.learn(&front.seen);
        if self.front.version <= front.version {
            self.front = front.twin();
        }
    }

    /// The front is all that was published, so the pass knows no more.
    pub(crate) fn meet(&self, last: &mut Last<L, O>, now: &Front<L, O>, office: &O)
        requires key { last.old.pen.nib.key ≡ next_key now.now.seen.log }
        ensures met { self.now.front.version ≤ now.now.version }
        ensures same { last.new.pen.nib.key ≡ last.old.pen.nib.key }
    {
        last.meet(now, &self.all, office);
    }

    /// Counts an entry that was refused.
    pub(crate) fn refuse(&mut self)
        ensures counted { ((self.old.refused < self.new.refused) ⊎ (self.new.refused ≡ u64.MAX))
            × (self.old.refused ≤ self.new.refused) }
        ensures same { (self.new.front ≡ self.old.front) × (self.new.all ≡ self.old.all)
            × (self.new.made ≡ self.old.made) × (self.new.share ≡ self.old.share) }
    {
        self.refused = self.refused.saturating_add(1);
    }

    /// Takes room for the number of one more step. False where memory is wanting.
    pub(crate) fn room(&mut self) -> bool
        ensures room { IsTrue result → length self.new.made.items < vec_capacity self.new.made }
        ensures same { (self.new.front ≡ self.old.front) × (self.new.all ≡ self.old.all)
            × (self.new.refused ≡ self.old.refused) × (self.new.made.items ≡ self.old.made.items)
            × (self.new.share ≡ self.old.share) }
    {
        self.made.reserve(1).is_ok()
    }

    /// Counts a step as the pass's own.
    pub(crate) fn make(&mut self, book: &mut Book<L>, number: u64)
        requires room { length self.old.made.items < vec_capacity self.old.made }
        requires known { number ≤ self.old.front.version }
        ensures made { self.new.made.items ≡ self.old.made.items ++ number ∷ [] }
        ensures same { (self.new.front ≡ self.old.front) × (self.new.all ≡ self.old.all)
            × (self.new.refused ≡ self.old.refused) }
        ensures book { book.new.total ≡ book.old.total + 1 }
    {
        book.add(&mut self.share, 1);
        self.made.push_reserved(number);
    }

    pub(crate) fn into_share(self) -> Share<L>
        ensures { result ≡ self.share }
    {
        let Mind {
            front: _,
            all: _,
            refused: _,
            made: _,
            share,
        } = self;
        share
    }
}
