//! How passes are given back.
ghost use Rattle.std.specs.Prelude.{◌≡◌, ℕ, List, Some, length, slice_get};
ghost use Rattle.std.specs.List.{sum_by};
ghost use mathlib.Core.List.{IsPrefix};
ghost use Rattle.tm_publish.specs.History.{next_key};
ghost use Rattle.tm_publish.specs.Words.{home, HasSeen, made_of, front_home, front_list};

use crate::front::{Front, Named};
use crate::last::Last;
use crate::pass::Pass;
use std::sync::ledger::{Book, Share};
use tm_office::Office;

/// Puts the parts of all passes together. The front is all that was published, so no pass knows more.
pub(crate) fn give_back<L: Named, O: Office>(
    front: &Front<L, O>,
    last: &mut Last<L, O>,
    office: &O,
    book: &mut Book<L>,
    rest: Share<L>,
    passes: Vec<Pass<L, O>>,
)
    requires parts { (rest.parts ≡ 0) × (rest.amount ≡ 0) × (length passes.items ≡ L.parts) }
    requires key { last.old.pen.nib.key ≡ next_key front.now.seen.log }
    ensures known { (k : ℕ) (p : _) (xs : List O.Step) → slice_get passes.items k ≡ Some p →
        HasSeen p xs → IsPrefix xs (front_list front.now) }
    ensures opening { (k : ℕ) (p : _) → slice_get passes.items k ≡ Some p →
        home p ≡ front_home front.now }
    ensures own { book.old.total ≡ sum_by (λ p. length (made_of p)) passes.items }
{
    let mut all = rest;
    for pass in passes {
        let mut mind = pass.into_mind();
        mind.meet(last, front, office);
        mind.told(front);
        all.merge(mind.into_share());
    }
    book.audit(&mut all);
}
