//! What a board is made of before it has a name.
ghost use Rattle.std.specs.Prelude.{◌≡◌, []};
ghost use Rattle.tm_publish.specs.Rules.{head_of};

use crate::event::{Event, Law};
use logbook::{Seen, Start, Word};
use std::sync::ledger;
use tm_office::Office;

/// A ledger and an empty history, which no name stands for yet. It is made before the call over the
/// name.
pub struct Blank<O: Office> {
    pub(crate) ledger: ledger::Blank,
    pub(crate) head: Word<Event<O::Opening, O::Step>, u64, Law>,
    pub(crate) seen: Seen<Event<O::Opening, O::Step>, u64, Law>,
    pub ghost empty: { seen.log ≡ [] },
    pub ghost head_is: { head ≡ head_of seen.book },
}

impl<O: Office> Blank<O> {
    ghost use Rattle.tm_publish.specs.Boards.{blank_parts};

    /// A blank of a board with so many passes.
    pub fn new(passes: u64) -> Blank<O>
        ensures { blank_parts result ≡ passes }
    {
        let (seen, mut first, _second) = Seen::open(Start::alone(), 0, 0);
        Blank {
            ledger: ledger::Blank::new(passes),
            head: Word::tracked(0, &mut first),
            seen,
        }
    }
}
