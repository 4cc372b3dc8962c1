//! Beginnings of the history that were reached.
ghost use Rattle.std.specs.Prelude.{◌≡◌, ◌+◌, length, IsTrue, true};
ghost use Rattle.tm_publish.specs.History.{is_opened, steps_of};

use crate::event::{Event, Law};
use logbook::Seen;
use std::marker::{Brand, PhantomData};
use std::sync::ledger::Ledger;
use tm_office::Office;

/// Names one board: its ledger, and its history.
pub trait Named: Ledger {
    ghost use Rattle.logbook.specs.Pages.{Book};

    ghost history: { Book };
}

impl Named for Brand {
    ghost use Rattle.tm_publish.specs.Rules.{no_book};

    ghost history = { no_book };
}

/// All that was published at some time: the opening, and a list of steps.
#[derive(Drop)]
pub struct Front<L: Named, O: Office> {
    pub(crate) seen: Seen<Event<O::Opening, O::Step>, u64, Law>,
    pub(crate) version: u64,
    of: PhantomData<L>,
    pub ghost named: { seen.book ≡ L.history },
    pub ghost counted: { version ≡ length (steps_of seen.log) },
    pub ghost whole: { length seen.log ≡ version + 1 },
    pub ghost opened: { is_opened seen.log ≡ true },
}

impl<L: Named, O: Office> Front<L, O> {
    ghost use Rattle.tm_publish.specs.Words.{front_home, front_list};

    /// A front of what was seen, an opening and so many steps.
    pub(crate) fn of_seen(
        seen: Seen<Event<O::Opening, O::Step>, u64, Law>,
        version: u64,
    ) -> Front<L, O>
        requires named { seen.book ≡ L.history }
        requires counted { version ≡ length (steps_of seen.log) }
        requires whole { length seen.log ≡ version + 1 }
        requires opened { is_opened seen.log ≡ true }
        ensures { (result.seen ≡ seen) × (result.version ≡ version) }
    {
        Front {
            seen,
            version,
            of: PhantomData,
        }
    }

    /// How long its list is.
    pub fn version(&self) -> u64
        ensures { result ≡ length (front_list self.now) }
    {
        self.version
    }

    /// A copy.
    pub fn again(&self) -> Front<L, O>
        ensures { (front_home result ≡ front_home self.now)
            × (front_list result ≡ front_list self.now) }
    {
        self.twin()
    }

    /// `again`, with all that is known of it.
    pub(crate) fn twin(&self) -> Front<L, O>
        ensures { (result.seen ≡ self.now.seen) × (result.version ≡ self.now.version) }
    {
        Front {
            seen: self.seen.again(),
            version: self.version,
            of: PhantomData,
        }
    }

    /// True where the two have one list.
    pub(crate) fn is_same(&self, other: &Front<L, O>) -> bool
        ensures { IsTrue result → self.now.seen.log ≡ other.now.seen.log }
    {
        let mut both = self.seen.again();
        both.learn(&other.seen);
        self.version == other.version
    }
}
