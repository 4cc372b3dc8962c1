//! The records of a trace by their places.
ghost use Rattle.std.specs.Prelude.{◌≡◌};
ghost use Rattle.std.specs.Option.{option_copied};
ghost use Rattle.tm_steal_rows.specs.Records.{numbered, record_at};

use tm_types::request::{Item, Tree};

/// Where a record stands in a trace: the number of its tree, and its own among the records of the
/// tree, both from 1.
#[derive(Clone, Copy)]
pub struct RecordPlace {
    pub tree: u32,
    pub item: u32,
}

/// The element of this number, from 1.
pub(crate) fn numbered<T>(items: &[T], number: u32) -> Option<&T>
    ensures { option_copied result ≡ numbered items.now number }
{
    match number.checked_sub(1) {
        Some(before) => items.get(before as usize),
        None => None,
    }
}

/// The record at a place, if there is one.
pub fn record_at(trace: &[Tree], place: RecordPlace) -> Option<&Item>
    ensures { option_copied result ≡ record_at trace.now place }
{
    match numbered(trace, place.tree) {
        Some(tree) => numbered(tree.records.as_slice(), place.item),
        None => None,
    }
}
