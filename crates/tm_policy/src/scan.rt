//! How one list of entries is searched.
ghost use Rattle.std.specs.Prelude.{◌≡◌};
ghost use Rattle.tm_rules.specs.Prelude.{IsShort, placed};
ghost use Rattle.tm_policy.specs.Searching.{place_in, found_in};

use crate::granting::{Asked, place_in};
use tm_types::entry::Entry;
use tm_types::verdict::Found;

/// How the lists of entries that a domain is searched in are searched: its own, and those of its
/// ACL groups.
pub trait ListSearch {
    ghost use Rattle.std.specs.Prelude.{ℕ, List, Option};
    ghost use Rattle.tm_rules.specs.Types.{Entry};

    // Which lists it can search: the domain's own for None, else that of an ACL group.
    ghost knows: { Self → Option ℕ → List Entry → Type 0 };

    /// What is found first in one list: the domain's own for None, else that of an ACL group. Takes
    /// no memory.
    fn first_in(&self, asked: &Asked<'_>, group: Option<u8>, entries: &[Entry]) -> Option<Found>
        requires short { IsShort entries.now }
        requires known { knows self.now group entries.now }
        ensures { result ≡ found_in asked.now (placed (place_in group) 0 entries.now) };
}

/// A search that scans every list.
#[derive(Clone, Copy)]
pub struct Scan;

impl ListSearch for Scan {
    ghost knows = { λ scan group entries. Unit {0} };

    fn first_in(&self, asked: &Asked<'_>, group: Option<u8>, entries: &[Entry]) -> Option<Found> {
        for (place, entry) in entries.iter().enumerate() {
            if let Some(name) = asked.granted_by(entry) {
                return Some(Found {
                    place: place_in(group, place as u32),
                    name,
                });
            }
        }
        None
    }
}
