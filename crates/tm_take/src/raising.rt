//! Floors, and the versions above which looks raise them.
ghost use Rattle.std.specs.Prelude.{◌≡◌, flat_map};
ghost use Rattle.tm_legal.specs.Prelude.{heard_version, raised, seen};

use tm_types::step::{Heard, Look};

// The greater of a floor and the version at which an answer was taken.
fn raised_by_heard(floor: u64, heard: Option<Heard>) -> u64
    ensures { result ≡ raised floor (heard_version heard) }
{
    match heard {
        None => floor,
        Some(heard) => match heard.answer {
            None => floor,
            Some(_) => floor.max(heard.version),
        },
    }
}

/// The floor above all that a look has seen.
pub fn raised_by(floor: u64, look: &Look) -> u64
    ensures { result ≡ raised floor (seen look.now) }
{
    let mut high = floor.max(look.version);
    for number in look.own.as_slice() {
        high = high.max(*number);
    }
    raised_by_heard(high, look.heard)
}

/// The floor above all that these looks have seen.
#[tactic(auto, using(crate::proofs::RaisedLaws::raised_more))]
pub fn raised_by_looks(floor: u64, looks: &[Look]) -> u64
    ensures { result ≡ raised floor (flat_map seen looks.now) }
{
    let mut low = floor;
    for look in looks {
        low = raised_by(low, look);
    }
    low
}
