//! The search for the first entry that grants: at the places of the name that is asked for, at
//! those of its stems, and at those with neither a name nor a stem.
ghost use Rattle.std.specs.Prelude.{◌≡◌, ◌<◌, length, map, take, None};
ghost use Rattle.std.specs.Option.{option_copied};
ghost use Rattle.tm_rules.specs.Prelude.{placed};
ghost use Rattle.tm_policy.specs.Searching.{asked_request, place_in, found_in};
ghost use Rattle.tm_index.specs.Stems.{addr_stem, addr_of, stem_room, name_stems, stems_by, stems_asked};
ghost use Rattle.tm_index.specs.Listing.{at_place, listed, listing};
ghost use Rattle.tm_indexed.specs.Candidates.{granted, first_at, sooner, soonest, sooner_at, places_named};

use tm_index::net::addr_value;
use tm_index::{ListIndex, STEM_ROOM, addr_of};
use tm_number::Addr;
use tm_policy::{Asked, place_in};
use tm_types::entry::Entry;
use tm_types::unions::NamePlace;
use tm_types::verdict::Found;
use tm_word::Word;

// Whether the entry at a place grants what is asked.
fn grants_at(asked: &Asked<'_>, entries: &[Entry], place: u32) -> Option<(u32, NamePlace)>
    ensures { result ≡ at_place (granted asked.now) entries.now place }
{
    match entries.get(place as usize) {
        Some(entry) => match asked.granted_by(entry) {
            Some(name) => Some((place, name)),
            None => None,
        },
        None => None,
    }
}

// What is found first at these places.
fn first_at(asked: &Asked<'_>, entries: &[Entry], places: &[u32]) -> Option<(u32, NamePlace)>
    ensures { result ≡ first_at asked.now entries.now places.now }
{
    for place in places {
        if let Some(found) = grants_at(asked, entries, *place) {
            return Some(found);
        }
    }
    None
}

// The one at the smaller place.
fn sooner(
    first: Option<(u32, NamePlace)>,
    second: Option<(u32, NamePlace)>,
) -> Option<(u32, NamePlace)>
    ensures { result ≡ sooner first second }
{
    match (first, second) {
        (None, None) => None,
        (None, Some(found)) => Some(found),
        (Some(found), None) => Some(found),
        (Some(left), Some(right)) => {
            if right.0 < left.0 {
                Some(right)
            } else {
                Some(left)
            }
        }
    }
}

// The places of a name.
fn places_named<'a>(list: &'a ListIndex, name: Option<&Word>) -> &'a [u32]
    ensures { result.now ≡ places_named (listed list.now).named (option_copied name.entry) }
{
    match name {
        Some(name) => list.named(name),
        None => &[],
    }
}

// The places of an address.
fn places_of_addr(list: &ListIndex, addr: Addr) -> &[u32]
    ensures { result.now ≡ (listed list.now).stemmed (addr_stem addr) }
{
    match addr {
        Addr::V4(number) => list.stemmed(&number.to_be_bytes()),
        Addr::V6(number) => list.stemmed(&number.to_be_bytes()),
    }
}

// The sooner of what was found and of what is found at the places of the stem that ends at this
// byte, where it is a slash.
fn sooner_at(
    list: &ListIndex,
    asked: &Asked<'_>,
    entries: &[Entry],
    name: &[u8],
    end: usize,
    found: Option<(u32, NamePlace)>,
) -> Option<(u32, NamePlace)>
    requires { end < length name.now }
    ensures { result
        ≡ sooner_at asked.now entries.now (listed list.now).stemmed name.now end found }
{
    if name[end] == b'/' {
        let places = list.stemmed(&name[..end]);
        let next = first_at(asked, entries, places);
        sooner(found, next)
    } else {
        found
    }
}

// The soonest of what was found and of what is found at the places of the stems of a name.
fn soonest_of_name(
    list: &ListIndex,
    asked: &Asked<'_>,
    entries: &[Entry],
    name: &[u8],
    found: Option<(u32, NamePlace)>,
) -> Option<(u32, NamePlace)>
    ensures { result ≡ soonest asked.now entries.now found
        (map (listed list.now).stemmed (name_stems name.now)) }
{
    let mut soonest = found;
    for end in 0..name.len() {
        soonest = sooner_at(list, asked, entries, name, end, soonest);
    }
    let places = list.stemmed(name);
    let last = first_at(asked, entries, places);
    sooner(soonest, last)
}

// The first bytes of a name, among which all its stems end that an entry can have.
#[tactic(auto, using(crate::proofs::WalkLaws::front_whole))]
fn front_of(name: &[u8]) -> &[u8]
    ensures { result.now ≡ take stem_room name.now }
{
    if name.len() < STEM_ROOM {
        name
    } else {
        &name[..STEM_ROOM]
    }
}

// The soonest of what was found and of what is found at the places of an address.
fn soonest_of_addr(
    list: &ListIndex,
    asked: &Asked<'_>,
    entries: &[Entry],
    found: Option<(u32, NamePlace)>,
) -> Option<(u32, NamePlace)>
    ensures { result ≡ soonest asked.now entries.now found
        (map (listed list.now).stemmed (stems_by None (addr_of asked.now.request.args))) }
{
    match addr_of(asked.request().args()) {
        Some(addr) => {
            let places = places_of_addr(list, addr_value(addr));
            let next = first_at(asked, entries, places);
            sooner(found, next)
        }
        None => found,
    }
}

// The soonest of what was found and of what is found at the places of the stems that are asked for.
#[tactic(auto, unfolding(tm_index::specs::Stems::stems_asked))]
fn soonest_stemmed(
    list: &ListIndex,
    asked: &Asked<'_>,
    entries: &[Entry],
    found: Option<(u32, NamePlace)>,
) -> Option<(u32, NamePlace)>
    ensures { result ≡ soonest asked.now entries.now found
        (map (listed list.now).stemmed (stems_asked (asked_request asked.now).args)) }
{
    if list.has_no_stems() {
        return found;
    }
    match asked.name() {
        Some(name) => soonest_of_name(list, asked, entries, front_of(name.bytes()), found),
        None => soonest_of_addr(list, asked, entries, found),
    }
}

/// What is found first in a list of entries by its index: at the places of the name, at those with
/// neither a name nor a stem, and at those of the stems. Takes no memory.
#[tactic(auto, using(crate::proofs::FoundLaws::search_found))]
pub(crate) fn first_listed(
    list: &ListIndex,
    asked: &Asked<'_>,
    group: Option<u8>,
    entries: &[Entry],
) -> Option<Found>
    requires { listed list.now ≡ listing entries.now }
    ensures { result ≡ found_in asked.now (placed (place_in group) 0 entries.now) }
{
    let first = first_at(asked, entries, places_named(list, asked.name()));
    let second = first_at(asked, entries, list.rest());
    let found = sooner(first, second);
    match soonest_stemmed(list, asked, entries, found) {
        Some((place, name)) => Some(Found {
            place: place_in(group, place),
            name,
        }),
        None => None,
    }
}
