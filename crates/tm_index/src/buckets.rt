//! Places by key: a map from keys to rising lists of places.
ghost use Rattle.std.specs.Prelude.{◌≡◌, ◌↔◌, ℕ, List, [], IsTrue, drop, filter, map, not, ◌==◌, OnOk, OnErr};
ghost use Rattle.tm_index.specs.Buckets.{places_at, placing, with_place, front, lowered, closing};

use crate::places::Places;
use indexmap::IndexMap;
use std::alloc::Global;
use std::marker::Model;
use tm_list::{NoMemory, Seq};

/// For each key the places that were noted under it, in the order in which they were. Contracts see
/// the places of each key. A key whose places have all gone stays.
#[derive(Drop)]
pub(crate) struct Buckets {
    lists: IndexMap<Vec<u8>, Places>,
}

impl Model for Buckets {
    ghost use Rattle.std.specs.Prelude.{ℕ, List, map};

    ghost Value = { List (List ℕ × List ℕ) };

    ghost view = { λ b. map (λ entry. (entry.0.items, entry.1)) b.lists.entries };
}

impl Buckets {
    /// Without places, which takes no memory.
    pub(crate) fn new(alloc: Global) -> Buckets
        ensures { result ≡ [] }
    {
        Buckets {
            lists: IndexMap::new(alloc),
        }
    }

    /// Whether there is no key.
    pub(crate) fn is_empty(&self) -> bool
        ensures { IsTrue result ↔ (self.now ≡ []) }
    {
        self.lists.is_empty()
    }

    /// Lends the places of a key.
    pub(crate) fn get(&self, key: &[u8]) -> &[u32]
        ensures { result.now ≡ places_at self.now key.now }
    {
        match self.lists.get(key) {
            Some(list) => list.as_slice(),
            None => &[],
        }
    }

    /// Notes one more place of a key.
    pub(crate) fn note(&mut self, alloc: Global, key: &[u8], place: u32) -> Result<(), NoMemory>
        ensures done { OnOk result
            (places_at self.new ≡ with_place key.now place (places_at self.old)) }
        ensures kept { OnErr result (self.new ≡ self.old) }
    {
        match self.lists.get_mut(key) {
            Some(list) => list.push(alloc, place),
            None => {
                self.lists
                    .insert(Vec::from_slice(alloc, key)?, Places::one(place))?;
                Ok(())
            }
        }
    }

    /// Notes one more place of a key, as a rule of a new one: that is looked for once. After want
    /// of memory each key has its places.
    pub(crate) fn note_new(&mut self, alloc: Global, key: &[u8], place: u32) -> Result<(), NoMemory>
        ensures done { OnOk result
            (places_at self.new ≡ with_place key.now place (places_at self.old)) }
        ensures kept { OnErr result (places_at self.new ≡ places_at self.old) }
    {
        let list = self
            .lists
            .entry(Vec::from_slice(alloc, key)?)?
            .or_insert(Places::none());
        list.push(alloc, place)
    }

    /// Takes the last place of a key out.
    pub(crate) fn take_last(&mut self, key: &[u8])
        ensures { places_at self.new
            ≡ placing key.now (front (places_at self.old key.now)) (places_at self.old) }
    {
        if let Some(list) = self.lists.get_mut(key) {
            list.take_last();
        }
    }

    /// Takes the first place of a key out.
    pub(crate) fn take_first(&mut self, key: &[u8])
        ensures { places_at self.new
            ≡ placing key.now (drop 1 (places_at self.old key.now)) (places_at self.old) }
    {
        if let Some(list) = self.lists.get_mut(key) {
            list.take_first();
        }
    }

    /// Takes a place out of the lists of all keys, and lowers each larger one by one.
    pub(crate) fn close(&mut self, place: u32)
        ensures { (key : List ℕ) → places_at self.new key ≡ closing place (places_at self.old key) }
    {
        for number in 0..self.lists.len() {
            if let Some(list) = self.lists.get_index_mut(number) {
                list.close(place);
            }
        }
    }
}

/// Takes the first place out.
pub(crate) fn take_first(list: &mut Seq<u32>)
    ensures { list.new ≡ drop 1 list.old }
{
    let mut places = list.take();
    if !places.is_empty() {
        let _ = places.remove(0);
    }
    *list = Seq::from_vec(places);
}

/// Takes a place out, and lowers each larger one by one: what stood there is gone, and what stood
/// behind moves up.
pub(crate) fn close(list: &mut Seq<u32>, place: u32)
    ensures { list.new ≡ closing place list.old }
{
    let mut places = list.take();
    leave(&mut places, place);
    lower(&mut places, place);
    *list = Seq::from_vec(places);
}

// Takes a place out.
fn leave(places: &mut Vec<u32>, place: u32)
    ensures { places.new.items ≡ filter (λ there. not (there == place)) places.old.items }
{
    places.retain(|there| *there != place);
}

/// Where a place is after what stood at another one is gone.
pub(crate) fn lowered(place: u32, there: u32) -> u32
    ensures { result ≡ lowered place there }
{
    if there > place { there - 1 } else { there }
}

// Lowers each larger place by one.
fn lower(places: &mut [u32], place: u32)
    ensures { places.new ≡ map (lowered place) places.old }
{
    for there in places.iter_mut() {
        *there = lowered(place, *there);
    }
}
