//! The index of one list of entries.
ghost use Rattle.std.specs.Prelude.{◌≡◌, ℕ, ◌<◌, List, [], length, true, IfOk, IfSome, OnOk, OnErr};
ghost use Rattle.std.specs.List.{position_from, find, list_any};
ghost use Rattle.tm_rules.specs.Types.{Entry};
ghost use Rattle.tm_rules.specs.Prelude.{IsShort, has_line, same_line};
ghost use Rattle.std.specs.Option.{option_copied};
ghost use Rattle.tm_index.specs.Listing.{Listed, listed, listing, noting_name, noting_stem, noting_rest, noting, closed, holds_at, has_all};
ghost use Rattle.tm_index.specs.Labels.{label_of};

use crate::buckets::{Buckets, close};
use crate::label::{Label, label_of};
use std::alloc::Global;
use tm_change_entries::has_all;
use tm_list::{NoMemory, Seq};
use tm_rules::same_line;
use tm_types::entry::Entry;
use tm_word::{Text, Word};

/// Where the entries of a list stand: by the literal that the first name argument is, those without
/// one, by their stem, those with neither, and by the words of their lines. Places are from 0 and
/// rise.
#[derive(Drop)]
pub struct ListIndex {
    named: Buckets,
    others: Seq<u32>,
    stemmed: Buckets,
    rest: Seq<u32>,
    lines: Buckets,
}

impl ListIndex {
    /// The index of no entry, which takes no memory.
    #[tactic(auto, unfolding(crate::specs::Buckets::places_at, crate::specs::Listing::listing))]
    pub(crate) fn new(alloc: Global) -> ListIndex
        ensures { listed result ≡ listing [] }
    {
        ListIndex {
            named: Buckets::new(alloc),
            others: Seq::new(alloc),
            stemmed: Buckets::new(alloc),
            rest: Seq::new(alloc),
            lines: Buckets::new(alloc),
        }
    }

    // Notes a place under a name, or among the others.
    fn note_name(&mut self, alloc: Global, name: Option<&Word>, place: u32) -> Result<(), NoMemory>
        ensures done { OnOk result (listed self.new ≡
            noting_name (option_copied name.entry) place (listed self.old)) }
        ensures kept { OnErr result (listed self.new ≡ listed self.old) }
    {
        match name {
            Some(name) => self.named.note_new(alloc, name.bytes(), place),
            None => self.others.push(place),
        }
    }

    // Takes the last place out that stands under a name, or among the others.
    fn take_name(&mut self, name: Option<&Word>)
        ensures { (before : Listed) → (place : ℕ) →
            listed self.old ≡ noting_name (option_copied name.entry) place before
            → listed self.new ≡ before }
    {
        match name {
            Some(name) => self.named.take_last(name.bytes()),
            None => {
                let _ = self.others.pop();
            }
        }
    }

    // Notes a place under a stem, or among those with neither a stem nor a name.
    fn note_stem(
        &mut self,
        alloc: Global,
        name: Option<&Word>,
        stem: Option<&Text>,
        place: u32,
    ) -> Result<(), NoMemory>
        ensures done { OnOk result (listed self.new ≡
            noting_stem (option_copied name.entry) (option_copied stem.entry) place
            (listed self.old)) }
        ensures kept { OnErr result (listed self.new ≡ listed self.old) }
    {
        match stem {
            Some(stem) => self.stemmed.note(alloc, stem.bytes(), place),
            None => match name {
                Some(_) => Ok(()),
                None => self.rest.push(place),
            },
        }
    }

    // Takes the last place out that stands under a stem, or among those with neither.
    fn take_stem(&mut self, name: Option<&Word>, stem: Option<&Text>)
        ensures { (before : Listed) → (place : ℕ) →
            listed self.old
            ≡ noting_stem (option_copied name.entry) (option_copied stem.entry) place before →
            listed self.new ≡ before }
    {
        match stem {
            Some(stem) => self.stemmed.take_last(stem.bytes()),
            None => match name {
                Some(_) => {}
                None => {
                    let _ = self.rest.pop();
                }
            },
        }
    }

    // Notes a place under a stem and under the words of a line.
    fn note_rest(&mut self, alloc: Global, place: u32, label: &Label) -> Result<(), NoMemory>
        ensures done { OnOk result
            (listed self.new ≡ noting_rest label.now place (listed self.old)) }
        ensures kept { OnErr result (listed self.new ≡ listed self.old) }
    {
        self.note_stem(alloc, label.name.as_ref(), label.stem.as_ref(), place)?;
        match self.lines.note_new(alloc, label.key.bytes(), place) {
            Ok(()) => Ok(()),
            Err(fault) => {
                self.take_stem(label.name.as_ref(), label.stem.as_ref());
                Err(fault)
            }
        }
    }

    // Takes that out again.
    fn take_rest(&mut self, label: &Label)
        ensures { (before : Listed) → (place : ℕ) →
            listed self.old ≡ noting_rest label.now place before → listed self.new ≡ before }
    {
        self.take_stem(label.name.as_ref(), label.stem.as_ref());
        self.lines.take_last(label.key.bytes());
    }

    /// Notes an entry that stands last, at this place. After want of memory the index is as before.
    #[tactic(auto, unfolding(crate::specs::Listing::noting))]
    pub(crate) fn note(&mut self, alloc: Global, place: u32, label: &Label) -> Result<(), NoMemory>
        ensures done { OnOk result (listed self.new ≡ noting label.now place (listed self.old)) }
        ensures kept { OnErr result (listed self.new ≡ listed self.old) }
    {
        self.note_name(alloc, label.name.as_ref(), place)?;
        match self.note_rest(alloc, place, label) {
            Ok(()) => Ok(()),
            Err(fault) => {
                self.take_name(label.name.as_ref());
                Err(fault)
            }
        }
    }

    /// Takes the entry out that was noted last.
    pub(crate) fn take_last(&mut self, label: &Label)
        ensures { (before : Listed) → (place : ℕ) →
            listed self.old ≡ noting label.now place before → listed self.new ≡ before }
    {
        self.take_name(label.name.as_ref());
        self.take_rest(label);
    }

    /// The entry at this place is gone: those after it move up.
    pub(crate) fn close(&mut self, place: u32)
        ensures { listed self.new ≡ closed place (listed self.old) }
    {
        self.named.close(place);
        close(&mut self.others, place);
        self.stemmed.close(place);
        close(&mut self.rest, place);
        self.lines.close(place);
    }

    /// Lends the places of the entries whose first name argument is this literal. Takes no memory.
    pub fn named(&self, name: &Word) -> &[u32]
        ensures { result.now ≡ (listed self.now).named name.now }
    {
        self.named.get(name.bytes())
    }

    /// Lends the places of the entries without a literal name. Takes no memory.
    pub fn others(&self) -> &[u32]
        ensures { result.now ≡ (listed self.now).others }
    {
        self.others.as_slice()
    }

    /// Lends the places of the entries with neither a stem nor a literal name. Takes no memory.
    pub fn rest(&self) -> &[u32]
        ensures { result.now ≡ (listed self.now).rest }
    {
        self.rest.as_slice()
    }

    /// Lends the places of the entries with this stem. Takes no memory.
    pub fn stemmed(&self, stem: &[u8]) -> &[u32]
        ensures { result.now ≡ (listed self.now).stemmed stem.now }
    {
        self.stemmed.get(stem)
    }

    /// Whether no entry has a stem. Takes no memory.
    #[tactic(auto, using(crate::proofs::BucketLaws::none_at))]
    pub fn has_no_stems(&self) -> bool
        ensures { result ≡ true → (stem : List ℕ) → (listed self.now).stemmed stem ≡ [] }
    {
        self.stemmed.is_empty()
    }

    /// Where the first entry of the list stands that shares a line: the one with its arguments and
    /// its condition. Takes no memory.
    pub fn entry_place(&self, entries: &[Entry], label: &Label, line: &Entry) -> Option<usize>
        requires listed { listed self.now ≡ listing entries.now }
        requires label { label.now ≡ label_of line.now }
        ensures found { result ≡ position_from
            (λ (entry : Entry). same_line entry line.now) 0 entries.now }
        ensures within { IfSome result (λ place. place < length entries.now) }
    {
        first_sharing(entries, self.lines.get(label.key.bytes()), line)
    }

    /// Where the first entry of the list stands that shares a line, and whether the list has the
    /// whole line: an entry that shares it has each of its permissions. Takes no memory.
    pub fn line_place(
        &self,
        entries: &[Entry],
        label: &Label,
        line: &Entry,
    ) -> (Option<usize>, bool)
        requires listed { listed self.now ≡ listing entries.now }
        requires label { label.now ≡ label_of line.now }
        ensures found { result.0 ≡ position_from
            (λ (entry : Entry). same_line entry line.now) 0 entries.now }
        ensures within { IfSome result.0 (λ place. place < length entries.now) }
        ensures there { result.1 ≡ has_line line.now entries.now }
    {
        let places = self.lines.get(label.key.bytes());
        (
            first_sharing(entries, places, line),
            any_having(entries, places, line),
        )
    }
}

/// The index of a list of entries. Errors: want of memory.
pub(crate) fn list_of(alloc: Global, entries: &[Entry]) -> Result<ListIndex, NoMemory>
    requires { IsShort entries.now }
    ensures { IfOk result (λ made. listed made ≡ listing entries.now) }
{
    let mut made = ListIndex::new(alloc);
    for (place, entry) in entries.iter().enumerate() {
        let label = label_of(alloc, entry)?;
        made.note(alloc, place as u32, &label)?;
    }
    Ok(made)
}

// Whether the entry at this place shares a line.
fn shares_at(entries: &[Entry], place: u32, line: &Entry) -> bool
    ensures { result ≡ holds_at (λ (entry : Entry). same_line entry line.now) entries.now place }
{
    match entries.get(place as usize) {
        Some(entry) => same_line(entry, line),
        None => false,
    }
}

// The first of these places at which an entry shares a line.
fn first_sharing(entries: &[Entry], places: &[u32], line: &Entry) -> Option<usize>
    ensures { result
        ≡ find (holds_at (λ (entry : Entry). same_line entry line.now) entries.now) places.now }
{
    for place in places {
        if shares_at(entries, *place, line) {
            return Some(*place as usize);
        }
    }
    None
}

// Whether the entry at this place has all of a line.
fn has_all_at(entries: &[Entry], place: u32, line: &Entry) -> bool
    ensures { result ≡ holds_at (has_all line.now) entries.now place }
{
    match entries.get(place as usize) {
        Some(entry) => has_all(entry, line),
        None => false,
    }
}

// Whether an entry at one of these places has all of a line.
fn any_having(entries: &[Entry], places: &[u32], line: &Entry) -> bool
    ensures { result ≡ list_any (holds_at (has_all line.now) entries.now) places.now }
{
    for place in places {
        if has_all_at(entries, *place, line) {
            return true;
        }
    }
    false
}
