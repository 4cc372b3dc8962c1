//! The files that a call reads, fetched in their order.
ghost use Rattle.std.specs.Prelude.{◌≡◌, ◌≤◌, ◌<◌, ◌∷◌, [], IfOk, IfErr, IfSome, OnOk, true, false, length, drop, slice_get};
ghost use Rattle.tm_io.specs.Names.{same_name};
ghost use Rattle.tm_io.specs.declared.names.FileName.{FileName};
ghost use Rattle.tm_io.specs.Causes.{Rose};
ghost use Rattle.tm_io.specs.Files.{SameFiles};
ghost use Rattle.tm_io.specs.Notes.{Noted};
ghost use Rattle.tm_call.specs.Fetches.{Given, AllGiven, FetchCause, FetchStops, content};
ghost use Rattle.tm_call.specs.Calls.{wanted, FetchesOf};

use crate::status::Status;
use std::alloc::Global;
use std::mem::replace;
use tm_io::{Fetched, FileList, FileName, Shelf};
use tm_word::Text;

/// A file that a command reads, and whether it has to be there.
#[derive(Clone, Copy)]
pub struct Want {
    pub name: FileName,
    pub needed: bool,
}

impl Want {
    /// A file that has to be there.
    pub fn needed(name: FileName) -> Want
        ensures { result ≡ record { name = name; needed = true } }
    {
        Want { name, needed: true }
    }

    /// A file that counts as empty where it is missing.
    pub fn optional(name: FileName) -> Want
        ensures { result ≡ record { name = name; needed = false } }
    {
        Want {
            name,
            needed: false,
        }
    }
}

// Fetches one file. One that is missing and not needed counts as empty.
fn fetch_one<S: Shelf>(alloc: Global, shelf: &mut S, want: Want) -> Result<Text, Status>
    ensures text { IfOk result (λ text. Given want (S.file shelf.old want.name) text) }
    ensures stops { IfErr result (FetchCause want (S.file shelf.old want.name)
        (Rose (S.faults shelf.old) (S.faults shelf.new))) }
    ensures kept { SameFiles (S.file shelf.old) (S.file shelf.new) }
    ensures counts { S.faults shelf.old ≤ S.faults shelf.new }
    ensures fetches { Noted (want.name ∷ []) (S.fetched shelf.old) (S.fetched shelf.new) }
    ensures no_store { Noted [] (S.stored shelf.old) (S.stored shelf.new) }
{
    let mut text = Vec::new(alloc);
    match shelf.fetch(want.name, &mut text) {
        Fetched::Done => Ok(Text::from_vec(text)),
        Fetched::Absent => {
            if want.needed {
                Err(Status::Absent(want.name))
            } else {
                Ok(Text::from_vec(text))
            }
        }
        Fetched::TooLong => Err(Status::TooLong(want.name)),
        Fetched::Failed => Err(Status::ReadFault(want.name)),
        Fetched::NoMemory => Err(Status::OutOfMemory),
    }
}

/// Fetches files in order, up to the first fetch that gives nothing; later ones aren't made.
pub fn fetch_all<S: Shelf>(alloc: Global, shelf: &mut S, wants: &[Want]) -> Result<FileList, Status>
    ensures texts { IfOk result (λ texts. AllGiven (S.file shelf.old) wants.now texts) }
    ensures stops { IfErr result (FetchStops (S.file shelf.old) wants.now
        (Rose (S.faults shelf.old) (S.faults shelf.new))) }
    ensures kept { SameFiles (S.file shelf.old) (S.file shelf.new) }
    ensures counts { S.faults shelf.old ≤ S.faults shelf.new }
    ensures all { OnOk result
        (Noted (wanted wants.now) (S.fetched shelf.old) (S.fetched shelf.new)) }
    ensures last { IfErr result (λ status.
        FetchesOf (wanted wants.now) status (S.fetched shelf.old) (S.fetched shelf.new)) }
    ensures no_store { Noted [] (S.stored shelf.old) (S.stored shelf.new) }
{
    let mut texts = FileList::new(alloc);
    for want in wants {
        let text = match fetch_one(alloc, shelf, *want) {
            Ok(text) => text,
            Err(status) => return Err(status),
        };
        match texts.push((want.name, text)) {
            Ok(()) => {}
            Err(_) => return Err(Status::OutOfMemory),
        }
    }
    Ok(texts)
}

/// The bytes of a file that was fetched, none where it wasn't.
pub fn text_at(texts: &FileList, name: FileName) -> &[u8]
    ensures { result.now ≡ content texts.now name }
{
    for (other, text) in texts.as_slice() {
        if other.is(name) {
            return text.bytes();
        }
    }
    &[]
}

// The place of a file among those that were fetched; how many there are where it isn't there.
fn place_at(texts: &[(FileName, Text)], name: FileName) -> usize
    ensures within { result ≤ length texts.now }
    ensures first { content (drop result texts.now) name ≡ content texts.now name }
    ensures here { IfSome (slice_get texts.now result) (λ text. same_name text.0 name ≡ true) }
{
    for (place, (other, _)) in texts.iter().enumerate() {
        if other.is(name) {
            return place;
        }
    }
    texts.len()
}

// Takes the bytes of a file out of these, none where it isn't among them; the others stay.
fn take_in(alloc: Global, items: &mut [(FileName, Text)], name: FileName) -> Text
    ensures taken { result ≡ content items.old name }
    ensures others { (other : FileName) → same_name name other ≡ false
        → content items.new other ≡ content items.old other }
{
    let place = place_at(items, name);
    if place >= items.len() {
        return Text::new(alloc);
    }
    replace(&mut items[place].1, Text::new(alloc))
}

/// Takes the bytes of a file that was fetched out, none where it wasn't, without taking memory. All
/// other files stay as they are.
pub fn take_text(alloc: Global, texts: &mut FileList, name: FileName) -> Text
    ensures taken { result ≡ content texts.old name }
    ensures others { (other : FileName) → same_name name other ≡ false
        → content texts.new other ≡ content texts.old other }
{
    let mut items = texts.take();
    let text = take_in(alloc, &mut items, name);
    *texts = FileList::from_vec(items);
    text
}
