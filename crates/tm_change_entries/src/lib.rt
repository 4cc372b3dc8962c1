//! A list of entries, changed in place: how a line enters it, leaves it, and whether it is there.
//! Stands on tm_rules, whose definitions it computes, and on tm_learn for permissions that count.
//! Of its own, since ACL groups (tm_change_namespaces) and domains (tm_change_domains) need it.
//! Promises that a change is the defined one or none; only a line that goes last takes memory.
#![tactic(auto)]

ghost use Rattle.std.specs.Prelude.{◌≡◌, ◌<◌, ◌≤◌, ◌+◌, ◌==◌, ◌&&◌, not, length, sum_by, bit_and, Some, IfOk, IfSome, OnOk, OnErr};
ghost use Rattle.std.specs.List.{position_from};
ghost use Rattle.tm_rules.specs.Types.{Entry};
ghost use Rattle.tm_rules.specs.Prelude.{IsShort, adding, deleting, has_line, has_part, same_line};
ghost use Rattle.tm_learn.specs.Counting.{permissions_of};

use std::alloc::AllocError;
use tm_learn::permissions_of;
use tm_list::{NoMemory, Seq};
use tm_rules::same_line;
use tm_types::entry::Entry;

/// How many permissions an entry had before a line joined it, none where the line went last, and
/// how many it has afterwards.
#[derive(Clone, Copy)]
pub struct Change {
    pub before: u64,
    pub after: u64,
}

/// Where the first entry stands that shares a line: the one with its arguments and its condition.
/// Takes no memory.
pub fn entry_place(entries: &[Entry], line: &Entry) -> Option<usize>
    ensures found { result ≡ position_from
        (λ (entry : Entry). same_line entry line.now) 0 entries.now }
    ensures within { IfSome result (λ place. place < length entries.now) }
{
    for (place, entry) in entries.iter().enumerate() {
        if same_line(entry, line) {
            return Some(place);
        }
    }
    None
}

// Joins the permissions of a line into the entry at this place.
fn join_at(entries: &mut Seq<Entry>, place: usize, line: &Entry) -> Change
    requires found { position_from
        (λ (entry : Entry). same_line entry line.now) 0 entries.old ≡ Some place }
    requires within { place < length entries.old }
    ensures done { entries.new ≡ adding line.now entries.old }
    ensures few { result.after ≤ 65535 }
    ensures counted { sum_by permissions_of entries.new + result.before
        ≡ sum_by permissions_of entries.old + result.after }
    ensures short { IsShort entries.old → IsShort entries.new }
{
    let mut list = entries.take();
    let before = permissions_of(&list[place]);
    list[place].perms.bits |= line.perms.bits;
    let after = permissions_of(&list[place]);
    *entries = Seq::from_vec(list);
    Change { before, after }
}

/// Adds a line, of which was looked up where the entry stands that it shares: it joins its
/// permissions there, or goes last where no entry shares it. Gives how many permissions that entry
/// had, and has.
///
/// Errors: want of memory, also where the list would have 2^32 entries; it is then as before.
pub fn add_at(entries: &mut Seq<Entry>, at: Option<usize>, line: Entry) -> Result<Change, NoMemory>
    requires { at ≡ position_from (λ (entry : Entry). same_line entry line) 0 entries.old }
    ensures done { OnOk result (entries.new ≡ adding line entries.old) }
    ensures kept { OnErr result (entries.new ≡ entries.old) }
    ensures few { IfOk result (λ change. change.after ≤ 65535) }
    ensures counted { IfOk result (λ change.
        sum_by permissions_of entries.new + change.before
        ≡ sum_by permissions_of entries.old + change.after) }
    ensures short { IsShort entries.old → IsShort entries.new }
{
    match at {
        Some(place) => {
            let change = join_at(entries, place, &line);
            drop(line);
            Ok(change)
        }
        None => {
            if entries.len() >= 4294967295 {
                drop(line);
                return Err(AllocError);
            }
            let after = permissions_of(&line);
            entries.push(line)?;
            Ok(Change { before: 0, after })
        }
    }
}

/// Adds a line: it joins its permissions into the entry that it shares, or goes last where there is
/// none. Gives how many permissions that entry had, and has.
///
/// Errors: want of memory, also where the list would have 2^32 entries; it is then as before.
pub fn add(entries: &mut Seq<Entry>, line: Entry) -> Result<Change, NoMemory>
    ensures done { OnOk result (entries.new ≡ adding line entries.old) }
    ensures kept { OnErr result (entries.new ≡ entries.old) }
    ensures few { IfOk result (λ change. change.after ≤ 65535) }
    ensures counted { IfOk result (λ change.
        sum_by permissions_of entries.new + change.before
        ≡ sum_by permissions_of entries.old + change.after) }
    ensures short { IsShort entries.old → IsShort entries.new }
{
    let at = entry_place(entries.as_slice(), &line);
    add_at(entries, at, line)
}

// Takes the permissions of a line out of the entry at this place, which goes away where it has none
// left.
fn take_at(entries: &mut Seq<Entry>, place: usize, line: &Entry)
    requires found { position_from
        (λ (entry : Entry). same_line entry line.now) 0 entries.old ≡ Some place }
    requires within { place < length entries.old }
    ensures done { entries.new ≡ deleting line.now entries.old }
    ensures short { IsShort entries.old → IsShort entries.new }
{
    let mut list = entries.take();
    let bits = list[place].perms.bits;
    let left = bits - (bits & line.perms.bits);
    if left == 0 {
        drop(list.remove(place));
        *entries = Seq::from_vec(list);
    } else {
        list[place].perms.bits = left;
        *entries = Seq::from_vec(list);
    }
}

/// Takes the permissions of a line out of the entry that it shares; an entry without permissions
/// goes away, and the others stay in their order. Where no entry shares the line nothing changes.
/// Takes no memory.
pub fn remove(entries: &mut Seq<Entry>, line: &Entry)
    ensures done { entries.new ≡ deleting line.now entries.old }
    ensures short { IsShort entries.old → IsShort entries.new }
{
    if let Some(place) = entry_place(entries.as_slice(), line) {
        take_at(entries, place, line);
    }
}

/// Whether an entry has all of a line: it shares it, and has each of its permissions. Takes no memory.
pub fn has_all(entry: &Entry, line: &Entry) -> bool
    ensures { result ≡
        (same_line entry.now line.now
        && bit_and entry.now.perms.bits line.now.perms.bits == line.now.perms.bits) }
{
    same_line(entry, line) && entry.perms.bits & line.perms.bits == line.perms.bits
}

/// Whether the list has the whole line: an entry that shares it has each of its permissions. Takes
/// no memory.
#[tactic(auto, unfolding(tm_rules::specs::Policy::has_line))]
pub fn has_line(entries: &[Entry], line: &Entry) -> bool
    ensures { result ≡ has_line line.now entries.now }
{
    for entry in entries {
        if has_all(entry, line) {
            return true;
        }
    }
    false
}

// Whether an entry has something of a line.
fn has_some(entry: &Entry, line: &Entry) -> bool
    ensures { result
        ≡ (same_line entry.now line.now && not
        (bit_and entry.now.perms.bits line.now.perms.bits == 0)) }
{
    same_line(entry, line) && entry.perms.bits & line.perms.bits != 0
}

/// Whether the list has something of the line: an entry that shares it has some of its permissions.
/// Takes no memory.
#[tactic(auto, unfolding(tm_rules::specs::Policy::has_part))]
pub fn has_part(entries: &[Entry], line: &Entry) -> bool
    ensures { result ≡ has_part line.now entries.now }
{
    for entry in entries {
        if has_some(entry, line) {
            return true;
        }
    }
    false
}
