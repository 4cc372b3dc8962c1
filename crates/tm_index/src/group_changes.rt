//! What is noted when the list of an ACL group changes.
ghost use Rattle.std.specs.Prelude.{◌≡◌, ℕ, [], OnOk, OnErr};
ghost use Rattle.tm_index.specs.Listing.{Listed, listing, noting, closed};
ghost use Rattle.tm_index.specs.Index.{Told, told, groups_listed, HasNamespace, AsManyNamespaces};
ghost use Rattle.tm_index.specs.Groups.{group_with, in_group, noting_lists};

use crate::index::Index;
use crate::label::Label;
use crate::list::ListIndex;
use std::alloc::Global;
use tm_list::{Map, NoMemory, Seq};

// Notes an entry that stands last, at this place, in the list of a group. After want of memory the
// lists are as before.
fn note_entry(
    alloc: Global,
    lists: &mut Map<u8, ListIndex>,
    group: u8,
    place: u32,
    label: &Label,
) -> Result<(), NoMemory>
    ensures done { OnOk result (groups_listed lists.new ≡
        group_with group (noting label.now place) (groups_listed lists.old)) }
    ensures kept { OnErr result (groups_listed lists.new ≡ groups_listed lists.old) }
{
    match lists.replace(&group, ListIndex::new(alloc)) {
        Some(mut list) => {
            let outcome = list.note(alloc, place, label);
            let _ = lists.replace(&group, list);
            outcome
        }
        None => {
            let mut list = ListIndex::new(alloc);
            list.note(alloc, place, label)?;
            lists.put(group, list)
        }
    }
}

// Takes the entry out that was noted last in the list of a group. `empty` stands for the list
// meanwhile.
fn take_last_entry(lists: &mut Map<u8, ListIndex>, group: u8, empty: ListIndex, label: &Label)
    ensures { (before : ℕ → Listed) → (place : ℕ) →
        groups_listed lists.old ≡ group_with group (noting label.now place) before
        → groups_listed lists.new ≡ before }
{
    match lists.replace(&group, empty) {
        Some(mut list) => {
            list.take_last(label);
            let _ = lists.replace(&group, list);
        }
        None => {}
    }
}

// The entry at this place is gone from the list of a group. `empty` stands for the list meanwhile.
fn close_entry(lists: &mut Map<u8, ListIndex>, group: u8, empty: ListIndex, place: u32)
    ensures { groups_listed lists.new ≡ group_with group (closed place) (groups_listed lists.old) }
{
    match lists.replace(&group, empty) {
        Some(mut list) => {
            list.close(place);
            let _ = lists.replace(&group, list);
        }
        None => {}
    }
}

/// Notes an entry that stands last, at this place, in the list of an ACL group of the namespace
/// with this number. After want of memory the index is as before.
pub fn note_in_group(
    alloc: Global,
    index: &mut Index,
    number: usize,
    group: u8,
    place: u32,
    label: &Label,
) -> Result<(), NoMemory>
    requires { HasNamespace index.old number }
    ensures done { OnOk result
        (told index.new ≡ in_group number group (noting label.now place) (told index.old)) }
    ensures kept { OnErr result (told index.new ≡ told index.old) }
    ensures size { AsManyNamespaces index.new index.old }
{
    let mut groups = index.groups.take();
    match note_entry(alloc, &mut groups[number], group, place, label) {
        Ok(()) => {
            index.groups = Seq::from_vec(groups);
            Ok(())
        }
        Err(fault) => {
            index.groups = Seq::from_vec(groups);
            Err(fault)
        }
    }
}

/// Takes the entry out that was noted last in the list of an ACL group of the namespace with this
/// number. Takes no memory.
pub fn take_last_in_group(alloc: Global, index: &mut Index, number: usize, group: u8, label: &Label)
    requires { HasNamespace index.old number }
    ensures { (before : Told) → (place : ℕ) →
        told index.old ≡ in_group number group (noting label.now place) before
        → told index.new ≡ before }
{
    let mut groups = index.groups.take();
    take_last_entry(&mut groups[number], group, ListIndex::new(alloc), label);
    index.groups = Seq::from_vec(groups);
}

/// The entry at this place is gone from the list of an ACL group of the namespace with this number.
/// Takes no memory.
pub fn close_in_group(alloc: Global, index: &mut Index, number: usize, group: u8, place: u32)
    requires { HasNamespace index.old number }
    ensures { told index.new ≡ in_group number group (closed place) (told index.old) }
{
    let mut groups = index.groups.take();
    close_entry(&mut groups[number], group, ListIndex::new(alloc), place);
    index.groups = Seq::from_vec(groups);
}

/// Notes a namespace, last, whose only list is that of a group with one entry. After want of memory
/// the index is as before.
pub fn note_first_in_group(
    alloc: Global,
    index: &mut Index,
    group: u8,
    label: &Label,
) -> Result<(), NoMemory>
    ensures done { OnOk result (told index.new ≡
        noting_lists (group_with group (noting label.now 0) (λ number. listing []))
        (told index.old)) }
    ensures kept { OnErr result (told index.new ≡ told index.old) }
{
    let mut list = ListIndex::new(alloc);
    list.note(alloc, 0, label)?;
    let mut lists = Map::new(alloc);
    lists.put(group, list)?;
    index.groups.push(lists)
}
