//! What the line of an ACL group does to the entries of its group.
ghost use Rattle.std.specs.Prelude.{◌≡◌, ◌<◌, [], true, length, slice_get, unwrap_or, Some, IsSome, OnOk, OnErr};
ghost use Rattle.std.specs.List.{AllByRecursion, position_from};
ghost use Rattle.tm_rules.specs.Types.{Entry, Namespace};
ghost use Rattle.tm_rules.specs.Prelude.{IsFewHere, acl_group, adding, at_key, changed_at, deleting, has_part, in_namespace, put_group, same_line};
ghost use Rattle.tm_change_namespaces.specs.Named.{named};
ghost use Rattle.tm_change_namespaces.specs.AclGroups.{AreShort, Rising, line_added, line_taken};

use crate::namespaces::{Change, find_namespace, in_namespace, namespace_place};
use std::alloc::Global;
use tm_change_entries::{add_at, entry_place, has_part, remove};
use tm_list::{Map, NoMemory, Seq};
use tm_types::entry::Entry;
use tm_types::policy::{GroupLine, Namespace};

// A line that joins the entries of an ACL group.
#[derive(Drop)]
struct NewLine {
    group: u8,
    entry: Entry,
}

// Where the entry of the group of this number stands that a line shares.
fn place_in_group(groups: &Map<u8, Seq<Entry>>, number: u8, line: &Entry) -> Option<usize>
    ensures { result ≡ position_from
        (λ (entry : Entry). same_line entry line.now) 0 (unwrap_or (at_key groups.now number) []) }
{
    match groups.get(&number) {
        Some(entries) => entry_place(entries.as_slice(), line),
        None => None,
    }
}

// Adds a line to the entries of the group of this number, of which was looked up where the entry
// stands that it shares.
fn add_to_group(
    alloc: Global,
    groups: &mut Map<u8, Seq<Entry>>,
    number: u8,
    at: Option<usize>,
    line: Entry,
) -> Result<(), NoMemory>
    requires { at ≡ position_from
        (λ (entry : Entry). same_line entry line) 0 (unwrap_or (at_key groups.old number) []) }
    ensures done { OnOk result (groups.new ≡ put_group number
        (adding line (unwrap_or (at_key groups.old number) [])) groups.old) }
    ensures kept { OnErr result (groups.new ≡ groups.old) }
    ensures few { AreShort groups.old → AreShort groups.new }
{
    match groups.replace(&number, Seq::new(alloc)) {
        Some(mut entries) => {
            let outcome = add_at(&mut entries, at, line);
            let _ = groups.replace(&number, entries);
            outcome?;
            Ok(())
        }
        None => {
            let mut entries = Seq::new(alloc);
            add_at(&mut entries, at, line)?;
            groups.put(number, entries)
        }
    }
}

impl Change for NewLine {
    ghost use Rattle.tm_rules.specs.Prelude.{acl_group, adding, with_group};

    ghost changed = { λ line ns. with_group line.group
        (adding line.entry (acl_group ns line.group)) ns };

    fn change(self, alloc: Global, namespace: &mut Namespace) -> Result<(), NoMemory> {
        let NewLine { group, entry } = self;
        let at = place_in_group(&namespace.acl_groups, group, &entry);
        add_to_group(alloc, &mut namespace.acl_groups, group, at, entry)
    }
}

/// Adds the line of an ACL group in its namespace, which is made last where it isn't there: the
/// line joins its permissions into the entry of the group that it shares, or goes last.
///
/// Errors: want of memory, also where the group would have 2^32 entries; the namespaces are then as
/// before.
pub fn add_group_line(
    alloc: Global,
    namespaces: &mut Seq<Namespace>,
    line: GroupLine,
) -> Result<(), NoMemory>
    ensures done { OnOk result
        (namespaces.new ≡ in_namespace line.namespace (line_added line) namespaces.old) }
    ensures kept { OnErr result (namespaces.new ≡ namespaces.old) }
    ensures few { AllByRecursion IsFewHere namespaces.old
        → AllByRecursion IsFewHere namespaces.new }
{
    let GroupLine {
        namespace,
        group,
        entry,
        ..
    } = line;
    in_namespace(alloc, namespaces, namespace, NewLine { group, entry })
}

// Adds a line to its group of a namespace.
fn add_line(
    alloc: Global,
    namespace: &mut Namespace,
    at: Option<usize>,
    line: GroupLine,
) -> Result<(), NoMemory>
    requires { at ≡ position_from
        (λ (entry : Entry). same_line entry line.entry) 0 (acl_group namespace.old line.group) }
    ensures done { OnOk result (namespace.new ≡ line_added line namespace.old) }
    ensures kept { OnErr result (namespace.new ≡ namespace.old) }
    ensures few { IsFewHere namespace.old → IsFewHere namespace.new }
{
    add_to_group(alloc, &mut namespace.acl_groups, line.group, at, line.entry)
}

// Adds a line to the group of this number in the namespace at this place.
fn add_line_at(
    alloc: Global,
    namespaces: &mut Seq<Namespace>,
    place: usize,
    at: Option<usize>,
    line: GroupLine,
) -> Result<(), NoMemory>
    requires within { place < length namespaces.old }
    requires at { (ns : Namespace) → slice_get namespaces.old place ≡ Some ns →
        at ≡ position_from (λ (entry : Entry). same_line entry line.entry) 0
        (acl_group ns line.group) }
    ensures done { OnOk result
        (namespaces.new ≡ changed_at place (line_added line) namespaces.old) }
    ensures kept { OnErr result (namespaces.new ≡ namespaces.old) }
    ensures few { AllByRecursion IsFewHere namespaces.old
        → AllByRecursion IsFewHere namespaces.new }
{
    let mut list = namespaces.take();
    match add_line(alloc, &mut list[place], at, line) {
        Ok(()) => {
            *namespaces = Seq::from_vec(list);
            Ok(())
        }
        Err(fault) => {
            *namespaces = Seq::from_vec(list);
            Err(fault)
        }
    }
}

/// Adds the line of an ACL group in its namespace, as `add_group_line` does, where it was looked up
/// at which place the entry of the group stands that the line shares.
///
/// Errors: want of memory, also where the group would have 2^32 entries; the namespaces are then as
/// before.
pub fn add_group_line_at(
    alloc: Global,
    namespaces: &mut Seq<Namespace>,
    at: Option<usize>,
    line: GroupLine,
) -> Result<(), NoMemory>
    requires { at ≡ position_from (λ (entry : Entry). same_line entry line.entry) 0
        (acl_group (named line.namespace namespaces.old) line.group) }
    ensures done { OnOk result
        (namespaces.new ≡ in_namespace line.namespace (line_added line) namespaces.old) }
    ensures kept { OnErr result (namespaces.new ≡ namespaces.old) }
    ensures few { AllByRecursion IsFewHere namespaces.old
        → AllByRecursion IsFewHere namespaces.new }
{
    match namespace_place(namespaces.as_slice(), line.namespace.bytes()) {
        Some(place) => add_line_at(alloc, namespaces, place, at, line),
        None => add_group_line(alloc, namespaces, line),
    }
}

/// Whether the ACL group has something of a line: some of its permissions, in the entry that it
/// shares. Takes no memory.
#[tactic(auto, unfolding(tm_rules::specs::Policy::has_part))]
pub fn has_group_line(namespaces: &[Namespace], line: &GroupLine) -> bool
    ensures { result
        ≡ has_part line.now.entry
        (acl_group (named line.now.namespace namespaces.now) line.now.group) }
{
    match find_namespace(namespaces, line.namespace.bytes()) {
        Some(namespace) => match namespace.acl_groups.get(&line.group) {
            Some(entries) => has_part(entries.as_slice(), &line.entry),
            None => false,
        },
        None => false,
    }
}

// Gives the group of this number, which is there, other entries; without any it leaves the map.
fn set_group(groups: &mut Map<u8, Seq<Entry>>, number: u8, entries: Seq<Entry>)
    requires there { IsSome (at_key groups.old number) }
    requires rising { Rising groups.old }
    ensures done { groups.new ≡ put_group number entries groups.old }
    ensures left { unwrap_or (at_key groups.new number) [] ≡ entries }
{
    if entries.is_empty() {
        groups.remove(&number);
    } else {
        let _ = groups.replace(&number, entries);
    }
}

// Takes a line out of the entries of the group of this number, which leaves the map where it has
// none left. `empty` stands for the entries meanwhile.
fn take_from_group(groups: &mut Map<u8, Seq<Entry>>, number: u8, empty: Seq<Entry>, line: &Entry)
    ensures done { groups.new ≡ put_group number (deleting line.now
        (unwrap_or (at_key groups.old number) [])) groups.old }
    ensures left { unwrap_or (at_key groups.new number) []
        ≡ deleting line.now (unwrap_or (at_key groups.old number) []) }
    ensures few { AreShort groups.old → AreShort groups.new }
{
    match groups.replace(&number, empty) {
        Some(mut entries) => {
            remove(&mut entries, line);
            set_group(groups, number, entries);
        }
        None => {}
    }
}

// Takes the line of an ACL group out of a namespace.
fn take_line(namespace: &mut Namespace, line: &GroupLine)
    ensures done { namespace.new ≡ line_taken line.now namespace.old }
    ensures left { acl_group (line_taken line.now namespace.old) line.now.group ≡
        deleting line.now.entry (acl_group namespace.old line.now.group) }
    ensures few { IsFewHere namespace.old → IsFewHere namespace.new }
{
    let empty = namespace.name.fresh();
    take_from_group(&mut namespace.acl_groups, line.group, empty, &line.entry);
}

// Takes the line of an ACL group out of the namespace at this place.
fn take_line_at(namespaces: &mut Seq<Namespace>, place: usize, line: &GroupLine)
    requires { place < length namespaces.old }
    ensures done { namespaces.new ≡ changed_at place (line_taken line.now) namespaces.old }
    ensures left { (ns : Namespace) → slice_get namespaces.old place ≡ Some ns →
        acl_group (line_taken line.now ns) line.now.group
        ≡ deleting line.now.entry (acl_group ns line.now.group) }
    ensures few { AllByRecursion IsFewHere namespaces.old
        → AllByRecursion IsFewHere namespaces.new }
{
    let mut list = namespaces.take();
    take_line(&mut list[place], line);
    *namespaces = Seq::from_vec(list);
}

/// Takes the line of an ACL group out of its namespace, which has something of it, as
/// `has_group_line` tells: the entry that the line shares loses its permissions and goes away
/// without any, and a group without entries is no longer in the namespace. Takes no memory.
pub fn remove_group_line(namespaces: &mut Seq<Namespace>, line: &GroupLine)
    requires { has_part line.now.entry
        (acl_group (named line.now.namespace namespaces.old) line.now.group) ≡ true }
    ensures done { namespaces.new
        ≡ in_namespace line.now.namespace (line_taken line.now) namespaces.old }
    // The group has the other entries afterwards.
    ensures left { acl_group
        (line_taken line.now (named line.now.namespace namespaces.old)) line.now.group ≡
        deleting line.now.entry
        (acl_group (named line.now.namespace namespaces.old) line.now.group) }
    ensures few { AllByRecursion IsFewHere namespaces.old
        → AllByRecursion IsFewHere namespaces.new }
{
    if let Some(place) = namespace_place(namespaces.as_slice(), line.namespace.bytes()) {
        take_line_at(namespaces, place, line);
    }
}
