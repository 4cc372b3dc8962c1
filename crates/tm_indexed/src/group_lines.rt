//! Lines of ACL groups: what the index finds, what is done to the policy, and what is noted of it.
ghost use Rattle.std.specs.Prelude.{◌≡◌, [], true, false, None, Some, IsSome, IfOk, OnOk, OnErr, unwrap_or};
ghost use Rattle.std.specs.List.{position_from};
ghost use Rattle.std.specs.Option.{option_copied, option_map_or};
ghost use Rattle.tm_rules.specs.Types.{Entry};
ghost use Rattle.tm_rules.specs.Prelude.{IsFew, IsFewHere, acl_group, at_key, changing_namespace, group_line, has_part, same_line};
ghost use Rattle.tm_change_namespaces.specs.AclGroups.{line_added, line_taken};
ghost use Rattle.tm_change_namespaces.specs.Named.{named};
ghost use Rattle.tm_index.specs.Labels.{label_of};
ghost use Rattle.tm_index.specs.Listing.{listed, listing};
ghost use Rattle.tm_index.specs.Index.{told, groups_listed, groups_listing, IsIndexOf, HasNamespace};
ghost use Rattle.tm_index.specs.Groups.{in_group};
ghost use Rattle.tm_indexed.specs.Gone.{gone_at};
ghost use Rattle.tm_indexed.specs.Groups.{place_named, IsInGroup, closed_if};

use crate::removing::gone_at;
use std::alloc::Global;
use tm_change_namespaces::{
    add_group_line, add_group_line_at, has_group_line, namespace_place, remove_group_line,
};
use tm_index::{
    Index, Label, ListIndex, close_in_group, groups_noted, label_of, note_first_in_group,
    note_in_group, take_last_in_group, take_namespace,
};
use tm_list::{Map, NoMemory, Seq};
use tm_types::entry::Entry;
use tm_types::policy::{Cursor, GroupLine, Namespace, Policy};
use tm_types::step::EditReply;

/// What was looked up of a line in its ACL group: how many entries the group has, and where the one
/// stands that the line shares.
#[derive(Clone, Copy)]
pub(crate) struct InGroup {
    pub(crate) length: u32,
    pub(crate) at: Option<usize>,
}

// The entries of a group; none where it isn't there.
fn entries_of(groups: &Map<u8, Seq<Entry>>, group: u8) -> &[Entry]
    ensures { result.now ≡ unwrap_or (at_key groups.now group) [] }
{
    match groups.get(&group) {
        Some(entries) => entries.as_slice(),
        None => &[],
    }
}

// Where the entry stands that a line shares, by the index of the entries; without one there are
// none.
fn place_in(
    list: Option<&ListIndex>,
    entries: &[Entry],
    label: &Label,
    line: &Entry,
) -> Option<usize>
    requires listed { option_map_or listed (option_copied list) (listing []) ≡ listing entries.now }
    requires label { label.now ≡ label_of line.now }
    ensures { result ≡ position_from (λ (entry : Entry). same_line entry line.now) 0 entries.now }
{
    match list {
        Some(list) => list.entry_place(entries, label, line),
        None => None,
    }
}

// Looks a line up in its group of a namespace, by the lists of its groups.
fn look_among(
    namespace: &Namespace,
    lists: &Map<u8, ListIndex>,
    label: &Label,
    line: &GroupLine,
) -> InGroup
    requires few { IsFewHere namespace.now }
    requires listed { groups_listed lists.now ≡ groups_listing namespace.now }
    requires label { label.now ≡ label_of line.now.entry }
    ensures { IsInGroup result namespace.now line.now }
{
    let entries = entries_of(&namespace.acl_groups, line.group);
    let at = place_in(lists.get(&line.group), entries, label, &line.entry);
    InGroup {
        length: entries.len() as u32,
        at,
    }
}

// Looks a line up in its group of its namespace, which has this number. Takes no memory.
fn look_in_group(
    policy: &Policy,
    index: &Index,
    number: usize,
    label: &Label,
    line: &GroupLine,
) -> InGroup
    requires few { IsFew policy.now }
    requires index { IsIndexOf index.now policy.now }
    requires there { place_named line.now.namespace policy.now.namespaces ≡ Some number }
    requires label { label.now ≡ label_of line.now.entry }
    ensures looked { IsInGroup result (named line.now.namespace policy.now.namespaces) line.now }
    ensures within { HasNamespace index.now number }
{
    match policy.namespaces.get(number) {
        Some(namespace) => match groups_noted(index, number) {
            Some(lists) => look_among(namespace, lists, label, line),
            None => unreachable!(),
        },
        None => unreachable!(),
    }
}

// The place of the entry that a line shares in its group of its namespace, which has this number,
// where it has nothing left without the line's permissions.
fn gone_in_group(policy: &Policy, number: usize, at: Option<usize>, line: &GroupLine) -> Option<u32>
    requires few { IsFew policy.now }
    requires there { place_named line.now.namespace policy.now.namespaces ≡ Some number }
    ensures { result
        ≡ gone_at
        (acl_group
        (named line.now.namespace policy.now.namespaces) line.now.group) at line.now.entry }
{
    match policy.namespaces.get(number) {
        Some(namespace) => gone_at(
            entries_of(&namespace.acl_groups, line.group),
            at,
            &line.entry,
        ),
        None => unreachable!(),
    }
}

// Adds a line that shares no entry of its group: it is noted first, and that is taken back where it
// can't be added.
fn add_new(
    alloc: Global,
    policy: &mut Policy,
    index: &mut Index,
    number: usize,
    looked: InGroup,
    label: &Label,
    line: GroupLine,
) -> Result<(), NoMemory>
    requires few { IsFew policy.old }
    requires index { IsIndexOf index.old policy.old }
    requires there { place_named line.namespace policy.old.namespaces ≡ Some number }
    requires within { HasNamespace index.old number }
    requires looked { IsInGroup looked (named line.namespace policy.old.namespaces) line }
    requires label { label.now ≡ label_of line.entry }
    requires new { looked.at ≡ None }
    ensures done { OnOk result
        (policy.new ≡ changing_namespace policy.old line.namespace (line_added line)) }
    ensures kept { OnErr result (policy.new ≡ policy.old) }
    ensures few { IsFew policy.new }
    ensures index { IsIndexOf index.new policy.new }
{
    let group = line.group;
    match note_in_group(alloc, index, number, group, looked.length, label) {
        Ok(()) => {}
        Err(fault) => {
            drop(line);
            return Err(fault);
        }
    }
    match add_group_line_at(alloc, &mut policy.namespaces, None, line) {
        Ok(()) => Ok(()),
        Err(fault) => {
            take_last_in_group(alloc, index, number, group, label);
            Err(fault)
        }
    }
}

// Adds a line that shares an entry of its group: no place changes.
fn add_joined(
    alloc: Global,
    policy: &mut Policy,
    index: &Index,
    looked: InGroup,
    line: GroupLine,
) -> Result<(), NoMemory>
    requires few { IsFew policy.old }
    requires index { IsIndexOf index.now policy.old }
    requires looked { IsInGroup looked (named line.namespace policy.old.namespaces) line }
    requires joins { IsSome looked.at }
    ensures done { OnOk result
        (policy.new ≡ changing_namespace policy.old line.namespace (line_added line)) }
    ensures kept { OnErr result (policy.new ≡ policy.old) }
    ensures few { IsFew policy.new }
    ensures index { IsIndexOf index.now policy.new }
{
    add_group_line_at(alloc, &mut policy.namespaces, looked.at, line)
}

// Adds a line in the namespace with this number.
fn add_there(
    alloc: Global,
    policy: &mut Policy,
    index: &mut Index,
    number: usize,
    label: &Label,
    line: GroupLine,
) -> Result<(), NoMemory>
    requires few { IsFew policy.old }
    requires index { IsIndexOf index.old policy.old }
    requires there { place_named line.namespace policy.old.namespaces ≡ Some number }
    requires label { label.now ≡ label_of line.entry }
    ensures done { OnOk result
        (policy.new ≡ changing_namespace policy.old line.namespace (line_added line)) }
    ensures kept { OnErr result (policy.new ≡ policy.old) }
    ensures few { IsFew policy.new }
    ensures index { IsIndexOf index.new policy.new }
{
    let looked = look_in_group(policy, index, number, label, &line);
    match looked.at {
        Some(_) => add_joined(alloc, policy, index, looked, line),
        None => add_new(alloc, policy, index, number, looked, label, line),
    }
}

// Adds a line in a namespace that isn't there: both are noted first, and that is taken back where
// the line can't be added.
fn add_first(
    alloc: Global,
    policy: &mut Policy,
    index: &mut Index,
    label: &Label,
    line: GroupLine,
) -> Result<(), NoMemory>
    requires few { IsFew policy.old }
    requires index { IsIndexOf index.old policy.old }
    requires none { place_named line.namespace policy.old.namespaces ≡ None }
    requires label { label.now ≡ label_of line.entry }
    ensures done { OnOk result
        (policy.new ≡ changing_namespace policy.old line.namespace (line_added line)) }
    ensures kept { OnErr result (policy.new ≡ policy.old) }
    ensures few { IsFew policy.new }
    ensures index { IsIndexOf index.new policy.new }
{
    match note_first_in_group(alloc, index, line.group, label) {
        Ok(()) => {}
        Err(fault) => {
            drop(line);
            return Err(fault);
        }
    }
    match add_group_line(alloc, &mut policy.namespaces, line) {
        Ok(()) => Ok(()),
        Err(fault) => {
            take_namespace(index);
            Err(fault)
        }
    }
}

// Adds a line to its group.
#[tactic(auto, unfolding(tm_rules::specs::Edit::group_line))]
fn add(
    alloc: Global,
    policy: &mut Policy,
    index: &mut Index,
    cursor: Cursor,
    line: GroupLine,
) -> Result<EditReply, NoMemory>
    requires few { IsFew policy.old }
    requires index { IsIndexOf index.old policy.old }
    requires adds { line.delete ≡ false }
    ensures done { IfOk result (λ reply. group_line policy.old cursor line ≡
        record { policy = policy.new; cursor = cursor; reply = reply }) }
    ensures kept { OnErr result (policy.new ≡ policy.old) }
    ensures few { IsFew policy.new }
    ensures index { IsIndexOf index.new policy.new }
{
    let label = match label_of(alloc, &line.entry) {
        Ok(label) => label,
        Err(fault) => {
            drop(line);
            return Err(fault);
        }
    };
    match namespace_place(policy.namespaces.as_slice(), line.namespace.bytes()) {
        Some(number) => add_there(alloc, policy, index, number, &label, line)?,
        None => add_first(alloc, policy, index, &label, line)?,
    }
    Ok(EditReply::Done)
}

// Takes a line out of its group of the namespace with this number, which has something of it.
fn remove_there(
    alloc: Global,
    policy: &mut Policy,
    index: &mut Index,
    number: usize,
    label: &Label,
    line: &GroupLine,
)
    requires few { IsFew policy.old }
    requires index { IsIndexOf index.old policy.old }
    requires there { place_named line.now.namespace policy.old.namespaces ≡ Some number }
    requires label { label.now ≡ label_of line.now.entry }
    requires has { has_part line.now.entry
        (acl_group (named line.now.namespace policy.old.namespaces) line.now.group)
        ≡ true }
    ensures done { policy.new
        ≡ changing_namespace policy.old line.now.namespace (line_taken line.now) }
    ensures few { IsFew policy.new }
    ensures index { IsIndexOf index.new policy.new }
{
    let looked = look_in_group(policy, index, number, label, line);
    let gone = gone_in_group(policy, number, looked.at, line);
    remove_group_line(&mut policy.namespaces, line);
    note_gone(alloc, index, number, line.group, gone);
}

// Notes that a group of the namespace with this number has lost an entry, where it has.
fn note_gone(alloc: Global, index: &mut Index, number: usize, group: u8, gone: Option<u32>)
    requires { HasNamespace index.old number }
    ensures { told index.new ≡ in_group number group (closed_if gone) (told index.old) }
{
    match gone {
        Some(place) => close_in_group(alloc, index, number, group, place),
        None => {}
    }
}

// Takes a line out of its group, which has something of it.
fn take_out(
    alloc: Global,
    policy: &mut Policy,
    index: &mut Index,
    line: &GroupLine,
) -> Result<(), NoMemory>
    requires few { IsFew policy.old }
    requires index { IsIndexOf index.old policy.old }
    requires has { has_part line.now.entry
        (acl_group (named line.now.namespace policy.old.namespaces) line.now.group)
        ≡ true }
    ensures done { OnOk result
        (policy.new ≡ changing_namespace policy.old line.now.namespace (line_taken line.now)) }
    ensures kept { OnErr result (policy.new ≡ policy.old) }
    ensures few { IsFew policy.new }
    ensures index { IsIndexOf index.new policy.new }
{
    let label = label_of(alloc, &line.entry)?;
    match namespace_place(policy.namespaces.as_slice(), line.namespace.bytes()) {
        Some(number) => {
            remove_there(alloc, policy, index, number, &label, line);
            Ok(())
        }
        None => unreachable!(),
    }
}

// Takes a line out of its group, where there is something of it.
#[tactic(auto, unfolding(tm_rules::specs::Edit::group_line, tm_rules::specs::Policy::namespace_named))]
fn remove(
    alloc: Global,
    policy: &mut Policy,
    index: &mut Index,
    cursor: Cursor,
    line: &GroupLine,
) -> Result<EditReply, NoMemory>
    requires few { IsFew policy.old }
    requires index { IsIndexOf index.old policy.old }
    requires takes { line.now.delete ≡ true }
    ensures done { IfOk result (λ reply. group_line policy.old cursor line.now ≡
        record { policy = policy.new; cursor = cursor; reply = reply }) }
    ensures kept { OnErr result (policy.new ≡ policy.old) }
    ensures few { IsFew policy.new }
    ensures index { IsIndexOf index.new policy.new }
{
    if !has_group_line(policy.namespaces.as_slice(), line) {
        return Ok(EditReply::NoSuchLine);
    }
    take_out(alloc, policy, index, line)?;
    Ok(EditReply::Done)
}

/// Adds a line to its ACL group, or takes it out, as tm_policy does, with the index of the policy.
///
/// Errors: want of memory; the policy is then as before.
pub(crate) fn edit_group(
    alloc: Global,
    policy: &mut Policy,
    index: &mut Index,
    cursor: Cursor,
    line: GroupLine,
) -> Result<EditReply, NoMemory>
    requires few { IsFew policy.old }
    requires index { IsIndexOf index.old policy.old }
    ensures done { IfOk result (λ reply. group_line policy.old cursor line ≡
        record { policy = policy.new; cursor = cursor; reply = reply }) }
    ensures kept { OnErr result (policy.new ≡ policy.old) }
    ensures few { IsFew policy.new }
    ensures index { IsIndexOf index.new policy.new }
{
    if line.delete {
        let outcome = remove(alloc, policy, index, cursor, &line);
        drop(line);
        outcome
    } else {
        add(alloc, policy, index, cursor, line)
    }
}
