//! What the line of an ACL group does to a policy.
ghost use Rattle.std.specs.Prelude.{◌≡◌, true, false, IfOk, OnErr};
ghost use Rattle.tm_rules.specs.Prelude.{IsFew, group_line};

use std::alloc::Global;
use tm_change_namespaces::{add_group_line, has_group_line, remove_group_line};
use tm_list::NoMemory;
use tm_types::policy::{Cursor, GroupLine, Policy};
use tm_types::step::EditReply;

// Adds a line to its ACL group.
#[tactic(auto, unfolding(tm_rules::specs::Edit::group_line))]
fn add(
    alloc: Global,
    policy: &mut Policy,
    cursor: Cursor,
    line: GroupLine,
) -> Result<EditReply, NoMemory>
    requires { line.delete ≡ false }
    ensures done { IfOk result (λ reply. group_line policy.old cursor line ≡
        record { policy = policy.new; cursor = cursor; reply = reply }) }
    ensures kept { OnErr result (policy.new ≡ policy.old) }
    ensures few { IsFew policy.old → IsFew policy.new }
{
    add_group_line(alloc, &mut policy.namespaces, line)?;
    Ok(EditReply::Done)
}

// Takes a line out of its ACL group, where there is something of it.
#[tactic(auto, unfolding(tm_rules::specs::Edit::group_line, tm_rules::specs::Policy::namespace_named))]
fn delete(policy: &mut Policy, cursor: Cursor, line: &GroupLine) -> EditReply
    requires { line.now.delete ≡ true }
    ensures done { group_line policy.old cursor line.now ≡
        record { policy = policy.new; cursor = cursor; reply = result } }
    ensures few { IsFew policy.old → IsFew policy.new }
{
    if !has_group_line(policy.namespaces.as_slice(), line) {
        return EditReply::NoSuchLine;
    }
    remove_group_line(&mut policy.namespaces, line);
    EditReply::Done
}

/// Adds a line to its ACL group, or takes it out; that is refused with `NoSuchLine` where the group
/// has nothing of it.
///
/// Errors: want of memory, also where the group would have 2^32 entries; the policy is then as
/// before.
pub(crate) fn apply_group(
    alloc: Global,
    policy: &mut Policy,
    cursor: Cursor,
    line: GroupLine,
) -> Result<EditReply, NoMemory>
    ensures done { IfOk result (λ reply. group_line policy.old cursor line ≡
        record { policy = policy.new; cursor = cursor; reply = reply }) }
    ensures kept { OnErr result (policy.new ≡ policy.old) }
    ensures few { IsFew policy.old → IsFew policy.new }
{
    if line.delete {
        let reply = delete(policy, cursor, &line);
        drop(line);
        Ok(reply)
    } else {
        add(alloc, policy, cursor, line)
    }
}
