//! What a line of the exception file does to a policy.
ghost use Rattle.std.specs.Prelude.{◌≡◌, true, false, IfOk, OnErr};
ghost use Rattle.tm_rules.specs.Prelude.{IsFew, except_line};

use std::alloc::Global;
use tm_change_namespaces::{add_rule, has_rule, remove_rule};
use tm_list::NoMemory;
use tm_types::policy::{Cursor, ExceptLine, ExceptRule, Policy};
use tm_types::step::EditReply;
use tm_word::Text;

// Adds what a line says.
#[tactic(auto, unfolding(tm_rules::specs::Edit::except_line))]
fn add(
    alloc: Global,
    policy: &mut Policy,
    cursor: Cursor,
    name: Text,
    rule: ExceptRule,
) -> Result<EditReply, NoMemory>
    ensures done { IfOk result (λ reply. except_line policy.old cursor false name rule ≡
        record { policy = policy.new; cursor = cursor; reply = reply }) }
    ensures kept { OnErr result (policy.new ≡ policy.old) }
    ensures few { IsFew policy.old → IsFew policy.new }
{
    add_rule(alloc, &mut policy.namespaces, name, rule)?;
    Ok(EditReply::Done)
}

// Takes out what a line says, where it is there.
#[tactic(auto, unfolding(tm_rules::specs::Edit::except_line, tm_rules::specs::Policy::namespace_named))]
fn delete(policy: &mut Policy, cursor: Cursor, name: &Text, rule: &ExceptRule) -> EditReply
    ensures done { except_line policy.old cursor true name.now rule.now ≡
        record { policy = policy.new; cursor = cursor; reply = result } }
    ensures few { IsFew policy.old → IsFew policy.new }
{
    if !has_rule(policy.namespaces.as_slice(), name.bytes(), rule) {
        return EditReply::NoSuchLine;
    }
    remove_rule(&mut policy.namespaces, name.bytes(), rule);
    EditReply::Done
}

/// Adds what a line of the exception file says, or takes it out; that is refused with `NoSuchLine`
/// where it isn't there.
///
/// Errors: want of memory, also where a list would have 2^32 members; the policy is then as before.
pub(crate) fn apply_exception(
    alloc: Global,
    policy: &mut Policy,
    cursor: Cursor,
    line: ExceptLine,
) -> Result<EditReply, NoMemory>
    ensures done { IfOk result
        (λ reply. except_line policy.old cursor line.delete line.namespace line.rule ≡
        record { policy = policy.new; cursor = cursor; reply = reply }) }
    ensures kept { OnErr result (policy.new ≡ policy.old) }
    ensures few { IsFew policy.old → IsFew policy.new }
{
    if line.delete {
        Ok(delete(policy, cursor, &line.namespace, &line.rule))
    } else {
        add(alloc, policy, cursor, line.namespace, line.rule)
    }
}
