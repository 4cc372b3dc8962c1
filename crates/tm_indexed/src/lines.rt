//! What a line of a policy file does to a policy with an index.
ghost use Rattle.std.specs.Prelude.{◌≡◌, true, IfOk, OnErr};
ghost use Rattle.tm_rules.specs.Types.{DomainRule, PolicyLine};
ghost use Rattle.tm_rules.specs.Prelude.{IsFew, apply_line, apply_read, domain_line, manager_line};
ghost use Rattle.tm_change_domains.specs.Properties.{is_property};
ghost use Rattle.tm_policy.specs.Tomoyo.{tomoyo_grammar};
ghost use Rattle.tm_index.specs.Index.{told, telling, IsIndexOf};

use crate::adding::add_acl;
use crate::choosing::{choose, select};
use crate::group_lines::edit_group;
use crate::removing::{delete, remove_acl};
use crate::settings::edit_setting;
use std::alloc::{AllocError, Global};
use tm_change_domains::{apply_manager, apply_property};
use tm_index::Index;
use tm_list::NoMemory;
use tm_policy::policy_line::read_line;
use tm_types::policy::{Cursor, DomainRule, ManagerRule, Policy, PolicyLine};
use tm_types::step::{EditReply, FileKind, LineFault};

// Does a line of the manager file: nothing is noted.
#[tactic(auto, unfolding(tm_rules::specs::Edit::apply_read, tm_rules::specs::Edit::manager_line))]
fn edit_manager(
    policy: &mut Policy,
    index: &Index,
    cursor: Cursor,
    delete: bool,
    rule: ManagerRule,
) -> Result<EditReply, NoMemory>
    requires few { IsFew policy.old }
    requires index { IsIndexOf index.now policy.old }
    ensures done { IfOk result
        (λ reply. apply_read policy.old cursor (PolicyLine.Manager delete rule) ≡
        record { policy = policy.new; cursor = cursor; reply = reply }) }
    ensures kept { OnErr result (policy.new ≡ policy.old) }
    ensures few { IsFew policy.new }
    ensures index { IsIndexOf index.now policy.new }
{
    apply_manager(policy, cursor, delete, rule)
}

// Does a line that writes a profile, an ACL group or a flag of the chosen domain: nothing is noted.
fn edit_property(
    policy: &mut Policy,
    index: &Index,
    cursor: Cursor,
    rule: &DomainRule,
) -> Result<EditReply, NoMemory>
    requires few { IsFew policy.old }
    requires index { IsIndexOf index.now policy.old }
    requires property { is_property rule.now ≡ true }
    ensures done { IfOk result (λ reply. domain_line policy.old cursor rule.now ≡
        record { policy = policy.new; cursor = cursor; reply = reply }) }
    ensures kept { OnErr result (policy.new ≡ policy.old) }
    ensures few { IsFew policy.new }
    ensures index { IsIndexOf index.now policy.new }
{
    apply_property(policy, cursor, rule)
}

// Does a line of the domain file.
#[tactic(auto, unfolding(tm_rules::specs::Edit::apply_read))]
fn edit_domain(
    alloc: Global,
    policy: &mut Policy,
    index: &mut Index,
    cursor: &mut Cursor,
    rule: DomainRule,
) -> Result<EditReply, NoMemory>
    requires few { IsFew policy.old }
    requires index { IsIndexOf index.old policy.old }
    ensures done { IfOk result (λ reply. domain_line policy.old cursor.old rule ≡
        record { policy = policy.new; cursor = cursor.new; reply = reply }) }
    ensures kept { OnErr result ((policy.new ≡ policy.old) × (cursor.new ≡ cursor.old)) }
    ensures few { IsFew policy.new }
    ensures index { IsIndexOf index.new policy.new }
{
    match rule {
        DomainRule::Choose(name) => choose(alloc, policy, index, cursor, name),
        DomainRule::Select(name) => {
            let reply = select(policy, index, cursor, &name);
            drop(name);
            Ok(reply)
        }
        DomainRule::Delete(name) => {
            let reply = delete(policy, index, cursor, &name);
            drop(name);
            Ok(reply)
        }
        DomainRule::Acl(false, entry) => add_acl(alloc, policy, index, *cursor, entry),
        DomainRule::Acl(true, entry) => {
            let outcome = remove_acl(alloc, policy, index, *cursor, &entry);
            drop(entry);
            outcome
        }
        DomainRule::UseProfile(_)
        | DomainRule::UseGroup(_, _)
        | DomainRule::QuotaExceeded(_)
        | DomainRule::TransitionFailed(_) => {
            let outcome = edit_property(policy, index, *cursor, &rule);
            drop(rule);
            outcome
        }
    }
}

// Does a line that was read.
#[tactic(auto, unfolding(tm_rules::specs::Edit::apply_read))]
fn edit_read(
    alloc: Global,
    policy: &mut Policy,
    index: &mut Index,
    cursor: &mut Cursor,
    line: PolicyLine,
) -> Result<EditReply, NoMemory>
    requires few { IsFew policy.old }
    requires index { IsIndexOf index.old policy.old }
    ensures done { IfOk result (λ reply. apply_read policy.old cursor.old line ≡
        record { policy = policy.new; cursor = cursor.new; reply = reply }) }
    ensures kept { OnErr result ((policy.new ≡ policy.old) × (cursor.new ≡ cursor.old)) }
    ensures few { IsFew policy.new }
    ensures index { IsIndexOf index.new policy.new }
{
    match line {
        PolicyLine::Nothing => Ok(EditReply::Done),
        PolicyLine::Profile(line) => {
            edit_setting(alloc, policy, index, cursor, PolicyLine::Profile(line))
        }
        PolicyLine::Exception(line) => {
            edit_setting(alloc, policy, index, cursor, PolicyLine::Exception(line))
        }
        PolicyLine::Group(line) => edit_group(alloc, policy, index, *cursor, line),
        PolicyLine::Domain(rule) => edit_domain(alloc, policy, index, cursor, rule),
        PolicyLine::Manager(delete, rule) => edit_manager(policy, index, *cursor, delete, rule),
    }
}

/// Does a line of a policy file, as `apply_line` of tm_policy does, with the index of the policy.
#[tactic(auto, unfolding(tm_rules::specs::Edit::apply_line))]
pub(crate) fn edit(
    alloc: Global,
    policy: &mut Policy,
    index: &mut Index,
    file: FileKind,
    cursor: &mut Cursor,
    line: &[u8],
) -> Result<EditReply, NoMemory>
    requires few { IsFew policy.old }
    requires index { IsIndexOf index.old policy.old }
    ensures done { IfOk result
        (λ reply. apply_line tomoyo_grammar policy.old file cursor.old line.now ≡
        record { policy = policy.new; cursor = cursor.new; reply = reply }) }
    ensures kept { OnErr result ((policy.new ≡ policy.old) × (cursor.new ≡ cursor.old)) }
    ensures few { IsFew policy.new }
    ensures index { IsIndexOf index.new policy.new }
{
    match read_line(alloc, file, line) {
        Ok(read) => edit_read(alloc, policy, index, cursor, read),
        Err(LineFault::Kind(kind)) => Ok(EditReply::BadLine(kind)),
        Err(LineFault::NoMemory) => Err(AllocError),
    }
}
