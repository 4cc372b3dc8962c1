//! Lines of the domain file that add entries and take them out, and all lines of that file.
ghost use Rattle.std.specs.Prelude.{◌≡◌, true, false, IfOk, OnErr};
ghost use Rattle.tm_rules.specs.Types.{DomainRule};
ghost use Rattle.tm_rules.specs.Prelude.{Edited, IsFew, IsShort, domain_line};
ghost use Rattle.tm_change_domains.specs.Kept.{KeptIfRefused};

use crate::changing::{add_line, chosen, remove_line};
use crate::choosing::{choose_known, delete_known, select_known};
use crate::finding::live_domain;
use crate::properties::apply_property;
use std::alloc::Global;
use tm_change_entries::{entry_place, has_part};
use tm_list::NoMemory;
use tm_profile::domain::namespace;
use tm_types::entry::Entry;
use tm_types::policy::{Cursor, DomainRule, Policy};
use tm_types::step::EditReply;

/// Adds a line to the entries of the chosen domain. Refused with `NoDomain` where none is chosen.
///
/// Errors: want of memory, also where it would have 2^32 entries; the policy is then as before.
#[tactic(auto, unfolding(tm_rules::specs::Edit::domain_line))]
fn add_acl(policy: &mut Policy, cursor: Cursor, entry: Entry) -> Result<EditReply, NoMemory>
    ensures done { IfOk result
        (λ reply. domain_line policy.old cursor (DomainRule.Acl false entry) ≡
        record { policy = policy.new; cursor = cursor; reply = reply }) }
    ensures refused { IfOk result (λ reply. KeptIfRefused reply policy.new policy.old) }
    ensures kept { OnErr result (policy.new ≡ policy.old) }
    ensures few { IsFew policy.old → IsFew policy.new }
{
    match chosen(policy, cursor) {
        Some((place, domain)) => {
            let at = entry_place(domain.entries.as_slice(), &entry);
            add_line(policy, place, at, entry)?;
            Ok(EditReply::Done)
        }
        None => {
            drop(entry);
            Ok(EditReply::NoDomain)
        }
    }
}

/// Takes the permissions of a line out of the entries of the chosen domain. Refused with `NoDomain`
/// where none is chosen, and with `NoSuchLine` where it has nothing of the line. Takes no memory.
#[tactic(auto, unfolding(tm_rules::specs::Edit::domain_line))]
pub fn remove_acl(policy: &mut Policy, cursor: Cursor, entry: &Entry) -> EditReply
    ensures done { domain_line policy.old cursor (DomainRule.Acl true entry.now) ≡
        record { policy = policy.new; cursor = cursor; reply = result } }
    ensures refused { KeptIfRefused result policy.new policy.old }
    ensures few { IsFew policy.old → IsFew policy.new }
{
    match chosen(policy, cursor) {
        Some((place, domain)) => {
            if !has_part(domain.entries.as_slice(), entry) {
                return EditReply::NoSuchLine;
            }
            remove_line(policy, place, entry);
            EditReply::Done
        }
        None => EditReply::NoDomain,
    }
}

/// Does a line of the domain file, with the cursor of that file or editor, and gives its reply. A
/// refused line leaves the policy as it was, and the cursor too, which only a `select` that finds
/// nothing empties.
///
/// Errors: want of memory, also where a list would have 2^32 members; policy and cursor are then as
/// before.
pub fn apply_domain(
    alloc: Global,
    policy: &mut Policy,
    cursor: &mut Cursor,
    rule: DomainRule,
) -> Result<EditReply, NoMemory>
    requires { IsShort policy.old.domains }
    ensures done { IfOk result (λ reply. domain_line policy.old cursor.old rule ≡
        record { policy = policy.new; cursor = cursor.new; reply = reply }) }
    ensures refused { IfOk result (λ reply. KeptIfRefused reply policy.new policy.old) }
    ensures kept { OnErr result ((policy.new ≡ policy.old) × (cursor.new ≡ cursor.old)) }
    ensures few { IsFew policy.old → IsFew policy.new }
{
    match rule {
        DomainRule::Choose(name) => {
            let home = live_domain(policy, &name);
            choose_known(alloc, policy, cursor, home, name)
        }
        DomainRule::Select(name) => {
            let home = live_domain(policy, &name);
            let reply = select_known(policy, cursor, home, &name);
            drop(name);
            Ok(reply)
        }
        DomainRule::Delete(name) => {
            let home = live_domain(policy, &name);
            let reply = delete_known(policy, cursor, home, &name);
            drop(name);
            Ok(reply)
        }
        DomainRule::Acl(false, entry) => add_acl(policy, *cursor, entry),
        DomainRule::Acl(true, entry) => {
            let reply = remove_acl(policy, *cursor, &entry);
            drop(entry);
            Ok(reply)
        }
        DomainRule::UseProfile(_)
        | DomainRule::UseGroup(_, _)
        | DomainRule::QuotaExceeded(_)
        | DomainRule::TransitionFailed(_) => {
            let reply = apply_property(policy, *cursor, &rule);
            drop(rule);
            reply
        }
    }
}
