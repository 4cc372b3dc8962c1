//! Lines of the domain file that write a profile, an ACL group or a flag of the chosen domain.
ghost use Rattle.std.specs.Prelude.{◌≡◌, true, false, is_some, IfOk, OnErr};
ghost use Rattle.tm_rules.specs.Types.{DomainRule};
ghost use Rattle.tm_rules.specs.Prelude.{Edited, IsFew, at_key, domain_line};
ghost use Rattle.tm_change_domains.specs.Kept.{KeptIfRefused};
ghost use Rattle.tm_change_domains.specs.Properties.{is_property};

use crate::changing::{chosen, put_group, remove_group, set_failed, set_profile, set_quota};
use crate::choosing::has_profile;
use tm_list::NoMemory;
use tm_profile::domain::namespace;
use tm_types::policy::{Cursor, Domain, DomainRule, Policy};
use tm_types::step::EditReply;

// Gives the chosen domain a profile.
#[tactic(auto, unfolding(tm_rules::specs::Edit::domain_line))]
fn use_profile(policy: &mut Policy, cursor: Cursor, number: u8) -> EditReply
    ensures done { domain_line policy.old cursor (DomainRule.UseProfile number) ≡
        record { policy = policy.new; cursor = cursor; reply = result } }
    ensures refused { KeptIfRefused result policy.new policy.old }
    ensures few { IsFew policy.old → IsFew policy.new }
{
    match chosen(policy, cursor) {
        Some((place, domain)) => {
            if !has_profile(policy, namespace(&domain.name), number) {
                return EditReply::NoProfile;
            }
            set_profile(policy, place, number);
            EditReply::Done
        }
        None => EditReply::NoDomain,
    }
}

// Gives the chosen domain an ACL group.
#[tactic(auto, unfolding(tm_rules::specs::Edit::domain_line))]
fn use_group(policy: &mut Policy, cursor: Cursor, number: u8) -> Result<EditReply, NoMemory>
    ensures done { IfOk result
        (λ reply. domain_line policy.old cursor (DomainRule.UseGroup false number) ≡
        record { policy = policy.new; cursor = cursor; reply = reply }) }
    ensures refused { IfOk result (λ reply. KeptIfRefused reply policy.new policy.old) }
    ensures kept { OnErr result (policy.new ≡ policy.old) }
    ensures few { IsFew policy.old → IsFew policy.new }
{
    match chosen(policy, cursor) {
        Some((place, _)) => {
            put_group(policy, place, number)?;
            Ok(EditReply::Done)
        }
        None => Ok(EditReply::NoDomain),
    }
}

// Whether a domain has an ACL group of this number.
fn is_in_group(domain: &Domain, number: u8) -> bool
    ensures { result ≡ is_some (at_key domain.now.groups number) }
{
    domain.groups.get(&number).is_some()
}

// Takes an ACL group from the chosen domain.
#[tactic(auto, unfolding(tm_rules::specs::Edit::domain_line))]
fn leave_group(policy: &mut Policy, cursor: Cursor, number: u8) -> EditReply
    ensures done { domain_line policy.old cursor (DomainRule.UseGroup true number) ≡
        record { policy = policy.new; cursor = cursor; reply = result } }
    ensures refused { KeptIfRefused result policy.new policy.old }
    ensures few { IsFew policy.old → IsFew policy.new }
{
    match chosen(policy, cursor) {
        Some((place, domain)) => {
            if !is_in_group(domain, number) {
                return EditReply::NoSuchLine;
            }
            remove_group(policy, place, number);
            EditReply::Done
        }
        None => EditReply::NoDomain,
    }
}

// Says that the quota of the chosen domain is full, or takes that back.
#[tactic(auto, unfolding(tm_rules::specs::Edit::domain_line))]
fn write_quota(policy: &mut Policy, cursor: Cursor, clear: bool) -> EditReply
    ensures done { domain_line policy.old cursor (DomainRule.QuotaExceeded clear) ≡
        record { policy = policy.new; cursor = cursor; reply = result } }
    ensures refused { KeptIfRefused result policy.new policy.old }
    ensures few { IsFew policy.old → IsFew policy.new }
{
    match chosen(policy, cursor) {
        Some((place, domain)) => {
            if !clear {
                set_quota(policy, place, true);
                return EditReply::Done;
            }
            if !domain.quota_exceeded {
                return EditReply::NoSuchLine;
            }
            set_quota(policy, place, false);
            EditReply::Done
        }
        None => EditReply::NoDomain,
    }
}

// Says that a transition out of the chosen domain failed, or takes that back.
#[tactic(auto, unfolding(tm_rules::specs::Edit::domain_line))]
fn write_failed(policy: &mut Policy, cursor: Cursor, clear: bool) -> EditReply
    ensures done { domain_line policy.old cursor (DomainRule.TransitionFailed clear) ≡
        record { policy = policy.new; cursor = cursor; reply = result } }
    ensures refused { KeptIfRefused result policy.new policy.old }
    ensures few { IsFew policy.old → IsFew policy.new }
{
    match chosen(policy, cursor) {
        Some((place, domain)) => {
            if !clear {
                set_failed(policy, place, true);
                return EditReply::Done;
            }
            if !domain.transition_failed {
                return EditReply::NoSuchLine;
            }
            set_failed(policy, place, false);
            EditReply::Done
        }
        None => EditReply::NoDomain,
    }
}

/// Does a line that writes a profile, an ACL group or a flag of the chosen domain, and gives its
/// reply: `NoDomain` where none is chosen, `NoProfile` where its namespace has no such profile, and
/// `NoSuchLine` where there is nothing to take back. A refused line leaves the policy as it was.
///
/// Errors: want of memory; the policy is then as before.
pub fn apply_property(
    policy: &mut Policy,
    cursor: Cursor,
    rule: &DomainRule,
) -> Result<EditReply, NoMemory>
    requires { is_property rule.now ≡ true }
    ensures done { IfOk result (λ reply. domain_line policy.old cursor rule.now ≡
        record { policy = policy.new; cursor = cursor; reply = reply }) }
    ensures refused { IfOk result (λ reply. KeptIfRefused reply policy.new policy.old) }
    ensures kept { OnErr result (policy.new ≡ policy.old) }
    ensures few { IsFew policy.old → IsFew policy.new }
{
    match rule {
        DomainRule::UseProfile(number) => Ok(use_profile(policy, cursor, *number)),
        DomainRule::UseGroup(false, number) => use_group(policy, cursor, *number),
        DomainRule::UseGroup(true, number) => Ok(leave_group(policy, cursor, *number)),
        DomainRule::QuotaExceeded(clear) => Ok(write_quota(policy, cursor, *clear)),
        DomainRule::TransitionFailed(clear) => Ok(write_failed(policy, cursor, *clear)),
        DomainRule::Choose(_)
        | DomainRule::Select(_)
        | DomainRule::Delete(_)
        | DomainRule::Acl(_, _) => unreachable!(),
    }
}
