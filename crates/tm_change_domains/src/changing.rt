//! Changes of one domain in its place: no domain and no list is copied.
ghost use Rattle.std.specs.Prelude.{◌≡◌, ◌<◌, ◌≤◌, ◌+◌, length, true, false, Some, IfOk, IfSome, OnOk, OnErr, option_map};
ghost use Rattle.std.specs.List.{position_from};
ghost use Rattle.tm_rules.specs.Types.{Domain, Entry};
ghost use Rattle.tm_rules.specs.Prelude.{IsFew, IsShort, adding, changed_at, chosen, count, dead, deleting, domain_at, put_key, remove_key, same_line, with_domain};

use tm_change_entries::{Change, add_at, remove};
use tm_list::{NoMemory, Seq};
use tm_types::entry::Entry;
use tm_types::policy::{Cursor, Domain, Policy};

/// The chosen domain with its number, where it is live. Takes no memory.
#[tactic(auto, using(crate::proofs::ShortLists::short_entries))]
pub fn chosen(policy: &Policy, cursor: Cursor) -> Option<(u32, &Domain)>
    ensures found { option_map
        (λ (pair : _). (pair.0, pair.1.now)) result ≡ chosen policy.now cursor }
    ensures there { IfSome result (λ pair. domain_at policy.now pair.0 ≡ Some pair.1.now) }
    ensures within { IfSome result (λ pair. pair.0 < length policy.now.domains) }
    ensures short { IfSome result (λ pair. IsFew policy.now → IsShort pair.1.now.entries) }
{
    match cursor {
        Some(number) => match policy.domains.get(number as usize) {
            Some(domain) => {
                if domain.live {
                    Some((number, domain))
                } else {
                    None
                }
            }
            None => None,
        },
        None => None,
    }
}

/// Gives the domain of this number a profile.
pub(crate) fn set_profile(policy: &mut Policy, number: u32, profile: u8)
    requires { number < length policy.old.domains }
    ensures done { (domain : Domain) → domain_at policy.old number ≡ Some domain →
        policy.new ≡ with_domain policy.old number (record domain { profile = profile }) }
    ensures few { IsFew policy.old → IsFew policy.new }
{
    let mut domains = policy.domains.take();
    domains[number as usize].profile = profile;
    policy.domains = Seq::from_vec(domains);
}

/// Writes the flag that says whether the quota of a domain is full.
pub(crate) fn set_quota(policy: &mut Policy, number: u32, full: bool)
    requires { number < length policy.old.domains }
    ensures done { (domain : Domain) → domain_at policy.old number ≡ Some domain →
        policy.new ≡ with_domain policy.old number (record domain { quota_exceeded = full }) }
    ensures few { IsFew policy.old → IsFew policy.new }
{
    let mut domains = policy.domains.take();
    domains[number as usize].quota_exceeded = full;
    policy.domains = Seq::from_vec(domains);
}

/// Writes the flag that says whether a transition out of a domain failed.
pub(crate) fn set_failed(policy: &mut Policy, number: u32, failed: bool)
    requires { number < length policy.old.domains }
    ensures done { (domain : Domain) → domain_at policy.old number ≡ Some domain →
        policy.new ≡ with_domain policy.old number (record domain { transition_failed = failed }) }
    ensures few { IsFew policy.old → IsFew policy.new }
{
    let mut domains = policy.domains.take();
    domains[number as usize].transition_failed = failed;
    policy.domains = Seq::from_vec(domains);
}

/// The domain of this number is live no more.
pub(crate) fn kill(policy: &mut Policy, number: u32)
    requires { number < length policy.old.domains }
    ensures done { policy.new
        ≡ record policy.old { domains = changed_at number dead policy.old.domains } }
    ensures few { IsFew policy.old → IsFew policy.new }
{
    let mut domains = policy.domains.take();
    domains[number as usize].live = false;
    policy.domains = Seq::from_vec(domains);
}

/// Gives the domain of this number an ACL group. Errors: want of memory; the policy is then as
/// before.
pub(crate) fn put_group(policy: &mut Policy, number: u32, group: u8) -> Result<(), NoMemory>
    requires { number < length policy.old.domains }
    ensures done { OnOk result ((domain : Domain) → domain_at policy.old number ≡ Some domain →
        policy.new
        ≡ with_domain policy.old number
        (record domain { groups = put_key group tt domain.groups })) }
    ensures kept { OnErr result (policy.new ≡ policy.old) }
    ensures few { IsFew policy.old → IsFew policy.new }
{
    let mut domains = policy.domains.take();
    match domains[number as usize].groups.put(group, ()) {
        Ok(()) => {
            policy.domains = Seq::from_vec(domains);
            Ok(())
        }
        Err(fault) => {
            policy.domains = Seq::from_vec(domains);
            Err(fault)
        }
    }
}

/// Takes an ACL group from the domain of this number.
pub(crate) fn remove_group(policy: &mut Policy, number: u32, group: u8)
    requires { number < length policy.old.domains }
    ensures done { (domain : Domain) → domain_at policy.old number ≡ Some domain →
        policy.new
        ≡ with_domain policy.old number
        (record domain { groups = remove_key group domain.groups }) }
    ensures few { IsFew policy.old → IsFew policy.new }
{
    let mut domains = policy.domains.take();
    domains[number as usize].groups.remove(&group);
    policy.domains = Seq::from_vec(domains);
}

/// Adds a line to the entries of the domain of this number, of which was looked up where the entry
/// stands that it shares. Errors: want of memory; the policy is then as before.
pub(crate) fn add_line(
    policy: &mut Policy,
    number: u32,
    at: Option<usize>,
    line: Entry,
) -> Result<Change, NoMemory>
    requires within { number < length policy.old.domains }
    requires at { (domain : Domain) → domain_at policy.old number ≡ Some domain →
        at ≡ position_from (λ (entry : Entry). same_line entry line) 0 domain.entries }
    ensures done { OnOk result ((domain : Domain) → domain_at policy.old number ≡ Some domain →
        policy.new
        ≡ with_domain policy.old number (record domain { entries = adding line domain.entries })) }
    ensures kept { OnErr result (policy.new ≡ policy.old) }
    ensures few { IsFew policy.old → IsFew policy.new }
    ensures least { IfOk result (λ change. change.after ≤ 65535) }
    ensures counted { IfOk result
        (λ change. (domain : Domain) → domain_at policy.old number ≡ Some domain →
        count (record domain { entries = adding line domain.entries }) + change.before
        ≡ count domain + change.after) }
{
    let mut domains = policy.domains.take();
    match add_at(&mut domains[number as usize].entries, at, line) {
        Ok(change) => {
            policy.domains = Seq::from_vec(domains);
            Ok(change)
        }
        Err(fault) => {
            policy.domains = Seq::from_vec(domains);
            Err(fault)
        }
    }
}

/// Takes a line out of the entries of the domain of this number.
pub(crate) fn remove_line(policy: &mut Policy, number: u32, line: &Entry)
    requires { number < length policy.old.domains }
    ensures done { (domain : Domain) → domain_at policy.old number ≡ Some domain →
        policy.new
        ≡ with_domain policy.old number
        (record domain { entries = deleting line.now domain.entries }) }
    ensures few { IsFew policy.old → IsFew policy.new }
{
    let mut domains = policy.domains.take();
    remove(&mut domains[number as usize].entries, line);
    policy.domains = Seq::from_vec(domains);
}
