//! What a learned line does to a domain.
ghost use Rattle.std.specs.Prelude.{◌≡◌, Some, IsSome, option_map, map, IfOk, OnOk, OnErr};
ghost use Rattle.std.specs.List.{position_from};
ghost use Rattle.tm_rules.specs.Types.{Domain, Entry, LearnReply, Policy};
ghost use Rattle.tm_rules.specs.Prelude.{IsFew, adding, changed_at, count, domain_at, has_line, has_permission, is_full, is_learning, learn, learn_reply, learns, permission_place, same_line, with_domain};

use crate::changing::{add_line, set_quota};
use crate::finding::{domain_at, profile_of};
use std::alloc::{AllocError, Global};
use tm_list::{Copied, NoMemory};
use tm_profile::config_of;
use tm_types::entry::Entry;
use tm_types::function_at;
use tm_types::policy::{Domain, Mode, Policy, Profile};
use tm_types::step::LearnReply;

/// Whether the permission at a place, from 0, of its row is among these.
pub fn has_permission(bits: u16, place: u8) -> bool
    ensures { result ≡ has_permission bits place }
{
    if place < 16 {
        bits >> place & 1 == 1
    } else {
        false
    }
}

// The place of the first permission of an entry.
#[tactic(auto, using(crate::proofs::Places::all_places))]
fn permission_place(entry: &Entry) -> u8
    ensures { result ≡ permission_place entry.now }
{
    let mut place: u8 = 0;
    while place < 16 {
        if has_permission(entry.perms.bits, place) {
            return place;
        }
        place += 1;
    }
    0
}

fn is_learning(mode: Mode) -> bool
    ensures { result ≡ is_learning (Some mode) }
{
    match mode {
        Mode::Learning => true,
        Mode::Disabled => false,
        Mode::Permissive => false,
        Mode::Enforcing => false,
    }
}

// Whether the profile's mode for the entry's function is learning.
fn learns(profile: &Profile, entry: &Entry) -> bool
    ensures { result ≡ learns profile.now entry.now }
{
    match function_at(&entry.args, permission_place(entry)) {
        Some(function) => is_learning(config_of(profile, function).mode),
        None => false,
    }
}

// Whether no further line is learned; the domain has so many permissions.
fn is_full(profile: &Profile, domain: &Domain, permissions: u64) -> bool
    requires { permissions ≡ count domain.now }
    ensures { result ≡ is_full profile.now domain.now }
{
    domain.quota_exceeded || u64::from(profile.max_learning_entry) <= permissions
}

// The reply to a Learn in a domain with so many permissions, which has the line or not.
#[tactic(auto, unfolding(tm_rules::specs::Changes::learn_reply))]
fn learn_reply(
    profile: &Profile,
    domain: &Domain,
    permissions: u64,
    there: bool,
    line: &Entry,
) -> LearnReply
    requires counted { permissions ≡ count domain.now }
    requires there { there ≡ has_line line.now domain.now.entries }
    ensures { result ≡ learn_reply profile.now domain.now line.now }
{
    if !learns(profile, line) {
        return LearnReply::Mode;
    }
    if there {
        return LearnReply::There;
    }
    if is_full(profile, domain, permissions) {
        LearnReply::Quota
    } else {
        LearnReply::Added
    }
}

// The reply to a Learn in the domain of this number, where it and its profile are there.
#[tactic(auto, unfolding(tm_rules::specs::Changes::learn))]
fn reply_in(
    policy: &Policy,
    number: u32,
    permissions: u64,
    there: bool,
    line: &Entry,
) -> Option<LearnReply>
    requires counted { (domain : Domain) → domain_at policy.now number ≡ Some domain
        → permissions ≡ count domain }
    requires there { (domain : Domain) → domain_at policy.now number ≡ Some domain →
        there ≡ has_line line.now domain.entries }
    ensures { result ≡ option_map
        (λ (done : Policy × LearnReply). done.1) (learn policy.now number line.now) }
{
    match domain_at(policy, number) {
        Some(domain) => match profile_of(policy, domain) {
            Some(profile) => Some(learn_reply(profile, domain, permissions, there, line)),
            None => None,
        },
        None => None,
    }
}

/// Adds a line to the entries of the domain of this number, which has so many permissions, and
/// gives how many it has afterwards. What is looked up comes in: how many permissions the domain
/// has, and where the entry stands that the line shares.
///
/// Errors: want of memory, also where the domain would have 2^32 entries; the policy is then as
/// before.
pub fn add_counted(
    policy: &mut Policy,
    number: u32,
    permissions: u64,
    at: Option<usize>,
    line: Entry,
) -> Result<u64, NoMemory>
    requires there { (domain : Domain) × (domain_at policy.old number ≡ Some domain)
        × (permissions ≡ count domain) }
    requires at { (domain : Domain) → domain_at policy.old number ≡ Some domain →
        at ≡ position_from (λ (entry : Entry). same_line entry line) 0 domain.entries }
    ensures done { OnOk result ((domain : Domain) → domain_at policy.old number ≡ Some domain →
        policy.new
        ≡ with_domain policy.old number (record domain { entries = adding line domain.entries })) }
    ensures counted { IfOk result
        (λ after. (domain : Domain) → domain_at policy.old number ≡ Some domain →
        after ≡ count (record domain { entries = adding line domain.entries })) }
    ensures kept { OnErr result (policy.new ≡ policy.old) }
    ensures few { IsFew policy.old → IsFew policy.new }
{
    // So many permissions don't fit in memory.
    if permissions > u64::MAX - 65535 {
        drop(line);
        return Err(AllocError);
    }
    let change = add_line(policy, number, at, line)?;
    Ok(permissions + change.after - change.before)
}

/// Learns a line in the domain of this number, and gives the reply with how many permissions the
/// domain has afterwards: `Mode` where the mode isn't learning, else `There` where the domain has
/// the line, else `Quota` where it is full, which raises its flag `quota_exceeded`, else `Added`.
/// The domain and its profile are there. What is looked up comes in: how many permissions the
/// domain has, where the entry stands that the line shares, and whether the whole line is there.
///
/// Errors: want of memory; the policy is then as before.
pub fn learn_known(
    alloc: Global,
    policy: &mut Policy,
    number: u32,
    permissions: u64,
    at: Option<usize>,
    there: bool,
    line: &Entry,
) -> Result<(LearnReply, u64), NoMemory>
    requires there { IsSome (learn policy.old number line.now) }
    requires counted { (domain : Domain) → domain_at policy.old number ≡ Some domain
        → permissions ≡ count domain }
    requires at { (domain : Domain) → domain_at policy.old number ≡ Some domain →
        at ≡ position_from (λ (entry : Entry). same_line entry line.now) 0 domain.entries }
    requires has { (domain : Domain) → domain_at policy.old number ≡ Some domain →
        there ≡ has_line line.now domain.entries }
    ensures done { IfOk result
        (λ told. learn policy.old number line.now ≡ Some (policy.new, told.0)) }
    ensures counts { IfOk result (λ told. map count policy.new.domains ≡
        changed_at number (λ n. told.1) (map count policy.old.domains)) }
    ensures kept { OnErr result (policy.new ≡ policy.old) }
    ensures few { IsFew policy.old → IsFew policy.new }
{
    match reply_in(policy, number, permissions, there, line) {
        Some(LearnReply::Added) => {
            let line = line.copy(alloc)?;
            let permissions = add_counted(policy, number, permissions, at, line)?;
            Ok((LearnReply::Added, permissions))
        }
        Some(LearnReply::Quota) => {
            set_quota(policy, number, true);
            Ok((LearnReply::Quota, permissions))
        }
        Some(LearnReply::There) => Ok((LearnReply::There, permissions)),
        Some(LearnReply::Mode) => Ok((LearnReply::Mode, permissions)),
        None => unreachable!(),
    }
}
