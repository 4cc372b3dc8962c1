//! Lines that speak of a domain by its name. The live domain of that name was looked up.
ghost use Rattle.std.specs.Prelude.{◌≡◌, [], IfOk, OnErr, is_some};
ghost use Rattle.tm_rules.specs.Types.{DomainRule};
ghost use Rattle.tm_rules.specs.Prelude.{Edited, IsFew, domain_line, live_domain, namespace_word, new_domain, profile_numbered};
ghost use Rattle.tm_change_domains.specs.Kept.{KeptIfRefused};

use crate::changing::kill;
use crate::finding::profile_numbered;
use std::alloc::{AllocError, Global};
use tm_list::{Map, NoMemory, Seq};
use tm_profile::domain::namespace;
use tm_types::policy::{Cursor, Domain, Policy};
use tm_types::step::EditReply;
use tm_types::unions::DomainName;

/// A live domain of this name with profile 0, without groups, flags and entries. Takes no memory.
pub fn new_domain(alloc: Global, name: DomainName) -> Domain
    ensures { result ≡ new_domain name 0 [] }
{
    Domain {
        name,
        live: true,
        profile: 0,
        groups: Map::new(alloc),
        quota_exceeded: false,
        transition_failed: false,
        entries: Seq::new(alloc),
    }
}

// Whether a namespace has a profile of this number.
pub(crate) fn has_profile(policy: &Policy, name: &[u8], number: u8) -> bool
    ensures { result ≡ is_some (profile_numbered policy.now name.now number) }
{
    profile_numbered(policy, name, number).is_some()
}

/// Chooses the live domain of a name, of which was looked up whether there is one, or makes it,
/// with profile 0. Refused with `NoProfile` where an opened policy has no profile 0 for a new
/// domain.
///
/// Errors: want of memory, also where the policy would have 2^32 domains; policy and cursor are
/// then as before.
#[tactic(auto, using(crate::proofs::ShortLists::few_with_domain), unfolding(tm_rules::specs::Edit::domain_line))]
pub fn choose_known(
    alloc: Global,
    policy: &mut Policy,
    cursor: &mut Cursor,
    home: Option<u32>,
    name: DomainName,
) -> Result<EditReply, NoMemory>
    requires { home ≡ live_domain policy.old name }
    ensures done { IfOk result
        (λ reply. domain_line policy.old cursor.old (DomainRule.Choose name) ≡
        record { policy = policy.new; cursor = cursor.new; reply = reply }) }
    ensures refused { IfOk result (λ reply. KeptIfRefused reply policy.new policy.old) }
    ensures stays { IfOk result (λ reply. KeptIfRefused reply cursor.new cursor.old) }
    ensures kept { OnErr result ((policy.new ≡ policy.old) × (cursor.new ≡ cursor.old)) }
    ensures few { IsFew policy.old → IsFew policy.new }
{
    if let Some(place) = home {
        *cursor = Some(place);
        return Ok(EditReply::Done);
    }
    if policy.opened && !has_profile(policy, namespace(&name), 0) {
        return Ok(EditReply::NoProfile);
    }
    let place = policy.domains.len();
    if place >= 4294967295 {
        return Err(AllocError);
    }
    policy.domains.push(new_domain(alloc, name))?;
    *cursor = Some(place as u32);
    Ok(EditReply::Done)
}

/// Selects the live domain of a name, of which was looked up whether there is one. Where there is
/// none it is refused with `NoDomain`, and the cursor is empty. Takes no memory.
#[tactic(auto, unfolding(tm_rules::specs::Edit::domain_line))]
pub fn select_known(
    policy: &Policy,
    cursor: &mut Cursor,
    home: Option<u32>,
    name: &DomainName,
) -> EditReply
    requires { home ≡ live_domain policy.now name.now }
    ensures done { domain_line policy.now cursor.old (DomainRule.Select name.now) ≡
        record { policy = policy.now; cursor = cursor.new; reply = result } }
{
    *cursor = home;
    match home {
        Some(_) => EditReply::Done,
        None => EditReply::NoDomain,
    }
}

/// The live domain of a name, of which was looked up whether there is one, is live no more, and the
/// cursor is empty. Refused with `NoSuchLine` where there is none. Takes no memory.
#[tactic(auto, unfolding(tm_rules::specs::Edit::domain_line))]
pub fn delete_known(
    policy: &mut Policy,
    cursor: &mut Cursor,
    home: Option<u32>,
    name: &DomainName,
) -> EditReply
    requires { home ≡ live_domain policy.old name.now }
    ensures done { domain_line policy.old cursor.old (DomainRule.Delete name.now) ≡
        record { policy = policy.new; cursor = cursor.new; reply = result } }
    ensures refused { KeptIfRefused result policy.new policy.old }
    ensures stays { KeptIfRefused result cursor.new cursor.old }
    ensures few { IsFew policy.old → IsFew policy.new }
{
    match home {
        Some(place) => {
            kill(policy, place);
            *cursor = None;
            EditReply::Done
        }
        None => EditReply::NoSuchLine,
    }
}
