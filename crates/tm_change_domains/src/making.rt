//! What a Make and a Fail do: a domain that is entered, and the flag of one that wasn't left.
ghost use Rattle.std.specs.Prelude.{◌≡◌, Some, IsSome, IfOk, OnErr};
ghost use Rattle.tm_rules.specs.Prelude.{IsFew, fail, live_domain, make, new_domain};

use crate::changing::set_failed;
use crate::finding::domain_at;
use std::alloc::{AllocError, Global};
use tm_list::{Copied, NoMemory, Seq};
use tm_types::policy::{Domain, Policy};
use tm_types::step::MakeReply;
use tm_types::unions::DomainName;

// A live domain of this name, with the profile and the groups of another one.
fn domain_from(alloc: Global, name: DomainName, from: &Domain) -> Result<Domain, NoMemory>
    ensures { IfOk result (λ made. made ≡ new_domain name from.now.profile from.now.groups) }
{
    Ok(Domain {
        name,
        live: true,
        profile: from.profile,
        groups: from.groups.copy(alloc)?,
        quota_exceeded: false,
        transition_failed: false,
        entries: Seq::new(alloc),
    })
}

/// Makes a domain for a transition out of the domain of this number, whose profile and groups it
/// takes: the reply is its number. The live domain of that name, of which was looked up whether
/// there is one, is taken instead. The domain and its profile are there.
///
/// Errors: want of memory, also where the policy would have 2^32 domains; the policy is then as
/// before.
#[tactic(auto, using(crate::proofs::ShortLists::few_with_domain))]
pub fn make_known(
    alloc: Global,
    policy: &mut Policy,
    domain: u32,
    home: Option<u32>,
    name: DomainName,
) -> Result<MakeReply, NoMemory>
    requires there { IsSome (make policy.old domain name) }
    requires home { home ≡ live_domain policy.old name }
    ensures done { IfOk result (λ reply. make policy.old domain name ≡ Some (policy.new, reply)) }
    ensures kept { OnErr result (policy.new ≡ policy.old) }
    ensures few { IsFew policy.old → IsFew policy.new }
{
    if let Some(place) = home {
        return Ok(MakeReply::Old(place));
    }
    let place = policy.domains.len();
    if place >= 4294967295 {
        return Err(AllocError);
    }
    match domain_at(policy, domain) {
        Some(from) => {
            let made = domain_from(alloc, name, from)?;
            policy.domains.push(made)?;
            Ok(MakeReply::New(place as u32))
        }
        None => unreachable!(),
    }
}

/// Marks the domain of this number as one that a transition couldn't leave, and tells whether it
/// wasn't marked before. The domain and its profile are there. Takes no memory.
pub fn apply_fail(policy: &mut Policy, domain: u32) -> bool
    requires { IsSome (fail policy.old domain) }
    ensures done { fail policy.old domain ≡ Some (policy.new, result) }
    ensures few { IsFew policy.old → IsFew policy.new }
{
    match domain_at(policy, domain) {
        Some(found) => {
            let first = !found.transition_failed;
            set_failed(policy, domain, true);
            first
        }
        None => unreachable!(),
    }
}
