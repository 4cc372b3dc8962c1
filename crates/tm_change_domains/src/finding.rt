//! Where a policy has a namespace, a domain and its profile.
ghost use Rattle.std.specs.Prelude.{◌≡◌, ◌&&◌, is_some, option_map};
ghost use Rattle.std.specs.List.{find};
ghost use Rattle.std.specs.Option.{option_copied};
ghost use Rattle.tm_rules.specs.Types.{Namespace};
ghost use Rattle.tm_word.specs.Prelude.{texts_equal};
ghost use Rattle.tm_rules.specs.Prelude.{IsShort, domain_at, entry_at, live_domain, profile_numbered, profile_of};

use tm_profile::domain::namespace;
use tm_types::entry::Entry;
use tm_types::policy::{Domain, Namespace, Policy, Profile};
use tm_types::unions::DomainName;
use tm_types::verdict::EntryPlace;
use tm_word::{bytes_equal, texts_equal};

/// The domain of that number, live or dead; None past the last one. Takes no memory.
pub fn domain_at(policy: &Policy, number: u32) -> Option<&Domain>
    ensures { option_copied result ≡ domain_at policy.now number }
{
    policy.domains.as_slice().get(number as usize)
}

/// The namespace of that name among these, where it has a line. Takes no memory.
pub fn find_namespace<'a>(namespaces: &'a [Namespace], name: &[u8]) -> Option<&'a Namespace>
    ensures { option_copied result ≡ find
        (λ (ns : Namespace). texts_equal ns.name name.now) namespaces.now }
{
    for namespace in namespaces {
        if bytes_equal(namespace.name.bytes(), name) {
            return Some(namespace);
        }
    }
    None
}

/// The profile of this number of the namespace of that name, where it is defined. Takes no memory.
#[tactic(auto, unfolding(tm_rules::specs::Policy::namespace_named))]
pub fn profile_numbered<'a>(policy: &'a Policy, name: &[u8], number: u8) -> Option<&'a Profile>
    ensures { option_copied result ≡ profile_numbered policy.now name.now number }
{
    match find_namespace(policy.namespaces.as_slice(), name) {
        Some(namespace) => namespace.profiles.get(&number),
        None => None,
    }
}

/// The profile of a domain, where it is defined: the one of its number in its namespace. Takes no
/// memory.
pub fn profile_of<'a>(policy: &'a Policy, domain: &Domain) -> Option<&'a Profile>
    ensures { option_copied result ≡ profile_of policy.now domain.now }
{
    profile_numbered(policy, namespace(&domain.name), domain.profile)
}

/// The number of the live domain of that name. Takes no memory.
#[tactic(auto, unfolding(tm_rules::specs::Policy::live_domain))]
pub fn live_domain(policy: &Policy, name: &DomainName) -> Option<u32>
    requires { IsShort policy.now.domains }
    ensures { result ≡ live_domain policy.now name.now }
{
    for (place, domain) in policy.domains.as_slice().iter().enumerate() {
        if domain.live && texts_equal(&domain.name, name) {
            return Some(place as u32);
        }
    }
    None
}

/// The entry at a place of a domain's lists, its own or those of its namespace's ACL groups; None
/// past their ends. Takes no memory.
pub fn entry_at<'a>(
    namespace: &'a Namespace,
    domain: &'a Domain,
    place: EntryPlace,
) -> Option<&'a Entry>
    ensures { option_copied result ≡ entry_at namespace.now domain.now place }
{
    match place {
        EntryPlace::Own(place) => domain.entries.get(place as usize),
        EntryPlace::Acl(group, place) => match namespace.acl_groups.get(&group) {
            Some(entries) => entries.get(place as usize),
            None => None,
        },
    }
}
