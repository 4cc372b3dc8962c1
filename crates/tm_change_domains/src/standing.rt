//! Where a look stands: a domain, its namespace and its profile, found once for all who ask.
ghost use Rattle.std.specs.Prelude.{◌≡◌, None, MatchOption, option_map};
ghost use Rattle.std.specs.List.{find, position_from};
ghost use Rattle.std.specs.Option.{option_and_then};
ghost use Rattle.tm_rules.specs.Types.{Namespace};
ghost use Rattle.tm_word.specs.Prelude.{texts_equal};
ghost use Rattle.tm_rules.specs.Prelude.{domain_at, profile_of};
ghost use Rattle.tm_change_domains.specs.Standing.{StandsIn};

use crate::finding::domain_at;
use std::marker::Model;
use tm_profile::domain::namespace;
use tm_types::policy::{Domain, Namespace, Policy, Profile};
use tm_word::bytes_equal;

/// Where a look stands: a domain with its number, its namespace with its place among the others,
/// and its profile. Contracts see the record of these.
#[derive(Drop)]
pub struct Standing<'a> {
    pub number: u32,
    pub domain: &'a Domain,
    pub place: usize,
    pub namespace: &'a Namespace,
    pub profile: &'a Profile,
}

impl<'a> Model for Standing<'a> {
    ghost use Rattle.tm_change_domains.specs.Standing.{Standing};

    ghost Value = { Standing };

    ghost view = { λ s. record {
      number = s.number;
      domain = s.domain.now;
      place = s.place;
      namespace = s.namespace.now;
      profile = s.profile.now;
    } };
}

// The namespace of that name among these, with its place, where it has a line.
fn namespace_at<'a>(namespaces: &'a [Namespace], name: &[u8]) -> Option<(usize, &'a Namespace)>
    ensures place { option_map (λ (pair : _). pair.0) result
        ≡ position_from (λ (ns : Namespace). texts_equal ns.name name.now) 0 namespaces.now }
    ensures found { option_map (λ (pair : _). pair.1.now) result
        ≡ find (λ (ns : Namespace). texts_equal ns.name name.now) namespaces.now }
{
    for (place, namespace) in namespaces.iter().enumerate() {
        if bytes_equal(namespace.name.bytes(), name) {
            return Some((place, namespace));
        }
    }
    None
}

/// Where a look in the domain of this number stands. None exactly where the domain or its profile
/// isn't there. Takes no memory.
#[tactic(auto, unfolding(tm_rules::specs::Policy::namespace_named))]
pub fn standing_at(policy: &Policy, number: u32) -> Option<Standing<'_>>
    ensures { MatchOption result
        (option_and_then (profile_of policy.now) (domain_at policy.now number) ≡ None)
        (λ standing. (standing.number ≡ number) × StandsIn policy.now standing) }
{
    let domain = domain_at(policy, number)?;
    let (place, namespace) = namespace_at(policy.namespaces.as_slice(), namespace(&domain.name))?;
    match namespace.profiles.get(&domain.profile) {
        Some(profile) => Some(Standing {
            number,
            domain,
            place,
            namespace,
            profile,
        }),
        None => None,
    }
}
