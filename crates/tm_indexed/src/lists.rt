//! What is noted of the lists that a domain is searched in, and the search of a domain by it.
ghost use Rattle.std.specs.Prelude.{◌≡◌, [], ℕ, Option, Some, option_map};
ghost use Rattle.std.specs.Option.{option_copied, option_map_or};
ghost use Rattle.tm_change_domains.specs.Standing.{StandsIn};
ghost use Rattle.tm_rules.specs.Prelude.{IsFew, domain_at, first, found, found_of, namespace_word};
ghost use Rattle.tm_index.specs.Listing.{listed, listing};
ghost use Rattle.tm_index.specs.Index.{told, telling, IsIndexOf};
ghost use Rattle.tm_indexed.specs.Groups.{place_named};
ghost use Rattle.tm_indexed.specs.Known.{list_in, list_of, known};

use crate::search::first_listed;
use tm_change_domains::Standing;
use tm_change_namespaces::namespace_place;
use tm_domain::namespace;
use tm_index::{Index, ListIndex, domain_noted, groups_noted};
use tm_list::Map;
use tm_policy::{Asked, ListSearch, search_domain, search_in};
use tm_types::entry::Entry;
use tm_types::policy::{Domain, Policy};
use tm_types::request::{Proc, Request};
use tm_types::verdict::Found;

/// What is noted of the lists that a domain is searched in.
#[derive(Clone, Copy)]
pub(crate) struct DomainLists<'a> {
    pub(crate) own: &'a ListIndex,
    pub(crate) groups: Option<&'a Map<u8, ListIndex>>,
}

impl<'a> DomainLists<'a> {
    // The index of a list; None where it has no entries.
    fn list(&self, group: Option<u8>) -> Option<&'a ListIndex>
        ensures { option_map_or listed (option_copied result) (listing []) ≡
            known self.now.own.now (option_copied self.now.groups) group }
    {
        match group {
            None => Some(self.own),
            Some(group) => match self.groups {
                Some(groups) => groups.get(&group),
                None => None,
            },
        }
    }
}

impl<'a> ListSearch for DomainLists<'a> {
    ghost use Rattle.std.specs.Option.{option_copied};
    ghost use Rattle.tm_index.specs.Listing.{listing};
    ghost use Rattle.tm_indexed.specs.Known.{known};

    ghost knows = { λ lists group entries.
        known lists.own.now (option_copied lists.groups) group ≡ listing entries };

    fn first_in(&self, asked: &Asked<'_>, group: Option<u8>, entries: &[Entry]) -> Option<Found> {
        match self.list(group) {
            Some(list) => first_listed(list, asked, group, entries),
            None => None,
        }
    }
}

// What is noted of the lists of the domain of this number, whose namespace stands at this place.
fn lists_at<'a>(
    policy: &Policy,
    index: &'a Index,
    number: u32,
    domain: &Domain,
    place: Option<usize>,
) -> DomainLists<'a>
    requires index { IsIndexOf index.now policy.now }
    requires there { domain_at policy.now number ≡ Some domain.now }
    requires place { place ≡ place_named (namespace_word domain.now.name) policy.now.namespaces }
    ensures { (group : Option ℕ) → known result.own.now (option_copied result.groups) group ≡
        listing (list_in policy.now domain.now group) }
{
    match domain_noted(index, number) {
        Some(noted) => match place {
            Some(place) => DomainLists {
                own: &noted.own,
                groups: groups_noted(index, place),
            },
            None => DomainLists {
                own: &noted.own,
                groups: None,
            },
        },
        None => unreachable!(),
    }
}

/// What is noted of the lists that a domain of a policy is searched in.
pub(crate) fn lists_of<'a>(
    policy: &Policy,
    index: &'a Index,
    number: u32,
    domain: &Domain,
) -> DomainLists<'a>
    requires index { IsIndexOf index.now policy.now }
    requires there { domain_at policy.now number ≡ Some domain.now }
    ensures { (group : Option ℕ) → known result.own.now (option_copied result.groups) group ≡
        listing (list_in policy.now domain.now group) }
{
    let place = namespace_place(policy.namespaces.as_slice(), namespace(&domain.name));
    lists_at(policy, index, number, domain, place)
}

/// The index of a list that the domain of this number is searched in; None where it has no entries.
/// Takes no memory.
pub(crate) fn list_at<'a>(
    policy: &Policy,
    index: &'a Index,
    number: u32,
    group: Option<u8>,
) -> Option<&'a ListIndex>
    requires { IsIndexOf index.now policy.now }
    ensures { option_map_or listed (option_copied result) (listing [])
        ≡ listing (list_of policy.now number group) }
{
    match policy.domains.get(number as usize) {
        Some(domain) => lists_of(policy, index, number, domain).list(group),
        None => None,
    }
}

/// The first entry that grants the request of a process in the domain of this number, found by the
/// index. Takes no memory.
pub(crate) fn search(
    policy: &Policy,
    index: &Index,
    number: u32,
    process: &Proc,
    request: &Request,
) -> Option<Found>
    requires few { IsFew policy.now }
    requires index { IsIndexOf index.now policy.now }
    ensures { result ≡ found policy.now number process.now request.now }
{
    match policy.domains.get(number as usize) {
        Some(domain) => {
            let lists = lists_of(policy, index, number, domain);
            search_domain(&lists, policy, domain, process, request)
        }
        None => None,
    }
}

/// The same where the look's standing is known. Takes no memory.
#[tactic(auto, using(tm_change_domains::proofs::Standings::few_here, tm_change_domains::proofs::Standings::few_own))]
pub(crate) fn search_standing(
    policy: &Policy,
    index: &Index,
    standing: &Standing<'_>,
    process: &Proc,
    request: &Request,
) -> Option<Found>
    requires few { IsFew policy.now }
    requires index { IsIndexOf index.now policy.now }
    requires standing { StandsIn policy.now standing.now }
    ensures { result ≡ option_map found_of
        (first standing.now.namespace standing.now.domain process.now request.now) }
{
    let domain = standing.domain;
    let lists = lists_at(policy, index, standing.number, domain, Some(standing.place));
    search_in(&lists, standing.namespace, domain, process, request)
}
