//! The index of a policy, and how it is made.
ghost use Rattle.std.specs.Prelude.{◌≡◌, ℕ, List, [], map, option_map, slice_get, unwrap_or, IfOk, IfSome, OnOk, OnErr};
ghost use Rattle.std.specs.List.{AllByRecursion};
ghost use Rattle.std.specs.Option.{option_copied};
ghost use Rattle.tm_rules.specs.Types.{Domain, Entry};
ghost use Rattle.tm_rules.specs.Prelude.{IsFew, IsFewHere, IsShort, at_key};
ghost use Rattle.tm_index.specs.Buckets.{places_at};
ghost use Rattle.tm_index.specs.Listing.{listing};
ghost use Rattle.tm_index.specs.Index.{told, domain_listed, domain_listing, groups_listed, groups_listing, with_live, live_places, IsIndexOf, HasDomain, HasNamespace};

use crate::buckets::Buckets;
use crate::list::{ListIndex, list_of};
use std::alloc::Global;
use tm_learn::count;
use tm_list::{Map, NoMemory, Seq};
use tm_types::entry::Entry;
use tm_types::policy::{Domain, Namespace, Policy};
use tm_types::unions::DomainName;

/// What is noted of a domain: where its entries stand, and how many permissions they have.
#[derive(Drop)]
pub struct DomainIndex {
    pub own: ListIndex,
    pub permissions: u64,
}

/// What is noted of a policy: of its domains by their numbers, of the ACL groups of each namespace
/// by theirs, and the numbers of the live domains by name.
#[derive(Drop)]
pub struct Index {
    pub(crate) domains: Seq<DomainIndex>,
    pub(crate) groups: Seq<Map<u8, ListIndex>>,
    pub(crate) live: Buckets,
}

// The index of a domain.
fn domain_of(alloc: Global, domain: &Domain) -> Result<DomainIndex, NoMemory>
    requires { IsShort domain.now.entries }
    ensures { IfOk result (λ made. domain_listed made ≡ domain_listing domain.now) }
{
    let own = list_of(alloc, domain.entries.as_slice())?;
    let permissions = count(domain);
    Ok(DomainIndex { own, permissions })
}

// The indexes of domains.
fn domains_of(alloc: Global, domains: &[Domain]) -> Result<Seq<DomainIndex>, NoMemory>
    requires { AllByRecursion (λ (domain : Domain). IsShort domain.entries) domains.now }
    ensures { IfOk result (λ made. map domain_listed made ≡ map domain_listing domains.now) }
{
    let mut made = Seq::new(alloc);
    for domain in domains {
        made.push(domain_of(alloc, domain)?)?;
    }
    Ok(made)
}

// The indexes of ACL groups by their numbers.
fn groups_of(alloc: Global, groups: &[(u8, Seq<Entry>)]) -> Result<Map<u8, ListIndex>, NoMemory>
    requires { AllByRecursion (λ (group : ℕ × List Entry). IsShort group.1) groups.now }
    ensures { IfOk result (λ made. (number : ℕ) → groups_listed made number ≡
        listing (unwrap_or (at_key groups.now number) [])) }
{
    match groups {
        [] => Ok(Map::new(alloc)),
        [(number, entries), rest @ ..] => {
            let mut made = groups_of(alloc, rest)?;
            made.put(*number, list_of(alloc, entries.as_slice())?)?;
            Ok(made)
        }
    }
}

// The indexes of the ACL groups of namespaces.
fn namespaces_of(
    alloc: Global,
    namespaces: &[Namespace],
) -> Result<Seq<Map<u8, ListIndex>>, NoMemory>
    requires { AllByRecursion IsFewHere namespaces.now }
    ensures { IfOk result (λ made. map groups_listed made ≡ map groups_listing namespaces.now) }
{
    let mut made = Seq::new(alloc);
    for namespace in namespaces {
        made.push(groups_of(alloc, namespace.acl_groups.as_slice())?)?;
    }
    Ok(made)
}

/// Notes a domain at this place, where it is live. After want of memory nothing is noted.
pub(crate) fn note_live(
    alloc: Global,
    live: &mut Buckets,
    place: u32,
    domain: &Domain,
) -> Result<(), NoMemory>
    ensures done { OnOk result
        (places_at live.new ≡ with_live place domain.now (places_at live.old)) }
    ensures kept { OnErr result (live.new ≡ live.old) }
{
    if domain.live {
        live.note(alloc, domain.name.bytes(), place)
    } else {
        Ok(())
    }
}

// The numbers of the live domains by name.
fn live_of(alloc: Global, domains: &[Domain]) -> Result<Buckets, NoMemory>
    requires { IsShort domains.now }
    ensures { IfOk result (λ made. places_at made ≡ live_places domains.now) }
{
    let mut live = Buckets::new(alloc);
    for (place, domain) in domains.iter().enumerate() {
        note_live(alloc, &mut live, place as u32, domain)?;
    }
    Ok(live)
}

/// The index of a policy. Errors: want of memory.
#[tactic(auto, unfolding(crate::specs::Index::telling))]
pub fn index_of(alloc: Global, policy: &Policy) -> Result<Index, NoMemory>
    requires { IsFew policy.now }
    ensures { IfOk result (λ made. IsIndexOf made policy.now) }
{
    let domains = domains_of(alloc, policy.domains.as_slice())?;
    let groups = namespaces_of(alloc, policy.namespaces.as_slice())?;
    let live = live_of(alloc, policy.domains.as_slice())?;
    Ok(Index {
        domains,
        groups,
        live,
    })
}

/// What is noted of the domain of this number. Takes no memory.
#[tactic(auto, using(crate::proofs::TellingLaws::seen_at))]
pub fn domain_noted(index: &Index, number: u32) -> Option<&DomainIndex>
    ensures told { option_map domain_listed (option_copied result)
        ≡ slice_get (told index.now).domains number }
    ensures within { IfSome result (λ noted. HasDomain index.now number) }
{
    index.domains.get(number as usize)
}

/// What is noted of the ACL groups of the namespace at this place. Takes no memory.
#[tactic(auto, using(crate::proofs::TellingLaws::seen_at))]
pub fn groups_noted(index: &Index, place: usize) -> Option<&Map<u8, ListIndex>>
    ensures told { option_map groups_listed (option_copied result)
        ≡ slice_get (told index.now).groups place }
    ensures within { IfSome result (λ lists. HasNamespace index.now place) }
{
    index.groups.get(place)
}

/// The numbers of the live domains of this name that are noted. Takes no memory.
pub fn live_noted<'a>(index: &'a Index, name: &DomainName) -> &'a [u32]
    ensures { result.now ≡ (told index.now).live name.now }
{
    index.live.get(name.bytes())
}
