//! The search for the first entry that grants a request, list by list.
ghost use Rattle.std.specs.Prelude.{◌≡◌, ◌++◌, ℕ, List, [], true, Some, None, option_map, unwrap_or};
ghost use Rattle.std.specs.List.{AllByRecursion};
ghost use Rattle.tm_rules.specs.Types.{Entry};
ghost use Rattle.tm_rules.specs.Prelude.{IsFew, IsFewHere, IsShort, aggregated, at_key, empty_namespace, first, found, found_of, is_execute, namespace_of, path_of, placed};
ghost use Rattle.tm_policy.specs.Searching.{found_in, acl_entries, KnowsGroups};

use crate::granting::Asked;
use crate::scan::{ListSearch, Scan};
use tm_change_domains::find_namespace;
use tm_domain::namespace;
use tm_list::{Map, Seq};
use tm_rep::executed_name;
use tm_rules::is_execute;
use tm_types::entry::Entry;
use tm_types::policy::{Domain, Namespace, Policy};
use tm_types::request::{Proc, Request};
use tm_types::unions::Groups;
use tm_types::verdict::{EntryPlace, Found};

// What is found first in the list of an ACL group, which may be without lines.
#[tactic(auto, using(crate::proofs::Lists::short_group))]
fn first_in_group<L: ListSearch>(
    scan: &L,
    asked: &Asked<'_>,
    lists: &Map<u8, Seq<Entry>>,
    group: u8,
) -> Option<Found>
    requires short { AllByRecursion (λ (pair : ℕ × List Entry). IsShort pair.1) lists.now }
    requires known { KnowsGroups (L.knows scan.now) lists.now }
    ensures { result ≡ found_in asked.now
        (placed (EntryPlace.Acl group) 0 (unwrap_or (at_key lists.now group) [])) }
{
    match lists.get(&group) {
        Some(entries) => scan.first_in(asked, Some(group), entries.as_slice()),
        None => None,
    }
}

// What is found first in the lists of a domain's ACL groups, by rising number.
#[tactic(auto, using(crate::proofs::Lists::found_groups))]
fn first_in_groups<L: ListSearch>(
    scan: &L,
    asked: &Asked<'_>,
    lists: &Map<u8, Seq<Entry>>,
    members: &[(u8, ())],
) -> Option<Found>
    requires short { AllByRecursion (λ (pair : ℕ × List Entry). IsShort pair.1) lists.now }
    requires known { KnowsGroups (L.knows scan.now) lists.now }
    ensures { result ≡ found_in asked.now (acl_entries lists.now members.now) }
{
    for (group, _) in members {
        if let Some(found) = first_in_group(scan, asked, lists, *group) {
            return Some(found);
        }
    }
    None
}

// What is found first in a domain's own list and then in those of its ACL groups.
#[tactic(auto, using(crate::proofs::Lists::found_own, crate::proofs::Lists::found_after))]
fn first_in_domain<L: ListSearch>(
    scan: &L,
    asked: &Asked<'_>,
    lists: &Map<u8, Seq<Entry>>,
    domain: &Domain,
) -> Option<Found>
    requires own { IsShort domain.now.entries }
    requires short { AllByRecursion (λ (pair : ℕ × List Entry). IsShort pair.1) lists.now }
    requires known_own { L.knows scan.now None domain.now.entries }
    requires known { KnowsGroups (L.knows scan.now) lists.now }
    ensures { result ≡ found_in asked.now (placed EntryPlace.Own 0 domain.now.entries
        ++ acl_entries lists.now domain.now.groups) }
{
    let own = scan.first_in(asked, None, domain.entries.as_slice());
    match own {
        Some(found) => Some(found),
        None => first_in_groups(scan, asked, lists, domain.groups.as_slice()),
    }
}

/// The first entry that grants the request of a process in a domain of a namespace, where each list
/// is searched as `scan` does, which knows the domain's own list and those of the namespace's ACL
/// groups. Takes no memory.
pub fn search_in<'a, L: ListSearch>(
    scan: &L,
    namespace: &'a Namespace,
    domain: &Domain,
    process: &'a Proc,
    request: &'a Request,
) -> Option<Found>
    requires few { IsFewHere namespace.now }
    requires own { IsShort domain.now.entries }
    requires known_own { L.knows scan.now None domain.now.entries }
    requires known { KnowsGroups (L.knows scan.now) namespace.now.acl_groups }
    ensures { result
        ≡ option_map found_of (first namespace.now domain.now process.now request.now) }
{
    let groups = &namespace.groups;
    let lists = &namespace.acl_groups;
    if is_execute(request) {
        let name = executed_name(namespace, request);
        let asked = Asked::new(groups, process, request, Some(name));
        first_in_domain(scan, &asked, lists, domain)
    } else {
        let asked = Asked::new(groups, process, request, None);
        first_in_domain(scan, &asked, lists, domain)
    }
}

// The search in a domain whose namespace has no line.
fn search_alone<'a, L: ListSearch>(
    scan: &L,
    groups: &'a Groups,
    domain: &Domain,
    process: &'a Proc,
    request: &'a Request,
) -> Option<Found>
    requires groups { groups.now ≡ record { paths = []; numbers = []; addrs = [] } }
    requires own { IsShort domain.now.entries }
    requires known_own { L.knows scan.now None domain.now.entries }
    ensures { (name : List ℕ) → result
        ≡ option_map found_of (first (empty_namespace name) domain.now process.now request.now) }
{
    if is_execute(request) {
        let asked = Asked::new(groups, process, request, request.name(0));
        scan.first_in(&asked, None, domain.entries.as_slice())
    } else {
        let asked = Asked::new(groups, process, request, None);
        scan.first_in(&asked, None, domain.entries.as_slice())
    }
}

/// The first entry that grants the request of a process in the domain of this number: the domain's
/// own entries in order, then those of its ACL groups by rising number. The path of an execute is
/// looked up by its aggregated name. None exactly where no entry grants the request, or the domain
/// isn't there. Scans the lists. Takes no memory.
pub fn search(policy: &Policy, domain: u32, process: &Proc, request: &Request) -> Option<Found>
    requires { IsFew policy.now }
    ensures { result ≡ found policy.now domain process.now request.now }
{
    match policy.domains.get(domain as usize) {
        Some(domain) => search_domain(&Scan, policy, domain, process, request),
        None => None,
    }
}

/// The first entry that grants the request of a process in a domain of a policy, as `search_in`
/// finds it in the domain's namespace. Takes no memory.
pub fn search_domain<L: ListSearch>(
    scan: &L,
    policy: &Policy,
    domain: &Domain,
    process: &Proc,
    request: &Request,
) -> Option<Found>
    requires few { IsFew policy.now }
    requires own { IsShort domain.now.entries }
    requires known_own { L.knows scan.now None domain.now.entries }
    requires known { KnowsGroups (L.knows scan.now)
        (namespace_of policy.now domain.now).acl_groups }
    ensures { result ≡ option_map found_of
        (first (namespace_of policy.now domain.now) domain.now process.now request.now) }
{
    match find_namespace(policy.namespaces.as_slice(), namespace(&domain.name)) {
        Some(namespace) => search_in(scan, namespace, domain, process, request),
        None => {
            let groups = Groups {
                paths: policy.namespaces.fresh(),
                numbers: policy.namespaces.fresh(),
                addrs: policy.namespaces.fresh(),
            };
            search_alone(scan, &groups, domain, process, request)
        }
    }
}
