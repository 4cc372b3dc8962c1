//! Whether each place of a policy's lists can be written as a number below 2^32.
ghost use Rattle.std.specs.Prelude.{◌≡◌, ◌↔◌, ℕ, List, length, IsTrue};
ghost use Rattle.std.specs.List.{list_all};
ghost use Rattle.tm_rules.specs.Types.{Domain, Entry, Namespace};
ghost use Rattle.tm_rules.specs.Prelude.{IsFew};
ghost use Rattle.tm_policy.specs.FewTests.{is_short, has_short_lists};

use tm_list::Seq;
use tm_types::entry::Entry;
use tm_types::policy::{Domain, Namespace, Policy};

fn is_short(length: usize) -> bool
    ensures { result ≡ is_short length }
{
    length < 4_294_967_296
}

fn have_short_entries(domains: &[Domain]) -> bool
    ensures { result ≡ list_all
        (λ (domain : Domain). is_short (length domain.entries)) domains.now }
{
    for domain in domains {
        if !is_short(domain.entries.len()) {
            return false;
        }
    }
    true
}

fn are_short_groups(groups: &[(u8, Seq<Entry>)]) -> bool
    ensures { result ≡ list_all (λ (group : ℕ × List Entry). is_short (length group.1)) groups.now }
{
    for (_, entries) in groups {
        if !is_short(entries.len()) {
            return false;
        }
    }
    true
}

fn have_short_lists(namespaces: &[Namespace]) -> bool
    ensures { result ≡ list_all has_short_lists namespaces.now }
{
    for namespace in namespaces {
        if !is_short(namespace.groups.paths.len())
            || !are_short_groups(namespace.acl_groups.as_slice())
        {
            return false;
        }
    }
    true
}

/// Whether the places of all lists of the policy fit a u32, as verdicts and runs write them.
#[tactic(auto, using(crate::proofs::FewLaws::few_by_tests, crate::proofs::FewLaws::tests_by_few))]
pub fn is_few(policy: &Policy) -> bool
    ensures { IsTrue result ↔ IsFew policy.now }
{
    is_short(policy.domains.len())
        && have_short_entries(policy.domains.as_slice())
        && have_short_lists(policy.namespaces.as_slice())
}
