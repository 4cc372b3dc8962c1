//! Printing the profiles, namespace by namespace in the order of their names.
ghost use Rattle.std.specs.Prelude.{◌≡◌, ◌++◌, ◌≤◌, List, length, IfOk, OnOk, OnErr};
ghost use Rattle.std.specs.List.{flat_map};
ghost use Rattle.std.specs.List.Sorted.{IsPermutation};
ghost use Rattle.tm_rules.specs.Types.{Namespace};
ghost use Rattle.tm_text.specs.Order.{IsOrdered};
ghost use Rattle.tm_text.specs.ProfileText.{comes_before, with_namespace, placed, by_name, namespace_text, profile_text, lent, place_for};

use crate::whole::append;
use std::alloc::Global;
use tm_list::NoMemory;
use tm_profile::print_profiles;
use tm_types::policy::{Namespace, Policy};

/// Whether a text comes before another one by its bytes.
fn comes_before(left: &[u8], right: &[u8]) -> bool
    ensures { result ≡ comes_before left.now right.now }
{
    let mut left = left;
    let mut right = right;
    loop {
        match left {
            [] => return !right.is_empty(),
            [a, more @ ..] => match right {
                [] => return false,
                [b, others @ ..] => {
                    if *a != *b {
                        return *a < *b;
                    }
                    left = more;
                    right = others;
                }
            },
        }
    }
}

/// The place of the first namespace whose name comes after this one's; past the last where there is
/// none.
fn place_of(ns: &Namespace, ordered: &[&Namespace]) -> usize
    ensures within { result ≤ length ordered.now }
    ensures place { result ≡ place_for ns.now (lent ordered.now) }
{
    for (place, other) in ordered.iter().enumerate() {
        if comes_before(ns.name.bytes(), other.name.bytes()) {
            return place;
        }
    }
    ordered.len()
}

/// Puts a namespace into its place.
#[tactic(auto, using(crate::proofs::LentLaws::lent_placed))]
fn put_in_place<'a>(ordered: &mut Vec<&'a Namespace>, ns: &'a Namespace) -> Result<(), NoMemory>
    ensures { OnOk result
        (lent ordered.new.items ≡ with_namespace ns.now (lent ordered.old.items)) }
{
    let place = place_of(ns, ordered);
    ordered.insert(place, ns)?;
    Ok(())
}

/// The namespaces in the order of their names' bytes.
#[tactic(auto, unfolding(crate::specs::ProfileText::by_name))]
pub(crate) fn by_name(alloc: Global, namespaces: &[Namespace]) -> Result<Vec<&Namespace>, NoMemory>
    ensures { IfOk result (λ ordered. lent ordered.items ≡ by_name namespaces.now) }
{
    let mut ordered = Vec::new(alloc);
    for ns in namespaces {
        put_in_place(&mut ordered, ns)?;
    }
    Ok(ordered)
}

/// Appends the profiles of these namespaces, or a part of them.
fn push_namespaces(
    alloc: Global,
    namespaces: &[&Namespace],
    out: &mut Vec<u8>,
) -> Result<(), NoMemory>
    ensures { OnOk result
        (out.new.items ≡ out.old.items ++ flat_map namespace_text (lent namespaces.now)) }
{
    for ns in namespaces {
        print_profiles(alloc, &ns.name, &ns.profiles, out)?;
    }
    Ok(())
}

/// The text of the profiles.
#[tactic(auto, unfolding(crate::specs::ProfileText::profile_text))]
fn profile_text(alloc: Global, policy: &Policy) -> Result<Vec<u8>, NoMemory>
    ensures { IfOk result (λ text. text.items ≡ profile_text policy.now) }
{
    let mut text = Vec::new(alloc);
    let ordered = by_name(alloc, policy.namespaces.as_slice())?;
    push_namespaces(alloc, &ordered, &mut text)?;
    Ok(text)
}

/// Appends the printed profiles: for each namespace that has one, by the order of its name's bytes,
/// the line `PROFILE_VERSION` and the lines of its profiles by their numbers, each with the
/// namespace word in front. After want of memory `out` is as before.
pub fn print_profile(alloc: Global, policy: &Policy, out: &mut Vec<u8>) -> Result<(), NoMemory>
    ensures ok { OnOk result (out.new.items ≡ out.old.items ++ profile_text policy.now) }
    ensures err { OnErr result (out.new.items ≡ out.old.items) }
{
    let text = profile_text(alloc, policy)?;
    append(text, out)
}

/// The order of namespaces, as a law over all lists of them: each is kept, and none stands right
/// before one whose name comes first.
pub fn name_order()
    ensures kept { (namespaces : List Namespace) → IsPermutation namespaces (by_name namespaces) }
    ensures ordered { (namespaces : List Namespace) → IsOrdered (by_name namespaces) }
{}
