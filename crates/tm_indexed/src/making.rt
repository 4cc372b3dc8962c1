//! Domains that are made: what is noted of them.
ghost use Rattle.std.specs.Prelude.{◌≡◌, None, Some, IsSome, IfOk, OnErr, slice_get};
ghost use Rattle.tm_rules.specs.Types.{Policy};
ghost use Rattle.tm_rules.specs.Prelude.{IsFew, fail, live_domain, make};
ghost use Rattle.tm_index.specs.Index.{told, telling, IsIndexOf};

use std::alloc::Global;
use tm_change_domains::{apply_fail, make_known};
use tm_index::{Index, live_noted, note_domain, take_domain};
use tm_list::{Copied, NoMemory};
use tm_types::policy::Policy;
use tm_types::step::MakeReply;
use tm_types::unions::DomainName;

// The first of some places.
fn first(places: &[u32]) -> Option<u32>
    ensures { result ≡ slice_get places.now 0 }
{
    match places {
        [first, ..] => Some(*first),
        [] => None,
    }
}

/// The number of the live domain of that name, found by the index. Takes no memory.
pub(crate) fn live_in(index: &Index, name: &DomainName) -> Option<u32>
    ensures { (policy : Policy) → IsIndexOf index.now policy
        → result ≡ live_domain policy name.now }
{
    first(live_noted(index, name))
}

/// The number of the live domain of that name in a policy, found by its index. Takes no memory.
pub(crate) fn live_of(policy: &Policy, index: &Index, name: &DomainName) -> Option<u32>
    requires { IsIndexOf index.now policy.now }
    ensures { result ≡ live_domain policy.now name.now }
{
    live_in(index, name)
}

// Makes a domain where no live one has its name: it is noted first, and that is taken back where it
// can't be made.
fn make_new(
    alloc: Global,
    policy: &mut Policy,
    index: &mut Index,
    number: u32,
    name: DomainName,
) -> Result<MakeReply, NoMemory>
    requires few { IsFew policy.old }
    requires there { IsSome (make policy.old number name) }
    requires index { IsIndexOf index.old policy.old }
    requires none { live_domain policy.old name ≡ None }
    ensures done { IfOk result (λ reply. make policy.old number name ≡ Some (policy.new, reply)) }
    ensures kept { OnErr result (policy.new ≡ policy.old) }
    ensures few { IsFew policy.new }
    ensures index { IsIndexOf index.new policy.new }
{
    let key = name.copy(alloc)?;
    let place = policy.domains.len();
    note_domain(alloc, index, place as u32, &key)?;
    match make_known(alloc, policy, number, None, name) {
        Ok(reply) => Ok(reply),
        Err(fault) => {
            take_domain(index, &key);
            Err(fault)
        }
    }
}

/// Makes a domain for a transition, as `apply_make` of tm_policy does, with the index of the
/// policy.
pub(crate) fn make(
    alloc: Global,
    policy: &mut Policy,
    index: &mut Index,
    number: u32,
    name: DomainName,
) -> Result<MakeReply, NoMemory>
    requires few { IsFew policy.old }
    requires there { IsSome (make policy.old number name) }
    requires index { IsIndexOf index.old policy.old }
    ensures done { IfOk result (λ reply. make policy.old number name ≡ Some (policy.new, reply)) }
    ensures kept { OnErr result (policy.new ≡ policy.old) }
    ensures few { IsFew policy.new }
    ensures index { IsIndexOf index.new policy.new }
{
    match live_in(index, &name) {
        Some(home) => make_known(alloc, policy, number, Some(home), name),
        None => make_new(alloc, policy, index, number, name),
    }
}

/// Marks the domain of this number as one that a transition couldn't leave, as `apply_fail` of
/// tm_policy does: nothing of it is noted.
pub(crate) fn mark_failed(policy: &mut Policy, index: &Index, number: u32) -> bool
    requires few { IsFew policy.old }
    requires there { IsSome (fail policy.old number) }
    requires index { IsIndexOf index.now policy.old }
    ensures done { fail policy.old number ≡ Some (policy.new, result) }
    ensures few { IsFew policy.new }
    ensures index { IsIndexOf index.now policy.new }
{
    apply_fail(policy, number)
}
