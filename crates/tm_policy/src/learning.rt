//! Learns and Makes: what they look up in the policy, and what they do.
ghost use Rattle.std.specs.Prelude.{◌≡◌, Some, IsSome, IfOk, OnErr};
ghost use Rattle.tm_rules.specs.Prelude.{IsFew, learn, make};

use std::alloc::Global;
use tm_change_domains::{domain_at, learn_known, live_domain, make_known};
use tm_change_namespaces::change_entries::{entry_place, has_line};
use tm_learn::count;
use tm_list::NoMemory;
use tm_types::entry::Entry;
use tm_types::policy::Policy;
use tm_types::step::{LearnReply, MakeReply};
use tm_types::unions::DomainName;

/// Learns a line in the domain of this number, and gives the reply: `Mode` where the mode isn't
/// learning, else `There` where the domain has the line, else `Quota` where it is full, which
/// raises its flag `quota_exceeded`, else `Added`. The domain and its profile are there. Counts the
/// domain's permissions anew.
///
/// Errors: want of memory; the policy is then as before.
pub fn apply_learn(
    alloc: Global,
    policy: &mut Policy,
    domain: u32,
    entry: &Entry,
) -> Result<LearnReply, NoMemory>
    requires few { IsFew policy.old }
    requires there { IsSome (learn policy.old domain entry.now) }
    ensures done { IfOk result
        (λ reply. learn policy.old domain entry.now ≡ Some (policy.new, reply)) }
    ensures kept { OnErr result (policy.new ≡ policy.old) }
    ensures few { IsFew policy.new }
{
    match domain_at(policy, domain) {
        Some(found) => {
            let entries = found.entries.as_slice();
            let at = entry_place(entries, entry);
            let there = has_line(entries, entry);
            let permissions = count(found);
            let (reply, _) = learn_known(alloc, policy, domain, permissions, at, there, entry)?;
            Ok(reply)
        }
        None => unreachable!(),
    }
}

/// Makes a domain for a transition out of the domain of this number, whose profile and groups it
/// takes: the reply is its number. A live domain of that name is taken instead. The domain and its
/// profile are there.
///
/// Errors: want of memory, also where the policy would have 2^32 domains; the policy is then as
/// before.
pub fn apply_make(
    alloc: Global,
    policy: &mut Policy,
    domain: u32,
    name: DomainName,
) -> Result<MakeReply, NoMemory>
    requires few { IsFew policy.old }
    requires there { IsSome (make policy.old domain name) }
    ensures done { IfOk result (λ reply. make policy.old domain name ≡ Some (policy.new, reply)) }
    ensures kept { OnErr result (policy.new ≡ policy.old) }
    ensures few { IsFew policy.new }
{
    let home = live_domain(policy, &name);
    make_known(alloc, policy, domain, home, name)
}
