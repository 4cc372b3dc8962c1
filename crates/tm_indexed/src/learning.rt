//! Learns: what the index finds, what is done to the policy, and what is noted of it.
ghost use Rattle.std.specs.Prelude.{◌≡◌, ◌<◌, ℕ, length, None, Some, IsSome, IfOk, OnErr};
ghost use Rattle.tm_rules.specs.Types.{Domain, Policy};
ghost use Rattle.tm_rules.specs.Prelude.{IsFew, domain_at, fail, learn, live_domain, make};
ghost use Rattle.tm_index.specs.Labels.{label_of};
ghost use Rattle.tm_index.specs.Index.{told, telling, IsIndexOf, HasDomain};
ghost use Rattle.tm_indexed.specs.Looked.{IsLooked};

use std::alloc::Global;
use tm_change_domains::learn_known;
use tm_index::{Index, Label, count_in, domain_noted, label_of, note_in, take_last_in};
use tm_list::NoMemory;
use tm_types::entry::Entry;
use tm_types::policy::Policy;
use tm_types::step::LearnReply;

/// What was looked up of a line in a domain: how many entries and permissions the domain has, where
/// the entry stands that the line shares, and whether the whole line is there.
#[derive(Clone, Copy)]
pub(crate) struct Looked {
    pub(crate) length: u32,
    pub(crate) permissions: u64,
    pub(crate) at: Option<usize>,
    pub(crate) there: bool,
}

/// Looks a line up in the domain of this number, which is there. Takes no memory.
pub(crate) fn look(
    policy: &Policy,
    index: &Index,
    number: u32,
    label: &Label,
    line: &Entry,
) -> Looked
    requires few { IsFew policy.now }
    requires there { IsSome (domain_at policy.now number) }
    requires index { IsIndexOf index.now policy.now }
    requires label { label.now ≡ label_of line.now }
    ensures looked { (domain : Domain) → domain_at policy.now number ≡ Some domain
        → IsLooked result domain line.now }
    ensures within { HasDomain index.now number }
{
    match policy.domains.get(number as usize) {
        Some(domain) => match domain_noted(index, number) {
            Some(noted) => {
                let entries = domain.entries.as_slice();
                let (at, there) = noted.own.line_place(entries, label, line);
                Looked {
                    length: entries.len() as u32,
                    permissions: noted.permissions,
                    at,
                    there,
                }
            }
            None => unreachable!(),
        },
        None => unreachable!(),
    }
}

// Learns a line that shares an entry of the domain: no place changes.
fn learn_joined(
    alloc: Global,
    policy: &mut Policy,
    index: &mut Index,
    number: u32,
    looked: Looked,
    line: &Entry,
) -> Result<LearnReply, NoMemory>
    requires few { IsFew policy.old }
    requires there { IsSome (learn policy.old number line.now) }
    requires index { IsIndexOf index.old policy.old }
    requires within { HasDomain index.old number }
    requires looked { (domain : Domain) → domain_at policy.old number ≡ Some domain
        → IsLooked looked domain line.now }
    requires joins { IsSome looked.at }
    ensures done { IfOk result
        (λ reply. learn policy.old number line.now ≡ Some (policy.new, reply)) }
    ensures kept { OnErr result (policy.new ≡ policy.old) }
    ensures few { IsFew policy.new }
    ensures index { IsIndexOf index.new policy.new }
{
    match learn_known(
        alloc,
        policy,
        number,
        looked.permissions,
        looked.at,
        looked.there,
        line,
    ) {
        Ok((reply, permissions)) => {
            count_in(index, number, permissions);
            Ok(reply)
        }
        Err(fault) => Err(fault),
    }
}

// Learns a line that shares no entry of the domain: it is noted first, and that is taken back where
// it isn't added.
fn learn_new(
    alloc: Global,
    policy: &mut Policy,
    index: &mut Index,
    number: u32,
    looked: Looked,
    label: &Label,
    line: &Entry,
) -> Result<LearnReply, NoMemory>
    requires few { IsFew policy.old }
    requires there { IsSome (learn policy.old number line.now) }
    requires index { IsIndexOf index.old policy.old }
    requires within { HasDomain index.old number }
    requires looked { (domain : Domain) → domain_at policy.old number ≡ Some domain
        → IsLooked looked domain line.now }
    requires label { label.now ≡ label_of line.now }
    requires new { looked.at ≡ None }
    ensures done { IfOk result
        (λ reply. learn policy.old number line.now ≡ Some (policy.new, reply)) }
    ensures kept { OnErr result (policy.new ≡ policy.old) }
    ensures few { IsFew policy.new }
    ensures index { IsIndexOf index.new policy.new }
{
    note_in(alloc, index, number, looked.length, label)?;
    match learn_known(
        alloc,
        policy,
        number,
        looked.permissions,
        looked.at,
        looked.there,
        line,
    ) {
        Ok((LearnReply::Added, permissions)) => {
            count_in(index, number, permissions);
            Ok(LearnReply::Added)
        }
        Ok((LearnReply::Quota, _)) => {
            take_last_in(index, number, label);
            Ok(LearnReply::Quota)
        }
        Ok((LearnReply::There, _)) => {
            take_last_in(index, number, label);
            Ok(LearnReply::There)
        }
        Ok((LearnReply::Mode, _)) => {
            take_last_in(index, number, label);
            Ok(LearnReply::Mode)
        }
        Err(fault) => {
            take_last_in(index, number, label);
            Err(fault)
        }
    }
}

/// Learns a line in the domain of this number, as `apply_learn` of tm_policy does, with the index
/// of the policy.
pub(crate) fn learn(
    alloc: Global,
    policy: &mut Policy,
    index: &mut Index,
    number: u32,
    line: &Entry,
) -> Result<LearnReply, NoMemory>
    requires few { IsFew policy.old }
    requires there { IsSome (learn policy.old number line.now) }
    requires index { IsIndexOf index.old policy.old }
    ensures done { IfOk result
        (λ reply. learn policy.old number line.now ≡ Some (policy.new, reply)) }
    ensures kept { OnErr result (policy.new ≡ policy.old) }
    ensures few { IsFew policy.new }
    ensures index { IsIndexOf index.new policy.new }
{
    let label = label_of(alloc, line)?;
    let looked = look(policy, index, number, &label, line);
    match looked.at {
        Some(_) => learn_joined(alloc, policy, index, number, looked, line),
        None => learn_new(alloc, policy, index, number, looked, &label, line),
    }
}
