//! Lines that are added to the entries of a domain: what is noted of them.
ghost use Rattle.std.specs.Prelude.{◌≡◌, ◌<◌, ℕ, length, false, None, Some, IsSome, IfOk, OnOk, OnErr};
ghost use Rattle.tm_rules.specs.Types.{Domain, DomainRule};
ghost use Rattle.tm_rules.specs.Prelude.{IsFew, adding, domain_at, domain_line, with_domain};
ghost use Rattle.tm_index.specs.Labels.{label_of};
ghost use Rattle.tm_index.specs.Index.{told, telling, IsIndexOf, HasDomain};
ghost use Rattle.tm_indexed.specs.Looked.{IsLooked};

use crate::learning::{Looked, look};
use std::alloc::Global;
use tm_change_domains::{add_counted, chosen};
use tm_index::{Index, Label, count_in, label_of, note_in, take_last_in};
use tm_list::NoMemory;
use tm_types::entry::Entry;
use tm_types::policy::{Cursor, Policy};
use tm_types::step::EditReply;

// Adds a line that shares an entry of the domain: no place changes.
fn add_joined(
    policy: &mut Policy,
    index: &mut Index,
    number: u32,
    looked: Looked,
    line: Entry,
) -> Result<(), NoMemory>
    requires few { IsFew policy.old }
    requires there { IsSome (domain_at policy.old number) }
    requires index { IsIndexOf index.old policy.old }
    requires within { HasDomain index.old number }
    requires looked { (domain : Domain) → domain_at policy.old number ≡ Some domain
        → IsLooked looked domain line }
    requires joins { IsSome looked.at }
    ensures done { OnOk result ((domain : Domain) → domain_at policy.old number ≡ Some domain →
        policy.new
        ≡ with_domain policy.old number (record domain { entries = adding line domain.entries })) }
    ensures kept { OnErr result (policy.new ≡ policy.old) }
    ensures few { IsFew policy.new }
    ensures index { IsIndexOf index.new policy.new }
{
    match add_counted(policy, number, looked.permissions, looked.at, line) {
        Ok(permissions) => {
            count_in(index, number, permissions);
            Ok(())
        }
        Err(fault) => Err(fault),
    }
}

// Adds a line that shares no entry of the domain: it is noted first, and that is taken back where
// it can't be added.
fn add_new(
    alloc: Global,
    policy: &mut Policy,
    index: &mut Index,
    number: u32,
    looked: Looked,
    label: &Label,
    line: Entry,
) -> Result<(), NoMemory>
    requires few { IsFew policy.old }
    requires there { IsSome (domain_at policy.old number) }
    requires index { IsIndexOf index.old policy.old }
    requires within { HasDomain index.old number }
    requires looked { (domain : Domain) → domain_at policy.old number ≡ Some domain
        → IsLooked looked domain line }
    requires label { label.now ≡ label_of line }
    requires new { looked.at ≡ None }
    ensures done { OnOk result ((domain : Domain) → domain_at policy.old number ≡ Some domain →
        policy.new
        ≡ with_domain policy.old number (record domain { entries = adding line domain.entries })) }
    ensures kept { OnErr result (policy.new ≡ policy.old) }
    ensures few { IsFew policy.new }
    ensures index { IsIndexOf index.new policy.new }
{
    match note_in(alloc, index, number, looked.length, label) {
        Ok(()) => {}
        Err(fault) => {
            drop(line);
            return Err(fault);
        }
    }
    match add_counted(policy, number, looked.permissions, looked.at, line) {
        Ok(permissions) => {
            count_in(index, number, permissions);
            Ok(())
        }
        Err(fault) => {
            take_last_in(index, number, label);
            Err(fault)
        }
    }
}

// Adds a line to the entries of the domain of this number, which is there.
fn add_to(
    alloc: Global,
    policy: &mut Policy,
    index: &mut Index,
    number: u32,
    line: Entry,
) -> Result<(), NoMemory>
    requires few { IsFew policy.old }
    requires there { IsSome (domain_at policy.old number) }
    requires index { IsIndexOf index.old policy.old }
    ensures done { OnOk result ((domain : Domain) → domain_at policy.old number ≡ Some domain →
        policy.new
        ≡ with_domain policy.old number (record domain { entries = adding line domain.entries })) }
    ensures kept { OnErr result (policy.new ≡ policy.old) }
    ensures few { IsFew policy.new }
    ensures index { IsIndexOf index.new policy.new }
{
    let label = match label_of(alloc, &line) {
        Ok(label) => label,
        Err(fault) => {
            drop(line);
            return Err(fault);
        }
    };
    let looked = look(policy, index, number, &label, &line);
    match looked.at {
        Some(_) => add_joined(policy, index, number, looked, line),
        None => add_new(alloc, policy, index, number, looked, &label, line),
    }
}

/// Adds a line to the entries of the chosen domain, as `add_acl` of tm_change_domains does, with
/// the index of the policy.
#[tactic(auto, unfolding(tm_rules::specs::Edit::domain_line))]
pub(crate) fn add_acl(
    alloc: Global,
    policy: &mut Policy,
    index: &mut Index,
    cursor: Cursor,
    line: Entry,
) -> Result<EditReply, NoMemory>
    requires few { IsFew policy.old }
    requires index { IsIndexOf index.old policy.old }
    ensures done { IfOk result (λ reply. domain_line policy.old cursor (DomainRule.Acl false line) ≡
        record { policy = policy.new; cursor = cursor; reply = reply }) }
    ensures kept { OnErr result (policy.new ≡ policy.old) }
    ensures few { IsFew policy.new }
    ensures index { IsIndexOf index.new policy.new }
{
    match chosen(policy, cursor) {
        Some((number, _)) => {
            add_to(alloc, policy, index, number, line)?;
            Ok(EditReply::Done)
        }
        None => {
            drop(line);
            Ok(EditReply::NoDomain)
        }
    }
}
