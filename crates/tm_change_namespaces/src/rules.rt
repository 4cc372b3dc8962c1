//! What an exception line does.
ghost use Rattle.std.specs.Prelude.{◌≡◌, ◌<◌, true, length, OnOk, OnErr};
ghost use Rattle.std.specs.List.{AllByRecursion};
ghost use Rattle.tm_rules.specs.Prelude.{IsFewHere, changed_at, except_added, except_removed, except_there, in_namespace};
ghost use Rattle.tm_change_namespaces.specs.Named.{named};

use crate::alike::{is_pair_there, is_there, join, leave, leave_pair};
use crate::namespaces::{Change, find_namespace, in_namespace, namespace_place};
use std::alloc::Global;
use tm_list::{NoMemory, Seq};
use tm_types::policy::{ExceptRule, Namespace};
use tm_word::Text;

impl Change for ExceptRule {
    ghost use Rattle.tm_rules.specs.Prelude.{except_added};

    ghost changed = { except_added };

    #[tactic(auto, unfolding(tm_rules::specs::Edit::except_added))]
    fn change(self, _alloc: Global, namespace: &mut Namespace) -> Result<(), NoMemory> {
        match self {
            ExceptRule::PathGroup(name, member) => join(
                &mut namespace.groups.paths,
                (name, member),
            ),
            ExceptRule::NumberGroup(name, member) => {
                join(&mut namespace.groups.numbers, (name, member))
            }
            ExceptRule::AddressGroup(name, member) => {
                join(&mut namespace.groups.addrs, (name, member))
            }
            ExceptRule::Aggregator(first, second) => {
                join(&mut namespace.aggregators, (first, second))
            }
            ExceptRule::Control(control) => join(&mut namespace.controls, control),
            ExceptRule::Acl(_, _) => Ok(()),
        }
    }
}

/// Adds what an exception line says to the namespace of that name, which is made last where it
/// isn't there. What is there already stays where it is. The line of an ACL group adds nothing: it
/// is read first, and is then a group line.
///
/// Errors: want of memory, also where a list would have 2^32 members; the namespaces are then as
/// before.
pub fn add_rule(
    alloc: Global,
    namespaces: &mut Seq<Namespace>,
    name: Text,
    rule: ExceptRule,
) -> Result<(), NoMemory>
    ensures done { OnOk result
        (namespaces.new ≡ in_namespace name (except_added rule) namespaces.old) }
    ensures kept { OnErr result (namespaces.new ≡ namespaces.old) }
    ensures few { AllByRecursion IsFewHere namespaces.old
        → AllByRecursion IsFewHere namespaces.new }
{
    in_namespace(alloc, namespaces, name, rule)
}

// Whether a namespace has what an exception line says.
#[tactic(auto, unfolding(tm_rules::specs::Edit::except_there))]
fn rule_there(namespace: &Namespace, rule: &ExceptRule) -> bool
    ensures { result ≡ except_there rule.now namespace.now }
{
    match rule {
        ExceptRule::PathGroup(name, member) => {
            is_pair_there(name, member, namespace.groups.paths.as_slice())
        }
        ExceptRule::NumberGroup(name, member) => {
            is_pair_there(name, member, namespace.groups.numbers.as_slice())
        }
        ExceptRule::AddressGroup(name, member) => {
            is_pair_there(name, member, namespace.groups.addrs.as_slice())
        }
        ExceptRule::Aggregator(first, second) => {
            is_pair_there(first, second, namespace.aggregators.as_slice())
        }
        ExceptRule::Control(control) => is_there(control, namespace.controls.as_slice()),
        ExceptRule::Acl(_, _) => false,
    }
}

/// Whether the namespace of that name has what an exception line says; one of which nothing was
/// written has nothing. Takes no memory.
#[tactic(auto, using(crate::proofs::Exceptions::there_nowhere))]
pub fn has_rule(namespaces: &[Namespace], name: &[u8], rule: &ExceptRule) -> bool
    ensures { result ≡ except_there rule.now (named name.now namespaces.now) }
{
    match find_namespace(namespaces, name) {
        Some(namespace) => rule_there(namespace, rule),
        None => false,
    }
}

// Takes what an exception line says out of a namespace.
#[tactic(auto, unfolding(tm_rules::specs::Edit::except_removed))]
fn take_out(namespace: &mut Namespace, rule: &ExceptRule)
    ensures done { namespace.new ≡ except_removed rule.now namespace.old }
    ensures few { IsFewHere namespace.old → IsFewHere namespace.new }
{
    match rule {
        ExceptRule::PathGroup(name, member) => leave_pair(
            &mut namespace.groups.paths,
            name,
            member,
        ),
        ExceptRule::NumberGroup(name, member) => {
            leave_pair(&mut namespace.groups.numbers, name, member);
        }
        ExceptRule::AddressGroup(name, member) => {
            leave_pair(&mut namespace.groups.addrs, name, member);
        }
        ExceptRule::Aggregator(first, second) => {
            leave_pair(&mut namespace.aggregators, first, second);
        }
        ExceptRule::Control(control) => leave(&mut namespace.controls, control),
        ExceptRule::Acl(_, _) => {}
    }
}

// Takes what an exception line says out of the namespace at this place.
fn take_out_at(namespaces: &mut Seq<Namespace>, place: usize, rule: &ExceptRule)
    requires { place < length namespaces.old }
    ensures done { namespaces.new ≡ changed_at place (except_removed rule.now) namespaces.old }
    ensures few { AllByRecursion IsFewHere namespaces.old
        → AllByRecursion IsFewHere namespaces.new }
{
    let mut list = namespaces.take();
    take_out(&mut list[place], rule);
    *namespaces = Seq::from_vec(list);
}

/// Takes what an exception line says out of the namespace of that name, which has it, as `has_rule`
/// tells. The others stay where they are. Takes no memory.
pub fn remove_rule(namespaces: &mut Seq<Namespace>, name: &[u8], rule: &ExceptRule)
    requires { except_there rule.now (named name.now namespaces.old) ≡ true }
    ensures done { namespaces.new ≡ in_namespace name.now (except_removed rule.now) namespaces.old }
    ensures few { AllByRecursion IsFewHere namespaces.old
        → AllByRecursion IsFewHere namespaces.new }
{
    if let Some(place) = namespace_place(namespaces.as_slice(), name) {
        take_out_at(namespaces, place, rule);
    }
}
