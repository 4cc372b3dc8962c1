//! Printing the exception policy, namespace by namespace in the order of their names.
ghost use Rattle.std.specs.Prelude.{◌≡◌, ◌++◌, IfOk, OnOk, OnErr};
ghost use Rattle.std.specs.List.{flat_map};
ghost use Rattle.tm_text.specs.ProfileText.{lent};
ghost use Rattle.tm_text.specs.ExceptionText.{acl_lines, exception_lines, exception_text};

use crate::profiles::by_name;
use crate::whole::append;
use std::alloc::Global;
use tm_except::print_lists;
use tm_list::{NoMemory, Seq};
use tm_policy_line::print_acl_group_line;
use tm_types::entry::Entry;
use tm_types::policy::{Namespace, Policy};
use tm_word::Text;

/// Appends the lines of the entries of an ACL group, or a part of them.
fn push_group(
    alloc: Global,
    name: &Text,
    number: u8,
    entries: &[Entry],
    out: &mut Vec<u8>,
) -> Result<(), NoMemory>
    ensures { OnOk result
        (out.new.items ≡ out.old.items ++ acl_lines name.now (number, entries.now)) }
{
    for entry in entries {
        print_acl_group_line(alloc, name, number, entry, out)?;
    }
    Ok(())
}

/// Appends the lines of ACL groups, or a part of them.
fn push_groups(
    alloc: Global,
    name: &Text,
    groups: &[(u8, Seq<Entry>)],
    out: &mut Vec<u8>,
) -> Result<(), NoMemory>
    ensures { OnOk result
        (out.new.items ≡ out.old.items ++ flat_map (acl_lines name.now) groups.now) }
{
    for (number, entries) in groups {
        push_group(alloc, name, *number, entries.as_slice(), out)?;
    }
    Ok(())
}

/// Appends the lines of a namespace, or a part of them.
#[tactic(auto, unfolding(crate::specs::ExceptionText::exception_lines))]
fn push_namespace(alloc: Global, ns: &Namespace, out: &mut Vec<u8>) -> Result<(), NoMemory>
    ensures { OnOk result (out.new.items ≡ out.old.items ++ exception_lines ns.now) }
{
    print_lists(alloc, ns, out)?;
    push_groups(alloc, &ns.name, ns.acl_groups.as_slice(), out)
}

/// Appends the lines of these namespaces, or a part of them.
fn push_namespaces(
    alloc: Global,
    namespaces: &[&Namespace],
    out: &mut Vec<u8>,
) -> Result<(), NoMemory>
    ensures { OnOk result
        (out.new.items ≡ out.old.items ++ flat_map exception_lines (lent namespaces.now)) }
{
    for ns in namespaces {
        push_namespace(alloc, ns, out)?;
    }
    Ok(())
}

/// The text of the exception policy.
#[tactic(auto, unfolding(crate::specs::ExceptionText::exception_text))]
fn exception_text(alloc: Global, policy: &Policy) -> Result<Vec<u8>, NoMemory>
    ensures { IfOk result (λ text. text.items ≡ exception_text policy.now) }
{
    let mut text = Vec::new(alloc);
    let ordered = by_name(alloc, policy.namespaces.as_slice())?;
    push_namespaces(alloc, &ordered, &mut text)?;
    Ok(text)
}

/// Appends the printed exception policy: for each namespace, by the order of its name's bytes, its
/// path groups, number groups, address groups, aggregators and controls, and then the entries of
/// its ACL groups by their numbers, each list in written order and each line with the namespace
/// word in front. After want of memory `out` is as before.
pub fn print_exception(alloc: Global, policy: &Policy, out: &mut Vec<u8>) -> Result<(), NoMemory>
    ensures ok { OnOk result (out.new.items ≡ out.old.items ++ exception_text policy.now) }
    ensures err { OnErr result (out.new.items ≡ out.old.items) }
{
    let text = exception_text(alloc, policy)?;
    append(text, out)
}
