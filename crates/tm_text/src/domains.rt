//! Printing the domains.
ghost use Rattle.std.specs.Prelude.{◌≡◌, ◌++◌, IfOk, OnOk, OnErr};
ghost use Rattle.std.specs.List.{flat_map};
ghost use Rattle.tm_policy_line.specs.Printing.{quota_words, failed_words};
ghost use Rattle.tm_text.specs.DomainText.{flag_line, group_line, entry_line, name_lines, flag_lines, block_text, live_text, domain_text};

use crate::whole::append;
use std::alloc::Global;
use tm_list::NoMemory;
use tm_policy_line::{
    print_acl_line, print_failed_line, print_group_line, print_name_line, print_profile_line,
    print_quota_line,
};
use tm_types::entry::Entry;
use tm_types::policy::{Domain, Policy};

/// Appends the lines of the ACL groups that a domain uses, or a part of them.
fn push_groups(alloc: Global, groups: &[(u8, ())], out: &mut Vec<u8>) -> Result<(), NoMemory>
    ensures { OnOk result (out.new.items ≡ out.old.items ++ flat_map group_line groups.now) }
{
    for (group, _) in groups {
        print_group_line(alloc, *group, out)?;
    }
    Ok(())
}

/// Appends the lines of entries, or a part of them.
fn push_entries(alloc: Global, entries: &[Entry], out: &mut Vec<u8>) -> Result<(), NoMemory>
    ensures { OnOk result (out.new.items ≡ out.old.items ++ flat_map entry_line entries.now) }
{
    for entry in entries {
        print_acl_line(alloc, entry, out)?;
    }
    Ok(())
}

/// Appends the name and the profile of a domain, or a part of them.
fn push_name(alloc: Global, domain: &Domain, out: &mut Vec<u8>) -> Result<(), NoMemory>
    ensures { OnOk result (out.new.items ≡ out.old.items ++ name_lines domain.now) }
{
    print_name_line(&domain.name, out)?;
    print_profile_line(alloc, domain.profile, out)
}

/// Appends `quota_exceeded` where that flag is set.
fn push_quota(flag: bool, out: &mut Vec<u8>) -> Result<(), NoMemory>
    ensures { OnOk result (out.new.items ≡ out.old.items ++ flag_line quota_words flag) }
{
    if flag { print_quota_line(out) } else { Ok(()) }
}

/// Appends `transition_failed` where that flag is set.
fn push_failed(flag: bool, out: &mut Vec<u8>) -> Result<(), NoMemory>
    ensures { OnOk result (out.new.items ≡ out.old.items ++ flag_line failed_words flag) }
{
    if flag { print_failed_line(out) } else { Ok(()) }
}

/// Appends the flags of a domain that are set, or a part of them.
fn push_flags(domain: &Domain, out: &mut Vec<u8>) -> Result<(), NoMemory>
    ensures { OnOk result (out.new.items ≡ out.old.items ++ flag_lines domain.now) }
{
    push_quota(domain.quota_exceeded, out)?;
    push_failed(domain.transition_failed, out)
}

/// Appends the lines of a domain, or a part of them.
#[tactic(auto, unfolding(crate::specs::DomainText::block_text))]
fn push_block(alloc: Global, domain: &Domain, out: &mut Vec<u8>) -> Result<(), NoMemory>
    ensures { OnOk result (out.new.items ≡ out.old.items ++ block_text domain.now) }
{
    push_name(alloc, domain, out)?;
    push_groups(alloc, domain.groups.as_slice(), out)?;
    push_flags(domain, out)?;
    push_entries(alloc, domain.entries.as_slice(), out)?;
    out.push(b'\n')?;
    Ok(())
}

/// Appends the lines of a domain that is live, or a part of them.
fn push_live(alloc: Global, domain: &Domain, out: &mut Vec<u8>) -> Result<(), NoMemory>
    ensures { OnOk result (out.new.items ≡ out.old.items ++ live_text domain.now) }
{
    if domain.live {
        push_block(alloc, domain, out)
    } else {
        Ok(())
    }
}

/// Appends the lines of the live domains among these, or a part of them.
fn push_domains(alloc: Global, domains: &[Domain], out: &mut Vec<u8>) -> Result<(), NoMemory>
    ensures { OnOk result (out.new.items ≡ out.old.items ++ flat_map live_text domains.now) }
{
    for domain in domains {
        push_live(alloc, domain, out)?;
    }
    Ok(())
}

/// The text of the domains.
#[tactic(auto, unfolding(crate::specs::DomainText::domain_text))]
fn domain_text(alloc: Global, policy: &Policy) -> Result<Vec<u8>, NoMemory>
    ensures { IfOk result (λ text. text.items ≡ domain_text policy.now) }
{
    let mut text = Vec::new(alloc);
    push_domains(alloc, policy.domains.as_slice(), &mut text)?;
    Ok(text)
}

/// Appends the printed domain policy: for each live domain, by its number, its name, `use_profile
/// N`, `use_group N` by rising number, `quota_exceeded` and `transition_failed` where they are set,
/// its entries in order, and an empty line. After want of memory `out` is as before.
pub fn print_domain(alloc: Global, policy: &Policy, out: &mut Vec<u8>) -> Result<(), NoMemory>
    ensures ok { OnOk result (out.new.items ≡ out.old.items ++ domain_text policy.now) }
    ensures err { OnErr result (out.new.items ≡ out.old.items) }
{
    let text = domain_text(alloc, policy)?;
    append(text, out)
}
