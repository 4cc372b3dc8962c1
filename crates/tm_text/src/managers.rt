//! Printing the managers.
ghost use Rattle.std.specs.Prelude.{◌≡◌, ◌++◌, IfOk, OnOk, OnErr};
ghost use Rattle.std.specs.List.{flat_map};
ghost use Rattle.tm_policy_line.specs.Printing.{non_root_words};
ghost use Rattle.tm_text.specs.DomainText.{flag_line};
ghost use Rattle.tm_text.specs.ManagerText.{manager_line, manager_text};

use crate::whole::append;
use std::alloc::Global;
use tm_list::NoMemory;
use tm_policy_line::{print_manager_line, print_non_root_line};
use tm_types::policy::Policy;
use tm_word::Text;

/// Appends `manage_by_non_root` where that flag is set.
fn push_non_root(flag: bool, out: &mut Vec<u8>) -> Result<(), NoMemory>
    ensures { OnOk result (out.new.items ≡ out.old.items ++ flag_line non_root_words flag) }
{
    if flag {
        print_non_root_line(out)
    } else {
        Ok(())
    }
}

/// Appends the lines of managers, or a part of them.
fn push_managers(managers: &[Text], out: &mut Vec<u8>) -> Result<(), NoMemory>
    ensures { OnOk result (out.new.items ≡ out.old.items ++ flat_map manager_line managers.now) }
{
    for name in managers {
        print_manager_line(name, out)?;
    }
    Ok(())
}

/// The text of the managers.
#[tactic(auto, unfolding(crate::specs::ManagerText::manager_text))]
fn manager_text(alloc: Global, policy: &Policy) -> Result<Vec<u8>, NoMemory>
    ensures { IfOk result (λ text. text.items ≡ manager_text policy.now) }
{
    let mut text = Vec::new(alloc);
    push_non_root(policy.by_non_root, &mut text)?;
    push_managers(policy.managers.as_slice(), &mut text)?;
    Ok(text)
}

/// Appends the printed manager file: `manage_by_non_root` where it stands, then the domain names
/// and the programs' paths in written order, each on a line. After want of memory `out` is as
/// before.
pub fn print_manager(alloc: Global, policy: &Policy, out: &mut Vec<u8>) -> Result<(), NoMemory>
    ensures ok { OnOk result (out.new.items ≡ out.old.items ++ manager_text policy.now) }
    ensures err { OnErr result (out.new.items ≡ out.old.items) }
{
    let text = manager_text(alloc, policy)?;
    append(text, out)
}
