//! Manager lines, and who is a manager.
ghost use Rattle.std.specs.Prelude.{◌≡◌, ◌||◌, true, false, OnOk, OnErr, IfOk};
ghost use Rattle.std.specs.List.{list_any};
ghost use Rattle.tm_rules.specs.Types.{Editor, ManagerRule};
ghost use Rattle.tm_word.specs.Prelude.{spell, texts_equal};
ghost use Rattle.tm_rules.specs.Prelude.{Edited, IsFew, is_manager, joining, leaving, manager_line};
ghost use Rattle.tm_change_domains.specs.Kept.{KeptIfRefused};

use tm_list::{NoMemory, Seq};
use tm_types::policy::{Cursor, ManagerRule, Policy};
use tm_types::step::EditReply;
use tm_word::{Text, bytes_equal, spells, texts_equal};

// Whether this is a manager line.
fn has_manager(managers: &[Text], name: &Text) -> bool
    ensures { result ≡ list_any (texts_equal name.now) managers.now }
{
    for manager in managers {
        if texts_equal(name, manager) {
            return true;
        }
    }
    false
}

// A new manager line goes last; one that is there stays where it is.
fn add_manager(managers: &mut Seq<Text>, name: Text) -> Result<(), NoMemory>
    ensures done { OnOk result (managers.new ≡ joining texts_equal name managers.old) }
    ensures kept { OnErr result (managers.new ≡ managers.old) }
{
    if has_manager(managers.as_slice(), &name) {
        return Ok(());
    }
    managers.push(name)
}

// A manager line leaves.
fn remove_manager(managers: &mut Seq<Text>, name: &Text)
    ensures { managers.new ≡ leaving texts_equal name.now managers.old }
{
    let mut list = managers.take();
    list.retain(|manager| !texts_equal(name, manager));
    *managers = Seq::from_vec(list);
}

// Adds the manager line of a name.
#[tactic(auto, unfolding(tm_rules::specs::Edit::manager_line))]
fn add_name(policy: &mut Policy, cursor: Cursor, name: Text) -> Result<EditReply, NoMemory>
    ensures done { IfOk result
        (λ reply. manager_line policy.old cursor false (ManagerRule.Name name) ≡
        record { policy = policy.new; cursor = cursor; reply = reply }) }
    ensures refused { IfOk result (λ reply. KeptIfRefused reply policy.new policy.old) }
    ensures kept { OnErr result (policy.new ≡ policy.old) }
    ensures few { IsFew policy.old → IsFew policy.new }
{
    add_manager(&mut policy.managers, name)?;
    Ok(EditReply::Done)
}

// Deletes the manager line of a name.
#[tactic(auto, unfolding(tm_rules::specs::Edit::manager_line))]
fn delete_name(policy: &mut Policy, cursor: Cursor, name: &Text) -> EditReply
    ensures done { manager_line policy.old cursor true (ManagerRule.Name name.now) ≡
        record { policy = policy.new; cursor = cursor; reply = result } }
    ensures refused { KeptIfRefused result policy.new policy.old }
    ensures few { IsFew policy.old → IsFew policy.new }
{
    if !has_manager(policy.managers.as_slice(), name) {
        return EditReply::NoSuchLine;
    }
    remove_manager(&mut policy.managers, name);
    EditReply::Done
}

// Adds the manager line `manage_by_non_root`.
#[tactic(auto, unfolding(tm_rules::specs::Edit::manager_line))]
fn add_non_root(policy: &mut Policy, cursor: Cursor) -> EditReply
    ensures done { manager_line policy.old cursor false ManagerRule.ByNonRoot ≡
        record { policy = policy.new; cursor = cursor; reply = result } }
    ensures refused { KeptIfRefused result policy.new policy.old }
    ensures few { IsFew policy.old → IsFew policy.new }
{
    policy.by_non_root = true;
    EditReply::Done
}

// Deletes the manager line `manage_by_non_root`.
#[tactic(auto, unfolding(tm_rules::specs::Edit::manager_line))]
fn delete_non_root(policy: &mut Policy, cursor: Cursor) -> EditReply
    ensures done { manager_line policy.old cursor true ManagerRule.ByNonRoot ≡
        record { policy = policy.new; cursor = cursor; reply = result } }
    ensures refused { KeptIfRefused result policy.new policy.old }
    ensures few { IsFew policy.old → IsFew policy.new }
{
    if !policy.by_non_root {
        return EditReply::NoSuchLine;
    }
    policy.by_non_root = false;
    EditReply::Done
}

/// Does a line of the manager file, and gives its reply: a new line goes last, and deleting is
/// refused with `NoSuchLine` where the line isn't there. No line of this file moves a cursor.
///
/// Errors: want of memory; the policy is then as before.
pub fn apply_manager(
    policy: &mut Policy,
    cursor: Cursor,
    delete: bool,
    rule: ManagerRule,
) -> Result<EditReply, NoMemory>
    ensures done { IfOk result (λ reply. manager_line policy.old cursor delete rule ≡
        record { policy = policy.new; cursor = cursor; reply = reply }) }
    ensures refused { IfOk result (λ reply. KeptIfRefused reply policy.new policy.old) }
    ensures kept { OnErr result (policy.new ≡ policy.old) }
    ensures few { IsFew policy.old → IsFew policy.new }
{
    match rule {
        ManagerRule::ByNonRoot => {
            if delete {
                Ok(delete_non_root(policy, cursor))
            } else {
                Ok(add_non_root(policy, cursor))
            }
        }
        ManagerRule::Name(name) => {
            if delete {
                Ok(delete_name(policy, cursor, &name))
            } else {
                add_name(policy, cursor, name)
            }
        }
    }
}

// Whether a manager line names the editor's domain or its program.
fn is_named(managers: &[Text], domain: &[u8], exe: &[u8]) -> bool
    ensures { result ≡ list_any
        (λ line. texts_equal line domain.now || texts_equal line (spell exe.now)) managers.now }
{
    for manager in managers {
        if bytes_equal(manager.bytes(), domain) || spells(manager.bytes(), exe) {
            return true;
        }
    }
    false
}

/// Whether an editor with these ids, program and domain may edit the policy: root, or anybody where
/// `manage_by_non_root` stands, in a domain or by a program that is a manager line. Takes no
/// memory.
#[tactic(auto, unfolding(tm_rules::specs::Changes::is_manager))]
pub fn is_manager(policy: &Policy, domain: &[u8], uid: u32, euid: u32, exe: &[u8]) -> bool
    ensures { (editor : Editor) → editor.uid ≡ uid → editor.euid ≡ euid → editor.exe ≡ exe.now →
        editor.domain ≡ domain.now → result ≡ is_manager policy.now editor }
{
    (policy.by_non_root || uid == 0 && euid == 0)
        && is_named(policy.managers.as_slice(), domain, exe)
}
