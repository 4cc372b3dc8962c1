//! Names that are chosen and selected.
ghost use Rattle.std.specs.Prelude.{◌≡◌, None, IfOk, OnErr};
ghost use Rattle.tm_rules.specs.Types.{DomainRule};
ghost use Rattle.tm_rules.specs.Prelude.{IsFew, domain_line, live_domain};
ghost use Rattle.tm_index.specs.Index.{told, telling, IsIndexOf};
ghost use Rattle.tm_indexed.specs.Kinds.{is_refused};

use crate::making::live_of;
use std::alloc::Global;
use tm_change_domains::{choose_known, select_known};
use tm_index::{Index, note_domain, take_domain};
use tm_list::{Copied, NoMemory};
use tm_types::policy::{Cursor, DomainRule, Policy};
use tm_types::step::EditReply;
use tm_types::unions::DomainName;

/// Whether a line was refused.
pub(crate) fn is_refused(reply: EditReply) -> bool
    ensures { result ≡ is_refused reply }
{
    match reply {
        EditReply::Done => false,
        _ => true,
    }
}

/// Selects the live domain of a name, found by the index, as `select_known` of tm_change_domains
/// does.
pub(crate) fn select(
    policy: &Policy,
    index: &Index,
    cursor: &mut Cursor,
    name: &DomainName,
) -> EditReply
    requires { IsIndexOf index.now policy.now }
    ensures { domain_line policy.now cursor.old (DomainRule.Select name.now) ≡
        record { policy = policy.now; cursor = cursor.new; reply = result } }
{
    let home = live_of(policy, index, name);
    select_known(policy, cursor, home, name)
}

// Chooses a name that no live domain has: the domain is noted first, and that is taken back where
// it isn't made.
fn choose_new(
    alloc: Global,
    policy: &mut Policy,
    index: &mut Index,
    cursor: &mut Cursor,
    name: DomainName,
) -> Result<EditReply, NoMemory>
    requires few { IsFew policy.old }
    requires index { IsIndexOf index.old policy.old }
    requires none { live_domain policy.old name ≡ None }
    ensures done { IfOk result
        (λ reply. domain_line policy.old cursor.old (DomainRule.Choose name) ≡
        record { policy = policy.new; cursor = cursor.new; reply = reply }) }
    ensures kept { OnErr result ((policy.new ≡ policy.old) × (cursor.new ≡ cursor.old)) }
    ensures few { IsFew policy.new }
    ensures index { IsIndexOf index.new policy.new }
{
    let key = name.copy(alloc)?;
    let place = policy.domains.len();
    note_domain(alloc, index, place as u32, &key)?;
    match choose_known(alloc, policy, cursor, None, name) {
        Ok(reply) => {
            if is_refused(reply) {
                take_domain(index, &key);
            }
            Ok(reply)
        }
        Err(fault) => {
            take_domain(index, &key);
            Err(fault)
        }
    }
}

/// Chooses the live domain of a name, found by the index, or makes it, as `choose_known` of
/// tm_change_domains does.
pub(crate) fn choose(
    alloc: Global,
    policy: &mut Policy,
    index: &mut Index,
    cursor: &mut Cursor,
    name: DomainName,
) -> Result<EditReply, NoMemory>
    requires few { IsFew policy.old }
    requires index { IsIndexOf index.old policy.old }
    ensures done { IfOk result
        (λ reply. domain_line policy.old cursor.old (DomainRule.Choose name) ≡
        record { policy = policy.new; cursor = cursor.new; reply = reply }) }
    ensures kept { OnErr result ((policy.new ≡ policy.old) × (cursor.new ≡ cursor.old)) }
    ensures few { IsFew policy.new }
    ensures index { IsIndexOf index.new policy.new }
{
    match live_of(policy, index, &name) {
        Some(home) => choose_known(alloc, policy, cursor, Some(home), name),
        None => choose_new(alloc, policy, index, cursor, name),
    }
}
