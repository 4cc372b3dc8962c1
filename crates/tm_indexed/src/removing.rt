//! Lines that take something out: what is noted of it then.
ghost use Rattle.std.specs.Prelude.{◌≡◌, ◌<◌, length, true, Some, IsSome, IfOk, OnErr};
ghost use Rattle.tm_rules.specs.Types.{Domain, DomainRule};
ghost use Rattle.tm_rules.specs.Prelude.{IsFew, count, domain_at, domain_line};
ghost use Rattle.tm_index.specs.Index.{told, telling, IsIndexOf, HasDomain, counting_in};
ghost use Rattle.tm_indexed.specs.Gone.{gone_at, closing_if, IsChosen};

use crate::choosing::is_refused;
use crate::learning::look;
use crate::making::live_of;
use std::alloc::Global;
use tm_change_domains::{chosen, delete_known};
use tm_index::{Index, close_in, count_in, label_of, take_live};
use tm_learn::count;
use tm_list::NoMemory;
use tm_types::entry::Entry;
use tm_types::policy::{Cursor, Policy};
use tm_types::step::EditReply;
use tm_types::unions::DomainName;

/// The live domain of a name, found by the index, is live no more, as `delete_known` of
/// tm_change_domains does.
pub(crate) fn delete(
    policy: &mut Policy,
    index: &mut Index,
    cursor: &mut Cursor,
    name: &DomainName,
) -> EditReply
    requires few { IsFew policy.old }
    requires index { IsIndexOf index.old policy.old }
    ensures done { domain_line policy.old cursor.old (DomainRule.Delete name.now) ≡
        record { policy = policy.new; cursor = cursor.new; reply = result } }
    ensures few { IsFew policy.new }
    ensures index { IsIndexOf index.new policy.new }
{
    let home = live_of(policy, index, name);
    let reply = delete_known(policy, cursor, home, name);
    take_live(index, name);
    reply
}

/// The place of the entry that a line shares, where it has nothing left without the line's
/// permissions.
pub(crate) fn gone_at(entries: &[Entry], at: Option<usize>, line: &Entry) -> Option<u32>
    requires { length entries.now < 4294967296 }
    ensures { result ≡ gone_at entries.now at line.now }
{
    match at {
        Some(place) => match entries.get(place) {
            Some(entry) => {
                let bits = entry.perms.bits;
                if bits.saturating_sub(bits & line.perms.bits) == 0 {
                    Some(place as u32)
                } else {
                    None
                }
            }
            None => None,
        },
        None => None,
    }
}

// Notes how many permissions the domain of this number has.
fn note_count(policy: &Policy, index: &mut Index, number: u32)
    requires few { IsFew policy.now }
    requires within { HasDomain index.old number }
    requires there { IsSome (domain_at policy.now number) }
    ensures { (domain : Domain) → domain_at policy.now number ≡ Some domain →
        told index.new ≡ counting_in number (count domain) (told index.old) }
{
    match policy.domains.get(number as usize) {
        Some(domain) => count_in(index, number, count(domain)),
        None => unreachable!(),
    }
}

// Notes that the domain of this number has lost an entry, where it has, and how many permissions it
// has left.
fn note_left(policy: &Policy, index: &mut Index, number: u32, gone: Option<u32>)
    requires few { IsFew policy.now }
    requires within { HasDomain index.old number }
    requires there { IsSome (domain_at policy.now number) }
    ensures { (domain : Domain) → domain_at policy.now number ≡ Some domain →
        told index.new
        ≡ counting_in number (count domain) (closing_if number gone (told index.old)) }
{
    match gone {
        Some(place) => {
            close_in(index, number, place);
            note_count(policy, index, number);
        }
        None => note_count(policy, index, number),
    }
}

// Takes a line out of the entries of the chosen domain, of which was looked up whether the entry
// that it shares goes away.
fn remove_known(
    policy: &mut Policy,
    index: &mut Index,
    cursor: Cursor,
    number: u32,
    gone: Option<u32>,
    line: &Entry,
) -> EditReply
    requires few { IsFew policy.old }
    requires index { IsIndexOf index.old policy.old }
    requires within { HasDomain index.old number }
    requires known { IsChosen policy.old cursor number gone line.now }
    ensures done { domain_line policy.old cursor (DomainRule.Acl true line.now) ≡
        record { policy = policy.new; cursor = cursor; reply = result } }
    ensures few { IsFew policy.new }
    ensures index { IsIndexOf index.new policy.new }
{
    let reply = tm_change_domains::remove_acl(policy, cursor, line);
    if is_refused(reply) {
        return reply;
    }
    note_left(policy, index, number, gone);
    reply
}

/// Takes a line out of the entries of the chosen domain, as `remove_acl` of tm_change_domains does,
/// with the index of the policy.
///
/// Errors: want of memory; the policy is then as before.
#[tactic(auto, unfolding(tm_rules::specs::Edit::domain_line))]
pub(crate) fn remove_acl(
    alloc: Global,
    policy: &mut Policy,
    index: &mut Index,
    cursor: Cursor,
    line: &Entry,
) -> Result<EditReply, NoMemory>
    requires few { IsFew policy.old }
    requires index { IsIndexOf index.old policy.old }
    ensures done { IfOk result
        (λ reply. domain_line policy.old cursor (DomainRule.Acl true line.now) ≡
        record { policy = policy.new; cursor = cursor; reply = reply }) }
    ensures kept { OnErr result (policy.new ≡ policy.old) }
    ensures few { IsFew policy.new }
    ensures index { IsIndexOf index.new policy.new }
{
    match chosen(policy, cursor) {
        Some((number, domain)) => {
            let label = label_of(alloc, line)?;
            let looked = look(policy, index, number, &label, line);
            let gone = gone_at(domain.entries.as_slice(), looked.at, line);
            Ok(remove_known(policy, index, cursor, number, gone, line))
        }
        None => Ok(EditReply::NoDomain),
    }
}
