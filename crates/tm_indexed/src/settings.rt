//! Lines of the profile and the exception file: a namespace that they make has no ACL groups.
ghost use Rattle.std.specs.Prelude.{◌≡◌, true, IfOk, OnErr};
ghost use Rattle.tm_rules.specs.Types.{PolicyLine};
ghost use Rattle.tm_rules.specs.Prelude.{IsFew, apply_read};
ghost use Rattle.tm_index.specs.Index.{told, telling, IsIndexOf};
ghost use Rattle.tm_indexed.specs.Kinds.{is_setting};

use std::alloc::Global;
use tm_index::{Index, note_namespace, take_namespace};
use tm_list::NoMemory;
use tm_policy::apply_read;
use tm_types::policy::{Cursor, Policy, PolicyLine};
use tm_types::step::EditReply;

/// Does a line of the profile file, or one of the exception file that isn't of an ACL group. A
/// namespace is noted first, and that is taken back where the line makes none.
pub(crate) fn edit_setting(
    alloc: Global,
    policy: &mut Policy,
    index: &mut Index,
    cursor: &mut Cursor,
    line: PolicyLine,
) -> Result<EditReply, NoMemory>
    requires few { IsFew policy.old }
    requires index { IsIndexOf index.old policy.old }
    requires setting { is_setting line ≡ true }
    ensures done { IfOk result (λ reply. apply_read policy.old cursor.old line ≡
        record { policy = policy.new; cursor = cursor.new; reply = reply }) }
    ensures kept { OnErr result ((policy.new ≡ policy.old) × (cursor.new ≡ cursor.old)) }
    ensures few { IsFew policy.new }
    ensures index { IsIndexOf index.new policy.new }
{
    match note_namespace(alloc, index) {
        Ok(()) => {}
        Err(fault) => {
            drop(line);
            return Err(fault);
        }
    }
    let before = policy.namespaces.len();
    match apply_read(alloc, policy, cursor, line) {
        Ok(reply) => {
            if policy.namespaces.len() == before {
                take_namespace(index);
            }
            Ok(reply)
        }
        Err(fault) => {
            take_namespace(index);
            Err(fault)
        }
    }
}
