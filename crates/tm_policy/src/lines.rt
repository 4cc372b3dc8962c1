//! What a line of any policy file does to a policy.
ghost use Rattle.std.specs.Prelude.{◌≡◌, IfOk, OnErr};
ghost use Rattle.tm_rules.specs.Types.{PolicyLine};
ghost use Rattle.tm_rules.specs.Prelude.{IsFew, apply_line, apply_read};
ghost use Rattle.tm_rep.specs.Tomoyo.{tomoyo_grammar};

use crate::exceptions::apply_exception;
use crate::groups::apply_group;
use std::alloc::{AllocError, Global};
use tm_change_domains::{apply_domain, apply_manager};
use tm_change_namespaces::apply_profile;
use tm_list::NoMemory;
use tm_rep::policy_line::read_line;
use tm_types::policy::{Cursor, Policy, PolicyLine, ProfileLine};
use tm_types::step::{EditReply, FileKind, LineFault};

// Does a line of the profile file.
#[tactic(auto, unfolding(tm_rules::specs::Edit::apply_read))]
fn apply_setting(
    alloc: Global,
    policy: &mut Policy,
    cursor: Cursor,
    line: ProfileLine,
) -> Result<EditReply, NoMemory>
    ensures done { IfOk result (λ reply. apply_read policy.old cursor (PolicyLine.Profile line) ≡
        record { policy = policy.new; cursor = cursor; reply = reply }) }
    ensures kept { OnErr result (policy.new ≡ policy.old) }
    ensures few { IsFew policy.old → IsFew policy.new }
{
    apply_profile(alloc, &mut policy.namespaces, line.namespace, line.effect)?;
    Ok(EditReply::Done)
}

/// Does a line that was read, with the cursor of its file or editor, and gives its reply: the line
/// is done, or refused by the policy as it stands. A refused line leaves the policy as it was.
///
/// Errors: want of memory, also where a list would have 2^32 members; policy and cursor are then as
/// before.
#[tactic(auto, unfolding(tm_rules::specs::Edit::apply_read))]
pub fn apply_read(
    alloc: Global,
    policy: &mut Policy,
    cursor: &mut Cursor,
    line: PolicyLine,
) -> Result<EditReply, NoMemory>
    requires { IsFew policy.old }
    ensures done { IfOk result (λ reply. apply_read policy.old cursor.old line ≡
        record { policy = policy.new; cursor = cursor.new; reply = reply }) }
    ensures kept { OnErr result ((policy.new ≡ policy.old) × (cursor.new ≡ cursor.old)) }
    ensures few { IsFew policy.new }
{
    match line {
        PolicyLine::Nothing => Ok(EditReply::Done),
        PolicyLine::Profile(line) => apply_setting(alloc, policy, *cursor, line),
        PolicyLine::Exception(line) => apply_exception(alloc, policy, *cursor, line),
        PolicyLine::Group(line) => apply_group(alloc, policy, *cursor, line),
        PolicyLine::Domain(rule) => apply_domain(alloc, policy, cursor, rule),
        PolicyLine::Manager(delete, rule) => apply_manager(policy, *cursor, delete, rule),
    }
}

/// Does a line of a policy file, whatever its bytes are, with the cursor of that file or editor,
/// and gives its reply: the line is done, or refused by the policy as it stands, or it is outside
/// the grammar, which the reply tells by its kind. A line that isn't done leaves the policy as it
/// was.
///
/// Errors: want of memory, also where a list would have 2^32 members; policy and cursor are then as
/// before.
#[tactic(auto, unfolding(tm_rules::specs::Edit::apply_line))]
pub fn apply_line(
    alloc: Global,
    policy: &mut Policy,
    file: FileKind,
    cursor: &mut Cursor,
    line: &[u8],
) -> Result<EditReply, NoMemory>
    requires { IsFew policy.old }
    ensures done { IfOk result
        (λ reply. apply_line tomoyo_grammar policy.old file cursor.old line.now ≡
        record { policy = policy.new; cursor = cursor.new; reply = reply }) }
    ensures kept { OnErr result ((policy.new ≡ policy.old) × (cursor.new ≡ cursor.old)) }
    ensures few { IsFew policy.new }
{
    match read_line(alloc, file, line) {
        Ok(read) => apply_read(alloc, policy, cursor, read),
        Err(LineFault::Kind(kind)) => Ok(EditReply::BadLine(kind)),
        Err(LineFault::NoMemory) => Err(AllocError),
    }
}
