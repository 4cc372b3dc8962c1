//! The lines of four files, one after another, and the opening of the policy that they give.
ghost use Rattle.std.specs.Prelude.{◌≡◌, ◌∷◌, suc, List, IfOk, MatchResult};
ghost use Rattle.std.specs.List.{position_from};
ghost use Rattle.tm_word.specs.Prelude.{Fails, Gives, GivesNow, Text};
ghost use Rattle.tm_rules.specs.Prelude.{IsFew, IsShort, is_done, load, load_file, load_lines, open_policy, wants_profile};
ghost use Rattle.tm_rep.specs.Tomoyo.{tomoyo_grammar};
ghost use Rattle.tm_policy.specs.Loading.{load_cause, all_lines};

use crate::opening::PolicyCalls;
use crate::plain::Plain;
use std::alloc::Global;
use tm_change_domains::profile_of;
use tm_rep::Rep;
use tm_types::policy::{Cursor, Domain, Policy};
use tm_types::step::{EditReply, FileKind, LoadFault, PolicyFiles};
use tm_word::cut_at;

// Whether a line was done.
fn is_done(reply: EditReply) -> bool
    ensures { result ≡ is_done reply }
{
    match reply {
        EditReply::Done => true,
        _ => false,
    }
}

// Does the line with this number, which has to be done.
#[tactic(auto, unfolding(tm_rules::specs::Load::load_lines))]
fn load_line<R: Rep>(
    alloc: Global,
    file: FileKind,
    number: u64,
    line: &[u8],
    rep: &mut R,
    cursor: &mut Cursor,
) -> Result<(), LoadFault>
    requires { IsFew (R.policy rep.old) }
    ensures done { MatchResult result
        (λ _. (lines : List Text) →
        load_lines tomoyo_grammar file number (line.now ∷ lines) (R.policy rep.old) cursor.old ≡
        load_lines tomoyo_grammar file (suc number) lines (R.policy rep.new) cursor.new)
        (λ fault. (lines : List Text) →
        Fails (load_cause fault)
        (load_lines tomoyo_grammar file number (line.now ∷ lines) (R.policy rep.old) cursor.old)) }
    ensures few { IsFew (R.policy rep.new) }
{
    match rep.apply_line(alloc, file, cursor, line) {
        Ok(reply) => {
            if is_done(reply) {
                Ok(())
            } else {
                Err(LoadFault::Line(file, number, reply))
            }
        }
        Err(_) => Err(LoadFault::NoMemory),
    }
}

// Does all lines of a file, the first of which has number 1, with an empty cursor at first.
#[tactic(auto, unfolding(tm_rules::specs::Load::load_lines))]
fn load_file<R: Rep>(alloc: Global, file: FileKind, text: &[u8], start: R) -> Result<R, LoadFault>
    requires { IsFew (R.policy start) }
    ensures exact { Gives load_cause R.policy result
        (load_file tomoyo_grammar file text.now (R.policy start)) }
    ensures few { IfOk result (λ rep. IsFew (R.policy rep)) }
{
    let mut rep = start;
    let mut cursor = None;
    let mut rest = text;
    let mut number = 1;
    while let Some((line, after)) = cut_at(b'\n', rest) {
        load_line(alloc, file, number, line, &mut rep, &mut cursor)?;
        rest = after;
        number += 1;
    }
    load_line(alloc, file, number, rest, &mut rep, &mut cursor)?;
    Ok(rep)
}

// Whether a domain is live and its profile isn't defined.
fn wants_profile(policy: &Policy, domain: &Domain) -> bool
    ensures { result ≡ wants_profile policy.now domain.now }
{
    domain.live && profile_of(policy, domain).is_none()
}

/// The number of the first live domain whose profile isn't defined. Takes no memory.
pub fn first_without_profile(policy: &Policy) -> Option<u32>
    requires { IsShort policy.now.domains }
    ensures { result ≡ position_from (wants_profile policy.now) 0 policy.now.domains }
{
    for (place, domain) in policy.domains.as_slice().iter().enumerate() {
        if wants_profile(policy, domain) {
            return Some(place as u32);
        }
    }
    None
}

/// Does the lines of these files on any representation of a policy: those of the profile, the
/// exception, the domain and the manager file, in this order, each file with an empty cursor at
/// first, and each line has to be done.
///
/// Errors: the first line that isn't done, with its file, its number from 1 and its reply; or want
/// of memory, also where a list would have 2^32 members.
pub fn load_into<R: Rep>(alloc: Global, rep: R, files: &PolicyFiles) -> Result<R, LoadFault>
    requires { IsFew (R.policy rep) }
    ensures exact { Gives load_cause R.policy result
        (all_lines tomoyo_grammar files.now (R.policy rep)) }
    ensures few { IfOk result (λ rep. IsFew (R.policy rep)) }
{
    let rep = load_file(alloc, FileKind::Profile, files.profile.bytes(), rep)?;
    let rep = load_file(alloc, FileKind::Exception, files.exception.bytes(), rep)?;
    let rep = load_file(alloc, FileKind::Domain, files.domain.bytes(), rep)?;
    load_file(alloc, FileKind::Manager, files.manager.bytes(), rep)
}

// Opens a policy in which each live domain has its profile.
fn open(mut policy: Policy) -> Result<Policy, LoadFault>
    requires { IsFew policy }
    ensures exact { GivesNow load_cause (λ opened. opened) result (open_policy policy) }
    ensures few { IfOk result IsFew }
{
    match first_without_profile(&policy) {
        Some(place) => Err(LoadFault::UndefinedProfile(place)),
        None => {
            policy.set_opened();
            Ok(policy)
        }
    }
}

/// Loads the policy of these files, and opens it: it begins as the domain `<kernel>` alone, with
/// profile 0, the lines of the four files are done as by `load_into`, and each live domain has its
/// profile in the end.
///
/// Errors: the first line that isn't done, with its file, its number from 1 and its reply; where
/// all are done, the first live domain whose profile isn't defined; or want of memory, also where a
/// list would have 2^32 members.
#[tactic(auto, using(crate::proofs::LoadLaws::load_in_two), unfolding(tm_rules::specs::Load::load))]
pub fn load(alloc: Global, files: &PolicyFiles) -> Result<Policy, LoadFault>
    ensures exact { Gives load_cause (λ policy. policy) result (load tomoyo_grammar files.now) }
    ensures few { IfOk result IsFew }
{
    let Ok(policy) = Policy::new(alloc) else {
        return Err(LoadFault::NoMemory);
    };
    let rep = load_into(alloc, Plain::new(policy), files)?;
    open(rep.into_policy())
}
