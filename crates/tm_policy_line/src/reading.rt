//! Reading the line of any policy file.
ghost use Rattle.std.specs.Prelude.{◌≡◌, ◌∷◌};
ghost use Rattle.tm_word.specs.Prelude.{Gives, GivesNow};
ghost use Rattle.tm_line.specs.Lines.{line_cause};
ghost use Rattle.tm_policy_line.specs.Reading.{number_rule, acl_rule, begins_setting, begins_domain, setting_rule, delete_domain, delete_rule, domain_rule, begins_manager, manager_rule, manager_of, with_group, with_entry, read_words, read_line};

use std::alloc::Global;
use tm_entry::read_entry;
use tm_except::{literal_word, read_exception};
use tm_line::{domain_to_end, ended, keyword_kind, opens, option_at, small_number_at};
use tm_list::Copied;
use tm_profile::read_profile_line;
use tm_types::entry::{Entry, LineKind};
use tm_types::policy::{DomainRule, ExceptLine, ExceptRule, GroupLine, ManagerRule, PolicyLine};
use tm_types::step::{FileKind, LineFault};
use tm_types::unions::DomainName;
use tm_word::{Text, begins, begins_with, bytes_equal, normal_words};

/// The profile that a domain uses.
fn profile_rule(words: &[Text]) -> Result<DomainRule, LineFault>
    ensures { GivesNow line_cause (λ x. x) result (number_rule DomainRule.UseProfile words.now) }
{
    let (number, rest) = small_number_at(words)?;
    ended(DomainRule::UseProfile(number), rest)
}

/// An ACL group that a domain uses, or no more after `delete`.
fn group_rule(delete: bool, words: &[Text]) -> Result<DomainRule, LineFault>
    ensures { GivesNow line_cause (λ x. x) result
        (number_rule (DomainRule.UseGroup delete) words.now) }
{
    let (number, rest) = small_number_at(words)?;
    ended(DomainRule::UseGroup(delete, number), rest)
}

/// The rule of an ACL line, of which these are the words; `unfinished` says whether the one word is
/// an unfinished keyword of another line.
fn acl_rule(
    alloc: Global,
    unfinished: bool,
    delete: bool,
    words: &[Text],
) -> Result<DomainRule, LineFault>
    ensures { Gives line_cause (λ x. x) result (acl_rule unfinished delete words.now) }
{
    if unfinished {
        return Err(LineFault::Kind(LineKind::Arity));
    }
    Ok(DomainRule::Acl(delete, read_entry(alloc, words)?))
}

/// Whether `use_group` or a flag begins so.
#[tactic(auto, unfolding(crate::specs::Reading::begins_setting))]
fn begins_setting(word: &[u8]) -> bool
    ensures { result ≡ begins_setting word.now }
{
    begins(word, b"use_group")
        || begins(word, b"quota_exceeded")
        || begins(word, b"transition_failed")
}

/// Whether a leading word but those of ACL lines begins so.
#[tactic(auto, unfolding(crate::specs::Reading::begins_domain))]
fn begins_domain(word: &[u8]) -> bool
    ensures { result ≡ begins_domain word.now }
{
    begins(word, b"select")
        || begins(word, b"delete")
        || begins(word, b"use_profile")
        || begins_setting(word)
}

/// The group, the flag or the ACL line that is added, or removed after `delete`, of these words,
/// which are the first one and the rest;
/// `unfinished` says whether the first one begins a keyword that may stand there.
#[tactic(auto, unfolding(crate::specs::Reading::setting_rule))]
fn setting_rule(
    alloc: Global,
    unfinished: bool,
    delete: bool,
    word: &[u8],
    rest: &[Text],
    words: &[Text],
) -> Result<DomainRule, LineFault>
    requires { words.now ≡ word.now ∷ rest.now }
    ensures { Gives line_cause (λ x. x) result (setting_rule unfinished delete word.now rest.now) }
{
    if bytes_equal(word, b"use_group") {
        return group_rule(delete, rest);
    }
    if bytes_equal(word, b"quota_exceeded") {
        return ended(DomainRule::QuotaExceeded(delete), rest);
    }
    if bytes_equal(word, b"transition_failed") {
        return ended(DomainRule::TransitionFailed(delete), rest);
    }
    acl_rule(alloc, rest.is_empty() && unfinished, delete, words)
}

/// The deletion of a domain; `<kernel>` is never deleted.
#[tactic(auto, unfolding(crate::specs::Reading::delete_domain))]
fn delete_domain(name: DomainName) -> Result<DomainRule, LineFault>
    ensures { GivesNow line_cause (λ x. x) result (delete_domain name) }
{
    if bytes_equal(name.bytes(), b"<kernel>") {
        return Err(LineFault::Kind(LineKind::KernelDomain));
    }
    Ok(DomainRule::Delete(name))
}

/// What stands after `delete` in a line of the domain policy.
#[tactic(auto, unfolding(crate::specs::Reading::delete_rule))]
fn delete_rule(alloc: Global, words: &[Text]) -> Result<DomainRule, LineFault>
    ensures { Gives line_cause (λ x. x) result (delete_rule words.now) }
{
    match words {
        [] => Err(LineFault::Kind(LineKind::Arity)),
        [word, rest @ ..] => {
            let word = word.bytes();
            if opens(word) {
                return delete_domain(domain_to_end(alloc, words)?);
            }
            setting_rule(alloc, begins_setting(word), true, word, rest, words)
        }
    }
}

/// The rule of a line of the domain policy, of these words, which are the first one and the rest.
#[tactic(auto, unfolding(crate::specs::Reading::domain_rule))]
fn domain_rule(
    alloc: Global,
    word: &[u8],
    rest: &[Text],
    words: &[Text],
) -> Result<DomainRule, LineFault>
    requires { words.now ≡ word.now ∷ rest.now }
    ensures { Gives line_cause (λ x. x) result (domain_rule word.now rest.now) }
{
    if opens(word) {
        return Ok(DomainRule::Choose(domain_to_end(alloc, words)?));
    }
    if bytes_equal(word, b"select") {
        return Ok(DomainRule::Select(domain_to_end(alloc, rest)?));
    }
    if bytes_equal(word, b"delete") {
        return delete_rule(alloc, rest);
    }
    if bytes_equal(word, b"use_profile") {
        return profile_rule(rest);
    }
    setting_rule(alloc, begins_domain(word), false, word, rest, words)
}

/// Whether a leading word of a manager line begins so; `delete` may be one at the very front.
#[tactic(auto, unfolding(crate::specs::Reading::begins_manager))]
fn begins_manager(first: bool, word: &[u8]) -> bool
    ensures { result ≡ begins_manager first word.now }
{
    begins(word, b"manage_by_non_root") || (first && begins(word, b"delete"))
}

/// The rule of a manager line, without its `delete`.
#[tactic(auto, unfolding(crate::specs::Reading::manager_rule))]
fn manager_rule(alloc: Global, first: bool, words: &[Text]) -> Result<ManagerRule, LineFault>
    ensures { Gives line_cause (λ x. x) result (manager_rule first words.now) }
{
    match words {
        [] => Err(LineFault::Kind(LineKind::Arity)),
        [word, rest @ ..] => {
            if bytes_equal(word.bytes(), b"manage_by_non_root") {
                return ended(ManagerRule::ByNonRoot, rest);
            }
            if opens(word.bytes()) {
                return Ok(ManagerRule::Name(domain_to_end(alloc, words)?));
            }
            if begins_with(b'/', word.bytes()) {
                literal_word(alloc, word.bytes())?;
                return ended(ManagerRule::Name(word.copy(alloc)?), rest);
            }
            let unfinished = rest.is_empty() && begins_manager(first, word.bytes());
            Err(LineFault::Kind(keyword_kind(unfinished)))
        }
    }
}

/// Whether a manager line deletes, and its rule.
#[tactic(auto, unfolding(crate::specs::Reading::manager_of))]
fn manager_of(alloc: Global, words: &[Text]) -> Result<(bool, ManagerRule), LineFault>
    ensures { Gives line_cause (λ x. x) result (manager_of words.now) }
{
    let (delete, rest) = option_at(b"delete", words);
    let rule = manager_rule(alloc, !delete, rest)?;
    Ok((delete, rule))
}

/// The line of an ACL group, with its entry.
fn group_line(line: ExceptLine, group: u8, entry: Entry) -> PolicyLine
    ensures { result ≡ with_group line group entry }
{
    PolicyLine::Group(GroupLine {
        delete: line.delete,
        namespace: line.namespace,
        group,
        entry,
    })
}

/// An exception line, of which the line of an ACL group is read as an ACL line.
fn with_entry(alloc: Global, line: ExceptLine) -> Result<PolicyLine, LineFault>
    ensures { Gives line_cause (λ x. x) result (with_entry line line.rule) }
{
    match &line.rule {
        ExceptRule::Acl(number, words) => {
            let group = *number;
            match read_entry(alloc, words.as_slice()) {
                Ok(entry) => Ok(group_line(line, group, entry)),
                Err(fault) => Err(fault),
            }
        }
        _ => Ok(PolicyLine::Exception(line)),
    }
}

/// The line of a file with these words.
#[tactic(auto, unfolding(crate::specs::Reading::read_words))]
fn read_words(alloc: Global, file: FileKind, words: &[Text]) -> Result<PolicyLine, LineFault>
    ensures { Gives line_cause (λ x. x) result (read_words file words.now) }
{
    match words {
        [] => Ok(PolicyLine::Nothing),
        [word, rest @ ..] => match file {
            FileKind::Profile => Ok(PolicyLine::Profile(read_profile_line(alloc, words)?)),
            FileKind::Exception => with_entry(alloc, read_exception(alloc, words)?),
            FileKind::Domain => {
                let rule = domain_rule(alloc, word.bytes(), rest, words)?;
                Ok(PolicyLine::Domain(rule))
            }
            FileKind::Manager => {
                let (delete, rule) = manager_of(alloc, words)?;
                Ok(PolicyLine::Manager(delete, rule))
            }
        },
    }
}

/// Reads a line of a policy file, whatever its bytes are; a line without words does nothing. A line
/// of the profile or the exception policy is what tm_profile and tm_except read, and that of an ACL
/// group has its entry. A line of the domain policy chooses, selects or deletes a domain by its
/// name, gives it a profile, or adds or removes an ACL group, a flag or an entry. A manager line
/// adds or removes `manage_by_non_root`, a domain name or a literal path.
///
/// Errors: the kind of the first word at which the line can't go on, or want of memory. `Keyword`
/// is a wrong leading word, `Arity` a missing or an extra word or an unfinished keyword as the last
/// one, `KernelDomain` the deletion of `<kernel>`; the other kinds are those of names, numbers,
/// addresses, domain names, conditions and profile lines.
#[tactic(auto, unfolding(crate::specs::Reading::read_line))]
pub fn read_line(alloc: Global, file: FileKind, line: &[u8]) -> Result<PolicyLine, LineFault>
    ensures { Gives line_cause (λ x. x) result (read_line file line.now) }
{
    let words = normal_words(alloc, line)?;
    read_words(alloc, file, words.as_slice())
}
