//! Lines of policy files, read and printed again.
ghost use Rattle.std.specs.Prelude.{◌≡◌, [], ◌∷◌, ◌++◌, ℕ, List, false, IfOk};
ghost use Rattle.std.specs.Option.{option_copied};
ghost use Rattle.tm_word.specs.Prelude.{joined};
ghost use Rattle.tm_entry.specs.Entries.{entry_words};
ghost use Rattle.tm_except.specs.Printing.{rule_words};
ghost use Rattle.tm_vectors.specs.Answers.{said_by, group_rule, added_entry, added_text, entry_text, rule_text, exception_text};

use std::alloc::{AllocError, Global};
use tm_entry::print_entry;
use tm_except::print_rule;
use tm_list::{NoMemory, Seq};
use tm_policy_line::{print_acl_group_line, read_line};
use tm_types::entry::Entry;
use tm_types::policy::{DomainRule, ExceptRule, GroupLine, PolicyLine};
use tm_types::step::{FileKind, LineFault};
use tm_word::Text;

/// What a line of a policy file says; none where it is refused.
pub fn said_by(alloc: Global, file: FileKind, line: &[u8]) -> Result<Option<PolicyLine>, NoMemory>
    ensures { IfOk result (λ said. said ≡ said_by file line.now) }
{
    match read_line(alloc, file, line) {
        Ok(said) => Ok(Some(said)),
        Err(LineFault::Kind(_)) => Ok(None),
        Err(LineFault::NoMemory) => Err(AllocError),
    }
}

/// The entry that a line adds to a domain, if it does.
fn added_entry(said: &PolicyLine) -> Option<&Entry>
    ensures { option_copied result ≡ added_entry said.now }
{
    match said {
        PolicyLine::Domain(DomainRule::Acl(false, entry)) => Some(entry),
        PolicyLine::Domain(_)
        | PolicyLine::Nothing
        | PolicyLine::Profile(_)
        | PolicyLine::Exception(_)
        | PolicyLine::Group(_)
        | PolicyLine::Manager(_, _) => None,
    }
}

/// The printed text of an entry.
fn printed_entry(alloc: Global, entry: &Entry) -> Result<Text, NoMemory>
    ensures { IfOk result (λ text. text ≡ joined (entry_words entry.now)) }
{
    let mut text = Vec::new(alloc);
    print_entry(alloc, entry, &mut text)?;
    Ok(Seq::from_vec(text))
}

/// The printed text of the entry that a line adds to a domain, if it does.
fn added_text(alloc: Global, said: &PolicyLine) -> Result<Option<Text>, NoMemory>
    ensures { IfOk result (λ text. text ≡ added_text said.now) }
{
    match added_entry(said) {
        Some(entry) => Ok(Some(printed_entry(alloc, entry)?)),
        None => Ok(None),
    }
}

/// The printed text of the entry that a line of `domain_policy` adds; none where it is refused or
/// adds no entry.
pub fn entry_line(alloc: Global, line: &[u8]) -> Result<Option<Text>, NoMemory>
    ensures { IfOk result (λ text. text ≡ entry_text line.now) }
{
    match said_by(alloc, FileKind::Domain, line)? {
        Some(said) => added_text(alloc, &said),
        None => Ok(None),
    }
}

/// What stands in a line between its first byte and its last.
fn between_ends(line: &[u8]) -> &[u8]
    ensures { (text : List ℕ) (first last : ℕ) → line.now ≡ first ∷ (text ++ last ∷ []) → result.now ≡ text }
{
    match line {
        [_, text @ .., _] => text,
        _ => line,
    }
}

/// The printed text of a rule, without a namespace word and without the end of the line.
fn printed_rule(alloc: Global, rule: &ExceptRule) -> Result<Text, NoMemory>
    ensures { IfOk result (λ text. text ≡ joined (rule_words rule.now)) }
{
    let mut line = Vec::new(alloc);
    print_rule(alloc, &Seq::new(alloc), rule, &mut line)?;
    Seq::from_bytes(alloc, between_ends(&line))
}

/// The printed text of an ACL group's line, without its namespace word and without the end of the
/// line.
fn printed_group(alloc: Global, group: &GroupLine) -> Result<Text, NoMemory>
    ensures { IfOk result (λ text. text ≡ joined (rule_words (group_rule group.now))) }
{
    let mut line = Vec::new(alloc);
    print_acl_group_line(
        alloc,
        &Seq::new(alloc),
        group.group,
        &group.entry,
        &mut line,
    )?;
    Seq::from_bytes(alloc, between_ends(&line))
}

/// The printed text of the rule that a line of `exception_policy` adds or removes, without its
/// namespace word.
fn rule_text(alloc: Global, said: &PolicyLine) -> Result<Option<Text>, NoMemory>
    ensures { IfOk result (λ text. text ≡ rule_text said.now) }
{
    match said {
        PolicyLine::Exception(line) => Ok(Some(printed_rule(alloc, &line.rule)?)),
        PolicyLine::Group(group) => Ok(Some(printed_group(alloc, group)?)),
        PolicyLine::Nothing
        | PolicyLine::Profile(_)
        | PolicyLine::Domain(_)
        | PolicyLine::Manager(_, _) => Ok(None),
    }
}

/// The printed text of a line of `exception_policy`, without its namespace word; none where the
/// line is refused.
pub fn exception_line(alloc: Global, line: &[u8]) -> Result<Option<Text>, NoMemory>
    ensures { IfOk result (λ text. text ≡ exception_text line.now) }
{
    match said_by(alloc, FileKind::Exception, line)? {
        Some(said) => rule_text(alloc, &said),
        None => Ok(None),
    }
}
