//! Reading exception lines.
ghost use Rattle.std.specs.Prelude.{◌≡◌, ℕ, IfOk, Some};
ghost use Rattle.tm_word.specs.Prelude.{Gives, GivesNow};
ghost use Rattle.tm_line.specs.Lines.{line_cause, word_at};
ghost use Rattle.tm_line.specs.Arguments.{group_word, range_word, addr_range_word};
ghost use Rattle.tm_except.specs.Reading.{member_word, first_word, literal_word, path_group, number_group, address_group, aggregator, group_line, acl_group, begins_list, begins_control, begins_rule, control_word, head_of, rule_by, rule_at, named_line, line_of};

use crate::sides::control_line;
use std::alloc::Global;
use tm_line::{
    addr_range_word, ended, group_word, keyword_kind, namespace_at, opens, pattern_word,
    range_word, small_number_at,
};
use tm_list::{Copied, NoMemory, Seq};
use tm_number::{AddrRange, Range};
use tm_types::entry::LineKind;
use tm_types::policy::{ControlKind, ExceptLine, ExceptRule};
use tm_types::step::LineFault;
use tm_word::{
    Pattern, Text, Word, begins, begins_in, begins_with, bytes_equal, spelled_word, value_of,
};

/// What a line's leading word begins.
#[derive(Clone, Copy)]
pub enum Head {
    /// `path_group GROUP MEMBER`.
    PathGroup,
    /// `number_group GROUP RANGE`.
    NumberGroup,
    /// `address_group GROUP RANGE`.
    AddressGroup,
    /// `aggregator FIRST SECOND`.
    Aggregator,
    /// A domain transition control of this kind.
    Control(ControlKind),
    /// `acl_group N` and the line of an entry.
    Acl,
}

/// The leading words of groups and aggregators.
const LISTS: [(&str, Head); 5] = [
    ("path_group", Head::PathGroup),
    ("number_group", Head::NumberGroup),
    ("address_group", Head::AddressGroup),
    ("aggregator", Head::Aggregator),
    ("acl_group", Head::Acl),
];

/// The kinds of controls, by their words. The last one, which no control has, is never written.
pub(crate) const CONTROLS: [(&str, ControlKind); 7] = [
    ("no_reset_domain", ControlKind::NoReset),
    ("reset_domain", ControlKind::Reset),
    ("no_initialize_domain", ControlKind::NoInitialize),
    ("initialize_domain", ControlKind::Initialize),
    ("no_keep_domain", ControlKind::NoKeep),
    ("keep_domain", ControlKind::Keep),
    ("", ControlKind::Ordinary),
];

/// The member of a path group: a pattern, not empty and without `@` in front.
#[tactic(auto, unfolding(crate::specs::Reading::member_word))]
fn member_word(alloc: Global, text: &[u8]) -> Result<Pattern, LineFault>
    ensures { Gives line_cause (λ x. x) result (member_word text.now) }
{
    match text {
        [] | [b'@', ..] => Err(LineFault::Kind(LineKind::Name)),
        _ => pattern_word(alloc, text),
    }
}

/// The first name of an aggregator: a pattern, not empty.
#[tactic(auto, unfolding(crate::specs::Reading::first_word))]
fn first_word(alloc: Global, text: &[u8]) -> Result<Pattern, LineFault>
    ensures { Gives line_cause (λ x. x) result (first_word text.now) }
{
    match text {
        [] => Err(LineFault::Kind(LineKind::Name)),
        [_, ..] => pattern_word(alloc, text),
    }
}

/// Reads a literal path, which is the spelled word of a name that begins with `/`, as that name.
/// Errors: `Name`.
#[tactic(auto, unfolding(crate::specs::Reading::literal_word))]
pub fn literal_word(alloc: Global, text: &[u8]) -> Result<Word, LineFault>
    ensures { Gives line_cause (λ x. x) result (literal_word text.now) }
{
    if !begins_with(b'/', text) {
        return Err(LineFault::Kind(LineKind::Name));
    }
    match spelled_word(alloc, text)? {
        Some(word) => Ok(word),
        None => Err(LineFault::Kind(LineKind::Name)),
    }
}

/// The name of a group as the first word, and the words after it.
fn group_at(alloc: Global, words: &[Text]) -> Result<(Word, &[Text]), LineFault>
    ensures { Gives line_cause (λ x. (x.0, x.1.now)) result (word_at group_word words.now) }
{
    match words {
        [] => Err(LineFault::Kind(LineKind::Arity)),
        [word, rest @ ..] => Ok((group_word(alloc, word.bytes())?, rest)),
    }
}

/// A member of a path group as the first word, and the words after it.
fn member_at(alloc: Global, words: &[Text]) -> Result<(Pattern, &[Text]), LineFault>
    ensures { Gives line_cause (λ x. (x.0, x.1.now)) result (word_at member_word words.now) }
{
    match words {
        [] => Err(LineFault::Kind(LineKind::Arity)),
        [word, rest @ ..] => Ok((member_word(alloc, word.bytes())?, rest)),
    }
}

/// A range of numbers as the first word, and the words after it.
fn range_at(words: &[Text]) -> Result<(Range, &[Text]), LineFault>
    ensures { GivesNow line_cause (λ x. (x.0, x.1.now)) result (word_at range_word words.now) }
{
    match words {
        [] => Err(LineFault::Kind(LineKind::Arity)),
        [word, rest @ ..] => Ok((range_word(word.bytes())?, rest)),
    }
}

/// A range of addresses as the first word, and the words after it.
fn addr_range_at(words: &[Text]) -> Result<(AddrRange, &[Text]), LineFault>
    ensures { GivesNow line_cause (λ x. (x.0, x.1.now)) result (word_at addr_range_word words.now) }
{
    match words {
        [] => Err(LineFault::Kind(LineKind::Arity)),
        [word, rest @ ..] => Ok((addr_range_word(word.bytes())?, rest)),
    }
}

/// The first name of an aggregator as the first word, and the words after it.
fn first_at(alloc: Global, words: &[Text]) -> Result<(Pattern, &[Text]), LineFault>
    ensures { Gives line_cause (λ x. (x.0, x.1.now)) result (word_at first_word words.now) }
{
    match words {
        [] => Err(LineFault::Kind(LineKind::Arity)),
        [word, rest @ ..] => Ok((first_word(alloc, word.bytes())?, rest)),
    }
}

/// A literal path as the first word, and the words after it.
fn literal_at(alloc: Global, words: &[Text]) -> Result<(Word, &[Text]), LineFault>
    ensures { Gives line_cause (λ x. (x.0, x.1.now)) result (word_at literal_word words.now) }
{
    match words {
        [] => Err(LineFault::Kind(LineKind::Arity)),
        [word, rest @ ..] => Ok((literal_word(alloc, word.bytes())?, rest)),
    }
}

#[tactic(auto, unfolding(crate::specs::Reading::path_group))]
fn path_group(alloc: Global, words: &[Text]) -> Result<ExceptRule, LineFault>
    ensures { Gives line_cause (λ x. x) result (path_group words.now) }
{
    let (name, rest) = group_at(alloc, words)?;
    let (member, rest) = member_at(alloc, rest)?;
    ended(ExceptRule::PathGroup(name, member), rest)
}

#[tactic(auto, unfolding(crate::specs::Reading::number_group))]
fn number_group(alloc: Global, words: &[Text]) -> Result<ExceptRule, LineFault>
    ensures { Gives line_cause (λ x. x) result (number_group words.now) }
{
    let (name, rest) = group_at(alloc, words)?;
    let (member, rest) = range_at(rest)?;
    ended(ExceptRule::NumberGroup(name, member), rest)
}

#[tactic(auto, unfolding(crate::specs::Reading::address_group))]
fn address_group(alloc: Global, words: &[Text]) -> Result<ExceptRule, LineFault>
    ensures { Gives line_cause (λ x. x) result (address_group words.now) }
{
    let (name, rest) = group_at(alloc, words)?;
    let (member, rest) = addr_range_at(rest)?;
    ended(ExceptRule::AddressGroup(name, member), rest)
}

#[tactic(auto, unfolding(crate::specs::Reading::aggregator))]
fn aggregator(alloc: Global, words: &[Text]) -> Result<ExceptRule, LineFault>
    ensures { Gives line_cause (λ x. x) result (aggregator words.now) }
{
    let (first, rest) = first_at(alloc, words)?;
    let (second, rest) = literal_at(alloc, rest)?;
    ended(ExceptRule::Aggregator(first, second), rest)
}

/// These words, made anew.
fn copied(alloc: Global, words: &[Text]) -> Result<Seq<Text>, NoMemory>
    ensures { IfOk result (λ made. made ≡ words.now) }
{
    let mut made = Seq::new(alloc);
    for word in words {
        made.push(word.copy(alloc)?)?;
    }
    Ok(made)
}

/// The line of an ACL group, as words.
fn group_line(alloc: Global, number: u8, words: &[Text]) -> Result<ExceptRule, LineFault>
    ensures { Gives line_cause (λ x. x) result (group_line number words.now) }
{
    match words {
        [] => Err(LineFault::Kind(LineKind::Arity)),
        [_, ..] => Ok(ExceptRule::Acl(number, copied(alloc, words)?)),
    }
}

#[tactic(auto, unfolding(crate::specs::Reading::acl_group))]
fn acl_group(alloc: Global, words: &[Text]) -> Result<ExceptRule, LineFault>
    ensures { Gives line_cause (λ x. x) result (acl_group words.now) }
{
    let (number, rest) = small_number_at(words)?;
    group_line(alloc, number, rest)
}

/// The kind of control that a word names.
#[tactic(auto, unfolding(crate::specs::Reading::control_word))]
fn control_word(word: &[u8]) -> Option<ControlKind>
    ensures { result ≡ control_word word.now }
{
    value_of(&CONTROLS[..6], word)
}

/// What a leading word begins.
#[tactic(auto, unfolding(crate::specs::Reading::head_of))]
fn head_of(word: &[u8]) -> Option<Head>
    ensures { result ≡ head_of word.now }
{
    if let Some(head) = value_of(&LISTS, word) {
        return Some(head);
    }
    match control_word(word) {
        Some(kind) => Some(Head::Control(kind)),
        None => None,
    }
}

/// Whether the leading word of a group or an aggregator begins so.
#[tactic(auto, unfolding(crate::specs::Reading::begins_list))]
fn begins_list(word: &[u8]) -> bool
    ensures { result ≡ begins_list word.now }
{
    begins_in(&LISTS, word)
}

/// Whether the leading word of a control begins so.
#[tactic(auto, unfolding(crate::specs::Reading::begins_control))]
fn begins_control(word: &[u8]) -> bool
    ensures { result ≡ begins_control word.now }
{
    begins_in(&CONTROLS[..6], word)
}

/// Whether a leading word begins so; `delete` may be one at the very front.
#[tactic(auto, unfolding(crate::specs::Reading::begins_rule))]
fn begins_rule(first: bool, word: &[u8]) -> bool
    ensures { result ≡ begins_rule first word.now }
{
    begins_list(word) || begins_control(word) || (first && begins(word, b"delete"))
}

/// The kind of a wrong leading word.
fn head_kind(first: bool, word: &[u8], words: &[Text]) -> LineKind
    ensures { rule_by None first word.now words.now ≡ Err result }
{
    keyword_kind(words.is_empty() && begins_rule(first, word))
}

/// The rule that a line writes, without `delete` and its namespace word.
#[tactic(auto, unfolding(crate::specs::Reading::rule_at))]
fn rule_at(alloc: Global, first: bool, words: &[Text]) -> Result<ExceptRule, LineFault>
    ensures { Gives line_cause (λ x. x) result (rule_at first words.now) }
{
    match words {
        [] => Err(LineFault::Kind(LineKind::Arity)),
        [word, rest @ ..] => match head_of(word.bytes()) {
            Some(Head::PathGroup) => path_group(alloc, rest),
            Some(Head::NumberGroup) => number_group(alloc, rest),
            Some(Head::AddressGroup) => address_group(alloc, rest),
            Some(Head::Aggregator) => aggregator(alloc, rest),
            Some(Head::Control(kind)) => Ok(ExceptRule::Control(control_line(alloc, kind, rest)?)),
            Some(Head::Acl) => acl_group(alloc, rest),
            None => Err(LineFault::Kind(head_kind(first, word.bytes(), rest))),
        },
    }
}

/// A line without its `delete`.
#[tactic(auto, unfolding(crate::specs::Reading::named_line))]
fn named_line(alloc: Global, delete: bool, words: &[Text]) -> Result<ExceptLine, LineFault>
    ensures { Gives line_cause (λ x. x) result (named_line delete words.now) }
{
    match words {
        [] => Err(LineFault::Kind(LineKind::Arity)),
        [word, ..] => {
            let first = !delete && !opens(word.bytes());
            let (namespace, rest) = namespace_at(alloc, words)?;
            let rule = rule_at(alloc, first, rest)?;
            Ok(ExceptLine {
                delete,
                namespace,
                rule,
            })
        }
    }
}

/// Reads a line of the exception policy, of which these are the words. It may begin with `delete`,
/// and then with a namespace word, else it is one of `<kernel>`; then comes a group and its member,
/// an aggregator, a domain transition control, or an ACL group, whose line stays as words.
///
/// Errors: the kind of the first word at which the line can't go on, or want of memory. `Keyword`
/// is a wrong leading word, `Arity` a missing or an extra word or an unfinished keyword at the end,
/// `Name` a wrong group, pattern or path, `Number` and `Address` a wrong range or ACL group's
/// number, `Domain` a wrong domain name or namespace word.
#[tactic(auto, unfolding(crate::specs::Reading::line_of))]
pub fn read_exception(alloc: Global, words: &[Text]) -> Result<ExceptLine, LineFault>
    ensures { Gives line_cause (λ x. x) result (line_of words.now) }
{
    match words {
        [] => Err(LineFault::Kind(LineKind::Arity)),
        [word, rest @ ..] => {
            if bytes_equal(word.bytes(), b"delete") {
                named_line(alloc, true, rest)
            } else {
                named_line(alloc, false, words)
            }
        }
    }
}
