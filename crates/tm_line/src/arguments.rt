//! Arguments of lines, each one word.
ghost use Rattle.std.specs.Prelude.{◌≡◌, ◌^◌};
ghost use Rattle.tm_word.specs.Prelude.{Gives, GivesNow};
ghost use Rattle.tm_line.specs.Lines.{line_cause, word_at};
ghost use Rattle.tm_line.specs.Arguments.{one_name, one_number, one_address, group_word, pattern_word, path_word, range_word, addr_range_word, name_word, number_word, address_word, plain_word, name_at, number_at, address_at};

use std::alloc::Global;
use tm_addr::number::{AddrRange, Range, read_range};
use tm_addr::read_addr_range;
use tm_domain::is_path;
use tm_domain::pattern::{PatternFault, read_pattern};
use tm_domain::types::entry::LineKind;
use tm_domain::types::step::LineFault;
use tm_domain::types::unions::{AddrUnion, NameUnion, NumberUnion};
use tm_word::list::Seq;
use tm_word::{Pattern, Text, Word, spelled_word};

/// Reads the name of a group, without the `@` in front: a spelled word that is not empty. Errors:
/// `Name`.
#[tactic(auto, unfolding(crate::specs::Arguments::group_word))]
pub fn group_word(alloc: Global, text: &[u8]) -> Result<Word, LineFault>
    ensures { Gives line_cause (λ word. word) result (group_word text.now) }
{
    match spelled_word(alloc, text) {
        Err(_) => Err(LineFault::NoMemory),
        Ok(None) => Err(LineFault::Kind(LineKind::Name)),
        Ok(Some(word)) => {
            if word.is_empty() {
                Err(LineFault::Kind(LineKind::Name))
            } else {
                Ok(word)
            }
        }
    }
}

/// Reads a pattern, which may begin with `@`. Errors: `Name`.
#[tactic(auto, unfolding(crate::specs::Arguments::pattern_word))]
pub fn pattern_word(alloc: Global, text: &[u8]) -> Result<Pattern, LineFault>
    ensures { Gives line_cause (λ pattern. pattern) result (pattern_word text.now) }
{
    match read_pattern(alloc, text) {
        Ok(pattern) => Ok(pattern),
        Err(PatternFault::NoMemory) => Err(LineFault::NoMemory),
        Err(_) => Err(LineFault::Kind(LineKind::Name)),
    }
}

/// Reads a path, which is a pattern that begins with `/`, and keeps it as it is written. Errors:
/// `Name`.
#[tactic(auto, unfolding(crate::specs::Arguments::path_word))]
pub fn path_word(alloc: Global, text: &[u8]) -> Result<Text, LineFault>
    ensures { Gives line_cause (λ path. path) result (path_word text.now) }
{
    if is_path(text) {
        Ok(Seq::from_bytes(alloc, text)?)
    } else {
        Err(LineFault::Kind(LineKind::Name))
    }
}

/// Reads a range of numbers. Errors: `Number`. Takes no memory.
#[tactic(auto, unfolding(crate::specs::Arguments::range_word))]
pub fn range_word(text: &[u8]) -> Result<Range, LineFault>
    ensures { GivesNow line_cause (λ range. range) result (range_word text.now) }
{
    match read_range(text) {
        Ok(range) => Ok(range),
        Err(_) => Err(LineFault::Kind(LineKind::Number)),
    }
}

/// Reads a range of addresses. Errors: `Address`. Takes no memory.
#[tactic(auto, unfolding(crate::specs::Arguments::addr_range_word))]
pub fn addr_range_word(text: &[u8]) -> Result<AddrRange, LineFault>
    ensures { GivesNow line_cause (λ range. range) result (addr_range_word text.now) }
{
    match read_addr_range(text) {
        Ok(range) => Ok(range),
        Err(_) => Err(LineFault::Kind(LineKind::Address)),
    }
}

fn one_name(alloc: Global, word: &[u8]) -> Result<NameUnion, LineFault>
    ensures { Gives line_cause (λ name. name) result (one_name word.now) }
{
    match word {
        [] => Err(LineFault::Kind(LineKind::Name)),
        [_, ..] => Ok(NameUnion::One(pattern_word(alloc, word)?)),
    }
}

/// Reads a name argument: `@GROUP`, or a pattern that isn't empty and doesn't begin with `@`.
/// Errors: `Name`.
#[tactic(auto, unfolding(crate::specs::Arguments::name_word))]
pub fn name_word(alloc: Global, word: &[u8]) -> Result<NameUnion, LineFault>
    ensures { Gives line_cause (λ name. name) result (name_word word.now) }
{
    match word {
        [b'@', group @ ..] => Ok(NameUnion::Group(group_word(alloc, group)?)),
        _ => one_name(alloc, word),
    }
}

fn one_number(word: &[u8]) -> Result<NumberUnion, LineFault>
    ensures { GivesNow line_cause (λ number. number) result (one_number word.now) }
{
    Ok(NumberUnion::One(range_word(word)?))
}

/// Reads a number argument: `@GROUP` or a range. Errors: `Name` at a wrong group, else `Number`.
#[tactic(auto, unfolding(crate::specs::Arguments::number_word))]
pub fn number_word(alloc: Global, word: &[u8]) -> Result<NumberUnion, LineFault>
    ensures { Gives line_cause (λ number. number) result (number_word word.now) }
{
    match word {
        [b'@', group @ ..] => Ok(NumberUnion::Group(group_word(alloc, group)?)),
        _ => one_number(word),
    }
}

fn one_address(word: &[u8]) -> Result<AddrUnion, LineFault>
    ensures { GivesNow line_cause (λ address. address) result (one_address word.now) }
{
    Ok(AddrUnion::One(addr_range_word(word)?))
}

/// Reads an address argument: `@GROUP` or a range of addresses. Errors: `Name` at a wrong group,
/// else `Address`.
#[tactic(auto, unfolding(crate::specs::Arguments::address_word))]
pub fn address_word(alloc: Global, word: &[u8]) -> Result<AddrUnion, LineFault>
    ensures { Gives line_cause (λ address. address) result (address_word word.now) }
{
    match word {
        [b'@', group @ ..] => Ok(AddrUnion::Group(group_word(alloc, group)?)),
        _ => one_address(word),
    }
}

/// Reads a plain number from 0 to 255, as profiles and groups of lines have. Errors: `Number`.
/// Takes no memory.
#[tactic(auto, unfolding(crate::specs::Arguments::plain_word))]
pub fn small_number(text: &[u8]) -> Result<u8, LineFault>
    ensures { GivesNow line_cause (λ n. n) result (plain_word 256 text.now) }
{
    match tm_addr::number::plain_number(256, text) {
        Some(number) => Ok(number as u8),
        None => Err(LineFault::Kind(LineKind::Number)),
    }
}

/// Reads such a number as the first word, and gives the words after it. Errors: `Arity` where no word
/// is left, `Number`. Takes no memory.
pub fn small_number_at(words: &[Text]) -> Result<(u8, &[Text]), LineFault>
    ensures { GivesNow line_cause (λ x. (x.0, x.1.now)) result
        (word_at (plain_word 256) words.now) }
{
    match words {
        [] => Err(LineFault::Kind(LineKind::Arity)),
        [word, rest @ ..] => Ok((small_number(word.bytes())?, rest)),
    }
}

/// Reads a plain number below 2^32. Errors: `Number`. Takes no memory.
#[tactic(auto, unfolding(crate::specs::Arguments::plain_word))]
pub fn plain_number(text: &[u8]) -> Result<u32, LineFault>
    ensures { GivesNow line_cause (λ n. n) result (plain_word (2 ^ 32) text.now) }
{
    match tm_addr::number::plain_number(4_294_967_296, text) {
        Some(number) => Ok(number as u32),
        None => Err(LineFault::Kind(LineKind::Number)),
    }
}

/// Reads a name argument at the front, and answers the words after it. Errors: `Arity` where no
/// word is left, `Name`.
#[tactic(auto, unfolding(crate::specs::Arguments::name_at))]
pub fn name_at(alloc: Global, words: &[Text]) -> Result<(NameUnion, &[Text]), LineFault>
    ensures { Gives line_cause (λ x. (x.0, x.1.now)) result (name_at words.now) }
{
    match words {
        [] => Err(LineFault::Kind(LineKind::Arity)),
        [word, rest @ ..] => Ok((name_word(alloc, word.bytes())?, rest)),
    }
}

/// Reads a number argument at the front, and answers the words after it. Errors: `Arity` where no
/// word is left, `Name` at a wrong group, else `Number`.
#[tactic(auto, unfolding(crate::specs::Arguments::number_at))]
pub fn number_at(alloc: Global, words: &[Text]) -> Result<(NumberUnion, &[Text]), LineFault>
    ensures { Gives line_cause (λ x. (x.0, x.1.now)) result (number_at words.now) }
{
    match words {
        [] => Err(LineFault::Kind(LineKind::Arity)),
        [word, rest @ ..] => Ok((number_word(alloc, word.bytes())?, rest)),
    }
}

/// Reads an address argument at the front, and answers the words after it. Errors: `Arity` where no
/// word is left, `Name` at a wrong group, else `Address`.
#[tactic(auto, unfolding(crate::specs::Arguments::address_at))]
pub fn address_at(alloc: Global, words: &[Text]) -> Result<(AddrUnion, &[Text]), LineFault>
    ensures { Gives line_cause (λ x. (x.0, x.1.now)) result (address_at words.now) }
{
    match words {
        [] => Err(LineFault::Kind(LineKind::Arity)),
        [word, rest @ ..] => Ok((address_word(alloc, word.bytes())?, rest)),
    }
}
