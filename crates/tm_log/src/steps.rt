//! The steps of reading a header: a word, or a field `NAME=VALUE`, and the words after it.
ghost use Rattle.std.specs.Prelude.{◌≡◌, ◌<◌, IfOk};
ghost use Rattle.tm_word.specs.Prelude.{Gives, GivesNow};
ghost use Rattle.tm_line.specs.Lines.{line_cause};
ghost use Rattle.tm_cond.specs.Attributes.{ends_in};
ghost use Rattle.tm_log.specs.Steps.{stands, plain_text, plain_field, number_at, id_at, parent_pid_at, pid_at, pid_text, quoted_word, quoted_field, quoted_at};
ghost use Rattle.tm_trace.specs.Processes.{not_zero};

use std::alloc::Global;
use tm_cond::quoted;
use tm_number::plain_number;
use tm_types::entry::LineKind;
use tm_types::step::LineFault;
use tm_word::{Text, Word, after, bytes_equal, spelled_word};

/// Whether this word stands next.
pub(crate) fn stands(keyword: &[u8], words: &[Text]) -> bool
    ensures { result ≡ stands keyword.now words.now }
{
    match words {
        [] => false,
        [word, ..] => bytes_equal(word.bytes(), keyword),
    }
}

/// Whether a text ends with this byte.
pub(crate) fn ends_in(byte: u8, text: &[u8]) -> bool
    ensures { result ≡ ends_in byte text.now }
{
    let length = text.len();
    length > 0 && text[length - 1] == byte
}

// A plain number below a limit.
fn plain_text(limit: u128, text: &[u8]) -> Result<u64, LineFault>
    ensures exact { GivesNow line_cause (λ n. n) result (plain_text limit text.now) }
    ensures below { IfOk result (λ n. n < limit) }
{
    match plain_number(limit, text) {
        Some(value) => Ok(value),
        None => Err(LineFault::Kind(LineKind::Number)),
    }
}

// A field whose value is a plain number below a limit.
fn plain_field(front: &[u8], limit: u128, word: &[u8]) -> Result<u64, LineFault>
    ensures exact { GivesNow line_cause (λ n. n) result (plain_field front.now limit word.now) }
    ensures below { IfOk result (λ n. n < limit) }
{
    match after(front, word) {
        Some(text) => plain_text(limit, text),
        None => Err(LineFault::Kind(LineKind::Keyword)),
    }
}

/// A field whose value is a plain number below a limit, next. Errors: `Arity`, `Keyword`, `Number`.
pub(crate) fn number_at<'a>(
    front: &[u8],
    limit: u128,
    words: &'a [Text],
) -> Result<(u64, &'a [Text]), LineFault>
    ensures exact { GivesNow line_cause (λ x. (x.0, x.1.now)) result
        (number_at front.now limit words.now) }
    ensures below { IfOk result (λ x. x.0 < limit) }
{
    match words {
        [] => Err(LineFault::Kind(LineKind::Arity)),
        [word, rest @ ..] => Ok((plain_field(front, limit, word.bytes())?, rest)),
    }
}

/// A field whose value is a plain number below 2^32, next. Errors: `Arity`, `Keyword`, `Number`.
pub(crate) fn id_at<'a>(front: &[u8], words: &'a [Text]) -> Result<(u32, &'a [Text]), LineFault>
    ensures { GivesNow line_cause (λ x. (x.0, x.1.now)) result (id_at front.now words.now) }
{
    let (value, rest) = number_at(front, 4_294_967_296, words)?;
    Ok((value as u32, rest))
}

/// A field whose value is a pid or 0, next. Errors: `Arity`, `Keyword`, `Number`.
pub(crate) fn parent_pid_at<'a>(
    front: &[u8],
    words: &'a [Text],
) -> Result<(u32, &'a [Text]), LineFault>
    ensures { GivesNow line_cause (λ x. (x.0, x.1.now)) result (parent_pid_at front.now words.now) }
{
    let (value, rest) = number_at(front, 4_194_305, words)?;
    Ok((value as u32, rest))
}

// A pid that isn't 0.
fn not_zero(pid: u32) -> Result<u32, LineFault>
    ensures { GivesNow line_cause (λ n. n) result (not_zero pid) }
{
    if pid == 0 {
        Err(LineFault::Kind(LineKind::Number))
    } else {
        Ok(pid)
    }
}

/// A field whose value is a pid, next: 1 to 4,194,304, which is the greatest that Linux gives.
/// Errors: `Arity`, `Keyword`, `Number`.
#[tactic(auto, unfolding(crate::specs::Steps::pid_at))]
pub(crate) fn pid_at<'a>(front: &[u8], words: &'a [Text]) -> Result<(u32, &'a [Text]), LineFault>
    ensures { GivesNow line_cause (λ x. (x.0, x.1.now)) result (pid_at front.now words.now) }
{
    let (pid, rest) = parent_pid_at(front, words)?;
    Ok((not_zero(pid)?, rest))
}

/// The text of a pid as a word of its own: a plain number, 1 to 4,194,304. Errors: `Number`.
#[tactic(auto, unfolding(crate::specs::Steps::pid_text))]
pub(crate) fn pid_text(text: &[u8]) -> Result<u32, LineFault>
    ensures { GivesNow line_cause (λ n. n) result (pid_text text.now) }
{
    let value = plain_text(4_194_305, text)?;
    not_zero(value as u32)
}

/// A spelled word in double quotes, possibly empty, which may have double quotes in it. Errors:
/// `Condition`.
#[tactic(auto, unfolding(crate::specs::Steps::quoted_word))]
pub(crate) fn quoted_word(alloc: Global, text: &[u8]) -> Result<Word, LineFault>
    ensures { Gives line_cause (λ word. word) result (quoted_word text.now) }
{
    let inner = quoted(text)?;
    match spelled_word(alloc, inner)? {
        Some(word) => Ok(word),
        None => Err(LineFault::Kind(LineKind::Condition)),
    }
}

// A field whose value is a word in double quotes.
fn quoted_field(alloc: Global, front: &[u8], word: &[u8]) -> Result<Word, LineFault>
    ensures { Gives line_cause (λ word. word) result (quoted_field front.now word.now) }
{
    match after(front, word) {
        Some(text) => quoted_word(alloc, text),
        None => Err(LineFault::Kind(LineKind::Keyword)),
    }
}

/// A field whose value is a word in double quotes, next. Errors: `Arity`, `Keyword`, `Condition`.
pub(crate) fn quoted_at<'a>(
    alloc: Global,
    front: &[u8],
    words: &'a [Text],
) -> Result<(Word, &'a [Text]), LineFault>
    ensures { Gives line_cause (λ x. (x.0, x.1.now)) result (quoted_at front.now words.now) }
{
    match words {
        [] => Err(LineFault::Kind(LineKind::Arity)),
        [word, rest @ ..] => Ok((quoted_field(alloc, front, word.bytes())?, rest)),
    }
}
