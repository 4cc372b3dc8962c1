//! Words of lines.
ghost use Rattle.std.specs.Prelude.{◌≡◌, ◌∷◌, IfOk};
ghost use Rattle.tm_word.specs.Prelude.{GivesNow, joined};
ghost use Rattle.tm_line.specs.Lines.{line_cause, ended, keyword_kind, keyword_at, option_at};

use std::alloc::Global;
use tm_domain::types::entry::LineKind;
use tm_domain::types::step::LineFault;
use tm_word::list::NoMemory;
use tm_word::{Text, begins, bytes_equal};

/// What a wrong word is where a keyword must stand: `Arity` where it is an unfinished one, else
/// `Keyword`.
pub fn keyword_kind(unfinished: bool) -> LineKind
    ensures { result ≡ keyword_kind unfinished }
{
    if unfinished {
        LineKind::Arity
    } else {
        LineKind::Keyword
    }
}

/// The value of a line after which no word may be left. Errors: `Arity` at a word that is left.
/// Takes no memory.
pub fn ended<T: Drop>(value: T, words: &[Text]) -> Result<T, LineFault>
    ensures { GivesNow line_cause (λ x. x) result (ended value words.now) }
{
    match words {
        [] => Ok(value),
        [_, ..] => Err(LineFault::Kind(LineKind::Arity)),
    }
}

/// Takes a keyword, and answers the words after it.
///
/// Errors: `Arity` where no word is left or the last one is an unfinished keyword, `Keyword` at any
/// other word.
pub fn keyword_at<'a>(keyword: &[u8], words: &'a [Text]) -> Result<&'a [Text], LineFault>
    ensures { GivesNow line_cause (λ rest. rest.now) result (keyword_at keyword.now words.now) }
{
    match words {
        [] => Err(LineFault::Kind(LineKind::Arity)),
        [word, rest @ ..] => {
            if bytes_equal(word.bytes(), keyword) {
                Ok(rest)
            } else {
                let unfinished = rest.is_empty() && begins(word.bytes(), keyword);
                Err(LineFault::Kind(keyword_kind(unfinished)))
            }
        }
    }
}

/// Takes a word that may stand at the front, and answers whether it stood there, and the words
/// after it.
pub fn option_at<'a>(keyword: &[u8], words: &'a [Text]) -> (bool, &'a [Text])
    ensures { (result.0, result.1.now) ≡ option_at keyword.now words.now }
{
    match words {
        [] => (false, words),
        [word, rest @ ..] => {
            if bytes_equal(word.bytes(), keyword) {
                (true, rest)
            } else {
                (false, words)
            }
        }
    }
}

/// A word and those after it, joined by single spaces.
pub fn joined_after(alloc: Global, first: &[u8], rest: &[Text]) -> Result<Vec<u8>, NoMemory>
    ensures { IfOk result (λ text. text.items ≡ joined (first.now ∷ rest.now)) }
{
    let mut text = Vec::from_slice(alloc, first)?;
    for word in rest {
        text.push(b' ')?;
        text.extend_from_slice(word.bytes())?;
    }
    Ok(text)
}

/// The words joined by single spaces.
pub fn joined(alloc: Global, words: &[Text]) -> Result<Vec<u8>, NoMemory>
    ensures { IfOk result (λ text. text.items ≡ joined words.now) }
{
    match words {
        [] => Ok(Vec::new(alloc)),
        [first, rest @ ..] => joined_after(alloc, first.bytes(), rest),
    }
}
