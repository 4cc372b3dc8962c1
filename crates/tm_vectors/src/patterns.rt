//! What is a right pattern, and what a pattern matches.
ghost use Rattle.std.specs.Prelude.{◌≡◌, IfOk};
ghost use Rattle.std.specs.Result.{result_ok};
ghost use Rattle.tm_pattern.specs.Reading.{pattern_of};
ghost use Rattle.tm_vectors.specs.Answers.{is_right, is_matched};

use std::alloc::{AllocError, Global};
use tm_list::NoMemory;
use tm_pattern::{PatternFault, matches, read_pattern};
use tm_word::{Pattern, spelled_word};

/// The pattern that a text writes; none where it is no right pattern.
fn pattern_of(alloc: Global, text: &[u8]) -> Result<Option<Pattern>, NoMemory>
    ensures { IfOk result (λ pattern. pattern ≡ result_ok (pattern_of text.now)) }
{
    match read_pattern(alloc, text) {
        Ok(pattern) => Ok(Some(pattern)),
        Err(PatternFault::NoMemory) => Err(AllocError),
        Err(_) => Ok(None),
    }
}

/// Whether a text is a right pattern.
pub fn is_right(alloc: Global, text: &[u8]) -> Result<bool, NoMemory>
    ensures { IfOk result (λ right. right ≡ is_right text.now) }
{
    Ok(pattern_of(alloc, text)?.is_some())
}

/// Whether a pattern matches a name; none where one of the two isn't rightly spelled.
pub fn is_matched(alloc: Global, pattern: &[u8], name: &[u8]) -> Result<Option<bool>, NoMemory>
    ensures { IfOk result (λ matched. matched ≡ is_matched pattern.now name.now) }
{
    let Some(pattern) = pattern_of(alloc, pattern)? else {
        return Ok(None);
    };
    match spelled_word(alloc, name)? {
        Some(name) => Ok(Some(matches(&pattern, &name))),
        None => Ok(None),
    }
}
