//! Scripts, read line by line.
ghost use Rattle.tm_word.specs.Prelude.{Gives, words_of};
ghost use Rattle.tm_script.specs.Steps.{kind_cause};
ghost use Rattle.tm_script.specs.Lines.{script_cause, line_read, numbered, script_of};

use crate::steps::KindFault;
use std::alloc::Global;
use tm_types::request::ScriptFault;
use tm_word::{Text, cut_at, normal_words};

/// What has been read of a script: editors, a book, or turns.
pub trait Script: Drop {
    ghost use Rattle.std.specs.Prelude.{ℕ, List, Result};
    ghost use Rattle.tm_rules.specs.Types.{ScriptKind};
    ghost use Rattle.tm_word.specs.Prelude.{Gives};
    ghost use Rattle.tm_script.specs.Steps.{kind_cause};

    // What a line of words makes of what has been read so far.
    ghost line: { Self → List ℕ → List (List ℕ) → Result Self ScriptKind };

    /// One line more: its first word, and the others.
    fn after_words(self, alloc: Global, key: &[u8], words: &[Text]) -> Result<Self, KindFault>
        ensures { Gives kind_cause (λ next. next) result (line self key.now words.now) };
}

/// What has been read after one line more; a line without words does nothing.
fn after_line<S: Script>(alloc: Global, so_far: S, text: &[u8]) -> Result<S, KindFault>
    ensures { Gives kind_cause (λ next. next) result (line_read S.line so_far (words_of text.now)) }
{
    let words = normal_words(alloc, text)?;
    match words.as_slice() {
        [] => Ok(so_far),
        [key, words @ ..] => so_far.after_words(alloc, key.bytes(), words),
    }
}

/// The same, where a wrong line is named by its number.
fn numbered_line<S: Script>(
    alloc: Global,
    number: u64,
    so_far: S,
    text: &[u8],
) -> Result<S, ScriptFault>
    ensures { Gives script_cause (λ next. next) result
        (numbered number (line_read S.line so_far (words_of text.now))) }
{
    match after_line(alloc, so_far, text) {
        Ok(next) => Ok(next),
        Err(KindFault::Kind(kind)) => Err(ScriptFault::Line(number, kind)),
        Err(KindFault::NoMemory) => Err(ScriptFault::NoMemory),
    }
}

/// What has been read after all lines of a text. Lines without words count and are skipped.
///
/// Errors: the first wrong line, from 1, with the kind of its first wrong word, or want of memory.
#[tactic(auto, unfolding(crate::specs::Lines::script_lines))]
pub fn read_script<S: Script>(alloc: Global, start: S, text: &[u8]) -> Result<S, ScriptFault>
    ensures { Gives script_cause (λ read. read) result (script_of S.line start text.now) }
{
    let mut so_far = start;
    let mut rest = text;
    let mut number = 1;
    while let Some((line, after)) = cut_at(b'\n', rest) {
        so_far = numbered_line(alloc, number, so_far, line)?;
        rest = after;
        number += 1;
    }
    numbered_line(alloc, number, so_far, rest)
}
