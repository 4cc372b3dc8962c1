//! What the words of the lines of a take say.
ghost use Rattle.std.specs.Prelude.{◌≡◌, None, Some, IfOk, MatchOption};
ghost use Rattle.tm_word.specs.Prelude.{words_of};
ghost use Rattle.tm_run.specs.Fields.{numbers_of};
ghost use Rattle.tm_run.specs.Reading.{take_of, look_of, audit_of};

use crate::fields::{heard_of, move_of, numbers_of, reason_of, u32_of, u64_of};
use std::alloc::Global;
use tm_list::{NoMemory, Seq};
use tm_types::brief::Brief;
use tm_types::step::{Look, Take};
use tm_word::{Text, bytes_equal, cut_word, of_word, spelled_word};

// A take before its first look.
#[tactic(auto, unfolding(crate::specs::Reading::take_of))]
pub(crate) fn take_of(alloc: Global, line: &[u8]) -> Option<Take>
    ensures { result ≡ take_of (words_of line.now) }
{
    let (_, rest) = cut_word(line)?;
    let (_, rest) = cut_word(rest)?;
    let (pid, rest) = cut_word(rest)?;
    let (before, rest) = cut_word(rest)?;
    let (after, rest) = cut_word(rest)?;
    let (answer, rest) = cut_word(rest)?;
    match cut_word(rest) {
        None => Some(Take {
            pid: u32_of(pid),
            before: u32_of(before),
            after: u32_of(after),
            granted: bytes_equal(answer, b"granted"),
            looks: Seq::new(alloc),
            audit: None,
        }),
        Some(_) => None,
    }
}

// A look without the numbers of its steps, and the word that these are.
#[tactic(auto, unfolding(crate::specs::Reading::look_of, crate::specs::Fields::mode_of))]
fn look_at(alloc: Global, line: &[u8]) -> Option<(Look, &[u8])>
    ensures { MatchOption result (look_of (words_of line.now) ≡ None)
        (λ found. look_of (words_of line.now)
        ≡ Some (record found.0 { own = numbers_of found.1.now })) }
{
    let (_, rest) = cut_word(line)?;
    let (version, rest) = cut_word(rest)?;
    let (mode, rest) = cut_word(rest)?;
    let (reason, rest) = cut_word(rest)?;
    let (step, rest) = cut_word(rest)?;
    let (own, rest) = cut_word(rest)?;
    let (heard, rest) = cut_word(rest)?;
    match cut_word(rest) {
        None => {
            let look = Look {
                version: u64_of(version),
                mode: of_word(mode),
                reason: reason_of(reason),
                step: move_of(step),
                own: Brief::new(alloc),
                heard: heard_of(heard),
            };
            Some((look, own))
        }
        Some(_) => None,
    }
}

pub(crate) fn look_of(alloc: Global, line: &[u8]) -> Result<Option<Look>, NoMemory>
    ensures { IfOk result (λ look. look ≡ look_of (words_of line.now)) }
{
    match look_at(alloc, line) {
        None => Ok(None),
        Some((mut look, own)) => {
            look.own = numbers_of(alloc, own)?;
            Ok(Some(look))
        }
    }
}

// The audit text of a take; none where it is `-` or no spelled word.
#[tactic(auto, unfolding(crate::specs::Reading::audit_of))]
pub(crate) fn audit_of(alloc: Global, line: &[u8]) -> Result<Option<Text>, NoMemory>
    ensures { IfOk result (λ audit. audit ≡ audit_of (words_of line.now)) }
{
    let Some((_, rest)) = cut_word(line) else {
        return Ok(None);
    };
    let Some((word, rest)) = cut_word(rest) else {
        return Ok(None);
    };
    match cut_word(rest) {
        None => {
            if bytes_equal(word, b"-") || bytes_equal(word, b"") {
                Ok(None)
            } else {
                spelled_word(alloc, word)
            }
        }
        Some(_) => Ok(None),
    }
}
