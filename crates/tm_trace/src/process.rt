//! Pids and ids.
ghost use Rattle.std.specs.Prelude.{◌≡◌, ◌^◌};
ghost use Rattle.tm_word.specs.Prelude.{GivesNow, words_of};
ghost use Rattle.tm_line.specs.Lines.{ended, line_cause, word_at};
ghost use Rattle.tm_trace.specs.Processes.{pid_word, id_at, ids_to_end};

use tm_line::plain_number;
use tm_types::entry::LineKind;
use tm_types::request::Ids;
use tm_types::step::LineFault;
use tm_word::cut_word;

// A plain number from 1 to 2^32 - 1.
#[tactic(auto, unfolding(crate::specs::Processes::pid_word))]
fn pid_word(text: &[u8]) -> Result<u32, LineFault>
    ensures { GivesNow line_cause (λ pid. pid) result (pid_word text.now) }
{
    let pid = plain_number(text)?;
    if pid == 0 {
        Err(LineFault::Kind(LineKind::Number))
    } else {
        Ok(pid)
    }
}

/// Reads a pid at the front of a text, and answers the text after it. Errors: `Arity` where no word
/// is left, `Number`.
pub(crate) fn pid_at(text: &[u8]) -> Result<(u32, &[u8]), LineFault>
    ensures { GivesNow line_cause (λ x. (x.0, words_of x.1.now)) result
        (word_at pid_word (words_of text.now)) }
{
    match cut_word(text) {
        None => Err(LineFault::Kind(LineKind::Arity)),
        Some((word, rest)) => Ok((pid_word(word)?, rest)),
    }
}

// A plain number below 2^32.
#[tactic(auto, unfolding(crate::specs::Processes::id_at))]
fn id_at(text: &[u8]) -> Result<(u32, &[u8]), LineFault>
    ensures { GivesNow line_cause (λ x. (x.0, words_of x.1.now)) result
        (id_at (words_of text.now)) }
{
    match cut_word(text) {
        None => Err(LineFault::Kind(LineKind::Arity)),
        Some((word, rest)) => Ok((plain_number(word)?, rest)),
    }
}

// What was read, where no word is left.
fn last_ids(ids: Ids, text: &[u8]) -> Result<Ids, LineFault>
    ensures { GivesNow line_cause (λ read. read) result (ended ids (words_of text.now)) }
{
    match cut_word(text) {
        None => Ok(ids),
        Some(_) => Err(LineFault::Kind(LineKind::Arity)),
    }
}

/// Reads eight ids, after which no word stands. Errors: `Arity` where a word is missing or one too
/// many, `Number`.
#[tactic(auto, unfolding(crate::specs::Processes::ids_to_end))]
pub(crate) fn ids_to_end(text: &[u8]) -> Result<Ids, LineFault>
    ensures { GivesNow line_cause (λ ids. ids) result (ids_to_end (words_of text.now)) }
{
    let (uid, rest) = id_at(text)?;
    let (euid, rest) = id_at(rest)?;
    let (suid, rest) = id_at(rest)?;
    let (fsuid, rest) = id_at(rest)?;
    let (gid, rest) = id_at(rest)?;
    let (egid, rest) = id_at(rest)?;
    let (sgid, rest) = id_at(rest)?;
    let (fsgid, rest) = id_at(rest)?;
    let ids = Ids {
        uid,
        euid,
        suid,
        fsuid,
        gid,
        egid,
        sgid,
        fsgid,
    };
    last_ids(ids, rest)
}
