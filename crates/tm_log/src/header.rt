//! Reading the header of a record, as Linux 6.1 prints it.
ghost use Rattle.std.specs.Prelude.{◌≡◌};
ghost use Rattle.tm_word.specs.Prelude.{Gives, GivesNow};
ghost use Rattle.tm_line.specs.Lines.{line_cause};
ghost use Rattle.tm_log.specs.Headers.{is_whole_date, date_end, date_at, mode_value, mode_at, granted_at, closed_pid, global_pid_at, both_at, ids_at, handler_at, task_at, target_at, facts_at, refused_at, process_at, first_at, second_at, files_at, header_of};

use crate::blocks::{Found, found_at};
use crate::exec::{Exec, exec_block};
use crate::steps::{ends_in, id_at, number_at, parent_pid_at, pid_at, pid_text, quoted_at};
use std::alloc::Global;
use tm_trace::only_at;
use tm_types::entry::LineKind;
use tm_types::policy::Mode;
use tm_types::request::{Ids, Proc};
use tm_types::step::LineFault;
use tm_word::{Text, Word, after, begins_with, bytes_equal, of_word};

/// What a header tells of a record: whether its request was refused, the pid of the process in the
/// first namespace, the process in its own namespace, the files of the request, its execute, and
/// the target of its symlink.
#[derive(Drop)]
pub struct Header {
    pub refused: bool,
    pub global_pid: u32,
    pub process: Proc,
    pub first: Found,
    pub second: Found,
    pub exec: Option<Exec>,
    pub target: Option<Word>,
}

// A date of one word, which begins and ends with `#`.
fn is_whole_date(word: &[u8]) -> bool
    ensures { result ≡ is_whole_date word.now }
{
    match word {
        [] => false,
        [first, rest @ ..] => *first == b'#' && ends_in(b'#', rest),
    }
}

// The words after the last word of a date.
fn date_end(words: &[Text]) -> Result<&[Text], LineFault>
    ensures { GivesNow line_cause (λ rest. rest.now) result (date_end words.now) }
{
    match words {
        [] => Err(LineFault::Kind(LineKind::Arity)),
        [word, rest @ ..] => {
            if ends_in(b'#', word.bytes()) {
                Ok(rest)
            } else {
                Err(LineFault::Kind(LineKind::Keyword))
            }
        }
    }
}

// The words after a date of one or two words.
fn date_at(words: &[Text]) -> Result<&[Text], LineFault>
    ensures { GivesNow line_cause (λ rest. rest.now) result (date_at words.now) }
{
    match words {
        [] => Err(LineFault::Kind(LineKind::Arity)),
        [word, rest @ ..] => {
            if is_whole_date(word.bytes()) {
                return Ok(rest);
            }
            if begins_with(b'#', word.bytes()) {
                return date_end(rest);
            }
            Err(LineFault::Kind(LineKind::Keyword))
        }
    }
}

// Whether a mode is enforcing.
#[tactic(auto, unfolding(crate::specs::Headers::mode_value))]
fn mode_value(text: &[u8]) -> Result<bool, LineFault>
    ensures { GivesNow line_cause (λ enforcing. enforcing) result (mode_value text.now) }
{
    match of_word::<Mode>(text) {
        Some(Mode::Enforcing) => Ok(true),
        Some(_) => Ok(false),
        None => Err(LineFault::Kind(LineKind::Keyword)),
    }
}

// `mode=MODE`: whether it is enforcing.
fn mode_at(words: &[Text]) -> Result<(bool, &[Text]), LineFault>
    ensures { GivesNow line_cause (λ x. (x.0, x.1.now)) result (mode_at words.now) }
{
    match words {
        [] => Err(LineFault::Kind(LineKind::Arity)),
        [word, rest @ ..] => match after(b"mode=", word.bytes()) {
            Some(text) => Ok((mode_value(text)?, rest)),
            None => Err(LineFault::Kind(LineKind::Keyword)),
        },
    }
}

// `granted=YESNO`.
fn granted_at(words: &[Text]) -> Result<(bool, &[Text]), LineFault>
    ensures { GivesNow line_cause (λ x. (x.0, x.1.now)) result (granted_at words.now) }
{
    match words {
        [] => Err(LineFault::Kind(LineKind::Arity)),
        [word, rest @ ..] => {
            if bytes_equal(word.bytes(), b"granted=yes") {
                return Ok((true, rest));
            }
            if bytes_equal(word.bytes(), b"granted=no") {
                return Ok((false, rest));
            }
            Err(LineFault::Kind(LineKind::Keyword))
        }
    }
}

// A pid before a closing bracket.
fn closed_pid(text: &[u8]) -> Result<u32, LineFault>
    ensures { GivesNow line_cause (λ n. n) result (closed_pid text.now) }
{
    if ends_in(b')', text) {
        pid_text(&text[..text.len() - 1])
    } else {
        Err(LineFault::Kind(LineKind::Keyword))
    }
}

// `(global-pid=N)`.
fn global_pid_at(words: &[Text]) -> Result<(u32, &[Text]), LineFault>
    ensures { GivesNow line_cause (λ x. (x.0, x.1.now)) result (global_pid_at words.now) }
{
    match words {
        [] => Err(LineFault::Kind(LineKind::Arity)),
        [word, rest @ ..] => match after(b"(global-pid=", word.bytes()) {
            Some(text) => Ok((closed_pid(text)?, rest)),
            None => Err(LineFault::Kind(LineKind::Keyword)),
        },
    }
}

// An id of a user and the one of a group, in fields with these names.
#[tactic(auto, unfolding(crate::specs::Headers::both_at))]
fn both_at<'a>(
    user: &[u8],
    group: &[u8],
    words: &'a [Text],
) -> Result<((u32, u32), &'a [Text]), LineFault>
    ensures { GivesNow line_cause (λ x. (x.0, x.1.now)) result
        (both_at user.now group.now words.now) }
{
    let (user, rest) = id_at(user, words)?;
    let (group, rest) = id_at(group, rest)?;
    Ok(((user, group), rest))
}

// The eight ids of a process.
#[tactic(auto, unfolding(crate::specs::Headers::ids_at))]
fn ids_at(words: &[Text]) -> Result<(Ids, &[Text]), LineFault>
    ensures { GivesNow line_cause (λ x. (x.0, x.1.now)) result (ids_at words.now) }
{
    let ((uid, gid), rest) = both_at(b"uid=", b"gid=", words)?;
    let ((euid, egid), rest) = both_at(b"euid=", b"egid=", rest)?;
    let ((suid, sgid), rest) = both_at(b"suid=", b"sgid=", rest)?;
    let ((fsuid, fsgid), rest) = both_at(b"fsuid=", b"fsgid=", rest)?;
    let ids = Ids {
        uid,
        euid,
        suid,
        fsuid,
        gid,
        egid,
        sgid,
        fsgid,
    };
    Ok((ids, rest))
}

// The words after `type=execute_handler` or `type!=execute_handler`, where one of them stands next.
fn handler_at(words: &[Text]) -> &[Text]
    ensures { result.now ≡ handler_at words.now }
{
    match words {
        [] => words,
        [word, rest @ ..] => {
            if bytes_equal(word.bytes(), b"type=execute_handler")
                || bytes_equal(word.bytes(), b"type!=execute_handler")
            {
                rest
            } else {
                words
            }
        }
    }
}

// `task={ .. }`.
#[tactic(auto, unfolding(crate::specs::Headers::task_at))]
fn task_at(words: &[Text]) -> Result<(Proc, &[Text]), LineFault>
    ensures { GivesNow line_cause (λ x. (x.0, x.1.now)) result (task_at words.now) }
{
    let rest = only_at(b"task={", words)?;
    let (pid, rest) = pid_at(b"pid=", rest)?;
    let (ppid, rest) = parent_pid_at(b"ppid=", rest)?;
    let (ids, rest) = ids_at(rest)?;
    let rest = only_at(b"}", handler_at(rest))?;
    Ok((Proc { pid, ppid, ids }, rest))
}

// `symlink.target=QUOTED`, where a word is left.
#[tactic(auto, unfolding(crate::specs::Headers::target_at))]
fn target_at(alloc: Global, words: &[Text]) -> Result<(Option<Word>, &[Text]), LineFault>
    ensures { Gives line_cause (λ x. (x.0, x.1.now)) result (target_at words.now) }
{
    if words.is_empty() {
        return Ok((None, words));
    }
    let (target, rest) = quoted_at(alloc, b"symlink.target=", words)?;
    Ok((Some(target), rest))
}

// The execute or else the target of a symlink, after which no word stands.
#[tactic(auto, unfolding(crate::specs::Headers::facts_at))]
fn facts_at(alloc: Global, words: &[Text]) -> Result<(Option<Exec>, Option<Word>), LineFault>
    ensures { Gives line_cause (λ x. x) result (facts_at words.now) }
{
    let (exec, rest) = exec_block(alloc, words)?;
    if exec.is_some() {
        if rest.is_empty() {
            return Ok((exec, None));
        }
        return Err(LineFault::Kind(LineKind::Arity));
    }
    let (target, rest) = target_at(alloc, rest)?;
    if rest.is_empty() {
        Ok((None, target))
    } else {
        Err(LineFault::Kind(LineKind::Arity))
    }
}

// The date, the profile, the mode and whether the request was granted: whether it was refused.
#[tactic(auto, unfolding(crate::specs::Headers::refused_at))]
fn refused_at(words: &[Text]) -> Result<(bool, &[Text]), LineFault>
    ensures { GivesNow line_cause (λ x. (x.0, x.1.now)) result (refused_at words.now) }
{
    let rest = date_at(words)?;
    let (_, rest) = number_at(b"profile=", 256, rest)?;
    let (enforcing, rest) = mode_at(rest)?;
    let (granted, rest) = granted_at(rest)?;
    Ok((enforcing && !granted, rest))
}

// The process: its pid in the first namespace, and what it is in its own.
#[tactic(auto, unfolding(crate::specs::Headers::process_at))]
fn process_at(words: &[Text]) -> Result<((u32, Proc), &[Text]), LineFault>
    ensures { GivesNow line_cause (λ x. (x.0, x.1.now)) result (process_at words.now) }
{
    let (global_pid, rest) = global_pid_at(words)?;
    let (process, rest) = task_at(rest)?;
    Ok(((global_pid, process), rest))
}

// The files of the first name.
#[tactic(auto, unfolding(crate::specs::Headers::first_at))]
fn first_at(words: &[Text]) -> Result<(Found, &[Text]), LineFault>
    ensures { GivesNow line_cause (λ x. (x.0, x.1.now)) result (first_at words.now) }
{
    found_at(b"path1={", b"path1.parent={", words)
}

// The files of the second name.
#[tactic(auto, unfolding(crate::specs::Headers::second_at))]
fn second_at(words: &[Text]) -> Result<(Found, &[Text]), LineFault>
    ensures { GivesNow line_cause (λ x. (x.0, x.1.now)) result (second_at words.now) }
{
    found_at(b"path2={", b"path2.parent={", words)
}

// The files that the first and the second name stand for.
#[tactic(auto, unfolding(crate::specs::Headers::files_at))]
fn files_at(words: &[Text]) -> Result<((Found, Found), &[Text]), LineFault>
    ensures { GivesNow line_cause (λ x. (x.0, x.1.now)) result (files_at words.now) }
{
    let (first, rest) = first_at(words)?;
    let (second, rest) = second_at(rest)?;
    Ok(((first, second), rest))
}

/// Reads the words of a header: the date, the profile, the mode, whether the request was granted,
/// the process, the files of the request, and its execute or the target of its symlink. Errors: the
/// first word at which it can't go on.
#[tactic(auto, unfolding(crate::specs::Headers::header_of))]
pub fn read_header(alloc: Global, words: &[Text]) -> Result<Header, LineFault>
    ensures { Gives line_cause (λ header. header) result (header_of words.now) }
{
    let (refused, rest) = refused_at(words)?;
    let ((global_pid, process), rest) = process_at(rest)?;
    let ((first, second), rest) = files_at(rest)?;
    let (exec, target) = facts_at(alloc, rest)?;
    Ok(Header {
        refused,
        global_pid,
        process,
        first,
        second,
        exec,
        target,
    })
}
