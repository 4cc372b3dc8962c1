//! Reading the lines of files.
ghost use Rattle.std.specs.Prelude.{◌≡◌, ◌≤◌, ◌-◌, ℕ, true, false, List, Ok, length, drop, IfOk};
ghost use Rattle.std.specs.List.{list_all};
ghost use Rattle.tm_word.specs.Prelude.{Gives, Text, is_word, joined, words_of};
ghost use Rattle.tm_rules.specs.Types.{Args, Perms};
ghost use Rattle.tm_line.specs.Lines.{line_cause};
ghost use Rattle.tm_line.specs.Permissions.{pieces_of};
ghost use Rattle.tm_file.specs.FileLines.{row_of, row_in, starts_any, is_unfinished, args_at, mount_at, row_line, perms_line, file_line, counted, file_words, is_file, perms, IsReadAgain};

use crate::prefer::path_at;
use std::alloc::Global;
use tm_line::{Row, keyword_at, mask_in, name_at, number_at, pieces_of, read_perms, starts_in};
use tm_types::entry::{Args, LineKind, Perms};
use tm_types::step::LineFault;
use tm_word::{Text, begins, bytes_equal};

/// The row that has this permission, if one does.
#[tactic(auto, unfolding(crate::specs::FileLines::row_of))]
pub fn row_of(piece: &[u8]) -> Option<Row>
    ensures { result ≡ row_of piece.now }
{
    if mask_in(Row::Path, piece).is_some() {
        Some(Row::Path)
    } else if mask_in(Row::PathNumber, piece).is_some() {
        Some(Row::PathNumber)
    } else if mask_in(Row::Device, piece).is_some() {
        Some(Row::Device)
    } else if mask_in(Row::Pair, piece).is_some() {
        Some(Row::Pair)
    } else {
        None
    }
}

fn row_in(pieces: &[Text]) -> Option<Row>
    ensures { result ≡ row_in pieces.now }
{
    match pieces {
        [] => None,
        [piece, ..] => row_of(piece.bytes()),
    }
}

#[tactic(auto, unfolding(crate::specs::FileLines::starts_any))]
fn starts_any(piece: &[u8]) -> bool
    ensures { result ≡ starts_any piece.now }
{
    starts_in(Row::Path, piece)
        || starts_in(Row::PathNumber, piece)
        || starts_in(Row::Device, piece)
        || starts_in(Row::Pair, piece)
        || begins(piece, b"mount")
}

fn is_unfinished(pieces: &[Text]) -> bool
    ensures { result ≡ is_unfinished pieces.now }
{
    match pieces {
        [] => false,
        [piece] => starts_any(piece.bytes()),
        [_, _, ..] => false,
    }
}

// A name and a number.
#[tactic(auto, unfolding(crate::specs::FileLines::args_at))]
fn numbered_at(alloc: Global, words: &[Text]) -> Result<(Args, &[Text]), LineFault>
    ensures { Gives line_cause (λ x. (x.0, x.1.now)) result
        (args_at Row.PathNumber false words.now) }
{
    let (name, rest) = name_at(alloc, words)?;
    let (number, rest) = number_at(alloc, rest)?;
    Ok((Args::PathNumber(name, number), rest))
}

// A name and the three numbers of a device.
#[tactic(auto, unfolding(crate::specs::FileLines::args_at))]
fn device_at(alloc: Global, words: &[Text]) -> Result<(Args, &[Text]), LineFault>
    ensures { Gives line_cause (λ x. (x.0, x.1.now)) result (args_at Row.Device false words.now) }
{
    let (name, rest) = name_at(alloc, words)?;
    let (mode, rest) = number_at(alloc, rest)?;
    let (major, rest) = number_at(alloc, rest)?;
    let (minor, rest) = number_at(alloc, rest)?;
    Ok((Args::device(alloc, name, mode, major, minor)?, rest))
}

// Two names.
#[tactic(auto, unfolding(crate::specs::FileLines::args_at))]
fn pair_at(alloc: Global, words: &[Text]) -> Result<(Args, &[Text]), LineFault>
    ensures { Gives line_cause (λ x. (x.0, x.1.now)) result (args_at Row.Pair false words.now) }
{
    let (first, rest) = name_at(alloc, words)?;
    let (second, rest) = name_at(alloc, rest)?;
    Ok((Args::Path2(first, second), rest))
}

// The arguments of a row.
#[tactic(auto, unfolding(crate::specs::FileLines::args_at))]
fn args_at(
    alloc: Global,
    row: Row,
    alone: bool,
    words: &[Text],
) -> Result<(Args, &[Text]), LineFault>
    ensures { Gives line_cause (λ x. (x.0, x.1.now)) result (args_at row alone words.now) }
{
    match row {
        Row::Path => path_at(alloc, alone, words),
        Row::PathNumber => numbered_at(alloc, words),
        Row::Device => device_at(alloc, words),
        Row::Pair => pair_at(alloc, words),
        Row::Listening | Row::Sending => Err(LineFault::Kind(LineKind::Keyword)),
    }
}

// The arguments of a mount.
#[tactic(auto, unfolding(crate::specs::FileLines::mount_at))]
fn mount_at(alloc: Global, words: &[Text]) -> Result<(Args, &[Text]), LineFault>
    ensures { Gives line_cause (λ x. (x.0, x.1.now)) result (mount_at words.now) }
{
    let (device, rest) = name_at(alloc, words)?;
    let (dir, rest) = name_at(alloc, rest)?;
    let (kind, rest) = name_at(alloc, rest)?;
    let (flags, rest) = number_at(alloc, rest)?;
    Ok((Args::mount(alloc, device, dir, kind, flags)?, rest))
}

// Permissions of one row, and its arguments.
#[tactic(auto, unfolding(crate::specs::FileLines::row_line))]
fn row_line<'a>(
    alloc: Global,
    word: &[u8],
    words: &'a [Text],
) -> Result<(Args, Perms, &'a [Text]), LineFault>
    ensures { Gives line_cause (λ x. (x.0, x.1, x.2.now)) result
        (row_line (row_in (pieces_of word.now)) word.now words.now) }
{
    let pieces = pieces_of(alloc, word)?;
    match row_in(&pieces) {
        None => {
            if words.is_empty() && is_unfinished(&pieces) {
                Err(LineFault::Kind(LineKind::Arity))
            } else {
                Err(LineFault::Kind(LineKind::Keyword))
            }
        }
        Some(row) => {
            let bits = read_perms(alloc, row, word, words.is_empty())?;
            let (args, rest) = args_at(alloc, row, bytes_equal(word, b"execute"), words)?;
            Ok((args, Perms { bits }, rest))
        }
    }
}

// What stands after `file`.
#[tactic(auto, unfolding(crate::specs::FileLines::perms_line))]
fn perms_line(alloc: Global, words: &[Text]) -> Result<(Args, Perms, &[Text]), LineFault>
    ensures { Gives line_cause (λ x. (x.0, x.1, x.2.now)) result (perms_line words.now) }
{
    match words {
        [] => Err(LineFault::Kind(LineKind::Arity)),
        [word, rest @ ..] => {
            if bytes_equal(word.bytes(), b"mount") {
                let (args, rest) = mount_at(alloc, rest)?;
                Ok((args, Perms { bits: 1 }, rest))
            } else {
                row_line(alloc, word.bytes(), rest)
            }
        }
    }
}

/// Reads a file line at the front of these words: its arguments and permissions, and the words
/// after them, which are its conditions.
/// Permissions of one row may be joined by `/`, in any order and repeated; a transition preference
/// is read where the word of the permissions is `execute`.
///
/// Errors: the kind of the first word at which the line can't go on, and `Arity` where a word is
/// missing.
#[tactic(auto, unfolding(crate::specs::FileLines::file_line))]
pub fn file_acl_at(alloc: Global, words: &[Text]) -> Result<(Args, Perms, &[Text]), LineFault>
    ensures { Gives line_cause (λ x. (x.0, x.1, x.2.now)) result (file_line words.now) }
{
    let rest = keyword_at(b"file", words)?;
    perms_line(alloc, rest)
}

/// Reads a file line at the front of these words: its arguments and permissions, and how many words
/// they took.
///
/// Errors: the kind of the first word at which the line can't go on, and `Arity` where a word is
/// missing.
pub fn read_file_acl(alloc: Global, words: &[Text]) -> Result<(Args, Perms, usize), LineFault>
    ensures exact { Gives line_cause (λ x. x) result
        (counted (length words.now) (file_line words.now)) }
    ensures within { IfOk result (λ x. x.2 ≤ length words.now) }
{
    let (args, perms, rest) = file_acl_at(alloc, words)?;
    Ok((args, perms, words.len().saturating_sub(rest.len())))
}

/// File lines, as laws over all words: arguments and permissions that a line can write are read
/// from their printed words, whatever conditions follow; what is read is one that a line can write,
/// and its printed words are read as the same. The words that follow are no preference: the first
/// of them is none of the five words and begins with neither `/` nor `<`.
pub fn round_trip()
    ensures written { (a : Args) (bits : ℕ) → is_file a bits ≡ true → IsReadAgain a (perms bits) }
    ensures read { (words rest : List Text) (a : Args) (p : Perms)
        → file_line words ≡ Ok (a, p, rest) → is_file a p.bits ≡ true }
    // How many words a line took tells which are left.
    ensures left { (words rest : List Text) (a : Args) (p : Perms)
        → file_line words ≡ Ok (a, p, rest) → rest ≡ drop (length words - length rest) words }
    // What is printed is made of words, which are found again in the line that joins them.
    ensures words { (a : Args) (bits : ℕ) → is_file a bits ≡ true
        → list_all is_word (file_words a bits) ≡ true }
    ensures text { (a : Args) (bits : ℕ) → is_file a bits ≡ true
        → words_of (joined (file_words a bits)) ≡ file_words a bits }
    ensures normal { (words rest : List Text) (a : Args) (p : Perms)
        → file_line words ≡ Ok (a, p, rest)
        → IsReadAgain a p }
{}
