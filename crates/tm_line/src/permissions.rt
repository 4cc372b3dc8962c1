//! Lists of permissions.
ghost use Rattle.std.specs.Prelude.{◌≡◌, ◌++◌, map, Bool, Ok, ⊤, MatchOption, IfOk, OnOk, OnErr};
ghost use Rattle.tm_word.specs.Prelude.{Gives};
ghost use Rattle.tm_line.specs.Lines.{line_cause};
ghost use Rattle.tm_line.specs.Permissions.{names, masked, mask_in, starts_in, pieces_of, bits_of, finishes, perms_of, perm_on, perms_spelling};

use crate::words::keyword_kind;
use std::alloc::Global;
use tm_domain::types::step::LineFault;
use tm_word::list::{NoMemory, Seq};
use tm_word::{Text, begins_in, name_of, place_of, value_of};

/// The rows of permissions: those that one line may have together.
#[derive(Clone, Copy)]
pub enum Row {
    /// `file P NAME`.
    Path,
    /// `file P NAME NUMBER`.
    PathNumber,
    /// `file P NAME MODE MAJOR MINOR`.
    Device,
    /// `file P NAME NAME`.
    Pair,
    /// Sockets with connections.
    Listening,
    /// Sockets without connections.
    Sending,
}

/// The permissions of a row in order, each with its bit: the one table by which they are read and
/// printed.
fn masks(acl_row: Row) -> &'static [(&'static str, u16)]
    ensures { map (λ row. (row.0.now, row.1)) result.now ≡ masked 1 (names acl_row) }
{
    match acl_row {
        Row::Path => &[
            ("execute", 1),
            ("read", 2),
            ("write", 4),
            ("append", 8),
            ("unlink", 16),
            ("getattr", 32),
            ("rmdir", 64),
            ("truncate", 128),
            ("symlink", 256),
            ("chroot", 512),
            ("unmount", 1024),
        ],
        Row::PathNumber => &[
            ("create", 1),
            ("mkdir", 2),
            ("mkfifo", 4),
            ("mksock", 8),
            ("ioctl", 16),
            ("chmod", 32),
            ("chown", 64),
            ("chgrp", 128),
        ],
        Row::Device => &[("mkblock", 1), ("mkchar", 2)],
        Row::Pair => &[("link", 1), ("rename", 2), ("pivot_root", 4)],
        Row::Listening => &[("bind", 1), ("listen", 2), ("connect", 4)],
        Row::Sending => &[("bind", 1), ("send", 2)],
    }
}

/// The bit of a permission of the row: bit i for the one at place i.
#[tactic(auto, using(crate::proofs::Masks::mask_of))]
pub fn mask_in(acl_row: Row, piece: &[u8]) -> Option<u16>
    ensures { result ≡ mask_in acl_row piece.now }
{
    value_of(masks(acl_row), piece)
}

/// Whether a text is a front of a permission of the row, or one.
#[tactic(auto, using(crate::proofs::Masks::front_of))]
pub fn starts_in(acl_row: Row, piece: &[u8]) -> bool
    ensures { result ≡ starts_in acl_row piece.now }
{
    begins_in(masks(acl_row), piece)
}

/// What stands between the slashes of a word.
pub fn pieces_of(alloc: Global, word: &[u8]) -> Result<Vec<Text>, NoMemory>
    ensures { IfOk result (λ made. made.items ≡ pieces_of word.now) }
{
    let mut made = Vec::new(alloc);
    for piece in word.split(|byte| *byte == b'/') {
        made.push(Seq::from_bytes(alloc, piece)?)?;
    }
    Ok(made)
}

fn bits_of(acl_row: Row, pieces: &[Text]) -> Option<u16>
    ensures { result ≡ bits_of 0 acl_row pieces.now }
{
    let mut bits = 0u16;
    for piece in pieces {
        match mask_in(acl_row, piece.bytes()) {
            Some(mask) => bits |= mask,
            None => return None,
        }
    }
    Some(bits)
}

fn finishes(acl_row: Row, pieces: &[Text]) -> bool
    ensures { result ≡ finishes acl_row pieces.now }
{
    let mut rest = pieces;
    while let [piece, more @ ..] = rest {
        if more.is_empty() {
            return starts_in(acl_row, piece.bytes());
        }
        if mask_in(acl_row, piece.bytes()).is_none() {
            return false;
        }
        rest = more;
    }
    false
}

// The bits of a word that is one permission of the row, without a `/`.
#[tactic(auto, using(crate::proofs::OnePerm::one_perm))]
fn one_perm(acl_row: Row, word: &[u8]) -> Option<u16>
    ensures { MatchOption result ⊤
        (λ bits. (last : Bool) → perms_of acl_row word.now last ≡ Ok bits) }
{
    match place_of(b'/', word) {
        Some(_) => None,
        None => match mask_in(acl_row, word) {
            Some(mask) => Some(0 | mask),
            None => None,
        },
    }
}

/// Reads permissions of a row, joined by `/` in any order and repeated; `last` says whether the
/// word is the line's last one.
///
/// Errors: `Arity` where the last word is an unfinished list, else `Keyword` where a piece of the
/// word is no permission of the row.
#[tactic(auto, unfolding(crate::specs::Permissions::perms_of))]
pub fn read_perms(alloc: Global, acl_row: Row, word: &[u8], last: bool) -> Result<u16, LineFault>
    ensures { Gives line_cause (λ bits. bits) result (perms_of acl_row word.now last) }
{
    if let Some(bits) = one_perm(acl_row, word) {
        return Ok(bits);
    }
    let pieces = pieces_of(alloc, word)?;
    match bits_of(acl_row, &pieces) {
        Some(bits) => Ok(bits),
        None => {
            let unfinished = last && finishes(acl_row, &pieces);
            Err(LineFault::Kind(keyword_kind(unfinished)))
        }
    }
}

#[tactic(auto, unfolding(crate::specs::Permissions::perm_on))]
fn push_perm(bits: u16, mask: u16, name: &[u8], text: &mut Vec<u8>) -> Result<(), NoMemory>
    ensures { OnOk result (text.new.items ≡ perm_on bits mask name.now text.old.items) }
{
    if bits & mask == 0 {
        return Ok(());
    }
    if text.len() == 0 {
        return text.extend_from_slice(name);
    }
    text.push(b'/')?;
    text.extend_from_slice(name)
}

#[tactic(auto, using(crate::proofs::Masks::text_of))]
fn perms_text(alloc: Global, acl_row: Row, bits: u16) -> Result<Vec<u8>, NoMemory>
    ensures { IfOk result (λ text. text.items ≡ perms_spelling acl_row bits) }
{
    let mut text = Vec::new(alloc);
    let table = masks(acl_row);
    for (name, mask) in table {
        push_perm(bits, *mask, name.as_bytes(), &mut text)?;
    }
    Ok(text)
}

// The name of the one permission of the row that is set; None where none or several are.
#[tactic(auto, using(crate::proofs::Masks::only_one))]
fn only_name(acl_row: Row, bits: u16) -> Option<&'static str>
    ensures { MatchOption result ⊤ (λ name. perms_spelling acl_row bits ≡ name.now) }
{
    name_of(masks(acl_row), bits)
}

/// Appends the permissions of a row in its order, joined by `/`. After want of memory `out` is as
/// before.
pub fn print_perms(
    alloc: Global,
    acl_row: Row,
    bits: u16,
    out: &mut Vec<u8>,
) -> Result<(), NoMemory>
    ensures ok { OnOk result (out.new.items ≡ out.old.items ++ perms_spelling acl_row bits) }
    ensures err { OnErr result (out.new.items ≡ out.old.items) }
{
    if let Some(name) = only_name(acl_row, bits) {
        return out.extend_from_slice(name.as_bytes());
    }
    let text = perms_text(alloc, acl_row, bits)?;
    out.extend_from_slice(&text)
}
