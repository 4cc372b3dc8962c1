//! Pieces of a condition's word, and the words of one table.
ghost use Rattle.std.specs.Prelude.{◌≡◌, Some, None, MatchOption};
ghost use Rattle.tm_word.specs.Prelude.{GivesNow};
ghost use Rattle.tm_line.specs.Lines.{line_cause};
ghost use Rattle.tm_cond.specs.Attributes.{or_wrong, without_last, quoted, id_word, field_word, parent_word, kind_word};

use tm_types::entry::{FileKindWord, IdField, LineKind, StatField};
use tm_types::step::LineFault;
use tm_word::value_of;

/// The ids of a process, by their names.
pub(crate) const IDS: [(&str, IdField); 10] = [
    ("uid", IdField::Uid),
    ("euid", IdField::Euid),
    ("suid", IdField::Suid),
    ("fsuid", IdField::Fsuid),
    ("gid", IdField::Gid),
    ("egid", IdField::Egid),
    ("sgid", IdField::Sgid),
    ("fsgid", IdField::Fsgid),
    ("pid", IdField::Pid),
    ("ppid", IdField::Ppid),
];

/// The numbers of a file, by their names; the first four are those of its folder too.
pub(crate) const FIELDS: [(&str, StatField); 8] = [
    ("uid", StatField::Uid),
    ("gid", StatField::Gid),
    ("ino", StatField::Ino),
    ("perm", StatField::Perm),
    ("major", StatField::Major),
    ("minor", StatField::Minor),
    ("dev_major", StatField::DevMajor),
    ("dev_minor", StatField::DevMinor),
];

/// The types of files, by their names.
pub(crate) const KINDS: [(&str, FileKindWord); 7] = [
    ("file", FileKindWord::File),
    ("directory", FileKindWord::Directory),
    ("symlink", FileKindWord::Symlink),
    ("socket", FileKindWord::Socket),
    ("fifo", FileKindWord::Fifo),
    ("char", FileKindWord::Char),
    ("block", FileKindWord::Block),
];

/// The text without its last byte, where that is this one.
#[tactic(auto, unfolding(crate::specs::Attributes::without_last))]
pub fn without_last(byte: u8, text: &[u8]) -> Option<&[u8]>
    ensures { MatchOption result (without_last byte text.now ≡ None)
        (λ front. without_last byte text.now ≡ Some front.now) }
{
    let length = text.len();
    if length > 0 && text[length - 1] == byte {
        Some(&text[..length - 1])
    } else {
        None
    }
}

/// The text without its last byte, which has to be this one. Errors: `Condition`.
pub fn closed(byte: u8, text: &[u8]) -> Result<&[u8], LineFault>
    ensures { GivesNow line_cause (λ front. front.now) result
        (or_wrong (without_last byte text.now)) }
{
    match without_last(byte, text) {
        Some(front) => Ok(front),
        None => Err(LineFault::Kind(LineKind::Condition)),
    }
}

/// What stands between two double quotes, the first byte and the last one. Errors: `Condition`.
pub fn quoted(text: &[u8]) -> Result<&[u8], LineFault>
    ensures { GivesNow line_cause (λ inner. inner.now) result (quoted text.now) }
{
    match text {
        [b'"', rest @ ..] => closed(b'"', rest),
        _ => Err(LineFault::Kind(LineKind::Condition)),
    }
}

/// The id of a process with this name.
#[tactic(auto, unfolding(crate::specs::Attributes::id_word))]
pub fn id_word(text: &[u8]) -> Option<IdField>
    ensures { result ≡ id_word text.now }
{
    value_of(&IDS, text)
}

/// The number of a file with this name.
#[tactic(auto, unfolding(crate::specs::Attributes::field_word))]
pub fn field_word(text: &[u8]) -> Option<StatField>
    ensures { result ≡ field_word text.now }
{
    value_of(&FIELDS, text)
}

/// The number of a file's folder with this name.
#[tactic(auto, unfolding(crate::specs::Attributes::parent_word))]
pub fn parent_word(text: &[u8]) -> Option<StatField>
    ensures { result ≡ parent_word text.now }
{
    value_of(&FIELDS[..4], text)
}

/// The type of a file with this name.
#[tactic(auto, unfolding(crate::specs::Attributes::kind_word))]
pub fn kind_word(text: &[u8]) -> Option<FileKindWord>
    ensures { result ≡ kind_word text.now }
{
    value_of(&KINDS, text)
}
