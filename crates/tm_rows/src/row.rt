//! Rows: a call, and what is expected of it.
ghost use Rattle.std.specs.Prelude.{◌≡◌, ◌++◌, IfOk, OnOk};
ghost use Rattle.tm_rows.specs.Pieces.{numbered, copy_text, piece_text, file_of, expected};

use std::alloc::Global;
use tm_io::{FileList, FileName};
use tm_list::NoMemory;
use tm_number::write_decimal;
use tm_word::Text;

/// All files that the commands read and write.
pub const NAMES: [FileName; 33] = [
    FileName::Profile,
    FileName::ExceptionPolicy,
    FileName::DomainPolicy,
    FileName::Manager,
    FileName::Trace,
    FileName::Edits,
    FileName::Answers,
    FileName::Schedule,
    FileName::Run,
    FileName::Audit,
    FileName::ProfileNew,
    FileName::ExceptionPolicyNew,
    FileName::DomainPolicyNew,
    FileName::ManagerNew,
    FileName::Run2,
    FileName::Audit2,
    FileName::Sorter,
    FileName::AuditPart(0),
    FileName::AuditPart(1),
    FileName::AuditPart(2),
    FileName::AuditPart(3),
    FileName::AuditPart(4),
    FileName::AuditPart(5),
    FileName::AuditPart(6),
    FileName::AuditPart(7),
    FileName::AuditPart(8),
    FileName::AuditPart(9),
    FileName::AuditPart(10),
    FileName::AuditPart(11),
    FileName::AuditPart(12),
    FileName::AuditPart(13),
    FileName::AuditPart(14),
    FileName::AuditPart(15),
];

/// Bytes that stand once in the table, and so many times in what they are a piece of. Where the
/// copies are numbered, the number of the copy, from 1, stands in it for each `%`.
#[derive(Drop)]
pub struct Piece {
    pub copies: u32,
    pub is_numbered: bool,
    pub bytes: Text,
}

/// A row: the words of a call, the files that it finds and what of it is to fail, and what is
/// expected of it. A file that is neither there nor expected has no piece; a file that is expected
/// as it was has none among the stored ones. Where there are files to cut, the row is their cuts,
/// and nothing else is expected of it.
#[derive(Drop)]
pub struct Row {
    pub name: Text,
    pub words: Vec<String>,
    pub files: Vec<(FileName, Piece)>,
    /// The numbers of the fetches and stores that fail, from 0.
    pub failing_calls: Vec<u32>,
    /// The numbers of the puts that fail, from 0.
    pub failing_puts: Vec<u32>,
    /// The files that are cut.
    pub cuts: Vec<FileName>,
    pub status: u8,
    pub said: Text,
    pub stored: Vec<(FileName, Piece)>,
    pub put: Vec<Piece>,
}

impl Row {
    /// A call without words and files, which is to end with status 0 and to leave everything as it
    /// is.
    pub fn new(alloc: Global, name: Text) -> Row {
        Row {
            name,
            words: Vec::new(alloc),
            files: Vec::new(alloc),
            failing_calls: Vec::new(alloc),
            failing_puts: Vec::new(alloc),
            cuts: Vec::new(alloc),
            status: 0,
            said: Text::new(alloc),
            stored: Vec::new(alloc),
            put: Vec::new(alloc),
        }
    }
}

// Appends the copy with this number of numbered bytes.
fn push_numbered(
    alloc: Global,
    number: u32,
    bytes: &[u8],
    out: &mut Vec<u8>,
) -> Result<(), NoMemory>
    ensures { OnOk result (out.new.items ≡ out.old.items ++ numbered number bytes.now) }
{
    for byte in bytes {
        if *byte == b'%' {
            write_decimal(alloc, u64::from(number), out)?;
        } else {
            out.push(*byte)?;
        }
    }
    Ok(())
}

// Appends the copy with this number of a piece.
fn push_copy(alloc: Global, piece: &Piece, number: u32, out: &mut Vec<u8>) -> Result<(), NoMemory>
    ensures { OnOk result (out.new.items ≡ out.old.items ++ copy_text piece.now number) }
{
    if piece.is_numbered {
        push_numbered(alloc, number, piece.bytes.bytes(), out)
    } else {
        out.extend_from_slice(piece.bytes.bytes())
    }
}

/// Appends all copies of a piece.
pub fn push_piece(alloc: Global, piece: &Piece, out: &mut Vec<u8>) -> Result<(), NoMemory>
    ensures { OnOk result (out.new.items ≡ out.old.items ++ piece_text piece.now) }
{
    for before in 0..piece.copies {
        push_copy(alloc, piece, before + 1, out)?;
    }
    Ok(())
}

/// What these pieces give of a file; None where it has no piece.
pub fn file_of(
    alloc: Global,
    pieces: &[(FileName, Piece)],
    name: FileName,
) -> Result<Option<Text>, NoMemory>
    ensures { IfOk result (λ found. found ≡ file_of pieces.now name) }
{
    let mut bytes = Vec::new(alloc);
    let mut is_there = false;
    for (other, piece) in pieces {
        if other.is(name) {
            push_piece(alloc, piece, &mut bytes)?;
            is_there = true;
        }
    }
    if is_there {
        Ok(Some(Text::from_vec(bytes)))
    } else {
        Ok(None)
    }
}

/// The files that these pieces give.
pub fn files_of(alloc: Global, pieces: &[(FileName, Piece)]) -> Result<FileList, NoMemory> {
    let mut files = FileList::new(alloc);
    for name in NAMES {
        if let Some(bytes) = file_of(alloc, pieces, name)? {
            files.push((name, bytes))?;
        }
    }
    Ok(files)
}

/// What is expected of a file after the call: what is stored, or else what was there; None where
/// the file isn't there.
pub fn expected(alloc: Global, row: &Row, name: FileName) -> Result<Option<Text>, NoMemory>
    ensures { IfOk result (λ found. found ≡ expected row.now name) }
{
    match file_of(alloc, &row.stored, name)? {
        Some(bytes) => Ok(Some(bytes)),
        None => file_of(alloc, &row.files, name),
    }
}
