//! What differs from what a row expects.
ghost use Rattle.std.specs.Prelude.{◌≡◌, Some, None, IfOk, is_none};
ghost use Rattle.tm_rows.specs.Pieces.{pieces_text};
ghost use Rattle.tm_rows.specs.Comparing.{is_same, ends_so, holds_so, all_hold_so, puts_so, agrees};
ghost use Rattle.tm_word.specs.Prelude.{is_empty};

use crate::lines::line_of_difference;
use crate::row::{NAMES, Row, expected, push_piece};
use std::alloc::Global;
use std::fmt;
use tm_call::Status;
use tm_io::{FileName, MemoryShelf};
use tm_list::NoMemory;
use tm_word::{Text, bytes_equal};

/// What is otherwise than a row says. Lines count from 1.
#[derive(Clone, Copy)]
pub enum Difference {
    /// The status, or what is said of it.
    Ends(Status),
    /// A file that isn't there.
    Missing(FileName),
    /// A file that is there.
    Stored(FileName),
    /// A file with other bytes, from this line on.
    Other(FileName, u64),
    /// Standard output, from this line on.
    Put(u64),
    /// How it ends, or what it changes, where so many first bytes of a file are left.
    Cut(FileName, u64),
}

impl fmt::Display for Difference {
    fn fmt<W: fmt::Write>(&self, f: &mut fmt::Formatter<W>) -> fmt::Result {
        match *self {
            Difference::Ends(status) => {
                let code = status.code();
                write!(f, "ends with {code}, {status}")
            }
            Difference::Missing(name) => write!(f, "{name} is missing"),
            Difference::Stored(name) => write!(f, "{name} is stored"),
            Difference::Other(name, line) => write!(f, "{name} differs at line {line}"),
            Difference::Put(line) => write!(f, "standard output differs at line {line}"),
            Difference::Cut(name, count) => {
                write!(f, "{name} isn't read so when cut to {count} bytes")
            }
        }
    }
}

// How the end of a call differs from what a row expects.
fn end_differs(alloc: Global, row: &Row, status: Status) -> Result<Option<Difference>, NoMemory>
    ensures { IfOk result (λ difference. is_none difference ≡ ends_so row.now status) }
{
    let said = format!(in alloc; "{status}")?;
    if status.code() == row.status
        && (row.status == 0 || bytes_equal(said.as_bytes(), row.said.bytes()))
    {
        Ok(None)
    } else {
        Ok(Some(Difference::Ends(status)))
    }
}

// How a file that isn't there differs from what is expected.
fn missing_differs(name: FileName, wanted: &Option<Text>) -> Option<Difference>
    ensures { is_none result ≡ is_same wanted.now None }
{
    match wanted {
        None => None,
        Some(_) => Some(Difference::Missing(name)),
    }
}

// How a file that is there differs from what is expected.
fn found_differs(name: FileName, wanted: &Option<Text>, found: &[u8]) -> Option<Difference>
    ensures { is_none result ≡ is_same wanted.now (Some found.now) }
{
    match wanted {
        None => Some(Difference::Stored(name)),
        Some(wanted) => {
            if bytes_equal(wanted.bytes(), found) {
                None
            } else {
                let line = line_of_difference(wanted.bytes(), found);
                Some(Difference::Other(name, line))
            }
        }
    }
}

// How a file differs from what a row expects.
fn file_differs(
    alloc: Global,
    row: &Row,
    shelf: &MemoryShelf,
    name: FileName,
) -> Result<Option<Difference>, NoMemory>
    ensures { IfOk result (λ difference. is_none difference ≡ holds_so row.now shelf.now name) }
{
    let wanted = expected(alloc, row, name)?;
    match shelf.get(name) {
        None => Ok(missing_differs(name, &wanted)),
        Some(found) => Ok(found_differs(name, &wanted, found)),
    }
}

// How the files of these names differ from what a row expects.
fn files_differ(
    alloc: Global,
    row: &Row,
    shelf: &MemoryShelf,
    names: &[FileName],
) -> Result<Vec<Difference>, NoMemory>
    ensures { IfOk result (λ found. is_empty found.items ≡ all_hold_so row.now shelf.now names.now) }
{
    let mut found = Vec::new(alloc);
    for name in names {
        if let Some(difference) = file_differs(alloc, row, shelf, *name)? {
            found.push(difference)?;
        }
    }
    Ok(found)
}

// The standard output that a row expects.
fn wanted_put(alloc: Global, row: &Row) -> Result<Vec<u8>, NoMemory>
    ensures { IfOk result (λ bytes. bytes.items ≡ pieces_text row.now.put.items) }
{
    let mut bytes = Vec::new(alloc);
    for piece in &row.put {
        push_piece(alloc, piece, &mut bytes)?;
    }
    Ok(bytes)
}

// How standard output differs from what a row expects.
fn put_differs(alloc: Global, row: &Row, found: &[u8]) -> Result<Option<Difference>, NoMemory>
    ensures { IfOk result (λ difference. is_none difference ≡ puts_so row.now found.now) }
{
    let wanted = wanted_put(alloc, row)?;
    if bytes_equal(&wanted, found) {
        Ok(None)
    } else {
        Ok(Some(Difference::Put(line_of_difference(&wanted, found))))
    }
}

/// All that differs from what a row expects of a call: how it ended, its files, and what was put.
/// There is nothing exactly where the row agrees.
///
/// Errors: want of memory.
pub fn differences(
    alloc: Global,
    row: &Row,
    status: Status,
    shelf: &MemoryShelf,
    put: &[u8],
) -> Result<Vec<Difference>, NoMemory>
    ensures { IfOk result
        (λ found. is_empty found.items ≡ agrees row.now NAMES shelf.now status put.now) }
{
    let mut found = files_differ(alloc, row, shelf, &NAMES)?;
    if let Some(difference) = end_differs(alloc, row, status)? {
        found.push(difference)?;
    }
    if let Some(difference) = put_differs(alloc, row, put)? {
        found.push(difference)?;
    }
    Ok(found)
}
