//! The table, read. A row begins with a line `row NAME` and ends with a line `end`. Between them
//! stand, in any order:
//! `words WORD..` the words of the call; `in FILE HOW` bytes of a file that the call finds; `status
//! NUMBER LINE` the exit status, and
//! the line that is said of it where it isn't 0; `fails call NUMBER` and `fails put NUMBER`, which
//! fetch or store and which put fails, from 0;
//! `cuts FILE`, a file that is cut after each number of its bytes; `out FILE HOW` bytes of a file
//! that the call stores; `put HOW` bytes of standard
//! output. HOW is `LENGTH`, or `COPIES times LENGTH`, or `COPIES numbered LENGTH`, and after its
//! line come so many bytes and the end
//! of a line. The pieces of a file stand in it in their order, and so many copies of each; in a
//! numbered one, the number of the copy,
//! from 1, stands for each `%`. Between rows, empty lines and lines that begin with `#` say
//! nothing.
ghost use Rattle.std.specs.Prelude.{◌<◌, ◌≤◌, length, IfOk};

use crate::faults::{Fault, Kind, Wrong};
use crate::lines::line_of;
use crate::row::{NAMES, Piece, Row};
use std::alloc::Global;
use tm_io::FileName;
use tm_list::NoMemory;
use tm_number::plain_number;
use tm_word::{Text, bytes_equal, cut_at};

// The most copies and bytes that a piece has.
const MOST: u128 = 0x1_0000_0000;

// The first line and what follows it; the last line may have no end.
fn cut_line(text: &[u8]) -> (&[u8], &[u8])
    ensures { 0 < length text.now → length result.1.now < length text.now }
{
    match cut_at(b'\n', text) {
        Some(cut) => cut,
        None => (text, b""),
    }
}

// The first word of a line, up to a space, and what follows.
fn cut_word(line: &[u8]) -> (&[u8], &[u8])
    ensures { 0 < length line.now → length result.1.now < length line.now }
{
    match cut_at(b' ', line) {
        Some(cut) => cut,
        None => (line, b""),
    }
}

// The words of a line, with a space between each two; an empty line has none.
fn words_of(alloc: Global, line: &[u8]) -> Result<Vec<String>, NoMemory> {
    let mut words = Vec::new(alloc);
    let mut rest = line;
    while !rest.is_empty() {
        let (word, after) = cut_word(rest);
        words.push(String::from_utf8_lossy(alloc, word)?)?;
        rest = after;
    }
    Ok(words)
}

// The file with this name.
fn file_named(alloc: Global, text: &[u8]) -> Result<FileName, Wrong> {
    for name in NAMES {
        if bytes_equal(format!(in alloc; "{name}")?.as_bytes(), text) {
            return Ok(name);
        }
    }
    Err(Wrong::Kind(Kind::Name))
}

// A plain number below 2^32.
fn number(text: &[u8]) -> Result<u32, Wrong> {
    match plain_number(MOST, text) {
        Some(value) => Ok(value as u32),
        None => Err(Wrong::Kind(Kind::Number)),
    }
}

// So many bytes, and what follows them and the end of their line.
fn cut_bytes(count: usize, rest: &[u8]) -> Result<(&[u8], &[u8]), Wrong>
    ensures { IfOk result (λ cut. length cut.1.now ≤ length rest.now) }
{
    if count < rest.len() && rest[count] == b'\n' {
        Ok((&rest[..count], &rest[count + 1..]))
    } else {
        Err(Wrong::Kind(Kind::Bytes))
    }
}

// How many copies, whether they are numbered, and the length.
fn how(words: &[u8]) -> Result<(u32, bool, u32), Wrong> {
    let (first, others) = cut_word(words);
    if others.is_empty() {
        return Ok((1, false, number(first)?));
    }
    let (kind, last) = cut_word(others);
    if bytes_equal(kind, b"times") {
        Ok((number(first)?, false, number(last)?))
    } else if bytes_equal(kind, b"numbered") {
        Ok((number(first)?, true, number(last)?))
    } else {
        Err(Wrong::Kind(Kind::Number))
    }
}

// The piece that these words announce, and what follows it.
fn piece_at<'a>(alloc: Global, words: &[u8], rest: &'a [u8]) -> Result<(Piece, &'a [u8]), Wrong>
    ensures { IfOk result (λ read. length read.1.now ≤ length rest.now) }
{
    let (copies, is_numbered, length) = how(words)?;
    let (bytes, after) = cut_bytes(length as usize, rest)?;
    let piece = Piece {
        copies,
        is_numbered,
        bytes: Text::from_bytes(alloc, bytes)?,
    };
    Ok((piece, after))
}

// The piece of a file that these words announce, and what follows it.
fn file_piece_at<'a>(
    alloc: Global,
    words: &[u8],
    rest: &'a [u8],
) -> Result<((FileName, Piece), &'a [u8]), Wrong>
    ensures { IfOk result (λ read. length read.1.now ≤ length rest.now) }
{
    let (name, form) = cut_word(words);
    let name = file_named(alloc, name)?;
    let (piece, after) = piece_at(alloc, form, rest)?;
    Ok(((name, piece), after))
}

// A status, and what is said of it.
fn status_at(alloc: Global, words: &[u8]) -> Result<(u8, Text), Wrong> {
    let (first, said) = cut_word(words);
    match u8::try_from(number(first)?) {
        Ok(status) => Ok((status, Text::from_bytes(alloc, said)?)),
        Err(_) => Err(Wrong::Kind(Kind::Number)),
    }
}

// Which call or which put fails.
fn read_failing(row: &mut Row, words: &[u8]) -> Result<(), Wrong> {
    let (kind, last) = cut_word(words);
    if bytes_equal(kind, b"call") {
        row.failing_calls.push(number(last)?)?;
        return Ok(());
    }
    if bytes_equal(kind, b"put") {
        row.failing_puts.push(number(last)?)?;
        return Ok(());
    }
    Err(Wrong::Kind(Kind::Word))
}

// Reads a line of a row that announces no bytes, and answers whether it is one.
fn read_short(alloc: Global, row: &mut Row, key: &[u8], words: &[u8]) -> Result<bool, Wrong> {
    if bytes_equal(key, b"words") {
        row.words = words_of(alloc, words)?;
        return Ok(true);
    }
    if bytes_equal(key, b"status") {
        let (status, said) = status_at(alloc, words)?;
        row.status = status;
        row.said = said;
        return Ok(true);
    }
    if bytes_equal(key, b"fails") {
        read_failing(row, words)?;
        return Ok(true);
    }
    if bytes_equal(key, b"cuts") {
        row.cuts.push(file_named(alloc, words)?)?;
        return Ok(true);
    }
    Ok(false)
}

// Reads a line of a row, and the bytes that it announces; gives what follows.
fn read_line<'a>(
    alloc: Global,
    row: &mut Row,
    line: &[u8],
    rest: &'a [u8],
) -> Result<&'a [u8], Wrong>
    ensures { IfOk result (λ next. length next.now ≤ length rest.now) }
{
    let (key, words) = cut_word(line);
    if read_short(alloc, row, key, words)? {
        return Ok(rest);
    }
    if bytes_equal(key, b"in") {
        let (piece, after) = file_piece_at(alloc, words, rest)?;
        row.files.push(piece)?;
        return Ok(after);
    }
    if bytes_equal(key, b"out") {
        let (piece, after) = file_piece_at(alloc, words, rest)?;
        row.stored.push(piece)?;
        return Ok(after);
    }
    if bytes_equal(key, b"put") {
        let (piece, after) = piece_at(alloc, words, rest)?;
        row.put.push(piece)?;
        return Ok(after);
    }
    Err(Wrong::Kind(Kind::Word))
}

// A fault at the line that begins where so many bytes of a text are left.
fn fault_at(text: &[u8], left: usize, wrong: Wrong) -> Fault {
    match wrong {
        Wrong::NoMemory => Fault::NoMemory,
        Wrong::Kind(kind) => Fault::Line(line_of(text, text.len().saturating_sub(left)), kind),
    }
}

// Reads a row up to its end; gives what follows. `text` is the whole table.
fn read_row<'a>(
    alloc: Global,
    text: &[u8],
    name: Text,
    start: &'a [u8],
) -> Result<(Row, &'a [u8]), Fault>
    ensures { IfOk result (λ read. length read.1.now ≤ length start.now) }
{
    let mut row = Row::new(alloc, name);
    let mut rest = start;
    while !rest.is_empty() {
        let left = rest.len();
        let (line, after) = cut_line(rest);
        if bytes_equal(line, b"end") {
            return Ok((row, after));
        }
        match read_line(alloc, &mut row, line, after) {
            Ok(next) => rest = next,
            Err(wrong) => return Err(fault_at(text, left, wrong)),
        }
    }
    Err(Fault::Line(line_of(text, text.len()), Kind::End))
}

// The name of the row that a line begins; None where it says nothing.
fn begun_by(alloc: Global, line: &[u8]) -> Result<Option<Text>, Wrong> {
    if line.is_empty() || line[0] == b'#' {
        return Ok(None);
    }
    let (key, name) = cut_word(line);
    if bytes_equal(key, b"row") {
        return Ok(Some(Text::from_bytes(alloc, name)?));
    }
    Err(Wrong::Kind(Kind::Word))
}

/// The rows of a table, in their order.
pub fn read_rows(alloc: Global, text: &[u8]) -> Result<Vec<Row>, Fault> {
    let mut rows = Vec::new(alloc);
    let mut rest = text;
    while !rest.is_empty() {
        let left = rest.len();
        let (line, after) = cut_line(rest);
        match begun_by(alloc, line) {
            Ok(None) => rest = after,
            Ok(Some(name)) => {
                let (row, next) = read_row(alloc, text, name, after)?;
                rows.push(row)?;
                rest = next;
            }
            Err(wrong) => return Err(fault_at(text, left, wrong)),
        }
    }
    Ok(rows)
}
