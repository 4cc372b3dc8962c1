//! Calls whose files are cut. Each has to end as the readers answer on what is left; where that is
//! a refusal, it leaves all as it was.
ghost use Rattle.std.specs.Prelude.{◌≡◌, IfOk};
ghost use Rattle.tm_rows.specs.Cutting.{zeroed_byte, zeroed, cut_text};

use crate::answers::readers_answer;
use crate::calls::play_alone;
use crate::comparing::{Difference, differences};
use crate::row::{NAMES, Piece, Row, file_of, files_of};
use std::alloc::Global;
use tm_io::FileName;
use tm_list::NoMemory;
use tm_word::Text;

// Copies of words.
fn copied(alloc: Global, words: &[String]) -> Result<Vec<String>, NoMemory> {
    let mut copies = Vec::new(alloc);
    for word in words {
        copies.push(String::from_str(alloc, word.as_str())?)?;
    }
    Ok(copies)
}

// A byte 0 for a space, or the byte.
fn zeroed_byte(byte: u8) -> u8
    ensures { result ≡ zeroed_byte byte }
{
    if byte == b' ' { 0 } else { byte }
}

// The bytes, with a byte 0 for each space.
fn zeroed(alloc: Global, bytes: &[u8]) -> Result<Text, NoMemory>
    ensures { IfOk result (λ text. text ≡ zeroed bytes.now) }
{
    let mut text = Vec::new(alloc);
    for byte in bytes {
        text.push(zeroed_byte(*byte))?;
    }
    Ok(Text::from_vec(text))
}

// So many first bytes, with a byte 0 for each space, or as they are.
fn cut_text(alloc: Global, bytes: &[u8], count: usize, has_zeros: bool) -> Result<Text, NoMemory>
    ensures { IfOk result (λ text. text ≡ cut_text bytes.now count has_zeros) }
{
    let front = &bytes[..count.min(bytes.len())];
    if has_zeros {
        zeroed(alloc, front)
    } else {
        Text::from_bytes(alloc, front)
    }
}

// The call of a row, with so many first bytes of the named file.
fn cut_call(
    alloc: Global,
    row: &Row,
    name: FileName,
    count: usize,
    has_zeros: bool,
) -> Result<Row, NoMemory> {
    let mut call = Row::new(alloc, Text::new(alloc));
    call.words = copied(alloc, &row.words)?;
    for other in NAMES {
        if let Some(text) = file_of(alloc, &row.files, other)? {
            let kept = if other.is(name) {
                count
            } else {
                text.bytes().len()
            };
            let piece = Piece {
                copies: 1,
                is_numbered: false,
                bytes: cut_text(alloc, text.bytes(), kept, has_zeros)?,
            };
            call.files.push((other, piece))?;
        }
    }
    Ok(call)
}

// Whether a call ends as the readers answer on its files, and leaves all as it was where that is a
// refusal.
fn ends_as_read(alloc: Global, call: Row) -> Result<bool, NoMemory> {
    let answer = readers_answer(alloc, &files_of(alloc, &call.files)?);
    let said = format!(in alloc; "{answer}")?;
    let mut expected = call;
    expected.status = answer.code();
    expected.said = Text::from_bytes(alloc, said.as_bytes())?;
    let played = play_alone(alloc, &expected)?;
    if expected.status == 0 {
        return Ok(played.status.code() == 0);
    }
    let put = played.out.bytes();
    let found = differences(alloc, &expected, played.status, &played.shelf, put)?;
    Ok(found.is_empty())
}

// Whether the call with so many first bytes of the named file does, with its spaces and with bytes
// 0 in their place.
fn is_read_when_cut(
    alloc: Global,
    row: &Row,
    name: FileName,
    count: usize,
) -> Result<bool, NoMemory> {
    if !ends_as_read(alloc, cut_call(alloc, row, name, count, false)?)? {
        return Ok(false);
    }
    ends_as_read(alloc, cut_call(alloc, row, name, count, true)?)
}

// Cuts the named file after each number of its bytes, and appends the cuts at which the call ends
// otherwise than what is left is read.
fn push_cuts(
    alloc: Global,
    row: &Row,
    name: FileName,
    found: &mut Vec<Difference>,
) -> Result<(), NoMemory> {
    let length = match file_of(alloc, &row.files, name)? {
        Some(text) => text.bytes().len(),
        None => 0,
    };
    for count in 0..length.saturating_add(1) {
        if !is_read_when_cut(alloc, row, name, count)? {
            found.push(Difference::Cut(name, count as u64))?;
        }
    }
    Ok(())
}

/// The cuts of a row's files at which its call ends otherwise than the readers answer, or changes
/// something though they refuse what is left.
///
/// Errors: want of memory.
pub fn cuts_that_differ(alloc: Global, row: &Row) -> Result<Vec<Difference>, NoMemory> {
    let mut found = Vec::new(alloc);
    for name in &row.cuts {
        push_cuts(alloc, row, *name, &mut found)?;
    }
    Ok(found)
}
