//! Texts cut at one byte.
ghost use Rattle.std.specs.Prelude.{◌≡◌, IfOk};
ghost use Rattle.tm_word.specs.Prelude.{pieces};

use std::alloc::Global;
use tm_list::{NoMemory, Seq};
use tm_word::{Text, cut_at};

/// What stands between these bytes of a text: the fields of a row between its tabs, the lines of a
/// field between its bars.
pub fn pieces(alloc: Global, byte: u8, text: &[u8]) -> Result<Vec<Text>, NoMemory>
    ensures { IfOk result (λ found. found.items ≡ pieces byte text.now) }
{
    let mut found = Vec::new(alloc);
    let mut rest = text;
    while let Some((piece, after)) = cut_at(byte, rest) {
        found.push(Seq::from_bytes(alloc, piece)?)?;
        rest = after;
    }
    found.push(Seq::from_bytes(alloc, rest)?)?;
    Ok(found)
}
