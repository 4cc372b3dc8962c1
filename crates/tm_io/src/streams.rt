ghost use Rattle.std.specs.Prelude.{◌≡◌, ◌++◌, ℕ, List, IsTrue, false};
ghost use Rattle.std.specs.Io.KnownBytes.{Appends};
ghost use Rattle.tm_io.specs.Streams.{ReadsAll, ReadGives};

use crate::Fetched;
use std::io::{Read, Write};

const MAX_BYTES: usize = 16_777_216;

const TURNS: usize = 16_777_217;

// Appends these bytes, unless memory was refused before. Whether it was refused.
fn is_refused(before: bool, out: &mut Vec<u8>, bytes: &[u8]) -> bool
    ensures part { (kept : List ℕ) × (out.new.items ≡ out.old.items ++ kept) }
    ensures whole { result ≡ false
        → (before ≡ false) × (out.new.items ≡ out.old.items ++ bytes.now) }
{
    before || out.extend_from_slice(bytes).is_err()
}

// Reads to the end. Each turn takes a byte or ends. After memory was refused it reads on, to know
// how much there is.
fn read_all<F: Read>(source: &mut F, out: &mut Vec<u8>) -> Fetched
    ensures { (read : List ℕ) × (out.new.items ≡ out.old.items ++ read)
        × ReadsAll (F.remaining source.old) result read }
{
    let mut buffer = [0u8; 32_768];
    let mut length = 0;
    let mut refused = false;
    for _ in 0..TURNS {
        match source.read(&mut buffer) {
            Err(_) => return Fetched::Failed,
            Ok(0) if refused => return Fetched::NoMemory,
            Ok(0) => return Fetched::Done,
            Ok(count) => {
                if count > MAX_BYTES - length {
                    return Fetched::TooLong;
                }
                length += count;
                refused = is_refused(refused, out, &buffer[..count]);
            }
        }
    }
    Fetched::TooLong
}

// Appends all that a reader has, at most the limit; at every answer but `Done` nothing is appended.
pub(crate) fn fetch_all<F: Read>(source: &mut F, out: &mut Vec<u8>) -> Fetched
    ensures { ReadGives (F.remaining source.old) result out.old.items out.new.items }
{
    let before = out.len();
    let fetched = read_all(source, out);
    if fetched != Fetched::Done {
        out.truncate(before);
    }
    fetched
}

// Whether all bytes were taken. A write that takes no byte is a fault.
pub(crate) fn write_all<W: Write>(writer: &mut W, bytes: &[u8]) -> bool
    ensures all { IsTrue result
        → Appends (W.contents writer.old) (W.contents writer.new) bytes.now }
    ensures part { (text : List ℕ) × (rest : List ℕ) × (text ++ rest ≡ bytes.now)
        × Appends (W.contents writer.old) (W.contents writer.new) text }
{
    let mut rest = bytes;
    for _ in 0..bytes.len() {
        if rest.is_empty() {
            break;
        }
        match writer.write(rest) {
            Err(_) => return false,
            Ok(0) => return false,
            Ok(count) => rest = &rest[count..],
        }
    }
    rest.is_empty()
}
