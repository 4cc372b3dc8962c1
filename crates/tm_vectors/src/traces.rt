//! Traces, read and printed again.
ghost use Rattle.std.specs.Prelude.{◌≡◌, ◌++◌, IfOk, OnOk};
ghost use Rattle.tm_vectors.specs.Traces.{read_again, numbered, line_end, refusal_text, trace_said};

use std::alloc::{AllocError, Global};
use tm_list::NoMemory;
use tm_number::write_decimal;
use tm_trace::{print_trace, read_trace};
use tm_types::request::{TraceFault, TraceKind};
use tm_word::bytes_equal;

/// What becomes of a trace that is read and printed again: it is refused at a line, printed as it
/// was or printed otherwise.
#[derive(Clone, Copy)]
pub enum TraceRead {
    Refused(u64, TraceKind),
    Same,
    Other,
}

/// Reads a trace and prints it again.
fn read_again(alloc: Global, text: &[u8]) -> Result<TraceRead, NoMemory>
    ensures { IfOk result (λ found. found ≡ read_again text.now) }
{
    match read_trace(alloc, text) {
        Ok(trace) => {
            let mut printed = Vec::new(alloc);
            print_trace(alloc, &trace, &mut printed)?;
            if bytes_equal(&printed, text) {
                Ok(TraceRead::Same)
            } else {
                Ok(TraceRead::Other)
            }
        }
        Err(TraceFault::Line(line, kind)) => Ok(TraceRead::Refused(line, kind)),
        Err(TraceFault::NoMemory) => Err(AllocError),
    }
}

/// Appends a text and a number.
fn push_numbered(alloc: Global, text: &[u8], number: u64, out: &mut Vec<u8>) -> Result<(), NoMemory>
    ensures { OnOk result (out.new.items ≡ out.old.items ++ numbered text.now number) }
{
    out.extend_from_slice(text)?;
    write_decimal(alloc, number, out)
}

/// Appends what is said at the end of a line.
fn push_end(text: &[u8], out: &mut Vec<u8>) -> Result<(), NoMemory>
    ensures { OnOk result (out.new.items ≡ out.old.items ++ line_end text.now) }
{
    out.extend_from_slice(b": ")?;
    out.extend_from_slice(text)?;
    out.extend_from_slice(b"\n")
}

/// Appends the line at which a trace is refused, and the kind of its fault.
fn push_refusal(
    alloc: Global,
    line: u64,
    kind: TraceKind,
    out: &mut Vec<u8>,
) -> Result<(), NoMemory>
    ensures { OnOk result (out.new.items ≡ out.old.items ++ refusal_text line kind) }
{
    push_numbered(alloc, b": refused at line ", line, out)?;
    push_end(kind.text().as_bytes(), out)
}

/// Appends what is to be said of a trace of this name: whether it is printed as it was, or the line
/// at which it is refused.
#[tactic(auto, unfolding(crate::specs::Traces::trace_said))]
pub fn judge_trace(
    alloc: Global,
    name: &[u8],
    text: &[u8],
    out: &mut Vec<u8>,
) -> Result<(), NoMemory>
    ensures { OnOk result (out.new.items ≡ out.old.items ++ trace_said name.now text.now) }
{
    let found = read_again(alloc, text)?;
    out.extend_from_slice(name)?;
    match found {
        TraceRead::Same => out.extend_from_slice(b": read, and printed as it is\n"),
        TraceRead::Other => out.extend_from_slice(b": read, and printed otherwise\n"),
        TraceRead::Refused(line, kind) => push_refusal(alloc, line, kind, out),
    }
}
