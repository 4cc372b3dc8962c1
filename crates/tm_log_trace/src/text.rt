//! The texts of a log's trace and report. That of the trace is read once to see that it can be.
ghost use Rattle.std.specs.Prelude.{◌≡◌, IfErr, IfOk, IsOk};
ghost use Rattle.tm_trace.specs.Printing.{trace_text};
ghost use Rattle.tm_trace.specs.Reading.{trace_of};
ghost use Rattle.tm_log.specs.Logs.{log_of};
ghost use Rattle.tm_log_trace.specs.Made.{report_text, trace_made};
ghost use Rattle.tm_log_trace.specs.Faults.{FaultCause};
ghost use Rattle.tm_log_trace.specs.declared.text.TextFault.TheVariants.{NoMemory};

use crate::made::{Made, make_trace};
use crate::report::print_report;
use std::alloc::{AllocError, Global};
use thiserror::Error;
use tm_log::{Log, read_log};
use tm_trace::{print_trace, read_trace};
use tm_types::request::TraceFault;

/// Why no text is given: it isn't one of a trace, or memory ran out.
#[derive(Clone, Copy, Debug, Error)]
pub enum TextFault {
    #[error("what was made is no trace")]
    Unreadable,
    #[error("out of memory")]
    NoMemory,
}

impl From<AllocError> for TextFault {
    ghost from_gives = { λ _ e. e ≡ NoMemory };

    fn from(_e: AllocError) -> TextFault {
        TextFault::NoMemory
    }
}

/// The printed text of the trace, which `read_trace` accepts. Errors: `Unreadable` exactly where it
/// doesn't; want of memory.
pub fn trace_text(alloc: Global, made: &Made) -> Result<Vec<u8>, TextFault>
    ensures printed { IfOk result (λ text. text.items ≡ trace_text made.now.trace) }
    ensures readable { IfOk result (λ text. IsOk (trace_of text.items)) }
    ensures cause { IfErr result (FaultCause (trace_text made.now.trace)) }
{
    let mut text = Vec::new(alloc);
    print_trace(alloc, &made.trace, &mut text)?;
    match read_trace(alloc, &text) {
        Ok(_) => Ok(text),
        Err(TraceFault::Line(_, _)) => Err(TextFault::Unreadable),
        Err(TraceFault::NoMemory) => Err(TextFault::NoMemory),
    }
}

/// The text of a trace, and the report of its making.
#[derive(Drop)]
pub struct Texts {
    pub trace: Vec<u8>,
    pub report: Vec<u8>,
}

/// The printed trace of a log, which `read_trace` accepts, and its report. Errors: as of
/// `trace_text`.
pub fn texts_of(alloc: Global, log: Log) -> Result<Texts, TextFault>
    ensures trace { IfOk result (λ texts. texts.trace.items ≡ trace_text (trace_made log).trace) }
    ensures readable { IfOk result (λ texts. IsOk (trace_of texts.trace.items)) }
    ensures report { IfOk result (λ texts. texts.report.items ≡ report_text (trace_made log)) }
    ensures cause { IfErr result (FaultCause (trace_text (trace_made log).trace)) }
{
    let made = make_trace(alloc, log)?;
    let trace = trace_text(alloc, &made)?;
    let mut report = Vec::new(alloc);
    print_report(alloc, &made, &mut report)?;
    Ok(Texts { trace, report })
}

/// The printed trace of the log that these bytes are, and its report. Errors: as of `trace_text`.
pub fn convert(alloc: Global, bytes: &[u8]) -> Result<Texts, TextFault>
    ensures trace { IfOk result (λ texts. texts.trace.items ≡ trace_text (trace_made (log_of bytes.now)).trace) }
    ensures readable { IfOk result (λ texts. IsOk (trace_of texts.trace.items)) }
    ensures report { IfOk result (λ texts. texts.report.items ≡ report_text (trace_made (log_of bytes.now))) }
    ensures cause { IfErr result (FaultCause (trace_text (trace_made (log_of bytes.now)).trace)) }
{
    let log = read_log(alloc, bytes)?;
    texts_of(alloc, log)
}
