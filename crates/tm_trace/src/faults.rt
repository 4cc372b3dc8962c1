//! What is wrong at a word of a line.
ghost use Rattle.std.specs.Prelude.{◌≡◌};
ghost use Rattle.tm_trace.specs.Lines.{fault_of};
ghost use Rattle.tm_trace.specs.Steps.{step_fault, as_step, line_fault, in_line};
ghost use Rattle.tm_trace.specs.declared.faults.StepFault.TheVariants.{NoMemory};

use std::alloc::{AllocError, AllocFailed};
use tm_types::entry::LineKind;
use tm_types::request::{TraceFault, TraceKind};
use tm_types::step::LineFault;

/// The kind of fault at a word, or want of memory.
#[derive(Clone, Copy)]
pub enum StepFault {
    Kind(TraceKind),
    NoMemory,
}

impl From<AllocError> for StepFault {
    ghost from_gives = { λ _ e. e ≡ NoMemory };

    fn from(_e: AllocError) -> StepFault {
        StepFault::NoMemory
    }
}

impl<T: Drop> From<AllocFailed<T>> for StepFault {
    ghost from_gives = { λ _ e. e ≡ NoMemory };

    fn from(_e: AllocFailed<T>) -> StepFault {
        StepFault::NoMemory
    }
}

// A missing word stays one, and every other fault is of this kind.
fn fault_of(kind: TraceKind, fault: LineKind) -> TraceKind
    ensures { result ≡ fault_of kind fault }
{
    match fault {
        LineKind::Arity => TraceKind::Arity,
        _ => kind,
    }
}

/// A fault of a line as one of a trace, where each but a missing word is of this kind.
pub(crate) fn step_fault(kind: TraceKind, fault: LineFault) -> StepFault
    ensures { result ≡ step_fault kind fault }
{
    match fault {
        LineFault::Kind(fault) => StepFault::Kind(fault_of(kind, fault)),
        LineFault::NoMemory => StepFault::NoMemory,
    }
}

/// A step of lines as a step of a trace, where each fault but a missing word is of this kind.
pub(crate) fn as_step<T: Drop>(kind: TraceKind, read: Result<T, LineFault>) -> Result<T, StepFault>
    ensures { result ≡ as_step kind read }
{
    match read {
        Ok(x) => Ok(x),
        Err(fault) => Err(step_fault(kind, fault)),
    }
}

fn line_fault(line: u64, fault: StepFault) -> TraceFault
    ensures { result ≡ line_fault line fault }
{
    match fault {
        StepFault::Kind(kind) => TraceFault::Line(line, kind),
        StepFault::NoMemory => TraceFault::NoMemory,
    }
}

/// What a step gave in the line with this number.
pub(crate) fn in_line<T: Drop>(line: u64, read: Result<T, StepFault>) -> Result<T, TraceFault>
    ensures { result ≡ in_line line read }
{
    match read {
        Ok(x) => Ok(x),
        Err(fault) => Err(line_fault(line, fault)),
    }
}
