//! Why a record is left out.
ghost use Rattle.std.specs.Prelude.{◌≡◌};
ghost use Rattle.tm_log.specs.Reasons.{reason_text, as_reason};
ghost use Rattle.tm_log.specs.declared.faults.RecordFault.TheVariants.{NoMemory};

use std::alloc::{AllocError, AllocFailed};
use thiserror::Error;
use tm_types::step::LineFault;

/// Why a record is left out: it has too few or too many lines, its header, domain or request isn't
/// one, the kernel set a flag of the domain by it, or it lacks the arguments of its execute or the
/// target of its symlink.
#[derive(Clone, Copy, Debug, Error)]
pub enum Reason {
    #[error("fewer than three lines")]
    Cut,
    #[error("more than three lines")]
    Long,
    #[error("the first line is no header of a record")]
    Header,
    #[error("the second line is no domain")]
    Domain,
    #[error("the kernel set a flag of the domain, or gave a new one its profile and groups")]
    Flag,
    #[error("the third line is no request")]
    Request,
    #[error("the header lacks the arguments of an execute, or the target of a symlink")]
    Arguments,
}

impl Reason {
    /// Its name in a report.
    pub fn text(self) -> &'static [u8]
        ensures { result.now ≡ reason_text self }
    {
        match self {
            Reason::Cut => b"cut",
            Reason::Long => b"long",
            Reason::Header => b"header",
            Reason::Domain => b"domain",
            Reason::Flag => b"flag",
            Reason::Request => b"request",
            Reason::Arguments => b"arguments",
        }
    }
}

/// The reason why a record is left out, or want of memory.
#[derive(Clone, Copy, Debug, Error)]
pub enum RecordFault {
    #[error("{0}")]
    Reason(Reason),
    #[error("out of memory")]
    NoMemory,
}

impl From<AllocError> for RecordFault {
    ghost from_gives = { λ _ e. e ≡ NoMemory };

    fn from(_e: AllocError) -> RecordFault {
        RecordFault::NoMemory
    }
}

impl<T: Drop> From<AllocFailed<T>> for RecordFault {
    ghost from_gives = { λ _ e. e ≡ NoMemory };

    fn from(_e: AllocFailed<T>) -> RecordFault {
        RecordFault::NoMemory
    }
}

/// What reading a line gave, where each fault of it is this reason.
pub(crate) fn as_reason<T: Drop>(
    reason: Reason,
    read: Result<T, LineFault>,
) -> Result<T, RecordFault>
    ensures { result ≡ as_reason reason read }
{
    match read {
        Ok(x) => Ok(x),
        Err(LineFault::Kind(_)) => Err(RecordFault::Reason(reason)),
        Err(LineFault::NoMemory) => Err(RecordFault::NoMemory),
    }
}
