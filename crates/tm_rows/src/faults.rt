//! What can be wrong with the table.
use std::alloc::{AllocError, AllocFailed};
use std::fmt;

/// What is wrong with a line.
#[derive(Clone, Copy)]
pub enum Kind {
    /// It begins with no word that a line can begin with there.
    Word,
    /// It names no file.
    Name,
    /// It has no number, or a too big one, where a number has to stand.
    Number,
    /// The table ends before the bytes that it announces, or no line ends behind them.
    Bytes,
    /// The row that it begins has no line `end`.
    End,
}

/// Why the table isn't read.
#[derive(Clone, Copy)]
pub enum Fault {
    NoMemory,
    /// A line is wrong. The number of its line counts from 1.
    Line(u64, Kind),
}

impl fmt::Display for Kind {
    fn fmt<W: fmt::Write>(&self, f: &mut fmt::Formatter<W>) -> fmt::Result {
        f.write_str(match *self {
            Kind::Word => "no line begins so here",
            Kind::Name => "no file has that name",
            Kind::Number => "no number, or a too big one",
            Kind::Bytes => "the bytes that it announces don't stand there",
            Kind::End => "the row has no end",
        })
    }
}

impl fmt::Display for Fault {
    fn fmt<W: fmt::Write>(&self, f: &mut fmt::Formatter<W>) -> fmt::Result {
        match *self {
            Fault::NoMemory => f.write_str("is too much for memory"),
            Fault::Line(number, kind) => write!(f, "line {number}: {kind}"),
        }
    }
}

/// Why a line isn't read, while its number isn't known.
#[derive(Clone, Copy)]
pub enum Wrong {
    NoMemory,
    Kind(Kind),
}

impl From<AllocError> for Wrong {
    fn from(_e: AllocError) -> Wrong {
        Wrong::NoMemory
    }
}

impl<T: Drop> From<AllocFailed<T>> for Wrong {
    fn from(_e: AllocFailed<T>) -> Wrong {
        Wrong::NoMemory
    }
}

impl<T: Drop> From<AllocFailed<T>> for Fault {
    fn from(_e: AllocFailed<T>) -> Fault {
        Fault::NoMemory
    }
}
