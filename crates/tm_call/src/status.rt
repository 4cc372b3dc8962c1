//! How a call ends, its exit status and what is printed of it.
ghost use Rattle.std.specs.Prelude.{◌≡◌};
ghost use Rattle.tm_call.specs.Status.{exit_code};

use std::fmt;
use tm_io::FileName;
use tm_types::request::{ScriptKind, TraceKind};
use tm_types::step::{EditReply, FileKind};

/// What there can be too many of.
#[derive(Clone, Copy)]
pub enum What {
    Records,
    Trees,
    Edits,
    Editors,
    Turns,
    Rules,
}

/// Where a write can fail.
#[derive(Clone, Copy)]
pub enum OutName {
    File(FileName),
    StandardOutput,
}

/// How a call ends. Line numbers count from 1, places of words from 0. `Display` gives the line
/// that the program prints after `tomoyo_run: `.
#[derive(Clone, Copy)]
pub enum Status {
    Done,
    BadWords(u64),
    ReadFault(FileName),
    Absent(FileName),
    TooLong(FileName),
    BadPolicy(FileKind, u64, EditReply),
    UndefinedProfile(u32),
    BadTrace(u64, TraceKind),
    BadScript(FileName, u64, ScriptKind),
    TooMany(What),
    WriteFault(OutName),
    OutOfMemory,
    BadRun(u64),
    BadRules(u64, ScriptKind),
    BadAudit(u64),
}

impl Status {
    /// The exit status of the program.
    pub fn code(self) -> u8
        ensures { result ≡ exit_code self }
    {
        match self {
            Status::Done => 0,
            Status::BadWords(_) => 1,
            Status::ReadFault(_) => 2,
            Status::Absent(_) => 3,
            Status::TooLong(_) => 4,
            Status::BadPolicy(_, _, _) => 5,
            Status::UndefinedProfile(_) => 6,
            Status::BadTrace(_, _) => 7,
            Status::BadScript(_, _, _) => 8,
            Status::TooMany(_) => 9,
            Status::WriteFault(_) => 10,
            Status::OutOfMemory => 11,
            Status::BadRun(_) => 13,
            Status::BadRules(_, _) => 14,
            Status::BadAudit(_) => 15,
        }
    }
}

impl fmt::Display for What {
    ghost use Rattle.std.specs.Prelude.{Some};
    ghost use Rattle.tm_call.specs.Status.{what_text};

    ghost output = { λ what. Some (what_text what) };

    fn fmt<W: fmt::Write>(&self, f: &mut fmt::Formatter<W>) -> fmt::Result {
        f.write_str(match *self {
            What::Records => "records",
            What::Trees => "trees",
            What::Edits => "edits",
            What::Editors => "editors",
            What::Turns => "turns",
            What::Rules => "rules",
        })
    }
}

impl fmt::Display for OutName {
    ghost use Rattle.std.specs.Prelude.{Some};
    ghost use Rattle.tm_call.specs.Status.{out_text};

    ghost output = { λ name. Some (out_text name) };

    fn fmt<W: fmt::Write>(&self, f: &mut fmt::Formatter<W>) -> fmt::Result {
        match *self {
            OutName::File(name) => write!(f, "{name}"),
            OutName::StandardOutput => f.write_str("standard output"),
        }
    }
}

impl fmt::Display for Status {
    ghost use Rattle.std.specs.Prelude.{Some};
    ghost use Rattle.tm_call.specs.Status.{status_text};

    ghost output = { λ status. Some (status_text status) };

    fn fmt<W: fmt::Write>(&self, f: &mut fmt::Formatter<W>) -> fmt::Result {
        match *self {
            Status::Done => f.write_str("done"),
            Status::BadWords(place) => write!(f, "bad words at {place}"),
            Status::ReadFault(name) => write!(f, "can't read {name}"),
            Status::Absent(name) => write!(f, "{name} is missing"),
            Status::TooLong(name) => write!(f, "{name} is too long"),
            Status::BadPolicy(file, line, reply) => { write!(f, "{file} line {line}: {reply}") }
            Status::UndefinedProfile(domain) => write!(f, "domain {domain} has no profile"),
            Status::BadTrace(line, kind) => write!(f, "trace line {line}: {kind}"),
            Status::BadScript(name, line, kind) => write!(f, "{name} line {line}: {kind}"),
            Status::TooMany(what) => write!(f, "too many {what}"),
            Status::WriteFault(name) => write!(f, "can't write {name}"),
            Status::OutOfMemory => f.write_str("out of memory"),
            Status::BadRun(line) => write!(f, "run line {line}: bad run"),
            Status::BadRules(line, kind) => write!(f, "sorter line {line}: {kind}"),
            Status::BadAudit(line) => write!(f, "audit line {line}: bad audit"),
        }
    }
}
