//! The program `tomoyo_trace`: writes the trace of an audit log to standard output, and what is
//! told of it to standard error.
//! Stands on `tm_log`, which reads the log, and on `tm_log_trace`, which makes and prints its
//! trace.
//! Of its own, so that it stands on nothing that changes, searches or plays policies.
//! Promises what these promise of what they are given; nothing is claimed of files and streams.
#![tactic(auto)]

use std::alloc::{AllocError, Global};
use std::fs::File;
use std::io::{IsTerminal, Read};
use std::process::ExitCode;
use std::rt::Runtime;
use std::{env, io};
use tm_io::{OutSink, Sink, Stored};
use tm_log::LogReader;
use tm_log_trace::{TextFault, texts_of};

const VERSION: &str = "tomoyo_trace 0.2.0\n";

const HELP: &str = "\
usage: tomoyo_trace [FILE]
       tomoyo_trace -h | --help
       tomoyo_trace -V | --version

Reads the audit log of a machine with TOMOYO Linux from FILE, or from standard
input, and writes a trace that tomoyo_run plays to standard output. The log is
what tomoyo-auditd stored, or what was read from the kernel's audit file.

Standard error tells which records are left out and why, what was supposed
where the log doesn't show it, and how many records, trees and processes there
are. A log of more than a trace holds is cut there, and that is told.

A kernel logs a request as denied before it asks a supervisor. An execute that
he allowed counts as denied here, and where its process goes on behind it, a
warning names mark_log, which marks the log by his answers: do that first.

Exit statuses:
   0  done, whatever the log holds
   1  bad words
   2  the log can't be read
  10  standard output or standard error can't be written
  11  out of memory
  12  a fault of this program: what it made is no trace
";

// How many bytes are read between two lines of progress.
const STRIDE: u64 = 33_554_432;

/// How a call ends.
#[derive(Clone, Copy)]
enum Status {
    Done,
    BadWords,
    ReadFault,
    WriteFault,
    OutOfMemory,
    NoTrace,
}

impl From<TextFault> for Status {
    fn from(fault: TextFault) -> Status {
        match fault {
            TextFault::Unreadable => Status::NoTrace,
            TextFault::NoMemory => Status::OutOfMemory,
        }
    }
}

impl From<AllocError> for Status {
    fn from(_e: AllocError) -> Status {
        Status::OutOfMemory
    }
}

fn code(status: Status) -> u8 {
    match status {
        Status::Done => 0,
        Status::BadWords => 1,
        Status::ReadFault => 2,
        Status::WriteFault => 10,
        Status::OutOfMemory => 11,
        Status::NoTrace => 12,
    }
}

// Tells how much was read.
fn tell<R: Runtime>(rt: &R, bytes: u64, reader: &LogReader) {
    // Progress that can't be shown is no fault of the work.
    let _ = eprintln!(rt;
        "{} MB read, {} records used",
        bytes / 1_048_576,
        reader.used()
    );
}

// Reads a log to its end, or until the trace is full.
fn read_log<R: Runtime, F: Read>(
    rt: &R,
    alloc: Global,
    source: &mut F,
    shows: bool,
) -> Result<LogReader, Status> {
    let mut reader = LogReader::new(alloc);
    let mut buffer = [0u8; 16_384];
    let mut bytes = 0u64;
    for _ in 0..u64::MAX {
        let Ok(count) = source.read(&mut buffer) else {
            return Err(Status::ReadFault);
        };
        if count == 0 || reader.is_full() {
            break;
        }
        reader = reader.take(alloc, &buffer[..count])?;
        let before = bytes / STRIDE;
        bytes = bytes.saturating_add(count as u64);
        if shows && bytes / STRIDE != before {
            tell(rt, bytes, &reader);
        }
    }
    Ok(reader)
}

// Writes a trace to standard output.
fn show_text<R: Runtime>(rt: &R, text: &[u8]) -> Result<(), Status> {
    match OutSink::new(io::writer(rt)).put(text) {
        Stored::Done => Ok(()),
        Stored::Failed => Err(Status::WriteFault),
        Stored::NoMemory => Err(Status::OutOfMemory),
    }
}

// Writes a report to standard error.
fn show_report<R: Runtime>(rt: &R, alloc: Global, report: &[u8]) -> Result<(), Status> {
    let text = String::from_utf8_lossy(alloc, report)?;
    match eprint!(rt; "{text}") {
        Ok(()) => Ok(()),
        Err(_) => Err(Status::WriteFault),
    }
}

// Makes the trace of the log that a word names, or of standard input.
fn convert(rt: &HostRuntime, alloc: Global, path: Option<&str>) -> Result<(), Status> {
    let shows = rt.stderr().is_terminal();
    let reader = match path {
        Some(path) => match File::open(rt, path) {
            Ok(mut file) => read_log(rt, alloc, &mut file, shows)?,
            Err(_) => return Err(Status::ReadFault),
        },
        None => read_log(rt, alloc, &mut rt.reader(), shows)?,
    };
    let texts = texts_of(alloc, reader.finish(alloc)?)?;
    show_text(rt, &texts.trace)?;
    show_report(rt, alloc, &texts.report)
}

// Does what the words of the command line ask for.
fn answer(rt: &HostRuntime, alloc: Global) -> Result<(), Status> {
    let Ok(mut words) = env::args(rt) else {
        return Err(Status::OutOfMemory);
    };
    let _program = words.next();
    let first = words.next();
    if words.next().is_some() {
        return Err(Status::BadWords);
    }
    match first {
        None => convert(rt, alloc, None),
        Some(word) => match word.as_str() {
            "-h" | "--help" => show_text(rt, HELP.as_bytes()),
            "-V" | "--version" => show_text(rt, VERSION.as_bytes()),
            path => convert(rt, alloc, Some(path)),
        },
    }
}

// What is said of a call that failed.
fn words_of(status: Status) -> &'static str {
    match status {
        Status::Done => "done",
        Status::BadWords => "bad words: one file at most",
        Status::ReadFault => "the log can't be read",
        Status::WriteFault => "standard output or standard error can't be written",
        Status::OutOfMemory => "out of memory",
        Status::NoTrace => "a fault of this program: what it made is no trace",
    }
}

fn main(rt: HostRuntime) -> ExitCode {
    let status = match answer(&rt, rt.alloc()) {
        Ok(()) => Status::Done,
        Err(status) => {
            // A status that can't be printed still is the exit status.
            let _ = eprintln!(rt; "tomoyo_trace: {}", words_of(status));
            status
        }
    };
    ExitCode::from(code(status))
}
