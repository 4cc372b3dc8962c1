//! The program `tomoyo_run`: the words of the command line, help and version, and what is printed
//! of how a call ends.
//! Stands on `tomoyo`, whose top calls do the command, with threads or without, and on tm_io, whose
//! folder and standard output it hands in.
//! Of its own, so that rows and tests make the same top call with files in memory.
//! Promises what these calls promise; which words ask for help and version, and which for threads,
//! is proved.
//! Only tested: the folder of `-C`, the help, the version, a refusal's line and the exit status.
#![tactic(auto)]

mod command_line;

use crate::command_line::{Asked, VERSION, help_text, read_line, wants_threads, what_is_asked};
use std::alloc::Global;
use std::io;
use std::process::ExitCode;
use std::rt::Runtime;
use std::sync::Wait;
use std::thread::Threads;
use tm_call::{OutName, Status};
use tm_engine::gate::NoGate;
use tm_io::{DiskShelf, Folder, OutSink, Sink, Stored};
use tomoyo::{run, run_alone};

// Prints a text that was asked for by `--help` or `--version`.
fn show<R: Runtime>(rt: &R, text: &str) -> Status {
    match OutSink::new(io::writer(rt)).put(text.as_bytes()) {
        Stored::Done => Status::Done,
        Stored::Failed => Status::WriteFault(OutName::StandardOutput),
        Stored::NoMemory => Status::OutOfMemory,
    }
}

// Does what the words of the command line ask for, on their folder and standard output.
fn answer<R: Runtime + Threads + Wait + Sync>(rt: &R, alloc: Global) -> Status {
    let Ok(line) = read_line(rt, alloc) else {
        return Status::OutOfMemory;
    };
    match what_is_asked(&line.words) {
        Asked::Help(topic) => show(rt, help_text(topic)),
        Asked::Version => show(rt, VERSION),
        Asked::Command => {
            let mut shelf = DiskShelf::new(Folder::new(rt, alloc, line.folder));
            let mut out = OutSink::new(io::writer(rt));
            if wants_threads(&line.words) {
                run(rt, alloc, &line.words, &mut shelf, &mut out, &NoGate)
            } else {
                run_alone(alloc, &line.words, &mut shelf, &mut out)
            }
        }
    }
}

fn main(rt: HostRuntime) -> ExitCode {
    let status = answer(&rt, rt.alloc());
    if !matches!(status, Status::Done) {
        // A status that can't be printed still is the exit status.
        let _ = eprintln!(rt; "tomoyo_run: {status}");
    }
    ExitCode::from(status.code())
}
