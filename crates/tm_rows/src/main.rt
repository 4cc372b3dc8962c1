//! Plays worked rows: calls over files in memory, each with all that is expected of it, from
//! tables.
//! Stands on the top call of tomoyo, on tm_io for files in memory, and on the readers of cut files.
//! Of its own, a program that reads its rows, so that a new row proves nothing anew.
//! Promises that a row agrees exactly where its status, standard output and files are as it says.
//! Only tested: that every row is played and every cut made, and how answers are put together.
#![tactic(auto)]

mod answers;
mod calls;
mod comparing;
mod cutting;
mod faults;
mod lines;
mod playing;
mod reading;
mod row;

use crate::faults::Fault;
use crate::playing::judge_rows;
use crate::reading::read_rows;
use std::alloc::{AllocError, Global};
use std::io::Write;
use std::process::ExitCode;
use std::rt::Runtime;
use std::sync::Wait;
use std::thread::Threads;
use std::{fs, io};

// The tables' files in the current folder: rows that agree, and rows of which each says something
// wrong, so that what is said of them shows that the comparison finds it.
const TABLE: &str = "rows";

const WRONG_TABLE: &str = "wrong_rows";

// What became of a table: its file can't be read, a line of it is wrong, or all of its rows were
// played and so many differ.
#[derive(Clone, Copy)]
enum Ended {
    Unread,
    Wrong(Fault),
    Played(u64),
}

// Reads a table and plays its rows, and appends what is to be said of them.
fn report<R: Runtime + Threads + Wait + Sync>(
    rt: &R,
    alloc: Global,
    table: &str,
    out: &mut Vec<u8>,
) -> Result<Ended, AllocError> {
    let Ok(text) = fs::read(rt, table) else {
        return Ok(Ended::Unread);
    };
    match read_rows(alloc, &text) {
        Ok(rows) => Ok(Ended::Played(judge_rows(rt, alloc, &rows, out)?)),
        Err(fault) => Ok(Ended::Wrong(fault)),
    }
}

// Prints the report of a table, and answers how many of its rows differ; None where it isn't read.
fn print_report<R: Runtime + Threads + Wait + Sync>(
    rt: &R,
    alloc: Global,
    table: &str,
) -> io::Result<Option<u64>> {
    let mut out = Vec::new(alloc);
    let ended = report(rt, alloc, table, &mut out)?;
    io::writer(rt).write_all(&out)?;
    match ended {
        Ended::Unread => println!(rt; "{table} can't be read")?,
        Ended::Wrong(fault) => println!(rt; "{table} {fault}")?,
        Ended::Played(differ) => return Ok(Some(differ)),
    }
    Ok(None)
}

// Prints the reports. The status is 0 where no row of the first table differs and both are read.
fn run<R: Runtime + Threads + Wait + Sync>(rt: &R, alloc: Global) -> io::Result<ExitCode> {
    let rows = print_report(rt, alloc, TABLE)?;
    let wrong_rows = print_report(rt, alloc, WRONG_TABLE)?;
    match (rows, wrong_rows) {
        (Some(0), Some(_)) => Ok(ExitCode::SUCCESS),
        _ => Ok(ExitCode::FAILURE),
    }
}

fn main(rt: HostRuntime) -> io::Result<ExitCode> {
    run(&rt, rt.alloc())
}
