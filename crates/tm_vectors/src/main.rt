//! Compares what our readers, printers, patterns and controls answer with what the real TOMOYO
//! answered, row by row of recorded tables, and reads and prints a recorded boot.
//! Stands on the crates of patterns, domain names, policy lines and traces; rows of lines with
//! `\(dir\)`, which neither that kernel nor Linux 6.12 takes, are left out.
//! Of its own, on readers and printers alone, so that no change of looks or plays proves it anew.
//! Promises that the report on a text is the defined one: of a table a line for each row whose
//! recorded answer isn't ours, and how many agree and differ; of a trace whether it is printed as
//! it was.
//! Only tested: that our answers agree with the real TOMOYO's, which is what it is for.
#![tactic(auto)]

mod answers;
mod lines;
mod patterns;
mod pieces;
mod rows;
mod table;
mod traces;
mod transitions;

use crate::rows::judge_table;
use crate::table::{TABLES, Table};
use crate::traces::judge_trace;
use std::alloc::Global;
use std::io::Write;
use std::rt::{Files, Runtime};
use std::{fs, io};

// Appends what is to be said of the rows of a table, which stand in a file of the current folder.
fn report_table<R: Files + AllocGlobal>(
    rt: &R,
    alloc: Global,
    table: Table,
    out: &mut Vec<u8>,
) -> io::Result<()> {
    let file = format!(in alloc; "{}.tsv", table.name())?;
    match fs::read(rt, file.as_str()) {
        Ok(text) => judge_table(alloc, table, &text, out)?,
        Err(_) => say_unread(alloc, file.as_str(), out)?,
    }
    Ok(())
}

// Appends what is to be said of the trace in this file of the current folder.
fn report_trace<R: Files + AllocGlobal>(
    rt: &R,
    alloc: Global,
    file: &str,
    out: &mut Vec<u8>,
) -> io::Result<()> {
    match fs::read(rt, file) {
        Ok(text) => judge_trace(alloc, file.as_bytes(), &text, out)?,
        Err(_) => say_unread(alloc, file, out)?,
    }
    Ok(())
}

// Says that a file isn't there or can't be read.
fn say_unread(alloc: Global, file: &str, out: &mut Vec<u8>) -> io::Result<()> {
    let said = format!(in alloc; "{file} can't be read\n")?;
    out.extend_from_slice(said.as_bytes())?;
    Ok(())
}

fn main(rt: HostRuntime) -> io::Result<()> {
    let mut report = Vec::new(rt.alloc());
    for table in TABLES {
        report_table(&rt, rt.alloc(), table, &mut report)?;
    }
    for file in ["boot.trace", "forms.trace"] {
        report_trace(&rt, rt.alloc(), file, &mut report)?;
    }
    io::writer(&rt).write_all(&report)
}
