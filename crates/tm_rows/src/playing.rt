//! Rows played, and what is said of those that differ.
use crate::calls::play;
use crate::comparing::{Difference, differences};
use crate::cutting::cuts_that_differ;
use crate::row::Row;
use std::alloc::Global;
use std::sync::Wait;
use std::thread::Threads;
use tm_list::NoMemory;

// How a row differs: its call, or its cuts where it has files to cut.
fn row_differs<W: Threads + Wait + Sync>(
    rt: &W,
    alloc: Global,
    row: &Row,
) -> Result<Vec<Difference>, NoMemory> {
    if !row.cuts.is_empty() {
        return cuts_that_differ(alloc, row);
    }
    let played = play(rt, alloc, row)?;
    let put = played.out.bytes();
    differences(alloc, row, played.status, &played.shelf, put)
}

// Appends the line that is said of a row that differs.
fn push_differences(
    alloc: Global,
    row: &Row,
    found: &[Difference],
    out: &mut Vec<u8>,
) -> Result<(), NoMemory> {
    out.extend_from_slice(row.name.bytes())?;
    let mut before = ": ";
    for difference in found {
        let said = format!(in alloc; "{before}{difference}")?;
        out.extend_from_slice(said.as_bytes())?;
        before = "; ";
    }
    out.extend_from_slice(b"\n")
}

// Plays a row, says how it differs, and answers whether it agrees.
fn judge_row<W: Threads + Wait + Sync>(
    rt: &W,
    alloc: Global,
    row: &Row,
    out: &mut Vec<u8>,
) -> Result<bool, NoMemory> {
    let found = row_differs(rt, alloc, row)?;
    if found.is_empty() {
        return Ok(true);
    }
    push_differences(alloc, row, &found, out)?;
    Ok(false)
}

/// Plays rows in their order, appends a line for each that differs and one that counts them, and
/// answers how many differ.
pub fn judge_rows<W: Threads + Wait + Sync>(
    rt: &W,
    alloc: Global,
    rows: &[Row],
    out: &mut Vec<u8>,
) -> Result<u64, NoMemory> {
    let mut differ: u64 = 0;
    for row in rows {
        if !judge_row(rt, alloc, row, out)? {
            differ += 1;
        }
    }
    let agree = (rows.len() as u64).saturating_sub(differ);
    let said = format!(in alloc; "{agree} rows agree, {differ} differ\n")?;
    out.extend_from_slice(said.as_bytes())?;
    Ok(differ)
}
