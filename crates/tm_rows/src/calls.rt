//! The calls of rows, made.
use crate::row::{Row, files_of};
use std::alloc::Global;
use std::sync::Wait;
use std::thread::Threads;
use tm_call::Status;
use tm_engine::gate::NoGate;
use tm_io::{MemoryShelf, MemorySink};
use tm_list::NoMemory;
use tomoyo::{run, run_alone};

/// How a call ended, and what it left.
#[derive(Drop)]
pub struct Played {
    pub status: Status,
    pub shelf: MemoryShelf,
    pub out: MemorySink,
}

// A copy of numbers.
fn copied(alloc: Global, numbers: &[u32]) -> Result<Vec<u32>, NoMemory> {
    let mut copies = Vec::new(alloc);
    copies.extend_from_slice(numbers)?;
    Ok(copies)
}

/// Makes the call of a row, which may be one of `replay`.
pub fn play<W: Threads + Wait + Sync>(
    rt: &W,
    alloc: Global,
    row: &Row,
) -> Result<Played, NoMemory> {
    let files = files_of(alloc, &row.files)?;
    let mut shelf = MemoryShelf::new(alloc, files, copied(alloc, &row.failing_calls)?);
    let mut out = MemorySink::new(alloc, copied(alloc, &row.failing_puts)?);
    let status = run(rt, alloc, &row.words, &mut shelf, &mut out, &NoGate);
    Ok(Played { status, shelf, out })
}

/// Makes the call of a row without threads.
pub fn play_alone(alloc: Global, row: &Row) -> Result<Played, NoMemory> {
    let files = files_of(alloc, &row.files)?;
    let mut shelf = MemoryShelf::new(alloc, files, copied(alloc, &row.failing_calls)?);
    let mut out = MemorySink::new(alloc, copied(alloc, &row.failing_puts)?);
    let status = run_alone(alloc, &row.words, &mut shelf, &mut out);
    Ok(Played { status, shelf, out })
}
