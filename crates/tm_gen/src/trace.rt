//! The generated trace, record by record.
ghost use Rattle.std.specs.Prelude.{◌≡◌, ◌++◌, IfOk, OnOk, codes};
ghost use Rattle.tm_gen.specs.Trace.{numbered, execute_attributes, execute_line, access_words, access_line, record_line, state_after, records, state_before, tree_line, tree_text, trace_text};

use crate::draws::{drawn, next_state};
use std::alloc::Global;
use tm_list::NoMemory;
use tm_number::write_decimal;
use tm_word::Text;

// How many records a tree has.
const RECORDS: u32 = 40;

// Appends a text and a number behind it.
#[tactic(auto, unfolding(crate::specs::Trace::numbered))]
fn push_numbered(alloc: Global, text: &[u8], number: u64, out: &mut Vec<u8>) -> Result<(), NoMemory>
    ensures { OnOk result (out.new.items ≡ out.old.items ++ numbered text.now number) }
{
    out.extend_from_slice(text)?;
    write_decimal(alloc, number, out)
}

// Appends the end of an execute's line.
fn push_end(out: &mut Vec<u8>) -> Result<(), NoMemory>
    ensures { OnOk result (out.new.items ≡ out.old.items ++ codes "\"\n") }
{
    out.extend_from_slice(b"\"\n")
}

// Appends the attributes of an execute of the program with this number.
fn push_attributes(alloc: Global, program: u64, out: &mut Vec<u8>) -> Result<(), NoMemory>
    ensures { OnOk result (out.new.items ≡ out.old.items ++ execute_attributes program) }
{
    push_numbered(alloc, b" exec.realpath=\"/p", program, out)?;
    push_numbered(alloc, b"\" exec.argv=\"p", program, out)?;
    push_end(out)
}

// Appends the line by which a tree executes the program with this number.
fn push_execute(alloc: Global, tree: u32, program: u64, out: &mut Vec<u8>) -> Result<(), NoMemory>
    ensures { OnOk result (out.new.items ≡ out.old.items ++ execute_line tree program) }
{
    push_numbered(alloc, b"do ", u64::from(tree), out)?;
    push_numbered(alloc, b" file execute /p", program, out)?;
    push_attributes(alloc, program, out)
}

// The permission of the access with this number, and the folder of its file.
fn access_words(access: u64) -> &'static [u8]
    ensures { result.now ≡ access_words access }
{
    if access == 0 {
        return b" file read /tmp/";
    }
    if access == 1 {
        return b" file write /var/";
    }
    b" file getattr /etc/"
}

// Appends the line by which a tree reads, writes or looks at the file with this number.
fn push_access(
    alloc: Global,
    tree: u32,
    access: u64,
    file: u64,
    out: &mut Vec<u8>,
) -> Result<(), NoMemory>
    ensures { OnOk result (out.new.items ≡ out.old.items ++ access_line tree access file) }
{
    push_numbered(alloc, b"do ", u64::from(tree), out)?;
    push_numbered(alloc, access_words(access), file, out)?;
    out.extend_from_slice(b"\n")
}

// Appends the record at this place of a tree, and gives the state after its draws.
fn push_record(
    alloc: Global,
    tree: u32,
    place: u32,
    state: u64,
    out: &mut Vec<u8>,
) -> Result<u64, NoMemory>
    ensures line { OnOk result (out.new.items ≡ out.old.items ++ record_line tree place state) }
    ensures state { IfOk result (λ after. after ≡ state_after place state) }
{
    let after_one = next_state(state);
    if place % 10 == 0 {
        push_execute(alloc, tree, drawn(8, state), out)?;
        return Ok(after_one);
    }
    push_access(alloc, tree, drawn(3, state), drawn(1_000, after_one), out)?;
    Ok(next_state(after_one))
}

// Appends the records of a tree that begins in this state, and gives the state after them.
fn push_records(alloc: Global, tree: u32, start: u64, out: &mut Vec<u8>) -> Result<u64, NoMemory>
    ensures lines { OnOk result (out.new.items ≡ out.old.items ++ records tree start 40) }
    ensures state { IfOk result (λ after. after ≡ state_before start 40) }
{
    let mut state = start;
    for place in 0..RECORDS {
        state = push_record(alloc, tree, place, state, out)?;
    }
    Ok(state)
}

// Appends the line that begins a tree.
fn push_tree_line(alloc: Global, tree: u32, out: &mut Vec<u8>) -> Result<(), NoMemory>
    ensures { OnOk result (out.new.items ≡ out.old.items ++ tree_line tree) }
{
    push_numbered(alloc, b"tree ", u64::from(tree), out)?;
    out.extend_from_slice(b" <kernel>\n")
}

// Appends a tree that begins in this state, and gives the state after it.
fn push_tree(alloc: Global, tree: u32, state: u64, out: &mut Vec<u8>) -> Result<u64, NoMemory>
    ensures text { OnOk result (out.new.items ≡ out.old.items ++ tree_text tree state) }
    ensures state { IfOk result (λ after. after ≡ state_before state 40) }
{
    push_tree_line(alloc, tree, out)?;
    push_records(alloc, tree, state, out)
}

/// The trace of so many trees.
#[tactic(auto, using(crate::proofs::TraceLaws::seed_state, crate::proofs::TraceLaws::no_tree, crate::proofs::TraceLaws::next_state_of, crate::proofs::TraceLaws::next_tree))]
pub fn trace_of(alloc: Global, seed: u64, size: u32) -> Result<Text, NoMemory>
    ensures { IfOk result (λ text. text ≡ trace_text seed size) }
{
    let mut out = Vec::new(alloc);
    let mut state = seed;
    for before in 0..size {
        state = push_tree(alloc, before + 1, state, &mut out)?;
    }
    Ok(Text::from_vec(out))
}
