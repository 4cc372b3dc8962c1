//! The text of a run.
ghost use Rattle.std.specs.Prelude.{◌≡◌, ◌+◌, ◌≤◌, ◌++◌, IfOk, OnOk, OnErr, length, true};
ghost use Rattle.std.specs.List.{list_all};
ghost use Rattle.tm_run.specs.Room.{room};
ghost use Rattle.tm_run.specs.Written.{is_plain, is_wide};
ghost use Rattle.tm_run.specs.Typed.{is_typed_take, is_typed};
ghost use Rattle.tm_run.specs.RunText.{granted_text, domains_text, take_line, take_text, audit_line, takes_text, run_text};

use crate::look::push_looks;
use crate::room::{make_room, put, put_plain, put_text, put_wide};
use crate::steps::push_steps;
use std::alloc::Global;
use tm_list::NoMemory;
use tm_types::step::{Run, Take};
use tm_word::{Text, write_word};

fn put_granted(granted: bool, out: &mut Vec<u8>)
    requires { 7 ≤ room out.old }
    ensures text { out.new.items ≡ out.old.items ++ granted_text granted }
    ensures room { room out.old ≤ room out.new + 7 }
{
    if granted {
        put_text(b"granted", out)
    } else {
        put_text(b"denied", out)
    }
}

fn put_domains(take: &Take, out: &mut Vec<u8>)
    requires { 32 ≤ room out.old }
    ensures text { out.new.items ≡ out.old.items ++ domains_text take.now }
    ensures room { room out.old ≤ room out.new + 32 }
    ensures range { (is_plain take.now.pid ≡ true) × (is_plain take.now.before ≡ true)
        × (is_plain take.now.after ≡ true) }
{
    put_plain(b"", take.pid, out);
    put_plain(b" ", take.before, out);
    put_plain(b" ", take.after, out);
}

// Room for the line of any take: its words, its number and its three pids.
const TAKE_ROOM: usize = 67;

pub(crate) fn push_take_line(number: u64, take: &Take, out: &mut Vec<u8>) -> Result<(), NoMemory>
    ensures text { OnOk result (out.new.items ≡ out.old.items ++ take_line number take.now) }
    ensures range { OnOk result ((is_plain take.now.pid ≡ true) × (is_plain take.now.before ≡ true)
        × (is_plain take.now.after ≡ true)) }
{
    make_room(TAKE_ROOM, out)?;
    put_wide(b"take ", number, out);
    put(b' ', out);
    put_domains(take, out);
    put(b' ', out);
    put_granted(take.granted, out);
    put(b'\n', out);
    Ok(())
}

pub(crate) fn push_audit_line(
    alloc: Global,
    audit: &Option<Text>,
    out: &mut Vec<u8>,
) -> Result<(), NoMemory>
    ensures { OnOk result (out.new.items ≡ out.old.items ++ audit_line audit.now) }
{
    match audit {
        None => out.extend_from_slice(b"audit -\n"),
        Some(text) => {
            out.extend_from_slice(b"audit ")?;
            write_word(alloc, text, out)?;
            out.push(b'\n')?;
            Ok(())
        }
    }
}

fn push_take(alloc: Global, number: u64, take: &Take, out: &mut Vec<u8>) -> Result<(), NoMemory>
    ensures text { OnOk result (out.new.items ≡ out.old.items ++ take_text number take.now) }
    ensures range { OnOk result (is_typed_take take.now ≡ true) }
{
    push_take_line(number, take, out)?;
    push_looks(take.looks.as_slice(), out)?;
    push_audit_line(alloc, &take.audit, out)
}

fn push_takes(alloc: Global, takes: &[Take], out: &mut Vec<u8>) -> Result<(), NoMemory>
    ensures text { OnOk result (out.new.items ≡ out.old.items ++ takes_text 0 takes.now) }
    ensures range { OnOk result
        ((is_wide (length takes.now) ≡ true) × (list_all is_typed_take takes.now ≡ true)) }
{
    let mut count = 0;
    while count < takes.len() {
        push_take(alloc, count as u64 + 1, &takes[count], out)?;
        count += 1;
    }
    Ok(())
}

/// The text of a run.
#[tactic(auto, unfolding(crate::specs::RunText::run_text, crate::specs::Typed::is_typed))]
fn run_text(alloc: Global, run: &Run) -> Result<Vec<u8>, NoMemory>
    ensures text { IfOk result (λ text. text.items ≡ run_text run.now) }
    ensures range { IfOk result (λ text. is_typed run.now ≡ true) }
{
    let mut text = Vec::new(alloc);
    text.extend_from_slice(b"run 1\n")?;
    push_steps(alloc, run.steps.as_slice(), &mut text)?;
    push_takes(alloc, run.takes.as_slice(), &mut text)?;
    Ok(text)
}

/// Appends the text of a run: the line `run 1`; of each step one line with its number from 1, its
/// reply and its words; and of each take one line with its number from 1, its process, the numbers
/// of its domain before and after and its answer, then its looks and its audit text as one word.
/// After want of memory `out` is as before. Each number of a run that was printed is in its type's
/// range.
pub fn print_run(alloc: Global, run: &Run, out: &mut Vec<u8>) -> Result<(), NoMemory>
    ensures ok { OnOk result (out.new.items ≡ out.old.items ++ run_text run.now) }
    ensures err { OnErr result (out.new.items ≡ out.old.items) }
    ensures range { OnOk result (is_typed run.now ≡ true) }
{
    let text = run_text(alloc, run)?;
    if out.is_empty() {
        *out = text;
        return Ok(());
    }
    out.extend_from_slice(&text)
}
