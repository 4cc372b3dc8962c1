//! The lines of the steps of a run.
ghost use Rattle.std.specs.Prelude.{◌≡◌, ◌+◌, ◌≤◌, ◌++◌, OnOk, length, true};
ghost use Rattle.std.specs.List.{list_all};
ghost use Rattle.tm_run.specs.Room.{room};
ghost use Rattle.tm_run.specs.Written.{is_made, is_held, is_wide};
ghost use Rattle.tm_run.specs.Typed.{has_numbers, replies_number, is_typed_step};
ghost use Rattle.tm_run.specs.Steps.{make_text, fail_text, held_text, answer_reply_text, change_text, reply_text, step_text, step_line, steps_text};

use crate::replies::FAULTS;
use crate::room::{make_room, put, put_plain, put_text, put_wide};
use std::alloc::Global;
use tm_entry::print_entry;
use tm_list::NoMemory;
use tm_types::entry::Entry;
use tm_types::step::{AnswerFault, FileKind, Held, MakeReply, Reply, Step};

fn put_make(reply: MakeReply, out: &mut Vec<u8>)
    requires { 14 ≤ room out.old }
    ensures text { out.new.items ≡ out.old.items ++ make_text reply }
    ensures room { room out.old ≤ room out.new + 14 }
    ensures range { is_made reply ≡ true }
{
    match reply {
        MakeReply::New(domain) => put_plain(b"new:", domain, out),
        MakeReply::Old(domain) => put_plain(b"old:", domain, out),
    }
}

fn put_fail(set: bool, out: &mut Vec<u8>)
    requires { 3 ≤ room out.old }
    ensures text { out.new.items ≡ out.old.items ++ fail_text set }
    ensures room { room out.old ≤ room out.new + 3 }
{
    if set {
        put_text(b"set", out)
    } else {
        put_text(b"was", out)
    }
}

fn put_held(held: Held, out: &mut Vec<u8>)
    requires { 25 ≤ room out.old }
    ensures text { out.new.items ≡ out.old.items ++ held_text held }
    ensures room { room out.old ≤ room out.new + 25 }
    ensures range { is_held held ≡ true }
{
    match held {
        Held::Nobody => put_text(b"nobody", out),
        Held::Serial(serial) => put_wide(b"held:", serial, out),
    }
}

#[tactic(auto, using(crate::proofs::Lengths::fault_length))]
fn put_answer_reply(fault: Option<AnswerFault>, out: &mut Vec<u8>)
    requires { 8 ≤ room out.old }
    ensures text { out.new.items ≡ out.old.items ++ answer_reply_text fault }
    ensures room { room out.old ≤ room out.new + 8 }
{
    match fault {
        None => put_text(b"done", out),
        Some(fault) => put_text(FAULTS[fault as usize].0.as_bytes(), out),
    }
}

fn put_change(changed: bool, out: &mut Vec<u8>)
    requires { 4 ≤ room out.old }
    ensures text { out.new.items ≡ out.old.items ++ change_text changed }
    ensures room { room out.old ≤ room out.new + 4 }
{
    if changed {
        put_text(b"done", out)
    } else {
        put_text(b"was", out)
    }
}

#[tactic(auto, using(crate::proofs::Lengths::learn_length, crate::proofs::Lengths::edit_length))]
fn put_reply(reply: Reply, out: &mut Vec<u8>)
    requires { 25 ≤ room out.old }
    ensures text { out.new.items ≡ out.old.items ++ reply_text reply }
    ensures room { room out.old ≤ room out.new + 25 }
    ensures range { replies_number reply ≡ true }
{
    match reply {
        Reply::Learn(reply) => put_text(reply.text().as_bytes(), out),
        Reply::Make(reply) => put_make(reply, out),
        Reply::Fail(set) => put_fail(set, out),
        Reply::Ask(held) => put_held(held, out),
        Reply::Answer(fault) => put_answer_reply(fault, out),
        Reply::Attach(changed) => put_change(changed, out),
        Reply::Detach(changed) => put_change(changed, out),
        Reply::Edit(reply) => put_text(reply.text().as_bytes(), out),
        Reply::End => put_text(b"done", out),
    }
}

fn push_learned(
    alloc: Global,
    domain: u32,
    entry: &Entry,
    out: &mut Vec<u8>,
) -> Result<(), NoMemory>
    requires { 17 ≤ room out.old }
    ensures text { OnOk result
        (out.new.items ≡ out.old.items ++ step_text (Step.Learn domain entry.now)) }
    ensures range { OnOk result (has_numbers (Step.Learn domain entry.now) ≡ true) }
{
    put_plain(b"learn ", domain, out);
    put(b' ', out);
    print_entry(alloc, entry, out)
}

fn push_made(domain: u32, name: &[u8], out: &mut Vec<u8>) -> Result<(), NoMemory>
    requires { 16 ≤ room out.old }
    ensures text { OnOk result
        (out.new.items ≡ out.old.items ++ step_text (Step.Make domain name.now)) }
    ensures range { OnOk result (has_numbers (Step.Make domain name.now) ≡ true) }
{
    put_plain(b"make ", domain, out);
    put(b' ', out);
    out.extend_from_slice(name)
}

fn push_asked(domain: u32, retry: u32, line: &[u8], out: &mut Vec<u8>) -> Result<(), NoMemory>
    requires { 26 ≤ room out.old }
    ensures text { OnOk result
        (out.new.items ≡ out.old.items ++ step_text (Step.Ask domain retry line.now)) }
    ensures range { OnOk result (has_numbers (Step.Ask domain retry line.now) ≡ true) }
{
    put_plain(b"ask ", domain, out);
    put_plain(b" ", retry, out);
    put(b' ', out);
    out.extend_from_slice(line)
}

fn put_answered(serial: u64, code: u64, out: &mut Vec<u8>)
    requires { 48 ≤ room out.old }
    ensures text { out.new.items ≡ out.old.items ++ step_text (Step.Answer serial code) }
    ensures range { has_numbers (Step.Answer serial code) ≡ true }
{
    put_wide(b"answer ", serial, out);
    put_wide(b" ", code, out);
}

#[tactic(auto, using(crate::proofs::Lengths::policy_length))]
fn push_edited(editor: u32, file: FileKind, line: &[u8], out: &mut Vec<u8>) -> Result<(), NoMemory>
    requires { 33 ≤ room out.old }
    ensures text { OnOk result
        (out.new.items ≡ out.old.items ++ step_text (Step.Edit editor file line.now)) }
    ensures range { OnOk result (has_numbers (Step.Edit editor file line.now) ≡ true) }
{
    put_plain(b"edit ", editor, out);
    put(b' ', out);
    put_text(file.text().as_bytes(), out);
    put(b' ', out);
    out.extend_from_slice(line)
}

// The words of a step, where there is room for those that are none of a line or of a name.
fn push_step(alloc: Global, step: &Step, out: &mut Vec<u8>) -> Result<(), NoMemory>
    requires { 48 ≤ room out.old }
    ensures text { OnOk result (out.new.items ≡ out.old.items ++ step_text step.now) }
    ensures range { OnOk result (has_numbers step.now ≡ true) }
{
    match step {
        Step::Learn(domain, entry) => return push_learned(alloc, *domain, entry, out),
        Step::Make(domain, name) => return push_made(*domain, name.bytes(), out),
        Step::Fail(domain) => put_plain(b"fail ", *domain, out),
        Step::Ask(domain, retry, line) => return push_asked(*domain, *retry, line.bytes(), out),
        Step::Answer(serial, code) => put_answered(*serial, *code, out),
        Step::Attach => put_text(b"attach", out),
        Step::Detach => put_text(b"detach", out),
        Step::Edit(editor, file, line) => return push_edited(*editor, *file, line.bytes(), out),
        Step::End(tree) => put_plain(b"end ", *tree, out),
    }
    Ok(())
}

// Room for the front of any step's line: its number, its word and its reply.
const STEP_ROOM: usize = 100;

pub(crate) fn push_step_line(
    alloc: Global,
    number: u64,
    step: &(Step, Reply),
    out: &mut Vec<u8>,
) -> Result<(), NoMemory>
    ensures text { OnOk result (out.new.items ≡ out.old.items ++ step_line number step.now) }
    ensures range { OnOk result (is_typed_step step.now ≡ true) }
{
    make_room(STEP_ROOM, out)?;
    put_wide(b"step ", number, out);
    put(b' ', out);
    put_reply(step.1, out);
    put(b' ', out);
    push_step(alloc, &step.0, out)?;
    out.push(b'\n')?;
    Ok(())
}

pub(crate) fn push_steps(
    alloc: Global,
    steps: &[(Step, Reply)],
    out: &mut Vec<u8>,
) -> Result<(), NoMemory>
    ensures text { OnOk result (out.new.items ≡ out.old.items ++ steps_text 0 steps.now) }
    ensures range { OnOk result
        ((is_wide (length steps.now) ≡ true) × (list_all is_typed_step steps.now ≡ true)) }
{
    let mut count = 0;
    while count < steps.len() {
        push_step_line(alloc, count as u64 + 1, &steps[count], out)?;
        count += 1;
    }
    Ok(())
}
