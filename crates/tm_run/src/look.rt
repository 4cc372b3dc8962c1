//! The line of a look.
ghost use Rattle.std.specs.Prelude.{◌≡◌, ◌+◌, ◌≤◌, ◌++◌, ◌∷◌, OnOk, decimal, true};
ghost use Rattle.std.specs.List.{flat_map, list_all};
ghost use Rattle.tm_run.specs.Room.{room};
ghost use Rattle.tm_run.specs.Written.{is_place, is_reason, is_move, is_wide, is_heard, is_look};
ghost use Rattle.tm_run.specs.RunText.{mode_word, place_text, reason_text, move_text, numbers_text, answer_text, heard_text, verdict_text, look_text};

use crate::fields::ANSWERS;
use crate::room::{make_room, put, put_plain, put_small, put_text, put_wide};
use tm_list::NoMemory;
use tm_types::policy::Mode;
use tm_types::step::{Answered, Heard, Look};
use tm_types::verdict::{EntryPlace, Move, Reason};

#[tactic(auto, using(crate::proofs::Lengths::mode_length))]
fn put_mode(mode: Option<Mode>, out: &mut Vec<u8>)
    requires { 10 ≤ room out.old }
    ensures text { out.new.items ≡ out.old.items ++ mode_word mode }
    ensures room { room out.old ≤ room out.new + 10 }
{
    match mode {
        None => put_text(b"none", out),
        Some(mode) => put_text(mode.text().as_bytes(), out),
    }
}

fn put_place(place: EntryPlace, out: &mut Vec<u8>)
    requires { 20 ≤ room out.old }
    ensures text { out.new.items ≡ out.old.items ++ place_text place }
    ensures room { room out.old ≤ room out.new + 20 }
    ensures range { is_place place ≡ true }
{
    match place {
        EntryPlace::Own(place) => put_plain(b"entry:", place, out),
        EntryPlace::Acl(group, place) => {
            put_small(b"group:", group, out);
            put_plain(b":", place, out);
        }
    }
}

fn put_reason(reason: Reason, out: &mut Vec<u8>)
    requires { 20 ≤ room out.old }
    ensures text { out.new.items ≡ out.old.items ++ reason_text reason }
    ensures room { room out.old ≤ room out.new + 20 }
    ensures range { is_reason reason ≡ true }
{
    match reason {
        Reason::Entry(place) => put_place(place, out),
        Reason::Disabled => put_text(b"disabled", out),
        Reason::Permissive => put_text(b"permissive", out),
        Reason::Quota => put_text(b"quota", out),
        Reason::Learn => put_text(b"learn", out),
        Reason::Ask => put_text(b"ask", out),
        Reason::NoEntry => put_text(b"no_entry", out),
        Reason::NotReady => put_text(b"not_ready", out),
        Reason::NoManual => put_text(b"no_manual", out),
    }
}

fn put_move(step: Move, out: &mut Vec<u8>)
    requires { 16 ≤ room out.old }
    ensures text { out.new.items ≡ out.old.items ++ move_text step }
    ensures room { room out.old ≤ room out.new + 16 }
    ensures range { is_move step ≡ true }
{
    match step {
        Move::Stay => put_text(b"stay", out),
        Move::Enter(domain) => put_plain(b"enter:", domain, out),
        Move::Make => put_text(b"make", out),
        Move::Fail => put_text(b"fail", out),
    }
}

fn put_verdict(look: &Look, out: &mut Vec<u8>)
    requires { 48 ≤ room out.old }
    ensures text { out.new.items ≡ out.old.items ++ verdict_text look.now }
    ensures room { room out.old ≤ room out.new + 48 }
    ensures range { (is_reason look.now.reason ≡ true) × (is_move look.now.step ≡ true) }
{
    put_mode(look.mode, out);
    put(b' ', out);
    put_reason(look.reason, out);
    put(b' ', out);
    put_move(look.step, out);
}

#[tactic(auto, using(crate::proofs::Lengths::answered_length))]
fn put_answer(answer: Option<Answered>, out: &mut Vec<u8>)
    requires { 8 ≤ room out.old }
    ensures text { out.new.items ≡ out.old.items ++ answer_text answer }
    ensures room { room out.old ≤ room out.new + 8 }
{
    match answer {
        None => put_text(b"nobody", out),
        Some(answer) => put_text(ANSWERS[answer as usize].0.as_bytes(), out),
    }
}

fn put_heard(heard: Option<Heard>, out: &mut Vec<u8>)
    requires { 29 ≤ room out.old }
    ensures text { out.new.items ≡ out.old.items ++ heard_text heard }
    ensures room { room out.old ≤ room out.new + 29 }
    ensures range { is_heard heard ≡ true }
{
    match heard {
        None => put(b'-', out),
        Some(heard) => {
            put_answer(heard.answer, out);
            put_wide(b"@", heard.version, out);
        }
    }
}

// Room for one more number behind its comma, and for what a look heard behind it.
const NEXT_ROOM: usize = 52;

// The numbers after the first one. Behind them there is room for what a look heard.
fn push_others(numbers: &[u64], out: &mut Vec<u8>) -> Result<(), NoMemory>
    requires { 31 ≤ room out.old }
    ensures text { OnOk result
        (out.new.items ≡ out.old.items ++ flat_map (λ other. 44 ∷ decimal other) numbers.now) }
    ensures room { OnOk result (31 ≤ room out.new) }
    ensures range { OnOk result (list_all is_wide numbers.now ≡ true) }
{
    for number in numbers {
        make_room(NEXT_ROOM, out)?;
        put_wide(b",", *number, out);
    }
    Ok(())
}

// The numbers of the steps that a look made. Behind them there is room for what it heard.
fn push_numbers(numbers: &[u64], out: &mut Vec<u8>) -> Result<(), NoMemory>
    requires { 51 ≤ room out.old }
    ensures text { OnOk result (out.new.items ≡ out.old.items ++ numbers_text numbers.now) }
    ensures room { OnOk result (31 ≤ room out.new) }
    ensures range { OnOk result (list_all is_wide numbers.now ≡ true) }
{
    match numbers {
        [] => {
            put(b'-', out);
            Ok(())
        }
        [number, others @ ..] => {
            put_wide(b"", *number, out);
            push_others(others, out)
        }
    }
}

// Room for the line of any look but its numbers: its words, its version, its verdict and what it
// heard.
const LOOK_ROOM: usize = 126;

pub(crate) fn push_look(look: &Look, out: &mut Vec<u8>) -> Result<(), NoMemory>
    ensures text { OnOk result (out.new.items ≡ out.old.items ++ look_text look.now) }
    ensures range { OnOk result (is_look look.now ≡ true) }
{
    make_room(LOOK_ROOM, out)?;
    put_wide(b"look ", look.version, out);
    put(b' ', out);
    put_verdict(look, out);
    put(b' ', out);
    push_numbers(look.own.as_slice(), out)?;
    put(b' ', out);
    put_heard(look.heard, out);
    put(b'\n', out);
    Ok(())
}

pub(crate) fn push_looks(looks: &[Look], out: &mut Vec<u8>) -> Result<(), NoMemory>
    ensures text { OnOk result (out.new.items ≡ out.old.items ++ flat_map look_text looks.now) }
    ensures range { OnOk result (list_all is_look looks.now ≡ true) }
{
    for look in looks {
        push_look(look, out)?;
    }
    Ok(())
}
