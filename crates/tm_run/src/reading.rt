//! Reading the text of a run, line by line.
ghost use Rattle.std.specs.Prelude.{◌≡◌, ◌+◌, ◌∷◌, ◌++◌, ◌&&◌, ◌<◌, [], length, true, false, Some, IfOk, MatchOption};
ghost use Rattle.tm_run.specs.RunText.{run_text, take_line, look_text, audit_line};
ghost use Rattle.tm_run.specs.Steps.{step_line};
ghost use Rattle.tm_word.specs.Prelude.{Gives, texts_equal, words_of};
ghost use Rattle.tm_run.specs.Reading.{run_cause, fresh, has_number, with_step, with_take, with_look, with_audit, is_empty, starts, outside, within, line_read, lines_of, run_at, run_from, run_of};
ghost use Rattle.tm_run.specs.Laws.{WrittenIsRead, ReadIsWritten, FaultIsFirst};

use crate::lines::{audit_of, look_of, take_of};
use crate::look::push_look;
use crate::printing::{push_audit_line, push_take_line};
use crate::step_words::step_of;
use crate::steps::push_step_line;
use std::alloc::Global;
use tm_list::{NoMemory, Seq};
use tm_types::step::{Look, Reply, Run, RunFault, Step, Take};
use tm_word::{Text, bytes_equal, cut_word, place_of};

/// What has been read of a run: its steps, its takes, and the take that is begun, with its looks so
/// far.
#[derive(Drop)]
struct Reading {
    steps: Seq<(Step, Reply)>,
    takes: Seq<Take>,
    begun: Option<Take>,
}

// The number after so many, where it has 64 bits.
fn next_number(count: usize) -> Option<u64>
    ensures { MatchOption result (has_number count ≡ false)
        (λ number. (has_number count ≡ true) × (number ≡ count + 1)) }
{
    (count as u64).checked_add(1)
}

// Whether a step's line is this one.
fn is_step_line(
    alloc: Global,
    number: u64,
    step: &(Step, Reply),
    line: &[u8],
) -> Result<bool, NoMemory>
    ensures { IfOk result (λ same. same ≡ texts_equal (step_line number step.now) line.now) }
{
    let mut printed = Vec::new(alloc);
    push_step_line(alloc, number, step, &mut printed)?;
    Ok(bytes_equal(&printed, line))
}

fn is_take_line(alloc: Global, number: u64, take: &Take, line: &[u8]) -> Result<bool, NoMemory>
    ensures { IfOk result (λ same. same ≡ texts_equal (take_line number take.now) line.now) }
{
    let mut printed = Vec::new(alloc);
    push_take_line(number, take, &mut printed)?;
    Ok(bytes_equal(&printed, line))
}

fn is_look_line(alloc: Global, look: &Look, line: &[u8]) -> Result<bool, NoMemory>
    ensures { IfOk result (λ same. same ≡ texts_equal (look_text look.now) line.now) }
{
    let mut printed = Vec::new(alloc);
    push_look(look, &mut printed)?;
    Ok(bytes_equal(&printed, line))
}

fn is_audit_line(alloc: Global, audit: &Option<Text>, line: &[u8]) -> Result<bool, NoMemory>
    ensures { IfOk result (λ same. same ≡ texts_equal (audit_line audit.now) line.now) }
{
    let mut printed = Vec::new(alloc);
    push_audit_line(alloc, audit, &mut printed)?;
    Ok(bytes_equal(&printed, line))
}

// Whether a step is the next one after so many, and its line this one.
fn is_next_step(
    alloc: Global,
    count: usize,
    step: &(Step, Reply),
    line: &[u8],
) -> Result<bool, NoMemory>
    ensures { IfOk result (λ same. same ≡ (has_number count && texts_equal
        (step_line (count + 1) step.now) line.now)) }
{
    match next_number(count) {
        Some(number) => is_step_line(alloc, number, step, line),
        None => Ok(false),
    }
}

// One step more.
fn put_step(reading: Reading, step: (Step, Reply)) -> Result<Reading, NoMemory>
    ensures { IfOk result (λ next. next ≡ record reading { steps = reading.steps ++ step ∷ [] }) }
{
    let mut reading = reading;
    match reading.steps.push(step) {
        Ok(()) => Ok(reading),
        Err(fault) => {
            drop(reading);
            Err(fault)
        }
    }
}

fn with_step(
    alloc: Global,
    reading: Reading,
    line: &[u8],
    step: (Step, Reply),
) -> Result<Option<Reading>, NoMemory>
    ensures { IfOk result (λ next. next ≡ with_step reading line.now (Some step)) }
{
    match is_next_step(alloc, reading.steps.len(), &step, line) {
        Ok(true) => match put_step(reading, step) {
            Ok(next) => Ok(Some(next)),
            Err(fault) => Err(fault),
        },
        Ok(false) => {
            drop(reading);
            drop(step);
            Ok(None)
        }
        Err(fault) => {
            drop(reading);
            drop(step);
            Err(fault)
        }
    }
}

// The take that begins here.
fn begin(reading: Reading, take: Take) -> Reading
    ensures { result ≡ record reading { begun = Some take } }
{
    Reading {
        steps: reading.steps,
        takes: reading.takes,
        begun: Some(take),
    }
}

// Whether a take is the next one after so many, and its first line this one.
fn is_next_take(alloc: Global, count: usize, take: &Take, line: &[u8]) -> Result<bool, NoMemory>
    ensures { IfOk result (λ same. same
        ≡ (has_number count && texts_equal (take_line (count + 1) take.now) line.now)) }
{
    match next_number(count) {
        Some(number) => is_take_line(alloc, number, take, line),
        None => Ok(false),
    }
}

fn with_take(
    alloc: Global,
    reading: Reading,
    line: &[u8],
    take: Take,
) -> Result<Option<Reading>, NoMemory>
    ensures { IfOk result (λ next. next ≡ with_take reading line.now (Some take)) }
{
    match is_next_take(alloc, reading.takes.len(), &take, line) {
        Ok(true) => Ok(Some(begin(reading, take))),
        Ok(false) => Ok(None),
        Err(fault) => Err(fault),
    }
}

// One look more of the take that is begun.
fn put_look(reading: Reading, take: Take, look: Look) -> Result<Reading, NoMemory>
    ensures { IfOk result (λ next. next
        ≡ record reading { begun = Some (record take { looks = take.looks ++ look ∷ [] }) }) }
{
    let mut take = take;
    match take.looks.push(look) {
        Ok(()) => Ok(begin(reading, take)),
        Err(fault) => Err(fault),
    }
}

fn with_look(
    alloc: Global,
    reading: Reading,
    take: Take,
    line: &[u8],
    look: Look,
) -> Result<Option<Reading>, NoMemory>
    ensures { IfOk result (λ next. next ≡ with_look reading take line.now (Some look)) }
{
    match is_look_line(alloc, &look, line) {
        Ok(true) => match put_look(reading, take, look) {
            Ok(next) => Ok(Some(next)),
            Err(fault) => Err(fault),
        },
        Ok(false) => Ok(None),
        Err(fault) => Err(fault),
    }
}

// The end of the take that is begun.
fn end(reading: Reading, take: Take, audit: Option<Text>) -> Result<Reading, NoMemory>
    ensures { IfOk result (λ next. next
        ≡ record reading { takes = reading.takes ++ record take { audit = audit } ∷ [] }) }
{
    let mut take = take;
    take.audit = audit;
    let mut reading = reading;
    match reading.takes.push(take) {
        Ok(()) => Ok(reading),
        Err(fault) => Err(fault),
    }
}

fn with_audit(
    alloc: Global,
    reading: Reading,
    take: Take,
    line: &[u8],
    audit: Option<Text>,
) -> Result<Option<Reading>, NoMemory>
    ensures { IfOk result (λ next. next ≡ with_audit reading take line.now audit) }
{
    match is_audit_line(alloc, &audit, line) {
        Ok(true) => match end(reading, take, audit) {
            Ok(next) => Ok(Some(next)),
            Err(fault) => Err(fault),
        },
        Ok(false) => Ok(None),
        Err(fault) => Err(fault),
    }
}

// Whether the first word is this one.
fn starts(keyword: &[u8], line: &[u8]) -> bool
    ensures { result ≡ starts keyword.now (words_of line.now) }
{
    match cut_word(line) {
        None => false,
        Some((word, _)) => bytes_equal(word, keyword),
    }
}

// Between takes: the first line of a take, or a step before all takes.
fn outside(alloc: Global, reading: Reading, line: &[u8]) -> Result<Option<Reading>, NoMemory>
    ensures { IfOk result (λ next. next ≡ outside reading line.now (words_of line.now)) }
{
    if starts(b"take", line) {
        return match take_of(alloc, line) {
            Some(take) => with_take(alloc, reading, line, take),
            None => Ok(None),
        };
    }
    if !reading.takes.is_empty() {
        return Ok(None);
    }
    match step_of(alloc, line) {
        Ok(Some(step)) => with_step(alloc, reading, line, step),
        Ok(None) => Ok(None),
        Err(fault) => Err(fault),
    }
}

// Within a take: its audit line, or a look.
fn within(
    alloc: Global,
    reading: Reading,
    take: Take,
    line: &[u8],
) -> Result<Option<Reading>, NoMemory>
    ensures { IfOk result (λ next. next ≡ within reading take line.now (words_of line.now)) }
{
    if starts(b"audit", line) {
        return match audit_of(alloc, line) {
            Ok(audit) => with_audit(alloc, reading, take, line, audit),
            Err(fault) => Err(fault),
        };
    }
    match look_of(alloc, line) {
        Ok(Some(look)) => with_look(alloc, reading, take, line, look),
        Ok(None) => Ok(None),
        Err(fault) => Err(fault),
    }
}

// What has been read with this line more, where it can stand here.
#[tactic(auto, unfolding(crate::specs::Reading::line_read))]
fn line_read(alloc: Global, reading: Reading, line: &[u8]) -> Result<Option<Reading>, NoMemory>
    ensures { IfOk result (λ next. next ≡ line_read reading line.now) }
{
    let Reading {
        steps,
        takes,
        begun,
    } = reading;
    let rest = Reading {
        steps,
        takes,
        begun: None,
    };
    match begun {
        None => outside(alloc, rest, line),
        Some(take) => within(alloc, rest, take, line),
    }
}

// The first line, with the byte 10 that ends it, and the text after it.
fn cut_line(text: &[u8]) -> Option<(&[u8], &[u8])>
    ensures { MatchOption result (lines_of text.now ≡ [])
        (λ cut. (lines_of text.now ≡ cut.0.now ∷ lines_of cut.1.now)
        × (length cut.1.now < length text.now)) }
{
    match place_of(b'\n', text) {
        Some(place) => Some((&text[..place + 1], &text[place + 1..])),
        None => match text {
            [] => None,
            [_, ..] => Some((text, b"")),
        },
    }
}

// The run that was read, where the text may end here.
fn run_at(number: u64, reading: Reading) -> Result<Run, u64>
    ensures { result ≡ run_at number reading reading.begun }
{
    match reading.begun {
        None => Ok(Run {
            steps: reading.steps,
            takes: reading.takes,
        }),
        Some(_) => Err(number),
    }
}

// The lines after the first one.
fn run_from(alloc: Global, text: &[u8]) -> Result<Result<Run, u64>, NoMemory>
    ensures { IfOk result (λ run. run ≡ run_from 2 fresh (lines_of text.now)) }
{
    let mut reading = Reading {
        steps: Seq::new(alloc),
        takes: Seq::new(alloc),
        begun: None,
    };
    let mut rest = text;
    let mut number = 2;
    while let Some((line, after)) = cut_line(rest) {
        let Some(next) = line_read(alloc, reading, line)? else {
            return Ok(Err(number));
        };
        reading = next;
        rest = after;
        number += 1;
    }
    Ok(run_at(number, reading))
}

// The run that a text is, or the number of the line with which it can't go on.
#[tactic(auto, unfolding(crate::specs::Reading::run_of))]
fn run_of(alloc: Global, text: &[u8]) -> Result<Result<Run, u64>, NoMemory>
    ensures { IfOk result (λ run. run ≡ run_of text.now) }
{
    match cut_line(text) {
        Some((line, rest)) => {
            if bytes_equal(line, b"run 1\n") {
                run_from(alloc, rest)
            } else {
                Ok(Err(1))
            }
        }
        None => Ok(Err(1)),
    }
}

/// Reads the text of a run. It accepts exactly the texts that `print_run` writes of runs that a
/// text can write: each line in its printed form, steps and takes numbered from 1 without a gap,
/// all steps before the takes, each step with a reply of its own kind, and each take with its looks
/// and its one audit line. A learned entry is one that a line can write, the name of a domain to be
/// made a right one, and the line of a question or of an edit one word or more, joined by single
/// spaces. The audit text `-` can't be read, since `-` stands for none.
///
/// Errors: `BadLine`, the first line with which no such text can go on, from 1 (one past the last
/// line where the text ends too early; a last line without its byte 10 can't stand); or want of
/// memory.
pub fn read_run(alloc: Global, bytes: &[u8]) -> Result<Run, RunFault>
    ensures { Gives run_cause (λ run. run) result (run_of bytes.now) }
{
    match run_of(alloc, bytes) {
        Ok(Ok(run)) => Ok(run),
        Ok(Err(line)) => Err(RunFault::BadLine(line)),
        Err(_) => Err(RunFault::NoMemory),
    }
}

/// Runs and their texts, as laws over every run and every text: a run that a text can write is read
/// from its text; what is read is a run that a text can write, and the text is its own; a fault
/// names the first line with which no such text can go on.
pub fn run_round_trip()
    ensures written { WrittenIsRead }
    ensures read { ReadIsWritten }
    ensures fault { FaultIsFirst }
{}
