//! The report of a log: a line for each record that is left out and for each warning, and the
//! counts.
ghost use Rattle.std.specs.Prelude.{◌≡◌, ◌++◌, length, IfOk, OnOk, OnErr};
ghost use Rattle.std.specs.List.{flat_map};
ghost use Rattle.tm_log_trace.specs.Made.{plain, numbered, placed, source_text, left_text, tree_said, manual_said, thread_said, handed_said, again_said, goes_on_said, cause_said, move_said, parent_said, start_said, arguments_said, warning_text, note_text, notes_until, lines_text, cut_text, counts_text, report_text};

use crate::made::{Counts, Made};
use crate::notes::{Note, Warning};
use std::alloc::Global;
use tm_list::NoMemory;
use tm_log::{LeftOut, Source};
use tm_number::write_decimal;
use tm_types::unions::DomainName;

// Appends a text.
#[tactic(auto, unfolding(crate::specs::Made::plain))]
fn push_text(text: &[u8], out: &mut Vec<u8>) -> Result<(), NoMemory>
    ensures { OnOk result (out.new.items ≡ out.old.items ++ plain text.now) }
{
    out.extend_from_slice(text)
}

// Appends a number after a text.
#[tactic(auto, unfolding(crate::specs::Made::numbered))]
fn push_number(alloc: Global, text: &[u8], n: u64, out: &mut Vec<u8>) -> Result<(), NoMemory>
    ensures { OnOk result (out.new.items ≡ out.old.items ++ numbered text.now n) }
{
    out.extend_from_slice(text)?;
    write_decimal(alloc, n, out)
}

// Appends a domain after a text.
#[tactic(auto, unfolding(crate::specs::Made::placed))]
fn push_domain(text: &[u8], domain: &DomainName, out: &mut Vec<u8>) -> Result<(), NoMemory>
    ensures { OnOk result (out.new.items ≡ out.old.items ++ placed text.now domain.now) }
{
    out.extend_from_slice(text)?;
    out.extend_from_slice(domain.bytes())
}

// Appends what a line begins with.
fn push_source(alloc: Global, source: Source, out: &mut Vec<u8>) -> Result<(), NoMemory>
    ensures { OnOk result (out.new.items ≡ out.old.items ++ source_text source) }
{
    push_number(alloc, b"record ", source.number, out)?;
    push_number(alloc, b" line ", source.line, out)
}

// Appends the line of a record that is left out.
fn push_left_out(alloc: Global, left: LeftOut, out: &mut Vec<u8>) -> Result<(), NoMemory>
    ensures { OnOk result (out.new.items ≡ out.old.items ++ left_text left) }
{
    push_source(alloc, left.source, out)?;
    push_text(b": left out: ", out)?;
    out.extend_from_slice(left.reason.text())?;
    push_text(b"\n", out)
}

// A tree starts in a domain.
#[tactic(auto, unfolding(crate::specs::Made::tree_said))]
fn push_tree(
    alloc: Global,
    pid: u32,
    domain: &DomainName,
    out: &mut Vec<u8>,
) -> Result<(), NoMemory>
    ensures { OnOk result (out.new.items ≡ out.old.items ++ tree_said pid domain.now) }
{
    push_number(alloc, b"tree ", u64::from(pid), out)?;
    push_domain(b" starts in ", domain, out)?;
    push_text(b": domain_policy must have it", out)
}

// A manual transition.
#[tactic(auto, unfolding(crate::specs::Made::manual_said))]
fn push_manual(
    alloc: Global,
    pid: u32,
    domain: &DomainName,
    out: &mut Vec<u8>,
) -> Result<(), NoMemory>
    ensures { OnOk result (out.new.items ≡ out.old.items ++ manual_said pid domain.now) }
{
    push_number(alloc, b"process ", u64::from(pid), out)?;
    push_domain(b" goes to ", domain, out)?;
    push_text(b" by a manual transition", out)
}

// A thread that counts as a process.
#[tactic(auto, unfolding(crate::specs::Made::thread_said))]
fn push_thread(
    alloc: Global,
    global: u32,
    pid: u32,
    key: u32,
    out: &mut Vec<u8>,
) -> Result<(), NoMemory>
    ensures { OnOk result (out.new.items ≡ out.old.items ++ thread_said global pid key) }
{
    push_number(alloc, b"thread ", u64::from(global), out)?;
    push_number(alloc, b" of pid ", u64::from(pid), out)?;
    push_number(alloc, b" is process ", u64::from(key), out)
}

// A process with another parent.
#[tactic(auto, unfolding(crate::specs::Made::handed_said))]
fn push_handed(alloc: Global, pid: u32, ppid: u32, out: &mut Vec<u8>) -> Result<(), NoMemory>
    ensures { OnOk result (out.new.items ≡ out.old.items ++ handed_said pid ppid) }
{
    push_number(alloc, b"process ", u64::from(pid), out)?;
    push_number(alloc, b" was handed to ", u64::from(ppid), out)
}

// A pid that is used again.
#[tactic(auto, unfolding(crate::specs::Made::again_said))]
fn push_again(alloc: Global, key: u32, next: u32, out: &mut Vec<u8>) -> Result<(), NoMemory>
    ensures { OnOk result (out.new.items ≡ out.old.items ++ again_said key next) }
{
    push_number(alloc, b"pid ", u64::from(key), out)?;
    push_number(alloc, b" is used again by process ", u64::from(next), out)
}

// Which process goes on as which other one.
#[tactic(auto, unfolding(crate::specs::Made::goes_on_said))]
fn push_goes_on(
    alloc: Global,
    pid: u32,
    domain: &DomainName,
    next: u32,
    out: &mut Vec<u8>,
) -> Result<(), NoMemory>
    ensures { OnOk result (out.new.items ≡ out.old.items ++ goes_on_said pid domain.now next) }
{
    push_number(alloc, b"process ", u64::from(pid), out)?;
    push_domain(b" is in ", domain, out)?;
    push_number(alloc, b" and goes on as ", u64::from(next), out)
}

// Why it does. A kernel logs an execute as denied before it asks a supervisor.
#[tactic(auto, unfolding(crate::specs::Made::cause_said))]
fn push_cause(refused: bool, out: &mut Vec<u8>) -> Result<(), NoMemory>
    ensures { OnOk result (out.new.items ≡ out.old.items ++ cause_said refused) }
{
    if refused {
        return push_text(
            b": its last execute was denied, or allowed by a supervisor (see mark_log)",
            out,
        );
    }
    push_text(b": no execute to it is recorded", out)
}

// A process that goes on as another one.
#[tactic(auto, unfolding(crate::specs::Made::move_said))]
fn push_move(
    alloc: Global,
    pid: u32,
    domain: &DomainName,
    next: u32,
    refused: bool,
    out: &mut Vec<u8>,
) -> Result<(), NoMemory>
    ensures { OnOk result (out.new.items ≡ out.old.items ++ move_said pid domain.now next refused) }
{
    push_goes_on(alloc, pid, domain, next, out)?;
    push_cause(refused, out)
}

// A parent that is made.
#[tactic(auto, unfolding(crate::specs::Made::parent_said))]
fn push_parent(
    alloc: Global,
    pid: u32,
    domain: &DomainName,
    out: &mut Vec<u8>,
) -> Result<(), NoMemory>
    ensures { OnOk result (out.new.items ≡ out.old.items ++ parent_said pid domain.now) }
{
    push_number(alloc, b"process ", u64::from(pid), out)?;
    push_domain(b" has no record yet and is made in ", domain, out)
}

// A process that starts in a domain.
#[tactic(auto, unfolding(crate::specs::Made::start_said))]
fn push_start(
    alloc: Global,
    pid: u32,
    domain: &DomainName,
    out: &mut Vec<u8>,
) -> Result<(), NoMemory>
    ensures { OnOk result (out.new.items ≡ out.old.items ++ start_said pid domain.now) }
{
    push_number(alloc, b"process ", u64::from(pid), out)?;
    push_domain(b" starts in ", domain, out)?;
    push_text(b": no execute to it is recorded", out)
}

// Arguments that the kernel cut.
#[tactic(auto, unfolding(crate::specs::Made::arguments_said))]
fn push_arguments(out: &mut Vec<u8>) -> Result<(), NoMemory>
    ensures { OnOk result (out.new.items ≡ out.old.items ++ arguments_said) }
{
    push_text(b"the kernel cut the arguments", out)
}

// Appends what a warning says.
#[tactic(auto, unfolding(crate::specs::Made::warning_text))]
fn push_warning(alloc: Global, warning: &Warning, out: &mut Vec<u8>) -> Result<(), NoMemory>
    ensures { OnOk result (out.new.items ≡ out.old.items ++ warning_text warning.now) }
{
    match warning {
        Warning::Tree(pid, domain) => push_tree(alloc, *pid, domain, out),
        Warning::Manual(pid, domain) => push_manual(alloc, *pid, domain, out),
        Warning::Thread(global, pid, key) => push_thread(alloc, *global, *pid, *key, out),
        Warning::Handed(pid, ppid) => push_handed(alloc, *pid, *ppid, out),
        Warning::Again(key, next) => push_again(alloc, *key, *next, out),
        Warning::Move(pid, domain, next, refused) => push_move(
            alloc, *pid, domain, *next, *refused, out,
        ),
        Warning::Parent(ppid, domain) => push_parent(alloc, *ppid, domain, out),
        Warning::Start(pid, domain) => push_start(alloc, *pid, domain, out),
        Warning::Arguments => push_arguments(out),
    }
}

// Appends the line of a warning.
fn push_note(alloc: Global, note: &Note, out: &mut Vec<u8>) -> Result<(), NoMemory>
    ensures { OnOk result (out.new.items ≡ out.old.items ++ note_text note.now) }
{
    push_source(alloc, note.source, out)?;
    push_text(b": warning: ", out)?;
    push_warning(alloc, &note.warning, out)?;
    push_text(b"\n", out)
}

// Appends the lines of the warnings up to this record, and answers those after it.
fn push_notes<'a>(
    alloc: Global,
    notes: &'a [Note],
    number: u64,
    out: &mut Vec<u8>,
) -> Result<&'a [Note], NoMemory>
    ensures text { OnOk result (out.new.items ≡ out.old.items ++ (notes_until number notes.now).0) }
    ensures rest { IfOk result (λ rest. rest.now ≡ (notes_until number notes.now).1) }
{
    let mut rest = notes;
    while let [note, after @ ..] = rest {
        if note.source.number > number {
            break;
        }
        push_note(alloc, note, out)?;
        rest = after;
    }
    Ok(rest)
}

// Appends the line that tells where the log was cut.
fn push_cut(alloc: Global, cut: Option<Source>, out: &mut Vec<u8>) -> Result<(), NoMemory>
    ensures { OnOk result (out.new.items ≡ out.old.items ++ cut_text cut) }
{
    match cut {
        None => Ok(()),
        Some(source) => {
            push_source(alloc, source, out)?;
            push_text(b": the trace is full: the log is cut here\n", out)
        }
    }
}

// Appends the line of the counts.
fn push_counts(
    alloc: Global,
    counts: Counts,
    left: usize,
    warnings: usize,
    out: &mut Vec<u8>,
) -> Result<(), NoMemory>
    ensures { OnOk result (out.new.items ≡ out.old.items ++ counts_text counts left warnings) }
{
    push_number(alloc, b"records ", counts.records, out)?;
    push_number(alloc, b" used ", counts.used as u64, out)?;
    push_number(alloc, b" left out ", left as u64, out)?;
    push_number(alloc, b" trees ", counts.trees as u64, out)?;
    push_number(alloc, b" processes ", counts.processes as u64, out)?;
    push_number(alloc, b" warnings ", warnings as u64, out)?;
    push_text(b"\n", out)
}

// Appends all warnings.
fn push_all(alloc: Global, notes: &[Note], out: &mut Vec<u8>) -> Result<(), NoMemory>
    ensures { OnOk result (out.new.items ≡ out.old.items ++ flat_map note_text notes.now) }
{
    for note in notes {
        push_note(alloc, note, out)?;
    }
    Ok(())
}

// Appends the lines of warnings and of records that are left out, by the numbers of their records.
fn push_lines(
    alloc: Global,
    notes: &[Note],
    left_out: &[LeftOut],
    out: &mut Vec<u8>,
) -> Result<(), NoMemory>
    ensures { OnOk result (out.new.items ≡ out.old.items ++ lines_text notes.now left_out.now) }
{
    let mut rest = notes;
    for left in left_out {
        rest = push_notes(alloc, rest, left.source.number, out)?;
        push_left_out(alloc, *left, out)?;
    }
    push_all(alloc, rest, out)
}

// The text of a report.
#[tactic(auto, unfolding(crate::specs::Made::report_text))]
fn report_text(alloc: Global, made: &Made) -> Result<Vec<u8>, NoMemory>
    ensures { IfOk result (λ text. text.items ≡ report_text made.now) }
{
    let mut text = Vec::new(alloc);
    push_lines(
        alloc,
        made.warnings.as_slice(),
        made.left_out.as_slice(),
        &mut text,
    )?;
    push_cut(alloc, made.cut, &mut text)?;
    push_counts(
        alloc,
        made.counts,
        made.left_out.len(),
        made.warnings.len(),
        &mut text,
    )?;
    Ok(text)
}

/// Appends the report: the lines of the records that are left out and of the warnings, by the
/// number of their record, where the log was cut, and the counts. After want of memory `out` is as
/// before.
pub fn print_report(alloc: Global, made: &Made, out: &mut Vec<u8>) -> Result<(), NoMemory>
    ensures ok { OnOk result (out.new.items ≡ out.old.items ++ report_text made.now) }
    ensures err { OnErr result (out.new.items ≡ out.old.items) }
{
    let text = report_text(alloc, made)?;
    out.extend_from_slice(&text)
}
