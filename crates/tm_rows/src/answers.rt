//! How the readers themselves answer on the files of a `step`.
ghost use Rattle.std.specs.Prelude.{IfOk};
ghost use Rattle.tm_rules.specs.Prelude.{IsFew};

use std::alloc::Global;
use tm_call::{Status, text_at};
use tm_change_domains::live_domain;
use tm_io::{FileList, FileName};
use tm_list::NoMemory;
use tm_policy::load;
use tm_script::{read_answers, read_edits, read_schedule};
use tm_trace::{read_trace, tree_line_at};
use tm_types::policy::Policy;
use tm_types::request::{ScriptFault, Trace, TraceFault, TraceKind, Tree};
use tm_types::step::{LoadFault, PolicyFiles};
use tm_word::Text;

// The four policy files.
fn policy_files(alloc: Global, files: &FileList) -> Result<PolicyFiles, NoMemory> {
    Ok(PolicyFiles {
        profile: Text::from_bytes(alloc, text_at(files, FileName::Profile))?,
        exception: Text::from_bytes(alloc, text_at(files, FileName::ExceptionPolicy))?,
        domain: Text::from_bytes(alloc, text_at(files, FileName::DomainPolicy))?,
        manager: Text::from_bytes(alloc, text_at(files, FileName::Manager))?,
    })
}

// The policy by its plain representation.
fn policy_in(alloc: Global, files: &FileList) -> Result<Policy, Status>
    ensures { IfOk result IsFew }
{
    let Ok(files) = policy_files(alloc, files) else {
        return Err(Status::OutOfMemory);
    };
    match load(alloc, &files) {
        Ok(policy) => Ok(policy),
        Err(LoadFault::Line(file, line, reply)) => Err(Status::BadPolicy(file, line, reply)),
        Err(LoadFault::UndefinedProfile(domain)) => Err(Status::UndefinedProfile(domain)),
        Err(LoadFault::NoMemory) => Err(Status::OutOfMemory),
    }
}

// The trace.
fn trace_in(alloc: Global, files: &FileList) -> Result<Trace, Status> {
    match read_trace(alloc, text_at(files, FileName::Trace)) {
        Ok(trace) => Ok(trace),
        Err(TraceFault::Line(line, kind)) => Err(Status::BadTrace(line, kind)),
        Err(TraceFault::NoMemory) => Err(Status::OutOfMemory),
    }
}

// The status at a fault of a script.
fn script_fault(name: FileName, fault: ScriptFault) -> Status {
    match fault {
        ScriptFault::Line(line, kind) => Status::BadScript(name, line, kind),
        ScriptFault::NoMemory => Status::OutOfMemory,
    }
}

// Reads the three scripts, the schedule with so many trees.
fn scripts_in(alloc: Global, files: &FileList, trees: usize) -> Result<(), Status> {
    let editors = match read_edits(alloc, text_at(files, FileName::Edits)) {
        Ok(editors) => editors.len(),
        Err(fault) => return Err(script_fault(FileName::Edits, fault)),
    };
    if let Err(fault) = read_answers(alloc, text_at(files, FileName::Answers)) {
        return Err(script_fault(FileName::Answers, fault));
    }
    let (Ok(trees), Ok(editors)) = (u32::try_from(trees), u32::try_from(editors)) else {
        return Err(Status::OutOfMemory);
    };
    let schedule = text_at(files, FileName::Schedule);
    match read_schedule(alloc, schedule, trees, editors) {
        Ok(_) => Ok(()),
        Err(fault) => Err(script_fault(FileName::Schedule, fault)),
    }
}

// The place of the first tree that starts in no live domain.
fn first_homeless(policy: &Policy, trees: &[Tree]) -> Option<usize>
    requires { IsFew policy.now }
{
    for (place, tree) in trees.iter().enumerate() {
        if live_domain(policy, &tree.start).is_none() {
            return Some(place);
        }
    }
    None
}

// Reads all files, in their order.
fn read_files(alloc: Global, files: &FileList) -> Result<(), Status> {
    let policy = policy_in(alloc, files)?;
    let trace = trace_in(alloc, files)?;
    scripts_in(alloc, files, trace.len())?;
    match first_homeless(&policy, trace.as_slice()) {
        None => Ok(()),
        Some(place) => {
            let line = tree_line_at(text_at(files, FileName::Trace), place).unwrap_or(0);
            Err(Status::BadTrace(line, TraceKind::NoDomain))
        }
    }
}

/// How a `step` on these files has to end by what their readers answer: with the first that is
/// refused of the policy, the trace, the edits, the answers and the schedule, or else with the
/// first tree that starts in no live domain. The limits aren't looked at.
pub fn readers_answer(alloc: Global, files: &FileList) -> Status {
    match read_files(alloc, files) {
        Ok(()) => Status::Done,
        Err(status) => status,
    }
}
