//! What is played of the files: the policy, the trace, the edits, the supervisor's book and the
//! schedule.
ghost use Rattle.std.specs.Prelude.{◌≡◌, nat_lt, length, IfOk};
ghost use Rattle.tm_rules.specs.Prelude.{IsFew};
ghost use Rattle.tm_word.specs.Prelude.{Gives};
ghost use Rattle.tm_trace.specs.Reading.{trace_of};
ghost use Rattle.tm_script.specs.Edits.{edits_of};
ghost use Rattle.tm_script.specs.Answers.{answers_of};
ghost use Rattle.tm_script.specs.Schedule.{schedule_of};
ghost use Rattle.tm_script.specs.Written.{edit_count};
ghost use Rattle.tm_io.specs.declared.names.FileName.{FileName};
ghost use Rattle.tm_call.specs.Fetches.{content};
ghost use Rattle.tm_call_input.specs.Policies.{OthersStay, policy_of};
ghost use Rattle.tm_call_input.specs.Reading.{status_cause, of_policy, of_trace, of_script, record_count, excess, homeless, admitted, parts_reading, scene_reading, step_reading, with_run, judging_reading};

use crate::policies::load_indexed_files;
use std::alloc::Global;
use tm_call::{Status, What, text_at};
use tm_indexed::Indexed;
use tm_indexed::rep::Rep;
use tm_io::{FileList, FileName};
use tm_list::Seq;
use tm_run::read_run;
use tm_script::{read_answers, read_edits, read_schedule};
use tm_trace::{read_trace, tree_line_at};
use tm_types::request::{ScriptFault, Trace, TraceFault, TraceKind, Tree};
use tm_types::step::{Book, Editor, Run, RunFault, Turn};

/// What is played: the opening, the trace, the editors with their edits, the supervisor's book, and
/// the schedule, which has no turn where none is read.
#[derive(Drop)]
pub struct Loaded {
    pub policy: Indexed,
    pub trace: Trace,
    pub editors: Seq<Editor>,
    pub book: Book,
    pub schedule: Seq<Turn>,
}

/// A run that is to be judged, and the scene that it is judged by, which has no schedule.
#[derive(Drop)]
pub struct Judging {
    pub scene: Loaded,
    pub run: Run,
}

// Reads the trace.
fn trace_in(alloc: Global, texts: &FileList) -> Result<Trace, Status>
    ensures { Gives status_cause (λ trace. trace) result
        (of_trace (trace_of (content texts.now FileName.Trace))) }
{
    match read_trace(alloc, text_at(texts, FileName::Trace)) {
        Ok(trace) => Ok(trace),
        Err(TraceFault::Line(line, kind)) => Err(Status::BadTrace(line, kind)),
        Err(TraceFault::NoMemory) => Err(Status::OutOfMemory),
    }
}

// Reads the editors.
fn editors_in(alloc: Global, texts: &FileList) -> Result<Seq<Editor>, Status>
    ensures { Gives status_cause (λ editors. editors) result
        (of_script FileName.Edits (edits_of (content texts.now FileName.Edits))) }
{
    match read_edits(alloc, text_at(texts, FileName::Edits)) {
        Ok(editors) => Ok(Seq::from_vec(editors)),
        Err(ScriptFault::Line(line, kind)) => Err(Status::BadScript(FileName::Edits, line, kind)),
        Err(ScriptFault::NoMemory) => Err(Status::OutOfMemory),
    }
}

// Reads the supervisor's book.
fn book_in(alloc: Global, texts: &FileList) -> Result<Book, Status>
    ensures { Gives status_cause (λ book. book) result
        (of_script FileName.Answers (answers_of (content texts.now FileName.Answers))) }
{
    match read_answers(alloc, text_at(texts, FileName::Answers)) {
        Ok(book) => Ok(book),
        Err(ScriptFault::Line(line, kind)) => Err(Status::BadScript(FileName::Answers, line, kind)),
        Err(ScriptFault::NoMemory) => Err(Status::OutOfMemory),
    }
}

// Reads the schedule of so many trees and editors.
fn schedule_in(
    alloc: Global,
    texts: &FileList,
    trees: usize,
    editors: usize,
) -> Result<Seq<Turn>, Status>
    ensures { Gives status_cause (λ schedule. schedule) result
        (of_script FileName.Schedule
        (schedule_of trees editors (content texts.now FileName.Schedule))) }
{
    let Ok(trees) = u32::try_from(trees) else {
        return Err(Status::OutOfMemory);
    };
    let Ok(editors) = u32::try_from(editors) else {
        return Err(Status::OutOfMemory);
    };
    match read_schedule(alloc, text_at(texts, FileName::Schedule), trees, editors) {
        Ok(schedule) => Ok(Seq::from_vec(schedule)),
        Err(ScriptFault::Line(line, kind)) => Err(Status::BadScript(
            FileName::Schedule,
            line,
            kind,
        )),
        Err(ScriptFault::NoMemory) => Err(Status::OutOfMemory),
    }
}

// Whether a trace has more than 200,000 records.
fn has_many_records(trees: &[Tree]) -> bool
    ensures { result ≡ nat_lt 200000 (record_count trees.now) }
{
    let mut room: usize = 200_000;
    for tree in trees {
        if tree.records.len() > room {
            return true;
        }
        room -= tree.records.len();
    }
    false
}

// Whether editors have more than 10,000 edits.
fn has_many_edits(editors: &[Editor]) -> bool
    ensures { result ≡ nat_lt 10000 (edit_count editors.now) }
{
    let mut room: usize = 10_000;
    for editor in editors {
        if editor.lines.len() > room {
            return true;
        }
        room -= editor.lines.len();
    }
    false
}

// The first limit that is passed.
fn excess(loaded: &Loaded) -> Option<What>
    ensures { result ≡ excess loaded.now }
{
    if has_many_records(loaded.trace.as_slice()) {
        return Some(What::Records);
    }
    if loaded.trace.len() > 4_096 {
        return Some(What::Trees);
    }
    if has_many_edits(loaded.editors.as_slice()) {
        return Some(What::Edits);
    }
    if loaded.editors.len() > 8 {
        return Some(What::Editors);
    }
    if loaded.schedule.len() > 1_000_000 {
        return Some(What::Turns);
    }
    None
}

/// The place of the first tree, from 0, whose domain isn't live; None where each is.
pub fn homeless(policy: &Indexed, trees: &[Tree]) -> Option<usize>
    requires { IsFew policy.now }
    ensures { result ≡ homeless policy.now trees.now }
{
    for (place, tree) in trees.iter().enumerate() {
        if policy.live_domain(&tree.start).is_none() {
            return Some(place);
        }
    }
    None
}

// Refuses what was read where it passes a limit, or a tree has no domain to start in.
fn admit(text: &[u8], loaded: Loaded) -> Result<Loaded, Status>
    requires { IsFew loaded.policy }
    ensures exact { Gives status_cause (λ loaded. loaded) result (admitted text.now loaded) }
    ensures few { IfOk result (λ loaded. IsFew loaded.policy) }
{
    if let Some(what) = excess(&loaded) {
        return Err(Status::TooMany(what));
    }
    match homeless(&loaded.policy, loaded.trace.as_slice()) {
        None => Ok(loaded),
        Some(place) => {
            let line = tree_line_at(text, place).unwrap_or(0);
            Err(Status::BadTrace(line, TraceKind::NoDomain))
        }
    }
}

// Reads the policy and opens it, and then the trace, the edits and the answers. The texts of the
// policy files are taken out of what was fetched.
#[tactic(auto, unfolding(crate::specs::Reading::parts_reading))]
fn read_parts(alloc: Global, texts: &mut FileList) -> Result<Loaded, Status>
    ensures exact { Gives status_cause (λ loaded. loaded) result (parts_reading texts.old) }
    ensures few { IfOk result (λ loaded. IsFew loaded.policy) }
    ensures others { OthersStay texts.old texts.new }
{
    let policy = load_indexed_files(alloc, texts)?;
    let trace = trace_in(alloc, texts)?;
    let editors = editors_in(alloc, texts)?;
    let book = book_in(alloc, texts)?;
    Ok(Loaded {
        policy,
        trace,
        editors,
        book,
        schedule: Seq::new(alloc),
    })
}

/// Reads the policy and opens it, and then the trace, the edits and the answers: what is played on
/// threads, or judged. The texts are dropped when they are read.
///
/// Errors: the first that is refused, a faulty line, a limit that is passed, or a tree whose domain
/// isn't live; want of memory.
#[tactic(auto, unfolding(crate::specs::Reading::scene_reading))]
pub fn read_scene(alloc: Global, texts: FileList) -> Result<Loaded, Status>
    ensures exact { Gives status_cause (λ loaded. loaded) result (scene_reading texts) }
    ensures few { IfOk result (λ loaded. IsFew loaded.policy) }
{
    let mut texts = texts;
    let loaded = read_parts(alloc, &mut texts)?;
    admit(text_at(&texts, FileName::Trace), loaded)
}

/// Reads what `read_scene` reads, and between the answers and the limits the schedule: what is
/// played on one thread. The texts are dropped when they are read.
///
/// Errors: the first that is refused, a faulty line, a limit that is passed, or a tree whose domain
/// isn't live; want of memory.
#[tactic(auto, unfolding(crate::specs::Reading::step_reading))]
pub fn read_step(alloc: Global, texts: FileList) -> Result<Loaded, Status>
    ensures exact { Gives status_cause (λ loaded. loaded) result (step_reading texts) }
    ensures few { IfOk result (λ loaded. IsFew loaded.policy) }
{
    let mut texts = texts;
    let mut loaded = read_parts(alloc, &mut texts)?;
    loaded.schedule = schedule_in(alloc, &texts, loaded.trace.len(), loaded.editors.len())?;
    admit(text_at(&texts, FileName::Trace), loaded)
}

// A scene with the run that a text gives.
fn with_run(alloc: Global, text: &[u8], scene: Loaded) -> Result<Judging, Status>
    requires { IsFew scene.policy }
    ensures exact { Gives status_cause (λ judging. judging) result (with_run text.now scene) }
    ensures few { IfOk result (λ judging. IsFew judging.scene.policy) }
{
    match read_run(alloc, text) {
        Ok(run) => Ok(Judging { scene, run }),
        Err(RunFault::BadLine(line)) => Err(Status::BadRun(line)),
        Err(RunFault::NoMemory) => Err(Status::OutOfMemory),
    }
}

/// Reads what `read_scene` reads, and then a given run: what is judged. The texts are dropped when
/// they are read.
///
/// Errors: those of `read_scene`, and then the first faulty line of the run; want of memory.
#[tactic(auto, unfolding(crate::specs::Reading::scene_reading, crate::specs::Reading::judging_reading))]
pub fn read_judging(alloc: Global, texts: FileList) -> Result<Judging, Status>
    ensures exact { Gives status_cause (λ judging. judging) result (judging_reading texts) }
    ensures few { IfOk result (λ judging. IsFew judging.scene.policy) }
{
    let mut texts = texts;
    let loaded = read_parts(alloc, &mut texts)?;
    let scene = admit(text_at(&texts, FileName::Trace), loaded)?;
    with_run(alloc, text_at(&texts, FileName::Run), scene)
}
