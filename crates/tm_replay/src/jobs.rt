//! All jobs of a replay: how they begin, how they are played beside each other, and what is left.
ghost use Rattle.std.specs.Prelude.{◌≡◌, ◌<◌, ◌++◌, ◌∷◌, [], ℕ, List, length, map, Some, None, true, false, IfOk, OnOk, IfSome, slice_index_or};
ghost use Rattle.std.specs.List.{AllByRecursion};
ghost use Rattle.tm_rules.specs.Types.{Made, Start};
ghost use Rattle.tm_desk.specs.Desks.{desk_book, IsDesk};
ghost use Rattle.tm_publish.specs.Words.{IsFresh};
ghost use Rattle.tm_seat.specs.Parts.{IsWorking};
ghost use Rattle.tm_seat.specs.declared.part.Part.{Part};
ghost use Rattle.tm_replay.specs.Jobs.{IsJob, JobIsDone, JobStarts, told_of, IsFrontOf, StartsFrom};
ghost use Rattle.tm_replay.specs.Beginnings.{AreGiven, HaveBegun};

use crate::job::{Field, Job, run_job};
use std::alloc::Global;
use std::collections::VecDeque;
use std::sync::Wait;
use std::thread::Threads;
use tm_beside::call_together;
use tm_engine::engine::Engine;
use tm_engine::gate::Gate;
use tm_list::{NoMemory, Seq};
use tm_machine::Machine;
use tm_machine::rep::Rep;
use tm_publish::front::{Front, Named};
use tm_publish::pass::Pass;
use tm_seat::{Part, Work, lost};
use tm_serve::begin;
use tm_types::step::Query;

// A job of a part and a pass, which is told of a front.
fn job_of<L: Named, R: Rep, H, D>(
    part: Part<H>,
    pass: Pass<L, Machine<R>>,
    front: &Option<Front<L, Machine<R>>>,
) -> Job<L, Machine<R>, H, D>
    ensures part { result.part ≡ Some part }
    ensures starts { (start : Start) → IsFresh start pass → IsFrontOf start front.now → IsWorking part
        → JobStarts start (told_of front.now) result.part result.pass }
{
    let mut pass = pass;
    if let Some(front) = front {
        pass.told(front);
    }
    Job {
        part: Some(part),
        pass: Some(pass),
        rows: None,
    }
}

// A job of a part more, with the next pass.
fn add_job<L: Named, R: Rep, H: Drop, D: Drop>(
    part: Part<H>,
    left: &mut VecDeque<Pass<L, Machine<R>>>,
    front: &Option<Front<L, Machine<R>>>,
    jobs: &mut Vec<Job<L, Machine<R>, H, D>>,
) -> Result<(), NoMemory>
    ensures { OnOk result ((done : List (Part H)) (passes : List _)
        → AreGiven (λ job. job.part) (λ job. job.pass) front.now passes done
        left.old.items jobs.old.items
        → AreGiven (λ job. job.part) (λ job. job.pass) front.now passes (done ++ part ∷ [])
        left.new.items jobs.new.items) }
{
    let Some(pass) = left.pop_front() else {
        return Err(lost());
    };
    jobs.push(job_of(part, pass, front))?;
    Ok(())
}

// A job for each part, with the passes in their order, each of which is told of a front.
fn jobs_of<L: Named, R: Rep, H: Drop, D: Drop>(
    alloc: Global,
    parts: Vec<Part<H>>,
    passes: Vec<Pass<L, Machine<R>>>,
    front: &Option<Front<L, Machine<R>>>,
) -> Result<Vec<Job<L, Machine<R>, H, D>>, NoMemory>
    ensures parts { IfOk result (λ jobs. map (λ job. job.part) jobs.items ≡ map Some parts.items) }
    ensures starts { IfOk result (λ jobs. (start : Start) → AllByRecursion (IsFresh start) passes.items
        → IsFrontOf start front.now → AllByRecursion IsWorking parts.items
        → AllByRecursion (λ job. JobStarts start (told_of front.now) job.part job.pass) jobs.items) }
{
    let mut left = VecDeque::from(passes);
    let mut jobs = Vec::new(alloc);
    for part in parts {
        add_job(part, &mut left, front, &mut jobs)?;
    }
    Ok(jobs)
}

// The jobs of these parts, where no supervisor stands.
fn begin_lone<L: Named, R: Rep, H: Drop, D: Drop>(
    alloc: Global,
    parts: Vec<Part<H>>,
    passes: Vec<Pass<L, Machine<R>>>,
) -> Result<Vec<Job<L, Machine<R>, H, D>>, NoMemory>
    ensures { IfOk result (λ jobs. HaveBegun (λ job. job.part) (λ job. job.pass) false
        parts.items passes.items jobs.items) }
{
    jobs_of(alloc, parts, passes, &None)
}

// The jobs of these parts, and the supervisor's. It comes first, and each pass is told of its
// coming.
fn begin_supervised<L: Named, R: Rep, W: Wait, H: Drop, D: Drop>(
    rt: &W,
    alloc: Global,
    engine: &Engine<L, Machine<R>>,
    parts: Vec<Part<H>>,
    passes: Vec<Pass<L, Machine<R>>>,
    supervisor: Pass<L, Machine<R>>,
) -> Result<Vec<Job<L, Machine<R>, H, D>>, NoMemory>
    ensures { IfOk result (λ jobs. HaveBegun (λ job. job.part) (λ job. job.pass) true
        parts.items (passes.items ++ supervisor ∷ []) jobs.items) }
{
    let mut pass = supervisor;
    let come = begin(rt, alloc, engine, &mut pass)?;
    let front = Some(come);
    let mut jobs = jobs_of(alloc, parts, passes, &front)?;
    jobs.push(Job {
        part: Some(Part::Desk),
        pass: Some(pass),
        rows: None,
    })?;
    Ok(jobs)
}

/// The jobs of these parts, and the supervisor's where one stands, which comes first, so that each
/// pass is told of its coming.
///
/// Errors: want of memory.
pub(crate) fn begin_jobs<L: Named, R: Rep, W: Wait, H: Drop, D: Drop>(
    rt: &W,
    alloc: Global,
    engine: &Engine<L, Machine<R>>,
    parts: Vec<Part<H>>,
    passes: Vec<Pass<L, Machine<R>>>,
    supervised: bool,
) -> Result<Vec<Job<L, Machine<R>, H, D>>, NoMemory>
    ensures { IfOk result (λ jobs. HaveBegun (λ job. job.part) (λ job. job.pass) supervised
        parts.items passes.items jobs.items) }
{
    match supervised {
        false => begin_lone(alloc, parts, passes),
        true => {
            let mut passes = passes;
            match passes.pop() {
                Some(pass) => begin_supervised(rt, alloc, engine, parts, passes, pass),
                None => Err(lost()),
            }
        }
    }
}

/// Plays every job, each but the first in a thread of its own. Where a thread can't be made and a
/// supervisor stands, the engine is stopped, so that nobody waits for what will not come; without a
/// supervisor nobody waits.
pub(crate) fn run_jobs<
    L: Named + Send + Sync,
    R: Rep + Send + Sync,
    F: Fn(&Query) -> u64 + Sync,
    W: Threads + Wait + Sync,
    G: Gate,
    H: Send + Drop,
    D: Send + Drop,
    K: Work<H, D> + Sync,
>(
    field: &Field<'_, '_, L, Machine<R>, F, W, G, K>,
    jobs: Vec<Job<L, Machine<R>, H, D>>,
) -> Vec<Job<L, Machine<R>, H, D>>
    requires desk { IsDesk F.Fn field.now.desk.now }
    requires given { (k : ℕ) (d : _) → k < length jobs.items
        → IsJob (K.ready field.now.way.now) field.now.supervised (slice_index_or jobs.items k d).part
        (slice_index_or jobs.items k d).pass }
    ensures count { length result.items ≡ length jobs.items }
    ensures done { (k : ℕ) (d : _) → k < length jobs.items
        → JobIsDone (K.did field.now.way.now) (desk_book field.now.desk.now) (slice_index_or jobs.items k d).part
        (slice_index_or jobs.items k d).pass (slice_index_or result.items k d).pass
        (slice_index_or result.items k d).rows }
{
    call_together(
        field.rt,
        jobs,
        &|_place: usize, job: &mut Job<L, Machine<R>, H, D>|
            requires desk { IsDesk F.Fn field.now.desk.now }
            requires given { IsJob (K.ready field.now.way.now) field.now.supervised job.old.part job.old.pass }
            ensures { JobIsDone (K.did field.entry.now.way.now) (desk_book field.entry.now.desk.now) job.old.part
                job.old.pass job.new.pass job.new.rows }
        { run_job(field, job) },
        &|| {
            if field.supervised {
                field.engine.stop(field.rt);
            }
        },
    )
}

// Appends the pass of a job, where it is there.
fn push_pass<L: Named, R: Rep>(
    passes: &mut Vec<Pass<L, Machine<R>>>,
    pass: Option<Pass<L, Machine<R>>>,
) -> Result<(), NoMemory>
    ensures { OnOk result (map Some passes.new.items ≡ map Some passes.old.items ++ pass ∷ []) }
{
    match pass {
        Some(pass) => {
            passes.push(pass)?;
            Ok(())
        }
        None => Err(lost()),
    }
}

// Appends what a job has played, and answers whether it is there.
fn push_rows<D: Drop>(all: &mut Vec<Seq<D>>, rows: Option<Seq<D>>) -> Result<bool, NoMemory>
    ensures { IfOk result (λ there. there ≡ true
        → map Some all.new.items ≡ map Some all.old.items ++ rows ∷ []) }
{
    match rows {
        Some(rows) => {
            all.push(rows)?;
            Ok(true)
        }
        None => Ok(false),
    }
}

/// The passes of all jobs, and what each has played; nothing where a job failed.
///
/// Errors: want of memory.
pub(crate) fn take_apart<L: Named, R: Rep, H: Drop, D: Drop>(
    alloc: Global,
    jobs: Vec<Job<L, Machine<R>, H, D>>,
) -> Result<(Vec<Pass<L, Machine<R>>>, Option<Seq<Seq<D>>>), NoMemory>
    ensures passes { IfOk result (λ r. map Some r.0.items ≡ map (λ job. job.pass) jobs.items) }
    ensures rows { IfOk result (λ r. IfSome r.1 (λ rows. map Some rows ≡ map (λ job. job.rows) jobs.items)) }
{
    let mut passes = Vec::new(alloc);
    let mut all = Vec::new(alloc);
    let mut whole = true;
    for job in jobs {
        let Job {
            part: _,
            pass,
            rows,
        } = job;
        push_pass(&mut passes, pass)?;
        whole = push_rows(&mut all, rows)? && whole;
    }
    if whole {
        Ok((passes, Some(Seq::from_vec(all))))
    } else {
        Ok((passes, None))
    }
}
