//! The trace of a log, and what is told of its making.
ghost use Rattle.std.specs.Prelude.{◌≡◌, [], IfOk};
ghost use Rattle.tm_log_trace.specs.Making.{nothing_made};
ghost use Rattle.tm_log_trace.specs.Made.{all_seen, step, taken_all, none_taken, left_before, made_with, trace_made};

use crate::maker::Maker;
use crate::notes::Note;
use std::alloc::Global;
use tm_list::{NoMemory, Seq};
use tm_log::{LeftOut, Log, Source, Used};
use tm_types::request::Trace;

/// How many records a log has, how many of them are used, and how many trees and processes the
/// trace has.
#[derive(Clone, Copy)]
pub struct Counts {
    pub records: u64,
    pub used: usize,
    pub trees: usize,
    pub processes: usize,
}

/// The trace of a log, the records that are left out, the warnings, and the record at which the
/// trace reached its limits and the log was cut.
#[derive(Drop)]
pub struct Made {
    pub trace: Trace,
    pub left_out: Seq<LeftOut>,
    pub warnings: Seq<Note>,
    pub counts: Counts,
    pub cut: Option<Source>,
}

// What was made of records, how many, and the first that has no room.
#[derive(Drop)]
struct TakenAll {
    maker: Maker,
    count: usize,
    cut: Option<Source>,
}

// A maker that has taken no record yet, but knows by pid the domain of the first record in which
// the pid is the global one.
fn see_all(alloc: Global, used: &[Used]) -> Result<Maker, NoMemory>
    ensures { IfOk result (λ maker. maker ≡ all_seen nothing_made used.now) }
{
    let mut maker = Maker::new(alloc);
    for one in used {
        maker.see(alloc, &one.record)?;
    }
    Ok(maker)
}

impl TakenAll {
    // One record more, while there is room.
    #[tactic(auto, unfolding(crate::specs::Made::step))]
    fn step(self, alloc: Global, one: Used) -> Result<TakenAll, NoMemory>
        ensures { IfOk result (λ next. next ≡ step self one) }
    {
        if self.cut.is_some() {
            return Ok(self);
        }
        let TakenAll {
            mut maker,
            count,
            ..
        } = self;
        if !maker.has_room(one.size) {
            let cut = Some(one.source);
            return Ok(TakenAll { maker, count, cut });
        }
        maker.take(alloc, one)?;
        Ok(TakenAll {
            maker,
            count: count.saturating_add(1),
            cut: None,
        })
    }
}

// Takes records while there is room.
#[tactic(auto, using(crate::proofs::StepLaws::taken_all_more))]
fn take_all(alloc: Global, maker: Maker, used: Seq<Used>) -> Result<TakenAll, NoMemory>
    ensures { IfOk result (λ all. all ≡ taken_all (none_taken maker) used) }
{
    let mut all = TakenAll {
        maker,
        count: 0,
        cut: None,
    };
    for one in used.into_vec() {
        all = all.step(alloc, one)?;
    }
    Ok(all)
}

// What is left out before this record.
fn left_before(alloc: Global, left_out: &[LeftOut], cut: Source) -> Result<Seq<LeftOut>, NoMemory>
    ensures { IfOk result (λ left. left ≡ left_before left_out.now cut) }
{
    let mut before = Seq::new(alloc);
    for left in left_out {
        if left.source.number < cut.number {
            before.push(*left)?;
        }
    }
    Ok(before)
}

// The trace with what is told of it.
fn ended(all: TakenAll, records: u64, left_out: Seq<LeftOut>) -> Result<Made, NoMemory>
    ensures { IfOk result (λ made. made ≡ made_with all.maker all.count all.cut records left_out) }
{
    let TakenAll { maker, count, cut } = all;
    let (trees, processes) = maker.counts();
    let (trace, warnings) = maker.into_trace()?;
    let counts = Counts {
        records,
        used: count,
        trees,
        processes,
    };
    Ok(Made {
        trace,
        left_out,
        warnings,
        counts,
        cut,
    })
}

/// Makes the trace of a log. It is cut before the first record that has no room in a trace. Errors:
/// want of memory.
#[tactic(auto, unfolding(crate::specs::Made::trace_made))]
pub fn make_trace(alloc: Global, log: Log) -> Result<Made, NoMemory>
    ensures { IfOk result (λ made. made ≡ trace_made log) }
{
    let Log {
        used,
        left_out,
        records,
        ..
    } = log;
    let maker = see_all(alloc, used.as_slice())?;
    let all = take_all(alloc, maker, used)?;
    match all.cut {
        None => ended(all, records, left_out),
        Some(source) => {
            let before = left_before(alloc, left_out.as_slice(), source)?;
            ended(all, source.number.saturating_sub(1), before)
        }
    }
}
