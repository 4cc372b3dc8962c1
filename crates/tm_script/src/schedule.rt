//! Schedules: whose turn it is.
ghost use Rattle.std.specs.Prelude.{◌≡◌};
ghost use Rattle.tm_word.specs.Prelude.{Gives, GivesNow};
ghost use Rattle.tm_script.specs.Steps.{kind_cause};
ghost use Rattle.tm_script.specs.Lines.{script_cause};
ghost use Rattle.tm_script.specs.Schedule.{one_of, activity_of, turn_of, schedule_of};

use crate::lines::{Script, read_script};
use crate::steps::{KindFault, ended, number_at};
use std::alloc::Global;
use tm_list::Seq;
use tm_types::request::{ScriptFault, ScriptKind};
use tm_types::step::Turn;
use tm_word::{Text, bytes_equal};

/// The turns that have been read, for so many trees and editors.
#[derive(Drop)]
struct Schedule {
    trees: u32,
    editors: u32,
    turns: Seq<Turn>,
}

/// The number of one of so many, which count from 1. Errors: `NoActivity`.
fn one_of(count: u32, n: u64) -> Result<u32, KindFault>
    ensures { GivesNow kind_cause (λ n. n) result (one_of count n) }
{
    if n == 0 || u64::from(count) < n {
        Err(KindFault::Kind(ScriptKind::NoActivity))
    } else {
        Ok(n as u32)
    }
}

/// Reads the number of one of so many, with nothing after it. Errors: `Arity`, `Number`,
/// `NoActivity`.
#[tactic(auto, unfolding(crate::specs::Schedule::activity_of))]
fn activity_of(count: u32, words: &[Text]) -> Result<u32, KindFault>
    ensures { GivesNow kind_cause (λ n. n) result (activity_of count words.now) }
{
    let (number, words) = number_at(1 << 64, words)?;
    let n = one_of(count, number)?;
    ended(n, words)
}

/// Reads the turn of a line. Errors: `Keyword`, and those of its number.
#[tactic(auto, unfolding(crate::specs::Schedule::turn_of))]
fn turn_of(trees: u32, editors: u32, key: &[u8], words: &[Text]) -> Result<Turn, KindFault>
    ensures { GivesNow kind_cause (λ turn. turn) result (turn_of trees editors key.now words.now) }
{
    if bytes_equal(key, b"tree") {
        return Ok(Turn::Tree(activity_of(trees, words)?));
    }
    if bytes_equal(key, b"editor") {
        return Ok(Turn::Editor(activity_of(editors, words)?));
    }
    if bytes_equal(key, b"desk") {
        return ended(Turn::Desk, words);
    }
    Err(KindFault::Kind(ScriptKind::Keyword))
}

impl Script for Schedule {
    ghost use Rattle.tm_script.specs.Schedule.{schedule_line};

    ghost line = { schedule_line };

    #[tactic(auto, unfolding(crate::specs::Schedule::schedule_line))]
    fn after_words(self, alloc: Global, key: &[u8], words: &[Text]) -> Result<Schedule, KindFault> {
        let turn = turn_of(self.trees, self.editors, key, words)?;
        let mut schedule = self;
        schedule.turns.push(turn)?;
        Ok(schedule)
    }
}

/// Reads a schedule for so many trees and editors: lines `tree N`, `editor N` and `desk`, where N
/// names one that is there, from 1; `desk` may stand without a supervisor. Lines without words
/// count and are skipped.
///
/// Errors: the first wrong line, from 1, with the kind of its first wrong word, or want of memory.
#[tactic(auto, unfolding(crate::specs::Schedule::schedule_of))]
pub fn read_schedule(
    alloc: Global,
    bytes: &[u8],
    trees: u32,
    editors: u32,
) -> Result<Vec<Turn>, ScriptFault>
    ensures { Gives script_cause (λ turns. turns.items) result
        (schedule_of trees editors bytes.now) }
{
    let start = Schedule {
        trees,
        editors,
        turns: Seq::new(alloc),
    };
    let schedule = read_script(alloc, start, bytes)?;
    Ok(schedule.turns.into_vec())
}
