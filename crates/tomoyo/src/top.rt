//! The top call: what the words ask for is fetched, made, stored and put.
ghost use Rattle.std.specs.Prelude.{◌≡◌, ◌≤◌, ◌⊎◌, [], true, IfOk, IfErr, OnOk, map, string_bytes};
ghost use Rattle.tm_io.specs.Causes.{Rose};
ghost use Rattle.tm_io.specs.Files.{SameFiles};
ghost use Rattle.tm_io.specs.Notes.{Noted};
ghost use Rattle.tm_call.specs.Fetches.{AllGiven, FetchStops};
ghost use Rattle.tm_call.specs.Calls.{FetchesOf};
ghost use Rattle.tm_call.specs.Ends.{outside, Ends};
ghost use Rattle.tm_call.specs.Words.{read_words, run_words, is_by_turns, HasWorkers, IsSized};
ghost use Rattle.tomoyo.specs.Closures.{IsPlayable, IsEnded, PlaysFor};
ghost use Rattle.tomoyo.specs.Call.{wants_of, read_by, Refuses, Allows, StoresBy, Called};

use crate::making::make;
use crate::runs::{Ended, run_with_threads, run_without_threads};
use std::alloc::Global;
use std::sync::Wait;
use std::thread::Threads;
use tm_call::{Command, How, Status, Want, carry_out, fetch_all, read_any_command, read_command};
use tm_engine::gate::Gate;
use tm_gen_laws::call_input::Loaded;
use tm_io::{FileList, FileName, Shelf, Sink};

// Fetches what a command reads.
fn fetch_for<S: Shelf>(alloc: Global, command: Command, shelf: &mut S) -> Result<FileList, Status>
    ensures texts { IfOk result (λ texts. AllGiven (S.file shelf.old) (wants_of command) texts) }
    ensures stops { IfErr result (FetchStops (S.file shelf.old) (wants_of command)
        (Rose (S.faults shelf.old) (S.faults shelf.new))) }
    ensures kept { SameFiles (S.file shelf.old) (S.file shelf.new) }
    ensures counts { S.faults shelf.old ≤ S.faults shelf.new }
    ensures all { OnOk result (Noted (read_by command) (S.fetched shelf.old) (S.fetched shelf.new)) }
    ensures last { IfErr result (λ status.
        FetchesOf (read_by command) status (S.fetched shelf.old) (S.fetched shelf.new)) }
    ensures no_store { Noted [] (S.stored shelf.old) (S.stored shelf.new) }
{
    match command {
        Command::Play { how, .. } => match how {
            How::ByTurns => {
                let wants = [
                    Want::needed(FileName::Profile),
                    Want::optional(FileName::ExceptionPolicy),
                    Want::needed(FileName::DomainPolicy),
                    Want::optional(FileName::Manager),
                    Want::needed(FileName::Trace),
                    Want::optional(FileName::Edits),
                    Want::optional(FileName::Answers),
                    Want::optional(FileName::Schedule),
                ];
                fetch_all(alloc, shelf, &wants)
            }
            How::OnThreads(_) | How::Stealing(_) => {
                let wants = [
                    Want::needed(FileName::Profile),
                    Want::optional(FileName::ExceptionPolicy),
                    Want::needed(FileName::DomainPolicy),
                    Want::optional(FileName::Manager),
                    Want::needed(FileName::Trace),
                    Want::optional(FileName::Edits),
                    Want::optional(FileName::Answers),
                ];
                fetch_all(alloc, shelf, &wants)
            }
        },
        Command::Print => {
            let wants = [
                Want::needed(FileName::Profile),
                Want::optional(FileName::ExceptionPolicy),
                Want::needed(FileName::DomainPolicy),
                Want::optional(FileName::Manager),
            ];
            fetch_all(alloc, shelf, &wants)
        }
        Command::Verify => {
            let wants = [
                Want::needed(FileName::Profile),
                Want::optional(FileName::ExceptionPolicy),
                Want::needed(FileName::DomainPolicy),
                Want::optional(FileName::Manager),
                Want::needed(FileName::Trace),
                Want::optional(FileName::Edits),
                Want::optional(FileName::Answers),
                Want::needed(FileName::Run),
            ];
            fetch_all(alloc, shelf, &wants)
        }
        Command::Sort => {
            let wants = [
                Want::needed(FileName::Audit),
                Want::needed(FileName::Sorter),
            ];
            fetch_all(alloc, shelf, &wants)
        }
        Command::Gen(_, _) => {
            let wants: [Want; 0] = [];
            fetch_all(alloc, shelf, &wants)
        }
    }
}

// Does a command. What is played is played by the closure, which is told how.
fn perform<S: Shelf, K: Sink, P: Fn(How, Loaded) -> Ended>(
    alloc: Global,
    play: &P,
    command: Command,
    shelf: &mut S,
    out: &mut K,
) -> Status
    requires sized { IsSized command }
    requires plays { PlaysFor P.Fn play.now command }
    ensures ends { Ends (wants_of command) (Refuses command) (Allows command)
        (outside S.Shelf K.Sink shelf.old out.old) (outside S.Shelf K.Sink shelf.new out.new) result }
    ensures fetches { FetchesOf (read_by command) result (S.fetched shelf.old) (S.fetched shelf.new) }
    ensures stores { StoresBy command (S.file shelf.old) result (S.stored shelf.old) (S.stored shelf.new) }
    ensures stores_last { Noted [] (S.stored shelf.old) (S.stored shelf.new)
        ⊎ Noted (read_by command) (S.fetched shelf.old) (S.fetched shelf.new) }
{
    match fetch_for(alloc, command, shelf) {
        Err(status) => status,
        Ok(texts) => match make(alloc, play, command, texts) {
            Err(status) => status,
            Ok(outcome) => carry_out(&outcome, shelf, out),
        },
    }
}

// Does the command that the words were read as, and answers how it ended.
fn answer<S: Shelf, K: Sink, P: Fn(How, Loaded) -> Ended>(
    alloc: Global,
    play: &P,
    read: Result<Command, u64>,
    shelf: &mut S,
    out: &mut K,
) -> Status
    requires sized { IfOk read IsSized }
    requires plays { IfOk read (PlaysFor P.Fn play.now) }
    ensures called { Called read
        (outside S.Shelf K.Sink shelf.old out.old) (outside S.Shelf K.Sink shelf.new out.new) result }
{
    match read {
        Err(place) => Status::BadWords(place),
        Ok(command) => perform(alloc, play, command, shelf, out),
    }
}

/// Does the command that the words name, over any shelf and sink, and answers how it ended. `print`
/// loads the policy and stores its printed texts as `profile.new`, `exception_policy.new`,
/// `domain_policy.new` and `manager.new`. `step` plays the trace by the schedule under the policy
/// and stores `run`, `audit`, and the final policy in the same four files. `learn` does what `step`
/// does, plays the trace again under the final policy with its profiles enforcing, without edits
/// and without a supervisor, and stores `run2` and `audit2`; where some tree's domain isn't live in
/// the final policy it leaves this rerun out, and leaves these two files as they were. `gen` with a
/// seed and a size reads nothing: it generates `profile`, `exception_policy`, `domain_policy`,
/// `manager` and `trace`, stores them, and does `step` on them without edits, answers and schedule.
/// `verify` reads what `step` reads but `schedule`, and `run`, and puts whether that is a legal run
/// of these files, or the clause that it breaks first, and where; it stores nothing. `sort` reads
/// `audit` and `sorter` and stores the records of each part that the rules name as `audit.N`.
/// Nothing is stored before all is read and loaded, played or sorted.
///
/// The first fetch that gives neither a text nor a file that may be missing decides, and no later
/// one is made: `Absent` where `profile`, `domain_policy` or, but for `print`, `trace` isn't there,
/// `TooLong` where a file has more than 16,777,216 bytes, `ReadFault` where reading failed. Of the
/// policy files, the first line that isn't done is `BadPolicy`, and without one the first live
/// domain whose profile isn't defined is `UndefinedProfile`. Of what `step` and `learn` read beside
/// them, the first faulty line of `trace`, or else of `edits`, `answers` and `schedule`, is
/// `BadTrace` or `BadScript`; then a limit that is passed is `TooMany`; and then the first tree
/// whose domain isn't live is `BadTrace` at the tree's line. After all that comes, of what `verify`
/// reads, `BadRun` at the first line with which no run's text goes on. Of what `sort` reads, the
/// first faulty line of `audit` is `BadAudit`, or else of `sorter` `BadRules`; then more than 256
/// rules are `TooMany`.
pub fn run_alone<S: Shelf, K: Sink>(
    alloc: Global,
    words: &[String],
    shelf: &mut S,
    out: &mut K,
) -> Status
    ensures called { Called (read_words (map string_bytes words.now))
        (outside S.Shelf K.Sink shelf.old out.old) (outside S.Shelf K.Sink shelf.new out.new) result }
{
    let play = |how: How, loaded: Loaded| -> Ended
        requires turns { is_by_turns how ≡ true }
        requires playable { IsPlayable loaded }
        ensures { IfOk result (IsEnded how loaded) }
    { run_without_threads(alloc, how, loaded) };
    answer(alloc, &play, read_command(words), shelf, out)
}

/// Does what `run_alone` does, and `replay` with a number of workers from 1 to 16 besides: it plays
/// the trace on so many threads, with a thread for each editor and for the supervisor, and stores
/// what `step` stores; it reads no `schedule`. With `steal` after the number the threads share the
/// processes of the trees, and not only the trees. With `rerun` it does what `learn` does, its
/// rerun on threads too. The gate may hold threads back on their way, as tests do.
pub fn run<S: Shelf, K: Sink, W: Threads + Wait + Sync, G: Gate>(
    rt: &W,
    alloc: Global,
    words: &[String],
    shelf: &mut S,
    out: &mut K,
    gate: &G,
) -> Status
    ensures called { Called (run_words (map string_bytes words.now))
        (outside S.Shelf K.Sink shelf.old out.old) (outside S.Shelf K.Sink shelf.new out.new) result }
{
    let play = |how: How, loaded: Loaded| -> Ended
        requires workers { HasWorkers how }
        requires playable { IsPlayable loaded }
        ensures { IfOk result (IsEnded how loaded) }
    { run_with_threads(rt, alloc, gate, how, loaded) };
    answer(alloc, &play, read_any_command(words), shelf, out)
}
