//! What a command makes of what was read.
ghost use Rattle.std.specs.Prelude.{◌≤◌, [], true, false, IfOk, IfErr};
ghost use Rattle.tm_call.specs.Words.{IsSized};
ghost use Rattle.tm_call.specs.declared.words.How.{How};
ghost use Rattle.tm_call.specs.declared.words.Command.{Command};
ghost use Rattle.tm_gen_laws.specs.Generated.{generated_files};
ghost use Rattle.tomoyo.specs.Play.{Plays};
ghost use Rattle.tomoyo.specs.Closures.{PlaysSo, PlaysFor};
ghost use Rattle.tomoyo.specs.Call.{Refuses, Allows};

use crate::learn::learn_of;
use crate::outcome::{generated_files, learn_outcome, print_outcome, step_outcome, with_files};
use crate::play::{Played, play_of};
use crate::runs::Ended;
use crate::sort::make_sort;
use crate::verify::make_verify;
use std::alloc::{AllocError, Global};
use tm_call::{Command, How, Outcome, Status};
use tm_gen_laws::call_input::{Loaded, load_files};
use tm_gen_laws::generated_files_are_never_refused;
use tm_io::FileList;
use tm_list::NoMemory;

// Plays what was read, or refuses it.
fn make_played<P: Fn(How, Loaded) -> Ended>(
    alloc: Global,
    play: &P,
    how: How,
    texts: FileList,
) -> Result<Outcome, Status>
    requires { PlaysSo P.Fn how play.now }
    ensures made { IfOk result (Allows (Command.Play how false) texts) }
    ensures refused { IfErr result (Refuses (Command.Play how false) texts) }
{
    match play_of(alloc, play, how, texts) {
        Err(status) => Err(status),
        Ok(played) => match step_outcome(alloc, played) {
            Ok(outcome) => Ok(outcome),
            Err(_) => Err(Status::OutOfMemory),
        },
    }
}

// Plays what was read and then its trace again, or refuses it.
fn make_learned<P: Fn(How, Loaded) -> Ended>(
    alloc: Global,
    play: &P,
    how: How,
    texts: FileList,
) -> Result<Outcome, Status>
    requires { PlaysSo P.Fn how play.now }
    ensures made { IfOk result (Allows (Command.Play how true) texts) }
    ensures refused { IfErr result (Refuses (Command.Play how true) texts) }
{
    match learn_of(alloc, play, how, texts) {
        Err(status) => Err(status),
        Ok(learned) => match learn_outcome(alloc, learned) {
            Ok(outcome) => Ok(outcome),
            Err(_) => Err(Status::OutOfMemory),
        },
    }
}

// Plays what is generated from a seed and a size, by turns. It is never refused.
fn play_generated<P: Fn(How, Loaded) -> Ended>(
    alloc: Global,
    play: &P,
    seed: u64,
    size: u32,
) -> Result<Played, NoMemory>
    requires so { PlaysSo P.Fn How.ByTurns play.now }
    requires few { size ≤ 4096 }
    ensures { IfOk result (Plays How.ByTurns (generated_files seed size)) }
{
    generated_files_are_never_refused();
    let files = generated_files(alloc, seed, size)?;
    match play_of(alloc, play, How::ByTurns, files) {
        Ok(played) => Ok(played),
        Err(_) => Err(AllocError),
    }
}

// What is stored and put of what is generated from a seed and a size. The files are generated once
// more to be stored, so that they don't lie beside their play.
fn gen_outcome<P: Fn(How, Loaded) -> Ended>(
    alloc: Global,
    play: &P,
    seed: u64,
    size: u32,
) -> Result<Outcome, NoMemory>
    requires so { PlaysSo P.Fn How.ByTurns play.now }
    requires few { size ≤ 4096 }
    ensures { IfOk result (Allows (Command.Gen seed size) []) }
{
    let played = play_generated(alloc, play, seed, size)?;
    let files = generated_files(alloc, seed, size)?;
    with_files(files, played)
}

// Plays what is generated from a seed and a size.
fn make_gen<P: Fn(How, Loaded) -> Ended>(
    alloc: Global,
    play: &P,
    seed: u64,
    size: u32,
) -> Result<Outcome, Status>
    requires so { PlaysSo P.Fn How.ByTurns play.now }
    requires few { size ≤ 4096 }
    ensures made { IfOk result (Allows (Command.Gen seed size) []) }
    ensures refused { IfErr result (Refuses (Command.Gen seed size) []) }
{
    match gen_outcome(alloc, play, seed, size) {
        Ok(outcome) => Ok(outcome),
        Err(_) => Err(Status::OutOfMemory),
    }
}

// Prints the policy that was read, or refuses it.
fn make_print(alloc: Global, texts: FileList) -> Result<Outcome, Status>
    ensures made { IfOk result (Allows Command.Print texts) }
    ensures refused { IfErr result (Refuses Command.Print texts) }
{
    match load_files(alloc, texts) {
        Err(status) => Err(status),
        Ok(policy) => match print_outcome(alloc, &policy) {
            Ok(outcome) => Ok(outcome),
            Err(_) => Err(Status::OutOfMemory),
        },
    }
}

/// What a command makes of what was read, or its refusal. What is played is played by the closure,
/// which is told how.
pub fn make<P: Fn(How, Loaded) -> Ended>(
    alloc: Global,
    play: &P,
    command: Command,
    texts: FileList,
) -> Result<Outcome, Status>
    requires sized { IsSized command }
    requires plays { PlaysFor P.Fn play.now command }
    ensures made { IfOk result (Allows command texts) }
    ensures refused { IfErr result (Refuses command texts) }
{
    match command {
        Command::Print => make_print(alloc, texts),
        Command::Play { how, again: false } => make_played(alloc, play, how, texts),
        Command::Play { how, again: true } => make_learned(alloc, play, how, texts),
        Command::Verify => make_verify(alloc, texts),
        Command::Sort => make_sort(alloc, texts),
        Command::Gen(seed, size) => make_gen(alloc, play, seed, size),
    }
}
