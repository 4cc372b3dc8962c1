//! The words of a call: which command they name, or the first place at which no form goes on.
ghost use Rattle.std.specs.Prelude.{◌≡◌, ◌<◌, ◌≤◌, true, map, string_bytes, IfOk, IfSome};
ghost use Rattle.tm_call.specs.Words.{read_words, command_of, alone, seed_of, size_of, sized, gen_of, is_alone, IsSized};
ghost use Rattle.tm_call.specs.Words.{run_words, workers_of, with_last, replay_of};

use tm_number::plain_number;

/// How a trace is played: by turns on one thread, on so many threads that share its trees, or on so
/// many that share the processes of its trees.
#[derive(Clone, Copy)]
pub enum How {
    ByTurns,
    OnThreads(u32),
    Stealing(u32),
}

/// What the words can ask for: `step`, `learn` and `replay` play the trace, `learn` and `rerun` play
/// it again with what was learned; `gen` has a seed and a size.
#[derive(Clone, Copy)]
pub enum Command {
    Print,
    Play { how: How, again: bool },
    Verify,
    Sort,
    Gen(u64, u32),
}

// The command of a first word that has no others after it.
fn named_by(word: &str) -> Result<Command, u64>
    ensures exact { result ≡ command_of word.now }
    ensures sized { IfOk result IsSized }
    ensures alone { IfOk result (λ command. is_alone command ≡ true) }
{
    if word == "print" {
        return Ok(Command::Print);
    }
    if word == "step" {
        return Ok(Command::Play {
            how: How::ByTurns,
            again: false,
        });
    }
    if word == "learn" {
        return Ok(Command::Play {
            how: How::ByTurns,
            again: true,
        });
    }
    if word == "verify" {
        return Ok(Command::Verify);
    }
    if word == "sort" {
        return Ok(Command::Sort);
    }
    Err(0)
}

// A command after which no word may come.
fn alone(named: Result<Command, u64>, others: &[String]) -> Result<Command, u64>
    requires sized { IfOk named IsSized }
    requires alone { IfOk named (λ command. is_alone command ≡ true) }
    ensures exact { result ≡ alone named (map string_bytes others.now) }
    ensures sized { IfOk result IsSized }
    ensures alone { IfOk result (λ command. is_alone command ≡ true) }
{
    match named {
        Err(place) => Err(place),
        Ok(command) => match others {
            [] => Ok(command),
            [_, ..] => Err(1),
        },
    }
}

// The seed that a word writes.
fn seed_of(word: &str) -> Option<u64>
    ensures { result ≡ seed_of word.now }
{
    plain_number(18_446_744_073_709_551_616, word.as_bytes())
}

// The size that a word writes.
#[tactic(auto, using(tm_number::proofs::NumberLaws::plain_small))]
fn size_of(word: &str) -> Option<u32>
    ensures exact { result ≡ size_of word.now }
    ensures few { IfSome result (λ size. size ≤ 4096) }
{
    match plain_number(4_097, word.as_bytes()) {
        None => None,
        Some(size) => { if size == 0 { None } else { Some(size as u32) } }
    }
}

// The words after `gen` and its seed.
fn sized(seed: u64, others: &[String]) -> Result<Command, u64>
    ensures exact { result ≡ sized seed (map string_bytes others.now) }
    ensures sized { IfOk result IsSized }
    ensures alone { IfOk result (λ command. is_alone command ≡ true) }
{
    match others {
        [] => Err(2),
        [size] => match size_of(size) {
            Some(size) => Ok(Command::Gen(seed, size)),
            None => Err(2),
        },
        [size, _, ..] => match size_of(size) {
            Some(_) => Err(3),
            None => Err(2),
        },
    }
}

// The words after `gen`.
fn gen_of(others: &[String]) -> Result<Command, u64>
    ensures exact { result ≡ gen_of (map string_bytes others.now) }
    ensures sized { IfOk result IsSized }
    ensures alone { IfOk result (λ command. is_alone command ≡ true) }
{
    match others {
        [] => Err(1),
        [seed, others @ ..] => match seed_of(seed) {
            Some(seed) => sized(seed, others),
            None => Err(1),
        },
    }
}

/// The command, which needs no threads, or the first place at which no form of such a command goes
/// on.
pub fn read_command(words: &[String]) -> Result<Command, u64>
    ensures exact { result ≡ read_words (map string_bytes words.now) }
    ensures sized { IfOk result IsSized }
    ensures alone { IfOk result (λ command. is_alone command ≡ true) }
{
    match words {
        [] => Err(0),
        [word, others @ ..] => {
            if word.as_str() == "gen" {
                gen_of(others)
            } else {
                alone(named_by(word), others)
            }
        }
    }
}

// The number of workers that a word writes.
#[tactic(auto, using(tm_number::proofs::NumberLaws::plain_small))]
fn workers_of(word: &str) -> Option<u32>
    ensures exact { result ≡ workers_of word.now }
    ensures some { IfSome result (λ workers. 0 < workers) }
    ensures few { IfSome result (λ workers. workers ≤ 16) }
{
    match plain_number(17, word.as_bytes()) {
        None => None,
        Some(workers) => {
            if workers == 0 {
                None
            } else {
                Some(workers as u32)
            }
        }
    }
}

// The words after the last word of a `replay`: none.
fn with_last(command: Command, others: &[String]) -> Result<Command, u64>
    requires { IsSized command }
    ensures exact { result ≡ with_last command (map string_bytes others.now) }
    ensures sized { IfOk result IsSized }
{
    match others {
        [] => Ok(command),
        [_, ..] => Err(3),
    }
}

// The words after `replay`.
fn replay_of(others: &[String]) -> Result<Command, u64>
    ensures exact { result ≡ replay_of (map string_bytes others.now) }
    ensures sized { IfOk result IsSized }
{
    match others {
        [] => Err(1),
        [word, others @ ..] => match workers_of(word) {
            None => Err(1),
            Some(workers) => match others {
                [] => Ok(Command::Play {
                    how: How::OnThreads(workers),
                    again: false,
                }),
                [word, others @ ..] => {
                    if word.as_str() == "rerun" {
                        with_last(
                            Command::Play {
                                how: How::OnThreads(workers),
                                again: true,
                            },
                            others,
                        )
                    } else if word.as_str() == "steal" {
                        with_last(
                            Command::Play {
                                how: How::Stealing(workers),
                                again: false,
                            },
                            others,
                        )
                    } else {
                        Err(2)
                    }
                }
            },
        },
    }
}

/// The command, of all that there are, or the first place at which no form of a command goes on.
pub fn read_any_command(words: &[String]) -> Result<Command, u64>
    ensures exact { result ≡ run_words (map string_bytes words.now) }
    ensures sized { IfOk result IsSized }
{
    match words {
        [] => Err(0),
        [word, others @ ..] => {
            if word.as_str() == "replay" {
                replay_of(others)
            } else {
                read_command(words)
            }
        }
    }
}
