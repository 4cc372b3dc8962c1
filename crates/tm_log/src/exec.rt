//! What a header tells of an execute: `exec={ .. }`.
ghost use Rattle.std.specs.Prelude.{◌≡◌, [], IfOk};
ghost use Rattle.tm_word.specs.Prelude.{Gives, GivesNow};
ghost use Rattle.tm_line.specs.Lines.{line_cause};
ghost use Rattle.tm_log.specs.Execs.{list_at, environment_at, counts_at, lists_at, exec_at, exec_block, is_cut, with_pair, split, environment_of};
ghost use Rattle.tm_trace.specs.Attributes.{has_name};

use crate::steps::{id_at, quoted_at, quoted_word};
use std::alloc::Global;
use tm_list::{NoMemory, Seq};
use tm_trace::{has_name, only_at};
use tm_types::entry::LineKind;
use tm_types::step::LineFault;
use tm_word::{Text, Word, bytes_equal, place_of};

/// What the kernel tells of an execute: the file's path, how many arguments and environment words
/// there are, and those of both that it had room for.
#[derive(Drop)]
pub struct Exec {
    pub real_path: Word,
    pub argc: u32,
    pub envc: u32,
    pub argv: Seq<Word>,
    pub envp: Seq<Word>,
}

// The words in double quotes of a list and the words after its end; `...` may stand before it,
// where there was no room for more.
#[tactic(auto, unfolding(crate::specs::Execs::list_at))]
fn list_at(alloc: Global, words: &[Text]) -> Result<(Seq<Word>, &[Text]), LineFault>
    ensures { Gives line_cause (λ x. (x.0, x.1.now)) result (list_at [] words.now) }
{
    let mut list = Seq::new(alloc);
    let mut rest = words;
    while let [word, after @ ..] = rest {
        if bytes_equal(word.bytes(), b"}") {
            return Ok((list, after));
        }
        if bytes_equal(word.bytes(), b"...") {
            return Ok((list, only_at(b"}", after)?));
        }
        list.push(quoted_word(alloc, word.bytes())?)?;
        rest = after;
    }
    Err(LineFault::Kind(LineKind::Arity))
}

// The words after the head of an environment, which is one word, or two where the kernel couldn't
// read the list.
#[tactic(auto, unfolding(crate::specs::Execs::environment_at))]
fn environment_at(words: &[Text]) -> Result<&[Text], LineFault>
    ensures { GivesNow line_cause (λ rest. rest.now) result (environment_at words.now) }
{
    match words {
        [] => Err(LineFault::Kind(LineKind::Arity)),
        [word, rest @ ..] => {
            if bytes_equal(word.bytes(), b"envp[]={") {
                return Ok(rest);
            }
            if bytes_equal(word.bytes(), b"envp[]=") {
                return only_at(b"{", rest);
            }
            Err(LineFault::Kind(LineKind::Keyword))
        }
    }
}

// How many arguments and how many environment words there are.
#[tactic(auto, unfolding(crate::specs::Execs::counts_at))]
fn counts_at(words: &[Text]) -> Result<((u32, u32), &[Text]), LineFault>
    ensures { GivesNow line_cause (λ x. (x.0, x.1.now)) result (counts_at words.now) }
{
    let (argc, rest) = id_at(b"argc=", words)?;
    let (envc, rest) = id_at(b"envc=", rest)?;
    Ok(((argc, envc), rest))
}

// The arguments and the environment words, to the end of the block.
#[tactic(auto, unfolding(crate::specs::Execs::lists_at))]
fn lists_at(alloc: Global, words: &[Text]) -> Result<((Seq<Word>, Seq<Word>), &[Text]), LineFault>
    ensures { Gives line_cause (λ x. (x.0, x.1.now)) result (lists_at words.now) }
{
    let rest = only_at(b"argv[]={", words)?;
    let (argv, rest) = list_at(alloc, rest)?;
    let rest = environment_at(rest)?;
    let (envp, rest) = list_at(alloc, rest)?;
    let rest = only_at(b"}", rest)?;
    Ok(((argv, envp), rest))
}

// The fields of an execute to the end of its block.
#[tactic(auto, unfolding(crate::specs::Execs::exec_at))]
fn exec_at(alloc: Global, words: &[Text]) -> Result<(Exec, &[Text]), LineFault>
    ensures { Gives line_cause (λ x. (x.0, x.1.now)) result (exec_at words.now) }
{
    let (real_path, rest) = quoted_at(alloc, b"realpath=", words)?;
    let ((argc, envc), rest) = counts_at(rest)?;
    let ((argv, envp), rest) = lists_at(alloc, rest)?;
    let exec = Exec {
        real_path,
        argc,
        envc,
        argv,
        envp,
    };
    Ok((exec, rest))
}

/// The block of an execute, where its first word stands next. Errors: those of its fields.
#[tactic(auto, unfolding(crate::specs::Execs::exec_block))]
pub(crate) fn exec_block(
    alloc: Global,
    words: &[Text],
) -> Result<(Option<Exec>, &[Text]), LineFault>
    ensures { Gives line_cause (λ x. (x.0, x.1.now)) result (exec_block words.now) }
{
    match words {
        [] => Ok((None, words)),
        [word, rest @ ..] => {
            if !bytes_equal(word.bytes(), b"exec={") {
                return Ok((None, words));
            }
            let (exec, rest) = exec_at(alloc, rest)?;
            Ok((Some(exec), rest))
        }
    }
}

/// Whether the kernel left arguments or environment words out.
pub(crate) fn is_cut(exec: &Exec) -> bool
    ensures { result ≡ is_cut exec.now }
{
    exec.argv.len() as u64 != u64::from(exec.argc) || exec.envp.len() as u64 != u64::from(exec.envc)
}

// What stands before the first `=` of a word, and what after it.
#[tactic(auto, unfolding(crate::specs::Execs::split))]
fn split(alloc: Global, word: &[u8]) -> Result<Option<(Word, Word)>, NoMemory>
    ensures { IfOk result (λ pair. pair ≡ split word.now) }
{
    match place_of(b'=', word) {
        None => Ok(None),
        Some(place) => {
            let name = Seq::from_bytes(alloc, &word[..place])?;
            let value = Seq::from_bytes(alloc, &word[place + 1..])?;
            Ok(Some((name, value)))
        }
    }
}

// An environment with one word more, unless it has no `=` or its name is there.
#[tactic(auto, unfolding(crate::specs::Execs::with_pair))]
fn with_pair(
    mut envp: Seq<(Word, Word)>,
    pair: Option<(Word, Word)>,
) -> Result<Seq<(Word, Word)>, NoMemory>
    ensures { IfOk result (λ made. made ≡ with_pair envp pair) }
{
    match pair {
        None => Ok(envp),
        Some((name, value)) => {
            if has_name(&name, envp.as_slice()) {
                return Ok(envp);
            }
            envp.push((name, value))?;
            Ok(envp)
        }
    }
}

/// The environment of these words: the name and the value of each that has a `=`, the first of each
/// name.
pub(crate) fn environment_of(alloc: Global, words: &[Word]) -> Result<Seq<(Word, Word)>, NoMemory>
    ensures { IfOk result (λ made. made ≡ environment_of [] words.now) }
{
    let mut envp = Seq::new(alloc);
    for word in words {
        let pair = split(alloc, word.bytes())?;
        envp = with_pair(envp, pair)?;
    }
    Ok(envp)
}
