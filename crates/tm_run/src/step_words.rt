//! What the words of a step's line say.
ghost use Rattle.std.specs.Prelude.{◌≡◌, ◌∷◌, None, IfOk, MatchOption};
ghost use Rattle.tm_word.specs.Prelude.{joined, words_of};
ghost use Rattle.tm_run.specs.StepWords.{learn_in, make_in, fail_in, ask_in, answer_in, attach_in, detach_in, edit_in, end_in, step_in, step_of};

use crate::fields::{file_of, u32_of, u64_of};
use crate::replies::{edit_of, fault_of, held_of, make_of, reply_of};
use std::alloc::{AllocError, Global};
use tm_entry::read_entry;
use tm_line::domain_to_end;
use tm_list::{NoMemory, Seq};
use tm_types::step::{LineFault, Reply, Step};
use tm_word::{Text, bytes_equal, cut_word, normal_words};

// A domain, and an entry's words.
fn learn_in(alloc: Global, reply: &[u8], text: &[u8]) -> Result<Option<(Step, Reply)>, NoMemory>
    ensures { IfOk result (λ step. step ≡ learn_in reply.now (words_of text.now)) }
{
    let Some((domain, rest)) = cut_word(text) else {
        return Ok(None);
    };
    let words = normal_words(alloc, rest)?;
    match read_entry(alloc, &words) {
        Ok(entry) => {
            let step = Step::Learn(u32_of(domain), entry);
            Ok(Some((step, Reply::Learn(reply_of(reply)))))
        }
        Err(LineFault::Kind(_)) => Ok(None),
        Err(LineFault::NoMemory) => Err(AllocError),
    }
}

// A domain, and the name of the one that is made.
fn make_in(alloc: Global, reply: &[u8], text: &[u8]) -> Result<Option<(Step, Reply)>, NoMemory>
    ensures { IfOk result (λ step. step ≡ make_in reply.now (words_of text.now)) }
{
    let Some((domain, rest)) = cut_word(text) else {
        return Ok(None);
    };
    let words = normal_words(alloc, rest)?;
    match domain_to_end(alloc, &words) {
        Ok(name) => {
            let step = Step::Make(u32_of(domain), name);
            Ok(Some((step, Reply::Make(make_of(reply)))))
        }
        Err(LineFault::Kind(_)) => Ok(None),
        Err(LineFault::NoMemory) => Err(AllocError),
    }
}

// A domain.
fn fail_in(reply: &[u8], text: &[u8]) -> Option<(Step, Reply)>
    ensures { result ≡ fail_in reply.now (words_of text.now) }
{
    let (domain, rest) = cut_word(text)?;
    match cut_word(rest) {
        None => Some((
            Step::Fail(u32_of(domain)),
            Reply::Fail(bytes_equal(reply, b"set")),
        )),
        Some(_) => None,
    }
}

// A word and the words of a text after it, joined by single spaces.
fn joined_after(alloc: Global, first: &[u8], text: &[u8]) -> Result<Text, NoMemory>
    ensures { IfOk result (λ line. line ≡ joined (first.now ∷ words_of text.now)) }
{
    let mut line = Vec::from_slice(alloc, first)?;
    let mut rest = text;
    while let Some((word, after)) = cut_word(rest) {
        line.push(b' ')?;
        line.extend_from_slice(word)?;
        rest = after;
    }
    Ok(Seq::from_vec(line))
}

// A domain, a retry number, and a line.
fn ask_in(alloc: Global, reply: &[u8], text: &[u8]) -> Result<Option<(Step, Reply)>, NoMemory>
    ensures { IfOk result (λ step. step ≡ ask_in reply.now (words_of text.now)) }
{
    let Some((domain, rest)) = cut_word(text) else {
        return Ok(None);
    };
    let Some((retry, rest)) = cut_word(rest) else {
        return Ok(None);
    };
    let Some((word, rest)) = cut_word(rest) else {
        return Ok(None);
    };
    let line = joined_after(alloc, word, rest)?;
    let step = Step::Ask(u32_of(domain), u32_of(retry), line);
    Ok(Some((step, Reply::Ask(held_of(reply)))))
}

// A serial and a code.
fn answer_in(reply: &[u8], text: &[u8]) -> Option<(Step, Reply)>
    ensures { result ≡ answer_in reply.now (words_of text.now) }
{
    let (serial, rest) = cut_word(text)?;
    let (code, rest) = cut_word(rest)?;
    match cut_word(rest) {
        None => Some((
            Step::Answer(u64_of(serial), u64_of(code)),
            Reply::Answer(fault_of(reply)),
        )),
        Some(_) => None,
    }
}

// Nothing more.
fn attach_in(reply: &[u8], text: &[u8]) -> Option<(Step, Reply)>
    ensures { result ≡ attach_in reply.now (words_of text.now) }
{
    match cut_word(text) {
        None => Some((Step::Attach, Reply::Attach(bytes_equal(reply, b"done")))),
        Some(_) => None,
    }
}

// Nothing more.
fn detach_in(reply: &[u8], text: &[u8]) -> Option<(Step, Reply)>
    ensures { result ≡ detach_in reply.now (words_of text.now) }
{
    match cut_word(text) {
        None => Some((Step::Detach, Reply::Detach(bytes_equal(reply, b"done")))),
        Some(_) => None,
    }
}

// An editor, a file, and a line.
fn edit_in(alloc: Global, reply: &[u8], text: &[u8]) -> Result<Option<(Step, Reply)>, NoMemory>
    ensures { IfOk result (λ step. step ≡ edit_in reply.now (words_of text.now)) }
{
    let Some((editor, rest)) = cut_word(text) else {
        return Ok(None);
    };
    let Some((file, rest)) = cut_word(rest) else {
        return Ok(None);
    };
    let Some((word, rest)) = cut_word(rest) else {
        return Ok(None);
    };
    let line = joined_after(alloc, word, rest)?;
    let step = Step::Edit(u32_of(editor), file_of(file), line);
    Ok(Some((step, Reply::Edit(edit_of(reply)))))
}

// A tree.
fn end_in(text: &[u8]) -> Option<(Step, Reply)>
    ensures { result ≡ end_in (words_of text.now) }
{
    let (tree, rest) = cut_word(text)?;
    match cut_word(rest) {
        None => Some((Step::End(u32_of(tree)), Reply::End)),
        Some(_) => None,
    }
}

// A step's keyword, its reply, and the text after the keyword.
#[tactic(auto, unfolding(crate::specs::StepWords::step_in))]
fn step_in(
    alloc: Global,
    keyword: &[u8],
    reply: &[u8],
    text: &[u8],
) -> Result<Option<(Step, Reply)>, NoMemory>
    ensures { IfOk result (λ step. step ≡ step_in keyword.now reply.now (words_of text.now)) }
{
    if bytes_equal(keyword, b"learn") {
        return learn_in(alloc, reply, text);
    }
    if bytes_equal(keyword, b"make") {
        return make_in(alloc, reply, text);
    }
    if bytes_equal(keyword, b"fail") {
        return Ok(fail_in(reply, text));
    }
    if bytes_equal(keyword, b"ask") {
        return ask_in(alloc, reply, text);
    }
    if bytes_equal(keyword, b"answer") {
        return Ok(answer_in(reply, text));
    }
    if bytes_equal(keyword, b"attach") {
        return Ok(attach_in(reply, text));
    }
    if bytes_equal(keyword, b"detach") {
        return Ok(detach_in(reply, text));
    }
    if bytes_equal(keyword, b"edit") {
        return edit_in(alloc, reply, text);
    }
    if bytes_equal(keyword, b"end") {
        return Ok(end_in(text));
    }
    Ok(None)
}

// The reply and the keyword of a step's line, and the text after them.
#[tactic(auto, unfolding(crate::specs::StepWords::step_of))]
fn step_front(line: &[u8]) -> Option<(&[u8], &[u8], &[u8])>
    ensures { MatchOption result (step_of (words_of line.now) ≡ None)
        (λ found. step_of (words_of line.now)
        ≡ step_in found.1.now found.0.now (words_of found.2.now)) }
{
    let (_, rest) = cut_word(line)?;
    let (_, rest) = cut_word(rest)?;
    let (reply, rest) = cut_word(rest)?;
    let (keyword, rest) = cut_word(rest)?;
    Some((reply, keyword, rest))
}

// `step`, a number, a reply, a keyword, and the words after it.
pub(crate) fn step_of(alloc: Global, line: &[u8]) -> Result<Option<(Step, Reply)>, NoMemory>
    ensures { IfOk result (λ step. step ≡ step_of (words_of line.now)) }
{
    match step_front(line) {
        Some((reply, keyword, rest)) => step_in(alloc, keyword, reply, rest),
        None => Ok(None),
    }
}
