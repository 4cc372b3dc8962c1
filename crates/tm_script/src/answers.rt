//! Answers: a supervisor's book.
ghost use Rattle.std.specs.Prelude.{◌≡◌, ◌≤◌, [], length};
ghost use Rattle.tm_word.specs.Prelude.{Gives, GivesNow};
ghost use Rattle.tm_script.specs.Steps.{kind_cause, word_at};
ghost use Rattle.tm_script.specs.Lines.{script_cause};
ghost use Rattle.tm_script.specs.Answers.{last_answer, retries_at, answer_at, is_colon, colon_at, list_word, list_after, list_of, colon_place, list_at, rule_of, detach_line, answers_of};

use crate::lines::{Script, read_script};
use crate::steps::{KindFault, ended, number_at};
use std::alloc::Global;
use tm_list::Seq;
use tm_pattern::{PatternFault, read_pattern};
use tm_types::request::{ScriptFault, ScriptKind};
use tm_types::step::{Answer, Book, BookRule, ListWords};
use tm_word::{Pattern, Text, bytes_equal};

/// Reads the answer that a rule gives in the end. Errors: `Keyword`.
#[tactic(auto, unfolding(crate::specs::Answers::last_answer))]
fn last_answer(word: &[u8]) -> Result<Answer, KindFault>
    ensures { GivesNow kind_cause (λ last. last) result (last_answer word.now) }
{
    if bytes_equal(word, b"yes") {
        return Ok(Answer::Yes);
    }
    if bytes_equal(word, b"no") {
        return Ok(Answer::No);
    }
    Err(KindFault::Kind(ScriptKind::Keyword))
}

/// The same at the front, with the words after it. Errors: `Arity` where no word is left,
/// `Keyword`.
fn last_at(words: &[Text]) -> Result<(Answer, &[Text]), KindFault>
    ensures { GivesNow kind_cause (λ x. (x.0, x.1.now)) result (word_at last_answer words.now) }
{
    match words {
        [] => Err(KindFault::Kind(ScriptKind::Arity)),
        [word, rest @ ..] => Ok((last_answer(word.bytes())?, rest)),
    }
}

/// What a rule answers: how many retries, and the answer after them.
type Course = (u32, Answer);

/// Reads `N yes` or `N no`.
#[tactic(auto, unfolding(crate::specs::Answers::retries_at))]
fn retries_at(words: &[Text]) -> Result<(Course, &[Text]), KindFault>
    ensures { GivesNow kind_cause (λ x. (x.0, x.1.now)) result (retries_at words.now) }
{
    let (retries, words) = number_at(256, words)?;
    let (last, words) = last_at(words)?;
    Ok(((retries as u32, last), words))
}

/// Reads `yes`, `no`, `retry N yes` or `retry N no` at the front, and answers the words after it.
#[tactic(auto, unfolding(crate::specs::Answers::answer_at))]
fn answer_at(words: &[Text]) -> Result<(Course, &[Text]), KindFault>
    ensures { GivesNow kind_cause (λ x. (x.0, x.1.now)) result (answer_at words.now) }
{
    match words {
        [] => Err(KindFault::Kind(ScriptKind::Arity)),
        [word, rest @ ..] => {
            if bytes_equal(word.bytes(), b"retry") {
                return retries_at(rest);
            }
            let last = last_answer(word.bytes())?;
            Ok(((0, last), rest))
        }
    }
}

fn is_colon(word: &[u8]) -> bool
    ensures { result ≡ is_colon word.now }
{
    bytes_equal(word, b":")
}

/// Takes a `:` at the front. Errors: `Arity` where another word stands or none is left.
#[tactic(auto, unfolding(crate::specs::Answers::colon_at))]
pub fn colon_at(words: &[Text]) -> Result<&[Text], KindFault>
    ensures { GivesNow kind_cause (λ rest. rest.now) result (colon_at words.now) }
{
    match words {
        [] => Err(KindFault::Kind(ScriptKind::Arity)),
        [word, rest @ ..] => {
            if is_colon(word.bytes()) {
                Ok(rest)
            } else {
                Err(KindFault::Kind(ScriptKind::Arity))
            }
        }
    }
}

/// Reads a word of a list. Errors: `Word`.
#[tactic(auto, unfolding(crate::specs::Answers::list_word))]
pub fn list_word(alloc: Global, word: &[u8]) -> Result<Pattern, KindFault>
    ensures { Gives kind_cause (λ pattern. pattern) result (list_word word.now) }
{
    if is_colon(word) {
        return Err(KindFault::Kind(ScriptKind::Word));
    }
    match read_pattern(alloc, word) {
        Ok(pattern) => Ok(pattern),
        Err(PatternFault::NoMemory) => Err(KindFault::NoMemory),
        Err(_) => Err(KindFault::Kind(ScriptKind::Word)),
    }
}

/// Reads the words of a list. Errors: `Word`.
#[tactic(auto, unfolding(crate::specs::Answers::list_after))]
fn list_words(alloc: Global, words: &[Text]) -> Result<ListWords, KindFault>
    ensures { Gives kind_cause (λ list. list) result (list_after [] words.now) }
{
    let mut patterns = Seq::new(alloc);
    let mut rest = words;
    while let [word, after @ ..] = rest {
        if after.is_empty() && bytes_equal(word.bytes(), b"any") {
            return Ok(ListWords {
                patterns,
                any: true,
            });
        }
        patterns.push(list_word(alloc, word.bytes())?)?;
        rest = after;
    }
    Ok(ListWords {
        patterns,
        any: false,
    })
}

/// Reads a list that takes all these words. Errors: `Arity` where there is none, `Word`.
#[tactic(auto, unfolding(crate::specs::Answers::list_of))]
pub fn list_of(alloc: Global, words: &[Text]) -> Result<ListWords, KindFault>
    ensures { Gives kind_cause (λ list. list) result (list_of words.now) }
{
    match words {
        [] => Err(KindFault::Kind(ScriptKind::Arity)),
        [_, ..] => list_words(alloc, words),
    }
}

/// How many words stand before the next `:`.
pub fn colon_place(words: &[Text]) -> usize
    ensures value { result ≡ colon_place words.now }
    ensures within { result ≤ length words.now }
{
    let mut count = 0;
    while count < words.len() && !is_colon(words[count].bytes()) {
        count += 1;
    }
    count
}

/// Reads a list and the `:` that ends it, and answers the words after it. Errors: `Arity` where the
/// list or the `:` is missing, `Word`.
#[tactic(auto, unfolding(crate::specs::Answers::list_at))]
pub fn list_at(alloc: Global, words: &[Text]) -> Result<(ListWords, &[Text]), KindFault>
    ensures { Gives kind_cause (λ x. (x.0, x.1.now)) result (list_at words.now) }
{
    let place = colon_place(words);
    let list = list_of(alloc, &words[..place])?;
    let rest = colon_at(&words[place..])?;
    Ok((list, rest))
}

/// Reads `ANSWER : DOMAINWORDS : LINEWORDS`.
#[tactic(auto, unfolding(crate::specs::Answers::rule_of))]
fn rule_of(alloc: Global, words: &[Text]) -> Result<BookRule, KindFault>
    ensures { Gives kind_cause (λ rule. rule) result (rule_of words.now) }
{
    let ((retries, last), words) = answer_at(words)?;
    let words = colon_at(words)?;
    let (domain, words) = list_at(alloc, words)?;
    let line = list_of(alloc, words)?;
    Ok(BookRule {
        retries,
        last,
        domain,
        line,
    })
}

/// Reads `N` after `detach`. Errors: `Twice` where the book has a number already, `Arity`,
/// `Number`.
#[tactic(auto, unfolding(crate::specs::Answers::detach_line))]
fn detach_line(book: Book, words: &[Text]) -> Result<Book, KindFault>
    ensures { GivesNow kind_cause (λ next. next) result (detach_line book words.now) }
{
    if book.stop.is_some() {
        return Err(KindFault::Kind(ScriptKind::Twice));
    }
    let (stop, words) = number_at(1 << 64, words)?;
    let mut book = book;
    book.stop = Some(stop);
    ended(book, words)
}

impl Script for Book {
    ghost use Rattle.tm_script.specs.Answers.{answers_line};

    ghost line = { answers_line };

    #[tactic(auto, unfolding(crate::specs::Answers::answers_line))]
    fn after_words(self, alloc: Global, key: &[u8], words: &[Text]) -> Result<Book, KindFault> {
        if bytes_equal(key, b"rule") {
            let rule = rule_of(alloc, words)?;
            let mut book = self;
            book.rules.push(rule)?;
            return Ok(book);
        }
        if bytes_equal(key, b"detach") {
            return detach_line(self, words);
        }
        Err(KindFault::Kind(ScriptKind::Keyword))
    }
}

/// Reads the book of a supervisor: rules `rule ANSWER : DOMAINWORDS : LINEWORDS`, and once at most
/// `detach N`, the number of answers after which it detaches. ANSWER is `yes`, `no`, `retry N yes`
/// or `retry N no` with N below 256. Each list has one word or more, patterns other than `:`; a
/// last word `any` takes the words that are left. Lines without words count and are skipped.
///
/// Errors: the first wrong line, from 1, with the kind of its first wrong word, or want of memory.
#[tactic(auto, unfolding(crate::specs::Answers::answers_of))]
pub fn read_answers(alloc: Global, bytes: &[u8]) -> Result<Book, ScriptFault>
    ensures { Gives script_cause (λ book. book) result (answers_of bytes.now) }
{
    let start = Book {
        rules: Seq::new(alloc),
        stop: None,
    };
    read_script(alloc, start, bytes)
}
