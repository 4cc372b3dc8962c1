//! What a book answers.
ghost use Rattle.std.specs.Prelude.{◌≡◌};
ghost use Rattle.std.specs.List.{find};
ghost use Rattle.std.specs.Option.{option_copied};
ghost use Rattle.tm_word.specs.Prelude.{words_of};
ghost use Rattle.tm_script.specs.Written.{has_supervisor};
ghost use Rattle.tm_rules.specs.Prelude.{book_answer, code_of, each_matches, list_matches, rule_answer, rule_matches};

use tm_pattern::matches_bytes;
use tm_types::step::{Answer, Book, BookRule, ListWords, Query};
use tm_word::{Pattern, Words};

/// Whether the patterns match the words of a text one by one; with `any`, words may be left.
fn each_matches(any: bool, patterns: &[Pattern], text: &[u8]) -> bool
    ensures { result ≡ each_matches any patterns.now (words_of text.now) }
{
    let mut words = Words::of(text);
    for pattern in patterns {
        let Some(word) = words.next() else {
            return false;
        };
        if !matches_bytes(pattern, word) {
            return false;
        }
    }
    any || words.next().is_none()
}

/// Whether the words of a text match a list: its patterns one by one; with `any`, words may be
/// left. Takes no memory.
pub fn list_matches(list: &ListWords, text: &[u8]) -> bool
    ensures { result ≡ list_matches list.now text.now }
{
    each_matches(list.any, list.patterns.as_slice(), text)
}

/// Whether a rule's domain words and line words match the query's.
fn rule_matches(query: &Query, rule: &BookRule) -> bool
    ensures { result ≡ rule_matches query.now rule.now }
{
    list_matches(&rule.domain, query.domain.bytes()) && list_matches(&rule.line, query.line.bytes())
}

/// The first rule that matches.
fn matching_rule<'a>(rules: &'a [BookRule], query: &Query) -> Option<&'a BookRule>
    ensures { option_copied result ≡ find (rule_matches query.now) rules.now }
{
    for rule in rules {
        if rule_matches(query, rule) {
            return Some(rule);
        }
    }
    None
}

/// What a rule answers: retry so often, and then its last answer.
fn rule_answer(query: &Query, rule: &BookRule) -> Answer
    ensures { result ≡ rule_answer query.now rule.now }
{
    if query.retry < rule.retries {
        Answer::Retry
    } else {
        rule.last
    }
}

/// What a supervisor's book answers to a held query: the answer of the first rule whose domain
/// words match the words of the query's domain and whose line words match those of its line, each
/// pattern the spelled bytes of its word; no where none does. Takes no memory.
#[tactic(auto, unfolding(tm_rules::specs::Book::book_answer))]
pub fn book_answer(book: &Book, query: &Query) -> Answer
    ensures { result ≡ book_answer book.now query.now }
{
    match matching_rule(book.rules.as_slice(), query) {
        Some(rule) => rule_answer(query, rule),
        None => Answer::No,
    }
}

/// The code of a book's answer to a query, as an Answer step has it: 1 is yes, 2 is no, 3 is retry.
/// A closure that calls it makes a desk. Takes no memory.
pub fn book_code(book: &Book, query: &Query) -> u64
    ensures { result ≡ code_of (book_answer book.now query.now) }
{
    match book_answer(book, query) {
        Answer::Yes => 1,
        Answer::No => 2,
        Answer::Retry => 3,
    }
}

/// Whether a supervisor stands: of a book that was read this holds exactly where its file has a
/// line with a word.
pub fn has_supervisor(book: &Book) -> bool
    ensures { result ≡ has_supervisor book.now }
{
    !book.rules.as_slice().is_empty() || book.stop.is_some()
}
