//! Rules of a sorter file.
ghost use Rattle.std.specs.Prelude.{◌≡◌, [], ◌<◌, IfOk};
ghost use Rattle.tm_word.specs.Prelude.{Gives};
ghost use Rattle.tm_script.specs.Steps.{kind_cause};
ghost use Rattle.tm_script.specs.Lines.{script_cause};
ghost use Rattle.tm_sort.specs.Rules.{patterns_after, header_of, header_at, rule_of, rules_of};

use std::alloc::Global;
use tm_list::Seq;
use tm_script::{
    KindFault, Script, colon_at, colon_place, list_at, list_of, list_word, number_at, read_script,
};
use tm_types::request::{ScriptFault, ScriptKind};
use tm_types::step::ListWords;
use tm_word::{Text, bytes_equal};

/// A rule: the number of the part that takes the records whose three lines match. The header's
/// `any` is a list without patterns.
#[derive(Drop)]
pub struct Rule {
    pub dest: u8,
    pub header: ListWords,
    pub domain: ListWords,
    pub line: ListWords,
}

/// The first wrong line, from 1, with the kind of its first wrong word, or want of memory.
pub type RuleFault = ScriptFault;

/// The rules that have been read.
#[derive(Drop)]
struct Rules {
    rules: Seq<Rule>,
}

/// Reads patterns, one a word. Errors: `Word`.
#[tactic(auto, unfolding(crate::specs::Rules::patterns_after))]
fn patterns_of(alloc: Global, words: &[Text]) -> Result<ListWords, KindFault>
    ensures { Gives kind_cause (λ list. list) result (patterns_after [] words.now) }
{
    let mut patterns = Seq::new(alloc);
    for word in words {
        patterns.push(list_word(alloc, word.bytes())?)?;
    }
    Ok(ListWords {
        patterns,
        any: false,
    })
}

/// Reads the words of a header: `any` alone, or one pattern or more. Errors: `Arity` where there is
/// none, `Word`.
#[tactic(auto, unfolding(crate::specs::Rules::header_of))]
fn header_of(alloc: Global, words: &[Text]) -> Result<ListWords, KindFault>
    ensures { Gives kind_cause (λ list. list) result (header_of words.now) }
{
    match words {
        [] => Err(KindFault::Kind(ScriptKind::Arity)),
        [word, rest @ ..] => {
            if rest.is_empty() && bytes_equal(word.bytes(), b"any") {
                return Ok(ListWords {
                    patterns: Seq::new(alloc),
                    any: true,
                });
            }
            patterns_of(alloc, words)
        }
    }
}

/// Reads the words of a header and the `:` that ends them, and answers the words after it. Errors:
/// `Arity`, `Word`.
#[tactic(auto, unfolding(crate::specs::Rules::header_at))]
fn header_at(alloc: Global, words: &[Text]) -> Result<(ListWords, &[Text]), KindFault>
    ensures { Gives kind_cause (λ x. (x.0, x.1.now)) result (header_at words.now) }
{
    let place = colon_place(words);
    let header = header_of(alloc, &words[..place])?;
    let rest = colon_at(&words[place..])?;
    Ok((header, rest))
}

/// Reads `N : HEADERWORDS : DOMAINWORDS : LINEWORDS`.
#[tactic(auto, unfolding(crate::specs::Rules::rule_of))]
fn rule_of(alloc: Global, words: &[Text]) -> Result<Rule, KindFault>
    ensures { Gives kind_cause (λ rule. rule) result (rule_of words.now) }
{
    let (dest, words) = number_at(16, words)?;
    let words = colon_at(words)?;
    let (header, words) = header_at(alloc, words)?;
    let (domain, words) = list_at(alloc, words)?;
    let line = list_of(alloc, words)?;
    Ok(Rule {
        dest: dest as u8,
        header,
        domain,
        line,
    })
}

impl Script for Rules {
    ghost use Rattle.tm_sort.specs.Rules.{rules_line};

    ghost line = { rules_line };

    #[tactic(auto, unfolding(crate::specs::Rules::rules_line))]
    fn after_words(self, alloc: Global, key: &[u8], words: &[Text]) -> Result<Rules, KindFault> {
        if bytes_equal(key, b"rule") {
            let rule = rule_of(alloc, words)?;
            let mut rules = self;
            rules.rules.push(rule)?;
            return Ok(rules);
        }
        Err(KindFault::Kind(ScriptKind::Keyword))
    }
}

/// Reads a sorter file: lines `rule N : HEADERWORDS : DOMAINWORDS : LINEWORDS` with N below 16.
/// HEADERWORDS is `any` alone or one pattern or more; the other two are lists as `answers` has
/// them. Lines without words count and are skipped.
///
/// Errors: the first wrong line, from 1, with the kind of its first wrong word, or want of memory.
#[tactic(auto, unfolding(crate::specs::Rules::rules_of))]
pub fn read_rules(alloc: Global, bytes: &[u8]) -> Result<Vec<Rule>, RuleFault>
    ensures { Gives script_cause (λ rules. rules.items) result (rules_of bytes.now) }
{
    let start = Rules {
        rules: Seq::new(alloc),
    };
    let read = read_script(alloc, start, bytes)?;
    Ok(read.rules.into_vec())
}
