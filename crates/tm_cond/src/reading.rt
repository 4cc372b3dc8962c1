//! Reading conditions.
ghost use Rattle.std.specs.Prelude.{◌≡◌, ◌⊎◌, option_map, IfErr};
ghost use Rattle.tm_word.specs.Prelude.{Gives};
ghost use Rattle.tm_line.specs.Lines.{line_cause};
ghost use Rattle.tm_cond.specs.Reading.{quoted_name, name_or_group, or_numeric, right_word, left_side, sides, clause_word, log_word, with_word, cond_of};
ghost use Rattle.tm_line.specs.Arguments.{number_word};

use crate::left::{attr_word, numeric_word};
use crate::words::{kind_word, quoted, without_last};
use std::alloc::Global;
use tm_line::{group_word, number_word, pattern_word};
use tm_list::Seq;
use tm_types::entry::{Attr, Clause, Cond, LineKind, Right};
use tm_types::step::LineFault;
use tm_types::unions::NameUnion;
use tm_word::{Text, bytes_equal, place_of};

// Whatever was wrong, the condition is; want of memory stays.
fn as_condition(fault: LineFault) -> LineFault
    ensures { line_cause result ≡ option_map (λ kind. LineKind.Condition) (line_cause fault) }
{
    match fault {
        LineFault::NoMemory => LineFault::NoMemory,
        LineFault::Kind(_) => LineFault::Kind(LineKind::Condition),
    }
}

// A pattern in double quotes, possibly empty.
#[tactic(auto, unfolding(crate::specs::Reading::quoted_name))]
fn quoted_name(alloc: Global, text: &[u8]) -> Result<NameUnion, LineFault>
    ensures { Gives line_cause (λ name. name) result (quoted_name text.now) }
{
    let inner = quoted(text)?;
    let pattern = pattern_word(alloc, inner).map_err(as_condition)?;
    Ok(NameUnion::One(pattern))
}

// A pattern in double quotes, or `@GROUP`.
#[tactic(auto, unfolding(crate::specs::Reading::name_or_group))]
fn name_or_group(alloc: Global, text: &[u8]) -> Result<NameUnion, LineFault>
    ensures { Gives line_cause (λ name. name) result (name_or_group text.now) }
{
    match text {
        [] => Err(LineFault::Kind(LineKind::Condition)),
        [b'@', group @ ..] => {
            let word = group_word(alloc, group).map_err(as_condition)?;
            Ok(NameUnion::Group(word))
        }
        _ => quoted_name(alloc, text),
    }
}

// A number argument, or a numeric attribute.
fn number_or_attr(alloc: Global, text: &[u8]) -> Result<Right, LineFault>
    ensures { Gives line_cause (λ right. right) result
        (or_numeric (number_word text.now) text.now) }
{
    match number_word(alloc, text) {
        Ok(number) => Ok(Right::Numbers(number)),
        Err(LineFault::NoMemory) => Err(LineFault::NoMemory),
        Err(LineFault::Kind(_)) => match numeric_word(text) {
            Some(attr) => Ok(Right::Attr(attr)),
            None => Err(LineFault::Kind(LineKind::Condition)),
        },
    }
}

// A right side, by the attribute on the left.
#[tactic(auto, unfolding(crate::specs::Reading::right_word))]
fn right_word(alloc: Global, left: &Attr, text: &[u8]) -> Result<Right, LineFault>
    ensures { Gives line_cause (λ right. right) result (right_word left.now text.now) }
{
    match left {
        Attr::Kind(_) => match kind_word(text) {
            Some(kind) => Ok(Right::Kind(kind)),
            None => Err(LineFault::Kind(LineKind::Condition)),
        },
        Attr::Argv(_) => Ok(Right::Name(quoted_name(alloc, text)?)),
        Attr::Envp(_) => {
            if bytes_equal(text, b"NULL") {
                Ok(Right::Null)
            } else {
                Ok(Right::Name(quoted_name(alloc, text)?))
            }
        }
        Attr::RealPath | Attr::Target => Ok(Right::Name(name_or_group(alloc, text)?)),
        Attr::Task(_) | Attr::Argc | Attr::Envc | Attr::Stat(_, _) => number_or_attr(alloc, text),
    }
}

// The left word, and whether the operator is `=`.
fn left_side(text: &[u8]) -> (&[u8], bool)
    ensures { (result.0.now, result.1) ≡ left_side text.now }
{
    match without_last(b'!', text) {
        Some(front) => (front, false),
        None => (text, true),
    }
}

// The clause of the text before the first `=` and the text after it.
#[tactic(auto, unfolding(crate::specs::Reading::sides))]
fn sides(alloc: Global, left: &[u8], text: &[u8]) -> Result<Clause, LineFault>
    ensures { Gives line_cause (λ clause. clause) result (sides (left_side left.now) text.now) }
{
    let (word, equal) = left_side(left);
    let left = attr_word(alloc, word)?;
    let right = right_word(alloc, &left, text)?;
    Ok(Clause { left, equal, right })
}

// A clause, cut at the first `=`.
#[tactic(auto, unfolding(crate::specs::Reading::clause_word))]
fn clause_word(alloc: Global, word: &[u8]) -> Result<Clause, LineFault>
    ensures { Gives line_cause (λ clause. clause) result (clause_word word.now) }
{
    match place_of(b'=', word) {
        Some(place) => sides(alloc, &word[..place], &word[place + 1..]),
        None => Err(LineFault::Kind(LineKind::Condition)),
    }
}

// Whether a grant is logged.
#[tactic(auto, unfolding(crate::specs::Reading::log_word))]
fn log_word(word: &[u8]) -> Option<bool>
    ensures { result ≡ log_word word.now }
{
    if bytes_equal(word, b"grant_log=yes") {
        return Some(true);
    }
    if bytes_equal(word, b"grant_log=no") {
        return Some(false);
    }
    None
}

// One more word.
fn with_word(alloc: Global, cond: Cond, word: &[u8]) -> Result<Cond, LineFault>
    ensures { Gives line_cause (λ next. next) result (with_word (log_word word.now) cond word.now) }
{
    let Cond {
        mut clauses,
        grant_log,
    } = cond;
    match log_word(word) {
        Some(log) => match grant_log {
            Some(_) => Err(LineFault::Kind(LineKind::Condition)),
            None => Ok(Cond {
                clauses,
                grant_log: Some(log),
            }),
        },
        None => {
            let clause = clause_word(alloc, word)?;
            clauses.push(clause)?;
            Ok(Cond { clauses, grant_log })
        }
    }
}

/// Reads the conditions of a line, one word each. `grant_log` may stand anywhere among them, at
/// most once.
///
/// Errors: `Condition` exactly where a word isn't in the grammar or `grant_log` stands twice; or
/// want of memory.
#[tactic(auto, unfolding(crate::specs::Reading::cond_of, crate::specs::Reading::cond_from))]
pub fn read_cond(alloc: Global, words: &[Text]) -> Result<Cond, LineFault>
    ensures exact { Gives line_cause (λ cond. cond) result (cond_of words.now) }
    ensures kind { IfErr result
        (λ fault. (fault ≡ LineFault.Kind LineKind.Condition) ⊎ (fault ≡ LineFault.NoMemory)) }
{
    let mut cond = Cond {
        clauses: Seq::new(alloc),
        grant_log: None,
    };
    for word in words {
        cond = with_word(alloc, cond, word.bytes())?;
    }
    Ok(cond)
}
