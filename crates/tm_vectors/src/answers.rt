//! What our crates answer to a row.
ghost use Rattle.std.specs.Prelude.{◌≡◌, IfOk};
ghost use Rattle.tm_vectors.specs.Answers.{decision, answer_to, answer};

use crate::lines::{entry_line, exception_line};
use crate::patterns::{is_matched, is_right};
use crate::table::Table;
use crate::transitions::domain_after;
use std::alloc::Global;
use tm_list::{NoMemory, Seq};
use tm_word::Text;

/// `yes` or `no`.
fn decision(decided: bool) -> &'static [u8]
    ensures { result.now ≡ decision decided }
{
    if decided { b"yes" } else { b"no" }
}

/// The answer, where the row is one of its table and isn't refused.
fn answered(alloc: Global, table: Table, question: &[Text]) -> Result<Option<Text>, NoMemory>
    ensures { IfOk result (λ text. text ≡ answer_to table question.now) }
{
    match (table, question) {
        (Table::AclLines, [line]) => entry_line(alloc, line.bytes()),
        (Table::ExceptionLines, [line]) => exception_line(alloc, line.bytes()),
        (Table::Transitions, [_, domain, program, controls]) => {
            domain_after(alloc, domain, program.bytes(), controls.bytes())
        }
        (Table::PatternVectors, [pattern, name]) => {
            match is_matched(alloc, pattern.bytes(), name.bytes())? {
                Some(matched) => Ok(Some(Seq::from_bytes(alloc, decision(matched))?)),
                None => Ok(None),
            }
        }
        (Table::PatternValidity, [text]) => {
            let right = is_right(alloc, text.bytes())?;
            Ok(Some(Seq::from_bytes(alloc, decision(right))?))
        }
        _ => Ok(None),
    }
}

/// What our crates answer to a row's question, `refused` where they refuse it.
#[tactic(auto, unfolding(crate::specs::Answers::answer))]
pub fn answer(alloc: Global, table: Table, question: &[Text]) -> Result<Text, NoMemory>
    ensures { IfOk result (λ text. text ≡ answer table question.now) }
{
    match answered(alloc, table, question)? {
        Some(answer) => Ok(answer),
        None => Seq::from_bytes(alloc, b"refused"),
    }
}
