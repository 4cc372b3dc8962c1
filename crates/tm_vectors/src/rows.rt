//! Rows of a table, and what is said of those that differ.
ghost use Rattle.std.specs.Prelude.{◌≡◌, ◌++◌, IfOk, OnOk, decimal};
ghost use Rattle.tm_word.specs.Prelude.{lines_of};
ghost use Rattle.tm_vectors.specs.Reports.{recorded, question, agreeing, differing, judgement, line_place, both_answers, difference, said, all_said, counts, report};

use crate::answers::answer;
use crate::pieces::pieces;
use crate::table::Table;
use std::alloc::Global;
use tm_line::joined;
use tm_list::NoMemory;
use tm_number::write_decimal;
use tm_word::{Text, bytes_equal, cut_at};

/// What a line of a table's file is: no row, where it is empty, or a row that agrees with our
/// answer or differs from it.
#[derive(Clone, Copy)]
pub enum Judgement {
    NoRow,
    Agrees,
    Differs,
}

/// The fields of a row before the last.
fn question(fields: &[Text]) -> &[Text]
    ensures { result.now ≡ question fields.now }
{
    &fields[..fields.len().saturating_sub(1)]
}

/// The last field of a row.
fn recorded(fields: &[Text]) -> &[u8]
    ensures { result.now ≡ recorded fields.now }
{
    match fields.get(fields.len().saturating_sub(1)) {
        Some(field) => field.bytes(),
        None => b"",
    }
}

/// Appends the name of a table and the number of a line.
fn push_place(alloc: Global, table: Table, number: u64, out: &mut Vec<u8>) -> Result<(), NoMemory>
    ensures { OnOk result (out.new.items ≡ out.old.items ++ line_place table number) }
{
    out.extend_from_slice(table.name().as_bytes())?;
    out.extend_from_slice(b" line ")?;
    write_decimal(alloc, number, out)?;
    out.extend_from_slice(b": ")
}

/// Appends what was recorded and what our crates answer.
fn push_answers(wanted: &[u8], answered: &[u8], out: &mut Vec<u8>) -> Result<(), NoMemory>
    ensures { OnOk result (out.new.items ≡ out.old.items ++ both_answers wanted.now answered.now) }
{
    out.extend_from_slice(b": wanted ")?;
    out.extend_from_slice(wanted)?;
    out.extend_from_slice(b", got ")?;
    out.extend_from_slice(answered)?;
    out.extend_from_slice(b"\n")
}

/// Says what a row that differs asked, what was recorded and what our crates answer.
fn push_difference(
    alloc: Global,
    table: Table,
    number: u64,
    fields: &[Text],
    answered: &Text,
    out: &mut Vec<u8>,
) -> Result<(), NoMemory>
    ensures { OnOk result (out.new.items ≡ out.old.items ++ difference table number fields.now answered.now) }
{
    push_place(alloc, table, number, out)?;
    let asked = joined(alloc, question(fields))?;
    out.extend_from_slice(&asked)?;
    push_answers(recorded(fields), answered.bytes(), out)
}

/// Judges a line of a table's file, and says so where it is a row that differs.
#[tactic(auto, unfolding(crate::specs::Reports::judgement, crate::specs::Reports::said))]
fn judge_line(
    alloc: Global,
    table: Table,
    number: u64,
    line: &[u8],
    out: &mut Vec<u8>,
) -> Result<Judgement, NoMemory>
    ensures judged { IfOk result (λ judged. judged ≡ judgement table line.now) }
    ensures told { OnOk result (out.new.items ≡ out.old.items ++ said table number line.now) }
{
    if line.is_empty() {
        return Ok(Judgement::NoRow);
    }
    let fields = pieces(alloc, b'\t', line)?;
    let answered = answer(alloc, table, question(&fields))?;
    if bytes_equal(answered.bytes(), recorded(&fields)) {
        return Ok(Judgement::Agrees);
    }
    push_difference(alloc, table, number, &fields, &answered, out)?;
    Ok(Judgement::Differs)
}

/// Judges the lines of a table's file, says which rows differ, and counts those that agree and
/// those that differ.
fn judge_lines(
    alloc: Global,
    table: Table,
    text: &[u8],
    out: &mut Vec<u8>,
) -> Result<(u64, u64), NoMemory>
    ensures counted { IfOk result (λ counted. (counted.0 ≡ agreeing table (lines_of text.now))
        × (counted.1 ≡ differing table (lines_of text.now))) }
    ensures told { OnOk result (out.new.items ≡ out.old.items ++ all_said table 1 (lines_of text.now)) }
{
    let mut agree: u64 = 0;
    let mut differ: u64 = 0;
    let mut number: u64 = 1;
    let mut rest = text;
    while let Some((line, after)) = cut_at(b'\n', rest) {
        match judge_line(alloc, table, number, line, out)? {
            Judgement::NoRow => {}
            Judgement::Agrees => agree += 1,
            Judgement::Differs => differ += 1,
        }
        rest = after;
        number += 1;
    }
    match judge_line(alloc, table, number, rest, out)? {
        Judgement::NoRow => Ok((agree, differ)),
        Judgement::Agrees => Ok((agree + 1, differ)),
        Judgement::Differs => Ok((agree, differ + 1)),
    }
}

/// Appends the line of counts.
fn push_counts(
    alloc: Global,
    table: Table,
    agree: u64,
    differ: u64,
    out: &mut Vec<u8>,
) -> Result<(), NoMemory>
    ensures { OnOk result (out.new.items ≡ out.old.items ++ counts table agree differ) }
{
    out.extend_from_slice(table.name().as_bytes())?;
    out.extend_from_slice(b": ")?;
    write_decimal(alloc, agree, out)?;
    out.extend_from_slice(b" rows agree, ")?;
    write_decimal(alloc, differ, out)?;
    out.extend_from_slice(b" differ\n")
}

/// Appends what is to be said of a table whose file has this text: a line for each row that
/// differs, and one line of counts.
#[tactic(auto, unfolding(crate::specs::Reports::report))]
pub fn judge_table(
    alloc: Global,
    table: Table,
    text: &[u8],
    out: &mut Vec<u8>,
) -> Result<(), NoMemory>
    ensures { OnOk result (out.new.items ≡ out.old.items ++ report table text.now) }
{
    let (agree, differ) = judge_lines(alloc, table, text, out)?;
    push_counts(alloc, table, agree, differ, out)
}
