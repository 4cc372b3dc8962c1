//! Printing conditions.
ghost use Rattle.std.specs.Prelude.{◌≡◌, ◌++◌, [], ◌∷◌, map, IfOk, OnOk, OnErr};
ghost use Rattle.tm_word.specs.Prelude.{spell, spelled_pattern};
ghost use Rattle.tm_line.specs.Lines.{spaced};
ghost use Rattle.tm_cond.specs.Attributes.{id_text, field_text, kind_text, attr_text};
ghost use Rattle.tm_cond.specs.Reading.{right_text, operator, clause_text, log_words, cond_words};

use crate::left::place_text;
use crate::words::{FIELDS, IDS, KINDS};
use std::alloc::Global;
use tm_line::print_number;
use tm_list::NoMemory;
use tm_number::write_decimal;
use tm_types::entry::{Attr, Clause, Cond, FileKindWord, IdField, Right, StatField};
use tm_types::unions::NameUnion;
use tm_union::pattern::print_pattern;
use tm_word::{Pattern, Word, write_word};

fn id_text(field: IdField) -> &'static [u8]
    ensures { result.now ≡ id_text field }
{
    IDS[field as usize].0.as_bytes()
}

fn field_text(field: StatField) -> &'static [u8]
    ensures { result.now ≡ field_text field }
{
    FIELDS[field as usize].0.as_bytes()
}

/// The name of a type of file.
pub fn kind_text(kind: FileKindWord) -> &'static [u8]
    ensures { result.now ≡ kind_text kind }
{
    KINDS[kind as usize].0.as_bytes()
}

// Appends a word between double quotes.
fn push_name(alloc: Global, name: &Word, out: &mut Vec<u8>) -> Result<(), NoMemory>
    ensures { OnOk result (out.new.items ≡ out.old.items ++ 34 ∷ spell name.now ++ 34 ∷ []) }
{
    out.push(b'"')?;
    write_word(alloc, name, out)?;
    out.extend_from_slice(b"\"")
}

// Appends a pattern between double quotes.
fn push_pattern(alloc: Global, pattern: &Pattern, out: &mut Vec<u8>) -> Result<(), NoMemory>
    ensures { OnOk result
        (out.new.items ≡ out.old.items ++ 34 ∷ spelled_pattern pattern.now ++ 34 ∷ []) }
{
    out.push(b'"')?;
    print_pattern(alloc, pattern, out)?;
    out.extend_from_slice(b"\"")
}

// Appends two texts.
fn push_both(first: &[u8], second: &[u8], out: &mut Vec<u8>) -> Result<(), NoMemory>
    ensures { OnOk result (out.new.items ≡ out.old.items ++ (first.now ++ second.now)) }
{
    out.extend_from_slice(first)?;
    out.extend_from_slice(second)
}

// Appends the attribute of an argument.
#[tactic(auto, unfolding(crate::specs::Attributes::attr_text))]
fn push_argv(alloc: Global, place: u32, out: &mut Vec<u8>) -> Result<(), NoMemory>
    ensures { OnOk result (out.new.items ≡ out.old.items ++ attr_text (Attr.Argv place)) }
{
    out.extend_from_slice(b"exec.argv[")?;
    write_decimal(alloc, u64::from(place), out)?;
    out.extend_from_slice(b"]")
}

// Appends the attribute of an environment name.
#[tactic(auto, unfolding(crate::specs::Attributes::attr_text))]
fn push_envp(alloc: Global, name: &Word, out: &mut Vec<u8>) -> Result<(), NoMemory>
    ensures { OnOk result (out.new.items ≡ out.old.items ++ attr_text (Attr.Envp name.now)) }
{
    out.extend_from_slice(b"exec.envp[")?;
    push_name(alloc, name, out)?;
    out.extend_from_slice(b"]")
}

/// Appends an attribute as it is written. After want of memory a part of it may stand there.
#[tactic(auto, unfolding(crate::specs::Attributes::attr_text))]
pub fn push_attr(alloc: Global, attr: &Attr, out: &mut Vec<u8>) -> Result<(), NoMemory>
    ensures { OnOk result (out.new.items ≡ out.old.items ++ attr_text attr.now) }
{
    match attr {
        Attr::Task(field) => push_both(b"task.", id_text(*field), out),
        Attr::Argc => out.extend_from_slice(b"exec.argc"),
        Attr::Envc => out.extend_from_slice(b"exec.envc"),
        Attr::Stat(place, field) => push_both(place_text(*place), field_text(*field), out),
        Attr::Kind(place) => push_both(place_text(*place), b"type", out),
        Attr::Argv(place) => push_argv(alloc, *place, out),
        Attr::Envp(name) => push_envp(alloc, name, out),
        Attr::RealPath => out.extend_from_slice(b"exec.realpath"),
        Attr::Target => out.extend_from_slice(b"symlink.target"),
    }
}

// Appends a right side.
#[tactic(auto, unfolding(crate::specs::Reading::right_text))]
fn push_right(alloc: Global, right: &Right, out: &mut Vec<u8>) -> Result<(), NoMemory>
    ensures { OnOk result (out.new.items ≡ out.old.items ++ right_text right.now) }
{
    match right {
        Right::Numbers(number) => print_number(alloc, number, out),
        Right::Attr(attr) => push_attr(alloc, attr, out),
        Right::Kind(kind) => out.extend_from_slice(kind_text(*kind)),
        Right::Name(NameUnion::One(pattern)) => push_pattern(alloc, pattern, out),
        Right::Name(NameUnion::Group(group)) => {
            out.push(b'@')?;
            write_word(alloc, group, out)
        }
        Right::Null => out.extend_from_slice(b"NULL"),
    }
}

// Appends an operator.
fn push_operator(equal: bool, out: &mut Vec<u8>) -> Result<(), NoMemory>
    ensures { OnOk result (out.new.items ≡ out.old.items ++ operator equal) }
{
    if equal {
        out.extend_from_slice(b"=")
    } else {
        out.extend_from_slice(b"!=")
    }
}

// Appends a clause.
#[tactic(auto, unfolding(crate::specs::Reading::clause_text))]
fn push_clause(alloc: Global, clause: &Clause, out: &mut Vec<u8>) -> Result<(), NoMemory>
    ensures { OnOk result (out.new.items ≡ out.old.items ++ clause_text clause.now) }
{
    push_attr(alloc, &clause.left, out)?;
    push_operator(clause.equal, out)?;
    push_right(alloc, &clause.right, out)
}

// Appends clauses, each after a space.
fn push_clauses(alloc: Global, clauses: &[Clause], out: &mut Vec<u8>) -> Result<(), NoMemory>
    ensures { OnOk result (out.new.items ≡ out.old.items ++ spaced (map clause_text clauses.now)) }
{
    for clause in clauses {
        out.push(b' ')?;
        push_clause(alloc, clause, out)?;
    }
    Ok(())
}

// Appends the word that says whether a grant is logged, after a space.
fn push_log(log: Option<bool>, out: &mut Vec<u8>) -> Result<(), NoMemory>
    ensures { OnOk result (out.new.items ≡ out.old.items ++ spaced (log_words log)) }
{
    match log {
        None => Ok(()),
        Some(true) => out.extend_from_slice(b" grant_log=yes"),
        Some(false) => out.extend_from_slice(b" grant_log=no"),
    }
}

// The conditions, each after a space.
#[tactic(auto, unfolding(crate::specs::Reading::cond_words))]
fn cond_text(alloc: Global, cond: &Cond) -> Result<Vec<u8>, NoMemory>
    ensures { IfOk result (λ text. text.items ≡ spaced (cond_words cond.now)) }
{
    let mut text = Vec::new(alloc);
    push_clauses(alloc, cond.clauses.as_slice(), &mut text)?;
    push_log(cond.grant_log, &mut text)?;
    Ok(text)
}

/// Appends the conditions of a line, each after a space: the clauses in written order, and
/// `grant_log` last. After want of memory `out` is as before.
pub fn print_cond(alloc: Global, cond: &Cond, out: &mut Vec<u8>) -> Result<(), NoMemory>
    ensures ok { OnOk result (out.new.items ≡ out.old.items ++ spaced (cond_words cond.now)) }
    ensures err { OnErr result (out.new.items ≡ out.old.items) }
{
    let text = cond_text(alloc, cond)?;
    out.extend_from_slice(&text)
}
