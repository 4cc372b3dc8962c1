//! Reading attributes, the left words of conditions.
ghost use Rattle.std.specs.Prelude.{◌≡◌};
ghost use Rattle.tm_word.specs.Prelude.{Gives, GivesNow, named};
ghost use Rattle.tm_line.specs.Lines.{line_cause};
ghost use Rattle.tm_cond.specs.Attributes.{place_text, task_at, field_at, stat_at, count_table, numeric_word, other_word, argv_word, envp_word, attr_word};

use crate::words::{closed, field_word, id_word, parent_word, quoted};
use std::alloc::Global;
use tm_number::plain_number;
use tm_types::entry::{Attr, LineKind, StatField, StatPlace};
use tm_types::step::LineFault;
use tm_word::{after, bytes_equal, spelled_word};

/// What stands in front of a file's attributes.
pub fn place_text(place: StatPlace) -> &'static [u8]
    ensures { result.now ≡ place_text place }
{
    match place {
        StatPlace::Path1 => b"path1.",
        StatPlace::Path2 => b"path2.",
        StatPlace::Path1Parent => b"path1.parent.",
        StatPlace::Path2Parent => b"path2.parent.",
    }
}

fn task_at(text: &[u8]) -> Option<Attr>
    ensures { result ≡ task_at text.now }
{
    let rest = after(b"task.", text)?;
    let field = id_word(rest)?;
    Some(Attr::Task(field))
}

fn field_at(place: StatPlace, text: &[u8]) -> Option<StatField>
    ensures { result ≡ field_at place text.now }
{
    match place {
        StatPlace::Path1 => field_word(text),
        StatPlace::Path2 => field_word(text),
        StatPlace::Path1Parent => parent_word(text),
        StatPlace::Path2Parent => parent_word(text),
    }
}

fn stat_at(place: StatPlace, text: &[u8]) -> Option<Attr>
    ensures { result ≡ stat_at place text.now }
{
    let rest = after(place_text(place), text)?;
    let field = field_at(place, rest)?;
    Some(Attr::Stat(place, field))
}

fn count_word(text: &[u8]) -> Option<Attr>
    ensures { result ≡ named count_table text.now }
{
    if bytes_equal(text, b"exec.argc") {
        return Some(Attr::Argc);
    }
    if bytes_equal(text, b"exec.envc") {
        return Some(Attr::Envc);
    }
    None
}

/// Reads a numeric attribute.
#[tactic(auto, unfolding(crate::specs::Attributes::numeric_word))]
pub fn numeric_word(text: &[u8]) -> Option<Attr>
    ensures { result ≡ numeric_word text.now }
{
    if let Some(attr) = task_at(text) {
        return Some(attr);
    }
    if let Some(attr) = count_word(text) {
        return Some(attr);
    }
    if let Some(attr) = stat_at(StatPlace::Path1, text) {
        return Some(attr);
    }
    if let Some(attr) = stat_at(StatPlace::Path2, text) {
        return Some(attr);
    }
    if let Some(attr) = stat_at(StatPlace::Path1Parent, text) {
        return Some(attr);
    }
    stat_at(StatPlace::Path2Parent, text)
}

#[tactic(auto, unfolding(crate::specs::Attributes::other_word))]
fn other_word(text: &[u8]) -> Option<Attr>
    ensures { result ≡ other_word text.now }
{
    if bytes_equal(text, b"path1.type") {
        return Some(Attr::Kind(StatPlace::Path1));
    }
    if bytes_equal(text, b"path2.type") {
        return Some(Attr::Kind(StatPlace::Path2));
    }
    if bytes_equal(text, b"exec.realpath") {
        return Some(Attr::RealPath);
    }
    if bytes_equal(text, b"symlink.target") {
        return Some(Attr::Target);
    }
    None
}

// The place of an argument, a plain number below 2^32, and the closing bracket.
#[tactic(auto, unfolding(crate::specs::Attributes::argv_word))]
fn argv_word(rest: &[u8]) -> Result<Attr, LineFault>
    ensures { GivesNow line_cause (λ attr. attr) result (argv_word rest.now) }
{
    let digits = closed(b']', rest)?;
    match plain_number(4_294_967_296, digits) {
        Some(place) => Ok(Attr::Argv(place as u32)),
        None => Err(LineFault::Kind(LineKind::Condition)),
    }
}

// An environment name, a spelled word in double quotes, and the closing bracket.
#[tactic(auto, unfolding(crate::specs::Attributes::envp_word))]
fn envp_word(alloc: Global, rest: &[u8]) -> Result<Attr, LineFault>
    ensures { Gives line_cause (λ attr. attr) result (envp_word rest.now) }
{
    let text = closed(b']', rest)?;
    let inner = quoted(text)?;
    match spelled_word(alloc, inner)? {
        Some(name) => Ok(Attr::Envp(name)),
        None => Err(LineFault::Kind(LineKind::Condition)),
    }
}

/// Reads a left word. Errors: `Condition`.
#[tactic(auto, unfolding(crate::specs::Attributes::attr_word))]
pub fn attr_word(alloc: Global, text: &[u8]) -> Result<Attr, LineFault>
    ensures { Gives line_cause (λ attr. attr) result (attr_word text.now) }
{
    if let Some(attr) = numeric_word(text) {
        return Ok(attr);
    }
    if let Some(attr) = other_word(text) {
        return Ok(attr);
    }
    if let Some(rest) = after(b"exec.argv[", text) {
        return argv_word(rest);
    }
    if let Some(rest) = after(b"exec.envp[", text) {
        return envp_word(alloc, rest);
    }
    Err(LineFault::Kind(LineKind::Condition))
}
