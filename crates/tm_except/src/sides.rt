//! Reading the two sides of a domain transition control.
ghost use Rattle.std.specs.Prelude.{◌≡◌};
ghost use Rattle.tm_word.specs.Prelude.{Gives};
ghost use Rattle.tm_line.specs.Lines.{line_cause};
ghost use Rattle.tm_line.specs.Arguments.{path_word};
ghost use Rattle.tm_except.specs.Reading.{side_kind, program_by, program_word, path_side, name_side, domain_side, control, from_side, program_line, alone, keep_side, keep_line, is_keep, control_sides};

use std::alloc::Global;
use tm_line::{domain_to_end, ended, opens, path_word};
use tm_types::entry::LineKind;
use tm_types::policy::{Control, ControlKind};
use tm_types::step::LineFault;
use tm_word::{Text, begins, bytes_equal};

/// The kind of a wrong word where `any` may stand.
fn side_kind(kind: LineKind, word: &[u8], last: bool) -> LineKind
    ensures { result ≡ side_kind kind word.now last }
{
    if last && begins(word, b"any") {
        LineKind::Arity
    } else {
        kind
    }
}

/// The program's side: `any` or a path.
#[tactic(auto, unfolding(crate::specs::Reading::program_word))]
fn program_word(alloc: Global, word: &[u8], last: bool) -> Result<Option<Text>, LineFault>
    ensures { Gives line_cause (λ x. x) result (program_word word.now last) }
{
    if bytes_equal(word, b"any") {
        return Ok(None);
    }
    match path_word(alloc, word) {
        Ok(path) => Ok(Some(path)),
        Err(LineFault::Kind(kind)) => Err(LineFault::Kind(side_kind(kind, word, last))),
        Err(LineFault::NoMemory) => Err(LineFault::NoMemory),
    }
}

/// A domain's side: its text, none for `any`, and whether it is one path.
type Side = (Option<Text>, bool);

/// A domain's side that is one path.
fn path_side(alloc: Global, word: &[u8], words: &[Text]) -> Result<Side, LineFault>
    ensures { Gives line_cause (λ x. x) result (path_side (path_word word.now) word.now words.now) }
{
    match path_word(alloc, word) {
        Ok(path) => ended((Some(path), true), words),
        Err(LineFault::Kind(kind)) => Err(LineFault::Kind(side_kind(kind, word, words.is_empty()))),
        Err(LineFault::NoMemory) => Err(LineFault::NoMemory),
    }
}

/// A domain's side that is a domain name up to the line's end.
fn name_side(alloc: Global, words: &[Text]) -> Result<Side, LineFault>
    ensures { Gives line_cause (λ x. x) result (name_side words.now) }
{
    let name = domain_to_end(alloc, words)?;
    Ok((Some(name), false))
}

/// The domain's side: `any`, a domain name, or one path.
#[tactic(auto, unfolding(crate::specs::Reading::domain_side))]
fn domain_side(alloc: Global, words: &[Text]) -> Result<Side, LineFault>
    ensures { Gives line_cause (λ x. x) result (domain_side words.now) }
{
    match words {
        [] => Err(LineFault::Kind(LineKind::Arity)),
        [word, rest @ ..] => {
            if bytes_equal(word.bytes(), b"any") {
                return ended((None, false), rest);
            }
            if opens(word.bytes()) {
                return name_side(alloc, words);
            }
            path_side(alloc, word.bytes(), rest)
        }
    }
}

/// A control of these sides.
fn control(kind: ControlKind, program: Option<Text>, side: Side) -> Control
    ensures { result ≡ control kind program side }
{
    let (domain, last) = side;
    Control {
        kind,
        program,
        domain,
        last,
    }
}

/// A control by what follows its program: `from` and the domain's side, or nothing.
#[tactic(auto, unfolding(crate::specs::Reading::from_side))]
fn from_side(
    alloc: Global,
    kind: ControlKind,
    program: Option<Text>,
    words: &[Text],
) -> Result<Control, LineFault>
    ensures { Gives line_cause (λ x. x) result (from_side kind program words.now) }
{
    match words {
        [] => Ok(control(kind, program, (None, false))),
        [word, rest @ ..] => {
            if bytes_equal(word.bytes(), b"from") {
                let side = domain_side(alloc, rest)?;
                Ok(control(kind, program, side))
            } else {
                Err(LineFault::Kind(LineKind::Arity))
            }
        }
    }
}

/// A control whose program's side comes first.
#[tactic(auto, unfolding(crate::specs::Reading::program_line))]
fn program_line(alloc: Global, kind: ControlKind, words: &[Text]) -> Result<Control, LineFault>
    ensures { Gives line_cause (λ x. x) result (program_line kind words.now) }
{
    match words {
        [] => Err(LineFault::Kind(LineKind::Arity)),
        [word, rest @ ..] => {
            let program = program_word(alloc, word.bytes(), rest.is_empty())?;
            from_side(alloc, kind, program, rest)
        }
    }
}

/// A side that stands alone, as the domain's.
fn alone(side: Option<Text>) -> Side
    ensures { result ≡ alone side }
{
    match side {
        None => (None, false),
        Some(path) => (Some(path), true),
    }
}

/// A keep form that begins with `any` or a path.
fn keep_side(
    alloc: Global,
    kind: ControlKind,
    side: Option<Text>,
    words: &[Text],
) -> Result<Control, LineFault>
    ensures { Gives line_cause (λ x. x) result (keep_side kind side words.now) }
{
    match words {
        [] => Ok(control(kind, None, alone(side))),
        [_, ..] => from_side(alloc, kind, side, words),
    }
}

/// A keep form, which may have the domain's side alone.
#[tactic(auto, unfolding(crate::specs::Reading::keep_line))]
fn keep_line(alloc: Global, kind: ControlKind, words: &[Text]) -> Result<Control, LineFault>
    ensures { Gives line_cause (λ x. x) result (keep_line kind words.now) }
{
    match words {
        [] => Err(LineFault::Kind(LineKind::Arity)),
        [word, rest @ ..] => {
            if opens(word.bytes()) {
                let side = name_side(alloc, words)?;
                Ok(control(kind, None, side))
            } else {
                let side = program_word(alloc, word.bytes(), rest.is_empty())?;
                keep_side(alloc, kind, side, rest)
            }
        }
    }
}

/// Whether a kind is one of the two keep forms.
fn is_keep(kind: ControlKind) -> bool
    ensures { result ≡ is_keep kind }
{
    matches!(kind, ControlKind::NoKeep | ControlKind::Keep)
}

/// The control of this kind that the words after its keyword write.
pub(crate) fn control_line(
    alloc: Global,
    kind: ControlKind,
    words: &[Text],
) -> Result<Control, LineFault>
    ensures { Gives line_cause (λ x. x) result (control_sides kind words.now) }
{
    if is_keep(kind) {
        keep_line(alloc, kind, words)
    } else {
        program_line(alloc, kind, words)
    }
}
