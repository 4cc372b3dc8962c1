//! Reading the attributes of a request: words `NAME=VALUE` in any order.
ghost use Rattle.std.specs.Prelude.{◌≡◌, ◌==◌};
ghost use Rattle.std.specs.List.{position};
ghost use Rattle.tm_word.specs.Prelude.{Gives, GivesNow};
ghost use Rattle.tm_line.specs.Lines.{line_cause};
ghost use Rattle.tm_rules.specs.Types.{no_attributes};
ghost use Rattle.tm_trace.specs.Attributes.{executes, links, quoted_word, value_word, has_name, with_argument, with_real_path, with_name, with_target, with_stat, with_attribute, with_sides, with_word, is_complete, attributes_from};

use crate::stat::{has_stat, may_have, put_stat};
use std::alloc::Global;
use tm_entry::cond::{attr_word, kind_word, quoted};
use tm_list::Seq;
use tm_number::read_number;
use tm_types::entry::{Args, Attr, LineKind};
use tm_types::request::{Attributes, Stat};
use tm_types::step::LineFault;
use tm_word::{Text, Word, bytes_equal, place_of, spelled_word, texts_equal};

// A wrong attribute.
fn wrong() -> LineFault
    ensures { result ≡ LineFault.Kind LineKind.Condition }
{
    LineFault::Kind(LineKind::Condition)
}

// Whether a request is an execute.
fn executes(args: &Args, perm: u8) -> bool
    ensures { result ≡ executes args.now perm }
{
    match args {
        Args::Path(_) => perm == 0,
        _ => false,
    }
}

// Whether it is for a symlink.
fn links(args: &Args, perm: u8) -> bool
    ensures { result ≡ links args.now perm }
{
    match args {
        Args::Path(_) => perm == 8,
        _ => false,
    }
}

// A spelled word in double quotes, possibly empty.
#[tactic(auto, unfolding(crate::specs::Attributes::quoted_word))]
fn quoted_word(alloc: Global, text: &[u8]) -> Result<Word, LineFault>
    ensures { Gives line_cause (λ word. word) result (quoted_word text.now) }
{
    let inner = quoted(text)?;
    match spelled_word(alloc, inner)? {
        Some(word) => Ok(word),
        None => Err(wrong()),
    }
}

#[tactic(auto, unfolding(crate::specs::Attributes::value_word))]
fn value_word(text: &[u8]) -> Result<u64, LineFault>
    ensures { GivesNow line_cause (λ value. value) result (value_word text.now) }
{
    match read_number(text) {
        Ok(number) => Ok(number.value),
        Err(_) => Err(wrong()),
    }
}

/// Whether an environment has this name. Takes no memory.
pub fn has_name(name: &Word, envp: &[(Word, Word)]) -> bool
    ensures { result ≡ has_name name.now envp.now }
{
    for (other, _) in envp {
        if texts_equal(other, name) {
            return true;
        }
    }
    false
}

// One argument more of an execute.
#[tactic(auto, unfolding(crate::specs::Attributes::with_argument))]
fn with_argument(
    alloc: Global,
    args: &Args,
    perm: u8,
    at: &mut Attributes,
    text: &[u8],
) -> Result<(), LineFault>
    ensures { Gives line_cause (λ _. at.new) result (with_argument args.now perm at.old text.now) }
{
    if !executes(args, perm) {
        return Err(wrong());
    }
    let word = quoted_word(alloc, text)?;
    at.argv.push(word)?;
    Ok(())
}

// The real path of an execute, once.
#[tactic(auto, unfolding(crate::specs::Attributes::with_real_path))]
fn with_real_path(
    alloc: Global,
    args: &Args,
    perm: u8,
    at: &mut Attributes,
    text: &[u8],
) -> Result<(), LineFault>
    ensures { Gives line_cause (λ _. at.new) result (with_real_path args.now perm at.old text.now) }
{
    if !executes(args, perm) || at.real_path.is_some() {
        return Err(wrong());
    }
    at.real_path = Some(quoted_word(alloc, text)?);
    Ok(())
}

// A name of its environment, once.
#[tactic(auto, unfolding(crate::specs::Attributes::with_name))]
fn with_name(
    alloc: Global,
    args: &Args,
    perm: u8,
    at: &mut Attributes,
    name: Word,
    text: &[u8],
) -> Result<(), LineFault>
    ensures { Gives line_cause (λ _. at.new) result (with_name args.now perm at.old name text.now) }
{
    if !executes(args, perm) || has_name(&name, at.envp.as_slice()) {
        return Err(wrong());
    }
    let word = quoted_word(alloc, text)?;
    at.envp.push((name, word))?;
    Ok(())
}

// The target of a symlink, once.
#[tactic(auto, unfolding(crate::specs::Attributes::with_target))]
fn with_target(
    alloc: Global,
    args: &Args,
    perm: u8,
    at: &mut Attributes,
    text: &[u8],
) -> Result<(), LineFault>
    ensures { Gives line_cause (λ _. at.new) result (with_target args.now perm at.old text.now) }
{
    if !links(args, perm) || at.target.is_some() {
        return Err(wrong());
    }
    at.target = Some(quoted_word(alloc, text)?);
    Ok(())
}

// An attribute of a file that the request names, once.
#[tactic(auto, unfolding(crate::specs::Attributes::with_stat))]
fn with_stat(alloc: Global, args: &Args, at: &mut Attributes, stat: Stat) -> Result<(), LineFault>
    ensures { Gives line_cause (λ _. at.new) result (with_stat args.now at.old stat) }
{
    if !may_have(args, stat) || has_stat(stat, at.stats.as_slice()) {
        return Err(wrong());
    }
    at.stats = put_stat(alloc, stat, at.stats.as_slice())?;
    Ok(())
}

// An attribute with its value; those of the process and of counts are none of a request.
#[tactic(auto, unfolding(crate::specs::Attributes::with_attribute))]
fn with_attribute(
    alloc: Global,
    args: &Args,
    perm: u8,
    at: &mut Attributes,
    attr: Attr,
    text: &[u8],
) -> Result<(), LineFault>
    ensures { Gives line_cause (λ _. at.new) result
        (with_attribute args.now perm at.old attr text.now) }
{
    match attr {
        Attr::RealPath => with_real_path(alloc, args, perm, at, text),
        Attr::Envp(name) => with_name(alloc, args, perm, at, name, text),
        Attr::Target => with_target(alloc, args, perm, at, text),
        Attr::Stat(place, field) => {
            let value = value_word(text)?;
            with_stat(alloc, args, at, Stat::Number(place, field, value))
        }
        Attr::Kind(place) => match kind_word(text) {
            Some(kind) => with_stat(alloc, args, at, Stat::Kind(place, kind)),
            None => Err(wrong()),
        },
        Attr::Task(_) | Attr::Argc | Attr::Envc | Attr::Argv(_) => Err(wrong()),
    }
}

// The name and the value of an attribute; arguments are written without a number.
#[tactic(auto, unfolding(crate::specs::Attributes::with_sides))]
fn with_sides(
    alloc: Global,
    args: &Args,
    perm: u8,
    at: &mut Attributes,
    left: &[u8],
    text: &[u8],
) -> Result<(), LineFault>
    ensures { Gives line_cause (λ _. at.new) result
        (with_sides args.now perm at.old left.now text.now) }
{
    if bytes_equal(left, b"exec.argv") {
        return with_argument(alloc, args, perm, at, text);
    }
    let attr = attr_word(alloc, left)?;
    with_attribute(alloc, args, perm, at, attr, text)
}

// One word more, which is cut at its first `=`.
#[tactic(auto, unfolding(crate::specs::Attributes::with_word))]
fn with_word(
    alloc: Global,
    args: &Args,
    perm: u8,
    at: &mut Attributes,
    word: &[u8],
) -> Result<(), LineFault>
    ensures { Gives line_cause (λ _. at.new) result (with_word args.now perm at.old word.now) }
{
    match place_of(b'=', word) {
        Some(place) => with_sides(alloc, args, perm, at, &word[..place], &word[place + 1..]),
        None => Err(wrong()),
    }
}

// An execute has its real path and an argument at least, a symlink its target.
fn is_complete(args: &Args, perm: u8, at: &Attributes) -> bool
    ensures { result ≡ is_complete args.now perm at.now }
{
    if executes(args, perm) && !(at.real_path.is_some() && !at.argv.is_empty()) {
        return false;
    }
    if links(args, perm) && at.target.is_none() {
        return false;
    }
    true
}

/// Reads all these words as the attributes of a request with these arguments and the permission at
/// this place.
///
/// Errors: `Condition` at the first word that is no attribute of it or stands once too often, or
/// else where one is missing.
#[tactic(auto, unfolding(crate::specs::Attributes::attributes_from))]
pub(crate) fn read_attributes(
    alloc: Global,
    args: &Args,
    perm: u8,
    words: &[Text],
) -> Result<Attributes, LineFault>
    ensures { Gives line_cause (λ at. at) result
        (attributes_from args.now perm no_attributes words.now) }
{
    let mut at = Attributes::none(alloc);
    for word in words {
        with_word(alloc, args, perm, &mut at, word.bytes())?;
    }
    if is_complete(args, perm, &at) {
        Ok(at)
    } else {
        Err(wrong())
    }
}
