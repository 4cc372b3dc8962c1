//! By what an entry is found in an index.
ghost use Rattle.std.specs.Prelude.{◌≡◌, ◌++◌, IfOk, OnOk};
ghost use Rattle.std.specs.Option.{option_copied};
ghost use Rattle.tm_index.specs.Names.{pattern_of, first_pattern, literal_name, literal_of};
ghost use Rattle.tm_index.specs.Labels.{args_key, line_key, label_of};

use crate::stems::stem_of;
use std::alloc::Global;
use tm_entry::cond::print_cond;
use tm_entry::print_acl;
use tm_line::print_name;
use tm_list::{NoMemory, Seq};
use tm_types::entry::{Args, Entry, Perms};
use tm_types::unions::NameUnion;
use tm_word::{Pattern, Text, Word};

// Most keys have no more bytes than this.
const KEY_ROOM: usize = 32;

/// What an entry is found by: the literal that its first name argument is, its stem, and a text of
/// its arguments and its condition, which equal lines share.
#[derive(Drop)]
pub struct Label {
    pub(crate) name: Option<Word>,
    pub(crate) stem: Option<Text>,
    pub(crate) key: Text,
}

// The pattern of a name argument.
fn pattern_of(name: &NameUnion) -> Option<&Pattern>
    ensures { option_copied result ≡ pattern_of name.now }
{
    match name {
        NameUnion::One(pattern) => Some(pattern),
        NameUnion::Group(_) => None,
    }
}

/// The pattern of the first name argument of a line.
pub(crate) fn first_pattern(args: &Args) -> Option<&Pattern>
    ensures { option_copied result ≡ first_pattern args.now }
{
    match args {
        Args::Path(name) => pattern_of(name),
        Args::Execute(name, _) => pattern_of(name),
        Args::PathNumber(name, _) => pattern_of(name),
        Args::Device(name, _, _, _) => pattern_of(name),
        Args::Path2(name, _) => pattern_of(name),
        Args::Mount(name, _, _, _) => pattern_of(name.get()),
        Args::Inet(_, _, _) => None,
        Args::Unix(_, name) => pattern_of(name),
        Args::Env(pattern) => Some(pattern),
        Args::Manual(_) => None,
    }
}

// The name of a literal; None for any other pattern.
fn literal_name(alloc: Global, pattern: &Pattern) -> Result<Option<Word>, NoMemory>
    ensures { IfOk result (λ name. name ≡ literal_name pattern.now) }
{
    match pattern.name() {
        Ok(name) => Ok(Some(Word::from_bytes(alloc, name.bytes())?)),
        Err(_) => Ok(None),
    }
}

// The name that the first name argument is, where it is a literal.
#[tactic(auto, unfolding(crate::specs::Names::literal_of))]
fn literal_of(alloc: Global, args: &Args) -> Result<Option<Word>, NoMemory>
    ensures { IfOk result (λ name. name ≡ literal_of args.now) }
{
    match first_pattern(args) {
        Some(pattern) => literal_name(alloc, pattern),
        None => Ok(None),
    }
}

// Appends what equal arguments share: of a single path its spelling, of any other line its words
// with the first permission alone, whichever it has.
fn push_args_key(alloc: Global, args: &Args, out: &mut Vec<u8>) -> Result<(), NoMemory>
    ensures { OnOk result (out.new.items ≡ out.old.items ++ args_key args.now) }
{
    match args {
        Args::Path(name) => print_name(alloc, name, out),
        _ => print_acl(alloc, args, Perms { bits: 1 }, out),
    }
}

// What equal arguments share, and the words of the condition.
#[tactic(auto, unfolding(crate::specs::Labels::line_key))]
fn line_key(alloc: Global, entry: &Entry) -> Result<Text, NoMemory>
    ensures { IfOk result (λ key. key ≡ line_key entry.now) }
{
    let mut text = Vec::with_capacity(alloc, KEY_ROOM)?;
    push_args_key(alloc, &entry.args, &mut text)?;
    print_cond(alloc, &entry.cond, &mut text)?;
    Ok(Seq::from_vec(text))
}

/// What an entry is found by. Errors: want of memory.
#[tactic(auto, unfolding(crate::specs::Labels::label_of))]
pub fn label_of(alloc: Global, entry: &Entry) -> Result<Label, NoMemory>
    ensures { IfOk result (λ label. label ≡ label_of entry.now) }
{
    let name = literal_of(alloc, &entry.args)?;
    let stem = stem_of(alloc, &entry.args, name.is_some())?;
    let key = line_key(alloc, entry)?;
    Ok(Label { name, stem, key })
}
