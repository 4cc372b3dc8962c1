//! What a search tells of the entry that grants, and the candidate of an execute.
ghost use Rattle.std.specs.Prelude.{◌≡◌, true, IfOk};
ghost use Rattle.std.specs.Option.{option_copied};
ghost use Rattle.tm_word.specs.Prelude.{spell, spelled_pattern};
ghost use Rattle.tm_rules.specs.Prelude.{candidate, found_of, is_execute, preference, union_name, written_name};
ghost use Rattle.tm_verdict.specs.Leading.{granting_at};

use std::alloc::Global;
use std::marker::Model;
use tm_list::{NoMemory, Seq};
use tm_pattern::print_pattern;
use tm_rep::change_domains::entry_at;
use tm_rep::executed_name;
use tm_types::entry::{Args, Entry, Prefer};
use tm_types::policy::{Domain, Namespace};
use tm_types::request::Request;
use tm_types::unions::{Groups, NamePlace, NameUnion};
use tm_types::verdict::{EntryPlace, Found};
use tm_word::{Pattern, Text, Word, write_word};

// An entry that grants, with its place and the place of the name that matched.
#[derive(Drop)]
pub(crate) struct Granting<'a> {
    place: EntryPlace,
    entry: &'a Entry,
    name: NamePlace,
}

impl<'a> Model for Granting<'a> {
    ghost use Rattle.tm_rules.specs.Prelude.{Granting};

    ghost Value = { Granting };

    ghost view = { λ g. record { place = g.place; entry = g.entry.now; name = g.name } };
}

impl<'a> Granting<'a> {
    // What a search tells of it.
    pub(crate) fn found(&self) -> Found
        ensures { result ≡ found_of self.now }
    {
        Found {
            place: self.place,
            name: self.name,
        }
    }

    // Where an execute that it grants leads, in place of the controls.
    pub(crate) fn preference(&self) -> Option<&Prefer>
        ensures { option_copied result ≡ preference self.now }
    {
        match &self.entry.args {
            Args::Execute(_, prefer) => Some(prefer),
            _ => None,
        }
    }
}

// What the verdict on a request goes by: whether a supervisor is attached, the domain that asks,
// its namespace, and the entry that grants the request.
#[derive(Drop)]
pub(crate) struct Access<'a> {
    pub attached: bool,
    pub namespace: &'a Namespace,
    pub domain: &'a Domain,
    pub found: Option<Granting<'a>>,
    pub request: &'a Request,
}

// The entry that a search found, by its place.
pub(crate) fn found_entry<'a>(
    namespace: &'a Namespace,
    domain: &'a Domain,
    found: Option<Found>,
) -> Option<Granting<'a>>
    ensures { result ≡ granting_at namespace.now domain.now found }
{
    let found = found?;
    let entry = entry_at(namespace, domain, found.place)?;
    Some(Granting {
        place: found.place,
        entry,
        name: found.name,
    })
}

// A pattern as it is written.
fn pattern_text(alloc: Global, pattern: &Pattern) -> Result<Text, NoMemory>
    ensures { IfOk result (λ text. text ≡ spelled_pattern pattern.now) }
{
    let mut text = Vec::new(alloc);
    print_pattern(alloc, pattern, &mut text)?;
    Ok(Seq::from_vec(text))
}

// A word as it is written.
fn word_text(alloc: Global, word: &Word) -> Result<Text, NoMemory>
    ensures { IfOk result (λ text. text ≡ spell word.now) }
{
    let mut text = Vec::new(alloc);
    write_word(alloc, word, &mut text)?;
    Ok(Seq::from_vec(text))
}

// The pattern of a name argument that matched: its own, or that of the group's member.
fn union_text(
    alloc: Global,
    groups: &Groups,
    union: &NameUnion,
    place: NamePlace,
) -> Result<Text, NoMemory>
    ensures { IfOk result (λ text. text ≡ union_name groups.now union.now place) }
{
    match union {
        NameUnion::One(pattern) => pattern_text(alloc, pattern),
        NameUnion::Group(_) => match place {
            NamePlace::Own => Ok(Seq::new(alloc)),
            NamePlace::Member(member) => match groups.paths.get(member as usize) {
                Some((_, pattern)) => pattern_text(alloc, pattern),
                None => Ok(Seq::new(alloc)),
            },
        },
    }
}

// The written name of an entry that grants an execute, patterns kept.
#[tactic(auto, unfolding(tm_rules::specs::Search::written_name))]
fn written_name(alloc: Global, groups: &Groups, found: &Granting<'_>) -> Result<Text, NoMemory>
    ensures { IfOk result (λ text. text ≡ written_name groups.now found.now) }
{
    match &found.entry.args {
        Args::Path(union) => union_text(alloc, groups, union, found.name),
        Args::Execute(union, _) => union_text(alloc, groups, union, found.name),
        _ => Ok(Seq::new(alloc)),
    }
}

// The candidate of an execute: the written name of the entry that grants it, else its spelled
// aggregated name.
#[tactic(auto, unfolding(tm_rules::specs::Transition::candidate))]
pub(crate) fn candidate(alloc: Global, access: &Access<'_>) -> Result<Text, NoMemory>
    requires { is_execute access.now.request.now ≡ true }
    ensures { IfOk result
        (λ text. text
        ≡ candidate access.now.namespace.now access.now.found access.now.request.now) }
{
    match &access.found {
        None => word_text(alloc, executed_name(access.namespace, access.request)),
        Some(found) => written_name(alloc, &access.namespace.groups, found),
    }
}
