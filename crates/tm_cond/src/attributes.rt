//! The attributes of a process and its request.
ghost use Rattle.std.specs.Prelude.{◌≡◌};
ghost use Rattle.std.specs.Option.{option_copied};
ghost use Rattle.tm_rules.specs.Prelude.{field_place, first_of_all, id_of, kind_place, number_of, stat_kind, stat_place, stat_value, word_of};
ghost use Rattle.tm_cond.specs.Parts.{value_in};

use tm_rules::is_execute;
use tm_types::entry::{Attr, FileKindWord, IdField, StatField, StatPlace};
use tm_types::request::{Proc, Request, Stat};
use tm_word::{Word, texts_equal};

// The id of a process that a condition names.
fn id_of(field: IdField, process: &Proc) -> u32
    ensures { result ≡ id_of field process.now }
{
    match field {
        IdField::Uid => process.ids.uid,
        IdField::Euid => process.ids.euid,
        IdField::Suid => process.ids.suid,
        IdField::Fsuid => process.ids.fsuid,
        IdField::Gid => process.ids.gid,
        IdField::Egid => process.ids.egid,
        IdField::Sgid => process.ids.sgid,
        IdField::Fsgid => process.ids.fsgid,
        IdField::Pid => process.pid,
        IdField::Ppid => process.ppid,
    }
}

fn stat_place(place: StatPlace) -> u8
    ensures { result ≡ stat_place place }
{
    place as u8
}

fn field_place(field: StatField) -> u8
    ensures { result ≡ field_place field }
{
    field as u8
}

// The place of a kind in the list of kinds.
pub(crate) fn kind_place(kind: FileKindWord) -> u8
    ensures { result ≡ kind_place kind }
{
    kind as u8
}

// The number that a stat has for this attribute.
fn stat_value(stat: Stat, place: StatPlace, field: StatField) -> Option<u64>
    ensures { result ≡ stat_value place field stat }
{
    match stat {
        Stat::Number(own, own_field, value) => {
            if stat_place(own) == stat_place(place)
                && field_place(own_field) == field_place(field)
            {
                Some(value)
            } else {
                None
            }
        }
        Stat::Kind(_, _) => None,
    }
}

// The file type that a stat has for this place.
fn stat_kind(stat: Stat, place: StatPlace) -> Option<FileKindWord>
    ensures { result ≡ stat_kind place stat }
{
    match stat {
        Stat::Number(_, _, _) => None,
        Stat::Kind(own, kind) => {
            if stat_place(own) == stat_place(place) {
                Some(kind)
            } else {
                None
            }
        }
    }
}

// The first recorded number for an attribute.
fn first_number(stats: &[Stat], place: StatPlace, field: StatField) -> Option<u64>
    ensures { result ≡ first_of_all (stat_value place field) stats.now }
{
    for stat in stats {
        if let Some(value) = stat_value(*stat, place, field) {
            return Some(value);
        }
    }
    None
}

/// The first recorded file type for a place.
pub fn first_kind(stats: &[Stat], place: StatPlace) -> Option<FileKindWord>
    ensures { result ≡ first_of_all (stat_kind place) stats.now }
{
    for stat in stats {
        if let Some(kind) = stat_kind(*stat, place) {
            return Some(kind);
        }
    }
    None
}

// The value of the first environment name that is this one.
fn value_of<'a>(environment: &'a [(Word, Word)], name: &Word) -> Option<&'a Word>
    ensures { option_copied result ≡ value_in environment.now name.now }
{
    for (own, value) in environment {
        if texts_equal(own, name) {
            return Some(value);
        }
    }
    None
}

/// The value of a numeric attribute, where the request has it: the ids of the process always, the
/// numbers of arguments and environment names for an execute, a file's numbers where they are
/// recorded.
#[tactic(auto, unfolding(tm_rules::specs::Condition::number_of))]
pub fn number_of(attr: &Attr, process: &Proc, request: &Request) -> Option<u64>
    ensures { result ≡ number_of attr.now process.now request.now }
{
    match attr {
        Attr::Task(field) => Some(u64::from(id_of(*field, process))),
        Attr::Argc => {
            if is_execute(request) {
                Some(request.argv().len() as u64)
            } else {
                None
            }
        }
        Attr::Envc => {
            if is_execute(request) {
                Some(request.envp().len() as u64)
            } else {
                None
            }
        }
        Attr::Stat(place, field) => first_number(request.stats(), *place, *field),
        Attr::Kind(_) | Attr::Argv(_) | Attr::Envp(_) | Attr::RealPath | Attr::Target => None,
    }
}

/// The word of a named attribute, where the request has it: real path, arguments and environment
/// for an execute alone.
#[tactic(auto, unfolding(tm_rules::specs::Condition::word_of))]
pub fn word_of<'a>(attr: &Attr, request: &'a Request) -> Option<&'a Word>
    ensures { option_copied result ≡ word_of attr.now request.now }
{
    let executes = is_execute(request);
    match attr {
        Attr::Argv(place) => {
            if executes {
                request.argv().get(*place as usize)
            } else {
                None
            }
        }
        Attr::Envp(name) => {
            if executes {
                value_of(request.envp(), name)
            } else {
                None
            }
        }
        Attr::RealPath => { if executes { request.real_path() } else { None } }
        Attr::Target => request.target(),
        Attr::Task(_) | Attr::Argc | Attr::Envc | Attr::Stat(_, _) | Attr::Kind(_) => None,
    }
}
