//! What is learned of a request, its line, and how many permissions a domain has.
//! Stands on tm_rules, whose definitions it computes, and on tm_pattern for literal patterns.
//! Of its own, below changes of entries, the index and verdicts, which take its lines and counts.
//! Promises that the line is the defined one and grants its request, and that none is missed.
#![tactic(auto)]

ghost use Rattle.std.specs.Prelude.{◌≡◌, ◌<◌, ◌≤◌, ◌++◌, Bool, true, IsSome, IfOk, OnOk, slice_get, sum_by};
ghost use Rattle.std.specs.Option.{option_copied};
ghost use Rattle.tm_word.specs.Prelude.{Text, literal};
ghost use Rattle.tm_rules.specs.Types.{Attr, Groups, Namespace, Proc, Request};
ghost use Rattle.tm_rules.specs.Prelude.{IsShort, count, grants, is_request, is_task, is_word, learned_line, line_of, permission, searched};
ghost use Rattle.tm_learn.specs.Counting.{permissions_of};
ghost use Rattle.tm_learn.specs.Parts.{execute_clauses, target_clauses, learned_clauses, learned_args};

use std::alloc::Global;
use tm_list::{Copied, NoMemory, Seq};
use tm_pattern::literal;
use tm_rules::is_execute;
use tm_types::entry::{Args, Attr, Clause, Cond, Entry, Perms, Right};
use tm_types::policy::Domain;
use tm_types::request::Request;
use tm_types::unions::NameUnion;
use tm_word::Word;

/// The permission at a place of its row.
fn permission(place: u8) -> Perms
    requires { place < 16 }
    ensures { result.bits ≡ permission place }
{
    Perms { bits: 1 << place }
}

/// Appends the condition that an attribute is this very word, where the request has one.
fn push_word(
    alloc: Global,
    attr: Attr,
    word: Option<&Word>,
    clauses: &mut Seq<Clause>,
) -> Result<(), NoMemory>
    ensures { OnOk result (clauses.new ≡ clauses.old ++ is_word attr (option_copied word.entry)) }
{
    match word {
        Some(word) => clauses.push(Clause {
            left: attr,
            equal: true,
            right: Right::Name(NameUnion::One(literal(alloc, word)?)),
        }),
        None => Ok(()),
    }
}

/// The conditions of an execute: its real path and its first argument.
fn execute_clauses(alloc: Global, request: &Request) -> Result<Seq<Clause>, NoMemory>
    ensures { IfOk result (λ clauses. clauses ≡ execute_clauses request.now.attributes) }
{
    let mut clauses = Seq::new(alloc);
    push_word(alloc, Attr::RealPath, request.real_path(), &mut clauses)?;
    push_word(alloc, Attr::Argv(0), request.argv().first(), &mut clauses)?;
    Ok(clauses)
}

/// The condition of every other request: the target of a symlink.
fn target_clauses(alloc: Global, request: &Request) -> Result<Seq<Clause>, NoMemory>
    ensures { IfOk result (λ clauses. clauses ≡ target_clauses request.now.attributes) }
{
    let mut clauses = Seq::new(alloc);
    push_word(alloc, Attr::Target, request.target(), &mut clauses)?;
    Ok(clauses)
}

/// The conditions of the line that is learned for a request.
fn learned_clauses(alloc: Global, request: &Request) -> Result<Seq<Clause>, NoMemory>
    ensures { IfOk result (λ clauses. clauses ≡ learned_clauses request.now) }
{
    if is_execute(request) {
        execute_clauses(alloc, request)
    } else {
        target_clauses(alloc, request)
    }
}

/// The arguments of the line that is learned for a request: its own, with this name for the path of
/// an execute.
fn learned_args(alloc: Global, request: &Request, name: &Word) -> Result<Args, NoMemory>
    ensures { IfOk result (λ args. args ≡ learned_args request.now name.now) }
{
    if is_execute(request) {
        let pattern = literal(alloc, name)?;
        Ok(Args::Path(NameUnion::One(pattern)))
    } else {
        request.args().copy(alloc)
    }
}

/// The line that is learned for a request: its own literal values and its permission, without
/// `grant_log`. `name` stands for the path of an execute, whose real path and first argument become
/// conditions; so does a symlink's target.
#[tactic(auto, using(crate::proofs::Parts::line_of_parts))]
pub fn learned_line(alloc: Global, request: &Request, name: &Word) -> Result<Entry, NoMemory>
    requires { request.now.perm < 16 }
    ensures { IfOk result (λ entry. entry ≡ learned_line request.now name.now) }
{
    let perms = permission(request.perm());
    let clauses = learned_clauses(alloc, request)?;
    let cond = Cond {
        clauses,
        grant_log: None,
    };
    match learned_args(alloc, request, name) {
        Ok(args) => Ok(Entry { args, perms, cond }),
        Err(fault) => Err(fault),
    }
}

/// The line that is learned for a request grants it, whatever the groups and the process: a line
/// without one of its values, or with a condition that the request doesn't meet, would be no such
/// line.
pub fn own_request()
    ensures { (is_path : Text → Bool) (groups : Groups) (process : Proc) (ns : Namespace)
        (request : Request) →
        is_request is_path request ≡ true →
        IsSome (grants groups process (searched ns request) (line_of ns request)) }
{}

/// Whether the line of these arguments is a `task` line.
fn is_task(args: &Args) -> bool
    ensures { result ≡ is_task args.now }
{
    match args {
        Args::Manual(_) => true,
        _ => false,
    }
}

/// How many permissions an entry has that count for `max_learning_entry`; those of a `task` line
/// don't. Takes no memory.
pub fn permissions_of(entry: &Entry) -> u64
    ensures exact { result ≡ permissions_of entry.now }
    ensures few { result ≤ 65535 }
{
    if is_task(&entry.args) {
        0
    } else {
        u64::from(entry.perms.bits.count_ones())
    }
}

/// How many permissions the own entries of a domain have, which `max_learning_entry` bounds; those
/// of `task` lines don't count. Takes no memory.
#[tactic(auto, unfolding(tm_rules::specs::Changes::count))]
pub fn count(domain: &Domain) -> u64
    requires { IsShort domain.now.entries }
    ensures { result ≡ count domain.now }
{
    let mut permissions: u64 = 0;
    for entry in domain.entries.as_slice() {
        permissions += permissions_of(entry);
    }
    permissions
}
