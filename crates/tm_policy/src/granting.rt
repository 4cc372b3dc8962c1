//! What is asked of the entries of a domain, and whether an entry grants it.
ghost use Rattle.std.specs.Prelude.{◌≡◌, ◌&&◌, true, Some, IsSome, slice_get};
ghost use Rattle.std.specs.Option.{option_copied};
ghost use Rattle.tm_rules.specs.Types.{argument_words};
ghost use Rattle.tm_rules.specs.Prelude.{IsShort, args_grant, grants, has_permission, holds, is_execute};
ghost use Rattle.tm_policy.specs.Searching.{asked_as, asked_request, granted_by, place_in};

use std::marker::Model;
use tm_change_domains::has_permission;
use tm_rep::cond::holds;
use tm_rep::file::{file_args_match, path_args_match};
use tm_rep::net::net_args_match;
use tm_types::entry::{Args, Entry};
use tm_types::request::{Proc, Request};
use tm_types::unions::{Groups, NamePlace};
use tm_types::verdict::EntryPlace;
use tm_word::Word;

/// What is asked of the entries of a domain: the request of a process, under the groups of its
/// namespace. An execute is asked for by another name in place of its path, where one is given.
/// Contracts see the record of these.
#[derive(Drop)]
pub struct Asked<'a> {
    groups: &'a Groups,
    process: &'a Proc,
    request: &'a Request,
    path: Option<&'a Word>,
}

impl<'a> Model for Asked<'a> {
    ghost use Rattle.std.specs.Prelude.{◌≡◌, true, IsSome};
    ghost use Rattle.std.specs.Option.{option_copied};
    ghost use Rattle.tm_rules.specs.Prelude.{IsShort, is_execute};
    ghost use Rattle.tm_policy.specs.Searching.{Asked};

    ghost Value = { Asked };

    ghost view = { λ a. record {
      groups = a.groups.now;
      process = a.process.now;
      request = a.request.now;
      path = option_copied a.path;
    } };

    ghost invariant = { λ a. IsShort a.groups.now.paths
        × (IsSome (option_copied a.path) → is_execute a.request.now ≡ true) };
}

// Where the first name of the request is found in the arguments of a line.
fn args_match(args: &Args, groups: &Groups, request: &Request) -> Option<NamePlace>
    requires { IsShort groups.now.paths }
    ensures { result ≡ args_grant groups.now args.now request.now.args }
{
    match args {
        Args::Path(_)
        | Args::Execute(_, _)
        | Args::PathNumber(_, _)
        | Args::Device(_, _, _, _)
        | Args::Path2(_, _)
        | Args::Mount(_, _, _, _) => file_args_match(args, groups, request),
        _ => net_args_match(args, groups, request),
    }
}

// Whether an entry has the request's permission and its conditions hold.
fn allows(groups: &Groups, process: &Proc, request: &Request, entry: &Entry) -> bool
    requires { IsShort groups.now.paths }
    ensures { result ≡ (has_permission entry.now.perms.bits request.now.perm
        && holds entry.now.cond groups.now process.now request.now) }
{
    has_permission(entry.perms.bits, request.perm()) && holds(&entry.cond, groups, process, request)
}

// Whether an entry grants a request as it is.
#[tactic(auto, unfolding(tm_rules::specs::Search::grants))]
fn grants_plainly(
    groups: &Groups,
    process: &Proc,
    request: &Request,
    entry: &Entry,
) -> Option<NamePlace>
    requires { IsShort groups.now.paths }
    ensures { result ≡ grants groups.now process.now request.now entry.now }
{
    if allows(groups, process, request, entry) {
        args_match(&entry.args, groups, request)
    } else {
        None
    }
}

// Whether an entry grants an execute with another name in place of its path.
#[tactic(auto, using(crate::proofs::Executes::grants_as_path))]
fn grants_as(
    groups: &Groups,
    process: &Proc,
    request: &Request,
    path: &Word,
    entry: &Entry,
) -> Option<NamePlace>
    requires few { IsShort groups.now.paths }
    requires execute { is_execute request.now ≡ true }
    ensures { result
        ≡ grants groups.now process.now (asked_as request.now (Some path.now)) entry.now }
{
    if allows(groups, process, request, entry) {
        path_args_match(&entry.args, groups, path)
    } else {
        None
    }
}

impl<'a> Asked<'a> {
    /// The request of a process under these groups, of which an execute is asked for by this name
    /// in place of its path.
    pub fn new(
        groups: &'a Groups,
        process: &'a Proc,
        request: &'a Request,
        path: Option<&'a Word>,
    ) -> Asked<'a>
        requires few { IsShort groups.now.paths }
        requires execute { IsSome (option_copied path) → is_execute request.now ≡ true }
        ensures { result ≡ record {
          groups = groups.now;
          process = process.now;
          request = request.now;
          path = option_copied path.entry;
        } }
    {
        Asked {
            groups,
            process,
            request,
            path,
        }
    }

    /// Lends the request, in which the path of an execute is its own. Takes no memory.
    pub fn request(&self) -> &Request
        ensures { result.now ≡ self.now.request }
    {
        self.request
    }

    /// The first name that is asked for. Takes no memory.
    pub fn name(&self) -> Option<&Word>
        ensures { option_copied result
            ≡ slice_get (argument_words (asked_request self.now).args) 0 }
    {
        match self.path {
            Some(path) => Some(path),
            None => self.request.name(0),
        }
    }

    /// Whether an entry grants what is asked: where its first name is found in the arguments of the
    /// entry, None where it doesn't grant. Takes no memory.
    pub fn granted_by(&self, entry: &Entry) -> Option<NamePlace>
        ensures { result ≡ granted_by self.now entry.now }
    {
        match self.path {
            Some(path) => grants_as(self.groups, self.process, self.request, path, entry),
            None => grants_plainly(self.groups, self.process, self.request, entry),
        }
    }
}

/// The place of an entry in the list of an ACL group, or in a domain's own list for None. Takes no
/// memory.
pub fn place_in(group: Option<u8>, place: u32) -> EntryPlace
    ensures { result ≡ place_in group place }
{
    match group {
        Some(group) => EntryPlace::Acl(group, place),
        None => EntryPlace::Own(place),
    }
}
