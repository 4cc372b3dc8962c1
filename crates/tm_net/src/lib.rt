//! The lines of network, environment and task: read, printed, matched with requests.
//! Stands on `tm_line` for arguments, on `tm_union`, `tm_pattern` and the rules of `tm_rules`.
//! Of its own, beside tm_file and tm_cond, so that a change of these doesn't prove it anew.
//! Promises the grammar with its first fault, one text that is read again, and each match.
#![tactic(auto)]

ghost use Rattle.std.specs.Prelude.{◌≡◌, Option, slice_get};
ghost use Rattle.std.specs.Option.{option_and_then};
ghost use Rattle.tm_rules.specs.Types.{Addr, Args, Groups, NameUnion, argument_words};
ghost use Rattle.tm_rules.specs.Prelude.{IsShort, addr_in, addr_value, args_grant, inet_place, name_in, number_in, number_value, unix_place};
ghost use Rattle.tm_word.specs.Prelude.{matches, texts_equal};
ghost use Rattle.tm_net.specs.Rows.{net_args_grant, env_grant};

mod lines;
mod printing;

pub use lines::{
    inet_kind, inet_permissions, net_acl_at, read_net_acl, round_trip, unix_kind, unix_permissions,
};
pub use printing::print_net_acl;
use tm_types::entry::{Args, InetKind, UnixKind};
use tm_types::number::Addr;
use tm_types::request::Request;
use tm_types::unions::{AddrUnion, DomainName, Groups, NamePlace, NameUnion, NumberUnion};
use tm_union::pattern::matches;
use tm_union::{addr_in, name_in, number_in};
use tm_word::{Pattern, texts_equal};

// The place in a name argument of the first name of the request.
fn name_at(groups: &Groups, union: &NameUnion, request: &Request) -> Option<NamePlace>
    requires { IsShort groups.now.paths }
    ensures { result ≡ option_and_then (name_in groups.now union.now)
        (slice_get (argument_words request.now.args) 0) }
{
    match request.name(0) {
        Some(name) => name_in(groups, union, name),
        None => None,
    }
}

// The number of a request.
fn number_value(union: &NumberUnion) -> u64
    ensures { result ≡ number_value union.now }
{
    match union {
        NumberUnion::One(range) => range.low.value,
        NumberUnion::Group(_) => 0,
    }
}

/// The address of a request, whose argument is a single address. Takes no memory.
pub fn addr_value(union: &AddrUnion) -> Addr
    ensures { result ≡ addr_value union.now }
{
    match union {
        AddrUnion::One(range) => range.low,
        AddrUnion::Group(_) => Addr::V4(0),
    }
}

fn inet_place(kind: InetKind) -> u8
    ensures { result ≡ inet_place kind }
{
    kind as u8
}

fn unix_place(kind: UnixKind) -> u8
    ensures { result ≡ unix_place kind }
{
    kind as u8
}

// The rows of internet sockets.
#[tactic(auto, unfolding(tm_rules::specs::Search::args_grant))]
fn inet_row(
    kind: InetKind,
    addr: &AddrUnion,
    port: &NumberUnion,
    groups: &Groups,
    request: &Request,
) -> Option<NamePlace>
    ensures { result ≡ args_grant groups.now (Args.Inet kind addr.now port.now) request.now.args }
{
    match request.args() {
        Args::Inet(asked, asked_addr, asked_port) => {
            if inet_place(kind) == inet_place(*asked)
                && addr_in(groups, addr, &addr_value(asked_addr.get()))
                && number_in(groups, port, number_value(asked_port))
            {
                Some(NamePlace::Own)
            } else {
                None
            }
        }
        _ => None,
    }
}

// The rows of local sockets.
#[tactic(auto, unfolding(tm_rules::specs::Search::args_grant))]
fn unix_row(
    kind: UnixKind,
    name: &NameUnion,
    groups: &Groups,
    request: &Request,
) -> Option<NamePlace>
    requires { IsShort groups.now.paths }
    ensures { result ≡ args_grant groups.now (Args.Unix kind name.now) request.now.args }
{
    match request.args() {
        Args::Unix(asked, _) => {
            if unix_place(kind) == unix_place(*asked) {
                name_at(groups, name, request)
            } else {
                None
            }
        }
        _ => None,
    }
}

// Whether the pattern matches the first name of the request.
fn is_matched(pattern: &Pattern, request: &Request) -> Option<NamePlace>
    ensures { result ≡ env_grant pattern.now (slice_get (argument_words request.now.args) 0) }
{
    match request.name(0) {
        Some(name) => {
            if matches(pattern, name) {
                Some(NamePlace::Own)
            } else {
                None
            }
        }
        None => None,
    }
}

// The row of environment names.
#[tactic(auto, unfolding(tm_rules::specs::Search::args_grant))]
fn env_row(pattern: &Pattern, request: &Request) -> Option<NamePlace>
    ensures { (groups : Groups) → result
        ≡ args_grant groups (Args.Env pattern.now) request.now.args }
{
    match request.args() {
        Args::Env(_) => is_matched(pattern, request),
        _ => None,
    }
}

// The row of manual domain transitions, whose domains are compared by bytes.
#[tactic(auto, unfolding(tm_rules::specs::Search::args_grant))]
fn manual_row(domain: &DomainName, request: &Request) -> Option<NamePlace>
    ensures { (groups : Groups) → result
        ≡ args_grant groups (Args.Manual domain.now) request.now.args }
{
    match request.args() {
        Args::Manual(asked) => {
            if texts_equal(domain, asked) {
                Some(NamePlace::Own)
            } else {
                None
            }
        }
        _ => None,
    }
}

/// Where the first name of a request is found in the arguments of a `network`, `misc` or `task`
/// line (`Own` where the row has no name argument); None exactly where some argument of the request
/// is not in the line's, or where the line is another one.
/// Environment names are matched by the line's pattern, the domain of a manual transition is
/// compared by bytes. Takes no memory.
pub fn net_args_match(args: &Args, groups: &Groups, request: &Request) -> Option<NamePlace>
    requires { IsShort groups.now.paths }
    ensures { result ≡ net_args_grant groups.now args.now request.now.args }
{
    match args {
        Args::Inet(kind, addr, port) => inet_row(*kind, addr.get(), port, groups, request),
        Args::Unix(kind, name) => unix_row(*kind, name, groups, request),
        Args::Env(pattern) => env_row(pattern, request),
        Args::Manual(domain) => manual_row(domain, request),
        _ => None,
    }
}
