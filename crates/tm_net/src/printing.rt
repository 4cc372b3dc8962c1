//! Printing the lines of network, environment and task.
ghost use Rattle.std.specs.Prelude.{◌≡◌, ◌++◌, ◌∷◌, codes, IfOk, OnOk, OnErr};
ghost use Rattle.tm_word.specs.Prelude.{joined};
ghost use Rattle.tm_rules.specs.Types.{Args};
ghost use Rattle.tm_line.specs.Permissions.{perms_spelling};
ghost use Rattle.tm_line.specs.Printing.{number_spelling};
ghost use Rattle.tm_net.specs.NetLines.{inet_permissions, unix_permissions, inet_word, unix_word, net_words};

use crate::lines::{INETS, UNIXES, inet_permissions, unix_permissions};
use std::alloc::Global;
use tm_line::{Row, print_address, print_domain, print_name, print_number, print_perms};
use tm_list::NoMemory;
use tm_types::entry::{Args, InetKind, Perms, UnixKind};
use tm_types::unions::{AddrUnion, DomainName, NameUnion, NumberUnion};
use tm_union::pattern::print_pattern;
use tm_word::Pattern;

fn inet_word(kind: InetKind) -> &'static [u8]
    ensures { result.now ≡ inet_word kind }
{
    INETS[kind as usize].0.as_bytes()
}

fn unix_word(kind: UnixKind) -> &'static [u8]
    ensures { result.now ≡ unix_word kind }
{
    UNIXES[kind as usize].0.as_bytes()
}

// Appends a space and permissions.
fn push_perms(alloc: Global, row: Row, bits: u16, out: &mut Vec<u8>) -> Result<(), NoMemory>
    ensures { OnOk result (out.new.items ≡ out.old.items ++ 32 ∷ perms_spelling row bits) }
{
    out.push(b' ')?;
    print_perms(alloc, row, bits, out)
}

// Appends a space and a number.
fn push_number(alloc: Global, number: &NumberUnion, out: &mut Vec<u8>) -> Result<(), NoMemory>
    ensures { OnOk result (out.new.items ≡ out.old.items ++ 32 ∷ number_spelling number.now) }
{
    out.push(b' ')?;
    print_number(alloc, number, out)
}

#[tactic(auto, unfolding(crate::specs::NetLines::net_words))]
fn inet_text(
    alloc: Global,
    kind: InetKind,
    address: &AddrUnion,
    port: &NumberUnion,
    bits: u16,
) -> Result<Vec<u8>, NoMemory>
    ensures { IfOk result
        (λ text. text.items ≡ joined (net_words (Args.Inet kind address.now port.now) bits)) }
{
    let mut text = Vec::from_slice(alloc, b"network inet ")?;
    text.extend_from_slice(inet_word(kind))?;
    push_perms(alloc, inet_permissions(kind), bits, &mut text)?;
    text.push(b' ')?;
    print_address(alloc, address, &mut text)?;
    push_number(alloc, port, &mut text)?;
    Ok(text)
}

#[tactic(auto, unfolding(crate::specs::NetLines::net_words))]
fn unix_text(
    alloc: Global,
    kind: UnixKind,
    name: &NameUnion,
    bits: u16,
) -> Result<Vec<u8>, NoMemory>
    ensures { IfOk result (λ text. text.items ≡ joined (net_words (Args.Unix kind name.now) bits)) }
{
    let mut text = Vec::from_slice(alloc, b"network unix ")?;
    text.extend_from_slice(unix_word(kind))?;
    push_perms(alloc, unix_permissions(kind), bits, &mut text)?;
    text.push(b' ')?;
    print_name(alloc, name, &mut text)?;
    Ok(text)
}

#[tactic(auto, unfolding(crate::specs::NetLines::net_words))]
fn env_text(alloc: Global, name: &Pattern, bits: u16) -> Result<Vec<u8>, NoMemory>
    ensures { IfOk result (λ text. text.items ≡ joined (net_words (Args.Env name.now) bits)) }
{
    let mut text = Vec::from_slice(alloc, b"misc env ")?;
    print_pattern(alloc, name, &mut text)?;
    Ok(text)
}

#[tactic(auto, unfolding(crate::specs::NetLines::net_words))]
fn manual_text(alloc: Global, domain: &DomainName, bits: u16) -> Result<Vec<u8>, NoMemory>
    ensures { IfOk result (λ text. text.items ≡ joined (net_words (Args.Manual domain.now) bits)) }
{
    let mut text = Vec::from_slice(alloc, b"task manual_domain_transition")?;
    print_domain(alloc, domain, &mut text)?;
    Ok(text)
}

// The words of a line, joined.
#[tactic(auto, unfolding(crate::specs::NetLines::net_words))]
fn text_of(alloc: Global, args: &Args, bits: u16) -> Result<Vec<u8>, NoMemory>
    ensures { IfOk result (λ text. text.items ≡ joined (net_words args.now bits)) }
{
    match args {
        Args::Inet(kind, address, port) => inet_text(alloc, *kind, address.get(), port, bits),
        Args::Unix(kind, name) => unix_text(alloc, *kind, name, bits),
        Args::Env(name) => env_text(alloc, name, bits),
        Args::Manual(domain) => manual_text(alloc, domain, bits),
        Args::Path(_)
        | Args::Execute(_, _)
        | Args::PathNumber(_, _)
        | Args::Device(_, _, _, _)
        | Args::Path2(_, _)
        | Args::Mount(_, _, _, _) => Ok(Vec::new(alloc)),
    }
}

/// Appends the printed words of a `network`, `misc` or `task` line, joined by single spaces:
/// permissions in the row's order, numbers in the base that they were written in. Nothing is
/// appended for the arguments of a file line. After want of memory `out` is as before.
pub fn print_net_acl(
    alloc: Global,
    args: &Args,
    perms: Perms,
    out: &mut Vec<u8>,
) -> Result<(), NoMemory>
    ensures ok { OnOk result
        (out.new.items ≡ out.old.items ++ joined (net_words args.now perms.bits)) }
    ensures err { OnErr result (out.new.items ≡ out.old.items) }
{
    let text = text_of(alloc, args, perms.bits)?;
    out.extend_from_slice(&text)
}
