//! Printing addresses.
ghost use Rattle.std.specs.Prelude.{◌≡◌, ◌+◌, ◌<◌, ◌≤◌, ◌/◌, ◌%◌, ◌^◌, ℕ, List, [], ◌∷◌, ◌++◌, length, IfOk, OnOk, OnErr};
ghost use Rattle.tm_addr.specs.Printing.{v4_spelling, group_at, groups_in, zeros, run, longer, longest, joined, shortened, v6_spelling, addr_spelling, same_addr, addr_range_spelling};

use std::alloc::Global;
use tm_number::list::NoMemory;
use tm_number::{Addr, AddrRange};

/// A run of zero groups: the place of its first, from 0 for the highest, and its length.
#[derive(Clone, Copy)]
struct Run {
    place: usize,
    length: usize,
}

/// Four decimals joined by dots.
#[tactic(auto, unfolding(crate::specs::Printing::v4_spelling))]
fn v4_text(alloc: Global, a: u32) -> Result<Vec<u8>, NoMemory>
    ensures { IfOk result (λ text. text.items ≡ v4_spelling a) }
{
    let text = format!(in alloc;
        "{}.{}.{}.{}",
        a / 16777216,
        a / 65536 % 256,
        a / 256 % 256,
        a % 256
    )?;
    let mut made = Vec::new(alloc);
    made.extend_from_slice(text.as_bytes())?;
    Ok(made)
}

/// The group at a place, from 0 for the lowest.
fn group_at(a: u128, place: u32) -> u16
    requires { place < 8 }
    ensures { result ≡ group_at a place }
{
    (a / 65536u128.pow(place) % 65536) as u16
}

/// The eight groups, the highest first.
#[tactic(auto, unfolding(crate::specs::Printing::groups_in))]
fn groups_in(a: u128) -> [u16; 8]
    ensures { result ≡ groups_in a }
{
    [
        group_at(a, 7),
        group_at(a, 6),
        group_at(a, 5),
        group_at(a, 4),
        group_at(a, 3),
        group_at(a, 2),
        group_at(a, 1),
        group_at(a, 0),
    ]
}

/// How many zero groups stand at the front.
fn zeros(groups: &[u16]) -> usize
    ensures value { result ≡ zeros groups.now }
    ensures within { result ≤ length groups.now }
{
    let mut count = 0;
    for group in groups {
        if *group != 0 {
            return count;
        }
        count += 1;
    }
    count
}

/// The longer of two runs, the first where they are equally long.
fn longer(best: Run, here: Run) -> Run
    ensures { result ≡ longer best here }
{
    if here.length > best.length {
        here
    } else {
        best
    }
}

/// The longest run of zero groups, the first of equal ones.
#[tactic(auto, unfolding(crate::specs::Printing::longest))]
fn longest(groups: &[u16]) -> Run
    ensures exact { result ≡ longest (run 0 0) 0 groups.now }
    ensures within { result.place + result.length ≤ length groups.now }
{
    let mut best = Run {
        place: 0,
        length: 0,
    };
    for place in 0..groups.len() {
        let here = Run {
            place,
            length: zeros(&groups[place..]),
        };
        best = longer(best, here);
    }
    best
}

/// Appends a group in lower case without leading zeros.
fn push_group(alloc: Global, group: u16, out: &mut Vec<u8>) -> Result<(), NoMemory>
    ensures { OnOk result (out.new.items ≡ out.old.items ++ joined (group ∷ [])) }
{
    let text = format!(in alloc; "{:x}", group)?;
    out.extend_from_slice(text.as_bytes())
}

/// Appends groups joined by colons.
fn push_joined(alloc: Global, groups: &[u16], out: &mut Vec<u8>) -> Result<(), NoMemory>
    ensures { OnOk result (out.new.items ≡ out.old.items ++ joined groups.now) }
{
    match groups {
        [] => Ok(()),
        [group] => push_group(alloc, *group, out),
        [group, rest @ ..] => {
            push_group(alloc, *group, out)?;
            out.push(b':')?;
            push_joined(alloc, rest, out)
        }
    }
}

/// The groups with `::` in the place of the run, where that has two groups at least.
fn shortened(alloc: Global, groups: &[u16], zeros_run: Run) -> Result<Vec<u8>, NoMemory>
    requires { zeros_run.place + zeros_run.length ≤ length groups.now }
    ensures { IfOk result (λ text. text.items ≡ shortened groups.now zeros_run) }
{
    let mut text = Vec::new(alloc);
    if zeros_run.length < 2 {
        push_joined(alloc, groups, &mut text)?;
    } else {
        push_joined(alloc, &groups[..zeros_run.place], &mut text)?;
        text.extend_from_slice(b"::")?;
        push_joined(
            alloc,
            &groups[zeros_run.place + zeros_run.length..],
            &mut text,
        )?;
    }
    Ok(text)
}

/// An IPv6 address by RFC 5952.
#[tactic(auto, unfolding(crate::specs::Printing::v6_spelling))]
fn v6_text(alloc: Global, a: u128) -> Result<Vec<u8>, NoMemory>
    ensures { IfOk result (λ text. text.items ≡ v6_spelling a) }
{
    let groups = groups_in(a);
    let zeros_run = longest(&groups);
    shortened(alloc, &groups, zeros_run)
}

/// The printed text of an address.
fn addr_text(alloc: Global, a: &Addr) -> Result<Vec<u8>, NoMemory>
    ensures { IfOk result (λ text. text.items ≡ addr_spelling a.now) }
{
    match *a {
        Addr::V4(value) => v4_text(alloc, value),
        Addr::V6(value) => v6_text(alloc, value),
    }
}

/// Appends an address's printed form: IPv4 as four decimals, IPv6 by RFC 5952, in lower case
/// without leading zeros, with `::` for the longest run of at least two zero groups, the first of
/// equal ones, and never with a dotted end. After want of memory `out` is as before.
pub fn write_addr(alloc: Global, a: &Addr, out: &mut Vec<u8>) -> Result<(), NoMemory>
    ensures ok { OnOk result (out.new.items ≡ out.old.items ++ addr_spelling a.now) }
    ensures err { OnErr result (out.new.items ≡ out.old.items) }
{
    let text = addr_text(alloc, a)?;
    out.extend_from_slice(&text)
}

/// Whether both are one address.
fn same_addr(low: Addr, high: Addr) -> bool
    ensures { result ≡ same_addr low high }
{
    match (low, high) {
        (Addr::V4(low), Addr::V4(high)) => low == high,
        (Addr::V6(low), Addr::V6(high)) => low == high,
        (Addr::V4(_), Addr::V6(_)) => false,
        (Addr::V6(_), Addr::V4(_)) => false,
    }
}

/// The printed text of a range.
fn range_text(alloc: Global, range: &AddrRange) -> Result<Vec<u8>, NoMemory>
    ensures { IfOk result (λ text. text.items ≡ addr_range_spelling range.now) }
{
    let mut text = addr_text(alloc, &range.low)?;
    if same_addr(range.low, range.high) {
        return Ok(text);
    }
    let high = addr_text(alloc, &range.high)?;
    text.push(b'-')?;
    text.extend_from_slice(&high)?;
    Ok(text)
}

/// Appends a range's printed form: one address where both ends are equal, else both with a `-`
/// between them. After want of memory `out` is as before.
pub fn write_addr_range(alloc: Global, range: &AddrRange, out: &mut Vec<u8>) -> Result<(), NoMemory>
    ensures ok { OnOk result (out.new.items ≡ out.old.items ++ addr_range_spelling range.now) }
    ensures err { OnErr result (out.new.items ≡ out.old.items) }
{
    let text = range_text(alloc, range)?;
    out.extend_from_slice(&text)
}
