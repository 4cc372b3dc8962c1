//! Reading addresses.
ghost use Rattle.std.specs.Prelude.{◌≡◌, ◌+◌, ◌-◌, ◌*◌, ◌<◌, ◌≤◌, ◌^◌, ◌==◌, ℕ, List, [], ◌∷◌, length, take, drop, Bool, true, Some, None, Ok, IfSome, IsTrue};
ghost use Rattle.std.specs.List.{slice_split};
ghost use Rattle.tm_addr.specs.Reading.{octet_of, quad_of, v4_of, group_of, no_groups, with_group, with_quad, last_of, groups_after, few, side_of, is_gap, gap_at, whole, around, v6_of, addr_of, single, same_family, ends_of, range_of};
ghost use Rattle.tm_number.specs.Addresses.{addr_le};
ghost use Rattle.tm_addr.specs.Printing.{IsAddr, addr_spelling, addr_range_spelling, zeros, run, longest};
ghost use Rattle.tm_number.specs.declared.Addr.{Addr};
ghost use Rattle.tm_number.specs.declared.AddrRange.{AddrRange};

use thiserror::Error;
use tm_number::word::{cut_at, has_byte, place_of};
use tm_number::{Addr, AddrRange, is_at_most, is_numeral, plain_number, value_of_digits};

/// Why a text is no address or no range of addresses. A single address meets the first alone.
#[derive(Clone, Copy, PartialEq, Eq, Debug, Error)]
pub enum AddrFault {
    /// The text, or one end of it, is outside the grammar.
    #[error("not an address")]
    NotAnAddress,
    /// The ends are of two families.
    #[error("a range of addresses of two families")]
    Mixed,
    /// The low end of a range is above its high end.
    #[error("a range of addresses that ends before it begins")]
    Backwards,
}

/// Groups of an IPv6 address in a row: their value, and how many they are.
#[derive(Clone, Copy)]
struct Groups {
    value: u128,
    count: u32,
}

/// A plain number from 0 to 255.
fn octet(piece: &[u8]) -> Option<u8>
    ensures { result ≡ octet_of piece.now }
{
    match plain_number(256, piece) {
        Some(value) => Some(value as u8),
        None => None,
    }
}

/// The address of four octets.
#[tactic(auto, unfolding(crate::specs::Reading::quad_of))]
fn quad(first: &[u8], second: &[u8], third: &[u8], fourth: &[u8]) -> Option<u32>
    ensures { result ≡ quad_of first.now second.now third.now fourth.now }
{
    let first = octet(first)?;
    let second = octet(second)?;
    let third = octet(third)?;
    let fourth = octet(fourth)?;
    Some(((first as u32 * 256 + second as u32) * 256 + third as u32) * 256 + fourth as u32)
}

/// An IPv4 address.
#[tactic(auto, unfolding(crate::specs::Reading::v4_of))]
fn v4(text: &[u8]) -> Option<u32>
    ensures { result ≡ v4_of text.now }
{
    let (first, rest) = cut_at(b'.', text)?;
    let (second, rest) = cut_at(b'.', rest)?;
    let (third, fourth) = cut_at(b'.', rest)?;
    match cut_at(b'.', fourth) {
        Some(_) => None,
        None => quad(first, second, third, fourth),
    }
}

/// One to four hexadecimal digits.
#[tactic(auto, unfolding(crate::specs::Reading::group_of))]
fn group(piece: &[u8]) -> Option<u16>
    ensures { result ≡ group_of piece.now }
{
    if piece.len() > 4 || !is_numeral(16, piece) {
        return None;
    }
    match value_of_digits(16, piece) {
        Some(value) => Some(value as u16),
        None => None,
    }
}

/// One more group, where there are not eight already.
fn with_group(before: Groups, group: u16) -> Option<Groups>
    requires { before.value < 65536 ^ before.count }
    ensures exact { result ≡ few (Some (with_group before group)) }
    ensures bounded { IfSome result (λ found. (found.value < 65536 ^ found.count) × (found.count ≤ 8)) }
{
    if before.count >= 8 {
        return None;
    }
    Some(Groups {
        value: before.value * 65536 + group as u128,
        count: before.count + 1,
    })
}

/// Two more groups, by the value of an IPv4 address.
fn with_quad(before: Groups, a: u32) -> Option<Groups>
    requires { before.value < 65536 ^ before.count }
    ensures exact { result ≡ few (Some (with_quad before a)) }
    ensures bounded { IfSome result (λ found. (found.value < 65536 ^ found.count) × (found.count ≤ 8)) }
{
    with_group(with_group(before, (a / 65536) as u16)?, (a % 65536) as u16)
}

/// The last piece: a group, or an IPv4 address where one may stand.
#[tactic(auto, unfolding(crate::specs::Reading::last_of))]
fn last(dotted: bool, before: Groups, piece: &[u8]) -> Option<Groups>
    requires { before.value < 65536 ^ before.count }
    ensures exact { result ≡ few (last_of dotted before piece.now) }
    ensures bounded { IfSome result (λ found. (found.value < 65536 ^ found.count) × (found.count ≤ 8)) }
{
    match group(piece) {
        Some(group) => with_group(before, group),
        None => {
            if dotted {
                with_quad(before, v4(piece)?)
            } else {
                None
            }
        }
    }
}

/// The groups of a text after those before, up to eight.
fn groups_after(dotted: bool, before: Groups, text: &[u8]) -> Option<Groups>
    requires { before.value < 65536 ^ before.count }
    ensures exact { result ≡ few (groups_after dotted before (slice_split (λ b. b == 58) text.now)) }
    ensures bounded { IfSome result (λ found. (found.value < 65536 ^ found.count) × (found.count ≤ 8)) }
{
    match cut_at(b':', text) {
        None => last(dotted, before, text),
        Some((piece, rest)) => match group(piece) {
            None => None,
            Some(group) => match with_group(before, group) {
                None => None,
                Some(more) => groups_after(dotted, more, rest),
            },
        },
    }
}

/// Nothing, or groups joined by colons.
#[tactic(auto, unfolding(crate::specs::Reading::side_of))]
fn side(dotted: bool, text: &[u8]) -> Option<Groups>
    ensures exact { result ≡ side_of dotted text.now }
    ensures bounded { IfSome result (λ found. (found.value < 65536 ^ found.count) × (found.count ≤ 8)) }
{
    let none = Groups { value: 0, count: 0 };
    match text {
        [] => Some(none),
        [_, ..] => groups_after(dotted, none, text),
    }
}

/// Whether the text begins with `::`.
fn is_gap(text: &[u8]) -> bool
    ensures exact { result ≡ is_gap text.now }
    ensures long { IsTrue result → 2 ≤ length text.now }
{
    match text {
        [] => false,
        [_] => false,
        [first, second, ..] => *first == b':' && *second == b':',
    }
}

/// Where `::` stands first.
fn gap_in(text: &[u8]) -> Option<usize>
    ensures exact { result ≡ gap_at 0 text.now }
    ensures within { IfSome result (λ place. place + 2 ≤ length text.now) }
{
    for place in 0..text.len() {
        if is_gap(&text[place..]) {
            return Some(place);
        }
    }
    None
}

/// The address of eight groups.
fn whole(found: Groups) -> Option<u128>
    ensures { result ≡ whole found }
{
    if found.count == 8 {
        Some(found.value)
    } else {
        None
    }
}

/// The address with zero groups between these, one or more.
fn around(front: Groups, back: Groups) -> Option<u128>
    requires front { (front.value < 65536 ^ front.count) × (front.count ≤ 8) }
    requires back { (back.value < 65536 ^ back.count) × (back.count ≤ 8) }
    ensures { result ≡ around front back }
{
    if front.count + back.count > 7 {
        return None;
    }
    Some(raised(front) + back.value)
}

/// The value of groups that stand highest.
fn raised(front: Groups) -> u128
    requires { (front.value < 65536 ^ front.count) × (front.count ≤ 7) }
    ensures { result ≡ front.value * 65536 ^ (8 - front.count) }
{
    if front.count == 0 {
        return 0;
    }
    front.value * 65536u128.pow(8 - front.count)
}

/// An IPv6 address.
#[tactic(auto, unfolding(crate::specs::Reading::v6_of))]
fn v6(text: &[u8]) -> Option<u128>
    ensures { result ≡ v6_of text.now }
{
    match gap_in(text) {
        None => whole(side(true, text)?),
        Some(place) => {
            let front = side(false, &text[..place])?;
            let back = side(true, &text[place + 2..])?;
            around(front, back)
        }
    }
}

/// The address that a text spells.
#[tactic(auto, unfolding(crate::specs::Reading::addr_of))]
fn addr(text: &[u8]) -> Result<Addr, AddrFault>
    ensures { result ≡ addr_of text.now }
{
    if has_byte(b':', text) {
        match v6(text) {
            Some(a) => Ok(Addr::V6(a)),
            None => Err(AddrFault::NotAnAddress),
        }
    } else {
        match v4(text) {
            Some(a) => Ok(Addr::V4(a)),
            None => Err(AddrFault::NotAnAddress),
        }
    }
}

/// Reads an address, and takes no memory. IPv4 is four plain numbers from 0 to 255 joined by dots.
/// IPv6 is eight groups of one to four hexadecimal digits joined by colons, or fewer with one `::`
/// that stands for one zero group or more; the last two groups may be written as an IPv4 address.
///
/// Errors: `NotAnAddress` exactly outside this grammar.
pub fn read_addr(text: &[u8]) -> Result<Addr, AddrFault>
    ensures { result ≡ addr_of text.now }
{
    addr(text)
}

/// Whether both are IPv4 or both IPv6.
fn same_family(low: Addr, high: Addr) -> bool
    ensures { result ≡ same_family low high }
{
    match (low, high) {
        (Addr::V4(_), Addr::V4(_)) => true,
        (Addr::V6(_), Addr::V6(_)) => true,
        (Addr::V4(_), Addr::V6(_)) => false,
        (Addr::V6(_), Addr::V4(_)) => false,
    }
}

/// The range with these ends, or its fault.
fn ends(low: Result<Addr, AddrFault>, high: Result<Addr, AddrFault>) -> Result<AddrRange, AddrFault>
    ensures { result ≡ ends_of low high }
{
    match (low, high) {
        (Ok(low), Ok(high)) => {
            if !same_family(low, high) {
                Err(AddrFault::Mixed)
            } else if is_at_most(low, high) {
                Ok(AddrRange { low, high })
            } else {
                Err(AddrFault::Backwards)
            }
        }
        (Ok(_), Err(fault)) => Err(fault),
        (Err(fault), _) => Err(fault),
    }
}

/// The range of one address.
fn single(found: Result<Addr, AddrFault>) -> Result<AddrRange, AddrFault>
    ensures { result ≡ single found }
{
    match found {
        Ok(a) => Ok(AddrRange { low: a, high: a }),
        Err(fault) => Err(fault),
    }
}

/// Reads a range of addresses: one address, or `low-high`. Takes no memory.
///
/// Errors: `NotAnAddress` exactly where an end is no address, else `Mixed` exactly where the ends
/// are of two families, else `Backwards` exactly where the low end is above the high one.
#[tactic(auto, unfolding(crate::specs::Reading::range_of))]
pub fn read_addr_range(text: &[u8]) -> Result<AddrRange, AddrFault>
    ensures { result ≡ range_of text.now }
{
    match place_of(b'-', text) {
        Some(place) => ends(addr(&text[..place]), addr(&text[place + 1..])),
        None => single(addr(text)),
    }
}

/// A law, nothing to run: what is written is read again as the value written.
pub fn round_trip()
    ensures addr { (a : Addr) → IsAddr a → addr_of (addr_spelling a) ≡ Ok a }
    // The run of zero groups that `::` stands for is the longest, and the first of equal ones.
    ensures longest { (gs : List ℕ) (k : ℕ) → zeros (drop k gs) ≤ (longest (run 0 0) 0 gs).length }
    ensures first { (gs : List ℕ) (k : ℕ) → k < (longest (run 0 0) 0 gs).place
        → zeros (drop k gs) < (longest (run 0 0) 0 gs).length }
    ensures range { (r : AddrRange) → IsAddr r.low → IsAddr r.high → addr_le r.low r.high ≡ true
        → range_of (addr_range_spelling r) ≡ Ok r }
{}
