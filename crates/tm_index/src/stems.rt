//! Stems: by what an entry without a literal name is found.
ghost use Rattle.std.specs.Prelude.{◌≡◌, IfOk, is_some};
ghost use Rattle.std.specs.Option.{option_copied};
ghost use Rattle.tm_rules.specs.Prelude.{addrs_equal};
ghost use Rattle.tm_index.specs.Names.{first_pattern, literal_of};
ghost use Rattle.tm_index.specs.Stems.{addr_stem, union_stem, plain_front, short_stem, pattern_stem, addr_of, stem_by, stem_of};

use crate::label::first_pattern;
use std::alloc::Global;
use tm_list::NoMemory;
use tm_number::Addr;
use tm_pattern::is_plain;
use tm_types::entry::Args;
use tm_types::request::components_word;
use tm_types::unions::AddrUnion;
use tm_word::{Component, Pattern, Text};

/// A stem has fewer bytes than this, so that the stems of a name are few and short however long it
/// is.
pub const STEM_ROOM: usize = 256;

// The bytes of an address as a text.
fn addr_stem(alloc: Global, addr: Addr) -> Result<Text, NoMemory>
    ensures { IfOk result (λ stem. stem ≡ addr_stem addr) }
{
    match addr {
        Addr::V4(number) => Text::from_bytes(alloc, &number.to_be_bytes()),
        Addr::V6(number) => Text::from_bytes(alloc, &number.to_be_bytes()),
    }
}

// Whether two addresses are equal.
fn addrs_equal(left: Addr, right: Addr) -> bool
    ensures { result ≡ addrs_equal left right }
{
    match (left, right) {
        (Addr::V4(left), Addr::V4(right)) => left == right,
        (Addr::V4(_), Addr::V6(_)) => false,
        (Addr::V6(_), Addr::V4(_)) => false,
        (Addr::V6(left), Addr::V6(right)) => left == right,
    }
}

// The stem of an address argument.
fn union_stem(alloc: Global, addr: &AddrUnion) -> Result<Option<Text>, NoMemory>
    ensures { IfOk result (λ stem. stem ≡ union_stem addr.now) }
{
    match addr {
        AddrUnion::One(range) => {
            if addrs_equal(range.low, range.high) {
                Ok(Some(addr_stem(alloc, range.low)?))
            } else {
                Ok(None)
            }
        }
        AddrUnion::Group(_) => Ok(None),
    }
}

// The components before the first that stands for other bytes than its own.
fn plain_front(pattern: &[Component]) -> &[Component]
    ensures { result.now ≡ plain_front pattern.now }
{
    for count in 0..pattern.len() {
        if !is_plain(&pattern[count]) {
            return &pattern[..count];
        }
    }
    pattern
}

// Bytes that are few enough for a stem.
fn short_stem(bytes: Text) -> Option<Text>
    ensures { result ≡ short_stem bytes }
{
    if bytes.len() < STEM_ROOM {
        Some(bytes)
    } else {
        None
    }
}

// The stem of components.
fn front_stem(alloc: Global, components: &[Component]) -> Result<Option<Text>, NoMemory>
    ensures { IfOk result (λ stem. stem ≡ pattern_stem components.now) }
{
    let front = plain_front(components);
    if front.is_empty() {
        Ok(None)
    } else {
        Ok(short_stem(components_word(alloc, front)?))
    }
}

// The stem of a pattern.
fn pattern_stem(alloc: Global, pattern: &Pattern) -> Result<Option<Text>, NoMemory>
    ensures { IfOk result (λ stem. stem ≡ pattern_stem pattern.now) }
{
    match pattern.name() {
        Ok(name) => Ok(short_stem(Text::from_bytes(alloc, name.bytes())?)),
        Err(components) => front_stem(alloc, components),
    }
}

/// The address argument of a line.
pub fn addr_of(args: &Args) -> Option<&AddrUnion>
    ensures { option_copied result ≡ addr_of args.now }
{
    match args {
        Args::Inet(_, addr, _) => Some(addr.get()),
        _ => None,
    }
}

// The stem of the first pattern, or else of the address.
fn stem_by(alloc: Global, args: &Args) -> Result<Option<Text>, NoMemory>
    ensures { IfOk result (λ stem. stem ≡ stem_by (first_pattern args.now) (addr_of args.now)) }
{
    match first_pattern(args) {
        Some(pattern) => pattern_stem(alloc, pattern),
        None => match addr_of(args) {
            Some(addr) => union_stem(alloc, addr),
            None => Ok(None),
        },
    }
}

/// The stem of a line, of which is known whether it has a literal name. Errors: want of memory.
#[tactic(auto, unfolding(crate::specs::Stems::stem_of))]
pub(crate) fn stem_of(alloc: Global, args: &Args, named: bool) -> Result<Option<Text>, NoMemory>
    requires { named ≡ is_some (literal_of args.now) }
    ensures { IfOk result (λ stem. stem ≡ stem_of args.now) }
{
    if named {
        Ok(None)
    } else {
        stem_by(alloc, args)
    }
}
