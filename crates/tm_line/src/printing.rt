//! Printing arguments.
ghost use Rattle.std.specs.Prelude.{◌≡◌, ◌++◌, ◌∷◌, IfOk, OnOk, OnErr};
ghost use Rattle.tm_word.specs.Prelude.{spell};
ghost use Rattle.tm_line.specs.Lines.{spaced};
ghost use Rattle.tm_line.specs.DomainWords.{domain_parts};
ghost use Rattle.tm_line.specs.Printing.{name_spelling, number_spelling, address_spelling};

use std::alloc::Global;
use tm_addr::number::write_range;
use tm_addr::write_addr_range;
use tm_domain::pattern::print_pattern;
use tm_domain::types::unions::{AddrUnion, DomainName, NameUnion, NumberUnion};
use tm_word::list::NoMemory;
use tm_word::{Word, write_word};

/// `@` and the spelled name of a group.
fn group_text(alloc: Global, group: &Word) -> Result<Vec<u8>, NoMemory>
    ensures { IfOk result (λ text. text.items ≡ 64 ∷ spell group.now) }
{
    let mut text = Vec::new(alloc);
    text.push(b'@')?;
    write_word(alloc, group, &mut text)?;
    Ok(text)
}

/// Appends `@` and the spelled name of a group.
fn print_group(alloc: Global, group: &Word, out: &mut Vec<u8>) -> Result<(), NoMemory>
    ensures ok { OnOk result (out.new.items ≡ out.old.items ++ 64 ∷ spell group.now) }
    ensures err { OnErr result (out.new.items ≡ out.old.items) }
{
    let text = group_text(alloc, group)?;
    out.extend_from_slice(&text)
}

/// Appends a name argument: `@GROUP` or the pattern. After want of memory `out` is as before.
#[tactic(auto, unfolding(crate::specs::Printing::name_spelling))]
pub fn print_name(alloc: Global, name: &NameUnion, out: &mut Vec<u8>) -> Result<(), NoMemory>
    ensures ok { OnOk result (out.new.items ≡ out.old.items ++ name_spelling name.now) }
    ensures err { OnErr result (out.new.items ≡ out.old.items) }
{
    match name {
        NameUnion::One(pattern) => print_pattern(alloc, pattern, out),
        NameUnion::Group(group) => print_group(alloc, group, out),
    }
}

/// Appends a number argument: `@GROUP` or the range, numbers in the base that they were written in.
/// After want of memory `out` is as before.
#[tactic(auto, unfolding(crate::specs::Printing::number_spelling))]
pub fn print_number(alloc: Global, number: &NumberUnion, out: &mut Vec<u8>) -> Result<(), NoMemory>
    ensures ok { OnOk result (out.new.items ≡ out.old.items ++ number_spelling number.now) }
    ensures err { OnErr result (out.new.items ≡ out.old.items) }
{
    match number {
        NumberUnion::One(range) => write_range(alloc, range, out),
        NumberUnion::Group(group) => print_group(alloc, group, out),
    }
}

/// Appends an address argument: `@GROUP` or the range. After want of memory `out` is as before.
#[tactic(auto, unfolding(crate::specs::Printing::address_spelling))]
pub fn print_address(alloc: Global, address: &AddrUnion, out: &mut Vec<u8>) -> Result<(), NoMemory>
    ensures ok { OnOk result (out.new.items ≡ out.old.items ++ address_spelling address.now) }
    ensures err { OnErr result (out.new.items ≡ out.old.items) }
{
    match address {
        AddrUnion::One(range) => write_addr_range(alloc, range, out),
        AddrUnion::Group(group) => print_group(alloc, group, out),
    }
}

/// The words of a domain name, each after a space.
fn domain_spaced(alloc: Global, name: &DomainName) -> Result<Vec<u8>, NoMemory>
    ensures { IfOk result (λ text. text.items ≡ spaced (domain_parts name.now)) }
{
    let mut text = Vec::from_slice(alloc, b" ")?;
    text.extend_from_slice(name.bytes())?;
    Ok(text)
}

/// Appends the words of a domain name, each after a space. After want of memory `out` is as before.
pub fn print_domain(alloc: Global, name: &DomainName, out: &mut Vec<u8>) -> Result<(), NoMemory>
    ensures ok { OnOk result (out.new.items ≡ out.old.items ++ spaced (domain_parts name.now)) }
    ensures err { OnErr result (out.new.items ≡ out.old.items) }
{
    let text = domain_spaced(alloc, name)?;
    out.extend_from_slice(&text)
}
