//! Records sorted into parts, and the summary.
ghost use Rattle.std.specs.Prelude.{◌≡◌, ◌++◌, ◌∷◌, [], ◌==◌, map, length, decimal, IfOk, OnOk};
ghost use Rattle.std.specs.List.{AllByRecursion, filter, list_any};
ghost use Rattle.tm_sort.specs.Routes.{dest, route_rule, IsRoute};
ghost use Rattle.tm_sort.specs.Parts.{part_numbers, is_part, count_in, text_in, part_in, parts_of, sent_line, summary_text};

use crate::record::{Record, push_record};
use crate::route::{Route, dest_of};
use crate::rules::Rule;
use std::alloc::Global;
use tm_list::{NoMemory, Seq};
use tm_number::write_decimal;
use tm_word::Text;

/// A part: its number, how many records it has, and their text.
#[derive(Drop)]
pub struct Part {
    pub number: u8,
    pub count: usize,
    pub text: Text,
}

/// The parts that there can be.
const NUMBERS: [u8; 16] = [0, 1, 2, 3, 4, 5, 6, 7, 8, 9, 10, 11, 12, 13, 14, 15];

/// Part 0 is always there, and the others where a rule names them.
fn is_part(rules: &[Rule], number: u8) -> bool
    ensures { result ≡ is_part rules.now number }
{
    if number == 0 {
        return true;
    }
    for rule in rules {
        if rule.dest == number {
            return true;
        }
    }
    false
}

/// The part of each record.
fn dests_of<F: Fn(&Record) -> bool>(
    alloc: Global,
    routes: &[Route<'_, F>],
    items: &[Record],
) -> Result<Vec<u8>, NoMemory>
    requires { AllByRecursion (IsRoute F.Fn) routes.now }
    ensures { IfOk result
        (λ dests. dests.items ≡ map (dest (map route_rule routes.now)) items.now) }
{
    let mut dests = Vec::with_capacity(alloc, items.len())?;
    for item in items {
        dests.push(dest_of(routes, item))?;
    }
    Ok(dests)
}

/// How many records are of one part.
fn count_in(number: u8, dests: &[u8]) -> usize
    ensures { result ≡ count_in number dests.now }
{
    let mut count = 0;
    for dest in dests {
        if *dest == number {
            count += 1;
        }
    }
    count
}

/// The text of the records of one part.
fn text_in(alloc: Global, number: u8, dests: &[u8], items: &[Record]) -> Result<Vec<u8>, NoMemory>
    ensures { IfOk result (λ text. text.items ≡ text_in number dests.now items.now) }
{
    let mut text = Vec::new(alloc);
    let mut rest = dests;
    for item in items {
        match rest {
            [] => return Ok(text),
            [dest, after @ ..] => {
                if *dest == number {
                    push_record(item, &mut text)?;
                }
                rest = after;
            }
        }
    }
    Ok(text)
}

fn part_in(alloc: Global, number: u8, dests: &[u8], items: &[Record]) -> Result<Part, NoMemory>
    ensures { IfOk result (λ part. part ≡ part_in dests.now items.now number) }
{
    let count = count_in(number, dests);
    let text = Text::from_vec(text_in(alloc, number, dests, items)?);
    Ok(Part {
        number,
        count,
        text,
    })
}

/// The parts that are named, of these numbers.
fn parts_in(
    alloc: Global,
    rules: &[Rule],
    dests: &[u8],
    items: &[Record],
    numbers: &[u8],
) -> Result<Seq<Part>, NoMemory>
    ensures { IfOk result (λ parts. parts ≡ map (part_in dests.now items.now)
        (filter (is_part rules.now) numbers.now)) }
{
    let mut parts = Seq::new(alloc);
    for number in numbers {
        if is_part(rules, *number) {
            parts.push(part_in(alloc, *number, dests, items)?)?;
        }
    }
    Ok(parts)
}

/// The records sorted by rules: part 0 and each part that a rule names, by rising number, with the
/// records of which it is the part, in order. The routes are the rules, each beside its closure.
pub fn sorted<F: Fn(&Record) -> bool>(
    alloc: Global,
    rules: &[Rule],
    routes: &[Route<'_, F>],
    items: &[Record],
) -> Result<Vec<Part>, NoMemory>
    requires kept { AllByRecursion (IsRoute F.Fn) routes.now }
    requires same { map route_rule routes.now ≡ rules.now }
    ensures { IfOk result (λ parts. parts.items ≡ parts_of rules.now items.now) }
{
    let dests = dests_of(alloc, routes, items)?;
    let parts = parts_in(alloc, rules, &dests, items, &NUMBERS)?;
    Ok(parts.into_vec())
}

/// Appends the line of one part.
fn push_sent(alloc: Global, part: &Part, out: &mut Vec<u8>) -> Result<(), NoMemory>
    ensures { OnOk result (out.new.items ≡ out.old.items ++ sent_line part.now) }
{
    out.extend_from_slice(b"sent ")?;
    write_decimal(alloc, u64::from(part.number), out)?;
    out.push(b' ')?;
    write_decimal(alloc, part.count as u64, out)?;
    out.push(b'\n')?;
    Ok(())
}

/// The summary: how many records there are, and a line for each part.
pub fn summary(alloc: Global, records: usize, parts: &[Part]) -> Result<Vec<u8>, NoMemory>
    ensures { IfOk result (λ text. text.items ≡ summary_text records parts.now) }
{
    let mut text = Vec::new(alloc);
    text.extend_from_slice(b"records ")?;
    write_decimal(alloc, records as u64, &mut text)?;
    text.push(b'\n')?;
    for part in parts {
        push_sent(alloc, part, &mut text)?;
    }
    Ok(text)
}
