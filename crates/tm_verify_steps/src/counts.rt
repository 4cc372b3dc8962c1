//! How often each step of a run is an own step of its takes.
ghost use Rattle.std.specs.Prelude.{◌≡◌, IfOk, flat_map};
ghost use Rattle.std.specs.Prelude.{slice_get};
ghost use Rattle.std.specs.Option.{option_copied};
ghost use Rattle.tm_rules.specs.Types.{Look};
ghost use Rattle.tm_legal.specs.Prelude.{own_numbers};
ghost use Rattle.tm_verify_steps.specs.Counting.{one_more, counted_one, counted, owned_counts};

use std::alloc::Global;
use tm_list::NoMemory;
use tm_types::step::{Look, Reply, Step, Take};

// One more, two at most.
fn one_more(count: u8) -> u8
    ensures { result ≡ one_more count }
{
    if count == 0 { 1 } else { 2 }
}

// Counts a number, from 1, up to two.
#[tactic(auto, using(crate::proofs::CountLaws::nothing_counted, crate::proofs::CountLaws::counts_one))]
fn count_one(number: u64, counts: &mut Vec<u8>)
    ensures { counts.new.items ≡ counted_one number counts.old.items }
{
    if number == 0 || number > counts.len() as u64 {
        return;
    }
    let place = (number - 1) as usize;
    counts[place] = one_more(counts[place]);
}

// Counts the own numbers of a look.
fn count_own(own: &[u64], counts: &mut Vec<u8>)
    ensures { counts.new.items ≡ counted own.now counts.old.items }
{
    for number in own {
        count_one(*number, counts);
    }
}

// Counts the own numbers of several looks.
fn count_looks(looks: &[Look], counts: &mut Vec<u8>)
    ensures { counts.new.items
        ≡ counted (flat_map (λ (look : Look). look.own) looks.now) counts.old.items }
{
    for look in looks {
        count_own(look.own.as_slice(), counts);
    }
}

// Counts the own numbers of all takes.
fn count_takes(takes: &[Take], counts: &mut Vec<u8>)
    ensures { counts.new.items ≡ counted (own_numbers takes.now) counts.old.items }
{
    for taken in takes {
        count_looks(taken.looks.as_slice(), counts);
    }
}

/// How often each step is an own step of these takes, two at most.
pub(crate) fn owned_counts(
    alloc: Global,
    takes: &[Take],
    steps: &[(Step, Reply)],
) -> Result<Vec<u8>, NoMemory>
    ensures { IfOk result (λ counts. counts.items ≡ owned_counts takes.now steps.now) }
{
    let mut counts = Vec::from_elem(alloc, 0, steps.len())?;
    count_takes(takes, &mut counts);
    Ok(counts)
}

/// How often the step at a place, from 0, is an own step.
pub(crate) fn count_at(counts: &[u8], place: usize) -> Option<&u8>
    ensures { option_copied result ≡ slice_get counts.now place }
{
    counts.get(place)
}
