//! Runs whose processes are in the same domains.
ghost use Rattle.std.specs.Prelude.{◌≡◌, ◌↔◌, IsTrue};
ghost use Rattle.tm_legal.specs.Prelude.{SameDomains, name_at};
ghost use Rattle.tm_rerun.specs.Same.{take_names};

use tm_list::Same;
use tm_types::policy::Policy;
use tm_types::step::{Run, Take};

// Whether two domains, each of its policy, have one name; also where neither is there.
fn have_one_name(first: &Policy, number: u32, second: &Policy, other: u32) -> bool
    ensures { IsTrue result ↔ (name_at first.now number ≡ name_at second.now other) }
{
    match (
        first.domains.get(number as usize),
        second.domains.get(other as usize),
    ) {
        (Some(domain), Some(twin)) => domain.name.same(&twin.name),
        (None, None) => true,
        (Some(_), None) | (None, Some(_)) => false,
    }
}

// Whether two takes begin in domains of one name, and end in domains of one name.
fn are_in_same_domains(first: &Policy, take: &Take, second: &Policy, other: &Take) -> bool
    ensures { IsTrue result ↔ (take_names first.now take.now ≡ take_names second.now other.now) }
{
    have_one_name(first, take.before, second, other.before)
        && have_one_name(first, take.after, second, other.after)
}

/// Whether two runs have as many takes as each other, and each take is in domains of the same
/// names, before and after, as the take at its place in the other run. The names are those that the
/// final policy of each run gives. Takes no memory.
pub fn has_same_domains(
    first_final: &Policy,
    first: &Run,
    second_final: &Policy,
    second: &Run,
) -> bool
    ensures { IsTrue result ↔ SameDomains first_final.now first.now second_final.now second.now }
{
    if first.takes.len() != second.takes.len() {
        return false;
    }
    for (place, take) in first.takes.as_slice().iter().enumerate() {
        let Some(other) = second.takes.get(place) else {
            return false;
        };
        if !are_in_same_domains(first_final, take, second_final, other) {
            return false;
        }
    }
    true
}
