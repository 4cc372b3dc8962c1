//! The looks of all takes in one list.
ghost use Rattle.std.specs.Prelude.{◌≡◌, ◌++◌, IfOk, OnOk};
ghost use Rattle.tm_verify_notes.specs.Given.{scene_of, history_of};
ghost use Rattle.tm_take.specs.Each.{EachWith};
ghost use Rattle.tm_verify_notes.specs.Noting.{looks_on, all_looks, IsPartNote};

use crate::cases::DoCase;
use crate::given::Given;
use crate::notes::PartNote;
use std::alloc::Global;
use std::marker::Model;
use tm_list::NoMemory;
use tm_types::step::Look;

/// A look beside the `do` line and the take that it belongs to.
#[derive(Drop)]
pub struct LookOn<'a> {
    pub case: &'a DoCase<'a>,
    pub look: &'a Look,
}

impl<'a> Model for LookOn<'a> {
    ghost use Rattle.tm_verify_notes.specs.Noting.{LookOn};

    ghost Value = { LookOn };

    ghost view = { λ on. (on.case.now, on.look.now) };
}

// Appends the looks of a take.
fn push_looks<'a>(case: &'a DoCase<'a>, out: &mut Vec<LookOn<'a>>) -> Result<(), NoMemory>
    ensures { OnOk result (out.new.items ≡ out.old.items ++ looks_on case.now) }
{
    for look in case.taken.looks.as_slice() {
        out.push(LookOn { case, look })?;
    }
    Ok(())
}

/// The looks of all takes, in order.
pub fn all_looks<'a>(alloc: Global, cases: &'a [DoCase<'a>]) -> Result<Vec<LookOn<'a>>, NoMemory>
    ensures { IfOk result (λ looks. looks.items ≡ all_looks cases.now) }
{
    let mut out = Vec::new(alloc);
    for case in cases {
        push_looks(case, &mut out)?;
    }
    Ok(out)
}

/// Nothing is noted yet of any look.
#[tactic(auto, using(crate::proofs::SumLaws::nothing_noted))]
pub fn no_parts(
    alloc: Global,
    given: &Given<'_>,
    looks: &[LookOn<'_>],
) -> Result<Vec<PartNote>, NoMemory>
    ensures { IfOk result (λ parts.
        EachWith (IsPartNote (scene_of given.now) (history_of given.now)) looks.now parts.items) }
{
    let _ = given;
    let nothing = PartNote {
        verdict: None,
        hears: None,
    };
    Vec::from_elem(alloc, nothing, looks.len())
}
