//! The policy with an index that four files give.
ghost use Rattle.std.specs.Prelude.{◌≡◌, IfOk};
ghost use Rattle.tm_word.specs.Prelude.{Gives, GivesNow};
ghost use Rattle.tm_rules.specs.Prelude.{IsFew, load, open_policy};
ghost use Rattle.tm_policy.specs.Tomoyo.{tomoyo_grammar};
ghost use Rattle.tm_policy.specs.Loading.{load_cause};

use crate::indexed::Indexed;
use std::alloc::Global;
use tm_policy::rep::Rep;
use tm_policy::{PolicyCalls, first_without_profile, load_into};
use tm_types::policy::Policy;
use tm_types::step::{LoadFault, PolicyFiles};

// Opens a policy with an index, in which each live domain has its profile.
fn open(mut rep: Indexed) -> Result<Indexed, LoadFault>
    requires { IsFew rep }
    ensures exact { GivesNow load_cause (λ opened. opened) result (open_policy rep) }
    ensures few { IfOk result IsFew }
{
    match first_without_profile(rep.policy()) {
        Some(place) => Err(LoadFault::UndefinedProfile(place)),
        None => {
            rep.set_opened();
            Ok(rep)
        }
    }
}

/// Loads the policy of these files with an index, and opens it, as `load` of tm_policy does.
///
/// Errors: those of `load`.
#[tactic(auto, using(tm_policy::proofs::LoadLaws::load_in_two), unfolding(tm_rules::specs::Load::load))]
pub fn load_indexed(alloc: Global, files: &PolicyFiles) -> Result<Indexed, LoadFault>
    ensures exact { Gives load_cause (λ rep. rep) result (load tomoyo_grammar files.now) }
    ensures few { IfOk result IsFew }
{
    let Ok(policy) = Policy::new(alloc) else {
        return Err(LoadFault::NoMemory);
    };
    let Ok(rep) = Indexed::new(alloc, policy) else {
        return Err(LoadFault::NoMemory);
    };
    let rep = load_into(alloc, rep, files)?;
    open(rep)
}
