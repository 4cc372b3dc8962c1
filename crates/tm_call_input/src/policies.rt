//! The policy that the four policy files hold.
ghost use Rattle.std.specs.Prelude.{◌≡◌, Ok, IfOk, IfErr};
ghost use Rattle.tm_rules.specs.Prelude.{IsFew};
ghost use Rattle.tm_call_input.specs.Policies.{OthersStay, policy_files, policy_of, policy_refusal};
ghost use Rattle.tm_call_input.specs.Reading.{RefusedBy};

use std::alloc::Global;
use tm_call::{Status, take_text};
use tm_indexed::rep::Rep;
use tm_indexed::{Indexed, load_indexed};
use tm_io::{FileList, FileName};
use tm_types::policy::Policy;
use tm_types::step::{LoadFault, PolicyFiles};

// The texts of the four policy files, which are taken out of what was fetched.
#[tactic(auto, using(crate::proofs::PolicyLaws::other_name))]
fn policy_files(alloc: Global, texts: &mut FileList) -> PolicyFiles
    ensures files { result ≡ policy_files texts.old }
    ensures others { OthersStay texts.old texts.new }
{
    PolicyFiles {
        profile: take_text(alloc, texts, FileName::Profile),
        exception: take_text(alloc, texts, FileName::ExceptionPolicy),
        domain: take_text(alloc, texts, FileName::DomainPolicy),
        manager: take_text(alloc, texts, FileName::Manager),
    }
}

/// Loads the policy with an index from the four policy files, whose texts are taken out of what was
/// fetched and dropped.
///
/// Errors: the first line that isn't done, or else the first live domain whose profile isn't
/// defined; want of memory. All other files stay, whatever comes.
#[tactic(auto, unfolding(crate::specs::Policies::policy_of))]
pub fn load_indexed_files(alloc: Global, texts: &mut FileList) -> Result<Indexed, Status>
    ensures loaded { IfOk result (λ rep. policy_of texts.old ≡ Ok rep) }
    ensures few { IfOk result IsFew }
    ensures refused { IfErr result (RefusedBy (policy_refusal texts.old)) }
    ensures others { OthersStay texts.old texts.new }
{
    let files = policy_files(alloc, texts);
    match load_indexed(alloc, &files) {
        Ok(rep) => Ok(rep),
        Err(LoadFault::Line(file, line, reply)) => Err(Status::BadPolicy(file, line, reply)),
        Err(LoadFault::UndefinedProfile(domain)) => Err(Status::UndefinedProfile(domain)),
        Err(LoadFault::NoMemory) => Err(Status::OutOfMemory),
    }
}

/// Loads the policy from the four policy files, as `load_indexed_files` does.
pub fn load_files(alloc: Global, texts: FileList) -> Result<Policy, Status>
    ensures loaded { IfOk result (λ policy. policy_of texts ≡ Ok policy) }
    ensures few { IfOk result IsFew }
    ensures refused { IfErr result (RefusedBy (policy_refusal texts)) }
{
    let mut texts = texts;
    let rep = load_indexed_files(alloc, &mut texts)?;
    Ok(rep.into_policy())
}
