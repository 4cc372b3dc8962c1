//! Whether a step fits the state at the newest version.
ghost use Rattle.std.specs.Prelude.{◌≡◌, IfOk};
ghost use Rattle.tm_rules.specs.Types.{Step};
ghost use Rattle.tm_rep.specs.Tomoyo.{tomoyo_grammar};
ghost use Rattle.tm_legal.specs.Prelude.{fits_entry, fits_name};
ghost use Rattle.tm_machine.specs.Fitting.{is_there, fits_now};

use crate::current::Current;
use std::alloc::Global;
use tm_domain::{is_domain_name, namespace};
use tm_list::NoMemory;
use tm_rep::Rep;
use tm_rep::change_domains::{domain_at, profile_of};
use tm_rep::entry::is_written;
use tm_types::entry::{Args, Entry};
use tm_types::policy::Policy;
use tm_types::step::Step;
use tm_types::unions::DomainName;
use tm_word::bytes_equal;

// Whether a domain is there with its profile.
fn is_there(policy: &Policy, domain: u32) -> bool
    ensures { result ≡ is_there policy.now domain }
{
    match domain_at(policy, domain) {
        Some(domain) => profile_of(policy, domain).is_some(),
        None => false,
    }
}

// Whether a line can be learned: it has one permission, not the manual one, and can be written.
fn fits_entry(alloc: Global, entry: &Entry) -> Result<bool, NoMemory>
    ensures { IfOk result (λ fits. fits ≡ fits_entry tomoyo_grammar entry.now) }
{
    let written = is_written(alloc, entry)?;
    Ok(written && entry.perms.bits.count_ones() == 1 && !matches!(entry.args, Args::Manual(_)))
}

impl<R: Rep> Current<R> {
    // Whether a domain can get this name when it is made out of the domain of that number.
    fn fits_name(&self, domain: u32, name: &DomainName) -> bool
        ensures { result ≡ fits_name tomoyo_grammar self.now.state domain name.now }
    {
        if !is_domain_name(name.bytes()) {
            return false;
        }
        match domain_at(self.rep().policy(), domain) {
            Some(domain) => bytes_equal(namespace(name), namespace(&domain.name)),
            None => false,
        }
    }

    // Whether a line can be learned in the domain of this number.
    #[tactic(auto, using(crate::proofs::Fitting::learn_fits))]
    fn fits_learn(&self, alloc: Global, domain: u32, entry: &Entry) -> Result<bool, NoMemory>
        ensures { IfOk result
            (λ fits. fits ≡ fits_now self.now.state (Step.Learn domain entry.now)) }
    {
        let fits = fits_entry(alloc, entry)?;
        Ok(fits && is_there(self.rep().policy(), domain))
    }

    // Whether a domain of this name can be made out of the domain of that number.
    #[tactic(auto, using(crate::proofs::Fitting::make_fits))]
    fn fits_make(&self, domain: u32, name: &DomainName) -> bool
        ensures { result ≡ fits_now self.now.state (Step.Make domain name.now) }
    {
        self.fits_name(domain, name) && is_there(self.rep().policy(), domain)
    }

    /// Whether a step fits.
    ///
    /// Errors: want of memory.
    #[tactic(auto, using(crate::proofs::Fitting::fail_fits, crate::proofs::Fitting::ask_fits, crate::proofs::Fitting::edit_fits, crate::proofs::Fitting::end_fits), unfolding(tm_legal::specs::Steps::apply))]
    pub(crate) fn fits(&self, alloc: Global, step: &Step) -> Result<bool, NoMemory>
        ensures { IfOk result (λ fits. fits ≡ fits_now self.now.state step.now) }
    {
        self.constants();
        match step {
            Step::Learn(domain, entry) => self.fits_learn(alloc, *domain, entry),
            Step::Make(domain, name) => Ok(self.fits_make(*domain, name)),
            Step::Fail(domain) | Step::Ask(domain, _, _) => {
                Ok(is_there(self.rep().policy(), *domain))
            }
            Step::Answer(_, _) | Step::Attach | Step::Detach => Ok(true),
            Step::Edit(editor, _, _) => {
                Ok(0 < *editor && *editor as usize <= self.start().editors.len())
            }
            Step::End(tree) => Ok(0 < *tree && *tree <= self.start().trees),
        }
    }
}
