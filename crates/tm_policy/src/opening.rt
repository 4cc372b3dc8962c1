//! A policy at first, and its opening.
ghost use Rattle.std.specs.Prelude.{◌≡◌, true, None, IfOk};
ghost use Rattle.std.specs.List.{position_from};
ghost use Rattle.tm_rules.specs.Prelude.{IsFew, new_policy, wants_profile};

use std::alloc::Global;
use tm_change_domains::new_domain;
use tm_list::{NoMemory, Seq};
use tm_types::policy::Policy;

/// The calls of `Policy` that stand on the rules, beside its type: what it is at first, and how it
/// is opened.
pub trait PolicyCalls: Sized {
    ghost can_open: { Self → Type 0 };

    /// The policy of which nothing is written yet. Errors: want of memory.
    fn new(alloc: Global) -> Result<Self, NoMemory>;

    /// Opens a policy in which each live domain has its profile. Takes no memory.
    fn set_opened(&mut self)
        requires { can_open self.old };
}

impl PolicyCalls for Policy {
    ghost can_open = { λ policy. position_from (wants_profile policy) 0 policy.domains ≡ None };

    /// The domain `<kernel>` alone, with profile 0, not opened.
    fn new(alloc: Global) -> Result<Policy, NoMemory>
        ensures new { IfOk result (λ policy. policy ≡ new_policy) }
        ensures few { IfOk result (λ policy. IsFew policy) }
    {
        let name = Seq::from_bytes(alloc, b"<kernel>")?;
        let mut domains = Seq::new(alloc);
        domains.push(new_domain(alloc, name))?;
        Ok(Policy {
            namespaces: Seq::new(alloc),
            domains,
            by_non_root: false,
            managers: Seq::new(alloc),
            opened: false,
        })
    }

    fn set_opened(&mut self)
        requires { position_from (wants_profile self.old) 0 self.old.domains ≡ None }
        ensures opened { self.new ≡ record self.old { opened = true } }
        ensures few { IsFew self.old → IsFew self.new }
    {
        self.opened = true;
    }
}
