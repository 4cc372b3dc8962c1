//! Where an execute or a manual transition leads.
ghost use Rattle.std.specs.Prelude.{◌≡◌, true, false, Some, None, IfOk};
ghost use Rattle.tm_word.specs.Prelude.{Gives, Text};
ghost use Rattle.tm_domain.specs.Names.{domain_cause, domain_of, is_path};
ghost use Rattle.tm_rules.specs.Prelude.{IsFew, candidate, decision, is_domain_name, is_execute};
ghost use Rattle.tm_rules.specs.Transition.{By_preference, By_control};
ghost use Rattle.tm_legal.specs.Prelude.{IsNamed};
ghost use Rattle.tm_verdict.specs.Leading.{way_to, way_by};

use crate::candidates::{Access, candidate};
use std::alloc::{AllocError, Global};
use tm_domain::{DomainFault, child, initial, namespace, preferred, root};
use tm_list::NoMemory;
use tm_rep::Rep;
use tm_rep::except::control_kind;
use tm_types::entry::Prefer;
use tm_types::policy::{ControlKind, Domain, Mode};
use tm_types::unions::{DomainName, NamePlace};
use tm_types::verdict::{Move, Reason};
use tm_word::{Text, bytes_equal};

// Where a granted request leads: the move, and the name of a domain that is to be made.
#[derive(Drop)]
pub(crate) struct Leads {
    pub step: Move,
    pub target: Option<DomainName>,
}

// What a verdict is but for its line: its reason tells whether it has the one that is to be learned
// or asked for.
#[derive(Drop)]
pub(crate) struct BareVerdict {
    pub mode: Option<Mode>,
    pub reason: Reason,
    pub name: NamePlace,
    pub leads: Leads,
}

// Where a transition leads: whether its target can be entered, whether a target that can't be is
// denied in every mode, and the move.
#[derive(Drop)]
pub(crate) struct Way {
    pub ready: bool,
    pub strict: bool,
    pub leads: Leads,
}

impl Way {
    // Ready, without a domain that is to be made.
    fn to(strict: bool, step: Move) -> Way
        ensures { result
            ≡ record {
              ready = true;
              strict = strict;
              leads = record { step = step; target = None };
            } }
    {
        Way {
            ready: true,
            strict,
            leads: Leads { step, target: None },
        }
    }

    // Into a target that can't be entered.
    fn fails(strict: bool) -> Way
        ensures { result
            ≡ record {
              ready = false;
              strict = strict;
              leads = record { step = Move.Fail; target = None };
            } }
    {
        Way {
            ready: false,
            strict,
            leads: Leads {
                step: Move::Fail,
                target: None,
            },
        }
    }
}

// Where a right name leads: a live domain of that name is entered, another name of the domain's own
// namespace is made.
pub(crate) fn way_to<R: Rep>(rep: &R, domain: &Domain, strict: bool, name: DomainName) -> Way
    requires few { IsFew (R.policy rep.now) }
    ensures { is_domain_name is_path name ≡ true →
        result ≡ way_to is_path (R.policy rep.now) domain.now strict (Some name) }
{
    match rep.live_domain(&name) {
        Some(number) => Way::to(strict, Move::Enter(number)),
        None => {
            if bytes_equal(namespace(&name), namespace(&domain.name)) {
                Way {
                    ready: true,
                    strict,
                    leads: Leads {
                        step: Move::Make,
                        target: Some(name),
                    },
                }
            } else {
                Way::fails(strict)
            }
        }
    }
}

// Where a name leads that was made for a transition. A text that is no domain name leads nowhere:
// no live domain has it.
#[tactic(auto, using(crate::proofs::WayLaws::readable))]
fn way_of_made<R: Rep>(
    rep: &R,
    domain: &Domain,
    strict: bool,
    made: Result<DomainName, DomainFault>,
) -> Result<Way, NoMemory>
    requires few { IsFew (R.policy rep.now) }
    requires named { IsNamed is_path (R.policy rep.now) }
    ensures { IfOk result
        (λ way. (name : Text) → Gives domain_cause (λ x. x) made (domain_of name) →
        IfOk made (λ made. made ≡ name)
        → way ≡ way_to is_path (R.policy rep.now) domain.now strict (Some name)) }
{
    match made {
        Ok(name) => Ok(way_to(rep, domain, strict, name)),
        Err(fault) => {
            if fault == DomainFault::NoMemory {
                Err(AllocError)
            } else {
                Ok(Way::fails(strict))
            }
        }
    }
}

// Where a control leads.
#[tactic(auto, unfolding(tm_rules::specs::Transition::target_name, tm_legal::specs::Verdict::move_to))]
fn way_by_control<R: Rep>(
    alloc: Global,
    rep: &R,
    domain: &Domain,
    candidate: &Text,
    kind: ControlKind,
) -> Result<Way, NoMemory>
    requires few { IsFew (R.policy rep.now) }
    requires named { IsNamed is_path (R.policy rep.now) }
    ensures { IfOk result (λ way.
        way ≡ way_by is_path (R.policy rep.now) domain.now candidate.now (By_control kind)) }
{
    let program = candidate.bytes();
    match kind {
        ControlKind::Reset => way_of_made(rep, domain, true, root(alloc, program)),
        ControlKind::Initialize => {
            way_of_made(rep, domain, false, initial(alloc, &domain.name, program))
        }
        ControlKind::Keep => Ok(Way::to(false, Move::Stay)),
        ControlKind::NoReset
        | ControlKind::NoInitialize
        | ControlKind::NoKeep
        | ControlKind::Ordinary => {
            way_of_made(rep, domain, false, child(alloc, &domain.name, program))
        }
    }
}

// Where the preference of an execute entry leads.
#[tactic(auto, unfolding(tm_rules::specs::Transition::target_name, tm_legal::specs::Verdict::move_to, tm_domain::specs::Names::preferred_name))]
fn way_by_preference<R: Rep>(
    alloc: Global,
    rep: &R,
    domain: &Domain,
    candidate: &Text,
    prefer: &Prefer,
) -> Result<Way, NoMemory>
    requires few { IsFew (R.policy rep.now) }
    requires named { IsNamed is_path (R.policy rep.now) }
    ensures { IfOk result (λ way.
        way ≡ way_by is_path (R.policy rep.now) domain.now candidate.now
        (By_preference prefer.now)) }
{
    match prefer {
        Prefer::Keep => Ok(Way::to(true, Move::Stay)),
        Prefer::Child
        | Prefer::Initialize
        | Prefer::Reset
        | Prefer::Parent
        | Prefer::Path(_)
        | Prefer::Domain(_) => {
            let made = preferred(alloc, &domain.name, candidate.bytes(), prefer);
            way_of_made(rep, domain, true, made)
        }
    }
}

// Where an execute leads: the preference of the entry that grants it decides before the controls.
#[tactic(auto, unfolding(tm_rules::specs::Transition::decision))]
pub(crate) fn execute_way<R: Rep>(
    alloc: Global,
    rep: &R,
    access: &Access<'_>,
) -> Result<Way, NoMemory>
    requires few { IsFew (R.policy rep.now) }
    requires named { IsNamed is_path (R.policy rep.now) }
    requires execute { is_execute access.now.request.now ≡ true }
    ensures { IfOk result (λ way. way ≡ way_by is_path (R.policy rep.now) access.now.domain.now
        (candidate access.now.namespace.now access.now.found access.now.request.now)
        (decision access.now.namespace.now access.now.domain.now.name access.now.found
        access.now.request.now)) }
{
    let domain = access.domain;
    let candidate = candidate(alloc, access)?;
    if let Some(found) = &access.found {
        if let Some(prefer) = found.preference() {
            return way_by_preference(alloc, rep, domain, &candidate, prefer);
        }
    }
    let kind = control_kind(access.namespace, &domain.name, candidate.bytes());
    way_by_control(alloc, rep, domain, &candidate, kind)
}
