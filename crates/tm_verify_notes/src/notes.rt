//! A look beside the verdict of its version.
ghost use Rattle.std.specs.Prelude.{◌≡◌, ◌↔◌, ◌&&◌, true};
ghost use Rattle.tm_legal.specs.Prelude.{IsShown};
ghost use Rattle.tm_verify_laws.specs.Looks.{rises_from, is_after_answer};

use crate::looks::{is_after_answer, rises_from};
use tm_list::Same;
use tm_types::step::Look;
use tm_types::verdict::Verdict;

/// What is noted of a look beside the verdict of its version: whether it shows it, whether its own
/// steps are those that it asks for, and whether its take has the audit text that goes with it.
#[derive(Clone, Copy)]
pub struct VerdictNote {
    pub shown: bool,
    pub owns: bool,
    pub audited: bool,
}

/// All that is noted of a look: besides, whether it has heard what it says.
#[derive(Clone, Copy)]
pub struct LookNote {
    pub verdict: VerdictNote,
    pub hears: bool,
}

/// What has been noted of a look so far.
#[derive(Clone, Copy)]
pub struct PartNote {
    pub verdict: Option<VerdictNote>,
    pub hears: Option<bool>,
}

// Whether the own steps of a look stand above its version and its answer, in rising order.
pub fn owns_in_order(look: &Look) -> bool
    ensures { result ≡ (rises_from look.now.version look.now.own
        && is_after_answer look.now.reason look.now.heard look.now.own) }
{
    let own = look.own.as_slice();
    rises_from(look.version, own) && is_after_answer(look.reason, look.heard, own)
}

/// Whether a look shows a verdict.
pub fn is_shown(look: &Look, verdict: &Verdict) -> bool
    ensures { (result ≡ true) ↔ IsShown verdict.now look.now }
{
    look.mode.same(&verdict.mode)
        && look.reason.same(&verdict.reason)
        && look.step.same(&verdict.step)
}
