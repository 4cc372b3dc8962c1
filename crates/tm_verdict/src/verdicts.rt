//! The verdict on one request.
ghost use Rattle.std.specs.Prelude.{◌≡◌, ◌<◌, not, ◌&&◌, ◌||◌, true, None, Some, IfOk, option_map};
ghost use Rattle.tm_rules.specs.Types.{Entry, Proc, function_of};
ghost use Rattle.tm_rules.specs.Prelude.{IsFew, first, is_domain_name, is_execute, is_request, line_of, mode_of, namespace_of};
ghost use Rattle.tm_domain.specs.Names.{is_path};
ghost use Rattle.tm_rep.specs.Tomoyo.{tomoyo_grammar};
ghost use Rattle.tm_rep.specs.Standing.{StandsIn};
ghost use Rattle.tm_legal.specs.Prelude.{IsNamed, by_entry, by_mode, denied, execute_verdict, in_mode, is_enforcing, made, manual_verdict, moving, verdict, verdict_in};
ghost use Rattle.tm_verdict.specs.Bare.{bare_of, completed, with_line_of};

use crate::candidates::{Access, Granting, found_entry};
use crate::targets::{BareVerdict, Leads, Way, execute_way, way_to};
use std::alloc::Global;
use tm_learn::learned_line;
use tm_list::{Copied, NoMemory, Seq};
use tm_rep::change_domains::{Standing, standing_at};
use tm_rep::profile::config_of;
use tm_rep::{Rep, executed_name};
use tm_rules::is_execute;
use tm_types::entry::{Args, Entry};
use tm_types::function_at;
use tm_types::kept::Kept;
use tm_types::policy::{Mode, Profile};
use tm_types::request::{Proc, Request};
use tm_types::unions::{DomainName, NamePlace};
use tm_types::verdict::{Move, Reason, Verdict};

// The target is told exactly where the move is `Make`.
fn made(leads: Leads) -> Leads
    ensures { result ≡ record { step = leads.step; target = made leads.step leads.target } }
{
    match leads.step {
        Move::Make => leads,
        Move::Stay | Move::Enter(_) | Move::Fail => Leads {
            step: leads.step,
            target: None,
        },
    }
}

// Granted or asked, with where it leads.
fn moving(mode: Mode, reason: Reason, leads: Leads) -> BareVerdict
    ensures { result ≡ bare_of (moving (Some mode) reason leads.step leads.target) }
{
    BareVerdict {
        mode: Some(mode),
        reason,
        name: NamePlace::Own,
        leads: made(leads),
    }
}

// Granted by an entry, with where it leads.
fn by_entry(mode: Option<Mode>, granting: &Granting<'_>, leads: Leads) -> BareVerdict
    ensures { result ≡ bare_of (by_entry mode granting.now leads.step leads.target) }
{
    let found = granting.found();
    BareVerdict {
        mode,
        reason: Reason::Entry(found.place),
        name: found.name,
        leads: made(leads),
    }
}

// Denied: the process stays.
fn denied(mode: Option<Mode>, reason: Reason) -> BareVerdict
    ensures { result ≡ bare_of (denied mode reason) }
{
    BareVerdict {
        mode,
        reason,
        name: NamePlace::Own,
        leads: Leads {
            step: Move::Stay,
            target: None,
        },
    }
}

// What the mode says where no entry grants.
#[tactic(auto, unfolding(tm_legal::specs::Verdict::by_mode))]
fn without_entry(access: &Access<'_>, mode: Mode, leads: Leads) -> BareVerdict
    ensures { (line : Entry) → completed result line
        ≡ by_mode mode access.now.attached access.now.domain.now None line leads.step leads.target }
{
    match mode {
        Mode::Disabled => moving(mode, Reason::Disabled, leads),
        Mode::Learning => {
            if access.domain.quota_exceeded {
                moving(mode, Reason::Quota, leads)
            } else {
                moving(mode, Reason::Learn, leads)
            }
        }
        Mode::Permissive => moving(mode, Reason::Permissive, leads),
        Mode::Enforcing => {
            if access.attached {
                moving(mode, Reason::Ask, leads)
            } else {
                denied(Some(mode), Reason::NoEntry)
            }
        }
    }
}

// From the mode on: disabled grants, then the entry that was found, then what the mode says.
#[tactic(auto, unfolding(tm_legal::specs::Verdict::by_mode))]
fn by_mode(access: &Access<'_>, mode: Mode, leads: Leads) -> BareVerdict
    ensures { (line : Entry) → completed result line
        ≡ by_mode mode access.now.attached access.now.domain.now access.now.found line
        leads.step leads.target }
{
    match &access.found {
        None => without_entry(access, mode, leads),
        Some(found) => match mode {
            Mode::Disabled => moving(mode, Reason::Disabled, leads),
            Mode::Learning => by_entry(Some(mode), found, leads),
            Mode::Permissive => by_entry(Some(mode), found, leads),
            Mode::Enforcing => by_entry(Some(mode), found, leads),
        },
    }
}

// A manual transition wants an entry and a target that can be entered.
#[inline(never)]
#[tactic(auto, using(crate::proofs::VerdictLaws::manual_entered, crate::proofs::VerdictLaws::manual_barred), unfolding(tm_legal::specs::Verdict::manual_verdict))]
fn manual<R: Rep>(
    alloc: Global,
    rep: &R,
    access: &Access<'_>,
    name: &DomainName,
) -> Result<BareVerdict, NoMemory>
    requires few { IsFew (R.policy rep.now) }
    requires right { is_domain_name is_path name.now ≡ true }
    ensures { IfOk result (λ v. (line : Entry) → completed v line
        ≡ manual_verdict is_path
        (R.policy rep.now) access.now.domain.now name.now access.now.found) }
{
    let Some(found) = &access.found else {
        return Ok(denied(None, Reason::NoManual));
    };
    let way = way_to(rep, access.domain, true, name.copy(alloc)?);
    if way.ready {
        Ok(by_entry(None, found, way.leads))
    } else {
        Ok(denied(None, Reason::NotReady))
    }
}

// Whether an execute is denied since its target can't be entered: where the decision is strict, or
// in mode enforcing.
fn is_barred(mode: Mode, way: &Way) -> bool
    ensures { result ≡ (not way.now.ready && (way.now.strict || is_enforcing mode)) }
{
    if way.ready {
        return false;
    }
    match mode {
        Mode::Enforcing => true,
        Mode::Disabled => way.strict,
        Mode::Learning => way.strict,
        Mode::Permissive => way.strict,
    }
}

// An execute is denied where its target can't be entered and has to be; else it is as the mode
// says.
#[inline(never)]
fn execute<R: Rep>(
    alloc: Global,
    rep: &R,
    access: &Access<'_>,
    mode: Mode,
) -> Result<BareVerdict, NoMemory>
    requires few { IsFew (R.policy rep.now) }
    requires named { IsNamed is_path (R.policy rep.now) }
    requires execute { is_execute access.now.request.now ≡ true }
    ensures { IfOk result
        (λ v. completed v (line_of access.now.namespace.now access.now.request.now)
        ≡ execute_verdict is_path (R.policy rep.now) access.now.attached access.now.domain.now
        access.now.namespace.now mode access.now.found access.now.request.now) }
{
    let way = execute_way(alloc, rep, access)?;
    if is_barred(mode, &way) {
        return Ok(denied(Some(mode), Reason::NotReady));
    }
    Ok(by_mode(access, mode, way.leads))
}

// The verdict in a mode: an execute goes by its target, and every other request stays in its
// domain.
fn in_mode<R: Rep>(
    alloc: Global,
    rep: &R,
    access: &Access<'_>,
    mode: Mode,
) -> Result<BareVerdict, NoMemory>
    requires few { IsFew (R.policy rep.now) }
    requires named { IsNamed is_path (R.policy rep.now) }
    ensures { IfOk result
        (λ v. completed v (line_of access.now.namespace.now access.now.request.now)
        ≡ in_mode is_path (R.policy rep.now) access.now.attached access.now.domain.now
        access.now.namespace.now access.now.request.now access.now.found mode) }
{
    if is_execute(access.request) {
        return execute(alloc, rep, access, mode);
    }
    let leads = Leads {
        step: Move::Stay,
        target: None,
    };
    Ok(by_mode(access, mode, leads))
}

// The verdict on a request that is no manual transition: in the mode of its function. None where it
// has no such permission.
fn by_function<R: Rep>(
    alloc: Global,
    rep: &R,
    access: &Access<'_>,
    profile: &Profile,
) -> Result<Option<BareVerdict>, NoMemory>
    requires few { IsFew (R.policy rep.now) }
    requires named { IsNamed is_path (R.policy rep.now) }
    ensures { IfOk result
        (λ v. option_map (with_line_of access.now.namespace.now access.now.request.now) v
        ≡ option_map (λ function.
        in_mode is_path (R.policy rep.now) access.now.attached access.now.domain.now
        access.now.namespace.now
        access.now.request.now access.now.found (mode_of profile.now function))
        (function_of access.now.request.now.args access.now.request.now.perm)) }
{
    let Some(function) = function_at(access.request.args(), access.request.perm()) else {
        return Ok(None);
    };
    let mode = config_of(profile, function).mode;
    let verdict = in_mode(alloc, rep, access, mode)?;
    Ok(Some(verdict))
}

// The verdict on a request, by what was found for it.
#[tactic(auto, using(crate::proofs::VerdictLaws::asked_name))]
fn judged<R: Rep>(
    alloc: Global,
    rep: &R,
    access: &Access<'_>,
    profile: &Profile,
) -> Result<Option<BareVerdict>, NoMemory>
    requires few { IsFew (R.policy rep.now) }
    requires named { IsNamed is_path (R.policy rep.now) }
    requires asked { is_request is_path access.now.request.now ≡ true }
    ensures { IfOk result (λ v. (process : Proc) →
        namespace_of (R.policy rep.now) access.now.domain.now ≡ access.now.namespace.now →
        first access.now.namespace.now access.now.domain.now process access.now.request.now
        ≡ access.now.found →
        option_map (with_line_of access.now.namespace.now access.now.request.now) v
        ≡ verdict_in is_path (R.policy rep.now) access.now.attached process access.now.request.now
        access.now.domain.now profile.now) }
{
    match access.request.args() {
        Args::Manual(name) => Ok(Some(manual(alloc, rep, access, name)?)),
        _ => by_function(alloc, rep, access, profile),
    }
}

// The line to be learned or asked for. Of an execute it has the aggregated name.
#[inline(never)]
#[tactic(auto, using(crate::proofs::VerdictLaws::line_any))]
fn line_of(alloc: Global, access: &Access<'_>) -> Result<Kept<Entry>, NoMemory>
    requires { access.now.request.now.perm < 16 }
    ensures { IfOk result (λ line. line ≡ line_of access.now.namespace.now access.now.request.now) }
{
    if is_execute(access.request) {
        let name = executed_name(access.namespace, access.request);
        return Kept::new(alloc, learned_line(alloc, access.request, name)?);
    }
    let name = Seq::new(alloc);
    Kept::new(alloc, learned_line(alloc, access.request, &name)?)
}

// The whole verdict, with this line.
fn verdict_with(bare: BareVerdict, line: Option<Kept<Entry>>) -> Verdict
    ensures { result ≡ record {
      mode = bare.mode;
      reason = bare.reason;
      name = bare.name;
      step = bare.leads.step;
      target = bare.leads.target;
      line = line;
    } }
{
    let BareVerdict {
        mode,
        reason,
        name,
        leads,
    } = bare;
    Verdict {
        mode,
        reason,
        name,
        step: leads.step,
        target: leads.target,
        line,
    }
}

// The whole verdict where its reason wants a line: with the one that is to be learned or asked for.
#[inline(never)]
fn with_line(
    alloc: Global,
    access: &Access<'_>,
    bare: BareVerdict,
) -> Result<Option<Verdict>, NoMemory>
    requires { access.now.request.now.perm < 16 }
    ensures { IfOk result (λ v. v ≡ Some (record {
      mode = bare.mode;
      reason = bare.reason;
      name = bare.name;
      step = bare.leads.step;
      target = bare.leads.target;
      line = Some (line_of access.now.namespace.now access.now.request.now);
    })) }
{
    match line_of(alloc, access) {
        Ok(line) => Ok(Some(verdict_with(bare, Some(line)))),
        Err(fault) => {
            drop(bare);
            Err(fault)
        }
    }
}

// The verdict, with the line that is to be learned or asked for, where its reason wants one.
fn finished(
    alloc: Global,
    access: &Access<'_>,
    bare: Option<BareVerdict>,
) -> Result<Option<Verdict>, NoMemory>
    requires { access.now.request.now.perm < 16 }
    ensures { IfOk result
        (λ v. v ≡ option_map (with_line_of access.now.namespace.now access.now.request.now) bare) }
{
    let Some(bare) = bare else {
        return Ok(None);
    };
    match bare.reason {
        Reason::Learn | Reason::Ask => with_line(alloc, access, bare),
        _ => Ok(Some(verdict_with(bare, None))),
    }
}

/// The verdict on a request of a process where the look's standing is known, by which nothing is
/// looked for again: as `verdict_of` in the domain of its number.
///
/// Errors: want of memory.
#[tactic(auto, using(crate::proofs::VerdictLaws::asked_below))]
pub fn verdict_in<R: Rep>(
    alloc: Global,
    rep: &R,
    attached: bool,
    standing: &Standing<'_>,
    process: &Proc,
    request: &Request,
) -> Result<Option<Verdict>, NoMemory>
    requires few { IsFew (R.policy rep.now) }
    requires named { IsNamed tomoyo_grammar.is_path (R.policy rep.now) }
    requires standing { StandsIn (R.policy rep.now) standing.now }
    requires asked { is_request tomoyo_grammar.is_path request.now ≡ true }
    ensures { IfOk result (λ v. v ≡ verdict tomoyo_grammar.is_path (R.policy rep.now) attached
        standing.now.number process.now request.now) }
{
    let found = rep.search_in(standing, process, request);
    let access = Access {
        attached,
        namespace: standing.namespace,
        domain: standing.domain,
        found: found_entry(standing.namespace, standing.domain, found),
        request,
    };
    let bare = judged(alloc, rep, &access, standing.profile)?;
    finished(alloc, &access, bare)
}

/// The verdict on a request of a process in the domain of this number, with a supervisor attached
/// or not. A manual transition wants an entry and a target that can be entered. An execute whose
/// target can't be entered is denied where a preference or a reset chose it, or in mode enforcing.
/// Every request else goes by its mode: disabled grants, then the first entry that grants, then
/// learning (up to the quota) and permissive grant, and enforcing asks the supervisor, where one is
/// attached, or denies. With the verdict come the move (stay, enter a live domain, make one, or
/// fail), the domain to be made, and the line to be learned or asked for.
///
/// None where the domain or its profile isn't there. Errors: want of memory.
#[tactic(auto, using(crate::proofs::VerdictLaws::nowhere))]
pub fn verdict_of<R: Rep>(
    alloc: Global,
    rep: &R,
    attached: bool,
    domain: u32,
    process: &Proc,
    request: &Request,
) -> Result<Option<Verdict>, NoMemory>
    requires few { IsFew (R.policy rep.now) }
    requires named { IsNamed tomoyo_grammar.is_path (R.policy rep.now) }
    requires asked { is_request tomoyo_grammar.is_path request.now ≡ true }
    ensures { IfOk result (λ v. v
        ≡ verdict tomoyo_grammar.is_path
        (R.policy rep.now) attached domain process.now request.now) }
{
    match standing_at(rep.policy(), domain) {
        Some(standing) => verdict_in(alloc, rep, attached, &standing, process, request),
        None => Ok(None),
    }
}
