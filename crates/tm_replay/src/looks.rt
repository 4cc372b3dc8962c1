//! Looks of a pass at an engine on a machine.
ghost use Rattle.std.specs.Prelude.{◌≡◌, List, Some, true, IfOk, IfSome, IsSome, IsTrue, length};
ghost use Rattle.tm_rules.specs.Types.{Made, Start};
ghost use Rattle.tm_rules.specs.Prelude.{is_request};
ghost use Rattle.tm_machine.specs.Tomoyo.{tomoyo_grammar};
ghost use Rattle.tm_legal.specs.Prelude.{DomainIn, IsNamed, IsOpened};
ghost use Rattle.tm_made.specs.Made.{EachFits};
ghost use Rattle.tm_machine.specs.Office.{list_of};
ghost use Rattle.tm_core.specs.Judging.{judged};
ghost use Rattle.tm_publish.specs.Words.{home, known, HasSeen, made_of};
ghost use Rattle.tm_take.specs.Looking.{verdict_at};
ghost use Rattle.tm_seat.specs.Seats.{state_of, audit_at, ShowsAt, FitsFrom, Begins};
ghost use Rattle.tm_replay.specs.Seats.{home_of, IsLookAt};

use std::alloc::Global;
use std::sync::Wait;
use std::thread;
use tm_change_domains::standing_at;
use tm_core::judge;
use tm_engine::engine::EngineOf;
use tm_list::NoMemory;
use tm_machine::Machine;
use tm_machine::rep::Rep;
use tm_publish::front::Named;
use tm_publish::page::Sheet;
use tm_publish::pass::Pass;
use tm_take::Judged;
use tm_types::request::{Proc, Request};

// A judgement at the machine's newest version, by its list of steps.
pub(crate) fn judge_at<R: Rep>(
    alloc: Global,
    machine: &Machine<R>,
    domain: u32,
    process: &Proc,
    request: &Request,
) -> Result<Option<Judged>, NoMemory>
    requires named { IsNamed tomoyo_grammar.is_path machine.now.start.policy }
    requires asked { is_request tomoyo_grammar.is_path request.now ≡ true }
    ensures { IfOk result (λ found. found
        ≡ judged (state_of machine.now.start (list_of machine.now)) domain process.now request.now) }
{
    machine.versions();
    judge(alloc, machine, domain, process, request)
}

// Whether the domain of this number is there with its profile, by the machine's list of steps.
pub(crate) fn is_there<R: Rep>(machine: &Machine<R>, domain: u32) -> bool
    ensures { IsTrue result
        → DomainIn (state_of machine.now.start (list_of machine.now)).policy domain }
{
    machine.versions();
    match standing_at(machine.policy(), domain) {
        Some(_) => true,
        None => false,
    }
}

// One look for a domain, with its version; None where the entry was refused.
fn arrive_once<L: Named, R: Rep, T: Sheet<L, Machine<R>>>(
    engine: &EngineOf<L, Machine<R>, T>,
    pass: &mut Pass<L, Machine<R>>,
    domain: u32,
) -> Option<(bool, u64)>
    ensures there { IfSome result (λ r. (p : Start) → home pass.old ≡ Some p → IsTrue r.0
        → DomainIn (state_of p (known pass.new)).policy domain) }
    ensures version { IfSome result (λ r. r.1 ≡ length (known pass.new)) }
    ensures fitting { IfSome result (λ _. (p : Start) → home pass.old ≡ Some p →
        EachFits tomoyo_grammar p (known pass.new)) }
    ensures knows { (xs : List Made) → HasSeen pass.old xs → HasSeen pass.new xs }
    ensures opening { home pass.new ≡ home pass.old }
    ensures made { made_of pass.new ≡ made_of pass.old }
{
    engine.read(
        pass,
        |machine: &Machine<R>, version: u64| -> (bool, u64)
            ensures { (result.1 ≡ version) × (IsTrue result.0
                → DomainIn (state_of machine.entry.now.start (list_of machine.entry.now)).policy
                domain) }
        { (is_there(machine, domain), version) },
    )
}

// Looks for a domain until no entry is refused.
fn arrive<L: Named, R: Rep, T: Sheet<L, Machine<R>>, W: Wait>(
    rt: &W,
    engine: &EngineOf<L, Machine<R>, T>,
    pass: &mut Pass<L, Machine<R>>,
    domain: u32,
) -> (bool, u64)
    ensures there { (p : Start) → home pass.old ≡ Some p → IsTrue result.0
        → DomainIn (state_of p (known pass.new)).policy domain }
    ensures version { result.1 ≡ length (known pass.new) }
    ensures fitting { (p : Start) → home pass.old ≡ Some p →
        EachFits tomoyo_grammar p (known pass.new) }
    ensures knows { (xs : List Made) → HasSeen pass.old xs → HasSeen pass.new xs }
    ensures opening { home pass.new ≡ home pass.old }
    ensures made { made_of pass.new ≡ made_of pass.old }
{
    for _ in rt.forever() {
        match arrive_once(engine, pass, domain) {
            Some(found) => return found,
            None => thread::yield_now(),
        }
    }
    unreachable!()
}

/// Looks for the domain of this number at a version that is no older than any that the pass has
/// seen: whether it is there, and that version.
pub(crate) fn arrive_at<L: Named, R: Rep, T: Sheet<L, Machine<R>>, W: Wait>(
    rt: &W,
    engine: &EngineOf<L, Machine<R>, T>,
    pass: &mut Pass<L, Machine<R>>,
    domain: u32,
) -> (bool, u64)
    ensures fitted { FitsFrom (home_of pass.new) (known pass.new) }
    ensures there { IsTrue result.0
        → DomainIn (state_of (home_of pass.new) (known pass.new)).policy domain }
    ensures version { result.1 ≡ length (known pass.new) }
    ensures opening { home pass.new ≡ home pass.old }
    ensures grows { Begins (known pass.old) (known pass.new) }
    ensures own { made_of pass.new ≡ made_of pass.old }
{
    pass.seen();
    let found = arrive(rt, engine, pass, domain);
    pass.seen();
    found
}

// One look, with its version; None where the entry was refused.
fn look_once<L: Named, R: Rep, T: Sheet<L, Machine<R>>>(
    alloc: Global,
    engine: &EngineOf<L, Machine<R>, T>,
    pass: &mut Pass<L, Machine<R>>,
    domain: u32,
    process: &Proc,
    request: &Request,
) -> Option<Result<(Option<Judged>, u64), NoMemory>>
    requires named { (p : Start) → home pass.old ≡ Some p
        → IsNamed tomoyo_grammar.is_path p.policy }
    requires asked { is_request tomoyo_grammar.is_path request.now ≡ true }
    ensures judged { IfSome result (λ r. IfOk r (λ j. (p : Start) → home pass.old ≡ Some p →
        IsLookAt p (known pass.new) domain process.now request.now j.0 j.1)) }
    ensures fitting { IfSome result (λ _. (p : Start) → home pass.old ≡ Some p →
        EachFits tomoyo_grammar p (known pass.new)) }
    ensures knows { (xs : List Made) → HasSeen pass.old xs → HasSeen pass.new xs }
    ensures opening { home pass.new ≡ home pass.old }
    ensures made { made_of pass.new ≡ made_of pass.old }
{
    engine.read(
        pass,
        |machine: &Machine<R>, version: u64| -> Result<(Option<Judged>, u64), NoMemory>
            requires named { IsNamed tomoyo_grammar.is_path machine.now.start.policy }
            requires asked { is_request tomoyo_grammar.is_path request.now ≡ true }
            ensures { IfOk result (λ j. (j.1 ≡ version) × (j.0
                ≡ judged (state_of machine.entry.now.start (list_of machine.entry.now))
                domain process.entry.now request.entry.now)) }
        {
            match judge_at(alloc, machine, domain, process, request) {
                Ok(found) => Ok((found, version)),
                Err(fault) => Err(fault),
            }
        },
    )
}

// Looks until no entry is refused.
fn look<L: Named, R: Rep, T: Sheet<L, Machine<R>>, W: Wait>(
    rt: &W,
    alloc: Global,
    engine: &EngineOf<L, Machine<R>, T>,
    pass: &mut Pass<L, Machine<R>>,
    domain: u32,
    process: &Proc,
    request: &Request,
) -> Result<(Option<Judged>, u64), NoMemory>
    requires named { (p : Start) → home pass.old ≡ Some p
        → IsNamed tomoyo_grammar.is_path p.policy }
    requires asked { is_request tomoyo_grammar.is_path request.now ≡ true }
    ensures judged { IfOk result (λ j. (p : Start) → home pass.old ≡ Some p →
        IsLookAt p (known pass.new) domain process.now request.now j.0 j.1) }
    ensures fitting { IfOk result (λ _. (p : Start) → home pass.old ≡ Some p →
        EachFits tomoyo_grammar p (known pass.new)) }
    ensures knows { (xs : List Made) → HasSeen pass.old xs → HasSeen pass.new xs }
    ensures opening { home pass.new ≡ home pass.old }
    ensures made { made_of pass.new ≡ made_of pass.old }
{
    for _ in rt.forever() {
        match look_once(alloc, engine, pass, domain, process, request) {
            Some(found) => return found,
            None => thread::yield_now(),
        }
    }
    unreachable!()
}

// What a look shows with its version, if the domain is there.
pub(crate) fn shown_if_there(found: Option<Judged>, version: u64) -> Option<(Judged, u64)>
    ensures shown { IfSome result (λ j. found ≡ Some j.0) }
    ensures version { IfSome result (λ j. j.1 ≡ version) }
{
    Some((found?, version))
}

// What a look shows, where the domain is there.
pub(crate) fn shown(found: Option<Judged>) -> Judged
    requires { IsSome found }
    ensures { found ≡ Some result }
{
    match found {
        Some(judged) => judged,
        None => unreachable!(),
    }
}

/// Judges a request of a process in the domain of this number, which is there, at a version that is
/// no older than any that the pass has seen, and gives that version.
///
/// Errors: want of memory.
pub(crate) fn look_at<L: Named, R: Rep, T: Sheet<L, Machine<R>>, W: Wait>(
    rt: &W,
    alloc: Global,
    engine: &EngineOf<L, Machine<R>, T>,
    pass: &mut Pass<L, Machine<R>>,
    domain: u32,
    process: &Proc,
    request: &Request,
) -> Result<(Judged, u64), NoMemory>
    requires opened { IsOpened (home_of pass.old).policy }
    requires named { IsNamed tomoyo_grammar.is_path (home_of pass.old).policy }
    requires asked { is_request tomoyo_grammar.is_path request.now ≡ true }
    requires there { DomainIn (state_of (home_of pass.old) (known pass.old)).policy domain }
    ensures fitted { IfOk result (λ j. FitsFrom (home_of pass.new) (known pass.new)) }
    ensures version { IfOk result (λ j. j.1 ≡ length (known pass.new)) }
    ensures verdict { IfOk result (λ j. verdict_at (state_of (home_of pass.new) (known pass.new))
        domain process.now request.now ≡ Some j.0.verdict) }
    ensures audit { IfOk result
        (λ j. j.0.audit ≡ audit_at (state_of (home_of pass.new) (known pass.new))
        domain process.now request.now j.0.verdict) }
    ensures opening { home pass.new ≡ home pass.old }
    ensures grows { Begins (known pass.old) (known pass.new) }
    ensures own { made_of pass.new ≡ made_of pass.old }
{
    pass.seen();
    let looked = look(rt, alloc, engine, pass, domain, process, request);
    pass.seen();
    match looked {
        Ok((found, version)) => Ok((shown(found), version)),
        Err(fault) => Err(fault),
    }
}

/// Judges a request as `look_at` does, where the domain of this number may not be there with its
/// profile: None where it isn't.
///
/// Errors: want of memory.
pub(crate) fn look_if_there<L: Named, R: Rep, T: Sheet<L, Machine<R>>, W: Wait>(
    rt: &W,
    alloc: Global,
    engine: &EngineOf<L, Machine<R>, T>,
    pass: &mut Pass<L, Machine<R>>,
    domain: u32,
    process: &Proc,
    request: &Request,
) -> Result<Option<(Judged, u64)>, NoMemory>
    requires named { IsNamed tomoyo_grammar.is_path (home_of pass.old).policy }
    requires asked { is_request tomoyo_grammar.is_path request.now ≡ true }
    ensures fitted { IfOk result (λ found. FitsFrom (home_of pass.new) (known pass.new)) }
    ensures shows { IfOk result (λ found. IfSome found (λ j. ShowsAt (home_of pass.new)
        (known pass.new) domain process.now request.now j.0 j.1)) }
    ensures opening { home pass.new ≡ home pass.old }
    ensures grows { Begins (known pass.old) (known pass.new) }
    ensures own { made_of pass.new ≡ made_of pass.old }
{
    pass.seen();
    let looked = look(rt, alloc, engine, pass, domain, process, request);
    pass.seen();
    match looked {
        Ok((found, version)) => Ok(shown_if_there(found, version)),
        Err(fault) => Err(fault),
    }
}
