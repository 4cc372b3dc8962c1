//! A take from its first look to its end.
ghost use Rattle.std.specs.Prelude.{◌≡◌, ◌∷◌, ℕ, true, List, length, Some, IfOk, IfSome};
ghost use Rattle.tm_rules.specs.Prelude.{is_request};
ghost use Rattle.tm_rules.specs.Types.{Made, Step, Verdict};
ghost use Rattle.tm_take.specs.Tomoyo.{tomoyo_grammar};
ghost use Rattle.tm_legal.specs.Prelude.{DomainIn, IsNamed, IsOpened, Stage, taken};
ghost use Rattle.tm_take.specs.Situations.{situation_of};
ghost use Rattle.tm_joint.specs.UnderWay.{JudgedBy, begun_at};
ghost use Rattle.tm_seat.specs.Seats.{state_of, FitsFrom, Begins};
ghost use Rattle.tm_seat.specs.Playing.{Errand, IsPlaying, PlaysOn, HasEnded};

use crate::seat::Seat;
use std::alloc::{AllocError, Global};
use tm_list::NoMemory;
use tm_take::{Judged, NextEvent, PendingLook, ProcessSituation, RequestInProgress, begin};
use tm_types::request::Request;
use tm_types::step::{Made, Maker, Settled, Take};

// A look at the newest version: the take that it begins, or goes on with.
fn look<S: Seat>(
    seat: &mut S,
    alloc: Global,
    domain: u32,
    pending: PendingLook,
) -> Result<RequestInProgress, NoMemory>
    requires opened { IsOpened (S.opening seat.old).policy }
    requires named { IsNamed tomoyo_grammar.is_path (S.opening seat.old).policy }
    requires asked { is_request tomoyo_grammar.is_path pending.request ≡ true }
    requires there { DomainIn (state_of (S.opening seat.old) (S.at seat.old)).policy domain }
    ensures fitted { IfOk result (λ b. FitsFrom (S.opening seat.new) (S.at seat.new)) }
    ensures looked { IfOk result (λ b. (v : Verdict)
        × JudgedBy tomoyo_grammar (state_of (S.opening seat.new) (S.at seat.new))
        domain (situation_of pending.now) pending.request v
        × (b ≡ begun_at tomoyo_grammar (length (S.at seat.new))
        (state_of (S.opening seat.new) (S.at seat.new)) (situation_of pending.now) domain
        pending.request pending.retry pending.looked v)) }
    ensures opening { S.opening seat.new ≡ S.opening seat.old }
    ensures grows { Begins (S.at seat.old) (S.at seat.new) }
    ensures own { S.own seat.new ≡ S.own seat.old }
{
    match seat.judge(alloc, domain, &pending.now.process, &pending.request) {
        Ok((shown, version)) => {
            let Judged { verdict, audit } = shown;
            begin(alloc, version, domain, pending, verdict, audit)
        }
        Err(fault) => {
            drop(pending);
            Err(fault)
        }
    }
}

// The next own step of a take, which is made by its process.
fn own_step<S: Seat>(
    seat: &mut S,
    alloc: Global,
    attempt: RequestInProgress,
) -> Result<RequestInProgress, NoMemory>
    requires opened { IsOpened (S.opening seat.old).policy }
    requires owes { (step : Step) × (rest : List Step)
        × (attempt.stage ≡ Stage.Owing (step ∷ rest)) }
    requires playing { (errand : Errand)
        × IsPlaying (S.opening seat.old) errand (S.at seat.old) (S.own seat.old) attempt }
    ensures playing { IfOk result (λ b. PlaysOn (S.opening seat.old)
        (S.at seat.old) (S.own seat.old) attempt (S.at seat.new) (S.own seat.new) b) }
    ensures opening { S.opening seat.new ≡ S.opening seat.old }
    ensures grows { Begins (S.at seat.old) (S.at seat.new) }
{
    match attempt.next_owed() {
        Some((step, left)) => {
            let made = Made {
                maker: Maker::Process(left.process().pid),
                step,
            };
            match seat.settle(alloc, made) {
                Ok(Settled { number, reply }) => left.after_step(number, reply),
                Err(fault) => {
                    drop(left);
                    Err(fault)
                }
            }
        }
        None => unreachable!(),
    }
}

// The taking of the answer to a take's query.
fn hear<S: Seat>(
    seat: &mut S,
    alloc: Global,
    attempt: RequestInProgress,
    serial: u64,
) -> Result<RequestInProgress, NoMemory>
    requires opened { IsOpened (S.opening seat.old).policy }
    requires waits { attempt.stage ≡ Stage.Waiting serial }
    ensures playing { IfOk result (λ b. PlaysOn (S.opening seat.old)
        (S.at seat.old) (S.own seat.old) attempt (S.at seat.new) (S.own seat.new) b) }
    ensures opening { S.opening seat.new ≡ S.opening seat.old }
    ensures grows { Begins (S.at seat.old) (S.at seat.new) }
{
    match seat.hear(serial) {
        Ok((answer, version)) => attempt.after_answer(alloc, version, answer),
        Err(fault) => {
            drop(attempt);
            Err(fault)
        }
    }
}

// Another look, after a retry.
fn look_again<S: Seat>(
    seat: &mut S,
    alloc: Global,
    attempt: RequestInProgress,
) -> Result<RequestInProgress, NoMemory>
    requires opened { IsOpened (S.opening seat.old).policy }
    requires named { IsNamed tomoyo_grammar.is_path (S.opening seat.old).policy }
    requires looking { attempt.stage ≡ Stage.Looking }
    requires playing { (errand : Errand)
        × IsPlaying (S.opening seat.old) errand (S.at seat.old) (S.own seat.old) attempt }
    ensures playing { IfOk result (λ b. PlaysOn (S.opening seat.old)
        (S.at seat.old) (S.own seat.old) attempt (S.at seat.new) (S.own seat.new) b) }
    ensures opening { S.opening seat.new ≡ S.opening seat.old }
    ensures grows { Begins (S.at seat.old) (S.at seat.new) }
{
    let domain = attempt.before();
    let pending = attempt.again()?;
    look(seat, alloc, domain, pending)
}

// The first look of a take.
fn first_look<S: Seat>(
    seat: &mut S,
    alloc: Global,
    now: ProcessSituation,
    domain: u32,
    request: Request,
) -> Result<RequestInProgress, NoMemory>
    requires opened { IsOpened (S.opening seat.old).policy }
    requires named { IsNamed tomoyo_grammar.is_path (S.opening seat.old).policy }
    requires asked { is_request tomoyo_grammar.is_path request ≡ true }
    requires stands { now.domain ≡ Some domain }
    requires there { DomainIn (state_of (S.opening seat.old) (S.at seat.old)).policy domain }
    ensures playing { IfOk result (λ b. IsPlaying (S.opening seat.old)
        (record {
          now = situation_of now;
          domain = domain;
          request = request;
          known = S.at seat.old;
          before = S.own seat.old;
        })
        (S.at seat.new) (S.own seat.new) b) }
    ensures opening { S.opening seat.new ≡ S.opening seat.old }
    ensures grows { Begins (S.at seat.old) (S.at seat.new) }
{
    let pending = PendingLook::first(alloc, now, request);
    look(seat, alloc, domain, pending)
}

// The take that has ended; its request is put behind those that were played.
fn end(attempt: RequestInProgress, played: &mut Vec<Request>) -> Result<Take, NoMemory>
    ensures { IfOk result (λ take. take ≡ taken tomoyo_grammar attempt) }
{
    let (take, request) = attempt.into_take()?;
    match played.push(request) {
        Ok(()) => Ok(take),
        Err(fault) => {
            drop(take);
            Err(fault.into())
        }
    }
}

// A take that has begun, on to its end: each step that the verdict asks for, the wait for an answer,
// and another look after a retry, until nothing is owed.
fn play_on<S: Seat>(
    seat: &mut S,
    alloc: Global,
    attempt: RequestInProgress,
    played: &mut Vec<Request>,
) -> Result<Take, NoMemory>
    requires opened { IsOpened (S.opening seat.old).policy }
    requires named { IsNamed tomoyo_grammar.is_path (S.opening seat.old).policy }
    requires playing { (errand : Errand)
        × IsPlaying (S.opening seat.old) errand (S.at seat.old) (S.own seat.old) attempt }
    ensures ended { IfOk result (λ take. (errand : Errand) → errand.now.domain ≡ Some errand.domain
        → IsPlaying (S.opening seat.old) errand (S.at seat.old) (S.own seat.old) attempt
        → HasEnded (S.opening seat.old) errand (S.at seat.new) (S.own seat.new) take) }
    ensures opening { S.opening seat.new ≡ S.opening seat.old }
    ensures grows { Begins (S.at seat.old) (S.at seat.new) }
{
    let mut attempt = attempt;
    for _ in 0..u64::MAX {
        match attempt.next_event() {
            NextEvent::End => return end(attempt, played),
            NextEvent::OwnStep => attempt = own_step(seat, alloc, attempt)?,
            NextEvent::Answer(serial) => attempt = hear(seat, alloc, attempt, serial)?,
            NextEvent::Look => attempt = look_again(seat, alloc, attempt)?,
        }
    }
    drop(attempt);
    Err(AllocError)
}

/// Plays a request of a process in the domain of this number: a look, then each step that the
/// verdict asks for, the wait for an answer, and another look after a retry, until nothing is owed.
/// The request is put behind those that were played, for whoever made them to free them.
///
/// Errors: want of memory, or that no answer can come any more.
pub fn play_take<S: Seat>(
    seat: &mut S,
    alloc: Global,
    now: ProcessSituation,
    domain: u32,
    request: Request,
    played: &mut Vec<Request>,
) -> Result<Take, NoMemory>
    requires opened { IsOpened (S.opening seat.old).policy }
    requires named { IsNamed tomoyo_grammar.is_path (S.opening seat.old).policy }
    requires asked { is_request tomoyo_grammar.is_path request ≡ true }
    requires stands { now.domain ≡ Some domain }
    requires there { DomainIn (state_of (S.opening seat.old) (S.at seat.old)).policy domain }
    ensures ended { IfOk result (λ take. HasEnded (S.opening seat.old)
        (record {
          now = situation_of now;
          domain = domain;
          request = request;
          known = S.at seat.old;
          before = S.own seat.old;
        })
        (S.at seat.new) (S.own seat.new) take) }
    ensures opening { S.opening seat.new ≡ S.opening seat.old }
    ensures grows { Begins (S.at seat.old) (S.at seat.new) }
{
    let attempt = first_look(seat, alloc, now, domain, request)?;
    play_on(seat, alloc, attempt, played)
}

// The first look of a take of a process whose domain may not be there, with its version: None where
// it isn't.
fn look_if_there<S: Seat>(
    seat: &mut S,
    alloc: Global,
    now: ProcessSituation,
    domain: u32,
    request: Request,
) -> Result<Option<(RequestInProgress, u64)>, NoMemory>
    requires opened { IsOpened (S.opening seat.old).policy }
    requires named { IsNamed tomoyo_grammar.is_path (S.opening seat.old).policy }
    requires asked { is_request tomoyo_grammar.is_path request ≡ true }
    requires stands { now.domain ≡ Some domain }
    ensures version { IfOk result (λ found. IfSome found (λ b. b.1 ≡ length (S.at seat.new))) }
    ensures playing { IfOk result (λ found. IfSome found (λ b. IsPlaying (S.opening seat.old)
        (record {
          now = situation_of now;
          domain = domain;
          request = request;
          known = S.at seat.new;
          before = S.own seat.old;
        })
        (S.at seat.new) (S.own seat.new) b.0)) }
    ensures opening { S.opening seat.new ≡ S.opening seat.old }
    ensures grows { Begins (S.at seat.old) (S.at seat.new) }
{
    match seat.judge_if_there(alloc, domain, &now.process, &request) {
        Ok(Some((shown, version))) => {
            let Judged { verdict, audit } = shown;
            let pending = PendingLook::first(alloc, now, request);
            let attempt = begin(alloc, version, domain, pending, verdict, audit)?;
            Ok(Some((attempt, version)))
        }
        Ok(None) => {
            drop(request);
            Ok(None)
        }
        Err(fault) => {
            drop(request);
            Err(fault)
        }
    }
}

/// Plays a request as `play_take` does, of a process whose domain may not be there with its profile:
/// None where it isn't at the first look. With the take comes the version of that look.
///
/// Errors: want of memory, or that no answer can come any more.
pub fn play_if_there<S: Seat>(
    seat: &mut S,
    alloc: Global,
    now: ProcessSituation,
    domain: u32,
    request: Request,
    played: &mut Vec<Request>,
) -> Result<Option<(Take, u64)>, NoMemory>
    requires opened { IsOpened (S.opening seat.old).policy }
    requires named { IsNamed tomoyo_grammar.is_path (S.opening seat.old).policy }
    requires asked { is_request tomoyo_grammar.is_path request ≡ true }
    requires stands { now.domain ≡ Some domain }
    ensures ended { IfOk result (λ found. IfSome found (λ ended. (known : List Made)
        × (ended.1 ≡ length known) × Begins (S.at seat.old) known × HasEnded (S.opening seat.old)
        (record {
          now = situation_of now;
          domain = domain;
          request = request;
          known = known;
          before = S.own seat.old;
        })
        (S.at seat.new) (S.own seat.new) ended.0)) }
    ensures opening { S.opening seat.new ≡ S.opening seat.old }
    ensures grows { Begins (S.at seat.old) (S.at seat.new) }
{
    match look_if_there(seat, alloc, now, domain, request)? {
        Some((attempt, version)) => {
            let take = play_on(seat, alloc, attempt, played)?;
            Ok(Some((take, version)))
        }
        None => Ok(None),
    }
}
