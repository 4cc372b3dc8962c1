//! A request in progress, from its first look to its take.
ghost use Rattle.std.specs.Prelude.{◌≡◌, ◌++◌, ◌∷◌, [], Some, IfOk, MatchOption, unwrap_or, if◌then◌else◌};
ghost use Rattle.tm_legal.specs.Prelude.{Stage, after_answer, after_step, entered, is_yes, look_grants, steps_of_move, taken, with_heard, with_own};
ghost use Rattle.tm_grammar.specs.Tomoyo.{tomoyo_grammar};
ghost use Rattle.tm_take.specs.Situations.{situation_of};
ghost use Rattle.tm_take.specs.Taking.{owed_steps, stage_of, in_progress, rest_of, serial_of, begun_with, IsNext, TakesOut, LooksAgain};

use crate::owing::{Awaited, Owed, grants, lead_owed, steps_owed};
use crate::situations::ProcessSituation;
use std::alloc::{AllocError, Global};
use std::marker::Model;
use std::mem::replace;
use tm_list::{NoMemory, Seq};
use tm_types::brief::Brief;
use tm_types::kept::Kept;
use tm_types::request::{Proc, Request};
use tm_types::step::{Answered, Heard, Held, Look, MakeReply, Reply, Step, Take};
use tm_types::verdict::{Move, Reason, Verdict};
use tm_word::Text;

/// A look that is to be made: for whom, at what request, how often the supervisor has said retry,
/// and the looks before.
#[derive(Drop)]
pub struct PendingLook {
    pub now: ProcessSituation,
    pub request: Request,
    pub retry: u32,
    pub looked: Seq<Look>,
}

impl PendingLook {
    /// The first look at a request. Takes no memory.
    pub fn first(alloc: Global, now: ProcessSituation, request: Request) -> PendingLook
        ensures { result ≡ record { now = now; request = request; retry = 0; looked = [] } }
    {
        PendingLook {
            now,
            request,
            retry: 0,
            looked: Seq::new(alloc),
        }
    }
}

/// What comes next of a request in progress: a step of its own, the answer to the query of a
/// serial, another look, or its end.
#[derive(Clone, Copy)]
pub enum NextEvent {
    OwnStep,
    Answer(u64),
    Look,
    End,
}

/// The parts of a request in progress.
#[derive(Drop)]
struct AttemptParts {
    now: ProcessSituation,
    before: u32,
    request: Request,
    retry: u32,
    looked: Seq<Look>,
    look: Look,
    verdict: Verdict,
    audit: Option<Text>,
    after: Option<u32>,
    awaited: Awaited,
}

/// A request in progress: a take that has begun and not ended. It has where its process stands and
/// the domain that it is in, the request, the retry number, the looks before, the look that it is
/// at with that look's verdict and audit text, where it leads, and what it waits for. These parts
/// are kept apart, so that it is small where it is moved.
#[derive(Drop)]
pub struct RequestInProgress {
    parts: Box<AttemptParts>,
}

impl Model for RequestInProgress {
    ghost use Rattle.tm_legal.specs.Prelude.{InProgress};
    ghost use Rattle.tm_take.specs.Taking.{in_progress};

    ghost Value = { InProgress };

    ghost view = { λ r. in_progress r.parts.value };
}

// The first step that is owed, and what is owed after it; None where none is owed.
fn first_owed(awaited: Awaited) -> Option<(Kept<Step>, Owed)>
    ensures { MatchOption result (rest_of (stage_of awaited) ≡ [])
        (λ next. stage_of awaited ≡ Stage.Owing (next.0 ∷ owed_steps next.1)) }
{
    match awaited {
        Awaited::Steps(owed) => owed.first(),
        Awaited::Answer(_) => None,
        Awaited::Look => None,
    }
}

// Whether the answer yes was heard.
fn is_yes(heard: Option<Heard>) -> bool
    ensures { result ≡ is_yes heard }
{
    let Some(heard) = heard else {
        return false;
    };
    match heard.answer {
        Some(Answered::Yes) => true,
        _ => false,
    }
}

/// Whether a look grants: by its reason, or by the answer yes. Takes no memory.
pub fn look_grants(look: &Look) -> bool
    ensures { result ≡ look_grants look.now }
{
    match look.reason {
        Reason::Ask => is_yes(look.heard),
        _ => grants(&look.reason),
    }
}

// Looks with room for one more, where there is none yet: most takes have one look alone.
fn with_room(looks: Seq<Look>) -> Result<Vec<Look>, NoMemory>
    ensures { IfOk result (λ roomy. roomy.items ≡ looks) }
{
    let mut looks = looks.into_vec();
    if looks.is_empty() {
        looks.reserve_exact(1)?;
    }
    Ok(looks)
}

// The looks with one look more.
fn with_last(looks: Seq<Look>, look: Look) -> Result<Seq<Look>, NoMemory>
    ensures { IfOk result (λ all. all ≡ looks ++ look ∷ []) }
{
    let mut looks = with_room(looks)?;
    looks.push(look)?;
    Ok(Seq::from_vec(looks))
}

// The number that a move enters.
fn entered(step: Move) -> Option<u32>
    ensures { result ≡ entered tomoyo_grammar step }
{
    match step {
        Move::Enter(number) => Some(number),
        _ => None,
    }
}

// What is kept of a request whose look at this version has this verdict and this audit text, and
// which owes these steps.
fn parts_at(
    alloc: Global,
    version: u64,
    before: u32,
    pending: PendingLook,
    verdict: Verdict,
    audit: Option<Text>,
    owed: Owed,
) -> AttemptParts
    ensures { in_progress result ≡ record
        (begun_with tomoyo_grammar version (situation_of pending.now) before pending.request
        pending.retry pending.looked verdict audit)
        { stage = Stage.Owing (owed_steps owed) } }
{
    let look = Look {
        version,
        mode: verdict.mode,
        reason: verdict.reason,
        step: verdict.step,
        own: Brief::new(alloc),
        heard: None,
    };
    let PendingLook {
        now,
        request,
        retry,
        looked,
    } = pending;
    AttemptParts {
        now,
        before,
        request,
        retry,
        looked,
        look,
        after: entered(verdict.step),
        verdict,
        audit,
        awaited: Awaited::Steps(owed),
    }
}

impl AttemptParts {
    // Kept apart.
    fn boxed(self, alloc: Global) -> Result<RequestInProgress, NoMemory>
        ensures { IfOk result (λ begun. begun ≡ in_progress self) }
    {
        match Box::new(alloc, self) {
            Ok(parts) => Ok(RequestInProgress { parts }),
            Err(refused) => {
                drop(refused);
                Err(AllocError)
            }
        }
    }
}

/// A look at this version has this verdict and this audit text: the request is in progress, and
/// owes the steps that the verdict asks for: the Learn or the Ask of its line, and then, where it
/// grants, the Make or the Fail of its move. `before` is the number of the domain that its process
/// is in. An Ask has the retry number and the printed line.
pub fn begin(
    alloc: Global,
    version: u64,
    before: u32,
    pending: PendingLook,
    verdict: Verdict,
    audit: Option<Text>,
) -> Result<RequestInProgress, NoMemory>
    ensures { IfOk result (λ begun. begun ≡ begun_with tomoyo_grammar version
        (situation_of pending.now) before pending.request pending.retry pending.looked
        verdict audit) }
{
    match steps_owed(alloc, before, pending.retry, &verdict) {
        Ok(owed) => {
            let parts = parts_at(alloc, version, before, pending, verdict, audit, owed);
            parts.boxed(alloc)
        }
        Err(fault) => {
            drop(pending);
            drop(verdict);
            drop(audit);
            Err(fault)
        }
    }
}

impl RequestInProgress {
    /// Who asks. Takes no memory.
    pub fn process(&self) -> &Proc
        ensures { result.now ≡ self.entry.now.now.process }
    {
        &self.parts.now.process
    }

    /// The number of the domain that its process is in. Takes no memory.
    pub fn before(&self) -> u32
        ensures { result ≡ self.entry.now.before }
    {
        self.parts.before
    }

    /// What is asked for. Takes no memory.
    pub fn request(&self) -> &Request
        ensures { result.now ≡ self.entry.now.request }
    {
        &self.parts.request
    }

    /// The look that it is at. Takes no memory.
    pub fn look(&self) -> &Look
        ensures { result.now ≡ self.entry.now.look }
    {
        &self.parts.look
    }

    /// What comes next. Takes no memory.
    pub fn next_event(&self) -> NextEvent
        ensures { IsNext result self.entry.now.stage }
    {
        match &self.parts.awaited {
            Awaited::Steps(owed) => {
                if owed.is_nothing() {
                    NextEvent::End
                } else {
                    NextEvent::OwnStep
                }
            }
            Awaited::Answer(serial) => NextEvent::Answer(*serial),
            Awaited::Look => NextEvent::Look,
        }
    }

    // The serial of the query whose answer it waits for; None where it waits for something else.
    pub(crate) fn awaits(&self) -> Option<u64>
        ensures { result ≡ serial_of self.entry.now.stage }
    {
        match &self.parts.awaited {
            Awaited::Steps(_) => None,
            Awaited::Answer(serial) => Some(*serial),
            Awaited::Look => None,
        }
    }

    // Takes out what it waits for; until it is said what it waits for next, it is to look again.
    fn take_awaited(self) -> (Awaited, RequestInProgress)
        ensures awaited { stage_of result.0 ≡ self.stage }
        ensures left { result.1 ≡ record self { stage = Stage.Looking } }
    {
        let mut attempt = self;
        let awaited = replace(&mut attempt.parts.awaited, Awaited::Look);
        (awaited, attempt)
    }

    /// Takes the first step out that it owes; None where it owes none. Takes no memory.
    pub fn next_owed(self) -> Option<(Step, RequestInProgress)>
        ensures { MatchOption result (rest_of self.stage ≡ [])
            (λ next. TakesOut self next.0 next.1) }
    {
        let (awaited, attempt) = self.take_awaited();
        let (step, left) = first_owed(awaited)?;
        let next = attempt.awaiting(Awaited::Steps(left));
        Some((step.into_value(), next))
    }

    // It waits for this from now on.
    fn awaiting(self, awaited: Awaited) -> RequestInProgress
        ensures { result ≡ record self { stage = stage_of awaited } }
    {
        let mut attempt = self;
        attempt.parts.awaited = awaited;
        attempt
    }

    // It owes what it did, and waits for nothing else.
    fn still_owing(self) -> RequestInProgress
        ensures { result ≡ record self { stage = Stage.Owing (rest_of self.stage) } }
    {
        match &self.parts.awaited {
            Awaited::Steps(_) => self,
            Awaited::Answer(_) | Awaited::Look => self.awaiting(Awaited::Steps(Owed::nothing())),
        }
    }

    // Its look has one own step more; after want of memory it is gone.
    fn noted(self, number: u64) -> Result<RequestInProgress, NoMemory>
        ensures { IfOk result
            (λ next. next ≡ record self { look = with_own tomoyo_grammar self.look number }) }
    {
        let mut attempt = self;
        match attempt.parts.look.own.push(number) {
            Ok(()) => Ok(attempt),
            Err(fault) => {
                drop(attempt);
                Err(fault)
            }
        }
    }

    // Its look has heard this.
    fn hearing(self, answer: Option<Answered>, version: u64) -> RequestInProgress
        ensures { result
            ≡ record self { look = with_heard tomoyo_grammar self.look answer version } }
    {
        let mut attempt = self;
        attempt.parts.look.heard = Some(Heard { answer, version });
        attempt
    }

    // It leads into the domain of this number.
    fn leading(self, after: u32) -> RequestInProgress
        ensures { result ≡ record self { after = Some after } }
    {
        let mut attempt = self;
        attempt.parts.after = Some(after);
        attempt
    }

    /// Its own step has been made with this number and this reply: the number is noted, a Make's
    /// reply says where it leads, an Ask's is waited for or, where nobody is attached, heard at
    /// once. The step is the one that `next_owed` took out.
    pub fn after_step(self, number: u64, reply: Reply) -> Result<RequestInProgress, NoMemory>
        ensures { IfOk result
            (λ next. next ≡ after_step tomoyo_grammar self (rest_of self.stage) number reply) }
    {
        let attempt = self.noted(number)?;
        match reply {
            Reply::Ask(Held::Serial(serial)) => Ok(attempt.awaiting(Awaited::Answer(serial))),
            Reply::Ask(Held::Nobody) => {
                let attempt = attempt.hearing(None, number);
                Ok(attempt.awaiting(Awaited::Steps(Owed::nothing())))
            }
            Reply::Make(MakeReply::New(made)) => Ok(attempt.leading(made).still_owing()),
            Reply::Make(MakeReply::Old(made)) => Ok(attempt.leading(made).still_owing()),
            _ => Ok(attempt.still_owing()),
        }
    }

    // It owes the Make or the Fail of its move; after want of memory it is gone.
    fn owing_lead(self, alloc: Global) -> Result<RequestInProgress, NoMemory>
        ensures { IfOk result (λ next. next ≡ record self {
          stage = Stage.Owing (steps_of_move self.before self.verdict);
        }) }
    {
        match lead_owed(alloc, self.parts.before, &self.parts.verdict) {
            Ok(lead) => Ok(self.awaiting(Awaited::Steps(Owed { line: None, lead }))),
            Err(fault) => {
                drop(self);
                Err(fault)
            }
        }
    }

    /// Its query has this answer, taken at this version: after a yes it owes the Make or the Fail
    /// of its move, after a retry it is to look again, else it ends.
    pub fn after_answer(
        self,
        alloc: Global,
        version: u64,
        answer: Answered,
    ) -> Result<RequestInProgress, NoMemory>
        ensures { IfOk result (λ next. next ≡ after_answer tomoyo_grammar self version answer) }
    {
        let attempt = self.hearing(Some(answer), version);
        match answer {
            Answered::Yes => attempt.owing_lead(alloc),
            Answered::Retry => Ok(attempt.awaiting(Awaited::Look)),
            Answered::No => Ok(attempt.awaiting(Awaited::Steps(Owed::nothing()))),
            Answered::Detached => Ok(attempt.awaiting(Awaited::Steps(Owed::nothing()))),
        }
    }

    /// The look that it is to make after a retry: the retry number is one higher, and the look that
    /// it is at is put behind those before. A retry number past the end of its type is answered as
    /// want of memory.
    pub fn again(self) -> Result<PendingLook, NoMemory>
        ensures { IfOk result (λ next. LooksAgain self next) }
    {
        let Some(retry) = self.parts.retry.checked_add(1) else {
            drop(self);
            return Err(AllocError);
        };
        let RequestInProgress { parts } = self;
        let AttemptParts {
            now,
            before: _,
            request,
            retry: _,
            looked,
            look,
            verdict,
            audit,
            after: _,
            awaited,
        } = Box::into_inner(parts);
        drop(verdict);
        drop(audit);
        drop(awaited);
        match with_last(looked, look) {
            Ok(looked) => Ok(PendingLook {
                now,
                request,
                retry,
                looked,
            }),
            Err(fault) => {
                drop(now);
                drop(request);
                Err(fault)
            }
        }
    }

    // The domain that its process is in after it.
    fn domain_after(&self, granted: bool) -> u32
        ensures { result
            ≡ (if granted then unwrap_or self.entry.now.after self.entry.now.before
            else self.entry.now.before) }
    {
        if granted {
            self.parts.after.unwrap_or(self.parts.before)
        } else {
            self.parts.before
        }
    }

    /// The take that it ends as: granted by its last look, into the domain where it leads, with all
    /// its looks and the last one's audit text.
    pub fn into_take(self) -> Result<(Take, Request), NoMemory>
        ensures take { IfOk result (λ ended. ended.0 ≡ taken tomoyo_grammar self) }
        ensures request { IfOk result (λ ended. ended.1 ≡ self.request) }
    {
        let granted = look_grants(&self.parts.look);
        let after = self.domain_after(granted);
        let before = self.parts.before;
        let pid = self.parts.now.process.pid;
        let RequestInProgress { parts } = self;
        let AttemptParts {
            now,
            before: _,
            request,
            retry: _,
            looked,
            look,
            verdict,
            audit,
            after: _,
            awaited,
        } = Box::into_inner(parts);
        drop(now);
        drop(verdict);
        drop(awaited);
        match with_last(looked, look) {
            Ok(looks) => Ok((
                Take {
                    pid,
                    before,
                    after,
                    granted,
                    looks,
                    audit,
                },
                request,
            )),
            Err(fault) => {
                drop(request);
                drop(audit);
                Err(fault)
            }
        }
    }
}
