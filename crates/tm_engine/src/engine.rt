//! The engine.
ghost use Rattle.std.specs.Prelude.{◌≡◌, ℕ, ◌<◌, ◌≤◌, ◌⊎◌, List, Some, true, length, slice_get};
ghost use Rattle.std.specs.Prelude.{IfOk, IsOk, OnErr, IfSome, IfNone};
ghost use Rattle.std.specs.Borrow.{Bor};
ghost use Rattle.std.specs.List.{sum_by};
ghost use mathlib.Core.List.{IsPrefix};
ghost use Rattle.tm_engine.specs.Steps.{IsSettled};
ghost use Rattle.tm_engine.specs.Waits.{IsAnswered, IsFirstQuery};
ghost use Rattle.tm_publish.specs.Fitting.{AllFit};
ghost use Rattle.tm_publish.specs.Words.{home, known, HasSeen, GoesOn, made_of, refused_of, front_home, front_list};

use crate::looks::{Asked, answer_now, asked_now};
use std::alloc::{AllocError, Global};
use std::sync::{Condvar, Mutex, Wait};
use tm_list::NoMemory;
use tm_office::Hall;
use tm_publish::board::{BoardOf, Closed};
use tm_publish::front::{Front, Named};
use tm_publish::page::{Page, Sheet};
use tm_publish::pass::Pass;
use tm_types::step::{Answered, Settled};

/// A board under one lock, and the condition that its version moved or that it was stopped. It has
/// to be closed, since dropping it leaks the two copies of the office.
#[derive(Drop)]
pub struct EngineOf<L: Named, H: Hall, T: Sheet<L, H>> {
    board: Mutex<BoardOf<L, H, T>>,
    moved: Condvar,
}

pub type Engine<L, H> = EngineOf<L, H, Page<L, H>>;

impl<L: Named, H: Hall, T: Sheet<L, H>> EngineOf<L, H, T> {
    pub(crate) fn new(board: BoardOf<L, H, T>) -> EngineOf<L, H, T> {
        EngineOf {
            board: Mutex::new(board),
            moved: Condvar::new(),
        }
    }

    /// Makes the step as one of the pass, after all that the pass has seen or been told, and
    /// answers its number and its reply.
    ///
    /// Errors: want of memory, or that the engine was stopped; the step isn't made, and the engine
    /// makes no step any more.
    pub fn settle<W: Wait>(
        &self,
        rt: &W,
        alloc: Global,
        pass: &mut Pass<L, H>,
        step: H::Step,
    ) -> Result<Settled<H::Reply>, NoMemory>
        requires fits { (p : H.Opening) (ys : List H.Step) → GoesOn H.fits pass.old p ys
            → H.fits p ys step }
        ensures settled { IfOk result
            (λ s. IsSettled H.fits H.reply_at pass.old pass.new step s.number s.reply) }
        ensures err { OnErr result (made_of pass.new ≡ made_of pass.old) }
        ensures knows { (xs : List H.Step) → HasSeen pass.old xs → HasSeen pass.new xs }
        ensures opening { home pass.new ≡ home pass.old }
        ensures refused { refused_of pass.new ≡ refused_of pass.old }
    {
        let mut guard = self.board.lock(rt);
        let board = &mut *guard;
        let settled = settle_on(board, rt, alloc, pass, step);
        drop(guard);
        self.moved.notify_all();
        settled
    }

    /// As `Pass::look`: Some of `f` of one published office and its version; None where the entry
    /// was refused, which is counted. It waits for nobody.
    pub fn read<X, F: Fn(&H, u64) -> X>(&self, pass: &mut Pass<L, H>, f: F) -> Option<X>
        requires callable { (x : Bor H) → GoesOn H.fits pass.old (H.opening x.now) (H.steps x.now) →
            F.pre f x (length (H.steps x.now)) }
        ensures seen { IfSome result (λ t. (x : Bor H)
            × GoesOn H.fits pass.old (H.opening x.now) (H.steps x.now)
            × (known pass.new ≡ H.steps x.now)
            × F.post f x (length (H.steps x.now)) t) }
        ensures fitting { IfSome result (λ _. (p : H.Opening) → home pass.old ≡ Some p →
            AllFit H.fits p (known pass.new)) }
        ensures refused { IfNone result
            ((refused_of pass.old < refused_of pass.new) ⊎ (refused_of pass.new ≡ u64.MAX)) }
        ensures kept { IfNone result (known pass.new ≡ known pass.old) }
        ensures unseen { IfNone result
            ((xs : List H.Step) → HasSeen pass.new xs → HasSeen pass.old xs) }
        ensures knows { (xs : List H.Step) → HasSeen pass.old xs → HasSeen pass.new xs }
        ensures opening { home pass.new ≡ home pass.old }
        ensures made { made_of pass.new ≡ made_of pass.old }
        ensures counts { refused_of pass.old ≤ refused_of pass.new }
    {
        pass.look(f)
    }

    /// A front that begins with all that the pass had seen or been told. The pass is told of it.
    pub fn front<W: Wait>(&self, rt: &W, pass: &mut Pass<L, H>) -> Front<L, H>
        ensures begins { (xs : List H.Step) → HasSeen pass.old xs
            → IsPrefix xs (front_list result) }
        ensures told { HasSeen pass.new (front_list result) }
        ensures known { known pass.new ≡ front_list result }
        ensures knows { (xs : List H.Step) → HasSeen pass.old xs → HasSeen pass.new xs }
        ensures opening { home pass.new ≡ home pass.old }
        ensures board { front_home result ≡ home pass.old }
        ensures made { made_of pass.new ≡ made_of pass.old }
        ensures refused { refused_of pass.new ≡ refused_of pass.old }
    {
        let mut guard = self.board.lock(rt);
        let board = &mut *guard;
        board.front_after(pass)
    }

    /// Waits for a version in which the query of this serial has its answer, and answers it with
    /// that version, which the pass then knows.
    ///
    /// Errors: that the engine was stopped before.
    pub fn await_answer<W: Wait>(
        &self,
        rt: &W,
        pass: &mut Pass<L, H>,
        serial: u64,
    ) -> Result<(Answered, u64), NoMemory>
        ensures answer { IfOk result
            (λ a. IsAnswered H.fits H.answer_at pass.old pass.new serial (Some a.0) a.1) }
        ensures knows { (xs : List H.Step) → HasSeen pass.old xs → HasSeen pass.new xs }
        ensures opening { home pass.new ≡ home pass.old }
        ensures made { made_of pass.new ≡ made_of pass.old }
        ensures counts { refused_of pass.old ≤ refused_of pass.new }
    {
        for _ in rt.forever() {
            match answer_now(pass, serial) {
                Some((Some(answer), version)) => return Ok((answer, version)),
                Some((None, version)) => {
                    let board = self.moved.wait_while(rt, self.board.lock(rt), |b| {
                        b.version() == version && !b.is_stopped()
                    });
                    if board.version() == version {
                        return Err(AllocError);
                    }
                }
                None => {}
            }
        }
        unreachable!()
    }

    /// Waits for a version in which a query has no answer, and answers the first such query; or for
    /// one in which each has an answer and no query will come. The pass then knows that version.
    ///
    /// Errors: want of memory for the query, or that the engine was stopped before.
    pub fn await_query<W: Wait>(
        &self,
        rt: &W,
        alloc: Global,
        pass: &mut Pass<L, H>,
    ) -> Result<Option<H::Query>, NoMemory>
        ensures query { IfOk result
            (λ first. IsFirstQuery H.fits H.first_at H.over_at pass.old pass.new first) }
        ensures knows { (xs : List H.Step) → HasSeen pass.old xs → HasSeen pass.new xs }
        ensures opening { home pass.new ≡ home pass.old }
        ensures made { made_of pass.new ≡ made_of pass.old }
        ensures counts { refused_of pass.old ≤ refused_of pass.new }
    {
        for _ in rt.forever() {
            let Some(
                Asked {
                    first,
                    over,
                    version,
                },
            ) = asked_now(pass, alloc)
            else {
                continue;
            };
            match first {
                Some(Ok(query)) => return Ok(Some(query)),
                Some(Err(e)) => return Err(e),
                None => {}
            }
            if over {
                return Ok(None);
            }
            let board = self.moved.wait_while(rt, self.board.lock(rt), |b| {
                b.version() == version && !b.is_stopped()
            });
            if board.version() == version {
                return Err(AllocError);
            }
        }
        unreachable!()
    }

    /// Makes no step any more, and wakes who waits.
    pub fn stop<W: Wait>(&self, rt: &W) {
        let mut guard = self.board.lock(rt);
        let board = &mut *guard;
        board.stop();
        drop(guard);
        self.moved.notify_all();
    }

    /// The final office, and how many steps the passes made. All passes are given back. It doesn't
    /// fail.
    pub fn close<W: Wait>(self, rt: &W, passes: Vec<Pass<L, H>>) -> Result<Closed<H>, NoMemory>
        requires { length passes.items ≡ L.parts }
        ensures closes { IsOk result }
        ensures fitting { IfOk result (λ r. AllFit H.fits (H.opening r.office) (H.steps r.office)) }
        ensures counted { IfOk result (λ r. r.own ≡ length (H.steps r.office)) }
        ensures own { IfOk result (λ r. r.own ≡ sum_by (λ p. length (made_of p)) passes.items) }
        ensures known { IfOk result
            (λ r. (k : ℕ) (p : _) (xs : List H.Step) → slice_get passes.items k ≡ Some p →
            HasSeen p xs → IsPrefix xs (H.steps r.office)) }
        ensures opening { IfOk result (λ r. (k : ℕ) (p : _) → slice_get passes.items k ≡ Some p →
            home p ≡ Some (H.opening r.office)) }
    {
        let EngineOf { board, moved: _ } = self;
        board.into_inner().close(rt, passes)
    }
}

/// Makes the step on the board, under the lock.
///
/// Errors: want of memory, or that the board was stopped; the step isn't made, and the board is
/// stopped.
fn settle_on<L: Named, H: Hall, T: Sheet<L, H>, W: Wait>(
    board: &mut BoardOf<L, H, T>,
    rt: &W,
    alloc: Global,
    pass: &mut Pass<L, H>,
    step: H::Step,
) -> Result<Settled<H::Reply>, NoMemory>
    requires fits { (p : H.Opening) (ys : List H.Step) → GoesOn H.fits pass.old p ys
        → H.fits p ys step }
    ensures settled { IfOk result
        (λ s. IsSettled H.fits H.reply_at pass.old pass.new step s.number s.reply) }
    ensures err { OnErr result (made_of pass.new ≡ made_of pass.old) }
    ensures knows { (xs : List H.Step) → HasSeen pass.old xs → HasSeen pass.new xs }
    ensures opening { home pass.new ≡ home pass.old }
    ensures refused { refused_of pass.new ≡ refused_of pass.old }
{
    let number = match board.publish(rt, alloc, pass, step) {
        Ok(number) => number,
        Err(e) => return Err(e),
    };
    let reply = board.office().reply(number).unwrap();
    Ok(Settled { number, reply })
}
