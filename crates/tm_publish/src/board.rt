//! The writer of an office.
ghost use Rattle.std.specs.Prelude.{◌≡◌, ℕ, ◌+◌, ◌<◌, ◌≤◌, ◌^◌, ◌++◌, ◌∷◌, [], List, Some, IsTrue, true, false};
ghost use Rattle.std.specs.Prelude.{length, slice_index, slice_get, MatchResult, IfOk, IsOk, IsErr};
ghost use Rattle.std.specs.List.{sum_by};
ghost use mathlib.Core.List.{IsPrefix};
ghost use Rattle.tm_publish.specs.Fitting.{AllFit};
ghost use Rattle.tm_publish.specs.History.{opening_of, steps_of, IsNext, MayFollow};
ghost use Rattle.core.specs.Mem.{manually_drop_value};

use crate::closing::give_back;
use crate::front::{Front, Named};
use crate::page::{Page, Sheet};
use crate::pass::Pass;
use crate::press::Press;
use core::mem::{ManuallyDrop, replace_with};
use std::alloc::{AllocError, Global};
use std::sync::Wait;
use std::sync::ledger::{Book, Share};
use tm_list::NoMemory;
use tm_office::Office;

/// How many steps are made at most.
const MOST: u64 = 1 << 60;

/// What publishes an office, a step at a time, and counts the steps of all passes. It has to be
/// closed: dropping it leaks the two copies of the office.
#[derive(Drop)]
pub struct BoardOf<L: Named, O: Office, T: Sheet<L, O>> {
    press: ManuallyDrop<Press<L, O, T>>,
    /// What is published.
    front: Front<L, O>,
    stopped: bool,
    book: Book<L>,
    rest: Share<L>,
    ghost shown: { T.log (manually_drop_value press).writer.desk.shown.value ≡ front.seen.log },
    ghost counted: { book.total ≡ front.version },
    ghost nothing: { (rest.parts ≡ 0) × (rest.amount ≡ 0) },
}

pub type Board<L, O> = BoardOf<L, O, Page<L, O>>;

impl<L: Named, O: Office, T: Sheet<L, O>> BoardOf<L, O, T> {
    ghost use Rattle.tm_publish.specs.Boards.{board_home, board_list, is_stopped};
    ghost use Rattle.tm_publish.specs.Words.{home, known, HasSeen, GoesOn, made_of, refused_of, front_home, front_list};

    pub(crate) fn new(
        press: Press<L, O, T>,
        front: Front<L, O>,
        book: Book<L>,
        rest: Share<L>,
    ) -> BoardOf<L, O, T>
        requires shown { T.log press.writer.desk.shown.value ≡ front.seen.log }
        requires counted { book.total ≡ front.version }
        requires nothing { (rest.parts ≡ 0) × (rest.amount ≡ 0) }
        ensures { (result.front.seen.log ≡ front.seen.log) × (result.stopped ≡ false) }
    {
        BoardOf {
            press: unsafe { ManuallyDrop::new_unchecked(press) },
            front,
            stopped: false,
            book,
            rest,
        }
    }

    /// All that is published so far.
    pub fn front(&self) -> Front<L, O>
        ensures { (front_home result ≡ board_home self.now)
            × (front_list result ≡ board_list self.now) }
    {
        self.published()
    }

    /// `front`, with all that is known of it.
    fn published(&self) -> Front<L, O>
        ensures same { result.seen.log ≡ self.now.front.seen.log }
        ensures fitting { (p : O.Opening) → opening_of result.seen.log ≡ Some p →
            AllFit O.fits p (steps_of result.seen.log) }
    {
        self.front.twin()
    }

    /// The published office.
    pub fn office(&self) -> &O
        ensures shown { (board_home self.now ≡ Some (O.opening result.now))
            × (board_list self.now ≡ O.steps result.now) }
        ensures fitting { AllFit O.fits (O.opening result.now) (O.steps result.now) }
    {
        self.press.writer.published().office()
    }

    /// How long the published list is.
    pub fn version(&self) -> u64
        ensures { result ≡ length (board_list self.now) }
    {
        self.front.version
    }

    /// Whether it was stopped.
    pub fn is_stopped(&self) -> bool
        ensures { result ≡ is_stopped self.now }
    {
        self.stopped
    }

    /// Publishes nothing more.
    pub fn stop(&mut self)
        ensures stopped { is_stopped self.new ≡ true }
        ensures same { (board_list self.new ≡ board_list self.old)
            × (board_home self.new ≡ board_home self.old) }
    {
        self.stopped = true;
    }

    /// Publishes the step as one of the pass, and answers its number.
    ///
    /// Errors: want of memory, that 2^60 steps are made, or that it was stopped; what is published
    /// stays, and nothing more is published.
    pub fn publish<W: Wait>(
        &mut self,
        rt: &W,
        alloc: Global,
        pass: &mut Pass<L, O>,
        step: O::Step,
    ) -> Result<u64, NoMemory>
        requires fits { (p : O.Opening) (ys : List O.Step) → GoesOn O.fits pass.old p ys
            → O.fits p ys step }
        ensures list { MatchResult result (λ _. board_list self.new ≡ board_list self.old ++ step ∷ [])
            (λ _. board_list self.new ≡ board_list self.old) }
        ensures number { IfOk result (λ n. n ≡ length (board_list self.old) + 1) }
        ensures before { IfOk result (λ n. (xs : List O.Step) → HasSeen pass.old xs →
            IsPrefix xs (board_list self.old)) }
        ensures goes_on { IfOk result (λ n. (p : O.Opening) → home pass.old ≡ Some p →
            GoesOn O.fits pass.old p (board_list self.old)) }
        ensures known { IfOk result (λ n. known pass.new ≡ board_list self.new) }
        ensures fitting { IfOk result (λ n. (p : O.Opening) → home pass.old ≡ Some p →
            AllFit O.fits p (known pass.new)) }
        ensures made { MatchResult result (λ n. made_of pass.new ≡ made_of pass.old ++ n ∷ [])
            (λ _. made_of pass.new ≡ made_of pass.old) }
        ensures rising { IfOk result (λ n. (k : ℕ) → k < length (made_of pass.old) →
            slice_index (made_of pass.old) k < n) }
        ensures knows { (xs : List O.Step) → HasSeen pass.old xs → HasSeen pass.new xs }
        ensures opening { home pass.new ≡ home pass.old }
        ensures origin { board_home self.new ≡ board_home self.old }
        ensures refused { refused_of pass.new ≡ refused_of pass.old }
        ensures same { IfOk result (λ n. board_home self.new ≡ home pass.old) }
        ensures stopped { MatchResult result (λ _. is_stopped self.new ≡ is_stopped self.old)
            (λ _. is_stopped self.new ≡ true) }
        ensures stays { is_stopped self.old ≡ true → IsErr result }
    {
        if self.stopped {
            return Err(AllocError);
        }
        let now = self.published();
        if now.version >= MOST || !pass.mind.room() {
            self.stopped = true;
            return Err(AllocError);
        }
        self.press.meet(&pass.mind, &now);
        pass.mind.told(&now);
        let printed = replace_with(
            &mut *self.press,
            (rt, alloc, step, &now),
            |press: Press<L, O, T>, x: (&W, Global, O::Step, &Front<L, O>)| -> (
                Press<L, O, T>,
                Result<Front<L, O>, NoMemory>,
            )
                requires now { x.3.now.seen.log ≡ T.log press.writer.desk.shown.value }
                requires fits { MayFollow O.fits x.3.now.seen.log x.2 }
                requires room { x.3.now.version < 2 ^ 62 }
                ensures { MatchResult result.1
                    (λ next. (T.log result.0.writer.desk.shown.value ≡ next.seen.log)
                    × IsNext x.entry.3.now.seen.log x.entry.2 next.seen.log)
                    (λ _. T.log result.0.writer.desk.shown.value ≡ x.entry.3.now.seen.log) }
            { press.print(x.0, x.1, x.2, x.3) },
        );
        let Ok(next) = printed else {
            self.stopped = true;
            return Err(AllocError);
        };
        self.front = next.twin();
        pass.mind.told(&next);
        pass.mind.make(&mut self.book, next.version);
        Ok(next.version)
    }

    /// A front that begins with all that the pass had seen or been told. The pass is told of it.
    pub fn front_after(&mut self, pass: &mut Pass<L, O>) -> Front<L, O>
        ensures begins { (xs : List O.Step) → HasSeen pass.old xs → IsPrefix xs (front_list result) }
        ensures told { HasSeen pass.new (front_list result) }
        ensures known { known pass.new ≡ front_list result }
        ensures knows { (xs : List O.Step) → HasSeen pass.old xs → HasSeen pass.new xs }
        ensures opening { home pass.new ≡ home pass.old }
        ensures board { front_home result ≡ home pass.old }
        ensures made { made_of pass.new ≡ made_of pass.old }
        ensures refused { refused_of pass.new ≡ refused_of pass.old }
        ensures same { (board_list self.new ≡ board_list self.old)
            × (board_home self.new ≡ board_home self.old)
            × (is_stopped self.new ≡ is_stopped self.old) }
    {
        let now = self.published();
        self.press.meet(&pass.mind, &now);
        pass.told(&now);
        now
    }

    /// The final office, and how many steps the passes made. All passes are given back. It doesn't
    /// fail.
    pub fn close<W: Wait>(self, rt: &W, passes: Vec<Pass<L, O>>) -> Result<Closed<O>, NoMemory>
        requires { length passes.items ≡ L.parts }
        ensures closes { IsOk result }
        ensures office { IfOk result (λ r. (board_list self ≡ O.steps r.office)
            × (board_home self ≡ Some (O.opening r.office))) }
        ensures fitting { IfOk result (λ r. AllFit O.fits (O.opening r.office) (O.steps r.office)) }
        ensures counted { IfOk result (λ r. r.own ≡ length (O.steps r.office)) }
        ensures own { IfOk result (λ r. r.own ≡ sum_by (λ p. length (made_of p)) passes.items) }
        ensures known { IfOk result
            (λ r. (k : ℕ) (p : _) (xs : List O.Step) → slice_get passes.items k ≡ Some p →
            HasSeen p xs → IsPrefix xs (O.steps r.office)) }
        ensures opening { IfOk result (λ r. (k : ℕ) (p : _) → slice_get passes.items k ≡ Some p →
            home p ≡ Some (O.opening r.office)) }
    {
        let BoardOf {
            press,
            front,
            stopped: _,
            mut book,
            rest,
        } = self;
        let (shown, mut last) = ManuallyDrop::into_inner(press).take(rt);
        let page = Box::into_inner(shown);
        let office = page.into_office();
        give_back(&front, &mut last, &office, &mut book, rest, passes);
        Ok(Closed {
            office,
            own: front.version,
        })
    }
}

/// What is left of a board.
#[derive(Drop)]
pub struct Closed<O> {
    /// The office with all steps.
    pub office: O,
    /// How many steps the passes made.
    pub own: u64,
}
