//! An office beside the history that it stands for.
ghost use Rattle.std.specs.Prelude.{◌≡◌, ◌++◌, [], Some, MatchResult};
ghost use Rattle.tm_publish.specs.Fitting.{AllFit};
ghost use Rattle.tm_publish.specs.History.{opening_of, steps_of, next_key, MayFollow, entries};

use crate::front::{Front, Named};
use crate::last::Last;
use left_right::Absorb;
use std::alloc::Global;
use tm_list::NoMemory;
use tm_office::Office;

/// An office, and the front that it stands for.
#[derive(Drop)]
pub struct Page<L: Named, O: Office> {
    office: O,
    pub(crate) front: Front<L, O>,
    pub ghost opened: { opening_of front.seen.log ≡ Some (O.opening office) },
    pub ghost listed: { steps_of front.seen.log ≡ O.steps office },
    pub ghost fitted: { ∥ AllFit O.fits (O.opening office) (O.steps office) ∥₁ },
}

// the press applies steps itself, since `absorb_first` has no condition that could say that a step
// fits
impl<L: Named, O: Office> Absorb<()> for Page<L, O> {
    type State = ();

    ghost state = { λ p. tt };

    ghost applied = { λ s x. s };

    fn absorb_first(&mut self, _operation: &(), _other: &Page<L, O>) -> Result<(), NoMemory> {
        Ok(())
    }
}

impl<L: Named, O: Office> Page<L, O> {
    /// An office with no step, and the front that it stands for.
    pub(crate) fn new(office: O, front: &Front<L, O>) -> Page<L, O>
        requires opened { opening_of front.now.seen.log ≡ Some (O.opening office) }
        requires listed { steps_of front.now.seen.log ≡ O.steps office }
        requires empty { O.steps office ≡ [] }
        ensures { (result.front.seen ≡ front.now.seen) × (result.office ≡ office) }
    {
        Page {
            office,
            front: front.twin(),
        }
    }

    /// The office.
    pub(crate) fn inside(&self) -> &O
        ensures office { result.now ≡ self.now.office }
        ensures fitted { AllFit O.fits (O.opening result.now) (O.steps result.now) }
    {
        &self.office
    }
}

/// A page as the press sees it: what holds a writer of pages is generic in them.
pub trait Sheet<L: Named, O: Office>: Absorb<(), State = ()> + Drop {
    ghost use Rattle.std.specs.Prelude.{◌≡◌, ◌<◌, ◌^◌, List, Some, MatchResult};
    ghost use Rattle.tm_publish.specs.declared.event.Event.{Event};
    ghost use Rattle.tm_publish.specs.Fitting.{AllFit};
    ghost use Rattle.tm_publish.specs.History.{opening_of, steps_of, next_key, IsNext, MayFollow};

    // the history that it stands for
    ghost log: { Self → List (Event O.Opening O.Step) };

    /// Applies the step by which the front is further.
    ///
    /// Errors: want of memory; the page is as before.
    fn follow(&mut self, alloc: Global, step: &O::Step, front: &Front<L, O>) -> Result<(), NoMemory>
        requires fits { MayFollow O.fits (log self.old) step.now }
        requires front { IsNext (log self.old) step.now front.now.seen.log }
        ensures { MatchResult result (λ _. log self.new ≡ front.now.seen.log)
            (λ _. log self.new ≡ log self.old) };

    /// Applies a step, and enters it in the history, of which the front is all.
    ///
    /// Errors: want of memory; the page is as before, and nothing is entered.
    fn grow(
        &mut self,
        alloc: Global,
        step: &O::Step,
        now: &Front<L, O>,
        last: &mut Last<L, O>,
    ) -> Result<Front<L, O>, NoMemory>
        requires fits { MayFollow O.fits (log self.old) step.now }
        requires now { now.now.seen.log ≡ log self.old }
        requires key { last.old.pen.nib.key ≡ next_key now.now.seen.log }
        requires room { now.now.version < 2 ^ 62 }
        ensures grown { MatchResult result
            (λ next. (log self.new ≡ next.seen.log) × IsNext (log self.old) step.now next.seen.log)
            (λ _. log self.new ≡ log self.old) }
        ensures key { MatchResult result
            (λ next. last.new.pen.nib.key ≡ next_key next.seen.log)
            (λ _. last.new.pen.nib.key ≡ last.old.pen.nib.key) };

    /// Its office.
    fn office(&self) -> &O
        ensures { (opening_of (log self.now) ≡ Some (O.opening result.now))
            × (steps_of (log self.now) ≡ O.steps result.now) };

    /// Its office, which leaves it.
    fn into_office(self) -> O
        ensures { (opening_of (log self) ≡ Some (O.opening result))
            × (steps_of (log self) ≡ O.steps result) };

    // each of its steps fits
    ghost fitted: { (t : Self) (p : O.Opening) → opening_of (log t) ≡ Some p →
        ∥ AllFit O.fits p (steps_of (log t)) ∥₁ };
}

impl<L: Named, O: Office> Sheet<L, O> for Page<L, O> {
    ghost use Rattle.tm_publish.specs.Fitting.{fitted_of};

    ghost log = { λ p. p.front.seen.log };

    fn follow(
        &mut self,
        alloc: Global,
        step: &O::Step,
        front: &Front<L, O>,
    ) -> Result<(), NoMemory> {
        self.office.apply(alloc, step)?;
        self.front = front.twin();
        Ok(())
    }

    fn grow(
        &mut self,
        alloc: Global,
        step: &O::Step,
        now: &Front<L, O>,
        last: &mut Last<L, O>,
    ) -> Result<Front<L, O>, NoMemory> {
        self.office.apply(alloc, step)?;
        let next = last.enter(now, step);
        self.front = next.twin();
        Ok(next)
    }

    fn office(&self) -> &O {
        &self.office
    }

    fn into_office(self) -> O {
        let Page { office, front: _ } = self;
        office
    }

    ghost fitted = { λ t p e. fitted_of O.fits (O.opening t.office) (O.steps t.office) p
        t.front.seen.log t.opened t.listed e t.fitted };
}

/// Applies the step that the page lacks, if any.
///
/// Errors: the step, where memory is wanting; the page is as before.
pub(crate) fn catch_up<L: Named, O: Office, T: Sheet<L, O>>(
    page: &mut T,
    alloc: Global,
    late: Option<O::Step>,
    front: &Front<L, O>,
) -> Result<(), O::Step>
    requires fits { (s : O.Step) → late ≡ Some s → MayFollow O.fits (T.log page.old) s }
    requires front { front.now.seen.log ≡ T.log page.old
        ++ entries (next_key front.now.seen.log) late }
    ensures { MatchResult result (λ _. T.log page.new ≡ front.now.seen.log) (λ s. (late ≡ Some s)
        × (T.log page.new ≡ T.log page.old)) }
{
    let Some(step) = late else {
        return Ok(());
    };
    match page.follow(alloc, &step, front) {
        Ok(()) => Ok(()),
        Err(_) => Err(step),
    }
}
