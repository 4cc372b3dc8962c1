//! What is published: an opening and a list of steps, with whatever they make.
use std::alloc::Global;
use tm_list::NoMemory;

/// An opening and a list of steps, with whatever they make.
pub trait Office: Sized + Drop {
    ghost use Rattle.std.specs.Prelude.{◌≡◌, ◌++◌, ◌∷◌, [], List, IfOk, MatchResult};

    /// What was there at version 0.
    type Opening: Drop;

    /// What makes the next version.
    type Step: Drop;

    ghost opening: { Self → Self.Opening };

    ghost steps: { Self → List Self.Step };

    // that a step may come after the opening and these steps
    ghost fits: { Self.Opening → List Self.Step → Self.Step → Type 0 };

    /// Appends the step.
    ///
    /// Errors: want of memory; the opening and the steps are as before.
    fn apply(&mut self, alloc: Global, step: &Self::Step) -> Result<(), NoMemory>
        requires { fits (opening self.old) (steps self.old) step.now }
        ensures opening { opening self.new ≡ opening self.old }
        ensures steps { MatchResult result (λ _. steps self.new ≡ steps self.old ++ step.now ∷ [])
            (λ _. steps self.new ≡ steps self.old) };

    /// An office with the same opening and steps.
    ///
    /// Errors: want of memory.
    fn copy(&self, alloc: Global) -> Result<Self, NoMemory>
        ensures { IfOk result (λ o. (opening o ≡ opening self.now) × (steps o ≡ steps self.now)) };

    // a step that fits goes on fitting
    ghost stays: { (p : Self.Opening) (xs ys : List Self.Step) (s : Self.Step) →
        fits p xs s → fits p (xs ++ ys) s };

    // that a step fits is a test: it has one proof at most
    ghost one_way: { (p : Self.Opening) (xs : List Self.Step) (s : Self.Step) →
        IsProp (fits p xs s) };
}
