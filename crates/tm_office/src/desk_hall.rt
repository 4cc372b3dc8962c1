//! What a supervisor needs of a hall: the steps by which it comes, answers and leaves.
use crate::hall::Hall;
use tm_types::step::Query;

/// A hall in which a supervisor comes, answers and leaves, whatever steps there are.
pub trait DeskHall: Hall<Query = Query> {
    ghost use Rattle.std.specs.Prelude.{◌≡◌, ℕ, List};

    ghost attach: { Self.Step };

    // to the query of a serial, with a code
    ghost answer: { ℕ → ℕ → Self.Step };

    ghost detach: { Self.Step };

    /// The step by which the supervisor comes. Takes no memory.
    fn attach_step() -> Self::Step
        ensures { result ≡ attach };

    /// The step by which the supervisor answers the query of this serial with this code. Takes no
    /// memory.
    fn answer_step(serial: u64, code: u64) -> Self::Step
        ensures { result ≡ answer serial code };

    /// The step by which the supervisor leaves. Takes no memory.
    fn detach_step() -> Self::Step
        ensures { result ≡ detach };

    // each of these steps fits every list of every opening
    ghost attach_fits: { (p : Self.Opening) (xs : List Self.Step) → Self.fits p xs attach };

    ghost answer_fits: { (p : Self.Opening) (xs : List Self.Step) (serial code : ℕ) →
        Self.fits p xs (answer serial code) };

    ghost detach_fits: { (p : Self.Opening) (xs : List Self.Step) → Self.fits p xs detach };
}
