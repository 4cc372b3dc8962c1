//! What a worker does with its hand.
use crate::seat::Seat;
use crate::tree::{PlayedTree, TreeToPlay};
use crate::worker::play_trees;
use std::alloc::Global;
use std::sync::Wait;
use tm_list::{NoMemory, Seq};

/// A way of working: what each worker does with its hand, from a seat of its own, and what it gives
/// back.
pub trait Work<H, D> {
    ghost use Rattle.std.specs.Prelude.{◌≡◌, ◌≤◌, ℕ, [], length, IfOk};
    ghost use Rattle.tm_rules.specs.Types.{Start};
    ghost use Rattle.tm_seat.specs.Seats.{FitsFrom, Begins};
    ghost use Rattle.tm_seat.specs.Parts.{CanBegin, Deed, deed};

    // what a hand needs of the opening
    ghost ready: { Self → Start → H → Type 0 };

    // what a worker with this hand has come to, that knew at least so many steps when it began
    ghost did: { Self → Start → ℕ → H → Deed D → Type 0 };

    /// Plays a hand from a seat that has made nothing, and gives what it came to. Whether a
    /// supervisor stands is told.
    ///
    /// Errors: want of memory, or that no answer can come any more.
    fn work<S: Seat, W: Wait>(
        &self,
        rt: &W,
        seat: &mut S,
        alloc: Global,
        hand: H,
        supervised: bool,
    ) -> Result<Vec<D>, NoMemory>
        requires can { CanBegin (S.opening seat.old) }
        requires stands { supervised ≡ (S.opening seat.old).desk }
        requires ready { ready self.now (S.opening seat.old) hand }
        requires fitted { FitsFrom (S.opening seat.old) (S.at seat.old) }
        requires made { S.own seat.old ≡ [] }
        ensures did { IfOk result (λ rows. (floor : ℕ) → floor ≤ length (S.at seat.old)
            → did self.now (S.opening seat.old) floor hand
            (deed (S.at seat.new) (S.own seat.new) rows.items)) }
        ensures opening { S.opening seat.new ≡ S.opening seat.old }
        ensures grows { Begins (S.at seat.old) (S.at seat.new) };
}

/// The way of working by whole trees: a hand is the trees that a worker plays, in order.
pub struct Trees;

impl Work<Seq<TreeToPlay>, PlayedTree> for Trees {
    ghost use Rattle.std.specs.List.{AllByRecursion};
    ghost use Rattle.tm_seat.specs.Rows.{IsReady};
    ghost use Rattle.tm_seat.specs.Parts.{WorkerDid};

    ghost ready = { λ _ start trees. AllByRecursion (IsReady start) trees };

    ghost did = { λ _ start floor trees done. WorkerDid start floor trees done };

    fn work<S: Seat, W: Wait>(
        &self,
        _rt: &W,
        seat: &mut S,
        alloc: Global,
        hand: Seq<TreeToPlay>,
        supervised: bool,
    ) -> Result<Vec<PlayedTree>, NoMemory> {
        play_trees(seat, alloc, hand.into_vec(), supervised)
    }
}
