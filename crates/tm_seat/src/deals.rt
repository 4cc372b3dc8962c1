//! How trees are dealt.
ghost use Rattle.std.specs.Prelude.{◌≡◌, ◌<◌, ℕ, [], Some, IfOk, OnOk, length, replicate, slice_get};
ghost use Rattle.tm_seat.specs.Dealing.{hand_of, Gives};

use crate::tree::TreeToPlay;
use std::alloc::Global;
use tm_list::{NoMemory, Seq};

// So many empty hands.
fn empty_hands(alloc: Global, workers: u32) -> Result<Vec<Seq<TreeToPlay>>, NoMemory>
    ensures { IfOk result (λ hands. hands.items ≡ replicate workers []) }
{
    let mut hands = Vec::new(alloc);
    for _count in 0..workers {
        hands.push(Seq::new(alloc))?;
    }
    Ok(hands)
}

// One tree more in a hand.
fn give(hands: &mut Vec<Seq<TreeToPlay>>, place: usize, tree: TreeToPlay) -> Result<(), NoMemory>
    requires { place < length hands.old.items }
    ensures { OnOk result (Gives hands.old.items place tree hands.new.items) }
{
    hands[place].push(tree)
}

/// Deals trees to so many workers: the tree of number t goes to the worker, from 0, whose number is
/// what t less 1 leaves, divided by the number of workers. Each hand is in the trees' order.
///
/// Errors: want of memory.
pub fn deal(
    alloc: Global,
    trees: Vec<TreeToPlay>,
    workers: u32,
) -> Result<Vec<Seq<TreeToPlay>>, NoMemory>
    requires { 0 < workers }
    ensures count { IfOk result (λ hands. length hands.items ≡ workers) }
    ensures dealt { IfOk result (λ hands. (worker : ℕ) → worker < workers →
        slice_get hands.items worker ≡ Some (hand_of workers worker trees.items)) }
{
    let mut hands = empty_hands(alloc, workers)?;
    for tree in trees {
        let place = (tree.number.saturating_sub(1) % workers) as usize;
        give(&mut hands, place, tree)?;
    }
    Ok(hands)
}
