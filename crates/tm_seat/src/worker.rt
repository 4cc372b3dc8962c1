//! A worker: its trees, one after another.
ghost use Rattle.std.specs.Prelude.{◌≡◌, ◌++◌, ℕ, List, length, IfOk, OnOk};
ghost use Rattle.std.specs.List.{AllByRecursion};
ghost use Rattle.tm_rules.specs.Types.{Made};
ghost use Rattle.tm_take.specs.Tomoyo.{tomoyo_grammar};
ghost use Rattle.tm_legal.specs.Prelude.{IsNamed, IsOpened};
ghost use Rattle.tm_seat.specs.Seats.{FitsFrom, Begins, MadeBy};
ghost use Rattle.tm_seat.specs.Rows.{IsReady, EachIsPlayed, RowsRise, WorksOn, rows_own, makers_all};

use crate::seat::Seat;
use crate::tree::{PlayedTree, TreeToPlay, play_tree};
use std::alloc::Global;
use std::collections::VecDeque;
use tm_list::NoMemory;

// The next tree of a worker.
fn play_next<S: Seat>(
    seat: &mut S,
    alloc: Global,
    tree: TreeToPlay,
    supervised: bool,
    rows: &mut Vec<PlayedTree>,
) -> Result<(), NoMemory>
    requires opened { IsOpened (S.opening seat.old).policy }
    requires named { IsNamed tomoyo_grammar.is_path (S.opening seat.old).policy }
    requires fitted { FitsFrom (S.opening seat.old) (S.at seat.old) }
    requires ready { IsReady (S.opening seat.old) tree }
    ensures works { OnOk result (WorksOn (S.opening seat.old) supervised
        (S.at seat.old) (S.own seat.old) rows.old.items tree
        (S.at seat.new) (S.own seat.new) rows.new.items) }
    ensures opening { S.opening seat.new ≡ S.opening seat.old }
    ensures grows { Begins (S.at seat.old) (S.at seat.new) }
{
    let row = play_tree(seat, alloc, tree, supervised)?;
    rows.push(row)?;
    Ok(())
}

/// Plays these trees, one after another, and gives what each came to, in the same order.
///
/// Errors: want of memory, or that no answer can come any more.
pub fn play_trees<S: Seat>(
    seat: &mut S,
    alloc: Global,
    trees: Vec<TreeToPlay>,
    supervised: bool,
) -> Result<Vec<PlayedTree>, NoMemory>
    requires opened { IsOpened (S.opening seat.old).policy }
    requires named { IsNamed tomoyo_grammar.is_path (S.opening seat.old).policy }
    requires fitted { FitsFrom (S.opening seat.old) (S.at seat.old) }
    requires ready { AllByRecursion (IsReady (S.opening seat.old)) trees.items }
    ensures fitted { IfOk result (λ rows. FitsFrom (S.opening seat.old) (S.at seat.new)) }
    ensures rows { IfOk result (λ rows. EachIsPlayed (S.opening seat.old) supervised
        (S.at seat.new) trees.items rows.items) }
    ensures own { IfOk result (λ rows. S.own seat.new ≡ S.own seat.old ++ rows_own rows.items) }
    ensures makers { IfOk result (λ rows. MadeBy (makers_all trees.items)
        (S.at seat.old) (S.own seat.old) (S.at seat.new) (S.own seat.new)) }
    ensures rises { IfOk result (λ rows. RowsRise (length (S.at seat.old)) rows.items) }
    ensures opening { S.opening seat.new ≡ S.opening seat.old }
    ensures grows { Begins (S.at seat.old) (S.at seat.new) }
{
    let mut left = VecDeque::from(trees);
    let mut rows = Vec::new(alloc);
    while let Some(tree) = left.pop_front() {
        play_next(seat, alloc, tree, supervised, &mut rows)?;
    }
    Ok(rows)
}
