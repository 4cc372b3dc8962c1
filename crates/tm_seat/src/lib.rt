//! What each part of a replay does from a seat of its own: takes, trees that are dealt to workers,
//! editors.
//! Stands on tm_take for takes and on tm_joint for what they come to; on no engine.
//! Of its own, for every seat, so that tm_replay and tm_steal_rows share what a part does.
//! Promises that what all parts have come to is a legal run, in whatever order its steps came.
//!
//! For example, a worker is dealt tree 1, whose processes start in a domain that learns: 5 reads
//! /a, 5 forks 6, 6 reads /a. The supervisor has come by step 1. At record 1 the worker looks at
//! version 1 and owes a Learn, which it settles as step 2, made by process 5: that take has one
//! look, with own step 2. At record 2 process 6 stands where 5 does. At record 3 it looks at
//! version 2, or at 9 where other trees have made seven steps meanwhile, and is granted by what was
//! learned: that look has no own step. Last it settles the End, as step 3 (or 10), made by tree 1.
//! The row is a `PlayedTree` of number 1, those two takes, end Some(3) (or Some(10)), and the two
//! requests, which are only to be freed. The seat's own steps are 2 and 3 (or 10).
#![tactic(auto)]

mod deals;
mod editor;
mod law;
mod never;
mod part;
mod rows;
mod seat;
mod take;
mod tree;
mod work;
mod worker;

pub use deals::deal;
pub use editor::play_editor;
pub use law::replayed_runs_are_legal;
pub use never::lost;
pub use part::{Part, working_parts};
pub use rows::gather;
pub use seat::Seat;
pub use take::{play_if_there, play_take};
pub use tree::{PlayedTree, TreeToPlay, play_tree};
pub use work::{Trees, Work};
pub use worker::play_trees;
