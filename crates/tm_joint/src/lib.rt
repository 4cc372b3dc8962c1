//! Joint runs: many activities make steps beside each other, each knowing of the others' by a list.
//! Stands on tm_made; no code but functions without a body, on which the laws stand.
//! Of its own: its law joins workers (tm_seat) and a supervisor (tm_serve) that are proved apart.
//! Promises that a joint run is legal, in whatever order its steps came.
#![tactic(auto)]

mod joint_law;
mod take_law;

pub use joint_law::{attached_comes_first, joint_runs_are_legal, passes_own_their_steps};
pub use take_law::{merged_processes, takes_beside_others, trees_beside_others};
