//! The machine: an opening, and the steps that were made since, with their makers and replies.
//! Stands on tm_legal, whose definition of a step it computes, on tm_rep, tm_query and tm_office.
//! Of its own, below the plays of tm_core, so that an engine over machines needs no player.
//! Promises that each step does and is replied what the definition says, or isn't made.
#![tactic(auto)]

mod current;
mod fit;
mod machine;
mod office;

pub use machine::Machine;
pub use tm_rep as rep;
