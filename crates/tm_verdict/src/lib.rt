//! The verdict on one request, of every kind that a trace can hold, under any representation.
//! Stands on tm_rep, tm_domain, tm_except, tm_learn and tm_profile, and on tm_legal's definition.
//! Of its own, on no machine: of a state it takes the policy and whether a supervisor is attached.
//! Promises that the verdict is the defined one, with its line and with the domain to be made.
#![tactic(auto)]

mod candidates;
mod targets;
mod verdicts;

pub use tm_rep as rep;
pub use verdicts::{verdict_in, verdict_of};
