//! What became of queries: where in a machine's list each was asked, and where it was answered.
//! Stands on tm_made, whose lists of steps it speaks of; no code but functions without a body.
//! Of its own, so that no code waits for it: nothing stands on it.
//! Promises that an answer stands only where it was given or the supervisor left.
#![tactic(auto)]

mod laws;

pub use laws::{answers_are_given, queries_are_asked};
