//! The engine: an office that threads share, read without waiting, and stepped under one lock.
//! Stands on tm_publish for versions, tm_types for answers, and on std's lock and condition.
//! Of its own, for every hall, so that neither engine nor machine stands on the other: they meet by
//! the traits of tm_office.
//! Promises that a step is made once, a wait ends with what a version says, and none is left out.
//! Only tested: that a call which waits returns, and what `stop` does.
#![tactic(auto)]

pub mod engine;
pub mod gate;
mod looks;
pub mod open;

pub use tm_types::step::Settled;
