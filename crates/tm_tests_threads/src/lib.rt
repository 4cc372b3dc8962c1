//! The tests of what threads share, boards and engines, on one thread and on two, and of calls that
//! threads make beside each other.
//! Stands on tm_publish, tm_engine and tm_beside; nothing on it.
//! Of its own, over plain offices, so that threads are tried without a rule or a machine.
//! Promises nothing; the name of each test says what it shows.
#![tactic(auto)]

#[cfg(test)]
mod beside;
#[cfg(test)]
mod boards;
#[cfg(test)]
mod engines;
pub mod tally;
