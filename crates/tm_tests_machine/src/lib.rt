//! The tests of engines of a machine: passes that step and look, answers, and a stop.
//! Stands on tm_engine, tm_machine and tm_indexed; nothing stands on it.
//! Of its own, so that engines over machines are tried without a player.
//! Promises of a step and a look what the definitions of steps say; else each test's name tells.
#![tactic(auto)]

#[cfg(test)]
mod machines;
#[cfg(test)]
mod opened;
#[cfg(test)]
mod shared;
pub mod steps;
