//! The tests of `replay`: what threads do beside each other, held back by gates.
//! Stands on the top call of tomoyo, on tm_engine for gates, and on tm_io for files in memory.
//! Of its own, since it sees whole calls from outside, by their words, files and gates.
//! Promises nothing: each test is named by what it shows.
#![tactic(auto)]

#[cfg(test)]
mod calls;
#[cfg(test)]
mod gates;
#[cfg(test)]
mod orders;
#[cfg(test)]
mod threads;
