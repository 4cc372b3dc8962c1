//! Tests of policies with and without an index, of queries, runs and sorted records: what no row
//! shows.
//! Stands on every crate whose calls it tries, and nothing stands on it.
//! Of its own, so that these are tried without a machine or a player.
//! Promises nothing; the name of each test says what it shows.
#![tactic(auto)]

#[cfg(test)]
mod copies;
#[cfg(test)]
mod index;
#[cfg(test)]
mod policy;
#[cfg(test)]
mod query;
#[cfg(test)]
mod run_reading;
#[cfg(test)]
mod samples;
#[cfg(test)]
mod sort;
