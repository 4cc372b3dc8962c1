//! The tests of lists, words, numbers, addresses, types, patterns and shelves: their calls,
//! compared with answers that come from outside the definitions.
//! Stands on every crate whose calls it tries, and nothing stands on it. A test of a private item
//! stands in the crate of that item.
//! Of its own, low, so that these are tried before a rule or a line is proved.
//! Promises nothing; the name of each test says what it shows.
#![tactic(auto)]

#[cfg(test)]
mod addr;
#[cfg(test)]
mod disks;
#[cfg(test)]
mod io;
#[cfg(test)]
mod list;
#[cfg(test)]
mod number;
#[cfg(test)]
mod pattern;
#[cfg(test)]
mod texts;
#[cfg(test)]
mod types;
#[cfg(test)]
mod word;
