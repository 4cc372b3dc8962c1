//! The tests of stolen subtrees: what workers give back, as values, and the rows that are gathered.
//! Stands on tm_steal_rows; nothing stands on it.
//! Of its own, apart from tm_steal, so that also what no worker gives back is tried.
//! Promises nothing; the name of each test says what it shows.
#![tactic(auto)]

#[cfg(test)]
mod rows;
