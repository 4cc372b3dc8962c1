//! The tests of domain names and of the readers that count the words of a line: what no file of a
//! call shows. Whole lines stand as rows in tm_rows.
//! Stands on every crate whose calls it tries, and nothing stands on it. A test of a private item
//! stands in the crate of that item.
//! Of its own, apart from tm_tests_ground, which stands on no rule and no line.
//! Promises nothing; the name of each test says what it shows.
#![tactic(auto)]

#[cfg(test)]
mod domain;
#[cfg(test)]
mod words;
