//! A supervisor at an engine: it comes, answers query after query by its book, and leaves.
//! Stands on tm_desk for the codes of a book, on tm_engine for steps and waits, and on tm_office.
//! Of its own, no methods of a desk, so that plays by turns don't stand on the engine.
//! Promises which steps it makes: an Attach; Answers, each for the first query; a Detach when due.
#![tactic(auto)]

mod coming;
mod making;
mod serving;

pub use coming::begin;
pub use serving::serve;
