//! What is said of a whole run, and of its opening: whether it is clean, or plain, and its summary.
//! Stands on tm_rules and tm_legal, whose definitions it computes, on tm_word and on tm_number.
//! Of its own, on no player: it needs a run and a policy, however they came.
//! Promises that each answer is the one of its definition, for every run and every policy.
#![tactic(auto)]

mod clean;
mod plainness;
mod quiet;
mod same;
mod summary;
mod switching;

pub use clean::is_clean;
pub use plainness::is_plain;
pub use same::has_same_domains;
pub use summary::{no_rerun_line, rerun_line, summary_line};
pub use switching::switched;
