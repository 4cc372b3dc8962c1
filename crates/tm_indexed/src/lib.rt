//! A policy with an index, by which a request and a line are found without walking the lists.
//! Stands on tm_index, on tm_policy, whose search it shares, and on tm_change_domains for changes.
//! Of its own, so that verdicts, machines and plays stand on the trait of tm_rep and on no index.
//! Promises what the trait of tm_rep says, the index always that of the policy, in bounded memory.
#![tactic(auto)]

mod adding;
mod choosing;
mod group_lines;
mod indexed;
mod learning;
mod lines;
mod lists;
mod loading;
mod making;
mod removing;
mod search;
mod settings;

pub use indexed::Indexed;
pub use loading::load_indexed;
pub use tm_policy as policies;
pub use tm_policy::rep;
