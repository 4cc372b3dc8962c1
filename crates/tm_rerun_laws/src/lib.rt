//! A learned run is repeated: the laws of clean runs and of the switched final policy.
//! Stands on tm_legal, whose definitions of legal runs, plays and switched policies it takes; it
//! has laws alone, and no code.
//! Of its own, so that its laws are of every grammar, and only the top call waits for them.
//! Promises that every legal rerun of a clean run from a plain opening, under its switched final
//! policy, makes no step and grants every take.
#![tactic(auto)]

mod execute_law;
mod growth_law;
mod learned_law;
mod repeat_law;

pub use execute_law::first_execute_stays;
pub use growth_law::{clean_runs_grow, domains_stay, policies_stay_plain};
pub use learned_law::{
    learned_lines_grant, switched_domains, switched_modes, switched_namespaces, switched_profiles,
    switched_stays_opened, switched_stays_plain, switched_ways,
};
pub use repeat_law::{learned_runs_repeat, looks_repeat, plain_first, switched_keeps};
