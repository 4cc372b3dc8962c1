//! Steps that were made: lists of them with their makers, and what lasts whatever steps are made.
//! Stands on tm_legal; no code but functions without a body, on which the laws stand.
//! Of its own, below the machine and joint runs, which both list steps with makers and stand apart.
//! Promises that what fits goes on fitting, that domains last, and that refusals change nothing.
#![tactic(auto)]

mod made_law;

pub use made_law::{
    domains_are_kept, once_live_is_profiled, refused_lines_change_nothing,
    refused_steps_change_nothing, steps_still_fit,
};
