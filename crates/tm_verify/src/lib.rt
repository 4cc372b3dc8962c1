//! Whether a given run is legal, and if not, which clause it breaks first, and where.
//! Stands on tm_verify_steps for the clauses by what was noted, and on tm_core for what looks show.
//! Of its own, since here alone the judge makes a machine: notes and clauses stand on none.
//! Promises that the clauses before hold, and that the named one fails at the named place first.
#![tactic(auto)]

mod judging;
mod pass;
mod runs;

pub use runs::{judge_run, legal};
pub use tm_core as plays;
pub use tm_indexed as indexed;
pub use tm_indexed::policies as policy;
pub use tm_verify_laws::Broken;
pub use tm_verify_notes::{Given, rep};
