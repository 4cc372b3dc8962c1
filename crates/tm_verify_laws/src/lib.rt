//! Which clause a run breaks first, and where: definitions, tests that compute, and their laws.
//! Stands on tm_legal, whose clauses are judged; no code but functions without a body.
//! Of its own, so that the judge and the top call cite one meaning of the first broken clause.
//! Promises that a run which breaks a clause first isn't legal, and that the tests decide clauses.
#![tactic(auto)]

mod broken;
mod laws;

pub use broken::Broken;
pub use laws::{broken_runs, looks_decide, steps_decide, takes_decide, unfit_steps_change_nothing};
