//! Which clause of a given run fails first, by what was noted of its looks, takes and steps.
//! Stands on tm_verify_notes for what is noted, and on tm_verify_laws; no machine is made here.
//! Of its own, so that the clauses are proved beside tm_core, on which they don't stand.
//! Promises the first clause that fails and its place, where the notes are right.
#![tactic(auto)]

mod acts;
mod clauses;
mod counts;
mod heights;
mod lines;
mod noted;
mod owned;
mod places;
mod supervised;

pub use clauses::{judge_noted, rise_fault};
pub use owned::note_of;
