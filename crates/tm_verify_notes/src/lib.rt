//! What is noted of a given run's looks and takes, and scans for the first one at fault.
//! Stands on tm_legal and tm_verify_laws, whose clauses are judged; no machine is made here.
//! Of its own, on no machine, so that notes are scanned apart from the versions of tm_verify.
//! Promises that right notes of all looks give right notes of each take, and their first fault.
//!
//! For example, process 5 of tree 1 begins in domain 2 and does one request, and the run has two
//! steps, a Learn (1) and an editor's line (2), and one take: before 2, after 2, granted, with one
//! look at version 0, whose reason is learn and whose own step is 1. `all_cases` gives one
//! `DoCase`: tree 1, 5 in domain 2 with floor 0, the request and the take; `all_looks` gives its
//! look. tm_verify, which has the versions, notes `shown`, `owns`, `audited` and `hears` of that
//! look, here all true; `all_takes` makes of these the take's `holds`, `owns`, `hears` and `ends`.
//! Were the take not granted, `ends` alone would be false, and `take_fault` of `Flag::Ends` be 1.
//! Of each step a `StepNote` says `replied` and `suits`, and `suits` holds of both: neither is the
//! supervisor's.
#![tactic(auto)]

mod cases;
mod flat;
mod given;
mod looks;
mod notes;
mod steps;
mod sums;
mod takes;

pub use cases::{DoCase, all_cases};
pub use flat::{LookOn, all_looks, no_parts};
pub use given::Given;
pub use looks::{do_follow, reply_at, retry_written, step_at};
pub use notes::{LookNote, PartNote, VerdictNote, is_shown, owns_in_order};
pub use steps::{StepNote, suits};
pub use sums::{Flag, TakeNote, all_completed, all_takes, take_fault};
pub use takes::{all_do_pids, do_rise, pairs_fault};
pub use tm_rep as rep;
