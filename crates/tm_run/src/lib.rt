//! The text of a run: its steps, its takes, their looks and audit texts; printed and read.
//! Stands on the lines of `tm_entry` and `tm_domain`, and on the numbers and words below.
//! Of its own, so that no player and no judge stands on the text of a run, nor that text on them.
//! Promises one text for each run, the run that a text is, and the first line that is wrong.
#![tactic(auto)]

mod fields;
mod lines;
mod look;
mod printing;
mod reading;
mod replies;
mod room;
mod step_words;
mod steps;

pub use printing::print_run;
pub use reading::{read_run, run_round_trip};
