//! The top call: it fetches the files that the words ask for, does the command, stores and prints.
//! Stands on tm_call, tm_core, tm_replay and the crates that read and print what a command needs.
//! Of its own, since a program's crate can't be linked: tomoyo_run, rows and tests call it.
//! Promises of each status its cause, what a call that is done has stored, and that no more
//! changes.
#![tactic(auto)]

mod learn;
mod making;
mod outcome;
mod play;
mod print;
mod runs;
mod sort;
mod top;
mod verify;

pub use learn::rerun;
pub use tm_call::{OutName, Status, What};
pub use top::{run, run_alone};
