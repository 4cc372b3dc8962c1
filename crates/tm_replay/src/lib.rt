//! A trace played by threads: workers, editors and a supervisor at one engine, each from a seat.
//! Stands on tm_seat for what each does and what all come to, and on tm_engine for versions.
//! Of its own, since here a seat is a pass at an engine (`At`): tm_seat knows of no engine,
//! tm_engine of no seat.
//! Promises that whatever the threads' order was, the run is a legal one.
//! Only tested: that threads run beside each other, and that a replay ends.
#![tactic(auto)]

mod at;
mod job;
mod jobs;
mod lone;
mod looks;
mod moves;
mod run;

pub use at::At;
pub use lone::Lone;
pub use run::{play_parts, replay_all, replay_run, takes_of};
pub use tm_machine as machine;
pub use tm_machine::rep;
pub use tm_seat as seat;
