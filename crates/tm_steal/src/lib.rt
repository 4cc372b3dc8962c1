//! A trace played by threads that share its processes: who has none left takes one from another.
//! Stands on tm_steal_rows for what is played and gathered, on tm_replay for the threads.
//! Of its own, so that a replay without `steal` doesn't stand on crossbeam_deque.
//! Promises that whatever was stolen, and whatever the threads' order was, the run is a legal one.
//! Only tested: that workers steal; no clause says which process is whose.
#![tactic(auto)]

mod board;
mod processes;
mod run;
mod thief;

pub use run::{steal_all, steal_run};
pub use tm_replay as replay;
pub use tm_replay::machine;
