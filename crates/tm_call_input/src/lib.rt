//! What the files of a call hold: the policy, the trace, the scripts, and a run to be judged.
//! Stands on tm_call, and on the crates that load policies and read traces, scripts and runs.
//! Of its own, below the top call, so that tm_gen_laws speaks of what really reads generated files.
//! Promises that all is read as defined, or that the first that is refused is named.
#![tactic(auto)]

mod policies;
mod reading;

pub use policies::{load_files, load_indexed_files};
pub use reading::{Judging, Loaded, homeless, read_judging, read_scene, read_step};
