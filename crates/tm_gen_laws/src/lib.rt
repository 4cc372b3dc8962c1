//! Laws of generated files: the policy files load, the trace is read, and nothing of them is
//! refused.
//! Stands on tm_gen and on tm_call_input, which reads them; it has no code to run.
//! Of its own, so that tm_gen stands on no reader; the top call cites its law of what is read.
//! Promises that what `gen` generates is never refused, for every seed and up to 4,096 trees.
#![tactic(auto)]

mod laws;

pub use laws::{
    generated_files_are_never_refused, generated_policies_load, generated_traces_are_read,
};
pub use tm_call_input as call_input;
