//! Laws of the trace of an audit log: which line is of which record, process and domain.
//! Stands on tm_log_trace, whose trace it is; no code but functions without a body.
//! Of its own, so that tomoyo_trace doesn't wait for it: nothing stands on it.
//! Promises that each record that is used is one line `do`, in order, of its process, in its
//! domain.
#![tactic(auto)]

mod laws;

pub use laws::{each_record_is_one_line, each_record_of_bytes_is_one_line};
