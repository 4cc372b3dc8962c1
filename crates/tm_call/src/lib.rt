//! A call: its words, what it fetches, how it ends, and how its outcome is stored and put.
//! Stands on tm_io for files and standard output, and on tm_types for what faults name.
//! Of its own, on no policy and no trace: it is the same whatever a command does with its files.
//! Promises that the first fetch that gives nothing ends a call, and that stores come in their
//! order.
#![tactic(auto)]

mod carry;
mod fetches;
mod status;
mod words;

pub use carry::{Outcome, carry_out};
pub use fetches::{Want, fetch_all, take_text, text_at};
pub use status::{OutName, Status, What};
pub use words::{Command, How, read_any_command, read_command};
