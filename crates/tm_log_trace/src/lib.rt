//! From the records of an audit log to a trace: which process each belongs to, and what was
//! supposed where the log doesn't show it.
//! Stands on tm_log, which has the records, and on tm_log_processes, which keeps the processes and
//! the lines.
//! Of its own, above both, so that neither records nor processes know of the other.
//! Promises that the trace and the report of a log are the defined ones, and that the text of the
//! trace is one that `read_trace` accepts.
#![tactic(auto)]

mod made;
mod maker;
mod notes;
mod report;
mod text;

pub use made::{Counts, Made, make_trace};
pub use notes::{Note, Warning};
pub use report::print_report;
pub use text::{TextFault, Texts, convert, texts_of, trace_text};
