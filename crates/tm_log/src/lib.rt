//! Audit logs: which lines make a record, what it tells, and which records of a log can be used.
//! Stands on `tm_line`, `tm_cond` and `tm_trace`, whose readers of words and requests it takes.
//! Of its own, so that records are read before a process is supposed, which tm_log_trace does.
//! Promises the grammar, the first reason why a record is left out, and one log from any parts.
#![tactic(auto)]

mod blocks;
mod exec;
mod faults;
mod gather;
mod header;
mod log;
mod notes;
mod record;
mod steps;

pub use blocks::{FileNumbers, Found};
pub use exec::Exec;
pub use faults::{Reason, RecordFault};
pub use gather::{Gatherer, Lines};
pub use header::{Header, read_header};
pub use log::{Log, LogReader, Source, Used, parts, read_log};
pub use notes::LeftOut;
pub use record::{Record, read_record};
