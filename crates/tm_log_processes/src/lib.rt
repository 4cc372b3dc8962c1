//! The processes of an audit log, and the lines of the trace that is made of it.
//! Stands on tm_domain, whose names of domains are compared, and on the types of tm_types.
//! Of its own, beside tm_log, so that a change of one doesn't prove the other anew.
//! Promises that each step on processes, places and lines is the defined one.
#![tactic(auto)]

mod domains;
mod forest;
mod list;
mod places;
mod process;

pub use domains::leads;
pub use forest::{Forest, MAX_BYTES, MAX_RECORDS, MAX_TREES, TraceLine};
pub use list::ProcessList;
pub use places::Places;
pub use process::{Origin, Place, Process, born, digits, no_ids, nobody, same_ids};
