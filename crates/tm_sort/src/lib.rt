//! The audit sorter: records of an audit file, rules of a sorter file, and the parts of the
//! records.
//! Stands on tm_script for lines and lists of words, and on tm_pattern for patterns.
//! Of its own, on no policy and no trace: `sort` reads records and rules alone.
//! Promises first faults, and each record in the one part that its first accepting rule names.
#![tactic(auto)]

mod laws;
mod parts;
mod record;
mod route;
mod rules;

pub use laws::{parts_share_records, records_read, rules_read};
pub use parts::{Part, sorted, summary};
pub use record::{Record, RecordFault, read_records};
pub use route::{Route, accepts, dest_of, routes_by};
pub use rules::{Rule, RuleFault, read_rules};
