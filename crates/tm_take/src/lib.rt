//! A take on its way: situations of processes, a request in progress, and the take that it ends as.
//! Stands on tm_legal, whose play its contracts cite, and on tm_entry for a query's line.
//! Of its own, so that plays by turns (tm_core) and seats (tm_seat) drive takes by the same calls.
//! Promises that each call is the definition's part of a tree's event, whoever drives it.
#![tactic(auto)]

mod judged;
mod laws;
mod lines;
mod owing;
mod raising;
mod requests;
mod situations;
mod ways;

pub use judged::Judged;
pub use laws::events;
pub use lines::{Lines, pass};
pub use owing::{grants, printed};
pub use raising::{raised_by, raised_by_looks};
pub use requests::{NextEvent, PendingLook, RequestInProgress, begin, look_grants};
pub use situations::{ProcessSituation, ProcessSituations};
pub use tm_grammar::entry;
pub use ways::TreeOnWay;
