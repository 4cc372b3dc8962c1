//! Policies as they are: what lines and Learns do to them, how they are searched and loaded.
//! Stands on tm_rep, whose trait it keeps, on the crates tm_change_*, and on tm_policy_line.
//! Of its own, so that tm_indexed shares its search and loading, and no verdict stands on either.
//! Promises that a change is the defined one or none, and that the first granting entry is found.
#![tactic(auto)]

mod counting;
mod exceptions;
mod few;
mod granting;
mod groups;
mod learning;
mod lines;
mod loading;
mod opening;
mod plain;
mod scan;
mod searching;

pub use counting::count_live;
pub use few::is_few;
pub use granting::{Asked, place_in};
pub use learning::{apply_learn, apply_make};
pub use lines::{apply_line, apply_read};
pub use loading::{first_without_profile, load, load_into};
pub use opening::PolicyCalls;
pub use plain::Plain;
pub use scan::{ListSearch, Scan};
pub use searching::{search, search_domain, search_in};
pub use tm_change_domains::{apply_fail, is_manager};
pub use tm_rep as rep;
pub use tm_rep::entry::{print_entry, read_entry};
pub use tm_rep::policy_line;
