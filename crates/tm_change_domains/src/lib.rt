//! Where a policy has a domain, and what lines, Learns, Makes and Fails do to domains and managers.
//! Stands on tm_rules, whose definitions it computes, on tm_change_entries, and on tm_profile.
//! Of its own, below tm_rep and tm_audit, which both go by where it finds that a look stands.
//! Promises that a change is the defined one or none, that a refused line does none, and few lists.
#![tactic(auto)]

mod changing;
mod choosing;
mod finding;
mod learning;
mod lines;
mod making;
mod managers;
mod properties;
mod standing;

pub use changing::chosen;
pub use choosing::{choose_known, delete_known, new_domain, select_known};
pub use finding::{domain_at, entry_at, find_namespace, live_domain, profile_numbered, profile_of};
pub use learning::{add_counted, has_permission, learn_known};
pub use lines::{apply_domain, remove_acl};
pub use making::{apply_fail, make_known};
pub use managers::{apply_manager, is_manager};
pub use properties::apply_property;
pub use standing::{Standing, standing_at};
pub use tm_profile as profile;
