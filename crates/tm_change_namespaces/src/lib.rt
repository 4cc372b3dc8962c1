//! What profile lines, exception lines and lines of ACL groups do to namespaces, in place.
//! Stands on tm_rules, whose definitions it computes, and on tm_change_entries for ACL groups.
//! Of its own, beside tm_change_domains, so that a change of one doesn't prove the other anew.
//! Promises that a change is the defined one or none, copies no namespace, and keeps lists short.
#![tactic(auto)]

mod alike;
mod groups;
mod namespaces;
mod profiles;
mod rules;

pub use alike::{Alike, is_pair_there, is_there, join, leave, leave_pair};
pub use groups::{add_group_line, add_group_line_at, has_group_line, remove_group_line};
pub use namespaces::namespace_place;
pub use profiles::apply_profile;
pub use rules::{add_rule, has_rule, remove_rule};
pub use tm_change_entries as change_entries;
