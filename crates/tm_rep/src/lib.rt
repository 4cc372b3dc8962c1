//! What a representation of a policy offers: searches, whole lines, Learns, Makes and Fails.
//! Stands on tm_rules and tm_grammar, whose definitions it cites, and on where a look stands.
//! Of its own, so that a change of searches or the index proves no verdict, machine or play anew.
//! Promises nothing by itself: each representation keeps what the trait says.
#![tactic(auto)]

mod executed;
mod rep;

pub use executed::executed_name;
pub use rep::Rep;
pub use tm_change_domains as change_domains;
pub use tm_change_domains::profile;
pub use tm_grammar::{cond, entry, except, file, net, policy_line};
