//! An index of lists of entries, by names, addresses, plain fronts and lines, and of live domains.
//! Stands on tm_entry and tm_cond for the words of a line, and on the kit's hash map.
//! Of its own, so that what is noted is proved apart from what tm_indexed finds and changes by it.
//! Promises that each change is noted exactly, and that after want of memory nothing is.
//!
//! For example, a domain has at places 0, 1 and 2 the lines `file read /etc/passwd`,
//! `file read /var/log/\*` and `file read @LOGS`. Its `ListIndex` has 0 under the name /etc/passwd;
//! 1 and 2 among the others, which have no literal name; 1 under the stem /var/log; 2 in the rest,
//! which have no stem either; and each under the text of its arguments and conditions.
//! `permissions` is 3. For a read of /etc/passwd the places of that name are tried, those of the
//! stems that it begins with, and the rest: 0 and 2, and not 1. Once line 0 is gone, 0 and 1 are
//! the others, 0 has the stem and 1 is in the rest.
#![tactic(auto)]

mod buckets;
mod changes;
mod group_changes;
mod index;
mod label;
mod list;
mod places;
mod stems;

pub use changes::{
    close_in, count_in, note_domain, note_in, note_namespace, take_domain, take_last_in, take_live,
    take_namespace,
};
pub use group_changes::{close_in_group, note_first_in_group, note_in_group, take_last_in_group};
pub use index::{DomainIndex, Index, domain_noted, groups_noted, index_of, live_noted};
pub use label::{Label, label_of};
pub use list::ListIndex;
pub use stems::{STEM_ROOM, addr_of};
pub use tm_entry::net;
