//! One line of any policy file, read, and the printed lines of domains, managers and ACL groups.
//! Stands on `tm_entry`, `tm_except` and `tm_profile`, whose lines it joins, and on `tm_line`.
//! Of its own, so that tm_text prints and tm_vectors compares lines without what changes a policy.
//! Promises the grammar with its first fault, and one line for each rule that is read again.
#![tactic(auto)]

mod laws;
mod printing;
mod reading;

pub use laws::{lines_again, lines_read, printed_lines, printed_words, texts_again};
pub use printing::{
    print_acl_group_line, print_acl_line, print_failed_line, print_group_line, print_manager_line,
    print_name_line, print_non_root_line, print_profile_line, print_quota_line,
};
pub use reading::read_line;
pub use tm_entry as entry;
pub use tm_entry::{cond, file as files, net};
pub use tm_except as except;
