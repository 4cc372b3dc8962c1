//! What the readers and printers of lines share: keywords, permissions, arguments, domain names.
//! Stands on the crates of words, numbers, addresses, patterns and domain names.
//! Of its own, below tm_file, tm_net, tm_cond, tm_profile, tm_except and tm_script, none of which
//! stands on another.
//! Promises what its reading functions give, one text a value, and that it is read again.
#![tactic(auto)]

mod arguments;
mod domains;
mod laws;
mod namespace;
mod permissions;
mod printing;
mod words;

pub use arguments::{
    addr_range_word, address_at, address_word, group_word, name_at, name_word, number_at,
    number_word, path_word, pattern_word, plain_number, range_word, small_number, small_number_at,
};
pub use domains::{domain_at, domain_to_end};
pub use laws::{printed_words, round_trip};
pub use namespace::{namespace_at, namespaces, opens};
pub use permissions::{Row, mask_in, pieces_of, print_perms, read_perms, starts_in};
pub use printing::{print_address, print_domain, print_name, print_number};
pub use tm_addr as addr;
pub use tm_domain as domain;
pub use words::{ended, joined, joined_after, keyword_at, keyword_kind, option_at};
