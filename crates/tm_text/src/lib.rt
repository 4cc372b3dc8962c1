//! The printed files of a policy: its profiles, its exceptions, its domains and its managers.
//! Stands on `tm_policy_line`, `tm_except` and `tm_profile`, whose lines it joins.
//! Of its own, so that policies are printed as data, without what changes or plays them.
//! Promises one text for each part of any policy, in order, and `out` kept after want of memory.
#![tactic(auto)]

mod domains;
mod exceptions;
mod managers;
mod permissions;
mod profiles;
mod whole;

pub use domains::print_domain;
pub use exceptions::print_exception;
pub use managers::print_manager;
pub use permissions::permissions_name_functions;
pub use profiles::{name_order, print_profile};
