//! The files that are generated from a seed and a size: a policy that learns, and a trace of many
//! trees.
//! Stands on tm_list, tm_word and tm_number.
//! Of its own, so that files are drawn without a reader, of which tm_gen_laws alone speaks.
//! Promises that the files are those that the rules of draws give, whatever seed and size are.
#![tactic(auto)]

mod draws;
mod files;
mod trace;

pub use files::{Generated, generate};
