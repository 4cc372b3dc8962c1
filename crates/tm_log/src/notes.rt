//! What is told of records that are left out.
use crate::Reason;
use crate::log::Source;

/// A record that is left out, and why.
#[derive(Clone, Copy)]
pub struct LeftOut {
    pub source: Source,
    pub reason: Reason,
}
