//! Where tests hold a thread back.
use std::sync::Wait;

/// What threads pass on their way. It tells nothing.
pub trait Gate: Sync {
    /// Called before each first look of a take, with the tree and the place of the record in it,
    /// from 1; and before each step of an editor, with tree 0 and the editor's number.
    fn pass<W: Wait>(&self, rt: &W, tree: u32, place: u32);
}

/// The gate that holds nobody back.
pub struct NoGate;

impl Gate for NoGate {
    fn pass<W: Wait>(&self, _rt: &W, _tree: u32, _place: u32) {}
}
