//! What a run is judged by.

use tm_types::policy::Policy;
use tm_types::request::Tree;
use tm_types::step::{Book, Editor, Reply, Step, Take};

/// The opening policy, the trace, the editors and the book that a run is judged by, and the run's
/// steps and takes.
#[derive(Clone, Copy)]
pub struct Given<'a> {
    pub opening: &'a Policy,
    pub trace: &'a [Tree],
    pub editors: &'a [Editor],
    pub book: Option<&'a Book>,
    pub steps: &'a [(Step, Reply)],
    pub takes: &'a [Take],
}
