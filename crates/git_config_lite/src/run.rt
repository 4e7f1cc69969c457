//! The index of some sections of a configuration that stand one behind another.
use crate::index::Index;

/// How many sections stand before a run of sections, and the index of the run.
#[derive(Debug, Drop)]
pub struct Run {
    pub start: usize,
    pub index: Index,
}
