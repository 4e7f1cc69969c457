//! What a plan is made from.
use crate::what::{OtherNodes, TakenOut, What};
use gitbase_core::{AccelerateLookup, PathText, State};
use glob_rules::pathspec::Search;

/// What may go, what becomes of other nodes and of what lies in directories taken out, and by what
/// it is decided what may not: an index, with a look-up where letters compare without regard to
/// their case, the path specs, the traversal root, and the current directory where it lies in the
/// work tree. Both are relative to the root of the work tree.
#[derive(Drop)]
pub struct Cleaning<'a> {
    pub what: What,
    pub others: OtherNodes,
    pub taken_out: TakenOut,
    pub index: &'a State,
    pub lookup: &'a Option<AccelerateLookup>,
    pub specs: &'a Search,
    pub start: &'a [u8],
    pub current: &'a Option<PathText>,
}
