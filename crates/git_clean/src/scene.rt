//! By what it is decided what may go.
ghost use Rattle.std.specs.Prelude.{◌≡◌};

use crate::options::Cleaning;
use gitbase_core::{Bytes, State};
use glob_rules::pathspec::Search;
use ls_files::NamedSpec;
use std::collections::BTreeSet;
use worktree_report::ReportEntry;

/// What is asked, the index, the path specs, the current directory and the entries of a report,
/// with the directories that follow from these.
#[derive(Drop)]
pub struct Scene<'a> {
    pub cleaning: &'a Cleaning,
    pub index: &'a State,
    pub specs: &'a Search,
    pub named: &'a [NamedSpec],
    pub prefix: &'a [u8],
    pub found: &'a [ReportEntry],
    pub marked: &'a BTreeSet<Bytes>,
    pub guarded: &'a BTreeSet<Bytes>,
    pub held: &'a BTreeSet<Bytes>,
}

impl<'a> Scene<'a> {
    /// The same with other entries.
    pub fn with_report_entries(&self, found: &'a [ReportEntry]) -> Scene<'a>
        ensures { result ≡ record self.now { found = found.entry } }
    {
        Scene {
            cleaning: self.cleaning,
            index: self.index,
            specs: self.specs,
            named: self.named,
            prefix: self.prefix,
            found,
            marked: self.marked,
            guarded: self.guarded,
            held: self.held,
        }
    }
}
