//! The paths that submodules ask for.
ghost use Rattle.std.specs.Prelude.{◌≡◌, ℕ, List, [], Bool, not, ◌||◌, IfOk, OnOk, bytes_eq};
ghost use Rattle.submodule.specs.Names.{is_text_in_list};

use gitbase_core::{OutOfMemory, PathText};
use std::alloc::Global;
use std::collections::BTreeSet;
use std::marker::Model;

/// Paths, among which one is found without passing over all.
///
/// Contracts see their list.
#[derive(Drop)]
pub struct TakenPaths {
    sorted: BTreeSet<PathText>,
}

impl Model for TakenPaths {
    ghost use Rattle.std.specs.Prelude.{ℕ, List};

    ghost Value = { List (List ℕ) };

    ghost view = { λ paths. paths.sorted.keys };
}

impl TakenPaths {
    /// No paths; takes no memory.
    pub(crate) fn new(alloc: Global) -> TakenPaths
        ensures { result ≡ [] }
    {
        TakenPaths {
            sorted: BTreeSet::new(alloc),
        }
    }

    /// Adds a path, and says whether it was not among them.
    ///
    /// See docs/DECISIONS.md#left-out-takes-no-path.
    pub(crate) fn insert_if_new(
        &mut self,
        alloc: Global,
        path: &PathText,
    ) -> Result<bool, OutOfMemory>
        ensures is_new { IfOk result (λ is_new. is_new ≡ not (is_text_in_list path.now self.old)) }
        ensures more { (other : List ℕ) → OnOk result (is_text_in_list other self.new
            ≡ (bytes_eq other path.now || is_text_in_list other self.old)) }
    {
        let path = PathText::from_bytes(alloc, path.as_bytes())?;
        Ok(self.sorted.insert(path)?)
    }
}
