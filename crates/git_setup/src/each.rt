//! Path specs, each by itself.
ghost use Rattle.std.specs.Prelude.{◌≡◌, [], ◌∷◌, ◌++◌, OnOk};

use gitbase_core::{Bytes, OutOfMemory};
use glob_rules::pathspec::Search;
use std::alloc::Global;
use std::marker::Model;

/// A path spec by itself.
#[derive(Debug, Drop)]
pub struct AskedSpec {
    /// What tells of it: the text that was asked for; for the current directory where it stands for
    /// none, its path from the top and a slash; and for the current directory behind specs that
    /// exclude, a dot.
    pub text: Bytes,
    /// The path spec alone, from the top of the work tree.
    pub spec: Search,
}

/// Path specs, each by itself. Contracts see the list of them.
#[derive(Debug, Drop)]
pub struct EachSpec {
    items: Vec<AskedSpec>,
}

impl Model for EachSpec {
    ghost use Rattle.std.specs.Prelude.{List};
    ghost use Rattle.git_setup.specs.declared.each.AskedSpec.{AskedSpec};

    ghost Value = { List AskedSpec };

    ghost view = { λ each. each.items.items };
}

impl EachSpec {
    /// No path specs; takes no memory.
    pub fn new(alloc: Global) -> EachSpec
        ensures { result ≡ [] }
    {
        EachSpec {
            items: Vec::new(alloc),
        }
    }

    /// The path specs as a vector; takes no memory.
    pub fn into_vec(self) -> Vec<AskedSpec>
        ensures { result.items ≡ self }
    {
        self.items
    }

    /// Adds a path spec at the end.
    pub fn push(&mut self, spec: AskedSpec) -> Result<(), OutOfMemory>
        ensures { OnOk result (self.new ≡ self.old ++ spec ∷ []) }
    {
        self.items.push(spec)?;
        Ok(())
    }
}
