//! The nodes that were looked at.
ghost use Rattle.std.specs.Prelude.{◌≡◌, false, [], Option, Some, OnOk, IfSome};
ghost use Rattle.worktree_fs.specs.Answers.{kind_of_lookup};
ghost use Rattle.worktree_fs.specs.Tree.{Names, look};
ghost use Rattle.module_plan.specs.Ways.{AreRecordedKindsRight};

use gitbase_core::{OutOfMemory, PathText};
use std::alloc::Global;
use std::collections::BTreeMap;
use std::marker::Model;
use worktree_fs::NodeKind;

/// The kinds of the nodes that were looked at, by their whole paths.
///
/// Contracts see the list of both.
#[derive(Drop)]
pub struct Seen {
    kinds: BTreeMap<PathText, Option<NodeKind>>,
}

impl Model for Seen {
    ghost use Rattle.std.specs.Prelude.{ℕ, List, Option};
    ghost use Rattle.worktree_fs.specs.declared.answers.NodeKind.{NodeKind};

    ghost Value = { List (List ℕ × Option NodeKind) };

    ghost view = { λ seen. seen.kinds.entries };
}

impl Seen {
    /// Nothing was looked at; takes no memory.
    pub(crate) fn new(alloc: Global) -> Seen
        ensures { result ≡ [] }
    {
        Seen {
            kinds: BTreeMap::new(alloc),
        }
    }

    /// The kind of the node at a whole path, if it was looked at.
    pub(crate) fn recorded_kind_at_path(&self, full: &PathText) -> Option<Option<NodeKind>>
        ensures { (t : Names) → AreRecordedKindsRight (Some t) self.now
            → IfSome result (λ kind. kind ≡ kind_of_lookup (look t full.now false)) }
    {
        self.kinds.get(full).copied()
    }

    /// A node more, with its kind.
    pub(crate) fn add(
        &mut self,
        alloc: Global,
        full: &PathText,
        kind: Option<NodeKind>,
    ) -> Result<(), OutOfMemory>
        ensures { (told : Option Names) → AreRecordedKindsRight told self.old
            → ((t : Names) → told ≡ Some t → kind ≡ kind_of_lookup (look t full.now false))
            → OnOk result (AreRecordedKindsRight told self.new) }
    {
        let full = PathText::from_bytes(alloc, full.as_bytes())?;
        self.kinds.insert(full, kind)?;
        Ok(())
    }
}
