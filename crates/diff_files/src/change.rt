//! How a path of the index changed.
ghost use Rattle.std.specs.Prelude.{◌≡◌};
ghost use Rattle.diff_files.specs.Rows.{is_unchanged};

/// How a path of the index changed in the work tree. Each `mode` is the one that git has for what
/// stands there, as 0o100644 for a file.
#[derive(Clone, Copy, Debug, PartialEq, Eq)]
pub enum PathChange {
    /// It did not.
    Same,
    /// Nothing is there, or a directory in the place of a file or a link.
    Deleted,
    /// What is there is to be added later.
    Added { mode: u32 },
    /// Something of the same kind is there, and other in its mode, its stat fields or its bytes.
    Modified { mode: u32 },
    /// Something of another kind is there.
    TypeChanged { mode: u32 },
    /// The path is not merged; the mode is 0 where nothing is there.
    Unmerged { mode: u32 },
}

/// Whether a path did not change.
pub fn is_unchanged(change: PathChange) -> bool
    ensures { result ≡ is_unchanged change }
{
    match change {
        PathChange::Same => true,
        PathChange::Deleted => false,
        PathChange::Added { mode: _ } => false,
        PathChange::Modified { mode: _ } => false,
        PathChange::TypeChanged { mode: _ } => false,
        PathChange::Unmerged { mode: _ } => false,
    }
}
