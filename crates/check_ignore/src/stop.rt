//! Why nothing is answered of paths.
use gitbase_core::{Bytes, OutOfMemory};
use thiserror::Error;
use worktree_fs::ReadError;

/// Why nothing is answered of paths: git refuses one, or it is not answered here. `text` is the
/// path as it was written.
#[derive(Debug, Drop, PartialEq, Eq, Error)]
pub enum Stop {
    /// The index has directories in the place of what they hold; not answered here.
    #[error("SparseIndex")]
    SparseIndex,
    /// A line of the input begins with a double quote, and is no path in quotes.
    #[error("BadQuotes")]
    BadQuotes,
    /// A path has no bytes.
    #[error("Empty")]
    Empty,
    /// A path begins with a colon, as a path spec with magic; not answered here.
    #[error("Magic")]
    Magic {
        text: Bytes,
    },
    /// An absolute path does not begin with that of the top; not answered here.
    #[error("Elsewhere")]
    Elsewhere {
        text: Bytes,
    },
    /// A path has wildcards, and so has the current directory; not answered here.
    #[error("Prefix")]
    Prefix {
        text: Bytes,
    },
    /// A path leads out of the work tree.
    #[error("Outside")]
    Outside {
        text: Bytes,
    },
    /// A symbolic link is on the way to a path.
    #[error("Beyond")]
    Beyond {
        text: Bytes,
    },
    /// A path lies in the submodule at `place`.
    #[error("Inside")]
    Inside {
        text: Bytes,
        place: Bytes,
    },
    /// A path is the top, or ends in a slash, and the index has nothing of it, and no rule excludes
    /// it as a directory; not answered here.
    #[error("Slash")]
    Slash {
        text: Bytes,
    },
    /// A rule outside the work tree, in this line of a file, matches even a path without a name, as
    /// `*` does, and excludes; not answered here.
    #[error("Everything")]
    Everything {
        text: Bytes,
        file: Bytes,
        line: usize,
    },
    /// A rules file on the way to a path is not read; not answered here.
    #[error("Unread")]
    Unread {
        text: Bytes,
    },
    /// The worktree failed, which it counted.
    #[error("Fault")]
    Fault,
    /// Want of memory.
    #[error("OutOfMemory")]
    OutOfMemory,
}

impl From<OutOfMemory> for Stop {
    ghost use Rattle.std.specs.Prelude.{◌≡◌};
    ghost use Rattle.check_ignore.specs.declared.stop.Stop.TheVariants as stops;

    ghost from_gives = { λ _ e. e ≡ stops.OutOfMemory };

    fn from(_refused: OutOfMemory) -> Stop {
        Stop::OutOfMemory
    }
}

impl From<ReadError> for Stop {
    ghost use Rattle.std.specs.Prelude.{◌≡◌};
    ghost use Rattle.check_ignore.specs.Finds.{stop_of_read_error};

    ghost from_gives = { λ refused e. e ≡ stop_of_read_error refused };

    fn from(refused: ReadError) -> Stop {
        match refused {
            ReadError::Fault => Stop::Fault,
            ReadError::OutOfMemory => Stop::OutOfMemory,
        }
    }
}
