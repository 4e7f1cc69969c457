//! What a worktree answers: absence, a wrong kind and a link are answers, and failures are errors.
ghost use Rattle.std.specs.Prelude.{◌≡◌};
ghost use Rattle.worktree_fs.specs.declared.answers.ReadError.TheVariants.{OutOfMemory as no_memory};
ghost use Rattle.worktree_fs.specs.declared.answers.ListError.TheVariants.{OutOfMemory as no_room};

use gitbase_core::OutOfMemory;
use std::alloc::{AllocError, AllocFailed};
use thiserror::Error;

/// What stands at a path, its last link not followed unless the call says so.
/// See docs/DIFFERENCES.md#gix-missing-variants.
#[derive(Clone, Copy, Debug, PartialEq, Eq, PartialOrd, Ord, Hash)]
pub enum NodeKind {
    /// A file with bytes.
    File,
    /// A link to another path.
    Symlink,
    /// A directory of named nodes.
    Directory,
    /// A node that no index can hold, as a pipe or a device.
    Untrackable,
}

/// A call failed for a reason outside the program, and its failure was counted.
#[derive(Clone, Copy, Debug, PartialEq, Eq, Error)]
#[error("Fault")]
pub struct Fault;

/// Why a directory was not listed.
#[derive(Clone, Copy, Debug, PartialEq, Eq, Error)]
pub enum ListError {
    /// The path leads nowhere.
    #[error("Absent")]
    Absent,
    /// The path leads to a node that is no directory.
    #[error("NotADirectory")]
    NotADirectory,
    /// The directory could not be opened; the failure was counted.
    #[error("OpenFault")]
    OpenFault,
    /// Its names could not be read to their end; the failure was counted.
    #[error("EntryFault")]
    EntryFault,
    /// The allocator refused memory.
    #[error("OutOfMemory")]
    OutOfMemory,
}

impl From<OutOfMemory> for ListError {
    ghost from_gives = { λ _ e. e ≡ no_room };

    fn from(_refused: OutOfMemory) -> ListError {
        ListError::OutOfMemory
    }
}

impl From<AllocError> for ListError {
    ghost from_gives = { λ _ e. e ≡ no_room };

    fn from(_refused: AllocError) -> ListError {
        ListError::OutOfMemory
    }
}

impl<T: Drop> From<AllocFailed<T>> for ListError {
    ghost from_gives = { λ _ e. e ≡ no_room };

    fn from(_refused: AllocFailed<T>) -> ListError {
        ListError::OutOfMemory
    }
}

/// What a read found.
#[derive(Clone, Copy, Debug, PartialEq, Eq)]
pub enum ReadAnswer {
    /// A file, whose bytes were handed over.
    Read,
    /// Nothing.
    Absent,
    /// A directory.
    IsDirectory,
    /// A link that was not to be followed.
    IsLink,
    /// More links than one resolution follows.
    LinkLimit,
    /// A node that is neither file, link nor directory.
    Special,
}

/// What came of the making of a directory.
#[derive(Clone, Copy, Debug, PartialEq, Eq)]
pub enum MakeAnswer {
    /// It was made.
    Made,
    /// Its path has a node.
    Exists,
    /// The path before its name leads to no directory, or the path is no text.
    NoParent,
}

/// What came of the removal of a node.
#[derive(Clone, Copy, Debug, PartialEq, Eq)]
pub enum RemoveAnswer {
    /// It was removed.
    Removed,
    /// Nothing is there.
    Absent,
    /// It is a directory, which stays.
    IsDirectory,
}

/// Why a question about a path has no answer.
#[derive(Clone, Copy, Debug, PartialEq, Eq, Error)]
pub enum ReadError {
    /// The call failed, and its failure was counted.
    #[error("Fault")]
    Fault,
    /// The allocator refused memory.
    #[error("OutOfMemory")]
    OutOfMemory,
}

impl From<OutOfMemory> for ReadError {
    ghost from_gives = { λ _ e. e ≡ no_memory };

    fn from(_refused: OutOfMemory) -> ReadError {
        ReadError::OutOfMemory
    }
}

impl From<AllocError> for ReadError {
    ghost from_gives = { λ _ e. e ≡ no_memory };

    fn from(_refused: AllocError) -> ReadError {
        ReadError::OutOfMemory
    }
}

impl<T: Drop> From<AllocFailed<T>> for ReadError {
    ghost from_gives = { λ _ e. e ≡ no_memory };

    fn from(_refused: AllocFailed<T>) -> ReadError {
        ReadError::OutOfMemory
    }
}
