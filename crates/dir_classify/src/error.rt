//! Why a walk was refused.
use gitbase_core::{OutOfMemory, PathText};
use thiserror::Error;
use worktree_stack::AtPathError;

/// Why the names of a directory could not be read.
#[derive(Clone, Copy, Debug, PartialEq, Eq)]
pub enum ReadWhy {
    /// Nothing is at its path.
    Absent,
    /// What is at its path is no directory.
    NotADirectory,
    /// The worktree failed.
    Fault,
}

/// Why the kind of a node could not be had.
#[derive(Clone, Copy, Debug, PartialEq, Eq)]
pub enum MetadataWhy {
    /// Nothing is at its path.
    Absent,
    /// The worktree failed.
    Fault,
}

/// Why a walk or the class of a path was refused, as gitoxide's `gix_dir::walk::Error`. Paths are
/// whole: the worktree root and what lies below it.
#[derive(Debug, Drop, Error)]
pub enum Error {
    /// The interrupt was raised.
    #[error("Interrupted")]
    Interrupted,
    /// The worktree root is absent or no directory, or its kind could not be learnt.
    #[error("Worktree root at '{root}' is not a directory")]
    WorktreeRootIsFile {
        root: PathText,
    },
    /// The traversal root is absolute, or leads out of the worktree; `root` is as it was handed in,
    /// or as the path specs give it.
    #[error("Traversal root '{root}' contains relative path components and could not be normalized")]
    NormalizeRoot {
        root: PathText,
    },
    /// The component of the traversal root with this number, from 0, is a link, and no earlier one
    /// is.
    #[error("A symlink was found at component {component_index} of traversal root '{root}' as seen from worktree root '{worktree_root}'")]
    SymlinkInRoot {
        root: PathText,
        worktree_root: PathText,
        component_index: usize,
    },
    /// The rules of a directory above a path were asked, and were not read: the rules file is a
    /// link without an end, a link that is not followed as the file is mapped to a blob, neither
    /// file nor directory, or could not be read; or its blob is missing, is no blob, or could not
    /// be had.
    #[error("Failed to update the excludes stack to see if a path is excluded")]
    ExcludesAccess(AtPathError),
    /// The directory at `path` was to be entered, and its names could not be listed: nothing is
    /// there, no directory is, or the worktree failed. Where it did not fail, the path was taken
    /// for a directory by what the index calls up to date, as one of the worktree set, or as an
    /// ignored path that leads to a repository.
    #[error("Failed to read the directory at '{path}'")]
    ReadDir {
        path: PathText,
        why: ReadWhy,
    },
    /// The worktree failed while the names in the directory were read.
    #[error("Could not obtain directory entry in root of '{parent_directory}'")]
    DirEntry {
        parent_directory: PathText,
    },
    /// The kind of a component of the traversal root could not be had.
    #[error("Could not obtain symlink metadata on '{path}'")]
    SymlinkMetadata {
        path: PathText,
        why: MetadataWhy,
    },
    /// The directory at `path` was to be entered, and has more components below the worktree root
    /// than the depth limit.
    #[error("TooDeep")]
    TooDeep {
        path: PathText,
    },
    /// Want of memory.
    #[error("OutOfMemory")]
    OutOfMemory,
}

impl From<OutOfMemory> for Error {
    ghost use Rattle.std.specs.Prelude.{◌≡◌};
    ghost use Rattle.dir_classify.specs.declared.error.Error.TheVariants as errors;

    ghost from_gives = { λ _ error. error ≡ errors.OutOfMemory };

    fn from(_refused: OutOfMemory) -> Error {
        Error::OutOfMemory
    }
}

impl From<AtPathError> for Error {
    ghost use Rattle.std.specs.Prelude.{◌≡◌};
    ghost use Rattle.dir_classify.specs.Refused.{error_from_lookup_error};

    ghost from_gives = { λ refused error. error ≡ error_from_lookup_error refused };

    fn from(refused: AtPathError) -> Error {
        match refused {
            AtPathError::OutOfMemory => Error::OutOfMemory,
            refused => Error::ExcludesAccess(refused),
        }
    }
}
