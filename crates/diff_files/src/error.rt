//! Why no differences are told.
ghost use Rattle.std.specs.Prelude.{◌≡◌, IfOk};
ghost use Rattle.diff_files.specs.declared.error.DiffError.TheVariants.{OutOfMemory as no_memory};
ghost use Rattle.diff_files.specs.Texts as words;

use gitbase_core::{IndexEntry, OutOfMemory, PathText};
use std::alloc::Global;
use thiserror::Error;
use worktree_fs::ReadError;

/// A form that git answers and that is not answered here.
#[derive(Clone, Copy, Debug, PartialEq, Eq)]
pub enum Unsupported {
    /// A repository may stand in the directory of a submodule, or in the place of a file: git asks
    /// its state.
    Repository,
    /// The bytes of a file have to be compared, and may have to be converted first.
    Conversion,
    /// A submodule may be left out by the configuration.
    IgnoredSubmodule,
    /// An entry of a sparse index stands for all that is beneath a directory: git reads that from
    /// objects.
    SparseIndex,
    /// There are fewer details than entries.
    Details,
}

/// A form that is not answered here, and the path of the entry that has it.
#[derive(Debug, Drop, PartialEq, Eq)]
pub struct Unanswered {
    /// The form.
    pub form: Unsupported,
    /// The path, from the top of the work tree.
    pub path: PathText,
}

/// Why no differences are told.
#[derive(Debug, Drop, PartialEq, Eq, Error)]
pub enum DiffError {
    /// The form is not answered.
    #[error("Unsupported")]
    Unsupported(Unanswered),
    /// The worktree failed, or what is asked for stats did, and counted it.
    #[error("Fault")]
    Fault,
    /// Want of memory.
    #[error("OutOfMemory")]
    OutOfMemory,
}

impl Unsupported {
    /// What is told of it, behind `fatal: ` and before the path.
    pub fn text(&self) -> &'static [u8]
        ensures { result.now ≡ words.unsupported_text self.now }
    {
        match self {
            Unsupported::Repository => b"diff-files is not supported where a repository stands",
            Unsupported::Conversion => b"diff-files is not supported where bytes are converted",
            Unsupported::IgnoredSubmodule => b"diff-files is not supported for ignored submodules",
            Unsupported::SparseIndex => b"diff-files is not supported for a sparse index",
            Unsupported::Details => b"diff-files has no stat fields of an entry",
        }
    }
}

impl From<OutOfMemory> for DiffError {
    ghost from_gives = { λ _ e. e ≡ no_memory };

    fn from(_refused: OutOfMemory) -> DiffError {
        DiffError::OutOfMemory
    }
}

/// That a form is not answered which an entry has.
pub fn unanswered_form_of_entry(
    alloc: Global,
    form: Unsupported,
    entry: &IndexEntry,
) -> Result<Unanswered, OutOfMemory>
    ensures { IfOk result (λ refused. refused ≡ words.unanswered_form_of_entry form entry.now) }
{
    let path = PathText::from_bytes(alloc, entry.path.as_bytes())?;
    Ok(Unanswered { form, path })
}

impl From<ReadError> for DiffError {
    ghost use Rattle.diff_files.specs.Texts.{diff_error_of_read_error};

    ghost from_gives = { λ refused e. e ≡ diff_error_of_read_error refused };

    fn from(refused: ReadError) -> DiffError {
        match refused {
            ReadError::Fault => DiffError::Fault,
            ReadError::OutOfMemory => DiffError::OutOfMemory,
        }
    }
}
