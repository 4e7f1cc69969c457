//! Why there is no text.
use crate::require_force::WrongClean;
use check_ignore::{Stop, WrongCheck};
use command_line::Misuse;
use diff_files::{DiffError, Unanswered};
use git_setup::GitRefusal;
use gitbase_core::{Bytes, OutOfMemory, PathText};
use ls_files::WrongListing;
use worktree_fs::ReadError;
use worktree_report::Refusal;

/// Why a work tree is not compared with its index.
#[derive(Debug, Drop)]
pub enum Uncompared {
    /// Two forms are asked for that git does not print together.
    Exclusive,
    /// The form is not answered here, at the path of an entry.
    Form(Unanswered),
}

/// Why nothing is answered of paths that are checked.
#[derive(Debug, Drop)]
pub enum Unchecked {
    /// There are no such words.
    Wrong(WrongCheck),
    /// Of a path in the work tree at `root`, or of its index; never as the worktree failed, nor for
    /// want of memory.
    Stopped { root: PathText, stop: Stop },
}

/// Why there is no text of a work tree.
#[derive(Debug, Drop)]
pub enum CommandRefusal {
    /// The words ask for nothing.
    Words(Misuse),
    /// Nothing is at the directory that `-C` names.
    Absent { directory: Bytes },
    /// What is at the directory that `-C` names is none.
    NotADirectory { directory: Bytes },
    /// What may be deleted is asked for elsewhere than at the top of the work tree, which is at
    /// `root`.
    NotAtTop { root: Bytes },
    /// What is to be called in the current directory alone is asked for in another one.
    Elsewhere,
    /// No setup is found; never as the worktree failed, nor for want of memory.
    Git(GitRefusal),
    /// There is no such listing: git has none, or it is not answered here.
    Listing(WrongListing),
    /// A file of ignore rules that the words name is not read.
    ExcludeFile { name: Bytes },
    /// The work tree is not compared with its index.
    Uncompared(Uncompared),
    /// Paths are not checked.
    Unchecked(Unchecked),
    /// There is no such cleaning: git has none, or it is not answered here.
    Cleaning(WrongClean),
    /// There is no text by the setup that was found, or the worktree failed, or memory was wanted.
    Program(Refusal),
}

impl From<OutOfMemory> for CommandRefusal {
    ghost use Rattle.std.specs.Prelude.{◌≡◌};
    ghost use Rattle.tizhagor.specs.Refusals.{memory};

    ghost from_gives = { λ _ e. e ≡ memory };

    fn from(_refused: OutOfMemory) -> CommandRefusal {
        CommandRefusal::Program(Refusal::OutOfMemory)
    }
}

impl From<ReadError> for CommandRefusal {
    ghost use Rattle.std.specs.Prelude.{◌≡◌};
    ghost use Rattle.tizhagor.specs.Refusals.{here_refusal_of_read_error};

    ghost from_gives = { λ refused e. e ≡ here_refusal_of_read_error refused };

    fn from(refused: ReadError) -> CommandRefusal {
        match refused {
            ReadError::Fault => CommandRefusal::Program(Refusal::Fault),
            ReadError::OutOfMemory => CommandRefusal::Program(Refusal::OutOfMemory),
        }
    }
}

impl From<GitRefusal> for CommandRefusal {
    ghost use Rattle.std.specs.Prelude.{◌≡◌};
    ghost use Rattle.tizhagor.specs.Refusals.{here_refusal_of_git_refusal};

    ghost from_gives = { λ refused e. e ≡ here_refusal_of_git_refusal refused };

    fn from(refused: GitRefusal) -> CommandRefusal {
        match refused {
            GitRefusal::Fault => CommandRefusal::Program(Refusal::Fault),
            GitRefusal::OutOfMemory => CommandRefusal::Program(Refusal::OutOfMemory),
            refused => CommandRefusal::Git(refused),
        }
    }
}

impl From<Misuse> for CommandRefusal {
    ghost use Rattle.std.specs.Prelude.{◌≡◌};
    ghost use Rattle.tizhagor.specs.Refusals.{here_refusal_of_misuse};

    ghost from_gives = { λ refused e. e ≡ here_refusal_of_misuse refused };

    fn from(refused: Misuse) -> CommandRefusal {
        match refused {
            Misuse::OutOfMemory => CommandRefusal::Program(Refusal::OutOfMemory),
            refused => CommandRefusal::Words(refused),
        }
    }
}

impl From<DiffError> for CommandRefusal {
    ghost use Rattle.std.specs.Prelude.{◌≡◌};
    ghost use Rattle.tizhagor.specs.Refusals.{here_refusal_of_diff_error};

    ghost from_gives = { λ refused e. e ≡ here_refusal_of_diff_error refused };

    fn from(refused: DiffError) -> CommandRefusal {
        match refused {
            DiffError::Unsupported(refused) => CommandRefusal::Uncompared(Uncompared::Form(
                refused,
            )),
            DiffError::Fault => CommandRefusal::Program(Refusal::Fault),
            DiffError::OutOfMemory => CommandRefusal::Program(Refusal::OutOfMemory),
        }
    }
}
