//! Which answers are faults, which a worktree counts.
ghost use Rattle.std.specs.Prelude.{◌≡◌};
ghost use Rattle.worktree_fs.specs.Disk.{is_fault, is_listing_fault};

use crate::{ListError, NameList, ReadError};

/// Whether a call failed, but for want of memory of its own.
pub fn is_fault<T>(answer: &Result<T, ReadError>) -> bool
    ensures { result ≡ is_fault answer.now }
{
    match answer {
        Err(ReadError::Fault) => true,
        Ok(_) | Err(ReadError::OutOfMemory) => false,
    }
}

/// Whether a listing failed, but for want of memory of its own.
pub fn is_listing_fault(names: &Result<NameList, ListError>) -> bool
    ensures { result ≡ is_listing_fault names.now }
{
    match names {
        Err(ListError::OpenFault | ListError::EntryFault) => true,
        Ok(_) | Err(ListError::Absent | ListError::NotADirectory | ListError::OutOfMemory) => false,
    }
}
