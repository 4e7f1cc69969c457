//! Who owns the nodes of a file system, and on which file system they lie: asked beside a worktree, which does not tell it.
ghost use Rattle.std.specs.Prelude.{◌≡◌, ◌≤◌, ℕ, Option, Some, IfOk, IsErrOf};
ghost use Rattle.worktree_fs.specs.Answers.{HoldsUnlessFault};
ghost use Rattle.worktree_fs.specs.Causes.{CountIncreasedOrSaturated};
ghost use Rattle.worktree_fs.specs.Owners.{OwnershipByPath};

pub mod disk;
pub mod memory;
pub mod ownership;

use crate::ReadError;
use ownership::Ownership;

/// Who owns a node, and on which file system it lies, asked path by path.
///
/// Contracts speak of what is told, where it is, and of the count of faults always.
pub trait Owners {
    /// What is told of each path, where the owners tell it.
    ghost told: { Self → Option OwnershipByPath };

    /// At most so many calls failed, since one that fails raises it by one or more, and it stands at its type's end; it never falls.
    ghost faults: { Self → ℕ };

    /// Who owns the node at a path, and where it lies; a last link is followed where `follow` says so. None where nothing is there.
    ///
    /// # Errors
    ///
    /// - `Fault` only where it was counted.
    /// - `OutOfMemory` for want of memory.
    fn ownership_at_path(
        &mut self,
        path: &[u8],
        follow: bool,
    ) -> Result<Option<Ownership>, ReadError>
        ensures answer { (owned : OwnershipByPath) → told self.old ≡ Some owned
            → IfOk result (λ found. found ≡ owned path.now follow) }
        ensures kept { told self.new ≡ told self.old }
        ensures cause { IsErrOf result ReadError.Fault
            → CountIncreasedOrSaturated (faults self.old) (faults self.new) }
        ensures unfaulted { HoldsUnlessFault result (faults self.new ≡ faults self.old) }
        ensures faults { faults self.old ≤ faults self.new };
}
