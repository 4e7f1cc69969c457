//! What the system tells of nodes besides their kind: asked beside a worktree, which does not tell
//! it.
ghost use Rattle.std.specs.Prelude.{◌≡◌, ◌≤◌, ℕ, Option, Some, IfOk, IsErrOf};
ghost use Rattle.worktree_fs.specs.Answers.{HoldsUnlessFault};
ghost use Rattle.worktree_fs.specs.Causes.{CountIncreasedOrSaturated};
ghost use Rattle.diff_files.specs.Stats.{StatsByPath};

pub mod disk;
pub mod memory;
pub mod node_stat;

use gitbase_core::Bytes;
use node_stat::NodeStat;
use std::alloc::Global;
use worktree_fs::ReadError;

/// Modes, times, owners, numbers and sizes of nodes, and where links lead, asked path by path.
///
/// Contracts speak of what is told, where it is, and of the count of faults always.
pub trait Stats {
    /// What is told of each path, where it is told.
    ghost told: { Self → Option StatsByPath };

    /// At most so many calls failed, since one that fails raises it by one or more, and it stands
    /// at its type's end; it never falls.
    ghost faults: { Self → ℕ };

    /// What is told of the node at a path, a last link not followed, as lstat(2) has it; none where
    /// nothing is there.
    ///
    /// # Errors
    ///
    /// - `Fault` only where it was counted.
    /// - `OutOfMemory` for want of memory.
    fn stat(&mut self, path: &[u8]) -> Result<Option<NodeStat>, ReadError>
        ensures answer { (t : StatsByPath) → told self.old ≡ Some t
            → IfOk result (λ found. found ≡ t.stat_at path.now) }
        ensures kept { told self.new ≡ told self.old }
        ensures cause { IsErrOf result ReadError.Fault
            → CountIncreasedOrSaturated (faults self.old) (faults self.new) }
        ensures unfaulted { HoldsUnlessFault result (faults self.new ≡ faults self.old) }
        ensures faults { faults self.old ≤ faults self.new };

    /// Where a link at a path leads, as readlink(2) has it; none where nothing is there.
    ///
    /// # Errors
    ///
    /// - `Fault` only where it was counted, so too where something else is there.
    /// - `OutOfMemory` for want of memory.
    fn target(&mut self, alloc: Global, path: &[u8]) -> Result<Option<Bytes>, ReadError>
        ensures answer { (t : StatsByPath) → told self.old ≡ Some t
            → IfOk result (λ found. found ≡ t.target_at path.now) }
        ensures kept { told self.new ≡ told self.old }
        ensures cause { IsErrOf result ReadError.Fault
            → CountIncreasedOrSaturated (faults self.old) (faults self.new) }
        ensures unfaulted { HoldsUnlessFault result (faults self.new ≡ faults self.old) }
        ensures faults { faults self.old ≤ faults self.new };
}
