//! Whether a worktree failed while something was made of it.
ghost use Rattle.std.specs.Prelude.{◌≡◌, true, false};
ghost use Rattle.worktree_fs.specs.Causes.{CountIncreasedOrSaturated, CountNotIncreased};

use worktree_fs::{DiskWorktree, MemoryWorktree, Worktree};

/// A worktree that tells the count of its faults, which contracts see of every [`Worktree`].
///
/// See docs/DECISIONS.md#counted-faults.
pub trait CountsFaults: Worktree {
    /// How many calls failed. The count stands at its last value.
    fn fault_count(&self) -> u64
        ensures { result ≡ Self.Worktree.faults self.now };
}

impl<'a> CountsFaults for DiskWorktree<'a> {
    fn fault_count(&self) -> u64 {
        DiskWorktree::fault_count(self)
    }
}

impl CountsFaults for MemoryWorktree {
    fn fault_count(&self) -> u64 {
        MemoryWorktree::fault_count(self)
    }
}

/// Whether a worktree failed since its count of faults was `before`, as far as that can be told:
/// the count rose, or stands at its last value.
pub fn has_failed_since<W: CountsFaults>(worktree: &W, before: u64) -> bool
    ensures failed { result ≡ true → CountIncreasedOrSaturated before (W.faults worktree.now) }
    ensures unfailed { result ≡ false → CountNotIncreased before (W.faults worktree.now) }
{
    before.saturating_add(1) <= worktree.fault_count()
}
