//! The path of a worktree's first fault.
ghost use Rattle.std.specs.Prelude.{◌≡◌, ℕ, List, []};

use worktree_fs::{DiskWorktree, MemoryWorktree};
use worktree_report::CountsFaults;

/// A worktree that names the path of the first call that failed.
pub trait NamesFault: CountsFaults {
    /// That path.
    ghost first_fault: { Self → List ℕ };

    /// The path of the first call that failed, as it was asked for; no bytes where none failed, or
    /// where no path is named.
    fn first_fault(&self) -> &[u8]
        ensures { result.now ≡ first_fault self.now };
}

impl<'a> NamesFault for DiskWorktree<'a> {
    ghost first_fault = { λ w. w.first_fault };

    fn first_fault(&self) -> &[u8] {
        DiskWorktree::path_of_first_fault(self)
    }
}

/// A worktree in memory names none.
impl NamesFault for MemoryWorktree {
    ghost first_fault = { λ _. [] };

    fn first_fault(&self) -> &[u8] {
        b""
    }
}
