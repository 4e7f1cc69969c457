//! What a walk gives its entries to.
ghost use Rattle.std.specs.Prelude.{◌≡◌, ◌≤◌, ℕ, Bool, true, false, List, Option, OnOk, OnErr};
ghost use Rattle.worktree_fs.specs.Causes.{CountIncrementedOrSaturated};
ghost use Rattle.dir_classify.specs.Enters.{can_recurse};
ghost use Rattle.dir_classify.specs.Entries.{owned_entry_of_ref};
ghost use Rattle.dir_walk.specs.Emissions.{Emission, emission_with_fold_status};
ghost use Rattle.dir_walk.specs.Given.{append_emission_if_told, CountsRecursionRefusal, HoldsIfBreak, HoldsIfContinue, HoldsUnlessBreak};

use dir_classify::{EntryRef, ForDeletionMode, Status};
use gitbase_core::OutOfMemory;
use std::alloc::Global;

/// Whether a walk goes on, as gitoxide's `gix_dir::walk::Action`.
#[derive(Clone, Copy, Debug, PartialEq, Eq)]
pub enum Action {
    /// It goes on.
    Continue,
    /// It ends, and what was given is all.
    Break,
}

/// What a walk gives its entries to, after gitoxide's `gix_dir::walk::Delegate`.
///
/// Contracts speak of what it was given where it tells that, and of the counts of its Breaks and of
/// its refusals always. A count is of 64 bits, and stands at its last value.
pub trait Delegate {
    /// What it was given so far, in that order, where it tells that.
    ghost given: { Self → Option (List Emission) };

    /// Whether `can_recurse` answers as its default body does.
    ghost is_default: { Self → Bool };

    /// How often it answered Break; it never falls.
    ghost breaks: { Self → ℕ };

    /// How often it kept the walk out of what its status would have it look into; it never falls.
    ghost refusals: { Self → ℕ };

    /// Whether it answered Break when it was last given an entry; nothing is said of it where it
    /// refused one.
    ghost is_stopped: { Self → Bool };

    /// Takes an entry, with the status of the directory that was folded over it, if one was.
    ///
    /// # Errors
    ///
    /// - `OutOfMemory`: memory was refused. It was not given the entry.
    ///
    /// See docs/DIFFERENCES.md#gix-emit-answer.
    fn emit(
        &mut self,
        alloc: Global,
        entry: EntryRef<'_>,
        collapsed_directory_status: Option<Status>,
    ) -> Result<Action, OutOfMemory>
        ensures added { OnOk result (given self.new ≡ append_emission_if_told (given self.old)
            (emission_with_fold_status (owned_entry_of_ref entry.entry)
            collapsed_directory_status)) }
        ensures refused { OnErr result (given self.new ≡ given self.old) }
        ensures broken { HoldsIfBreak result (CountIncrementedOrSaturated (breaks self.old)
            (breaks self.new)) }
        ensures stopped { HoldsIfBreak result (is_stopped self.new ≡ true) }
        ensures continued { HoldsIfContinue result (is_stopped self.new ≡ false) }
        ensures unbroken { HoldsUnlessBreak result (breaks self.new ≡ breaks self.old) }
        ensures breaks { breaks self.old ≤ breaks self.new }
        ensures refusals { refusals self.new ≡ refusals self.old }
        ensures default { is_default self.new ≡ is_default self.old };

    /// Whether the walk looks into a directory or a repository. By default it does as its status
    /// says. An answer of no to what its status would have it look into is counted as a refusal,
    /// and nothing else is.
    ///
    /// See docs/DECISIONS.md#root-not-entered.
    fn can_recurse(
        &mut self,
        entry: EntryRef<'_>,
        for_deletion: Option<ForDeletionMode>,
        worktree_root_is_repository: bool,
    ) -> bool
        ensures recursion { is_default self.old ≡ true
            → result ≡ can_recurse entry.entry.status entry.entry.disk_kind
            entry.entry.pathspec_match for_deletion worktree_root_is_repository }
        ensures refused { CountsRecursionRefusal (can_recurse entry.entry.status
            entry.entry.disk_kind entry.entry.pathspec_match for_deletion
            worktree_root_is_repository) result (refusals self.old) (refusals self.new) }
        ensures refusals { refusals self.old ≤ refusals self.new }
        ensures given { given self.new ≡ given self.old }
        ensures breaks { breaks self.new ≡ breaks self.old }
        ensures stopped { is_stopped self.new ≡ is_stopped self.old }
        ensures default { is_default self.new ≡ is_default self.old }
    {
        entry.status.can_recurse(
            entry.disk_kind,
            entry.pathspec_match,
            for_deletion,
            worktree_root_is_repository,
        )
    }
}
