//! A tree of files as code above sees it, call by call.
ghost use Rattle.std.specs.Prelude.{◌≡◌, ◌≤◌, ℕ, Bool, true, false, Option, Some, None, All, IfOk, OnOk, OnErr, IsErrOf, MatchResult, Ok};
ghost use Rattle.worktree_fs.specs.Tree.{Names, look, resolution_of_path, found, file, directory};
ghost use Rattle.worktree_fs.specs.Naming.{AreDistinctValidEntryNames, IsValidTree};
ghost use Rattle.worktree_fs.specs.Answers.{kind_of_lookup, read_answer_of_lookup, HoldsUnlessFileRead, HoldsUnlessFault, ListsDirectoryNamesInAnyOrder, ListErrorFitsLookup, HoldsOnListFault, HoldsUnlessListFault};
ghost use Rattle.worktree_fs.specs.Changes.{real_path, answer_to_make_dir, entries_after_make_dir, answer_to_remove_node, entries_after_remove_node};
ghost use Rattle.worktree_fs.specs.MadeAndRemoved.{AnswersMakeInExistingParent, NodeRemovedAtPath};
ghost use Rattle.worktree_fs.specs.Composed.{IsComponentOfComposedText};
ghost use Rattle.worktree_fs.specs.Causes.{CountIncrementedOrSaturated, CountIncreasedOrSaturated, saturating_sum};

use crate::{ListError, MakeAnswer, NameList, NodeKind, ReadAnswer, ReadError, RemoveAnswer};
use gitbase_core::{Bytes, OutOfMemory, PathText};
use std::alloc::Global;

/// A tree of files, asked call by call.
///
/// In a told tree paths begin at `/`, whether or not they are written so; what a relative path
/// means to a worktree that tells nothing is its own affair. Links on the way are followed, in a
/// told tree at most 32 of them in one call, and a last one only where the call says so. Absence, a
/// wrong kind and a link are answers; whatever else a device may say is a fault, and is counted.
/// Counts are of 64 bits, and stand at their last value. Only `make_dir` and `remove_node` change
/// the tree.
///
/// Contracts speak of the tree where the worktree tells it, and of the counts always.
///
/// See docs/DIFFERENCES.md#gix-file-system.
pub trait Worktree {
    /// What is in `/`, where the worktree tells it.
    ghost told: { Self → Option Names };

    /// At most so many calls failed, since one that fails raises it by one or more, and it stands
    /// at its type's end; it never falls.
    ghost faults: { Self → ℕ };

    /// The same of listings that failed, at opening or while names were read; it never falls.
    ghost list_faults: { Self → ℕ };

    /// How many reads were asked for.
    ghost reads: { Self → ℕ };

    /// How many listings were asked for.
    ghost lists: { Self → ℕ };

    /// Whether names are listed with their characters composed.
    ghost precomposes: { Self → Bool };

    /// Whether names are listed with their characters composed.
    fn precomposes(&self) -> bool
        ensures { result ≡ precomposes self.now };

    /// The kind of the node at a path, a last link not followed; none where nothing is there.
    ///
    /// # Errors
    ///
    /// - `Fault` only where it was counted.
    /// - `OutOfMemory` for want of memory.
    ///
    /// See docs/DECISIONS.md#one-look-a-name.
    fn kind(&mut self, alloc: Global, path: &[u8]) -> Result<Option<NodeKind>, ReadError>
        ensures answer { (t : Names) → told self.old ≡ Some t
            → IfOk result (λ kind. kind ≡ kind_of_lookup (look t path.now false)) }
        ensures tree { told self.new ≡ told self.old }
        ensures cause { IsErrOf result ReadError.Fault
            → CountIncreasedOrSaturated (faults self.old) (faults self.new) }
        ensures unfaulted { HoldsUnlessFault result (faults self.new ≡ faults self.old) }
        ensures faults { faults self.old ≤ faults self.new }
        ensures list_faults { list_faults self.new ≡ list_faults self.old }
        ensures reads { reads self.new ≡ reads self.old }
        ensures lists { lists self.new ≡ lists self.old }
        ensures precomposes { precomposes self.new ≡ precomposes self.old };

    /// The kind of the node that a path leads to, a last link followed; none where nothing is
    /// there, so too for a dangling or an endless link.
    ///
    /// # Errors
    ///
    /// - `Fault` only where it was counted.
    /// - `OutOfMemory` for want of memory.
    fn kind_following(&mut self, alloc: Global, path: &[u8]) -> Result<Option<NodeKind>, ReadError>
        ensures answer { (t : Names) → told self.old ≡ Some t
            → IfOk result (λ kind. kind ≡ kind_of_lookup (look t path.now true)) }
        ensures tree { told self.new ≡ told self.old }
        ensures cause { IsErrOf result ReadError.Fault
            → CountIncreasedOrSaturated (faults self.old) (faults self.new) }
        ensures unfaulted { HoldsUnlessFault result (faults self.new ≡ faults self.old) }
        ensures faults { faults self.old ≤ faults self.new }
        ensures list_faults { list_faults self.new ≡ list_faults self.old }
        ensures reads { reads self.new ≡ reads self.old }
        ensures lists { lists self.new ≡ lists self.old }
        ensures precomposes { precomposes self.new ≡ precomposes self.old };

    /// The names of a directory, each once, in an order of the worktree's own, and as they are
    /// kept: with their characters composed where the worktree composes names. With `follow` a last
    /// link is followed.
    ///
    /// # Errors
    ///
    /// - `Absent` where the path leads nowhere, so too along a dangling or an endless link.
    /// - `NotADirectory` where it leads to another node, so too to a link that is not followed.
    /// - `OpenFault` where the directory could not be opened, only where it was counted, as a fault
    ///   and as a fault of a listing.
    /// - `EntryFault` where its names could not be read, counted so too.
    /// - `OutOfMemory` for want of memory.
    ///
    /// See docs/DECISIONS.md#listing-counts.
    /// See docs/DECISIONS.md#listed-names-kept.
    fn list(&mut self, alloc: Global, path: &[u8], follow: bool) -> Result<NameList, ListError>
        ensures answer { (t : Names) → told self.old ≡ Some t → MatchResult result
            (ListsDirectoryNamesInAnyOrder (look t path.now follow))
            (ListErrorFitsLookup (look t path.now follow)) }
        ensures names { IfOk result AreDistinctValidEntryNames }
        ensures composed { IfOk result (All (IsComponentOfComposedText (precomposes self.old))) }
        ensures tree { told self.new ≡ told self.old }
        ensures cause { HoldsOnListFault result (CountIncreasedOrSaturated (faults self.old)
            (faults self.new)) }
        ensures unfaulted { HoldsUnlessListFault result (faults self.new ≡ faults self.old) }
        ensures faults { faults self.old ≤ faults self.new }
        ensures list_cause { HoldsOnListFault result (CountIncreasedOrSaturated
            (list_faults self.old) (list_faults self.new)) }
        ensures list_faults { list_faults self.old ≤ list_faults self.new }
        ensures list_faults_kept { HoldsUnlessListFault result (list_faults self.new
            ≡ list_faults self.old) }
        ensures reads { reads self.new ≡ reads self.old }
        ensures lists { CountIncrementedOrSaturated (lists self.old) (lists self.new) }
        ensures lists_later { lists self.old ≤ lists self.new }
        ensures precomposes { precomposes self.new ≡ precomposes self.old };

    /// Reads the bytes of a file in the place of those in `into`, which stay for any other answer.
    /// With `follow` a last link is followed, and a dangling one is absent.
    ///
    /// # Errors
    ///
    /// - `Fault` only where it was counted.
    /// - `OutOfMemory` for want of memory.
    fn read(
        &mut self,
        alloc: Global,
        path: &[u8],
        follow: bool,
        into: &mut Bytes,
    ) -> Result<ReadAnswer, ReadError>
        ensures answer { (t : Names) → told self.old ≡ Some t
            → IfOk result (λ answer. answer ≡ read_answer_of_lookup (look t path.now follow)) }
        ensures bytes { (t : Names) → told self.old ≡ Some t → result ≡ Ok ReadAnswer.Read
            → look t path.now follow ≡ found (file into.new) }
        ensures into { HoldsUnlessFileRead result (into.new ≡ into.old) }
        ensures link { result ≡ Ok ReadAnswer.IsLink → follow ≡ false }
        ensures tree { told self.new ≡ told self.old }
        ensures cause { IsErrOf result ReadError.Fault
            → CountIncreasedOrSaturated (faults self.old) (faults self.new) }
        ensures unfaulted { HoldsUnlessFault result (faults self.new ≡ faults self.old) }
        ensures faults { faults self.old ≤ faults self.new }
        ensures list_faults { list_faults self.new ≡ list_faults self.old }
        ensures reads { CountIncrementedOrSaturated (reads self.old) (reads self.new) }
        ensures reads_later { reads self.old ≤ reads self.new }
        ensures lists { lists self.new ≡ lists self.old }
        ensures precomposes { precomposes self.new ≡ precomposes self.old };

    /// The path of the node that a path leads to, without links; none where it leads to none. A
    /// path that does not begin at `/` is taken from `cwd`.
    ///
    /// # Errors
    ///
    /// - `Fault` only where it was counted.
    /// - `OutOfMemory` for want of memory.
    fn real_path(
        &mut self,
        alloc: Global,
        path: &[u8],
        cwd: &[u8],
    ) -> Result<Option<PathText>, ReadError>
        ensures answer { (t : Names) → told self.old ≡ Some t
            → IfOk result (λ real. real ≡ real_path t path.now cwd.now) }
        ensures tree { told self.new ≡ told self.old }
        ensures cause { IsErrOf result ReadError.Fault
            → CountIncreasedOrSaturated (faults self.old) (faults self.new) }
        ensures unfaulted { HoldsUnlessFault result (faults self.new ≡ faults self.old) }
        ensures faults { faults self.old ≤ faults self.new }
        ensures list_faults { list_faults self.new ≡ list_faults self.old }
        ensures reads { reads self.new ≡ reads self.old }
        ensures lists { lists self.new ≡ lists self.old }
        ensures precomposes { precomposes self.new ≡ precomposes self.old };

    /// Makes a directory, whose parent has to be there. A last link is not followed: it is a node.
    /// Where names are listed composed, the name of the new directory is composed too. A name in a
    /// directory that is there, which is kept as it is, is never refused as `NoParent`.
    ///
    /// # Errors
    ///
    /// The tree stays for each.
    ///
    /// - `Fault` only where it was counted.
    /// - `OutOfMemory` for want of memory.
    ///
    /// See docs/DECISIONS.md#make-dir-composes.
    fn make_dir(&mut self, alloc: Global, path: &[u8]) -> Result<MakeAnswer, ReadError>
        ensures answer { (t : Names) → told self.old ≡ Some t
            → IfOk result (λ answer. answer
            ≡ answer_to_make_dir (precomposes self.old) t (resolution_of_path t path.now false)) }
        ensures inside { (t : Names) → told self.old ≡ Some t
            → IfOk result (AnswersMakeInExistingParent (precomposes self.old) t path.now) }
        ensures made { (t : Names) → told self.old ≡ Some t → OnOk result (told self.new
            ≡ Some (entries_after_make_dir (precomposes self.old) t (resolution_of_path t path.now
            false))) }
        ensures kept { OnErr result (told self.new ≡ told self.old) }
        ensures untold { told self.old ≡ None → told self.new ≡ None }
        ensures cause { IsErrOf result ReadError.Fault
            → CountIncreasedOrSaturated (faults self.old) (faults self.new) }
        ensures unfaulted { HoldsUnlessFault result (faults self.new ≡ faults self.old) }
        ensures faults { faults self.old ≤ faults self.new }
        ensures list_faults { list_faults self.new ≡ list_faults self.old }
        ensures reads { reads self.new ≡ reads self.old }
        ensures lists { lists self.new ≡ lists self.old }
        ensures precomposes { precomposes self.new ≡ precomposes self.old };

    /// Removes a node that is no directory. A last link is not followed: it is removed itself.
    /// Where a node was removed nothing is at its path, and every other path leads where it led,
    /// unless it came to that node.
    ///
    /// # Errors
    ///
    /// The tree stays for each.
    ///
    /// - `Fault` only where it was counted.
    /// - `OutOfMemory` for want of memory.
    ///
    /// See docs/DECISIONS.md#removal-by-names.
    fn remove_node(&mut self, alloc: Global, path: &[u8]) -> Result<RemoveAnswer, ReadError>
        ensures answer { (t : Names) → told self.old ≡ Some t → IfOk result (λ answer. answer
            ≡ answer_to_remove_node (resolution_of_path t path.now false)) }
        ensures removed { (t : Names) → told self.old ≡ Some t → OnOk result (told self.new
            ≡ Some (entries_after_remove_node t (resolution_of_path t path.now false))) }
        ensures gone { (t now : Names) → told self.old ≡ Some t → told self.new ≡ Some now
            → result ≡ Ok RemoveAnswer.Removed → NodeRemovedAtPath path.now t now }
        ensures kept { OnErr result (told self.new ≡ told self.old) }
        ensures untold { told self.old ≡ None → told self.new ≡ None }
        ensures cause { IsErrOf result ReadError.Fault
            → CountIncreasedOrSaturated (faults self.old) (faults self.new) }
        ensures unfaulted { HoldsUnlessFault result (faults self.new ≡ faults self.old) }
        ensures faults { faults self.old ≤ faults self.new }
        ensures list_faults { list_faults self.new ≡ list_faults self.old }
        ensures reads { reads self.new ≡ reads self.old }
        ensures lists { lists self.new ≡ lists self.old }
        ensures precomposes { precomposes self.new ≡ precomposes self.old };

    /// Another worktree over the same tree, whose counts are 0.
    ///
    /// Who takes a fork hands it back by `absorb`: it cannot be let go in generic code.
    ///
    /// # Errors
    ///
    /// - `OutOfMemory` for want of memory.
    fn fork(&self, alloc: Global) -> Result<Self, OutOfMemory>
        ensures tree { IfOk result (λ fork. told fork ≡ told self.now) }
        ensures faults { IfOk result (λ fork. faults fork ≡ 0) }
        ensures list_faults { IfOk result (λ fork. list_faults fork ≡ 0) }
        ensures reads { IfOk result (λ fork. reads fork ≡ 0) }
        ensures lists { IfOk result (λ fork. lists fork ≡ 0) }
        ensures precomposes { IfOk result (λ fork. precomposes fork ≡ precomposes self.now) };

    /// Adds the counts of a fork, but that of its listings, and lets it go.
    /// See docs/DECISIONS.md#lost-fork.
    fn absorb(&mut self, other: Self)
        ensures tree { told self.new ≡ told self.old }
        ensures faults { faults self.new ≡ saturating_sum (faults self.old) (faults other) }
        ensures later { faults self.old ≤ faults self.new }
        ensures list_faults { list_faults self.new
            ≡ saturating_sum (list_faults self.old) (list_faults other) }
        ensures list_faults_later { list_faults self.old ≤ list_faults self.new }
        ensures reads { reads self.new ≡ saturating_sum (reads self.old) (reads other) }
        ensures reads_later { reads self.old ≤ reads self.new }
        ensures lists { lists self.new ≡ lists self.old }
        ensures precomposes { precomposes self.new ≡ precomposes self.old };

    /// Each told tree has, in every directory, names that may stand there, none of them twice.
    ghost is_tree: { (w : Self) (t : Names) → told w ≡ Some t → IsValidTree (directory t) };
}
