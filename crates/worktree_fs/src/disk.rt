//! The files of the system as a worktree: the edge of which the counts, the names and the sizes are
//! proved, and not what it holds.
ghost use Rattle.std.specs.Prelude.{◌≡◌, ◌≤◌, ◌^◌, ◌&&◌, length, [], None, Ok, IfOk, IsErrOf, MatchResult, true, false, All, IsTrue};
ghost use Rattle.worktree_fs.specs.Causes.{CountIncreasedOrSaturated, saturating_increment};
ghost use Rattle.worktree_fs.specs.Disk.{is_fault, is_listing_fault, has_nul, is_non_utf8_without_nul, increment_if, disk_counts_after_call, disk_counts_after_read, disk_counts_after_listing, with_first_fault_path, KeepsFirstFaultPath, with_counts_reset, IsComposedIfComposing};
ghost use Rattle.std.specs.List.Sorted.{IsStrictlySortedBy};
ghost use Rattle.worktree_fs.specs.Changes.{resolve_path_from_directory};
ghost use Rattle.worktree_fs.specs.Naming.{AreDistinctValidEntryNames};
ghost use Rattle.worktree_fs.specs.Order.{compare_path_bytes};
ghost use Rattle.worktree_fs.specs.Answers.{CountsFaultsOfCall, CountsFaultsOfListing, HoldsUnlessFileRead};

mod listed;
pub(crate) mod node;

use crate::faults::{is_fault, is_listing_fault};
use crate::{
    ListError, MakeAnswer, NameList, NodeKind, ReadAnswer, ReadError, RemoveAnswer, Worktree,
};
use gitbase_core::{Bytes, OutOfMemory, PathText};
use listed::list_directory;
use node::{kind_at_path, make_dir, read_file_into, real_path, remove_node};
use std::alloc::Global;
use std::marker::Model;
use std::rt::HostRuntime;

/// A worktree over the files of the system, which resolves paths.
///
/// It tells nothing of what it finds. It counts every failed call, but not its own want of memory:
/// what the system refuses, its limit on links too; a name that cannot stand in a directory, two
/// equal names and more than 1,000,000 names in one listing; and a file of more than 1 GiB. A path
/// that is not UTF-8 is such a failure of every call, since std has none for it; one with a NUL
/// leads nowhere, UTF-8 or not. Slashes at the end of a path mean nothing, and the empty path is
/// `/`, but for `real_path`, which takes it from `cwd`. A path that does not begin with `/` is
/// taken as the system takes it, from the current directory.
///
/// It names the path of the first call that failed, as it was asked for, where there was memory for that.
///
/// Contracts see its counts and that path.
#[derive(Drop)]
pub struct DiskWorktree<'a> {
    rt: &'a HostRuntime,
    composes: bool,
    current: &'a str,
    buffer: Vec<u8>,
    faults: u64,
    list_faults: u64,
    reads: u64,
    lists: u64,
    first_fault: Bytes,
}

impl<'a> Model for DiskWorktree<'a> {
    ghost use Rattle.worktree_fs.specs.Disk.{DiskWorktreeModel};

    ghost Value = { DiskWorktreeModel };

    ghost view = { λ w. record {
      composes = w.composes;
      faults = w.faults;
      list_faults = w.list_faults;
      reads = w.reads;
      lists = w.lists;
      first_fault = w.first_fault;
    } };
}

impl<'a> DiskWorktree<'a> {
    /// A worktree over all files of the system; takes no memory before its first listing.
    /// See docs/DECISIONS.md#real-disk-paths.
    pub fn new(rt: &'a HostRuntime, composes: bool) -> DiskWorktree<'a>
        ensures { result ≡ record {
          composes = composes;
          faults = 0;
          list_faults = 0;
          reads = 0;
          lists = 0;
          first_fault = [];
        } }
    {
        DiskWorktree::new_with_current_dir(rt, composes, "")
    }

    /// The same, which asks the system for a path beneath the current directory as it leads from there,
    /// so that the system walks fewer components. `current` is the path of the current directory as the
    /// system tells it, absolute and without links, with a slash at its end; any other text is not heeded.
    ///
    /// What is asked for is the same node as long as no directory on the way to the current one is renamed
    /// or removed meanwhile; then it is one in the directory that was the current one from the start.
    pub fn new_with_current_dir(
        rt: &'a HostRuntime,
        composes: bool,
        current: &'a str,
    ) -> DiskWorktree<'a>
        ensures { result ≡ record {
          composes = composes;
          faults = 0;
          list_faults = 0;
          reads = 0;
          lists = 0;
          first_fault = [];
        } }
    {
        DiskWorktree {
            rt,
            composes,
            current: if current.ends_with('/') { current } else { "" },
            buffer: Vec::new(rt.alloc()),
            faults: 0,
            list_faults: 0,
            reads: 0,
            lists: 0,
            first_fault: Bytes::new(rt.alloc()),
        }
    }

    /// How many calls failed.
    pub fn fault_count(&self) -> u64
        ensures { result ≡ self.now.faults }
    {
        self.faults
    }

    /// How many listings failed.
    pub fn list_fault_count(&self) -> u64
        ensures { result ≡ self.now.list_faults }
    {
        self.list_faults
    }

    /// The path of the first call that failed, as it was asked for: no bytes where none failed, or where there was no memory for it.
    pub fn path_of_first_fault(&self) -> &[u8]
        ensures { result.now ≡ self.now.first_fault }
    {
        self.first_fault.as_bytes()
    }

    /// Names the path of a call that failed, where it is the first.
    fn keep_first_fault_path(&mut self, path: &[u8])
        ensures state { self.new ≡ with_first_fault_path self.new.first_fault self.old }
        ensures named { KeepsFirstFaultPath true path.now self.old self.new.first_fault }
    {
        if self.faults == 0 {
            if let Ok(path) = Bytes::from_slice(self.rt.alloc(), path) {
                self.first_fault = path;
            }
        }
    }

    /// Counts a call that failed: as a fault, and one that lists as a fault of listings too. The first one is named.
    fn count(&mut self, path: &[u8], has_failed: bool, is_listing: bool)
        ensures state { self.new ≡ record (disk_counts_after_call has_failed self.old) {
          list_faults = increment_if (is_listing && has_failed) self.old.list_faults;
          first_fault = self.new.first_fault;
        } }
        ensures named { KeepsFirstFaultPath has_failed path.now self.old self.new.first_fault }
        ensures later { self.old.faults ≤ self.new.faults }
        ensures list_later { self.old.list_faults ≤ self.new.list_faults }
        ensures cause { IsTrue has_failed → CountIncreasedOrSaturated self.old.faults
            self.new.faults }
        ensures list_cause { IsTrue (is_listing && has_failed)
            → CountIncreasedOrSaturated self.old.list_faults self.new.list_faults }
    {
        if has_failed {
            self.keep_first_fault_path(path);
            self.faults = self.faults.saturating_add(1);
            if is_listing {
                self.list_faults = self.list_faults.saturating_add(1);
            }
        }
    }
}

impl<'a> Worktree for DiskWorktree<'a> {
    ghost told = { λ _. None };

    ghost faults = { λ w. w.faults };

    ghost list_faults = { λ w. w.list_faults };

    ghost reads = { λ w. w.reads };

    ghost lists = { λ w. w.lists };

    ghost precomposes = { λ w. w.composes };

    ghost is_tree = { λ w t e. Prim.cc };

    fn precomposes(&self) -> bool {
        self.composes
    }

    /// One call of the system. Never answers `OutOfMemory`.
    fn kind(&mut self, _alloc: Global, path: &[u8]) -> Result<Option<NodeKind>, ReadError>
        ensures state { self.new ≡ with_first_fault_path self.new.first_fault
            (disk_counts_after_call (is_fault result) self.old) }
        ensures named { KeepsFirstFaultPath (is_fault result) path.now self.old
            self.new.first_fault }
        ensures wants_none { IsErrOf result ReadError.OutOfMemory → ⊥ }
        ensures counts { CountsFaultsOfCall self.old.faults self.new.faults result }
        ensures unaskable { IsTrue (is_non_utf8_without_nul path.now)
            → IsErrOf result ReadError.Fault }
        ensures nowhere { IsTrue (has_nul path.now) → result ≡ Ok None }
    {
        let found = kind_at_path(self.rt, self.current, path, false);
        self.count(path, is_fault(&found), false);
        found
    }

    /// One call of the system. Never answers `OutOfMemory`.
    fn kind_following(&mut self, _alloc: Global, path: &[u8]) -> Result<Option<NodeKind>, ReadError>
        ensures state { self.new ≡ with_first_fault_path self.new.first_fault
            (disk_counts_after_call (is_fault result) self.old) }
        ensures named { KeepsFirstFaultPath (is_fault result) path.now self.old
            self.new.first_fault }
        ensures wants_none { IsErrOf result ReadError.OutOfMemory → ⊥ }
        ensures counts { CountsFaultsOfCall self.old.faults self.new.faults result }
        ensures unaskable { IsTrue (is_non_utf8_without_nul path.now)
            → IsErrOf result ReadError.Fault }
        ensures nowhere { IsTrue (has_nul path.now) → result ≡ Ok None }
    {
        let found = kind_at_path(self.rt, self.current, path, true);
        self.count(path, is_fault(&found), false);
        found
    }

    /// Sorted by bytes. The directory is opened once; where the system says that it is absent or no
    /// directory its path is looked at once more.
    fn list(&mut self, alloc: Global, path: &[u8], follow: bool) -> Result<NameList, ListError>
        ensures state { self.new ≡ with_first_fault_path self.new.first_fault
            (disk_counts_after_listing (is_listing_fault result) self.old) }
        ensures named { KeepsFirstFaultPath (is_listing_fault result) path.now self.old
            self.new.first_fault }
        ensures names { IfOk result AreDistinctValidEntryNames }
        ensures kept { IfOk result (All (IsComposedIfComposing self.old.composes)) }
        ensures few { IfOk result (λ names. length names ≤ 1000000) }
        ensures sorted { IfOk result (IsStrictlySortedBy compare_path_bytes) }
        ensures counts { CountsFaultsOfListing self.old.faults self.new.faults self.old.list_faults
            self.new.list_faults self.old.lists self.new.lists result }
        ensures unaskable { IsTrue (is_non_utf8_without_nul path.now)
            → IsErrOf result ListError.OpenFault }
        ensures nowhere { IsTrue (has_nul path.now) → IsErrOf result ListError.Absent }
    {
        self.lists = self.lists.saturating_add(1);
        let names = list_directory(
            self.rt,
            alloc,
            self.composes,
            &mut self.buffer,
            self.current,
            path,
            follow,
        );
        self.count(path, is_listing_fault(&names), true);
        names
    }

    /// The node is looked at before it is opened, so that no pipe or device is, unless another
    /// program puts one there meanwhile.
    fn read(
        &mut self,
        alloc: Global,
        path: &[u8],
        follow: bool,
        into: &mut Bytes,
    ) -> Result<ReadAnswer, ReadError>
        ensures state { self.new ≡ with_first_fault_path self.new.first_fault
            (disk_counts_after_read (is_fault result) self.old) }
        ensures named { KeepsFirstFaultPath (is_fault result) path.now self.old
            self.new.first_fault }
        ensures counts { CountsFaultsOfCall self.old.faults self.new.faults result }
        ensures unaskable { IsTrue (is_non_utf8_without_nul path.now)
            → IsErrOf result ReadError.Fault }
        ensures nowhere { IsTrue (has_nul path.now) → result ≡ Ok ReadAnswer.Absent }
        ensures into { HoldsUnlessFileRead result (into.new ≡ into.old) }
        ensures link { result ≡ Ok ReadAnswer.IsLink → follow ≡ false }
        ensures short { result ≡ Ok ReadAnswer.Read → length into.new ≤ 2 ^ 30 }
        ensures reads_later { self.old.reads ≤ self.new.reads }
    {
        self.reads = self.reads.saturating_add(1);
        let answer = read_file_into(self.rt, alloc, self.current, path, follow, into);
        self.count(path, is_fault(&answer), false);
        answer
    }

    /// The path that the system gives.
    fn real_path(
        &mut self,
        alloc: Global,
        path: &[u8],
        cwd: &[u8],
    ) -> Result<Option<PathText>, ReadError>
        ensures state { self.new ≡ with_first_fault_path self.new.first_fault
            (disk_counts_after_call (is_fault result) self.old) }
        ensures named { KeepsFirstFaultPath (is_fault result) path.now self.old
            self.new.first_fault }
        ensures counts { CountsFaultsOfCall self.old.faults self.new.faults result }
        ensures unaskable { IsTrue (is_non_utf8_without_nul (resolve_path_from_directory path.now
            cwd.now)) → IfOk result (λ _. ⊥) }
        ensures nowhere { IsTrue (has_nul (resolve_path_from_directory path.now cwd.now))
            → MatchResult result (λ real. real ≡ None) (λ error. error ≡ ReadError.OutOfMemory) }
    {
        let real = real_path(self.rt, alloc, path, cwd);
        self.count(path, is_fault(&real), false);
        real
    }

    /// One call of the system.
    fn make_dir(&mut self, alloc: Global, path: &[u8]) -> Result<MakeAnswer, ReadError>
        ensures state { self.new ≡ with_first_fault_path self.new.first_fault
            (disk_counts_after_call (is_fault result) self.old) }
        ensures named { KeepsFirstFaultPath (is_fault result) path.now self.old
            self.new.first_fault }
        ensures counts { CountsFaultsOfCall self.old.faults self.new.faults result }
        ensures unaskable { IsTrue (is_non_utf8_without_nul path.now)
            → IsErrOf result ReadError.Fault }
        ensures nowhere { IsTrue (has_nul path.now) → result ≡ Ok MakeAnswer.NoParent }
    {
        let answer = make_dir(self.rt, alloc, self.composes, path);
        self.count(path, is_fault(&answer), false);
        answer
    }

    /// The node is looked at before it is removed. Never answers `OutOfMemory`.
    fn remove_node(&mut self, _alloc: Global, path: &[u8]) -> Result<RemoveAnswer, ReadError>
        ensures state { self.new ≡ with_first_fault_path self.new.first_fault
            (disk_counts_after_call (is_fault result) self.old) }
        ensures named { KeepsFirstFaultPath (is_fault result) path.now self.old
            self.new.first_fault }
        ensures wants_none { IsErrOf result ReadError.OutOfMemory → ⊥ }
        ensures counts { CountsFaultsOfCall self.old.faults self.new.faults result }
        ensures unaskable { IsTrue (is_non_utf8_without_nul path.now)
            → IsErrOf result ReadError.Fault }
        ensures nowhere { IsTrue (has_nul path.now) → result ≡ Ok RemoveAnswer.Absent }
    {
        let answer = remove_node(self.rt, self.current, path);
        self.count(path, is_fault(&answer), false);
        answer
    }

    /// Never answers `OutOfMemory`.
    fn fork(&self, _alloc: Global) -> Result<DiskWorktree<'a>, OutOfMemory>
        ensures { result ≡ Ok (with_counts_reset self.now) }
    {
        Ok(DiskWorktree {
            rt: self.rt,
            composes: self.composes,
            current: self.current,
            buffer: Vec::new(self.rt.alloc()),
            faults: 0,
            list_faults: 0,
            reads: 0,
            lists: 0,
            first_fault: Bytes::new(self.rt.alloc()),
        })
    }

    fn absorb(&mut self, other: DiskWorktree<'a>) {
        if other.faults > 0 {
            self.keep_first_fault_path(other.first_fault.as_bytes());
        }
        self.faults = self.faults.saturating_add(other.faults);
        self.list_faults = self.list_faults.saturating_add(other.list_faults);
        self.reads = self.reads.saturating_add(other.reads);
    }
}
