//! A tree in memory, whose calls can be planned to fail.
ghost use Rattle.std.specs.Prelude.{◌≡◌, ◌≤◌, ◌↔◌, ◌&&◌, not, true, false, [], Ok, Err, Some, None, All, IfOk, IfErr, OnOk, OnErr, IsErrOf, IsTrue, MatchResult, IfNone, IfSome, ◌++◌, ◌∷◌, if◌then◌else◌};
ghost use Rattle.std.specs.List.{AllByRecursion, list_all};
ghost use Rattle.gitbase_core.specs.Path.{components, pieces_between_slashes};
ghost use Rattle.worktree_fs.specs.Tree.{directory, file, found, look, resolution_of_path, none};
ghost use Rattle.worktree_fs.specs.Naming.{IsValidEntryName, is_valid_entry_name, AreDistinctValidEntryNames};
ghost use Rattle.worktree_fs.specs.Answers.{kind_of_lookup, read_answer_of_lookup, CountsFaultsOfListing, HoldsUnlessFileRead, ListErrorFitsLookup};
ghost use Rattle.worktree_fs.specs.Ends.{saturating_increment, saturating_sum};
ghost use Rattle.worktree_fs.specs.Changes.{real_path, answer_to_make_dir, entries_after_make_dir, answer_to_remove_node, entries_after_remove_node};
ghost use Rattle.worktree_fs.specs.MadeAndRemoved.{AnswersMakeInExistingParent, NodeRemovedAtPath};
ghost use Rattle.worktree_fs.specs.Composed.{nfc_if_composing, IsComponentOfComposedText};
ghost use Rattle.worktree_fs.specs.Grow.{node_with_descendant_added, is_absolute_path_of_valid_names, add_error_at_path, IsAddErrorUnlessOutOfMemory, tree_node_of_new_node};
ghost use Rattle.worktree_fs.specs.Memory.{zero_call_counts, is_next_call_planned_to_fail, memory_after_call, memory_after_listing, tree_if_valid, ListsDirectoryNamesInOrder, AreSortedForwardOrReversed};

mod found;
mod grow;
mod list_of;
mod plan;
mod root;
mod route;
mod search;
mod site;
mod spell;
mod stored;
mod trace;

use crate::composed::nfc_if_composing;
use crate::names::{is_valid_entry_name, resolve_path_from_directory};
use crate::{
    ListError, MakeAnswer, NameList, NodeKind, ReadAnswer, ReadError, RemoveAnswer, Worktree,
};
use gitbase_core::{Bytes, OutOfMemory, PathText, is_absolute};
use grow::store_new_node;
pub use grow::{AddError, NewNode};
pub use plan::CallKind;
use plan::{CallCounts, Plan, is_nth_call_planned_to_fail};
use root::Root;
use std::alloc::Global;
use std::marker::Model;

/// A tree in memory, whose names are sorted in each directory and found by binary search.
///
/// Paths are followed by a loop, however deep the tree is. Adding, making and removing a node,
/// forking, and letting the tree go take frames of the stack for each directory on the way.
///
/// Contracts see all that it holds, the planned faults, and the counts. See
/// docs/DECISIONS.md#told-tree-is-names, docs/DECISIONS.md#fork-copies-tree and
/// docs/DECISIONS.md#frames-of-a-tree.
#[derive(Drop)]
pub struct MemoryWorktree {
    root: Root,
    composes: bool,
    is_reversed: bool,
    plans: Vec<Plan>,
    calls: CallCounts,
    faults: u64,
    list_faults: u64,
    reads: u64,
    lists: u64,
}

impl Model for MemoryWorktree {
    ghost use Rattle.std.specs.Coded.{codes};
    ghost use Rattle.worktree_fs.specs.Codes.{entries_coding};
    ghost use Rattle.worktree_fs.specs.Composed.{EntriesHaveComposedNames};
    ghost use Rattle.worktree_fs.specs.Memory.{MemoryWorktreeModel};

    ghost Value = { MemoryWorktreeModel };

    ghost coded = { Prim.hlevel (codes, entries_coding) };

    ghost invariant = { λ m. EntriesHaveComposedNames m.composes m.root };

    ghost view = { λ m. record {
      tree = m.root;
      composes = m.composes;
      is_reversed = m.is_reversed;
      plans = m.plans.items;
      calls = m.calls;
      faults = m.faults;
      list_faults = m.list_faults;
      reads = m.reads;
      lists = m.lists;
    } };
}

impl MemoryWorktree {
    /// A tree whose root holds nothing; takes no memory.
    pub fn new(alloc: Global, composes: bool) -> MemoryWorktree
        ensures new { result
            ≡ record {
              tree = none;
              composes = composes;
              is_reversed = false;
              plans = [];
              calls = zero_call_counts;
              faults = 0;
              list_faults = 0;
              reads = 0;
              lists = 0;
            } }
        ensures told { tree_if_valid result.tree ≡ Some none }
    {
        MemoryWorktree {
            root: Root::new(alloc),
            composes,
            is_reversed: false,
            plans: Vec::new(alloc),
            calls: CallCounts::new(),
            faults: 0,
            list_faults: 0,
            reads: 0,
            lists: 0,
        }
    }

    /// Puts a node at the end of a path, with the directories on the way that are missing.
    ///
    /// # Errors
    ///
    /// The tree stays for each; the first that fits is the answer.
    ///
    /// - `NotNormal` exactly where the path is no slash and names with one slash between two.
    /// - `NoParent` exactly where a node on the way is no directory.
    /// - `Exists` exactly where there is a node already.
    /// - `OutOfMemory` for want of memory.
    ///
    /// See docs/DECISIONS.md#add-root.
    pub fn add(&mut self, alloc: Global, path: &[u8], node: NewNode<'_>) -> Result<(), AddError>
        ensures added { OnOk result (directory self.new.tree ≡ node_with_descendant_added
            (components (nfc_if_composing self.old.composes path.now))
            (tree_node_of_new_node node.entry) (Some (directory self.old.tree))) }
        ensures fits { OnOk result (add_error_at_path self.old.tree
            (nfc_if_composing self.old.composes path.now) ≡ None) }
        ensures refused { IfErr result (IsAddErrorUnlessOutOfMemory (add_error_at_path self.old.tree
            (nfc_if_composing self.old.composes path.now))) }
        ensures unchanged { OnErr result (self.new ≡ self.old) }
        ensures rest { self.new ≡ record self.old { tree = self.new.tree } }
        ensures told { OnOk result (tree_if_valid self.new.tree ≡ Some self.new.tree) }
    {
        let kept = nfc_if_composing(alloc, self.composes, path)?;
        let Some(below) = path_below_root_if_normal(kept.as_bytes()) else {
            return Err(AddError::NotNormal);
        };
        let node = store_new_node(alloc, node)?;
        self.root.add(alloc, below, node)?;
        self.assert_tree_is_valid();
        Ok(())
    }

    /// Plans that the `nth` call of a kind, counted from 1, fails, beside what was planned before.
    ///
    /// # Errors
    ///
    /// - `OutOfMemory` for want of memory; what was planned stays.
    pub fn plan_fault_of_nth_call(
        &mut self,
        _alloc: Global,
        call: CallKind,
        nth: u64,
    ) -> Result<(), OutOfMemory>
        ensures planned { OnOk result (self.new
            ≡ record self.old {
              plans = self.old.plans ++
                  (record { call = call; nth = nth }) ∷ [];
            }) }
        ensures unchanged { OnErr result (self.new ≡ self.old) }
    {
        self.plans.push(Plan { call, nth })?;
        Ok(())
    }

    /// Whether names are listed from last to first.
    pub fn set_listing_reversed(&mut self, on: bool)
        ensures { self.new ≡ record self.old { is_reversed = on } }
    {
        self.is_reversed = on;
    }

    /// How many calls failed. A tree in memory tells all that it holds, whatever failed.
    pub fn fault_count(&self) -> u64
        ensures count { result ≡ self.now.faults }
        ensures told { tree_if_valid self.now.tree ≡ Some self.now.tree }
    {
        self.assert_tree_is_valid();
        self.faults
    }

    /// That the tree is told, whatever was done to it.
    fn assert_tree_is_valid(&self)
        ensures { tree_if_valid self.now.tree ≡ Some self.now.tree }
    {
        let _entries = self.root.entries();
    }

    /// How many reads were asked for.
    pub fn read_count(&self) -> u64
        ensures { result ≡ self.now.reads }
    {
        self.reads
    }

    /// Makes a directory, unless that is planned to fail.
    fn make_dir_unless_planned_fault(
        &mut self,
        alloc: Global,
        path: &[u8],
    ) -> Result<MakeAnswer, ReadError>
        ensures fault { IsErrOf result ReadError.Fault ↔ IsTrue (is_next_call_planned_to_fail
            self.old CallKind.MakeDir) }
        ensures answer { IfOk result (λ answer. answer ≡ answer_to_make_dir self.old.composes
            self.old.tree (resolution_of_path self.old.tree path.now false)) }
        ensures made { OnOk result (self.new.tree ≡ entries_after_make_dir self.old.composes
            self.old.tree (resolution_of_path self.old.tree path.now false)) }
        ensures refused { OnErr result (self.new.tree ≡ self.old.tree) }
        ensures rest { self.new
            ≡ record (memory_after_call self.old CallKind.MakeDir) { tree = self.new.tree } }
        ensures later { self.old.faults ≤ self.new.faults }
    {
        if self.count_call_and_check_fault(CallKind::MakeDir) {
            return Err(ReadError::Fault);
        }
        self.assert_tree_is_valid();
        Ok(self.root.make_dir(alloc, self.composes, path)?)
    }

    /// Removes a node, unless that is planned to fail.
    fn remove_node_unless_planned_fault(&mut self, path: &[u8]) -> Result<RemoveAnswer, ReadError>
        ensures answer { result ≡ (if is_next_call_planned_to_fail self.old CallKind.RemoveNode then
            Err ReadError.Fault else Ok (answer_to_remove_node (resolution_of_path self.old.tree
            path.now false))) }
        ensures tree { self.new.tree ≡ (if is_next_call_planned_to_fail self.old CallKind.RemoveNode
            then self.old.tree else entries_after_remove_node self.old.tree
            (resolution_of_path self.old.tree path.now false)) }
        ensures rest { self.new
            ≡ record (memory_after_call self.old CallKind.RemoveNode) { tree = self.new.tree } }
        ensures later { self.old.faults ≤ self.new.faults }
    {
        if self.count_call_and_check_fault(CallKind::RemoveNode) {
            return Err(ReadError::Fault);
        }
        Ok(self.root.remove(path))
    }

    /// Counts a call, and whether it is planned to fail, which is counted too.
    fn count_call_and_check_fault(&mut self, call: CallKind) -> bool
        ensures planned { result ≡ is_next_call_planned_to_fail self.old call }
        ensures state { self.new ≡ memory_after_call self.old call }
        ensures later { self.old.faults ≤ self.new.faults }
    {
        let nth = self.calls.count(call);
        let fails = is_nth_call_planned_to_fail(&self.plans, call, nth);
        if fails {
            self.faults = self.faults.saturating_add(1);
        }
        fails
    }
}

impl Worktree for MemoryWorktree {
    ghost told = { λ w. tree_if_valid w.tree };

    ghost faults = { λ w. w.faults };

    ghost list_faults = { λ w. w.list_faults };

    ghost reads = { λ w. w.reads };

    ghost lists = { λ w. w.lists };

    ghost precomposes = { λ w. w.composes };

    ghost use Rattle.worktree_fs.specs.Told.{told_tree_is_valid};

    ghost is_tree = { λ w t e. told_tree_is_valid w.tree t e };

    fn precomposes(&self) -> bool {
        self.composes
    }

    /// Never answers `OutOfMemory`.
    fn kind(&mut self, _alloc: Global, path: &[u8]) -> Result<Option<NodeKind>, ReadError>
        ensures answer { result ≡ (if is_next_call_planned_to_fail self.old CallKind.Kind then Err
            ReadError.Fault else Ok (kind_of_lookup (look self.old.tree path.now false))) }
        ensures state { self.new ≡ memory_after_call self.old CallKind.Kind }
        ensures later { self.old.faults ≤ self.new.faults }
    {
        if self.count_call_and_check_fault(CallKind::Kind) {
            return Err(ReadError::Fault);
        }
        Ok(self.root.kind(path, false))
    }

    /// Never answers `OutOfMemory`.
    fn kind_following(&mut self, _alloc: Global, path: &[u8]) -> Result<Option<NodeKind>, ReadError>
        ensures answer { result ≡ (if is_next_call_planned_to_fail self.old CallKind.KindFollowing
            then Err ReadError.Fault else Ok (kind_of_lookup (look self.old.tree path.now true))) }
        ensures state { self.new ≡ memory_after_call self.old CallKind.KindFollowing }
        ensures later { self.old.faults ≤ self.new.faults }
    {
        if self.count_call_and_check_fault(CallKind::KindFollowing) {
            return Err(ReadError::Fault);
        }
        Ok(self.root.kind(path, true))
    }

    /// In the order of the tree, or from last to first where that was asked for. `add` and
    /// `make_dir` put each name before the first greater one.
    fn list(&mut self, alloc: Global, path: &[u8], follow: bool) -> Result<NameList, ListError>
        ensures opened { IsErrOf result ListError.OpenFault ↔ IsTrue
            (is_next_call_planned_to_fail self.old CallKind.ListOpen) }
        ensures read { IsErrOf result ListError.EntryFault ↔ IsTrue
            (not (is_next_call_planned_to_fail self.old CallKind.ListOpen) &&
            is_next_call_planned_to_fail self.old CallKind.ListEntry) }
        ensures answer { MatchResult result (ListsDirectoryNamesInOrder self.old.is_reversed
            (look self.old.tree path.now follow)) (ListErrorFitsLookup
            (look self.old.tree path.now follow)) }
        ensures state { self.new ≡ memory_after_listing self.old }
        ensures names { IfOk result AreDistinctValidEntryNames }
        ensures kept { IfOk result (All (IsComponentOfComposedText self.old.composes)) }
        ensures sorted { IfOk result (AreSortedForwardOrReversed self.old.is_reversed) }
        ensures counts { CountsFaultsOfListing self.old.faults self.new.faults self.old.list_faults
            self.new.list_faults self.old.lists self.new.lists result }
    {
        self.lists = self.lists.saturating_add(1);
        if self.count_call_and_check_fault(CallKind::ListOpen) {
            self.list_faults = self.list_faults.saturating_add(1);
            return Err(ListError::OpenFault);
        }
        if self.count_call_and_check_fault(CallKind::ListEntry) {
            self.list_faults = self.list_faults.saturating_add(1);
            return Err(ListError::EntryFault);
        }
        self.root.list(alloc, path, follow, self.is_reversed)
    }

    fn read(
        &mut self,
        alloc: Global,
        path: &[u8],
        follow: bool,
        into: &mut Bytes,
    ) -> Result<ReadAnswer, ReadError>
        ensures fault { IsErrOf result ReadError.Fault ↔ IsTrue (is_next_call_planned_to_fail
            self.old CallKind.Read) }
        ensures answer { IfOk result (λ answer. answer
            ≡ read_answer_of_lookup (look self.old.tree path.now follow)) }
        ensures bytes { result ≡ Ok ReadAnswer.Read → look self.old.tree path.now follow
            ≡ found (file into.new) }
        ensures into { HoldsUnlessFileRead result (into.new ≡ into.old) }
        ensures link { result ≡ Ok ReadAnswer.IsLink → follow ≡ false }
        ensures state { self.new ≡ memory_after_call (record self.old {
          reads = saturating_increment
              self.old.reads;
        }) CallKind.Read }
        ensures later { self.old.faults ≤ self.new.faults }
        ensures reads_later { self.old.reads ≤ self.new.reads }
    {
        self.reads = self.reads.saturating_add(1);
        if self.count_call_and_check_fault(CallKind::Read) {
            return Err(ReadError::Fault);
        }
        self.root.read(alloc, path, follow, into)
    }

    fn real_path(
        &mut self,
        alloc: Global,
        path: &[u8],
        cwd: &[u8],
    ) -> Result<Option<PathText>, ReadError>
        ensures fault { IsErrOf result ReadError.Fault ↔ IsTrue (is_next_call_planned_to_fail
            self.old CallKind.RealPath) }
        ensures answer { IfOk result (λ real. real ≡ real_path self.old.tree path.now cwd.now) }
        ensures state { self.new ≡ memory_after_call self.old CallKind.RealPath }
        ensures later { self.old.faults ≤ self.new.faults }
    {
        if self.count_call_and_check_fault(CallKind::RealPath) {
            return Err(ReadError::Fault);
        }
        let full = resolve_path_from_directory(alloc, path, cwd)?;
        Ok(self.root.real_path(alloc, full.as_bytes())?)
    }

    fn make_dir(&mut self, alloc: Global, path: &[u8]) -> Result<MakeAnswer, ReadError>
        ensures fault { IsErrOf result ReadError.Fault ↔ IsTrue (is_next_call_planned_to_fail
            self.old CallKind.MakeDir) }
        ensures answer { IfOk result (λ answer. answer ≡ answer_to_make_dir self.old.composes
            self.old.tree (resolution_of_path self.old.tree path.now false)) }
        ensures inside { IfOk result (AnswersMakeInExistingParent self.old.composes self.old.tree
            path.now) }
        ensures made { OnOk result (self.new.tree ≡ entries_after_make_dir self.old.composes
            self.old.tree (resolution_of_path self.old.tree path.now false)) }
        ensures refused { OnErr result (self.new.tree ≡ self.old.tree) }
        ensures rest { self.new
            ≡ record (memory_after_call self.old CallKind.MakeDir) { tree = self.new.tree } }
        ensures told_before { tree_if_valid self.old.tree ≡ Some self.old.tree }
        ensures told { tree_if_valid self.new.tree ≡ Some self.new.tree }
        ensures later { self.old.faults ≤ self.new.faults }
    {
        self.assert_tree_is_valid();
        let answer = self.make_dir_unless_planned_fault(alloc, path);
        self.assert_tree_is_valid();
        answer
    }

    /// Never answers `OutOfMemory`.
    fn remove_node(&mut self, _alloc: Global, path: &[u8]) -> Result<RemoveAnswer, ReadError>
        ensures answer { result ≡ (if is_next_call_planned_to_fail self.old CallKind.RemoveNode then
            Err ReadError.Fault else Ok (answer_to_remove_node (resolution_of_path self.old.tree
            path.now false))) }
        ensures tree { self.new.tree ≡ (if is_next_call_planned_to_fail self.old CallKind.RemoveNode
            then self.old.tree else entries_after_remove_node self.old.tree
            (resolution_of_path self.old.tree path.now false)) }
        ensures gone { result ≡ Ok RemoveAnswer.Removed
            → NodeRemovedAtPath path.now self.old.tree self.new.tree }
        ensures rest { self.new
            ≡ record (memory_after_call self.old CallKind.RemoveNode) { tree = self.new.tree } }
        ensures told_before { tree_if_valid self.old.tree ≡ Some self.old.tree }
        ensures told { tree_if_valid self.new.tree ≡ Some self.new.tree }
        ensures later { self.old.faults ≤ self.new.faults }
    {
        self.assert_tree_is_valid();
        let answer = self.remove_node_unless_planned_fault(path);
        self.assert_tree_is_valid();
        answer
    }

    /// The tree is copied. No call of a fork is planned to fail.
    fn fork(&self, alloc: Global) -> Result<MemoryWorktree, OutOfMemory>
        ensures { IfOk result (λ fork. fork
            ≡ record {
              tree = self.now.tree;
              composes = self.now.composes;
              is_reversed = self.now.is_reversed;
              plans = [];
              calls = zero_call_counts;
              faults = 0;
              list_faults = 0;
              reads = 0;
              lists = 0;
            }) }
    {
        Ok(MemoryWorktree {
            root: self.root.copied(alloc)?,
            composes: self.composes,
            is_reversed: self.is_reversed,
            plans: Vec::new(alloc),
            calls: CallCounts::new(),
            faults: 0,
            list_faults: 0,
            reads: 0,
            lists: 0,
        })
    }

    fn absorb(&mut self, other: MemoryWorktree)
        ensures state { self.new
            ≡ record self.old {
              faults = saturating_sum self.old.faults other.faults;
              list_faults = saturating_sum self.old.list_faults other.list_faults;
              reads = saturating_sum self.old.reads other.reads;
            } }
        ensures later { self.old.faults ≤ self.new.faults }
        ensures list_faults_later { self.old.list_faults ≤ self.new.list_faults }
        ensures reads_later { self.old.reads ≤ self.new.reads }
    {
        self.faults = self.faults.saturating_add(other.faults);
        self.list_faults = self.list_faults.saturating_add(other.list_faults);
        self.reads = self.reads.saturating_add(other.reads);
    }
}

/// What stands behind the first slash of a normal path.
fn path_below_root_if_normal(path: &[u8]) -> Option<&[u8]>
    ensures none { IfNone result (is_absolute_path_of_valid_names path.now ≡ false) }
    ensures normal { IfSome result (λ below. is_absolute_path_of_valid_names path.now ≡ true) }
    ensures names { IfSome result (λ below. AllByRecursion IsValidEntryName (pieces_between_slashes
        below.now)) }
    ensures pieces { IfSome result (λ below. components path.now ≡ pieces_between_slashes
        below.now) }
{
    if !is_absolute(path) {
        return None;
    }
    let (_, below) = path.split_at(1);
    if has_only_valid_names(below) {
        Some(below)
    } else {
        None
    }
}

/// Whether each piece between slashes is a name.
fn has_only_valid_names(path: &[u8]) -> bool
    ensures { result ≡ list_all is_valid_entry_name (pieces_between_slashes path.now) }
{
    path.split(|b| *b == b'/')
        .all(|name| is_valid_entry_name(name))
}
