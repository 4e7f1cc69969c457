//! Where a walk starts.
ghost use Rattle.std.specs.Prelude.{◌≡◌, ◌⊎◌, ℕ, [], Some, true, false, IfOk, IfErr};
ghost use Rattle.worktree_fs.specs.Causes.{CountNotIncreased, CountIncreasedOrSaturated};
ghost use Rattle.worktree_fs.specs.Kept.{KeepsTreeAndListCounts};
ghost use Rattle.worktree_fs.specs.Paths.{root_joined_with_relative};
ghost use Rattle.worktree_fs.specs.Tree.{Names};
ghost use Rattle.dir_classify.specs.Kinds.{is_plain_directory_kind};
ghost use Rattle.dir_classify.specs.Layers.{setting_of_shared, kind_of_node_at};
ghost use Rattle.dir_classify.specs.Refused.{HoldsIfFaultError};
ghost use Rattle.dir_walk.specs.Root.{common_directory_or_worktree_root, explicit_or_common_root_before_normalizing, traversal_root_of_normal_path, rooted, find_traversal_root};
ghost use Rattle.dir_walk.specs.Rooting.{IsErrorOfRootResult, IsCommonDirectoryOrEmpty, IsNormalizedRoot, IsAbsentErrorAtPath, IsLinkTestOfExistingNode, IsMetadataErrorAtPath, IsNormalRootPath, IsExplicitOrCommonRoot, IsErrorOfTraversalRoot, IsErrorOfRootComponents};

use dir_classify::{Error, MetadataWhy, Shared, join_worktree_root};
use gitbase_core::{Bytes, OutOfMemory, PathText, is_absolute};
use glob_rules::pathspec::Matcher;
use std::alloc::Global;
use worktree_fs::{NodeKind, ReadError, Worktree, next_component};

/// The traversal root, relative to the worktree root and normal: the one that is handed in, else
/// the common directory of what the path specs match, where that is a directory, else the worktree
/// root. A fault of the question whether the common directory is one leaves the worktree root.
///
/// # Errors
///
/// - `NormalizeRoot`: it is absolute, or leads out of the worktree.
/// - `SymlinkMetadata`: one of its components is not there, or its kind could not be had, which the
///   worktree counted.
/// - `SymlinkInRoot`: one of its components is a link, and no earlier one is.
/// - `OutOfMemory`: memory was refused.
///
/// See docs/DIFFERENCES.md#gix-traversal-root.
pub(crate) fn find_traversal_root<W: Worktree, M: Matcher>(
    alloc: Global,
    shared: &Shared<'_, M>,
    explicit: &Option<Bytes>,
    worktree: &mut W,
) -> Result<PathText, Error>
    ensures root { (t : Names) → W.told worktree.old ≡ Some t → CountNotIncreased
        (W.faults worktree.old) (W.faults worktree.new)
        → IfOk result (λ path. find_traversal_root (setting_of_shared M.Matcher shared.now) t
        explicit.now ≡ rooted path) }
    ensures way { (t : Names) → W.told worktree.old ≡ Some t → IfOk result (λ path.
        (find_traversal_root (setting_of_shared M.Matcher shared.now) t explicit.now ≡ rooted path)
        ⊎ (path ≡ [])) }
    ensures shape { IfOk result IsNormalRootPath }
    ensures asked { IfOk result (IsNormalizedRoot (setting_of_shared M.Matcher shared.now)
        explicit.now) }
    ensures about { IfErr result (IsErrorOfTraversalRoot (setting_of_shared M.Matcher shared.now)
        explicit.now) }
    ensures refused { (t : Names) → W.told worktree.old ≡ Some t
        → IfErr result (IsErrorOfRootResult (find_traversal_root (setting_of_shared M.Matcher
        shared.now) t explicit.now)) }
    ensures fault { (before now : ℕ) → IfErr result
        (HoldsIfFaultError (CountIncreasedOrSaturated (W.faults worktree.old)
        (W.faults worktree.new)) (CountIncreasedOrSaturated before now)) }
    ensures keeps { KeepsTreeAndListCounts W.Worktree worktree.old worktree.new }
    ensures reads { W.reads worktree.new ≡ W.reads worktree.old }
{
    let asked = explicit_or_common_root_before_normalizing(alloc, shared, explicit, worktree)?;
    match asked.normalize(alloc)? {
        None => Err(Error::NormalizeRoot { root: asked }),
        Some(path) => {
            if is_absolute(path.as_bytes()) {
                return Err(Error::NormalizeRoot { root: asked });
            }
            refuse_link_in_root_components(alloc, shared, path.as_bytes(), worktree)?;
            Ok(path)
        }
    }
}

/// The traversal root before it is normalised.
fn explicit_or_common_root_before_normalizing<W: Worktree, M: Matcher>(
    alloc: Global,
    shared: &Shared<'_, M>,
    explicit: &Option<Bytes>,
    worktree: &mut W,
) -> Result<PathText, OutOfMemory>
    ensures root { (t : Names) → W.told worktree.old ≡ Some t → CountNotIncreased
        (W.faults worktree.old) (W.faults worktree.new) → IfOk result (λ root. root
        ≡ explicit_or_common_root_before_normalizing (setting_of_shared M.Matcher shared.now) t
        explicit.now) }
    ensures fault { (t : Names) → W.told worktree.old ≡ Some t
        → IfOk result (λ root. (root ≡ explicit_or_common_root_before_normalizing
        (setting_of_shared M.Matcher shared.now) t explicit.now) ⊎ (root ≡ [])) }
    ensures asked { IfOk result (IsExplicitOrCommonRoot (setting_of_shared M.Matcher shared.now)
        explicit.now) }
    ensures keeps { KeepsTreeAndListCounts W.Worktree worktree.old worktree.new }
    ensures reads { W.reads worktree.new ≡ W.reads worktree.old }
{
    match explicit {
        Some(root) => PathText::from_bytes(alloc, root.as_bytes()),
        None => common_directory_or_worktree_root(alloc, shared, worktree),
    }
}

/// The common directory of what the path specs match, where it is a directory, its last link
/// followed; else the worktree root. A fault of that question reads as no directory.
///
/// See docs/DECISIONS.md#common-link.
/// See docs/DECISIONS.md#swallowed-faults.
fn common_directory_or_worktree_root<W: Worktree, M: Matcher>(
    alloc: Global,
    shared: &Shared<'_, M>,
    worktree: &mut W,
) -> Result<PathText, OutOfMemory>
    ensures root { (t : Names) → W.told worktree.old ≡ Some t → CountNotIncreased
        (W.faults worktree.old) (W.faults worktree.new) → IfOk result (λ root. root
        ≡ common_directory_or_worktree_root (setting_of_shared M.Matcher shared.now) t
        (setting_of_shared M.Matcher shared.now).common) }
    ensures fault { (t : Names) → W.told worktree.old ≡ Some t → IfOk result (λ root.
        (root ≡ common_directory_or_worktree_root (setting_of_shared M.Matcher shared.now) t
        (setting_of_shared M.Matcher shared.now).common) ⊎ (root ≡ [])) }
    ensures asked { IfOk result (IsCommonDirectoryOrEmpty (setting_of_shared M.Matcher
        shared.now).common) }
    ensures keeps { KeepsTreeAndListCounts W.Worktree worktree.old worktree.new }
    ensures reads { W.reads worktree.new ≡ W.reads worktree.old }
{
    match shared.pathspec.longest_common_directory() {
        None => PathText::from_bytes(alloc, b""),
        Some(directory) => {
            let full = join_worktree_root(alloc, shared.worktree_root, directory)?;
            if is_directory_following_links(alloc, full.as_bytes(), worktree)? {
                return PathText::from_bytes(alloc, directory);
            }
            PathText::from_bytes(alloc, b"")
        }
    }
}

/// Whether a whole path leads to a directory. A fault reads as no.
pub(crate) fn is_directory_following_links<W: Worktree>(
    alloc: Global,
    full: &[u8],
    worktree: &mut W,
) -> Result<bool, OutOfMemory>
    ensures is { (t : Names) → W.told worktree.old ≡ Some t
        → CountNotIncreased (W.faults worktree.old) (W.faults worktree.new)
        → IfOk result (λ is. is ≡ is_plain_directory_kind (kind_of_node_at t full.now true)) }
    ensures yes { (t : Names) → W.told worktree.old ≡ Some t → IfOk result (λ is. is ≡ true
        → is_plain_directory_kind (kind_of_node_at t full.now true) ≡ true) }
    ensures keeps { KeepsTreeAndListCounts W.Worktree worktree.old worktree.new }
    ensures reads { W.reads worktree.new ≡ W.reads worktree.old }
{
    match worktree.kind_following(alloc, full) {
        Ok(Some(NodeKind::Directory)) => Ok(true),
        Ok(_) | Err(ReadError::Fault) => Ok(false),
        Err(ReadError::OutOfMemory) => Err(OutOfMemory),
    }
}

/// Goes through the components of a path, of which each is to be there and none a link.
fn refuse_link_in_root_components<W: Worktree, M: Matcher>(
    alloc: Global,
    shared: &Shared<'_, M>,
    path: &[u8],
    worktree: &mut W,
) -> Result<(), Error>
    ensures through { (t : Names) → W.told worktree.old ≡ Some t
        → IfOk result (λ _. traversal_root_of_normal_path (setting_of_shared M.Matcher shared.now) t
        path.now ≡ rooted path.now) }
    ensures about { IfErr result (IsErrorOfRootComponents shared.now.worktree_root.now path.now) }
    ensures refused { (t : Names) → W.told worktree.old ≡ Some t
        → IfErr result (IsErrorOfRootResult (traversal_root_of_normal_path
        (setting_of_shared M.Matcher shared.now) t path.now)) }
    ensures fault { (before now : ℕ) → IfErr result
        (HoldsIfFaultError (CountIncreasedOrSaturated (W.faults worktree.old)
        (W.faults worktree.new)) (CountIncreasedOrSaturated before now)) }
    ensures keeps { KeepsTreeAndListCounts W.Worktree worktree.old worktree.new }
    ensures reads { W.reads worktree.new ≡ W.reads worktree.old }
{
    let mut way = PathText::from_bytes(alloc, b"")?;
    let mut component_index = 0usize;
    let mut rest = path;
    while let Some(next) = next_component(rest) {
        way.push_component(alloc, next.name)?;
        let full = join_worktree_root(alloc, shared.worktree_root, way.as_bytes())?;
        if is_existing_node_symlink(alloc, full, worktree)? {
            return Err(symlink_in_root_error(alloc, shared.worktree_root, path, component_index)?);
        }
        component_index += 1;
        rest = next.rest;
    }
    Ok(())
}

/// Whether the node at a whole path is a link; it is to be there.
fn is_existing_node_symlink<W: Worktree>(
    alloc: Global,
    full: PathText,
    worktree: &mut W,
) -> Result<bool, Error>
    ensures link { (t : Names) → W.told worktree.old ≡ Some t
        → IfOk result (IsLinkTestOfExistingNode (kind_of_node_at t full false)) }
    ensures about { IfErr result (IsMetadataErrorAtPath full) }
    ensures absent { (t : Names) → W.told worktree.old ≡ Some t
        → IfErr result (IsAbsentErrorAtPath (kind_of_node_at t full false) full) }
    ensures fault { (before now : ℕ) → IfErr result
        (HoldsIfFaultError (CountIncreasedOrSaturated (W.faults worktree.old)
        (W.faults worktree.new)) (CountIncreasedOrSaturated before now)) }
    ensures keeps { KeepsTreeAndListCounts W.Worktree worktree.old worktree.new }
    ensures reads { W.reads worktree.new ≡ W.reads worktree.old }
{
    match worktree.kind(alloc, full.as_bytes()) {
        Ok(Some(kind)) => Ok(kind == NodeKind::Symlink),
        Ok(None) => Err(Error::SymlinkMetadata {
            path: full,
            why: MetadataWhy::Absent,
        }),
        Err(ReadError::Fault) => Err(Error::SymlinkMetadata {
            path: full,
            why: MetadataWhy::Fault,
        }),
        Err(ReadError::OutOfMemory) => Err(Error::OutOfMemory),
    }
}

/// The refusal of a traversal root with a link at a component.
fn symlink_in_root_error(
    alloc: Global,
    worktree_root: &[u8],
    path: &[u8],
    component_index: usize,
) -> Result<Error, OutOfMemory>
    ensures { IfOk result (λ error. error ≡ Error.SymlinkInRoot
        (root_joined_with_relative worktree_root.now path.now) worktree_root.now component_index) }
{
    Ok(Error::SymlinkInRoot {
        root: join_worktree_root(alloc, worktree_root, path)?,
        worktree_root: PathText::from_bytes(alloc, worktree_root)?,
        component_index,
    })
}
