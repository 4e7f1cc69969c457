//! The report of a work tree, and its text.
ghost use Rattle.std.specs.Prelude.{◌≡◌, true, IfOk, is_some};
ghost use Rattle.worktree_fs.specs.Causes.{CountNotIncreased};
ghost use Rattle.worktree_stack.specs.Reading.{TreeAndObjects};
ghost use Rattle.dir_classify.specs.Chosen.{walk_options_of};
ghost use Rattle.dir_classify.specs.Excludes.{setup_of_optional_stack, is_absent_or_has_excludes};
ghost use Rattle.dir_classify.specs.Layers.{IsLookupOfIndexIfGiven};
ghost use Rattle.dir_walk.specs.Reports.{IsReportOverAnyWorktree, IsSafeReport};
ghost use Rattle.dir_walk.specs.WalkRefused.{default_without_refusals};
ghost use Rattle.dir_walk.specs.Walks.{Tells, WalksWorktreeWithCauses};
ghost use Rattle.worktree_report.specs.Asked.{walk_options_of_setup, git_dir_or_default, current_dir_or_root, walk_setting_of_setup};
ghost use Rattle.worktree_report.specs.Reported.{WalksBySetup, MakesTextBySetup};

use crate::converted::refusal_of_report_error;
use crate::excludes::ignore_stack_if_excludes_option;
use crate::refusal::Refusal;
use crate::setup::Setup;
use crate::text::worktree_report_text;
use dir_classify::{Context, Error, Options};
use dir_walk as walk;
use dir_walk::walk_sorted_by_path;
use gitbase_core::{AccelerateLookup, Bytes, Find, OutOfMemory, PathText};
use std::alloc::Global;
use worktree_fs::{Interrupt, Worktree};
use worktree_stack::Stack;

/// What a walk over a worktree that composes names or not is asked to emit, and how it looks at
/// paths.
#[tactic(auto, unfolding(dir_classify::specs::Chosen::walk_options_of))]
fn walk_options_of_setup(composes: bool, setup: &Setup) -> Options<'_>
    ensures { walk_options_of result ≡ walk_options_of_setup composes setup.now }
{
    let options = &setup.options;
    Options {
        precompose_unicode: composes,
        ignore_case: options.ignore_case,
        recurse_repositories: options.recurse_repositories,
        emit_pruned: options.emit_pruned,
        emit_ignored: options.emit_ignored,
        for_deletion: options.for_deletion,
        classify_untracked_bare_repositories: options.classify_untracked_bare_repositories,
        emit_tracked: options.emit_tracked,
        emit_untracked: options.emit_untracked,
        emit_empty_directories: options.emit_empty_directories,
        emit_collapsed: options.emit_collapsed,
        symlinks_to_directories_are_ignored_like_directories: options.symlinks_to_directories_are_ignored_like_directories,
        worktree_relative_worktree_dirs: Some(&setup.worktrees),
    }
}

/// A look-up of the index where letters compare without regard to their case, as the setup says.
///
/// # Errors
///
/// Memory was refused.
pub fn index_lookup_if_ignore_case(
    alloc: Global,
    setup: &Setup,
) -> Result<Option<AccelerateLookup>, OutOfMemory>
    ensures lookup { IfOk result (IsLookupOfIndexIfGiven setup.now.index) }
    ensures given { IfOk result (λ lookup. is_some lookup ≡ setup.now.options.ignore_case) }
{
    if !setup.options.ignore_case {
        return Ok(None);
    }
    Ok(Some(AccelerateLookup::from_state(alloc, &setup.index)?))
}

/// The git directory of the work tree at `root`.
/// See docs/DECISIONS.md#directories-as-bytes.
fn git_dir_of_setup_or_default(
    alloc: Global,
    root: &[u8],
    setup: &Setup,
) -> Result<PathText, OutOfMemory>
    ensures { IfOk result (λ path. path ≡ git_dir_or_default root.now setup.now.git_dir) }
{
    if let Some(path) = &setup.git_dir {
        return PathText::from_bytes(alloc, path.as_bytes());
    }
    let mut path = PathText::from_bytes(alloc, root)?;
    path.push_component(alloc, b".git")?;
    Ok(path)
}

/// The current directory.
/// See docs/DECISIONS.md#directories-as-bytes.
fn current_dir_of_setup_or_root<'a>(root: &'a [u8], setup: &'a Setup) -> &'a [u8]
    ensures { result.now ≡ current_dir_or_root root.now setup.now.current_dir }
{
    match &setup.current_dir {
        Some(path) => path.as_bytes(),
        None => root,
    }
}

/// What a walk is handed ready.
#[derive(Clone, Copy)]
struct Prepared<'a> {
    /// The look-up of the setup's index, where letters match without regard to case.
    lookup: &'a Option<AccelerateLookup>,
    /// The git directory of the work tree.
    git_dir: &'a [u8],
}

/// Walks the work tree at `root` as the setup asks for it, with these ignore rules, and this look-up
/// of the index and git directory.
fn walk_with_rules_and_lookup<'a, W: Worktree, F: Find, I: Interrupt>(
    alloc: Global,
    worktree: &'a mut W,
    objects: &'a mut F,
    interrupt: &'a mut I,
    root: &'a [u8],
    setup: &'a Setup,
    excludes: &'a mut Option<Stack>,
    prepared: &'a Prepared<'a>,
) -> Result<walk::Report, Error>
    requires excludes { is_absent_or_has_excludes (setup_of_optional_stack excludes.old) ≡ true }
    requires lookup { IsLookupOfIndexIfGiven setup.now.index prepared.now.lookup.now }
    requires given { is_some prepared.now.lookup.now ≡ setup.now.options.ignore_case }
    requires git_dir { prepared.now.git_dir.now ≡ git_dir_or_default root.now setup.now.git_dir }
    ensures gives { (s : TreeAndObjects) → Tells W.Worktree F.Find worktree.old objects.old
        excludes.old s → CountNotIncreased (W.faults worktree.old) (W.faults worktree.new)
        → IfOk result (IsSafeReport (walk_setting_of_setup (W.precomposes worktree.old) root.now
        setup.now) (setup_of_optional_stack excludes.old) s setup.now.root setup.now.depth) }
    ensures any_worktree { IfOk result (IsReportOverAnyWorktree
        (walk_setting_of_setup (W.precomposes worktree.old) root.now setup.now) setup.now.root) }
    ensures walks_worktree { WalksWorktreeWithCauses W.Worktree F.Find I.Interrupt worktree.old
        worktree.new objects.old objects.new interrupt.old interrupt.new excludes.old excludes.new
        setup.now.options.strategy (walk_setting_of_setup (W.precomposes worktree.old) root.now
        setup.now) setup.now.root setup.now.depth default_without_refusals (λ r. r.outcome)
        (λ r. r.root) result }
{
    let options = walk_options_of_setup(worktree.precomposes(), setup);
    let ctx = Context {
        worktree,
        objects,
        interrupt,
        pathspec: &setup.specs,
        excludes,
        index: &setup.index,
        ignore_case_index_lookup: prepared.lookup,
        git_dir_realpath: prepared.git_dir,
        current_dir: current_dir_of_setup_or_root(root, setup),
        explicit_traversal_root: &setup.root,
        depth_limit: setup.depth,
    };
    walk_sorted_by_path(alloc, root, ctx, options, setup.options.strategy)
}

/// Walks the work tree at `root` as the setup asks for it, with ignore rules that are made for it.
fn walk_with_ignore_rules_of_setup<W: Worktree, F: Find, I: Interrupt>(
    alloc: Global,
    worktree: &mut W,
    objects: &mut F,
    interrupt: &mut I,
    root: &[u8],
    setup: &Setup,
    prepared: &Prepared<'_>,
) -> Result<walk::Report, Error>
    requires lookup { IsLookupOfIndexIfGiven setup.now.index prepared.now.lookup.now }
    requires given { is_some prepared.now.lookup.now ≡ setup.now.options.ignore_case }
    requires git_dir { prepared.now.git_dir.now ≡ git_dir_or_default root.now setup.now.git_dir }
    ensures { WalksBySetup W.Worktree F.Find I.Interrupt worktree.old worktree.new objects.old
        objects.new interrupt.old interrupt.new root.now setup.now result }
{
    let mut excludes = ignore_stack_if_excludes_option(alloc, root, setup)?;
    walk_with_rules_and_lookup(
        alloc,
        worktree,
        objects,
        interrupt,
        root,
        setup,
        &mut excludes,
        prepared,
    )
}

/// Walks the work tree at `root` as the setup asks for it. Blobs that ignore rules are mapped to
/// are looked up in `objects`.
///
/// # Errors
///
/// Those of [`dir_walk::walk`], for the same causes.
pub fn walk_by_setup<W: Worktree, F: Find, I: Interrupt>(
    alloc: Global,
    worktree: &mut W,
    objects: &mut F,
    interrupt: &mut I,
    root: &[u8],
    setup: &Setup,
) -> Result<walk::Report, Error>
    ensures { WalksBySetup W.Worktree F.Find I.Interrupt worktree.old worktree.new objects.old
        objects.new interrupt.old interrupt.new root.now setup.now result }
{
    let lookup = index_lookup_if_ignore_case(alloc, setup)?;
    let git_dir = git_dir_of_setup_or_default(alloc, root, setup)?;
    let prepared = Prepared {
        lookup: &lookup,
        git_dir: git_dir.as_bytes(),
    };
    walk_with_ignore_rules_of_setup(alloc, worktree, objects, interrupt, root, setup, &prepared)
}

/// The lines of the report of the work tree at `root`. Blobs that ignore rules are mapped to are
/// those of the setup. The setup is taken, and not lent, so that its index is not held beside the
/// text.
///
/// # Errors
///
/// - `Misread` names what tells of submodules and is outside its grammar; it comes before the walk.
/// - `Walk` has the cause that the walk names.
/// - `Fault`: the worktree failed, and counted it.
/// - `Interrupted`: the interrupt was raised, and counted it.
/// - `OutOfMemory`: memory was refused.
pub fn report_text_or_refusal<W: Worktree, I: Interrupt>(
    alloc: Global,
    worktree: &mut W,
    interrupt: &mut I,
    root: &[u8],
    setup: Setup,
) -> Result<Bytes, Refusal>
    ensures { MakesTextBySetup W.Worktree I.Interrupt (W.precomposes worktree.old) worktree.old
        worktree.new interrupt.old interrupt.new root.now setup result }
{
    let mut objects = setup.blobs.fork(alloc)?;
    match worktree_report_text(alloc, worktree, &mut objects, interrupt, root, setup) {
        Ok(text) => Ok(text),
        Err(error) => Err(refusal_of_report_error(alloc, error)?),
    }
}
