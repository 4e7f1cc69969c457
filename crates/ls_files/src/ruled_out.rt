//! Which entries of an index the ignore rules of directories exclude.
ghost use Rattle.std.specs.Prelude.{◌≡◌, ◌∷◌, ℕ, List, [], true, Some, IfOk, OnOk};
ghost use Rattle.gitbase_core.specs.Path.{components};
ghost use Rattle.worktree_fs.specs.Kept.{KeepsTreeAndListCounts};
ghost use Rattle.worktree_fs.specs.Tree.{Names};
ghost use Rattle.worktree_report.specs.Asked.{sources_of_tree_and_setup};
ghost use Rattle.worktree_report.specs.Excluding.{ignore_rules_of_setup, ignore_rules_of_text, stack_setup_of_setup};
ghost use Rattle.worktree_stack.specs.Excludes.{exclude, is_excluding_decision};
ghost use Rattle.worktree_stack.specs.Lookups.{StandsAtPath, is_dir_by_mode};
ghost use Rattle.worktree_stack.specs.LooksUp.{LooksUpPath};
ghost use Rattle.worktree_stack.specs.Reading.{TreeAndObjects, rulebook_of_stack_setup};
ghost use Rattle.worktree_stack.specs.Setup.{has_excludes};
ghost use Rattle.worktree_stack.specs.Stacked.{IsInStepWithTree, setup_of_stack};
ghost use Rattle.ls_files.specs.Excluded as words;
ghost use Rattle.ls_files.specs.Finds.{FindsInWorktree};

use crate::entries::Entries;
use crate::excluded_error::ExcludedError;
use crate::is_directory_at::is_worktree_path_directory;
use gitbase_core::{Find, IndexEntry, Mode, OutOfMemory, PathText};
use glob_rules::ignore::{List as Rules, ParseIgnore, Search};
use std::alloc::Global;
use worktree_fs::Worktree;
use worktree_report::Setup;
use worktree_stack::{AtPathError, BlobWhy, Ignore, Platform, RulesWhy, Stack, State};

/// The rules in a text that was read from no file, as the one list of a search.
fn ignore_search_from_text(
    alloc: Global,
    text: &[u8],
    parse: ParseIgnore,
) -> Result<Search, OutOfMemory>
    ensures { IfOk result (λ search. search ≡ ignore_rules_of_text parse.support_precious text.now ∷
        []) }
{
    let list = Rules::from_bytes(alloc, text, None, PathText::new(alloc), parse)?;
    let mut search = Search::new(alloc);
    search.push_list(alloc, list)?;
    Ok(search)
}

/// The rules of a setup, before any directory is looked at.
fn ignore_state_of_setup(alloc: Global, setup: &Setup) -> Result<Ignore, OutOfMemory>
    ensures made { IfOk result (λ ignore. ignore.setup ≡ ignore_rules_of_setup setup.now) }
    ensures lists { IfOk result (λ ignore. ignore.lists ≡ []) }
    ensures matches { IfOk result (λ ignore. ignore.matches ≡ []) }
{
    let parse = ParseIgnore {
        support_precious: setup.options.precious,
    };
    let overrides = ignore_search_from_text(alloc, setup.overrides.as_bytes(), parse)?;
    let globals = ignore_search_from_text(alloc, setup.globals.as_bytes(), parse)?;
    let source = setup.options.ignore_source;
    let ignore = Ignore::new(alloc, overrides, globals, None, source, parse)?;
    Ok(ignore.with_strict_parents(setup.options.strict_parents))
}

/// The rules of a setup below the top of a work tree, with no directory pushed: they are in step
/// with any tree and store.
fn ignore_stack_of_setup(alloc: Global, root: &[u8], setup: &Setup) -> Result<Stack, OutOfMemory>
    ensures made { IfOk result (λ stack. setup_of_stack stack ≡ stack_setup_of_setup root.now
        setup.now) }
    ensures in_step { (s : TreeAndObjects) → IfOk result (IsInStepWithTree s) }
{
    let ignore = ignore_state_of_setup(alloc, setup)?;
    let root = PathText::from_bytes(alloc, root)?;
    let state = State::IgnoreStack(ignore);
    Stack::from_state_and_ignore_case(alloc, root, setup.options.ignore_case, state, &setup.index)
}

/// What a refused lookup is.
fn excluded_error_of_lookup_error(error: AtPathError) -> ExcludedError
    ensures { result ≡ words.excluded_error_of_lookup_error error }
{
    match error {
        AtPathError::OutOfMemory => ExcludedError::OutOfMemory,
        AtPathError::RulesFile { path: _, why } => match why {
            RulesWhy::Fault => ExcludedError::Fault,
            RulesWhy::Link => ExcludedError::Unread,
            RulesWhy::LinkLimit => ExcludedError::Unread,
            RulesWhy::Special => ExcludedError::Unread,
        },
        AtPathError::Blob { id: _, why } => match why {
            BlobWhy::Fault => ExcludedError::Fault,
            BlobWhy::Missing => ExcludedError::Unread,
            BlobWhy::NotABlob => ExcludedError::Unread,
        },
        AtPathError::NotNormal => ExcludedError::Unread,
        AtPathError::Component(_) => ExcludedError::Unread,
        AtPathError::Collision { path: _ } => ExcludedError::Unread,
        AtPathError::Directory { path: _, why: _ } => ExcludedError::Unread,
    }
}

/// Whether the path that was looked up last is excluded.
fn is_excluded(platform: &Platform<'_>) -> bool
    requires { has_excludes (setup_of_stack platform.now) ≡ true }
    ensures { (s : TreeAndObjects) → IsInStepWithTree s platform.now → (relative : List ℕ)
        → StandsAtPath platform.now (components relative) → result ≡ is_excluding_decision
        (exclude (rulebook_of_stack_setup (setup_of_stack platform.now) s) (components relative)
        platform.now.is_dir) }
{
    platform.is_excluded()
}

/// Looks a path up in a stack that tells which paths are excluded.
fn move_stack_to_path<W: Worktree, F: Find>(
    alloc: Global,
    worktree: &mut W,
    objects: &mut F,
    stack: &mut Stack,
    path: &[u8],
    mode: Mode,
) -> Result<(), AtPathError>
    requires excludes { has_excludes (setup_of_stack stack.old) ≡ true }
    ensures looks_up { LooksUpPath W.Worktree F.Find worktree.old worktree.new objects.old
        objects.new path.now (is_dir_by_mode (Some mode)) stack.old stack.new result }
    ensures asks { KeepsTreeAndListCounts W.Worktree worktree.old worktree.new }
    ensures unfaulted { OnOk result (W.faults worktree.new ≡ W.faults worktree.old) }
{
    stack.at_path(alloc, path, Some(mode), worktree, objects)
}

/// A mode that says of a path whether it is a directory.
fn mode_from_is_dir(is_dir: bool) -> Mode
    ensures { is_dir_by_mode (Some result) ≡ Some is_dir }
{
    if is_dir { Mode::DIR } else { Mode::FILE }
}

/// Whether the rules of a stack exclude a path. The stack stays in step.
fn does_stack_exclude_path<W: Worktree>(
    alloc: Global,
    worktree: &mut W,
    setup: &Setup,
    stack: &mut Stack,
    path: &[u8],
    is_dir: bool,
) -> Result<bool, ExcludedError>
    requires excludes { has_excludes (setup_of_stack stack.old) ≡ true }
    requires in_step { (t : Names) → W.told worktree.old ≡ Some t
        → IsInStepWithTree (sources_of_tree_and_setup t setup.now) stack.old }
    ensures made { setup_of_stack stack.new ≡ setup_of_stack stack.old }
    ensures in_step { (t : Names) → W.told worktree.old ≡ Some t
        → IsInStepWithTree (sources_of_tree_and_setup t setup.now) stack.new }
    ensures finds { FindsInWorktree W.Worktree worktree.old worktree.new
        (λ t. words.exclusion_or_unread (setup_of_stack stack.old) (sources_of_tree_and_setup t
        setup.now) path.now is_dir) result }
{
    let mut objects = setup.blobs.fork(alloc)?;
    let mode = mode_from_is_dir(is_dir);
    match move_stack_to_path(alloc, worktree, &mut objects, stack, path, mode) {
        Ok(()) => Ok(is_excluded(&stack.platform())),
        Err(error) => Err(excluded_error_of_lookup_error(error)),
    }
}

/// The same of the path of an entry, by what stands there.
fn does_stack_exclude_entry<W: Worktree>(
    alloc: Global,
    worktree: &mut W,
    root: &[u8],
    setup: &Setup,
    stack: &mut Stack,
    entry: &IndexEntry,
) -> Result<bool, ExcludedError>
    requires excludes { has_excludes (setup_of_stack stack.old) ≡ true }
    requires in_step { (t : Names) → W.told worktree.old ≡ Some t
        → IsInStepWithTree (sources_of_tree_and_setup t setup.now) stack.old }
    ensures made { setup_of_stack stack.new ≡ setup_of_stack stack.old }
    ensures in_step { (t : Names) → W.told worktree.old ≡ Some t
        → IsInStepWithTree (sources_of_tree_and_setup t setup.now) stack.new }
    ensures finds { FindsInWorktree W.Worktree worktree.old worktree.new
        (λ t. words.exclusion_of_index_entry t root.now setup.now (setup_of_stack stack.old)
        entry.now) result }
{
    let path = entry.path.as_bytes();
    let is_dir = is_worktree_path_directory(alloc, worktree, root, path)?;
    does_stack_exclude_path(alloc, worktree, setup, stack, path, is_dir)
}

/// The entries that the rules of a stack exclude.
fn entries_excluded_by_stack<W: Worktree>(
    alloc: Global,
    worktree: &mut W,
    root: &[u8],
    setup: &Setup,
    stack: &mut Stack,
    entries: &[IndexEntry],
) -> Result<Entries, ExcludedError>
    requires excludes { has_excludes (setup_of_stack stack.old) ≡ true }
    requires in_step { (s : TreeAndObjects) → IsInStepWithTree s stack.old }
    ensures { FindsInWorktree W.Worktree worktree.old worktree.new
        (λ t. words.excluded_entries_appended t root.now setup.now (setup_of_stack stack.old) []
        entries.now) result }
{
    let mut done = Entries::new(alloc);
    for entry in entries {
        let excluded = does_stack_exclude_entry(alloc, worktree, root, setup, stack, entry)?;
        done.push_copy_if_excluded(alloc, entry, excluded)?;
    }
    Ok(done)
}

/// The entries of the index of a setup that its rules exclude. Each rules file is read once, as
/// long as the entries beneath its directory follow each other.
pub fn entries_excluded_by_setup_rules<W: Worktree>(
    alloc: Global,
    worktree: &mut W,
    root: &[u8],
    setup: &Setup,
) -> Result<Entries, ExcludedError>
    ensures { FindsInWorktree W.Worktree worktree.old worktree.new
        (λ t. words.excluded_entries_appended t root.now setup.now (stack_setup_of_setup root.now
        setup.now) [] setup.now.index) result }
{
    let mut stack = ignore_stack_of_setup(alloc, root, setup)?;
    entries_excluded_by_stack(
        alloc,
        worktree,
        root,
        setup,
        &mut stack,
        setup.index.entries(),
    )
}
