//! What the ignore rules say of a path.
ghost use Rattle.std.specs.Prelude.{◌≡◌, true, false, Some, None, IfOk, OnOk, is_some};
ghost use Rattle.worktree_fs.specs.Kept.{KeepsStoredObjects};
ghost use Rattle.worktree_fs.specs.Paths.{is_relative_without_dots};
ghost use Rattle.worktree_stack.specs.Lookups.{is_dir_by_mode};
ghost use Rattle.worktree_stack.specs.LooksUp.{LooksUpPath, LookupLeavesWorktree};
ghost use Rattle.worktree_stack.specs.Reading.{TreeAndObjects};
ghost use Rattle.worktree_stack.specs.Setup.{has_excludes};
ghost use Rattle.worktree_stack.specs.Stacked.{setup_of_stack};
ghost use Rattle.dir_classify.specs.Classes.{AsksRulesAboutPath};
ghost use Rattle.dir_classify.specs.Evidence.{ruling_without_rule};
ghost use Rattle.dir_classify.specs.Excludes.{setup_of_optional_stack, may_read_worktree_rules, is_absent_or_has_excludes, TellsTreeAndObjects, IsStackInStepIfGiven};
ghost use Rattle.dir_classify.specs.Kept.{LeavesAllUnchanged};
ghost use Rattle.dir_classify.specs.Layers.{ruling_of_optional_setup, is_some_rules_file_unread};

use crate::error::Error;
use gitbase_core::{Find, Mode};
use glob_rules::ignore::{Kind, Origin};
use std::alloc::Global;
use worktree_fs::Worktree;
use worktree_stack::{AtPathError, Stack};

/// What the ignore rules say of a path.
#[derive(Clone, Copy, Debug, PartialEq, Eq)]
pub struct Ruling {
    /// What may become of it where they exclude it.
    pub kind: Option<Kind>,
    /// The rule that decided, which may also be a negative one.
    pub origin: Option<Origin>,
}

impl Ruling {
    /// No rule decides.
    pub const NONE: Ruling = Ruling {
        kind: None,
        origin: None,
    };
}

/// Whether ignore rules, where they are given, tell which paths are excluded. Only such may be
/// handed to a class or a walk.
///
/// See docs/DECISIONS.md#clauses-without-rules.
pub fn is_absent_or_has_excludes(excludes: &Option<Stack>) -> bool
    ensures { result ≡ is_absent_or_has_excludes (setup_of_optional_stack excludes.now) }
{
    match excludes {
        Some(stack) => stack.has_excludes(),
        None => true,
    }
}

/// What the rules say of a path that is a directory, or is not; nothing where no rules are given.
#[tactic(auto, unfolding(crate::specs::Layers::ruling_of_optional_setup, crate::specs::Layers::is_some_rules_file_unread))]
pub(crate) fn ruling_of_optional_stack<W: Worktree, F: Find>(
    alloc: Global,
    rela_path: &[u8],
    is_dir: Option<bool>,
    excludes: &mut Option<Stack>,
    worktree: &mut W,
    objects: &mut F,
) -> Result<Ruling, Error>
    requires excludes { is_absent_or_has_excludes (setup_of_optional_stack excludes.old) ≡ true }
    requires normal { is_relative_without_dots rela_path.now ≡ true }
    ensures ruling { (s : TreeAndObjects) → TellsTreeAndObjects (W.told worktree.old)
        (F.holds objects.old) (setup_of_optional_stack excludes.old) s → IsStackInStepIfGiven s
        excludes.old → IfOk result (λ r. r ≡ ruling_of_optional_setup (setup_of_optional_stack
        excludes.old) s rela_path.now is_dir) }
    ensures read { (s : TreeAndObjects) → TellsTreeAndObjects (W.told worktree.old)
        (F.holds objects.old) (setup_of_optional_stack excludes.old) s → IsStackInStepIfGiven s
        excludes.old → OnOk result (is_some_rules_file_unread (setup_of_optional_stack excludes.old)
        s rela_path.now ≡ false) }
    // The rules are asked at most once, and about no other path. Each refusal has its cause. Of the
    // worktree and the store nothing changes but counts, and the rules stay in step.
    ensures asking { AsksRulesAboutPath W.Worktree F.Find worktree.old worktree.new objects.old
        objects.new excludes.old excludes.new 0 rela_path.now result }
    ensures by_mappings { may_read_worktree_rules (setup_of_optional_stack excludes.old) ≡ false
        → worktree.new ≡ worktree.old }
    ensures no_rules { is_some (setup_of_optional_stack excludes.old) ≡ false
        → IfOk result (λ r. r ≡ ruling_without_rule) }
    ensures untouched { is_some (setup_of_optional_stack excludes.old) ≡ false → LeavesAllUnchanged
        worktree.old worktree.new objects.old objects.new excludes.old excludes.new }
{
    match excludes {
        Some(stack) => ruling_of_stack(alloc, rela_path, is_dir, stack, worktree, objects),
        None => Ok(Ruling::NONE),
    }
}

/// The same by rules that are given.
fn ruling_of_stack<W: Worktree, F: Find>(
    alloc: Global,
    rela_path: &[u8],
    is_dir: Option<bool>,
    stack: &mut Stack,
    worktree: &mut W,
    objects: &mut F,
) -> Result<Ruling, Error>
    requires excludes { has_excludes (setup_of_stack stack.old) ≡ true }
    requires normal { is_relative_without_dots rela_path.now ≡ true }
    ensures ruling { (s : TreeAndObjects) → TellsTreeAndObjects (W.told worktree.old)
        (F.holds objects.old) (Some (setup_of_stack stack.old)) s → IsStackInStepIfGiven s
        (Some stack.old) → IfOk result (λ r. r ≡ ruling_of_optional_setup
        (Some (setup_of_stack stack.old)) s rela_path.now is_dir) }
    ensures read { (s : TreeAndObjects) → TellsTreeAndObjects (W.told worktree.old)
        (F.holds objects.old) (Some (setup_of_stack stack.old)) s → IsStackInStepIfGiven s
        (Some stack.old) → OnOk result (is_some_rules_file_unread (Some (setup_of_stack stack.old))
        s rela_path.now ≡ false) }
    // The rules are asked at most once, and about no other path. Each refusal has its cause. Of the
    // worktree and the store nothing changes but counts, and the rules stay in step.
    ensures asking { AsksRulesAboutPath W.Worktree F.Find worktree.old worktree.new objects.old
        objects.new (Some stack.old) (Some stack.new) 0 rela_path.now result }
    ensures by_mappings { may_read_worktree_rules (Some (setup_of_stack stack.old)) ≡ false
        → worktree.new ≡ worktree.old }
{
    move_stack_to_path(
        alloc,
        rela_path,
        mode_from_is_dir(is_dir),
        stack,
        worktree,
        objects,
    )?;
    let platform = stack.platform();
    let found = platform.exclusion();
    Ok(Ruling {
        kind: found.kind,
        origin: found.origin,
    })
}

/// Looks a path up in a stack that tells which paths are excluded, and so makes no directories.
fn move_stack_to_path<W: Worktree, F: Find>(
    alloc: Global,
    rela_path: &[u8],
    mode: Option<Mode>,
    stack: &mut Stack,
    worktree: &mut W,
    objects: &mut F,
) -> Result<(), AtPathError>
    requires excludes { has_excludes (setup_of_stack stack.old) ≡ true }
    ensures looks_up { LooksUpPath W.Worktree F.Find worktree.old worktree.new objects.old
        objects.new rela_path.now (is_dir_by_mode mode) stack.old stack.new result }
    ensures leaves { LookupLeavesWorktree true W.Worktree worktree.old worktree.new }
    ensures leaves_store { KeepsStoredObjects F.Find objects.old objects.new }
{
    stack.at_path(alloc, rela_path, mode, worktree, objects)
}

/// A mode that says of a path whether it is a directory.
fn mode_from_is_dir(is_dir: Option<bool>) -> Option<Mode>
    ensures { is_dir_by_mode result ≡ is_dir }
{
    match is_dir {
        Some(is_dir) => Some(if is_dir { Mode::DIR } else { Mode::FILE }),
        None => None,
    }
}
