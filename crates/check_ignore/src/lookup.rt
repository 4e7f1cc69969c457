//! Looking up a path in a stack of ignore rules.
ghost use Rattle.std.specs.Prelude.{◌≡◌, ℕ, List, true, Some, IfOk, OnOk, option_map};
ghost use Rattle.gitbase_core.specs.Path.{components};
ghost use Rattle.glob_rules.specs.Ignore.{matched_rule_of_match};
ghost use Rattle.worktree_fs.specs.Kept.{KeepsTreeAndListCounts};
ghost use Rattle.worktree_stack.specs.Excludes.{exclude};
ghost use Rattle.worktree_stack.specs.Lookups.{StandsAtPath, is_dir_by_mode};
ghost use Rattle.worktree_stack.specs.Reading.{TreeAndObjects, rulebook_of_stack_setup};
ghost use Rattle.worktree_stack.specs.LooksUp.{LooksUpPath};
ghost use Rattle.worktree_stack.specs.Setup.{has_excludes};
ghost use Rattle.worktree_stack.specs.Stacked.{IsInStepWithTree, setup_of_stack};
ghost use Rattle.check_ignore.specs.Deciding as words;
ghost use Rattle.check_ignore.specs.Finds.{FindsInTree};

use crate::asked::AskedPath;
use crate::found_rule::FoundRule;
use crate::outer::source_or_empty;
use crate::stop::Stop;
use gitbase_core::{Bytes, Find, MemoryStore, Mode, OutOfMemory};
use glob_rules::ignore::{Match, Origin, RuleGroup};
use std::alloc::Global;
use worktree_fs::Worktree;
use worktree_stack::{AtPathError, BlobWhy, Platform, RulesWhy, Stack};

/// A match with the group of its list.
fn found_rule_of_match(
    alloc: Global,
    group: RuleGroup,
    found: &Match<'_>,
) -> Result<FoundRule, OutOfMemory>
    ensures { IfOk result (λ rule. rule ≡ words.found_rule_of_hit group
        (matched_rule_of_match found.now)) }
{
    Ok(FoundRule {
        group,
        source: Bytes::from_slice(alloc, source_or_empty(found))?,
        line: found.sequence_number as usize,
        text: Bytes::from_slice(alloc, found.pattern.text())?,
        is_negative: found.pattern.is_negative(),
        must_be_dir: found.pattern.must_be_dir(),
    })
}

/// A rule by where it comes from and what it is.
fn found_rule_of_origin_and_match(
    alloc: Global,
    origin: Option<Origin>,
    found: &Option<Match<'_>>,
) -> Result<Option<FoundRule>, OutOfMemory>
    ensures { IfOk result (λ rule. rule ≡ words.found_rule_of_origin_and_hit origin
        (option_map matched_rule_of_match found.now)) }
{
    let Some(origin) = origin else {
        return Ok(None);
    };
    match found {
        Some(found) => Ok(Some(found_rule_of_match(alloc, origin.group, found)?)),
        None => Ok(None),
    }
}

/// The rule that decides about the path that was looked up last.
fn deciding_rule_of_platform_path(
    alloc: Global,
    platform: &Platform<'_>,
) -> Result<Option<FoundRule>, OutOfMemory>
    requires { has_excludes (setup_of_stack platform.now) ≡ true }
    ensures { (s : TreeAndObjects) → IsInStepWithTree s platform.now → (relative : List ℕ)
        → StandsAtPath platform.now (components relative) → IfOk result (λ rule. rule
        ≡ option_map words.found_rule_of_decision
        (exclude (rulebook_of_stack_setup (setup_of_stack platform.now) s) (components relative)
        platform.now.is_dir)) }
{
    let origin = platform.matching_origin();
    let found = platform.matching_exclude_pattern();
    found_rule_of_origin_and_match(alloc, origin, &found)
}

/// A mode that says of a path whether it is a directory.
fn mode_by_is_dir(is_dir: bool) -> Mode
    ensures { is_dir_by_mode (Some result) ≡ Some is_dir }
{
    if is_dir { Mode::DIR } else { Mode::FILE }
}

/// That rules above a path are not read.
fn refusal_of_unread_rules(alloc: Global, text: &[u8]) -> Result<Stop, OutOfMemory>
    ensures { IfOk result (λ stop. stop ≡ Stop.Unread text.now) }
{
    Ok(Stop::Unread {
        text: Bytes::from_slice(alloc, text)?,
    })
}

/// What a refused lookup is for a path.
fn stop_of_lookup_error(alloc: Global, text: &[u8], error: AtPathError) -> Result<Stop, OutOfMemory>
    ensures { IfOk result (λ stop. stop ≡ words.stop_of_lookup_error text.now error) }
{
    match error {
        AtPathError::OutOfMemory => Ok(Stop::OutOfMemory),
        AtPathError::RulesFile { path: _, why } => match why {
            RulesWhy::Fault => Ok(Stop::Fault),
            RulesWhy::Link => refusal_of_unread_rules(alloc, text),
            RulesWhy::LinkLimit => refusal_of_unread_rules(alloc, text),
            RulesWhy::Special => refusal_of_unread_rules(alloc, text),
        },
        AtPathError::Blob { id: _, why } => match why {
            BlobWhy::Fault => Ok(Stop::Fault),
            BlobWhy::Missing => refusal_of_unread_rules(alloc, text),
            BlobWhy::NotABlob => refusal_of_unread_rules(alloc, text),
        },
        AtPathError::NotNormal => refusal_of_unread_rules(alloc, text),
        AtPathError::Component(_) => refusal_of_unread_rules(alloc, text),
        AtPathError::Collision { path: _ } => refusal_of_unread_rules(alloc, text),
        AtPathError::Directory { path: _, why: _ } => refusal_of_unread_rules(alloc, text),
    }
}

/// Looks a path up in a stack that tells which paths are excluded.
fn move_stack_to_path<W: Worktree, F: Find>(
    alloc: Global,
    worktree: &mut W,
    objects: &mut F,
    stack: &mut Stack,
    path: &[u8],
    mode: Mode,
) -> Result<(), AtPathError>
    requires excludes { has_excludes (setup_of_stack stack.old) ≡ true }
    ensures looks_up { LooksUpPath W.Worktree F.Find worktree.old worktree.new objects.old
        objects.new path.now (is_dir_by_mode (Some mode)) stack.old stack.new result }
    ensures asks { KeepsTreeAndListCounts W.Worktree worktree.old worktree.new }
    ensures unfaulted { OnOk result (W.faults worktree.new ≡ W.faults worktree.old) }
{
    stack.at_path(alloc, path, Some(mode), worktree, objects)
}

/// The rule that decides about a path, if the rules above it are read.
pub fn look_up_deciding_rule<W: Worktree>(
    alloc: Global,
    worktree: &mut W,
    stack: &mut Stack,
    asked: &AskedPath,
    is_dir: bool,
) -> Result<Option<FoundRule>, Stop>
    requires excludes { has_excludes (setup_of_stack stack.old) ≡ true }
    requires in_step { (s : TreeAndObjects) → IsInStepWithTree s stack.old }
    ensures { FindsInTree W.Worktree worktree.old worktree.new
        (λ t. words.look_up_deciding_rule t (setup_of_stack stack.old) asked.now is_dir) result }
{
    let mut objects = MemoryStore::new(alloc);
    let path = asked.path.as_bytes();
    let mode = mode_by_is_dir(is_dir);
    match move_stack_to_path(alloc, worktree, &mut objects, stack, path, mode) {
        Ok(()) => Ok(deciding_rule_of_platform_path(alloc, &stack.platform())?),
        Err(error) => Err(stop_of_lookup_error(alloc, asked.text.as_bytes(), error)?),
    }
}
