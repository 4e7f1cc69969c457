//! By which rule it is decided whether a path is excluded.
ghost use Rattle.std.specs.Prelude.{◌≡◌, Ok};
ghost use Rattle.check_ignore.specs.Deciding as words;
ghost use Rattle.check_ignore.specs.Finds.{AnswersUnlessOutOfMemory, FindsInTree};
ghost use Rattle.check_ignore.specs.Outer.{stack_setup_of_work_tree as made};

use crate::as_written::rule_as_written_if_outer;
use crate::asked::AskedPath;
use crate::found_rule::FoundRule;
use crate::links::is_directory_below_root;
use crate::lookup::look_up_deciding_rule;
use crate::options::{Checking, OuterRules};
use crate::outer::{ignore_stack_of_work_tree, place_of_outer_rule_excluding_top};
use crate::stop::Stop;
use crate::tracked::is_any_entry_matched_by_spec;
use gitbase_core::{Bytes, State as Index};
use std::alloc::Global;
use worktree_fs::Worktree;

/// Whether a path is that of a directory.
fn is_asked_as_or_is_directory<W: Worktree>(
    alloc: Global,
    worktree: &mut W,
    root: &[u8],
    asked: &AskedPath,
) -> Result<bool, Stop>
    ensures { FindsInTree W.Worktree worktree.old worktree.new
        (λ t. Ok (words.is_asked_as_or_is_directory t root.now asked.now)) result }
{
    if asked.names_directory {
        return Ok(true);
    }
    is_directory_below_root(alloc, worktree, root, asked.path.as_bytes())
}

/// Whether there is a rule, and it excludes.
fn is_excluding_rule(rule: &Option<FoundRule>) -> bool
    ensures { result ≡ words.is_excluding_rule rule.now }
{
    match rule {
        Some(rule) => !rule.is_negative,
        None => false,
    }
}

/// Whether the rules of a directory would be asked for a path without a name.
fn is_asked_as_directory_and_top_or_unexcluded(asked: &AskedPath, rule: &Option<FoundRule>) -> bool
    ensures { result ≡ words.is_asked_as_directory_and_top_or_unexcluded asked.now rule.now }
{
    if !asked.names_directory {
        return false;
    }
    asked.path.as_bytes().is_empty() || !is_excluding_rule(rule)
}

/// The rule, unless they would.
fn refuse_top_or_unexcluded_if_asked_as_directory(
    alloc: Global,
    asked: &AskedPath,
    rule: Option<FoundRule>,
) -> Result<Option<FoundRule>, Stop>
    ensures { AnswersUnlessOutOfMemory result (words.refuse_top_or_unexcluded_if_asked_as_directory
        asked.now rule) }
{
    if is_asked_as_directory_and_top_or_unexcluded(asked, &rule) {
        return Err(Stop::Slash {
            text: Bytes::from_slice(alloc, asked.text.as_bytes())?,
        });
    }
    Ok(rule)
}

/// That no rule outside the work tree excludes all.
fn refuse_outer_rule_excluding_top(
    alloc: Global,
    outer: &OuterRules,
    checking: &Checking,
    asked: &AskedPath,
) -> Result<bool, Stop>
    ensures { AnswersUnlessOutOfMemory result (words.refuse_outer_rule_excluding_top outer.now
        checking.now asked.now) }
{
    match place_of_outer_rule_excluding_top(alloc, outer, checking.ignore_case)? {
        None => Ok(true),
        Some(place) => Err(Stop::Everything {
            text: Bytes::from_slice(alloc, asked.text.as_bytes())?,
            file: place.file,
            line: place.line,
        }),
    }
}

/// The rule that decides about a path by rules that are read anew.
fn look_up_rule_in_new_stack<W: Worktree>(
    alloc: Global,
    worktree: &mut W,
    root: &[u8],
    index: &Index,
    outer: &OuterRules,
    ignore_case: bool,
    asked: &AskedPath,
    is_dir: bool,
) -> Result<Option<FoundRule>, Stop>
    ensures { FindsInTree W.Worktree worktree.old worktree.new (λ t. words.look_up_deciding_rule t
        (made root.now index.now outer.now ignore_case) asked.now is_dir) result }
{
    let mut stack = ignore_stack_of_work_tree(alloc, root, index, outer, ignore_case)?;
    look_up_deciding_rule(alloc, worktree, &mut stack, asked, is_dir)
}

/// The rule that decides about a path that the index does not have.
#[tactic(auto, unfolding(crate::specs::Deciding::deciding_rule_of_untracked_path))]
fn deciding_rule_of_untracked_path<W: Worktree>(
    alloc: Global,
    worktree: &mut W,
    root: &[u8],
    index: &Index,
    outer: &OuterRules,
    checking: &Checking,
    asked: &AskedPath,
) -> Result<Option<FoundRule>, Stop>
    ensures { FindsInTree W.Worktree worktree.old worktree.new
        (λ t. words.deciding_rule_of_untracked_path t root.now index.now outer.now checking.now
        asked.now) result }
{
    refuse_outer_rule_excluding_top(alloc, outer, checking, asked)?;
    let is_dir = is_asked_as_or_is_directory(alloc, worktree, root, asked)?;
    let folds = checking.ignore_case;
    let rule = look_up_rule_in_new_stack(
        alloc, worktree, root, index, outer, folds, asked, is_dir,
    )?;
    let rule = rule_as_written_if_outer(alloc, outer, rule)?;
    refuse_top_or_unexcluded_if_asked_as_directory(alloc, asked, rule)
}

/// The rule that decides about a path.
pub fn deciding_rule_unless_tracked<W: Worktree>(
    alloc: Global,
    worktree: &mut W,
    root: &[u8],
    index: &Index,
    outer: &OuterRules,
    checking: &Checking,
    asked: &AskedPath,
) -> Result<Option<FoundRule>, Stop>
    ensures { FindsInTree W.Worktree worktree.old worktree.new
        (λ t. words.deciding_rule_unless_tracked t root.now index.now outer.now checking.now
        asked.now) result }
{
    if is_any_entry_matched_by_spec(index.entries(), &asked.spec) {
        return Ok(None);
    }
    deciding_rule_of_untracked_path(alloc, worktree, root, index, outer, checking, asked)
}

/// A rule that counts; without `-v` a negative one does not.
pub fn drop_negative_unless_verbose(
    checking: &Checking,
    rule: Option<FoundRule>,
) -> Option<FoundRule>
    ensures { result ≡ words.drop_negative_unless_verbose checking.now rule }
{
    match rule {
        None => None,
        Some(rule) => rule_if_positive_or_verbose(checking, rule),
    }
}

fn rule_if_positive_or_verbose(checking: &Checking, rule: FoundRule) -> Option<FoundRule>
    ensures { result ≡ words.rule_if_positive_or_verbose checking.now rule }
{
    if rule.is_negative && !checking.verbose {
        return None;
    }
    Some(rule)
}
