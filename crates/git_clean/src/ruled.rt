//! What the patterns of `-e` exclude, where no other rules stand beside them.
ghost use Rattle.std.specs.Prelude.{◌≡◌, ◌∷◌, [], false, map, IfOk};
ghost use Rattle.ls_files.specs.Alone as alone;
ghost use Rattle.glob_rules.specs.declared.Case.TheVariants.{Sensitive};
ghost use Rattle.ls_files.specs.Others as others;
ghost use Rattle.worktree_report.specs.Excluding.{ignore_rules_of_text};
ghost use Rattle.git_clean.specs.Ruled as words;

use crate::options::Cleaning;
use crate::removable::is_untracked_status;
use dir_classify::entry::is_some_directory_kind;
use dir_classify::{Entry, Kind as DiskKind, Status};
use gitbase_core::{OutOfMemory, PathText};
use glob_rules::Case;
use glob_rules::ignore::{Kind, List, ParseIgnore, Search};
use ls_files::{is_below_excluded_directory, is_path_or_parent_excluded};
use std::alloc::Global;
use worktree_report::{ReportEntry, Setup};

/// Whether the patterns of `-e` are the only rules.
fn are_patterns_only_rules(cleaning: &Cleaning) -> bool
    ensures { result ≡ words.are_patterns_only_rules cleaning.now }
{
    cleaning.ignored_too & cleaning.patterns
}

/// The patterns of a text.
fn rules_of_command_patterns(alloc: Global, text: &[u8]) -> Result<Search, OutOfMemory>
    ensures { IfOk result (λ rules. rules ≡ ignore_rules_of_text false text.now ∷ []) }
{
    let parse = ParseIgnore {
        support_precious: false,
    };
    let list = List::from_bytes(alloc, text, None, PathText::new(alloc), parse)?;
    let mut rules = Search::new(alloc);
    rules.push_list(alloc, list)?;
    Ok(rules)
}

/// Whether the patterns exclude an entry, or a directory above it.
fn is_excluded(rules: &Search, entry: &Entry) -> bool
    ensures { result ≡ alone.is_excluded rules.now Sensitive (others.place_of_report_entry
        entry.now) }
{
    is_path_or_parent_excluded(
        rules,
        Case::Sensitive,
        entry.rela_path.as_bytes(),
        is_some_directory_kind(entry.disk_kind),
    )
}

/// Whether a kind is that of a pipe, a socket or a device.
fn is_untrackable_kind(kind: Option<DiskKind>) -> bool
    ensures { result ≡ words.is_untrackable_kind kind }
{
    matches!(kind, Some(DiskKind::Untrackable))
}

/// Whether the patterns exclude what is at an entry; of a pipe git asks only the directories above.
fn patterns_exclude_entry(rules: &Search, entry: &Entry) -> bool
    ensures { result ≡ words.patterns_exclude_entry rules.now entry.now }
{
    if is_untrackable_kind(entry.disk_kind) {
        return is_below_excluded_directory(rules, Case::Sensitive, entry.rela_path.as_bytes());
    }
    is_excluded(rules, entry)
}

/// Whether an untracked entry is ignored by the patterns.
fn is_untracked_and_excluded(rules: &Search, entry: &Entry) -> bool
    ensures { result ≡ words.is_untracked_and_excluded rules.now entry.now }
{
    if !is_untracked_status(entry.status) {
        return false;
    }
    patterns_exclude_entry(rules, entry)
}

/// An entry as the patterns have it.
fn entry_ignored_if_excluded(rules: &Search, entry: ReportEntry) -> ReportEntry
    ensures { result ≡ words.entry_ignored_if_excluded rules.now entry }
{
    let mut entry = entry;
    if is_untracked_and_excluded(rules, &entry.entry) {
        entry.entry.status = Status::Ignored(Kind::Expendable);
    }
    entry
}

/// Entries as the patterns have them.
fn entries_ignored_if_excluded(
    alloc: Global,
    rules: &Search,
    found: Vec<ReportEntry>,
) -> Result<Vec<ReportEntry>, OutOfMemory>
    ensures { IfOk result (λ all. all.items ≡ map (words.entry_ignored_if_excluded rules.now)
        found.items) }
{
    let mut all = Vec::new(alloc);
    for entry in found {
        all.push(entry_ignored_if_excluded(rules, entry))?;
    }
    Ok(all)
}

/// The entries of a report: where the patterns of `-e` are the only rules, an untracked one that
/// they exclude is ignored, and so is one that lies in a directory that they exclude.
///
/// # Errors
///
/// Memory was refused.
#[tactic(auto, unfolding(crate::specs::Ruled::entries_ignored_by_sole_patterns))]
pub fn entries_ignored_by_sole_patterns(
    alloc: Global,
    cleaning: &Cleaning,
    setup: &Setup,
    found: Vec<ReportEntry>,
) -> Result<Vec<ReportEntry>, OutOfMemory>
    ensures { IfOk result (λ all. all.items ≡ words.entries_ignored_by_sole_patterns cleaning.now
        setup.now found.items) }
{
    if !are_patterns_only_rules(cleaning) {
        return Ok(found);
    }
    let rules = rules_of_command_patterns(alloc, setup.overrides.as_bytes())?;
    entries_ignored_if_excluded(alloc, &rules, found)
}
