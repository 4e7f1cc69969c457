//! The fold of a directory: one entry in place of all that it holds.
ghost use Rattle.std.specs.Prelude.{◌≡◌, ◌+◌, ◌≤◌, [], option_map, if◌then◌else◌};
ghost use Rattle.dir_classify.specs.Chosen.{walk_options_of, is_collapsing_mode, collapses_directories_if_some, folds_untracked_or_ignored};
ghost use Rattle.dir_classify.specs.Entries.{entry_with_outcome};
ghost use Rattle.dir_classify.specs.Evidence.{PathEvidence};
ghost use Rattle.dir_classify.specs.Evidence as evidence;
ghost use Rattle.dir_walk.specs.Fold.{CanCountOneMore, all_counted_untracked_or_ignored, fold, status_of_folded_directory, class_of_folded_directory, may_fold_as_expendable, may_fold_as_precious, may_fold_as_untracked, greatest_match_counted, is_empty_directory_entry, prevents_folding, is_ignored_expendable_entry, has_pathspec_match, is_prefix_or_wildcard_match, is_ignored_precious_entry, equals_status, is_untracked_entry, pathspec_match_of_folded_directory, may_delete_all_at_once, count_of_flag, match_unless_prefix_or_excluded, property_of_folded_directory, rank_of_optional_pathspec_match, emits_besides_folded_directory, tally_held_entries, tally_with_entry};
ghost use Rattle.dir_walk.specs.Walked.{holds_status_for_folding};

use crate::tally::Tally;
use dir_classify::classify::Outcome;
use dir_classify::entry::is_repository_kind;
use dir_classify::{
    CollapsedEntriesEmissionMode, EmissionMode, Entry, Options, PathspecMatch, Property, Status,
};
use glob_rules::ignore;

/// The class of the entry that stands for all that a directory of a class holds, or none where it
/// is not folded.
///
/// `blocked` says that the directory must not go, and `covered` that the path specs match all that
/// lies beneath it.
#[tactic(auto, unfolding(crate::specs::Fold::fold))]
pub(crate) fn fold(
    options: &Options<'_>,
    path: &[u8],
    class: &Outcome,
    held: &[Entry],
    blocked: bool,
    covered: bool,
) -> Option<Outcome>
    ensures { (ev : PathEvidence) → evidence.is_protected_current_directory ev path.now ≡ blocked
        → ev.covers path.now ≡ covered
        → option_map (entry_with_outcome path.now) result
        ≡ fold (walk_options_of options.now) ev path.now class.now (tally_held_entries held.now) }
{
    let counts = tally_held_entries(held);
    let barred = counts.barring != 0;
    let mixed = (counts.picked != 0) & (counts.picked != counts.all);
    if path.is_empty() | blocked | barred | mixed | !covered {
        return None;
    }
    match status_of_folded_directory(options, &counts) {
        None => None,
        Some(status) => Some(class_of_folded_directory(options, class, &counts, status)),
    }
}

/// Whether an entry of a status is held, as a directory may be folded over it.
///
/// See docs/DECISIONS.md#folding-sees-held.
pub(crate) fn holds_status_for_folding(options: &Options<'_>, status: Status) -> bool
    ensures { result ≡ holds_status_for_folding (walk_options_of options.now) status }
{
    !status.is_pruned() & folds_untracked_or_ignored(options)
}

/// Whether a held entry is emitted besides the directory that was folded over it with a status.
pub(crate) fn emits_besides_folded_directory(
    mode: Option<CollapsedEntriesEmissionMode>,
    status: Status,
    entry: &Entry,
) -> bool
    ensures { result ≡ emits_besides_folded_directory mode status entry.now }
{
    match mode {
        None => false,
        Some(CollapsedEntriesEmissionMode::OnStatusMismatch) => {
            !equals_status(entry.status, status)
        }
        Some(CollapsedEntriesEmissionMode::All) => true,
    }
}

fn equals_status(a: Status, b: Status) -> bool
    ensures { result ≡ equals_status a b }
{
    match a {
        Status::Pruned => b.is_pruned(),
        Status::Tracked => matches!(b, Status::Tracked),
        Status::Untracked => matches!(b, Status::Untracked),
        Status::Ignored(ignore::Kind::Expendable) => {
            matches!(b, Status::Ignored(ignore::Kind::Expendable))
        }
        Status::Ignored(ignore::Kind::Precious) => {
            matches!(b, Status::Ignored(ignore::Kind::Precious))
        }
    }
}

// ---- what is held

/// The held entries, counted.
fn tally_held_entries(held: &[Entry]) -> Tally
    ensures counts { result ≡ tally_held_entries held.now }
    ensures loose { result.untracked + result.expendable + result.precious ≤ result.all }
{
    let mut counts = zero_tally();
    for entry in held {
        counts = tally_with_entry(counts, entry);
    }
    counts
}

fn zero_tally() -> Tally
    ensures { result ≡ tally_held_entries [] }
{
    Tally {
        all: 0,
        untracked: 0,
        expendable: 0,
        precious: 0,
        barring: 0,
        picked: 0,
        without_names: 0,
        always: 0,
        excluded: 0,
        prefixed: 0,
        wildcard: 0,
        verbatim: 0,
    }
}

/// The counts with one more entry.
fn tally_with_entry(counts: Tally, entry: &Entry) -> Tally
    requires { CanCountOneMore counts }
    ensures { result ≡ tally_with_entry counts entry.now }
{
    Tally {
        all: counts.all + 1,
        untracked: counts.untracked + count_of_flag(is_untracked_entry(entry)),
        expendable: counts.expendable + count_of_flag(is_ignored_expendable_entry(entry)),
        precious: counts.precious + count_of_flag(is_ignored_precious_entry(entry)),
        barring: counts.barring + count_of_flag(prevents_folding(entry)),
        picked: counts.picked + count_of_flag(is_prefix_or_wildcard_match(entry)),
        without_names: counts.without_names + count_of_flag(is_empty_directory_entry(entry)),
        always: counts.always + count_of_flag(has_pathspec_match(entry, PathspecMatch::Always)),
        excluded: counts.excluded
            + count_of_flag(has_pathspec_match(entry, PathspecMatch::Excluded)),
        prefixed: counts.prefixed + count_of_flag(has_pathspec_match(entry, PathspecMatch::Prefix)),
        wildcard: counts.wildcard
            + count_of_flag(has_pathspec_match(entry, PathspecMatch::WildcardMatch)),
        verbatim: counts.verbatim
            + count_of_flag(has_pathspec_match(entry, PathspecMatch::Verbatim)),
    }
}

fn count_of_flag(b: bool) -> usize
    ensures { result ≡ count_of_flag b }
{
    if b { 1 } else { 0 }
}

fn is_untracked_entry(entry: &Entry) -> bool
    ensures { result ≡ is_untracked_entry entry.now }
{
    matches!(entry.status, Status::Untracked)
}

fn is_ignored_expendable_entry(entry: &Entry) -> bool
    ensures { result ≡ is_ignored_expendable_entry entry.now }
{
    matches!(entry.status, Status::Ignored(ignore::Kind::Expendable))
}

fn is_ignored_precious_entry(entry: &Entry) -> bool
    ensures { result ≡ is_ignored_precious_entry entry.now }
{
    matches!(entry.status, Status::Ignored(ignore::Kind::Precious))
}

fn is_empty_directory_entry(entry: &Entry) -> bool
    ensures { result ≡ is_empty_directory_entry entry.now }
{
    matches!(entry.property, Some(Property::EmptyDirectory))
}

/// Whether no directory folds over an entry: a repository, or what a spec names in full or takes
/// out.
///
/// See docs/DIFFERENCES.md#folded-over-repository.
/// See docs/DIFFERENCES.md#folded-over-spec.
/// See docs/DIFFERENCES.md#folded-over-ignored.
fn prevents_folding(entry: &Entry) -> bool
    ensures { result ≡ prevents_folding entry.now }
{
    let named = has_pathspec_match(entry, PathspecMatch::Verbatim);
    let excluded = has_pathspec_match(entry, PathspecMatch::Excluded);
    is_repository_kind(entry.disk_kind) | named | excluded
}

/// Whether a spec matches an entry by a directory above it or by its wildcards.
fn is_prefix_or_wildcard_match(entry: &Entry) -> bool
    ensures { result ≡ is_prefix_or_wildcard_match entry.now }
{
    let prefixed = has_pathspec_match(entry, PathspecMatch::Prefix);
    let wild = has_pathspec_match(entry, PathspecMatch::WildcardMatch);
    prefixed | wild
}

fn has_pathspec_match(entry: &Entry, found: PathspecMatch) -> bool
    ensures { result ≡ has_pathspec_match found entry.now }
{
    rank_of_pathspec_match(entry.pathspec_match) == rank_of_pathspec_match(Some(found))
}

/// The place of a match in the order of matches.
fn rank_of_pathspec_match(found: Option<PathspecMatch>) -> u8
    ensures { result ≡ rank_of_optional_pathspec_match found }
{
    match found {
        None => 0,
        Some(PathspecMatch::Always) => 1,
        Some(PathspecMatch::Excluded) => 2,
        Some(PathspecMatch::Prefix) => 3,
        Some(PathspecMatch::WildcardMatch) => 4,
        Some(PathspecMatch::Verbatim) => 5,
    }
}

// ---- the status of a folded directory

/// The status under which all that is held may become one entry, if there is one.
///
/// See docs/DECISIONS.md#folded-untracked.
fn status_of_folded_directory(options: &Options<'_>, counts: &Tally) -> Option<Status>
    requires { counts.now.untracked + counts.now.expendable + counts.now.precious ≤ counts.now.all }
    ensures { result ≡ status_of_folded_directory (walk_options_of options.now) counts.now }
{
    if may_fold_as_untracked(options, counts) {
        return Some(Status::Untracked);
    }
    if may_fold_as_expendable(options, counts) {
        return Some(Status::Ignored(ignore::Kind::Expendable));
    }
    if may_fold_as_precious(options, counts) {
        return Some(Status::Ignored(ignore::Kind::Precious));
    }
    None
}

#[tactic(auto, unfolding(dir_classify::specs::Chosen::walk_options_of))]
fn may_fold_as_untracked(options: &Options<'_>, counts: &Tally) -> bool
    requires { counts.now.untracked + counts.now.expendable + counts.now.precious ≤ counts.now.all }
    ensures { result ≡ may_fold_as_untracked (walk_options_of options.now) counts.now }
{
    let some = counts.untracked != 0;
    let loose = all_counted_untracked_or_ignored(counts);
    let deletable = may_delete_all_at_once(options, counts);
    is_collapsing_mode(options.emit_untracked) & some & loose & deletable
}

/// Whether all that is held is untracked or ignored.
fn all_counted_untracked_or_ignored(counts: &Tally) -> bool
    requires { counts.now.untracked + counts.now.expendable + counts.now.precious ≤ counts.now.all }
    ensures { result ≡ all_counted_untracked_or_ignored counts.now }
{
    counts.untracked + counts.expendable + counts.precious == counts.all
}

/// Whether deletion may take all that is held at once: nothing precious, and what is ignored only
/// where that is asked for.
#[tactic(auto, unfolding(dir_classify::specs::Chosen::walk_options_of))]
fn may_delete_all_at_once(options: &Options<'_>, counts: &Tally) -> bool
    ensures { result ≡ may_delete_all_at_once (walk_options_of options.now) counts.now }
{
    if options.for_deletion.is_none() {
        return true;
    }
    if counts.precious != 0 {
        return false;
    }
    if counts.expendable == 0 {
        return true;
    }
    options.emit_ignored.is_some()
}

#[tactic(auto, unfolding(dir_classify::specs::Chosen::walk_options_of))]
fn may_fold_as_expendable(options: &Options<'_>, counts: &Tally) -> bool
    ensures { result ≡ may_fold_as_expendable (walk_options_of options.now) counts.now }
{
    let some = counts.expendable != 0;
    collapses_directories_if_some(options.emit_ignored) & some & (counts.expendable == counts.all)
}

#[tactic(auto, unfolding(dir_classify::specs::Chosen::walk_options_of))]
fn may_fold_as_precious(options: &Options<'_>, counts: &Tally) -> bool
    ensures { result ≡ may_fold_as_precious (walk_options_of options.now) counts.now }
{
    let some = counts.precious != 0;
    collapses_directories_if_some(options.emit_ignored) & some & (counts.precious == counts.all)
}

/// Whether directories are folded, if they can be.
#[tactic(auto, unfolding(dir_classify::specs::Chosen::walk_options_of))]
fn folds_untracked_or_ignored(options: &Options<'_>) -> bool
    ensures { result ≡ folds_untracked_or_ignored (walk_options_of options.now) }
{
    is_collapsing_mode(options.emit_untracked) | collapses_directories_if_some(options.emit_ignored)
}

fn is_collapsing_mode(mode: EmissionMode) -> bool
    ensures { result ≡ is_collapsing_mode mode }
{
    matches!(mode, EmissionMode::CollapseDirectory)
}

fn collapses_directories_if_some(mode: Option<EmissionMode>) -> bool
    ensures { result ≡ collapses_directories_if_some mode }
{
    match mode {
        None => false,
        Some(mode) => is_collapsing_mode(mode),
    }
}

// ---- its class

/// The class of a directory as one entry in place of all that it holds.
fn class_of_folded_directory(
    options: &Options<'_>,
    class: &Outcome,
    counts: &Tally,
    status: Status,
) -> Outcome
    ensures { result ≡ class_of_folded_directory (walk_options_of options.now) class.now
        counts.now status }
{
    Outcome {
        status,
        property: property_of_folded_directory(options, class.property, status, counts),
        pathspec_match: pathspec_match_of_folded_directory(counts, class),
        ..*class
    }
}

/// Its property: its own, else that it has no names where nothing that it holds has, outside
/// deletion.
///
/// See docs/DIFFERENCES.md#gone-tracked-files.
#[tactic(auto, unfolding(dir_classify::specs::Chosen::walk_options_of))]
fn property_of_folded_directory(
    options: &Options<'_>,
    own: Option<Property>,
    status: Status,
    counts: &Tally,
) -> Option<Property>
    ensures { result ≡ property_of_folded_directory (walk_options_of options.now) own status
        counts.now }
{
    match own {
        Some(property) => Some(property),
        None => match status {
            Status::Untracked => {
                if options.for_deletion.is_none() & (counts.without_names == counts.all) {
                    return Some(Property::EmptyDirectory);
                }
                None
            }
            Status::Pruned | Status::Tracked | Status::Ignored(_) => None,
        },
    }
}

/// Its match: the greatest of what it holds, else its own where no spec was needed for it or one
/// names it.
///
/// See docs/DIFFERENCES.md#folded-by-spec.
fn pathspec_match_of_folded_directory(counts: &Tally, class: &Outcome) -> Option<PathspecMatch>
    ensures { result ≡ pathspec_match_of_folded_directory (greatest_match_counted counts.now)
        class.now }
{
    match greatest_match_counted(counts) {
        Some(found) => Some(found),
        None => match_unless_prefix_or_excluded(class.pathspec_match),
    }
}

fn greatest_match_counted(counts: &Tally) -> Option<PathspecMatch>
    ensures { result ≡ greatest_match_counted counts.now }
{
    if counts.verbatim != 0 {
        return Some(PathspecMatch::Verbatim);
    }
    if counts.wildcard != 0 {
        return Some(PathspecMatch::WildcardMatch);
    }
    if counts.prefixed != 0 {
        return Some(PathspecMatch::Prefix);
    }
    if counts.excluded != 0 {
        return Some(PathspecMatch::Excluded);
    }
    if counts.always != 0 {
        return Some(PathspecMatch::Always);
    }
    None
}

fn match_unless_prefix_or_excluded(found: Option<PathspecMatch>) -> Option<PathspecMatch>
    ensures { result ≡ match_unless_prefix_or_excluded found }
{
    match found {
        Some(PathspecMatch::Always) => found,
        Some(PathspecMatch::WildcardMatch) | Some(PathspecMatch::Verbatim) => found,
        None | Some(PathspecMatch::Prefix) | Some(PathspecMatch::Excluded) => None,
    }
}
