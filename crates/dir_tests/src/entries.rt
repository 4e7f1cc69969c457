//! Entries: what their conversions keep, and in what order they stand.
use dir_classify::classify::Outcome;
use dir_classify::{
    CollapsedEntriesEmissionMode, EmissionMode, EntryRef, ForDeletionMode, Kind, Options,
    PathspecMatch, Property, Status,
};
use glob_rules::ignore::{self, Origin, RuleGroup};
use glob_rules::pathspec::{Match, MatchKind};
use std::alloc::Global;

/// An entry of a file.
fn entry(rela_path: &[u8], status: Status) -> EntryRef<'_> {
    EntryRef {
        rela_path,
        status,
        property: Some(Property::EmptyDirectory),
        disk_kind: Some(Kind::File),
        index_kind: Some(Kind::Symlink),
        pathspec_match: Some(PathspecMatch::Prefix),
        origin: Some(Origin {
            group: RuleGroup::Globals,
            line: 7,
            negative: false,
        }),
    }
}

/// Whether a class has every field of an entry.
fn is_class_of(class: &Outcome, entry: &EntryRef<'_>) -> bool {
    class.status == entry.status
        && class.property == entry.property
        && class.disk_kind == entry.disk_kind
        && class.index_kind == entry.index_kind
        && class.pathspec_match == entry.pathspec_match
        && class.origin == entry.origin
}

/// Whether an entry that is owned, lent and owned again is the same.
fn changes_hands(alloc: Global, lent: EntryRef<'_>) -> bool {
    let Ok(own) = lent.to_owned(alloc) else {
        return false;
    };
    match own.to_ref().into_owned(alloc) {
        Ok(again) => again.to_ref() == lent && is_class_of(&Outcome::from(&again), &lent),
        Err(_) => false,
    }
}

/// Whether two entries stand in this order, lent and owned.
fn ascends(alloc: Global, before: EntryRef<'_>, after: EntryRef<'_>) -> bool {
    before < after
        && before != after
        && match (before.to_owned(alloc), after.to_owned(alloc)) {
            (Ok(before), Ok(after)) => before < after && before != after,
            _ => false,
        }
}

#[test]
fn entries_change_hands_and_stand_by_path_and_then_by_status(rt: HostRuntime) {
    let alloc = rt.alloc();
    assert!(rt; changes_hands(alloc, entry(b"d/f", Status::Tracked)));
    let (dot, slash) = (
        entry(b"d.x", Status::Untracked),
        entry(b"d/x", Status::Pruned),
    );
    assert!(rt; ascends(alloc, dot, slash));
    assert!(rt; ascends(alloc, slash, entry(b"d/x", Status::Tracked)));
}

/// Whether an ignored directory that specs match so is looked into.
fn is_looked_into(found: PathspecMatch) -> bool {
    Status::Ignored(ignore::Kind::Expendable).can_recurse(
        Some(Kind::Directory),
        Some(found),
        None,
        false,
    )
}

/// Which directories are looked into: ignored ones that a spec names, and repositories where the
/// root is one.
fn are_looked_into() -> bool {
    !is_looked_into(PathspecMatch::Always)
        && is_looked_into(PathspecMatch::Prefix)
        && !Status::Tracked.can_recurse(Some(Kind::Repository), None, None, false)
        && Status::Tracked.can_recurse(Some(Kind::Repository), None, None, true)
}

/// Whether a match of this kind is this one where its spec does not exclude, and is excluded where
/// it does.
fn becomes(kind: MatchKind, want: PathspecMatch) -> bool {
    let found = |excluded| Match {
        kind,
        excluded,
        sequence_number: 1,
    };
    PathspecMatch::from(kind) == want
        && PathspecMatch::from(found(false)) == want
        && PathspecMatch::from(found(true)) == PathspecMatch::Excluded
}

/// Options that ask for nothing, field by field.
fn all_off() -> Options<'static> {
    Options {
        precompose_unicode: false,
        ignore_case: false,
        recurse_repositories: false,
        emit_pruned: false,
        emit_ignored: None,
        for_deletion: None,
        classify_untracked_bare_repositories: false,
        emit_tracked: false,
        emit_untracked: EmissionMode::Matching,
        emit_empty_directories: false,
        emit_collapsed: None,
        symlinks_to_directories_are_ignored_like_directories: false,
        worktree_relative_worktree_dirs: None,
    }
}

/// What modes are where nothing is said.
fn are_defaults() -> bool {
    EmissionMode::default() == EmissionMode::Matching
        && CollapsedEntriesEmissionMode::default() == CollapsedEntriesEmissionMode::OnStatusMismatch
        && ForDeletionMode::default()
            == ForDeletionMode::IgnoredDirectoriesCanHideNestedRepositories
}

/// The tests of kinds and statuses, and what options are where nothing is said.
#[test]
fn kinds_statuses_and_defaults(rt: HostRuntime) {
    assert!(rt; Kind::Repository.is_dir() && !Kind::Symlink.is_dir());
    assert!(rt; Status::Pruned.is_pruned());
    assert!(rt; Status::Ignored(ignore::Kind::Precious).is_ignored());
    assert!(rt; are_looked_into());
    assert!(rt; becomes(MatchKind::WildcardMatch, PathspecMatch::WildcardMatch));
    assert!(rt; are_defaults());
    assert!(rt; Options::default() == all_off());
}
