//! Entries: a path with all that is known of it.
ghost use Rattle.std.specs.Prelude.{◌≡◌, Bool, true, false, Option, IfOk};
ghost use Rattle.dir_classify.specs.Kinds.{is_directory_or_repository, is_dir, is_repository_kind, is_some_directory_kind, from_match_kind};
ghost use Rattle.dir_classify.specs.Enters.{is_pruned_status, is_ignored_status, is_walkable_kind, is_matched_by_specific_spec, may_recurse_by_status, can_recurse};
ghost use Rattle.dir_classify.specs.Entries.{owned_entry_of_ref, entry_with_outcome};

use crate::classify::Outcome;
use crate::options::{ForDeletionMode, finds_repositories_in_ignored};
use gitbase_core::{EntryKind, OutOfMemory, PathText};
use glob_rules::ignore;
use glob_rules::pathspec::{Match, MatchKind};
use std::alloc::Global;
use worktree_fs::NodeKind;

/// A property that sets a path apart, as gitoxide's `gix_dir::entry::Property`.
#[derive(Clone, Copy, Debug, PartialEq, Eq, PartialOrd, Ord, Hash)]
pub enum Property {
    /// The path is named `.git`, and never tracked as content.
    DotGit,
    /// The path is a directory that holds no name, or is folded over such ones alone.
    EmptyDirectory,
    /// The same, where it must not go, as it is the current directory.
    EmptyDirectoryAndCWD,
    /// The path is a directory that a sparse checkout leaves out as a whole, by the index: one
    /// sparse entry stands for it, or two or more entries do lie beneath and all are skipped; and
    /// none of them is up to date.
    TrackedExcluded,
}

/// The kind of a node on disk, or of an entry in the index.
#[derive(Clone, Copy, Debug, PartialEq, Eq, PartialOrd, Ord, Hash)]
pub enum Kind {
    /// What no index can hold: a socket, a pipe, a device.
    Untrackable,
    /// A regular file.
    File,
    /// A symbolic link.
    Symlink,
    /// A directory in which no repository was looked for, or none was found; in the index one that
    /// has entries, or a sparse one.
    Directory,
    /// A repository of its own: in the index a submodule; on disk what was found to lead to one,
    /// mostly a directory with `.git` in it, and with no look what an up-to-date entry of the index
    /// or the caller says is one, or the worktree set names.
    Repository,
}

impl Kind {
    /// Whether a node of this kind holds names: a directory or a repository.
    pub fn is_dir(&self) -> bool
        ensures { result ≡ is_directory_or_repository self.now }
    {
        matches!(self, Kind::Directory | Kind::Repository)
    }
}

impl From<NodeKind> for Kind {
    ghost use Rattle.std.specs.Prelude.{◌≡◌};
    ghost use Rattle.dir_classify.specs.Kinds.{from_node_kind};

    ghost from_gives = { λ node kind. kind ≡ from_node_kind node };

    fn from(node: NodeKind) -> Kind {
        match node {
            NodeKind::File => Kind::File,
            NodeKind::Symlink => Kind::Symlink,
            NodeKind::Directory => Kind::Directory,
            NodeKind::Untrackable => Kind::Untrackable,
        }
    }
}

impl From<EntryKind> for Kind {
    ghost use Rattle.std.specs.Prelude.{◌≡◌};
    ghost use Rattle.dir_classify.specs.Kinds.{from_index_entry_kind};

    ghost from_gives = { λ entry kind. kind ≡ from_index_entry_kind entry };

    fn from(entry: EntryKind) -> Kind {
        match entry {
            EntryKind::Repository => Kind::Repository,
            EntryKind::File => Kind::File,
            EntryKind::Symlink => Kind::Symlink,
            EntryKind::Directory => Kind::Directory,
        }
    }
}

/// How a path stands to the index and the rules.
#[derive(Clone, Copy, Debug, PartialEq, Eq, PartialOrd, Ord, Hash)]
pub enum Status {
    /// Left out: it is named `.git`, no path spec can match it or what lies beneath it, it is left
    /// out of a sparse worktree, or it is no directory, neither tracked nor ignored, and no path
    /// spec matches it.
    Pruned,
    /// The index has it, and agrees with the disk on whether it holds names; also what neither of
    /// them has. Or it is one of the worktree set.
    Tracked,
    /// It is not tracked, and an ignore rule excludes it, which says what may become of it. In
    /// deletion so is a path named `.git` that lies in a directory.
    Ignored(ignore::Kind),
    /// It is neither tracked nor ignored: a directory, or what a path spec matches.
    Untracked,
}

impl Status {
    /// Whether the path was left out.
    pub fn is_pruned(&self) -> bool
        ensures { result ≡ is_pruned_status self.now }
    {
        matches!(self, Status::Pruned)
    }

    /// Whether the path is excluded by an ignore rule.
    pub fn is_ignored(&self) -> bool
        ensures { result ≡ is_ignored_status self.now }
    {
        matches!(self, Status::Ignored(_))
    }

    /// Whether a walk looks into a path of this status by default, as gitoxide's
    /// `Status::can_recurse`: into directories, and into repositories only where the worktree root
    /// itself is seen as one; not where the path is pruned, and where it is ignored only if
    /// deletion looks for repositories there or a path spec names it.
    ///
    /// `file_type` is the kind of the path on disk, and `pathspec_match` how the path specs match
    /// it.
    ///
    /// See docs/DECISIONS.md#ignored-directory.
    pub fn can_recurse(
        &self,
        file_type: Option<Kind>,
        pathspec_match: Option<PathspecMatch>,
        for_deletion: Option<ForDeletionMode>,
        worktree_root_is_repository: bool,
    ) -> bool
        ensures { result ≡ can_recurse self.now file_type pathspec_match for_deletion
            worktree_root_is_repository }
    {
        if !is_walkable_kind(file_type, worktree_root_is_repository) {
            return false;
        }
        self.may_recurse_by_status(pathspec_match, for_deletion)
    }

    /// Whether an open directory of this status is looked into.
    fn may_recurse_by_status(
        &self,
        pathspec_match: Option<PathspecMatch>,
        for_deletion: Option<ForDeletionMode>,
    ) -> bool
        ensures { result ≡ may_recurse_by_status self.now pathspec_match for_deletion }
    {
        match self {
            Status::Pruned => false,
            Status::Tracked | Status::Untracked => true,
            Status::Ignored(_) => {
                if finds_repositories_in_ignored(for_deletion) {
                    return true;
                }
                is_matched_by_specific_spec(pathspec_match)
            }
        }
    }
}

/// Whether a kind is that of a directory that may be walked.
fn is_walkable_kind(kind: Option<Kind>, in_repository: bool) -> bool
    ensures { result ≡ is_walkable_kind kind in_repository }
{
    match kind {
        Some(Kind::Directory) => true,
        Some(Kind::Repository) => in_repository,
        None | Some(Kind::Untrackable) | Some(Kind::File) | Some(Kind::Symlink) => false,
    }
}

/// Whether a path spec names a path, or what lies beneath it.
fn is_matched_by_specific_spec(found: Option<PathspecMatch>) -> bool
    ensures { result ≡ is_matched_by_specific_spec found }
{
    match found {
        None | Some(PathspecMatch::Always) | Some(PathspecMatch::Excluded) => false,
        Some(PathspecMatch::Prefix) => true,
        Some(PathspecMatch::WildcardMatch) | Some(PathspecMatch::Verbatim) => true,
    }
}

/// Whether a kind, if there is one, is that of a node that holds names; nothing is known without
/// one.
pub(crate) fn is_dir(kind: Option<Kind>) -> Option<bool>
    ensures { result ≡ is_dir kind }
{
    match kind {
        None => None,
        Some(kind) => Some(kind.is_dir()),
    }
}

/// Whether a node that may be there holds names.
pub fn is_some_directory_kind(kind: Option<Kind>) -> bool
    ensures { result ≡ is_some_directory_kind kind }
{
    match kind {
        None => false,
        Some(kind) => kind.is_dir(),
    }
}

/// How the path specs match a path; a later variant names it more closely.
#[derive(Clone, Copy, Debug, PartialEq, Eq, PartialOrd, Ord, Hash)]
pub enum PathspecMatch {
    /// A spec has the empty path, or no spec is positive and none excludes.
    Always,
    /// A spec takes the path out.
    Excluded,
    /// A spec names a directory above the path; or the path is an ignored directory that may lie
    /// above what is looked for.
    Prefix,
    /// A spec matches by its wildcards.
    WildcardMatch,
    /// A spec names the path in full.
    Verbatim,
}

impl From<MatchKind> for PathspecMatch {
    ghost use Rattle.std.specs.Prelude.{◌≡◌};
    ghost use Rattle.dir_classify.specs.Kinds.{from_match_kind};

    ghost from_gives = { λ kind found. found ≡ from_match_kind kind };

    fn from(kind: MatchKind) -> PathspecMatch {
        match kind {
            MatchKind::Always => PathspecMatch::Always,
            MatchKind::Prefix => PathspecMatch::Prefix,
            MatchKind::WildcardMatch => PathspecMatch::WildcardMatch,
            MatchKind::Verbatim => PathspecMatch::Verbatim,
        }
    }
}

/// A spec that excludes matches as such.
impl From<Match> for PathspecMatch {
    ghost use Rattle.std.specs.Prelude.{◌≡◌};
    ghost use Rattle.dir_classify.specs.Kinds.{pathspec_match_from_match};

    ghost from_gives = { λ found how. how ≡ pathspec_match_from_match found };

    fn from(found: Match) -> PathspecMatch {
        if found.is_excluded() {
            return PathspecMatch::Excluded;
        }
        PathspecMatch::from(found.kind)
    }
}

/// A path with its class.
///
/// Entries stand in the order of their paths, byte by byte, and then of the other fields.
#[derive(Debug, Drop, PartialEq, Eq, PartialOrd, Ord, Hash)]
pub struct Entry {
    /// The path relative to the worktree root, its components parted by `/`; empty for the root
    /// itself.
    pub rela_path: PathText,
    /// How the path stands to the index and the rules.
    pub status: Status,
    /// What sets the path apart, where something does.
    pub property: Option<Property>,
    /// The kind of the node on disk, by an up-to-date entry of the index, by the caller, or by the
    /// worktree; a repository for a path of the worktree set, and where one was looked for and
    /// found. None where none of them tells one: where nothing is there, it could not be learnt, or
    /// nobody was asked.
    pub disk_kind: Option<Kind>,
    /// The kind that the index has at the path; none where it has nothing there, or at the path
    /// itself an entry whose mode is no file, link or submodule, and for a path named `.git`, for
    /// one that no path spec can match, and for one of the worktree set.
    pub index_kind: Option<Kind>,
    /// How the path specs match, or `Prefix` for an ignored directory that may lie above what is
    /// looked for; none where they tell no match, and for a path that none of them can match. Of a
    /// folded directory it is the greatest match of what that holds, and of one without names the
    /// kind of the spec that decides, also where that takes it out.
    pub pathspec_match: Option<PathspecMatch>,
    /// The ignore rule that decided about the path, which may be a negative one; none where none
    /// was asked or none did, and for a path named `.git` that is not ignored.
    pub origin: Option<ignore::Origin>,
}

/// An entry over a borrowed path, in the order of entries.
#[derive(Clone, Copy, Debug, PartialEq, Eq, PartialOrd, Ord, Hash)]
pub struct EntryRef<'a> {
    /// The path relative to the worktree root, its components parted by `/`; empty for the root
    /// itself.
    pub rela_path: &'a [u8],
    /// How the path stands to the index and the rules.
    pub status: Status,
    /// What sets the path apart, where something does.
    pub property: Option<Property>,
    /// The kind of the node on disk, by an up-to-date entry of the index, by the caller, or by the
    /// worktree; a repository for a path of the worktree set, and where one was looked for and
    /// found. None where none of them tells one: where nothing is there, it could not be learnt, or
    /// nobody was asked.
    pub disk_kind: Option<Kind>,
    /// The kind that the index has at the path; none where it has nothing there, or at the path
    /// itself an entry whose mode is no file, link or submodule, and for a path named `.git`, for
    /// one that no path spec can match, and for one of the worktree set.
    pub index_kind: Option<Kind>,
    /// How the path specs match, or `Prefix` for an ignored directory that may lie above what is
    /// looked for; none where they tell no match, and for a path that none of them can match. Of a
    /// folded directory it is the greatest match of what that holds, and of one without names the
    /// kind of the spec that decides, also where that takes it out.
    pub pathspec_match: Option<PathspecMatch>,
    /// The ignore rule that decided about the path, which may be a negative one; none where none
    /// was asked or none did, and for a path named `.git` that is not ignored.
    pub origin: Option<ignore::Origin>,
}

impl EntryRef<'_> {
    /// The same entry with a path of its own.
    ///
    /// # Errors
    ///
    /// - `OutOfMemory`: memory was refused.
    pub fn to_owned(&self, alloc: Global) -> Result<Entry, OutOfMemory>
        ensures { IfOk result (λ entry. entry ≡ owned_entry_of_ref self.now) }
    {
        Ok(Entry {
            rela_path: PathText::from_bytes(alloc, self.rela_path)?,
            status: self.status,
            property: self.property,
            disk_kind: self.disk_kind,
            index_kind: self.index_kind,
            pathspec_match: self.pathspec_match,
            origin: self.origin,
        })
    }

    /// The same entry with a path of its own.
    ///
    /// # Errors
    ///
    /// - `OutOfMemory`: memory was refused.
    pub fn into_owned(self, alloc: Global) -> Result<Entry, OutOfMemory>
        ensures { IfOk result (λ entry. entry ≡ owned_entry_of_ref self.entry) }
    {
        self.to_owned(alloc)
    }
}

impl Entry {
    /// The same entry over this one's path.
    pub fn to_ref(&self) -> EntryRef<'_>
        ensures { owned_entry_of_ref result ≡ self.now }
    {
        EntryRef {
            rela_path: self.rela_path.as_bytes(),
            status: self.status,
            property: self.property,
            disk_kind: self.disk_kind,
            index_kind: self.index_kind,
            pathspec_match: self.pathspec_match,
            origin: self.origin,
        }
    }
}

/// Whether a kind is that of a repository.
pub fn is_repository_kind(kind: Option<Kind>) -> bool
    ensures { result ≡ is_repository_kind kind }
{
    matches!(kind, Some(Kind::Repository))
}

/// The entry of a path with its class, over the path.
pub fn entry_ref_with_outcome<'a>(path: &'a [u8], class: &Outcome) -> EntryRef<'a>
    ensures { owned_entry_of_ref result ≡ entry_with_outcome path.now class.now }
{
    EntryRef {
        rela_path: path,
        status: class.status,
        property: class.property,
        disk_kind: class.disk_kind,
        index_kind: class.index_kind,
        pathspec_match: class.pathspec_match,
        origin: class.origin,
    }
}
