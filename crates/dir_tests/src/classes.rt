//! The class of a path, case by case.
ghost use Rattle.std.specs.Prelude.{◌≡◌, true, IfOk};
ghost use Rattle.dir_classify.specs.Excludes.{setup_of_optional_stack, is_absent_or_has_excludes};
ghost use Rattle.dir_classify.specs.Layers.{IsLookupOfIndexIfGiven};
ghost use Rattle.dir_walk.specs.Rooting.{IsNormalRootPath};

use crate::asked::options_of;
use crate::cases::{World, lie_of};
use crate::class_cases::{CASES, REPOSITORIES, WAYS};
use bstr::ByteSlice;
use dir_classify::classify::{self, Outcome, RootOutcome};
use dir_classify::{
    Context, Error, Kind, Options, PathspecMatch, Property, Status, is_absent_or_has_excludes,
    maybe_upgrade_to_repository,
};
use gitbase_core::{AccelerateLookup, MemoryStore, OutOfMemory, PathText, State, is_absolute};
use glob_rules::ignore;
use glob_rules::pathspec::Search;
use std::alloc::Global;
use test_cases::split_at_byte;
use worktree_fs::{MemoryWorktree, PlannedInterrupt};
use worktree_stack::{AtPathError, RulesWhy, Stack};

/// The word of a status in cases.
pub fn status_word(status: Status) -> &'static [u8] {
    match status {
        Status::Pruned => b"pruned",
        Status::Tracked => b"tracked",
        Status::Ignored(ignore::Kind::Expendable) => b"ignored",
        Status::Ignored(ignore::Kind::Precious) => b"precious",
        Status::Untracked => b"untracked",
    }
}

/// The word of a kind in cases.
pub fn kind_word(kind: Option<Kind>) -> &'static [u8] {
    match kind {
        None => b"-",
        Some(Kind::Untrackable) => b"untrackable",
        Some(Kind::File) => b"file",
        Some(Kind::Symlink) => b"symlink",
        Some(Kind::Directory) => b"directory",
        Some(Kind::Repository) => b"repository",
    }
}

/// The word of a property in cases.
pub fn property_word(property: Option<Property>) -> &'static [u8] {
    match property {
        None => b"-",
        Some(Property::DotGit) => b"dot-git",
        Some(Property::EmptyDirectory) => b"empty",
        Some(Property::EmptyDirectoryAndCWD) => b"current",
        Some(Property::TrackedExcluded) => b"sparse",
    }
}

/// The kind of a word, where it is one.
fn known_kind(word: &[u8]) -> Option<Kind> {
    match word {
        b"file" => Some(Kind::File),
        b"symlink" => Some(Kind::Symlink),
        b"directory" => Some(Kind::Directory),
        b"repository" => Some(Kind::Repository),
        _ => None,
    }
}

/// The word of a match in cases.
pub fn match_word(found: Option<PathspecMatch>) -> &'static [u8] {
    match found {
        None => b"-",
        Some(PathspecMatch::Always) => b"always",
        Some(PathspecMatch::Excluded) => b"excluded",
        Some(PathspecMatch::Prefix) => b"prefix",
        Some(PathspecMatch::WildcardMatch) => b"wildcard",
        Some(PathspecMatch::Verbatim) => b"verbatim",
    }
}

/// Whether a match has this word; without one, all paths are meant.
fn has_match(found: Option<PathspecMatch>, word: &[u8]) -> bool {
    let found = match_word(found);
    found == word || (word.is_empty() && found == b"always".as_slice())
}

/// Whether a class has these words: status, property, the kind on disk, that in the index and the
/// match.
fn has_words(class: &Outcome, words: &[u8]) -> bool {
    let (status, rest) = split_at_byte(words, b'`');
    let (property, rest) = split_at_byte(rest, b'`');
    let (disk, rest) = split_at_byte(rest, b'`');
    let (indexed, found) = split_at_byte(rest, b'`');
    status_word(class.status) == status
        && property_word(class.property) == property
        && kind_word(class.disk_kind) == disk
        && kind_word(class.index_kind) == indexed
        && has_match(class.pathspec_match, found)
}

/// Whether an error names this rules file, and says for this reason that it was not read.
fn is_refused(error: &Error, words: &[u8]) -> bool {
    let (reason, file) = split_at_byte(words, b'`');
    match error {
        Error::ExcludesAccess(AtPathError::RulesFile { path, why }) => {
            path.as_bytes() == file && *why == RulesWhy::Special && reason == b"special".as_slice()
        }
        _ => false,
    }
}

/// Whether a class, or why there is none, has these words.
fn is_answer(answer: Result<Outcome, Error>, words: &[u8]) -> bool {
    match answer {
        Ok(class) => has_words(&class, words),
        Err(error) => is_refused(&error, words),
    }
}

/// A look-up of an index.
fn lookup_of(alloc: Global, index: &State) -> Result<Option<AccelerateLookup>, OutOfMemory>
    ensures { IfOk result (IsLookupOfIndexIfGiven index.now) }
{
    Ok(Some(AccelerateLookup::from_state(alloc, index)?))
}

/// A path below a root as `normalize` leaves it.
fn normal_of(alloc: Global, path: &[u8]) -> Result<PathText, OutOfMemory>
    ensures { IfOk result IsNormalRootPath }
{
    let Some(path) = PathText::from_bytes(alloc, path)?.normalize(alloc)? else {
        return Err(OutOfMemory);
    };
    if is_absolute(path.as_bytes()) {
        return Err(OutOfMemory);
    }
    Ok(path)
}

/// The class of a path below `/w`, whose own git directory is `/w/.git`.
fn class_in<'a>(
    alloc: Global,
    path: &[u8],
    known: Option<Kind>,
    ask: bool,
    options: Options<'_>,
    worktree: &'a mut MemoryWorktree,
    objects: &'a mut MemoryStore,
    interrupt: &'a mut PlannedInterrupt,
    pathspec: &'a Search,
    excludes: &'a mut Option<Stack>,
    index: &'a State,
    lookup: &'a Option<AccelerateLookup>,
) -> Result<Outcome, Error>
    requires root { IsNormalRootPath path.now }
    requires lookup { IsLookupOfIndexIfGiven index.now lookup.now }
    requires excludes { is_absent_or_has_excludes (setup_of_optional_stack excludes.old) ≡ true }
{
    let mut ctx = Context {
        worktree,
        objects,
        interrupt,
        pathspec,
        excludes,
        index,
        ignore_case_index_lookup: lookup,
        git_dir_realpath: b"/w/.git",
        current_dir: b"/w",
        explicit_traversal_root: &None,
        depth_limit: 9,
    };
    classify::path(alloc, b"/w", path, known, ask, options, &mut ctx)
}

/// The class of a path below `/w`, over a store that holds nothing.
fn class_of(
    alloc: Global,
    world: &mut World,
    path: &[u8],
    known: Option<Kind>,
    ask: bool,
) -> Result<Outcome, Error> {
    if !is_absent_or_has_excludes(&world.excludes) {
        return Err(Error::OutOfMemory);
    }
    let lookup = lookup_of(alloc, &world.index)?;
    let path = normal_of(alloc, path)?;
    class_in(
        alloc,
        path.as_bytes(),
        known,
        ask,
        options_of(world.asked.options.as_bytes(), &world.asked.worktrees),
        &mut world.tree,
        &mut MemoryStore::new(alloc),
        &mut PlannedInterrupt::never(),
        &world.asked.specs,
        &mut world.excludes,
        &world.index,
        &lookup,
    )
}

/// Whether a path has the class that the step says, or is refused as it says.
pub fn is_class(alloc: Global, world: &mut World, path: &[u8], rest: &[u8]) -> bool {
    let (known, want) = split_at_byte(rest, b'`');
    let ask = known == b"ask".as_slice();
    is_answer(class_of(alloc, world, path, known_kind(known), ask), want)
}

/// The classes on the way to a path below a root.
fn way_in<'a>(
    alloc: Global,
    root: &[u8],
    path: &[u8],
    options: Options<'_>,
    worktree: &'a mut MemoryWorktree,
    objects: &'a mut MemoryStore,
    interrupt: &'a mut PlannedInterrupt,
    pathspec: &'a Search,
    excludes: &'a mut Option<Stack>,
    index: &'a State,
    lookup: &'a Option<AccelerateLookup>,
) -> Result<RootOutcome, Error>
    requires root { IsNormalRootPath path.now }
    requires lookup { IsLookupOfIndexIfGiven index.now lookup.now }
    requires excludes { is_absent_or_has_excludes (setup_of_optional_stack excludes.old) ≡ true }
{
    let mut ctx = Context {
        worktree,
        objects,
        interrupt,
        pathspec,
        excludes,
        index,
        ignore_case_index_lookup: lookup,
        git_dir_realpath: b"/w/.git",
        current_dir: b"/w",
        explicit_traversal_root: &None,
        depth_limit: 9,
    };
    classify::root(alloc, root, path, options, &mut ctx)
}

/// The classes on the way to a path below a root, over a store that holds nothing.
fn way_of(
    alloc: Global,
    world: &mut World,
    root: &[u8],
    path: &[u8],
) -> Result<RootOutcome, Error> {
    if !is_absent_or_has_excludes(&world.excludes) {
        return Err(Error::OutOfMemory);
    }
    let lookup = lookup_of(alloc, &world.index)?;
    let path = normal_of(alloc, path)?;
    way_in(
        alloc,
        root,
        path.as_bytes(),
        options_of(world.asked.options.as_bytes(), &world.asked.worktrees),
        &mut world.tree,
        &mut MemoryStore::new(alloc),
        &mut PlannedInterrupt::never(),
        &world.asked.specs,
        &mut world.excludes,
        &world.index,
        &lookup,
    )
}

/// Whether a way ends as these words say: `whole` or `part` of it, and where; then with what class.
fn has_end(way: &RootOutcome, words: &[u8]) -> bool {
    let (end, class) = split_at_byte(words, b'`');
    let (extent, path) = end.split_once_str(b" ").unwrap_or((end, b""));
    way.whole == (extent == b"whole".as_slice())
        && way.path.as_bytes() == path
        && has_words(&way.outcome, class)
}

/// Whether the way to a path below this root ends as the step says.
pub fn is_root(alloc: Global, world: &mut World, root: &[u8], rest: &[u8]) -> bool {
    let (path, want) = split_at_byte(rest, b'`');
    match way_of(alloc, world, root, path) {
        Ok(way) => has_end(&way, want),
        Err(error) => is_refused(&error, want),
    }
}

/// Whether a directory, looked at `hard` or not, is then of this kind.
pub fn is_upgraded(
    alloc: Global,
    worktree: &mut MemoryWorktree,
    path: &[u8],
    words: &[u8],
) -> bool {
    let (how, want) = split_at_byte(words, b'`');
    match maybe_upgrade_to_repository(
        alloc,
        Some(Kind::Directory),
        how == b"hard".as_slice(),
        false,
        path,
        worktree,
        b"/w",
        b"/w/.git",
    ) {
        Ok(kind) => kind_word(kind) == want,
        Err(_) => false,
    }
}

#[test]
fn classes(rt: HostRuntime) {
    for case in CASES.split_str(b"\n@ ") {
        assert_eq!(rt; lie_of(rt.alloc(), case), None, "{case:?}");
    }
}

#[test]
fn repositories(rt: HostRuntime) {
    for case in REPOSITORIES.split_str(b"\n@ ") {
        assert_eq!(rt; lie_of(rt.alloc(), case), None, "{case:?}");
    }
}

#[test]
fn ways(rt: HostRuntime) {
    for case in WAYS.split_str(b"\n@ ") {
        assert_eq!(rt; lie_of(rt.alloc(), case), None, "{case:?}");
    }
}
