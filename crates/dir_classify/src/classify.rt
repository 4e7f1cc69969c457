//! The class of a path, and the classes on the way to a traversal root.
ghost use Rattle.std.specs.Prelude.{◌≡◌, true, false, IfOk};
ghost use Rattle.gitbase_core.specs.Path.{components};
ghost use Rattle.worktree_fs.specs.Paths.{is_relative_without_dots, slash_joined_components};
ghost use Rattle.dir_classify.specs.Chosen.{walk_options_of};
ghost use Rattle.dir_classify.specs.Class.{enters};
ghost use Rattle.dir_classify.specs.Classes.{ClassifiesPath, AnswersClassQuestion};
ghost use Rattle.dir_classify.specs.Contexts.{KeepsContextLoans};
ghost use Rattle.dir_classify.specs.Excludes.{setup_of_optional_stack, is_absent_or_has_excludes};
ghost use Rattle.dir_classify.specs.Layers.{setting_of_context, setting_of_shared, IsLookupOfIndexIfGiven};
ghost use Rattle.dir_classify.specs.Question.{question_about_path_on_way};
ghost use Rattle.dir_classify.specs.Rooted.{ClassifiesWayToRoot, reached_of_root_outcome};
ghost use Rattle.dir_classify.specs.Way.{way_continues_beneath, end_of_way_with_rules_read};

use crate::context::{Context, Shared};
use crate::entry::{Entry, Kind, PathspecMatch, Property, Status, is_repository_kind};
use crate::error::Error;
use crate::options::Options;
use crate::paths::join_worktree_root;
use crate::steps;
pub use crate::steps::classify_name_in_directory;
use gitbase_core::{Find, PathText};
use glob_rules::ignore::Origin;
use glob_rules::pathspec::Matcher;
use std::alloc::Global;
use worktree_fs::{Interrupt, Worktree, next_component};
use worktree_stack::Stack;

/// The class of a path: all that an entry says of it.
#[derive(Clone, Copy, Debug)]
pub struct Outcome {
    /// How the path stands to the index and the rules.
    pub status: Status,
    /// What sets the path apart, where something does.
    pub property: Option<Property>,
    /// The kind of the node on disk, by an up-to-date entry of the index, by the caller, or by the
    /// worktree; a repository for a path of the worktree set, and where one was looked for and
    /// found. None where none of them tells one: where nothing is there, it could not be learnt, or
    /// nobody was asked.
    pub disk_kind: Option<Kind>,
    /// The kind that the index has at the path; none where it has nothing there, or at the path
    /// itself an entry whose mode is no file, link or submodule, and for a path named `.git`, for
    /// one that no path spec can match, and for one of the worktree set.
    pub index_kind: Option<Kind>,
    /// How the path specs match, or `Prefix` for an ignored directory that may lie above what is
    /// looked for; none where they tell no match, and for a path that none of them can match.
    pub pathspec_match: Option<PathspecMatch>,
    /// The ignore rule that decided about the path, which may be a negative one; none where none
    /// was asked or none did, and for a path named `.git` that is not ignored.
    ///
    /// See docs/DECISIONS.md#deciding-rule.
    pub origin: Option<Origin>,
}

impl From<&Entry> for Outcome {
    ghost use Rattle.std.specs.Prelude.{◌≡◌};
    ghost use Rattle.dir_classify.specs.Entries.{outcome_of_entry};

    ghost from_gives = { λ entry class. class ≡ outcome_of_entry entry.now };

    fn from(entry: &Entry) -> Outcome {
        Outcome {
            status: entry.status,
            property: entry.property,
            disk_kind: entry.disk_kind,
            index_kind: entry.index_kind,
            pathspec_match: entry.pathspec_match,
            origin: entry.origin,
        }
    }
}

/// Where the way to a traversal root ends.
#[derive(Debug, Drop)]
pub struct RootOutcome {
    /// The class of `path`.
    pub outcome: Outcome,
    /// The path that was classed last, relative to the worktree root.
    pub path: PathText,
    /// Whether the worktree root is seen as a repository.
    pub worktree_root_is_repository: bool,
    /// Whether `path` is the whole traversal root.
    pub whole: bool,
}

/// The class of `rela_path`, which is relative to `worktree_root`, as gitoxide's `classify::path`.
///
/// `disk_kind` is the kind of its node where the caller knows it. Where neither that nor an
/// up-to-date entry of the index tells the kind, the worktree is asked, if `ask_disk` allows it; of
/// a path named `.git`, or that no path spec can match, it is not asked. A fault of that question
/// reads as no kind, and is counted by the worktree. So are faults of the other questions about the
/// node: whether it leads to a repository, and what a link leads to. Of which question a fault is
/// the contract does not say, but how many were misread at most.
///
/// The worktree is read for rules, and where a repository is looked for: at a directory that is a
/// submodule in the index, at one that neither the index nor the rules have, and at what the rules
/// exclude, where deletion looks for repositories there. For ignore rules one file is read for each
/// directory at most, and for a repository three files, or six where bare ones are looked for.
///
/// The ignore rules are asked for a path below the worktree root that a path spec can match, that
/// is not of the worktree set, and that the index does not have, or has in another shape (a
/// directory in a file's place, or the other way round, but for what a sparse checkout leaves out),
/// and in deletion for one named `.git`: they are read as they are needed, and kept for the next
/// path. They are to tell which paths are excluded. The store is asked for the blobs that rules
/// files are mapped to, and for nothing where none is.
///
/// See docs/DECISIONS.md#when-rules-are-asked.
/// See docs/DECISIONS.md#swallowed-faults.
/// See docs/DECISIONS.md#class-under-faults.
///
/// `worktree_root` is absolute, without `.` and `..`. `rela_path` is relative and normalised, as
/// `PathText::normalize` leaves a path: no component is `.` or `..`, one slash stands between each
/// two, and none at the end.
///
/// # Errors
///
/// - `ExcludesAccess`: the rules of a directory above the path were asked, and the rules file is a
///   link without an end, a link that is not followed as the file is mapped to a blob, or neither
///   file nor directory, or could not be read; or its blob is missing, is no blob, or could not be
///   had. See docs/DECISIONS.md#rules-file-fault.
/// - `OutOfMemory`: memory was refused.
///
/// After a refusal rules that were in step are in step, and what they have pushed is what it was or
/// lies on the way to the path; see docs/DECISIONS.md#rules-serve-on.
///
/// See docs/DIFFERENCES.md#gix-on-demand-kind.
/// See docs/DIFFERENCES.md#gix-public-classify.
pub fn path<W: Worktree, F: Find, I: Interrupt, M: Matcher>(
    alloc: Global,
    worktree_root: &[u8],
    rela_path: &[u8],
    disk_kind: Option<Kind>,
    ask_disk: bool,
    options: Options<'_>,
    ctx: &mut Context<'_, W, F, I, M>,
) -> Result<Outcome, Error>
    requires normal { is_relative_without_dots rela_path.now ≡ true }
    requires spelled { rela_path.now ≡ slash_joined_components (components rela_path.now) }
    requires lookup { IsLookupOfIndexIfGiven ctx.old.index.now
        ctx.old.ignore_case_index_lookup.now }
    requires excludes { is_absent_or_has_excludes (setup_of_optional_stack ctx.old.excludes.now)
        ≡ true }
    ensures classes { ClassifiesPath W.Worktree F.Find ctx.old.worktree.now ctx.new.worktree.now
        ctx.old.objects.now ctx.new.objects.now ctx.old.excludes.now ctx.new.excludes.now
        (setting_of_context M.Matcher worktree_root.now options.entry ctx.old) rela_path.now
        disk_kind ask_disk result }
    ensures context { KeepsContextLoans ctx.old ctx.new }
{
    let shared = Shared {
        worktree_root,
        pathspec: ctx.pathspec,
        index: ctx.index,
        ignore_case_index_lookup: ctx.ignore_case_index_lookup,
        git_dir_realpath: ctx.git_dir_realpath,
        current_dir: ctx.current_dir,
        options,
    };
    let full = join_worktree_root(alloc, worktree_root, rela_path)?;
    let all = shared.index.entries_beneath_directory(b"");
    steps::classify_name_in_directory(
        alloc,
        full.as_bytes(),
        rela_path,
        rela_path,
        &all,
        disk_kind,
        ask_disk,
        &shared,
        ctx.excludes,
        ctx.worktree,
        ctx.objects,
    )
}

/// The classes from the worktree root to `worktree_relative_root`, one component after another, as
/// gitoxide's `classify::root`: on as long as the class of a component is one that a walk looks
/// into by default. That is not asked of the worktree root itself.
///
/// The kind of each path is asked first, its last link not followed; a fault of that question reads
/// as no kind. `worktree_relative_root` is relative and normalised as `rela_path` of [`path`] is.
///
/// See docs/DECISIONS.md#way-to-root.
///
/// # Errors
///
/// - `ExcludesAccess`: the rules of a directory above a path on the way were asked, and were not
///   read, as [`path`] says it.
/// - `OutOfMemory`: memory was refused.
pub fn root<W: Worktree, F: Find, I: Interrupt, M: Matcher>(
    alloc: Global,
    worktree_root: &[u8],
    worktree_relative_root: &[u8],
    options: Options<'_>,
    ctx: &mut Context<'_, W, F, I, M>,
) -> Result<RootOutcome, Error>
    requires normal { is_relative_without_dots worktree_relative_root.now ≡ true }
    requires spelled { worktree_relative_root.now
        ≡ slash_joined_components (components worktree_relative_root.now) }
    requires lookup { IsLookupOfIndexIfGiven ctx.old.index.now
        ctx.old.ignore_case_index_lookup.now }
    requires excludes { is_absent_or_has_excludes (setup_of_optional_stack ctx.old.excludes.now)
        ≡ true }
    ensures reaches { ClassifiesWayToRoot W.Worktree F.Find ctx.old.worktree.now
        ctx.new.worktree.now ctx.old.objects.now ctx.new.objects.now ctx.old.excludes.now
        ctx.new.excludes.now (setting_of_context M.Matcher worktree_root.now options.entry ctx.old)
        worktree_relative_root.now result }
    ensures context { KeepsContextLoans ctx.old ctx.new }
{
    let shared = Shared {
        worktree_root,
        pathspec: ctx.pathspec,
        index: ctx.index,
        ignore_case_index_lookup: ctx.ignore_case_index_lookup,
        git_dir_realpath: ctx.git_dir_realpath,
        current_dir: ctx.current_dir,
        options,
    };
    classify_way_to_traversal_root(
        alloc,
        worktree_relative_root,
        &shared,
        ctx.excludes,
        ctx.worktree,
        ctx.objects,
    )
}

/// The classes on the way to a traversal root as [`root`] says them, for a caller that has the
/// parts of a context.
///
/// # Errors
///
/// - `ExcludesAccess`: the rules of a directory above a path on the way were asked, and were not
///   read, as [`path`] says it.
/// - `OutOfMemory`: memory was refused.
pub fn classify_way_to_traversal_root<W: Worktree, F: Find, M: Matcher>(
    alloc: Global,
    worktree_relative_root: &[u8],
    shared: &Shared<'_, M>,
    excludes: &mut Option<Stack>,
    worktree: &mut W,
    objects: &mut F,
) -> Result<RootOutcome, Error>
    requires normal { is_relative_without_dots worktree_relative_root.now ≡ true }
    requires spelled { worktree_relative_root.now
        ≡ slash_joined_components (components worktree_relative_root.now) }
    requires lookup { IsLookupOfIndexIfGiven shared.now.index.now
        shared.now.ignore_case_index_lookup.now }
    requires excludes { is_absent_or_has_excludes (setup_of_optional_stack excludes.old) ≡ true }
    ensures { ClassifiesWayToRoot W.Worktree F.Find worktree.old worktree.new objects.old
        objects.new excludes.old excludes.new (setting_of_shared M.Matcher shared.now)
        worktree_relative_root.now result }
{
    let mut path = PathText::from_bytes(alloc, b"")?;
    let mut class = classify_path_asking_kind_first(
        alloc, b"", shared, excludes, worktree, objects,
    )?;
    let in_repository = is_repository_kind(class.disk_kind);
    let mut rest = worktree_relative_root;
    while let Some(next) = next_component(rest) {
        if !way_continues_beneath(shared, path.as_bytes(), &class, in_repository) {
            return Ok(new_root_outcome(path, class, in_repository, false));
        }
        path.push_component(alloc, next.name)?;
        class = classify_path_asking_kind_first(
            alloc,
            path.as_bytes(),
            shared,
            excludes,
            worktree,
            objects,
        )?;
        rest = next.rest;
    }
    Ok(new_root_outcome(path, class, in_repository, true))
}

fn new_root_outcome(
    path: PathText,
    outcome: Outcome,
    in_repository: bool,
    whole: bool,
) -> RootOutcome
    ensures { reached_of_root_outcome result false ≡ end_of_way_with_rules_read path outcome
        in_repository whole }
{
    RootOutcome {
        outcome,
        path,
        worktree_root_is_repository: in_repository,
        whole,
    }
}

/// Whether the way goes on beneath a path; of the worktree root that is not asked.
fn way_continues_beneath<M>(
    shared: &Shared<'_, M>,
    path: &[u8],
    class: &Outcome,
    in_repository: bool,
) -> bool
    ensures { result ≡ way_continues_beneath (walk_options_of shared.now.options) path.now class.now
        in_repository }
{
    if path.is_empty() {
        return true;
    }
    recurses_by_default(&shared.options, class, in_repository)
}

/// Whether a walk looks into a path of this class by default.
#[tactic(auto, unfolding(crate::specs::Chosen::walk_options_of))]
fn recurses_by_default(options: &Options<'_>, class: &Outcome, in_repository: bool) -> bool
    ensures { result ≡ enters (walk_options_of options.now) class.now in_repository }
{
    class.status.can_recurse(
        class.disk_kind,
        class.pathspec_match,
        options.for_deletion,
        in_repository,
    )
}

/// The class of a path on the way: its kind is asked first.
fn classify_path_asking_kind_first<W: Worktree, F: Find, M: Matcher>(
    alloc: Global,
    rela_path: &[u8],
    shared: &Shared<'_, M>,
    excludes: &mut Option<Stack>,
    worktree: &mut W,
    objects: &mut F,
) -> Result<Outcome, Error>
    requires normal { is_relative_without_dots rela_path.now ≡ true }
    requires spelled { rela_path.now ≡ slash_joined_components (components rela_path.now) }
    requires lookup { IsLookupOfIndexIfGiven shared.now.index.now
        shared.now.ignore_case_index_lookup.now }
    requires excludes { is_absent_or_has_excludes (setup_of_optional_stack excludes.old) ≡ true }
    ensures { AnswersClassQuestion W.Worktree F.Find worktree.old worktree.new objects.old
        objects.new excludes.old excludes.new (setting_of_shared M.Matcher shared.now)
        (question_about_path_on_way (walk_options_of shared.now.options) rela_path.now) result }
{
    let full = join_worktree_root(alloc, shared.worktree_root, rela_path)?;
    let kind = steps::kind_on_disk_or_none(alloc, worktree, full.as_bytes())?;
    let all = shared.index.entries_beneath_directory(b"");
    let class = steps::classify_name_in_directory(
        alloc,
        full.as_bytes(),
        rela_path,
        rela_path,
        &all,
        kind,
        false,
        shared,
        excludes,
        worktree,
        objects,
    )?;
    Ok(class)
}
