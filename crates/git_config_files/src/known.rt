//! By what includes are judged.
ghost use Rattle.std.specs.Prelude.{◌≡◌, ◌∷◌, [], Ok, IfOk, option_copied, option_map};
ghost use Rattle.worktree_fs.specs.Tree.{look};
ghost use Rattle.git_config_files.specs.Finds.{AnswersFromWorktree};
ghost use Rattle.git_config_files.specs.Stack as words;

use crate::conditions::{optional_bytes_as_slice, text_after_prefix};
use crate::error::FilesError;
use git_places::{Places, Surroundings};
use gitbase_core::{Bytes, OutOfMemory, PathText};
use std::alloc::Global;
use std::marker::Model;
use worktree_fs::{
    Worktree, read_file_if_present, resolve_path_from_directory, without_trailing_line_ends,
};

/// A repository by which conditions are judged. Contracts see a record of these.
#[derive(Debug, Drop)]
pub struct Repository {
    /// The git directory, without links.
    pub git: PathText,
    /// The git directory as it is spelled, absolute.
    pub spelled: PathText,
    /// The branch that is checked out, without `refs/heads/`, if there is one.
    pub branch: Option<Bytes>,
}

impl Model for Repository {
    ghost use Rattle.git_config_files.specs.Conditions as words;

    ghost Value = { words.Repository };

    ghost view = { λ here. record { git = here.git; spelled = here.spelled; branch = here.branch } };
}

/// By what the conditions of includes are judged, and what stands for a `~`. Contracts see a record
/// of these.
#[derive(Debug, Drop)]
pub struct Known {
    /// The repository, where one is known.
    pub repository: Option<Repository>,
    /// The home, as `HOME` has it, if it is set.
    pub home: Option<Bytes>,
    /// The home without links, or as it is where nothing is there or it is empty.
    pub real_home: Option<Bytes>,
}

impl Model for Known {
    ghost use Rattle.git_config_files.specs.Conditions as words;

    ghost Value = { words.IncludeContext };

    ghost view = { λ known. record { repository = known.repository; home = known.home; real_home = known.real_home } };
}

/// A path without its links, or as it is where nothing is there.
fn real_path_or_same<W: Worktree>(
    alloc: Global,
    worktree: &mut W,
    path: &[u8],
    directory: &[u8],
) -> Result<PathText, FilesError>
    ensures { AnswersFromWorktree W.Worktree worktree.old worktree.new
        (λ t. Ok (words.real_path_or_same t path.now directory.now)) result }
{
    match worktree.real_path(alloc, path, directory)? {
        Some(real) => Ok(real),
        None => Ok(PathText::from_bytes(alloc, path)?),
    }
}

/// The branch that the text of a `HEAD` names, if it names one.
fn branch_named_by_head_text(text: &[u8]) -> Option<&[u8]>
    ensures { option_copied result ≡ words.branch_named_by_head_text (Some text.now) }
{
    match text_after_prefix(
        without_trailing_line_ends(text),
        b"ref: refs/heads/".as_slice(),
    ) {
        Some([]) => None,
        name => name,
    }
}

/// A copy of a text, if there is one.
fn copy_optional_text(alloc: Global, text: Option<&[u8]>) -> Result<Option<Bytes>, OutOfMemory>
    ensures { IfOk result (λ copy. copy ≡ option_copied text.entry) }
{
    match text {
        Some(text) => Ok(Some(Bytes::from_slice(alloc, text)?)),
        None => Ok(None),
    }
}

/// The branch that is checked out, if there is one.
fn checked_out_branch<W: Worktree>(
    alloc: Global,
    worktree: &mut W,
    git: &[u8],
) -> Result<Option<Bytes>, FilesError>
    ensures { AnswersFromWorktree W.Worktree worktree.old worktree.new
        (λ t. Ok (words.checked_out_branch t git.now)) result }
{
    let path = resolve_path_from_directory(alloc, b"HEAD", git)?;
    let mut text = Bytes::new(alloc);
    if !read_file_if_present(alloc, worktree, path.as_bytes(), &mut text)? {
        return Ok(None);
    }
    Ok(copy_optional_text(alloc, branch_named_by_head_text(text.as_bytes()))?)
}

/// The git directory as git spells it.
fn dot_git_of_worktree_or_real_git_directory(
    alloc: Global,
    root: &[u8],
    git: &[u8],
    real: &[u8],
) -> Result<PathText, OutOfMemory>
    ensures { IfOk result (λ path. path ≡ words.dot_git_of_worktree_or_real_git_directory
        root.now git.now real.now) }
{
    let mut beside = PathText::from_bytes(alloc, root)?;
    beside.push_component(alloc, b".git".as_slice())?;
    if git == beside.as_bytes() {
        return Ok(beside);
    }
    PathText::from_bytes(alloc, real)
}

/// The home without its links, if there is one.
fn home_without_links<W: Worktree>(
    alloc: Global,
    worktree: &mut W,
    root: &[u8],
    home: Option<&[u8]>,
) -> Result<Option<Bytes>, FilesError>
    ensures { AnswersFromWorktree W.Worktree worktree.old worktree.new
        (λ t. Ok (words.home_without_links t root.now (option_copied home.entry))) result }
{
    let Some(home) = home else {
        return Ok(None);
    };
    if home.is_empty() {
        return Ok(Some(Bytes::new(alloc)));
    }
    let real = real_path_or_same(alloc, worktree, home, root)?;
    Ok(Some(Bytes::from_slice(alloc, real.as_bytes())?))
}

/// The repository of a work tree, as conditions see it.
fn repository_for_conditions<W: Worktree>(
    alloc: Global,
    worktree: &mut W,
    places: &Places,
) -> Result<Repository, FilesError>
    ensures { AnswersFromWorktree W.Worktree worktree.old worktree.new
        (λ t. Ok (words.repository_for_conditions t places.now)) result }
{
    let git_dir = places.git_dir.as_bytes();
    let git = real_path_or_same(alloc, worktree, git_dir, b"/")?;
    let branch = checked_out_branch(alloc, worktree, git_dir)?;
    let spelled = dot_git_of_worktree_or_real_git_directory(
        alloc,
        places.root.as_bytes(),
        git_dir,
        git.as_bytes(),
    )?;
    Ok(Repository {
        git,
        spelled,
        branch,
    })
}

/// By what includes are judged; a relative home is taken from `directory`.
pub fn include_context_of_repository<W: Worktree>(
    alloc: Global,
    worktree: &mut W,
    repository: Option<Repository>,
    directory: &[u8],
    home: &Option<Bytes>,
) -> Result<Known, FilesError>
    ensures { AnswersFromWorktree W.Worktree worktree.old worktree.new
        (λ t. Ok (words.include_context_of_repository t repository directory.now home.now)) result }
{
    let real_home = home_without_links(alloc, worktree, directory, optional_bytes_as_slice(home))?;
    let home = copy_optional_text(alloc, optional_bytes_as_slice(home))?;
    Ok(Known {
        repository,
        home,
        real_home,
    })
}

/// By what the includes of a work tree are judged.
pub fn include_context_of_work_tree<W: Worktree>(
    alloc: Global,
    worktree: &mut W,
    places: &Places,
    around: &Surroundings,
) -> Result<Known, FilesError>
    ensures { AnswersFromWorktree W.Worktree worktree.old worktree.new
        (λ t. Ok (words.include_context_of_work_tree t places.now around.now)) result }
{
    let repository = repository_for_conditions(alloc, worktree, places)?;
    include_context_of_repository(
        alloc,
        worktree,
        Some(repository),
        places.root.as_bytes(),
        &around.home,
    )
}
