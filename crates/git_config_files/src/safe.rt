//! Whose repository is read.
ghost use Rattle.std.specs.Prelude.{◌≡◌, Some, None, Ok, IfOk, IsTrue, option_copied};
ghost use Rattle.worktree_fs.specs.Owners.{OwnershipByPath};
ghost use Rattle.git_config_files.specs.Answers.{AgreesUnlessFaultOrOutOfMemory};
ghost use Rattle.git_config_files.specs.Finds.{AnswersFromWorktree, AnswersFromOwners, AnswersFromWorktreeAndOwners};
ghost use Rattle.git_config_files.specs.Safe as words;

use crate::conditions::optional_bytes_as_slice;
use crate::error::FilesError;
use crate::known::include_context_of_repository;
use crate::stack::{Stack, elsewhere_error, read_stack_of_files};
use crate::targets::path_of_config_value;
use crate::which::config_files_outside_repository;
use git_config_lite::File;
use git_places::{Surroundings, Top, dot_git_path};
use gitbase_core::{Bytes, OutOfMemory, PathText};
use std::alloc::Global;
use worktree_fs::{Owners, Worktree};

/// The owner of the node at a path, if one is there.
fn owner_of_path<O: Owners>(
    owners: &mut O,
    path: &[u8],
    follow: bool,
) -> Result<Option<u32>, FilesError>
    ensures { AnswersFromOwners O.Owners owners.old owners.new
        (λ owned. Ok (words.owner_of_path owned path.now follow)) result }
{
    match owners.ownership_at_path(path, follow)? {
        Some(found) => Ok(Some(found.owner)),
        None => Ok(None),
    }
}

/// The user.
fn owner_of_current_process<O: Owners>(owners: &mut O) -> Result<Option<u32>, FilesError>
    ensures { AnswersFromOwners O.Owners owners.old owners.new
        (λ owned. Ok (words.owner_of_current_process owned)) result }
{
    owner_of_path(owners, b"/proc/self", true)
}

/// Whether a number is the one that `SUDO_UID` names.
fn is_owner_named_by_sudo_uid(
    alloc: Global,
    sudo: Option<&[u8]>,
    owner: u32,
) -> Result<bool, OutOfMemory>
    ensures { IfOk result (λ is. is ≡ words.is_owner_named_by_sudo_uid (option_copied sudo.entry)
        owner) }
{
    let Some(text) = sudo else {
        return Ok(false);
    };
    let digits = format!(in alloc; "{owner}")?;
    Ok(text == digits.as_bytes())
}

/// Whether what a user owns counts as the own of another.
fn owner_counts_as_user(
    alloc: Global,
    user: u32,
    sudo: Option<&[u8]>,
    owner: u32,
) -> Result<bool, OutOfMemory>
    ensures { IfOk result (λ is. is ≡ words.owner_counts_as_user user (option_copied sudo.entry)
        owner) }
{
    if owner == user {
        return Ok(true);
    }
    if user == 0 {
        return is_owner_named_by_sudo_uid(alloc, sudo, owner);
    }
    Ok(false)
}

fn is_owned_by_user_if_known(
    alloc: Global,
    user: Option<u32>,
    sudo: Option<&[u8]>,
    owner: Option<u32>,
) -> Result<bool, OutOfMemory>
    ensures { IfOk result (λ is. is ≡ words.is_owned_by_user_if_known user
        (option_copied sudo.entry) owner) }
{
    match (user, owner) {
        (Some(user), Some(owner)) => owner_counts_as_user(alloc, user, sudo, owner),
        _ => Ok(false),
    }
}

/// Whether the node at a path is the user's.
fn is_path_owned_by_user<O: Owners>(
    alloc: Global,
    owners: &mut O,
    sudo: Option<&[u8]>,
    path: &[u8],
    follow: bool,
) -> Result<bool, FilesError>
    ensures { AnswersFromOwners O.Owners owners.old owners.new
        (λ owned. Ok (words.is_path_owned_by_user owned (option_copied sudo.entry) path.now follow))
        result }
{
    let user = owner_of_current_process(owners)?;
    let owner = owner_of_path(owners, path, follow)?;
    Ok(is_owned_by_user_if_known(alloc, user, sudo, owner)?)
}

/// Whether a work tree is the user's.
fn is_work_tree_owned_by_user<O: Owners>(
    alloc: Global,
    owners: &mut O,
    sudo: Option<&[u8]>,
    top: &Top,
) -> Result<bool, FilesError>
    ensures { AnswersFromOwners O.Owners owners.old owners.new
        (λ owned. Ok (words.is_work_tree_owned_by_user owned (option_copied sudo.entry) top.now))
        result }
{
    let beside = dot_git_path(alloc, top.directory.as_bytes())?;
    if !is_path_owned_by_user(alloc, owners, sudo, beside.as_bytes(), false)? {
        return Ok(false);
    }
    if !is_path_owned_by_user(alloc, owners, sudo, top.directory.as_bytes(), false)? {
        return Ok(false);
    }
    if top.git.as_bytes() == beside.as_bytes() {
        return Ok(true);
    }
    is_path_owned_by_user(alloc, owners, sudo, top.git.as_bytes(), true)
}

/// Whether a directory is safe after one more value of `safe.directory`.
fn is_safe_after_value(
    alloc: Global,
    home: &Option<Bytes>,
    path: &[u8],
    safe: bool,
    text: &[u8],
) -> Result<bool, FilesError>
    ensures { AgreesUnlessFaultOrOutOfMemory result (words.is_safe_after_value home.now path.now
        safe text.now) }
{
    if text.is_empty() {
        return Ok(false);
    }
    if text == b"*".as_slice() {
        return Ok(true);
    }
    let named = path_of_config_value(
        alloc,
        None,
        b"safe.directory",
        optional_bytes_as_slice(home),
        text,
    )?;
    Ok(safe | (named.as_bytes() == path))
}

/// Whether a directory is safe by what configurations say.
fn is_safe_by_configuration(
    alloc: Global,
    home: &Option<Bytes>,
    path: &[u8],
    config: &File,
) -> Result<bool, FilesError>
    ensures { AgreesUnlessFaultOrOutOfMemory result (words.is_safe_by_configuration home.now
        path.now config.now.sections) }
{
    let mut safe = false;
    for text in config.strings(b"safe", None, b"directory") {
        safe = is_safe_after_value(alloc, home, path, safe, text)?;
    }
    Ok(safe)
}

/// What the configurations say that no repository has.
fn read_stack_outside_repository<W: Worktree>(
    alloc: Global,
    worktree: &mut W,
    around: &Surroundings,
) -> Result<Stack, FilesError>
    ensures { AnswersFromWorktree W.Worktree worktree.old worktree.new
        (λ t. words.read_stack_outside_repository t around.now) result }
{
    let files = config_files_outside_repository(alloc, around)?;
    let directory = around.directory.as_bytes();
    let known = include_context_of_repository(alloc, worktree, None, directory, &around.home)?;
    read_stack_of_files(alloc, worktree, &known, &files)
}

/// Whether these say that a directory is safe.
fn is_safe_by_outer_configurations<W: Worktree>(
    alloc: Global,
    worktree: &mut W,
    around: &Surroundings,
    path: &[u8],
) -> Result<bool, FilesError>
    ensures { AnswersFromWorktree W.Worktree worktree.old worktree.new
        (λ t. words.is_safe_by_outer_configurations t around.now path.now) result }
{
    let stack = read_stack_outside_repository(alloc, worktree, around)?;
    is_safe_by_configuration(alloc, &around.home, path, &stack.file)
}

/// A work tree that is safe.
fn require_safe_top<W: Worktree>(
    alloc: Global,
    worktree: &mut W,
    around: &Surroundings,
    top: Top,
) -> Result<Top, FilesError>
    ensures { AnswersFromWorktree W.Worktree worktree.old worktree.new
        (λ t. words.require_safe_top t around.now top) result }
{
    if is_safe_by_outer_configurations(alloc, worktree, around, top.directory.as_bytes())? {
        return Ok(top);
    }
    Err(FilesError::Foreign {
        path: PathText::from_bytes(alloc, top.directory.as_bytes())?,
    })
}

/// A work tree that is the user's, or safe.
fn require_owned_or_safe_top<W: Worktree, O: Owners>(
    alloc: Global,
    worktree: &mut W,
    owners: &mut O,
    around: &Surroundings,
    top: Top,
) -> Result<Top, FilesError>
    ensures finds { AnswersFromWorktreeAndOwners W.Worktree O.Owners worktree.old worktree.new
        owners.old owners.new (λ t owned. words.require_owned_or_safe_top t owned around.now top)
        result }
    ensures unread { (owned : OwnershipByPath) → O.told owners.old ≡ Some owned
        → IsTrue (words.is_work_tree_owned_by_user owned around.now.sudo_user top)
        → W.reads worktree.new ≡ W.reads worktree.old }
{
    if is_work_tree_owned_by_user(
        alloc,
        owners,
        optional_bytes_as_slice(&around.sudo_user),
        &top,
    )? {
        return Ok(top);
    }
    require_safe_top(alloc, worktree, around, top)
}

/// The work tree `top`, which [`find_work_tree_top`](git_places::find_work_tree_top) answers, where
/// it may be read: what stands at its `.git`, its directory, and the git directory that a file
/// `.git` names belong to the user, or `safe.directory` names its directory. The user is the owner
/// of `/proc/self`; for root what belongs to `SUDO_UID` is its own too.
///
/// `safe.directory` counts in the configurations of the system and of the user alone, with what
/// they include; no condition of an include on a repository holds there. A `*` names each
/// directory, an empty value takes all back that stand before it. No file is read where the
/// repository is the user's.
///
/// # Errors
///
/// - `Foreign`: the repository is another user's, and no `safe.directory` names its directory.
/// - `Elsewhere`: a variable of the environment points git elsewhere.
/// - `Value`: `GIT_CONFIG_NOSYSTEM` is no boolean, or a `safe.directory` or the path of an include
///   has a NUL.
/// - `UserDir`: a `safe.directory` begins with a home that is not known.
/// - `Config`, `NoFile`, `Include`, `Home`, `Condition`, `Depth`: those of
///   [`read_stack`](crate::read_stack) in these configurations.
/// - `Fault`: the worktree failed, or the owners, which counted it.
/// - `OutOfMemory` for want of memory.
///
/// See docs/DIFFERENCES.md#repository-owner.
pub fn require_trusted_top<W: Worktree, O: Owners>(
    alloc: Global,
    worktree: &mut W,
    owners: &mut O,
    around: &Surroundings,
    top: Top,
) -> Result<Top, FilesError>
    ensures finds { AnswersFromWorktreeAndOwners W.Worktree O.Owners worktree.old worktree.new
        owners.old owners.new (λ t owned. words.require_trusted_top t owned around.now top) result }
    ensures unread { (owned : OwnershipByPath) → O.told owners.old ≡ Some owned
        → IsTrue (words.is_work_tree_owned_by_user owned around.now.sudo_user top)
        → W.reads worktree.new ≡ W.reads worktree.old }
{
    if let Some(name) = &around.elsewhere {
        return Err(elsewhere_error(alloc, name.as_bytes())?);
    }
    require_owned_or_safe_top(alloc, worktree, owners, around, top)
}
