//! Where the search for a work tree ends on its way up.
ghost use Rattle.std.specs.Prelude.{◌≡◌, Some, None, Ok, IfOk, option_copied};
ghost use Rattle.git_places.specs.Answers.{AnswersUnlessOutOfMemory};
ghost use Rattle.git_places.specs.Finds.{FindsInTree, FindsInOwners, FindsInTreeAndOwners};
ghost use Rattle.git_places.specs.Limits as words;

use crate::ceilings::{Ceilings, parse_ceiling_directories};
use crate::error::PlacesError;
use crate::surroundings::Surroundings;
use crate::truths::boolean_of_variable_or_false;
use gitbase_core::{Bytes, OutOfMemory, PathText};
use std::alloc::Global;
use std::marker::Model;
use worktree_fs::{Owners, Worktree};

/// Where the search for a work tree ends on its way up. Contracts see a record of both.
#[derive(Debug, Drop)]
pub struct Limits {
    /// The search goes up into none of these directories.
    pub ceilings: Ceilings,
    /// The file system that the search does not leave; none where it may leave any.
    pub device: Option<u64>,
}

impl Model for Limits {
    ghost use Rattle.git_places.specs.Limits as words;

    ghost Value = { words.SearchLimits };

    ghost view = { λ limits. words.search_limits limits.ceilings limits.device };
}

/// A path without a slash in front, as the absolute path that it is.
pub fn path_with_leading_slash(alloc: Global, path: &[u8]) -> Result<PathText, OutOfMemory>
    ensures { IfOk result (λ made. made ≡ words.path_with_leading_slash path.now) }
{
    let mut made = PathText::from_bytes(alloc, b"/".as_slice())?;
    made.push_component(alloc, path)?;
    Ok(made)
}

/// Whether a path is one of the ceilings.
fn is_ceiling(ceilings: &[Bytes], path: &[u8]) -> bool
    ensures { result ≡ words.is_ceiling ceilings.now path.now }
{
    ceilings.iter().any(|ceiling| ceiling.as_bytes() == path)
}

/// The file system of the directory that a path leads to, if one is there.
fn device_at_path<O: Owners>(owners: &mut O, path: &[u8]) -> Result<Option<u64>, PlacesError>
    ensures { FindsInOwners O.Owners owners.old owners.new
        (λ owned. Ok (words.device_at_path owned path.now)) result }
{
    match owners.ownership_at_path(path, true)? {
        Some(found) => Ok(Some(found.device)),
        None => Ok(None),
    }
}

/// Whether a directory lies on a file system.
fn is_on_device<O: Owners>(owners: &mut O, device: u64, path: &[u8]) -> Result<bool, PlacesError>
    ensures { FindsInOwners O.Owners owners.old owners.new
        (λ owned. Ok (words.is_same_device device (words.device_at_path owned path.now))) result }
{
    match device_at_path(owners, path)? {
        Some(found) => Ok(found == device),
        None => Ok(false),
    }
}

/// Whether a directory lies on the file system that is not left; else it is refused.
fn require_same_device<O: Owners>(
    alloc: Global,
    owners: &mut O,
    path: &[u8],
    device: Option<u64>,
) -> Result<bool, PlacesError>
    ensures { FindsInOwners O.Owners owners.old owners.new (λ owned. words.true_unless_error
        (words.border_error_if_other_device owned path.now device)) result }
{
    let Some(device) = device else {
        return Ok(true);
    };
    if is_on_device(owners, device, path)? {
        return Ok(true);
    }
    Err(PlacesError::Border {
        path: PathText::from_bytes(alloc, path)?,
    })
}

/// Whether the search goes up into a directory; where it does not that is refused.
pub fn require_search_may_enter<O: Owners>(
    alloc: Global,
    owners: &mut O,
    limits: &Limits,
    path: &[u8],
) -> Result<bool, PlacesError>
    ensures { FindsInOwners O.Owners owners.old owners.new (λ owned. words.true_unless_error
        (words.error_where_search_stops owned limits.now path.now)) result }
{
    if is_ceiling(limits.ceilings.as_slice(), path) {
        return Err(PlacesError::NoRepository);
    }
    let path = path_with_leading_slash(alloc, path)?;
    require_same_device(alloc, owners, path.as_bytes(), limits.device)
}

/// The refusal of a directory that is not there.
fn no_directory_error(alloc: Global, path: &[u8]) -> Result<PlacesError, OutOfMemory>
    ensures { IfOk result (λ e. e ≡ PlacesError.NoDirectory path.now) }
{
    Ok(PlacesError::NoDirectory {
        path: PathText::from_bytes(alloc, path)?,
    })
}

/// The file system that a search from a directory does not leave.
fn device_limit_of_directory<O: Owners>(
    alloc: Global,
    owners: &mut O,
    path: &[u8],
    across: bool,
) -> Result<Option<u64>, PlacesError>
    ensures { FindsInOwners O.Owners owners.old owners.new
        (λ owned. words.device_limit_of_directory owned path.now across) result }
{
    if across {
        return Ok(None);
    }
    match device_at_path(owners, path)? {
        Some(device) => Ok(Some(device)),
        None => Err(no_directory_error(alloc, path)?),
    }
}

/// The file system that is not left, unless a variable says that it may be.
fn device_limit_of_surroundings<O: Owners>(
    alloc: Global,
    owners: &mut O,
    around: &Surroundings,
) -> Result<Option<u64>, PlacesError>
    ensures { FindsInOwners O.Owners owners.old owners.new
        (λ owned. words.device_limit_of_surroundings owned around.now) result }
{
    let across = boolean_of_variable_or_false(
        alloc,
        b"GIT_DISCOVERY_ACROSS_FILESYSTEM",
        &around.across,
    )?;
    device_limit_of_directory(alloc, owners, around.directory.as_bytes(), across)
}

/// The ceilings that a variable names, if it is set.
fn ceilings_of_variable<W: Worktree>(
    alloc: Global,
    worktree: &mut W,
    text: &Option<Bytes>,
) -> Result<Ceilings, PlacesError>
    ensures { FindsInTree W.Worktree worktree.old worktree.new
        (λ t. Ok (words.ceilings_of_variable t text.now)) result }
{
    match text {
        Some(text) => parse_ceiling_directories(alloc, worktree, text.as_bytes()),
        None => Ok(Ceilings::new(alloc)),
    }
}

/// Where the search for a work tree from the current directory upward ends, as git(1) has it: it
/// goes up into no directory that `GIT_CEILING_DIRECTORIES` names, and into none on another file
/// system than the current directory, unless `GIT_DISCOVERY_ACROSS_FILESYSTEM` is true.
///
/// # Errors
///
/// - `Value`: `GIT_DISCOVERY_ACROSS_FILESYSTEM` is no boolean.
/// - `NoDirectory`: nothing is at the current directory.
/// - `Fault`: the worktree failed, or the owners, which counted it.
/// - `OutOfMemory` for want of memory.
pub fn search_limits_of_surroundings<W: Worktree, O: Owners>(
    alloc: Global,
    worktree: &mut W,
    owners: &mut O,
    around: &Surroundings,
) -> Result<Limits, PlacesError>
    ensures { FindsInTreeAndOwners W.Worktree O.Owners worktree.old worktree.new owners.old
        owners.new (λ t owned. words.search_limits_of_surroundings t owned around.now) result }
{
    let device = device_limit_of_surroundings(alloc, owners, around)?;
    let ceilings = ceilings_of_variable(alloc, worktree, &around.ceilings)?;
    Ok(Limits { ceilings, device })
}
