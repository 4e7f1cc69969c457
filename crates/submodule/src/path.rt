//! The path of a submodule.
ghost use Rattle.std.specs.Prelude.{◌≡◌, option_copied, is_some, IfOk};
ghost use Rattle.gitbase_core.specs.Path.{normalized};
ghost use Rattle.submodule.specs.Access as access;
ghost use Rattle.submodule.specs.Answers as answers;
ghost use Rattle.submodule.specs.declared.path.Error.TheVariants as errors;

use crate::shown::lossy_text_of_bytes;
use gitbase_core::{Bytes, OutOfMemory, PathText, is_absolute};
use std::alloc::Global;

/// Why a submodule has no path.
#[derive(Debug, Drop, PartialEq, Eq, thiserror::Error)]
pub enum Error {
    /// Its path is not set, or empty.
    #[error("The submodule '{}' was missing its 'path' field or it was empty", lossy_text_of_bytes(.submodule))]
    Missing {
        /// The name of the submodule.
        submodule: Bytes,
    },
    /// Its path begins with a slash.
    #[error("The path '{}' of submodule '{}' needs to be relative", lossy_text_of_bytes(.actual), lossy_text_of_bytes(.submodule))]
    Absolute {
        /// The name of the submodule.
        submodule: Bytes,
        /// The value.
        actual: Bytes,
    },
    /// Its path leads out of the work tree.
    #[error("The path '{}' would lead outside of the repository worktree", lossy_text_of_bytes(.actual))]
    OutsideOfWorktree {
        /// The name of the submodule.
        submodule: Bytes,
        /// The value.
        actual: Bytes,
    },
    /// Want of memory.
    #[error("OutOfMemory")]
    OutOfMemory,
}

impl From<OutOfMemory> for Error {
    ghost use Rattle.std.specs.Prelude.{◌≡◌};
    ghost use Rattle.submodule.specs.declared.path.Error.TheVariants as errors;

    ghost from_gives = { λ _ e. e ≡ errors.OutOfMemory };

    fn from(_refused: OutOfMemory) -> Error {
        Error::OutOfMemory
    }
}

fn missing_path_error(alloc: Global, name: &[u8]) -> Result<Error, OutOfMemory>
    ensures { IfOk result (λ e. e ≡ errors.Missing name.now) }
{
    Ok(Error::Missing {
        submodule: Bytes::from_slice(alloc, name)?,
    })
}

fn absolute_path_error(alloc: Global, name: &[u8], path: &[u8]) -> Result<Error, OutOfMemory>
    ensures { IfOk result (λ e. e ≡ errors.Absolute name.now path.now) }
{
    Ok(Error::Absolute {
        submodule: Bytes::from_slice(alloc, name)?,
        actual: Bytes::from_slice(alloc, path)?,
    })
}

fn outside_of_worktree_error(alloc: Global, name: &[u8], path: &[u8]) -> Result<Error, OutOfMemory>
    ensures { IfOk result (λ e. e ≡ errors.OutsideOfWorktree name.now path.now) }
{
    Ok(Error::OutsideOfWorktree {
        submodule: Bytes::from_slice(alloc, name)?,
        actual: Bytes::from_slice(alloc, path)?,
    })
}

/// Whether a path leads to a place inside the work tree.
fn is_inside_worktree(alloc: Global, path: &[u8]) -> Result<bool, OutOfMemory>
    ensures { IfOk result (λ inside. inside ≡ is_some (normalized path.now)) }
{
    let path = PathText::from_bytes(alloc, path)?;
    Ok(path.normalize(alloc)?.is_some())
}

/// Whether a path may be that of a submodule: it is not empty, not absolute, and leads to a place
/// inside the work tree. See docs/DIFFERENCES.md#module-bad-path.
pub(crate) fn is_valid_submodule_path(alloc: Global, path: &[u8]) -> Result<bool, OutOfMemory>
    ensures { IfOk result (λ is. is ≡ access.is_valid_submodule_path path.now) }
{
    if path.is_empty() {
        return Ok(false);
    }
    if is_absolute(path) {
        return Ok(false);
    }
    is_inside_worktree(alloc, path)
}

/// Whether a value is this path, and one that may be given.
pub(crate) fn is_value_this_valid_path(
    alloc: Global,
    path: &[u8],
    value: Option<&[u8]>,
) -> Result<bool, OutOfMemory>
    ensures { IfOk result (λ has. has ≡ access.is_value_this_valid_path path.now
        (option_copied value.entry)) }
{
    let Some(value) = value else {
        return Ok(false);
    };
    if value != path {
        return Ok(false);
    }
    is_valid_submodule_path(alloc, value)
}

/// The path that a value says.
fn validate_path_value<'a>(alloc: Global, name: &[u8], value: &'a [u8]) -> Result<&'a [u8], Error>
    ensures { answers.PathResultAgrees result (access.path_of_optional_value name.now
        (Some value.now)) }
{
    if value.is_empty() {
        return Err(missing_path_error(alloc, name)?);
    }
    if is_absolute(value) {
        return Err(absolute_path_error(alloc, name, value)?);
    }
    if is_inside_worktree(alloc, value)? {
        Ok(value)
    } else {
        Err(outside_of_worktree_error(alloc, name, value)?)
    }
}

/// The path that a value says, if there is one.
pub(crate) fn path_of_optional_value<'a>(
    alloc: Global,
    name: &[u8],
    value: Option<&'a [u8]>,
) -> Result<&'a [u8], Error>
    ensures { answers.PathResultAgrees result (access.path_of_optional_value name.now
        (option_copied value.entry)) }
{
    match value {
        Some(value) => validate_path_value(alloc, name, value),
        None => Err(missing_path_error(alloc, name)?),
    }
}
