//! Why no work tree is found, or why its repository is not read.
ghost use Rattle.std.specs.Prelude.{◌≡◌, IfOk};
ghost use Rattle.tizhagor.specs.PlacesLines as words;

use crate::lines::{
    FAULT, MEMORY, bad_config_line, bad_config_value_line, copy_fixed_line,
    optional_in_file_ending, text_with_escaped_path, text_with_optional_file,
};
use git_places::PlacesError;
use gitbase_core::{Bytes, OutOfMemory, PathText};
use std::alloc::Global;

/// The line of a search that ended at the border of a file system.
fn filesystem_boundary_line(alloc: Global, path: &[u8]) -> Result<Bytes, OutOfMemory>
    ensures { IfOk result (λ line. line ≡ words.line_of_places_error
        (PlacesError.Border path.now)) }
{
    text_with_escaped_path(
        alloc,
        b"fatal: not a git repository (or any parent up to mount point ",
        path,
        b"); stopping at filesystem boundary (GIT_DISCOVERY_ACROSS_FILESYSTEM not set)\n",
    )
}

/// The line of a file `.git` outside its format.
fn invalid_gitfile_format_line(alloc: Global, path: &[u8]) -> Result<Bytes, OutOfMemory>
    ensures { IfOk result (λ line. line ≡ words.line_of_places_error (PlacesError.GitFileForm
        path.now)) }
{
    text_with_escaped_path(alloc, b"fatal: invalid gitfile format: ", path, b"\n")
}

/// The line of a file `.git` that names no git directory.
fn gitfile_without_repository_line(alloc: Global, path: &[u8]) -> Result<Bytes, OutOfMemory>
    ensures { IfOk result (λ line. line ≡ words.line_of_places_error (PlacesError.GitFileTarget
        path.now)) }
{
    text_with_escaped_path(alloc, b"fatal: not a git repository: ", path, b"\n")
}

/// The line of a `HEAD` that git may read in another way.
fn ambiguous_head_line(alloc: Global, path: &[u8]) -> Result<Bytes, OutOfMemory>
    ensures { IfOk result (λ line. line ≡ words.line_of_places_error
        (PlacesError.OddHead path.now)) }
{
    text_with_escaped_path(
        alloc,
        b"fatal: '",
        path,
        b"' may be another HEAD to git; make it a file of one line, 'ref: refs/heads/BRANCH' or an id\n",
    )
}

/// The line of a `commondir` that names no directory.
fn invalid_commondir_line(alloc: Global, path: &[u8]) -> Result<Bytes, OutOfMemory>
    ensures { IfOk result (λ line. line ≡ words.line_of_places_error
        (PlacesError.CommonDir path.now)) }
{
    text_with_escaped_path(alloc, b"fatal: '", path, b"' names no directory\n")
}

/// The line of a repository format that is not read.
fn repository_version_line(
    alloc: Global,
    path: &Option<PathText>,
    value: &[u8],
) -> Result<Bytes, OutOfMemory>
    ensures { IfOk result
        (λ line. line ≡ words.line_of_places_error (PlacesError.Version path.now value.now)) }
{
    text_with_optional_file(
        alloc,
        b"fatal: Expected git repo version <= 1, found ",
        value,
        b"",
        path,
    )
}

/// The line of an extension of the repository that is not known.
fn unknown_extension_line(
    alloc: Global,
    path: &Option<PathText>,
    key: &[u8],
) -> Result<Bytes, OutOfMemory>
    ensures { IfOk result
        (λ line. line ≡ words.line_of_places_error (PlacesError.Extension path.now key.now)) }
{
    text_with_optional_file(
        alloc,
        b"fatal: unknown repository extension found: ",
        key,
        b"",
        path,
    )
}

/// The line of a repository whose ids are of SHA-256.
fn unsupported_sha256_line(alloc: Global, path: &Option<PathText>) -> Result<Bytes, OutOfMemory>
    ensures { IfOk result (λ line. line ≡ words.line_of_places_error
        (PlacesError.Sha256 path.now)) }
{
    let mut line = copy_fixed_line(
        alloc,
        b"fatal: a repository with ids of SHA-256 is not read",
    )?;
    let end = optional_in_file_ending(alloc, path)?;
    line.extend(alloc, end.as_bytes())?;
    Ok(line)
}

/// The line of a directory that is named and is not there.
fn missing_directory_line(alloc: Global, path: &[u8]) -> Result<Bytes, OutOfMemory>
    ensures { IfOk result
        (λ line. line ≡ words.line_of_places_error (PlacesError.NoDirectory path.now)) }
{
    text_with_escaped_path(
        alloc,
        b"fatal: failed to stat '",
        path,
        b"': No such file or directory\n",
    )
}

/// The line of a work tree that is not found, or of a repository that is not read.
pub fn line_of_places_error(alloc: Global, error: &PlacesError) -> Result<Bytes, OutOfMemory>
    ensures { IfOk result (λ line. line ≡ words.line_of_places_error error.now) }
{
    match error {
        PlacesError::NoRepository => copy_fixed_line(
            alloc,
            b"fatal: not a git repository (or any of the parent directories): .git\n",
        ),
        PlacesError::Border { path } => filesystem_boundary_line(alloc, path.as_bytes()),
        PlacesError::NoDirectory { path } => missing_directory_line(alloc, path.as_bytes()),
        PlacesError::Bare { path: _ } => copy_fixed_line(
            alloc,
            b"fatal: this operation must be run in a work tree\n",
        ),
        PlacesError::GitFileForm { path } => invalid_gitfile_format_line(alloc, path.as_bytes()),
        PlacesError::GitFileTarget { path } => gitfile_without_repository_line(
            alloc,
            path.as_bytes(),
        ),
        PlacesError::OddHead { path } => ambiguous_head_line(alloc, path.as_bytes()),
        PlacesError::CommonDir { path } => invalid_commondir_line(alloc, path.as_bytes()),
        PlacesError::Version { path, value } => repository_version_line(
            alloc,
            path,
            value.as_bytes(),
        ),
        PlacesError::Extension { path, key } => unknown_extension_line(alloc, path, key.as_bytes()),
        PlacesError::Sha256 { path } => unsupported_sha256_line(alloc, path),
        PlacesError::Value { path, key } => bad_config_value_line(alloc, path, key.as_bytes()),
        PlacesError::Config { path, line } => bad_config_line(alloc, path.as_bytes(), *line),
        PlacesError::NoWorkTree { path } => text_with_escaped_path(
            alloc,
            b"fatal: core.worktree names no directory: '",
            path.as_bytes(),
            b"'\n",
        ),
        PlacesError::Fault => copy_fixed_line(alloc, FAULT),
        PlacesError::OutOfMemory => copy_fixed_line(alloc, MEMORY),
    }
}
