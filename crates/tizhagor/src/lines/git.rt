//! Why no setup is found.
ghost use Rattle.std.specs.Prelude.{◌≡◌, IfOk};
ghost use Rattle.tizhagor.specs.Refusals as words;

use crate::lines::files::line_of_files_error;
use crate::lines::index::{index_entry_error_reason, index_file_error_reason};
use crate::lines::places::line_of_places_error;
use crate::lines::{
    FAULT, MEMORY, bad_config_value_line, copy_fixed_line, dubious_ownership_line,
    text_with_escaped_path, variable_not_heeded_line,
};
use git_index::IndexFileError;
use git_setup::GitRefusal;
use gitbase_core::{Bytes, IndexError, OutOfMemory};
use std::alloc::Global;

/// The line of what stands in the place of the index and is no file.
fn index_is_no_file_line(alloc: Global, path: &[u8]) -> Result<Bytes, OutOfMemory>
    ensures { IfOk result (λ line. line
        ≡ words.line_of_git_refusal (GitRefusal.IndexNode path.now)) }
{
    text_with_escaped_path(alloc, b"fatal: '", path, b"' is no file\n")
}

/// The line of a path spec that git refuses.
fn bad_pathspec_line(alloc: Global, text: &[u8]) -> Result<Bytes, OutOfMemory>
    ensures { IfOk result (λ line. line
        ≡ words.line_of_git_refusal (GitRefusal.PathSpec text.now)) }
{
    text_with_escaped_path(alloc, b"fatal: bad pathspec '", text, b"'\n")
}

/// The line of a path that leads out of the work tree.
fn path_outside_repository_line(alloc: Global, text: &[u8]) -> Result<Bytes, OutOfMemory>
    ensures { IfOk result
        (λ line. line ≡ words.line_of_git_refusal (GitRefusal.OutsidePath text.now)) }
{
    text_with_escaped_path(alloc, b"fatal: '", text, b"' is outside repository\n")
}

/// The line of an index file outside its grammar.
fn index_file_error_line(
    alloc: Global,
    path: &[u8],
    error: &IndexFileError,
) -> Result<Bytes, OutOfMemory>
    ensures { IfOk result (λ line. line ≡ words.line_of_git_refusal (GitRefusal.IndexFile path.now
        error.now)) }
{
    let reason = index_file_error_reason(alloc, error)?;
    text_with_escaped_path(alloc, b"fatal: ", path, reason.as_bytes())
}

/// The line of an entry that breaks a rule.
fn index_entry_error_line(
    alloc: Global,
    path: &[u8],
    error: &IndexError,
) -> Result<Bytes, OutOfMemory>
    ensures { IfOk result (λ line. line ≡ words.line_of_git_refusal (GitRefusal.IndexEntry path.now
        error.now)) }
{
    let reason = index_entry_error_reason(alloc, error)?;
    text_with_escaped_path(alloc, b"fatal: ", path, reason.as_bytes())
}

/// The line of a directory that the index leaves out as sparse, and in which something is.
fn present_sparse_directory_line(alloc: Global, path: &[u8]) -> Result<Bytes, OutOfMemory>
    ensures { IfOk result (λ line. line ≡ words.line_of_git_refusal (GitRefusal.SparseDirectory
        path.now)) }
{
    text_with_escaped_path(
        alloc,
        b"fatal: the index leaves out directory '",
        path,
        b"', and something is there; undo it with 'git sparse-checkout reapply --no-sparse-index'\n",
    )
}

/// The line of a submodule where names compare without regard to case.
fn submodule_ignoring_case_line(alloc: Global, path: &[u8]) -> Result<Bytes, OutOfMemory>
    ensures { IfOk result (λ line. line ≡ words.line_of_git_refusal (GitRefusal.SubmoduleCase
        path.now)) }
{
    text_with_escaped_path(
        alloc,
        b"fatal: nothing to remove is named with core.ignoreCase and a submodule; ask git: '",
        path,
        b"'\n",
    )
}

/// The line of a directory outside the work tree.
fn directory_outside_repository_line(
    alloc: Global,
    directory: &[u8],
    root: &[u8],
) -> Result<Bytes, OutOfMemory>
    ensures { IfOk result
        (λ line. line ≡ words.line_of_git_refusal (GitRefusal.OutsideRoot directory.now root.now)) }
{
    let end = text_with_escaped_path(alloc, b"' is outside repository at '", root, b"'\n")?;
    text_with_escaped_path(alloc, b"fatal: '", directory, end.as_bytes())
}

/// The line of a path spec whose directory has special bytes.
fn pathspec_prefix_error_line(
    alloc: Global,
    text: &[u8],
    prefix: &[u8],
) -> Result<Bytes, OutOfMemory>
    ensures { IfOk result (λ line. line ≡ words.line_of_git_refusal (GitRefusal.Prefix text.now
        prefix.now)) }
{
    let end = text_with_escaped_path(
        alloc,
        b"' is not read from directory '",
        prefix,
        b"'; write it from the top, with ':/'\n",
    )?;
    text_with_escaped_path(alloc, b"fatal: pathspec '", text, end.as_bytes())
}

/// The line of a setup that is not found.
pub fn line_of_git_refusal(alloc: Global, refusal: &GitRefusal) -> Result<Bytes, OutOfMemory>
    ensures { IfOk result (λ line. line ≡ words.line_of_git_refusal refusal.now) }
{
    match refusal {
        GitRefusal::Elsewhere { name } => variable_not_heeded_line(alloc, name.as_bytes()),
        GitRefusal::Places(error) => line_of_places_error(alloc, error),
        GitRefusal::Foreign { path } => dubious_ownership_line(alloc, path.as_bytes()),
        GitRefusal::IndexNode { path } => index_is_no_file_line(alloc, path.as_bytes()),
        GitRefusal::IndexFile { path, error } => index_file_error_line(
            alloc,
            path.as_bytes(),
            error,
        ),
        GitRefusal::IndexEntry { path, error } => index_entry_error_line(
            alloc,
            path.as_bytes(),
            error,
        ),
        GitRefusal::Files(error) => line_of_files_error(alloc, error),
        GitRefusal::Boolean { path, key } => bad_config_value_line(alloc, path, key.as_bytes()),
        GitRefusal::SparseDirectory { path } => present_sparse_directory_line(
            alloc,
            path.as_bytes(),
        ),
        GitRefusal::OutsideRoot { directory, root } => {
            directory_outside_repository_line(alloc, directory.as_bytes(), root.as_bytes())
        }
        GitRefusal::PathSpec { text } => bad_pathspec_line(alloc, text.as_bytes()),
        GitRefusal::OutsidePath { text } => path_outside_repository_line(alloc, text.as_bytes()),
        GitRefusal::Prefix { text, prefix } => {
            pathspec_prefix_error_line(alloc, text.as_bytes(), prefix.as_bytes())
        }
        GitRefusal::SubmoduleCase { path } => submodule_ignoring_case_line(alloc, path.as_bytes()),
        GitRefusal::Fault => copy_fixed_line(alloc, FAULT),
        GitRefusal::OutOfMemory => copy_fixed_line(alloc, MEMORY),
    }
}
