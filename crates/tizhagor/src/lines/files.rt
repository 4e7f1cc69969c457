//! Why the configurations, or the rules files that they name, are not read.
ghost use Rattle.std.specs.Prelude.{◌≡◌, IfOk};
ghost use Rattle.tizhagor.specs.FilesLines as words;

use crate::lines::{
    FAULT, MEMORY, bad_config_line, bad_config_value_line, copy_fixed_line, dubious_ownership_line,
    text_with_escaped_path, text_with_optional_file, variable_not_heeded_line,
};
use git_config_files::FilesError;
use gitbase_core::{Bytes, OutOfMemory, PathText};
use std::alloc::Global;

/// The line of a path whose home directory is not known.
fn failed_user_dir_line(
    alloc: Global,
    path: &Option<PathText>,
    value: &[u8],
) -> Result<Bytes, OutOfMemory>
    ensures { IfOk result (λ line. line ≡ words.line_of_files_error (FilesError.UserDir path.now
        value.now)) }
{
    text_with_optional_file(
        alloc,
        b"fatal: failed to expand user dir in: '",
        value,
        b"'",
        path,
    )
}

/// The line of configurations, or of rules files that they name, that are not read.
pub fn line_of_files_error(alloc: Global, error: &FilesError) -> Result<Bytes, OutOfMemory>
    ensures { IfOk result (λ line. line ≡ words.line_of_files_error error.now) }
{
    match error {
        FilesError::Config { path, line } => bad_config_line(alloc, path.as_bytes(), *line),
        FilesError::Include { path } => text_with_escaped_path(
            alloc,
            b"fatal: missing value for 'include.path' in file ",
            path.as_bytes(),
            b"\n",
        ),
        FilesError::NoFile { path } => text_with_escaped_path(
            alloc,
            b"fatal: '",
            path.as_bytes(),
            b"' is no file\n",
        ),
        FilesError::Home { path } => text_with_escaped_path(
            alloc,
            b"fatal: failed to expand user dir in file ",
            path.as_bytes(),
            b"\n",
        ),
        FilesError::UserDir { path, value } => failed_user_dir_line(alloc, path, value.as_bytes()),
        FilesError::Condition { path } => text_with_escaped_path(
            alloc,
            b"fatal: includeIf 'hasconfig:' is not read in file ",
            path.as_bytes(),
            b"\n",
        ),
        FilesError::Depth { path } => text_with_escaped_path(
            alloc,
            b"fatal: exceeded maximum include depth (10) at file ",
            path.as_bytes(),
            b"\n",
        ),
        FilesError::Value { path, key } => bad_config_value_line(alloc, path, key.as_bytes()),
        FilesError::Elsewhere { name } => variable_not_heeded_line(alloc, name.as_bytes()),
        FilesError::Foreign { path } => dubious_ownership_line(alloc, path.as_bytes()),
        FilesError::Fault => copy_fixed_line(alloc, FAULT),
        FilesError::OutOfMemory => copy_fixed_line(alloc, MEMORY),
    }
}
