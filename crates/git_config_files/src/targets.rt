//! Which file a key includes.
ghost use Rattle.std.specs.Prelude.{◌≡◌, ◌&&◌, codes, Ok, Some, IfOk, option_copied};
ghost use Rattle.git_config_files.specs.Answers.{AgreesUnlessFaultOrOutOfMemory};
ghost use Rattle.git_config_files.specs.Finds.{AnswersFromWorktree};
ghost use Rattle.git_config_files.specs.Targets as words;

use crate::conditions::{
    begins_with_unsupported_home, concatenate_texts, include_condition_holds,
    optional_bytes_as_slice, text_after_prefix,
};
use crate::error::FilesError;
use crate::known::Known;
use crate::which::value_error;
use git_config_lite::{Entry, Section};
use git_places::copy_optional_path;
use gitbase_core::{Bytes, OutOfMemory, PathText, eq_ignore_case};
use std::alloc::Global;
use worktree_fs::{Worktree, resolve_from_file_parent};

/// The refusal of a path that has a home which is not known.
fn unknown_home_error(alloc: Global, from: &[u8]) -> Result<FilesError, OutOfMemory>
    ensures { IfOk result (λ e. e ≡ FilesError.Home from.now) }
{
    Ok(FilesError::Home {
        path: PathText::from_bytes(alloc, from)?,
    })
}

/// A path that a key has as its value, with the home in the place of a `~` at its front; none where
/// that home is not known.
fn path_with_tilde_expanded(
    alloc: Global,
    home: Option<&[u8]>,
    path: &[u8],
) -> Result<Option<Bytes>, OutOfMemory>
    ensures { IfOk result (λ made. made ≡ words.path_with_tilde_expanded (option_copied home.entry)
        path.now) }
{
    if begins_with_unsupported_home(path) {
        return Ok(None);
    }
    let Some(rest) = text_after_prefix(path, b"~".as_slice()) else {
        return Ok(Some(Bytes::from_slice(alloc, path)?));
    };
    match home {
        Some(home) => Ok(Some(concatenate_texts(alloc, home, rest)?)),
        None => Ok(None),
    }
}

fn has_nul(text: &[u8]) -> bool
    ensures { result ≡ words.has_nul text.now }
{
    text.contains(&0)
}

/// The path that the value of a key in a file is, where it has no NUL.
fn expanded_path_or_user_dir_error(
    alloc: Global,
    file: Option<&PathText>,
    home: Option<&[u8]>,
    text: &[u8],
) -> Result<Bytes, FilesError>
    ensures { AgreesUnlessFaultOrOutOfMemory result (words.expanded_path_or_user_dir_error
        (option_copied file.entry) text.now (words.path_with_tilde_expanded
        (option_copied home.entry) text.now)) }
{
    match path_with_tilde_expanded(alloc, home, text)? {
        Some(path) => Ok(path),
        None => Err(FilesError::UserDir {
            path: copy_optional_path(alloc, file)?,
            value: Bytes::from_slice(alloc, text)?,
        }),
    }
}

/// The path that the value of a key in a file is; a NUL in it is refused by the key, and a home
/// that is not known by the text.
#[tactic(auto, unfolding(crate::specs::Targets::path_of_config_value))]
pub fn path_of_config_value(
    alloc: Global,
    file: Option<&PathText>,
    key: &[u8],
    home: Option<&[u8]>,
    text: &[u8],
) -> Result<Bytes, FilesError>
    ensures { AgreesUnlessFaultOrOutOfMemory result (words.path_of_config_value
        (option_copied file.entry) key.now (option_copied home.entry) text.now) }
{
    if has_nul(text) {
        return Err(value_error(alloc, file, key)?);
    }
    expanded_path_or_user_dir_error(alloc, file, home, text)
}

/// The file that a value names.
fn included_file_of_value(
    alloc: Global,
    known: &Known,
    from: &[u8],
    value: &Option<Bytes>,
) -> Result<Option<Bytes>, FilesError>
    ensures { AgreesUnlessFaultOrOutOfMemory result (words.included_file_of_value known.now from.now
        value.now) }
{
    match value {
        Some(text) => included_file_of_text(alloc, known, from, text.as_bytes()),
        None => Err(FilesError::Include {
            path: PathText::from_bytes(alloc, from)?,
        }),
    }
}

/// The refusal of the path of an include that has a NUL.
fn include_path_nul_error(alloc: Global, from: &[u8]) -> Result<FilesError, OutOfMemory>
    ensures { IfOk result (λ e. e ≡ FilesError.Value (Some from.now) (codes "include.path")) }
{
    let path = PathText::from_bytes(alloc, from)?;
    value_error(alloc, Some(&path), b"include.path")
}

/// The file that the text of a value names.
fn included_file_of_text(
    alloc: Global,
    known: &Known,
    from: &[u8],
    text: &[u8],
) -> Result<Option<Bytes>, FilesError>
    ensures { AgreesUnlessFaultOrOutOfMemory result (words.included_file_of_value known.now from.now
        (Some text.now)) }
{
    if has_nul(text) {
        return Err(include_path_nul_error(alloc, from)?);
    }
    match path_with_tilde_expanded(alloc, optional_bytes_as_slice(&known.home), text)? {
        Some(path) => Ok(Some(resolve_from_file_parent(alloc, path.as_bytes(), from)?)),
        None => Err(unknown_home_error(alloc, from)?),
    }
}

/// The file that a key `path` of a section with a condition includes.
fn included_file_if_condition_holds<W: Worktree>(
    alloc: Global,
    worktree: &mut W,
    known: &Known,
    from: &[u8],
    condition: &[u8],
    entry: &Entry,
) -> Result<Option<Bytes>, FilesError>
    ensures { AnswersFromWorktree W.Worktree worktree.old worktree.new
        (λ t. words.included_file_if_condition_holds t known.now from.now condition.now entry.now)
        result }
{
    if !include_condition_holds(alloc, worktree, known, from, condition)? {
        return Ok(None);
    }
    included_file_of_value(alloc, known, from, &entry.value)
}

/// The file that a key `path` of a section includes.
fn included_file_of_path_key<W: Worktree>(
    alloc: Global,
    worktree: &mut W,
    known: &Known,
    from: &[u8],
    section: &Section,
    entry: &Entry,
) -> Result<Option<Bytes>, FilesError>
    ensures { AnswersFromWorktree W.Worktree worktree.old worktree.new
        (λ t. words.included_file_of_path_key t known.now from.now section.now.name
        section.now.subsection entry.now) result }
{
    match section.subsection_name() {
        None => {
            if eq_ignore_case(section.name(), b"include") {
                return included_file_of_value(alloc, known, from, &entry.value);
            }
            Ok(None)
        }
        Some(condition) => {
            if eq_ignore_case(section.name(), b"includeif") {
                return included_file_if_condition_holds(
                    alloc, worktree, known, from, condition, entry,
                );
            }
            Ok(None)
        }
    }
}

/// The file that a key of a section of the file `from` includes, if it includes one.
pub fn target<W: Worktree>(
    alloc: Global,
    worktree: &mut W,
    known: &Known,
    from: &[u8],
    section: &Section,
    entry: &Entry,
) -> Result<Option<Bytes>, FilesError>
    ensures { AnswersFromWorktree W.Worktree worktree.old worktree.new
        (λ t. words.target t known.now from.now section.now entry.now) result }
{
    if !eq_ignore_case(entry.key.as_bytes(), b"path") {
        return Ok(None);
    }
    included_file_of_path_key(alloc, worktree, known, from, section, entry)
}
