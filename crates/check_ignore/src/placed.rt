//! Paths as they are from the top.
ghost use Rattle.std.specs.Prelude.{◌≡◌, ok_or, option_copied};
ghost use Rattle.glob_rules.specs.Glob.{is_glob_special_byte};
ghost use Rattle.check_ignore.specs.Asked as words;
ghost use Rattle.check_ignore.specs.Finds.{AnswersUnlessOutOfMemory};

use crate::stop::Stop;
use gitbase_core::{Bytes, PathText, is_absolute, strip_directory_prefix};
use std::alloc::Global;

/// Whether a path begins with a colon.
fn begins_with_colon(text: &[u8]) -> bool
    ensures { result ≡ words.begins_with_colon text.now }
{
    match text {
        [first, ..] => *first == b':',
        [] => false,
    }
}

/// Whether a byte has a meaning of its own in a pattern.
fn is_pattern_special_byte(byte: u8) -> bool
    ensures { result ≡ is_glob_special_byte byte }
{
    byte == b'*' || byte == b'?' || byte == b'[' || byte == b'\\'
}

/// Whether one of some bytes does.
pub fn has_pattern_special_byte(bytes: &[u8]) -> bool
    ensures { result ≡ words.has_pattern_special_byte bytes.now }
{
    bytes.iter().any(|byte| is_pattern_special_byte(*byte))
}

/// What a path has behind that of the top, if it is there or beneath.
fn rest_beneath_root<'a>(root: &[u8], path: &'a [u8]) -> Option<&'a [u8]>
    ensures { option_copied result ≡ words.rest_beneath_root root.now path.now }
{
    if path == root {
        return Some(b"");
    }
    strip_directory_prefix(path, root)
}

/// The rest of an absolute path that is written so.
fn rest_beneath_root_or_elsewhere_error(
    alloc: Global,
    root: &[u8],
    text: &[u8],
    path: &[u8],
) -> Result<Bytes, Stop>
    ensures { AnswersUnlessOutOfMemory result
        (ok_or (words.rest_beneath_root root.now path.now) (Stop.Elsewhere text.now)) }
{
    match rest_beneath_root(root, path) {
        Some(path) => Ok(Bytes::from_slice(alloc, path)?),
        None => Err(Stop::Elsewhere {
            text: Bytes::from_slice(alloc, text)?,
        }),
    }
}

/// An absolute path, from the top.
fn parse_absolute_path_to_root_relative(
    alloc: Global,
    root: &[u8],
    text: &[u8],
) -> Result<Bytes, Stop>
    ensures { AnswersUnlessOutOfMemory result (words.parse_absolute_path_to_root_relative root.now
        text.now) }
{
    let whole = PathText::from_bytes(alloc, text)?;
    match whole.normalize(alloc)? {
        Some(path) => rest_beneath_root_or_elsewhere_error(alloc, root, text, path.as_bytes()),
        None => Err(Stop::Elsewhere {
            text: Bytes::from_slice(alloc, text)?,
        }),
    }
}

/// A path behind that of a directory, from the top.
fn normalized_path_joined_to_prefix(
    alloc: Global,
    prefix: &[u8],
    text: &[u8],
) -> Result<Bytes, Stop>
    ensures { AnswersUnlessOutOfMemory result (words.normalized_path_joined_to_prefix prefix.now
        text.now) }
{
    let mut whole = PathText::from_bytes(alloc, prefix)?;
    whole.push_component(alloc, text)?;
    match whole.normalize(alloc)? {
        Some(path) => Ok(Bytes::from_vec(path.into_vec())),
        None => Err(Stop::Outside {
            text: Bytes::from_slice(alloc, text)?,
        }),
    }
}

/// A relative path, from the top.
fn parse_relative_path_in_prefix(alloc: Global, prefix: &[u8], text: &[u8]) -> Result<Bytes, Stop>
    ensures { AnswersUnlessOutOfMemory result (words.parse_relative_path_in_prefix prefix.now
        text.now) }
{
    if has_pattern_special_byte(text) && has_pattern_special_byte(prefix) {
        return Err(Stop::Prefix {
            text: Bytes::from_slice(alloc, text)?,
        });
    }
    normalized_path_joined_to_prefix(alloc, prefix, text)
}

/// A path from the top, without empty names, `.` and `..`.
#[tactic(auto, unfolding(crate::specs::Asked::parse_path_to_root_relative))]
pub fn parse_path_to_root_relative(
    alloc: Global,
    root: &[u8],
    prefix: &[u8],
    text: &[u8],
) -> Result<Bytes, Stop>
    ensures { AnswersUnlessOutOfMemory result (words.parse_path_to_root_relative root.now prefix.now
        text.now) }
{
    if begins_with_colon(text) {
        return Err(Stop::Magic {
            text: Bytes::from_slice(alloc, text)?,
        });
    }
    if is_absolute(text) {
        return parse_absolute_path_to_root_relative(alloc, root, text);
    }
    parse_relative_path_in_prefix(alloc, prefix, text)
}
