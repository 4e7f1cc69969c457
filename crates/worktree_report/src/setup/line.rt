//! What a line of a setup says by itself.
ghost use Rattle.std.specs.Prelude.{◌≡◌, ◌&&◌, not, is_some, IfOk};
ghost use Rattle.worktree_report.specs.SetupKeywords.{is_empty_or_comment_line, is_valid_root_value, is_valid_setting_allowed_once, parse_single_setting_line, parse_blob_config_or_single_line, parse_spec_line, parse_worktree_line, parse_spec_worktree_or_file_line, parse_rule_or_later_line, parse_line_by_keyword, parse_setup_line};
ghost use Rattle.worktree_report.specs.SetupSeen.{seen};

use crate::escape::unescape_path;
use crate::setup::depth::parse_depth_limit;
use crate::setup::field::{Field, split_at_first_space};
use crate::setup::files::{SetupBlob, parse_blob_line, parse_config_line};
use crate::setup::index_line::parse_index_entry;
use crate::setup::option::{SetupOption, parse_option_line};
use crate::setup::spec::is_valid_spec;
use crate::words::{contains_nul_byte, is_absolute_without_dots};
use git_config_lite::Source;
use gitbase_core::{Bytes, IndexEntry, OutOfMemory, PathText, is_absolute};
use std::alloc::Global;

/// What a line says.
#[derive(Debug, Drop)]
pub enum SetupLine {
    /// Nothing: it is empty, or a comment.
    Skipped,
    /// An option has a value, or what may stand once has.
    Sets(SetupOption),
    /// The index has an entry.
    Indexes(IndexEntry),
    /// The store has a blob.
    Stores(SetupBlob),
    /// An ignore rule that comes before those of any directory.
    OverrideRule(Bytes),
    /// An ignore rule that comes after those of all directories.
    GlobalRule(Bytes),
    /// A path spec.
    Specifies(Bytes),
    /// The directory at this path is a worktree of its own.
    SetsApart(PathText),
    /// A configuration: what it belongs to, and the path of its file.
    Configures((Source, PathText)),
}

fn is_empty_or_comment_line(line: &[u8]) -> bool
    ensures { result ≡ is_empty_or_comment_line line.now }
{
    matches!(line, [] | [b'#', ..])
}

fn parse_line_by_keyword(alloc: Global, fields: Field<'_>) -> Result<Option<SetupLine>, OutOfMemory>
    ensures { IfOk result (λ line. line ≡ parse_line_by_keyword (seen fields.entry)) }
{
    if fields.word == b"option".as_slice() {
        return Ok(parse_option_line(alloc, fields.rest)?.map(SetupLine::Sets));
    }
    if fields.word == b"index".as_slice() {
        return Ok(parse_index_entry(alloc, fields.rest)?.map(SetupLine::Indexes));
    }
    parse_rule_or_later_line(alloc, fields)
}

/// Whether bytes may be a traversal root.
/// See docs/DECISIONS.md#root-line.
fn is_valid_root_value(rest: &[u8]) -> bool
    ensures { result ≡ is_valid_root_value rest.now }
{
    !rest.is_empty() && !contains_nul_byte(rest)
}

/// Whether a line is one of those that stand once, and has a value that it may have.
fn is_valid_setting_allowed_once(fields: &Field<'_>) -> bool
    ensures { result ≡ is_valid_setting_allowed_once (seen fields.now) }
{
    if fields.word == b"depth".as_slice() {
        return parse_depth_limit(fields.rest).is_some();
    }
    if fields.word == b"root".as_slice() {
        return is_valid_root_value(fields.rest);
    }
    if fields.word == b"git_dir".as_slice() || fields.word == b"current_dir".as_slice() {
        return is_absolute_without_dots(fields.rest);
    }
    false
}

/// A line that gives the depth limit, the traversal root or the place of a directory. What it gives
/// is kept as an option under its keyword.
fn parse_single_setting_line(
    alloc: Global,
    fields: Field<'_>,
) -> Result<Option<SetupLine>, OutOfMemory>
    ensures { IfOk result (λ line. line ≡ parse_single_setting_line (seen fields.entry)) }
{
    if !is_valid_setting_allowed_once(&fields) {
        return Ok(None);
    }
    Ok(Some(SetupLine::Sets(SetupOption {
        name: Bytes::from_slice(alloc, fields.word)?,
        value: Bytes::from_slice(alloc, fields.rest)?,
    })))
}

/// A line that gives a path spec.
fn parse_spec_line(alloc: Global, text: &[u8]) -> Result<Option<SetupLine>, OutOfMemory>
    ensures { IfOk result (λ line. line ≡ parse_spec_line text.now) }
{
    if !is_valid_spec(alloc, text)? {
        return Ok(None);
    }
    Ok(Some(SetupLine::Specifies(Bytes::from_slice(alloc, text)?)))
}

/// A line that names a directory that is a worktree of its own.
///
/// See docs/DECISIONS.md#worktree-line.
fn parse_worktree_line(alloc: Global, rest: &[u8]) -> Result<Option<SetupLine>, OutOfMemory>
    ensures { IfOk result (λ line. line ≡ parse_worktree_line rest.now) }
{
    let Some(path) = unescape_path(alloc, rest)? else {
        return Ok(None);
    };
    if is_absolute(path.as_bytes()) {
        return Ok(None);
    }
    Ok(Some(SetupLine::SetsApart(path)))
}

/// A line that gives a blob, or names a configuration.
fn parse_blob_config_or_single_line(
    alloc: Global,
    fields: Field<'_>,
) -> Result<Option<SetupLine>, OutOfMemory>
    ensures { IfOk result (λ line. line ≡ parse_blob_config_or_single_line (seen fields.entry)) }
{
    if fields.word == b"blob".as_slice() {
        return Ok(parse_blob_line(alloc, fields.rest)?.map(SetupLine::Stores));
    }
    if fields.word == b"config".as_slice() {
        return Ok(parse_config_line(alloc, fields.rest)?.map(SetupLine::Configures));
    }
    parse_single_setting_line(alloc, fields)
}

/// A line that gives a path spec, or names such a directory.
fn parse_spec_worktree_or_file_line(
    alloc: Global,
    fields: Field<'_>,
) -> Result<Option<SetupLine>, OutOfMemory>
    ensures { IfOk result (λ line. line ≡ parse_spec_worktree_or_file_line (seen fields.entry)) }
{
    if fields.word == b"spec".as_slice() {
        return parse_spec_line(alloc, fields.rest);
    }
    if fields.word == b"worktree".as_slice() {
        return parse_worktree_line(alloc, fields.rest);
    }
    parse_blob_config_or_single_line(alloc, fields)
}

/// A line that gives an ignore rule.
fn parse_rule_or_later_line(
    alloc: Global,
    fields: Field<'_>,
) -> Result<Option<SetupLine>, OutOfMemory>
    ensures { IfOk result (λ line. line ≡ parse_rule_or_later_line (seen fields.entry)) }
{
    if fields.word == b"override".as_slice() {
        let rule = Bytes::from_slice(alloc, fields.rest)?;
        return Ok(Some(SetupLine::OverrideRule(rule)));
    }
    if fields.word == b"global".as_slice() {
        let rule = Bytes::from_slice(alloc, fields.rest)?;
        return Ok(Some(SetupLine::GlobalRule(rule)));
    }
    parse_spec_worktree_or_file_line(alloc, fields)
}

/// What a line says by itself. None where it says nothing.
pub fn parse_setup_line(alloc: Global, line: &[u8]) -> Result<Option<SetupLine>, OutOfMemory>
    ensures { IfOk result (λ said. said ≡ parse_setup_line line.now) }
{
    if is_empty_or_comment_line(line) {
        return Ok(Some(SetupLine::Skipped));
    }
    match split_at_first_space(line) {
        Some(fields) => parse_line_by_keyword(alloc, fields),
        None => Ok(None),
    }
}
