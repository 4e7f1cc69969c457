//! Whether some submodule may be left out of a comparison.
ghost use Rattle.std.specs.Prelude.{◌≡◌, false, option_copied, Ok, IfOk};
ghost use Rattle.std.specs.List.{list_any};
ghost use Rattle.worktree_fs.specs.Tree.{look};
ghost use Rattle.worktree_report.specs.Loading.{gitmodules_path};
ghost use Rattle.git_setup.specs.Finds.{IsFoundOrRefusesMemory, FindsOverToldTree};
ghost use Rattle.git_setup.specs.Ignoring as words;

use crate::error::GitRefusal;
use git_config_lite::{File, Metadata, ParseError, Section, Source};
use gitbase_core::{Bytes, IndexEntry, OutOfMemory, PathText};
use std::alloc::Global;
use worktree_fs::{ReadAnswer, Worktree};

/// Whether a submodule may be left out by a value of its `ignore`.
fn ignore_value_may_skip_submodule(value: &[u8]) -> bool
    ensures { result ≡ words.ignore_value_may_skip_submodule value.now }
{
    !(value == b"none".as_slice()
        || value == b"untracked".as_slice()
        || value == b"dirty".as_slice())
}

fn optional_ignore_value_may_skip(value: Option<&[u8]>) -> bool
    ensures { result ≡ words.optional_ignore_value_may_skip (option_copied value.entry) }
{
    match value {
        Some(value) => ignore_value_may_skip_submodule(value),
        None => false,
    }
}

/// Whether a section has a key by which submodules are left out.
fn section_may_skip_submodule(section: &Section) -> bool
    ensures { result ≡ words.section_may_skip_submodule section.now }
{
    optional_ignore_value_may_skip(section.value(b"ignore"))
}

/// Whether a configuration does.
fn config_may_skip_submodule(config: &File) -> bool
    ensures { result ≡ list_any words.section_may_skip_submodule config.now.sections }
{
    for section in config.sections() {
        if section_may_skip_submodule(section) {
            return true;
        }
    }
    false
}

/// What the configuration of the submodules is read as.
fn metadata_of_gitmodules() -> Metadata
    ensures { result ≡ words.metadata_of_gitmodules }
{
    Metadata {
        source: Source::Modules,
        path: None,
    }
}

/// Whether the bytes of a `.gitmodules` have some submodule left out, or are outside its grammar.
fn gitmodules_bytes_may_skip(alloc: Global, bytes: &[u8]) -> Result<bool, GitRefusal>
    ensures { IsFoundOrRefusesMemory result (Ok (words.gitmodules_bytes_may_skip bytes.now)) }
{
    match File::from_bytes(alloc, bytes, metadata_of_gitmodules()) {
        Ok(file) => Ok(config_may_skip_submodule(&file)),
        Err(ParseError::Syntax { line: _ }) => Ok(true),
        Err(ParseError::OutOfMemory) => Err(GitRefusal::OutOfMemory),
    }
}

fn is_unmerged_gitmodules_entry(entry: &IndexEntry) -> bool
    ensures { result ≡ words.is_unmerged_gitmodules_entry entry.now }
{
    entry.stage != 0 && entry.path.as_bytes() == b".gitmodules".as_slice()
}

/// Whether the `.gitmodules` of an index is not merged.
fn has_unmerged_gitmodules(entries: &[IndexEntry]) -> bool
    ensures { result ≡ list_any words.is_unmerged_gitmodules_entry entries.now }
{
    entries
        .iter()
        .any(|entry| is_unmerged_gitmodules_entry(entry))
}

fn path_of_gitmodules(alloc: Global, root: &[u8]) -> Result<PathText, OutOfMemory>
    ensures { IfOk result (λ path. path ≡ gitmodules_path root.now) }
{
    let mut path = PathText::from_bytes(alloc, root)?;
    path.push_component(alloc, b".gitmodules")?;
    Ok(path)
}

/// Whether the `.gitmodules` of a work tree has some submodule left out, or is no file.
fn gitmodules_file_may_skip<W: Worktree>(
    alloc: Global,
    worktree: &mut W,
    root: &[u8],
) -> Result<bool, GitRefusal>
    ensures { FindsOverToldTree W.Worktree worktree.old worktree.new
        (λ t. Ok (words.gitmodules_file_may_skip (look t (gitmodules_path root.now) false)))
        result }
{
    let path = path_of_gitmodules(alloc, root)?;
    let mut bytes = Bytes::new(alloc);
    match worktree.read(alloc, path.as_bytes(), false, &mut bytes)? {
        ReadAnswer::Read => gitmodules_bytes_may_skip(alloc, bytes.as_bytes()),
        _ => Ok(true),
    }
}

/// Whether some submodule may be left out of a comparison: the configuration or `.gitmodules` has
/// the `ignore` of one, of another value than `none`, `untracked` and `dirty`, or the latter is no
/// file of the work tree. While `.gitmodules` is not merged, none is left out.
///
/// See docs/DIFFERENCES.md#diff-ignored-submodule.
pub fn may_ignore_submodules<W: Worktree>(
    alloc: Global,
    worktree: &mut W,
    root: &[u8],
    config: &File,
    entries: &[IndexEntry],
) -> Result<bool, GitRefusal>
    ensures { FindsOverToldTree W.Worktree worktree.old worktree.new
        (λ t. Ok (words.may_ignore_submodules t root.now config.now.sections entries.now)) result }
{
    if has_unmerged_gitmodules(entries) {
        return Ok(false);
    }
    if config_may_skip_submodule(config) {
        return Ok(true);
    }
    gitmodules_file_may_skip(alloc, worktree, root)
}
