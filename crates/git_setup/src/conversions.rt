//! Whether the bytes of some file may be converted on their way into the index.
ghost use Rattle.std.specs.Prelude.{◌≡◌, ◌||◌, Ok, unwrap_or, option_copied};
ghost use Rattle.std.specs.List.{list_any};
ghost use Rattle.gitbase_core.specs.Path.{components};
ghost use Rattle.git_setup.specs.Conversions as words;
ghost use Rattle.git_setup.specs.Finds.{FindsOverToldTree};

use crate::error::GitRefusal;
use crate::present::exists_in_work_tree;
use crate::settings::may_convert_by_config;
use git_config_lite::File;
use git_places::{Places, Surroundings};
use gitbase_core::{Bytes, IndexEntry, PathText, basename, split_first_component};
use std::alloc::Global;
use worktree_fs::Worktree;

fn is_gitattributes_entry(entry: &IndexEntry) -> bool
    ensures { result ≡ words.is_gitattributes_entry entry.now }
{
    basename(entry.path.as_bytes()) == b".gitattributes".as_slice()
}

/// Whether an index has a file of attributes.
fn has_attributes(entries: &[IndexEntry]) -> bool
    ensures { result ≡ list_any words.is_gitattributes_entry entries.now }
{
    entries.iter().any(|entry| is_gitattributes_entry(entry))
}

/// Whether a directory has a file of attributes.
#[tactic(auto, unfolding(crate::specs::Conversions::has_gitattributes_file))]
fn has_gitattributes_file<W: Worktree>(
    alloc: Global,
    worktree: &mut W,
    directory: &[u8],
) -> Result<bool, GitRefusal>
    ensures { FindsOverToldTree W.Worktree worktree.old worktree.new
        (λ t. Ok (words.has_gitattributes_file t directory.now)) result }
{
    exists_in_work_tree(alloc, worktree, directory, b".gitattributes")
}

/// Whether a file of attributes is in a directory below a root, or in one on the way there.
fn has_gitattributes_along_path<W: Worktree>(
    alloc: Global,
    worktree: &mut W,
    root: &[u8],
    directory: &[u8],
) -> Result<bool, GitRefusal>
    ensures { FindsOverToldTree W.Worktree worktree.old worktree.new
        (λ t. Ok (words.has_gitattributes_along_path t root.now (components directory.now)))
        result }
{
    let mut full = PathText::from_bytes(alloc, root)?;
    let mut left = directory;
    while let Some((name, after)) = split_first_component(left) {
        if has_gitattributes_file(alloc, worktree, full.as_bytes())? {
            return Ok(true);
        }
        full.push_component(alloc, name)?;
        left = after;
    }
    has_gitattributes_file(alloc, worktree, full.as_bytes())
}

/// The directory in which an entry stands.
fn parent_directory_of_entry(entry: &IndexEntry) -> &[u8]
    ensures { result.now ≡ words.parent_directory_of_entry entry.now }
{
    match entry.path.parent() {
        Some(directory) => directory,
        None => b"",
    }
}

/// Whether a file of attributes is in a directory that leads to an entry.
#[tactic(auto, unfolding(crate::specs::Conversions::has_attributes_above_entry))]
fn has_attributes_above_entry<W: Worktree>(
    alloc: Global,
    worktree: &mut W,
    root: &[u8],
    entry: &IndexEntry,
) -> Result<bool, GitRefusal>
    ensures { FindsOverToldTree W.Worktree worktree.old worktree.new
        (λ t. Ok (words.has_attributes_above_entry t root.now entry.now)) result }
{
    has_gitattributes_along_path(alloc, worktree, root, parent_directory_of_entry(entry))
}

/// The same where none is in a directory that leads to the entry before it: of entries in one
/// directory the first is asked for.
fn has_attributes_above_unless_same_parent<W: Worktree>(
    alloc: Global,
    worktree: &mut W,
    root: &[u8],
    before: &IndexEntry,
    entry: &IndexEntry,
) -> Result<bool, GitRefusal>
    ensures { FindsOverToldTree W.Worktree worktree.old worktree.new
        (λ t. Ok (words.has_attributes_above_unless_same_parent t root.now before.now entry.now))
        result }
{
    if parent_directory_of_entry(before) == parent_directory_of_entry(entry) {
        return Ok(false);
    }
    has_attributes_above_entry(alloc, worktree, root, entry)
}

/// The same of entries that stand one after another.
fn has_attributes_above_following_entries<W: Worktree>(
    alloc: Global,
    worktree: &mut W,
    root: &[u8],
    before: &IndexEntry,
    entries: &[IndexEntry],
) -> Result<bool, GitRefusal>
    ensures { FindsOverToldTree W.Worktree worktree.old worktree.new
        (λ t. Ok (words.has_attributes_above_following_entries t root.now before.now entries.now))
        result }
{
    let mut last = before;
    for entry in entries {
        if has_attributes_above_unless_same_parent(alloc, worktree, root, last, entry)? {
            return Ok(true);
        }
        last = entry;
    }
    Ok(false)
}

/// Whether one is in a directory that leads to an entry, or to one of those that come after it.
fn has_attributes_above_first_or_rest<W: Worktree>(
    alloc: Global,
    worktree: &mut W,
    root: &[u8],
    first: &IndexEntry,
    rest: &[IndexEntry],
) -> Result<bool, GitRefusal>
    ensures { FindsOverToldTree W.Worktree worktree.old worktree.new
        (λ t. Ok (words.has_attributes_above_entry t root.now first.now
        || words.has_attributes_above_following_entries t root.now first.now rest.now)) result }
{
    if has_attributes_above_entry(alloc, worktree, root, first)? {
        return Ok(true);
    }
    has_attributes_above_following_entries(alloc, worktree, root, first, rest)
}

/// Whether one is in a directory that leads to some entry.
fn has_attributes_above_any_entry<W: Worktree>(
    alloc: Global,
    worktree: &mut W,
    root: &[u8],
    entries: &[IndexEntry],
) -> Result<bool, GitRefusal>
    ensures { FindsOverToldTree W.Worktree worktree.old worktree.new
        (λ t. Ok (list_any (words.has_attributes_above_entry t root.now) entries.now)) result }
{
    match entries.split_first() {
        Some((first, rest)) => has_attributes_above_first_or_rest(
            alloc, worktree, root, first, rest,
        ),
        None => Ok(false),
    }
}

/// Whether a node is at a path below a directory, if there is such a directory.
fn exists_below_optional_directory<W: Worktree>(
    alloc: Global,
    worktree: &mut W,
    directory: &Option<Bytes>,
    path: &[u8],
) -> Result<bool, GitRefusal>
    ensures { FindsOverToldTree W.Worktree worktree.old worktree.new
        (λ t. Ok (words.exists_below_optional_directory t directory.now path.now)) result }
{
    match directory {
        Some(directory) => exists_in_work_tree(alloc, worktree, directory.as_bytes(), path),
        None => Ok(false),
    }
}

/// Whether the directory of configurations has a file of attributes.
#[tactic(auto, unfolding(crate::specs::Conversions::has_attributes_in_config_home))]
fn has_attributes_in_config_home<W: Worktree>(
    alloc: Global,
    worktree: &mut W,
    directory: &Option<Bytes>,
) -> Result<bool, GitRefusal>
    ensures { FindsOverToldTree W.Worktree worktree.old worktree.new
        (λ t. Ok (words.has_attributes_in_config_home t directory.now)) result }
{
    exists_below_optional_directory(alloc, worktree, directory, b"git/attributes")
}

/// Whether the home has one.
#[tactic(auto, unfolding(crate::specs::Conversions::has_attributes_in_home))]
fn has_attributes_in_home<W: Worktree>(
    alloc: Global,
    worktree: &mut W,
    directory: &Option<Bytes>,
) -> Result<bool, GitRefusal>
    ensures { FindsOverToldTree W.Worktree worktree.old worktree.new
        (λ t. Ok (words.has_attributes_in_home t directory.now)) result }
{
    exists_below_optional_directory(alloc, worktree, directory, b".config/git/attributes")
}

/// Whether a file of attributes is at one of the places at which the user may have one.
fn has_user_attributes_file<W: Worktree>(
    alloc: Global,
    worktree: &mut W,
    around: &Surroundings,
) -> Result<bool, GitRefusal>
    ensures { FindsOverToldTree W.Worktree worktree.old worktree.new
        (λ t. Ok (words.has_user_attributes_file t around.now)) result }
{
    if has_attributes_in_config_home(alloc, worktree, &around.config_home)? {
        return Ok(true);
    }
    has_attributes_in_home(alloc, worktree, &around.home)
}

/// Whether the repository has a file of attributes.
#[tactic(auto, unfolding(crate::specs::Conversions::has_info_attributes))]
fn has_info_attributes<W: Worktree>(
    alloc: Global,
    worktree: &mut W,
    common: &[u8],
) -> Result<bool, GitRefusal>
    ensures { FindsOverToldTree W.Worktree worktree.old worktree.new
        (λ t. Ok (words.has_info_attributes t common.now)) result }
{
    exists_in_work_tree(alloc, worktree, common, b"info/attributes")
}

/// Whether the system has one.
#[tactic(auto, unfolding(crate::specs::Conversions::has_system_attributes))]
fn has_system_attributes<W: Worktree>(alloc: Global, worktree: &mut W) -> Result<bool, GitRefusal>
    ensures { FindsOverToldTree W.Worktree worktree.old worktree.new
        (λ t. Ok (words.has_system_attributes t)) result }
{
    exists_in_work_tree(alloc, worktree, b"/etc", b"gitattributes")
}

/// Whether the repository, the user or the system has a file of attributes outside the work tree.
fn has_attributes_outside_work_tree<W: Worktree>(
    alloc: Global,
    worktree: &mut W,
    places: &Places,
    around: &Surroundings,
) -> Result<bool, GitRefusal>
    ensures { FindsOverToldTree W.Worktree worktree.old worktree.new
        (λ t. Ok (words.has_attributes_outside_work_tree t places.now around.now)) result }
{
    let common = places.common_dir.as_bytes();
    if has_info_attributes(alloc, worktree, common)? {
        return Ok(true);
    }
    if has_system_attributes(alloc, worktree)? {
        return Ok(true);
    }
    has_user_attributes_file(alloc, worktree, around)
}

/// Whether there is a file of attributes anywhere.
fn has_attributes_anywhere<W: Worktree>(
    alloc: Global,
    worktree: &mut W,
    places: &Places,
    around: &Surroundings,
    entries: &[IndexEntry],
) -> Result<bool, GitRefusal>
    ensures { FindsOverToldTree W.Worktree worktree.old worktree.new
        (λ t. Ok (words.has_attributes_anywhere t places.now around.now entries.now)) result }
{
    if has_attributes(entries) {
        return Ok(true);
    }
    if has_attributes_outside_work_tree(alloc, worktree, places, around)? {
        return Ok(true);
    }
    has_attributes_above_any_entry(alloc, worktree, places.root.as_bytes(), entries)
}

/// Whether the bytes of some file may be converted on their way into the index: the configuration
/// has line ends converted, or there are attributes anywhere.
///
/// See docs/DIFFERENCES.md#diff-conversion.
pub fn may_convert_file_contents<W: Worktree>(
    alloc: Global,
    worktree: &mut W,
    places: &Places,
    around: &Surroundings,
    config: &File,
    entries: &[IndexEntry],
) -> Result<bool, GitRefusal>
    ensures { FindsOverToldTree W.Worktree worktree.old worktree.new
        (λ t. words.may_convert_file_contents t places.now around.now config.now.sections
        entries.now) result }
{
    if may_convert_by_config(alloc, config)? {
        return Ok(true);
    }
    has_attributes_anywhere(alloc, worktree, places, around, entries)
}
