//! A work tree whose ignore rules are asked about paths.
ghost use Rattle.std.specs.Prelude.{◌≡◌, None, Ok, codes, IfOk};
ghost use Rattle.git_config_lite.specs.Lookups.{last_string_value};
ghost use Rattle.git_setup.specs.Checked as words;
ghost use Rattle.git_setup.specs.Finds.{FindsOverToldTree};

use crate::error::GitRefusal;
use crate::found::current_prefix_in_work_tree;
use crate::globals::{double_byte_order_mark, lines_with_final_newline};
use crate::parts::real_path_or_same;
use crate::read_here::{Read, read_index_and_configurations};
use crate::switches::read_case_sparse_and_quote_switches;
use git_config_files::{Rules, RulesFile, read_rules_outside_work_tree, read_stack};
use git_config_lite::File;
use git_places::{Places, Surroundings, dot_git_path};
use gitbase_core::{Bytes, OutOfMemory, PathText, State};
use std::alloc::Global;
use worktree_fs::{Worktree, resolve_path_from_directory};

/// A file of ignore rules outside the work tree.
#[derive(Debug, Drop)]
pub struct NamedFile {
    /// The file, as git names it.
    pub name: Bytes,
    /// Its rules as a search takes them, which skips a byte order mark at their front: without that
    /// of the file, if it has one; with another in front where a second one follows it, which
    /// belongs to the first rule; and with a line feed behind the last line.
    pub bytes: Bytes,
}

/// The files of ignore rules outside the work tree; those of the repository come before those of
/// the user.
#[derive(Debug, Drop)]
pub struct OuterFiles {
    /// The file that `core.excludesFile` names, or the user's `ignore`, if it is there.
    pub user: Option<NamedFile>,
    /// `info/exclude` of the repository, if it is there.
    pub repository: Option<NamedFile>,
}

/// A work tree whose ignore rules are asked about paths.
#[derive(Debug, Drop)]
pub struct Checked {
    /// The top of the work tree.
    pub root: PathText,
    /// The current directory, from the top; no bytes where it is the top, or is not in the work
    /// tree.
    pub prefix: Bytes,
    /// The entries of the index as they are seen in the work tree; none where it is left aside.
    pub index: State,
    /// The rules outside the work tree.
    pub outer: OuterFiles,
    /// Whether ASCII letters of rules compare without regard to their case, as `core.ignoreCase`
    /// says.
    pub ignore_case: bool,
    /// Whether bytes above 0x7f are quoted in paths that are written, as `core.quotePath` says.
    pub quote_path: bool,
}

/// The rules of a file by a name, as a search takes them.
fn named_file_with_normalized_rules(
    alloc: Global,
    name: &[u8],
    file: &RulesFile,
) -> Result<NamedFile, OutOfMemory>
    ensures { IfOk result (λ rules. rules ≡ words.named_file_with_normalized_rules name.now
        file.now) }
{
    Ok(NamedFile {
        name: Bytes::from_slice(alloc, name)?,
        bytes: double_byte_order_mark(
            alloc,
            lines_with_final_newline(alloc, file.bytes.as_bytes())?,
        )?,
    })
}

/// What `core.excludesFile` has, as it is written.
fn read_excludes_file_setting(alloc: Global, config: &File) -> Result<Option<Bytes>, OutOfMemory>
    ensures { IfOk result (λ text. text
        ≡ last_string_value (codes "core") None (codes "excludesfile") config.now.sections) }
{
    match config.string(b"core", None, b"excludesfile") {
        Some(text) => Ok(Some(Bytes::from_slice(alloc, text)?)),
        None => Ok(None),
    }
}

/// How git names the file of the user's rules, which is at a path.
fn displayed_name_of_user_excludes_file(
    alloc: Global,
    root: &[u8],
    path: &[u8],
    text: &Option<Bytes>,
) -> Result<Bytes, OutOfMemory>
    ensures { IfOk result (λ name. name ≡ words.displayed_name_of_user_excludes_file root.now
        path.now text.now) }
{
    let Some(text) = text else {
        return Bytes::from_slice(alloc, path);
    };
    let there = resolve_path_from_directory(alloc, text.as_bytes(), root)?;
    if there.as_bytes() == path {
        return Bytes::from_slice(alloc, text.as_bytes());
    }
    Bytes::from_slice(alloc, path)
}

/// The rules of the user, if there are some.
fn named_user_rules_file(
    alloc: Global,
    root: &[u8],
    config: &File,
    file: &Option<RulesFile>,
) -> Result<Option<NamedFile>, OutOfMemory>
    ensures { IfOk result
        (λ rules. rules ≡ words.named_user_rules_file root.now config.now.sections file.now) }
{
    let Some(file) = file else {
        return Ok(None);
    };
    let text = read_excludes_file_setting(alloc, config)?;
    let name = displayed_name_of_user_excludes_file(alloc, root, file.path.as_bytes(), &text)?;
    Ok(Some(named_file_with_normalized_rules(alloc, name.as_bytes(), file)?))
}

/// How git names the file of the repository's rules.
fn displayed_name_of_info_exclude<W: Worktree>(
    alloc: Global,
    worktree: &mut W,
    places: &Places,
) -> Result<Bytes, GitRefusal>
    ensures { FindsOverToldTree W.Worktree worktree.old worktree.new
        (λ t. Ok (words.displayed_name_of_info_exclude t places.now)) result }
{
    let usual = dot_git_path(alloc, places.root.as_bytes())?;
    if places.common_dir.as_bytes() == usual.as_bytes() {
        return Ok(Bytes::from_slice(alloc, b".git/info/exclude")?);
    }
    let common = real_path_or_same(alloc, worktree, places.common_dir.as_bytes())?;
    Ok(resolve_path_from_directory(alloc, b"info/exclude", common.as_bytes())?)
}

/// The rules of the repository, if there are some.
fn named_info_exclude_file<W: Worktree>(
    alloc: Global,
    worktree: &mut W,
    places: &Places,
    file: &Option<RulesFile>,
) -> Result<Option<NamedFile>, GitRefusal>
    ensures { FindsOverToldTree W.Worktree worktree.old worktree.new
        (λ t. Ok (words.named_info_exclude_file t places.now file.now)) result }
{
    let Some(file) = file else {
        return Ok(None);
    };
    let name = displayed_name_of_info_exclude(alloc, worktree, places)?;
    Ok(Some(named_file_with_normalized_rules(alloc, name.as_bytes(), file)?))
}

/// The rules outside the work tree, by the names that git prints.
///
/// See docs/DIFFERENCES.md#check-ignore-names.
fn rules_files_outside_work_tree<W: Worktree>(
    alloc: Global,
    worktree: &mut W,
    places: &Places,
    config: &File,
    rules: &Rules,
) -> Result<OuterFiles, GitRefusal>
    ensures { FindsOverToldTree W.Worktree worktree.old worktree.new
        (λ t. Ok (words.rules_files_outside_work_tree t places.now config.now.sections rules.now))
        result }
{
    let user = named_user_rules_file(alloc, places.root.as_bytes(), config, &rules.user)?;
    let repository = named_info_exclude_file(alloc, worktree, places, &rules.repository)?;
    Ok(OuterFiles { user, repository })
}

/// What the configurations say, and no entries of the index.
#[tactic(auto, unfolding(crate::specs::Checked::read_config_with_empty_index))]
fn read_config_with_empty_index<W: Worktree>(
    alloc: Global,
    worktree: &mut W,
    places: &Places,
    around: &Surroundings,
) -> Result<Read, GitRefusal>
    ensures { FindsOverToldTree W.Worktree worktree.old worktree.new
        (λ t. words.read_config_with_empty_index t places.now around.now) result }
{
    let stack = read_stack(alloc, worktree, places, around)?;
    let switches = read_case_sparse_and_quote_switches(alloc, &stack.file)?;
    Ok(Read {
        stack,
        switches,
        index: State::new(alloc),
    })
}

/// What the index and the configurations say; of the index nothing, where it is left aside.
fn read_config_and_maybe_index<W: Worktree>(
    alloc: Global,
    worktree: &mut W,
    places: &Places,
    around: &Surroundings,
    leaves_index: bool,
) -> Result<Read, GitRefusal>
    ensures { FindsOverToldTree W.Worktree worktree.old worktree.new
        (λ t. words.read_config_and_maybe_index t places.now around.now leaves_index) result }
{
    if leaves_index {
        return read_config_with_empty_index(alloc, worktree, places, around);
    }
    read_index_and_configurations(alloc, worktree, places, around)
}

/// A work tree by what was read of it.
fn check_ignore_setup_from_parts<W: Worktree>(
    alloc: Global,
    worktree: &mut W,
    places: &Places,
    around: &Surroundings,
    read: Read,
    rules: &Rules,
) -> Result<Checked, GitRefusal>
    ensures { FindsOverToldTree W.Worktree worktree.old worktree.new
        (λ t. Ok (words.check_ignore_setup_from_parts t places.now around.now read rules.now))
        result }
{
    let outer = rules_files_outside_work_tree(alloc, worktree, places, &read.stack.file, rules)?;
    let root = PathText::from_bytes(alloc, places.root.as_bytes())?;
    let prefix = current_prefix_in_work_tree(alloc, root.as_bytes(), around.directory.as_bytes())?;
    let Read {
        stack: _,
        switches,
        index,
    } = read;
    Ok(Checked {
        root,
        prefix,
        index,
        outer,
        ignore_case: switches.ignore_case,
        quote_path: switches.quote_path,
    })
}

/// What paths of the work tree at these places, which [`crate::find_repository_places`] answers,
/// are checked by: the rules outside the work tree, each by the name that git prints; the entries of
/// the index, each as it is seen in the work tree, or none where it is left aside; and what the
/// configuration says of how letters compare and of how paths are written.
///
/// # Errors
///
/// The first refusal, in this order:
///
/// - `IndexNode`, `IndexFile`: what stands in the place of the index is no file, or is outside the
///   grammar of one.
/// - `Files`: a configuration is not read, as [`git_config_files::read_stack`] says.
/// - `Boolean`: `core.ignoreCase`, `core.sparseCheckout`, `sparse.expectFilesOutsideOfPatterns` or
///   `core.quotePath` is no boolean.
/// - `SparseDirectory`, `IndexEntry`: as [`crate::find_and_read_setup`] has them.
/// - `Files`: a rules file that the configuration names is not read, as
///   [`git_config_files::read_rules_outside_work_tree`] says.
///
/// Besides, wherever it comes:
///
/// - `Fault`: the worktree failed, which it counted. No fault reads as "nothing is there".
/// - `OutOfMemory` for want of memory.
#[tactic(auto, unfolding(crate::specs::Checked::read_check_ignore_setup))]
pub fn read_check_ignore_setup<W: Worktree>(
    alloc: Global,
    worktree: &mut W,
    places: &Places,
    around: &Surroundings,
    leaves_index: bool,
) -> Result<Checked, GitRefusal>
    ensures { FindsOverToldTree W.Worktree worktree.old worktree.new
        (λ t. words.read_check_ignore_setup t places.now around.now leaves_index) result }
{
    let read = read_config_and_maybe_index(alloc, worktree, places, around, leaves_index)?;
    let rules = read_rules_outside_work_tree(alloc, worktree, places, around, &read.stack.file)?;
    check_ignore_setup_from_parts(alloc, worktree, places, around, read, &rules)
}
