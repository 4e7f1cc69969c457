//! The files of ignore rules outside the work tree.
ghost use Rattle.std.specs.Prelude.{◌≡◌, codes, find, Some, Ok, IfOk, option_copied};
ghost use Rattle.std.specs.List.{list_any};
ghost use Rattle.git_config_files.specs.Answers.{AgreesUnlessFaultOrOutOfMemory};
ghost use Rattle.git_config_files.specs.Finds.{AnswersFromWorktree};
ghost use Rattle.git_config_files.specs.Rules as words;

use crate::conditions::optional_bytes_as_slice;
use crate::error::FilesError;
use crate::includes::read_optional_file_text;
use crate::targets::path_of_config_value;
use crate::which::{path_in_user_config_directory, value_error};
use git_config_lite::{Entry, File, Section};
use git_places::{Places, Surroundings, file_of_last_section_with_key};
use gitbase_core::{Bytes, OutOfMemory, PathText, eq_ignore_case, without_byte_order_mark};
use std::alloc::Global;
use std::marker::Model;
use worktree_fs::{Worktree, resolve_path_from_directory};

/// A file of ignore rules. Contracts see a record of both parts.
#[derive(Debug, Drop)]
pub struct RulesFile {
    /// An absolute path.
    pub path: PathText,
    /// What stands there, without the byte order mark at the front, if there is one.
    pub bytes: Bytes,
}

impl Model for RulesFile {
    ghost use Rattle.git_config_files.specs.Rules as words;

    ghost Value = { words.RulesFile };

    ghost view = { λ file. record { path = file.path; bytes = file.bytes } };
}

/// The files of ignore rules outside the work tree. Contracts see a record of both.
#[derive(Debug, Drop)]
pub struct Rules {
    /// The file that `core.excludesFile` names, or the user's `ignore`, if it is there.
    pub user: Option<RulesFile>,
    /// `info/exclude` of the repository, if it is there.
    pub repository: Option<RulesFile>,
}

impl Model for Rules {
    ghost use Rattle.git_config_files.specs.Rules as words;

    ghost Value = { words.RulesOutsideWorkTree };

    ghost view = { λ rules. words.rules_of_user_and_repository rules.user rules.repository };
}

fn is_excludes_file_without_value(entry: &Entry) -> bool
    ensures { result ≡ words.is_excludes_file_without_value entry.now }
{
    eq_ignore_case(entry.key.as_bytes(), b"excludesfile") && entry.value.is_none()
}

fn is_any_excludes_file_without_value(entries: &[Entry]) -> bool
    ensures { result ≡ list_any words.is_excludes_file_without_value entries.now }
{
    entries.iter().any(is_excludes_file_without_value)
}

/// Whether a section is `[core]`.
fn is_core_section(section: &Section) -> bool
    ensures { result ≡ words.is_core_section section.now.name section.now.subsection }
{
    match section.subsection_name() {
        None => eq_ignore_case(section.name(), b"core"),
        Some(_) => false,
    }
}

/// Whether a section has `core.excludesFile` without a value.
fn section_lacks_excludes_file_value(section: &Section) -> bool
    ensures { result ≡ words.section_lacks_excludes_file_value section.now }
{
    is_core_section(section) && is_any_excludes_file_without_value(section.entries())
}

/// The first section that has it so.
fn first_section_lacking_excludes_value(config: &File) -> Option<&Section>
    ensures { option_copied result ≡ find words.section_lacks_excludes_file_value
        config.now.sections }
{
    for section in config.sections() {
        if section_lacks_excludes_file_value(section) {
            return Some(section);
        }
    }
    None
}

/// The refusal of `core.excludesFile` in a section that has it without a value.
fn excludes_file_without_value_error(
    alloc: Global,
    section: &Section,
) -> Result<FilesError, OutOfMemory>
    ensures { IfOk result
        (λ e. e ≡ FilesError.Value section.now.meta.path (codes "core.excludesFile")) }
{
    value_error(alloc, section.meta().path.as_ref(), b"core.excludesFile")
}

/// The last value of `core.excludesFile`, if there is one.
#[tactic(auto, unfolding(crate::specs::Rules::configured_excludes_file_value))]
fn configured_excludes_file_value(alloc: Global, config: &File) -> Result<Option<Bytes>, FilesError>
    ensures { AgreesUnlessFaultOrOutOfMemory result (words.configured_excludes_file_value
        config.now.sections) }
{
    if let Some(section) = first_section_lacking_excludes_value(config) {
        return Err(excludes_file_without_value_error(alloc, section)?);
    }
    match config.string(b"core", None, b"excludesfile") {
        Some(text) => Ok(Some(Bytes::from_slice(alloc, text)?)),
        None => Ok(None),
    }
}

/// A path from the top of the work tree on; none for an empty one.
fn path_from_root_unless_empty(
    alloc: Global,
    root: &[u8],
    path: &[u8],
) -> Result<Option<Bytes>, OutOfMemory>
    ensures { IfOk result (λ made. made ≡ words.path_from_root_unless_empty root.now path.now) }
{
    if path.is_empty() {
        return Ok(None);
    }
    Ok(Some(resolve_path_from_directory(alloc, path, root)?))
}

/// Where the user's rules lie, by what a configuration in a file tells.
fn excludes_path_of_configured_value(
    alloc: Global,
    root: &[u8],
    around: &Surroundings,
    file: Option<&PathText>,
    text: &[u8],
) -> Result<Option<Bytes>, FilesError>
    ensures { AgreesUnlessFaultOrOutOfMemory result (words.excludes_path_by_configured_value
        root.now around.now (option_copied file.entry) (Some text.now)) }
{
    let home = optional_bytes_as_slice(&around.home);
    let path = path_of_config_value(alloc, file, b"core.excludesFile", home, text)?;
    Ok(path_from_root_unless_empty(alloc, root, path.as_bytes())?)
}

/// Where they lie where nothing is told.
fn default_excludes_path(
    alloc: Global,
    root: &[u8],
    around: &Surroundings,
) -> Result<Option<Bytes>, OutOfMemory>
    ensures { IfOk result (λ path. path ≡ words.default_excludes_path root.now around.now) }
{
    match path_in_user_config_directory(alloc, around, b"ignore")? {
        Some(path) => Ok(Some(resolve_path_from_directory(alloc, path.as_bytes(), root)?)),
        None => Ok(None),
    }
}

/// The file in which the last value of `core.excludesFile` stands.
#[tactic(auto, unfolding(crate::specs::Rules::file_configuring_excludes_file))]
fn file_configuring_excludes_file(config: &File) -> Option<&PathText>
    ensures { option_copied result ≡ words.file_configuring_excludes_file config.now.sections }
{
    file_of_last_section_with_key(config, b"core", b"excludesfile")
}

/// Where the user's rules lie.
fn path_of_user_excludes_file(
    alloc: Global,
    root: &[u8],
    around: &Surroundings,
    config: &File,
) -> Result<Option<Bytes>, FilesError>
    ensures { AgreesUnlessFaultOrOutOfMemory result (words.path_of_user_excludes_file root.now
        around.now config.now.sections) }
{
    match configured_excludes_file_value(alloc, config)? {
        Some(text) => {
            let file = file_configuring_excludes_file(config);
            excludes_path_of_configured_value(alloc, root, around, file, text.as_bytes())
        }
        None => Ok(default_excludes_path(alloc, root, around)?),
    }
}

/// The rules at a path, if a file is there.
fn read_rules_file_if_present<W: Worktree>(
    alloc: Global,
    worktree: &mut W,
    path: &[u8],
) -> Result<Option<RulesFile>, FilesError>
    ensures { AnswersFromWorktree W.Worktree worktree.old worktree.new
        (λ t. words.read_rules_file_if_present t path.now) result }
{
    let Some(text) = read_optional_file_text(alloc, worktree, path)? else {
        return Ok(None);
    };
    Ok(Some(RulesFile {
        path: PathText::from_bytes(alloc, path)?,
        bytes: Bytes::from_slice(alloc, without_byte_order_mark(text.as_bytes()))?,
    }))
}

/// The rules at a path, if there is one.
fn read_rules_file_of_optional_path<W: Worktree>(
    alloc: Global,
    worktree: &mut W,
    path: &Option<Bytes>,
) -> Result<Option<RulesFile>, FilesError>
    ensures { AnswersFromWorktree W.Worktree worktree.old worktree.new
        (λ t. words.read_rules_file_of_optional_path t path.now) result }
{
    match path {
        Some(path) => read_rules_file_if_present(alloc, worktree, path.as_bytes()),
        None => Ok(None),
    }
}

/// The rules of the user.
fn read_user_rules_file<W: Worktree>(
    alloc: Global,
    worktree: &mut W,
    root: &[u8],
    around: &Surroundings,
    config: &File,
) -> Result<Option<RulesFile>, FilesError>
    ensures { AnswersFromWorktree W.Worktree worktree.old worktree.new
        (λ t. words.read_user_rules_file t root.now around.now config.now.sections) result }
{
    let path = path_of_user_excludes_file(alloc, root, around, config)?;
    read_rules_file_of_optional_path(alloc, worktree, &path)
}

/// The rules of the repository.
fn read_info_exclude_file<W: Worktree>(
    alloc: Global,
    worktree: &mut W,
    common: &[u8],
) -> Result<Option<RulesFile>, FilesError>
    ensures { AnswersFromWorktree W.Worktree worktree.old worktree.new
        (λ t. words.read_rules_file_if_present t (words.path_of_info_exclude common.now)) result }
{
    let path = resolve_path_from_directory(alloc, b"info/exclude", common)?;
    read_rules_file_if_present(alloc, worktree, path.as_bytes())
}

/// The ignore rules outside the work tree of a repository: those of the file that
/// `core.excludesFile` names in `config`, which is what [`read_stack`](crate::read_stack) answers,
/// and `info/exclude` of the repository. A path is taken from the top of the work tree where it is
/// relative, and a `~` at its front is the home; an empty one names no file, nor does `~` where the
/// home is empty. Where `core.excludesFile` does not stand, the user's rules are in `git/ignore`
/// beneath `XDG_CONFIG_HOME`, or beneath `.config` in the home. What is not there has no rules.
///
/// # Errors
///
/// - `Value`: a `core.excludesFile` has no value, or the last one has a NUL.
/// - `UserDir`: the last `core.excludesFile` begins with a home that is not known.
/// - `NoFile`: what stands at the path of one of the files is no file, and not the null device,
///   which is an empty one.
/// - `Fault`: the worktree failed, which it counted. No fault reads as "nothing is there".
/// - `OutOfMemory` for want of memory.
///
/// See docs/DIFFERENCES.md#configurations-of-git.
pub fn read_rules_outside_work_tree<W: Worktree>(
    alloc: Global,
    worktree: &mut W,
    places: &Places,
    around: &Surroundings,
    config: &File,
) -> Result<Rules, FilesError>
    ensures { AnswersFromWorktree W.Worktree worktree.old worktree.new
        (λ t. words.read_rules_outside_work_tree t places.now around.now config.now.sections)
        result }
{
    let user = read_user_rules_file(alloc, worktree, places.root.as_bytes(), around, config)?;
    let repository = read_info_exclude_file(alloc, worktree, places.common_dir.as_bytes())?;
    Ok(Rules { user, repository })
}
