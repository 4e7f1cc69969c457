//! Which configurations git reads, and where a user's files lie.
ghost use Rattle.std.specs.Prelude.{◌≡◌, ◌++◌, Some, None, IfOk, OnOk, option_copied, option_and_then};
ghost use Rattle.worktree_fs.specs.Changes.{resolve_path_from_directory};
ghost use Rattle.git_config_files.specs.Answers.{AgreesUnlessFaultOrOutOfMemory};
ghost use Rattle.git_config_files.specs.Which as words;
ghost use Rattle.worktree_fs.specs.Repository.{path_unless_empty};

use crate::conditions::{concatenate_texts, optional_bytes_as_slice};
use crate::config_files::{ConfigFiles, Configured};
use crate::error::FilesError;
use git_config_lite::Source;
use git_places::{Places, Surroundings, copy_optional_path, parse_boolean_text};
use gitbase_core::{Bytes, OutOfMemory, PathText};
use std::alloc::Global;
use worktree_fs::resolve_path_from_directory;

/// Adds the file at a path.
fn add_file_at_path_unless_empty(
    alloc: Global,
    files: &mut ConfigFiles,
    root: &[u8],
    source: Source,
    path: &[u8],
) -> Result<(), OutOfMemory>
    ensures { OnOk result (files.new ≡ files.old ++ words.file_at_path_unless_empty root.now source
        path.now) }
{
    if path.is_empty() {
        return Ok(());
    }
    let path = resolve_path_from_directory(alloc, path, root)?;
    files.push(Configured {
        source,
        path: PathText::from_bytes(alloc, path.as_bytes())?,
    })
}

fn add_file_of_optional_path(
    alloc: Global,
    files: &mut ConfigFiles,
    root: &[u8],
    source: Source,
    path: Option<&[u8]>,
) -> Result<(), OutOfMemory>
    ensures { OnOk result (files.new
        ≡ files.old ++ words.file_of_optional_path root.now source (option_copied path.entry)) }
{
    match path {
        Some(path) => add_file_at_path_unless_empty(alloc, files, root, source, path),
        None => Ok(()),
    }
}

/// The refusal of a key in a file, or of a variable, by its name.
pub fn value_error(
    alloc: Global,
    file: Option<&PathText>,
    key: &[u8],
) -> Result<FilesError, OutOfMemory>
    ensures { IfOk result (λ e. e ≡ FilesError.Value (option_copied file.entry) key.now) }
{
    Ok(FilesError::Value {
        path: copy_optional_path(alloc, file)?,
        key: Bytes::from_slice(alloc, key)?,
    })
}

/// What a text says as a boolean, as the value of a key does.
fn boolean_of_nosystem_variable(alloc: Global, text: &[u8]) -> Result<bool, FilesError>
    ensures { AgreesUnlessFaultOrOutOfMemory result (words.is_system_config_skipped
        (Some text.now)) }
{
    match parse_boolean_text(alloc, text)? {
        Some(truth) => Ok(truth),
        None => Err(value_error(alloc, None, b"GIT_CONFIG_NOSYSTEM")?),
    }
}

/// Whether the configuration of the system is not read.
fn is_system_config_skipped(alloc: Global, text: Option<&[u8]>) -> Result<bool, FilesError>
    ensures { AgreesUnlessFaultOrOutOfMemory result (words.is_system_config_skipped
        (option_copied text.entry)) }
{
    match text {
        Some(text) => boolean_of_nosystem_variable(alloc, text),
        None => Ok(false),
    }
}

fn path_of_system_config(told: Option<&[u8]>) -> &[u8]
    ensures { result.now ≡ words.path_of_system_config (option_copied told.entry) }
{
    match told {
        Some(path) => path,
        None => b"/etc/gitconfig",
    }
}

/// Adds the file of the system, unless it is not read.
fn add_system_config_unless_skipped(
    alloc: Global,
    files: &mut ConfigFiles,
    root: &[u8],
    told: Option<&[u8]>,
    skips: bool,
) -> Result<(), OutOfMemory>
    ensures { OnOk result (files.new ≡ files.old ++ words.system_config_unless_skipped root.now
        (option_copied told.entry) skips) }
{
    if skips {
        return Ok(());
    }
    add_file_at_path_unless_empty(
        alloc,
        files,
        root,
        Source::System,
        path_of_system_config(told),
    )
}

/// A text, unless it is empty.
fn text_unless_empty(text: Option<&[u8]>) -> Option<&[u8]>
    ensures { option_copied result ≡ option_and_then path_unless_empty (option_copied text.entry) }
{
    match text {
        Some([]) => None,
        text => text,
    }
}

/// A file of git's beneath a directory of configurations, or beneath the home.
fn file_in_config_directory_or_home(
    alloc: Global,
    directory: Option<&[u8]>,
    home: Option<&[u8]>,
    name: &[u8],
) -> Result<Option<Bytes>, OutOfMemory>
    ensures { IfOk result (λ path. path ≡ words.file_in_config_directory_or_home
        (option_copied directory.entry) (option_copied home.entry) name.now) }
{
    match (directory, home) {
        (Some(directory), _) => Ok(Some(join_three_texts(alloc, directory, b"/git/", name)?)),
        (None, Some(home)) => Ok(Some(join_three_texts(alloc, home, b"/.config/git/", name)?)),
        (None, None) => Ok(None),
    }
}

/// Three texts, one behind another.
fn join_three_texts(
    alloc: Global,
    front: &[u8],
    middle: &[u8],
    end: &[u8],
) -> Result<Bytes, OutOfMemory>
    ensures { IfOk result (λ made. made ≡ front.now ++ middle.now ++ end.now) }
{
    let mut made = Bytes::from_slice(alloc, front)?;
    made.extend(alloc, middle)?;
    made.extend(alloc, end)?;
    Ok(made)
}

/// A file of git's in the user's directory of configurations, if there is one.
pub fn path_in_user_config_directory(
    alloc: Global,
    around: &Surroundings,
    name: &[u8],
) -> Result<Option<Bytes>, OutOfMemory>
    ensures { IfOk result (λ path. path ≡ words.path_in_user_config_directory around.now name.now) }
{
    let directory = text_unless_empty(optional_bytes_as_slice(&around.config_home));
    file_in_config_directory_or_home(
        alloc,
        directory,
        optional_bytes_as_slice(&around.home),
        name,
    )
}

fn path_of_home_gitconfig(alloc: Global, home: Option<&[u8]>) -> Result<Option<Bytes>, OutOfMemory>
    ensures { IfOk result (λ path. path ≡ words.path_of_home_gitconfig (option_copied home.entry)) }
{
    match home {
        Some(home) => Ok(Some(concatenate_texts(alloc, home, b"/.gitconfig")?)),
        None => Ok(None),
    }
}

/// Adds both files of the user.
fn add_both_user_configs(
    alloc: Global,
    files: &mut ConfigFiles,
    root: &[u8],
    around: &Surroundings,
) -> Result<(), OutOfMemory>
    ensures { OnOk result (files.new ≡ files.old ++ words.user_configs_by_global_variable root.now
        around.now None) }
{
    let first = path_in_user_config_directory(alloc, around, b"config")?;
    add_file_of_optional_path(
        alloc,
        files,
        root,
        Source::User,
        optional_bytes_as_slice(&first),
    )?;
    let last = path_of_home_gitconfig(alloc, optional_bytes_as_slice(&around.home))?;
    add_file_of_optional_path(
        alloc,
        files,
        root,
        Source::User,
        optional_bytes_as_slice(&last),
    )
}

/// Adds those of the user.
fn add_user_configs(
    alloc: Global,
    files: &mut ConfigFiles,
    root: &[u8],
    around: &Surroundings,
) -> Result<(), OutOfMemory>
    ensures { OnOk result (files.new ≡ files.old ++ words.user_configs root.now around.now) }
{
    match optional_bytes_as_slice(&around.config_global) {
        Some(path) => add_file_at_path_unless_empty(alloc, files, root, Source::User, path),
        None => add_both_user_configs(alloc, files, root, around),
    }
}

/// A file of the repository.
fn repository_config_file(
    alloc: Global,
    name: &[u8],
    directory: &[u8],
) -> Result<Configured, OutOfMemory>
    ensures { IfOk result (λ at. at ≡ words.repository_config_file (resolve_path_from_directory
        name.now directory.now)) }
{
    let path = resolve_path_from_directory(alloc, name, directory)?;
    Ok(Configured {
        source: Source::Local,
        path: PathText::from_bytes(alloc, path.as_bytes())?,
    })
}

/// Adds that of the work tree by itself, if it has one.
fn add_worktree_config_if_present(
    alloc: Global,
    files: &mut ConfigFiles,
    git: &[u8],
    has: bool,
) -> Result<(), OutOfMemory>
    ensures { OnOk result (files.new ≡ files.old ++ words.worktree_config_if_present git.now has) }
{
    if !has {
        return Ok(());
    }
    files.push(repository_config_file(alloc, b"config.worktree", git)?)
}

/// Adds those of the repository.
fn add_repository_configs(
    alloc: Global,
    files: &mut ConfigFiles,
    places: &Places,
) -> Result<(), OutOfMemory>
    ensures { OnOk result (files.new ≡ files.old ++ words.repository_configs places.now) }
{
    files.push(repository_config_file(alloc, b"config", places.common_dir.as_bytes())?)?;
    add_worktree_config_if_present(
        alloc,
        files,
        places.git_dir.as_bytes(),
        places.has_own_config,
    )
}

/// Adds those that no repository has.
fn add_configs_outside_repository(
    alloc: Global,
    files: &mut ConfigFiles,
    directory: &[u8],
    around: &Surroundings,
    skips: bool,
) -> Result<(), OutOfMemory>
    ensures { OnOk result (files.new
        ≡ files.old ++ words.configs_outside_repository directory.now around.now skips) }
{
    let system = optional_bytes_as_slice(&around.config_system);
    add_system_config_unless_skipped(alloc, files, directory, system, skips)?;
    add_user_configs(alloc, files, directory, around)
}

/// The configurations that have a say in what is safe: those that no repository has, in their
/// order.
pub fn config_files_outside_repository(
    alloc: Global,
    around: &Surroundings,
) -> Result<ConfigFiles, FilesError>
    ensures { AgreesUnlessFaultOrOutOfMemory result (words.config_files_outside_repository
        around.now) }
{
    let skips = is_system_config_skipped(alloc, optional_bytes_as_slice(&around.no_system))?;
    let mut files = ConfigFiles::new(alloc);
    add_configs_outside_repository(
        alloc,
        &mut files,
        around.directory.as_bytes(),
        around,
        skips,
    )?;
    Ok(files)
}

/// The configurations that git reads, in its order.
pub fn config_files_of_work_tree(
    alloc: Global,
    places: &Places,
    around: &Surroundings,
) -> Result<ConfigFiles, FilesError>
    ensures { AgreesUnlessFaultOrOutOfMemory result (words.config_files_of_work_tree places.now
        around.now) }
{
    let skips = is_system_config_skipped(alloc, optional_bytes_as_slice(&around.no_system))?;
    let mut files = ConfigFiles::new(alloc);
    add_configs_outside_repository(alloc, &mut files, places.root.as_bytes(), around, skips)?;
    add_repository_configs(alloc, &mut files, places)?;
    Ok(files)
}
