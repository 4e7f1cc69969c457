//! The work tree of a directory and where its repository lies.
ghost use Rattle.std.specs.Prelude.{◌≡◌, [], ◌∷◌, true, Ok, Some, IfOk, option_copied, unwrap_or};
ghost use Rattle.worktree_fs.specs.Changes.{real_path};
ghost use Rattle.git_places.specs.Answers.{AnswersUnlessOutOfMemory};
ghost use Rattle.git_places.specs.Finds.{FindsInTree};
ghost use Rattle.git_config_lite.specs.Writers.{configuration_with_other_appended};
ghost use Rattle.git_places.specs.Places as words;

use crate::error::PlacesError;
use crate::format::{
    Version, config_boolean_or_false, copy_optional_path, file_of_last_section_with_key,
    parse_format_version_if_configured, require_allowed_extensions,
};
use crate::git_directory::dot_git_path;
use crate::upward::Top;
use crate::whole::is_directory_at_path;
use git_config_lite::{File, Metadata, ParseError, Source};
use gitbase_core::{Bytes, OutOfMemory, PathText};
use std::alloc::Global;
use std::marker::Model;
use worktree_fs::{
    Worktree, common_git_directory, read_file_if_present, resolve_path_from_directory,
};

/// Where a work tree and its repository lie; absolute paths. Contracts see a record of them.
#[derive(Debug, Drop)]
pub struct Places {
    /// The top of the work tree: the directory that has the `.git`, or what `core.worktree` names,
    /// without links.
    pub root: PathText,
    /// The git directory of this work tree, as it is spelled; its `index` is there.
    pub git_dir: PathText,
    /// What all work trees of the repository share, as it is spelled: its `config`, `info/exclude`,
    /// objects and refs.
    pub common_dir: PathText,
    /// By what the repository is told from others: the path, without links, of `.git` in the root,
    /// a directory or a file; where `core.worktree` names another root, of the git directory.
    pub own_git: PathText,
    /// Whether this work tree has a configuration of its own, `config.worktree` of the git
    /// directory, behind that of the common directory: where `extensions.worktreeConfig` says so,
    /// and the format has a version.
    pub has_own_config: bool,
}

impl Model for Places {
    ghost use Rattle.git_places.specs.Places as words;

    ghost Value = { words.RepositoryPlaces };

    ghost view = { λ places. record { root = places.root; git = places.git_dir; common = places.common_dir; own = places.own_git; has_own_config = places.has_own_config } };
}

/// What is said of a configuration of the repository at a path.
fn local_metadata_of_path(alloc: Global, path: &[u8]) -> Result<Metadata, OutOfMemory>
    ensures { IfOk result (λ meta. meta ≡ words.local_metadata_of_path path.now) }
{
    Ok(Metadata {
        source: Source::Local,
        path: Some(PathText::from_bytes(alloc, path)?),
    })
}

/// A configuration without sections.
fn empty_config(alloc: Global, path: &[u8]) -> Result<File, OutOfMemory>
    ensures { IfOk result (λ file. file ≡ words.local_configuration_of_sections path.now []) }
{
    let meta = local_metadata_of_path(alloc, path)?;
    Ok(File::new(alloc, meta))
}

/// The refusal of a configuration by its line.
fn config_syntax_error(alloc: Global, path: &[u8], line: usize) -> Result<PlacesError, OutOfMemory>
    ensures { IfOk result (λ e. e ≡ PlacesError.Config path.now line) }
{
    Ok(PlacesError::Config {
        path: PathText::from_bytes(alloc, path)?,
        line,
    })
}

/// What the bytes of a configuration say.
fn parse_local_config(alloc: Global, path: &[u8], bytes: &[u8]) -> Result<File, PlacesError>
    ensures { AnswersUnlessOutOfMemory result (words.parse_local_config_or_empty path.now
        (Some bytes.now)) }
{
    let meta = local_metadata_of_path(alloc, path)?;
    match File::from_bytes(alloc, bytes, meta) {
        Ok(file) => Ok(file),
        Err(ParseError::Syntax { line }) => Err(config_syntax_error(alloc, path, line)?),
        Err(ParseError::OutOfMemory) => Err(PlacesError::OutOfMemory),
    }
}

/// What a configuration of the repository says; one that is not there says nothing.
fn read_local_config<W: Worktree>(
    alloc: Global,
    worktree: &mut W,
    path: &[u8],
) -> Result<File, PlacesError>
    ensures { FindsInTree W.Worktree worktree.old worktree.new (λ t. words.read_local_config t
        path.now) result }
{
    let mut bytes = Bytes::new(alloc);
    if !read_file_if_present(alloc, worktree, path, &mut bytes)? {
        return Ok(empty_config(alloc, path)?);
    }
    parse_local_config(alloc, path, bytes.as_bytes())
}

/// Whether a git directory says that its common directory is elsewhere.
fn has_commondir_file<W: Worktree>(
    alloc: Global,
    worktree: &mut W,
    git: &[u8],
) -> Result<bool, PlacesError>
    ensures { FindsInTree W.Worktree worktree.old worktree.new
        (λ t. Ok (words.has_commondir_file t git.now)) result }
{
    let path = resolve_path_from_directory(alloc, b"commondir", git)?;
    let mut bytes = Bytes::new(alloc);
    Ok(read_file_if_present(alloc, worktree, path.as_bytes(), &mut bytes)?)
}

/// The configuration of a work tree by itself.
fn read_worktree_config<W: Worktree>(
    alloc: Global,
    worktree: &mut W,
    git: &[u8],
) -> Result<File, PlacesError>
    ensures { FindsInTree W.Worktree worktree.old worktree.new
        (λ t. words.read_local_config t (words.worktree_config_path git.now)) result }
{
    let path = worktree_config_path(alloc, git)?;
    read_local_config(alloc, worktree, path.as_bytes())
}

fn worktree_config_path(alloc: Global, git: &[u8]) -> Result<Bytes, OutOfMemory>
    ensures { IfOk result (λ path. path ≡ words.worktree_config_path git.now) }
{
    resolve_path_from_directory(alloc, b"config.worktree", git)
}

/// One configuration behind another.
fn append_config_sections(alloc: Global, config: File, more: File) -> Result<File, PlacesError>
    ensures { AnswersUnlessOutOfMemory result (Ok (configuration_with_other_appended config more)) }
{
    let mut both = config;
    both.append(alloc, more)?;
    Ok(both)
}

/// The shared configuration with that of the work tree behind it.
fn append_worktree_config<W: Worktree>(
    alloc: Global,
    worktree: &mut W,
    git: &[u8],
    config: File,
) -> Result<File, PlacesError>
    ensures { FindsInTree W.Worktree worktree.old worktree.new
        (λ t. words.config_deciding_work_tree t git.now config true) result }
{
    let more = read_worktree_config(alloc, worktree, git)?;
    append_config_sections(alloc, config, more)
}

/// Of what `core.bare` and `core.worktree` are asked.
fn config_deciding_work_tree<W: Worktree>(
    alloc: Global,
    worktree: &mut W,
    git: &[u8],
    config: File,
    own: bool,
) -> Result<File, PlacesError>
    ensures { FindsInTree W.Worktree worktree.old worktree.new
        (λ t. words.config_deciding_work_tree t git.now config own) result }
{
    if own {
        return append_worktree_config(alloc, worktree, git, config);
    }
    if has_commondir_file(alloc, worktree, git)? {
        return Ok(empty_config(alloc, git)?);
    }
    Ok(config)
}

/// The refusal of a path that `core.worktree` names.
fn no_work_tree_error(alloc: Global, path: &[u8]) -> Result<PlacesError, OutOfMemory>
    ensures { IfOk result (λ e. e ≡ PlacesError.NoWorkTree path.now) }
{
    Ok(PlacesError::NoWorkTree {
        path: PathText::from_bytes(alloc, path)?,
    })
}

/// The work tree at a path, without its links.
fn real_work_tree_path<W: Worktree>(
    alloc: Global,
    worktree: &mut W,
    path: &[u8],
) -> Result<PathText, PlacesError>
    ensures { FindsInTree W.Worktree worktree.old worktree.new
        (λ t. words.real_path_or_no_work_tree_error path.now (real_path t path.now (47 ∷ [])))
        result }
{
    match worktree.real_path(alloc, path, b"/")? {
        Some(real) => Ok(real),
        None => Err(no_work_tree_error(alloc, path)?),
    }
}

/// The work tree that `core.worktree` in a file names.
fn work_tree_of_core_worktree<W: Worktree>(
    alloc: Global,
    worktree: &mut W,
    git: &[u8],
    file: Option<&PathText>,
    path: &[u8],
) -> Result<PathText, PlacesError>
    ensures { FindsInTree W.Worktree worktree.old worktree.new
        (λ t. words.work_tree_of_core_worktree t git.now (option_copied file.entry) path.now)
        result }
{
    if path.is_empty() {
        return Err(PlacesError::Value {
            path: copy_optional_path(alloc, file)?,
            key: Bytes::from_slice(alloc, b"core.worktree")?,
        });
    }
    let full = resolve_path_from_directory(alloc, path, git)?;
    if !is_directory_at_path(alloc, worktree, full.as_bytes())? {
        return Err(no_work_tree_error(alloc, full.as_bytes())?);
    }
    real_work_tree_path(alloc, worktree, full.as_bytes())
}

/// The directory at which the search ended, unless another is named.
fn core_worktree_or_top<W: Worktree>(
    alloc: Global,
    worktree: &mut W,
    top: &Top,
    file: Option<&PathText>,
    path: Option<&[u8]>,
) -> Result<PathText, PlacesError>
    ensures { FindsInTree W.Worktree worktree.old worktree.new (λ t. words.core_worktree_or_top t
        top.now (option_copied file.entry) (option_copied path.entry)) result }
{
    match path {
        Some(path) => work_tree_of_core_worktree(alloc, worktree, top.git.as_bytes(), file, path),
        None => Ok(PathText::from_bytes(alloc, top.directory.as_bytes())?),
    }
}

/// The work tree, by the configurations that are asked for it.
fn work_tree_by_core_bare_and_worktree<W: Worktree>(
    alloc: Global,
    worktree: &mut W,
    top: &Top,
    asked: &File,
) -> Result<PathText, PlacesError>
    ensures { FindsInTree W.Worktree worktree.old worktree.new
        (λ t. words.work_tree_by_core_bare_and_worktree t top.now asked.now) result }
{
    if config_boolean_or_false(alloc, asked, b"core", b"bare")? {
        return Err(PlacesError::Bare {
            path: PathText::from_bytes(alloc, top.git.as_bytes())?,
        });
    }
    core_worktree_or_top(
        alloc,
        worktree,
        top,
        file_of_last_section_with_key(asked, b"core", b"worktree"),
        asked.string(b"core", None, b"worktree"),
    )
}

/// The work tree, by whether each has a configuration of its own.
fn work_tree_by_deciding_config<W: Worktree>(
    alloc: Global,
    worktree: &mut W,
    top: &Top,
    config: File,
    own: bool,
) -> Result<PathText, PlacesError>
    ensures { FindsInTree W.Worktree worktree.old worktree.new
        (λ t. words.work_tree_by_deciding_config t top.now config own) result }
{
    let asked = config_deciding_work_tree(alloc, worktree, top.git.as_bytes(), config, own)?;
    work_tree_by_core_bare_and_worktree(alloc, worktree, top, &asked)
}

/// Whether each work tree has a configuration of its own, by the version of the format.
fn check_extensions_and_has_worktree_config(
    alloc: Global,
    config: &File,
    version: Option<Version>,
) -> Result<bool, PlacesError>
    ensures { AnswersUnlessOutOfMemory result (words.check_extensions_and_has_worktree_config
        config.now.sections version) }
{
    match version {
        Some(version) => {
            require_allowed_extensions(alloc, version, config)?;
            config_boolean_or_false(alloc, config, b"extensions", b"worktreeconfig")
        }
        None => Ok(false),
    }
}

/// The root of the work tree, by the version of the format.
fn root_by_format_version<W: Worktree>(
    alloc: Global,
    worktree: &mut W,
    top: &Top,
    config: File,
    version: Option<Version>,
    own: bool,
) -> Result<PathText, PlacesError>
    ensures { FindsInTree W.Worktree worktree.old worktree.new
        (λ t. words.root_by_format_version t top.now config version own) result }
{
    match version {
        Some(_) => work_tree_by_deciding_config(alloc, worktree, top, config, own),
        None => Ok(PathText::from_bytes(alloc, top.directory.as_bytes())?),
    }
}

/// The path by which the repository is told from others, with its links.
fn path_identifying_repository(
    alloc: Global,
    top: &Top,
    root: &[u8],
) -> Result<PathText, OutOfMemory>
    ensures { IfOk result (λ path. path ≡ words.path_identifying_repository top.now root.now) }
{
    if root == top.directory.as_bytes() {
        return dot_git_path(alloc, root);
    }
    PathText::from_bytes(alloc, top.git.as_bytes())
}

/// A path without its links, or as it is where nothing is there.
fn real_path_or_unchanged<W: Worktree>(
    alloc: Global,
    worktree: &mut W,
    path: PathText,
) -> Result<PathText, PlacesError>
    ensures { FindsInTree W.Worktree worktree.old worktree.new
        (λ t. Ok (unwrap_or (real_path t path (47 ∷ [])) path)) result }
{
    match worktree.real_path(alloc, path.as_bytes(), b"/")? {
        Some(real) => Ok(real),
        None => Ok(path),
    }
}

/// The places of a repository whose root and common directory are known.
fn places_with_real_own_git_path<W: Worktree>(
    alloc: Global,
    worktree: &mut W,
    top: Top,
    common: &[u8],
    own: bool,
    root: PathText,
) -> Result<Places, PlacesError>
    ensures { FindsInTree W.Worktree worktree.old worktree.new
        (λ t. Ok (words.places_with_real_own_git_path t top common.now own root)) result }
{
    let common_dir = PathText::from_bytes(alloc, common)?;
    let path = path_identifying_repository(alloc, &top, root.as_bytes())?;
    let own_git = real_path_or_unchanged(alloc, worktree, path)?;
    Ok(Places {
        root,
        git_dir: top.git,
        common_dir,
        own_git,
        has_own_config: own,
    })
}

/// The places of a repository by what its configuration says.
fn places_by_config<W: Worktree>(
    alloc: Global,
    worktree: &mut W,
    top: Top,
    common: &[u8],
    config: File,
) -> Result<Places, PlacesError>
    ensures { FindsInTree W.Worktree worktree.old worktree.new
        (λ t. words.places_by_config t top common.now config) result }
{
    let version = parse_format_version_if_configured(alloc, &config)?;
    let own = check_extensions_and_has_worktree_config(alloc, &config, version)?;
    let root = root_by_format_version(alloc, worktree, &top, config, version, own)?;
    places_with_real_own_git_path(alloc, worktree, top, common, own, root)
}

/// Where the repository of a work tree lies, as git(1) finds it: `top` is what
/// [`find_work_tree_top`](crate::find_work_tree_top) answers.
///
/// The repository's format is read from its own configuration alone, in which no include is
/// followed: `config` of the common directory, and `config.worktree` of the git directory behind it
/// where `extensions.worktreeConfig` is set. Where `core.repositoryFormatVersion` says nothing,
/// that configuration has no say; `core.bare` and `core.worktree` have none where the git directory
/// shares another one's, and has no configuration of its own.
///
/// Nothing here looks at the owner: a program asks for that before this call.
///
/// # Errors
///
/// - `Bare`: `core.bare` says so.
/// - `Config`: a line of a configuration is outside its grammar.
/// - `Version`: the format has a version that is neither 0 nor 1.
/// - `Extension`, `Sha256`: the format asks for what is not known; `objectFormat` and `noop-v1` in
///   version 0 are such keys, too.
/// - `Value`: `extensions.worktreeConfig` or `core.bare` is no boolean, or `core.worktree` is
///   empty.
/// - `NoWorkTree`: no directory is at the path that `core.worktree` names.
/// - `Fault`: the worktree failed, which it counted. No fault reads as "nothing is there".
/// - `OutOfMemory` for want of memory.
///
/// See docs/DIFFERENCES.md#repository-format.
pub fn places_of_work_tree_top<W: Worktree>(
    alloc: Global,
    worktree: &mut W,
    top: Top,
) -> Result<Places, PlacesError>
    ensures { FindsInTree W.Worktree worktree.old worktree.new (λ t. words.places_of_work_tree_top t
        top) result }
{
    let common = common_git_directory(alloc, worktree, top.git.as_bytes())?;
    let path = resolve_path_from_directory(alloc, b"config", common.as_bytes())?;
    let config = read_local_config(alloc, worktree, path.as_bytes())?;
    places_by_config(alloc, worktree, top, common.as_bytes(), config)
}
