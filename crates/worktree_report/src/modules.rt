//! The files that tell of submodules.
ghost use Rattle.std.specs.Prelude.{◌≡◌, ◌≤◌, ℕ, Some, IfOk, IfErr, IsErrOf, OnOk, if◌then◌else◌};
ghost use Rattle.git_config_lite.specs.Grammar.{parse_text_sections};
ghost use Rattle.worktree_fs.specs.Causes.{CountIncreasedOrSaturated, saturating_sum};
ghost use Rattle.worktree_fs.specs.Tree.{Names, look};
ghost use Rattle.worktree_report.specs.Loading as loading;
ghost use Rattle.worktree_report.specs.Loads.{IsResultUnlessFault, IsConfigParseResult, ReadsFilesAtMost, IsErrorOfReadingConfig, IsErrorOfReadingModules};
ghost use Rattle.worktree_report.specs.Outside.{IsMisreadOfNumberedConfig, IsMisreadOfSomeConfig, IsMisreadOfGitmodules, IsMisreadOfSetup, HoldsOfMisread, StopsReadingAtError};
ghost use Rattle.worktree_report.specs.Permissions.{admits};

use crate::error::ReportError;
use crate::permissions::Permissions;
use crate::setup::Setup;
use git_config_lite as config;
use git_config_lite::{Metadata, ParseError, Source};
use gitbase_core::{Bytes, OutOfMemory, PathText};
use std::alloc::Global;
use submodule::init;
use worktree_fs::{ReadAnswer, ReadError, Worktree};

/// What a work tree and the configurations of a setup tell of submodules.
#[derive(Drop)]
pub struct Modules {
    /// `.gitmodules` of the worktree root, with the overrides of `config` behind it.
    pub file: submodule::File,
    /// The configurations that the permissions admit, one behind another. Together they are of no
    /// file, and belong to the calling program.
    pub config: config::File,
}

/// The bytes of the file that a path leads to. What is no file counts as an empty one.
/// See docs/DECISIONS.md#nul-in-paths.
fn read_file_or_empty<W: Worktree>(
    alloc: Global,
    worktree: &mut W,
    path: &[u8],
    follow: bool,
) -> Result<Bytes, ReadError>
    ensures bytes { (t : Names) → W.told worktree.old ≡ Some t
        → IfOk result (λ bytes. bytes ≡ loading.file_bytes_or_empty (look t path.now follow)) }
    ensures cause { IsErrOf result ReadError.Fault
        → CountIncreasedOrSaturated (W.faults worktree.old) (W.faults worktree.new) }
    ensures unfaulted { OnOk result (W.faults worktree.new ≡ W.faults worktree.old) }
    ensures read { OnOk result (saturating_sum (W.reads worktree.old) 1 ≤ W.reads worktree.new) }
    ensures loads { ReadsFilesAtMost W.Worktree worktree.old worktree.new 1 }
{
    let mut bytes = Bytes::new(alloc);
    match worktree.read(alloc, path, follow, &mut bytes)? {
        ReadAnswer::Read => Ok(bytes),
        _ => Ok(Bytes::new(alloc)),
    }
}

/// What the text of a configuration says, by the number of its line.
///
/// `Config` names its first line outside the grammar of git-config(1).
fn parse_numbered_config(
    alloc: Global,
    at: usize,
    named: &(Source, PathText),
    bytes: &[u8],
) -> Result<config::File, ReportError>
    ensures { IsConfigParseResult result at (parse_text_sections (loading.metadata_of_config_file
        named.now) bytes.now) }
{
    let meta = Metadata {
        source: named.0,
        path: Some(PathText::from_bytes(alloc, named.1.as_bytes())?),
    };
    match config::File::from_bytes(alloc, bytes, meta) {
        Ok(file) => Ok(file),
        Err(ParseError::Syntax { line }) => Err(ReportError::Config { at, line }),
        Err(ParseError::OutOfMemory) => Err(ReportError::OutOfMemory),
    }
}

/// A configuration behind others, where the permissions admit it.
fn append_config_if_admitted<W: Worktree>(
    alloc: Global,
    worktree: &mut W,
    permissions: &Permissions,
    at: usize,
    named: &(Source, PathText),
    mut config: config::File,
) -> Result<config::File, ReportError>
    ensures gives { (t : Names) → W.told worktree.old ≡ Some t → IsResultUnlessFault result
        (loading.append_config_if_admitted t permissions.now at named.now config) }
    ensures answers { IfErr result (IsErrorOfReadingConfig (CountIncreasedOrSaturated
        (W.faults worktree.old) (W.faults worktree.new))) }
    ensures outside { IfErr result (HoldsOfMisread (IsMisreadOfNumberedConfig permissions.now at
        named.now)) }
    ensures unfaulted { OnOk result (W.faults worktree.new ≡ W.faults worktree.old) }
    ensures read { OnOk result (saturating_sum (W.reads worktree.old)
        (if admits permissions.now named.now.0 then 1 else 0) ≤ W.reads worktree.new) }
    ensures loads { ReadsFilesAtMost W.Worktree worktree.old worktree.new
        (if admits permissions.now named.now.0 then 1 else 0) }
{
    if !permissions.admits(named.0) {
        return Ok(config);
    }
    let bytes = read_file_or_empty(alloc, worktree, named.1.as_bytes(), true)?;
    let file = parse_numbered_config(alloc, at, named, bytes.as_bytes())?;
    config.append(alloc, file)?;
    Ok(config)
}

/// The configurations of a setup that its permissions admit, one behind another.
fn read_admitted_configs<W: Worktree>(
    alloc: Global,
    worktree: &mut W,
    setup: &Setup,
) -> Result<config::File, ReportError>
    ensures gives { (t : Names) → W.told worktree.old ≡ Some t → IsResultUnlessFault result
        (loading.append_admitted_configs t setup.now.options.permissions 1 setup.now.configs
        loading.empty_configuration) }
    ensures answers { IfErr result (IsErrorOfReadingConfig (CountIncreasedOrSaturated
        (W.faults worktree.old) (W.faults worktree.new))) }
    ensures outside { IfErr result (HoldsOfMisread (IsMisreadOfSomeConfig setup.now)) }
    ensures stops { IfErr result (StopsReadingAtError W.Worktree worktree.old worktree.new
        setup.now) }
    ensures unfaulted { OnOk result (W.faults worktree.new ≡ W.faults worktree.old) }
    ensures read { OnOk result (saturating_sum (W.reads worktree.old)
        (loading.count_admitted_configs setup.now.options.permissions setup.now.configs)
        ≤ W.reads worktree.new) }
    ensures loads { ReadsFilesAtMost W.Worktree worktree.old worktree.new
        (loading.count_admitted_configs setup.now.options.permissions setup.now.configs) }
{
    let meta = Metadata {
        source: Source::Api,
        path: None,
    };
    let mut config = config::File::new(alloc, meta);
    for (i, named) in setup.configs.as_slice().iter().enumerate() {
        config = append_config_if_admitted(
            alloc,
            worktree,
            &setup.options.permissions,
            i + 1,
            named,
            config,
        )?;
    }
    Ok(config)
}

/// The path of `.gitmodules`.
fn gitmodules_path(alloc: Global, root: &[u8]) -> Result<PathText, OutOfMemory>
    ensures { IfOk result (λ path. path ≡ loading.gitmodules_path root.now) }
{
    let mut path = PathText::from_bytes(alloc, root)?;
    path.push_component(alloc, b".gitmodules")?;
    Ok(path)
}

/// `.gitmodules` with the overrides of a configuration behind it, beside that configuration.
fn read_gitmodules_with_config<W: Worktree>(
    alloc: Global,
    worktree: &mut W,
    root: &[u8],
    config: config::File,
) -> Result<Modules, ReportError>
    ensures gives { (t : Names) → W.told worktree.old ≡ Some t
        → IsResultUnlessFault result (loading.parse_gitmodules_with_config t root.now config) }
    ensures text { IfOk result (loading.AreModulesOfSomeText root.now) }
    ensures answers { IfErr result (IsErrorOfReadingModules (CountIncreasedOrSaturated
        (W.faults worktree.old) (W.faults worktree.new))) }
    ensures outside { IfErr result (HoldsOfMisread (IsMisreadOfGitmodules root.now)) }
    ensures unfaulted { OnOk result (W.faults worktree.new ≡ W.faults worktree.old) }
    ensures read { OnOk result (saturating_sum (W.reads worktree.old) 1 ≤ W.reads worktree.new) }
    ensures loads { ReadsFilesAtMost W.Worktree worktree.old worktree.new 1 }
{
    let path = gitmodules_path(alloc, root)?;
    let bytes = read_file_or_empty(alloc, worktree, path.as_bytes(), false)?;
    match submodule::File::from_bytes(alloc, bytes.as_bytes(), Some(path), &config) {
        Ok(file) => Ok(Modules { file, config }),
        Err(init::Error::Parse { line }) => Err(ReportError::Modules { line }),
        Err(init::Error::OutOfMemory) => Err(ReportError::OutOfMemory),
    }
}

/// Reads the configurations of a setup that its permissions admit, with links followed and in
/// order, and then `.gitmodules` in the worktree root, which is absolute and has no component `.`
/// or `..`, a link not followed. What is no file counts as an empty one. Each is read once, none
/// behind the one for which it is refused, and nothing else is asked of the worktree. No reading
/// that failed is made again.
///
/// # Errors
///
/// - `Config` names the first configuration with a line outside the grammar of git-config(1), and
///   that line.
/// - `Modules` names the first such line of `.gitmodules`.
/// - `ReadFault` comes only where the worktree failed and counted it.
/// - `OutOfMemory` for want of memory.
///
/// See docs/DECISIONS.md#joined-configurations.
/// See docs/DECISIONS.md#config-numbers.
#[tactic(auto, unfolding(crate::specs::Loading::modules_of_setup_in_tree))]
pub fn load_modules<W: Worktree>(
    alloc: Global,
    worktree: &mut W,
    worktree_root: &[u8],
    setup: &Setup,
) -> Result<Modules, ReportError>
    ensures gives { (t : Names) → W.told worktree.old ≡ Some t → IsResultUnlessFault result
        (loading.modules_of_setup_in_tree t worktree_root.now setup.now) }
    ensures text { IfOk result (loading.AreModulesOfSomeText worktree_root.now) }
    ensures answers { IfErr result (IsErrorOfReadingModules (CountIncreasedOrSaturated
        (W.faults worktree.old) (W.faults worktree.new))) }
    ensures outside { IfErr result (HoldsOfMisread (IsMisreadOfSetup worktree_root.now setup.now)) }
    ensures stops { IfErr result (StopsReadingAtError W.Worktree worktree.old worktree.new
        setup.now) }
    ensures unfaulted { OnOk result (W.faults worktree.new ≡ W.faults worktree.old) }
    ensures read { OnOk result (saturating_sum (W.reads worktree.old)
        (loading.count_files_for_submodules setup.now) ≤ W.reads worktree.new) }
    ensures loads { ReadsFilesAtMost W.Worktree worktree.old worktree.new
        (loading.count_files_for_submodules setup.now) }
{
    let config = read_admitted_configs(alloc, worktree, setup)?;
    read_gitmodules_with_config(alloc, worktree, worktree_root, config)
}
