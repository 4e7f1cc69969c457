//! What the configuration says of how a work tree is compared with its index.
ghost use Rattle.std.specs.Prelude.{◌≡◌, is_some, option_copied, IfOk};
ghost use Rattle.git_setup.specs.Finds.{IsFoundOrRefusesMemory};
ghost use Rattle.git_setup.specs.Settings as words;

use crate::error::GitRefusal;
use crate::switches::{read_boolean_or_default, refusal_of_invalid_config_value};
use git_config_lite::File;
use git_places::file_of_last_section_with_key;
use gitbase_core::{Bytes, OutOfMemory, eq_ignore_case};
use std::alloc::Global;

/// What the configuration says of how nodes are compared with the index.
#[derive(Clone, Copy, Debug, PartialEq, Eq)]
pub struct NodeSettings {
    /// Whether the executable bit counts: `core.fileMode`.
    pub file_mode: bool,
    /// Whether links are checked out as links: `core.symlinks`.
    pub symlinks: bool,
    /// Whether the ctime counts: `core.trustctime`.
    pub trust_ctime: bool,
    /// Whether the ctime, the owner and the number of a file count: `core.checkStat`.
    pub check_stat: bool,
}

/// What the configuration and the files say of how a work tree is compared with its index.
#[derive(Clone, Copy, Debug, PartialEq, Eq)]
pub struct Settings {
    /// How nodes are compared.
    pub nodes: NodeSettings,
    /// Whether bytes above 0x7f are quoted in paths that are written.
    pub quote_path: bool,
    /// Whether a skipped entry that is in the work tree counts as one that is not skipped.
    pub looks_for_skipped: bool,
    /// Whether the bytes of some file may be converted on their way into the index.
    pub converts: bool,
    /// Whether some submodule may be left out.
    pub ignores_submodules: bool,
}

/// Whether all fields of a node count, by the value of `core.checkStat`.
fn parse_check_stat(value: &[u8]) -> Option<bool>
    ensures { result ≡ words.parse_check_stat value.now }
{
    if eq_ignore_case(value, b"default") {
        Some(true)
    } else if eq_ignore_case(value, b"minimal") {
        Some(false)
    } else {
        None
    }
}

/// Whether all fields of a node count.
fn read_check_stat(alloc: Global, config: &File) -> Result<bool, GitRefusal>
    ensures { IsFoundOrRefusesMemory result (words.read_check_stat config.now.sections) }
{
    let Some(value) = config.string(b"core", None, b"checkstat") else {
        return Ok(true);
    };
    match parse_check_stat(value) {
        Some(checks) => Ok(checks),
        None => {
            let file = file_of_last_section_with_key(config, b"core", b"checkstat");
            Err(refusal_of_invalid_config_value(alloc, file, b"core.checkStat")?)
        }
    }
}

/// What the configuration says of how nodes are compared.
///
/// See docs/DIFFERENCES.md#diff-check-stat.
#[tactic(auto, unfolding(crate::specs::Settings::read_stat_and_mode_settings))]
fn read_stat_and_mode_settings(alloc: Global, config: &File) -> Result<NodeSettings, GitRefusal>
    ensures { IsFoundOrRefusesMemory result (words.read_stat_and_mode_settings
        config.now.sections) }
{
    let file_mode = read_boolean_or_default(
        alloc,
        config,
        b"core",
        b"filemode",
        b"core.fileMode",
        true,
    )?;
    let symlinks = read_boolean_or_default(
        alloc,
        config,
        b"core",
        b"symlinks",
        b"core.symlinks",
        true,
    )?;
    let trust_ctime = read_boolean_or_default(
        alloc,
        config,
        b"core",
        b"trustctime",
        b"core.trustctime",
        true,
    )?;
    let check_stat = read_check_stat(alloc, config)?;
    Ok(NodeSettings {
        file_mode,
        symlinks,
        trust_ctime,
        check_stat,
    })
}

/// That a key of the configuration is not heeded.
fn refusal_key_not_supported(alloc: Global, key: &[u8]) -> Result<GitRefusal, OutOfMemory>
    ensures { IfOk result (λ e. e ≡ GitRefusal.Elsewhere key.now) }
{
    Ok(GitRefusal::Elsewhere {
        name: Bytes::from_slice(alloc, key)?,
    })
}

/// Whether a program tells which files changed: any value of `core.fsmonitor` but one that is
/// false.
fn has_fsmonitor(config: &File) -> bool
    ensures { result ≡ words.has_fsmonitor config.now.sections }
{
    !matches!(
        config.boolean(b"core", None, b"fsmonitor"),
        Ok(None) | Ok(Some(false))
    )
}

/// What the configuration says of how nodes are compared, unless a program tells which files
/// changed.
///
/// See docs/DIFFERENCES.md#diff-watched.
pub fn stat_and_mode_settings_unless_fsmonitor(
    alloc: Global,
    config: &File,
) -> Result<NodeSettings, GitRefusal>
    ensures { IsFoundOrRefusesMemory result (words.stat_and_mode_settings_unless_fsmonitor
        config.now.sections) }
{
    if has_fsmonitor(config) {
        return Err(refusal_key_not_supported(alloc, b"core.fsmonitor")?);
    }
    read_stat_and_mode_settings(alloc, config)
}

/// Whether a key of `core` has a value.
fn has_core_key(config: &File, key: &[u8]) -> bool
    ensures { result ≡ words.has_core_key key.now config.now.sections }
{
    config.string(b"core", None, key).is_some()
}

/// Whether a value of `core.autocrlf` has line ends converted on their way into the index alone.
fn is_autocrlf_input(value: Option<&[u8]>) -> bool
    ensures { result ≡ words.is_autocrlf_input (option_copied value.entry) }
{
    match value {
        Some(value) => eq_ignore_case(value, b"input"),
        None => false,
    }
}

/// Whether `core.autocrlf` has line ends converted.
fn converts_line_ends_by_autocrlf(alloc: Global, config: &File) -> Result<bool, GitRefusal>
    ensures { IsFoundOrRefusesMemory result (words.converts_line_ends_by_autocrlf
        config.now.sections) }
{
    if is_autocrlf_input(config.string(b"core", None, b"autocrlf")) {
        return Ok(true);
    }
    read_boolean_or_default(alloc, config, b"core", b"autocrlf", b"core.autocrlf", false)
}

/// Whether the configuration alone says that bytes may be converted.
pub fn may_convert_by_config(alloc: Global, config: &File) -> Result<bool, GitRefusal>
    ensures { IsFoundOrRefusesMemory result (words.may_convert_by_config config.now.sections) }
{
    let converts = converts_line_ends_by_autocrlf(alloc, config)?;
    let ends = has_core_key(config, b"eol");
    let attributes = has_core_key(config, b"attributesfile");
    Ok(converts | (ends | attributes))
}
