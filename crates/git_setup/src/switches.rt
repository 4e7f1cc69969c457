//! What the configuration says of how names compare, of a sparse work tree, and of how paths are
//! written.
ghost use Rattle.std.specs.Prelude.{◌≡◌, IfOk, option_copied};
ghost use Rattle.git_setup.specs.Finds.{IsFoundOrRefusesMemory};
ghost use Rattle.git_setup.specs.Switches as words;

use crate::error::GitRefusal;
use git_config_lite::File;
use git_places::{copy_optional_path, file_of_last_section_with_key};
use gitbase_core::{Bytes, OutOfMemory, PathText};
use std::alloc::Global;

/// What the configuration says of how names compare, of a sparse work tree, and of how paths are
/// written.
#[derive(Clone, Copy, Debug, PartialEq, Eq)]
pub struct Switches {
    /// Whether names compare without regard to the case of ASCII letters.
    pub ignore_case: bool,
    /// Whether a skipped entry that is in the work tree counts as one that is not skipped.
    pub looks_for_skipped: bool,
    /// Whether bytes above 0x7f are quoted in paths that are written.
    pub quote_path: bool,
}

/// The refusal of the value of a key in a file, by what the key is called.
pub fn refusal_of_invalid_config_value(
    alloc: Global,
    file: Option<&PathText>,
    name: &[u8],
) -> Result<GitRefusal, OutOfMemory>
    ensures { IfOk result (λ e. e ≡ GitRefusal.Boolean (option_copied file.entry) name.now) }
{
    Ok(GitRefusal::Boolean {
        path: copy_optional_path(alloc, file)?,
        key: Bytes::from_slice(alloc, name)?,
    })
}

/// What a key says as a boolean, and the usual answer where it says nothing; `name` is what it is
/// called where it is refused.
pub fn read_boolean_or_default(
    alloc: Global,
    config: &File,
    section: &[u8],
    key: &[u8],
    name: &[u8],
    usual: bool,
) -> Result<bool, GitRefusal>
    ensures { IsFoundOrRefusesMemory result (words.read_boolean_or_default config.now.sections
        section.now key.now name.now usual) }
{
    match config.boolean(section, None, key) {
        Ok(Some(truth)) => Ok(truth),
        Ok(None) => Ok(usual),
        Err(_) => Err(refusal_of_invalid_config_value(
            alloc,
            file_of_last_section_with_key(config, section, key),
            name,
        )?),
    }
}

/// The switches of a configuration.
///
/// See docs/DIFFERENCES.md#last-boolean.
#[tactic(auto, unfolding(crate::specs::Switches::read_case_sparse_and_quote_switches))]
pub fn read_case_sparse_and_quote_switches(
    alloc: Global,
    config: &File,
) -> Result<Switches, GitRefusal>
    ensures { IsFoundOrRefusesMemory result (words.read_case_sparse_and_quote_switches
        config.now.sections) }
{
    let ignore_case = read_boolean_or_default(
        alloc,
        config,
        b"core",
        b"ignorecase",
        b"core.ignoreCase",
        false,
    )?;
    let sparse = read_boolean_or_default(
        alloc,
        config,
        b"core",
        b"sparsecheckout",
        b"core.sparseCheckout",
        false,
    )?;
    let expects = read_boolean_or_default(
        alloc,
        config,
        b"sparse",
        b"expectfilesoutsideofpatterns",
        b"sparse.expectFilesOutsideOfPatterns",
        false,
    )?;
    let quote_path = read_boolean_or_default(
        alloc,
        config,
        b"core",
        b"quotepath",
        b"core.quotePath",
        true,
    )?;
    Ok(Switches {
        ignore_case,
        looks_for_skipped: sparse & !expects,
        quote_path,
    })
}
