//! How a submodule is brought up to date.
ghost use Rattle.std.specs.Prelude.{◌≡◌, option_map, IfOk};
ghost use Rattle.git_config_lite.specs.Seen.{text_and_source_from_reference};
ghost use Rattle.submodule.specs.Updates as updates;
ghost use Rattle.submodule.specs.Gives.{UpdateParseAgrees};
ghost use Rattle.submodule.specs.Names as names;
ghost use Rattle.submodule.specs.Access as access;
ghost use Rattle.submodule.specs.Answers as answers;
ghost use Rattle.submodule.specs.declared.update.Error.TheVariants as refusals;

use crate::shown::lossy_text_of_bytes;
use git_config_lite::Source;
use gitbase_core::{Bytes, OutOfMemory};
use std::alloc::Global;

/// How a submodule is brought to the commit that the superproject records, as
/// `submodule.NAME.update` of gitmodules(5).
#[derive(Debug, Default, Drop, PartialEq, Eq, PartialOrd, Ord, Hash)]
pub enum Update {
    /// The commit is checked out.
    #[default]
    Checkout,
    /// The branch of the submodule is rebased onto the commit.
    Rebase,
    /// The commit is merged into the branch of the submodule.
    Merge,
    /// This command is run. Only a configuration other than `.gitmodules` may ask for one.
    Command(Bytes),
    /// Nothing is done.
    None,
}

/// Why a text says no update.
#[derive(Clone, Copy, Debug, PartialEq, Eq, thiserror::Error)]
pub enum UpdateParseError {
    /// It is none of the words.
    #[error("Invalid")]
    Invalid,
    /// Want of memory.
    #[error("OutOfMemory")]
    OutOfMemory,
}

impl From<OutOfMemory> for UpdateParseError {
    ghost use Rattle.std.specs.Prelude.{◌≡◌};
    ghost use Rattle.submodule.specs.declared.update.UpdateParseError.TheVariants as errors;

    ghost from_gives = { λ _ e. e ≡ errors.OutOfMemory };

    fn from(_refused: OutOfMemory) -> UpdateParseError {
        UpdateParseError::OutOfMemory
    }
}

/// Why a submodule has no update.
#[derive(Debug, Drop, PartialEq, Eq, thiserror::Error)]
pub enum Error {
    /// Its value is none of the words.
    #[error("The 'update' field of submodule '{}' was invalid: '{}'", lossy_text_of_bytes(.submodule), lossy_text_of_bytes(.actual))]
    Invalid {
        /// The name of the submodule.
        submodule: Bytes,
        /// The value.
        actual: Bytes,
    },
    /// `.gitmodules` asks for a command.
    #[error("The 'update' field of submodule '{}' tried to set command '{}' to be shared", lossy_text_of_bytes(.submodule), lossy_text_of_bytes(.actual))]
    CommandForbiddenInModulesConfiguration {
        /// The name of the submodule.
        submodule: Bytes,
        /// The command, without its `!`.
        actual: Bytes,
    },
    /// Want of memory.
    #[error("OutOfMemory")]
    OutOfMemory,
}

impl From<OutOfMemory> for Error {
    ghost use Rattle.std.specs.Prelude.{◌≡◌};
    ghost use Rattle.submodule.specs.declared.update.Error.TheVariants as refusals;

    ghost from_gives = { λ _ e. e ≡ refusals.OutOfMemory };

    fn from(_refused: OutOfMemory) -> Error {
        Error::OutOfMemory
    }
}

impl Update {
    /// What a text says: `checkout`, `rebase`, `merge` or `none`, byte for byte, or a command
    /// behind a `!`.
    ///
    /// # Errors
    ///
    /// - `Invalid` exactly for any other text.
    /// - `OutOfMemory` for want of memory.
    pub fn try_from(alloc: Global, value: &[u8]) -> Result<Update, UpdateParseError>
        ensures { UpdateParseAgrees result (updates.parse_update value.now) }
    {
        if value == b"checkout".as_slice() {
            Ok(Update::Checkout)
        } else if value == b"rebase".as_slice() {
            Ok(Update::Rebase)
        } else if value == b"merge".as_slice() {
            Ok(Update::Merge)
        } else if value == b"none".as_slice() {
            Ok(Update::None)
        } else {
            parse_update_command(alloc, value)
        }
    }
}

/// A command behind a `!`.
fn parse_update_command(alloc: Global, value: &[u8]) -> Result<Update, UpdateParseError>
    ensures { UpdateParseAgrees result (updates.parse_update_command value.now) }
{
    match value {
        [b'!', text @ ..] => Ok(Update::Command(Bytes::from_slice(alloc, text)?)),
        _ => Err(UpdateParseError::Invalid),
    }
}

fn invalid_update_error(alloc: Global, name: &[u8], value: &[u8]) -> Result<Error, OutOfMemory>
    ensures { IfOk result (λ e. e ≡ refusals.Invalid name.now value.now) }
{
    Ok(Error::Invalid {
        submodule: Bytes::from_slice(alloc, name)?,
        actual: Bytes::from_slice(alloc, value)?,
    })
}

fn forbidden_command_error(alloc: Global, name: &[u8], command: Bytes) -> Result<Error, OutOfMemory>
    ensures { IfOk result
        (λ e. e ≡ refusals.CommandForbiddenInModulesConfiguration name.now command) }
{
    Ok(Error::CommandForbiddenInModulesConfiguration {
        submodule: Bytes::from_slice(alloc, name)?,
        actual: command,
    })
}

/// Whether a section is one of `.gitmodules`.
/// See docs/DIFFERENCES.md#gix-modules-tag.
pub(crate) fn is_gitmodules_source(source: Source) -> bool
    ensures { result ≡ names.is_gitmodules_source source }
{
    matches!(source, Source::Modules)
}

/// An update that a value says, unless it is a command of `.gitmodules`.
/// See docs/DECISIONS.md#forbidden-command.
fn update_unless_gitmodules_command(
    alloc: Global,
    name: &[u8],
    source: Source,
    update: Update,
) -> Result<Update, Error>
    ensures { answers.UpdateFieldResultAgrees result (access.update_unless_gitmodules_command
        name.now source update) }
{
    match update {
        Update::Command(command) => {
            if is_gitmodules_source(source) {
                Err(forbidden_command_error(alloc, name, command)?)
            } else {
                Ok(Update::Command(command))
            }
        }
        other => Ok(other),
    }
}

/// The update that a value says.
/// See docs/DIFFERENCES.md#module-command.
fn parse_update_value(
    alloc: Global,
    name: &[u8],
    value: &[u8],
    source: Source,
) -> Result<Update, Error>
    ensures { answers.UpdateFieldResultAgrees result (access.update_allowed_or_error name.now
        value.now source (updates.parse_update value.now)) }
{
    match Update::try_from(alloc, value) {
        Ok(update) => update_unless_gitmodules_command(alloc, name, source, update),
        Err(UpdateParseError::Invalid) => Err(invalid_update_error(alloc, name, value)?),
        Err(UpdateParseError::OutOfMemory) => Err(Error::OutOfMemory),
    }
}

/// The update that a value says, if there is one.
pub(crate) fn update_of_optional_value(
    alloc: Global,
    name: &[u8],
    found: Option<(&[u8], Source)>,
) -> Result<Option<Update>, Error>
    ensures { answers.UpdateFieldResultAgrees result (access.update_of_optional_value name.now
        (option_map text_and_source_from_reference found.entry)) }
{
    match found {
        Some((value, source)) => Ok(Some(parse_update_value(alloc, name, value, source)?)),
        None => Ok(None),
    }
}
