//! The fields that are one of some words.
ghost use Rattle.std.specs.Prelude.{◌≡◌, option_copied, IfOk};
ghost use Rattle.submodule.specs.Access as access;
ghost use Rattle.submodule.specs.Recursions.{fetch_recurse_result_of_reference};
ghost use Rattle.submodule.specs.Answers as answers;
ghost use Rattle.submodule.specs.declared.field.FieldError.TheVariants as errors;

use crate::fetch_recurse::FetchRecurse;
use crate::ignore::Ignore;
use crate::shown::lossy_text_of_bytes;
use gitbase_core::{Bytes, OutOfMemory};
use std::alloc::Global;
use std::fmt;

/// A field that is one of some words.
#[derive(Clone, Copy, Debug, PartialEq, Eq)]
pub enum FieldName {
    /// Shown as `fetchRecurseSubmodules`.
    FetchRecurseSubmodules,
    /// Shown as `ignore`.
    Ignore,
}

impl fmt::Display for FieldName {
    fn fmt<W: fmt::Write>(&self, f: &mut fmt::Formatter<W>) -> fmt::Result {
        f.write_str(match self {
            FieldName::FetchRecurseSubmodules => "fetchRecurseSubmodules",
            FieldName::Ignore => "ignore",
        })
    }
}

/// Why a field of a submodule says nothing.
/// See docs/DIFFERENCES.md#gix-submodule-errors.
#[derive(Debug, Drop, PartialEq, Eq, thiserror::Error)]
pub enum FieldError {
    /// Its value is none of the words.
    #[error("The '{}' field of submodule '{}' was invalid: '{}'", .field, lossy_text_of_bytes(.submodule), lossy_text_of_bytes(.actual))]
    Invalid {
        /// Which of the keys it is.
        field: FieldName,
        /// The name of the submodule.
        submodule: Bytes,
        /// The value.
        actual: Bytes,
    },
    /// Want of memory.
    #[error("OutOfMemory")]
    OutOfMemory,
}

impl From<OutOfMemory> for FieldError {
    ghost use Rattle.std.specs.Prelude.{◌≡◌};
    ghost use Rattle.submodule.specs.declared.field.FieldError.TheVariants as errors;

    ghost from_gives = { λ _ e. e ≡ errors.OutOfMemory };

    fn from(_refused: OutOfMemory) -> FieldError {
        FieldError::OutOfMemory
    }
}

fn invalid_field_error(
    alloc: Global,
    field: FieldName,
    name: &[u8],
    value: &[u8],
) -> Result<FieldError, OutOfMemory>
    ensures { IfOk result (λ e. e ≡ errors.Invalid field name.now value.now) }
{
    Ok(FieldError::Invalid {
        field,
        submodule: Bytes::from_slice(alloc, name)?,
        actual: Bytes::from_slice(alloc, value)?,
    })
}

/// What a value of `ignore` says, if there is one.
pub(crate) fn ignore_of_optional_value(
    alloc: Global,
    name: &[u8],
    value: Option<&[u8]>,
) -> Result<Option<Ignore>, FieldError>
    ensures { answers.FieldResultAgrees result (access.ignore_of_optional_value name.now
        (option_copied value.entry)) }
{
    let Some(value) = value else {
        return Ok(None);
    };
    match Ignore::try_from(value) {
        Ok(ignore) => Ok(Some(ignore)),
        Err(()) => Err(invalid_field_error(alloc, FieldName::Ignore, name, value)?),
    }
}

/// What a value of `fetchRecurseSubmodules` says, or that it is none of the words.
pub(crate) fn fetch_recurse_or_field_error(
    alloc: Global,
    name: &[u8],
    said: Result<Option<FetchRecurse>, &[u8]>,
) -> Result<Option<FetchRecurse>, FieldError>
    ensures { answers.FieldResultAgrees result (access.fetch_recurse_or_field_error name.now
        (fetch_recurse_result_of_reference said.entry)) }
{
    match said {
        Ok(answer) => Ok(answer),
        Err(value) => Err(invalid_field_error(
            alloc,
            FieldName::FetchRecurseSubmodules,
            name,
            value,
        )?),
    }
}
