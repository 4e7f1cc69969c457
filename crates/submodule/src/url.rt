//! The url of a submodule.
ghost use Rattle.std.specs.Prelude.{◌≡◌, option_copied, IfOk};
ghost use Rattle.submodule.specs.Urls.{parse_url};
ghost use Rattle.submodule.specs.Gives.{UrlParseAgrees};
ghost use Rattle.submodule.specs.Seen as seen;
ghost use Rattle.submodule.specs.Access as access;
ghost use Rattle.submodule.specs.Answers as answers;
ghost use Rattle.submodule.specs.declared.url.Error.TheVariants as refusals;

use crate::shown::lossy_text_of_bytes;
use crate::url_parts::{UrlParts, parse_url_parts};
use gitbase_core::{Bytes, OutOfMemory};
use std::alloc::Global;

/// The parts of a url.
/// See docs/DIFFERENCES.md#gix-url.
/// See docs/DIFFERENCES.md#gix-flat-modules.
#[derive(Debug, Drop, PartialEq, Eq)]
pub struct Url {
    /// `ssh` for `host:path`, and `file` for a path on this machine.
    pub scheme: Bytes,
    /// The user, where there is one; it may be empty.
    pub user: Option<Bytes>,
    /// The password, where there is one; it may be empty.
    pub password: Option<Bytes>,
    /// The host, with the brackets around it; none where it is empty.
    pub host: Option<Bytes>,
    /// The port, where there is one.
    pub port: Option<u16>,
    /// The rest. With `://` it begins with a slash or is empty.
    pub path: Bytes,
}

/// Why a text is no url.
#[derive(Clone, Copy, Debug, PartialEq, Eq, thiserror::Error)]
pub enum UrlError {
    /// It has no host, and its scheme needs one.
    #[error("EmptyHost")]
    EmptyHost,
    /// The port is no number from 0 to 65535.
    #[error("Port")]
    Port,
    /// Want of memory.
    #[error("OutOfMemory")]
    OutOfMemory,
}

impl From<OutOfMemory> for UrlError {
    ghost use Rattle.std.specs.Prelude.{◌≡◌};
    ghost use Rattle.submodule.specs.declared.url.UrlError.TheVariants as errors;

    ghost from_gives = { λ _ e. e ≡ errors.OutOfMemory };

    fn from(_refused: OutOfMemory) -> UrlError {
        UrlError::OutOfMemory
    }
}

/// Why a submodule has no url.
#[derive(Debug, Drop, PartialEq, Eq, thiserror::Error)]
pub enum Error {
    /// Its url is not set, or empty.
    #[error("The submodule '{}' was missing its 'url' field or it was empty", lossy_text_of_bytes(.submodule))]
    Missing {
        /// The name of the submodule.
        submodule: Bytes,
    },
    /// Its url is none.
    #[error("The url of submodule '{}' could not be parsed", lossy_text_of_bytes(.submodule))]
    Parse {
        /// The name of the submodule.
        submodule: Bytes,
        /// Why the value is no url.
        source: UrlError,
    },
    /// Want of memory.
    #[error("OutOfMemory")]
    OutOfMemory,
}

impl From<OutOfMemory> for Error {
    ghost use Rattle.std.specs.Prelude.{◌≡◌};
    ghost use Rattle.submodule.specs.declared.url.Error.TheVariants as refusals;

    ghost from_gives = { λ _ e. e ≡ refusals.OutOfMemory };

    fn from(_refused: OutOfMemory) -> Error {
        Error::OutOfMemory
    }
}

impl Url {
    /// The parts of a url.
    ///
    /// A scheme, which is a letter and then letters, digits, `+`, `.` and `-`, is followed by
    /// `://`, the authority up to the first `/`, and the path. Else a text whose first `:` has some
    /// byte before it and no `/` is `[user@]host:path` over ssh, and any other one a path on this
    /// machine.
    ///
    /// # Errors
    ///
    /// - `EmptyHost` exactly where http, https, ssh or git have no host.
    /// - `Port` exactly where, else, the port is no number from 0 to 65535; an empty port is none.
    /// - `OutOfMemory` for want of memory.
    pub fn parse(alloc: Global, text: &[u8]) -> Result<Url, UrlError>
        ensures { UrlParseAgrees result (parse_url text.now) }
    {
        let parts = parse_url_parts(text)?;
        Ok(copy_url_parts(alloc, parts)?)
    }
}

/// A copy of a text, where there is one.
fn copy_optional_text(alloc: Global, text: Option<&[u8]>) -> Result<Option<Bytes>, OutOfMemory>
    ensures { IfOk result (λ copy. copy ≡ option_copied text.entry) }
{
    match text {
        Some(text) => Ok(Some(Bytes::from_slice(alloc, text)?)),
        None => Ok(None),
    }
}

/// A url of its own.
fn copy_url_parts(alloc: Global, parts: UrlParts<'_>) -> Result<Url, OutOfMemory>
    ensures { IfOk result (λ url. url ≡ seen.url_of_parts parts.entry) }
{
    Ok(Url {
        scheme: Bytes::from_slice(alloc, parts.scheme)?,
        user: copy_optional_text(alloc, parts.user)?,
        password: copy_optional_text(alloc, parts.password)?,
        host: copy_optional_text(alloc, parts.host)?,
        port: parts.port,
        path: Bytes::from_slice(alloc, parts.path)?,
    })
}

fn missing_url_error(alloc: Global, name: &[u8]) -> Result<Error, OutOfMemory>
    ensures { IfOk result (λ e. e ≡ refusals.Missing name.now) }
{
    Ok(Error::Missing {
        submodule: Bytes::from_slice(alloc, name)?,
    })
}

fn url_parse_error_of_submodule(
    alloc: Global,
    name: &[u8],
    source: UrlError,
) -> Result<Error, OutOfMemory>
    ensures { IfOk result (λ e. e ≡ refusals.Parse name.now source) }
{
    Ok(Error::Parse {
        submodule: Bytes::from_slice(alloc, name)?,
        source,
    })
}

/// The url that a value says.
fn parse_url_value(alloc: Global, name: &[u8], value: &[u8]) -> Result<Url, Error>
    ensures { answers.UrlFieldResultAgrees result (access.url_of_optional_value name.now
        (Some value.now)) }
{
    if let [] = value {
        return Err(missing_url_error(alloc, name)?);
    }
    match Url::parse(alloc, value) {
        Ok(url) => Ok(url),
        Err(UrlError::EmptyHost) => Err(url_parse_error_of_submodule(
            alloc,
            name,
            UrlError::EmptyHost,
        )?),
        Err(UrlError::Port) => Err(url_parse_error_of_submodule(alloc, name, UrlError::Port)?),
        Err(UrlError::OutOfMemory) => Err(Error::OutOfMemory),
    }
}

/// The url that a value says, if there is one.
pub(crate) fn url_of_optional_value(
    alloc: Global,
    name: &[u8],
    value: Option<&[u8]>,
) -> Result<Url, Error>
    ensures { answers.UrlFieldResultAgrees result (access.url_of_optional_value name.now
        (option_copied value.entry)) }
{
    match value {
        Some(value) => parse_url_value(alloc, name, value),
        None => Err(missing_url_error(alloc, name)?),
    }
}
