//! What the configuration of a repository says of its format.
ghost use Rattle.std.specs.Prelude.{◌≡◌, not, find, Some, Ok, IfOk, option_copied, option_map, if◌then◌else◌};
ghost use Rattle.git_places.specs.Answers.{AnswersUnlessOutOfMemory};
ghost use Rattle.git_places.specs.Format as words;
ghost use Rattle.git_config_lite.specs.Lookups as lookups;

use crate::error::PlacesError;
use git_config_lite::{Entry, File, Section};
use gitbase_core::{Bytes, OutOfMemory, PathText, eq_ignore_case};
use std::alloc::Global;

/// The version of a repository's format.
#[derive(Clone, Copy, Debug, PartialEq, Eq)]
pub enum Version {
    /// The keys of `[extensions]` have no say, but for `worktreeConfig`; `objectFormat` and
    /// `noop-v1` may not stand there.
    Zero,
    /// Each key of `[extensions]` has to be known.
    One,
}

/// Whether a section without a subsection, of this name, has a key.
fn is_plain_section_with_key(section: &Section, name: &[u8], key: &[u8]) -> bool
    ensures { result ≡ words.is_plain_section_with_key name.now key.now section.now }
{
    if !eq_ignore_case(section.name(), name) {
        return false;
    }
    section.subsection_name().is_none() && section.value(key).is_some()
}

/// The file of a section that has a key, and of one that has it not the one that was found before.
fn file_if_section_has_key<'a>(
    section: &'a Section,
    found: Option<&'a PathText>,
    name: &[u8],
    key: &[u8],
) -> Option<&'a PathText>
    ensures { option_copied result ≡ (if words.is_plain_section_with_key name.now key.now
        section.now then section.now.meta.path else option_copied found.entry) }
{
    if is_plain_section_with_key(section, name, key) {
        return section.meta().path.as_ref();
    }
    found
}

/// The file in which the last value of a key stands, in the sections of a name that have no
/// subsection. None where no value does, or where it stands in no file.
pub fn file_of_last_section_with_key<'a>(
    config: &'a File,
    name: &[u8],
    key: &[u8],
) -> Option<&'a PathText>
    ensures { option_copied result ≡ words.file_of_last_section_with_key name.now key.now
        config.now.sections }
{
    let mut found = None;
    for section in config.sections() {
        found = file_if_section_has_key(section, found, name, key);
    }
    found
}

/// A copy of a path, if there is one.
pub fn copy_optional_path(
    alloc: Global,
    path: Option<&PathText>,
) -> Result<Option<PathText>, OutOfMemory>
    ensures { IfOk result (λ copy. copy ≡ option_copied path.entry) }
{
    match path {
        Some(path) => Ok(Some(PathText::from_bytes(alloc, path.as_bytes())?)),
        None => Ok(None),
    }
}

/// The version that a text in a file says, if there is one.
fn parse_format_version(
    alloc: Global,
    file: Option<&PathText>,
    text: Option<&[u8]>,
) -> Result<Option<Version>, PlacesError>
    ensures { AnswersUnlessOutOfMemory result
        (words.parse_format_version (option_copied file.entry) (option_copied text.entry)) }
{
    match text {
        None => Ok(None),
        Some(b"0") => Ok(Some(Version::Zero)),
        Some(b"1") => Ok(Some(Version::One)),
        Some(text) => Err(PlacesError::Version {
            path: copy_optional_path(alloc, file)?,
            value: Bytes::from_slice(alloc, text)?,
        }),
    }
}

/// The version of a repository's format, by `core.repositoryFormatVersion`; none where nothing says
/// so.
pub fn parse_format_version_if_configured(
    alloc: Global,
    config: &File,
) -> Result<Option<Version>, PlacesError>
    ensures { AnswersUnlessOutOfMemory result
        (words.parse_format_version_if_configured config.now.sections) }
{
    parse_format_version(
        alloc,
        file_of_last_section_with_key(config, b"core", b"repositoryformatversion"),
        config.string(b"core", None, b"repositoryformatversion"),
    )
}

/// A key of `[extensions]` that has no say here, in either version.
fn is_extension_key_of_any_version(key: &[u8]) -> bool
    ensures { result ≡ words.is_extension_key_of_any_version key.now }
{
    eq_ignore_case(key, b"noop")
        || eq_ignore_case(key, b"preciousobjects")
        || eq_ignore_case(key, b"partialclone")
        || eq_ignore_case(key, b"worktreeconfig")
}

/// A key that has no say here, and that version 1 alone may have.
fn is_ignorable_version_one_extension(key: &[u8]) -> bool
    ensures { result ≡ words.is_ignorable_version_one_extension key.now }
{
    eq_ignore_case(key, b"noop-v1") || eq_ignore_case(key, b"relativeworktrees")
}

fn is_object_format_key(key: &[u8]) -> bool
    ensures { result ≡ words.is_object_format_key key.now }
{
    eq_ignore_case(key, b"objectformat")
}

fn is_version_one_only_extension(key: &[u8]) -> bool
    ensures { result ≡ words.is_version_one_only_extension key.now }
{
    eq_ignore_case(key, b"noop-v1") || is_object_format_key(key)
}

/// The value of a key, empty where it has none.
fn value_or_empty(entry: &Entry) -> &[u8]
    ensures { result.now ≡ lookups.value_or_empty_text entry.now.value }
{
    match &entry.value {
        Some(value) => value.as_bytes(),
        None => &[],
    }
}

fn is_sha1_value(entry: &Entry) -> bool
    ensures { result ≡ words.is_sha1_value entry.now }
{
    value_or_empty(entry) == b"sha1".as_slice()
}

fn is_sha1_object_format(entry: &Entry) -> bool
    ensures { result ≡ words.is_sha1_object_format entry.now }
{
    is_object_format_key(entry.key.as_bytes()) && is_sha1_value(entry)
}

/// Whether a key says that each ref is a file.
fn is_files_ref_storage(entry: &Entry) -> bool
    ensures { result ≡ words.is_files_ref_storage entry.now }
{
    eq_ignore_case(entry.key.as_bytes(), b"refstorage")
        && value_or_empty(entry) == b"files".as_slice()
}

/// Whether version 1 knows a key, with its value.
fn is_known_version_one_extension(entry: &Entry) -> bool
    ensures { result ≡ words.is_known_version_one_extension entry.now }
{
    is_extension_key_of_any_version(entry.key.as_bytes())
        || is_ignorable_version_one_extension(entry.key.as_bytes())
        || is_sha1_object_format(entry)
        || is_files_ref_storage(entry)
}

/// Whether a key of a section `extensions` leaves the repository readable.
fn is_allowed_extension(version: Version, subsection: Option<&[u8]>, entry: &Entry) -> bool
    ensures { result ≡ words.is_allowed_extension version (option_copied subsection.entry)
        entry.now }
{
    match (version, subsection) {
        (Version::Zero, Some(_)) => true,
        (Version::Zero, None) => !is_version_one_only_extension(entry.key.as_bytes()),
        (Version::One, Some(_)) => false,
        (Version::One, None) => is_known_version_one_extension(entry),
    }
}

fn is_sha256_object_format(version: Version, subsection: Option<&[u8]>, entry: &Entry) -> bool
    ensures { result ≡ words.is_sha256_object_format version (option_copied subsection.entry)
        entry.now }
{
    match (version, subsection) {
        (Version::One, None) => {
            is_object_format_key(entry.key.as_bytes())
                && value_or_empty(entry) == b"sha256".as_slice()
        }
        _ => false,
    }
}

/// A key as it stands behind `extensions.`, with its subsection.
fn key_with_subsection(
    alloc: Global,
    subsection: Option<&[u8]>,
    key: &[u8],
) -> Result<Bytes, OutOfMemory>
    ensures { IfOk result
        (λ whole. whole ≡ words.key_with_subsection (option_copied subsection.entry) key.now) }
{
    let Some(subsection) = subsection else {
        return Bytes::from_slice(alloc, key);
    };
    let mut whole = Bytes::from_slice(alloc, subsection)?;
    whole.extend(alloc, b".")?;
    whole.extend(alloc, key)?;
    Ok(whole)
}

/// The refusal of a key of a file.
fn disallowed_extension_error(
    alloc: Global,
    file: Option<&PathText>,
    version: Version,
    subsection: Option<&[u8]>,
    entry: &Entry,
) -> Result<PlacesError, OutOfMemory>
    ensures { IfOk result
        (λ e. e ≡ words.disallowed_extension_error (option_copied file.entry) version
        (option_copied subsection.entry) entry.now) }
{
    if is_sha256_object_format(version, subsection, entry) {
        return Ok(PlacesError::Sha256 {
            path: copy_optional_path(alloc, file)?,
        });
    }
    Ok(PlacesError::Extension {
        path: copy_optional_path(alloc, file)?,
        key: key_with_subsection(alloc, subsection, entry.key.as_bytes())?,
    })
}

/// The first key of a section that does not leave the repository readable.
fn first_disallowed_extension(version: Version, section: &Section) -> Option<&Entry>
    ensures { option_copied result ≡ find
        (λ e. not (words.is_allowed_extension version section.now.subsection e))
        section.now.entries }
{
    let subsection = section.subsection_name();
    section
        .entries()
        .iter()
        .find(|entry| !is_allowed_extension(version, subsection, entry))
}

/// The refusal of a section `extensions`, if it has one.
fn error_of_extensions_section(
    alloc: Global,
    version: Version,
    section: &Section,
) -> Result<Option<PlacesError>, OutOfMemory>
    ensures { IfOk result (λ refusal. refusal ≡ words.error_of_extensions_section version
        section.now) }
{
    match first_disallowed_extension(version, section) {
        Some(entry) => {
            let file = section.meta().path.as_ref();
            let subsection = section.subsection_name();
            Ok(Some(disallowed_extension_error(alloc, file, version, subsection, entry)?))
        }
        None => Ok(None),
    }
}

/// What stands behind `extensions.` in the name of a section.
fn section_name_after_extensions_dot(name: &[u8]) -> Option<&[u8]>
    ensures { option_copied result ≡ words.section_name_after_extensions_dot name.now }
{
    if name.len() < 11 {
        return None;
    }
    let (front, rest) = name.split_at(11);
    if eq_ignore_case(front, b"extensions.") {
        return Some(rest);
    }
    None
}

/// The refusal of the first key of a section whose name has `name` behind `extensions.`.
fn error_of_first_dotted_key(
    alloc: Global,
    section: &Section,
    name: &[u8],
) -> Result<Option<PlacesError>, OutOfMemory>
    ensures { IfOk result (λ refusal. refusal ≡ words.error_of_dotted_extensions_section Version.One
        section.now (Some name.now)) }
{
    match section.entries().first() {
        Some(entry) => {
            let key = key_with_subsection(alloc, section.subsection_name(), entry.key.as_bytes())?;
            Ok(Some(PlacesError::Extension {
                path: copy_optional_path(alloc, section.meta().path.as_ref())?,
                key: key_with_subsection(alloc, Some(name), key.as_bytes())?,
            }))
        }
        None => Ok(None),
    }
}

/// The refusal of a section whose name begins with `extensions.`, if it has one.
fn error_of_dotted_extensions_section(
    alloc: Global,
    version: Version,
    section: &Section,
    name: Option<&[u8]>,
) -> Result<Option<PlacesError>, OutOfMemory>
    ensures { IfOk result (λ refusal. refusal
        ≡ words.error_of_dotted_extensions_section version section.now (option_copied name.entry)) }
{
    match (version, name) {
        (Version::One, Some(name)) => error_of_first_dotted_key(alloc, section, name),
        (Version::Zero, Some(_)) => Ok(None),
        (_, None) => Ok(None),
    }
}

/// The refusal of a section, if it has one.
fn extension_error_of_section(
    alloc: Global,
    version: Version,
    section: &Section,
) -> Result<Option<PlacesError>, OutOfMemory>
    ensures { IfOk result (λ refusal. refusal ≡ words.extension_error_of_section version
        section.now) }
{
    if eq_ignore_case(section.name(), b"extensions") {
        return error_of_extensions_section(alloc, version, section);
    }
    error_of_dotted_extensions_section(
        alloc,
        version,
        section,
        section_name_after_extensions_dot(section.name()),
    )
}

/// Whether the sections of extensions leave the repository readable; the first key that does not is
/// refused.
pub fn require_allowed_extensions(
    alloc: Global,
    version: Version,
    config: &File,
) -> Result<bool, PlacesError>
    ensures { AnswersUnlessOutOfMemory result (words.require_allowed_extensions version
        config.now.sections) }
{
    for section in config.sections() {
        if let Some(refusal) = extension_error_of_section(alloc, version, section)? {
            return Err(refusal);
        }
    }
    Ok(true)
}

/// The refusal of the value of a key in a file.
fn invalid_value_error(
    alloc: Global,
    file: Option<&PathText>,
    section: &[u8],
    key: &[u8],
) -> Result<PlacesError, OutOfMemory>
    ensures { IfOk result (λ e. e ≡ PlacesError.Value (option_copied file.entry)
        (words.section_dot_key section.now key.now)) }
{
    let mut whole = Bytes::from_slice(alloc, section)?;
    whole.extend(alloc, b".")?;
    whole.extend(alloc, key)?;
    Ok(PlacesError::Value {
        path: copy_optional_path(alloc, file)?,
        key: whole,
    })
}

/// What a key says as a boolean, no where it does not stand there.
pub fn config_boolean_or_false(
    alloc: Global,
    config: &File,
    section: &[u8],
    key: &[u8],
) -> Result<bool, PlacesError>
    ensures { AnswersUnlessOutOfMemory result (words.config_boolean_or_false section.now key.now
        config.now.sections) }
{
    match config.boolean(section, None, key) {
        Ok(None) => Ok(false),
        Ok(Some(truth)) => Ok(truth),
        Err(_) => Err(invalid_value_error(
            alloc,
            file_of_last_section_with_key(config, section, key),
            section,
            key,
        )?),
    }
}
