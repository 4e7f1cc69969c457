//! What a variable of the environment says as a boolean.
ghost use Rattle.std.specs.Prelude.{◌≡◌, Some, IfOk};
ghost use Rattle.git_config_lite.specs.Booleans as booleans;
ghost use Rattle.git_places.specs.Answers.{AnswersUnlessOutOfMemory};
ghost use Rattle.git_places.specs.Truths as words;

use crate::error::PlacesError;
use git_config_lite::{Entry, File, Metadata, Section, Source};
use gitbase_core::{Bytes, OutOfMemory};
use std::alloc::Global;

/// A configuration with one key `a.k`.
fn config_with_lone_value(alloc: Global, text: &[u8]) -> Result<File, OutOfMemory>
    ensures { IfOk result (λ file. file.sections ≡ words.sections_with_lone_value text.now) }
{
    let meta = Metadata {
        source: Source::Env,
        path: None,
    };
    let mut section = Section::new(alloc, b"a", None, &meta)?;
    section.push(Entry {
        key: Bytes::from_slice(alloc, b"k")?,
        value: Some(Bytes::from_slice(alloc, text)?),
    })?;
    let mut sections = Vec::new(alloc);
    sections.push(section)?;
    Ok(File::from_sections(alloc, meta, sections))
}

/// What a text says as a boolean, as the value of a key of a configuration does; none where it is
/// no boolean.
///
/// # Errors
///
/// `OutOfMemory` for want of memory.
pub fn parse_boolean_text(alloc: Global, text: &[u8]) -> Result<Option<bool>, OutOfMemory>
    ensures { IfOk result (λ truth. truth ≡ booleans.parse_boolean text.now) }
{
    let file = config_with_lone_value(alloc, text)?;
    match file.boolean(b"a", None, b"k") {
        Ok(Some(truth)) => Ok(Some(truth)),
        _ => Ok(None),
    }
}

/// What a variable says as a boolean, no where it is not set.
pub fn boolean_of_variable_or_false(
    alloc: Global,
    name: &[u8],
    text: &Option<Bytes>,
) -> Result<bool, PlacesError>
    ensures { AnswersUnlessOutOfMemory result
        (words.boolean_of_variable_or_false name.now text.now) }
{
    let Some(text) = text else {
        return Ok(false);
    };
    match parse_boolean_text(alloc, text.as_bytes())? {
        Some(truth) => Ok(truth),
        None => Err(PlacesError::Value {
            path: None,
            key: Bytes::from_slice(alloc, name)?,
        }),
    }
}
