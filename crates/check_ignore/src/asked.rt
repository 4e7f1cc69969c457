//! The paths that are asked about.
ghost use Rattle.std.specs.Prelude.{◌≡◌, false, [], ◌∷◌, ◌++◌, IfOk, OnOk};
ghost use Rattle.glob_rules.specs.PathSpecText.{parse_path_spec};
ghost use Rattle.check_ignore.specs.Asked as words;
ghost use Rattle.check_ignore.specs.Finds.{AnswersUnlessOutOfMemory};

use crate::placed::{has_pattern_special_byte, parse_path_to_root_relative};
use crate::stop::Stop;
use gitbase_core::{Bytes, OutOfMemory, basename, needs_slash_before_component};
use glob_rules::pathspec::{Defaults, Error, Search, Spec};
use std::alloc::Global;
use std::marker::Model;

/// A path that is asked about.
#[derive(Debug, Drop)]
pub struct AskedPath {
    /// As it was written.
    pub text: Bytes,
    /// From the top, without empty names, `.` and `..`.
    pub path: Bytes,
    /// Whether it asks for a directory: it is the top, or was written with a slash, a `.` or a `..`
    /// at its end.
    pub names_directory: bool,
    /// The path spec by which the index is asked.
    pub spec: Search,
}

/// Some such paths. Contracts see the list of them.
#[derive(Debug, Drop)]
pub struct AskedPaths {
    items: Vec<AskedPath>,
}

impl Model for AskedPaths {
    ghost use Rattle.std.specs.Prelude.{List};
    ghost use Rattle.check_ignore.specs.declared.asked.AskedPath.{AskedPath};

    ghost Value = { List AskedPath };

    ghost view = { λ paths. paths.items.items };
}

impl AskedPaths {
    /// No paths; takes no memory.
    pub fn new(alloc: Global) -> AskedPaths
        ensures { result ≡ [] }
    {
        AskedPaths {
            items: Vec::new(alloc),
        }
    }

    /// The paths as a slice.
    pub fn as_slice(&self) -> &[AskedPath]
        ensures { result.now ≡ self.now }
    {
        &self.items
    }

    /// Adds a path at the end.
    pub fn push(&mut self, path: AskedPath) -> Result<(), OutOfMemory>
        ensures { OnOk result (self.new ≡ self.old ++ path ∷ []) }
    {
        self.items.push(path)?;
        Ok(())
    }
}

/// Whether a name is none, or means the directory or the one above.
fn is_empty_dot_or_dot_dot(name: &[u8]) -> bool
    ensures { result ≡ words.is_empty_dot_or_dot_dot name.now }
{
    name.is_empty() || name == b".".as_slice() || name == b"..".as_slice()
}

/// Whether a path asks for a directory.
fn is_top_or_ends_as_directory(text: &[u8], path: &[u8]) -> bool
    ensures { result ≡ words.is_top_or_ends_as_directory text.now path.now }
{
    path.is_empty() || is_empty_dot_or_dot_dot(basename(text))
}

/// A path, with a slash behind it where it asks for a directory.
pub fn path_with_slash_if_directory(
    alloc: Global,
    path: &[u8],
    directory: bool,
) -> Result<Bytes, OutOfMemory>
    ensures { IfOk result (λ named. named ≡ words.path_with_slash_if_directory path.now directory) }
{
    let mut named = Bytes::from_slice(alloc, path)?;
    if directory && needs_slash_before_component(path) {
        named.extend(alloc, b"/")?;
    }
    Ok(named)
}

/// What stands before a path that was written so, in a path spec.
fn glob_or_literal_magic(text: &[u8]) -> &'static [u8]
    ensures { result.now ≡ words.glob_or_literal_magic text.now }
{
    if has_pattern_special_byte(text) {
        b"::"
    } else {
        b":(literal)"
    }
}

/// The text of the path spec of a path.
fn path_spec_text_of_path(
    alloc: Global,
    text: &[u8],
    path: &[u8],
    directory: bool,
) -> Result<Bytes, OutOfMemory>
    ensures { IfOk result (λ spec. spec ≡ words.path_spec_text_of_path text.now path.now
        directory) }
{
    let named = path_with_slash_if_directory(alloc, path, directory)?;
    let mut spec = Bytes::from_slice(alloc, glob_or_literal_magic(text))?;
    spec.extend(alloc, named.as_bytes())?;
    Ok(spec)
}

/// A path spec alone.
fn search_of_one_spec(alloc: Global, spec: Spec) -> Result<Search, OutOfMemory>
    ensures { IfOk result (λ search. search ≡ spec ∷ []) }
{
    let mut specs = Vec::new(alloc);
    specs.push(spec)?;
    Ok(Search::from_specs(specs))
}

/// The path spec of a whole text; `text` is what was written.
fn parse_path_spec_or_magic_error(alloc: Global, text: &[u8], whole: &[u8]) -> Result<Search, Stop>
    ensures { AnswersUnlessOutOfMemory result (words.single_spec_or_magic_error text.now
        (parse_path_spec false whole.now)) }
{
    match Spec::parse(alloc, whole, Defaults { ignore_case: false }) {
        Ok(spec) => Ok(search_of_one_spec(alloc, spec)?),
        Err(Error::Parse { at: _ }) => Err(Stop::Magic {
            text: Bytes::from_slice(alloc, text)?,
        }),
        Err(Error::Normalize) => Err(Stop::Magic {
            text: Bytes::from_slice(alloc, text)?,
        }),
        Err(Error::OutOfMemory) => Err(Stop::OutOfMemory),
    }
}

/// The path spec by which the index is asked of a path.
fn parse_path_as_path_spec(
    alloc: Global,
    text: &[u8],
    path: &[u8],
    directory: bool,
) -> Result<Search, Stop>
    ensures { AnswersUnlessOutOfMemory result (words.parse_path_as_path_spec text.now path.now
        directory) }
{
    let whole = path_spec_text_of_path(alloc, text, path, directory)?;
    parse_path_spec_or_magic_error(alloc, text, whole.as_bytes())
}

/// A path that is asked about in the directory `prefix`.
#[tactic(auto, unfolding(crate::specs::Asked::parse_asked_path))]
pub fn parse_asked_path(
    alloc: Global,
    root: &[u8],
    prefix: &[u8],
    text: &[u8],
) -> Result<AskedPath, Stop>
    ensures { AnswersUnlessOutOfMemory result (words.parse_asked_path root.now prefix.now
        text.now) }
{
    let path = parse_path_to_root_relative(alloc, root, prefix, text)?;
    let directory = is_top_or_ends_as_directory(text, path.as_bytes());
    let spec = parse_path_as_path_spec(alloc, text, path.as_bytes(), directory)?;
    Ok(AskedPath {
        text: Bytes::from_slice(alloc, text)?,
        path,
        names_directory: directory,
        spec,
    })
}
