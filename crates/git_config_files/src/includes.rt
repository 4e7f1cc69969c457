//! A configuration with what it includes in place.
ghost use Rattle.std.specs.Prelude.{◌≡◌, [], ◌∷◌, Ok, IfOk};
ghost use Rattle.worktree_fs.specs.Changes.{real_path};
ghost use Rattle.git_config_files.specs.Answers.{AgreesUnlessFaultOrOutOfMemory};
ghost use Rattle.git_config_files.specs.Finds.{AnswersFromWorktree};
ghost use Rattle.git_config_files.specs.Includes as words;

use crate::error::FilesError;
use crate::keys::{Keys, single_key_sections_of_file};
use crate::known::Known;
use crate::targets::target;
use git_config_lite::{File, Metadata, ParseError, Section, Source};
use gitbase_core::{Bytes, OutOfMemory, PathText};
use std::alloc::Global;
use worktree_fs::{ReadAnswer, Worktree};

/// How many files may lie in one another: the one that is read, and ten that are included behind
/// it.
const LEVELS: usize = 11;

/// Where a file is read.
fn metadata_of_file(alloc: Global, source: Source, path: &[u8]) -> Result<Metadata, OutOfMemory>
    ensures { IfOk result (λ meta. meta ≡ words.metadata_of_file source path.now) }
{
    Ok(Metadata {
        source,
        path: Some(PathText::from_bytes(alloc, path)?),
    })
}

/// The keys of a file by its bytes.
fn parse_keys_of_file(
    alloc: Global,
    source: Source,
    path: &[u8],
    bytes: &[u8],
) -> Result<Keys, FilesError>
    ensures { AgreesUnlessFaultOrOutOfMemory result (words.parse_keys_of_file source path.now
        bytes.now) }
{
    let meta = metadata_of_file(alloc, source, path)?;
    match File::from_bytes(alloc, bytes, meta) {
        Ok(file) => Ok(single_key_sections_of_file(alloc, &file)?),
        Err(ParseError::Syntax { line }) => Err(FilesError::Config {
            path: PathText::from_bytes(alloc, path)?,
            line,
        }),
        Err(ParseError::OutOfMemory) => Err(FilesError::OutOfMemory),
    }
}

fn no_file_error(alloc: Global, path: &[u8]) -> Result<FilesError, OutOfMemory>
    ensures { IfOk result (λ e. e ≡ FilesError.NoFile path.now) }
{
    Ok(FilesError::NoFile {
        path: PathText::from_bytes(alloc, path)?,
    })
}

/// Whether a path leads to the null device.
fn is_null_device<W: Worktree>(
    alloc: Global,
    worktree: &mut W,
    path: &[u8],
) -> Result<bool, FilesError>
    ensures { AnswersFromWorktree W.Worktree worktree.old worktree.new
        (λ t. Ok (words.is_null_device (real_path t path.now (47 ∷ [])))) result }
{
    match worktree.real_path(alloc, path, b"/")? {
        Some(real) => Ok(real.as_bytes() == b"/dev/null".as_slice()),
        None => Ok(false),
    }
}

/// The text of a device, a pipe or a socket: that of the null device is empty.
fn text_of_special_file<W: Worktree>(
    alloc: Global,
    worktree: &mut W,
    path: &[u8],
) -> Result<Option<Bytes>, FilesError>
    ensures { AnswersFromWorktree W.Worktree worktree.old worktree.new
        (λ t. words.text_of_special_file path.now (real_path t path.now (47 ∷ []))) result }
{
    if is_null_device(alloc, worktree, path)? {
        return Ok(Some(Bytes::new(alloc)));
    }
    Err(no_file_error(alloc, path)?)
}

/// The text of the file that a path leads to, if one is there.
pub fn read_optional_file_text<W: Worktree>(
    alloc: Global,
    worktree: &mut W,
    path: &[u8],
) -> Result<Option<Bytes>, FilesError>
    ensures { AnswersFromWorktree W.Worktree worktree.old worktree.new
        (λ t. words.read_optional_file_text t path.now) result }
{
    let mut bytes = Bytes::new(alloc);
    match worktree.read(alloc, path, true, &mut bytes)? {
        ReadAnswer::Read => Ok(Some(bytes)),
        ReadAnswer::Absent => Ok(None),
        ReadAnswer::Special => text_of_special_file(alloc, worktree, path),
        _ => Err(no_file_error(alloc, path)?),
    }
}

/// What stands behind a key of a file.
#[cycle(expand)]
fn keys_included_by_key<W: Worktree>(
    alloc: Global,
    worktree: &mut W,
    known: &Known,
    source: Source,
    levels: usize,
    from: &[u8],
    key: &Section,
) -> Result<Keys, FilesError>
    ensures { AnswersFromWorktree W.Worktree worktree.old worktree.new
        (λ t. words.keys_included_by_key t known.now (words.read_keys_expanding_includes_to_depth t
        known.now source levels) from.now key.now) result }
{
    let [entry, ..] = key.entries() else {
        return Ok(Keys::new(alloc));
    };
    match target(alloc, worktree, known, from, key, entry)? {
        Some(path) => read_keys_expanding_includes_to_depth(
            alloc,
            worktree,
            known,
            source,
            levels,
            path.as_bytes(),
        ),
        None => Ok(Keys::new(alloc)),
    }
}

/// Keys of a file, each with what stands behind it.
#[cycle(expand)]
#[tactic(auto, unfolding(crate::specs::Includes::expand_includes_behind_done_keys))]
fn expand_includes_of_keys<W: Worktree>(
    alloc: Global,
    worktree: &mut W,
    known: &Known,
    source: Source,
    levels: usize,
    from: &[u8],
    keys: Keys,
) -> Result<Keys, FilesError>
    ensures { AnswersFromWorktree W.Worktree worktree.old worktree.new
        (λ t. words.expand_includes_behind_done_keys t known.now
        (words.read_keys_expanding_includes_to_depth t known.now source levels) from.now [] keys)
        result }
{
    let mut done = Keys::new(alloc);
    for key in keys.into_sections() {
        let more = keys_included_by_key(alloc, worktree, known, source, levels, from, &key)?;
        done.add(key, more)?;
    }
    Ok(done)
}

/// The keys of the file at a path, with what it includes, where so many files may lie in one
/// another.
#[cycle(expand)]
#[tactic(auto, unfolding(crate::specs::Includes::read_keys_expanding_includes_to_depth))]
fn read_keys_expanding_includes_to_depth<W: Worktree>(
    alloc: Global,
    worktree: &mut W,
    known: &Known,
    source: Source,
    levels: usize,
    path: &[u8],
) -> Result<Keys, FilesError>
    ensures { AnswersFromWorktree W.Worktree worktree.old worktree.new
        (λ t. words.read_keys_expanding_includes_to_depth t known.now source levels path.now)
        result }
{
    let Some(bytes) = read_optional_file_text(alloc, worktree, path)? else {
        return Ok(Keys::new(alloc));
    };
    if levels == 0 {
        return Err(FilesError::Depth {
            path: PathText::from_bytes(alloc, path)?,
        });
    }
    let keys = parse_keys_of_file(alloc, source, path, bytes.as_bytes())?;
    expand_includes_of_keys(alloc, worktree, known, source, levels - 1, path, keys)
}

/// The keys of the file at a path, in order, with those of the files that it includes in their
/// places.
pub fn read_keys_expanding_includes<W: Worktree>(
    alloc: Global,
    worktree: &mut W,
    known: &Known,
    source: Source,
    path: &[u8],
) -> Result<Keys, FilesError>
    ensures { AnswersFromWorktree W.Worktree worktree.old worktree.new
        (λ t. words.read_keys_expanding_includes_to_depth t known.now source 11 path.now) result }
{
    read_keys_expanding_includes_to_depth(alloc, worktree, known, source, LEVELS, path)
}
