//! What is told of a refusal.
ghost use Rattle.std.specs.Prelude.{◌≡◌, ◌++◌, IfOk};
ghost use Rattle.check_ignore.specs.Told as words;

use crate::stop::Stop;
use gitbase_core::{Bytes, OutOfMemory};
use std::alloc::Global;

/// That a path spec is empty, in git's words.
const EMPTY_PATHSPEC: &[u8] = b"empty string is not a valid pathspec. \
    please use . instead if you meant to match all paths";

/// A text between two others.
fn concatenate_three(
    alloc: Global,
    front: &[u8],
    text: &[u8],
    back: &[u8],
) -> Result<Bytes, OutOfMemory>
    ensures { IfOk result (λ told. told ≡ front.now ++ text.now ++ back.now) }
{
    let mut told = Bytes::from_slice(alloc, front)?;
    told.extend(alloc, text)?;
    told.extend(alloc, back)?;
    Ok(told)
}

/// What is told of a path that leads out of the work tree at `root`.
fn outside_repository_text(alloc: Global, root: &[u8], text: &[u8]) -> Result<Bytes, OutOfMemory>
    ensures { IfOk result (λ told. told ≡ words.outside_repository_text root.now text.now) }
{
    let mut told = concatenate_three(alloc, text, b": '", text)?;
    told.extend(alloc, b"' is outside repository at '")?;
    told.extend(alloc, root)?;
    told.extend(alloc, b"'")?;
    Ok(told)
}

/// What is told of a path in the submodule at `place`.
fn inside_submodule_text(alloc: Global, text: &[u8], place: &[u8]) -> Result<Bytes, OutOfMemory>
    ensures { IfOk result (λ told. told ≡ words.inside_submodule_text text.now place.now) }
{
    let mut told = concatenate_three(alloc, b"Pathspec '", text, b"' is in submodule '")?;
    told.extend(alloc, place)?;
    told.extend(alloc, b"'")?;
    Ok(told)
}

/// What is told of a path that is not answered here, and why.
fn unsupported_text(alloc: Global, why: &[u8], text: &[u8]) -> Result<Bytes, OutOfMemory>
    ensures { IfOk result (λ told. told ≡ words.unsupported_text why.now text.now) }
{
    let mut told = concatenate_three(alloc, b"check-ignore is not supported with ", why, b": '")?;
    told.extend(alloc, text)?;
    told.extend(alloc, b"'")?;
    Ok(told)
}

/// What is told of the rule in this line of a file outside the work tree, which excludes all.
fn excluding_rule_text(alloc: Global, file: &[u8], line: usize) -> Result<Bytes, OutOfMemory>
    ensures { IfOk result (λ told. told ≡ words.excluding_rule_text file.now line) }
{
    let digits = format!(in alloc; "{line}")?;
    let mut told = concatenate_three(
        alloc,
        b"a rule outside the work tree that excludes all, line ",
        digits.as_bytes(),
        b" of '",
    )?;
    told.extend(alloc, file)?;
    told.extend(alloc, b"'")?;
    Ok(told)
}

/// What is told of a path that is asked about where that rule stands.
fn everything_excluded_text(
    alloc: Global,
    text: &[u8],
    file: &[u8],
    line: usize,
) -> Result<Bytes, OutOfMemory>
    ensures { IfOk result
        (λ told. told ≡ words.unsupported_text (words.excluding_rule_text file.now line) text.now) }
{
    let why = excluding_rule_text(alloc, file, line)?;
    unsupported_text(alloc, why.as_bytes(), text)
}

/// What is told of a refusal in the work tree at `root`, behind `fatal: `; of what git refuses too
/// in git's words.
///
/// # Errors
///
/// Memory was refused.
pub fn told(alloc: Global, root: &[u8], stop: &Stop) -> Result<Bytes, OutOfMemory>
    ensures { IfOk result (λ told. told ≡ words.told root.now stop.now) }
{
    match stop {
        Stop::BadQuotes => Bytes::from_slice(alloc, b"line is badly quoted"),
        Stop::Empty => Bytes::from_slice(alloc, EMPTY_PATHSPEC),
        Stop::Outside { text } => outside_repository_text(alloc, root, text.as_bytes()),
        Stop::Beyond { text } => concatenate_three(
            alloc,
            b"pathspec '",
            text.as_bytes(),
            b"' is beyond a symbolic link",
        ),
        Stop::Inside { text, place } => inside_submodule_text(
            alloc,
            text.as_bytes(),
            place.as_bytes(),
        ),
        Stop::Magic { text } => unsupported_text(alloc, b"path spec magic", text.as_bytes()),
        Stop::Elsewhere { text } => unsupported_text(alloc, b"a path elsewhere", text.as_bytes()),
        Stop::Prefix { text } => unsupported_text(alloc, b"wildcards here", text.as_bytes()),
        Stop::Slash { text } => unsupported_text(
            alloc,
            b"a directory that is neither tracked nor ignored",
            text.as_bytes(),
        ),
        Stop::Everything { text, file, line } => {
            everything_excluded_text(alloc, text.as_bytes(), file.as_bytes(), *line)
        }
        Stop::Unread { text } => unsupported_text(
            alloc,
            b"a rules file that is not read",
            text.as_bytes(),
        ),
        Stop::SparseIndex => Bytes::from_slice(
            alloc,
            b"check-ignore is not supported with a sparse index",
        ),
        Stop::Fault => Bytes::from_slice(alloc, b"the work tree could not be read"),
        Stop::OutOfMemory => Bytes::from_slice(alloc, b"out of memory"),
    }
}
