//! The lines on standard error, for a person.
ghost use Rattle.std.specs.Prelude.{◌≡◌, ◌++◌, IfOk};
ghost use Rattle.tizhagor.specs.Parts as words;

pub mod files;
pub mod git;
pub mod here;
pub mod index;
pub mod places;
pub mod program;

use gitbase_core::{Bytes, OutOfMemory, PathText};
use std::alloc::Global;
use worktree_report::append_path_escaped;

/// The line of want of memory, which takes none.
pub const MEMORY: &[u8] = b"fatal: out of memory\n";

/// The line of an output that was refused.
pub const OUTPUT: &[u8] = b"fatal: write failure on standard output\n";

/// The line of a worktree, owners or stats that failed, where no path is named.
pub const FAULT: &[u8] = b"fatal: a file or directory could not be read\n";

/// A line that is always the same.
pub fn copy_fixed_line(alloc: Global, line: &[u8]) -> Result<Bytes, OutOfMemory>
    ensures { IfOk result (λ made. made ≡ line.now) }
{
    Bytes::from_slice(alloc, line)
}

/// A text with a path in it, escaped.
pub fn text_with_escaped_path(
    alloc: Global,
    before: &[u8],
    path: &[u8],
    after: &[u8],
) -> Result<Bytes, OutOfMemory>
    ensures { IfOk result (λ line. line ≡ words.text_with_escaped_path before.now path.now
        after.now) }
{
    let mut text = before.to_vec(alloc)?;
    append_path_escaped(&mut text, path)?;
    text.extend_from_slice(after)?;
    Ok(Bytes::from_vec(text))
}

/// A text with a number in it.
pub fn text_with_number(
    alloc: Global,
    before: &[u8],
    number: usize,
    after: &[u8],
) -> Result<Bytes, OutOfMemory>
    ensures { IfOk result (λ line. line ≡ words.text_with_number before.now number after.now) }
{
    let digits = format!(in alloc; "{number}")?;
    let mut text = before.to_vec(alloc)?;
    text.extend_from_slice(digits.as_bytes())?;
    text.extend_from_slice(after)?;
    Ok(Bytes::from_vec(text))
}

/// The same of a place that is counted from 0, and is told from 1.
pub fn text_with_number_from_one(
    alloc: Global,
    before: &[u8],
    at: usize,
    after: &[u8],
) -> Result<Bytes, OutOfMemory>
    ensures { IfOk result (λ line. line ≡ words.text_with_number_from_one before.now at after.now) }
{
    text_with_number(alloc, before, at.saturating_add(1), after)
}

/// A line of a configuration outside its grammar.
pub fn bad_config_line(alloc: Global, path: &[u8], line: usize) -> Result<Bytes, OutOfMemory>
    ensures { IfOk result (λ text. text ≡ words.bad_config_line path.now line) }
{
    let numbered = text_with_number(alloc, b"fatal: bad config line ", line, b"")?;
    let mut text = numbered.as_bytes().to_vec(alloc)?;
    text.extend_from_slice(b" in file ")?;
    append_path_escaped(&mut text, path)?;
    text.extend_from_slice(b"\n")?;
    Ok(Bytes::from_vec(text))
}

/// A repository belongs to another user. The path is not put into the call, which a person may copy
/// into a shell.
pub fn dubious_ownership_line(alloc: Global, path: &[u8]) -> Result<Bytes, OutOfMemory>
    ensures { IfOk result (λ text. text ≡ words.dubious_ownership_line path.now) }
{
    text_with_escaped_path(
        alloc,
        b"fatal: detected dubious ownership in repository at '",
        path,
        b"'; to add an exception, call 'git config --global --add safe.directory DIRECTORY'\n",
    )
}

/// A variable of the environment points git elsewhere.
pub fn variable_not_heeded_line(alloc: Global, name: &[u8]) -> Result<Bytes, OutOfMemory>
    ensures { IfOk result (λ line. line ≡ words.variable_not_heeded_line name.now) }
{
    text_with_escaped_path(
        alloc,
        b"fatal: ",
        name,
        b" is set, which is not heeded; unset it\n",
    )
}

/// The line of a worktree, owners or stats that failed, with the path that the worktree names as
/// that of its first fault.
pub fn fault_line_with_path(alloc: Global, first: &[u8]) -> Result<Bytes, OutOfMemory>
    ensures { IfOk result (λ line. line ≡ words.fault_line_with_path first.now) }
{
    if first.is_empty() {
        return copy_fixed_line(alloc, FAULT);
    }
    text_with_escaped_path(
        alloc,
        b"fatal: a file or directory could not be read: '",
        first,
        b"'\n",
    )
}

/// The end of a line, with the file in which what it is about stands, where one is told.
pub fn optional_in_file_ending(alloc: Global, path: &Option<PathText>) -> Result<Bytes, OutOfMemory>
    ensures { IfOk result (λ text. text ≡ words.optional_in_file_ending path.now) }
{
    match path {
        Some(path) => text_with_escaped_path(alloc, b" in file ", path.as_bytes(), b"\n"),
        None => copy_fixed_line(alloc, b"\n"),
    }
}

/// A text with another one in it, escaped, and the file in which that stands.
pub fn text_with_optional_file(
    alloc: Global,
    before: &[u8],
    text: &[u8],
    after: &[u8],
    path: &Option<PathText>,
) -> Result<Bytes, OutOfMemory>
    ensures { IfOk result
        (λ line. line ≡ words.text_with_optional_file before.now text.now after.now path.now) }
{
    let mut line = text_with_escaped_path(alloc, before, text, after)?;
    let end = optional_in_file_ending(alloc, path)?;
    line.extend(alloc, end.as_bytes())?;
    Ok(line)
}

/// The value of a key or of a variable cannot be read.
pub fn bad_config_value_line(
    alloc: Global,
    path: &Option<PathText>,
    key: &[u8],
) -> Result<Bytes, OutOfMemory>
    ensures { IfOk result (λ text. text ≡ words.bad_config_value_line path.now key.now) }
{
    text_with_optional_file(alloc, b"fatal: bad config value for '", key, b"'", path)
}
