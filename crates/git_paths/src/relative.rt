//! Paths from the top as they read from a directory.
ghost use Rattle.std.specs.Prelude.{◌≡◌, ◌++◌, IfOk, OnOk, option_copied};
ghost use Rattle.gitbase_core.specs.Path.{components};
ghost use Rattle.git_paths.specs.RelativeNames as words;

use gitbase_core::{Bytes, OutOfMemory, split_first_component, strip_directory_prefix};
use std::alloc::Global;

/// What is left of a path from the directory of this name, where it is that directory or lies beneath it.
fn strip_leading_directory_name<'a>(name: &[u8], path: &'a [u8]) -> Option<&'a [u8]>
    ensures { option_copied result ≡ words.strip_leading_directory_name name.now path.now }
{
    if name == path {
        return Some(&[]);
    }
    strip_directory_prefix(path, name)
}

/// Adds a `../` for each name of a path.
fn append_dotdot_slash_per_component(text: &mut Vec<u8>, names: &[u8]) -> Result<(), OutOfMemory>
    ensures { OnOk result (text.new.items ≡ text.old.items ++ words.dotdot_slash_per_component
        (components names.now)) }
{
    let mut left = names;
    while let Some((_, after)) = split_first_component(left) {
        text.extend_from_slice(b"../")?;
        left = after;
    }
    Ok(())
}

/// A path behind as many `../` as there are names.
fn path_behind_dotdot_per_component(
    alloc: Global,
    names: &[u8],
    path: &[u8],
) -> Result<Bytes, OutOfMemory>
    ensures { IfOk result (λ text. text ≡ words.dotdot_slash_per_component (components names.now) ++
        path.now) }
{
    let mut text = Vec::new(alloc);
    append_dotdot_slash_per_component(&mut text, names)?;
    text.extend_from_slice(path)?;
    Ok(Bytes::from_vec(text))
}

/// A path, or what says the directory itself.
fn path_or_dot_slash_if_empty(alloc: Global, path: &[u8]) -> Result<Bytes, OutOfMemory>
    ensures { IfOk result (λ text. text ≡ words.path_or_dot_slash_if_empty path.now) }
{
    if path.is_empty() {
        return Bytes::from_slice(alloc, b"./");
    }
    Bytes::from_slice(alloc, path)
}

/// A path from the top as it reads from the directory `prefix`, which is from the top too: names that both begin with are left out, and
/// for each other name of `prefix` a `../` stands before it. The directory itself is `./`.
///
/// Empty names of `prefix` mean nothing; neither is to have `.` or `..`, nor to be absolute. A slash at the end of `path` stays, as
/// git's `relative_path` has it where `prefix` ends in a slash.
///
/// # Errors
///
/// Memory was refused.
pub fn path_relative_to_prefix(
    alloc: Global,
    path: &[u8],
    prefix: &[u8],
) -> Result<Bytes, OutOfMemory>
    ensures { IfOk result (λ text. text ≡ words.path_relative_to_prefix path.now prefix.now) }
{
    let mut rest = path;
    let mut left = prefix;
    while let Some((name, after)) = split_first_component(left) {
        let Some(beneath) = strip_leading_directory_name(name, rest) else {
            return path_behind_dotdot_per_component(alloc, left, rest);
        };
        rest = beneath;
        left = after;
    }
    path_or_dot_slash_if_empty(alloc, rest)
}
