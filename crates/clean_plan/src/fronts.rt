//! The directories above a path.
ghost use Rattle.std.specs.Prelude.{◌≡◌, ◌&&◌, ◌||◌, ◌<◌, ◌≤◌, ℕ, List, true, length, take, nat_lt, OnOk, bytes_eq};
ghost use Rattle.gitbase_core.specs.Path.{is_beneath_directory};
ghost use Rattle.clean_plan.specs.Paths.{is_text_in_list};

use crate::paths::Paths;
use gitbase_core::{OutOfMemory, is_empty_or_root_path};

/// Whether a path lies beneath its front of so many bytes.
pub(crate) fn has_ancestor_of_length(path: &[u8], at: usize) -> bool
    requires { at < length path.now }
    ensures { result ≡ is_beneath_directory (take at path.now) path.now }
{
    is_empty_or_root_path(&path[..at]) || path[at] == b'/'
}

/// Puts the front of a path of so many bytes among others, if the path lies beneath it.
fn add_ancestor_of_length<'a>(
    path: &'a [u8],
    at: usize,
    others: &mut Paths<'a>,
) -> Result<(), OutOfMemory>
    requires { at < length path.now }
    ensures { (other : List ℕ) → OnOk result (is_text_in_list other others.new
        ≡ ((is_beneath_directory (take at path.now) path.now && bytes_eq other (take at path.now))
        || is_text_in_list other others.old)) }
{
    if has_ancestor_of_length(path, at) {
        others.add(&path[..at])?;
    }
    Ok(())
}

/// Puts the directories above a path that have fewer bytes than so many among others; those with
/// fewer than `begin` are among them.
pub(crate) fn add_ancestors_in_length_range<'a>(
    path: &'a [u8],
    begin: usize,
    reach: usize,
    others: &mut Paths<'a>,
) -> Result<(), OutOfMemory>
    requires begin { begin ≤ reach }
    requires reach { reach ≤ length path.now }
    requires among { (other : List ℕ) → is_beneath_directory other path.now ≡ true
        → length other < begin → is_text_in_list other others.old ≡ true }
    ensures { (other : List ℕ) → OnOk result (is_text_in_list other others.new
        ≡ ((is_beneath_directory other path.now && nat_lt (length other) reach)
        || is_text_in_list other others.old)) }
{
    for at in begin..reach {
        add_ancestor_of_length(path, at, others)?;
    }
    Ok(())
}
