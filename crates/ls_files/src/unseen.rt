//! What git does not come to, where path specs take out directories.
ghost use Rattle.std.specs.Prelude.{◌≡◌, ◌<◌, true, length, slice_index, take};
ghost use Rattle.std.specs.List.{list_any};
ghost use Rattle.gitbase_core.specs.Path.{is_slash};
ghost use Rattle.ls_files.specs.Others as words;

use crate::options::NamedSpec;
use crate::others::has_index_entry_beneath;
use gitbase_core::{State, basename};
use glob_rules::pathspec::{Match, Matcher};

/// Whether path specs take out.
fn is_excluded_match(found: Option<Match>) -> bool
    ensures { result ≡ words.is_excluded_match found }
{
    match found {
        Some(found) => found.is_excluded(),
        None => false,
    }
}

/// Whether a spec takes out a path, that of a directory or not.
fn spec_excludes_path(named: &NamedSpec, path: &[u8], is_dir: bool) -> bool
    ensures { result ≡ words.spec_excludes_path named.now path.now is_dir }
{
    let found = named
        .spec
        .pattern_matching_relative_path(path, Some(is_dir));
    is_excluded_match(found)
}

/// Whether a name is `.` or `..`.
fn is_dot_or_dot_dot(name: &[u8]) -> bool
    ensures { result ≡ words.is_dot_or_dot_dot name.now }
{
    name == b".".as_slice() || name == b"..".as_slice()
}

/// Whether a spec was written with `.` or `..` at its end.
fn ends_in_dot_component(named: &NamedSpec) -> bool
    ensures { result ≡ words.ends_in_dot_component named.now }
{
    is_dot_or_dot_dot(basename(named.text.as_bytes()))
}

/// Whether a spec was written with `**/` at its end.
fn ends_in_double_star_slash(named: &NamedSpec) -> bool
    ensures { result ≡ words.ends_in_double_star_slash named.now }
{
    named.text.as_bytes().ends_with(b"**/")
}

/// Whether a spec takes out a directory as one that is asked for.
fn spec_excludes_path_as_directory(named: &NamedSpec, directory: &[u8]) -> bool
    ensures { result ≡ words.spec_excludes_path_as_directory named.now directory.now }
{
    if !spec_excludes_path(named, directory, true) {
        return false;
    }
    ends_in_dot_component(named) || !spec_excludes_path(named, directory, false)
}

/// Whether a spec takes out a directory of this name itself.
fn excludes_directory_itself(name: &[u8], directory: &[u8], named: &NamedSpec) -> bool
    ensures { result ≡ words.excludes_directory_itself name.now directory.now named.now }
{
    spec_excludes_path(named, name, ends_in_double_star_slash(named))
        || spec_excludes_path_as_directory(named, directory)
}

/// Whether one of some specs does.
fn any_spec_excludes_directory(name: &[u8], directory: &[u8], all: &[NamedSpec]) -> bool
    ensures { result ≡ list_any (words.excludes_directory_itself name.now directory.now) all.now }
{
    all.iter()
        .any(|named| excludes_directory_itself(name, directory, named))
}

/// The name of the directory that ends before a slash of a path.
pub fn directory_name_through_slash(path: &[u8], at: usize) -> &[u8]
    requires within { at < length path.now }
    requires slash { is_slash (slice_index path.now at) ≡ true }
    ensures { result.now ≡ words.name (words.directory_place_of_path (take at path.now)) }
{
    let (name, _) = path.split_at(at + 1);
    name
}

/// Whether git does not look into the directory that ends before a slash of a name.
fn do_specs_skip_unindexed_directory(
    index: &State,
    all: &[NamedSpec],
    name: &[u8],
    at: usize,
) -> bool
    requires within { at < length name.now }
    requires slash { is_slash (slice_index name.now at) ≡ true }
    ensures { result ≡ words.do_specs_skip_unindexed_directory index.now all.now
        (take at name.now) }
{
    let directory = directory_name_through_slash(name, at);
    any_spec_excludes_directory(directory, &name[..at], all)
        && !has_index_entry_beneath(index, directory)
}

/// Whether a directory ends before a byte of a name, and git does not look into it.
fn do_specs_skip_directory_ending_at(
    index: &State,
    all: &[NamedSpec],
    name: &[u8],
    at: usize,
) -> bool
    requires { at < length name.now }
    ensures { result ≡ words.do_specs_skip_directory_ending_at index.now all.now name.now at }
{
    if name[at] != b'/' {
        return false;
    }
    do_specs_skip_unindexed_directory(index, all, name, at)
}

/// Whether git does not come to what has a name, with a slash at its end if it is a directory: a
/// path spec takes out that or a directory above it, of which the index has nothing; `all` has each
/// path spec alone.
pub fn lies_in_spec_skipped_directory(index: &State, all: &[NamedSpec], name: &[u8]) -> bool
    ensures { result ≡ words.lies_in_spec_skipped_directory index.now all.now name.now }
{
    let mut at = 0;
    while at < name.len() {
        if do_specs_skip_directory_ending_at(index, all, name, at) {
            return true;
        }
        at += 1;
    }
    false
}
