//! How one path lies beneath another.
ghost use Rattle.std.specs.Prelude.{◌≡◌, option_copied};
ghost use Rattle.gitbase_core.specs.Path.{is_empty_or_root_path, rest_without_separating_slash, strip_directory_prefix, is_beneath_directory, is_prefix_by_whole_components};

/// The path as it reads from a directory, where it lies beneath that; as Rust's
/// `Path::strip_prefix`, of whole components.
///
/// Beneath the empty path lies every other, beneath `/` every longer one that begins with it, and
/// beneath any other directory what begins with it and a slash. No path lies beneath itself. Both
/// are taken as they are spelled.
pub fn strip_directory_prefix<'a>(path: &'a [u8], directory: &[u8]) -> Option<&'a [u8]>
    ensures { option_copied result ≡ strip_directory_prefix directory.now path.now }
{
    if !path.starts_with(directory) {
        return None;
    }
    let rest = &path[directory.len()..];
    let is_top = is_empty_or_root_path(directory);
    match rest {
        [] => None,
        [b'/', beneath @ ..] if !is_top => Some(beneath),
        _ => if is_top { Some(rest) } else { None },
    }
}

/// Whether a path lies beneath a directory, by the rule of `strip_directory_prefix`.
pub fn is_beneath_directory(directory: &[u8], path: &[u8]) -> bool
    ensures { result ≡ is_beneath_directory directory.now path.now }
{
    strip_directory_prefix(path, directory).is_some()
}

/// Whether a path is a prefix of another by whole components: it is empty, the same, or one that
/// the other lies beneath.
pub fn is_prefix_by_whole_components(prefix: &[u8], path: &[u8]) -> bool
    ensures { result ≡ is_prefix_by_whole_components prefix.now path.now }
{
    prefix.is_empty() || prefix == path || is_beneath_directory(prefix, path)
}

/// Whether the path is the empty one or `/`, beneath which all others of its kind lie.
pub fn is_empty_or_root_path(path: &[u8]) -> bool
    ensures { result ≡ is_empty_or_root_path path.now }
{
    match path {
        [] => true,
        [only] => *only == b'/',
        _ => false,
    }
}
