//! Paths, and whether directories stand there.
ghost use Rattle.std.specs.Prelude.{◌≡◌};
ghost use Rattle.gitbase_core.specs.Path as paths;
ghost use Rattle.ls_files.specs.Unmatched.{place_from_name};

use std::marker::Model;

/// A path, and whether a directory stands there.
///
/// Contracts see the two.
#[derive(Drop)]
pub struct Place<'a> {
    path: &'a [u8],
    holds_names: bool,
}

impl<'a> Model for Place<'a> {
    ghost use Rattle.ls_files.specs.Places as specs;

    ghost Value = { specs.PathWithDirectoryFlag };

    ghost view = { λ place. record { path = place.path.now; holds_names = place.holds_names } };
}

impl<'a> Place<'a> {
    /// A path, as that of a directory or not.
    pub fn new(path: &'a [u8], holds_names: bool) -> Place<'a>
        ensures path { result.path ≡ path.now }
        ensures holds_names { result.holds_names ≡ holds_names }
    {
        Place { path, holds_names }
    }

    /// The path.
    pub fn path(&self) -> &'a [u8]
        ensures { result.now ≡ self.now.path }
    {
        self.path
    }

    /// Whether a directory stands there.
    pub fn is_directory_path(&self) -> bool
        ensures { result ≡ self.now.holds_names }
    {
        self.holds_names
    }
}

/// Whether a name ends in a slash, as that of a directory.
pub fn ends_with_slash(name: &[u8]) -> bool
    ensures { result ≡ paths.ends_in_slash name.now }
{
    name.last() == Some(&b'/')
}

/// A name without the slash at its end, if there is one.
fn strip_trailing_slash(name: &[u8]) -> &[u8]
    ensures { result.now ≡ paths.without_trailing_slash name.now }
{
    if ends_with_slash(name) {
        return &name[..name.len() - 1];
    }
    name
}

/// The path of a name, and whether it is that of a directory.
pub fn place_from_name(name: &[u8]) -> Place<'_>
    ensures { result ≡ place_from_name name.now }
{
    Place::new(strip_trailing_slash(name), ends_with_slash(name))
}
