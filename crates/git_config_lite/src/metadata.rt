//! Where a configuration was read.
ghost use Rattle.std.specs.Prelude.{◌≡◌, IfOk};

use gitbase_core::{OutOfMemory, PathText};
use std::alloc::Global;

/// What a configuration belongs to.
#[derive(Clone, Copy, Debug, PartialEq, Eq)]
pub enum Source {
    /// The installation of git itself.
    GitInstallation,
    /// The machine.
    System,
    /// The user, under git's own directory of configurations.
    Git,
    /// The user.
    User,
    /// The repository.
    Local,
    /// Variables of the environment.
    Env,
    /// The calling program.
    Api,
    /// The file `.gitmodules`.
    Modules,
}

/// Where a configuration was read.
#[derive(Debug, Drop)]
pub struct Metadata {
    /// What it belongs to.
    pub source: Source,
    /// The file, if it is one.
    pub path: Option<PathText>,
}

impl Metadata {
    /// Equal metadata; fails only where memory is refused.
    pub(crate) fn copy(&self, alloc: Global) -> Result<Metadata, OutOfMemory>
        ensures { IfOk result (λ copy. copy ≡ self.now) }
    {
        let path = match &self.path {
            Some(path) => Some(PathText::from_bytes(alloc, path.as_bytes())?),
            None => None,
        };
        Ok(Metadata {
            source: self.source,
            path,
        })
    }
}
