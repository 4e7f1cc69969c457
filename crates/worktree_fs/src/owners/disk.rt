//! The owners of the files of the system, of which nothing is told.
ghost use Rattle.std.specs.Prelude.{◌≡◌, None};

use super::Owners;
use super::ownership::Ownership;
use crate::ReadError;
use crate::disk::node::is_path_absence_error;
use crate::faults::is_fault;
use std::fs::Metadata;
use std::marker::Model;
use std::os::unix::fs::MetadataExt;
use std::rt::{Files, HostRuntime};
use std::str;

/// The owners of the files of the system. They tell nothing, and count every call that the system
/// refuses, unless it says that nothing is there; a path that is not UTF-8 is such a failure, since std
/// has none for it.
///
/// Contracts see the count.
#[derive(Drop)]
pub struct DiskOwners<'a> {
    rt: &'a HostRuntime,
    faults: u64,
}

impl<'a> Model for DiskOwners<'a> {
    ghost use Rattle.worktree_fs.specs.Owners as words;

    ghost Value = { words.DiskOwnersModel };

    ghost view = { λ owners. record { faults = owners.faults } };
}

impl<'a> DiskOwners<'a> {
    /// Owners of all files of the system; takes no memory.
    pub fn new(rt: &'a HostRuntime) -> DiskOwners<'a>
        ensures { result ≡ record { faults = 0 } }
    {
        DiskOwners { rt, faults: 0 }
    }

    /// How many calls failed.
    pub fn fault_count(&self) -> u64
        ensures { result ≡ self.now.faults }
    {
        self.faults
    }
}

/// What the system's word on a node tells.
fn ownership_of_metadata(metadata: &Metadata) -> Ownership {
    Ownership {
        owner: metadata.uid(),
        device: metadata.dev(),
    }
}

/// Who owns the node at a path, where there is one. Never answers `OutOfMemory`.
fn query_ownership(
    rt: &HostRuntime,
    path: &[u8],
    follow: bool,
) -> Result<Option<Ownership>, ReadError> {
    let Ok(text) = str::from_utf8(path) else {
        return Err(ReadError::Fault);
    };
    let metadata = if follow {
        rt.metadata(text)
    } else {
        rt.symlink_metadata(text)
    };
    match metadata {
        Ok(metadata) => Ok(Some(ownership_of_metadata(&metadata))),
        Err(error) if is_path_absence_error(&error) => Ok(None),
        Err(_) => Err(ReadError::Fault),
    }
}

impl<'a> Owners for DiskOwners<'a> {
    ghost told = { λ _. None };

    ghost faults = { λ owners. owners.faults };

    /// One call of the system.
    fn ownership_at_path(
        &mut self,
        path: &[u8],
        follow: bool,
    ) -> Result<Option<Ownership>, ReadError> {
        let found = query_ownership(self.rt, path, follow);
        if is_fault(&found) {
            self.faults = self.faults.saturating_add(1);
        }
        found
    }
}
