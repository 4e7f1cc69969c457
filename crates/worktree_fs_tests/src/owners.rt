//! The owners of the files of the system, and of some in memory.
use gitbase_core::Bytes;
use std::alloc::Global;
use worktree_fs::{DiskOwners, MemoryOwners, OwnedNode, Owners, Ownership, ReadError};

fn device(owners: &mut DiskOwners<'_>, path: &[u8]) -> Option<u64> {
    match owners.ownership_at_path(path, true) {
        Ok(Some(found)) => Some(found.device),
        _ => None,
    }
}

/// Whether `/` lies on one file system, and what the system tells of processes on another one.
fn tells_devices(owners: &mut DiskOwners<'_>) -> bool {
    let top = device(owners, b"/");
    top.is_some() && device(owners, b"/.") == top && device(owners, b"/proc/self") != top
}

fn tells_nothing(owners: &mut DiskOwners<'_>, path: &[u8]) -> bool {
    owners.ownership_at_path(path, false) == Ok(None)
}

fn fails(owners: &mut DiskOwners<'_>, path: &[u8]) -> bool {
    owners.ownership_at_path(path, false) == Err(ReadError::Fault)
}

#[test]
fn the_disk_tells_file_systems_and_counts_faults(rt: HostRuntime) {
    let mut owners = DiskOwners::new(&rt);
    assert!(rt; tells_devices(&mut owners));
    assert!(rt; tells_nothing(&mut owners, b"/nowhere-at-all"));
    assert!(rt; tells_nothing(&mut owners, b"/nowhere-at-all/x"));
    assert_eq!(rt; owners.fault_count(), 0);
    assert!(rt; fails(&mut owners, b"\xff"));
    assert_eq!(rt; owners.fault_count(), 1);
}

fn owned_by(owner: u32) -> Ownership {
    Ownership { owner, device: 1 }
}

/// The owners of a node of 7, at which a link of 8 stands.
fn one_owner(alloc: Global) -> Option<MemoryOwners> {
    let mut nodes = Vec::new(alloc);
    nodes
        .push(OwnedNode {
            path: Bytes::from_slice(alloc, b"/w").ok()?,
            ownership: owned_by(7),
            link: Some(owned_by(8)),
        })
        .ok()?;
    Some(MemoryOwners::new(nodes))
}

fn is_owned_by(alloc: Global, path: &[u8], follow: bool, want: Option<u32>) -> bool {
    match one_owner(alloc) {
        Some(owners) => {
            let mut owners = owners;
            match owners.ownership_at_path(path, follow) {
                Ok(found) => found.map(|found| found.owner) == want,
                Err(_) => false,
            }
        }
        None => false,
    }
}

#[test]
fn owners_in_memory_are_those_that_were_put_there(rt: HostRuntime) {
    assert!(rt; is_owned_by(rt.alloc(), b"/w", true, Some(7)));
    assert!(rt; is_owned_by(rt.alloc(), b"/w", false, Some(8)));
    assert!(rt; is_owned_by(rt.alloc(), b"/w/r", true, None));
}
