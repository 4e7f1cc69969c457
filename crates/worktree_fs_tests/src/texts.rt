//! The texts of errors.
use std::alloc::Global;
use std::fmt::Display;
use worktree_fs::{AddError, Fault, ListError, PathStackError, ReadError};

/// Whether an error is shown so.
fn shows<E: Display>(alloc: Global, error: &E, want: &str) -> bool {
    match format!(in alloc; "{error}") {
        Ok(text) => text.as_str() == want,
        Err(_) => false,
    }
}

fn shows_reads(alloc: Global) -> bool {
    shows(alloc, &Fault, "Fault")
        && shows(alloc, &ReadError::Fault, "Fault")
        && shows(alloc, &ReadError::OutOfMemory, "OutOfMemory")
}

fn shows_list_errors(alloc: Global) -> bool {
    shows(alloc, &ListError::Absent, "Absent")
        && shows(alloc, &ListError::NotADirectory, "NotADirectory")
        && shows(alloc, &ListError::OpenFault, "OpenFault")
        && shows(alloc, &ListError::EntryFault, "EntryFault")
        && shows(alloc, &ListError::OutOfMemory, "OutOfMemory")
}

fn shows_adds(alloc: Global) -> bool {
    shows(alloc, &AddError::NotNormal, "NotNormal")
        && shows(alloc, &AddError::NoParent, "NoParent")
        && shows(alloc, &AddError::Exists, "Exists")
        && shows(alloc, &AddError::OutOfMemory, "OutOfMemory")
}

fn shows_lookups(alloc: Global) -> bool {
    shows(alloc, &PathStackError::<Fault>::NotNormal, "NotNormal")
        && shows(alloc, &PathStackError::Delegate(Fault), "Delegate")
        && shows(alloc, &PathStackError::<Fault>::OutOfMemory, "OutOfMemory")
}

#[test]
fn errors_are_shown_by_their_names(rt: HostRuntime) {
    let alloc = rt.alloc();
    assert!(rt; shows_reads(alloc) && shows_list_errors(alloc));
    assert!(rt; shows_adds(alloc) && shows_lookups(alloc));
}
