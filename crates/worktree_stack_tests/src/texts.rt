//! The texts of errors.
use crate::steps::id_of;
use gitbase_core::PathText;
use std::alloc::Global;
use std::fmt::Display;
use worktree_stack::validate::ComponentError;
use worktree_stack::{AtPathError, BlobWhy, DirectoryWhy, RulesWhy};

/// Whether an error is shown so.
fn shows<E: Display>(alloc: Global, error: &E, want: &str) -> bool {
    match format!(in alloc; "{error}") {
        Ok(text) => text.as_str() == want,
        Err(_) => false,
    }
}

fn shows_components(alloc: Global) -> bool {
    shows(alloc, &ComponentError::Empty, "Empty")
        && shows(alloc, &ComponentError::Slash, "Slash")
        && shows(alloc, &ComponentError::Dots, "Dots")
        && shows(alloc, &ComponentError::DotGit, "DotGit")
        && shows(alloc, &ComponentError::ModulesLink, "ModulesLink")
        && shows(alloc, &ComponentError::Windows, "Windows")
}

fn shows_reasons(alloc: Global) -> bool {
    shows(alloc, &DirectoryWhy::NoParent, "NoParent")
        && shows(alloc, &DirectoryWhy::Fault, "Fault")
        && shows(alloc, &RulesWhy::Link, "Link")
        && shows(alloc, &RulesWhy::LinkLimit, "LinkLimit")
        && shows(alloc, &RulesWhy::Special, "Special")
        && shows(alloc, &RulesWhy::Fault, "Fault")
        && shows(alloc, &BlobWhy::Missing, "Missing")
        && shows(alloc, &BlobWhy::NotABlob, "NotABlob")
        && shows(alloc, &BlobWhy::Fault, "Fault")
}

/// Whether the refusals of a look-up are shown so that name no path.
fn shows_lookups(alloc: Global) -> bool {
    let why = BlobWhy::Fault;
    let id = id_of(b"1");
    shows(alloc, &AtPathError::NotNormal, "NotNormal")
        && shows(
            alloc,
            &AtPathError::Component(ComponentError::Empty),
            "Component",
        )
        && shows(alloc, &AtPathError::Blob { id, why }, "Blob")
        && shows(alloc, &AtPathError::OutOfMemory, "OutOfMemory")
}

/// The names of the refusals that name a path.
const WITH_PATHS: [&str; 3] = ["Collision", "Directory", "RulesFile"];

/// Whether the refusal of this name is shown by it.
fn shows_name(alloc: Global, name: &str) -> bool {
    match PathText::from_bytes(alloc, b"/w/a") {
        Ok(path) => shows(alloc, &with_path(name, path), name),
        Err(_) => false,
    }
}

fn with_path(name: &str, path: PathText) -> AtPathError {
    match name {
        "Collision" => AtPathError::Collision { path },
        "Directory" => AtPathError::Directory {
            path,
            why: DirectoryWhy::Fault,
        },
        _ => AtPathError::RulesFile {
            path,
            why: RulesWhy::Fault,
        },
    }
}

#[test]
fn errors_are_shown_by_their_names(rt: HostRuntime) {
    let alloc = rt.alloc();
    assert!(rt; shows_components(alloc) && shows_reasons(alloc) && shows_lookups(alloc));
    for name in &WITH_PATHS {
        assert!(rt; shows_name(alloc, name), "{name}");
    }
}
