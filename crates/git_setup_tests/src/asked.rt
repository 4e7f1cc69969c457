//! What is asked in the trees of the rows, from their words.
use git_places::Surroundings;
use git_setup::{Asked, Found, GitRefusal, find_and_read_setup};
use gitbase_core::{Bytes, OutOfMemory, PathText};
use std::alloc::Global;
use test_cases::tree_from_steps;
use worktree_fs::{MemoryOwners, OwnedNode, Ownership};
use worktree_report::{Setup, SetupOptions};

/// The surroundings in a directory.
pub fn surroundings_in(alloc: Global, directory: &[u8]) -> Option<Surroundings> {
    Some(Surroundings {
        directory: PathText::from_bytes(alloc, directory).ok()?,
        home: Bytes::from_slice(alloc, b"/w/h").ok(),
        config_home: None,
        config_global: None,
        config_system: Bytes::from_slice(alloc, b"/w/etc").ok(),
        no_system: None,
        ceilings: None,
        across: Bytes::from_slice(alloc, b"1").ok(),
        sudo_user: None,
        elsewhere: None,
    })
}

/// The options of a setup without lines.
pub fn usual_options(alloc: Global) -> Option<SetupOptions> {
    let setup = Setup::parse(alloc, b"").ok()?;
    Some(setup.options)
}

/// What is asked with these options and path specs, parted by `|`.
pub fn asked_for(alloc: Global, options: SetupOptions, specs: &[u8]) -> Result<Asked, OutOfMemory> {
    let mut paths = Vec::new(alloc);
    for spec in specs.split(|byte| *byte == b'|') {
        paths.push(Bytes::from_slice(alloc, spec)?)?;
    }
    Ok(Asked {
        options,
        paths,
        depth: 256,
        prefers_current: false,
    })
}

/// What is asked with these options alone.
pub fn asked_alone(alloc: Global, options: SetupOptions) -> Asked {
    Asked {
        options,
        paths: Vec::new(alloc),
        depth: 256,
        prefers_current: false,
    }
}

/// The nodes that are the user's.
const OWNED: &[u8] =
    b"/proc/self /w/r /w/r/.git /w/t /w/t/.git /w/r/.git/worktrees/t /w/r/s /w/r/s/.git /w/r/s/../.git/modules/s /w/r/g";

/// Owners by whom each of these nodes is the user's.
pub fn owners_of(alloc: Global) -> Result<MemoryOwners, OutOfMemory> {
    let mut nodes = Vec::new(alloc);
    for path in OWNED.split(|byte| *byte == b' ') {
        nodes.push(OwnedNode {
            path: Bytes::from_slice(alloc, path)?,
            ownership: Ownership {
                owner: 7,
                device: 1,
            },
            link: None,
        })?;
    }
    Ok(MemoryOwners::new(nodes))
}

/// What is found in the tree of some steps, from a directory.
pub fn found_in(
    alloc: Global,
    steps: &[u8],
    directory: &[u8],
    asked: &Asked,
) -> Option<Result<Found, GitRefusal>> {
    let mut tree = tree_from_steps(alloc, steps, b'$')?;
    let mut owners = owners_of(alloc).ok()?;
    let around = surroundings_in(alloc, directory)?;
    Some(find_and_read_setup(alloc, &mut tree, &mut owners, &around, asked))
}
