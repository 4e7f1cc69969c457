//! The files of the system. Root may open every directory, so none that may not be opened is among
//! them, and no name that is not UTF-8 can be made through the paths of the standard library: such
//! a path is asked for, and refused.
use crate::rows::kind_word;
use gitbase_core::Bytes;
use std::alloc::Global;
use std::rt::Files;
use std::test::Fail;
use std::{env, fs, io, process};
use test_cases::split_at_byte;
use worktree_fs::{
    DiskWorktree, ListError, MakeAnswer, NameList, ReadAnswer, ReadError, RemoveAnswer, Worktree,
};

/// Questions, parted by bars: what is asked, about which name in the folder, the answer, and how
/// many faults were counted.
const ROWS: &[u8] = b"\
kind`f`file`|follow`f`file`|kind`f/`file`|kind`l`link`|follow`l`file`|kind`d`directory`|kind`a/`link`|\
follow`a/`directory`|kind`a/b`file`|kind`f/x`none`|kind`z`none`|kind`p`link`|follow`p`fault`1|\
kind`z\0`none`|kind`\xff\0`none`|read`\xff\0`absent`|names`\0\xff`absent`|real`\xff\0`none`|make`\xff\0`orphan`|\
remove`\xff\0`absent`|kind`\xff`fault`1|kind`f/\xff`fault`1|follow`l\xff`fault`1|read`\xff`fault`1|through`d/\xff`fault`1|\
names`\xff`open`1|names of`d/\xff/`open`1|composed`\xff`open`1|real`\xff/..`fault`1|make`\xff`fault`1|make`z/\xff`fault`1|\
remove`\xff`fault`1|\
read`l`link`|read`p`link`|read`d`directory`|read`z`absent`|through`p`fault`1|through`l`f`|\
names`d`B a b `|names`a`not`|names`p`not`|names of`a`B a b `|names of`f`not`|names of`z`absent`|names of`p`open`1|\
composed`c`\xc3\xa4 `|names`c`a\xcc\x88 `|names`e`a\xcc\x88 \xc3\xa4 `|composed`e`entry`1|\
real`a/../l`f`|real`z`none`|real`p`fault`1|\
make`f`exists`|make`z/y`orphan`|make`f/y`orphan`|make`n`made`|kind`n`directory`|remove`n`directory`|\
make composed`n/a\xcc\x88`made`|names`n`\xc3\xa4 `|make composed`n/a\xcc\x88`exists`|\
make`n/a\xcc\x88`made`|names`n`a\xcc\x88 \xc3\xa4 `|\
make`p/x`fault`1|remove`p`removed`|kind`p`none`|remove`p`absent`|remove`z/y`absent`";

/// The path of a name in a folder.
fn inside(alloc: Global, folder: &[u8], name: &[u8]) -> Option<Vec<u8>> {
    let mut path = Vec::new(alloc);
    path.extend_from_slice(folder).ok()?;
    path.push(b'/').ok()?;
    path.extend_from_slice(name).ok()?;
    Some(path)
}

fn has_kind(
    alloc: Global,
    disk: &mut DiskWorktree<'_>,
    path: &[u8],
    follow: bool,
    want: &[u8],
) -> bool {
    let kind = if follow {
        disk.kind_following(alloc, path)
    } else {
        disk.kind(alloc, path)
    };
    match kind {
        Ok(kind) => kind_word(kind) == want,
        Err(ReadError::Fault) => want == b"fault".as_slice(),
        Err(ReadError::OutOfMemory) => false,
    }
}

fn reads(
    alloc: Global,
    disk: &mut DiskWorktree<'_>,
    path: &[u8],
    follow: bool,
    want: &[u8],
) -> bool {
    let mut into = Bytes::new(alloc);
    match disk.read(alloc, path, follow, &mut into) {
        Ok(ReadAnswer::Read) => into.as_bytes() == want,
        Ok(ReadAnswer::IsLink) => want == b"link".as_slice(),
        Ok(ReadAnswer::IsDirectory) => want == b"directory".as_slice(),
        Ok(ReadAnswer::Absent) => want == b"absent".as_slice(),
        Err(ReadError::Fault) => want == b"fault".as_slice(),
        _ => false,
    }
}

fn are_names(names: &NameList, want: &[u8]) -> bool {
    let mut words = want.split(|byte| *byte == b' ');
    names
        .as_slice()
        .iter()
        .all(|name| words.next() == Some(name.as_bytes()))
        && words.next() == Some(b"".as_slice())
}

fn lists(
    alloc: Global,
    disk: &mut DiskWorktree<'_>,
    path: &[u8],
    follow: bool,
    want: &[u8],
) -> bool {
    match disk.list(alloc, path, follow) {
        Ok(names) => are_names(&names, want),
        Err(ListError::Absent) => want == b"absent".as_slice(),
        Err(ListError::NotADirectory) => want == b"not".as_slice(),
        Err(ListError::OpenFault) => want == b"open".as_slice() && disk.list_fault_count() == 1,
        Err(ListError::EntryFault) => want == b"entry".as_slice() && disk.list_fault_count() == 1,
        Err(ListError::OutOfMemory) => false,
    }
}

/// Whether the path without links ends so.
fn has_real_path(alloc: Global, disk: &mut DiskWorktree<'_>, path: &[u8], want: &[u8]) -> bool {
    match disk.real_path(alloc, path, b"/") {
        Ok(Some(real)) => real.basename() == want,
        Ok(None) => want == b"none".as_slice(),
        Err(ReadError::Fault) => want == b"fault".as_slice(),
        Err(ReadError::OutOfMemory) => false,
    }
}

fn makes(alloc: Global, disk: &mut DiskWorktree<'_>, path: &[u8], want: &[u8]) -> bool {
    match disk.make_dir(alloc, path) {
        Ok(MakeAnswer::Made) => want == b"made".as_slice(),
        Ok(MakeAnswer::Exists) => want == b"exists".as_slice(),
        Ok(MakeAnswer::NoParent) => want == b"orphan".as_slice(),
        Err(ReadError::Fault) => want == b"fault".as_slice(),
        Err(ReadError::OutOfMemory) => false,
    }
}

fn removes(alloc: Global, disk: &mut DiskWorktree<'_>, path: &[u8], want: &[u8]) -> bool {
    match disk.remove_node(alloc, path) {
        Ok(RemoveAnswer::Removed) => want == b"removed".as_slice(),
        Ok(RemoveAnswer::Absent) => want == b"absent".as_slice(),
        Ok(RemoveAnswer::IsDirectory) => want == b"directory".as_slice(),
        Err(ReadError::Fault) => want == b"fault".as_slice(),
        Err(ReadError::OutOfMemory) => false,
    }
}

fn answers(
    alloc: Global,
    disk: &mut DiskWorktree<'_>,
    question: &[u8],
    path: &[u8],
    want: &[u8],
) -> bool {
    match question {
        b"kind" => has_kind(alloc, disk, path, false, want),
        b"follow" => has_kind(alloc, disk, path, true, want),
        b"read" => reads(alloc, disk, path, false, want),
        b"through" => reads(alloc, disk, path, true, want),
        b"names" => lists(alloc, disk, path, false, want),
        b"names of" => lists(alloc, disk, path, true, want),
        b"composed" => lists(alloc, disk, path, false, want),
        b"real" => has_real_path(alloc, disk, path, want),
        b"make" | b"make composed" => makes(alloc, disk, path, want),
        _ => removes(alloc, disk, path, want),
    }
}

/// How many listings failed: a fault of a listing is told by a word of its own.
fn listing_faults(want: &[u8], faults: &[u8]) -> u64 {
    match want {
        b"open" | b"entry" => faults.len() as u64,
        _ => 0,
    }
}

/// Whether the path of the first fault is named, and none where there is no fault.
fn names_first(disk: &DiskWorktree<'_>, path: &[u8]) -> bool {
    match disk.fault_count() {
        0 => disk.path_of_first_fault().is_empty(),
        _ => disk.path_of_first_fault() == path,
    }
}

fn holds(rt: &HostRuntime, current: &str, folder: &[u8], row: &[u8]) -> bool {
    let (question, rest) = split_at_byte(row, b'`');
    let (name, rest) = split_at_byte(rest, b'`');
    let (want, faults) = split_at_byte(rest, b'`');
    let composes = matches!(question, b"composed" | b"make composed");
    let mut disk = DiskWorktree::new_with_current_dir(rt, composes, current);
    match inside(rt.alloc(), folder, name) {
        Some(path) => {
            answers(rt.alloc(), &mut disk, question, &path, want)
                && disk.fault_count() == faults.len() as u64
                && disk.list_fault_count() == listing_faults(want, faults)
                && names_first(&disk, &path)
        }
        None => false,
    }
}

/// A path that is longer than the system takes is a fault, and so is a name that is too long, in
/// each call but a listing, which is asked below.
fn refuses_long(rt: &HostRuntime) -> bool {
    let alloc = rt.alloc();
    let mut disk = DiskWorktree::new(rt, false);
    let path = [b'x'; 5000];
    let name = [b'x'; 300];
    has_kind(alloc, &mut disk, &path, false, b"fault")
        && has_kind(alloc, &mut disk, &name, false, b"fault")
        && has_kind(alloc, &mut disk, &name, true, b"fault")
        && reads(alloc, &mut disk, &name, false, b"fault")
        && has_real_path(alloc, &mut disk, &name, b"fault")
        && makes(alloc, &mut disk, &name, b"fault")
        && removes(alloc, &mut disk, &name, b"fault")
        && disk.fault_count() == 7
        && disk.list_fault_count() == 0
        && names_first(&disk, &path)
}

/// A listing of a path that is too long fails at opening; a fork's counts are added to those of the
/// worktree.
fn counts_long_listing(rt: &HostRuntime) -> bool {
    let alloc = rt.alloc();
    let mut disk = DiskWorktree::new(rt, false);
    let Ok(fork) = disk.fork(alloc) else {
        return false;
    };
    let mut fork = fork;
    let name = [b'x'; 300];
    let refused = lists(alloc, &mut fork, &name, false, b"open");
    disk.absorb(fork);
    refused && disk.fault_count() == 1 && disk.list_fault_count() == 1 && names_first(&disk, &name)
}

/// A directory that is not UTF-8 is a fault for the paths that are taken from it, and for no other.
fn refuses_odd_directory(rt: &HostRuntime) -> bool {
    let alloc = rt.alloc();
    let mut disk = DiskWorktree::new(rt, false);
    let refused = matches!(
        disk.real_path(alloc, b"..", b"/\xff"),
        Err(ReadError::Fault)
    );
    match disk.real_path(alloc, b"/", b"/\xff") {
        Ok(Some(real)) => refused && real.as_bytes() == b"/".as_slice() && disk.fault_count() == 1,
        _ => false,
    }
}

/// A relative path is taken from the current directory, and one without links from the directory
/// that is given.
fn takes_relative(rt: &HostRuntime, folder: &[u8]) -> bool {
    let alloc = rt.alloc();
    let mut disk = DiskWorktree::new(rt, false);
    let from_here = has_kind(alloc, &mut disk, b".", false, b"directory");
    match disk.real_path(alloc, b"a/../l", folder) {
        Ok(Some(real)) => from_here
            && real.basename() == b"f".as_slice()
            && disk.fault_count() == 0,
        _ => false,
    }
}

/// A folder of this process among the temporary files.
fn folder(rt: &HostRuntime, name: &str) -> io::Result<String> {
    let temporary = env::temp_dir(rt)?;
    let id = process::id(rt.process());
    Ok(format!(in rt.alloc(); "{}/worktree_fs_{name}_{id}", temporary.display())?)
}

fn make_node(rt: &HostRuntime, folder: &str, what: u8, name: &str) -> io::Result<()> {
    let path = format!(in rt.alloc(); "{folder}/{name}")?;
    let path = path.as_str();
    match what {
        b'd' => fs::create_dir(rt, path),
        b'l' => rt.symlink("f", path),
        b'p' => rt.symlink("p", path),
        b'a' => rt.symlink("d", path),
        _ => fs::write(rt, path, name),
    }
}

fn make_nodes(rt: &HostRuntime, folder: &str) -> io::Result<()> {
    fs::create_dir(rt, folder)?;
    for name in ["d", "c", "e"] {
        make_node(rt, folder, b'd', name)?;
    }
    for name in [
        "f",
        "d/b",
        "d/B",
        "d/a",
        "c/a\u{308}",
        "e/a\u{308}",
        "e/\u{e4}",
    ] {
        make_node(rt, folder, b'f', name)?;
    }
    make_node(rt, folder, b'l', "l")?;
    make_node(rt, folder, b'p', "p")?;
    make_node(rt, folder, b'a', "a")
}

#[test]
fn the_disk_answers_as_a_tree(rt: HostRuntime) -> Result<(), Fail> {
    let folder = folder(&rt, "whole")?;
    make_nodes(&rt, folder.as_str())?;
    for row in ROWS.split(|byte| *byte == b'|') {
        assert!(rt; holds(&rt, "", folder.as_bytes(), row), "{row:?}");
    }
    assert!(rt; takes_relative(&rt, folder.as_bytes()));
    fs::remove_dir_all(&rt, folder.as_str())?;
    Ok(())
}

/// Beneath the current directory the answers are the same.
#[test]
fn the_disk_answers_from_the_current_directory(rt: HostRuntime) -> Result<(), Fail> {
    let folder = folder(&rt, "here")?;
    make_nodes(&rt, folder.as_str())?;
    let current = format!(in rt.alloc(); "{folder}/")?;
    env::set_current_dir(&rt, folder.as_str())?;
    for row in ROWS.split(|byte| *byte == b'|') {
        assert!(rt;
            holds(&rt, current.as_str(), folder.as_bytes(), row),
            "{row:?}"
        );
    }
    env::set_current_dir(&rt, "/")?;
    fs::remove_dir_all(&rt, folder.as_str())?;
    Ok(())
}

#[test]
fn the_disk_has_limits(rt: HostRuntime) {
    assert!(rt; refuses_long(&rt));
    assert!(rt; counts_long_listing(&rt));
    assert!(rt; refuses_odd_directory(&rt));
}
