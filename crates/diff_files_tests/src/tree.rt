//! The trees of rows, in memory.
use bstr::ByteSlice;
use diff_files::{MemoryStats, NodeStat, StatNode};
use git_index::{Detail, Stat, Time};
use gitbase_core::{Bytes, Flags, IndexEntry, Mode, ObjectId, PathText, State};
use std::alloc::Global;
use test_cases::split_at_byte;
use worktree_fs::{MemoryWorktree, NewNode};

/// A text with `$` for each LF and `&` for each CR, as it is meant.
pub fn meant(alloc: Global, text: &[u8]) -> Option<Vec<u8>> {
    let mut copy = text.to_vec(alloc).ok()?;
    for byte in copy.iter_mut() {
        if *byte == b'$' {
            *byte = b'\n';
        }
        if *byte == b'&' {
            *byte = b'\r';
        }
    }
    Some(copy)
}

/// A number in some base.
fn number_in(text: &[u8], base: u64) -> u64 {
    let mut number = 0u64;
    for byte in text {
        number = number
            .wrapping_mul(base)
            .wrapping_add(byte.wrapping_sub(b'0') as u64);
    }
    number
}

/// A decimal number.
pub fn number(text: &[u8]) -> u64 {
    number_in(text, 10)
}

fn small(text: &[u8]) -> u32 {
    (number(text) % 0x1_0000_0000) as u32
}

fn mode_of(text: &[u8]) -> u32 {
    (number_in(text, 8) % 0x1_0000_0000) as u32
}

fn time_of(text: &[u8]) -> Time {
    Time {
        seconds: small(text),
        nanoseconds: 0,
    }
}

/// The stat fields of an entry, from its mtime on, and its path.
fn stat_of(words: &[u8]) -> (Stat, &[u8]) {
    let (mtime, words) = split_at_byte(words, b' ');
    let (ctime, words) = split_at_byte(words, b' ');
    let (uid, words) = split_at_byte(words, b' ');
    let (gid, words) = split_at_byte(words, b' ');
    let (ino, words) = split_at_byte(words, b' ');
    let (size, path) = split_at_byte(words, b' ');
    let stat = Stat {
        ctime: time_of(ctime),
        mtime: time_of(mtime),
        dev: 0,
        ino: small(ino),
        uid: small(uid),
        gid: small(gid),
        size: small(size),
    };
    (stat, path)
}

/// The flags of an entry by its marks.
fn flags_of(marks: &[u8]) -> Flags {
    if marks.contains(&b'a') {
        return Flags::ASSUME_VALID;
    }
    if marks.contains(&b's') {
        return Flags::SKIP_WORKTREE;
    }
    Flags::empty()
}

/// The mode of an entry by its digits.
fn entry_mode(text: &[u8]) -> Mode {
    match text {
        b"100755" => Mode::FILE_EXECUTABLE,
        b"120000" => Mode::SYMLINK,
        b"160000" => Mode::COMMIT,
        b"40000" => Mode::DIR,
        _ => Mode::FILE,
    }
}

/// An entry, and what the index says of it besides.
fn entry_of(alloc: Global, text: &[u8]) -> Option<(IndexEntry, Detail)> {
    let (mode, words) = split_at_byte(text, b' ');
    let (stage, words) = split_at_byte(words, b' ');
    let (marks, words) = split_at_byte(words, b' ');
    let (id, words) = split_at_byte(words, b' ');
    let (stat, path) = stat_of(words);
    let entry = IndexEntry {
        path: PathText::from_bytes(alloc, path).ok()?,
        stage: (number(stage) % 256) as u8,
        mode: entry_mode(mode),
        flags: flags_of(marks),
        id: ObjectId::from_hex(id).ok()?,
    };
    let intent_to_add = marks.contains(&b'n');
    Some((
        entry,
        Detail {
            stat,
            intent_to_add,
        },
    ))
}

/// The index of some entries, parted by `;`, and their details.
pub fn index_of(alloc: Global, text: &[u8]) -> Option<(State, Vec<Detail>)> {
    let mut entries = Vec::new(alloc);
    let mut details = Vec::new(alloc);
    for part in text.split(|byte| *byte == b';') {
        if !part.is_empty() {
            let (entry, detail) = entry_of(alloc, part)?;
            entries.push(entry).ok()?;
            details.push(detail).ok()?;
        }
    }
    Some((State::from_entries(entries).ok()?, details))
}

/// Whether a node was put at a path of a tree.
fn is_put(alloc: Global, tree: &mut MemoryWorktree, path: &[u8], mode: u32, holds: &[u8]) -> bool {
    let node = match mode / 4096 {
        4 => NewNode::Directory,
        8 => NewNode::File(holds),
        10 => NewNode::Link(holds),
        _ => NewNode::Other,
    };
    tree.add(alloc, path, node).is_ok()
}

/// What is told of a node, and what it holds.
fn node_of(alloc: Global, text: &[u8], holds: &[u8]) -> Option<StatNode> {
    let (mode, words) = split_at_byte(text, b' ');
    let (mtime, words) = split_at_byte(words, b' ');
    let (size, path) = split_at_byte(words, b' ');
    let mode = mode_of(mode);
    Some(StatNode {
        path: Bytes::from_slice(alloc, path).ok()?,
        stat: NodeStat {
            mode,
            mtime: small(mtime),
            ctime: 1,
            uid: 1,
            gid: 1,
            ino: 1,
            size: number(size),
        },
        target: target_of(alloc, mode, holds),
    })
}

/// Where a link leads.
fn target_of(alloc: Global, mode: u32, holds: &[u8]) -> Option<Bytes> {
    if mode / 4096 != 10 {
        return None;
    }
    Bytes::from_slice(alloc, holds).ok()
}

/// A node, put at its path of a tree unless a `@` stands in front.
fn made_node(alloc: Global, tree: &mut MemoryWorktree, text: &[u8]) -> Option<StatNode> {
    let (words, rest) = split_at_byte(text, b'=');
    let holds = meant(alloc, rest)?;
    let Some(words) = words.strip_prefix(b"@".as_slice()) else {
        return put_node(alloc, tree, words, &holds);
    };
    node_of(alloc, words, &holds)
}

/// The same of what a tree has.
fn put_node(
    alloc: Global,
    tree: &mut MemoryWorktree,
    words: &[u8],
    holds: &[u8],
) -> Option<StatNode> {
    let node = node_of(alloc, words, holds)?;
    if !is_put(alloc, tree, node.path.as_bytes(), node.stat.mode, holds) {
        return None;
    }
    Some(node)
}

/// The tree of some nodes, parted by `;`, and what is told of them.
pub fn tree_of(alloc: Global, text: &[u8]) -> Option<(MemoryWorktree, MemoryStats)> {
    let mut tree = MemoryWorktree::new(alloc, false);
    let mut nodes = Vec::new(alloc);
    for part in text.split(|byte| *byte == b';') {
        if !part.is_empty() {
            nodes.push(made_node(alloc, &mut tree, part)?).ok()?;
        }
    }
    Some((tree, MemoryStats::new(nodes)))
}
