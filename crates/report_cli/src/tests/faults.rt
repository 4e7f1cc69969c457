//! Each call that goes outside fails in turn: how a report ends then.
use crate::tests::rows::{A_FILE, REQUIRED, WITHOUT_RULES};
use crate::tests::walks::{COUNTED, TWO};
use worktree_fs::{CallKind, NewNode};

/// A git directory's `HEAD`.
const HEAD: NewNode<'static> = NewNode::File(b"ref: refs/heads/main\n");

/// A file in a directory, one that is ignored, and the rule for it.
pub const IGNORING: &[(&[u8], NewNode<'static>)] = &[
    (b"/w/.gitignore", NewNode::File(b"*.o")),
    (b"/w/d/a", A_FILE),
    (b"/w/k.o", A_FILE),
];

/// A file in a directory beside a repository.
pub const NESTED: &[(&[u8], NewNode<'static>)] = &[
    (b"/w/d/a", A_FILE),
    (b"/w/d/r/.git/HEAD", HEAD),
    (b"/w/d/r/.git/objects", NewNode::Directory),
    (b"/w/d/r/.git/refs", NewNode::Directory),
];

/// What fails in a run of the program, or stops it.
#[derive(Clone, Copy, Debug)]
pub enum Failing {
    /// Nothing.
    Nothing,
    /// This call of the worktree, counted from 1.
    Call(CallKind, u64),
    /// Each write to the sink of a report.
    Out,
    /// Each write to the sink of messages, where no words are handed in.
    Err,
    /// The interrupt, which is raised from this question on.
    Interrupt(u64),
}

/// How a run ends: with a status, with a text on the one sink or the other, and with so many
/// failures of the worktree.
pub type Ending = (u8, &'static [u8], u64);

/// What a report of [`IGNORING`] has where nothing fails.
const BOTH: &[u8] = b"untracked file - always - -\t.gitignore\nuntracked file - always - -\td/a\n";

const THE_FIRST: &[u8] = b"untracked file - always - -\t.gitignore\n";

const THE_SECOND: &[u8] = b"untracked file - always - -\td/a\n";

/// Subtrees are walked at once.
pub const AT_ONCE: &[u8] = b"option strategy at_once\noption recurse_repositories yes\n";

/// With [`IGNORING`]: how a run ends over the worktree itself, and where subtrees are walked at
/// once. A job asks a fork of the worktree and of the interrupt, which in memory plans no failure
/// and counts its own questions.
pub static EACH_IN_TURN: [(Failing, Ending, Ending); 17] = [
    (
        Failing::Call(CallKind::Kind, 1),
        (4, b"walk: root-is-file /w\n", 1),
        (4, b"walk: root-is-file /w\n", 1),
    ),
    (
        Failing::Call(CallKind::Kind, 2),
        (0, THE_SECOND, 1),
        (0, THE_SECOND, 1),
    ),
    (
        Failing::Call(CallKind::Kind, 3),
        (0, THE_FIRST, 1),
        (0, THE_FIRST, 1),
    ),
    (
        Failing::Call(CallKind::Kind, 4),
        (0, THE_FIRST, 1),
        (0, BOTH, 1),
    ),
    (Failing::Call(CallKind::Kind, 5), (0, BOTH, 1), (0, BOTH, 0)),
    (
        Failing::Call(CallKind::ListOpen, 1),
        (6, b"worktree fault\n", 1),
        (6, b"worktree fault\n", 1),
    ),
    (
        Failing::Call(CallKind::ListOpen, 2),
        (6, b"worktree fault\n", 1),
        (0, BOTH, 0),
    ),
    (
        Failing::Call(CallKind::ListEntry, 1),
        (6, b"worktree fault\n", 1),
        (6, b"worktree fault\n", 1),
    ),
    (
        Failing::Call(CallKind::ListEntry, 2),
        (6, b"worktree fault\n", 1),
        (0, BOTH, 0),
    ),
    (
        Failing::Call(CallKind::Read, 1),
        (6, b"worktree fault\n", 1),
        (6, b"worktree fault\n", 1),
    ),
    (
        Failing::Call(CallKind::Read, 2),
        (6, b"worktree fault\n", 1),
        (6, b"worktree fault\n", 1),
    ),
    (
        Failing::Call(CallKind::Read, 3),
        (6, b"worktree fault\n", 1),
        (0, BOTH, 0),
    ),
    (
        Failing::Out,
        (7, b"output fault\n", 0),
        (7, b"output fault\n", 0),
    ),
    (Failing::Err, (2, b"", 0), (2, b"", 0)),
    (
        Failing::Interrupt(1),
        (1, b"interrupted\n", 0),
        (1, b"interrupted\n", 0),
    ),
    (
        Failing::Interrupt(2),
        (1, b"interrupted\n", 0),
        (0, BOTH, 0),
    ),
    (Failing::Interrupt(3), (0, BOTH, 0), (0, BOTH, 0)),
];

/// A worktree with its setup, what fails, and how a run ends.
pub type Case = (
    &'static [(&'static [u8], NewNode<'static>)],
    &'static [u8],
    Failing,
    Ending,
);

/// One file.
const ONE: &[(&[u8], NewNode<'static>)] = &[(b"/w/a", A_FILE)];

pub static CASES: [Case; 6] = [
    (
        TWO,
        COUNTED,
        Failing::Call(CallKind::ListOpen, 2),
        (6, b"worktree fault\n", 1),
    ),
    (TWO, COUNTED, Failing::Out, (7, b"output fault\n", 0)),
    (
        TWO,
        COUNTED,
        Failing::Interrupt(2),
        (1, b"interrupted\n", 0),
    ),
    (ONE, REQUIRED, Failing::Call(CallKind::Kind, 2), (0, b"", 1)),
    (
        ONE,
        WITHOUT_RULES,
        Failing::Call(CallKind::Read, 1),
        (6, b"worktree fault\n", 1),
    ),
    (
        ONE,
        WITHOUT_RULES,
        Failing::Call(CallKind::ListOpen, 1),
        (6, b"worktree fault\n", 1),
    ),
];

/// Untracked directories are told in place of what lies in them.
pub const COLLAPSE: &[u8] = b"option emit_untracked collapse\n";

/// The same where subtrees are walked at once.
pub const COLLAPSE_AT_ONCE: &[u8] = b"option emit_untracked collapse\noption strategy at_once\n";

/// What a report of [`NESTED`] has where nothing fails.
const FOUND: &[u8] = b"untracked file - always - -\td/a\nuntracked repository - always - -\td/r\n";

/// With [`NESTED`], over the worktree itself and where subtrees are walked at once. Where `refs` or
/// `HEAD` cannot be looked at there is no repository, and a directory in which every path is pruned
/// keeps the one above it from being folded; where the real path of what `.git` leads to is not
/// known, it is another repository than the worktree's own. A job meets no failure.
pub static EACH_LOOK: [(Failing, Ending, Ending); 3] = [
    (
        Failing::Call(CallKind::KindFollowing, 3),
        (0, THE_SECOND, 1),
        (0, FOUND, 0),
    ),
    (
        Failing::Call(CallKind::Read, 4),
        (0, THE_SECOND, 1),
        (0, FOUND, 0),
    ),
    (
        Failing::Call(CallKind::RealPath, 1),
        (0, FOUND, 1),
        (0, FOUND, 0),
    ),
];

/// Two configurations, the first with a section that is not closed.
pub const MISREAD_FIRST: &[(&[u8], NewNode<'static>)] = &[
    (b"/c", NewNode::File(b"[x")),
    (b"/e", NewNode::File(b"")),
];

/// They are read for submodules.
pub const CONFIGURED: &[u8] = b"option submodules yes\nconfig local /c\nconfig local /e\n";

/// With [`MISREAD_FIRST`]: no file is read behind the one that is refused.
pub static IN_ORDER: [(Failing, Ending); 3] = [
    (
        Failing::Call(CallKind::Read, 1),
        (6, b"worktree fault\n", 1),
    ),
    (
        Failing::Call(CallKind::Read, 2),
        (6, b"worktree fault\n", 1),
    ),
    (
        Failing::Call(CallKind::Read, 3),
        (5, b"config 1: line 1\n", 0),
    ),
];
