//! Ignore rules that the index has as blobs.
use super::rows::{A_FILE, Row};
use worktree_fs::NewNode;

/// The index has the rules at the root, and in a directory.
const TWO: &[(&[u8], NewNode<'static>)] = &[(b"/w/a.o", A_FILE), (b"/w/a/b.o", A_FILE)];

pub static MAPPED: [Row; 7] = [
    Row {
        name: "rules in a blob",
        nodes: &[(b"/w/a.o", A_FILE)],
        setup: b"index 100644 0 - 1111111111111111111111111111111111111111 .gitignore\nblob 1111111111111111111111111111111111111111 *.o\\0a\noption ignore_source mapping\noption emit_ignored matching\n",
        status: 0,
        out: b"ignored file - always - -\ta.o\n",
        err: b"",
    },
    Row {
        name: "a blob that is not there",
        nodes: &[(b"/w/a.o", A_FILE)],
        setup: b"index 100644 0 - 1111111111111111111111111111111111111111 .gitignore\noption ignore_source mapping\noption emit_ignored matching\n",
        status: 4,
        out: b"",
        err: b"walk: blob 1111111111111111111111111111111111111111\n",
    },
    Row {
        name: "rules in two blobs, of which one is in a directory",
        nodes: TWO,
        setup: b"index 100755 0 - - .gitattributes\nindex 100644 0 s 1111111111111111111111111111111111111111 .gitignore\nindex 100644 0 - 2222222222222222222222222222222222222222 a/.gitignore\nblob 1111111111111111111111111111111111111111 *.o\nblob 2222222222222222222222222222222222222222 !b.o\noption ignore_source mapping\noption emit_ignored matching\n",
        status: 0,
        out: b"ignored file - always - -\ta.o\nuntracked file - always - -\ta/b.o\n",
        err: b"",
    },
    Row {
        name: "the same after the worktree, from which one of them is left out",
        nodes: TWO,
        setup: b"index 100755 0 - - .gitattributes\nindex 100644 0 s 1111111111111111111111111111111111111111 .gitignore\nindex 100644 0 - 2222222222222222222222222222222222222222 a/.gitignore\nblob 1111111111111111111111111111111111111111 *.o\nblob 2222222222222222222222222222222222222222 !b.o\noption emit_ignored matching\n",
        status: 0,
        out: b"ignored file - always - -\ta.o\nignored file - always - -\ta/b.o\n",
        err: b"",
    },
    Row {
        name: "a rules file in the worktree before the blob that it is mapped to",
        nodes: &[(b"/w/a.o", A_FILE), (b"/w/.gitignore", NewNode::File(b"b"))],
        setup: b"index 100644 0 s 1111111111111111111111111111111111111111 .gitignore\nblob 1111111111111111111111111111111111111111 *.o\noption emit_ignored matching\n",
        status: 0,
        out: b"untracked file - always - -\ta.o\n",
        err: b"",
    },
    Row {
        name: "a rules file that is a link, though it is mapped to a blob",
        nodes: &[
            (b"/w/a.o", A_FILE),
            (b"/w/r", NewNode::File(b"*.o")),
            (b"/w/.gitignore", NewNode::Link(b"r")),
        ],
        setup: b"index 100644 0 s 1111111111111111111111111111111111111111 .gitignore\nblob 1111111111111111111111111111111111111111 *.o\n",
        status: 4,
        out: b"",
        err: b"walk: rules-file /w/.gitignore\n",
    },
    Row {
        name: "a rules file that is a link, and not mapped",
        nodes: &[
            (b"/w/a.o", A_FILE),
            (b"/w/r", NewNode::File(b"*.o")),
            (b"/w/.gitignore", NewNode::Link(b"r")),
        ],
        setup: b"index 100644 0 - 1111111111111111111111111111111111111111 .gitignore\n",
        status: 0,
        out: b"untracked file - always - -\tr\n",
        err: b"",
    },
];
