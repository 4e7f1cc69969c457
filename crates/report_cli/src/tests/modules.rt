//! Worktrees with a submodule, and what the report says of it.
use crate::tests::rows::Row;
use worktree_fs::NewNode;

/// A git directory's `HEAD`.
const HEAD: NewNode<'static> = NewNode::File(b"ref: refs/heads/main\n");

const LINK: NewNode<'static> = NewNode::File(b"gitdir: /g/m\n");

const MODULES: NewNode<'static> = NewNode::File(b"[submodule \"m\"]\npath = lib\nurl = u\n");

const CONFIG: NewNode<'static> = NewNode::File(b"[submodule \"m\"]\nurl = u\n");

/// A submodule `m` at `lib`, and a configuration with a URL for it.
const ONE: &[(&[u8], NewNode<'static>)] = &[
    (b"/g/m/HEAD", HEAD),
    (b"/g/m/objects", NewNode::Directory),
    (b"/g/m/refs", NewNode::Directory),
    (b"/w/.gitmodules", MODULES),
    (b"/w/lib/.git", LINK),
    (b"/c", CONFIG),
];

/// The index has both, and both are asked for.
const WITHOUT_CONFIG: &[u8] =
    b"index 100644 0 - - .gitmodules\nindex 160000 0 - - lib\noption emit_tracked yes\noption submodules yes\n";

/// The same, and the configuration is read.
const WITH_CONFIG: &[u8] =
    b"index 100644 0 - - .gitmodules\nindex 160000 0 - - lib\noption emit_tracked yes\noption submodules yes\nconfig local /c\n";

pub static MODULED: [Row; 9] = [
    Row {
        name: "an active submodule",
        nodes: ONE,
        setup: WITH_CONFIG,
        status: 0,
        out: b"tracked file file always - - -\t.gitmodules\ntracked repository repository always - - active:m\tlib\n",
        err: b"",
    },
    Row {
        name: "an inactive submodule",
        nodes: ONE,
        setup: WITHOUT_CONFIG,
        status: 0,
        out: b"tracked file file always - - -\t.gitmodules\ntracked repository repository always - - inactive:m\tlib\n",
        err: b"",
    },
    Row {
        name: "a submodule whose activity is no boolean",
        nodes: &[
            (b"/g/m/HEAD", HEAD),
            (b"/g/m/objects", NewNode::Directory),
            (b"/g/m/refs", NewNode::Directory),
            (b"/w/.gitmodules", MODULES),
            (b"/w/lib/.git", LINK),
            (
                b"/c",
                NewNode::File(b"[submodule \"m\"]\nurl = u\nactive = maybe\n"),
            ),
        ],
        setup: WITH_CONFIG,
        status: 0,
        out: b"tracked file file always - - -\t.gitmodules\ntracked repository repository always - - invalid:m\tlib\n",
        err: b"",
    },
    Row {
        name: "a second submodule of the same path",
        nodes: &[
            (b"/g/m/HEAD", HEAD),
            (b"/g/m/objects", NewNode::Directory),
            (b"/g/m/refs", NewNode::Directory),
            (
                b"/w/.gitmodules",
                NewNode::File(
                    b"[submodule \"m\"]\npath = lib\nurl = u\n[submodule \"n\"]\npath = lib\n",
                ),
            ),
            (b"/w/lib/.git", LINK),
            (b"/c", CONFIG),
        ],
        setup: WITH_CONFIG,
        status: 0,
        out: b"tracked file file always - - -\t.gitmodules\ntracked repository repository always - - active:m\tlib\n",
        err: b"",
    },
    Row {
        name: "a path that leads out of the worktree",
        nodes: &[
            (b"/g/m/HEAD", HEAD),
            (b"/g/m/objects", NewNode::Directory),
            (b"/g/m/refs", NewNode::Directory),
            (
                b"/w/.gitmodules",
                NewNode::File(b"[submodule \"m\"]\npath = ../lib\nurl = u\n"),
            ),
            (b"/w/lib/.git", LINK),
            (b"/c", CONFIG),
        ],
        setup: WITH_CONFIG,
        status: 0,
        out: b"tracked file file always - - -\t.gitmodules\ntracked repository repository always - - -\tlib\n",
        err: b"",
    },
    Row {
        name: "a name with a blank, before the rule that decides",
        nodes: &[
            (
                b"/w/.gitmodules",
                NewNode::File(b"[submodule \"a b\"]\npath = f\n"),
            ),
            (b"/w/f", NewNode::File(b"")),
        ],
        setup: b"override !f\noption submodules yes\noption origins yes\n",
        status: 0,
        out: b"untracked file - always - - - -\t.gitmodules\nuntracked file - always - - inactive:a\\20b !overrides:1\tf\n",
        err: b"",
    },
    Row {
        name: "a configuration that the permissions do not admit",
        nodes: ONE,
        setup: b"index 160000 0 - - lib\noption emit_tracked yes\noption submodules yes\nconfig user /c\noption permissions isolated\n",
        status: 0,
        out: b"untracked file - always - - -\t.gitmodules\ntracked repository repository always - - inactive:m\tlib\n",
        err: b"",
    },
    Row {
        name: "files that are not there, or are links to be left alone",
        nodes: &[(b"/w/.gitmodules", NewNode::Link(b"/m")), (b"/m", MODULES)],
        setup: b"option submodules yes\nconfig env /c\n",
        status: 0,
        out: b"untracked symlink - always - - -\t.gitmodules\n",
        err: b"",
    },
    Row {
        name: "submodules that are not asked for",
        nodes: &[
            (b"/w/.gitmodules", NewNode::File(b"[x")),
            (b"/c", NewNode::File(b"[x")),
        ],
        setup: b"config local /c\n",
        status: 0,
        out: b"untracked file - always - -\t.gitmodules\n",
        err: b"",
    },
];

pub static MISREAD: [Row; 6] = [
    Row {
        name: "a section that is not closed",
        nodes: &[(b"/w/.gitmodules", NewNode::File(b"[x"))],
        setup: b"option submodules yes\n",
        status: 5,
        out: b"",
        err: b"modules: line 1\n",
    },
    Row {
        name: "a path spec that leads out of the worktree",
        nodes: &[(b"/c", NewNode::File(b"[submodule]\nactive = /x\n"))],
        setup: b"option submodules yes\nconfig local /c\n",
        status: 5,
        out: b"",
        err: b"active: value 1\n",
    },
    Row {
        name: "a section of a configuration that is not closed",
        nodes: &[
            (b"/w/.gitmodules", NewNode::File(b"[x")),
            (b"/c", NewNode::File(b"[x")),
        ],
        setup: b"option submodules yes\nconfig local /c\n",
        status: 5,
        out: b"",
        err: b"config 1: line 1\n",
    },
    Row {
        name: "a configuration behind one that is not admitted",
        nodes: &[
            (b"/u", NewNode::File(b"[x")),
            (b"/c", NewNode::File(b"[a]\nb = c\n=")),
        ],
        setup: b"config user /u\nconfig api /c\noption submodules yes\noption permissions isolated\n",
        status: 5,
        out: b"",
        err: b"config 2: line 3\n",
    },
    Row {
        name: "a configuration of no kind",
        nodes: &[],
        setup: b"config modules /c\n",
        status: 3,
        out: b"",
        err: b"setup: line 1\n",
    },
    Row {
        name: "a configuration whose path is relative",
        nodes: &[],
        setup: b"blob - \nconfig local c\n",
        status: 3,
        out: b"",
        err: b"setup: line 2\n",
    },
];
