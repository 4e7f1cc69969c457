//! More worktrees with their setups: folding, deletion, traversal roots, path specs, and the rules
//! that decide.
use crate::tests::rows::{A_FILE, Row};
use worktree_fs::NewNode;

/// A git directory's `HEAD`.
const HEAD: NewNode<'static> = NewNode::File(b"ref: refs/heads/main\n");

/// Two files in a directory.
pub const TWO: &[(&[u8], NewNode<'static>)] = &[(b"/w/d/a", A_FILE), (b"/w/d/b", A_FILE)];

/// A work tree with a submodule, ignored and untracked files, beside its own git directory.
const CHECKOUT: &[(&[u8], NewNode<'static>)] = &[
    (b"/w/.git/HEAD", HEAD),
    (b"/w/.git/objects", NewNode::Directory),
    (b"/w/.git/refs", NewNode::Directory),
    (b"/w/.git/modules/lib/HEAD", HEAD),
    (b"/w/.git/modules/lib/objects", NewNode::Directory),
    (b"/w/.git/modules/lib/refs", NewNode::Directory),
    (b"/w/.gitignore", NewNode::File(b"target/\n")),
    (b"/w/.gitmodules", A_FILE),
    (b"/w/src/main.c", A_FILE),
    (
        b"/w/lib/.git",
        NewNode::File(b"gitdir: ../.git/modules/lib"),
    ),
    (b"/w/target/x.o", A_FILE),
    (b"/w/notes/a", A_FILE),
    (b"/w/notes/b", A_FILE),
];

/// Untracked directories are told in place of what lies in them, and the counts of the walk.
pub const COUNTED: &[u8] = b"option emit_untracked collapse\noption print_outcome yes\n";

pub static FOLDED: [Row; 7] = [
    Row {
        name: "a directory in place of its files",
        nodes: TWO,
        setup: COUNTED,
        status: 0,
        out: b"untracked directory - always - -\td\n# read_dir 2 returned 1 seen 3\n",
        err: b"",
    },
    Row {
        name: "a directory and its files",
        nodes: TWO,
        setup: b"option emit_untracked collapse\noption print_outcome yes\noption emit_collapsed all\n",
        status: 0,
        out: b"untracked directory - always - -\td\nuntracked file - always - untracked\td/a\nuntracked file - always - untracked\td/b\n# read_dir 2 returned 3 seen 3\n",
        err: b"",
    },
    Row {
        name: "a directory that holds a repository",
        nodes: &[
            (b"/w/d/a", A_FILE),
            (b"/w/d/r/.git/HEAD", HEAD),
            (b"/w/d/r/.git/objects", NewNode::Directory),
            (b"/w/d/r/.git/refs", NewNode::Directory),
        ],
        setup: b"option emit_untracked collapse\n",
        status: 0,
        out: b"untracked file - always - -\td/a\nuntracked repository - always - -\td/r\n",
        err: b"",
    },
    Row {
        name: "a directory that holds a tracked file",
        nodes: &[(b"/w/d/t", A_FILE), (b"/w/d/u", A_FILE)],
        setup: b"index 100644 0 - - d/t\noption emit_untracked collapse\n",
        status: 0,
        out: b"untracked file - always - -\td/u\n",
        err: b"",
    },
    Row {
        name: "a checkout with a submodule",
        nodes: CHECKOUT,
        setup: b"index 100644 0 - - .gitignore\nindex 100644 0 - - .gitmodules\nindex 160000 0 - - lib\nindex 100644 0 - - src/main.c\noption emit_untracked collapse\noption emit_ignored collapse\noption print_outcome yes\n",
        status: 0,
        out: b"untracked directory - always - -\tnotes\nignored directory - always - -\ttarget\n# read_dir 3 returned 2 seen 9\n",
        err: b"",
    },
    Row {
        name: "a directory that is a worktree of its own",
        nodes: TWO,
        setup: b"worktree d\noption emit_tracked yes\n",
        status: 0,
        out: b"tracked repository - always - -\td\n",
        err: b"",
    },
    Row {
        name: "a worktree of its own that is a file",
        nodes: &[(b"/w/x", A_FILE)],
        setup: b"worktree x\noption emit_tracked yes\n",
        status: 0,
        out: b"tracked repository - always - -\tx\n",
        err: b"",
    },
];

/// A repository in an ignored directory.
const HIDDEN: &[(&[u8], NewNode<'static>)] = &[
    (b"/w/build/r/.git/HEAD", HEAD),
    (b"/w/build/r/.git/objects", NewNode::Directory),
    (b"/w/build/r/.git/refs", NewNode::Directory),
];

pub static DELETED: [Row; 4] = [
    Row {
        name: "a precious file beside an untracked one",
        nodes: &[(b"/w/d/key", A_FILE), (b"/w/d/x", A_FILE)],
        setup: b"global $key\noption precious yes\noption for_deletion nonbare\noption emit_untracked collapse\noption emit_ignored collapse\n",
        status: 0,
        out: b"precious file - always - -\td/key\nuntracked file - always - -\td/x\n",
        err: b"",
    },
    Row {
        name: "an empty current directory",
        nodes: &[(b"/w/d", NewNode::Directory)],
        setup: b"current_dir /w/d\noption for_deletion nonbare\n",
        status: 0,
        out: b"untracked directory - always emptycwd -\td\n",
        err: b"",
    },
    Row {
        name: "an ignored directory that may hide a repository",
        nodes: HIDDEN,
        setup: b"global build/\noption emit_ignored collapse\noption for_deletion hide\n",
        status: 0,
        out: b"ignored directory - always - -\tbuild\n",
        err: b"",
    },
    Row {
        name: "a repository in an ignored directory",
        nodes: HIDDEN,
        setup: b"global build/\noption emit_ignored collapse\noption for_deletion nonbare\n",
        status: 0,
        out: b"ignored repository - always - -\tbuild/r\n",
        err: b"",
    },
];

/// A link and a file.
const LINK: &[(&[u8], NewNode<'static>)] = &[
    (b"/w/l", NewNode::Link(b"/x")),
    (b"/w/a", A_FILE),
    (b"/x", NewNode::Directory),
];

pub static ROOTED: [Row; 9] = [
    Row {
        name: "a directory that path specs have in common, with a link to one in its place",
        nodes: LINK,
        setup: b"spec l/*\n",
        status: 4,
        out: b"",
        err: b"walk: symlink-in-root /w/l\n",
    },
    Row {
        name: "a traversal root through a link",
        nodes: LINK,
        setup: b"root l/x\n",
        status: 4,
        out: b"",
        err: b"walk: symlink-in-root /w/l\n",
    },
    Row {
        name: "a traversal root that is not there",
        nodes: LINK,
        setup: b"root gone\n",
        status: 4,
        out: b"",
        err: b"walk: missing-root /w/gone\n",
    },
    Row {
        name: "a traversal root that leads out",
        nodes: LINK,
        setup: b"root ../w\n",
        status: 4,
        out: b"",
        err: b"walk: outside-root ../w\n",
    },
    Row {
        name: "a traversal root that leads back to the worktree root",
        nodes: LINK,
        setup: b"root a/..\n",
        status: 0,
        out: b"untracked file - always - -\ta\nuntracked symlink - always - -\tl\n",
        err: b"",
    },
    Row {
        name: "no bytes for a traversal root",
        nodes: LINK,
        setup: b"root \n",
        status: 3,
        out: b"",
        err: b"setup: line 1\n",
    },
    Row {
        name: "a text that is no path spec",
        nodes: LINK,
        setup: b"spec a\nspec :(a\n",
        status: 3,
        out: b"",
        err: b"setup: line 2\n",
    },
    Row {
        name: "a worktree by a whole path",
        nodes: LINK,
        setup: b"worktree \\2fa\n",
        status: 3,
        out: b"",
        err: b"setup: line 1\n",
    },
    Row {
        name: "a way of deletion that is not there",
        nodes: LINK,
        setup: b"worktree \noption for_deletion yes\n",
        status: 3,
        out: b"",
        err: b"setup: line 2\n",
    },
];

/// A worktree root that is a link to a directory.
const LINKED: &[(&[u8], NewNode<'static>)] = &[(b"/w", NewNode::Link(b"/x")), (b"/x/a.c", A_FILE)];

pub static SPECIFIED: [Row; 6] = [
    Row {
        name: "a directory by a pattern",
        nodes: &[(b"/w/d/a1", A_FILE), (b"/w/d/b", A_FILE)],
        setup: b"spec d/a*\noption emit_untracked collapse\noption print_outcome yes\n",
        status: 0,
        out: b"untracked directory - wildcard - -\td\n# read_dir 1 returned 1 seen 3\n",
        err: b"",
    },
    Row {
        name: "a file by a pattern, beside a tracked one",
        nodes: &[(b"/w/d/a1", A_FILE), (b"/w/d/b", A_FILE)],
        setup: b"spec d/a*\nindex 100644 0 - - d/b\noption emit_untracked collapse\noption print_outcome yes\n",
        status: 0,
        out: b"untracked file - wildcard - -\td/a1\n# read_dir 1 returned 1 seen 2\n",
        err: b"",
    },
    Row {
        name: "a file that a spec takes out",
        nodes: &[(b"/w/x", A_FILE), (b"/w/y", A_FILE)],
        setup: b"spec :!x\n",
        status: 0,
        out: b"untracked file - always - -\ty\n",
        err: b"",
    },
    Row {
        name: "the same, shown",
        nodes: &[(b"/w/x", A_FILE), (b"/w/y", A_FILE)],
        setup: b"spec :!x\noption emit_pruned yes\n",
        status: 0,
        out: b"untracked file - excluded - -\tx\nuntracked file - always - -\ty\n",
        err: b"",
    },
    // The root is classed as the link that it is: one that no spec matches is pruned, and so not looked into, where a
    // directory is untracked for what may lie beneath it.
    Row {
        name: "a root that is a link to a directory, which no spec matches",
        nodes: LINKED,
        setup: b"spec *.c\n",
        status: 4,
        out: b"",
        err: b"walk: root-is-file /w\n",
    },
    Row {
        name: "the same without a spec",
        nodes: LINKED,
        setup: b"",
        status: 0,
        out: b"untracked file - always - -\ta.c\n",
        err: b"",
    },
];

/// A directory that one rule excludes, and a directory in it that another rule takes out of that.
const LIFTED: &[(&[u8], NewNode<'static>)] = &[
    (b"/w/.gitignore", NewNode::File(b"build/\n")),
    (b"/w/build/.gitignore", NewNode::File(b"!sub/\n")),
    (b"/w/build/sub/x", A_FILE),
    (b"/w/build/y", A_FILE),
];

pub static RULED: [Row; 4] = [
    Row {
        name: "a directory that is taken out of an excluded one",
        nodes: LIFTED,
        setup: b"option for_deletion nonbare\noption emit_ignored matching\n",
        status: 0,
        out: b"untracked file - always - -\t.gitignore\nignored file - always - -\tbuild/.gitignore\nuntracked file - always - -\tbuild/sub/x\nignored file - always - -\tbuild/y\n",
        err: b"",
    },
    Row {
        name: "the same where that cannot be",
        nodes: LIFTED,
        setup: b"option for_deletion nonbare\noption emit_ignored matching\noption strict_parents yes\n",
        status: 0,
        out: b"untracked file - always - -\t.gitignore\nignored file - always - -\tbuild/.gitignore\nignored file - always - -\tbuild/sub/x\nignored file - always - -\tbuild/y\n",
        err: b"",
    },
    Row {
        name: "where the rules of a directory stand",
        nodes: &[
            (b"/w/.gitignore", NewNode::File(b"*.o\n!k.o\n")),
            (b"/w/a.o", A_FILE),
            (b"/w/k.o", A_FILE),
        ],
        setup: b"option emit_ignored matching\noption origins yes\n",
        status: 0,
        out: b"untracked file - always - - -\t.gitignore\nignored file - always - - +.gitignore:1\ta.o\nuntracked file - always - - !.gitignore:2\tk.o\n",
        err: b"",
    },
    Row {
        name: "where a global rule stands",
        nodes: &[(b"/w/a/f", A_FILE)],
        setup: b"global /a/\noption emit_ignored matching\noption origins yes\n",
        status: 0,
        out: b"ignored directory - always - - +globals:1\ta\n",
        err: b"",
    },
];
