//! Work trees of which it is asked what may be removed, what an update of the submodules would do,
//! and what became of the index paths.
use crate::tests::{is_answered_as, tree};
use std::alloc::Global;
use worktree_fs::{MemoryWorktree, NewNode};

/// Words, a worktree with a setup at `/s`, and what is written.
pub struct Plan {
    /// What it shows.
    pub name: &'static str,
    pub words: &'static [&'static [u8]],
    pub nodes: &'static [(&'static [u8], NewNode<'static>)],
    pub setup: &'static [u8],
    pub out: &'static [u8],
}

const HEAD: NewNode<'static> = NewNode::File(b"ref: refs/heads/main\n");

const FILE: NewNode<'static> = NewNode::File(b"");

/// A checkout with a repository of its own, rules, a submodule, and files that the index does not
/// have.
const CHECKOUT: &[(&[u8], NewNode<'static>)] = &[
    (b"/w/.git/HEAD", HEAD),
    (b"/w/.git/objects", NewNode::Directory),
    (b"/w/.git/refs", NewNode::Directory),
    (b"/w/.git/modules/lib/HEAD", HEAD),
    (b"/w/.git/modules/lib/objects", NewNode::Directory),
    (b"/w/.git/modules/lib/refs", NewNode::Directory),
    (b"/w/.gitignore", NewNode::File(b"target/\n")),
    (b"/w/.gitmodules", FILE),
    (
        b"/w/lib/.git",
        NewNode::File(b"gitdir: ../.git/modules/lib\n"),
    ),
    (b"/w/notes/a", FILE),
    (b"/w/notes/b", FILE),
    (b"/w/src/main.c", FILE),
    (b"/w/target/x.o", FILE),
];

/// It asks for what a plan does not: for directories that are folded, and for what there is of
/// them.
const CHECKED_OUT: &[u8] =
    b"index 100644 0 - - .gitignore\nindex 100644 0 - - .gitmodules\nindex 160000 0 - - lib\nindex 100644 0 - - src/main.c\noption emit_untracked collapse\noption emit_ignored collapse\noption print_outcome yes\n";

const ALL: &[&[u8]] = &[b"clean", b"all", b"nonbare", b"/w", b"/s"];

const UNTRACKED: &[&[u8]] = &[b"clean", b"untracked", b"nonbare", b"/w", b"/s"];

const IGNORED: &[&[u8]] = &[b"clean", b"ignored", b"nonbare", b"/w", b"/s"];

/// What may be removed.
pub static CLEANED: [Plan; 8] = [
    Plan {
        name: "untracked and ignored directories of a checkout",
        words: ALL,
        nodes: CHECKOUT,
        setup: CHECKED_OUT,
        out: b"notes\ntarget\n",
    },
    Plan {
        name: "untracked directories alone",
        words: UNTRACKED,
        nodes: CHECKOUT,
        setup: CHECKED_OUT,
        out: b"notes\n",
    },
    Plan {
        name: "ignored directories alone",
        words: IGNORED,
        nodes: CHECKOUT,
        setup: CHECKED_OUT,
        out: b"target\n",
    },
    Plan {
        name: "what lies beside a precious file",
        words: ALL,
        nodes: &[(b"/w/d/key", FILE), (b"/w/d/x", FILE)],
        setup: b"global $key\noption precious yes\noption for_deletion nonbare\noption emit_untracked collapse\noption emit_ignored collapse\n",
        out: b"d/x\n",
    },
    Plan {
        name: "what lies in the current directory",
        words: ALL,
        nodes: &[(b"/w/d/x", FILE)],
        setup: b"global $key\noption precious yes\noption for_deletion nonbare\noption emit_untracked collapse\noption emit_ignored collapse\ncurrent_dir /w/d\n",
        out: b"d/x\n",
    },
    Plan {
        name: "what a path spec means",
        words: ALL,
        nodes: &[(b"/w/d/a1", FILE), (b"/w/d/b", FILE)],
        setup: b"spec d/a*\noption emit_untracked collapse\noption print_outcome yes\n",
        out: b"d/a1\n",
    },
    Plan {
        name: "a whole directory, for no path below it stays",
        words: ALL,
        nodes: &[(b"/w/d/e/x", FILE), (b"/w/d/y", FILE), (b"/w/d-z", FILE)],
        setup: b"",
        out: b"d\nd-z\n",
    },
    Plan {
        name: "what lies beside a repository",
        words: ALL,
        nodes: &[
            (b"/w/d/r/.git/HEAD", HEAD),
            (b"/w/d/r/.git/objects", NewNode::Directory),
            (b"/w/d/r/.git/refs", NewNode::Directory),
            (b"/w/d/x", FILE),
        ],
        setup: b"",
        out: b"d/x\n",
    },
];

const MODULES: &[&[u8]] = &[b"modules", b"/w", b"/s"];

const SUBMODULE: NewNode<'static> = NewNode::File(b"[submodule \"m\"]\npath = lib\nurl = u\n");

const URL: NewNode<'static> = NewNode::File(b"[submodule \"m\"]\nurl = u\n");

const LINK: NewNode<'static> = NewNode::File(b"gitdir: /g/m\n");

/// What makes the git directory that [`LINK`] leads to a whole one.
const LINKED_HEAD: (&[u8], NewNode<'static>) = (b"/g/m/HEAD", HEAD);

const LINKED_OBJECTS: (&[u8], NewNode<'static>) = (b"/g/m/objects", NewNode::Directory);

const LINKED_REFS: (&[u8], NewNode<'static>) = (b"/g/m/refs", NewNode::Directory);

const ADDED: &[u8] =
    b"index 100644 0 - - .gitmodules\nindex 160000 0 - - lib\noption emit_tracked yes\noption submodules yes\nconfig local /c\n";

const ADDED_ALONE: &[u8] =
    b"index 100644 0 - - .gitmodules\nindex 160000 0 - - lib\noption emit_tracked yes\noption submodules yes\n";

/// What an update of the submodules would do.
pub static UPDATED: [Plan; 6] = [
    Plan {
        name: "an active submodule is checked out",
        words: MODULES,
        nodes: &[
            (b"/w/.gitmodules", SUBMODULE),
            (b"/w/lib/.git", LINK),
            LINKED_HEAD,
            LINKED_OBJECTS,
            LINKED_REFS,
            (b"/c", URL),
        ],
        setup: ADDED,
        out: b"checkout\tlib\tm\n",
    },
    Plan {
        name: "an inactive one is left out",
        words: MODULES,
        nodes: &[
            (b"/w/.gitmodules", SUBMODULE),
            (b"/w/lib/.git", LINK),
            LINKED_HEAD,
            LINKED_OBJECTS,
            LINKED_REFS,
        ],
        setup: ADDED_ALONE,
        out: b"skip inactive\tm\n",
    },
    Plan {
        name: "a command that came with the repository is not run",
        words: MODULES,
        nodes: &[
            (
                b"/w/.gitmodules",
                NewNode::File(b"[submodule \"m\"]\npath = lib\nurl = u\nupdate = !x\n"),
            ),
            (b"/w/lib/.git", LINK),
            LINKED_HEAD,
            LINKED_OBJECTS,
            LINKED_REFS,
            (b"/c", URL),
        ],
        setup: ADDED,
        out: b"skip shared-command\tm\n",
    },
    Plan {
        name: "a command of a configuration is",
        words: MODULES,
        nodes: &[
            (b"/w/.gitmodules", SUBMODULE),
            (b"/w/lib/.git", LINK),
            LINKED_HEAD,
            LINKED_OBJECTS,
            LINKED_REFS,
            (
                b"/c",
                NewNode::File(b"[submodule \"m\"]\nurl = u\nupdate = !x\n"),
            ),
        ],
        setup: ADDED,
        out: b"command\tlib\tm\tx\n",
    },
    Plan {
        name: "a submodule in the place of a link is left out",
        words: MODULES,
        nodes: &[
            (b"/w/.gitmodules", SUBMODULE),
            (b"/w/lib", NewNode::Link(b"/g")),
            LINKED_HEAD,
            LINKED_OBJECTS,
            LINKED_REFS,
            (b"/c", URL),
        ],
        setup: ADDED,
        out: b"skip link\tm\n",
    },
    Plan {
        name: "a space in a name is escaped",
        words: MODULES,
        nodes: &[
            (
                b"/w/.gitmodules",
                NewNode::File(b"[submodule \"f g\"]\npath = lib\nurl = u\n"),
            ),
            (b"/w/lib/.git", LINK),
            LINKED_HEAD,
            LINKED_OBJECTS,
            LINKED_REFS,
            (b"/c", NewNode::File(b"[submodule \"f g\"]\nurl = u\n")),
        ],
        setup: ADDED,
        out: b"checkout\tlib\tf\\20g\n",
    },
];

const STATUS: &[&[u8]] = &[b"status", b"/w", b"/s"];

/// What became of the index paths, and the report.
pub static CHANGED: [Plan; 2] = [
    Plan {
        name: "files that are the same, modified and deleted",
        words: STATUS,
        nodes: &[
            (b"/w/a", FILE),
            (b"/w/b", NewNode::File(b"x")),
            (b"/w/u", FILE),
        ],
        setup: b"index 100644 0 - e69de29bb2d1d6434b8b29ae775ad8c2e48c5391 a\nindex 100644 0 - e69de29bb2d1d6434b8b29ae775ad8c2e48c5391 b\nindex 100644 0 - e69de29bb2d1d6434b8b29ae775ad8c2e48c5391 c\n",
        out: b"modified\tb\ndeleted\tc\nuntracked file - always - -\tu\n",
    },
    Plan {
        name: "a directory in the place of a file, and a link on the way",
        words: STATUS,
        nodes: &[
            (b"/w/a", NewNode::Directory),
            (b"/w/d", NewNode::Link(b"/x")),
        ],
        setup: b"index 100644 0 - e69de29bb2d1d6434b8b29ae775ad8c2e48c5391 a\nindex 100644 0 - e69de29bb2d1d6434b8b29ae775ad8c2e48c5391 d/t\n",
        out: b"typechanged\ta\ndeleted\td/t\nuntracked symlink directory always - -\td\n",
    },
];

/// Words that are none of a planner's, and how that is used.
static NO_PLANS: [(&[&[u8]], &[u8]); 7] = [
    (
        &[b"clean", b"all", b"/w", b"/s"],
        b"usage: clean untracked|all|ignored nonbare|all ROOT SETUP\n",
    ),
    (
        &[b"clean", b"all", b"bare", b"/w", b"/s"],
        b"usage: clean untracked|all|ignored nonbare|all ROOT SETUP\n",
    ),
    (
        &[b"clean", b"some", b"all", b"/w", b"/s"],
        b"usage: clean untracked|all|ignored nonbare|all ROOT SETUP\n",
    ),
    (&[b"modules", b"/w"], b"usage: modules ROOT SETUP\n"),
    (
        &[b"composed", b"modules", b"/w", b"/s"],
        b"usage: modules ROOT SETUP\n",
    ),
    (&[b"status", b"w", b"/s"], b"usage: status ROOT SETUP\n"),
    (
        &[b"status", b"/w", b"/s", b"/s"],
        b"usage: status ROOT SETUP\n",
    ),
];

/// Whether each of these is answered by how it is used.
pub fn wrong_words_show_usages(alloc: Global) -> bool {
    let mut tree = MemoryWorktree::new(alloc, false);
    for (words, usage) in NO_PLANS {
        if !is_answered_as(alloc, words, &mut tree, (2, b"", usage)) {
            return false;
        }
    }
    true
}

/// Whether a plan's words are answered as it says, in one order of listing.
fn plan_is_answered_as_expected(alloc: Global, plan: &Plan, reversed: bool) -> bool {
    match tree(alloc, plan.nodes, plan.setup) {
        Ok(mut tree) => {
            tree.set_listing_reversed(reversed);
            is_answered_as(alloc, plan.words, &mut tree, (0, plan.out, b""))
        }
        Err(_) => false,
    }
}

/// The name of the first plan that is answered otherwise, in one order of listing or the other.
pub fn first_failing_plan(alloc: Global, plans: &[Plan]) -> Option<&'static str> {
    for plan in plans {
        if !plan_is_answered_as_expected(alloc, plan, false)
            || !plan_is_answered_as_expected(alloc, plan, true)
        {
            return Some(plan.name);
        }
    }
    None
}
