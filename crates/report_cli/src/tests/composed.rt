//! A worktree that composes names.
use crate::tests::rows::A_FILE;
use crate::tests::{REPORT, USAGE, is_answered_as};
use std::alloc::Global;
use worktree_fs::{AddError, MemoryWorktree};

/// A name with a combining mark, and the same name composed.
const DECOMPOSED: &[u8] = b"/w/a\xcc\x88";

const COMPOSED: &[u8] = b"/w/\xc3\xa4";

/// Each call over names that were composed, as the word `composed` asks for it, and what it says of
/// one file.
static COMPOSED_CALLS: [(&[&[u8]], &[u8]); 4] = [
    (
        &[b"composed", b"report", b"/w", b"/s"],
        b"untracked file - always - -\t\xc3\xa4\n",
    ),
    (
        &[
            b"composed",
            b"clean",
            b"untracked",
            b"nonbare",
            b"/w",
            b"/s",
        ],
        b"\xc3\xa4\n",
    ),
    (&[b"composed", b"modules", b"/w", b"/s"], b""),
    (
        &[b"composed", b"status", b"/w", b"/s"],
        b"untracked file - always - -\t\xc3\xa4\n",
    ),
];

/// Whether each of these is answered so.
fn answers_composed_calls(alloc: Global, tree: &mut MemoryWorktree) -> bool {
    for (words, text) in COMPOSED_CALLS {
        if !is_answered_as(alloc, words, tree, (0, text, b"")) {
            return false;
        }
    }
    true
}

/// Whether names that were composed are asked for by the word `composed`, and not without it.
pub fn composes_only_with_composed_word(alloc: Global) -> Result<bool, AddError> {
    let mut tree = MemoryWorktree::new(alloc, true);
    tree.add(alloc, DECOMPOSED, A_FILE)?;
    tree.add(alloc, b"/s", A_FILE)?;
    Ok(
        answers_composed_calls(alloc, &mut tree)
            && is_answered_as(alloc, REPORT, &mut tree, (2, b"", USAGE))
            && matches!(tree.add(alloc, COMPOSED, A_FILE), Err(AddError::Exists)),
    )
}
