//! How each planner ends where it is refused, or something fails in it: with which status, and with
//! what it says.
use crate::tests::faults::{Ending, Failing};
use crate::tests::run_ends_as_expected;
use std::alloc::Global;
use worktree_fs::{CallKind, NewNode};

const FILE: NewNode<'static> = NewNode::File(b"");

const CLEAN: &[&[u8]] = &[b"clean", b"all", b"nonbare", b"/w", b"/s"];

const MODULES: &[&[u8]] = &[b"modules", b"/w", b"/s"];

const STATUS: &[&[u8]] = &[b"status", b"/w", b"/s"];

/// The words of each, where there is no setup.
const WITHOUT_SETUP: [&[&[u8]]; 3] = [
    &[b"clean", b"all", b"nonbare", b"/w", b"/t"],
    &[b"modules", b"/w", b"/t"],
    &[b"status", b"/w", b"/t"],
];

/// A file that the index has, one that it has not, and a submodule.
const CHECKOUT: &[(&[u8], NewNode<'static>)] = &[
    (
        b"/w/.gitmodules",
        NewNode::File(b"[submodule \"m\"]\npath = lib\nurl = u\n"),
    ),
    (b"/w/a", FILE),
    (b"/w/lib", NewNode::Directory),
    (b"/w/n", FILE),
    (b"/c", NewNode::File(b"[submodule \"m\"]\nurl = u\n")),
    (b"/e", NewNode::File(b"[x")),
    (b"/i", NewNode::File(b"[submodule]\nactive = /x\n")),
];

/// Its index, and one configuration.
const SETUP: &[u8] =
    b"index 100644 0 - e69de29bb2d1d6434b8b29ae775ad8c2e48c5391 .gitmodules\nindex 100644 0 - e69de29bb2d1d6434b8b29ae775ad8c2e48c5391 a\nindex 160000 0 - - lib\nconfig local /c\n";

/// A setup with a line outside the grammar, behind one in it.
const ODD_SETUP: &[u8] = b"index 100644 0 - - a\nx\n";

/// A traversal root that is not there.
const ROOT_IS_GONE: &[u8] = b"root gone\n";

/// A configuration outside the grammar, behind one in it.
const ODD_CONFIG: &[u8] = b"option submodules yes\nconfig local /c\nconfig local /e\n";

/// A configuration with a path spec that is refused.
const ODD_SPEC: &[u8] = b"option submodules yes\nconfig local /i\n";

const TO_REMOVE: &[u8] = b"n\n";

const TO_UPDATE: &[u8] = b"checkout\tlib\tm\n";

const CHANGED: &[u8] = b"modified\t.gitmodules\nunchecked\tlib\nuntracked file - always - -\tn\n";

const INTERRUPTED: Ending = (1, b"interrupted\n", 0);

const SECOND_LINE: Ending = (3, b"setup: line 2\n", 0);

const GONE: Ending = (4, b"walk: missing-root /w/gone\n", 0);

const SECOND_CONFIG: Ending = (5, b"config 2: line 1\n", 0);

const FIRST_VALUE: Ending = (5, b"active: value 1\n", 0);

const FAULT: Ending = (6, b"worktree fault\n", 1);

const REFUSED: Ending = (7, b"output fault\n", 0);

/// The words, a setup over [`CHECKOUT`], what fails, and how the program ends then.
pub type Case = (&'static [&'static [u8]], &'static [u8], Failing, Ending);

pub static ENDINGS: [Case; 33] = [
    (CLEAN, SETUP, Failing::Nothing, (0, TO_REMOVE, 0)),
    (CLEAN, SETUP, Failing::Interrupt(1), INTERRUPTED),
    (CLEAN, ODD_SETUP, Failing::Nothing, SECOND_LINE),
    (CLEAN, ROOT_IS_GONE, Failing::Nothing, GONE),
    // What tells of submodules is not read.
    (
        CLEAN,
        ODD_CONFIG,
        Failing::Nothing,
        (0, b".gitmodules\na\nlib\nn\n", 0),
    ),
    (CLEAN, SETUP, Failing::Call(CallKind::Read, 1), FAULT),
    (CLEAN, SETUP, Failing::Call(CallKind::ListOpen, 1), FAULT),
    (CLEAN, SETUP, Failing::Call(CallKind::ListEntry, 1), FAULT),
    (CLEAN, SETUP, Failing::Call(CallKind::RealPath, 2), FAULT),
    (CLEAN, SETUP, Failing::Out, REFUSED),
    (MODULES, SETUP, Failing::Nothing, (0, TO_UPDATE, 0)),
    // No interrupt is asked, and nothing is listed.
    (MODULES, SETUP, Failing::Interrupt(1), (0, TO_UPDATE, 0)),
    (
        MODULES,
        ROOT_IS_GONE,
        Failing::Nothing,
        (0, b"skip inactive\tm\n", 0),
    ),
    (
        MODULES,
        SETUP,
        Failing::Call(CallKind::ListOpen, 1),
        (0, TO_UPDATE, 0),
    ),
    (MODULES, ODD_SETUP, Failing::Nothing, SECOND_LINE),
    (MODULES, ODD_CONFIG, Failing::Nothing, SECOND_CONFIG),
    (MODULES, ODD_SPEC, Failing::Nothing, FIRST_VALUE),
    (MODULES, SETUP, Failing::Call(CallKind::Read, 1), FAULT),
    (MODULES, SETUP, Failing::Call(CallKind::Read, 2), FAULT),
    (MODULES, SETUP, Failing::Call(CallKind::Read, 3), FAULT),
    (MODULES, SETUP, Failing::Call(CallKind::Kind, 1), FAULT),
    (MODULES, SETUP, Failing::Out, REFUSED),
    (STATUS, SETUP, Failing::Nothing, (0, CHANGED, 0)),
    (STATUS, SETUP, Failing::Interrupt(1), INTERRUPTED),
    (STATUS, ODD_SETUP, Failing::Nothing, SECOND_LINE),
    (STATUS, ROOT_IS_GONE, Failing::Nothing, GONE),
    (STATUS, ODD_CONFIG, Failing::Nothing, SECOND_CONFIG),
    (STATUS, ODD_SPEC, Failing::Nothing, FIRST_VALUE),
    (STATUS, SETUP, Failing::Call(CallKind::Read, 1), FAULT),
    (STATUS, SETUP, Failing::Call(CallKind::ListOpen, 1), FAULT),
    // Behind the report: the first file is read, and the submodule is looked at.
    (STATUS, SETUP, Failing::Call(CallKind::Read, 3), FAULT),
    (STATUS, SETUP, Failing::Call(CallKind::Kind, 6), FAULT),
    (STATUS, SETUP, Failing::Out, REFUSED),
];

/// Whether this case ends as it says.
pub fn case_ends_as_expected(alloc: Global, case: &Case) -> bool {
    let (words, setup, failing, ending) = case;
    run_ends_as_expected(alloc, words, CHECKOUT, setup, *failing, *ending)
}

/// Whether each planner says that there is no setup.
pub fn planners_refuse_missing_setup(alloc: Global) -> bool {
    for words in WITHOUT_SETUP {
        if !run_ends_as_expected(
            alloc,
            words,
            CHECKOUT,
            SETUP,
            Failing::Nothing,
            (3, b"setup: line 0\n", 0),
        ) {
            return false;
        }
    }
    true
}
