//! The steps of an update, and what is left out of it.
use gitbase_core::{Bytes, PathText};

/// How a submodule is brought to the commit that the superproject records, as
/// `submodule.NAME.update` of gitmodules(5) says.
#[derive(Debug, Drop, PartialEq, Eq)]
pub enum StepKind {
    /// The commit is checked out.
    Checkout,
    /// The branch of the submodule is rebased onto the commit.
    Rebase,
    /// The commit is merged into the branch of the submodule.
    Merge,
    /// This command is run. Only a configuration asks for one, never `.gitmodules`.
    Command(Bytes),
}

/// One submodule to be updated.
///
/// See docs/DECISIONS.md#normalised-step.
#[derive(Debug, Drop, PartialEq, Eq)]
pub struct Step {
    /// Its name.
    pub name: Bytes,
    /// Where it stands below the root of the work tree: a path without empty components, `.` and
    /// `..`.
    pub path: PathText,
    /// How it is updated.
    pub kind: StepKind,
}

/// Why a submodule is left out: the first of these that holds.
#[derive(Clone, Copy, Debug, PartialEq, Eq)]
pub enum Why {
    /// Its `submodule.NAME.active` is no boolean.
    BadActive,
    /// It is not active.
    Inactive,
    /// Its path is not set, empty, absolute, or leads out of the work tree.
    BadPath,
    /// Its path is that of the root.
    Root,
    /// A component of its path is `.git`, whatever the case of the letters.
    DotGit,
    /// Its `update` is none of the words.
    BadUpdate,
    /// `.gitmodules` asks for a command.
    SharedCommand,
    /// Its `update` is `none`.
    NoUpdate,
    /// Its url is not set, empty, or none.
    BadUrl,
    /// An earlier submodule, of which none of the above holds, has the same path.
    SamePath,
    /// On the way to its path, or there, stands a link.
    Link,
    /// On the way to its path, or there, stands another node that is no directory.
    NotADirectory,
}

/// One submodule that is left out.
#[derive(Debug, Drop, PartialEq, Eq)]
pub struct Skipped {
    /// Its name.
    pub name: Bytes,
    /// Why it is left out.
    pub why: Why,
}

/// The plan of an update.
#[derive(Debug, Drop, PartialEq, Eq)]
pub struct ModulePlan {
    /// The steps, in ascending order of their paths, byte by byte: a submodule within another one
    /// comes after it.
    pub steps: Vec<Step>,
    /// What is left out, in the order in which `.gitmodules` first tells the names.
    pub skipped: Vec<Skipped>,
}

/// What becomes of a submodule.
#[derive(Debug, Drop)]
pub enum Verdict {
    /// It is updated.
    Update(Step),
    /// It is left out.
    LeaveOut(Skipped),
}
