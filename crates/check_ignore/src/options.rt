//! What is asked, and the rules outside the work tree.
use gitbase_core::{Bytes, State as Index};

/// The options of `git check-ignore`, each as git-check-ignore(1) has it, and what the
/// configuration says.
#[derive(Clone, Copy, Debug, PartialEq, Eq)]
pub struct Checking {
    /// `-q`: nothing is written.
    pub quiet: bool,
    /// `-v`: each path with the rule that decides, a negative one too.
    pub verbose: bool,
    /// `-n`: the paths too that no rule decides about.
    pub non_matching: bool,
    /// `--stdin`: the paths are those of an input.
    pub stdin: bool,
    /// `-z`: NULs end the lines of the input, and in place of line feeds, colons and tabs what is
    /// written, in which nothing is quoted.
    pub ends_in_nul: bool,
    /// Whether bytes above 0x7f are quoted, as `core.quotePath` says.
    pub quote_path: bool,
    /// Whether ASCII letters of rules compare without regard to their case, as `core.ignoreCase`
    /// says.
    pub ignore_case: bool,
}

/// Ignore rules that are read outside the work tree.
#[derive(Debug, Drop)]
pub struct NamedRules {
    /// The file, as git names it.
    pub name: Bytes,
    /// What stands there.
    pub bytes: Bytes,
}

/// All such rules; those of the repository come before those of the user.
#[derive(Debug, Drop)]
pub struct OuterRules {
    /// Those of the file that `core.excludesFile` names, or of the user's `ignore`.
    pub user: Option<NamedRules>,
    /// Those of `info/exclude`.
    pub repository: Option<NamedRules>,
}

/// What paths are checked by: a work tree, what its index and its rules say, and what is asked.
#[derive(Clone, Copy)]
pub struct CheckContext<'a> {
    /// The top of the work tree, as a whole path.
    pub root: &'a [u8],
    /// The directory below it in which the paths were written; empty for the top.
    pub prefix: &'a [u8],
    /// The index; with `--no-index` an empty one.
    pub index: &'a Index,
    /// The rules outside the work tree.
    pub outer: &'a OuterRules,
    /// The options, and what the configuration says.
    pub checking: &'a Checking,
}
