//! What is asked of a cleaning.

/// The options of `git clean`, each as git-clean(1) has it.
#[derive(Clone, Copy, Debug, PartialEq, Eq)]
pub struct Cleaning {
    /// `-n`: nothing is removed. There is no cleaning without.
    pub dry_run: bool,
    /// `-d`: untracked directories too. So it is wherever a path spec is written.
    pub directories: bool,
    /// `-x`: ignored paths too.
    pub ignored_too: bool,
    /// `-X`: ignored paths alone.
    pub ignored_only: bool,
    /// `-e`: there are rules above all others.
    pub patterns: bool,
    /// A second `-f`: repositories too.
    pub repositories: bool,
    /// `-q`: what would be removed or skipped is not named.
    pub quiet: bool,
    /// Whether bytes above 0x7f are quoted, as `core.quotePath` says.
    pub quote_path: bool,
}
