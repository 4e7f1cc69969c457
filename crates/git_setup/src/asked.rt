//! What a command asks of a work tree.
use gitbase_core::Bytes;
use worktree_report::SetupOptions;

/// What a command asks of the work tree around the current directory.
#[derive(Debug, Drop)]
pub struct Asked {
    /// The options of the setup. Whether letters compare without regard to their case is not asked
    /// here: the configuration says it.
    pub options: SetupOptions,
    /// Path specs as they are written, from the current directory on; see git(7), `pathspec`. None
    /// of them asks for all. Their letters compare as they are, unless one says `icase`;
    /// `core.ignoreCase` is for names and rules.
    pub paths: Vec<Bytes>,
    /// Whether the current directory is meant where there are no path specs, and where each
    /// excludes.
    pub prefers_current: bool,
    /// How many components a directory that is entered may have below the top of the work tree.
    pub depth: usize,
}
