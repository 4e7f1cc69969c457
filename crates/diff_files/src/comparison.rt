//! What is asked of a comparison.

/// What is printed of each change.
#[derive(Clone, Copy, Debug, PartialEq, Eq)]
pub enum Form {
    /// `--raw`, and where nothing is said: the modes, the ids, a letter and the path.
    Raw,
    /// `--name-only`: the path.
    NameOnly,
    /// `--name-status`: a letter and the path.
    NameStatus,
}

/// Which submodules are told of.
#[derive(Clone, Copy, Debug, PartialEq, Eq)]
pub enum Submodules {
    /// Each one, as `--ignore-submodules=none` has it.
    Told,
    /// Some may be left out by their `ignore` in the configuration or in `.gitmodules`, or what the
    /// latter says is not known. A submodule is then refused.
    MayBeLeftOut,
    /// None, as `--ignore-submodules=all` has it.
    LeftOut,
}

/// The options of `git diff-files`, as git-diff-files(1) has them, and what the configuration says.
///
/// See docs/DECISIONS.md#diff-empty-q.
#[derive(Clone, Copy, Debug, PartialEq, Eq)]
pub struct Comparison {
    /// What is printed.
    pub form: Form,
    /// `-z`: a NUL ends each field, and no path is quoted.
    pub ends_in_nul: bool,
    /// Whether bytes above 0x7f are quoted, as `core.quotePath` says.
    pub quote_path: bool,
    /// Whether the executable bit counts, as `core.fileMode` says.
    pub file_mode: bool,
    /// Whether links are checked out as links, as `core.symlinks` says.
    pub symlinks: bool,
    /// Whether the ctime counts, as `core.trustctime` says.
    pub trust_ctime: bool,
    /// Whether the ctime, the owner and the number of a file count: `core.checkStat` is not
    /// `minimal`.
    pub check_stat: bool,
    /// The checkout is sparse, and skipped paths that are there are not skipped:
    /// `core.sparseCheckout` is on, and `sparse.expectFilesOutsideOfPatterns` is not.
    pub sparse_checkout: bool,
    /// Bytes of some file may be another's in the object: `core.autocrlf` or `core.eol` is set, or
    /// there are attributes anywhere. A file whose bytes have to be compared is then refused.
    pub converts: bool,
    /// Which submodules are told of.
    pub submodules: Submodules,
    /// When the file of the index was written, in seconds since 1970, modulo 2^32.
    pub index_time: u32,
}
