//! What the entries that a directory holds have in common.

/// How many of the held entries pass each test that a fold asks for. It is public for the
/// definitions, which name it; no public call takes or gives one.
#[derive(Clone, Copy, Debug, PartialEq, Eq)]
pub struct Tally {
    /// All of them.
    pub all: usize,
    /// Those that are untracked.
    pub untracked: usize,
    /// Those that are ignored and may go.
    pub expendable: usize,
    /// Those that are ignored and precious.
    pub precious: usize,
    /// Those over which no directory folds.
    pub barring: usize,
    /// Those that a spec matches by a directory above them or by its wildcards.
    pub picked: usize,
    /// Those that are directories without names.
    pub without_names: usize,
    /// Those that no spec was needed for.
    pub always: usize,
    /// Those that a spec takes out.
    pub excluded: usize,
    /// Those that a spec matches by a directory above them.
    pub prefixed: usize,
    /// Those that a spec matches by its wildcards.
    pub wildcard: usize,
    /// Those that a spec names in full.
    pub verbatim: usize,
}
