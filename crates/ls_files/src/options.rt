//! What is asked of a listing.
use gitbase_core::Bytes;
use glob_rules::pathspec::Search;

/// The options of `git ls-files`, each as git-ls-files(1) has it.
#[derive(Clone, Copy, Debug, PartialEq, Eq)]
pub struct Listing {
    /// `-c`: what the index has. It is shown too where no option chooses anything else.
    pub cached: bool,
    /// `-s`: what the index has, each path with its mode, its object and its stage.
    pub stages: bool,
    /// `-u`: the same of paths that are not merged, alone.
    pub unmerged: bool,
    /// `-o`: what the index does not have.
    pub others: bool,
    /// `-k`: what lies in the way of the index.
    pub killed: bool,
    /// `-i`: of what the index does not have, or with `-c` of what it has, only what an ignore rule
    /// excludes.
    pub ignored: bool,
    /// `--directory`: a directory of which the index has nothing in the place of what it holds.
    pub directories: bool,
    /// Without `--no-empty-directory`: such a directory also where it holds nothing to be shown.
    pub empty_directories: bool,
    /// `--exclude-standard`: the rules of each directory, of the repository and of the user.
    pub excludes_standard: bool,
    /// `--exclude-per-directory=.gitignore`: of these the rules of each directory.
    pub excludes_directories: bool,
    /// `-x` or `-X`: there are rules of the command line, or of a file that it names.
    pub patterns: bool,
    /// `--error-unmatch`: a path spec that is about no path is an error.
    pub error_unmatch: bool,
    /// `-t`: a letter before each path tells what it is.
    pub tags: bool,
    /// `-v`: the same, in lower case where a file is assumed to be unchanged.
    pub valid: bool,
    /// `-z`: a NUL ends each path, and none is quoted.
    pub ends_in_nul: bool,
    /// `--deduplicate`: each path of the index once.
    pub deduplicates: bool,
    /// `--full-name`: paths are from the top of the work tree.
    pub full_names: bool,
    /// Whether bytes above 0x7f are quoted, as `core.quotePath` says.
    pub quote_path: bool,
}

/// A path spec, and how it was written.
#[derive(Debug, Drop)]
pub struct NamedSpec {
    /// As it was written.
    pub text: Bytes,
    /// The path spec alone, as it is from the top.
    pub spec: Search,
}
