//! What the words ask for.
use crate::check_options::CheckAsked;
use crate::clean_options::Force;
use crate::compare_options::Comparing;
use crate::form::Form;
use crate::rules_given::RulesGiven;
use crate::verb::Topic;
use clean_plan::{Finding, What};
use git_clean::Cleaning;
use git_setup::Asked;
use gitbase_core::Bytes;
use ls_files::{DeletedModifiedChoice, Listing};

/// What is asked of a cleaning.
#[derive(Debug, Drop)]
pub struct CleanAsked {
    /// What would be removed. Whether repositories would be is left to `force`, whether there are
    /// patterns to `patterns`, and whether bytes above 0x7f are quoted to the configuration.
    pub cleaning: Cleaning,
    /// How often `-f` stands.
    pub force: Force,
    /// The rules before all others. Each can stand as a line of a rules file, a `#` in front apart:
    /// no line feed is in it, and no blank and no carriage return at its end.
    pub patterns: Vec<Bytes>,
}

/// What is asked of a listing.
#[derive(Debug, Drop)]
pub struct FilesAsked {
    /// What is listed. Whether there are patterns is left to `rules`, and whether bytes above 0x7f
    /// are quoted to the configuration.
    pub listing: Listing,
    /// The rules that the words give, and the files of rules that they name.
    pub rules: RulesGiven,
}

/// What is to be done.
#[derive(Debug, Drop)]
pub enum Command {
    /// The report of a work tree is written.
    Report {
        /// What is asked of the work tree.
        asked: Asked,
        /// How the report is written.
        form: Form,
    },
    /// What may be removed is written.
    Plan {
        /// What is asked of the work tree.
        asked: Asked,
        /// What may be removed.
        what: What,
        /// How repositories are looked for.
        finding: Finding,
        /// How the plan is written.
        form: Form,
    },
    /// What an update of the submodules would do is written.
    Modules {
        /// What is asked of the work tree; no paths.
        asked: Asked,
    },
    /// What became of the paths of the index is written, and the report.
    State {
        /// What is asked of the work tree; no paths.
        asked: Asked,
        /// How both are written.
        form: Form,
        /// Whether the stat fields of files tell what changed, and not their bytes.
        by_stat: bool,
    },
    /// What `git ls-files` prints is written, with neither `-d` nor `-m`.
    Files {
        /// What is asked of the work tree.
        asked: Asked,
        /// What is asked of the listing.
        files: FilesAsked,
    },
    /// What `git ls-files` prints with `-d` or `-m` is written.
    Changed {
        /// What is asked of the work tree.
        asked: Asked,
        /// What is asked of the listing.
        files: FilesAsked,
        /// What is listed by what stands in the work tree.
        standings: DeletedModifiedChoice,
    },
    /// What `git clean` would remove is named.
    Clean {
        /// What is asked of the work tree. The options are those of a report.
        asked: Asked,
        /// What is asked of the cleaning.
        clean: CleanAsked,
    },
    /// How the paths of the index changed is written, as `git diff-files` does.
    Compare {
        /// What is asked of the work tree.
        asked: Asked,
        /// What is asked of the comparison.
        comparing: Comparing,
    },
    /// The paths that an ignore rule excludes are written, as `git check-ignore` does.
    Check {
        /// What is asked of the work tree.
        asked: Asked,
        /// What is asked of the check.
        checking: CheckAsked,
    },
    /// A help text is written.
    Help(Topic),
    /// The version of the program is written.
    Version,
}

/// What the words of a command line ask for.
#[derive(Debug, Drop)]
pub struct Request {
    /// The directory that the program is to work in, as it is written; where none is given, or an
    /// empty one, the current one.
    pub directory: Option<Bytes>,
    /// What is to be done there.
    pub command: Command,
}
