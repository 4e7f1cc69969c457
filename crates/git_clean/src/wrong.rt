//! Which cleanings there are not.
ghost use Rattle.std.specs.Prelude.{◌≡◌};
ghost use Rattle.git_clean.specs.Wrong as words;

use crate::options::Cleaning;
use worktree_report::Setup;

/// Why there is no such cleaning: in git, or not here.
#[derive(Clone, Copy, Debug, PartialEq, Eq)]
pub enum UnsupportedCleaning {
    /// Something would be removed, which is not done here.
    Removes,
    /// `-x` with `-X`, which git refuses.
    BothIgnored,
    /// Letters compare without regard to their case, which is not answered here.
    FoldedCase,
}

impl UnsupportedCleaning {
    /// What is told of it, behind `fatal: `; of what git refuses too in git's words.
    pub fn text(&self) -> &'static [u8]
        ensures { result.now ≡ words.message_of_wrong_cleaning self.now }
    {
        match self {
            UnsupportedCleaning::Removes =>
                b"clean is not supported without -n: nothing is removed",
            UnsupportedCleaning::BothIgnored => b"-x and -X cannot be used together",
            UnsupportedCleaning::FoldedCase => b"clean is not supported with core.ignoreCase",
        }
    }
}

/// Why there is no such cleaning of the work tree of a setup, the first reason; none where there is
/// one.
///
/// See docs/DIFFERENCES.md#dry-clean-forms.
pub fn reason_cleaning_unsupported(
    cleaning: &Cleaning,
    setup: &Setup,
) -> Option<UnsupportedCleaning>
    ensures { result ≡ words.reason_cleaning_unsupported cleaning.now setup.now }
{
    if !cleaning.dry_run {
        return Some(UnsupportedCleaning::Removes);
    }
    if cleaning.ignored_too & cleaning.ignored_only {
        return Some(UnsupportedCleaning::BothIgnored);
    }
    if setup.options.ignore_case {
        return Some(UnsupportedCleaning::FoldedCase);
    }
    None
}
