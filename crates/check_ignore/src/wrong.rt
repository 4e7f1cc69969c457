//! Which words there are not.
ghost use Rattle.std.specs.Prelude.{◌≡◌, Some, None, if◌then◌else◌};
ghost use Rattle.check_ignore.specs.Wrong as words;

use crate::options::Checking;

/// Why nothing is asked: git refuses the words.
#[derive(Clone, Copy, Debug, PartialEq, Eq)]
pub enum WrongCheck {
    /// `--stdin` with paths.
    PathsWithStdin,
    /// `-z` without `--stdin`.
    NulWithoutStdin,
    /// No path.
    NoPath,
    /// `-q` with more than one path.
    QuietOfMany,
    /// `-q` with `-v`.
    QuietAndVerbose,
    /// `-n` without `-v`.
    NonMatchingAlone,
}

impl WrongCheck {
    /// What git tells of it, behind `fatal: `.
    pub fn text(&self) -> &'static [u8]
        ensures { result.now ≡ words.message_of_wrong_check self.now }
    {
        match self {
            WrongCheck::PathsWithStdin => b"cannot specify pathnames with --stdin",
            WrongCheck::NulWithoutStdin => b"-z only makes sense with --stdin",
            WrongCheck::NoPath => b"no path specified",
            WrongCheck::QuietOfMany => b"--quiet is only valid with a single pathname",
            WrongCheck::QuietAndVerbose => b"cannot have both --quiet and --verbose",
            WrongCheck::NonMatchingAlone => b"--non-matching is only valid with --verbose",
        }
    }
}

/// What is wrong with where so many paths come from.
fn stdin_or_path_count_error(checking: &Checking, count: usize) -> Option<WrongCheck>
    ensures { result ≡ words.stdin_or_path_count_error checking.now count }
{
    if checking.stdin {
        return if count > 0 {
            Some(WrongCheck::PathsWithStdin)
        } else {
            None
        };
    }
    if checking.ends_in_nul {
        return Some(WrongCheck::NulWithoutStdin);
    }
    if count == 0 {
        return Some(WrongCheck::NoPath);
    }
    None
}

/// What is wrong with what is to be written of so many paths.
fn output_option_error(checking: &Checking, count: usize) -> Option<WrongCheck>
    ensures { result ≡ words.output_option_error checking.now count }
{
    if checking.quiet & (count > 1) {
        return Some(WrongCheck::QuietOfMany);
    }
    if checking.quiet & checking.verbose {
        return Some(WrongCheck::QuietAndVerbose);
    }
    if checking.non_matching & !checking.verbose {
        return Some(WrongCheck::NonMatchingAlone);
    }
    None
}

/// Why nothing is asked of so many paths, the first reason; none where it is.
pub fn first_option_error(checking: &Checking, count: usize) -> Option<WrongCheck>
    ensures { result ≡ words.first_option_error checking.now count }
{
    match stdin_or_path_count_error(checking, count) {
        Some(wrong) => Some(wrong),
        None => output_option_error(checking, count),
    }
}
