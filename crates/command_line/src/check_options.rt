//! The options of `check-ignore` by their names.
ghost use Rattle.std.specs.Prelude.{◌≡◌};
ghost use Rattle.command_line.specs.Checkings as checkings;

use crate::opt::Opt;
use check_ignore::Checking;

/// What is asked of `check-ignore`, as git-check-ignore(1) has it.
#[derive(Clone, Copy, Debug, PartialEq, Eq)]
pub struct CheckAsked {
    /// What is written. How bytes above 0x7f are written and how letters compare is left to the
    /// configuration.
    pub checking: Checking,
    /// `--no-index`: the index is left aside.
    pub leaves_index: bool,
}

/// What an option of `check-ignore` turns on or off.
#[derive(Clone, Copy, Debug)]
pub enum CheckChoice {
    /// Nothing is written.
    Quiet,
    /// Each path with its rule.
    Verbose,
    /// The paths too that no rule decides about.
    NonMatching,
    /// Paths are read from the standard input.
    Stdin,
    /// NULs in place of line feeds.
    Nul,
    /// The index is left aside.
    LeavesIndex,
}

/// What is asked of `check-ignore` where no word says any.
pub fn default_check_ignore_request() -> CheckAsked
    ensures { result ≡ checkings.default_check_ignore_request }
{
    CheckAsked {
        checking: Checking {
            quiet: false,
            verbose: false,
            non_matching: false,
            stdin: false,
            ends_in_nul: false,
            quote_path: true,
            ignore_case: false,
        },
        leaves_index: false,
    }
}

/// The same with one choice made or dropped; all others stay.
pub fn check_request_with_choice(asked: CheckAsked, choice: CheckChoice, on: bool) -> CheckAsked
    ensures { result ≡ checkings.check_request_with_choice choice on asked }
{
    let mut asked = asked;
    match choice {
        CheckChoice::Quiet => asked.checking.quiet = on,
        CheckChoice::Verbose => asked.checking.verbose = on,
        CheckChoice::NonMatching => asked.checking.non_matching = on,
        CheckChoice::Stdin => asked.checking.stdin = on,
        CheckChoice::Nul => asked.checking.ends_in_nul = on,
        CheckChoice::LeavesIndex => asked.leaves_index = on,
    }
    asked
}

/// The choice of this name that `no-` before it turns off.
fn negatable_check_choice_of_name(name: &[u8]) -> Option<CheckChoice>
    ensures { result ≡ checkings.negatable_check_choice_of_name name.now }
{
    if name == b"quiet".as_slice() {
        Some(CheckChoice::Quiet)
    } else if name == b"verbose".as_slice() {
        Some(CheckChoice::Verbose)
    } else if name == b"non-matching".as_slice() {
        Some(CheckChoice::NonMatching)
    } else if name == b"stdin".as_slice() {
        Some(CheckChoice::Stdin)
    } else {
        None
    }
}

/// A choice that is made or dropped, if there is one.
fn check_option_of_optional_choice(is_on: bool, choice: Option<CheckChoice>) -> Option<Opt>
    ensures { result ≡ checkings.check_option_of_optional_choice is_on choice }
{
    match choice {
        Some(choice) => Some(Opt::Checks(choice, is_on)),
        None => None,
    }
}

/// What this name says of whether the index is left aside.
fn index_option_of_name(name: &[u8]) -> Option<Opt>
    ensures { result ≡ checkings.index_option_of_name name.now }
{
    if name == b"no-index".as_slice() {
        check_option_of_optional_choice(true, Some(CheckChoice::LeavesIndex))
    } else if name == b"index".as_slice() || name == b"no-no-index".as_slice() {
        check_option_of_optional_choice(false, Some(CheckChoice::LeavesIndex))
    } else {
        None
    }
}

/// The choice of this name, dropped where `no-` stands before it.
fn check_option_with_optional_no_prefix(name: &[u8]) -> Option<Opt>
    ensures { result ≡ checkings.check_option_with_optional_no_prefix name.now }
{
    if name.starts_with(b"no-") {
        let (_, rest) = name.split_at(3);
        return check_option_of_optional_choice(false, negatable_check_choice_of_name(rest));
    }
    check_option_of_optional_choice(true, negatable_check_choice_of_name(name))
}

/// The option of `check-ignore` of this name, which stands behind `--`. None where there is none.
#[tactic(auto, unfolding(crate::specs::Checkings::check_ignore_option_of_name))]
pub fn check_ignore_option_of_name(name: &[u8]) -> Option<Opt>
    ensures { result ≡ checkings.check_ignore_option_of_name name.now }
{
    if name == b"help".as_slice() {
        return Some(Opt::Help);
    }
    match index_option_of_name(name) {
        Some(opt) => Some(opt),
        None => check_option_with_optional_no_prefix(name),
    }
}

/// The option of `check-ignore` of this letter, which stands behind `-`. None where there is none.
pub fn check_ignore_option_of_letter(letter: u8) -> Option<Opt>
    ensures { result ≡ checkings.check_ignore_option_of_letter letter }
{
    if letter == b'h' {
        Some(Opt::Help)
    } else if letter == b'q' {
        check_option_of_optional_choice(true, Some(CheckChoice::Quiet))
    } else if letter == b'v' {
        check_option_of_optional_choice(true, Some(CheckChoice::Verbose))
    } else if letter == b'n' {
        check_option_of_optional_choice(true, Some(CheckChoice::NonMatching))
    } else if letter == b'z' {
        check_option_of_optional_choice(true, Some(CheckChoice::Nul))
    } else {
        None
    }
}
