//! The options of `clean` by their names.
ghost use Rattle.std.specs.Prelude.{◌≡◌, ◌==◌, position};
ghost use Rattle.command_line.specs.Cleanings as cleanings;

use crate::opt::Opt;

/// What an option of `clean` turns on or off; see git-clean(1).
#[derive(Clone, Copy, Debug)]
pub enum CleanChoice {
    /// Nothing is removed.
    DryRun,
    /// Untracked directories too.
    Directories,
    /// Ignored paths too.
    IgnoredToo,
    /// Ignored paths alone.
    IgnoredAlone,
    /// Nothing is named.
    Quiet,
}

/// How often `-f` stands. Where `clean.requireForce` is false that counts for one, unless
/// `--no-force` stands.
#[derive(Clone, Copy, Debug, PartialEq, Eq)]
pub enum Force {
    /// Not at all.
    Unsaid,
    /// Not at all behind `--no-force`.
    Dropped,
    /// Once.
    Once,
    /// Once behind `--no-force`.
    Alone,
    /// More than once.
    Twice,
}

impl Force {
    fn with_one_more_force(self) -> Force
        ensures { result ≡ cleanings.with_one_more_force self }
    {
        match self {
            Force::Unsaid => Force::Once,
            Force::Dropped => Force::Alone,
            Force::Once | Force::Alone | Force::Twice => Force::Twice,
        }
    }

    /// The same with `-f` once more, or with `--no-force`.
    pub fn with_force_or_no_force(self, is_on: bool) -> Force
        ensures { result ≡ cleanings.with_force_or_no_force is_on self }
    {
        if is_on {
            self.with_one_more_force()
        } else {
            Force::Dropped
        }
    }

    /// Whether something may be removed without `-n`; `is_lax` says that `clean.requireForce` is
    /// false.
    pub fn is_force_given_counting_config(self, is_lax: bool) -> bool
        ensures { result ≡ cleanings.is_force_given_counting_config self is_lax }
    {
        match self {
            Force::Unsaid => is_lax,
            Force::Dropped => false,
            Force::Once | Force::Alone | Force::Twice => true,
        }
    }

    /// Whether repositories are removed too.
    pub fn is_force_given_twice_counting_config(self, is_lax: bool) -> bool
        ensures { result ≡ cleanings.is_force_given_twice_counting_config self is_lax }
    {
        match self {
            Force::Unsaid | Force::Dropped | Force::Alone => false,
            Force::Once => is_lax,
            Force::Twice => true,
        }
    }
}

/// The choice of this name that can be turned off.
fn negatable_clean_choice_of_name(name: &[u8]) -> Option<CleanChoice>
    ensures { result ≡ cleanings.negatable_clean_choice_of_name name.now }
{
    if name == b"dry-run".as_slice() {
        Some(CleanChoice::DryRun)
    } else if name == b"quiet".as_slice() {
        Some(CleanChoice::Quiet)
    } else {
        None
    }
}

/// A choice that is made or dropped, if there is one.
fn clean_option_of_optional_choice(is_on: bool, choice: Option<CleanChoice>) -> Option<Opt>
    ensures { result ≡ cleanings.clean_option_of_optional_choice is_on choice }
{
    match choice {
        Some(choice) => Some(Opt::Cleans(choice, is_on)),
        None => None,
    }
}

/// What a name turns on or off.
fn negatable_clean_option_of_name(is_on: bool, name: &[u8]) -> Option<Opt>
    ensures { result ≡ cleanings.negatable_clean_option_of_name is_on name.now }
{
    if name == b"force".as_slice() {
        return Some(Opt::Forces(is_on));
    }
    clean_option_of_optional_choice(is_on, negatable_clean_choice_of_name(name))
}

/// The same, off where `no-` stands before the name.
fn clean_option_with_optional_no_prefix(name: &[u8]) -> Option<Opt>
    ensures { result ≡ cleanings.clean_option_with_optional_no_prefix name.now }
{
    if name.starts_with(b"no-") {
        let (_, rest) = name.split_at(3);
        return negatable_clean_option_of_name(false, rest);
    }
    negatable_clean_option_of_name(true, name)
}

/// Whether git has an option of this name that is not answered here.
fn is_unsupported_clean_option(name: &[u8]) -> bool
    ensures { result ≡ cleanings.is_unsupported_clean_option name.now }
{
    name == b"interactive".as_slice() || name == b"no-interactive".as_slice()
}

/// The option of `clean` of this name, which stands behind `--`. None where there is none.
#[tactic(auto, unfolding(crate::specs::Cleanings::clean_option_of_name))]
pub fn clean_option_of_name(name: &[u8]) -> Option<Opt>
    ensures { result ≡ cleanings.clean_option_of_name name.now }
{
    if name == b"help".as_slice() {
        return Some(Opt::Help);
    }
    if name == b"exclude".as_slice() {
        return Some(Opt::Pattern);
    }
    if is_unsupported_clean_option(name) {
        return Some(Opt::Left);
    }
    clean_option_with_optional_no_prefix(name)
}

/// The choice of this letter.
fn clean_choice_of_letter(letter: u8) -> Option<CleanChoice>
    ensures { result ≡ cleanings.clean_choice_of_letter letter }
{
    if letter == b'n' {
        Some(CleanChoice::DryRun)
    } else if letter == b'd' {
        Some(CleanChoice::Directories)
    } else if letter == b'x' {
        Some(CleanChoice::IgnoredToo)
    } else if letter == b'X' {
        Some(CleanChoice::IgnoredAlone)
    } else if letter == b'q' {
        Some(CleanChoice::Quiet)
    } else {
        None
    }
}

/// The option of `clean` of this letter, which stands behind `-`. None where there is none.
pub fn clean_option_of_letter(letter: u8) -> Option<Opt>
    ensures { result ≡ cleanings.clean_option_of_letter letter }
{
    if letter == b'h' {
        Some(Opt::Help)
    } else if letter == b'f' {
        Some(Opt::Forces(true))
    } else if letter == b'e' {
        Some(Opt::Pattern)
    } else if letter == b'i' {
        Some(Opt::Left)
    } else {
        clean_option_of_optional_choice(true, clean_choice_of_letter(letter))
    }
}

/// The place of the first line feed.
fn index_of_first_line_feed(bytes: &[u8]) -> Option<usize>
    ensures { result ≡ position (λ b. b == 10) bytes.now }
{
    bytes.iter().position(|b| *b == b'\n')
}

/// Whether a line feed is among some bytes.
fn contains_line_feed(bytes: &[u8]) -> bool
    ensures { result ≡ cleanings.contains_line_feed bytes.now }
{
    let place = index_of_first_line_feed(bytes);
    place.is_some()
}

/// Whether some bytes end in a blank or a carriage return.
fn ends_in_space_or_carriage_return(bytes: &[u8]) -> bool
    ensures { result ≡ cleanings.ends_in_space_or_carriage_return bytes.now }
{
    bytes.ends_with(b" ") || bytes.ends_with(b"\r")
}

/// Whether a pattern can stand as a line of a rules file.
pub fn lacks_line_feed_and_trailing_blank(bytes: &[u8]) -> bool
    ensures { result ≡ cleanings.lacks_line_feed_and_trailing_blank bytes.now }
{
    if contains_line_feed(bytes) {
        return false;
    }
    !ends_in_space_or_carriage_return(bytes)
}
