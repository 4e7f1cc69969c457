//! Whether there is such a cleaning.
ghost use Rattle.std.specs.Prelude.{◌≡◌};
ghost use Rattle.tizhagor.specs.CleanLines.{message_of_wrong_clean};
ghost use Rattle.tizhagor.specs.Cleanings as words;

use command_line::{CleanAsked, Force};
use git_clean::UnsupportedCleaning;
use git_config_lite::File;
use git_setup::Found;

/// What the configuration says of `clean.requireForce`.
#[derive(Clone, Copy, Debug, PartialEq, Eq)]
pub enum Required {
    /// Nothing: then `-f` or `-n` is required.
    Unsaid,
    /// It is.
    Yes,
    /// It is not.
    No,
    /// The value is no boolean.
    Unread,
}

/// Why there is no such cleaning: in git, or not here.
#[derive(Clone, Copy, Debug, PartialEq, Eq)]
pub enum WrongClean {
    /// `clean.requireForce` is no boolean.
    Unread,
    /// Neither `-n` nor `-f` is there.
    Unforced,
    /// The same, where the configuration has `clean.requireForce`.
    UnforcedAsSaid,
    /// Another reason.
    Wrong(UnsupportedCleaning),
}

impl WrongClean {
    /// What is told of it, behind `fatal: `; of what git refuses too in git's words.
    pub fn text(&self) -> &'static [u8]
        ensures { result.now ≡ message_of_wrong_clean self.now }
    {
        match self {
            WrongClean::Unread => b"bad config value for 'clean.requireForce'",
            WrongClean::Unforced => {
                b"clean.requireForce defaults to true and neither -i, -n, nor -f given; \
refusing to clean"
            }
            WrongClean::UnforcedAsSaid => {
                b"clean.requireForce set to true and neither -i, -n, nor -f given; \
refusing to clean"
            }
            WrongClean::Wrong(wrong) => wrong.text(),
        }
    }
}

/// What a configuration says of `clean.requireForce`.
pub fn read_require_force(config: &File) -> Required
    ensures { result ≡ words.read_require_force config.now.sections }
{
    match config.boolean(b"clean", None, b"requireforce") {
        Ok(None) => Required::Unsaid,
        Ok(Some(is)) => { if is { Required::Yes } else { Required::No } }
        Err(_) => Required::Unread,
    }
}

/// Whether what it says counts for one `-f`.
pub fn is_require_force_false(required: Required) -> bool
    ensures { result ≡ words.is_require_force_false required }
{
    matches!(required, Required::No)
}

/// Why git refuses to remove.
fn reason_force_is_missing(is_dry: bool, force: Force, required: Required) -> Option<WrongClean>
    ensures { result ≡ words.reason_force_is_missing is_dry force required }
{
    match required {
        Required::Unread => Some(WrongClean::Unread),
        Required::Unsaid => {
            if is_dry | force.is_force_given_counting_config(false) {
                None
            } else {
                Some(WrongClean::Unforced)
            }
        }
        Required::Yes => {
            if is_dry | force.is_force_given_counting_config(false) {
                None
            } else {
                Some(WrongClean::UnforcedAsSaid)
            }
        }
        Required::No => {
            if is_dry | force.is_force_given_counting_config(true) {
                None
            } else {
                Some(WrongClean::UnforcedAsSaid)
            }
        }
    }
}

/// The same by the configuration of a work tree that is found.
pub fn reason_force_is_missing_in_found(wants: &CleanAsked, found: &Found) -> Option<WrongClean>
    ensures { result ≡ words.reason_force_is_missing_in_found wants.now found.now }
{
    reason_force_is_missing(
        wants.cleaning.dry_run,
        wants.force,
        read_require_force(&found.config),
    )
}
