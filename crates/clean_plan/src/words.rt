//! The words of a command line that ask for a plan.
ghost use Rattle.std.specs.Prelude.{◌≡◌, option_map};
ghost use Rattle.clean_plan.specs.Named.{request_in_specification};
ghost use Rattle.clean_plan.specs.Words.{parse_clean_request, parse_repository_finding, parse_request_operands, parse_what_to_remove};

use crate::what::{Finding, What};
use gitbase_core::Bytes;
use worktree_report::{
    Places, parse_root_and_setup_words, words_behind_composed, words_behind_first_word,
};

/// What may be removed, how repositories are looked for, and where.
#[derive(Clone, Copy, Debug)]
pub struct Request<'a> {
    pub what: What,
    pub finding: Finding,
    pub places: Places<'a>,
}

/// Which paths a word asks for.
fn parse_what_to_remove(word: &[u8]) -> Option<What>
    ensures { result ≡ parse_what_to_remove word.now }
{
    if word == b"untracked".as_slice() {
        Some(What::Untracked)
    } else if word == b"all".as_slice() {
        Some(What::UntrackedAndIgnored)
    } else if word == b"ignored".as_slice() {
        Some(What::IgnoredOnly)
    } else {
        None
    }
}

/// Which repositories a word asks to look for.
fn parse_repository_finding(word: &[u8]) -> Option<Finding>
    ensures { result ≡ parse_repository_finding word.now }
{
    if word == b"nonbare".as_slice() {
        Some(Finding::NonBare)
    } else if word == b"all".as_slice() {
        Some(Finding::All)
    } else {
        None
    }
}

/// What WHAT, FIND, ROOT and SETUP ask for. None for any other words.
#[tactic(auto, unfolding(crate::specs::Words::parse_request_operands))]
fn parse_request_operands(words: &[Bytes]) -> Option<Request<'_>>
    ensures { option_map request_in_specification result ≡ parse_request_operands words.now }
{
    match words {
        [what, finding, rest @ ..] => Some(Request {
            what: parse_what_to_remove(what.as_bytes())?,
            finding: parse_repository_finding(finding.as_bytes())?,
            places: parse_root_and_setup_words(rest)?,
        }),
        _ => None,
    }
}

/// What words ask for, over a worktree that composes names or not: `clean WHAT FIND ROOT SETUP`,
/// with `composed` before it exactly where the worktree composes names. None for any other words.
#[tactic(auto, unfolding(crate::specs::Words::parse_clean_request))]
pub(crate) fn parse_clean_request(composes: bool, words: &[Bytes]) -> Option<Request<'_>>
    ensures { option_map request_in_specification result ≡ parse_clean_request composes words.now }
{
    parse_request_operands(words_behind_first_word(
        b"clean",
        words_behind_composed(composes, words)?,
    )?)
}
