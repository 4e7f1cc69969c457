//! Why a walk was refused, in the words of cases.
use dir_classify::{Error, MetadataWhy, ReadWhy};
use test_cases::{parse_saturating_decimal, split_at_byte};
use worktree_stack::{AtPathError, RulesWhy};

/// The word of a reason for which a rules file was not read.
fn rules_word(why: RulesWhy) -> &'static [u8] {
    match why {
        RulesWhy::LinkLimit => b"link limit",
        RulesWhy::Special => b"special",
        RulesWhy::Fault => b"unread",
        RulesWhy::Link => b"link",
    }
}

/// The word of a reason for which a directory was not read.
fn read_word(why: ReadWhy) -> &'static [u8] {
    match why {
        ReadWhy::Absent => b"absent",
        ReadWhy::NotADirectory => b"no directory",
        ReadWhy::Fault => b"fault",
    }
}

/// The word of a reason.
fn word_of(error: &Error) -> &'static [u8] {
    match error {
        Error::Interrupted => b"interrupted",
        Error::WorktreeRootIsFile { .. } => b"no root",
        Error::NormalizeRoot { .. } => b"outside",
        Error::SymlinkInRoot { .. } => b"link in root",
        Error::SymlinkMetadata { why, .. } => match why {
            MetadataWhy::Absent => b"no component",
            MetadataWhy::Fault => b"unknown component",
        },
        Error::ExcludesAccess(AtPathError::RulesFile { why, .. }) => rules_word(*why),
        Error::ReadDir { why, .. } => read_word(*why),
        Error::DirEntry { .. } => b"no entry",
        Error::TooDeep { .. } => b"too deep",
        _ => b"other",
    }
}

/// The path that a refusal names; none where it names none.
fn place_of(error: &Error) -> &[u8] {
    match error {
        Error::WorktreeRootIsFile { root } => root.as_bytes(),
        Error::NormalizeRoot { root } => root.as_bytes(),
        Error::SymlinkInRoot { root, .. } => root.as_bytes(),
        Error::SymlinkMetadata { path, .. } => path.as_bytes(),
        Error::ExcludesAccess(AtPathError::RulesFile { path, .. }) => path.as_bytes(),
        Error::ReadDir { path, .. } => path.as_bytes(),
        Error::DirEntry { parent_directory } => parent_directory.as_bytes(),
        Error::TooDeep { path } => path.as_bytes(),
        _ => b"",
    }
}

/// The number of the component that is a link; 0 where none is.
fn component_of(error: &Error) -> usize {
    match error {
        Error::SymlinkInRoot {
            component_index,
            ..
        } => *component_index,
        _ => 0,
    }
}

/// Whether a walk was refused for this reason, here, and at this component of the traversal root.
pub fn is_error(error: &Error, words: &[u8]) -> bool {
    let (reason, rest) = split_at_byte(words, b'`');
    let (place, component) = split_at_byte(rest, b'`');
    word_of(error) == reason
        && place_of(error) == place
        && component_of(error) == parse_saturating_decimal(component)
}
