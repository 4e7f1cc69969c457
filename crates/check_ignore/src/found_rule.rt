//! The rule that decides about a path, and where a rule stands.
use gitbase_core::Bytes;
use glob_rules::ignore::RuleGroup;

/// The rule that decides about a path.
#[derive(Debug, Drop)]
pub struct FoundRule {
    /// Where its list belongs.
    pub group: RuleGroup,
    /// Where its list was read.
    pub source: Bytes,
    /// The number of its line, from 1.
    pub line: usize,
    /// Its pattern, without the marks around it.
    pub text: Bytes,
    /// Whether a `!` stands before it, so that what it matches is not excluded.
    pub is_negative: bool,
    /// Whether a slash stands behind it, so that it is for directories alone.
    pub must_be_dir: bool,
}

/// Where a rule outside the work tree stands.
#[derive(Debug, Drop)]
pub struct RulePlace {
    /// Its file, as git names it.
    pub file: Bytes,
    /// The number of its line, from 1.
    pub line: usize,
}
