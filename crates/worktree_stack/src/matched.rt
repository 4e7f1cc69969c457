//! What decides about a path: a rule, and the group of lists that it comes from.
ghost use Rattle.std.specs.Prelude.{◌≡◌, Some, true, IfOk, option_copied};
ghost use Rattle.worktree_stack.specs.Setup.{own_match_if_rules_held};
ghost use Rattle.worktree_stack.specs.Decided.{decision_of_decided};

use crate::Ignore;
use gitbase_core::{OutOfMemory, PathText};
use glob_rules::ignore::{Kind, Match, RuleGroup};
use glob_rules::{Case, Pattern};
use std::alloc::Global;
use std::marker::Model;

/// A rule that decides about a path, with the group of lists that it comes from.
///
/// Contracts see what the match refers to.
#[derive(Clone, Copy)]
pub struct Decided<'a> {
    pub group: RuleGroup,
    pub found: Match<'a>,
}

/// The rule that holds for a directory, kept longer than the lists that it came from.
///
/// Contracts see what a match refers to.
///
/// See docs/DECISIONS.md#own-match-copied.
#[derive(Drop)]
pub struct Matched {
    group: RuleGroup,
    pattern: Pattern,
    kind: Kind,
    source: Option<PathText>,
    sequence_number: u32,
}

impl Model for Matched {
    ghost use Rattle.worktree_stack.specs.Excludes.{ExcludeDecision};

    ghost Value = { ExcludeDecision };

    ghost view = { λ m. record { group = m.group; rule = record { pattern = m.pattern; kind = m.kind; source = m.source; line = m.sequence_number } } };
}

impl Matched {
    /// What a match refers to, copied.
    pub fn copy_from_decided(alloc: Global, decided: &Decided<'_>) -> Result<Matched, OutOfMemory>
        ensures { IfOk result (λ matched. matched ≡ decision_of_decided decided.now) }
    {
        let found = &decided.found;
        let source = match found.source {
            Some(source) => Some(PathText::from_bytes(alloc, source)?),
            None => None,
        };
        Ok(Matched {
            group: decided.group,
            pattern: found.pattern.copy(alloc)?,
            kind: found.kind,
            source,
            sequence_number: found.sequence_number,
        })
    }

    /// The own match of a directory.
    pub fn copy_own_match_of_directory(
        alloc: Global,
        ignore: Option<&Ignore>,
        path: &[u8],
        case: Case,
    ) -> Result<Option<Matched>, OutOfMemory>
        ensures { IfOk result (λ matched. matched ≡ own_match_if_rules_held
            (option_copied ignore.entry) path.now (Some true) case) }
    {
        let Some(ignore) = ignore else {
            return Ok(None);
        };
        match ignore.match_of_path_itself(path, Some(true), case) {
            Some(found) => Ok(Some(Matched::copy_from_decided(alloc, &found)?)),
            None => Ok(None),
        }
    }

    /// Whether the rule is negative.
    pub fn is_negative(&self) -> bool
        ensures { result ≡ self.now.rule.pattern.is_negative }
    {
        self.pattern.is_negative()
    }

    /// The match.
    pub fn as_decided(&self) -> Decided<'_>
        ensures { decision_of_decided result ≡ self.now }
    {
        Decided {
            group: self.group,
            found: Match {
                pattern: &self.pattern,
                kind: self.kind,
                source: self.source(),
                sequence_number: self.sequence_number,
            },
        }
    }

    /// Where the rule was read.
    fn source(&self) -> Option<&[u8]>
        ensures { option_copied result ≡ self.now.rule.source }
    {
        match &self.source {
            Some(source) => Some(source.as_bytes()),
            None => None,
        }
    }
}
