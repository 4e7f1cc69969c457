//! What a stack says of the path that was looked up last.
ghost use Rattle.std.specs.Prelude.{◌≡◌, ℕ, List, true, Some, option_map, is_some, IfOk, OnOk, OnErr};
ghost use Rattle.gitbase_core.specs.Path.{components};
ghost use Rattle.glob_rules.specs.AttributeOutcome.{outcome_reset_to_selection_or_names, outcome_filled_for_path, is_any_state_found, empty_outcome};
ghost use Rattle.glob_rules.specs.Ignore.{matched_rule_of_match};
ghost use Rattle.worktree_fs.specs.Paths.{root_joined_with_relative, slash_joined_components};
ghost use Rattle.worktree_stack.specs.Setup.{excluded_kind, has_excludes, has_attributes, deciding_match_if_rules_held, global_and_held_lists, seen_attribute_names};
ghost use Rattle.worktree_stack.specs.Decided.{decision_of_decided};
ghost use Rattle.worktree_stack.specs.Exclusions.{exclusion_of_decision};
ghost use Rattle.worktree_stack.specs.Stacked.{IsInStepWithTree, setup_of_stack};
ghost use Rattle.worktree_stack.specs.Reading.{TreeAndObjects, rulebook_of_stack_setup, attribute_lists_for_path};
ghost use Rattle.worktree_stack.specs.Lookups.{StandsAtPath};
ghost use Rattle.worktree_stack.specs.Excludes.{exclude, rule_of_decision, origin_of_decision};

use crate::matched::Decided;
use crate::stack::Stack;
use bstr::BStr;
use gitbase_core::OutOfMemory;
use glob_rules::attributes::Outcome;
use glob_rules::ignore::{Kind, Match, Origin};
use std::alloc::Global;
use std::fmt;
use std::fmt::Write;
use std::marker::Model;

/// What the rule that decides about a path says of it; nothing where no rule matches the path.
#[derive(Clone, Copy, Debug, PartialEq, Eq)]
pub struct Exclusion {
    /// What may become of the path where the rule excludes it.
    pub kind: Option<Kind>,
    /// Where the rule comes from, a negative one too.
    pub origin: Option<Origin>,
}

impl Exclusion {
    /// No rule matches the path.
    pub const NONE: Exclusion = Exclusion {
        kind: None,
        origin: None,
    };
}

/// What becomes of a path by the rule that decides about it: nothing where that is negative.
fn kind_unless_negative(found: &Match<'_>) -> Option<Kind>
    ensures { result ≡ excluded_kind (Some (matched_rule_of_match found.now)) }
{
    if found.pattern.is_negative() {
        return None;
    }
    Some(found.kind)
}

/// What a rule that decides about a path says of it.
fn exclusion_of_decided(decided: &Decided<'_>) -> Exclusion
    ensures { result ≡ exclusion_of_decision (Some (decision_of_decided decided.now)) }
{
    Exclusion {
        kind: kind_unless_negative(&decided.found),
        origin: Some(Origin {
            group: decided.group,
            line: decided.found.sequence_number,
            negative: decided.found.pattern.is_negative(),
        }),
    }
}

/// What a stack says of the path that was looked up last; gitoxide's
/// `gix_worktree::stack::Platform`.
///
/// Contracts see the stack. Where it is in step with a tree and stands at the path, what it says is
/// what the rules of that tree say, with every directory above the path looked at afresh. No call
/// here takes memory but [`Platform::matching_attributes`].
#[derive(Drop)]
pub struct Platform<'a> {
    parent: &'a Stack,
}

impl<'a> Model for Platform<'a> {
    ghost use Rattle.worktree_stack.specs.Stacked.{StackModel};

    ghost Value = { StackModel };

    ghost view = { λ p. p.parent.now };
}

impl<'a> Platform<'a> {
    pub(crate) fn new(parent: &'a Stack) -> Platform<'a>
        ensures { result ≡ parent.now }
    {
        Platform { parent }
    }

    /// The whole path: the worktree root joined with the path that was looked up, its empty
    /// components dropped.
    pub fn path(&self) -> &'a [u8]
        ensures { result.now ≡ root_joined_with_relative self.now.root (slash_joined_components
            self.now.current) }
    {
        let parent: &'a Stack = self.parent;
        parent.current()
    }

    /// What decides whether the path is excluded.
    fn deciding_match(&self) -> Option<Decided<'a>>
        requires { has_excludes (setup_of_stack self.now) ≡ true }
        ensures held { option_map decision_of_decided result ≡ deciding_match_if_rules_held
            self.now.ignore (slash_joined_components self.now.current) self.now.is_dir
            self.now.case }
        ensures exclude { (s : TreeAndObjects) → IsInStepWithTree s self.now → (relative : List ℕ)
            → StandsAtPath self.now (components relative) → option_map decision_of_decided result
            ≡ exclude (rulebook_of_stack_setup (setup_of_stack self.now) s) (components relative)
            self.now.is_dir }
    {
        let parent: &'a Stack = self.parent;
        parent.deciding_match()
    }

    /// The rule that decides whether the path is excluded, a negative one among them; none where no
    /// rule matches it.
    ///
    /// The nearest directory above the path that a rule matches comes first: a positive rule of it
    /// decides, whatever the rules say of the path. Else the rule that matches the path decides,
    /// and where none does the negative one of the directory.
    ///
    /// With strict parents it is, of the directories above that a positive rule matches, the one
    /// nearest to the root, and negative ones decide nothing beneath them. The empty path has no
    /// directory above it.
    pub fn matching_exclude_pattern(&self) -> Option<Match<'a>>
        requires { has_excludes (setup_of_stack self.now) ≡ true }
        ensures held { option_map matched_rule_of_match result
            ≡ rule_of_decision (deciding_match_if_rules_held self.now.ignore
            (slash_joined_components self.now.current) self.now.is_dir self.now.case) }
        ensures exclude { (s : TreeAndObjects) → IsInStepWithTree s self.now → (relative : List ℕ)
            → StandsAtPath self.now (components relative) → option_map matched_rule_of_match result
            ≡ rule_of_decision (exclude (rulebook_of_stack_setup (setup_of_stack self.now) s)
            (components relative) self.now.is_dir) }
    {
        match self.deciding_match() {
            Some(decided) => Some(decided.found),
            None => None,
        }
    }

    /// What may become of the path, and where the rule comes from that decides it:
    /// [`Platform::excluded_kind`] and [`Platform::matching_origin`], for one search of the rules.
    pub fn exclusion(&self) -> Exclusion
        requires { has_excludes (setup_of_stack self.now) ≡ true }
        ensures held { result ≡ exclusion_of_decision (deciding_match_if_rules_held self.now.ignore
            (slash_joined_components self.now.current) self.now.is_dir self.now.case) }
        ensures exclude { (s : TreeAndObjects) → IsInStepWithTree s self.now → (relative : List ℕ)
            → StandsAtPath self.now (components relative) → result ≡ exclusion_of_decision
            (exclude (rulebook_of_stack_setup (setup_of_stack self.now) s) (components relative)
            self.now.is_dir) }
    {
        match self.deciding_match() {
            Some(decided) => exclusion_of_decided(&decided),
            None => Exclusion::NONE,
        }
    }

    /// Where the rule comes from that decides whether the path is excluded; none where no rule
    /// matches it. Takes no memory.
    pub fn matching_origin(&self) -> Option<Origin>
        requires { has_excludes (setup_of_stack self.now) ≡ true }
        ensures held { result ≡ origin_of_decision (deciding_match_if_rules_held self.now.ignore
            (slash_joined_components self.now.current) self.now.is_dir self.now.case) }
        ensures exclude { (s : TreeAndObjects) → IsInStepWithTree s self.now → (relative : List ℕ)
            → StandsAtPath self.now (components relative) → result ≡ origin_of_decision
            (exclude (rulebook_of_stack_setup (setup_of_stack self.now) s) (components relative)
            self.now.is_dir) }
    {
        self.exclusion().origin
    }

    /// What may become of the path where it is excluded; none where it is not.
    pub fn excluded_kind(&self) -> Option<Kind>
        requires { has_excludes (setup_of_stack self.now) ≡ true }
        ensures held { result ≡ excluded_kind (rule_of_decision (deciding_match_if_rules_held
            self.now.ignore (slash_joined_components self.now.current) self.now.is_dir
            self.now.case)) }
        ensures exclude { (s : TreeAndObjects) → IsInStepWithTree s self.now → (relative : List ℕ)
            → StandsAtPath self.now (components relative) → result
            ≡ excluded_kind (rule_of_decision
            (exclude (rulebook_of_stack_setup (setup_of_stack self.now) s) (components relative)
            self.now.is_dir)) }
    {
        self.exclusion().kind
    }

    /// Finds which attributes the path has, and tells whether it has one of those that are asked
    /// for. `out` asks for its selection, or for all names that the stack has seen. Fails only
    /// where memory is refused, and then `out` has lost what it asks for.
    pub fn matching_attributes(&self, alloc: Global, out: &mut Outcome) -> Result<bool, OutOfMemory>
        requires { has_attributes (setup_of_stack self.now) ≡ true }
        ensures held { OnOk result (out.new ≡ outcome_filled_for_path
            (global_and_held_lists self.now.attributes) (slash_joined_components self.now.current)
            self.now.is_dir self.now.case (outcome_reset_to_selection_or_names out.old
            (seen_attribute_names self.now.attributes))) }
        ensures attributes { (s : TreeAndObjects) → IsInStepWithTree s self.now
            → (relative : List ℕ) → StandsAtPath self.now (components relative)
            → OnOk result (out.new ≡ outcome_filled_for_path (attribute_lists_for_path
            (setup_of_stack self.now) s (components relative)) (slash_joined_components
            (components relative)) self.now.is_dir self.now.case
            (outcome_reset_to_selection_or_names out.old
            (seen_attribute_names self.now.attributes))) }
        ensures finds { IfOk result (λ finds. finds ≡ is_any_state_found out.new.rows) }
        ensures refused { OnErr result (out.new ≡ empty_outcome) }
    {
        self.parent.matching_attributes(alloc, out)
    }

    /// Whether the path is excluded.
    pub fn is_excluded(&self) -> bool
        requires { has_excludes (setup_of_stack self.now) ≡ true }
        ensures held { result ≡ is_some
            (excluded_kind (rule_of_decision (deciding_match_if_rules_held self.now.ignore
            (slash_joined_components self.now.current) self.now.is_dir self.now.case))) }
        ensures exclude { (s : TreeAndObjects) → IsInStepWithTree s self.now → (relative : List ℕ)
            → StandsAtPath self.now (components relative) → result
            ≡ is_some (excluded_kind
            (rule_of_decision (exclude (rulebook_of_stack_setup (setup_of_stack self.now) s)
            (components relative) self.now.is_dir))) }
    {
        self.excluded_kind().is_some()
    }
}

/// The whole path, in quotes.
impl<'a> fmt::Debug for Platform<'a> {
    fn fmt<W: Write>(&self, f: &mut fmt::Formatter<W>) -> fmt::Result {
        fmt::Debug::fmt(&BStr::new(self.path()), f)
    }
}
