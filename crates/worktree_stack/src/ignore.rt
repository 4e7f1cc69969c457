//! The rules that exclude paths: those of a caller, and those of the directories on the way to a
//! path.
ghost use Rattle.std.specs.Prelude.{◌≡◌, ◌+◌, ◌-◌, ◌++◌, [], ◌∷◌, false, Some, IfOk, OnOk, OnErr, option_map, is_some, reverse};
ghost use Rattle.glob_rules.specs.Ignore.{rule_of_last_matching_list, numbered_rule_of_last_list};
ghost use Rattle.worktree_stack.specs.Excludes.{decision_with_group, first_present_decision, first_excluding_decision, deciding_match_of_parents, is_excluding_decision};
ghost use Rattle.worktree_stack.specs.Setup.{HeldIgnoreRules, held_rules_with_directory_pushed, held_rules_with_directory_popped, held_rules_without_directories, rules_file_name_or_gitignore, decision_by_list_number, own_match_of_numbered_directory, own_match_among_held_rules, deciding_match_of_held_parents, deciding_match_of_path};
ghost use Rattle.worktree_stack.specs.Decided.{decision_of_decided};

use crate::ignore_source::Source;
use crate::matched::{Decided, Matched};
use gitbase_core::{Bytes, OutOfMemory};
use glob_rules::Case;
use glob_rules::ignore::{List, ParseIgnore, RuleGroup, Search};
use std::alloc::Global;
use std::marker::Model;

/// The rules that exclude paths; gitoxide's `gix_worktree::stack::state::Ignore`.
///
/// Contracts see a record: what it was made with, and the rules and matches of the directories that
/// are pushed.
#[derive(Drop)]
pub struct Ignore {
    overrides: Search,
    globals: Search,
    exclude_file_name_for_directories: Bytes,
    source: Source,
    parse: ParseIgnore,
    strict_parents: bool,
    /// The rules of each pushed directory, the root's first.
    stack: Search,
    /// The own match of each pushed directory, the root's first.
    matched_directories: Vec<Option<Matched>>,
    /// Which of these decides about the paths beneath all of them; kept, so that it is searched
    /// only where a directory is popped.
    deciding_directory: Option<usize>,
}

impl Model for Ignore {
    ghost use Rattle.worktree_stack.specs.Setup.{Setup, HeldIgnoreRules};

    ghost Value = { HeldIgnoreRules };

    ghost view = { λ i. record {
      setup = record { overrides = i.overrides; globals = i.globals; file_name = i.exclude_file_name_for_directories; source = i.source; precious = i.parse.support_precious; strict = i.strict_parents };
      lists = i.stack;
      matches = i.matched_directories.items;
    } };

    ghost use Rattle.std.specs.Prelude.{◌≡◌};
    ghost use Rattle.worktree_stack.specs.Excludes.{deciding_match_of_parents};
    ghost use Rattle.worktree_stack.specs.Setup.{own_match_of_numbered_directory};

    ghost invariant = { λ i. own_match_of_numbered_directory i.matched_directories.items
        i.deciding_directory ≡ deciding_match_of_parents i.strict_parents
        i.matched_directories.items };
}

impl Ignore {
    /// Rules of a caller: `overrides` come before those of any directory, `globals` after them.
    /// Each directory's own rules are read from the file of the given name in it, `.gitignore`
    /// where none is given; `source` says from where, and `parse` how.
    ///
    /// Fails only where memory is refused, and then drops what it was handed.
    pub fn new(
        alloc: Global,
        overrides: Search,
        globals: Search,
        exclude_file_name_for_directories: Option<Bytes>,
        source: Source,
        parse: ParseIgnore,
    ) -> Result<Ignore, OutOfMemory>
        ensures overrides { IfOk result (λ ignore. ignore.setup.overrides ≡ overrides) }
        ensures globals { IfOk result (λ ignore. ignore.setup.globals ≡ globals) }
        ensures file_name { IfOk result (λ ignore. ignore.setup.file_name
            ≡ rules_file_name_or_gitignore exclude_file_name_for_directories) }
        ensures source { IfOk result (λ ignore. ignore.setup.source ≡ source) }
        ensures precious { IfOk result (λ ignore. ignore.setup.precious ≡ parse.support_precious) }
        ensures strict { IfOk result (λ ignore. ignore.setup.strict ≡ false) }
        ensures lists { IfOk result (λ ignore. ignore.lists ≡ []) }
        ensures matches { IfOk result (λ ignore. ignore.matches ≡ []) }
    {
        let name = match exclude_file_name_for_directories {
            Some(name) => name,
            None => Bytes::from_slice(alloc, b".gitignore")?,
        };
        Ok(Ignore {
            overrides,
            globals,
            exclude_file_name_for_directories: name,
            source,
            parse,
            strict_parents: false,
            stack: Search::new(alloc),
            matched_directories: Vec::new(alloc),
            deciding_directory: None,
        })
    }

    /// The same rules, with strict parents or without: with them all beneath an excluded directory
    /// is excluded. Takes no memory.
    pub fn with_strict_parents(self, on: bool) -> Ignore
        ensures { result ≡ record self { setup = record self.setup { strict = on } } }
    {
        let mut ignore = self;
        ignore.deciding_directory = find_deciding_directory(&ignore.matched_directories, on);
        ignore.strict_parents = on;
        ignore
    }

    /// The same rules with no directory pushed; fails only where memory is refused.
    pub(crate) fn fresh(&self, alloc: Global) -> Result<Ignore, OutOfMemory>
        ensures { IfOk result (λ ignore. Some ignore ≡ held_rules_without_directories
            (Some self.now)) }
    {
        Ok(Ignore {
            overrides: self.overrides.copy(alloc)?,
            globals: self.globals.copy(alloc)?,
            exclude_file_name_for_directories: Bytes::from_slice(alloc, self.file_name())?,
            source: self.source,
            parse: self.parse,
            strict_parents: self.strict_parents,
            stack: Search::new(alloc),
            matched_directories: Vec::new(alloc),
            deciding_directory: None,
        })
    }

    /// Where the rules files of directories are read.
    pub(crate) fn source(&self) -> Source
        ensures { result ≡ self.now.setup.source }
    {
        self.source
    }

    /// How rules files are read.
    pub(crate) fn parse(&self) -> ParseIgnore
        ensures { result.support_precious ≡ self.now.setup.precious }
    {
        self.parse
    }

    /// The name of a directory's rules file.
    /// See docs/DIFFERENCES.md#gix-rules-file-name.
    pub(crate) fn file_name(&self) -> &[u8]
        ensures { result.now ≡ self.now.setup.file_name }
    {
        self.exclude_file_name_for_directories.as_bytes()
    }

    /// Pushes the rules of a directory and its own match. Where memory is refused nothing is
    /// pushed.
    pub(crate) fn push_directory(
        &mut self,
        alloc: Global,
        list: List,
        matched: Option<Matched>,
    ) -> Result<(), OutOfMemory>
        ensures pushed { OnOk result (Some self.new ≡ held_rules_with_directory_pushed list matched
            (Some self.old)) }
        ensures refused { OnErr result (self.new ≡ self.old) }
    {
        let decides = deciding_directory_after_push(
            &self.matched_directories,
            self.deciding_directory,
            &matched,
            self.strict_parents,
        );
        self.matched_directories.push(matched)?;
        if let Err(refused) = self.stack.push_list(alloc, list) {
            self.matched_directories.pop();
            return Err(refused);
        }
        self.deciding_directory = decides;
        Ok(())
    }

    /// Drops what was pushed last.
    pub(crate) fn pop_directory(&mut self)
        ensures { Some self.new ≡ held_rules_with_directory_popped (Some self.old) }
    {
        self.matched_directories.pop();
        self.deciding_directory = find_deciding_directory(
            &self.matched_directories,
            self.strict_parents,
        );
        self.stack.pop_list();
    }

    /// The own match of a path: in the overrides, else in the lists of the pushed directories from
    /// the last up, else in the globals.
    pub(crate) fn match_of_path_itself(
        &self,
        path: &[u8],
        is_dir: Option<bool>,
        case: Case,
    ) -> Option<Decided<'_>>
        ensures { option_map decision_of_decided result ≡ own_match_among_held_rules self.now
            path.now is_dir case }
    {
        if let Some(found) = self.match_in_overrides(path, is_dir, case) {
            return Some(found);
        }
        if let Some(found) = self.match_in_directories(path, is_dir, case) {
            return Some(found);
        }
        self.match_in_globals(path, is_dir, case)
    }

    /// The own match of the empty path, beneath no directory.
    /// See docs/DIFFERENCES.md#empty-match.
    fn match_of_worktree_root(&self, is_dir: Option<bool>, case: Case) -> Option<Decided<'_>>
        ensures { option_map decision_of_decided result ≡ deciding_match_of_path self.now [] is_dir
            case }
    {
        match self.match_in_overrides(&[], is_dir, case) {
            Some(found) => Some(found),
            None => self.match_in_globals(&[], is_dir, case),
        }
    }

    /// The last rule of the overrides that matches a path.
    fn match_in_overrides(
        &self,
        path: &[u8],
        is_dir: Option<bool>,
        case: Case,
    ) -> Option<Decided<'_>>
        ensures { option_map decision_of_decided result ≡ decision_with_group RuleGroup.Overrides
            (rule_of_last_matching_list self.now.setup.overrides path.now is_dir case) }
    {
        match self
            .overrides
            .pattern_matching_relative_path(path, is_dir, case)
        {
            Some(found) => Some(Decided {
                group: RuleGroup::Overrides,
                found,
            }),
            None => None,
        }
    }

    /// The last rule of the nearest pushed directory that has one which matches a path.
    fn match_in_directories(
        &self,
        path: &[u8],
        is_dir: Option<bool>,
        case: Case,
    ) -> Option<Decided<'_>>
        ensures { option_map decision_of_decided result ≡ decision_by_list_number
            (numbered_rule_of_last_list self.now.lists path.now is_dir case) }
    {
        match self.stack.place_matching_relative_path(path, is_dir, case) {
            Some((depth, found)) => Some(Decided {
                group: RuleGroup::Directory { depth },
                found,
            }),
            None => None,
        }
    }

    /// The last rule of the globals that matches a path.
    fn match_in_globals(&self, path: &[u8], is_dir: Option<bool>, case: Case) -> Option<Decided<'_>>
        ensures { option_map decision_of_decided result ≡ decision_with_group RuleGroup.Globals
            (rule_of_last_matching_list self.now.setup.globals path.now is_dir case) }
    {
        match self
            .globals
            .pattern_matching_relative_path(path, is_dir, case)
        {
            Some(found) => Some(Decided {
                group: RuleGroup::Globals,
                found,
            }),
            None => None,
        }
    }

    /// The own match of a pushed directory that decides about the paths beneath all of them.
    fn deciding_parent_match(&self) -> Option<Decided<'_>>
        ensures { option_map decision_of_decided result ≡ deciding_match_of_held_parents self.now }
    {
        let Some(at) = self.deciding_directory else {
            return None;
        };
        match self.matched_directories.get(at) {
            Some(Some(matched)) => Some(matched.as_decided()),
            _ => None,
        }
    }

    /// What decides about a path: the own match of a pushed directory where that excludes it, else
    /// the match of the path itself, else what such a directory has. See
    /// docs/DIFFERENCES.md#lifted-beneath-excluded.
    pub(crate) fn deciding_match(
        &self,
        path: &[u8],
        is_dir: Option<bool>,
        case: Case,
    ) -> Option<Decided<'_>>
        ensures { option_map decision_of_decided result ≡ deciding_match_of_path self.now path.now
            is_dir case }
    {
        if path.is_empty() {
            return self.match_of_worktree_root(is_dir, case);
        }
        let Some(above) = self.deciding_parent_match() else {
            return self.match_of_path_itself(path, is_dir, case);
        };
        if !above.found.pattern.is_negative() {
            return Some(above);
        }
        match self.match_of_path_itself(path, is_dir, case) {
            Some(own) => Some(own),
            None => Some(above),
        }
    }
}

/// Which of the own matches of pushed directories decides about the paths beneath all of them.
/// See docs/DECISIONS.md#deciding-directory.
fn find_deciding_directory(matches: &[Option<Matched>], strict: bool) -> Option<usize>
    ensures { own_match_of_numbered_directory matches.now result ≡ deciding_match_of_parents strict
        matches.now }
{
    if strict {
        return first_excluding_directory(matches);
    }
    nearest_matched_directory(matches)
}

/// Which decides with one more, where `decides` does without it; nothing is searched.
fn deciding_directory_after_push(
    matches: &[Option<Matched>],
    decides: Option<usize>,
    more: &Option<Matched>,
    strict: bool,
) -> Option<usize>
    requires { own_match_of_numbered_directory matches.now decides ≡ deciding_match_of_parents
        strict matches.now }
    ensures { own_match_of_numbered_directory (matches.now ++ more.now ∷ []) result
        ≡ deciding_match_of_parents strict (matches.now ++ more.now ∷ []) }
{
    if strict {
        return first_excluding_after_push(matches, decides, more);
    }
    if more.is_some() {
        return Some(matches.len());
    }
    decides
}

/// Which decides with one more, where parents are strict.
fn first_excluding_after_push(
    matches: &[Option<Matched>],
    decides: Option<usize>,
    more: &Option<Matched>,
) -> Option<usize>
    requires { own_match_of_numbered_directory matches.now decides ≡ first_excluding_decision
        matches.now }
    ensures { own_match_of_numbered_directory (matches.now ++ more.now ∷ []) result
        ≡ first_excluding_decision (matches.now ++ more.now ∷ []) }
{
    if has_own_match_at(matches, decides) {
        return decides;
    }
    if excludes(more) {
        return Some(matches.len());
    }
    None
}

/// Whether the directory of this number has an own match.
fn has_own_match_at(matches: &[Option<Matched>], number: Option<usize>) -> bool
    ensures { result ≡ is_some (own_match_of_numbered_directory matches.now number) }
{
    let Some(at) = number else {
        return false;
    };
    matches!(matches.get(at), Some(Some(_)))
}

/// The nearest directory that has an own match.
fn nearest_matched_directory(matches: &[Option<Matched>]) -> Option<usize>
    ensures { own_match_of_numbered_directory matches.now result ≡ first_present_decision
        (reverse matches.now) }
{
    let mut at = matches.len();
    while at > 0 {
        at -= 1;
        if matches[at].is_some() {
            return Some(at);
        }
    }
    None
}

/// The directory nearest to the root that is excluded by its own match.
fn first_excluding_directory(matches: &[Option<Matched>]) -> Option<usize>
    ensures { own_match_of_numbered_directory matches.now result ≡ first_excluding_decision
        matches.now }
{
    let mut at = 0;
    while at < matches.len() {
        if excludes(&matches[at]) {
            return Some(at);
        }
        at += 1;
    }
    None
}

/// Whether an own match excludes.
fn excludes(matched: &Option<Matched>) -> bool
    ensures { result ≡ is_excluding_decision matched.now }
{
    match matched {
        Some(matched) => !matched.is_negative(),
        None => false,
    }
}
