//! A stack of the directories above a path, with the rules of each.
ghost use Rattle.std.specs.Prelude.{◌≡◌, ◌≤◌, ◌+◌, true, false, option_map, None, Some, IfOk, OnOk, OnErr};
ghost use Rattle.std.specs.Borrow.{sem};
ghost use Rattle.gitbase_core.specs.Path.{components};
ghost use Rattle.worktree_fs.specs.Paths.{root_joined_with_relative, slash_joined_components};
ghost use Rattle.worktree_fs.specs.PathStack.{delegate_calls_of_lookup};
ghost use Rattle.glob_rules.specs.AttributeOutcome.{outcome_reset_to_selection_or_names, outcome_without_states, outcome_filled_for_path, is_any_state_found, empty_outcome};
ghost use Rattle.worktree_stack.specs.Asked.{number_of_all_files_asked_by_calls};
ghost use Rattle.worktree_stack.specs.Counted.{zero_statistics, stack_with_nothing_pushed, fresh};
ghost use Rattle.worktree_stack.specs.Decided.{decision_of_decided};
ghost use Rattle.worktree_stack.specs.Lending.{LendsState};
ghost use Rattle.worktree_fs.specs.Kept.{KeepsStoredObjects};
ghost use Rattle.worktree_stack.specs.ChecksOut.{LooksUpMakingDirectories};
ghost use Rattle.worktree_stack.specs.LooksUp.{LooksUpPath, LookupLeavesWorktree};
ghost use Rattle.worktree_stack.specs.HeldOut.{KeepsLowestAppendsCheckoutLists};
ghost use Rattle.worktree_stack.specs.Making.{is_symlink_by_mode, mkdir_count_of_stack, checkout_lookup_options};
ghost use Rattle.worktree_stack.specs.declared.state.Checkout.{Checkout};
ghost use Rattle.worktree_stack.specs.Lookups.{is_dir_by_mode, is_dir_by_mode_or_slash};
ghost use Rattle.worktree_stack.specs.Mappings.{are_mapping_paths_ascending, rules_file_mappings_of_index, case_by_ignore_case};
ghost use Rattle.worktree_stack.specs.Setup.{has_excludes, has_attributes, keeps_tree_in_lookups, setup_of_held_attributes, setup_of_held_ignore_rules, deciding_match_if_rules_held, global_and_held_lists, seen_attribute_names};
ghost use Rattle.worktree_stack.specs.Stacked.{setup_of_stack, held_attributes_of_state, checkout_of_state, held_ignore_rules_of_state, IsInStepWithTree};
ghost use Rattle.worktree_stack.specs.Reading.{TreeAndObjects, Tells};

mod checkout;
mod push_rules;
mod read_text;
mod steps;

use crate::attributes::{outcome_for_all_attributes, outcome_for_selected_attributes};
use crate::mappings::{Mappings, PathIdMapping};
use crate::matched::Decided;
use crate::platform::Platform;
use crate::{AtPathError, State, Statistics};
use gitbase_core::{Bytes, Find, Mode, OutOfMemory, PathText, State as Index};
use glob_rules::Case;
use glob_rules::attributes::{MetadataCollection, Outcome};
use std::alloc::Global;
use std::marker::Model;
use steps::entry_mode;
use worktree_fs::{PathStack, Worktree, is_relative_without_dots};

/// The directories above the path that was looked up last, with the rules of each; gitoxide's
/// `gix_worktree::Stack`.
///
/// A lookup pops the directories that are not above its path and pushes those that are. So the
/// rules of a directory are read once for all paths in it, if these come directory by directory.
///
/// Contracts see a record.
#[derive(Drop)]
pub struct Stack {
    stack: PathStack,
    state: State,
    case: Case,
    buf: Bytes,
    id_mappings: Mappings,
    /// The path of the rules file that was looked for last, and its whole path, for their room.
    rules_path: PathText,
    whole_path: PathText,
    is_dir: Option<bool>,
    /// Whether the last lookup was answered, and the state is what it was then.
    is_answered: bool,
    reject_terminal_symlinks: bool,
    statistics: Statistics,
}

impl Model for Stack {
    ghost use Rattle.worktree_stack.specs.Stacked.{StackModel, held_attributes_of_state, checkout_of_state, held_ignore_rules_of_state};

    ghost Value = { StackModel };

    ghost view = { λ s. record {
      root = s.stack.root;
      case = s.case;
      mappings = s.id_mappings;
      checkout = checkout_of_state s.state;
      attributes = held_attributes_of_state s.state;
      ignore = held_ignore_rules_of_state s.state;
      at = s.stack.deepest;
      current = s.stack.current;
      is_dir = s.is_dir;
      is_answered = s.is_answered;
      statistics = s.statistics;
    } };
}

impl Stack {
    /// A stack below a worktree root, on which nothing is pushed; takes no memory.
    ///
    /// `worktree_root` is to be absolute, without `.` and `..`, as paths in the worktree begin with
    /// it. `case` says how letters compare in all rules. `buf` is used when files are read.
    /// `id_mappings` are the blobs of rules files, by their paths below the root, which ascend
    /// strictly by their bytes.
    ///
    /// See docs/DECISIONS.md#mappings-ascend.
    pub fn new(
        alloc: Global,
        worktree_root: PathText,
        state: State,
        case: Case,
        buf: Bytes,
        id_mappings: Vec<PathIdMapping>,
    ) -> Stack
        requires { are_mapping_paths_ascending id_mappings.items ≡ true }
        ensures { result ≡ stack_with_nothing_pushed worktree_root case id_mappings.items
            (checkout_of_state state) (held_attributes_of_state state) (held_ignore_rules_of_state
            state) }
    {
        Stack {
            stack: PathStack::new(alloc, worktree_root),
            state,
            case,
            buf,
            id_mappings: Mappings::new(id_mappings),
            rules_path: PathText::new(alloc),
            whole_path: PathText::new(alloc),
            is_dir: None,
            is_answered: false,
            reject_terminal_symlinks: false,
            statistics: Statistics::default(),
        }
    }

    /// A stack below a worktree root, on which nothing is pushed, with the blobs that an index has
    /// for the rules files of its state; gitoxide's `Stack::from_state_and_ignore_case`.
    /// `ignore_case` folds ASCII letters, in rules and in the names of rules files. Fails only
    /// where memory is refused.
    pub fn from_state_and_ignore_case(
        alloc: Global,
        root: PathText,
        ignore_case: bool,
        state: State,
        index: &Index,
    ) -> Result<Stack, OutOfMemory>
        ensures { IfOk result (λ stack. stack ≡ stack_with_nothing_pushed root
            (case_by_ignore_case ignore_case) (rules_file_mappings_of_index
            (case_by_ignore_case ignore_case) (setup_of_held_attributes (held_attributes_of_state
            state)) (setup_of_held_ignore_rules (held_ignore_rules_of_state state)) index.now)
            (checkout_of_state state) (held_attributes_of_state state) (held_ignore_rules_of_state
            state)) }
    {
        let case = if ignore_case {
            Case::Fold
        } else {
            Case::Sensitive
        };
        let id_mappings = state.id_mappings_from_index(alloc, index, case)?;
        Ok(Stack::new(
            alloc,
            root,
            state,
            case,
            Bytes::new(alloc),
            id_mappings.into_vec(),
        ))
    }

    /// A stack that is made as this one was, with nothing pushed and nothing counted. It is in step
    /// with whatever is told. Fails only where memory is refused.
    pub fn fresh(&self, alloc: Global) -> Result<Stack, OutOfMemory>
        ensures fresh { IfOk result (λ stack. stack ≡ fresh self.now) }
        ensures made { IfOk result (λ stack. setup_of_stack stack ≡ setup_of_stack self.now) }
        ensures in_step { (s : TreeAndObjects) → IfOk result (λ stack. IsInStepWithTree s stack) }
    {
        Ok(Stack {
            stack: PathStack::new(alloc, PathText::from_bytes(alloc, self.base())?),
            state: self.state.fresh(alloc)?,
            case: self.case,
            buf: Bytes::new(alloc),
            id_mappings: self.id_mappings.copy(alloc)?,
            rules_path: PathText::new(alloc),
            whole_path: PathText::new(alloc),
            is_dir: None,
            is_answered: false,
            reject_terminal_symlinks: self.reject_terminal_symlinks,
            statistics: Statistics::default(),
        })
    }

    /// Sets a flag that nothing reads: gitoxide asks it on Windows, in checkout.
    pub fn enable_terminal_symlink_check(&mut self)
        ensures { self.new ≡ self.old }
    {
        self.reject_terminal_symlinks = true;
    }

    /// The worktree root.
    pub fn base(&self) -> &[u8]
        ensures { result.now ≡ self.now.root }
    {
        self.stack.root()
    }

    /// Whether the stack tells which paths are excluded.
    pub fn has_excludes(&self) -> bool
        ensures { result ≡ has_excludes (setup_of_stack self.now) }
    {
        self.state.ignore().is_some()
    }

    /// Whether the stack tells the attributes of paths.
    pub fn has_attributes(&self) -> bool
        ensures { result ≡ has_attributes (setup_of_stack self.now) }
    {
        self.state.attributes().is_some()
    }

    /// What was counted since the stack was made, or since the statistics were taken.
    pub fn statistics(&self) -> &Statistics
        ensures { result.now ≡ self.now.statistics }
    {
        &self.statistics
    }

    /// What was counted, from which on zeros are counted up again.
    pub fn take_statistics(&mut self) -> Statistics
        ensures taken { result ≡ self.old.statistics }
        ensures left { self.new ≡ record self.old { statistics = zero_statistics } }
    {
        let taken = self.statistics;
        self.statistics = Statistics::default();
        taken
    }

    /// What the stack keeps for its directories.
    pub fn state(&self) -> &State
        ensures checkout { checkout_of_state result.now ≡ self.now.checkout }
        ensures attributes { held_attributes_of_state result.now ≡ self.now.attributes }
        ensures ignore { held_ignore_rules_of_state result.now ≡ self.now.ignore }
    {
        &self.state
    }

    /// What the stack says of the path that was looked up last, where that lookup was answered.
    /// See docs/DECISIONS.md#platform-after-lookup.
    pub fn platform(&self) -> Platform<'_>
        requires { self.now.is_answered ≡ true }
        ensures { result ≡ self.now }
    {
        Platform::new(self)
    }

    /// The names of attributes that were seen, in the lists of the caller and in those that were
    /// read.
    pub fn attributes_collection(&self) -> &MetadataCollection
        requires { has_attributes (setup_of_stack self.now) ≡ true }
        ensures { result.now ≡ seen_attribute_names self.now.attributes }
    {
        match self.state.attributes() {
            Some(attributes) => attributes.collection_of_seen_names(),
            None => unreachable!(),
        }
    }

    /// The whole path that was looked up last.
    pub(crate) fn current(&self) -> &[u8]
        ensures { result.now ≡ root_joined_with_relative self.now.root (slash_joined_components
            self.now.current) }
    {
        self.stack.current()
    }

    /// What decides about the path that was looked up last.
    pub(crate) fn deciding_match(&self) -> Option<Decided<'_>>
        ensures { option_map decision_of_decided result ≡ deciding_match_if_rules_held
            self.now.ignore (slash_joined_components self.now.current) self.now.is_dir
            self.now.case }
    {
        match self.state.ignore() {
            Some(ignore) => ignore.deciding_match(
                self.stack.current_relative(),
                self.is_dir,
                self.case,
            ),
            None => None,
        }
    }

    /// Finds which attributes the path has that was looked up last, among those that `out` asks
    /// for.
    pub(crate) fn matching_attributes(
        &self,
        alloc: Global,
        out: &mut Outcome,
    ) -> Result<bool, OutOfMemory>
        requires { has_attributes (setup_of_stack self.now) ≡ true }
        ensures filled { OnOk result (out.new ≡ outcome_filled_for_path
            (global_and_held_lists self.now.attributes) (slash_joined_components self.now.current)
            self.now.is_dir self.now.case (outcome_reset_to_selection_or_names out.old
            (seen_attribute_names self.now.attributes))) }
        ensures finds { IfOk result (λ finds. finds ≡ is_any_state_found out.new.rows) }
        ensures refused { OnErr result (out.new ≡ empty_outcome) }
    {
        match self.state.attributes() {
            Some(attributes) => attributes.matching(
                alloc,
                self.stack.current_relative(),
                self.is_dir,
                self.case,
                out,
            ),
            None => Ok(false),
        }
    }

    /// An outcome that asks for the attributes that were seen so far, of which nothing is found
    /// yet. Fails only where memory is refused.
    pub fn attribute_matches(&self, alloc: Global) -> Result<Outcome, OutOfMemory>
        requires { has_attributes (setup_of_stack self.now) ≡ true }
        ensures { IfOk result (λ outcome. outcome ≡ outcome_reset_to_selection_or_names
            empty_outcome (seen_attribute_names self.now.attributes)) }
    {
        outcome_for_all_attributes(alloc, self.attributes_collection())
    }

    /// An outcome that asks for these attributes, in this order, of which nothing is found yet.
    /// Fails only where memory is refused.
    pub fn selected_attribute_matches(
        &self,
        alloc: Global,
        given: &[Bytes],
    ) -> Result<Outcome, OutOfMemory>
        requires { has_attributes (setup_of_stack self.now) ≡ true }
        ensures { IfOk result (λ outcome. outcome ≡ outcome_without_states true given.now) }
    {
        outcome_for_selected_attributes(alloc, given)
    }

    /// What the stack keeps for its directories, to be changed. Nothing is promised of directories
    /// that are pushed already.
    pub fn state_mut(&mut self) -> &mut State
        ensures* lends { sem 𝓛 (LendsState self.entry result) }
        ensures checkout { checkout_of_state result.now ≡ self.old.checkout }
        ensures attributes { held_attributes_of_state result.now ≡ self.old.attributes }
        ensures state { held_ignore_rules_of_state result.now ≡ self.old.ignore }
    {
        self.is_answered = false;
        &mut self.state
    }

    /// Lets letters compare otherwise. Nothing is promised of directories that are pushed already.
    pub fn set_case(&mut self, case: Case) -> &mut Stack
        ensures same { result.ghost_name ≡ self.entry.ghost_name }
        ensures state { result.now ≡ record self.old { case = case; is_answered = false } }
    {
        self.is_answered = false;
        self.case = case;
        self
    }

    /// Looks up a path, relative to the worktree root: pops the directories that are not above it
    /// and pushes those that are, reading the rules of each. [`Stack::platform`] then says what
    /// holds for it.
    ///
    /// Empty components mean nothing. `mode` is that of the path in an index, where it is known,
    /// and says whether the path is a directory. Whether anything is at the path makes no
    /// difference, but in checkout where the mode is that of a directory.
    ///
    /// Attributes are read before ignore rules, and the information file with the root, behind its
    /// own `.gitattributes`. The names of attributes are seen file by file and line by line, and
    /// stay seen, also after a refusal. `objects` are asked for the blobs that rules files are
    /// mapped to. The worktree is read at most as often as the readings of the directories ask it
    /// that are pushed, or were to be: not at all where rules come from mappings alone, but for the
    /// information file, and where the stack tells no attributes at most once for each. In the
    /// directory that is pushed already a lookup begins at the last name; no clause speaks of that.
    ///
    /// # Errors
    ///
    /// - `NotNormal`: exactly where the path begins with `/` or has a component `.` or `..`.
    ///   Nothing changes then but the count of lookups, and that `platform` may not be asked.
    /// - `RulesFile`: a rules file of a directory above the path, or of the root where the path is
    ///   empty, or the information file, is a link that is not followed, since it is mapped to a
    ///   blob or speaks of attributes (`Link`), leads along too many links (`LinkLimit`), is
    ///   neither file nor directory (`Special`), or could not be read, which the worktree counted
    ///   (`Fault`).
    /// - `Blob`: the blob that such a file is mapped to is not in the store (`Missing`), is no blob
    ///   (`NotABlob`), or could not be read, which the store counted (`Fault`).
    /// - `Component`: the next component to be pushed may not be checked out; those before it may.
    ///   This and the next two come in checkout alone.
    /// - `Collision`: a node that is no directory is where a directory is to be, and is not to be
    ///   removed; where names are composed also where the composed name is taken. See
    ///   docs/DECISIONS.md#checkout-composes.
    /// - `Directory`: there is no directory for another to be in (`NoParent`), or the worktree
    ///   failed, which it counted (`Fault`).
    /// - `OutOfMemory`: memory is refused.
    ///
    /// In checkout each component that is pushed is tested by [`crate::validate::component`], and
    /// then a directory is made there, unless it is the last one and the path is no directory by
    /// its mode: one that is there is kept, and another node, a link among them, is a collision, or
    /// is removed where the stack unlinks on collision. So the directories that are pushed below
    /// the root are there, and no link is among them, as long as nothing else changes the tree: one
    /// that stays pushed is not looked at again. In a worktree that composes names this holds of
    /// names that are composed already. The rules of a directory are read once it is made, in the
    /// tree as it is then. See docs/DECISIONS.md#checkout-rules-made.
    ///
    /// After `Component`, `Collision` and `Directory` the directories above that component are
    /// pushed; it is itself counted as pushed. After `Directory` with `Fault`, and after
    /// `OutOfMemory`, what was in the way may be gone.
    ///
    /// After `RulesFile` and `Blob` the directories above that one are pushed, and after
    /// `OutOfMemory` those up to some directory on the way; the next lookup goes on from there, and
    /// reads the information file where the root is still to be pushed. After any of these
    /// `platform` may not be asked until a lookup is answered.
    ///
    /// An answered lookup hides no fault: the worktree and the store have counted none.
    ///
    /// See docs/DECISIONS.md#attribute-names and docs/DIFFERENCES.md#gix-at-path.
    pub fn at_path<W: Worktree, F: Find>(
        &mut self,
        alloc: Global,
        relative: &[u8],
        mode: Option<Mode>,
        worktree: &mut W,
        objects: &mut F,
    ) -> Result<(), AtPathError>
        ensures looks_up { keeps_tree_in_lookups (setup_of_stack self.old) ≡ true
            → LooksUpPath W.Worktree F.Find worktree.old worktree.new objects.old objects.new
            relative.now (is_dir_by_mode mode) self.old self.new result }
        ensures checks_out { (checkout : Checkout) → self.old.checkout ≡ Some checkout
            → LooksUpMakingDirectories W.Worktree F.Find worktree.old worktree.new objects.old
            objects.new checkout relative.now (is_dir_by_mode mode) (is_symlink_by_mode mode)
            self.old self.new result }
        ensures answered { OnOk result (self.new.is_answered ≡ true) }
        ensures asked { W.reads worktree.new ≤ W.reads worktree.old +
            number_of_all_files_asked_by_calls (setup_of_stack self.old) (delegate_calls_of_lookup
            self.old.at (components relative.now)) }
        ensures leaves { LookupLeavesWorktree (keeps_tree_in_lookups (setup_of_stack self.old))
            W.Worktree worktree.old worktree.new }
        ensures leaves_store { KeepsStoredObjects F.Find objects.old objects.new }
        ensures unfaulted { OnOk result (W.faults worktree.new ≡ W.faults worktree.old) }
        ensures unfaulted_store { OnOk result (F.faults objects.new ≡ F.faults objects.old) }
        ensures held { (checkout : Checkout) → self.old.checkout ≡ Some checkout
            → (s : TreeAndObjects) → Tells (W.told worktree.old) (F.holds objects.old) s
            → OnOk result (KeepsLowestAppendsCheckoutLists (setup_of_stack self.old)
            (checkout_lookup_options checkout (W.precomposes worktree.old) self.old.root
            (is_dir_by_mode mode)) (mkdir_count_of_stack self.old) s (delegate_calls_of_lookup
            self.old.at (components relative.now)) self.old.attributes self.new.attributes) }
    {
        self.count_lookup();
        if !is_relative_without_dots(relative) {
            return Err(AtPathError::NotNormal);
        }
        let Some(checkout) = self.checkout() else {
            self.look_up_without_making_directories(alloc, relative, worktree, objects)?;
            self.mark_lookup_answered(mode);
            return Ok(());
        };
        self.look_up_making_directories(alloc, relative, checkout, mode, worktree, objects)?;
        self.mark_lookup_answered(mode);
        Ok(())
    }

    /// Looks up an entry of an index, as [`Stack::at_path`] does. Without a mode, a path that ends
    /// in a slash is a directory.
    ///
    /// # Errors
    ///
    /// Those of [`Stack::at_path`], each where it has them, and with what it says of the stack and
    /// the worktree then.
    pub fn at_entry<W: Worktree, F: Find>(
        &mut self,
        alloc: Global,
        relative: &[u8],
        mode: Option<Mode>,
        worktree: &mut W,
        objects: &mut F,
    ) -> Result<(), AtPathError>
        ensures looks_up { keeps_tree_in_lookups (setup_of_stack self.old) ≡ true
            → LooksUpPath W.Worktree F.Find worktree.old worktree.new objects.old objects.new
            relative.now (is_dir_by_mode_or_slash relative.now mode) self.old self.new result }
        ensures checks_out { (checkout : Checkout) → self.old.checkout ≡ Some checkout
            → LooksUpMakingDirectories W.Worktree F.Find worktree.old worktree.new objects.old
            objects.new checkout relative.now (is_dir_by_mode_or_slash relative.now mode)
            (is_symlink_by_mode mode) self.old self.new result }
        ensures answered { OnOk result (self.new.is_answered ≡ true) }
        ensures asked { W.reads worktree.new ≤ W.reads worktree.old +
            number_of_all_files_asked_by_calls (setup_of_stack self.old) (delegate_calls_of_lookup
            self.old.at (components relative.now)) }
        ensures leaves { LookupLeavesWorktree (keeps_tree_in_lookups (setup_of_stack self.old))
            W.Worktree worktree.old worktree.new }
        ensures leaves_store { KeepsStoredObjects F.Find objects.old objects.new }
        ensures unfaulted { OnOk result (W.faults worktree.new ≡ W.faults worktree.old) }
        ensures unfaulted_store { OnOk result (F.faults objects.new ≡ F.faults objects.old) }
        ensures held { (checkout : Checkout) → self.old.checkout ≡ Some checkout
            → (s : TreeAndObjects) → Tells (W.told worktree.old) (F.holds objects.old) s
            → OnOk result (KeepsLowestAppendsCheckoutLists (setup_of_stack self.old)
            (checkout_lookup_options checkout (W.precomposes worktree.old) self.old.root
            (is_dir_by_mode_or_slash relative.now mode)) (mkdir_count_of_stack self.old) s
            (delegate_calls_of_lookup self.old.at (components relative.now)) self.old.attributes
            self.new.attributes) }
    {
        self.at_path(
            alloc,
            relative,
            entry_mode(relative, mode),
            worktree,
            objects,
        )
    }
}
