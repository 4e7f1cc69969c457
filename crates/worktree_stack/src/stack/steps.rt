//! The steps of a lookup: what is pushed and popped on the way from one path to the next.
ghost use Rattle.std.specs.Prelude.{◌≡◌, ◌+◌, ◌++◌, ◌∷◌, [], true, false, length, drop, replicate, is_some, Option, Some, None, IfErr, IfSome, OnOk, OnErr};
ghost use Rattle.gitbase_core.specs.Path.{components};
ghost use Rattle.worktree_fs.specs.Causes.{CountIncreasedOrSaturated};
ghost use Rattle.worktree_fs.specs.Paths.{slash_joined_components, IsSinglePathComponent};
ghost use Rattle.worktree_fs.specs.PathStack.{deepest_components_or_root, parent_of_deepest_directory, number_of_directories_to_pop, delegate_calls_of_lookup, delegate_calls_to_push_root, delegate_calls_of_component, delegate_calls_of_components, push_directory, pop_directory};
ghost use Rattle.worktree_stack.specs.Counted.{with_lookup_counted, delegate_counts_after_call};
ghost use Rattle.worktree_stack.specs.Excludes.{proper_ancestor_directories};
ghost use Rattle.worktree_stack.specs.HeldOut.{AppendsListsOfCheckout};
ghost use Rattle.worktree_stack.specs.Lookups.{IsChildOfDirectory, is_dir_by_mode, is_dir_by_mode_or_slash, directories_kept_by_lookup, stack_after_pushing_component, one_if_refused};
ghost use Rattle.worktree_stack.specs.Making.{CheckoutLookupOptions, is_symlink_by_mode, mkdir_count_of_stack};
ghost use Rattle.worktree_stack.specs.Moments.{worktree_store_and_stack};
ghost use Rattle.worktree_stack.specs.Reading.{TreeAndObjects, Tells};
ghost use Rattle.worktree_stack.specs.Stacked.{setup_of_stack, pushed_directories};
ghost use Rattle.worktree_stack.specs.Setup.{held_attribute_lists};
ghost use Rattle.worktree_stack.specs.StackSteps.{ArrivesAtPathOrOnWay, ArrivesKeepingDeepest, PopsDirectoriesOnly, PushesRulesOfCurrent, DeepestIsDirectoryIfAnswered, BoundsWorktreeReads, KeepsStackInStepAndLevel, PushKeepsSetupAndTree, CarriesOutOrStopsCalls, SeesNamesReadByCalls};
ghost use Rattle.worktree_stack.specs.Steps.{CarriesOutCalls, StopsLookupByError};

use super::Stack;
use crate::AtPathError;
use gitbase_core::{Find, Mode, OutOfMemory, strip_directory_prefix};
use std::alloc::Global;
use worktree_fs::{Worktree, next_component};

impl Stack {
    /// Pops the deepest directory, with its rules.
    fn pop_directory(&mut self)
        // The deepest directory is the one above it.
        ensures at { self.new.at ≡ parent_of_deepest_directory self.old.at }
        // One directory is popped, and nothing else changes.
        ensures pops { PopsDirectoriesOnly (pop_directory ∷ []) self.old self.new }
    {
        self.state.pop_ignore_rules();
        self.state
            .pop_attributes_of_directory(self.stack.deepest_pushed_directory());
        self.stack.pop();
        self.count_popped_directory();
    }

    /// Counts a directory that is popped.
    fn count_popped_directory(&mut self)
        ensures { self.new ≡ record self.old {
          statistics = record self.old.statistics
              { delegate = delegate_counts_after_call self.old.statistics.delegate pop_directory };
        } }
    {
        let counts = &mut self.statistics.delegate;
        counts.pop_directory = counts.pop_directory.saturating_add(1);
    }

    /// Counts a directory that is to be pushed.
    pub(super) fn count_pushed_directory(&mut self)
        ensures { self.new ≡ record self.old {
          statistics = record self.old.statistics {
            delegate = delegate_counts_after_call self.old.statistics.delegate
                (push_directory (slash_joined_components self.old.current));
          };
        } }
    {
        let counts = &mut self.statistics.delegate;
        counts.push_directory = counts.push_directory.saturating_add(1);
    }

    /// Pops the directories that are not above a path.
    pub(super) fn pop_non_ancestor_directories(&mut self, relative: &[u8])
        // The directories that are above the path stay.
        ensures at { self.new.at ≡ directories_kept_by_lookup self.old.at
            (components relative.now) }
        // The others are popped, and nothing else changes.
        ensures pops { PopsDirectoriesOnly (replicate (number_of_directories_to_pop self.old.at
            (components relative.now)) pop_directory) self.old self.new }
        // Where all stay no list is dropped.
        ensures undropped { number_of_directories_to_pop self.old.at (components relative.now) ≡ 0
            → held_attribute_lists self.new.attributes ≡ held_attribute_lists self.old.attributes }
    {
        for _ in 0..self.count_directories_to_pop(relative) {
            self.pop_directory();
        }
    }

    /// Pushes the current path as a directory, with its rules. Where that is refused nothing is
    /// pushed, and the deepest directory is the current path. See
    /// docs/DECISIONS.md#refused-directory-counted.
    pub(super) fn push_directory<W: Worktree, F: Find>(
        &mut self,
        alloc: Global,
        worktree: &mut W,
        objects: &mut F,
    ) -> Result<(), AtPathError>
        // The stack stays as it was made, the tree as it was, and no fault is hidden.
        ensures keeps { PushKeepsSetupAndTree W.Worktree F.Find
            (worktree_store_and_stack worktree.old objects.old self.old)
            (worktree_store_and_stack worktree.new objects.new self.new) result }
        // The current path is the deepest directory then, and stays the current path.
        ensures stands { DeepestIsDirectoryIfAnswered self.old.current self.old self.new result }
        ensures current { OnOk result (self.new.current ≡ self.old.current) }
        // Its rules are pushed, or nothing is.
        ensures pushes { PushesRulesOfCurrent W.Worktree F.Find
            (worktree_store_and_stack worktree.old objects.old self.old)
            (worktree_store_and_stack worktree.new objects.new self.new) result }
        // The call is carried out behind those of the directories above, or refused for its cause.
        ensures carried { pushed_directories self.old.at ≡ proper_ancestor_directories
            self.old.current → OnOk result (CarriesOutCalls (W.told worktree.old)
            (F.holds objects.old) (push_directory (slash_joined_components self.old.current) ∷ [])
            self.old self.new) }
        ensures stopped { IfErr result (StopsLookupByError (W.told worktree.old)
            (F.holds objects.old) (CountIncreasedOrSaturated (W.faults worktree.old)
            (W.faults worktree.new)) (CountIncreasedOrSaturated (F.faults objects.old)
            (F.faults objects.new)) (push_directory (slash_joined_components self.old.current) ∷ [])
            self.old self.new) }
        // A stack in step stays so, and level, where the directories above are pushed.
        ensures holds { pushed_directories self.old.at ≡ proper_ancestor_directories
            self.old.current → KeepsStackInStepAndLevel W.Worktree F.Find (worktree_store_and_stack
            worktree.old objects.old self.old) (worktree_store_and_stack worktree.new objects.new
            self.new) }
        // How often the worktree is read.
        ensures asks { BoundsWorktreeReads W.Worktree
            (worktree_store_and_stack worktree.old objects.old self.old)
            (worktree_store_and_stack worktree.new objects.new self.new)
            (push_directory (slash_joined_components self.old.current) ∷ []) 0 1 }
    {
        if let Err(refused) = self.push_rules_of_current(alloc, worktree, objects) {
            self.make_deepest_current();
            return Err(refused);
        }
        self.push_current_without_rules();
        Ok(())
    }

    /// Makes the path current that lies one component below the deepest directory.
    pub(super) fn push(&mut self, alloc: Global, name: &[u8]) -> Result<(), OutOfMemory>
        requires { IsSinglePathComponent name.now }
        ensures made { OnOk result (self.new ≡ stack_after_pushing_component self.old name.now) }
        ensures refused { OnErr result
            (self.new ≡ record self.old { current = deepest_components_or_root self.old.at }) }
    {
        self.stack.set_current_to_child(alloc, name)?;
        let counts = &mut self.statistics.delegate;
        counts.push_element = counts.push_element.saturating_add(1);
        Ok(())
    }

    /// Makes the deepest directory the current path.
    pub(super) fn make_deepest_current(&mut self)
        ensures { self.new ≡ record self.old { current = deepest_components_or_root self.old.at } }
    {
        self.stack.make_deepest_current();
    }

    /// Pushes the current path, whose rules are pushed.
    fn push_current_without_rules(&mut self)
        ensures { self.new ≡ record self.old { at = Some self.old.current } }
    {
        self.stack.push_current_as_directory();
    }

    /// Whether the root is pushed.
    fn is_root_pushed(&self) -> bool
        ensures { result ≡ is_some self.now.at }
    {
        self.stack.is_root_pushed()
    }

    /// Pushes the root, unless it is pushed.
    pub(super) fn push_root_with_rules<W: Worktree, F: Find>(
        &mut self,
        alloc: Global,
        worktree: &mut W,
        objects: &mut F,
    ) -> Result<(), AtPathError>
        // The stack stays as it was made, the tree as it was, and no fault is hidden.
        ensures keeps { PushKeepsSetupAndTree W.Worktree F.Find
            (worktree_store_and_stack worktree.old objects.old self.old)
            (worktree_store_and_stack worktree.new objects.new self.new) result }
        // The root is the deepest directory then, unless one was pushed.
        ensures stands { DeepestIsDirectoryIfAnswered (deepest_components_or_root self.old.at)
            self.old self.new result }
        ensures none { OnErr result (self.old.at ≡ None) }
        // The calls are carried out, or one is refused for its cause.
        ensures moves { CarriesOutOrStopsCalls W.Worktree F.Find
            (worktree_store_and_stack worktree.old objects.old self.old)
            (worktree_store_and_stack worktree.new objects.new self.new)
            (delegate_calls_to_push_root self.old.at) result }
        // A stack in step stays so, and level.
        ensures holds { KeepsStackInStepAndLevel W.Worktree F.Find
            (worktree_store_and_stack worktree.old objects.old self.old)
            (worktree_store_and_stack worktree.new objects.new self.new) }
        // The names of attributes are seen of what is read.
        ensures sees { SeesNamesReadByCalls W.Worktree F.Find
            (worktree_store_and_stack worktree.old objects.old self.old)
            (worktree_store_and_stack worktree.new objects.new self.new)
            (delegate_calls_to_push_root self.old.at) result }
        // Its lists come above those that were held.
        ensures lists { (way : CheckoutLookupOptions) (s : TreeAndObjects)
            → Tells (W.told worktree.old) (F.holds objects.old) s
            → OnOk result (AppendsListsOfCheckout (setup_of_stack self.old) way
            (mkdir_count_of_stack self.old) s (delegate_calls_to_push_root self.old.at)
            self.old.attributes self.new.attributes) }
        // How often the worktree is read.
        ensures asks { BoundsWorktreeReads W.Worktree (worktree_store_and_stack worktree.old
            objects.old self.old) (worktree_store_and_stack worktree.new objects.new self.new)
            (delegate_calls_to_push_root self.old.at) 0
            (length (delegate_calls_to_push_root self.old.at)) }
    {
        if self.is_root_pushed() {
            return Ok(());
        }
        self.make_deepest_current();
        self.push_directory(alloc, worktree, objects)
    }

    /// Pushes the component below the deepest directory as a directory, with its rules.
    fn push_child_directory_with_rules<W: Worktree, F: Find>(
        &mut self,
        alloc: Global,
        name: &[u8],
        worktree: &mut W,
        objects: &mut F,
    ) -> Result<(), AtPathError>
        requires component { IsSinglePathComponent name.now }
        requires some { is_some self.old.at ≡ true }
        // The stack stays as it was made, the tree as it was, and no fault is hidden.
        ensures keeps { PushKeepsSetupAndTree W.Worktree F.Find
            (worktree_store_and_stack worktree.old objects.old self.old)
            (worktree_store_and_stack worktree.new objects.new self.new) result }
        // The component is the deepest directory then.
        ensures stands { DeepestIsDirectoryIfAnswered (deepest_components_or_root self.old.at ++
            name.now ∷ []) self.old self.new result }
        // The calls are carried out, or one is refused for its cause.
        ensures moves { CarriesOutOrStopsCalls W.Worktree F.Find (worktree_store_and_stack
            worktree.old objects.old self.old) (worktree_store_and_stack worktree.new objects.new
            self.new) (delegate_calls_of_component (deepest_components_or_root self.old.at) name.now
            false) result }
        // A stack in step stays so, and level.
        ensures holds { KeepsStackInStepAndLevel W.Worktree F.Find
            (worktree_store_and_stack worktree.old objects.old self.old)
            (worktree_store_and_stack worktree.new objects.new self.new) }
        // The names of attributes are seen of what is read.
        ensures sees { SeesNamesReadByCalls W.Worktree F.Find (worktree_store_and_stack worktree.old
            objects.old self.old) (worktree_store_and_stack worktree.new objects.new self.new)
            (delegate_calls_of_component (deepest_components_or_root self.old.at) name.now false)
            result }
        // How often the worktree is read.
        ensures asks { BoundsWorktreeReads W.Worktree (worktree_store_and_stack worktree.old
            objects.old self.old) (worktree_store_and_stack worktree.new objects.new self.new)
            (delegate_calls_of_component (deepest_components_or_root self.old.at) name.now false) 0
            1 }
    {
        self.push(alloc, name)?;
        self.push_directory(alloc, worktree, objects)
    }

    /// Pushes the components that are left of a path below the deepest directory, all but the last
    /// one with its rules.
    fn push_remaining_components<W: Worktree, F: Find>(
        &mut self,
        alloc: Global,
        left: &[u8],
        worktree: &mut W,
        objects: &mut F,
    ) -> Result<(), AtPathError>
        requires some { is_some self.old.at ≡ true }
        requires end { components left.now ≡ [] → deepest_components_or_root self.old.at ≡ [] }
        // The stack stays as it was made, the tree as it was, and no fault is hidden.
        ensures keeps { PushKeepsSetupAndTree W.Worktree F.Find
            (worktree_store_and_stack worktree.old objects.old self.old)
            (worktree_store_and_stack worktree.new objects.new self.new) result }
        // The stack stands at the path then, or on the way to it.
        ensures arrives { ArrivesKeepingDeepest (deepest_components_or_root self.old.at ++
            components left.now) self.old self.new result }
        // The calls are carried out, or one is refused for its cause.
        ensures moves { CarriesOutOrStopsCalls W.Worktree F.Find (worktree_store_and_stack
            worktree.old objects.old self.old) (worktree_store_and_stack worktree.new objects.new
            self.new) (delegate_calls_of_components (deepest_components_or_root self.old.at)
            (components left.now)) result }
        // A stack in step stays so, and level.
        ensures holds { KeepsStackInStepAndLevel W.Worktree F.Find
            (worktree_store_and_stack worktree.old objects.old self.old)
            (worktree_store_and_stack worktree.new objects.new self.new) }
        // The names of attributes are seen of what is read.
        ensures sees { SeesNamesReadByCalls W.Worktree F.Find (worktree_store_and_stack worktree.old
            objects.old self.old) (worktree_store_and_stack worktree.new objects.new self.new)
            (delegate_calls_of_components (deepest_components_or_root self.old.at)
            (components left.now)) result }
        // How often the worktree is read.
        ensures asks { BoundsWorktreeReads W.Worktree (worktree_store_and_stack worktree.old
            objects.old self.old) (worktree_store_and_stack worktree.new objects.new self.new)
            (delegate_calls_of_components (deepest_components_or_root self.old.at)
            (components left.now)) (length (deepest_components_or_root self.old.at))
            (length (deepest_components_or_root self.new.at) + one_if_refused result) }
    {
        let mut rest = left;
        while let Some(next) = next_component(rest) {
            if next.is_last {
                self.push(alloc, next.name)?;
                return Ok(());
            }
            self.push_child_directory_with_rules(alloc, next.name, worktree, objects)?;
            rest = next.rest;
        }
        self.make_deepest_current();
        Ok(())
    }

    /// Goes to a normal path.
    pub(super) fn look_up_without_making_directories<W: Worktree, F: Find>(
        &mut self,
        alloc: Global,
        relative: &[u8],
        worktree: &mut W,
        objects: &mut F,
    ) -> Result<(), AtPathError>
        // The stack stays as it was made, the tree as it was, and no fault is hidden.
        ensures keeps { PushKeepsSetupAndTree W.Worktree F.Find
            (worktree_store_and_stack worktree.old objects.old self.old)
            (worktree_store_and_stack worktree.new objects.new self.new) result }
        // The stack stands at the path then, or on the way to it.
        ensures arrives { ArrivesAtPathOrOnWay (components relative.now)
            (directories_kept_by_lookup self.old.at (components relative.now)) self.new result }
        // The calls are carried out, or one is refused for its cause.
        ensures moves { CarriesOutOrStopsCalls W.Worktree F.Find
            (worktree_store_and_stack worktree.old objects.old self.old)
            (worktree_store_and_stack worktree.new objects.new self.new)
            (delegate_calls_of_lookup self.old.at (components relative.now)) result }
        // A stack in step stays so, and level.
        ensures holds { KeepsStackInStepAndLevel W.Worktree F.Find
            (worktree_store_and_stack worktree.old objects.old self.old)
            (worktree_store_and_stack worktree.new objects.new self.new) }
        // The names of attributes are seen of what is read.
        ensures sees { SeesNamesReadByCalls W.Worktree F.Find
            (worktree_store_and_stack worktree.old objects.old self.old)
            (worktree_store_and_stack worktree.new objects.new self.new)
            (delegate_calls_of_lookup self.old.at (components relative.now)) result }
        // How often the worktree is read.
        ensures asks { BoundsWorktreeReads W.Worktree (worktree_store_and_stack worktree.old
            objects.old self.old) (worktree_store_and_stack worktree.new objects.new self.new)
            (delegate_calls_of_lookup self.old.at (components relative.now))
            (length (pushed_directories (directories_kept_by_lookup self.old.at
            (components relative.now)))) (length (pushed_directories self.new.at) + one_if_refused
            result) }
    {
        self.push_root_with_rules(alloc, worktree, objects)?;
        self.pop_non_ancestor_directories(relative);
        let left = self.components_to_push(relative);
        self.push_remaining_components(alloc, left, worktree, objects)
    }

    /// What is left of a path behind as many components as the deepest directory has.
    pub(super) fn components_to_push<'p>(&self, relative: &'p [u8]) -> &'p [u8]
        ensures { components result.now ≡ drop (length (deepest_components_or_root self.now.at))
            (components relative.now) }
    {
        if let Some(rest) = single_component_below(
            self.stack.deepest_pushed_directory(),
            relative,
        ) {
            return rest;
        }
        self.stack.components_to_push(relative)
    }

    /// How many of the directories that are pushed are not above a path.
    fn count_directories_to_pop(&self, relative: &[u8]) -> usize
        ensures { result ≡ number_of_directories_to_pop self.now.at (components relative.now) }
    {
        if single_component_below(self.stack.deepest_pushed_directory(), relative).is_some() {
            return 0;
        }
        self.stack.count_directories_to_pop(relative)
    }

    /// Counts a lookup, which is not answered yet.
    pub(super) fn count_lookup(&mut self)
        ensures { self.new ≡ with_lookup_counted self.old }
    {
        self.is_answered = false;
        self.statistics.platforms = self.statistics.platforms.saturating_add(1);
    }

    /// Answers for the current path, with whether it is a directory.
    pub(super) fn mark_lookup_answered(&mut self, mode: Option<Mode>)
        ensures { self.new ≡ record self.old { is_dir = is_dir_by_mode mode; is_answered = true } }
    {
        self.is_dir = mode_is_dir(mode);
        self.is_answered = true;
    }
}

/// Whether a path of this mode is a directory: submodules and the directories of a sparse index
/// are.
pub(super) fn mode_is_dir(mode: Option<Mode>) -> Option<bool>
    ensures { result ≡ is_dir_by_mode mode }
{
    match mode {
        Some(mode) => Some(mode.is_submodule() || mode.is_sparse()),
        None => None,
    }
}

/// The mode of an entry of an index: without one, a path that ends in a slash is a directory.
pub(super) fn entry_mode(relative: &[u8], mode: Option<Mode>) -> Option<Mode>
    ensures is_dir { is_dir_by_mode result ≡ is_dir_by_mode_or_slash relative.now mode }
    ensures is_link { is_symlink_by_mode result ≡ is_symlink_by_mode mode }
{
    match mode {
        Some(mode) => Some(mode),
        None => if relative.ends_with(b"/") {
            Some(Mode::DIR)
        } else {
            None
        },
    }
}

/// What a path has behind a directory, where that is one component: in the directory that is pushed
/// already, a lookup begins with it.
fn single_component_below<'p>(directory: &[u8], path: &'p [u8]) -> Option<&'p [u8]>
    ensures { IfSome result (λ name. IsChildOfDirectory (components directory.now)
        (components path.now) (components name.now)) }
{
    match strip_directory_prefix(path, directory) {
        Some(rest) if is_one_component(rest) => Some(rest),
        _ => None,
    }
}

/// Whether a path has one component.
fn is_one_component(path: &[u8]) -> bool
    ensures { result ≡ true → length (components path.now) ≡ 1 }
{
    match next_component(path) {
        Some(next) => next.is_last,
        None => false,
    }
}
