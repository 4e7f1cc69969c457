//! The steps of a lookup that makes the directories on its way, in a checkout.
ghost use Rattle.std.specs.Prelude.{◌≡◌, ◌++◌, ◌∷◌, [], true, false, is_some, None, OnOk};
ghost use Rattle.gitbase_core.specs.Path.{components};
ghost use Rattle.worktree_fs.specs.Paths.{IsSinglePathComponent};
ghost use Rattle.worktree_fs.specs.PathStack.{deepest_components_or_root, push, delegate_calls_of_component, delegate_calls_of_components, delegate_calls_of_lookup};
ghost use Rattle.worktree_stack.specs.ChecksOut.{components_pushed_by_lookup};
ghost use Rattle.worktree_stack.specs.GoesOn.{RunsCheckoutCalls, KeepsStackInStep, LookupKeepsHeldRules, StepKeepsHeldRules, LeavesLastComponentDirectory, PushesComponentInCheckout, ValidatesAndMakesCurrentComponent, must_be_directory};
ghost use Rattle.worktree_stack.specs.HeldOut.{AppendsListsOfCheckout, KeepsLowestAppendsCheckoutLists};
ghost use Rattle.worktree_stack.specs.Lookups.{is_dir_by_mode, directories_kept_by_lookup};
ghost use Rattle.worktree_stack.specs.Making.{is_symlink_by_mode, mkdir_count_of_stack, checkout_lookup_options};
ghost use Rattle.worktree_stack.specs.Moments.{HidesNoFault, worktree_store_and_stack};
ghost use Rattle.worktree_stack.specs.Reading.{TreeAndObjects, Tells};
ghost use Rattle.worktree_stack.specs.StackSteps.{ArrivesAtPathOrOnWay, ArrivesKeepingDeepest, DeepestIsDirectoryIfAnswered};
ghost use Rattle.worktree_stack.specs.Stacked.{setup_of_stack};

use super::Stack;
use super::steps::mode_is_dir;
use crate::AtPathError;
use crate::delegate::create_leading_directory;
use crate::state::Checkout;
use crate::validate::component;
use gitbase_core::{Find, Mode};
use std::alloc::Global;
use worktree_fs::{Worktree, next_component};

impl Stack {
    /// How directories are made on the way to a path, where they are.
    pub(super) fn checkout(&self) -> Option<Checkout>
        ensures checkout { result ≡ self.now.checkout }
        ensures alone { is_some result ≡ true → self.now.ignore ≡ None }
    {
        self.state.checkout()
    }

    /// Tests the component that is the last one of the current path, and sees to it that a
    /// directory is there, where one is to be.
    fn validate_component_and_make_directory<W: Worktree>(
        &mut self,
        alloc: Global,
        name: &[u8],
        is_last: bool,
        checkout: Checkout,
        mode: Option<Mode>,
        worktree: &mut W,
    ) -> Result<(), AtPathError>
        ensures { ValidatesAndMakesCurrentComponent W.Worktree worktree.old worktree.new
            (checkout_lookup_options checkout (W.precomposes worktree.old) self.old.root
            (is_dir_by_mode mode)) (is_symlink_by_mode mode) checkout.validate.protect_windows
            name.now is_last self.old self.new result }
    {
        if let Err(why) = component(name, is_symlink_mode(mode), checkout.validate) {
            return Err(AtPathError::Component(why));
        }
        if !must_be_directory(is_last, mode) {
            return Ok(());
        }
        create_leading_directory(
            alloc,
            self.stack.current(),
            checkout.unlink_on_collision,
            worktree,
            &mut self.statistics.delegate.num_mkdir_calls,
        )
    }

    /// Makes the path current that lies one component below the deepest directory, where it may be
    /// checked out. Where that is refused the deepest directory is the current path. See
    /// docs/DECISIONS.md#checkout-refused-push.
    fn push_component_in_checkout<W: Worktree>(
        &mut self,
        alloc: Global,
        name: &[u8],
        is_last: bool,
        checkout: Checkout,
        mode: Option<Mode>,
        worktree: &mut W,
    ) -> Result<(), AtPathError>
        requires { IsSinglePathComponent name.now }
        ensures { PushesComponentInCheckout W.Worktree worktree.old worktree.new
            (checkout_lookup_options checkout (W.precomposes worktree.old) self.old.root
            (is_dir_by_mode mode)) (is_symlink_by_mode mode) checkout.validate.protect_windows
            name.now is_last self.old self.new result }
    {
        self.push(alloc, name)?;
        if let Err(refused) = self.validate_component_and_make_directory(
            alloc, name, is_last, checkout, mode, worktree,
        ) {
            self.make_deepest_current();
            return Err(refused);
        }
        Ok(())
    }

    /// Pushes the component below the deepest directory as a directory that is there, with its
    /// rules.
    fn push_directory_in_checkout<W: Worktree, F: Find>(
        &mut self,
        alloc: Global,
        name: &[u8],
        checkout: Checkout,
        mode: Option<Mode>,
        worktree: &mut W,
        objects: &mut F,
    ) -> Result<(), AtPathError>
        requires component { IsSinglePathComponent name.now }
        requires some { is_some self.old.at ≡ true }
        // What is pushed, made, read and counted, and why it is refused.
        ensures goes { RunsCheckoutCalls W.Worktree F.Find worktree.old worktree.new objects.old
            objects.new (checkout_lookup_options checkout (W.precomposes worktree.old) self.old.root
            (is_dir_by_mode mode)) (is_symlink_by_mode mode) checkout.validate.protect_windows
            (delegate_calls_of_component (deepest_components_or_root self.old.at) name.now false)
            (name.now ∷ []) self.old self.new result }
        // The component is the deepest directory then.
        ensures stands { DeepestIsDirectoryIfAnswered (deepest_components_or_root self.old.at ++
            name.now ∷ []) self.old self.new result }
        // What is held stays what the tree has that is made.
        ensures keeps { StepKeepsHeldRules W.Worktree F.Find worktree.old worktree.new objects.old
            (checkout_lookup_options checkout (W.precomposes worktree.old) self.old.root
            (is_dir_by_mode mode)) (name.now ∷ []) self.old self.new result }
        // An answer hides no fault.
        ensures unfaulted { HidesNoFault W.Worktree F.Find
            (worktree_store_and_stack worktree.old objects.old self.old)
            (worktree_store_and_stack worktree.new objects.new self.new) result }
        // The lists of each directory are those of the tree that it was made in.
        ensures held { (s : TreeAndObjects) → Tells (W.told worktree.old) (F.holds objects.old) s
            → OnOk result (AppendsListsOfCheckout (setup_of_stack self.old) (checkout_lookup_options
            checkout (W.precomposes worktree.old) self.old.root (is_dir_by_mode mode))
            (mkdir_count_of_stack self.old) s (delegate_calls_of_component
            (deepest_components_or_root self.old.at) name.now false) self.old.attributes
            self.new.attributes) }
    {
        self.push_component_in_checkout(alloc, name, false, checkout, mode, worktree)?;
        self.push_directory(alloc, worktree, objects)
    }

    /// Pushes the components that are left of a path below the deepest directory, all but the last
    /// one as directories that are there, with their rules.
    fn push_remaining_in_checkout<W: Worktree, F: Find>(
        &mut self,
        alloc: Global,
        left: &[u8],
        checkout: Checkout,
        mode: Option<Mode>,
        worktree: &mut W,
        objects: &mut F,
    ) -> Result<(), AtPathError>
        requires some { is_some self.old.at ≡ true }
        requires end { components left.now ≡ [] → deepest_components_or_root self.old.at ≡ [] }
        // What is pushed, made, read and counted, and why it is refused.
        ensures goes { RunsCheckoutCalls W.Worktree F.Find worktree.old worktree.new objects.old
            objects.new (checkout_lookup_options checkout (W.precomposes worktree.old) self.old.root
            (is_dir_by_mode mode)) (is_symlink_by_mode mode) checkout.validate.protect_windows
            (delegate_calls_of_components (deepest_components_or_root self.old.at)
            (components left.now)) (components left.now) self.old self.new result }
        // The stack stands at the path then, or on the way to it.
        ensures arrives { ArrivesKeepingDeepest (deepest_components_or_root self.old.at ++
            components left.now) self.old self.new result }
        // What is held is what the tree has that is there in the end.
        ensures keeps { LookupKeepsHeldRules W.Worktree F.Find worktree.old worktree.new objects.old
            (checkout_lookup_options checkout (W.precomposes worktree.old) self.old.root
            (is_dir_by_mode mode)) (components left.now) self.old self.new result }
        // The last component is a directory then, where it is to be one.
        ensures last { LeavesLastComponentDirectory W.Worktree worktree.new (checkout_lookup_options
            checkout (W.precomposes worktree.old) self.old.root (is_dir_by_mode mode))
            (deepest_components_or_root self.old.at) (components left.now) result }
        // An answer hides no fault.
        ensures unfaulted { HidesNoFault W.Worktree F.Find
            (worktree_store_and_stack worktree.old objects.old self.old)
            (worktree_store_and_stack worktree.new objects.new self.new) result }
        // The lists of each directory are those of the tree that it was made in.
        ensures held { (s : TreeAndObjects) → Tells (W.told worktree.old) (F.holds objects.old) s
            → OnOk result (AppendsListsOfCheckout (setup_of_stack self.old) (checkout_lookup_options
            checkout (W.precomposes worktree.old) self.old.root (is_dir_by_mode mode))
            (mkdir_count_of_stack self.old) s (delegate_calls_of_components
            (deepest_components_or_root self.old.at) (components left.now)) self.old.attributes
            self.new.attributes) }
    {
        let mut rest = left;
        while let Some(next) = next_component(rest) {
            if next.is_last {
                return self.push_component_in_checkout(
                    alloc, next.name, true, checkout, mode, worktree,
                );
            }
            self.push_directory_in_checkout(alloc, next.name, checkout, mode, worktree, objects)?;
            rest = next.rest;
        }
        self.make_deepest_current();
        Ok(())
    }

    /// Goes to a normal path, and makes the directories on the way to it.
    /// See docs/DECISIONS.md#checkout-composes.
    /// See docs/DECISIONS.md#checkout-removes-rules.
    pub(super) fn look_up_making_directories<W: Worktree, F: Find>(
        &mut self,
        alloc: Global,
        relative: &[u8],
        checkout: Checkout,
        mode: Option<Mode>,
        worktree: &mut W,
        objects: &mut F,
    ) -> Result<(), AtPathError>
        // What is pushed, made, read and counted, and why it is refused.
        ensures goes { RunsCheckoutCalls W.Worktree F.Find worktree.old worktree.new objects.old
            objects.new (checkout_lookup_options checkout (W.precomposes worktree.old) self.old.root
            (is_dir_by_mode mode)) (is_symlink_by_mode mode) checkout.validate.protect_windows
            (delegate_calls_of_lookup self.old.at (components relative.now))
            (components_pushed_by_lookup self.old.at (components relative.now)) self.old self.new
            result }
        // The stack stands at the path then, or on the way to it.
        ensures arrives { ArrivesAtPathOrOnWay (components relative.now)
            (directories_kept_by_lookup self.old.at (components relative.now)) self.new result }
        // A stack in step stays so, and its directories are there.
        ensures within { KeepsStackInStep W.Worktree F.Find worktree.old worktree.new objects.old
            objects.new (checkout_lookup_options checkout (W.precomposes worktree.old) self.old.root
            (is_dir_by_mode mode)) (components relative.now) (components_pushed_by_lookup
            self.old.at (components relative.now)) self.old self.new result }
        // An answer hides no fault.
        ensures unfaulted { HidesNoFault W.Worktree F.Find
            (worktree_store_and_stack worktree.old objects.old self.old)
            (worktree_store_and_stack worktree.new objects.new self.new) result }
        // The lists of each directory are those of the tree that it was made in.
        ensures held { (s : TreeAndObjects) → Tells (W.told worktree.old) (F.holds objects.old) s
            → OnOk result (KeepsLowestAppendsCheckoutLists (setup_of_stack self.old)
            (checkout_lookup_options checkout (W.precomposes worktree.old) self.old.root
            (is_dir_by_mode mode)) (mkdir_count_of_stack self.old) s (delegate_calls_of_lookup
            self.old.at (components relative.now)) self.old.attributes self.new.attributes) }
    {
        self.push_root_with_rules(alloc, worktree, objects)?;
        self.pop_non_ancestor_directories(relative);
        let left = self.components_to_push(relative);
        self.push_remaining_in_checkout(alloc, left, checkout, mode, worktree, objects)
    }
}

/// Whether a link is to be made at a path.
fn is_symlink_mode(mode: Option<Mode>) -> bool
    ensures { result ≡ is_symlink_by_mode mode }
{
    match mode {
        Some(mode) => mode == Mode::SYMLINK,
        None => false,
    }
}

/// Whether a directory is to be at a component.
fn must_be_directory(is_last: bool, mode: Option<Mode>) -> bool
    ensures { result ≡ must_be_directory is_last (is_dir_by_mode mode) }
{
    !is_last || mode_is_dir(mode) == Some(true)
}
