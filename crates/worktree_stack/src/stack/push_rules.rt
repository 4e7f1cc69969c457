//! What is pushed for a directory: what is said of attributes, and then the rules that exclude
//! paths.
ghost use Rattle.std.specs.Prelude.{◌≡◌, ◌++◌, IfOk, OnOk, OnErr};
ghost use Rattle.glob_rules.specs.AttributeNames.{AddsSomeFirstNames};
ghost use Rattle.gitbase_core.specs.Path.{is_empty};
ghost use Rattle.worktree_fs.specs.Paths.{all_prefixes_shortest_first, slash_joined_components};
ghost use Rattle.worktree_fs.specs.PathStack.{push_directory};
ghost use Rattle.worktree_stack.specs.Counted.{delegate_counts_after_call};
ghost use Rattle.worktree_stack.specs.Excludes.{proper_ancestor_directories};
ghost use Rattle.worktree_stack.specs.Moments.{HidesNoFault, worktree_store_and_stack};
ghost use Rattle.worktree_stack.specs.Placed.{AnswersReadings};
ghost use Rattle.worktree_stack.specs.Reading.{TreeAndObjects, Tells, attribute_readings_of_directory, gitattributes_readings_of_directory, info_file_readings_of_setup, ignore_readings_of_directory, readings_of_directory, rulebook_of_stack_setup, ignore_rules_of_text, rules_text_if_found, attribute_list_of_text, attribute_lists_of_setup, gitattributes_lists_of_setup, info_file_lists_of_setup};
ghost use Rattle.worktree_stack.specs.SeenNames.{AppendsReadNamesAsSeen, info_file_names_of_setup, attribute_names_of_text, attribute_names_of_setup, gitattributes_names_of_setup};
ghost use Rattle.worktree_stack.specs.Setup.{gitattributes_file_name, setup_of_held_attributes, held_attribute_lists, seen_attribute_names, push_list, HasListsAppended};
ghost use Rattle.worktree_stack.specs.StackSteps.{KeepsStackExceptRulesAndReadCounts, PushesRulesOfCurrent};
ghost use Rattle.worktree_stack.specs.Stacked.{HoldsRulesOfTree, HoldsIgnoreRulesOfTree, CountsMatchDirectories, HasRulesCountOfDirectories, held_attributes_of_state, checkout_of_state, held_ignore_rules_of_state, number_of_info_lists_of_setup, number_of_gitattributes_lists, number_of_lists_of_directory, setup_of_stack};

use super::Stack;
use super::read_text::{read_first_text_in_order, set_rules_and_whole_paths};
use crate::matched::Matched;
use crate::order::{Order, attributes_read_order, ignore_read_order};
use crate::{AtPathError, State};
use gitbase_core::{Bytes, Find, OutOfMemory, PathText};
use glob_rules::ignore::{List, ParseIgnore};
use std::alloc::Global;
use worktree_fs::Worktree;

impl Stack {
    /// The ignore rules of the current path as a directory.
    fn read_ignore_rules_of_current<W: Worktree, F: Find>(
        &mut self,
        alloc: Global,
        worktree: &mut W,
        objects: &mut F,
    ) -> Result<List, AtPathError>
        // Only what is read of ignore rules is counted.
        ensures same { self.new ≡ record self.old {
          statistics = record self.old.statistics
              { ignore = self.new.statistics.ignore };
        } }
        // The rules are those that are told.
        ensures rules { (s : TreeAndObjects) → Tells (W.told worktree.old) (F.holds objects.old) s
            → IfOk result (λ list. (rulebook_of_stack_setup (setup_of_stack self.old)
            s).of_directory self.old.current ≡ list) }
        // What is read and counted, and why it is refused.
        ensures reads { AnswersReadings W.Worktree F.Find worktree.old worktree.new objects.old
            objects.new (ignore_readings_of_directory (setup_of_stack self.old)
            (setup_of_stack self.old).ignore (slash_joined_components self.old.current))
            self.old.statistics self.new.statistics result }
        // An answer hides no fault.
        ensures unfaulted { HidesNoFault W.Worktree F.Find
            (worktree_store_and_stack worktree.old objects.old self.old)
            (worktree_store_and_stack worktree.new objects.new self.new) result }
    {
        let Some(ignore) = self.state.ignore() else {
            return Ok(List::new(alloc));
        };
        let directory = self.stack.current_relative();
        set_rules_and_whole_paths(
            alloc,
            &mut self.rules_path,
            &mut self.whole_path,
            self.stack.root(),
            directory,
            ignore.file_name(),
        )?;
        let path = self.rules_path.as_bytes();
        let order = ignore_read_order(ignore.source(), self.id_mappings.blob_id_of_path(path));
        let source = read_first_text_in_order(
            alloc,
            worktree,
            objects,
            order,
            self.whole_path.as_bytes(),
            path,
            &mut self.buf,
            &mut self.statistics.ignore,
        )?;
        Ok(list_of(alloc, source, &self.buf, directory, ignore.parse())?)
    }

    /// Pushes the ignore rules of the current path and its own match, without the path.
    fn push_ignore_rules_of_current<W: Worktree, F: Find>(
        &mut self,
        alloc: Global,
        worktree: &mut W,
        objects: &mut F,
    ) -> Result<(), AtPathError>
        // Only the ignore rules change, and what is counted of them.
        ensures same { self.new ≡ record self.old {
          ignore = self.new.ignore;
          statistics = record self.old.statistics
              { ignore = self.new.statistics.ignore };
        } }
        // The stack stays as it was made.
        ensures made { setup_of_stack self.new ≡ setup_of_stack self.old }
        // Refused, none is pushed.
        ensures held { OnErr result (self.new.ignore ≡ self.old.ignore) }
        // What is held is what is told of all directories above, and of the path itself.
        ensures rules { (s : TreeAndObjects) → Tells (W.told worktree.old) (F.holds objects.old) s
            → HoldsIgnoreRulesOfTree (setup_of_stack self.old) s (proper_ancestor_directories
            self.old.current) self.old.ignore
            → OnOk result (HoldsIgnoreRulesOfTree (setup_of_stack self.old) s
            (all_prefixes_shortest_first self.old.current) self.new.ignore) }
        // There are as many lists and matches as directories.
        ensures levels { HasRulesCountOfDirectories (proper_ancestor_directories self.old.current)
            self.old.ignore → OnOk result (HasRulesCountOfDirectories (all_prefixes_shortest_first
            self.old.current) self.new.ignore) }
        // What is read and counted, and why it is refused.
        ensures reads { AnswersReadings W.Worktree F.Find worktree.old worktree.new objects.old
            objects.new (ignore_readings_of_directory (setup_of_stack self.old)
            (setup_of_stack self.old).ignore (slash_joined_components self.old.current))
            self.old.statistics self.new.statistics result }
        // An answer hides no fault.
        ensures unfaulted { HidesNoFault W.Worktree F.Find
            (worktree_store_and_stack worktree.old objects.old self.old)
            (worktree_store_and_stack worktree.new objects.new self.new) result }
    {
        if !self.has_excludes() {
            return Ok(());
        }
        let directory = self.stack.current_relative();
        let matched = Matched::copy_own_match_of_directory(
            alloc,
            self.state.ignore(),
            directory,
            self.case,
        )?;
        let list = self.read_ignore_rules_of_current(alloc, worktree, objects)?;
        self.state.push_directory(alloc, list, matched)?;
        Ok(())
    }

    /// Pushes the list of the current path's own `.gitattributes`.
    fn push_gitattributes_of_current<W: Worktree, F: Find>(
        &mut self,
        alloc: Global,
        worktree: &mut W,
        objects: &mut F,
    ) -> Result<(), AtPathError>
        // Only the attributes change, and what is counted of them.
        ensures same { self.new ≡ record self.old {
          attributes = self.new.attributes;
          statistics = record self.old.statistics
              { attributes = self.new.statistics.attributes };
        } }
        // The state stays as it was made.
        ensures setup { setup_of_held_attributes self.new.attributes ≡ setup_of_held_attributes
            self.old.attributes }
        // Refused, no list is pushed.
        ensures held { OnErr result (held_attribute_lists self.new.attributes ≡ held_attribute_lists
            self.old.attributes) }
        // The lists that are told come above those that were held.
        ensures lists { (s : TreeAndObjects) → Tells (W.told worktree.old) (F.holds objects.old) s
            → OnOk result (held_attribute_lists self.new.attributes ≡ held_attribute_lists
            self.old.attributes ++ gitattributes_lists_of_setup (setup_of_stack self.old)
            (setup_of_stack self.old).attributes s (slash_joined_components self.old.current)) }
        // Whatever is told, so many come.
        ensures many { OnOk result (HasListsAppended (number_of_gitattributes_lists
            (setup_of_stack self.old).attributes) (held_attribute_lists self.old.attributes)
            (held_attribute_lists self.new.attributes)) }
        // The names are seen that were read.
        ensures names { AppendsReadNamesAsSeen (W.told worktree.old) (F.holds objects.old)
            (λ s. gitattributes_names_of_setup (setup_of_stack self.old)
            (setup_of_stack self.old).attributes s (slash_joined_components self.old.current))
            self.old.attributes self.new.attributes result }
        // What is read and counted, and why it is refused.
        ensures reads { AnswersReadings W.Worktree F.Find worktree.old worktree.new objects.old
            objects.new (gitattributes_readings_of_directory (setup_of_stack self.old)
            (setup_of_stack self.old).attributes (slash_joined_components self.old.current))
            self.old.statistics self.new.statistics result }
        // An answer hides no fault.
        ensures unfaulted { HidesNoFault W.Worktree F.Find
            (worktree_store_and_stack worktree.old objects.old self.old)
            (worktree_store_and_stack worktree.new objects.new self.new) result }
    {
        let Some(attributes) = self.state.attributes() else {
            return Ok(());
        };
        let directory = self.stack.current_relative();
        set_rules_and_whole_paths(
            alloc,
            &mut self.rules_path,
            &mut self.whole_path,
            self.stack.root(),
            directory,
            gitattributes_file_name(),
        )?;
        let path = self.rules_path.as_bytes();
        let order = attributes_read_order(
            attributes.source(),
            self.id_mappings.blob_id_of_path(path),
        );
        let source = read_first_text_in_order(
            alloc,
            worktree,
            objects,
            order,
            self.whole_path.as_bytes(),
            path,
            &mut self.buf,
            &mut self.statistics.attributes,
        )?;
        push_list_of_read_attributes(
            &mut self.state,
            alloc,
            source,
            &self.buf,
            directory,
            is_worktree_root(directory),
        )?;
        Ok(())
    }

    /// Pushes the list of the info file, where the current path is the root and there is such a
    /// file.
    fn push_info_attributes_at_root<W: Worktree, F: Find>(
        &mut self,
        alloc: Global,
        worktree: &mut W,
        objects: &mut F,
    ) -> Result<(), AtPathError>
        // Only the attributes change, and what is counted of them.
        ensures same { self.new ≡ record self.old {
          attributes = self.new.attributes;
          statistics = record self.old.statistics
              { attributes = self.new.statistics.attributes };
        } }
        // The state stays as it was made.
        ensures setup { setup_of_held_attributes self.new.attributes ≡ setup_of_held_attributes
            self.old.attributes }
        // Refused, no list is pushed.
        ensures held { OnErr result (held_attribute_lists self.new.attributes ≡ held_attribute_lists
            self.old.attributes) }
        // The lists that are told come above those that were held.
        ensures lists { (s : TreeAndObjects) → Tells (W.told worktree.old) (F.holds objects.old) s
            → OnOk result (held_attribute_lists self.new.attributes ≡ held_attribute_lists
            self.old.attributes ++ info_file_lists_of_setup (setup_of_stack self.old).attributes s
            (slash_joined_components self.old.current)) }
        // Whatever is told, so many come.
        ensures many { OnOk result (HasListsAppended (number_of_info_lists_of_setup
            (setup_of_stack self.old).attributes (slash_joined_components self.old.current))
            (held_attribute_lists self.old.attributes) (held_attribute_lists self.new.attributes)) }
        // The names are seen that were read.
        ensures names { AppendsReadNamesAsSeen (W.told worktree.old) (F.holds objects.old)
            (λ s. info_file_names_of_setup (setup_of_stack self.old).attributes s
            (slash_joined_components self.old.current)) self.old.attributes self.new.attributes
            result }
        // What is read and counted, and why it is refused.
        ensures reads { AnswersReadings W.Worktree F.Find worktree.old worktree.new objects.old
            objects.new (info_file_readings_of_setup (setup_of_stack self.old).attributes
            (slash_joined_components self.old.current)) self.old.statistics self.new.statistics
            result }
        // An answer hides no fault.
        ensures unfaulted { HidesNoFault W.Worktree F.Find
            (worktree_store_and_stack worktree.old objects.old self.old)
            (worktree_store_and_stack worktree.new objects.new self.new) result }
    {
        let Some(attributes) = self.state.attributes() else {
            return Ok(());
        };
        let Some(path) = attributes.info() else {
            return Ok(());
        };
        let directory = self.stack.current_relative();
        if !is_worktree_root(directory) {
            return Ok(());
        }
        let path = path.as_bytes();
        let source = read_first_text_in_order(
            alloc,
            worktree,
            objects,
            Order::Worktree { follow: true },
            path,
            path,
            &mut self.buf,
            &mut self.statistics.attributes,
        )?;
        push_list_of_read_attributes(&mut self.state, alloc, source, &self.buf, directory, true)?;
        Ok(())
    }

    /// Pushes what is said of attributes in the current path, without the path; at the root also
    /// what the info file says.
    fn push_attributes_of_current<W: Worktree, F: Find>(
        &mut self,
        alloc: Global,
        worktree: &mut W,
        objects: &mut F,
    ) -> Result<(), AtPathError>
        // Only the attributes change, and what is counted of them.
        ensures same { self.new ≡ record self.old {
          attributes = self.new.attributes;
          statistics = record self.old.statistics
              { attributes = self.new.statistics.attributes };
        } }
        // The state stays as it was made.
        ensures setup { setup_of_held_attributes self.new.attributes ≡ setup_of_held_attributes
            self.old.attributes }
        // Refused, no list is pushed.
        ensures held { OnErr result (held_attribute_lists self.new.attributes ≡ held_attribute_lists
            self.old.attributes) }
        // The lists that are told come above those that were held.
        ensures lists { (s : TreeAndObjects) → Tells (W.told worktree.old) (F.holds objects.old) s
            → OnOk result (held_attribute_lists self.new.attributes ≡ held_attribute_lists
            self.old.attributes ++ attribute_lists_of_setup (setup_of_stack self.old)
            (setup_of_stack self.old).attributes s (slash_joined_components self.old.current)) }
        // Whatever is told, so many come.
        ensures many { OnOk result (HasListsAppended (number_of_lists_of_directory
            (setup_of_stack self.old).attributes (slash_joined_components self.old.current))
            (held_attribute_lists self.old.attributes) (held_attribute_lists self.new.attributes)) }
        // The names are seen that were read.
        ensures names { AppendsReadNamesAsSeen (W.told worktree.old) (F.holds objects.old)
            (λ s. attribute_names_of_setup (setup_of_stack self.old)
            (setup_of_stack self.old).attributes s (slash_joined_components self.old.current))
            self.old.attributes self.new.attributes result }
        // What is read and counted, and why it is refused.
        ensures reads { AnswersReadings W.Worktree F.Find worktree.old worktree.new objects.old
            objects.new (attribute_readings_of_directory (setup_of_stack self.old)
            (setup_of_stack self.old).attributes (slash_joined_components self.old.current))
            self.old.statistics self.new.statistics result }
        // An answer hides no fault.
        ensures unfaulted { HidesNoFault W.Worktree F.Find
            (worktree_store_and_stack worktree.old objects.old self.old)
            (worktree_store_and_stack worktree.new objects.new self.new) result }
    {
        self.push_gitattributes_of_current(alloc, worktree, objects)?;
        if let Err(refused) = self.push_info_attributes_at_root(alloc, worktree, objects) {
            self.state.pop_list();
            return Err(refused);
        }
        Ok(())
    }

    /// Pushes what is read of the current path, without the path.
    /// See docs/DIFFERENCES.md#gix-push-fault.
    pub(super) fn push_rules_of_current<W: Worktree, F: Find>(
        &mut self,
        alloc: Global,
        worktree: &mut W,
        objects: &mut F,
    ) -> Result<(), AtPathError>
        // The stack stands where it stood.
        ensures place { KeepsStackExceptRulesAndReadCounts self.old self.new }
        // The directory is counted.
        ensures delegate { self.new.statistics.delegate ≡ delegate_counts_after_call
            self.old.statistics.delegate
            (push_directory (slash_joined_components self.old.current)) }
        // The rules of the current path are pushed, or nothing is.
        ensures pushes { PushesRulesOfCurrent W.Worktree F.Find
            (worktree_store_and_stack worktree.old objects.old self.old)
            (worktree_store_and_stack worktree.new objects.new self.new) result }
        // What is held is what is told of all directories above, and of the path itself.
        ensures in_step { (s : TreeAndObjects) → Tells (W.told worktree.old) (F.holds objects.old) s
            → HoldsRulesOfTree (setup_of_stack self.old) s (proper_ancestor_directories
            self.old.current) self.old.attributes self.old.ignore
            → OnOk result (HoldsRulesOfTree (setup_of_stack self.old) s (all_prefixes_shortest_first
            self.old.current) self.new.attributes self.new.ignore) }
        // There are as many lists and matches as directories.
        ensures levels { CountsMatchDirectories (proper_ancestor_directories self.old.current)
            self.old.attributes self.old.ignore
            → OnOk result (CountsMatchDirectories (all_prefixes_shortest_first self.old.current)
            self.new.attributes self.new.ignore) }
        // What is read and counted, and why it is refused.
        ensures reads { AnswersReadings W.Worktree F.Find worktree.old worktree.new objects.old
            objects.new (readings_of_directory (setup_of_stack self.old) (slash_joined_components
            self.old.current)) self.old.statistics self.new.statistics result }
        // An answer hides no fault.
        ensures unfaulted { HidesNoFault W.Worktree F.Find
            (worktree_store_and_stack worktree.old objects.old self.old)
            (worktree_store_and_stack worktree.new objects.new self.new) result }
    {
        self.count_pushed_directory();
        self.push_attributes_of_current(alloc, worktree, objects)?;
        if let Err(refused) = self.push_ignore_rules_of_current(alloc, worktree, objects) {
            let directory = self.stack.current_relative();
            self.state.pop_attributes_of_directory(directory);
            return Err(refused);
        }
        Ok(())
    }
}

/// The name of the file of a directory that speaks of attributes.
fn gitattributes_file_name() -> &'static [u8]
    ensures { result.now ≡ gitattributes_file_name }
{
    b".gitattributes"
}

/// Whether a directory is the root.
fn is_worktree_root(directory: &[u8]) -> bool
    ensures { result ≡ is_empty directory.now }
{
    directory.is_empty()
}

/// The ignore rules of a text that was read.
fn list_of(
    alloc: Global,
    source: Option<PathText>,
    bytes: &Bytes,
    directory: &[u8],
    parse: ParseIgnore,
) -> Result<List, OutOfMemory>
    ensures { IfOk result (λ list. list ≡ ignore_rules_of_text parse.support_precious directory.now
        (rules_text_if_found source bytes.now)) }
{
    let Some(source) = source else {
        return Ok(List::new(alloc));
    };
    let base = PathText::from_bytes(alloc, directory)?;
    List::from_bytes(alloc, bytes.as_bytes(), Some(source), base, parse)
}

/// Pushes the list of a text that was read, which speaks of attributes. Where memory is refused
/// nothing is pushed, and the first of its names may be seen. See
/// docs/DECISIONS.md#attribute-bases.
fn push_list_of_read_attributes(
    state: &mut State,
    alloc: Global,
    source: Option<PathText>,
    bytes: &Bytes,
    directory: &[u8],
    allow_macros: bool,
) -> Result<(), OutOfMemory>
    ensures pushed { OnOk result (held_attributes_of_state state.new ≡ push_list
        (attribute_list_of_text allow_macros directory.now (rules_text_if_found source bytes.now))
        (attribute_names_of_text allow_macros (rules_text_if_found source bytes.now))
        (held_attributes_of_state state.old)) }
    ensures setup { setup_of_held_attributes (held_attributes_of_state state.new)
        ≡ setup_of_held_attributes (held_attributes_of_state state.old) }
    ensures ignore { held_ignore_rules_of_state state.new ≡ held_ignore_rules_of_state state.old }
    ensures checkout { checkout_of_state state.new ≡ checkout_of_state state.old }
    ensures refused { OnErr result (held_attribute_lists (held_attributes_of_state state.new)
        ≡ held_attribute_lists (held_attributes_of_state state.old)) }
    ensures seen { OnErr result
        (AddsSomeFirstNames (seen_attribute_names (held_attributes_of_state state.old))
        (attribute_names_of_text allow_macros (rules_text_if_found source bytes.now))
        (seen_attribute_names (held_attributes_of_state state.new))) }
{
    let base = PathText::from_bytes(alloc, directory)?;
    let Some(source) = source else {
        return state.parse_and_push_attributes(
            alloc,
            b"",
            PathText::new(alloc),
            base,
            allow_macros,
        );
    };
    state.parse_and_push_attributes(alloc, bytes.as_bytes(), source, base, allow_macros)
}
