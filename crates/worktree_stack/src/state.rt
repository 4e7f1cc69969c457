//! What a stack keeps for the directories on the way to a path.
ghost use Rattle.std.specs.Prelude.{◌≡◌, true, None, Some, is_some, IfOk, OnOk, OnErr, option_copied};
ghost use Rattle.glob_rules.specs.AttributeLines as texts;
ghost use Rattle.glob_rules.specs.AttributeNames.{AddsSomeFirstNames, attribute_names_of_lines};
ghost use Rattle.glob_rules.specs.Attributes.{attribute_list_from_lines};
ghost use Rattle.worktree_stack.specs.Stacked.{held_attributes_of_state, held_ignore_rules_of_state, checkout_of_state};
ghost use Rattle.worktree_stack.specs.Mappings.{rules_file_mappings_of_index, are_mapping_paths_ascending};
ghost use Rattle.worktree_stack.specs.Setup.{setup_of_held_attributes, setup_of_held_ignore_rules, held_attribute_lists, seen_attribute_names, push_list, held_without_highest_list, held_without_lists_of_directory, held_attributes_without_lists, held_rules_with_directory_pushed, held_rules_with_directory_popped, held_rules_without_directories};

use crate::mappings::PathIdMappings;
use crate::matched::Matched;
use crate::validate::Options;
use crate::{Attributes, Ignore, mappings};
use gitbase_core::{OutOfMemory, PathText, State as Index};
use glob_rules::Case;
use glob_rules::ignore::List;
use std::alloc::Global;

/// How a checkout makes the directories on the way to a path.
#[derive(Clone, Copy, Debug, PartialEq, Eq)]
pub struct Checkout {
    /// Whether a node that is no directory is removed where a directory is to be.
    pub unlink_on_collision: bool,
    /// What else each component is tested for.
    pub validate: Options,
}

/// What a stack is for; gitoxide's `gix_worktree::stack::State`.
#[derive(Drop)]
pub enum State {
    /// It makes the directories on the way to a path, and tells the attributes of paths.
    CreateDirectoryAndAttributesStack {
        unlink_on_collision: bool,
        validate: Options,
        attributes: Attributes,
    },
    /// It tells the attributes of paths, and which paths are excluded.
    AttributesAndIgnoreStack {
        attributes: Attributes,
        ignore: Ignore,
    },
    /// It tells the attributes of paths.
    AttributesStack(Attributes),
    /// It tells which paths are excluded.
    IgnoreStack(Ignore),
}

impl State {
    /// A state for checking files out: its lookups make the directories on the way to a path, and
    /// it tells the attributes of paths.
    ///
    /// With `unlink_on_collision` a node that is no directory is removed where a directory is to
    /// be, a link among them; else it is a collision. `validate` says what else each component is
    /// tested for. Takes no memory.
    pub fn for_checkout(
        unlink_on_collision: bool,
        validate: Options,
        attributes: Attributes,
    ) -> State
        ensures checkout { checkout_of_state result ≡ Some (record {
          unlink_on_collision = unlink_on_collision;
          validate = validate;
        }) }
        ensures attributes { held_attributes_of_state result ≡ Some attributes }
        ensures ignore { held_ignore_rules_of_state result ≡ None }
    {
        State::CreateDirectoryAndAttributesStack {
            unlink_on_collision,
            validate,
            attributes,
        }
    }

    /// A state for adding files to an index: it tells the attributes of paths, and which paths are
    /// excluded. Takes no memory.
    pub fn for_add(attributes: Attributes, ignore: Ignore) -> State
        ensures checkout { checkout_of_state result ≡ None }
        ensures attributes { held_attributes_of_state result ≡ Some attributes }
        ensures ignore { held_ignore_rules_of_state result ≡ Some ignore }
    {
        State::AttributesAndIgnoreStack { attributes, ignore }
    }

    /// The blobs that an index has for the rules files of this state, in the order of their paths;
    /// gitoxide's `State::id_mappings_from_index`.
    ///
    /// An entry counts that is a plain file, merged or ours, and whose last component is the name
    /// of rules files, as letters compare: that of ignore rules, or `.gitattributes`, by what the
    /// state tells. Where ignore rules are looked for in the worktree first, one of that name is
    /// also to be marked as left out of the worktree. A path that is named in other letters is
    /// kept, and is used for no directory, as a rules file is looked for under its name alone.
    /// Fails only where memory is refused.
    pub fn id_mappings_from_index(
        &self,
        alloc: Global,
        index: &Index,
        case: Case,
    ) -> Result<PathIdMappings, OutOfMemory>
        ensures mappings { IfOk result (λ mappings. mappings ≡ rules_file_mappings_of_index case
            (setup_of_held_attributes (held_attributes_of_state self.now))
            (setup_of_held_ignore_rules (held_ignore_rules_of_state self.now)) index.now) }
        ensures ascending { IfOk result (λ mappings. are_mapping_paths_ascending mappings ≡ true) }
    {
        let items = mappings::collect_rules_mappings(alloc, self, index, case)?;
        Ok(PathIdMappings::from_vec(items))
    }

    /// The rules that exclude paths, where there are such.
    pub(crate) fn ignore(&self) -> Option<&Ignore>
        ensures { option_copied result ≡ held_ignore_rules_of_state self.now }
    {
        match self {
            State::CreateDirectoryAndAttributesStack {
                unlink_on_collision: _,
                validate: _,
                attributes: _,
            } => None,
            State::AttributesAndIgnoreStack {
                attributes: _,
                ignore,
            } => Some(ignore),
            State::AttributesStack(_) => None,
            State::IgnoreStack(ignore) => Some(ignore),
        }
    }

    /// What is said of attributes, where that is told.
    pub(crate) fn attributes(&self) -> Option<&Attributes>
        ensures { option_copied result ≡ held_attributes_of_state self.now }
    {
        match self {
            State::CreateDirectoryAndAttributesStack {
                unlink_on_collision: _,
                validate: _,
                attributes,
            } => Some(attributes),
            State::AttributesAndIgnoreStack {
                attributes,
                ignore: _,
            } => Some(attributes),
            State::AttributesStack(attributes) => Some(attributes),
            State::IgnoreStack(_) => None,
        }
    }

    /// How directories are made on the way to a path, where they are. Such a state has no rules
    /// that exclude paths.
    pub(crate) fn checkout(&self) -> Option<Checkout>
        ensures checkout { result ≡ checkout_of_state self.now }
        ensures alone { is_some result ≡ true → held_ignore_rules_of_state self.now ≡ None }
    {
        match self {
            State::CreateDirectoryAndAttributesStack {
                unlink_on_collision,
                validate,
                attributes: _,
            } => Some(Checkout {
                unlink_on_collision: *unlink_on_collision,
                validate: *validate,
            }),
            State::AttributesAndIgnoreStack {
                attributes: _,
                ignore: _,
            } => None,
            State::AttributesStack(_) => None,
            State::IgnoreStack(_) => None,
        }
    }

    /// The same with no directory pushed; fails only where memory is refused.
    pub(crate) fn fresh(&self, alloc: Global) -> Result<State, OutOfMemory>
        ensures checkout { IfOk result (λ state. checkout_of_state state ≡ checkout_of_state
            self.now) }
        ensures attributes { IfOk result (λ state. held_attributes_of_state state
            ≡ held_attributes_without_lists (held_attributes_of_state self.now)) }
        ensures ignore { IfOk result (λ state. held_ignore_rules_of_state state
            ≡ held_rules_without_directories (held_ignore_rules_of_state self.now)) }
    {
        match self {
            State::CreateDirectoryAndAttributesStack {
                unlink_on_collision,
                validate,
                attributes,
            } => Ok(State::CreateDirectoryAndAttributesStack {
                unlink_on_collision: *unlink_on_collision,
                validate: *validate,
                attributes: attributes.fresh(alloc)?,
            }),
            State::AttributesAndIgnoreStack { attributes, ignore } => {
                Ok(State::AttributesAndIgnoreStack {
                    attributes: attributes.fresh(alloc)?,
                    ignore: ignore.fresh(alloc)?,
                })
            }
            State::AttributesStack(attributes) => {
                Ok(State::AttributesStack(attributes.fresh(alloc)?))
            }
            State::IgnoreStack(ignore) => Ok(State::IgnoreStack(ignore.fresh(alloc)?)),
        }
    }

    /// Pushes the ignore rules of a directory and its own match. Where memory is refused nothing is
    /// pushed.
    pub(crate) fn push_directory(
        &mut self,
        alloc: Global,
        list: List,
        matched: Option<Matched>,
    ) -> Result<(), OutOfMemory>
        ensures pushed { OnOk result (held_ignore_rules_of_state self.new
            ≡ held_rules_with_directory_pushed list matched (held_ignore_rules_of_state self.old)) }
        ensures attributes { held_attributes_of_state self.new ≡ held_attributes_of_state self.old }
        ensures checkout { checkout_of_state self.new ≡ checkout_of_state self.old }
        ensures refused { OnErr result (held_ignore_rules_of_state self.new
            ≡ held_ignore_rules_of_state self.old) }
    {
        match self {
            State::CreateDirectoryAndAttributesStack {
                unlink_on_collision: _,
                validate: _,
                attributes: _,
            } => Ok(()),
            State::AttributesAndIgnoreStack {
                attributes: _,
                ignore,
            } => ignore.push_directory(alloc, list, matched),
            State::AttributesStack(_) => Ok(()),
            State::IgnoreStack(ignore) => ignore.push_directory(alloc, list, matched),
        }
    }

    /// Pushes the list of bytes that were read at `source`, for the paths beneath the directory
    /// `base`, which speaks of attributes. Where memory is refused nothing is pushed, and the first
    /// of its names may be seen.
    pub(crate) fn parse_and_push_attributes(
        &mut self,
        alloc: Global,
        bytes: &[u8],
        source: PathText,
        base: PathText,
        allow_macros: bool,
    ) -> Result<(), OutOfMemory>
        ensures pushed { OnOk result (held_attributes_of_state self.new
            ≡ push_list (attribute_list_from_lines (texts.lines allow_macros bytes.now) source base)
            (attribute_names_of_lines (texts.lines allow_macros bytes.now))
            (held_attributes_of_state self.old)) }
        ensures setup { setup_of_held_attributes (held_attributes_of_state self.new)
            ≡ setup_of_held_attributes (held_attributes_of_state self.old) }
        ensures ignore { held_ignore_rules_of_state self.new ≡ held_ignore_rules_of_state self.old }
        ensures checkout { checkout_of_state self.new ≡ checkout_of_state self.old }
        ensures refused { OnErr result (held_attribute_lists (held_attributes_of_state self.new)
            ≡ held_attribute_lists (held_attributes_of_state self.old)) }
        ensures seen { OnErr result
            (AddsSomeFirstNames (seen_attribute_names (held_attributes_of_state self.old))
            (attribute_names_of_lines (texts.lines allow_macros bytes.now))
            (seen_attribute_names (held_attributes_of_state self.new))) }
    {
        match self {
            State::CreateDirectoryAndAttributesStack {
                unlink_on_collision: _,
                validate: _,
                attributes,
            } => attributes.push_list(alloc, bytes, source, base, allow_macros),
            State::AttributesAndIgnoreStack {
                attributes,
                ignore: _,
            } => attributes.push_list(alloc, bytes, source, base, allow_macros),
            State::AttributesStack(attributes) => {
                attributes.push_list(alloc, bytes, source, base, allow_macros)
            }
            State::IgnoreStack(_) => Ok(()),
        }
    }

    /// Drops the lists of a directory that speak of attributes; they were pushed last.
    pub(crate) fn pop_attributes_of_directory(&mut self, directory: &[u8])
        ensures attributes { held_attributes_of_state self.new ≡ held_without_lists_of_directory
            directory.now (held_attributes_of_state self.old) }
        ensures ignore { held_ignore_rules_of_state self.new ≡ held_ignore_rules_of_state self.old }
        ensures checkout { checkout_of_state self.new ≡ checkout_of_state self.old }
    {
        match self {
            State::CreateDirectoryAndAttributesStack {
                unlink_on_collision: _,
                validate: _,
                attributes,
            } => attributes.pop_directory(directory),
            State::AttributesAndIgnoreStack {
                attributes,
                ignore: _,
            } => attributes.pop_directory(directory),
            State::AttributesStack(attributes) => attributes.pop_directory(directory),
            State::IgnoreStack(_) => {}
        }
    }

    /// Drops the list that speaks of attributes and was pushed last.
    pub(crate) fn pop_list(&mut self)
        ensures attributes { held_attributes_of_state self.new ≡ held_without_highest_list
            (held_attributes_of_state self.old) }
        ensures ignore { held_ignore_rules_of_state self.new ≡ held_ignore_rules_of_state self.old }
        ensures checkout { checkout_of_state self.new ≡ checkout_of_state self.old }
    {
        match self {
            State::CreateDirectoryAndAttributesStack {
                unlink_on_collision: _,
                validate: _,
                attributes,
            } => attributes.pop_list(),
            State::AttributesAndIgnoreStack {
                attributes,
                ignore: _,
            } => attributes.pop_list(),
            State::AttributesStack(attributes) => attributes.pop_list(),
            State::IgnoreStack(_) => {}
        }
    }

    /// Drops the ignore rules that were pushed last.
    pub(crate) fn pop_ignore_rules(&mut self)
        ensures attributes { held_attributes_of_state self.new ≡ held_attributes_of_state self.old }
        ensures ignore { held_ignore_rules_of_state self.new ≡ held_rules_with_directory_popped
            (held_ignore_rules_of_state self.old) }
        ensures checkout { checkout_of_state self.new ≡ checkout_of_state self.old }
    {
        match self {
            State::CreateDirectoryAndAttributesStack {
                unlink_on_collision: _,
                validate: _,
                attributes: _,
            } => {}
            State::AttributesAndIgnoreStack {
                attributes: _,
                ignore,
            } => ignore.pop_directory(),
            State::AttributesStack(_) => {}
            State::IgnoreStack(ignore) => ignore.pop_directory(),
        }
    }
}
