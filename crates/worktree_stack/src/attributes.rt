//! What is said of attributes: by the lists of a caller, and by those of the directories on the way
//! to a path.
ghost use Rattle.std.specs.Prelude.{◌≡◌, ◌++◌, [], true, Some, IfOk, OnOk, OnErr};
ghost use Rattle.glob_rules.specs.AttributeLines as texts;
ghost use Rattle.glob_rules.specs.AttributeNames.{AddsSomeFirstNames, attribute_names_of_lines};
ghost use Rattle.glob_rules.specs.AttributeOutcome.{outcome_reset_to_selection_or_names, outcome_without_states, outcome_filled_for_path, is_any_state_found, empty_outcome};
ghost use Rattle.glob_rules.specs.Attributes.{attribute_list_from_lines};
ghost use Rattle.worktree_stack.specs.Setup.{HeldAttributeLists, push_list, held_without_highest_list, held_without_lists_of_directory, held_attributes_without_lists, lists_without_info_file};

use crate::attributes_source::Source;
use gitbase_core::{Bytes, OutOfMemory, PathText};
use glob_rules::Case;
use glob_rules::attributes::{MetadataCollection, Outcome, Search, fill};
use std::alloc::Global;
use std::marker::Model;

/// What is said of attributes; gitoxide's `gix_worktree::stack::state::Attributes`.
///
/// Contracts see a record: what it was made with, the names that were seen, and the lists of the
/// directories that are pushed.
///
/// See docs/DECISIONS.md#attribute-names.
#[derive(Drop)]
pub struct Attributes {
    globals: Search,
    info_attributes: Option<PathText>,
    source: Source,
    collection: MetadataCollection,
    /// The lists of the pushed directories, the root's first; above the root's own that of the info
    /// file.
    stack: Search,
}

impl Model for Attributes {
    ghost use Rattle.worktree_stack.specs.Setup.{AttributesSetup, HeldAttributeLists};

    ghost Value = { HeldAttributeLists };

    ghost view = { λ a. record {
      setup = record { globals = a.globals; info = a.info_attributes; source = a.source };
      names = a.collection;
      lists = a.stack;
    } };
}

impl Attributes {
    /// Attributes with the lists of a caller, `globals`, below those of all directories. The file
    /// at `info_attributes`, a whole path, comes above the root's own; it is followed where it is a
    /// link, and read with the root. `source` says where the `.gitattributes` of directories are
    /// read. `collection` holds the names that `globals` speak of; those of all files that are read
    /// are added. Takes no memory.
    pub fn new(
        alloc: Global,
        globals: Search,
        info_attributes: Option<PathText>,
        source: Source,
        collection: MetadataCollection,
    ) -> Attributes
        ensures globals { result.setup.globals ≡ globals }
        ensures info { result.setup.info ≡ info_attributes }
        ensures source { result.setup.source ≡ source }
        ensures names { result.names ≡ collection }
        ensures lists { result.lists ≡ [] }
    {
        Attributes {
            globals,
            info_attributes,
            source,
            collection,
            stack: Search::new(alloc),
        }
    }

    /// The same with no directory pushed; fails only where memory is refused. Names that were seen
    /// stay seen.
    pub(crate) fn fresh(&self, alloc: Global) -> Result<Attributes, OutOfMemory>
        ensures { IfOk result (λ attributes. Some attributes ≡ held_attributes_without_lists
            (Some self.now)) }
    {
        let info_attributes = match &self.info_attributes {
            Some(path) => Some(PathText::from_bytes(alloc, path.as_bytes())?),
            None => None,
        };
        Ok(Attributes {
            globals: self.globals.copy(alloc)?,
            info_attributes,
            source: self.source,
            collection: self.collection.copy(alloc)?,
            stack: Search::new(alloc),
        })
    }

    /// Where the files of directories are read.
    pub(crate) fn source(&self) -> Source
        ensures { result ≡ self.now.setup.source }
    {
        self.source
    }

    /// The path of the info file.
    pub(crate) fn info(&self) -> &Option<PathText>
        ensures { result.now ≡ self.now.setup.info }
    {
        &self.info_attributes
    }

    /// The names that were seen.
    pub(crate) fn collection_of_seen_names(&self) -> &MetadataCollection
        ensures { result.now ≡ self.now.names }
    {
        &self.collection
    }

    /// Pushes the list of bytes that were read at `source`, for the paths beneath the directory
    /// `base`. Where memory is refused nothing is pushed, and the first of the names may be seen.
    ///
    /// See docs/DECISIONS.md#attribute-missing.
    pub(crate) fn push_list(
        &mut self,
        alloc: Global,
        bytes: &[u8],
        source: PathText,
        base: PathText,
        allow_macros: bool,
    ) -> Result<(), OutOfMemory>
        ensures pushed { OnOk result (Some self.new ≡ push_list
            (attribute_list_from_lines (texts.lines allow_macros bytes.now) source base)
            (attribute_names_of_lines (texts.lines allow_macros bytes.now)) (Some self.old)) }
        ensures setup { self.new.setup ≡ self.old.setup }
        ensures refused { OnErr result (self.new.lists ≡ self.old.lists) }
        ensures seen { OnErr result (AddsSomeFirstNames self.old.names
            (attribute_names_of_lines (texts.lines allow_macros bytes.now)) self.new.names) }
    {
        self.stack.add_patterns_buffer(
            alloc,
            bytes,
            source,
            base,
            &mut self.collection,
            allow_macros,
        )
    }

    /// Drops the highest list.
    pub(crate) fn pop_list(&mut self)
        ensures { Some self.new ≡ held_without_highest_list (Some self.old) }
    {
        self.stack.pop_pattern_list();
    }

    /// Drops the lists of a directory, which are the highest.
    pub(crate) fn pop_directory(&mut self, directory: &[u8])
        ensures { Some self.new ≡ held_without_lists_of_directory directory.now (Some self.old) }
    {
        self.pop_info_list_if_root(directory);
        self.stack.pop_pattern_list();
    }

    /// Drops the list of the info file, where it stands above those of a directory.
    ///
    /// See docs/DECISIONS.md#attribute-info.
    /// See docs/DIFFERENCES.md#attributes-info.
    fn pop_info_list_if_root(&mut self, directory: &[u8])
        ensures { self.new ≡ record self.old {
          lists = lists_without_info_file self.old.setup.info directory.now self.old.lists;
        } }
    {
        if self.info_attributes.is_none() {
            return;
        }
        if directory.is_empty() {
            self.stack.pop_pattern_list();
        }
    }

    /// Finds which attributes a path has beneath the directories that are pushed, among those that
    /// `out` asks for, which asks for all names that were seen, where it has no selection; and
    /// tells whether the path has one. Where memory is refused, `out` has lost what it asks for.
    ///
    /// See docs/DECISIONS.md#attribute-root.
    pub(crate) fn matching(
        &self,
        alloc: Global,
        path: &[u8],
        is_dir: Option<bool>,
        case: Case,
        out: &mut Outcome,
    ) -> Result<bool, OutOfMemory>
        ensures filled { OnOk result (out.new ≡ outcome_filled_for_path (self.now.setup.globals ++
            self.now.lists) path.now is_dir case (outcome_reset_to_selection_or_names out.old
            self.now.names)) }
        ensures finds { IfOk result (λ finds. finds ≡ is_any_state_found out.new.rows) }
        ensures refused { OnErr result (out.new ≡ empty_outcome) }
    {
        out.initialize(alloc, &self.collection)?;
        fill(alloc, &self.globals, &self.stack, path, case, is_dir, out)
    }
}

/// An outcome that asks for all names of a collection.
pub(crate) fn outcome_for_all_attributes(
    alloc: Global,
    collection: &MetadataCollection,
) -> Result<Outcome, OutOfMemory>
    ensures { IfOk result (λ outcome. outcome ≡ outcome_reset_to_selection_or_names empty_outcome
        collection.now) }
{
    let mut outcome = Outcome::new(alloc);
    outcome.initialize(alloc, collection)?;
    Ok(outcome)
}

/// An outcome that asks for these names.
pub(crate) fn outcome_for_selected_attributes(
    alloc: Global,
    names: &[Bytes],
) -> Result<Outcome, OutOfMemory>
    ensures { IfOk result (λ outcome. outcome ≡ outcome_without_states true names.now) }
{
    let mut outcome = Outcome::new(alloc);
    outcome.initialize_with_selection(alloc, names)?;
    Ok(outcome)
}
