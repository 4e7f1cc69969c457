//! The blobs that rules files are mapped to.
ghost use Rattle.std.specs.Prelude.{◌≡◌, ◌||◌, ◌==◌, true, IfOk};
ghost use Rattle.gitbase_core.specs.Index.{compare_path_bytes};
ghost use Rattle.worktree_stack.specs.Mappings.{are_mapping_paths_ascending, has_basename, reads_rules_from_blob, is_merged_or_ours_file, is_rules_file_read_from_index, rules_file_mappings_of_index};
ghost use Rattle.worktree_stack.specs.Setup.{blob_id_mapped_to_path, setup_of_held_attributes, setup_of_held_ignore_rules};
ghost use Rattle.worktree_stack.specs.Stacked.{held_attributes_of_state, held_ignore_rules_of_state};

use crate::State as Rules;
use crate::ignore_source::Source;
use gitbase_core::{
    Flags, IndexEntry, Mode, ObjectId, OutOfMemory, PathText, State as Index, basename,
    eq_ignore_case,
};
use glob_rules::Case;
use std::alloc::Global;
use std::cmp::Ordering;
use std::marker::Model;

/// The path of a rules file, and the id of the blob that an index has for it.
pub type PathIdMapping = (PathText, ObjectId);

/// The blobs that an index has for rules files, in the order of their paths.
///
/// Contracts see the list.
#[derive(Debug, Drop)]
pub struct PathIdMappings {
    items: Vec<PathIdMapping>,
}

impl Model for PathIdMappings {
    ghost use Rattle.std.specs.Prelude.{List};
    ghost use Rattle.worktree_stack.specs.Setup.{RulesFileMapping};

    ghost Value = { List RulesFileMapping };

    ghost view = { λ m. m.items.items };
}

impl PathIdMappings {
    /// The mappings of the vector; takes no memory.
    pub fn from_vec(items: Vec<PathIdMapping>) -> PathIdMappings
        ensures { result ≡ items.items }
    {
        PathIdMappings { items }
    }

    /// The mappings.
    pub fn as_slice(&self) -> &[PathIdMapping]
        ensures { result.now ≡ self.now }
    {
        &self.items
    }

    /// The mappings as a vector; takes no memory.
    pub fn into_vec(self) -> Vec<PathIdMapping>
        ensures { result.items ≡ self }
    {
        self.items
    }
}

/// The blobs of rules files, in the order of their paths, among which one is found without passing
/// over all.
///
/// Contracts see the list.
#[derive(Drop)]
pub(crate) struct Mappings {
    items: Vec<PathIdMapping>,
}

impl Model for Mappings {
    ghost use Rattle.std.specs.Prelude.{List};
    ghost use Rattle.worktree_stack.specs.Setup.{RulesFileMapping};
    ghost use Rattle.worktree_stack.specs.Mappings.{are_mapping_paths_ascending};
    ghost use Rattle.std.specs.Prelude.{◌≡◌, true};

    ghost Value = { List RulesFileMapping };

    ghost view = { λ m. m.items.items };

    ghost invariant = { λ m. are_mapping_paths_ascending m.items.items ≡ true };
}

impl Mappings {
    /// These mappings, whose paths ascend.
    pub fn new(items: Vec<PathIdMapping>) -> Mappings
        requires { are_mapping_paths_ascending items.items ≡ true }
        ensures { result ≡ items.items }
    {
        Mappings { items }
    }

    /// The blob that a path is mapped to. It is found by binary search; no clause speaks of the
    /// cost.
    pub fn blob_id_of_path(&self, path: &[u8]) -> Option<ObjectId>
        ensures { result ≡ blob_id_mapped_to_path self.now path.now }
    {
        find_blob_id_in_mappings(&self.items, path)
    }

    /// Equal mappings; fails only where memory is refused.
    pub fn copy(&self, alloc: Global) -> Result<Mappings, OutOfMemory>
        ensures { IfOk result (λ copy. copy ≡ self.now) }
    {
        let items = copy_mappings(alloc, &self.items)?;
        Ok(Mappings { items })
    }
}

/// Equal mappings.
fn copy_mappings(
    alloc: Global,
    mappings: &[PathIdMapping],
) -> Result<Vec<PathIdMapping>, OutOfMemory>
    ensures { IfOk result (λ copy. copy.items ≡ mappings.now) }
{
    let mut copy = Vec::with_capacity(alloc, mappings.len())?;
    for mapping in mappings {
        copy.push((
            PathText::from_bytes(alloc, mapping.0.as_bytes())?,
            mapping.1,
        ))?;
    }
    Ok(copy)
}

/// The blob that a path is mapped to.
fn find_blob_id_in_mappings(mappings: &[PathIdMapping], path: &[u8]) -> Option<ObjectId>
    requires { are_mapping_paths_ascending mappings.now ≡ true }
    ensures { result ≡ blob_id_mapped_to_path mappings.now path.now }
{
    match mappings.binary_search_by(|mapping| compare_mapping_path(mapping, path)) {
        Ok(at) => Some(mappings[at].1),
        Err(_) => None,
    }
}

/// Where the path of a mapping stands beside another.
fn compare_mapping_path(mapping: &PathIdMapping, path: &[u8]) -> Ordering
    ensures { result ≡ compare_path_bytes mapping.now.0 path.now }
{
    mapping.0.as_bytes().cmp(&path)
}

/// The blobs that an index has for the rules files of directories, in the order of the index.
pub(crate) fn collect_rules_mappings(
    alloc: Global,
    state: &Rules,
    index: &Index,
    case: Case,
) -> Result<Vec<PathIdMapping>, OutOfMemory>
    ensures mappings { IfOk result (λ mappings. mappings.items ≡ rules_file_mappings_of_index case
        (setup_of_held_attributes (held_attributes_of_state state.now)) (setup_of_held_ignore_rules
        (held_ignore_rules_of_state state.now)) index.now) }
    ensures ascending { IfOk result (λ mappings. are_mapping_paths_ascending mappings.items
        ≡ true) }
{
    let mut mappings = Vec::new(alloc);
    for entry in index.entries() {
        if is_rules_file_read_from_index(entry, state, case) {
            mappings.push((
                PathText::from_bytes(alloc, entry.path.as_bytes())?,
                entry.id,
            ))?;
        }
    }
    Ok(mappings)
}

/// Whether an entry of an index is that of a rules file, which rules are read from.
fn is_rules_file_read_from_index(entry: &IndexEntry, state: &Rules, case: Case) -> bool
    ensures { result ≡ is_rules_file_read_from_index case (setup_of_held_attributes
        (held_attributes_of_state state.now)) (setup_of_held_ignore_rules
        (held_ignore_rules_of_state state.now)) entry.now }
{
    if !is_merged_or_ours_file(entry) {
        return false;
    }
    if let Some(ignore) = state.ignore() {
        if has_basename(entry.path.as_bytes(), ignore.file_name(), case) {
            return reads_rules_from_blob(entry, ignore.source());
        }
    }
    if state.attributes().is_some() {
        return has_basename(entry.path.as_bytes(), b".gitattributes", case);
    }
    false
}

/// Whether an entry is that of a plain file, merged or ours.
fn is_merged_or_ours_file(entry: &IndexEntry) -> bool
    ensures { result ≡ is_merged_or_ours_file entry.now }
{
    entry.mode == Mode::FILE && is_merged_or_ours_stage(entry.stage)
}

/// Whether this is the stage of a merged entry, or of ours.
fn is_merged_or_ours_stage(stage: u8) -> bool
    ensures { result ≡ ((stage == 0) || (stage == 2)) }
{
    stage == 0 || stage == 2
}

/// Whether the last component of a path is this name, as letters compare.
fn has_basename(path: &[u8], name: &[u8], case: Case) -> bool
    ensures { result ≡ has_basename case name.now path.now }
{
    match case {
        Case::Sensitive => basename(path) == name,
        Case::Fold => eq_ignore_case(basename(path), name),
    }
}

/// Whether rules are read from the blob of an entry.
fn reads_rules_from_blob(entry: &IndexEntry, source: Source) -> bool
    ensures { result ≡ reads_rules_from_blob source entry.now }
{
    match source {
        Source::IdMapping => true,
        Source::WorktreeThenIdMappingIfNotSkipped => entry.flags.contains(Flags::SKIP_WORKTREE),
    }
}
