//! What is read from one place and then the next.
ghost use Rattle.std.specs.Prelude.{◌≡◌, ◌⊎◌, ◌≤◌, ◌+◌, true, is_some, Some, Ok, IfOk, IfErr, IfNone, OnOk};
ghost use Rattle.gitbase_core.specs.Objects.{ObjectsById, object_by_id, blob};
ghost use Rattle.gitbase_core.specs.Path.{path_joined_with_slash};
ghost use Rattle.worktree_fs.specs.Causes.{CountIncreasedOrSaturated};
ghost use Rattle.worktree_fs.specs.Paths.{root_joined_with_relative};
ghost use Rattle.worktree_fs.specs.Tree.{Names, look, absent, found, file};
ghost use Rattle.worktree_stack.specs.Counted.{rules_counts_after_file, rules_counts_after_blob, number_of_worktree_places, number_of_store_places};
ghost use Rattle.worktree_fs.specs.Kept.{KeepsTreeAndListCounts, KeepsStoredObjects};
ghost use Rattle.worktree_stack.specs.Placed.{IsRefusalOfFile, IsRefusalOfBlob, CountsTriedRulesFile, CountsFoundBlob, CountsTriedPlaces, CountsRefusedPlaces};
ghost use Rattle.worktree_stack.specs.Reading.{TreeAndObjects, Tells, list_bytes_of_file_lookup, list_bytes_of_blob, rules_text_of_list_bytes, rules_text_if_found, first_rules_text_of_places, places_by_read_order};
ghost use Rattle.worktree_stack.specs.Refused.{HoldsByRulesError, IsReadingRefused};

use crate::order::Order;
use crate::{AtPathError, BlobWhy, RulesStatistics, RulesWhy};
use gitbase_core::{Bytes, Find, FindError, Found, ObjectId, OutOfMemory, PathText};
use std::alloc::Global;
use worktree_fs::{ReadAnswer, ReadError, Worktree};

/// The path that the first list comes from of those that are asked in an order, with its bytes in
/// `buffer`; none where none has a list. `whole` is the path in the worktree, and `path` that which
/// is mapped to a blob.
pub(super) fn read_first_text_in_order<W: Worktree, F: Find>(
    alloc: Global,
    worktree: &mut W,
    objects: &mut F,
    order: Order,
    whole: &[u8],
    path: &[u8],
    buffer: &mut Bytes,
    statistics: &mut RulesStatistics,
) -> Result<Option<PathText>, AtPathError>
    ensures text { (s : TreeAndObjects) → Tells (W.told worktree.old) (F.holds objects.old) s
        → IfOk result (λ source. first_rules_text_of_places s (places_by_read_order order whole.now
        path.now) ≡ Ok (rules_text_if_found source buffer.new)) }
    ensures refused { IfErr result (IsReadingRefused (W.told worktree.old) (F.holds objects.old)
        (CountIncreasedOrSaturated (W.faults worktree.old) (W.faults worktree.new))
        (CountIncreasedOrSaturated (F.faults objects.old) (F.faults objects.new))
        (places_by_read_order order whole.now path.now)
        (λ s. first_rules_text_of_places s (places_by_read_order order whole.now path.now))) }
    ensures counted { OnOk result (CountsTriedPlaces (W.told worktree.old) (F.holds objects.old)
        (places_by_read_order order whole.now path.now) statistics.old statistics.new) }
    ensures tried { IfErr result (CountsRefusedPlaces (W.told worktree.old) (F.holds objects.old)
        (places_by_read_order order whole.now path.now) statistics.old statistics.new) }
    ensures untouched { number_of_worktree_places (places_by_read_order order whole.now path.now)
        ≡ 0 → worktree.new ≡ worktree.old }
    ensures store_untouched { number_of_store_places (places_by_read_order order whole.now path.now)
        ≡ 0 → objects.new ≡ objects.old }
    ensures leaves { KeepsTreeAndListCounts W.Worktree worktree.old worktree.new }
    ensures leaves_store { KeepsStoredObjects F.Find objects.old objects.new }
    ensures reads { W.reads worktree.new ≤ W.reads worktree.old + number_of_worktree_places
        (places_by_read_order order whole.now path.now) }
    ensures unfaulted { OnOk result (W.faults worktree.new ≡ W.faults worktree.old) }
    ensures unfaulted_store { OnOk result (F.faults objects.new ≡ F.faults objects.old) }
{
    match order {
        Order::Nowhere => Ok(None),
        Order::Worktree { follow } => {
            read_rules_file(alloc, worktree, whole, follow, buffer, statistics)
        }
        Order::Store(id) => read_rules_blob(alloc, objects, id, path, buffer, statistics),
        Order::WorktreeThenStore(id) => {
            match read_rules_file(alloc, worktree, whole, false, buffer, statistics)? {
                Some(source) => Ok(Some(source)),
                None => read_rules_blob(alloc, objects, id, path, buffer, statistics),
            }
        }
    }
}

/// The path of a file in the worktree, with its bytes in `buffer`; none where there is no list.
/// See docs/DIFFERENCES.md#linked-rules-file.
/// See docs/DIFFERENCES.md#endless-rules-file.
fn read_rules_file<W: Worktree>(
    alloc: Global,
    worktree: &mut W,
    path: &[u8],
    follow: bool,
    buffer: &mut Bytes,
    statistics: &mut RulesStatistics,
) -> Result<Option<PathText>, AtPathError>
    ensures text { (t : Names) → W.told worktree.old ≡ Some t
        → IfOk result (λ source. rules_text_of_list_bytes path.now (list_bytes_of_file_lookup
        path.now (look t path.now follow)) ≡ Ok (rules_text_if_found source buffer.new)) }
    ensures refused { IfErr result (HoldsByRulesError (λ of why. (of ≡ path.now)
        × IsRefusalOfFile (W.told worktree.old) (CountIncreasedOrSaturated (W.faults worktree.old)
        (W.faults worktree.new)) path.now follow why) (λ id why. ⊥) (Unit {0})) }
    ensures counted { OnOk result (CountsTriedRulesFile (W.told worktree.old) path.now follow
        statistics.old statistics.new) }
    ensures none { IfOk result
        (λ source. IfNone source (statistics.new ≡ rules_counts_after_file statistics.old absent)) }
    ensures tried { IfErr result (HoldsByRulesError (λ of why. statistics.new ≡ statistics.old)
        (λ id why. ⊥) ((statistics.new ≡ statistics.old) ⊎ CountsTriedRulesFile
        (W.told worktree.old) path.now follow statistics.old statistics.new)) }
    ensures leaves { KeepsTreeAndListCounts W.Worktree worktree.old worktree.new }
    ensures reads { W.reads worktree.new ≤ W.reads worktree.old + 1 }
    ensures unfaulted { OnOk result (W.faults worktree.new ≡ W.faults worktree.old) }
{
    let why = match worktree.read(alloc, path, follow, buffer) {
        Ok(ReadAnswer::Read) => {
            count_read_rules_file(statistics, buffer);
            return Ok(Some(PathText::from_bytes(alloc, path)?));
        },
        Ok(ReadAnswer::Absent) | Ok(ReadAnswer::IsDirectory) => {
            count_absent_rules_file(statistics);
            return Ok(None);
        },
        Ok(ReadAnswer::IsLink) => RulesWhy::Link,
        Ok(ReadAnswer::LinkLimit) => RulesWhy::LinkLimit,
        Ok(ReadAnswer::Special) => RulesWhy::Special,
        Err(ReadError::Fault) => RulesWhy::Fault,
        Err(ReadError::OutOfMemory) => return Err(AtPathError::OutOfMemory),
    };
    let path = PathText::from_bytes(alloc, path)?;
    Err(AtPathError::RulesFile { path, why })
}

/// The path that is mapped to a blob, with its bytes in `buffer`.
fn read_rules_blob<F: Find>(
    alloc: Global,
    objects: &mut F,
    id: ObjectId,
    path: &[u8],
    buffer: &mut Bytes,
    statistics: &mut RulesStatistics,
) -> Result<Option<PathText>, AtPathError>
    ensures text { (o : ObjectsById) → F.holds objects.old ≡ Some o
        → IfOk result (λ source. rules_text_of_list_bytes path.now
        (list_bytes_of_blob id (object_by_id o id)) ≡ Ok (rules_text_if_found source buffer.new)) }
    ensures some { IfOk result (λ source. is_some source ≡ true) }
    ensures refused { IfErr result (HoldsByRulesError (λ of why. ⊥) (λ of why. (of ≡ id)
        × IsRefusalOfBlob (F.holds objects.old) (CountIncreasedOrSaturated (F.faults objects.old)
        (F.faults objects.new)) id why) (Unit {0})) }
    ensures counted { OnOk result (CountsFoundBlob (F.holds objects.old) id statistics.old
        statistics.new) }
    ensures tried { IfErr result
        (HoldsByRulesError (λ of why. ⊥) (λ id why. statistics.new ≡ statistics.old)
        ((statistics.new ≡ statistics.old) ⊎ CountsFoundBlob (F.holds objects.old) id statistics.old
        statistics.new)) }
    ensures leaves { KeepsStoredObjects F.Find objects.old objects.new }
    ensures unfaulted_store { OnOk result (F.faults objects.new ≡ F.faults objects.old) }
{
    let why = match objects.find_blob(alloc, &id, buffer) {
        Ok(Found::Blob) => {
            count_read_blob(statistics, buffer);
            return Ok(Some(PathText::from_bytes(alloc, path)?));
        },
        Ok(Found::Missing) => BlobWhy::Missing,
        Ok(Found::Other) => BlobWhy::NotABlob,
        Err(FindError::Fault) => BlobWhy::Fault,
        Err(FindError::OutOfMemory) => return Err(AtPathError::OutOfMemory),
    };
    Err(AtPathError::Blob { id, why })
}

/// Counts a rules file that is not there, or is a directory.
fn count_absent_rules_file(statistics: &mut RulesStatistics)
    ensures { statistics.new ≡ rules_counts_after_file statistics.old absent }
{
    statistics.tried_pattern_files = statistics.tried_pattern_files.saturating_add(1);
}

/// Counts a rules file that was read.
fn count_read_rules_file(statistics: &mut RulesStatistics, _bytes: &Bytes)
    ensures counted { statistics.new ≡ rules_counts_after_file statistics.old
        (found (file _bytes.now)) }
    ensures files { statistics.old.pattern_files ≤ statistics.new.pattern_files }
    ensures most { statistics.new.pattern_files ≤ statistics.old.pattern_files + 1 }
{
    statistics.tried_pattern_files = statistics.tried_pattern_files.saturating_add(1);
    statistics.pattern_files = statistics.pattern_files.saturating_add(1);
}

/// Counts a blob that was found.
fn count_read_blob(statistics: &mut RulesStatistics, _bytes: &Bytes)
    ensures counted { statistics.new ≡ rules_counts_after_blob statistics.old
        (Some (blob _bytes.now)) }
    ensures buffers { statistics.old.patterns_buffers ≤ statistics.new.patterns_buffers }
    ensures most { statistics.new.patterns_buffers ≤ statistics.old.patterns_buffers + 1 }
{
    statistics.patterns_buffers = statistics.patterns_buffers.saturating_add(1);
}

/// Sets the path of the rules file of a directory, in the room of another.
fn set_rules_path(
    alloc: Global,
    path: &mut PathText,
    directory: &[u8],
    name: &[u8],
) -> Result<(), OutOfMemory>
    ensures { OnOk result (path.new ≡ path_joined_with_slash directory.now name.now) }
{
    path.truncate(0);
    path.push_component(alloc, directory)?;
    path.push_component(alloc, name)
}

/// Sets the whole path of one below a root, in the room of another.
fn set_whole_path(
    alloc: Global,
    whole: &mut PathText,
    root: &[u8],
    path: &[u8],
) -> Result<(), OutOfMemory>
    ensures { OnOk result (whole.new ≡ root_joined_with_relative root.now path.now) }
{
    whole.truncate(0);
    whole.push_component(alloc, root)?;
    if path.is_empty() {
        return Ok(());
    }
    whole.push_component(alloc, path)
}

/// Sets the path of the rules file of a directory below a root, and its whole path, in the room of
/// others.
pub(super) fn set_rules_and_whole_paths(
    alloc: Global,
    path: &mut PathText,
    whole: &mut PathText,
    root: &[u8],
    directory: &[u8],
    name: &[u8],
) -> Result<(), OutOfMemory>
    ensures path { OnOk result (path.new ≡ path_joined_with_slash directory.now name.now) }
    ensures whole { OnOk result (whole.new ≡ root_joined_with_relative root.now
        (path_joined_with_slash directory.now name.now)) }
{
    set_rules_path(alloc, path, directory, name)?;
    set_whole_path(alloc, whole, root, path.as_bytes())
}
