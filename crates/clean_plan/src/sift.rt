//! A look at each entry of a report.
ghost use Rattle.std.specs.Prelude.{◌≡◌, ◌<◌, ◌≤◌, ◌&&◌, ◌||◌, ℕ, List, true, length, nat_lt, IfOk, OnOk};
ghost use Rattle.gitbase_core.specs.Path.{is_beneath_directory};
ghost use Rattle.clean_plan.specs.Asked.{plan_inputs_of_cleaning};
ghost use Rattle.dir_classify.specs.Layers.{IsLookupOfIndexIfGiven};
ghost use Rattle.clean_plan.specs.Paths.{is_text_in_list, borrowed_byte_strings};
ghost use Rattle.clean_plan.specs.Plans.{entries_of_report_entries};
ghost use Rattle.clean_plan.specs.Kept.{specs_exclude_directory};
ghost use Rattle.clean_plan.specs.Sifted.{KnowsBlockedAncestorsOfPath, HoldsRemovableAndBlockedPaths, paths_with_entry_if_removable};
ghost use Rattle.clean_plan.specs.Whole.{blocks_whole_removal};

use crate::fronts::add_ancestors_in_length_range;
use crate::inputs::Cleaning;
use crate::paths::Paths;
use crate::removable::is_entry_removable_by_itself;
use crate::shared::shared_prefix_length;
use crate::whole::length_past_longest_spec_excluded_ancestor;
use dir_classify::Entry;
use gitbase_core::OutOfMemory;
use std::alloc::Global;
use worktree_report::ReportEntry;

/// The paths of the entries that may go by themselves, and the directories that have an entry in
/// their way.
#[derive(Drop)]
pub struct Sifted<'a> {
    pub removable: Vec<&'a [u8]>,
    pub spoiled: Paths<'a>,
}

/// The path that was looked at last. Of the directories above it those with fewer bytes than
/// `added` have an entry in their way, and the path specs take out none of the others.
#[derive(Drop)]
struct Looked<'a> {
    path: &'a [u8],
    added: usize,
}

/// Puts the directories above a path that have fewer bytes than `reach` among those with an entry
/// in their way; those with fewer than `begin` are among them.
fn add_blocked_ancestors<'a>(
    path: &'a [u8],
    begin: usize,
    reach: usize,
    spoiled: &mut Paths<'a>,
) -> Result<Looked<'a>, OutOfMemory>
    requires begin { begin ≤ reach }
    requires reach { reach ≤ length path.now }
    requires among { (d : List ℕ) → is_beneath_directory d path.now ≡ true → length d < begin
        → is_text_in_list d spoiled.old ≡ true }
    ensures spoiled { (d : List ℕ) → OnOk result (is_text_in_list d spoiled.new
        ≡ ((is_beneath_directory d path.now && nat_lt (length d) reach) || is_text_in_list d
        spoiled.old)) }
    ensures path { IfOk result (λ looked. looked.path.now ≡ path.now) }
    ensures added { IfOk result (λ looked. looked.added ≡ reach) }
{
    add_ancestors_in_length_range(path, begin, reach, spoiled)?;
    Ok(Looked { path, added: reach })
}

/// Looks at an entry. What its path has in common with the last one is not looked at again.
fn record_removable_or_blocking_entry<'a>(
    alloc: Global,
    cleaning: &Cleaning<'_>,
    last: &Looked<'_>,
    entry: &'a Entry,
    removable: &mut Vec<&'a [u8]>,
    spoiled: &mut Paths<'a>,
) -> Result<Looked<'a>, OutOfMemory>
    requires lookup { IsLookupOfIndexIfGiven cleaning.now.index.now cleaning.now.lookup.now }
    requires last { KnowsBlockedAncestorsOfPath (specs_exclude_directory cleaning.now.specs.now)
        spoiled.old last.now.path.now last.now.added }
    ensures removable { OnOk result (borrowed_byte_strings removable.new.items
        ≡ paths_with_entry_if_removable (plan_inputs_of_cleaning cleaning.now) entry.now
        (borrowed_byte_strings removable.old.items)) }
    ensures spoiled { (d : List ℕ) → OnOk result (is_text_in_list d spoiled.new
        ≡ (blocks_whole_removal (plan_inputs_of_cleaning cleaning.now) d entry.now ||
        is_text_in_list d spoiled.old)) }
    ensures looked { IfOk result (λ looked. KnowsBlockedAncestorsOfPath (specs_exclude_directory
        cleaning.now.specs.now) spoiled.new looked.path.now looked.added) }
{
    let path = entry.rela_path.as_bytes();
    let shared = shared_prefix_length(last.path, path);
    let begin = last.added.min(shared);
    if is_entry_removable_by_itself(alloc, cleaning, entry)? {
        removable.push(path)?;
        let reach = length_past_longest_spec_excluded_ancestor(cleaning.specs, path, begin, shared);
        return add_blocked_ancestors(path, begin, reach, spoiled);
    }
    add_blocked_ancestors(path, begin, path.len(), spoiled)
}

/// Looks at each entry.
pub(crate) fn collect_removable_and_blocked<'a>(
    alloc: Global,
    cleaning: &Cleaning<'_>,
    entries: &'a [ReportEntry],
) -> Result<Sifted<'a>, OutOfMemory>
    requires lookup { IsLookupOfIndexIfGiven cleaning.now.index.now cleaning.now.lookup.now }
    ensures { IfOk result (HoldsRemovableAndBlockedPaths (plan_inputs_of_cleaning cleaning.now)
        (entries_of_report_entries entries.now)) }
{
    let mut removable = Vec::new(alloc);
    let mut spoiled = Paths::new(alloc);
    let mut last = Looked {
        path: b"",
        added: 0,
    };
    for entry in entries {
        let entry = &entry.entry;
        last = record_removable_or_blocking_entry(
            alloc,
            cleaning,
            &last,
            entry,
            &mut removable,
            &mut spoiled,
        )?;
    }
    Ok(Sifted { removable, spoiled })
}
