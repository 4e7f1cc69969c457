//! Searches in an index without regard to the case of letters.
ghost use Rattle.std.specs.Prelude.{◌≡◌, ◌≤◌, ◌++◌, ◌==◌, ◌||◌, [], All, Contains, IfOk, MatchOption, is_some, option_copied};
ghost use Rattle.std.specs.List.{range_with_len};
ghost use Rattle.std.specs.Ordering.{is_lt, is_eq};
ghost use Rattle.gitbase_core.specs.Entry.{mode_bits, gitlink_mode, sparse_directory_mode};
ghost use Rattle.gitbase_core.specs.Text.{fold_case};
ghost use Rattle.gitbase_core.specs.Lookup.{folded_path_of_numbered_entry, compare_entry_numbers_by_folded_path, IsCaseFoldedLookupOfEntries, first_entry_at_path_icase, first_entry_beneath_directory_icase, directory_kinds_from_entry_beneath, is_entry_direct_child_of_path, index_kinds_of_path_icase};
ghost use Rattle.gitbase_core.specs.Index.{compare_path_bytes, compare_path_start_with_prefix, key_begins_with_prefix, IsSortedByPathKey, IsFirstElementNotBelowPath, IsExactRangeOfMatches};

use crate::entry::{Flags, IndexEntry};
use crate::index::State;
use crate::kinds::{EntryKind, IndexKinds, NO_KINDS, index_kinds_of_entry};
use crate::out_of_memory::OutOfMemory;
use std::alloc::Global;
use std::cmp::Ordering;
use std::marker::Model;

/// The numbers of the entries of an index in the order of their paths without regard to the case of
/// ASCII letters, as gitoxide's `AccelerateLookup`: with it an entry is found by binary search
/// where `ignore_case` holds.
///
/// Contracts see the list of all numbers, ascending by folded path, then by number.
///
/// See docs/DIFFERENCES.md#gix-lookup-without-case.
#[derive(Debug, Drop)]
pub struct AccelerateLookup {
    numbers: Vec<usize>,
}

impl Model for AccelerateLookup {
    ghost use Rattle.std.specs.Prelude.{ℕ, List};

    ghost Value = { List ℕ };

    ghost view = { λ lookup. lookup.numbers.items };
}

impl AccelerateLookup {
    /// The lookup of an index, which serves that index alone.
    pub fn from_state(alloc: Global, state: &State) -> Result<AccelerateLookup, OutOfMemory>
        ensures { IfOk result (IsCaseFoldedLookupOfEntries state.now) }
    {
        let entries = state.entries();
        let mut numbers = collect_numbers_below_bound(alloc, entries.len())?;
        numbers.sort_by(|a, b| compare_entry_numbers_by_folded_path(entries, *a, *b))?;
        Ok(AccelerateLookup { numbers })
    }
}

impl State {
    /// The first entry, in the order of the index, whose path is `path` without regard to the case
    /// of ASCII letters.
    ///
    /// The lookup is one made from this index. A binary search finds the entry; no clause speaks of
    /// the cost.
    ///
    /// See docs/DECISIONS.md#first-without-case.
    pub fn entry_by_path_icase(&self, path: &[u8], lookup: &AccelerateLookup) -> Option<&IndexEntry>
        requires { IsCaseFoldedLookupOfEntries self.now lookup.now }
        ensures { option_copied result ≡ first_entry_at_path_icase path.now self.now }
    {
        first_entry_at_path_icase(self.entries(), &lookup.numbers, path)
    }

    /// The first entry, in the order of the index, whose path begins with `dir` and a slash without
    /// regard to the case of ASCII letters.
    ///
    /// The lookup is one made from this index. The entries beneath `dir` are found by binary
    /// search, and all their numbers are looked at for the least; no clause speaks of this cost.
    pub fn entry_closest_to_directory_or_directory_icase(
        &self,
        dir: &[u8],
        lookup: &AccelerateLookup,
    ) -> Option<&IndexEntry>
        requires { IsCaseFoldedLookupOfEntries self.now lookup.now }
        ensures { option_copied result ≡ first_entry_beneath_directory_icase dir.now self.now }
    {
        first_entry_beneath_directory_icase(self.entries(), &lookup.numbers, dir)
    }

    /// Whether the index has an entry whose path is `path` without regard to the case of ASCII
    /// letters.
    ///
    /// The lookup is one made from this index. A binary search tells; no clause speaks of the cost.
    pub fn has_entry_at_path_icase(&self, path: &[u8], lookup: &AccelerateLookup) -> bool
        requires { IsCaseFoldedLookupOfEntries self.now lookup.now }
        ensures { result ≡ is_some (first_entry_at_path_icase path.now self.now) }
    {
        self.entry_by_path_icase(path, lookup).is_some()
    }

    /// Whether the index has an entry whose path begins with `dir` and a slash without regard to
    /// the case of ASCII letters.
    ///
    /// The lookup is one made from this index. Two binary searches tell, and no pass over these
    /// entries is made; no clause speaks of the cost.
    pub fn has_entry_beneath_directory_icase(&self, dir: &[u8], lookup: &AccelerateLookup) -> bool
        requires { IsCaseFoldedLookupOfEntries self.now lookup.now }
        ensures { result ≡ is_some (first_entry_beneath_directory_icase dir.now self.now) }
    {
        is_any_entry_beneath_icase(self.entries(), &lookup.numbers, dir)
    }

    /// What the index says of `path` without regard to the case of ASCII letters; a sparse
    /// directory is not told so.
    ///
    /// Let the entry at the path, and the first one beneath it, be those that the two look-ups
    /// above find. Without an entry at the path the one beneath shows a directory, which is vouched
    /// for where that one is. An entry at the path that is a submodule or a sparse directory tells
    /// its kind by its mode. Beside another one at the path the entry beneath shows a directory
    /// where it stands right in the directory of just this spelling; else the entry at the path
    /// tells its kind. The lookup is one made from this index.
    pub fn index_kinds_of_path_icase(&self, path: &[u8], lookup: &AccelerateLookup) -> IndexKinds
        requires { IsCaseFoldedLookupOfEntries self.now lookup.now }
        ensures { result ≡ index_kinds_of_path_icase self.now path.now }
    {
        let Some(entry) = self.entry_by_path_icase(path, lookup) else {
            return directory_kinds_from_entry_beneath(
                self.entry_closest_to_directory_or_directory_icase(path, lookup),
            );
        };
        if entry.mode.is_submodule() || entry.mode.is_sparse() {
            return index_kinds_of_entry(entry);
        }
        let beneath = self.entry_closest_to_directory_or_directory_icase(path, lookup);
        if is_entry_direct_child_of_path(path, beneath) {
            return directory_kinds_from_entry_beneath(beneath);
        }
        index_kinds_of_entry(entry)
    }
}

/// The first entry whose path is `path` without regard to case.
fn first_entry_at_path_icase<'a>(
    entries: &'a [IndexEntry],
    numbers: &[usize],
    path: &[u8],
) -> Option<&'a IndexEntry>
    requires { IsCaseFoldedLookupOfEntries entries.now numbers.now }
    ensures { option_copied result ≡ first_entry_at_path_icase path.now entries.now }
{
    let Some(number) = first_number_not_below_path_icase(entries, numbers, path) else {
        return None;
    };
    let Some(entry) = entries.get(number) else {
        return None;
    };
    if compare_bytes_ignoring_case(entry.path.as_bytes(), path).is_eq() {
        return Some(entry);
    }
    None
}

/// The first entry beneath `dir` without regard to case.
fn first_entry_beneath_directory_icase<'a>(
    entries: &'a [IndexEntry],
    numbers: &[usize],
    dir: &[u8],
) -> Option<&'a IndexEntry>
    requires { IsCaseFoldedLookupOfEntries entries.now numbers.now }
    ensures { option_copied result ≡ first_entry_beneath_directory_icase dir.now entries.now }
{
    let (start, end) = number_range_with_path_prefix_icase(entries, numbers, dir, b"/");
    let Some(number) = least_number(&numbers[start..end]) else {
        return None;
    };
    entries.get(number)
}

/// Whether an entry stands beneath `dir` without regard to case.
fn is_any_entry_beneath_icase(entries: &[IndexEntry], numbers: &[usize], dir: &[u8]) -> bool
    requires { IsCaseFoldedLookupOfEntries entries.now numbers.now }
    ensures { result ≡ is_some (first_entry_beneath_directory_icase dir.now entries.now) }
{
    let (start, end) = number_range_with_path_prefix_icase(entries, numbers, dir, b"/");
    if start < end {
        return true;
    }
    false
}

/// What an entry beneath a path says of it.
///
/// `ASSUME_VALID` vouches for a directory here, though not where case counts: gitoxide asks the
/// entry as it asks one at the path.
fn directory_kinds_from_entry_beneath(beneath: Option<&IndexEntry>) -> IndexKinds
    ensures { result ≡ directory_kinds_from_entry_beneath (option_copied beneath.entry) }
{
    let Some(entry) = beneath else {
        return NO_KINDS;
    };
    let is_vouched_for = entry.flags.contains(Flags::UPTODATE)
        || entry.flags.contains(Flags::ASSUME_VALID);
    IndexKinds {
        up_to_date: if is_vouched_for {
            Some(EntryKind::Directory)
        } else {
            None
        },
        kind: Some(EntryKind::Directory),
        is_left_out: false,
    }
}

/// Whether an entry stands right in the directory of this spelling.
fn is_entry_direct_child_of_path(path: &[u8], beneath: Option<&IndexEntry>) -> bool
    ensures { result ≡ is_entry_direct_child_of_path path.now (option_copied beneath.entry) }
{
    let Some(entry) = beneath else {
        return false;
    };
    match entry.path.parent() {
        Some(up) => up == path,
        None => false,
    }
}

/// All numbers below a bound.
fn collect_numbers_below_bound(alloc: Global, bound: usize) -> Result<Vec<usize>, OutOfMemory>
    ensures { IfOk result (λ numbers. numbers.items ≡ range_with_len 0 bound) }
{
    let mut numbers = Vec::with_capacity(alloc, bound)?;
    for number in 0..bound {
        numbers.push(number)?;
    }
    Ok(numbers)
}

/// The path of the entry of a number.
fn path_of_numbered_entry(entries: &[IndexEntry], number: usize) -> &[u8]
    ensures { fold_case result.now ≡ folded_path_of_numbered_entry entries.now number }
{
    match entries.get(number) {
        Some(entry) => entry.path.as_bytes(),
        None => b"",
    }
}

/// By folded path, then by number.
fn compare_entry_numbers_by_folded_path(entries: &[IndexEntry], a: usize, b: usize) -> Ordering
    ensures { result ≡ compare_entry_numbers_by_folded_path entries.now a b }
{
    compare_bytes_ignoring_case(
        path_of_numbered_entry(entries, a),
        path_of_numbered_entry(entries, b),
    )
    .then(a.cmp(&b))
}

/// By the bytes in lower case.
fn compare_bytes_ignoring_case(left: &[u8], right: &[u8]) -> Ordering
    ensures { result ≡ compare_path_bytes (fold_case left.now) (fold_case right.now) }
{
    let both = left.len().min(right.len());
    for i in 0..both {
        let found = left[i]
            .to_ascii_lowercase()
            .cmp(&right[i].to_ascii_lowercase());
        if found.is_ne() {
            return found;
        }
    }
    left.len().cmp(&right.len())
}

/// The first number whose entry's path, folded, does not stand below `path`.
fn first_number_not_below_path_icase(
    entries: &[IndexEntry],
    numbers: &[usize],
    path: &[u8],
) -> Option<usize>
    requires { IsSortedByPathKey (folded_path_of_numbered_entry entries.now) numbers.now }
    ensures { IsFirstElementNotBelowPath (folded_path_of_numbered_entry entries.now)
        (fold_case path.now) numbers.now result }
{
    let at = numbers.partition_point(|number| is_numbered_path_below_icase(entries, *number, path));
    numbers.get(at).copied()
}

/// Whether the path of the entry of a number, folded, stands below `path`.
fn is_numbered_path_below_icase(entries: &[IndexEntry], number: usize, path: &[u8]) -> bool
    ensures { result ≡ is_lt (compare_path_bytes (folded_path_of_numbered_entry entries.now number)
        (fold_case path.now)) }
{
    compare_bytes_ignoring_case(path_of_numbered_entry(entries, number), path).is_lt()
}

/// Where the numbers stand whose entries' paths, folded, begin with `front` and `back` behind it.
fn number_range_with_path_prefix_icase(
    entries: &[IndexEntry],
    numbers: &[usize],
    front: &[u8],
    back: &[u8],
) -> (usize, usize)
    requires { IsSortedByPathKey (folded_path_of_numbered_entry entries.now) numbers.now }
    ensures { IsExactRangeOfMatches (key_begins_with_prefix (folded_path_of_numbered_entry
        entries.now) (fold_case (front.now ++ back.now))) numbers.now result.0 result.1 }
{
    let start = numbers.partition_point(|number| is_number_before_prefix_range_icase(
        entries, *number, front, back,
    ));
    let (_, rest) = numbers.split_at(start);
    let length = rest.partition_point(|number| is_number_in_prefix_range_icase(
        entries, *number, front, back,
    ));
    (start, start + length)
}

/// Whether the path of the entry of a number, folded, stands before those that begin with `front`
/// and `back` behind it.
fn is_number_before_prefix_range_icase(
    entries: &[IndexEntry],
    number: usize,
    front: &[u8],
    back: &[u8],
) -> bool
    ensures { result
        ≡ is_lt (compare_path_start_with_prefix (fold_case (front.now ++ back.now))
        (folded_path_of_numbered_entry entries.now number)) }
{
    compare_path_start_with_prefix_icase(
        path_of_numbered_entry(entries, number),
        front,
        back,
    ).is_lt()
}

/// Whether the path of the entry of a number, folded, begins with `front` and `back` behind it,
/// folded.
fn is_number_in_prefix_range_icase(
    entries: &[IndexEntry],
    number: usize,
    front: &[u8],
    back: &[u8],
) -> bool
    ensures { result
        ≡ is_eq (compare_path_start_with_prefix (fold_case (front.now ++ back.now))
        (folded_path_of_numbered_entry entries.now number)) }
{
    compare_path_start_with_prefix_icase(
        path_of_numbered_entry(entries, number),
        front,
        back,
    ).is_eq()
}

/// Where a path, folded, stands beside those that begin with `front` and `back` behind it.
fn compare_path_start_with_prefix_icase(path: &[u8], front: &[u8], back: &[u8]) -> Ordering
    ensures { result ≡ compare_path_start_with_prefix (fold_case (front.now ++ back.now))
        (fold_case path.now) }
{
    let (start, rest) = path.split_at(path.len().min(front.len()));
    let (rest, _) = rest.split_at(rest.len().min(back.len()));
    compare_bytes_ignoring_case(start, front).then(compare_bytes_ignoring_case(rest, back))
}

/// The least of some numbers.
fn least_number(numbers: &[usize]) -> Option<usize>
    ensures { MatchOption result (numbers.now ≡ [])
        (λ least. Contains numbers.now least × All (λ number. least ≤ number) numbers.now) }
{
    numbers.iter().copied().min()
}
