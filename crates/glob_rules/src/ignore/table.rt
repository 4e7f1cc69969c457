//! Tables of the rules of a long list, by which the last that matches a path is found without
//! trying each.
ghost use Rattle.std.specs.Prelude.{ℕ, ◌≡◌, ◌↔◌, ◌≤◌, ◌<◌, ◌+◌, ◌++◌, [], ◌∷◌, cond, length, IfOk, IsTrue, option_copied};
ghost use Rattle.std.specs.List.{filter, range_with_len};
ghost use Rattle.std.specs.List.Sorted.{IsSorted, IsStrictlyIncreasing};
ghost use Rattle.std.specs.Ordering.{is_le};
ghost use Rattle.gitbase_core.specs.Index.{compare_path_bytes};
ghost use Rattle.glob_rules.specs.declared.Case.TheVariants.{Sensitive};
ghost use Rattle.glob_rules.specs.Ignore.{last_matching_entry};
ghost use Rattle.glob_rules.specs.Tables as tables;
ghost use Rattle.glob_rules.specs.Tables.{IsTableOfRules, AreRulesFoundByCore, LastCountedPasses, AllMatchesWithCoreAreBelow, AllMatchesWithDottedEndingAreBelow, AllPassingNumbersAreBelow, core_of_numbered_rule, numbered_rule_matches_path, compare_rule_numbers_by_core};

use super::line::Entry;
use crate::Case;
use gitbase_core::OutOfMemory;
use std::alloc::Global;
use std::cmp::Ordering;

/// The numbers of the rules of a list: those that are found by the core of their pattern, in the
/// order of these, and the others.
#[derive(Debug, Drop)]
pub struct Table {
    pub sorted: Vec<usize>,
    pub rest: Vec<usize>,
}

/// The core of the rule of a number.
fn core_of_numbered_rule(entries: &[Entry], number: usize) -> &[u8]
    ensures { result.now ≡ tables.core_of_numbered_rule entries.now number }
{
    match entries.get(number) {
        Some(entry) => entry.pattern.text_without_leading_star(),
        None => b"",
    }
}

/// Whether the rule of a number is found by its core.
fn is_numbered_rule_found_by_core(entries: &[Entry], number: usize) -> bool
    ensures { result ≡ tables.is_numbered_rule_found_by_core entries.now number }
{
    match entries.get(number) {
        Some(entry) => entry.pattern.can_be_looked_up_by_core(),
        None => false,
    }
}

/// Whether the rule of a number matches a path in its parts.
fn numbered_rule_matches_path(
    entries: &[Entry],
    number: usize,
    name: &[u8],
    relative: Option<&[u8]>,
    is_dir: Option<bool>,
) -> bool
    ensures { result ≡ tables.numbered_rule_matches_path entries.now name.now
        (option_copied relative.entry) is_dir number }
{
    match entries.get(number) {
        Some(entry) => entry
            .pattern
            .matches_name_or_relative_path(name, relative, is_dir, Case::Sensitive),
        None => false,
    }
}

/// Whether the rule of a number has this core.
fn numbered_rule_has_core(entries: &[Entry], number: usize, text: &[u8]) -> bool
    ensures { IsTrue result ↔ (core_of_numbered_rule entries.now number ≡ text.now) }
{
    core_of_numbered_rule(entries, number) == text
}

/// The number behind that of a rule.
fn rule_number_plus_one(entries: &[Entry], number: usize) -> usize
    requires { number < length entries.now }
    ensures { result ≡ number + 1 }
{
    let _length = entries.len();
    number + 1
}

/// By core, then by number.
fn compare_rule_numbers_by_core(entries: &[Entry], a: usize, b: usize) -> Ordering
    ensures { result ≡ compare_rule_numbers_by_core entries.now a b }
{
    core_of_numbered_rule(entries, a)
        .cmp(core_of_numbered_rule(entries, b))
        .then(a.cmp(&b))
}

/// Whether the core of the rule of a number does not stand behind `text`.
fn is_rule_core_at_most(entries: &[Entry], number: usize, text: &[u8]) -> bool
    ensures { result ≡ is_le (compare_path_bytes (core_of_numbered_rule entries.now number)
        text.now) }
{
    core_of_numbered_rule(entries, number).cmp(text).is_le()
}

/// How many rules there are up to the last of those in the table that have this core and match; or
/// `found` where that is more.
fn rule_count_through_last_match_with_core(
    entries: &[Entry],
    sorted: &[usize],
    text: &[u8],
    name: &[u8],
    relative: Option<&[u8]>,
    is_dir: Option<bool>,
    found: usize,
) -> usize
    requires ordered { IsSorted (compare_rule_numbers_by_core entries.now) sorted.now }
    requires so_far { LastCountedPasses (numbered_rule_matches_path entries.now name.now
        (option_copied relative) is_dir) found }
    ensures ends { LastCountedPasses (numbered_rule_matches_path entries.now name.now
        (option_copied relative.entry) is_dir) result }
    ensures more { found ≤ result }
    ensures all { AllMatchesWithCoreAreBelow (numbered_rule_matches_path entries.now name.now
        (option_copied relative.entry) is_dir) (core_of_numbered_rule entries.now) sorted.now
        text.now result }
{
    let mut at = sorted.partition_point(|number| is_rule_core_at_most(entries, *number, text));
    while at > 0 {
        at -= 1;
        let number = sorted[at];
        if !numbered_rule_has_core(entries, number, text) {
            return found;
        }
        if number < found {
            return found;
        }
        if numbered_rule_matches_path(entries, number, name, relative, is_dir) {
            return rule_number_plus_one(entries, number);
        }
    }
    found
}

/// The same of the rules whose core is what the name has from one of its dots on.
fn rule_count_up_to_match_by_ending(
    entries: &[Entry],
    sorted: &[usize],
    name: &[u8],
    relative: Option<&[u8]>,
    is_dir: Option<bool>,
    found: usize,
) -> usize
    requires ordered { IsSorted (compare_rule_numbers_by_core entries.now) sorted.now }
    requires so_far { LastCountedPasses (numbered_rule_matches_path entries.now name.now
        (option_copied relative) is_dir) found }
    ensures ends { LastCountedPasses (numbered_rule_matches_path entries.now name.now
        (option_copied relative.entry) is_dir) result }
    ensures more { found ≤ result }
    ensures all { AllMatchesWithDottedEndingAreBelow (numbered_rule_matches_path entries.now name.now
        (option_copied relative.entry) is_dir) (core_of_numbered_rule entries.now) sorted.now
        name.now (length name.now) result }
{
    let mut last = found;
    for at in 0..name.len() {
        if name[at] == b'.' {
            let (_, ending) = name.split_at(at);
            last = rule_count_through_last_match_with_core(
                entries, sorted, ending, name, relative, is_dir, last,
            );
        }
    }
    last
}

/// The same of all rules in the table.
fn rule_count_through_last_match_in_sorted(
    entries: &[Entry],
    sorted: &[usize],
    name: &[u8],
    relative: Option<&[u8]>,
    is_dir: Option<bool>,
) -> usize
    requires ordered { IsSorted (compare_rule_numbers_by_core entries.now) sorted.now }
    requires cores { AreRulesFoundByCore entries.now sorted.now }
    ensures ends { LastCountedPasses (numbered_rule_matches_path entries.now name.now
        (option_copied relative.entry) is_dir) result }
    ensures all { AllPassingNumbersAreBelow (numbered_rule_matches_path entries.now name.now
        (option_copied relative.entry) is_dir) sorted.now result }
{
    let found = rule_count_through_last_match_with_core(
        entries, sorted, name, name, relative, is_dir, 0,
    );
    let found = rule_count_up_to_match_by_ending(entries, sorted, name, relative, is_dir, found);
    match relative {
        Some(path) => rule_count_through_last_match_with_core(
            entries, sorted, path, name, relative, is_dir, found,
        ),
        None => found,
    }
}

/// The same of these rules.
fn rule_count_up_to_match_in_rest(
    entries: &[Entry],
    rest: &[usize],
    name: &[u8],
    relative: Option<&[u8]>,
    is_dir: Option<bool>,
    found: usize,
) -> usize
    requires rises { IsStrictlyIncreasing rest.now }
    requires so_far { LastCountedPasses (numbered_rule_matches_path entries.now name.now
        (option_copied relative) is_dir) found }
    ensures ends { LastCountedPasses (numbered_rule_matches_path entries.now name.now
        (option_copied relative.entry) is_dir) result }
    ensures more { found ≤ result }
    ensures all { AllPassingNumbersAreBelow (numbered_rule_matches_path entries.now name.now
        (option_copied relative.entry) is_dir) rest.now result }
{
    let mut at = rest.len();
    while at > 0 {
        at -= 1;
        let number = rest[at];
        if number < found {
            return found;
        }
        if numbered_rule_matches_path(entries, number, name, relative, is_dir) {
            return rule_number_plus_one(entries, number);
        }
    }
    found
}

/// Whether the rule of a number is found by its core, or is not.
fn agrees_with_found_by_core_flag(entries: &[Entry], number: usize, is_found: bool) -> bool
    ensures { result ≡ tables.agrees_with_found_by_core_flag entries.now is_found number }
{
    if is_found {
        is_numbered_rule_found_by_core(entries, number)
    } else {
        !is_numbered_rule_found_by_core(entries, number)
    }
}

/// The numbers, and one more where it is taken.
fn push_number_if_taken(
    numbers: Vec<usize>,
    number: usize,
    is_taken: bool,
) -> Result<Vec<usize>, OutOfMemory>
    ensures { IfOk result (λ more. more.items ≡ numbers.items ++ cond is_taken (number ∷ []) []) }
{
    let mut numbers = numbers;
    if is_taken {
        numbers.push(number)?;
    }
    Ok(numbers)
}

/// The numbers of the rules that are found by their cores, or of those that are not, ascending.
fn rule_numbers_found_by_core_or_not(
    alloc: Global,
    entries: &[Entry],
    is_found: bool,
) -> Result<Vec<usize>, OutOfMemory>
    ensures { IfOk result (λ numbers. numbers.items ≡ filter (tables.agrees_with_found_by_core_flag
        entries.now is_found) (range_with_len 0 (length entries.now))) }
{
    let mut numbers = Vec::new(alloc);
    for number in 0..entries.len() {
        numbers = push_number_if_taken(
            numbers,
            number,
            agrees_with_found_by_core_flag(entries, number, is_found),
        )?;
    }
    Ok(numbers)
}

/// The same numbers.
fn copy_numbers(alloc: Global, numbers: &[usize]) -> Result<Vec<usize>, OutOfMemory>
    ensures { IfOk result (λ copies. copies.items ≡ numbers.now) }
{
    let mut copies = Vec::with_capacity(alloc, numbers.len())?;
    for number in numbers {
        copies.push(*number)?;
    }
    Ok(copies)
}

impl Table {
    /// The tables of some rules; fails only where memory is refused.
    pub fn new(alloc: Global, entries: &[Entry]) -> Result<Table, OutOfMemory>
        ensures { IfOk result (λ table. IsTableOfRules entries.now table.sorted.items
            table.rest.items) }
    {
        let mut sorted = rule_numbers_found_by_core_or_not(alloc, entries, true)?;
        let rest = rule_numbers_found_by_core_or_not(alloc, entries, false)?;
        sorted.sort_by(|a, b| compare_rule_numbers_by_core(entries, *a, *b))?;
        Ok(Table { sorted, rest })
    }

    /// Equal tables; fails only where memory is refused.
    pub fn copy(&self, alloc: Global) -> Result<Table, OutOfMemory>
        ensures sorted { IfOk result (λ copy. copy.sorted.items ≡ self.now.sorted.items) }
        ensures rest { IfOk result (λ copy. copy.rest.items ≡ self.now.rest.items) }
    {
        let sorted = copy_numbers(alloc, &self.sorted)?;
        let rest = copy_numbers(alloc, &self.rest)?;
        Ok(Table { sorted, rest })
    }

    /// The last of the rules that matches a path in its parts, byte for byte.
    pub fn last_matching_entry<'a>(
        &self,
        entries: &'a [Entry],
        name: &[u8],
        relative: Option<&[u8]>,
        is_dir: Option<bool>,
    ) -> Option<&'a Entry>
        requires { IsTableOfRules entries.now self.now.sorted.items self.now.rest.items }
        ensures { option_copied result ≡ last_matching_entry entries.now name.now
            (option_copied relative.entry) is_dir Sensitive }
    {
        let found = rule_count_through_last_match_in_sorted(
            entries,
            &self.sorted,
            name,
            relative,
            is_dir,
        );
        let found = rule_count_up_to_match_in_rest(
            entries, &self.rest, name, relative, is_dir, found,
        );
        if found == 0 {
            return None;
        }
        entries.get(found - 1)
    }
}
