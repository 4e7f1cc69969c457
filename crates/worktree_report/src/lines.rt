//! The lines of a report.
ghost use Rattle.std.specs.Prelude.{◌≡◌, ◌++◌, decimal, if◌then◌else◌, IfOk, OnOk};
ghost use Rattle.worktree_report.specs.Lines.{word_of_status, word_of_kind, word_of_pathspec_match, word_of_property, word_of_folded_status, word_of_activity, word_of_submodule, submodule_word_if, gitignore_above_path, word_of_rule_group, word_of_rule_origin, rule_origin_word_if, word_and_space, class_words_of_entry, line_of_report_entry, lines_of_report_entries, outcome_line, text_of_report};
ghost use Rattle.worktree_report.specs.Submodules.{report_entry_of_parts};

use crate::below::join_first_components;
use crate::escape::{append_path_escaped, append_path_hex_escaped};
use crate::facts::{Activity, Facts};
use crate::report::{Report, ReportEntry};
use crate::setup::SetupOptions;
use dir_classify::{Entry, Kind, PathspecMatch, Property, Status};
use dir_walk::Outcome;
use gitbase_core::{Bytes, OutOfMemory, PathText};
use glob_rules::ignore;
use glob_rules::ignore::{Origin, RuleGroup};
use std::alloc::Global;

fn word_of_status(status: Status) -> &'static [u8]
    ensures { result.now ≡ word_of_status status }
{
    match status {
        Status::Pruned => b"pruned",
        Status::Tracked => b"tracked",
        Status::Ignored(ignore::Kind::Expendable) => b"ignored",
        Status::Ignored(ignore::Kind::Precious) => b"precious",
        Status::Untracked => b"untracked",
    }
}

fn word_of_kind(kind: Option<Kind>) -> &'static [u8]
    ensures { result.now ≡ word_of_kind kind }
{
    match kind {
        None => b"-",
        Some(Kind::Untrackable) => b"untrackable",
        Some(Kind::File) => b"file",
        Some(Kind::Symlink) => b"symlink",
        Some(Kind::Directory) => b"directory",
        Some(Kind::Repository) => b"repository",
    }
}

fn word_of_pathspec_match(found: Option<PathspecMatch>) -> &'static [u8]
    ensures { result.now ≡ word_of_pathspec_match found }
{
    match found {
        None => b"-",
        Some(PathspecMatch::Always) => b"always",
        Some(PathspecMatch::Excluded) => b"excluded",
        Some(PathspecMatch::Prefix) => b"prefix",
        Some(PathspecMatch::WildcardMatch) => b"wildcard",
        Some(PathspecMatch::Verbatim) => b"verbatim",
    }
}

fn word_of_property(property: Option<Property>) -> &'static [u8]
    ensures { result.now ≡ word_of_property property }
{
    match property {
        None => b"-",
        Some(Property::DotGit) => b"dotgit",
        Some(Property::EmptyDirectory) => b"empty",
        Some(Property::EmptyDirectoryAndCWD) => b"emptycwd",
        Some(Property::TrackedExcluded) => b"excluded",
    }
}

fn word_of_folded_status(status: Option<Status>) -> &'static [u8]
    ensures { result.now ≡ word_of_folded_status status }
{
    match status {
        None => b"-",
        Some(status) => word_of_status(status),
    }
}

fn append_word_and_space(text: &mut Vec<u8>, word: &[u8]) -> Result<(), OutOfMemory>
    ensures { OnOk result (text.new.items ≡ text.old.items ++ word_and_space word.now) }
{
    text.extend_from_slice(word)?;
    text.push(b' ')?;
    Ok(())
}

fn word_of_activity(activity: &Activity) -> &'static [u8]
    ensures { result.now ≡ word_of_activity activity.now }
{
    match activity {
        Activity::Active => b"active:",
        Activity::Inactive => b"inactive:",
        Activity::Invalid { input: _ } => b"invalid:",
    }
}

/// Adds the submodule at a path, and whether it is active.
fn append_submodule_word(text: &mut Vec<u8>, facts: &Option<Facts>) -> Result<(), OutOfMemory>
    ensures { OnOk result (text.new.items ≡ text.old.items ++ word_of_submodule facts.now) }
{
    let Some(facts) = facts else {
        text.push(b'-')?;
        return Ok(());
    };
    text.extend_from_slice(word_of_activity(&facts.active))?;
    append_path_hex_escaped(text, facts.name.as_bytes())
}

/// Adds a space and that word, where it is asked for.
fn append_submodule_word_if(
    text: &mut Vec<u8>,
    submodules: bool,
    facts: &Option<Facts>,
) -> Result<(), OutOfMemory>
    ensures { OnOk result (text.new.items ≡ text.old.items ++ submodule_word_if submodules
        facts.now) }
{
    if !submodules {
        return Ok(());
    }
    text.push(b' ')?;
    append_submodule_word(text, facts)
}

/// The rules file of the directory above a path that has so many components.
fn gitignore_above_path(alloc: Global, path: &[u8], depth: usize) -> Result<PathText, OutOfMemory>
    ensures { IfOk result (λ file. file ≡ gitignore_above_path path.now depth) }
{
    let mut file = join_first_components(alloc, b"", depth, path)?;
    file.push_component(alloc, b".gitignore")?;
    Ok(file)
}

/// Adds the list of a rule that decided about a path.
fn append_rule_group(
    alloc: Global,
    text: &mut Vec<u8>,
    path: &[u8],
    group: RuleGroup,
) -> Result<(), OutOfMemory>
    ensures { OnOk result (text.new.items ≡ text.old.items ++ word_of_rule_group path.now group) }
{
    match group {
        RuleGroup::Overrides => text.extend_from_slice(b"overrides")?,
        RuleGroup::Directory { depth } => {
            let file = gitignore_above_path(alloc, path, depth)?;
            append_path_hex_escaped(text, file.as_bytes())?;
        }
        RuleGroup::Globals => text.extend_from_slice(b"globals")?,
    }
    Ok(())
}

/// The sign of a rule.
fn sign_of_rule(negative: bool) -> u8
    ensures { result ≡ (if negative then 33 else 43) }
{
    if negative { b'!' } else { b'+' }
}

/// Adds where the rule that decided about a path stands.
fn append_rule_origin(
    alloc: Global,
    text: &mut Vec<u8>,
    path: &[u8],
    origin: Option<Origin>,
) -> Result<(), OutOfMemory>
    ensures { OnOk result (text.new.items ≡ text.old.items ++ word_of_rule_origin path.now origin) }
{
    let Some(origin) = origin else {
        text.push(b'-')?;
        return Ok(());
    };
    text.push(sign_of_rule(origin.negative))?;
    append_rule_group(alloc, text, path, origin.group)?;
    text.push(b':')?;
    append_decimal_number(alloc, text, origin.line as u64)
}

/// Adds a space and that word, where it is asked for.
fn append_rule_origin_if(
    alloc: Global,
    text: &mut Vec<u8>,
    origins: bool,
    entry: &Entry,
) -> Result<(), OutOfMemory>
    ensures { OnOk result (text.new.items
        ≡ text.old.items ++ rule_origin_word_if origins entry.now.rela_path entry.now.origin) }
{
    if !origins {
        return Ok(());
    }
    text.push(b' ')?;
    append_rule_origin(alloc, text, entry.rela_path.as_bytes(), entry.origin)
}

/// Adds what each line has: the class of an entry, and the status of the directory that it was
/// folded into.
fn append_class_words(
    text: &mut Vec<u8>,
    entry: &Entry,
    collapsed: Option<Status>,
) -> Result<(), OutOfMemory>
    ensures { OnOk result (text.new.items
        ≡ text.old.items ++ class_words_of_entry entry.now collapsed) }
{
    append_word_and_space(text, word_of_status(entry.status))?;
    append_word_and_space(text, word_of_kind(entry.disk_kind))?;
    append_word_and_space(text, word_of_kind(entry.index_kind))?;
    append_word_and_space(text, word_of_pathspec_match(entry.pathspec_match))?;
    append_word_and_space(text, word_of_property(entry.property))?;
    text.extend_from_slice(word_of_folded_status(collapsed))?;
    Ok(())
}

/// Adds the line of an entry.
#[tactic(auto, unfolding(crate::specs::Lines::line_of_report_entry))]
pub fn append_line_of_entry(
    alloc: Global,
    text: &mut Vec<u8>,
    options: &SetupOptions,
    entry: &Entry,
    collapsed: Option<Status>,
    facts: &Option<Facts>,
) -> Result<(), OutOfMemory>
    ensures { OnOk result (text.new.items ≡ text.old.items ++ line_of_report_entry options.now
        (report_entry_of_parts entry.now collapsed facts.now)) }
{
    append_class_words(text, entry, collapsed)?;
    append_submodule_word_if(text, options.submodules, facts)?;
    append_rule_origin_if(alloc, text, options.origins, entry)?;
    text.push(b'\t')?;
    append_path_escaped(text, entry.rela_path.as_bytes())?;
    text.push(b'\n')?;
    Ok(())
}

/// Adds the lines of the entries, in their order.
fn append_lines_of_entries(
    alloc: Global,
    text: &mut Vec<u8>,
    options: &SetupOptions,
    entries: &[ReportEntry],
) -> Result<(), OutOfMemory>
    ensures { OnOk result (text.new.items ≡ text.old.items ++ lines_of_report_entries options.now
        entries.now) }
{
    for entry in entries {
        append_line_of_entry(
            alloc,
            text,
            options,
            &entry.entry,
            entry.collapsed,
            &entry.facts,
        )?;
    }
    Ok(())
}

/// Adds a decimal number.
pub fn append_decimal_number(
    alloc: Global,
    text: &mut Vec<u8>,
    number: u64,
) -> Result<(), OutOfMemory>
    ensures { OnOk result (text.new.items ≡ text.old.items ++ decimal number) }
{
    let digits = format!(in alloc; "{number}")?;
    text.extend_from_slice(digits.as_bytes())?;
    Ok(())
}

/// Adds the line that says how much was walked.
pub fn append_outcome_line(
    alloc: Global,
    text: &mut Vec<u8>,
    outcome: &Outcome,
) -> Result<(), OutOfMemory>
    ensures { OnOk result (text.new.items ≡ text.old.items ++ outcome_line outcome.now) }
{
    text.extend_from_slice(b"# read_dir ")?;
    append_decimal_number(alloc, text, outcome.read_dir_calls as u64)?;
    text.extend_from_slice(b" returned ")?;
    append_decimal_number(alloc, text, outcome.returned_entries as u64)?;
    text.extend_from_slice(b" seen ")?;
    append_decimal_number(alloc, text, outcome.seen_entries as u64)?;
    text.push(b'\n')?;
    Ok(())
}

/// The text of a report: a line for each entry, with the words that the options ask for, and a last
/// line that says how much was walked where they ask for it.
///
/// # Errors
///
/// Memory was refused.
pub fn report_bytes(
    alloc: Global,
    report: &Report,
    options: &SetupOptions,
) -> Result<Bytes, OutOfMemory>
    ensures { IfOk result (λ text. text ≡ text_of_report options.now report.now) }
{
    let mut text = Vec::new(alloc);
    append_lines_of_entries(alloc, &mut text, options, report.entries.as_slice())?;
    if options.print_outcome {
        append_outcome_line(alloc, &mut text, &report.outcome)?;
    }
    Ok(Bytes::from_vec(text))
}
