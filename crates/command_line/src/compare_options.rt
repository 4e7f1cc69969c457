//! The options of `diff-files` by their names.
ghost use Rattle.std.specs.Prelude.{◌≡◌};
ghost use Rattle.std.specs.List.{list_any};
ghost use Rattle.command_line.specs.Comparings as comparings;

use crate::opt::Opt;

/// Which submodules are told of, as `--ignore-submodules` has it.
#[derive(Clone, Copy, Debug, PartialEq, Eq)]
pub enum Ignoring {
    /// It is not said: the configuration counts.
    Configured,
    /// None is left out, whatever the configuration says.
    Nothing,
    /// All are left out.
    All,
}

/// What is asked of `diff-files`, as git-diff-files(1) has it.
#[derive(Clone, Copy, Debug, PartialEq, Eq)]
pub struct Comparing {
    /// `--raw`.
    pub raw: bool,
    /// `--name-only`.
    pub names: bool,
    /// `--name-status`.
    pub statuses: bool,
    /// `-z`.
    pub ends_in_nul: bool,
    /// `--exit-code`: the answer is no where something changed.
    pub tells_changes: bool,
    /// `--quiet`: the same, and nothing is written.
    pub is_quiet: bool,
    /// `--ignore-submodules`.
    pub ignoring: Ignoring,
}

/// What an option of `diff-files` turns on or off.
#[derive(Clone, Copy, Debug)]
pub enum CompareChoice {
    /// Modes, ids, a letter and the path.
    Raw,
    /// The path.
    Names,
    /// A letter and the path.
    Statuses,
    /// NULs behind all.
    Nul,
    /// It says nothing in git 2.39.5.
    Silent,
    /// Whether something changed is told by the status.
    TellsChanges,
    /// Nothing is written.
    Quiet,
    /// Which submodules are told of.
    Ignores(Ignoring),
}

/// What is asked of `diff-files` where no word says any.
pub fn default_diff_files_request() -> Comparing
    ensures { result ≡ comparings.default_diff_files_request }
{
    Comparing {
        raw: false,
        names: false,
        statuses: false,
        ends_in_nul: false,
        tells_changes: false,
        is_quiet: false,
        ignoring: Ignoring::Configured,
    }
}

/// The same with one choice made or dropped; all others stay.
pub fn diff_files_request_with_choice(
    comparing: Comparing,
    choice: CompareChoice,
    on: bool,
) -> Comparing
    ensures { result ≡ comparings.diff_files_request_with_choice choice on comparing }
{
    let mut comparing = comparing;
    match choice {
        CompareChoice::Raw => comparing.raw = on,
        CompareChoice::Names => comparing.names = on,
        CompareChoice::Statuses => comparing.statuses = on,
        CompareChoice::Nul => comparing.ends_in_nul = on,
        CompareChoice::Silent => {}
        CompareChoice::TellsChanges => comparing.tells_changes = on,
        CompareChoice::Quiet => comparing.is_quiet = on,
        CompareChoice::Ignores(ignoring) => comparing.ignoring = ignoring,
    }
    comparing
}

/// The choice of this name that cannot be turned off.
fn unnegatable_diff_files_choice_of_name(name: &[u8]) -> Option<CompareChoice>
    ensures { result ≡ comparings.unnegatable_diff_files_choice_of_name name.now }
{
    if name == b"raw".as_slice() {
        Some(CompareChoice::Raw)
    } else if name == b"name-only".as_slice() {
        Some(CompareChoice::Names)
    } else if name == b"name-status".as_slice() {
        Some(CompareChoice::Statuses)
    } else {
        None
    }
}

/// The choice of this name that can be.
fn negatable_diff_files_choice_of_name(name: &[u8]) -> Option<CompareChoice>
    ensures { result ≡ comparings.negatable_diff_files_choice_of_name name.now }
{
    if name == b"exit-code".as_slice() {
        Some(CompareChoice::TellsChanges)
    } else if name == b"quiet".as_slice() {
        Some(CompareChoice::Quiet)
    } else {
        None
    }
}

/// A choice that is made or dropped, if there is one.
fn diff_files_option_of_optional_choice(is_on: bool, choice: Option<CompareChoice>) -> Option<Opt>
    ensures { result ≡ comparings.diff_files_option_of_optional_choice is_on choice }
{
    match choice {
        Some(choice) => Some(Opt::Compares(choice, is_on)),
        None => None,
    }
}

/// The option of this name that can be turned off, off where `no-` stands before the name.
fn diff_files_option_with_optional_no_prefix(name: &[u8]) -> Option<Opt>
    ensures { result ≡ comparings.diff_files_option_with_optional_no_prefix name.now }
{
    if name.starts_with(b"no-") {
        let (_, rest) = name.split_at(3);
        return diff_files_option_of_optional_choice(
            false,
            negatable_diff_files_choice_of_name(rest),
        );
    }
    diff_files_option_of_optional_choice(true, negatable_diff_files_choice_of_name(name))
}

/// Whether git has an option of this name, of patches, that is not answered here.
fn is_unsupported_patch_option(name: &[u8]) -> bool
    ensures { result ≡ comparings.is_unsupported_patch_option name.now }
{
    name == b"patch".as_slice()
        || name == b"no-patch".as_slice()
        || name == b"unified".as_slice()
        || name == b"patch-with-raw".as_slice()
        || name == b"patch-with-stat".as_slice()
        || name == b"cc".as_slice()
        || name == b"check".as_slice()
        || name == b"binary".as_slice()
        || name == b"full-index".as_slice()
        || name == b"text".as_slice()
}

/// The same of counts.
fn is_unsupported_stat_option(name: &[u8]) -> bool
    ensures { result ≡ comparings.is_unsupported_stat_option name.now }
{
    name == b"stat".as_slice()
        || name == b"numstat".as_slice()
        || name == b"shortstat".as_slice()
        || name == b"dirstat".as_slice()
        || name == b"compact-summary".as_slice()
        || name == b"summary".as_slice()
}

/// The same of which changes are told, and of pairs.
fn is_unsupported_filter_or_rename_option(name: &[u8]) -> bool
    ensures { result ≡ comparings.is_unsupported_filter_or_rename_option name.now }
{
    name == b"diff-filter".as_slice()
        || name == b"find-renames".as_slice()
        || name == b"find-copies".as_slice()
        || name == b"find-copies-harder".as_slice()
        || name == b"no-renames".as_slice()
        || name == b"break-rewrites".as_slice()
        || name == b"irreversible-delete".as_slice()
        || name == b"find-object".as_slice()
        || name == b"pickaxe-all".as_slice()
        || name == b"pickaxe-regex".as_slice()
}

/// The same of stages and of how paths and ids are written.
fn is_unsupported_stage_or_form_option(name: &[u8]) -> bool
    ensures { result ≡ comparings.is_unsupported_stage_or_form_option name.now }
{
    name == b"base".as_slice()
        || name == b"ours".as_slice()
        || name == b"theirs".as_slice()
        || name == b"relative".as_slice()
        || name == b"no-relative".as_slice()
        || name == b"abbrev".as_slice()
        || name == b"no-abbrev".as_slice()
        || name == b"color".as_slice()
        || name == b"no-color".as_slice()
        || name == b"line-prefix".as_slice()
        || name == b"output".as_slice()
}

/// Whether git has an option of this name that is not answered here.
fn is_unsupported_diff_files_option(name: &[u8]) -> bool
    ensures { result ≡ comparings.is_unsupported_diff_files_option name.now }
{
    if is_unsupported_patch_option(name) {
        return true;
    }
    if is_unsupported_stat_option(name) {
        return true;
    }
    if is_unsupported_filter_or_rename_option(name) {
        return true;
    }
    is_unsupported_stage_or_form_option(name)
}

/// Which submodules are told of, by the value of `--ignore-submodules`. What only tells how far a
/// submodule is looked into leaves none out.
pub fn parse_ignore_submodules_value(value: &[u8]) -> Option<Ignoring>
    ensures { result ≡ comparings.parse_ignore_submodules_value value.now }
{
    if value == b"all".as_slice() {
        Some(Ignoring::All)
    } else if value == b"none".as_slice() {
        Some(Ignoring::Nothing)
    } else if value == b"dirty".as_slice() {
        Some(Ignoring::Nothing)
    } else if value == b"untracked".as_slice() {
        Some(Ignoring::Nothing)
    } else {
        None
    }
}

/// The option of this name that is a choice, whether it can be turned off or not.
fn diff_files_choice_option_of_name(name: &[u8]) -> Option<Opt>
    ensures { result ≡ comparings.diff_files_choice_option_of_name name.now }
{
    match diff_files_option_of_optional_choice(true, unnegatable_diff_files_choice_of_name(name)) {
        Some(opt) => Some(opt),
        None => diff_files_option_with_optional_no_prefix(name),
    }
}

/// The option of this name that is not answered here, or a choice.
#[tactic(auto, unfolding(crate::specs::Comparings::unsupported_or_choice_option_of_name))]
fn unsupported_or_choice_option_of_name(name: &[u8]) -> Option<Opt>
    ensures { result ≡ comparings.unsupported_or_choice_option_of_name name.now }
{
    if is_unsupported_diff_files_option(name) {
        return Some(Opt::Left);
    }
    diff_files_choice_option_of_name(name)
}

/// The option of this name beside the help.
#[tactic(auto, unfolding(crate::specs::Comparings::diff_files_option_of_name_except_help))]
fn diff_files_option_of_name_except_help(name: &[u8]) -> Option<Opt>
    ensures { result ≡ comparings.diff_files_option_of_name_except_help name.now }
{
    if name == b"ignore-submodules".as_slice() {
        return Some(Opt::Submodules);
    }
    unsupported_or_choice_option_of_name(name)
}

/// The option of `diff-files` of this name, which stands behind `--`. None where there is none.
#[tactic(auto, unfolding(crate::specs::Comparings::diff_files_option_of_name))]
pub fn diff_files_option_of_name(name: &[u8]) -> Option<Opt>
    ensures { result ≡ comparings.diff_files_option_of_name name.now }
{
    if name == b"help".as_slice() {
        return Some(Opt::Help);
    }
    diff_files_option_of_name_except_help(name)
}

/// Whether git has an option of this letter that is not answered here.
fn is_unsupported_diff_files_letter(letter: u8) -> bool
    ensures { result ≡ comparings.is_unsupported_diff_files_letter letter }
{
    b"puUsRMCBDSGOlWabwcIXrmt0123"
        .iter()
        .any(|left| *left == letter)
}

/// The option of `diff-files` of this letter, which stands behind `-`. None where there is none.
pub fn diff_files_option_of_letter(letter: u8) -> Option<Opt>
    ensures { result ≡ comparings.diff_files_option_of_letter letter }
{
    if letter == b'h' {
        Some(Opt::Help)
    } else if letter == b'z' {
        Some(Opt::Compares(CompareChoice::Nul, true))
    } else if letter == b'q' {
        Some(Opt::Compares(CompareChoice::Silent, true))
    } else if is_unsupported_diff_files_letter(letter) {
        Some(Opt::Left)
    } else {
        None
    }
}
