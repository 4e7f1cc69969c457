//! How the value of an option is read.
ghost use Rattle.std.specs.Prelude.{◌≡◌};
ghost use Rattle.command_line.specs.Steps as steps;

use crate::choice::Choice;
use crate::clean_options::lacks_line_feed_and_trailing_blank;
use crate::compare_options::parse_ignore_submodules_value;
use crate::draft::Draft;
use crate::form::Color;
use crate::misuse::Wrong;
use crate::opt::{Opt, parse_collapsed_mode, parse_emission_mode, parse_for_deletion_mode};
use crate::rules_given::Ruling;
use crate::step::{Step, step_setting_ignore_submodules, step_with_draft};
use worktree_report::{Strategy, parse_depth_limit};

/// What of untracked paths is written.
pub fn step_of_untracked_value(value: &[u8], draft: Draft) -> Step
    ensures { result ≡ steps.step_of_untracked_value value.now draft }
{
    match parse_emission_mode(value) {
        Some(mode) => step_with_draft(draft.with_untracked_emission_mode(mode)),
        None => Step::Wrong(Wrong::UnknownValue),
    }
}

/// What of ignored paths is written, or nothing.
fn step_of_ignored_value(value: &[u8], draft: Draft) -> Step
    ensures { result ≡ steps.step_of_ignored_value value.now draft }
{
    if value == b"no".as_slice() {
        return step_with_draft(draft.with_ignored_emission_mode(None));
    }
    match parse_emission_mode(value) {
        Some(mode) => step_with_draft(draft.with_ignored_emission_mode(Some(mode))),
        None => Step::Wrong(Wrong::UnknownValue),
    }
}

/// What is written beside a folded directory, or nothing.
fn step_of_collapsed_value(value: &[u8], draft: Draft) -> Step
    ensures { result ≡ steps.step_of_collapsed_value value.now draft }
{
    if value == b"no".as_slice() {
        return step_with_draft(draft.with_collapsed_emission_mode(None));
    }
    match parse_collapsed_mode(value) {
        Some(mode) => step_with_draft(draft.with_collapsed_emission_mode(Some(mode))),
        None => Step::Wrong(Wrong::UnknownValue),
    }
}

/// The mode of deletion, or none.
fn step_of_for_deletion_value(value: &[u8], draft: Draft) -> Step
    ensures { result ≡ steps.step_of_for_deletion_value value.now draft }
{
    if value == b"no".as_slice() {
        return step_with_draft(draft.with_for_deletion_mode(None));
    }
    match parse_for_deletion_mode(value) {
        Some(mode) => step_with_draft(draft.with_for_deletion_mode(Some(mode))),
        None => Step::Wrong(Wrong::UnknownValue),
    }
}

/// Which configurations are read.
fn step_of_permissions_value(value: &[u8], draft: Draft) -> Step
    ensures { result ≡ steps.step_of_permissions_value value.now draft }
{
    if value == b"isolated".as_slice() {
        step_with_draft(draft.with_config_permissions(true))
    } else if value == b"secure".as_slice() || value == b"all".as_slice() {
        step_with_draft(draft.with_config_permissions(false))
    } else {
        Step::Wrong(Wrong::UnknownValue)
    }
}

/// How subtrees are walked.
fn step_of_strategy_value(value: &[u8], draft: Draft) -> Step
    ensures { result ≡ steps.step_of_strategy_value value.now draft }
{
    if value == b"held".as_slice() {
        step_with_draft(draft.with_walk_strategy(Strategy::Held))
    } else if value == b"at-once".as_slice() {
        step_with_draft(draft.with_walk_strategy(Strategy::AtOnce))
    } else {
        Step::Wrong(Wrong::UnknownValue)
    }
}

/// When lines have colors.
fn step_of_color_value(value: &[u8], draft: Draft) -> Step
    ensures { result ≡ steps.step_of_color_value value.now draft }
{
    if value == b"auto".as_slice() {
        step_with_draft(draft.with_color_choice(Color::Auto))
    } else if value == b"always".as_slice() {
        step_with_draft(draft.with_color_choice(Color::Always))
    } else if value == b"never".as_slice() {
        step_with_draft(draft.with_color_choice(Color::Never))
    } else {
        Step::Wrong(Wrong::UnknownValue)
    }
}

/// A word that is to be a depth.
pub fn step_of_depth_value(value: &[u8], draft: Draft) -> Step
    ensures { result ≡ steps.step_of_depth_value value.now draft }
{
    match parse_depth_limit(value) {
        Some(depth) => step_with_draft(draft.with_walk_depth(depth)),
        None => Step::Wrong(Wrong::NotADepth),
    }
}

/// A pattern, which is the end of a word.
pub fn step_of_exclude_pattern(value: &[u8], draft: Draft) -> Step
    ensures { result ≡ steps.step_of_exclude_pattern value.now draft }
{
    if lacks_line_feed_and_trailing_blank(value) {
        Step::Rules(draft, Ruling::Pattern { left: value.len() })
    } else {
        Step::Wrong(Wrong::Pattern)
    }
}

/// The name of a file of rules, which is the end of a word.
pub fn step_of_exclude_from_file(value: &[u8], draft: Draft) -> Step
    ensures { result ≡ steps.step_of_exclude_from_file value.now draft }
{
    Step::Rules(draft, Ruling::File { left: value.len() })
}

/// The name of the rules files of directories: `.gitignore`, or another, which is not answered
/// here.
fn step_of_exclude_per_directory_value(value: &[u8], draft: Draft) -> Step
    ensures { result ≡ steps.step_of_exclude_per_directory_value value.now draft }
{
    if value == b".gitignore".as_slice() {
        step_with_draft(draft.with_ls_files_choice(Choice::ExcludesDirectories, true))
    } else {
        Step::Wrong(Wrong::Left)
    }
}

/// That this is told of submodules, by the value.
fn step_of_ignore_submodules_value(value: &[u8], draft: Draft) -> Step
    ensures { result ≡ steps.step_of_ignore_submodules_value value.now draft }
{
    match parse_ignore_submodules_value(value) {
        Some(ignoring) => step_setting_ignore_submodules(ignoring, draft),
        None => Step::Wrong(Wrong::UnknownValue),
    }
}

/// An option with a value.
pub fn step_of_option_with_value(opt: Opt, value: &[u8], draft: Draft) -> Step
    ensures { result ≡ steps.step_of_option_with_value opt value.now draft }
{
    match opt {
        Opt::Untracked => step_of_untracked_value(value, draft),
        Opt::Ignored => step_of_ignored_value(value, draft),
        Opt::Collapsed => step_of_collapsed_value(value, draft),
        Opt::Deletion => step_of_for_deletion_value(value, draft),
        Opt::Permissions => step_of_permissions_value(value, draft),
        Opt::Strategy => step_of_strategy_value(value, draft),
        Opt::Depth => step_of_depth_value(value, draft),
        Opt::Color => step_of_color_value(value, draft),
        Opt::Pattern => step_of_exclude_pattern(value, draft),
        Opt::ExcludeFrom => step_of_exclude_from_file(value, draft),
        Opt::RulesFile => step_of_exclude_per_directory_value(value, draft),
        Opt::Submodules => step_of_ignore_submodules_value(value, draft),
        Opt::Left => Step::Wrong(Wrong::Left),
        _ => Step::Wrong(Wrong::TakesNoValue),
    }
}
