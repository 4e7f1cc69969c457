//! How one word of a command is read.
ghost use Rattle.std.specs.Prelude.{◌≡◌, ◌<◌, ◌==◌, length, position, IfSome};
ghost use Rattle.command_line.specs.Steps as steps;

use crate::check_options::{check_ignore_option_of_letter, check_ignore_option_of_name};
use crate::choice::{Choice, ls_files_option_of_letter, ls_files_option_of_name};
use crate::clean_options::{clean_option_of_letter, clean_option_of_name};
use crate::compare_options::{
    CompareChoice, Ignoring, diff_files_option_of_letter, diff_files_option_of_name,
};
use crate::draft::Draft;
use crate::form::{Color, LineEnd, Wording};
use crate::misuse::Wrong;
use crate::opt::{Opt, command_has_option, option_of_letter, option_of_name};
use crate::option_value::{
    step_of_depth_value, step_of_exclude_from_file, step_of_exclude_pattern,
    step_of_option_with_value, step_of_untracked_value,
};
use crate::rules_given::Ruling;
use crate::verb::{Verb, needs_double_dash_before_paths, takes_paths};
use clean_plan::{Finding, What};
use dir_classify::EmissionMode;

/// How the next word is read.
#[derive(Clone, Copy, Debug)]
pub enum Next {
    /// As an option where it begins with `-`, else as a path.
    Any,
    /// As a depth.
    Depth,
    /// As a pattern.
    Pattern,
    /// As the pattern of an option by its letter.
    LetterPattern {
        /// The letter.
        letter: u8,
    },
    /// As the name of a file of rules.
    File,
    /// As that of an option by its letter.
    LetterFile {
        /// The letter.
        letter: u8,
    },
    /// As a path, whatever it is.
    Paths,
}

/// What a word says.
#[derive(Clone, Copy, Debug)]
pub enum Step {
    /// An option: what is said now, and how the next word is read.
    Said(Draft, Next),
    /// It is a path.
    Path,
    /// An option of rules: what is said now, and what the word says of them. The next word is any.
    Rules(Draft, Ruling),
    /// It is wrong.
    Wrong(Wrong),
}

/// The draft, and after it any word.
pub fn step_with_draft(draft: Draft) -> Step
    ensures { result ≡ steps.step_with_draft draft }
{
    Step::Said(draft, Next::Any)
}

/// That this is told of submodules.
pub fn step_setting_ignore_submodules(ignoring: Ignoring, draft: Draft) -> Step
    ensures { result ≡ steps.step_setting_ignore_submodules ignoring draft }
{
    step_with_draft(draft.with_diff_files_choice(CompareChoice::Ignores(ignoring), true))
}

/// The rules that git reads by itself.
fn step_with_standard_rules(draft: Draft) -> Step
    ensures { result ≡ steps.step_of_option_without_value Opt.Standard draft }
{
    Step::Rules(
        draft.with_ls_files_choice(Choice::ExcludesStandard, true),
        Ruling::Standard,
    )
}

/// An option without a value.
fn step_of_option_without_value(opt: Opt, draft: Draft) -> Step
    ensures { result ≡ steps.step_of_option_without_value opt draft }
{
    match opt {
        Opt::With(switch) => step_with_draft(draft.with_report_switch(switch, true)),
        Opt::Without(switch) => step_with_draft(draft.with_report_switch(switch, false)),
        Opt::Untracked => step_with_draft(draft.with_untracked_emission_mode(
            EmissionMode::Matching,
        )),
        Opt::Ignored => step_with_draft(draft.with_ignored_emission_mode(Some(
            EmissionMode::Matching,
        ))),
        Opt::Collapsed | Opt::Deletion | Opt::Permissions | Opt::Strategy => {
            Step::Wrong(Wrong::NoValue)
        }
        Opt::Depth => Step::Said(draft, Next::Depth),
        Opt::IgnoredToo => step_with_draft(draft.with_removal_scope(What::UntrackedAndIgnored)),
        Opt::IgnoredAlone => step_with_draft(draft.with_removal_scope(What::IgnoredOnly)),
        Opt::NonBare => step_with_draft(draft.with_repository_finding(Finding::NonBare)),
        Opt::ByStat => step_with_draft(draft.with_stat_comparison()),
        Opt::Nul => step_with_draft(draft.with_line_end(LineEnd::Nul)),
        Opt::Plain => step_with_draft(draft.with_line_wording(Wording::Letters)),
        Opt::Color => step_with_draft(draft.with_color_choice(Color::Always)),
        Opt::NoColor => step_with_draft(draft.with_color_choice(Color::Never)),
        Opt::Help => step_with_draft(draft.with_help_requested()),
        Opt::Chooses(choice) => step_with_draft(draft.with_ls_files_choice(choice, true)),
        Opt::Drops(choice) => step_with_draft(draft.with_ls_files_choice(choice, false)),
        Opt::Cleans(choice, is_on) => step_with_draft(draft.with_clean_choice(choice, is_on)),
        Opt::Forces(is_on) => step_with_draft(draft.with_force_added_or_dropped(is_on)),
        Opt::Pattern => Step::Said(draft, Next::Pattern),
        Opt::ExcludeFrom => Step::Said(draft, Next::File),
        Opt::Standard => step_with_standard_rules(draft),
        Opt::Compares(choice, is_on) => step_with_draft(draft.with_diff_files_choice(
            choice, is_on,
        )),
        Opt::Checks(choice, is_on) => step_with_draft(draft.with_check_ignore_choice(
            choice, is_on,
        )),
        Opt::Submodules => step_setting_ignore_submodules(Ignoring::All, draft),
        Opt::RulesFile | Opt::Left => Step::Wrong(Wrong::Left),
    }
}

/// An option, if a command has it.
fn option_if_command_has_it(verb: Verb, opt: Option<Opt>) -> Option<Opt>
    ensures { result ≡ steps.option_if_command_has_it verb opt }
{
    match opt {
        Some(opt) => {
            if command_has_option(verb, opt) {
                Some(opt)
            } else {
                None
            }
        }
        None => None,
    }
}

/// The option of a name that a command has. None where it has none.
fn command_option_of_name(verb: Verb, name: &[u8]) -> Option<Opt>
    ensures { result ≡ steps.command_option_of_name verb name.now }
{
    match verb {
        Verb::Files => ls_files_option_of_name(name),
        Verb::Clean => clean_option_of_name(name),
        Verb::Compare => diff_files_option_of_name(name),
        Verb::Check => check_ignore_option_of_name(name),
        Verb::Report | Verb::Plan | Verb::Modules | Verb::State => {
            option_if_command_has_it(verb, option_of_name(name))
        }
    }
}

/// The place of the first `=`.
fn index_of_first_equals(text: &[u8]) -> Option<usize>
    ensures place { result ≡ position (λ b. b == 61) text.now }
    ensures within { IfSome result (λ place. place < length text.now) }
{
    text.iter().position(|b| *b == b'=')
}

/// An option by its name alone.
fn step_of_long_name(verb: Verb, name: &[u8], draft: Draft) -> Step
    ensures { result ≡ steps.step_of_long_name verb name.now draft }
{
    match command_option_of_name(verb, name) {
        Some(opt) => step_of_option_without_value(opt, draft),
        None => Step::Wrong(Wrong::UnknownOption),
    }
}

/// An option by its name, with a value.
fn step_of_long_name_with_value(verb: Verb, name: &[u8], value: &[u8], draft: Draft) -> Step
    ensures { result ≡ steps.step_of_long_name_with_value verb name.now value.now draft }
{
    match command_option_of_name(verb, name) {
        Some(opt) => step_of_option_with_value(opt, value, draft),
        None => Step::Wrong(Wrong::UnknownOption),
    }
}

/// What stands behind `--`: a name, and a value behind the first `=`, if there is one.
fn step_of_long_option(verb: Verb, text: &[u8], draft: Draft) -> Step
    ensures { result ≡ steps.step_of_long_option verb text.now draft }
{
    match index_of_first_equals(text) {
        None => step_of_long_name(verb, text, draft),
        Some(place) => {
            let (name, _) = text.split_at(place);
            let (_, value) = text.split_at(place + 1);
            step_of_long_name_with_value(verb, name, value, draft)
        }
    }
}

/// The option of a letter that a command has. None where it has none.
fn command_option_of_letter(verb: Verb, letter: u8) -> Option<Opt>
    ensures { result ≡ steps.command_option_of_letter verb letter }
{
    match verb {
        Verb::Files => ls_files_option_of_letter(letter),
        Verb::Clean => clean_option_of_letter(letter),
        Verb::Compare => diff_files_option_of_letter(letter),
        Verb::Check => check_ignore_option_of_letter(letter),
        Verb::Report | Verb::Plan | Verb::Modules | Verb::State => {
            option_if_command_has_it(verb, option_of_letter(letter))
        }
    }
}

/// `u` and what stands behind it in its word: a value, or nothing.
fn step_of_untracked_letter(value: &[u8], draft: Draft) -> Step
    ensures { result ≡ steps.step_of_untracked_letter value.now draft }
{
    match value {
        [] => step_of_option_without_value(Opt::Untracked, draft),
        _ => step_of_untracked_value(value, draft),
    }
}

/// A letter and what stands behind it in its word: a pattern, or nothing where that is the next
/// word.
fn step_of_pattern_letter(letter: u8, value: &[u8], draft: Draft) -> Step
    ensures { result ≡ steps.step_of_pattern_letter letter value.now draft }
{
    match value {
        [] => Step::Said(draft, Next::LetterPattern { letter }),
        _ => step_of_exclude_pattern(value, draft),
    }
}

/// A letter and what stands behind it in its word: the name of a file of rules, or nothing where
/// that is the next word.
fn step_of_file_letter(letter: u8, value: &[u8], draft: Draft) -> Step
    ensures { result ≡ steps.step_of_file_letter letter value.now draft }
{
    match value {
        [] => Step::Said(draft, Next::LetterFile { letter }),
        _ => step_of_exclude_from_file(value, draft),
    }
}

/// What an option of a letter says, by what was said before it. None of these has a value.
fn draft_with_letter_option(opt: Opt, draft: Draft) -> Draft
    ensures { result ≡ steps.draft_with_letter_option opt draft }
{
    match step_of_option_without_value(opt, draft) {
        Step::Said(draft, _) => draft,
        _ => draft,
    }
}

/// Whether what stands behind the letter of an option is its value.
fn takes_rest_of_word_as_value(opt: Opt) -> bool
    ensures { result ≡ steps.takes_rest_of_word_as_value opt }
{
    matches!(opt, Opt::Untracked | Opt::Pattern | Opt::ExcludeFrom)
}

/// What it says with that value.
fn step_of_letter_with_rest(opt: Opt, letter: u8, text: &[u8], draft: Draft) -> Step
    ensures { result ≡ steps.step_of_letter_with_rest opt letter text.now draft }
{
    match opt {
        Opt::Pattern => step_of_pattern_letter(letter, text, draft),
        Opt::ExcludeFrom => step_of_file_letter(letter, text, draft),
        _ => step_of_untracked_letter(text, draft),
    }
}

/// Whether an option is git's, and is not answered here.
fn is_unsupported_option(opt: Opt) -> bool
    ensures { result ≡ steps.is_unsupported_option opt }
{
    matches!(opt, Opt::Left)
}

/// What stands behind one `-`: letters, each an option.
#[tactic(auto, unfolding(crate::specs::Steps::step_of_letters))]
fn step_of_letters(verb: Verb, text: &[u8], draft: Draft) -> Step
    ensures { result ≡ steps.step_of_letters verb text.now draft }
{
    let mut said = draft;
    let mut rest = text;
    while let Some((letter, after)) = rest.split_first() {
        let Some(opt) = command_option_of_letter(verb, *letter) else {
            return Step::Wrong(Wrong::UnknownSwitch { letter: *letter });
        };
        if takes_rest_of_word_as_value(opt) {
            return step_of_letter_with_rest(opt, *letter, after, said);
        }
        if is_unsupported_option(opt) {
            return Step::Wrong(Wrong::LeftSwitch { letter: *letter });
        }
        said = draft_with_letter_option(opt, said);
        rest = after;
    }
    step_with_draft(said)
}

/// A path, where the command takes paths.
fn path(verb: Verb) -> Step
    ensures { result ≡ steps.path verb }
{
    if takes_paths(verb) {
        Step::Path
    } else {
        Step::Wrong(Wrong::Paths)
    }
}

/// A word that is no option and stands before `--`.
fn step_of_path_before_double_dash(verb: Verb) -> Step
    ensures { result ≡ steps.step_of_path_before_double_dash verb }
{
    if needs_double_dash_before_paths(verb) {
        return Step::Wrong(Wrong::Undashed);
    }
    path(verb)
}

/// What stands behind `--`: nothing, or a name.
fn step_after_two_dashes(verb: Verb, text: &[u8], draft: Draft) -> Step
    ensures { result ≡ steps.step_after_two_dashes verb text.now draft }
{
    match text {
        [] => Step::Said(draft, Next::Paths),
        _ => step_of_long_option(verb, text, draft),
    }
}

/// What stands behind the first `-`: nothing, another one, or letters.
fn step_after_one_dash(verb: Verb, text: &[u8], draft: Draft) -> Step
    ensures { result ≡ steps.step_after_one_dash verb text.now draft }
{
    match text {
        [] => step_of_path_before_double_dash(verb),
        [b'-', rest @ ..] => step_after_two_dashes(verb, rest, draft),
        _ => step_of_letters(verb, text, draft),
    }
}

/// A word that may be an option.
fn step_of_option_or_path(verb: Verb, word: &[u8], draft: Draft) -> Step
    ensures { result ≡ steps.step_of_option_or_path verb word.now draft }
{
    match word {
        [b'-', text @ ..] => step_after_one_dash(verb, text, draft),
        _ => step_of_path_before_double_dash(verb),
    }
}

/// What a word says, by what was said before it.
pub fn step_of_word(verb: Verb, next: Next, word: &[u8], draft: Draft) -> Step
    ensures { result ≡ steps.step_of_word verb next word.now draft }
{
    match next {
        Next::Any => step_of_option_or_path(verb, word, draft),
        Next::Depth => step_of_depth_value(word, draft),
        Next::Pattern | Next::LetterPattern { letter: _ } => step_of_exclude_pattern(word, draft),
        Next::File | Next::LetterFile { letter: _ } => step_of_exclude_from_file(word, draft),
        Next::Paths => path(verb),
    }
}
