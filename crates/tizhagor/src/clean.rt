//! What `clean` names of the work tree around a directory.
ghost use Rattle.std.specs.Prelude.{◌≡◌, codes, None, IfOk, IfErr};
ghost use Rattle.git_clean.specs.Wrong.{reason_cleaning_unsupported};
ghost use Rattle.tizhagor.specs.Answers as answers;
ghost use Rattle.tizhagor.specs.Cleanings as words;
ghost use Rattle.tizhagor.specs.Finds.{FindsHereResultOverTreeAndOwners};
ghost use Rattle.tizhagor.specs.TreeWords as tree;
ghost use Rattle.tizhagor.specs.Refusals.{MayComeBeforeSetupIsFound};

use crate::directory::Here;
use crate::files::named_specs_of_asked_specs;
use crate::found::find_work_tree_around_current;
use crate::patterns::{is_nonempty_list, rules_text_of_patterns};
use crate::refusal::CommandRefusal;
use crate::reply::{Reply, plain_reply_or_program_refusal, reply_result_with_here_refusal};
use crate::require_force::{
    WrongClean, is_require_force_false, read_require_force, reason_force_is_missing_in_found,
};
use command_line::CleanAsked;
use git_clean::{
    Cleaning, clean_dry_run_text, reason_cleaning_unsupported, walk_options_for_cleaning,
};
use git_setup::{Asked, Found};
use gitbase_core::{Bytes, OutOfMemory};
use std::alloc::Global;
use worktree_fs::{Interrupt, Owners, Worktree};
use worktree_report::{CountsFaults, Refusal, Setup};

/// The cleaning, with whether there are patterns.
fn clean_options_with_pattern_flag(cleaning: &Cleaning, patterns: bool) -> Cleaning
    ensures { result ≡ words.clean_options_with_pattern_flag cleaning.now patterns }
{
    let mut cleaning = *cleaning;
    cleaning.patterns = patterns;
    cleaning
}

/// What is asked of a cleaning. Whether there are patterns is said by these.
fn clean_options_of_request(wants: &CleanAsked) -> Cleaning
    ensures { result ≡ words.clean_options_of_request wants.now }
{
    clean_options_with_pattern_flag(&wants.cleaning, is_nonempty_list(&wants.patterns))
}

/// What is asked of a work tree, with the options that a cleaning needs.
fn request_with_walk_options_for_clean(wants: &CleanAsked, asked: Asked) -> Asked
    ensures { result ≡ words.request_with_walk_options_for_clean wants.now asked }
{
    let mut asked = asked;
    asked.options = walk_options_for_cleaning(&clean_options_of_request(wants), &asked.options);
    asked
}

/// The work tree around a directory and its setup, unless there is no such cleaning of it.
fn find_setup_checked_for_clean<W: Worktree, O: Owners>(
    alloc: Global,
    worktree: &mut W,
    owners: &mut O,
    here: &Here<'_>,
    wants: &CleanAsked,
    asked: Asked,
) -> Result<Found, CommandRefusal>
    ensures finds { FindsHereResultOverTreeAndOwners W.Worktree O.Owners worktree.old worktree.new
        owners.old owners.new (λ t owned. words.found_checked_for_clean t owned here.now.current.now
        here.now.variables.now here.now.directory.now wants.now asked) result }
    ensures of { IfErr result MayComeBeforeSetupIsFound }
    ensures cleanable { IfOk result (λ here. reason_cleaning_unsupported
        (words.clean_options_of_request wants.now) here.setup ≡ None) }
{
    let asked = request_with_walk_options_for_clean(wants, asked);
    let found = find_work_tree_around_current(alloc, worktree, owners, here, &asked)?;
    match reason_force_is_missing_in_found(wants, &found) {
        Some(wrong) => Err(CommandRefusal::Cleaning(wrong)),
        None => match reason_cleaning_unsupported(&clean_options_of_request(wants), &found.setup) {
            Some(wrong) => Err(CommandRefusal::Cleaning(WrongClean::Wrong(wrong))),
            None => Ok(found),
        },
    }
}

/// The cleaning, with what the configuration says of repositories and of how paths are written.
fn clean_options_with_repositories_and_quoting(
    cleaning: &Cleaning,
    repositories: bool,
    quote_path: bool,
) -> Cleaning
    ensures { result ≡ words.clean_options_with_repositories_and_quoting cleaning.now repositories
        quote_path }
{
    let mut cleaning = *cleaning;
    cleaning.repositories = repositories;
    cleaning.quote_path = quote_path;
    cleaning
}

/// A setup with these rules before all others, and the whole of the work tree to look at.
fn whole_tree_setup_with_rules(rules: Bytes, top: Bytes, setup: Setup) -> Setup
    requires top { top ≡ codes "." }
    ensures { result ≡ words.whole_tree_setup_with_rules rules setup }
{
    let mut setup = setup;
    setup.root = Some(top);
    setup.overrides = rules;
    setup
}

/// What would go of a work tree that is found.
fn clean_dry_run_of_found<W: CountsFaults, I: Interrupt>(
    alloc: Global,
    worktree: &mut W,
    interrupt: &mut I,
    found: Found,
    wants: &CleanAsked,
) -> Result<Bytes, Refusal>
    requires cleanable { reason_cleaning_unsupported (words.clean_options_of_request wants.now)
        found.setup ≡ None }
    ensures { words.AnswersCleanDryRunOfFound W.Worktree I.Interrupt worktree.old worktree.new
        interrupt.old interrupt.new wants.now found result }
{
    let Found {
        root,
        setup,
        prefix,
        each,
        quote_path,
        config,
    } = found;
    let repositories = wants
        .force
        .is_force_given_twice_counting_config(is_require_force_false(read_require_force(&config)));
    let cleaning = clean_options_with_repositories_and_quoting(
        &clean_options_of_request(wants),
        repositories,
        quote_path,
    );
    let named = named_specs_of_asked_specs(alloc, each)?;
    let rules = rules_text_of_patterns(alloc, &wants.patterns)?;
    let top = Bytes::from_slice(alloc, b".")?;
    let prepared = whole_tree_setup_with_rules(rules, top, setup);
    clean_dry_run_text(
        alloc,
        worktree,
        interrupt,
        root.as_bytes(),
        &prepared,
        &cleaning,
        prefix.as_bytes(),
        &named,
    )
}

/// What `clean` names of the work tree around the directory that is asked for, or why there is
/// nothing of it.
pub fn answer_clean<W: CountsFaults, O: Owners, I: Interrupt>(
    alloc: Global,
    worktree: &mut W,
    owners: &mut O,
    interrupt: &mut I,
    here: &Here<'_>,
    wants: &CleanAsked,
    asked: Asked,
) -> Result<Reply, CommandRefusal>
    ensures { answers.AnswersWorkTreeCommand W.Worktree I.Interrupt O.Owners worktree.old
        worktree.new interrupt.old interrupt.new owners.old owners.new
        (λ t owned. words.found_checked_for_clean t owned here.now.current.now
        here.now.variables.now here.now.directory.now wants.now asked) (tree.cleaning_of wants.now)
        result }
{
    let found = find_setup_checked_for_clean(alloc, worktree, owners, here, wants, asked)?;
    let answer = clean_dry_run_of_found(alloc, worktree, interrupt, found, wants);
    reply_result_with_here_refusal(plain_reply_or_program_refusal(alloc, answer))
}
