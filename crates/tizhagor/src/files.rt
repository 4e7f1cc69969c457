//! What `ls-files` lists of the work tree around a directory.
ghost use Rattle.std.specs.Prelude.{◌≡◌, map, None, IfOk, IfErr};
ghost use Rattle.ls_files.specs.Wrong.{first_refusal_of_options_and_index};
ghost use Rattle.tizhagor.specs.Answers as answers;
ghost use Rattle.tizhagor.specs.ExcludeFiles.{IsResultOrOutOfMemory};
ghost use Rattle.tizhagor.specs.Finds.{FindsHereResultOverTreeAndOwners};
ghost use Rattle.tizhagor.specs.Listings as words;
ghost use Rattle.tizhagor.specs.TreeWords as tree;
ghost use Rattle.tizhagor.specs.Refusals.{MayComeBeforeSetupIsFound};

use crate::directory::Here;
use crate::exclude_files::read_exclude_files_into_found;
use crate::found::find_work_tree_around_asked_directory;
use crate::patterns::{is_nonempty_list, rules_text_of_patterns};
use crate::refusal::CommandRefusal;
use crate::reply::{Reply, reply_result_with_here_refusal};
use command_line::{FilesAsked, RulesGiven};
use git_setup::{Asked, AskedSpec, EachSpec, Found};
use gitbase_core::{Bytes, OutOfMemory};
use ls_files::{
    Listed, Listing, NamedSpec, WrongListing, first_refusal_of_options_and_index,
    list_files_of_worktree, refusal_of_partial_ignored_directories, walk_options_for_listing,
};
use std::alloc::Global;
use worktree_fs::{Interrupt, Owners, Worktree};
use worktree_report::{CountsFaults, Refusal, Setup};

/// The listing, with whether there are patterns.
fn ls_files_options_with_pattern_flag(listing: &Listing, patterns: bool) -> Listing
    ensures { result ≡ words.ls_files_options_with_pattern_flag listing.now patterns }
{
    let mut listing = *listing;
    listing.patterns = patterns;
    listing
}

/// Whether there are rules of the command line, or files of rules are named.
fn has_command_line_rules(rules: &RulesGiven) -> bool
    ensures { result ≡ words.has_command_line_rules rules.now }
{
    if is_nonempty_list(&rules.patterns) {
        return true;
    }
    is_nonempty_list(&rules.weaker) || is_nonempty_list(&rules.stronger)
}

/// What is listed. Whether there are patterns is said by these.
pub fn ls_files_options_of_request(wants: &FilesAsked) -> Listing
    ensures { result ≡ words.ls_files_options_of_request wants.now }
{
    ls_files_options_with_pattern_flag(&wants.listing, has_command_line_rules(&wants.rules))
}

/// The work tree around a directory and its setup, with the rules of the files that are named.
#[tactic(auto, unfolding(crate::specs::Listings::found_with_exclude_files_of_request))]
pub fn find_setup_and_read_exclude_files<W: Worktree, O: Owners>(
    alloc: Global,
    worktree: &mut W,
    owners: &mut O,
    here: &Here<'_>,
    wants: &FilesAsked,
    asked: &Asked,
) -> Result<Found, CommandRefusal>
    ensures finds { FindsHereResultOverTreeAndOwners W.Worktree O.Owners worktree.old worktree.new
        owners.old owners.new (λ t owned. words.found_with_exclude_files_of_request t owned
        here.now.current.now here.now.variables.now here.now.directory.now wants.now asked.now)
        result }
    ensures of { IfErr result MayComeBeforeSetupIsFound }
{
    let found = find_work_tree_around_asked_directory(alloc, worktree, owners, here, asked)?;
    read_exclude_files_into_found(alloc, worktree, wants, found)
}

/// Whether the whole work tree is listed.
fn lists_whole_work_tree(asked: &Asked, found: &Found) -> bool
    ensures { result ≡ words.lists_whole_work_tree asked.now found.now }
{
    found.prefix.as_bytes().is_empty() && !is_nonempty_list(&asked.paths)
}

/// Why there is no such listing of what is found.
fn reason_ls_files_request_is_wrong(
    wants: &FilesAsked,
    asked: &Asked,
    found: &Found,
) -> Option<WrongListing>
    ensures is { result ≡ words.reason_ls_files_request_is_wrong wants.now asked.now found.now }
    ensures listable { result ≡ None → first_refusal_of_options_and_index
        (words.ls_files_options_of_request wants.now) found.now.setup.index ≡ None }
{
    let listing = ls_files_options_of_request(wants);
    let wrong = first_refusal_of_options_and_index(&listing, &found.setup.index);
    if wrong.is_some() {
        return wrong;
    }
    refusal_of_partial_ignored_directories(&listing, lists_whole_work_tree(asked, found))
}

/// What is found, unless there is no such listing of it.
#[tactic(auto, unfolding(crate::specs::Listings::require_valid_ls_files_request))]
fn require_valid_ls_files_request(
    wants: &FilesAsked,
    asked: &Asked,
    found: Found,
) -> Result<Found, CommandRefusal>
    ensures gives { IsResultOrOutOfMemory result (words.require_valid_ls_files_request wants.now
        asked.now found) }
    ensures of { IfErr result MayComeBeforeSetupIsFound }
    ensures listable { IfOk result (λ here. first_refusal_of_options_and_index
        (words.ls_files_options_of_request wants.now) here.setup.index ≡ None) }
{
    match reason_ls_files_request_is_wrong(wants, asked, &found) {
        Some(wrong) => Err(CommandRefusal::Listing(wrong)),
        None => Ok(found),
    }
}

/// The same of the work tree around a directory.
fn find_setup_checked_for_ls_files<W: Worktree, O: Owners>(
    alloc: Global,
    worktree: &mut W,
    owners: &mut O,
    here: &Here<'_>,
    wants: &FilesAsked,
    asked: &Asked,
) -> Result<Found, CommandRefusal>
    ensures finds { FindsHereResultOverTreeAndOwners W.Worktree O.Owners worktree.old worktree.new
        owners.old owners.new (λ t owned. words.found_checked_for_ls_files t owned
        here.now.current.now here.now.variables.now here.now.directory.now wants.now asked.now)
        result }
    ensures of { IfErr result MayComeBeforeSetupIsFound }
    ensures listable { IfOk result (λ here. first_refusal_of_options_and_index
        (words.ls_files_options_of_request wants.now) here.setup.index ≡ None) }
{
    let found = find_setup_and_read_exclude_files(alloc, worktree, owners, here, wants, asked)?;
    require_valid_ls_files_request(wants, asked, found)
}

/// The listing, with what the configuration says of how paths are written.
pub fn ls_files_options_with_quote_path(listing: &Listing, quote_path: bool) -> Listing
    ensures { result ≡ words.ls_files_options_with_quote_path listing.now quote_path }
{
    let mut listing = *listing;
    listing.quote_path = quote_path;
    listing
}

/// A setup with the options that a listing needs, and with these rules before all others.
pub fn setup_with_listing_options_and_rules(listing: &Listing, rules: Bytes, setup: Setup) -> Setup
    ensures { result ≡ words.setup_with_listing_options_and_rules listing.now rules setup }
{
    let mut setup = setup;
    setup.options = walk_options_for_listing(listing, &setup.options);
    setup.overrides = rules;
    setup
}

/// A path spec, as a listing takes it.
fn named_spec_of_asked_spec(asked: AskedSpec) -> NamedSpec
    ensures { result ≡ words.named_spec_of_asked_spec asked }
{
    NamedSpec {
        text: asked.text,
        spec: asked.spec,
    }
}

/// Path specs, as a listing takes them.
pub fn named_specs_of_asked_specs(
    alloc: Global,
    each: EachSpec,
) -> Result<Vec<NamedSpec>, OutOfMemory>
    ensures { IfOk result (λ named. named.items ≡ map words.named_spec_of_asked_spec each) }
{
    let mut named = Vec::new(alloc);
    for asked in each.into_vec() {
        named.push(named_spec_of_asked_spec(asked))?;
    }
    Ok(named)
}

/// What is listed of a work tree that is found.
fn list_files_of_found<W: CountsFaults, I: Interrupt>(
    alloc: Global,
    worktree: &mut W,
    interrupt: &mut I,
    found: Found,
    wants: &FilesAsked,
) -> Result<Listed, Refusal>
    requires listable { first_refusal_of_options_and_index (words.ls_files_options_of_request
        wants.now) found.setup.index ≡ None }
    ensures { words.AnswersLsFilesOfFound W.Worktree I.Interrupt worktree.old worktree.new
        interrupt.old interrupt.new wants.now found result }
{
    let Found {
        root,
        setup,
        prefix,
        each,
        quote_path,
        config: _config,
    } = found;
    let named = named_specs_of_asked_specs(alloc, each)?;
    let rules = rules_text_of_patterns(alloc, &wants.rules.patterns)?;
    let quoting = ls_files_options_with_quote_path(&ls_files_options_of_request(wants), quote_path);
    let prepared = setup_with_listing_options_and_rules(&quoting, rules, setup);
    list_files_of_worktree(
        alloc,
        worktree,
        interrupt,
        root.as_bytes(),
        &prepared,
        &quoting,
        prefix.as_bytes(),
        &named,
    )
}

/// What is said of a listing.
fn reply_of_ls_files_answer(answer: Result<Listed, Refusal>) -> Result<Reply, Refusal>
    ensures { result ≡ words.reply_of_ls_files_answer answer }
{
    match answer {
        Ok(made) => {
            let is_no = !made.err.as_bytes().is_empty();
            Ok(Reply {
                out: made.out,
                err: made.err,
                is_no,
            })
        }
        Err(refusal) => Err(refusal),
    }
}

/// What `ls-files` says of the work tree around the directory that is asked for, or why there is
/// nothing of it.
pub fn answer_ls_files<W: CountsFaults, O: Owners, I: Interrupt>(
    alloc: Global,
    worktree: &mut W,
    owners: &mut O,
    interrupt: &mut I,
    here: &Here<'_>,
    wants: &FilesAsked,
    asked: &Asked,
) -> Result<Reply, CommandRefusal>
    ensures { answers.AnswersWorkTreeCommand W.Worktree I.Interrupt O.Owners worktree.old
        worktree.new interrupt.old interrupt.new owners.old owners.new
        (λ t owned. words.found_checked_for_ls_files t owned here.now.current.now
        here.now.variables.now here.now.directory.now wants.now asked.now)
        (tree.listing_of wants.now) result }
{
    let found = find_setup_checked_for_ls_files(alloc, worktree, owners, here, wants, asked)?;
    let answer = list_files_of_found(alloc, worktree, interrupt, found, wants);
    reply_result_with_here_refusal(reply_of_ls_files_answer(answer))
}
