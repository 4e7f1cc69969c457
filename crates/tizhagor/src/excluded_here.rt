//! What `ls-files -i -c` lists of the work tree around a directory.
ghost use Rattle.std.specs.Prelude.{◌≡◌, IfErr};
ghost use Rattle.ls_files.specs.Excluded.{output_of_ignored_index_or_error};
ghost use Rattle.tizhagor.specs.Checks.{FindsReplyOverTreeAndOwners, FindsReplyOverTree};
ghost use Rattle.tizhagor.specs.Excluding as words;
ghost use Rattle.tizhagor.specs.Finds.{FindsHereResultOverTreeAndOwners};
ghost use Rattle.tizhagor.specs.Refusals.{MayComeBeforeSetupIsFound};

use crate::directory::Here;
use crate::files::{
    find_setup_and_read_exclude_files, ls_files_options_of_request,
    ls_files_options_with_quote_path, named_specs_of_asked_specs,
    setup_with_listing_options_and_rules,
};
use crate::patterns::rules_text_of_patterns;
use crate::refusal::CommandRefusal;
use crate::reply::Reply;
use command_line::FilesAsked;
use git_setup::{Asked, Found};
use ls_files::{
    ExcludedError, Listed, Listing, NamedSpec, WrongListing, list_ignored_index_entries,
    refusal_if_no_rules_or_sparse,
};
use std::alloc::Global;
use worktree_fs::{Owners, Worktree};
use worktree_report::{Refusal, Setup};

/// What is found, unless there is no such listing of its index.
fn require_valid_ignored_index_listing(
    wants: &FilesAsked,
    found: Found,
) -> Result<Found, CommandRefusal>
    ensures gives { result ≡ words.require_valid_ignored_index_listing wants.now found }
    ensures of { IfErr result MayComeBeforeSetupIsFound }
{
    match refusal_if_no_rules_or_sparse(&ls_files_options_of_request(wants), &found.setup.index) {
        Some(wrong) => Err(CommandRefusal::Listing(wrong)),
        None => Ok(found),
    }
}

/// The same of the work tree around a directory.
fn find_setup_checked_for_ignored_index<W: Worktree, O: Owners>(
    alloc: Global,
    worktree: &mut W,
    owners: &mut O,
    here: &Here<'_>,
    wants: &FilesAsked,
    asked: &Asked,
) -> Result<Found, CommandRefusal>
    ensures finds { FindsHereResultOverTreeAndOwners W.Worktree O.Owners worktree.old worktree.new
        owners.old owners.new (λ t owned. words.found_checked_for_ignored_index t owned
        here.now.current.now here.now.variables.now here.now.directory.now wants.now asked.now)
        result }
    ensures of { IfErr result MayComeBeforeSetupIsFound }
{
    let found = find_setup_and_read_exclude_files(alloc, worktree, owners, here, wants, asked)?;
    require_valid_ignored_index_listing(wants, found)
}

/// The refusal that stands for one of a listing of what is excluded.
fn here_refusal_of_ignored_index_error(refused: ExcludedError) -> CommandRefusal
    ensures { result ≡ words.here_refusal_of_ignored_index_error refused }
{
    match refused {
        ExcludedError::Unread => CommandRefusal::Listing(WrongListing::UnreadRules),
        ExcludedError::Fault => CommandRefusal::Program(Refusal::Fault),
        ExcludedError::OutOfMemory => CommandRefusal::Program(Refusal::OutOfMemory),
    }
}

/// What is said of a listing.
fn reply_of_ignored_index_listing(
    answer: Result<Listed, ExcludedError>,
) -> Result<Reply, CommandRefusal>
    ensures { result ≡ words.reply_of_ignored_index_listing answer }
{
    match answer {
        Ok(made) => {
            let is_no = !made.err.as_bytes().is_empty();
            Ok(Reply {
                out: made.out,
                err: made.err,
                is_no,
            })
        }
        Err(refused) => Err(here_refusal_of_ignored_index_error(refused)),
    }
}

/// What is said of the work tree at `root`, in its directory `prefix`, with path specs.
fn list_ignored_index_as_reply<W: Worktree>(
    alloc: Global,
    worktree: &mut W,
    root: &[u8],
    setup: &Setup,
    listing: &Listing,
    prefix: &[u8],
    named: &[NamedSpec],
) -> Result<Reply, CommandRefusal>
    ensures looks { FindsReplyOverTree W.Worktree worktree.old worktree.new
        (λ t. words.reply_of_ignored_index_listing (output_of_ignored_index_or_error t root.now
        setup.now listing.now prefix.now named.now)) result }
    ensures of { IfErr result MayComeBeforeSetupIsFound }
{
    let answer = list_ignored_index_entries(alloc, worktree, root, setup, listing, prefix, named);
    reply_of_ignored_index_listing(answer)
}

/// The same, by what was found.
fn list_ignored_index_of_found<W: Worktree>(
    alloc: Global,
    worktree: &mut W,
    found: Found,
    wants: &FilesAsked,
) -> Result<Reply, CommandRefusal>
    ensures looks { FindsReplyOverTree W.Worktree worktree.old worktree.new
        (λ t. words.ignored_index_reply_of_found t wants.now found) result }
    ensures of { IfErr result MayComeBeforeSetupIsFound }
{
    let Found {
        root,
        setup,
        prefix,
        each,
        quote_path,
        config: _config,
    } = found;
    let named = named_specs_of_asked_specs(alloc, each)?;
    let rules = rules_text_of_patterns(alloc, &wants.rules.patterns)?;
    let quoting = ls_files_options_with_quote_path(&ls_files_options_of_request(wants), quote_path);
    let prepared = setup_with_listing_options_and_rules(&quoting, rules, setup);
    list_ignored_index_as_reply(
        alloc,
        worktree,
        root.as_bytes(),
        &prepared,
        &quoting,
        prefix.as_bytes(),
        &named,
    )
}

/// What `ls-files -i -c` says of the work tree around the directory that is asked for, or why there
/// is nothing of it.
///
/// # Errors
///
/// - `Absent`, `NotADirectory`: the directory that `-C` names is none.
/// - `Git`: there is no work tree, or what is read of it is refused, as
///   [`git_setup::find_and_read_setup`] says.
/// - `ExcludeFile`: a file of rules that is named is not read.
/// - `Listing`: there is no such listing, as [`refusal_if_no_rules_or_sparse`] says, or a rules
///   file is not read, as [`list_ignored_index_entries`] says.
/// - `Program(Fault)`: the worktree or the owners failed, and counted it.
/// - `Program(OutOfMemory)` for want of memory.
pub fn answer_ls_files_ignored_index<W: Worktree, O: Owners>(
    alloc: Global,
    worktree: &mut W,
    owners: &mut O,
    here: &Here<'_>,
    wants: &FilesAsked,
    asked: &Asked,
) -> Result<Reply, CommandRefusal>
    ensures { FindsReplyOverTreeAndOwners W.Worktree O.Owners worktree.old worktree.new owners.old
        owners.new (λ t owned. words.ignored_index_reply_around_directory t owned
        here.now.current.now here.now.variables.now here.now.directory.now wants.now asked.now)
        result }
{
    let found = find_setup_checked_for_ignored_index(alloc, worktree, owners, here, wants, asked)?;
    list_ignored_index_of_found(alloc, worktree, found, wants)
}
