//! What `ls-files -d` and `-m` list of the work tree around a directory.
ghost use Rattle.std.specs.Prelude.{◌≡◌, map, IfErr};
ghost use Rattle.tizhagor.specs.Changing as words;
ghost use Rattle.tizhagor.specs.Compares.{FindsOverTreeAndStats, FindsOverTreeOwnersAndStats};
ghost use Rattle.tizhagor.specs.Finds.{FindsHereResultOverToldTree};
ghost use Rattle.tizhagor.specs.Refusals.{MayComeBeforeSetupIsFound};

use crate::compare::{
    Placed, comparison_of_request_and_settings, find_work_tree_and_repository_places,
    read_index_mtime,
};
use crate::directory::Here;
use crate::files::{
    ls_files_options_of_request, ls_files_options_with_quote_path, named_specs_of_asked_specs,
};
use crate::refusal::CommandRefusal;
use crate::reply::Reply;
use command_line::{FilesAsked, default_diff_files_request};
use diff_files::{Comparison, Stats};
use git_setup::{Asked, Compared, ComparedFrom, Settings, read_comparison_setup_from_directory};
use ls_files::{
    ChangeQuery, ChangedError, DeletedModifiedChoice, Listed, Listing, NamedSpec, WrongListing,
    list_deleted_and_modified, refusal_of_options_for_changes,
};
use std::alloc::Global;
use worktree_fs::{Owners, Worktree};
use worktree_report::Refusal;

/// The work tree at a place and its index, with the path specs that are asked for.
fn read_inputs_for_listing_changes<W: Worktree>(
    alloc: Global,
    worktree: &mut W,
    placed: &Placed,
    asked: &Asked,
) -> Result<ComparedFrom, CommandRefusal>
    ensures finds { FindsHereResultOverToldTree W.Worktree worktree.old worktree.new
        (λ t. words.inputs_for_listing_changes_in_tree t placed.now asked.now) result }
    ensures of { IfErr result MayComeBeforeSetupIsFound }
{
    Ok(read_comparison_setup_from_directory(
        alloc,
        worktree,
        &placed.places,
        &placed.around,
        asked.prefers_current,
        &asked.paths,
    )?)
}

/// The same, unless there is no such listing.
fn require_valid_listing_of_changes(
    wants: &FilesAsked,
    compared: ComparedFrom,
) -> Result<ComparedFrom, CommandRefusal>
    ensures gives { result ≡ words.require_valid_listing_of_changes wants.now compared }
    ensures of { IfErr result MayComeBeforeSetupIsFound }
{
    match refusal_of_options_for_changes(&ls_files_options_of_request(wants)) {
        Some(wrong) => Err(CommandRefusal::Listing(wrong)),
        None => Ok(compared),
    }
}

/// The same of the work tree at a place.
#[tactic(auto, unfolding(crate::specs::Changing::checked_inputs_for_listing_changes))]
fn read_and_check_inputs_for_changes<W: Worktree>(
    alloc: Global,
    worktree: &mut W,
    placed: &Placed,
    asked: &Asked,
    wants: &FilesAsked,
) -> Result<ComparedFrom, CommandRefusal>
    ensures finds { FindsHereResultOverToldTree W.Worktree worktree.old worktree.new
        (λ t. words.checked_inputs_for_listing_changes t placed.now asked.now wants.now) result }
    ensures of { IfErr result MayComeBeforeSetupIsFound }
{
    let compared = read_inputs_for_listing_changes(alloc, worktree, placed, asked)?;
    require_valid_listing_of_changes(wants, compared)
}

/// How both are compared, by what the configuration and the files say.
fn default_comparison_of_settings(settings: &Settings, index_time: u32) -> Comparison
    ensures { result ≡ words.default_comparison_of_settings settings.now index_time }
{
    comparison_of_request_and_settings(&default_diff_files_request(), settings, index_time)
}

/// What is listed, with what the configuration says.
fn ls_files_options_with_config_quoting(wants: &FilesAsked, settings: &Settings) -> Listing
    ensures { result ≡ words.ls_files_options_with_config_quoting wants.now settings.now }
{
    ls_files_options_with_quote_path(&ls_files_options_of_request(wants), settings.quote_path)
}

/// The refusal that stands for one of a listing of what changed.
fn here_refusal_of_changed_error(refused: ChangedError) -> CommandRefusal
    ensures { result ≡ words.here_refusal_of_changed_error refused }
{
    match refused {
        ChangedError::Unsupported(form) => CommandRefusal::Listing(WrongListing::Unsupported(form)),
        ChangedError::Fault => CommandRefusal::Program(Refusal::Fault),
        ChangedError::OutOfMemory => CommandRefusal::Program(Refusal::OutOfMemory),
    }
}

/// What is said of a listing.
fn reply_of_deleted_and_modified(
    answer: Result<Listed, ChangedError>,
) -> Result<Reply, CommandRefusal>
    ensures { result ≡ words.reply_of_deleted_and_modified answer }
{
    match answer {
        Ok(made) => {
            let is_no = !made.err.as_bytes().is_empty();
            Ok(Reply {
                out: made.out,
                err: made.err,
                is_no,
            })
        }
        Err(refused) => Err(here_refusal_of_changed_error(refused)),
    }
}

/// What is asked of what changed: a listing, of which of the two it is, and when the index was last
/// written, in seconds.
#[derive(Clone, Copy)]
struct ChangedAsked<'a> {
    wants: &'a FilesAsked,
    standings: DeletedModifiedChoice,
    index_time: u32,
}

/// What is listed of a work tree and its index, in the directory `prefix`, with path specs.
fn list_changed_as_reply<W: Worktree, D: Stats>(
    alloc: Global,
    worktree: &mut W,
    stats: &mut D,
    compared: &Compared,
    prefix: &[u8],
    named: &[NamedSpec],
    asked: &ChangedAsked<'_>,
) -> Result<Reply, CommandRefusal>
    ensures finds { FindsOverTreeAndStats W.Worktree D.Stats worktree.old worktree.new stats.old
        stats.new (λ t told. words.changed_files_reply_of_comparison t told asked.now.wants.now
        asked.now.standings compared.now prefix.now named.now asked.now.index_time) result }
    ensures of { IfErr result MayComeBeforeSetupIsFound }
{
    let comparison = default_comparison_of_settings(&compared.settings, asked.index_time);
    let listing = ls_files_options_with_config_quoting(asked.wants, &compared.settings);
    let query = ChangeQuery {
        root: compared.root.as_bytes(),
        comparison: &comparison,
        standings: asked.standings,
        listing: &listing,
        named,
        specs: &compared.specs,
    };
    let details = compared.details.as_slice();
    let answer = list_deleted_and_modified(
        alloc,
        worktree,
        stats,
        &query,
        &compared.index,
        details,
        prefix,
    );
    reply_of_deleted_and_modified(answer)
}

/// The same, by all that was read.
fn list_changed_of_comparison<W: Worktree, D: Stats>(
    alloc: Global,
    worktree: &mut W,
    stats: &mut D,
    compared: ComparedFrom,
    asked: &ChangedAsked<'_>,
) -> Result<Reply, CommandRefusal>
    ensures finds { FindsOverTreeAndStats W.Worktree D.Stats worktree.old worktree.new stats.old
        stats.new (λ t told. words.changed_files_reply_from_directory t told asked.now.wants.now
        asked.now.standings compared asked.now.index_time) result }
    ensures of { IfErr result MayComeBeforeSetupIsFound }
{
    let ComparedFrom {
        compared,
        each,
        prefix,
    } = compared;
    let named = named_specs_of_asked_specs(alloc, each)?;
    let prefix = prefix.as_bytes();
    list_changed_as_reply(alloc, worktree, stats, &compared, prefix, &named, asked)
}

/// What is listed of the work tree at a place, with what `by` asks of it besides.
fn read_and_list_changed<W: Worktree, D: Stats>(
    alloc: Global,
    worktree: &mut W,
    stats: &mut D,
    placed: &Placed,
    by: &Asked,
    asked: &ChangedAsked<'_>,
) -> Result<Reply, CommandRefusal>
    ensures finds { FindsOverTreeAndStats W.Worktree D.Stats worktree.old worktree.new stats.old
        stats.new (λ t told. words.changed_files_reply_at_index_time t told placed.now by.now
        asked.now.wants.now asked.now.standings asked.now.index_time) result }
    ensures of { IfErr result MayComeBeforeSetupIsFound }
{
    let compared = read_and_check_inputs_for_changes(alloc, worktree, placed, by, asked.wants)?;
    list_changed_of_comparison(alloc, worktree, stats, compared, asked)
}

/// What is listed of the work tree at a place. When the index was written is asked for before it is
/// read, so that what changes between them is looked at.
fn read_index_time_and_list_changed<W: Worktree, D: Stats>(
    alloc: Global,
    worktree: &mut W,
    stats: &mut D,
    placed: &Placed,
    asked: &Asked,
    wants: &FilesAsked,
    standings: DeletedModifiedChoice,
) -> Result<Reply, CommandRefusal>
    ensures finds { FindsOverTreeAndStats W.Worktree D.Stats worktree.old worktree.new stats.old
        stats.new (λ t told. words.changed_files_reply_of_placed t told placed.now asked.now
        wants.now standings) result }
    ensures of { IfErr result MayComeBeforeSetupIsFound }
{
    let time = read_index_mtime(alloc, worktree, stats, &placed.places)?;
    let changed = ChangedAsked {
        wants,
        standings,
        index_time: time,
    };
    read_and_list_changed(alloc, worktree, stats, placed, asked, &changed)
}

/// What `ls-files -d` and `-m` say of the work tree around the directory that is asked for, or why
/// there is nothing of it.
///
/// # Errors
///
/// - `Absent`, `NotADirectory`: the directory that `-C` names is none.
/// - `Git`: there is no work tree, or what is read of it is refused, as
///   [`find_work_tree_and_repository_places`] and [`read_comparison_setup_from_directory`] say.
/// - `Listing`: there is no such listing, as [`refusal_of_options_for_changes`] says, or a form is
///   not answered here, as [`list_deleted_and_modified`] says.
/// - `Program(Fault)`: the worktree, the owners or the stats failed, and counted it.
/// - `Program(OutOfMemory)` for want of memory.
pub fn answer_ls_files_changed<W: Worktree, O: Owners, D: Stats>(
    alloc: Global,
    worktree: &mut W,
    owners: &mut O,
    stats: &mut D,
    here: &Here<'_>,
    asked: &Asked,
    wants: &FilesAsked,
    standings: DeletedModifiedChoice,
) -> Result<Reply, CommandRefusal>
    ensures { FindsOverTreeOwnersAndStats W.Worktree O.Owners D.Stats worktree.old worktree.new
        owners.old owners.new stats.old stats.new
        (λ t owned told. words.changed_files_reply_around_directory t owned told
        here.now.current.now here.now.variables.now here.now.directory.now asked.now wants.now
        standings) result }
{
    let placed = find_work_tree_and_repository_places(alloc, worktree, owners, here)?;
    read_index_time_and_list_changed(alloc, worktree, stats, &placed, asked, wants, standings)
}
