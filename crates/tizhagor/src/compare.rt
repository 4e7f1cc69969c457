//! What `diff-files`, and `state` with `--by-stat`, say of what changed in the work tree around a
//! directory.
ghost use Rattle.std.specs.Prelude.{◌≡◌, IfErr, IfOk};
ghost use Rattle.git_setup.specs.Compared.{read_comparison_setup, find_repository_places};
ghost use Rattle.tizhagor.specs.Compares.{FindsOverTreeAndStats, FindsOverTreeOwnersAndStats};
ghost use Rattle.tizhagor.specs.Comparing as words;
ghost use Rattle.tizhagor.specs.Finds.{FindsHereResultOverToldTree, FindsHereResultOverTreeAndOwners};
ghost use Rattle.tizhagor.specs.Refusals.{MayComeBeforeSetupIsFound};

use crate::directory::Here;
use crate::found::resolve_directory_or_current;
use crate::refusal::{CommandRefusal, Uncompared};
use crate::reply::Reply;
use crate::state_lines::state_reply_by_stat;
use crate::written::Writing;
use command_line::{Comparing, Ignoring};
use diff_files::{
    Comparison, DiffError, Differences, Form, NodeStat, Stats, Submodules, diff_files,
};
use git_places::{Places, Surroundings, Variable, surroundings_of_variables};
use git_setup::{
    Asked, Compared, GitRefusal, Settings, find_repository_places, path_of_index_file,
    read_comparison_setup,
};
use gitbase_core::{Bytes, PathText};
use std::alloc::Global;
use worktree_fs::{Owners, Worktree};

/// In which lines it is told what changed.
#[derive(Clone, Copy, Debug, PartialEq, Eq)]
pub enum ChangeLines {
    /// Those of `diff-files`.
    Differences(Comparing),
    /// Those of `state`, written so.
    States(Writing),
}

/// Where a work tree is compared: what git heeds besides the files, and where the repository lies.
#[derive(Debug, Drop)]
pub struct Placed {
    /// What git heeds besides the files.
    pub around: Surroundings,
    /// Where the repository lies.
    pub places: Places,
}

/// An answer of the search for a work tree.
fn places_result_with_here_refusal(
    answer: Result<Places, GitRefusal>,
) -> Result<Places, CommandRefusal>
    ensures { result ≡ words.places_result_with_here_refusal answer }
{
    match answer {
        Ok(places) => Ok(places),
        Err(refused) => Err(CommandRefusal::from(refused)),
    }
}

/// The work tree in these surroundings, and where its repository lies.
fn find_repository_places_in_surroundings<W: Worktree, O: Owners>(
    alloc: Global,
    worktree: &mut W,
    owners: &mut O,
    around: &Surroundings,
) -> Result<Places, CommandRefusal>
    ensures finds { FindsHereResultOverTreeAndOwners W.Worktree O.Owners worktree.old worktree.new
        owners.old owners.new (λ t owned. words.places_result_with_here_refusal
        (find_repository_places t owned around.now)) result }
    ensures of { IfErr result MayComeBeforeSetupIsFound }
{
    let answer = find_repository_places(alloc, worktree, owners, around);
    places_result_with_here_refusal(answer)
}

/// The same of the work tree around a directory.
fn find_repository_from_directory<W: Worktree, O: Owners>(
    alloc: Global,
    worktree: &mut W,
    owners: &mut O,
    variables: &[Variable],
    directory: &[u8],
) -> Result<Placed, CommandRefusal>
    ensures finds { FindsHereResultOverTreeAndOwners W.Worktree O.Owners worktree.old worktree.new
        owners.old owners.new (λ t owned. words.find_repository_from_directory t owned variables.now
        directory.now) result }
    ensures of { IfErr result MayComeBeforeSetupIsFound }
{
    let around = surroundings_of_variables(alloc, directory, variables)?;
    let places = find_repository_places_in_surroundings(alloc, worktree, owners, &around)?;
    Ok(Placed { around, places })
}

/// The same of the work tree around the directory that is asked for.
#[tactic(auto, unfolding(crate::specs::Comparing::find_work_tree_and_repository_places))]
pub fn find_work_tree_and_repository_places<W: Worktree, O: Owners>(
    alloc: Global,
    worktree: &mut W,
    owners: &mut O,
    here: &Here<'_>,
) -> Result<Placed, CommandRefusal>
    ensures finds { FindsHereResultOverTreeAndOwners W.Worktree O.Owners worktree.old worktree.new
        owners.old owners.new (λ t owned. words.find_work_tree_and_repository_places t owned
        here.now.current.now here.now.variables.now here.now.directory.now) result }
    ensures of { IfErr result MayComeBeforeSetupIsFound }
{
    let place = resolve_directory_or_current(alloc, worktree, here.current, here.directory)?;
    find_repository_from_directory(alloc, worktree, owners, here.variables, place.as_bytes())
}

/// When what is told of a node was last written; 0 where there is none.
fn mtime_or_zero(at: Option<NodeStat>) -> u32
    ensures { result ≡ words.mtime_or_zero at }
{
    match at {
        Some(at) => at.mtime,
        None => 0,
    }
}

/// When the node at a path was last written.
fn read_mtime_of_path<W: Worktree, D: Stats>(
    _worktree: &mut W,
    stats: &mut D,
    path: &[u8],
) -> Result<u32, CommandRefusal>
    ensures finds { FindsOverTreeAndStats W.Worktree D.Stats _worktree.old _worktree.new stats.old
        stats.new (λ t told. words.mtime_of_path told path.now) result }
    ensures of { IfErr result MayComeBeforeSetupIsFound }
{
    Ok(mtime_or_zero(stats.stat(path)?))
}

/// When the index of a git directory was last written; 0 where there is none.
fn read_index_mtime_of_git_dir<W: Worktree, D: Stats>(
    alloc: Global,
    worktree: &mut W,
    stats: &mut D,
    git: &[u8],
) -> Result<u32, CommandRefusal>
    ensures finds { FindsOverTreeAndStats W.Worktree D.Stats worktree.old worktree.new stats.old
        stats.new (λ t told. words.index_mtime_of_git_dir t told git.now) result }
    ensures of { IfErr result MayComeBeforeSetupIsFound }
{
    let path = path_of_index_file(alloc, git)?;
    match worktree.real_path(alloc, path.as_bytes(), b"/")? {
        Some(real) => read_mtime_of_path(worktree, stats, real.as_bytes()),
        None => Ok(0),
    }
}

/// The same of the git directory of a work tree.
pub fn read_index_mtime<W: Worktree, D: Stats>(
    alloc: Global,
    worktree: &mut W,
    stats: &mut D,
    places: &Places,
) -> Result<u32, CommandRefusal>
    ensures finds { FindsOverTreeAndStats W.Worktree D.Stats worktree.old worktree.new stats.old
        stats.new (λ t told. words.index_mtime_of_git_dir t told places.now.git) result }
    ensures of { IfErr result MayComeBeforeSetupIsFound }
{
    let git = places.git_dir.as_bytes();
    read_index_mtime_of_git_dir(alloc, worktree, stats, git)
}

/// What a work tree and its index are compared by.
fn read_comparison_inputs<W: Worktree>(
    alloc: Global,
    worktree: &mut W,
    placed: &Placed,
    asked: &Asked,
) -> Result<Compared, CommandRefusal>
    ensures finds { FindsHereResultOverToldTree W.Worktree worktree.old worktree.new
        (λ t. words.comparison_inputs_of_placed t placed.now asked.now) result }
    ensures of { IfErr result MayComeBeforeSetupIsFound }
{
    Ok(read_comparison_setup(
        alloc,
        worktree,
        &placed.places,
        &placed.around,
        &asked.paths,
    )?)
}

/// What is printed of each change.
fn diff_form_of_request(comparing: &Comparing) -> Form
    ensures { result ≡ words.diff_form_of_request comparing.now }
{
    if comparing.statuses {
        Form::NameStatus
    } else if comparing.names {
        Form::NameOnly
    } else {
        Form::Raw
    }
}

/// Which submodules are told of, by the words, and else by whether the configuration may leave some
/// out.
fn submodules_mode_of_ignore_setting(ignoring: Ignoring, ignores: bool) -> Submodules
    ensures { result ≡ words.submodules_mode_of_ignore_setting ignoring ignores }
{
    match ignoring {
        Ignoring::Nothing => Submodules::Told,
        Ignoring::All => Submodules::LeftOut,
        Ignoring::Configured => {
            if ignores {
                Submodules::MayBeLeftOut
            } else {
                Submodules::Told
            }
        }
    }
}

/// The comparison that the words ask for, by what the configuration and the files say.
pub fn comparison_of_request_and_settings(
    comparing: &Comparing,
    settings: &Settings,
    index_time: u32,
) -> Comparison
    ensures { result ≡ words.comparison_of_request_and_settings comparing.now settings.now
        index_time }
{
    Comparison {
        form: diff_form_of_request(comparing),
        ends_in_nul: comparing.ends_in_nul,
        quote_path: settings.quote_path,
        file_mode: settings.nodes.file_mode,
        symlinks: settings.nodes.symlinks,
        trust_ctime: settings.nodes.trust_ctime,
        check_stat: settings.nodes.check_stat,
        sparse_checkout: settings.looks_for_skipped,
        converts: settings.converts,
        submodules: submodules_mode_of_ignore_setting(
            comparing.ignoring,
            settings.ignores_submodules,
        ),
        index_time,
    }
}

/// What is said of differences.
fn reply_of_differences(
    alloc: Global,
    comparing: &Comparing,
    answer: Result<Differences, DiffError>,
) -> Result<Reply, CommandRefusal>
    ensures { result ≡ words.reply_of_differences comparing.now answer }
{
    match answer {
        Ok(made) => {
            let is_no = comparing.tells_changes | comparing.is_quiet;
            let is_no = is_no & !made.out.as_bytes().is_empty();
            let out = if comparing.is_quiet {
                Bytes::new(alloc)
            } else {
                made.out
            };
            Ok(Reply {
                out,
                err: Bytes::new(alloc),
                is_no,
            })
        }
        Err(refused) => Err(CommandRefusal::from(refused)),
    }
}

/// What is said of a work tree and its index.
fn diff_files_reply<W: Worktree, D: Stats>(
    alloc: Global,
    worktree: &mut W,
    stats: &mut D,
    compared: &Compared,
    comparing: &Comparing,
    index_time: u32,
) -> Result<Reply, CommandRefusal>
    ensures finds { FindsOverTreeAndStats W.Worktree D.Stats worktree.old worktree.new stats.old
        stats.new (λ t told. words.diff_files_reply_of_comparison t told comparing.now compared.now
        index_time) result }
    ensures of { IfErr result MayComeBeforeSetupIsFound }
{
    let comparison = comparison_of_request_and_settings(comparing, &compared.settings, index_time);
    let answer = diff_files(
        alloc,
        worktree,
        stats,
        compared.root.as_bytes(),
        &compared.index,
        compared.details.as_slice(),
        &comparison,
        &compared.specs,
    );
    reply_of_differences(alloc, comparing, answer)
}

/// The same in the lines that are asked for.
fn diff_files_or_state_lines_reply<W: Worktree, D: Stats>(
    alloc: Global,
    worktree: &mut W,
    stats: &mut D,
    compared: &Compared,
    lines: ChangeLines,
    index_time: u32,
) -> Result<Reply, CommandRefusal>
    ensures finds { FindsOverTreeAndStats W.Worktree D.Stats worktree.old worktree.new stats.old
        stats.new (λ t told. words.diff_files_or_state_lines_reply t told lines compared.now
        index_time) result }
    ensures of { IfErr result MayComeBeforeSetupIsFound }
{
    match lines {
        ChangeLines::Differences(comparing) => {
            diff_files_reply(alloc, worktree, stats, compared, &comparing, index_time)
        }
        ChangeLines::States(writing) => {
            state_reply_by_stat(alloc, worktree, stats, compared, writing, index_time)
        }
    }
}

/// What is said by what is read of a work tree, where its index was last written at a time.
fn read_index_and_compare_work_tree<W: Worktree, D: Stats>(
    alloc: Global,
    worktree: &mut W,
    stats: &mut D,
    placed: &Placed,
    asked: &Asked,
    lines: ChangeLines,
    index_time: u32,
) -> Result<Reply, CommandRefusal>
    ensures finds { FindsOverTreeAndStats W.Worktree D.Stats worktree.old worktree.new stats.old
        stats.new (λ t told. words.comparison_reply_at_index_time t told placed.now asked.now lines
        index_time) result }
    ensures of { IfErr result MayComeBeforeSetupIsFound }
{
    let compared = read_comparison_inputs(alloc, worktree, placed, asked)?;
    diff_files_or_state_lines_reply(alloc, worktree, stats, &compared, lines, index_time)
}

/// Whether two forms are asked for that git does not print together.
fn asks_name_only_and_name_status(lines: ChangeLines) -> bool
    ensures { result ≡ words.asks_name_only_and_name_status lines }
{
    match lines {
        ChangeLines::Differences(comparing) => comparing.names && comparing.statuses,
        ChangeLines::States(_) => false,
    }
}

/// What is said of the work tree at a place. When the index was written is asked for before it is
/// read, so that what changes between them is looked at.
fn read_index_time_and_compare<W: Worktree, D: Stats>(
    alloc: Global,
    worktree: &mut W,
    stats: &mut D,
    placed: &Placed,
    asked: &Asked,
    lines: ChangeLines,
) -> Result<Reply, CommandRefusal>
    ensures finds { FindsOverTreeAndStats W.Worktree D.Stats worktree.old worktree.new stats.old
        stats.new (λ t told. words.comparison_reply_of_placed t told placed.now asked.now lines)
        result }
    ensures of { IfErr result MayComeBeforeSetupIsFound }
{
    let time = read_index_mtime(alloc, worktree, stats, &placed.places)?;
    read_index_and_compare_work_tree(alloc, worktree, stats, placed, asked, lines, time)
}

/// The same, unless the words ask for what git does not print.
fn compare_unless_name_options_conflict<W: Worktree, D: Stats>(
    alloc: Global,
    worktree: &mut W,
    stats: &mut D,
    placed: &Placed,
    asked: &Asked,
    lines: ChangeLines,
) -> Result<Reply, CommandRefusal>
    ensures finds { FindsOverTreeAndStats W.Worktree D.Stats worktree.old worktree.new stats.old
        stats.new (λ t told. words.comparison_reply_if_options_agree t told placed.now asked.now
        lines) result }
    ensures of { IfErr result MayComeBeforeSetupIsFound }
{
    if asks_name_only_and_name_status(lines) {
        return Err(CommandRefusal::Uncompared(Uncompared::Exclusive));
    }
    read_index_time_and_compare(alloc, worktree, stats, placed, asked, lines)
}

/// What is said of what changed in the work tree around the directory that is asked for, or why
/// there is nothing of it.
///
/// # Errors
///
/// - `Absent`, `NotADirectory`: the directory that `-C` names is none.
/// - `Git`: there is no work tree, or what is read of it is refused, as [`find_repository_places`]
///   and [`read_comparison_setup`] say.
/// - `Uncompared`: two forms are asked for that git does not print together, or a form is not
///   answered here, as [`diff_files`] says.
/// - `Program(Fault)`: the worktree, the owners or the stats failed, and counted it.
/// - `Program(OutOfMemory)` for want of memory.
pub fn answer_diff_files_or_state_lines<W: Worktree, O: Owners, D: Stats>(
    alloc: Global,
    worktree: &mut W,
    owners: &mut O,
    stats: &mut D,
    here: &Here<'_>,
    asked: &Asked,
    lines: ChangeLines,
) -> Result<Reply, CommandRefusal>
    ensures { FindsOverTreeOwnersAndStats W.Worktree O.Owners D.Stats worktree.old worktree.new
        owners.old owners.new stats.old stats.new
        (λ t owned told. words.comparison_reply_around_directory t owned told here.now.current.now
        here.now.variables.now here.now.directory.now asked.now lines) result }
{
    let placed = find_work_tree_and_repository_places(alloc, worktree, owners, here)?;
    compare_unless_name_options_conflict(alloc, worktree, stats, &placed, asked, lines)
}
