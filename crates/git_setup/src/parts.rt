//! What a setup has of a repository.
ghost use Rattle.std.specs.Prelude.{◌≡◌, ◌++◌, ◌∷◌, [], codes, map, Ok, OnOk, unwrap_or};
ghost use Rattle.worktree_fs.specs.Changes.{real_path};
ghost use Rattle.git_setup.specs.Finds.{FindsOverToldTree};
ghost use Rattle.git_setup.specs.Found as words;

use crate::asked::Asked;
use crate::error::GitRefusal;
use crate::globals::combined_global_rules;
use crate::pathspecs::{AskedSpecs, parse_pathspec_arguments};
use crate::protected::{Protected, find_protected_paths};
use crate::read_here::Read;
use git_config_files::{Configured, Rules, Stack, read_rules_outside_work_tree};
use git_config_lite::{File, Source};
use git_places::{Places, Surroundings};
use gitbase_core::{Bytes, OutOfMemory, PathText, State};
use std::alloc::Global;
use worktree_fs::Worktree;
use worktree_report::{Configs, SetupOptions};

/// What a setup has of a repository.
#[derive(Debug, Drop)]
pub struct Parts {
    /// Whether names compare without regard to the case of ASCII letters.
    pub ignore_case: bool,
    /// Whether bytes above 0x7f are quoted in paths that are written.
    pub quote_path: bool,
    /// What the configurations say.
    pub config: File,
    /// The index.
    pub index: State,
    /// The rules that come behind those of all directories.
    pub globals: Bytes,
    /// The path specs that are asked for.
    pub specs: AskedSpecs,
    /// What a deletion leaves alone: submodules, and git directories of the work tree.
    pub worktrees: Protected,
    /// The configurations that are read for submodules.
    pub configs: Configs,
}

/// Whether the options are for deletion.
pub fn is_for_deletion(options: &SetupOptions) -> bool
    ensures { result ≡ words.is_for_deletion options.now }
{
    options.for_deletion.is_some()
}

/// A path without its links, or as it is where nothing is there.
pub fn real_path_or_same<W: Worktree>(
    alloc: Global,
    worktree: &mut W,
    path: &[u8],
) -> Result<PathText, GitRefusal>
    ensures { FindsOverToldTree W.Worktree worktree.old worktree.new
        (λ t. Ok (unwrap_or (real_path t path.now (codes "/")) path.now)) result }
{
    match worktree.real_path(alloc, path, b"/")? {
        Some(real) => Ok(real),
        None => Ok(PathText::from_bytes(alloc, path)?),
    }
}

/// Adds a configuration at the end.
fn push(
    configs: &mut Vec<(Source, PathText)>,
    source: Source,
    path: PathText,
) -> Result<(), OutOfMemory>
    ensures { OnOk result (configs.new.items ≡ configs.old.items ++ (source, path) ∷ []) }
{
    configs.push((source, path))?;
    Ok(())
}

/// Configurations by their paths without links.
fn real_paths_of_configs<W: Worktree>(
    alloc: Global,
    worktree: &mut W,
    files: &[Configured],
) -> Result<Configs, GitRefusal>
    ensures { FindsOverToldTree W.Worktree worktree.old worktree.new
        (λ t. Ok (map (words.config_by_real_path t) files.now)) result }
{
    let mut configs = Vec::new(alloc);
    for file in files {
        let path = real_path_or_same(alloc, worktree, file.path.as_bytes())?;
        push(&mut configs, file.source, path)?;
    }
    Ok(Configs::from_vec(configs))
}

/// The configurations that are read for submodules, if these are asked for.
fn configs_if_submodules_requested<W: Worktree>(
    alloc: Global,
    worktree: &mut W,
    options: &SetupOptions,
    files: &[Configured],
) -> Result<Configs, GitRefusal>
    ensures { FindsOverToldTree W.Worktree worktree.old worktree.new
        (λ t. Ok (words.configs_if_submodules_requested t options.now files.now)) result }
{
    if options.submodules {
        return real_paths_of_configs(alloc, worktree, files);
    }
    Ok(Configs::from_vec(Vec::new(alloc)))
}

/// What a setup has of rules files, path specs and submodules.
#[derive(Debug, Drop)]
pub struct Pieces {
    /// The rules that come behind those of all directories.
    pub globals: Bytes,
    /// The path specs that are asked for.
    pub specs: AskedSpecs,
    /// What a deletion leaves alone: submodules, and git directories of the work tree.
    pub worktrees: Protected,
    /// The configurations that are read for submodules.
    pub configs: Configs,
}

/// These, with what the rules files and the configurations give.
fn pieces_from_rules_and_configs<W: Worktree>(
    alloc: Global,
    worktree: &mut W,
    options: &SetupOptions,
    files: &[Configured],
    rules: &Rules,
    specs: AskedSpecs,
    worktrees: Protected,
) -> Result<Pieces, GitRefusal>
    ensures { FindsOverToldTree W.Worktree worktree.old worktree.new
        (λ t. Ok (words.pieces_from_rules_and_configs t options.now files.now rules.now specs
        worktrees)) result }
{
    let globals = combined_global_rules(alloc, rules)?;
    let configs = configs_if_submodules_requested(alloc, worktree, options, files)?;
    Ok(Pieces {
        globals,
        specs,
        worktrees,
        configs,
    })
}

/// The rules files outside the work tree.
#[tactic(auto, unfolding(crate::specs::Found::read_outer_rules_files))]
fn read_outer_rules_files<W: Worktree>(
    alloc: Global,
    worktree: &mut W,
    places: &Places,
    around: &Surroundings,
    read: &Read,
) -> Result<Rules, GitRefusal>
    ensures { FindsOverToldTree W.Worktree worktree.old worktree.new
        (λ t. words.read_outer_rules_files t places.now around.now read.now) result }
{
    Ok(read_rules_outside_work_tree(alloc, worktree, places, around, &read.stack.file)?)
}

/// What a setup has of rules files, path specs and submodules.
#[tactic(auto, unfolding(crate::specs::Found::read_rules_specs_and_protected_paths))]
fn read_rules_specs_and_protected_paths<W: Worktree>(
    alloc: Global,
    worktree: &mut W,
    places: &Places,
    around: &Surroundings,
    asked: &Asked,
    read: &Read,
) -> Result<Pieces, GitRefusal>
    ensures { FindsOverToldTree W.Worktree worktree.old worktree.new
        (λ t. words.read_rules_specs_and_protected_paths t places.now around.now asked.now read.now)
        result }
{
    let rules = read_outer_rules_files(alloc, worktree, places, around, read)?;
    let root = places.root.as_bytes();
    let directory = around.directory.as_bytes();
    let specs = parse_pathspec_arguments(
        alloc,
        asked.prefers_current,
        false,
        root,
        directory,
        &asked.paths,
    )?;
    let deletes = is_for_deletion(&asked.options);
    let ignore_case = read.switches.ignore_case;
    let entries = read.index.entries();
    let worktrees = find_protected_paths(alloc, worktree, deletes, ignore_case, places, entries)?;
    let files = read.stack.files.as_slice();
    pieces_from_rules_and_configs(
        alloc,
        worktree,
        &asked.options,
        files,
        &rules,
        specs,
        worktrees,
    )
}

/// What the configurations say.
fn config_file_of_stack(stack: Stack) -> File
    ensures { result ≡ stack.file }
{
    stack.file
}

/// What a setup has of a repository.
#[tactic(auto, unfolding(crate::specs::Found::read_remaining_setup_parts))]
pub fn read_remaining_setup_parts<W: Worktree>(
    alloc: Global,
    worktree: &mut W,
    places: &Places,
    around: &Surroundings,
    asked: &Asked,
    read: Read,
) -> Result<Parts, GitRefusal>
    ensures { FindsOverToldTree W.Worktree worktree.old worktree.new
        (λ t. words.read_remaining_setup_parts t places.now around.now asked.now read) result }
{
    let pieces = read_rules_specs_and_protected_paths(
        alloc, worktree, places, around, asked, &read,
    )?;
    let Read {
        stack,
        switches,
        index,
    } = read;
    Ok(Parts {
        ignore_case: switches.ignore_case,
        quote_path: switches.quote_path,
        config: config_file_of_stack(stack),
        index,
        globals: pieces.globals,
        specs: pieces.specs,
        worktrees: pieces.worktrees,
        configs: pieces.configs,
    })
}
