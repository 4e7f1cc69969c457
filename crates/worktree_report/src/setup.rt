//! The setup of a report, and the text that it is read from.
ghost use Rattle.std.specs.Prelude.{◌≡◌, map, IfOk};
ghost use Rattle.worktree_report.specs.SetupText.{split_at_line_feeds, parse_setup_text};
ghost use Rattle.worktree_report.specs.SetupParsed.{IsParseResultUnlessMemory};

pub mod configs;
pub mod depth;
mod draft;
mod field;
mod files;
mod index_line;
mod line;
mod meant;
mod option;
mod spec;

use crate::permissions::Permissions;
use configs::Configs;
use dir_classify::{CollapsedEntriesEmissionMode, EmissionMode, ForDeletionMode};
use dir_walk::Strategy;
use draft::read_draft_from_lines;
use gitbase_core::{Bytes, MemoryStore, OutOfMemory, PathText, State};
use glob_rules::pathspec::Search;
use meant::setup_from_draft;
use std::alloc::Global;
use std::collections::BTreeSet;
use thiserror::Error;
use worktree_stack::ignore_source;

/// The options of a setup, under the names that its lines give them.
#[derive(Clone, Copy, Debug, PartialEq, Eq)]
pub struct SetupOptions {
    /// Whether ASCII letters compare without regard to their case.
    pub ignore_case: bool,
    /// Whether repositories below the root are looked into like directories.
    pub recurse_repositories: bool,
    /// Whether pruned paths are reported, and those that no path spec matches.
    pub emit_pruned: bool,
    /// Whether tracked paths are reported.
    pub emit_tracked: bool,
    /// How untracked paths are reported.
    pub emit_untracked: EmissionMode,
    /// Whether ignored paths are reported, and how.
    pub emit_ignored: Option<EmissionMode>,
    /// Whether paths are reported besides the directory that was folded over them, and which.
    pub emit_collapsed: Option<CollapsedEntriesEmissionMode>,
    /// Whether directories without names are reported.
    pub emit_empty_directories: bool,
    /// Whether the paths are to be deleted, and how ignored directories are looked into for
    /// repositories.
    pub for_deletion: Option<ForDeletionMode>,
    /// Whether untracked directories are tested for being bare repositories.
    pub classify_untracked_bare_repositories: bool,
    /// Whether the ignore rules see a link as what it leads to.
    pub symlinks_to_directories_are_ignored_like_directories: bool,
    /// Whether ignore rules are asked.
    pub excludes: bool,
    /// Whether a leading `$` makes an ignore rule one for files that are worth keeping.
    pub precious: bool,
    /// Whether a path stays excluded where a directory above it is, whatever rules say of the path.
    pub strict_parents: bool,
    /// Whether each line says which ignore rule decided.
    pub origins: bool,
    /// Whether a last line says how much was walked.
    pub print_outcome: bool,
    /// Whether each line says of which submodule its path is.
    pub submodules: bool,
    /// Where rules files are read.
    pub ignore_source: ignore_source::Source,
    /// Which configurations are read.
    pub permissions: Permissions,
    /// How the walk goes.
    pub strategy: Strategy,
}

/// What a report is made from, beside the worktree.
/// See docs/DECISIONS.md#shared-blobs.
#[derive(Debug, Drop)]
pub struct Setup {
    /// The real path of the git directory of the worktree; `.git` in the worktree root where none
    /// is given.
    pub git_dir: Option<PathText>,
    /// The real path of the current directory; the worktree root where none is given.
    pub current_dir: Option<PathText>,
    /// The directory or file to walk, relative to the worktree root; where none is given it follows
    /// from the path specs.
    pub root: Option<Bytes>,
    /// How many components a directory that is entered may have below the worktree root.
    pub depth: usize,
    /// The entries of the index.
    pub index: State,
    /// The blobs that ignore rules may be mapped to.
    pub blobs: MemoryStore,
    /// Ignore rules that come before those of any directory, each with a line feed.
    pub overrides: Bytes,
    /// Ignore rules that come after those of all directories, each with a line feed.
    pub globals: Bytes,
    /// The path specs.
    pub specs: Search,
    /// The directories that are worktrees of their own, relative to the worktree root.
    pub worktrees: BTreeSet<PathText>,
    /// The configurations that are read for submodules, in this order, as far as the permissions
    /// admit them.
    pub configs: Configs,
    /// The options, those that no line sets at their defaults.
    pub options: SetupOptions,
}

/// Why a setup text means no setup.
#[derive(Clone, Copy, Debug, PartialEq, Eq, Error)]
pub enum SetupError {
    /// The first line outside the grammar, counted from 1.
    #[error("Line")]
    Line { line: usize },
    /// Want of memory.
    #[error("OutOfMemory")]
    OutOfMemory,
}

impl From<OutOfMemory> for SetupError {
    ghost use Rattle.std.specs.Prelude.{◌≡◌};
    ghost use Rattle.worktree_report.specs.declared.setup.SetupError.TheVariants as errors;

    ghost from_gives = { λ _ error. error ≡ errors.OutOfMemory };

    fn from(_refused: OutOfMemory) -> SetupError {
        SetupError::OutOfMemory
    }
}

fn split_at_line_feeds(alloc: Global, bytes: &[u8]) -> Result<Vec<&[u8]>, OutOfMemory>
    ensures { IfOk result (λ lines. map (λ line. line.now) lines.items ≡ split_at_line_feeds
        bytes.now) }
{
    Ok(bytes.split(|b| *b == b'\n').collect(alloc)?)
}

impl Setup {
    /// Reads a setup text.
    ///
    /// # Errors
    ///
    /// - `Line` names the first line outside the grammar, counted from 1.
    /// - `OutOfMemory` for want of memory.
    #[tactic(auto, unfolding(crate::specs::SetupText::parse_setup_text))]
    pub fn parse(alloc: Global, bytes: &[u8]) -> Result<Setup, SetupError>
        ensures { IsParseResultUnlessMemory result (parse_setup_text bytes.now) }
    {
        let lines = split_at_line_feeds(alloc, bytes)?;
        let draft = read_draft_from_lines(alloc, &lines)?;
        Ok(setup_from_draft(alloc, draft)?)
    }
}
