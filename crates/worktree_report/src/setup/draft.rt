//! What the lines of a setup say together, line by line.
ghost use Rattle.std.specs.Prelude.{◌≡◌, ◌++◌, ◌∷◌, [], map, Some, IfOk, OnOk};
ghost use Rattle.worktree_report.specs.declared.setup.line.SetupLine.TheVariants.{Sets};
ghost use Rattle.worktree_report.specs.SetupText.{add_setup_line};
ghost use Rattle.worktree_report.specs.SetupKeywords.{parse_setup_line};
ghost use Rattle.worktree_report.specs.SetupParsed.{IsDraftOfLines};

use crate::setup::SetupError;
use crate::setup::files::SetupBlob;
use crate::setup::line::{SetupLine, parse_setup_line};
use crate::setup::option::{SetupOption, is_option_set};
use git_config_lite::Source;
use gitbase_core::{Bytes, OutOfMemory, PathText, State};
use std::alloc::Global;
use std::marker::Model;

/// What the lines so far say, before it is known that nothing is missing.
#[derive(Debug, Drop)]
pub struct Draft {
    pub options: Vec<SetupOption>,
    pub index: State,
    /// The blobs of the store.
    pub blobs: Vec<SetupBlob>,
    /// Ignore rules that come before those of any directory, each with its line feed.
    pub overrides: Vec<u8>,
    /// Ignore rules that come after those of all directories, each with its line feed.
    pub globals: Vec<u8>,
    /// The texts of path specs.
    pub specs: Vec<Bytes>,
    /// The paths of directories that are worktrees of their own.
    pub worktrees: Vec<PathText>,
    /// The configurations: what each belongs to, and the path of its file.
    pub configs: Vec<(Source, PathText)>,
}

impl Model for Draft {
    ghost use Rattle.worktree_report.specs.SetupSaid.{SetupDraft};

    ghost Value = { SetupDraft };

    ghost view = { λ draft. record {
      options = draft.options.items;
      index = draft.index;
      blobs = draft.blobs.items;
      overrides = draft.overrides.items;
      globals = draft.globals.items;
      specs = draft.specs.items;
      worktrees = draft.worktrees.items;
      configs = draft.configs.items;
    } };
}

/// Adds an ignore rule and a line feed.
/// See docs/DECISIONS.md#any-bytes-are-a-rule.
fn append_rule_line(text: &mut Vec<u8>, rule: &[u8]) -> Result<(), OutOfMemory>
    ensures { OnOk result (text.new.items ≡ text.old.items ++ rule.now ++ 10 ∷ []) }
{
    text.extend_from_slice(rule)?;
    text.push(b'\n')?;
    Ok(())
}

/// What is said with one more option. None where it is set already.
fn add_option_unless_set(
    mut draft: Draft,
    option: SetupOption,
) -> Result<Option<Draft>, OutOfMemory>
    ensures { IfOk result (λ next. next ≡ add_setup_line draft (Some (Sets option))) }
{
    if is_option_set(option.name.as_bytes(), &draft.options) {
        return Ok(None);
    }
    draft.options.push(option)?;
    Ok(Some(draft))
}

/// What is said with one more line. None where that is outside the grammar.
fn add_setup_line(
    alloc: Global,
    mut draft: Draft,
    line: &[u8],
) -> Result<Option<Draft>, OutOfMemory>
    ensures { IfOk result (λ next. next ≡ add_setup_line draft (parse_setup_line line.now)) }
{
    match parse_setup_line(alloc, line)? {
        None => Ok(None),
        Some(SetupLine::Skipped) => Ok(Some(draft)),
        Some(SetupLine::Sets(option)) => Ok(add_option_unless_set(draft, option)?),
        Some(SetupLine::Indexes(entry)) => {
            if draft.index.error_if_entry_were_pushed(&entry).is_some() {
                return Ok(None);
            }
            draft.index.push(alloc, entry)?;
            Ok(Some(draft))
        }
        Some(SetupLine::Stores(blob)) => {
            draft.blobs.push(blob)?;
            Ok(Some(draft))
        }
        Some(SetupLine::OverrideRule(rule)) => {
            append_rule_line(&mut draft.overrides, rule.as_bytes())?;
            Ok(Some(draft))
        }
        Some(SetupLine::GlobalRule(rule)) => {
            append_rule_line(&mut draft.globals, rule.as_bytes())?;
            Ok(Some(draft))
        }
        Some(SetupLine::Specifies(text)) => {
            draft.specs.push(text)?;
            Ok(Some(draft))
        }
        Some(SetupLine::SetsApart(path)) => {
            draft.worktrees.push(path)?;
            Ok(Some(draft))
        }
        Some(SetupLine::Configures(config)) => {
            draft.configs.push(config)?;
            Ok(Some(draft))
        }
    }
}

/// What the lines say together.
///
/// `Line` names the first line outside the grammar, counted from 1.
#[tactic(auto, unfolding(crate::specs::SetupText::draft_of_lines))]
pub fn read_draft_from_lines(alloc: Global, lines: &[&[u8]]) -> Result<Draft, SetupError>
    ensures { IsDraftOfLines result (map (λ line. line.now) lines.now) }
{
    let mut draft = Draft {
        options: Vec::new(alloc),
        index: State::new(alloc),
        blobs: Vec::new(alloc),
        overrides: Vec::new(alloc),
        globals: Vec::new(alloc),
        specs: Vec::new(alloc),
        worktrees: Vec::new(alloc),
        configs: Vec::new(alloc),
    };
    for (i, line) in lines.iter().enumerate() {
        match add_setup_line(alloc, draft, line)? {
            Some(next) => draft = next,
            None => return Err(SetupError::Line { line: i + 1 }),
        }
    }
    Ok(draft)
}
