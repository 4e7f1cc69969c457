//! The lines of a plan.
ghost use Rattle.std.specs.Prelude.{◌≡◌, ◌++◌, IfOk, OnOk};
ghost use Rattle.std.specs.List.{flat_map};
ghost use Rattle.module_plan.specs.Lines.{word_of_step_kind, tab_and_escaped_bytes, tab_and_escaped_name, command_column_if_any, line_of_step, word_of_skip_reason, line_of_skipped, text_of_plan};

use crate::step::{ModulePlan, Skipped, Step, StepKind, Why};
use gitbase_core::{Bytes, OutOfMemory};
use std::alloc::Global;
use worktree_report::{append_path_escaped, append_path_hex_escaped};

fn word_of_step_kind(kind: &StepKind) -> &'static [u8]
    ensures { result.now ≡ word_of_step_kind kind.now }
{
    match kind {
        StepKind::Checkout => b"checkout",
        StepKind::Rebase => b"rebase",
        StepKind::Merge => b"merge",
        StepKind::Command(_) => b"command",
    }
}

/// Adds a tab and a path or a command.
fn append_tab_and_escaped_bytes(text: &mut Vec<u8>, bytes: &[u8]) -> Result<(), OutOfMemory>
    ensures { OnOk result (text.new.items ≡ text.old.items ++ tab_and_escaped_bytes bytes.now) }
{
    text.push(b'\t')?;
    append_path_escaped(text, bytes)
}

/// Adds a tab and a name, in which a space is escaped too.
fn append_tab_and_escaped_name(text: &mut Vec<u8>, name: &[u8]) -> Result<(), OutOfMemory>
    ensures { OnOk result (text.new.items ≡ text.old.items ++ tab_and_escaped_name name.now) }
{
    text.push(b'\t')?;
    append_path_hex_escaped(text, name)
}

/// Adds the command, where one is to be run.
fn append_command_if_any(text: &mut Vec<u8>, kind: &StepKind) -> Result<(), OutOfMemory>
    ensures { OnOk result (text.new.items ≡ text.old.items ++ command_column_if_any kind.now) }
{
    match kind {
        StepKind::Command(command) => append_tab_and_escaped_bytes(text, command.as_bytes()),
        StepKind::Checkout => Ok(()),
        StepKind::Rebase => Ok(()),
        StepKind::Merge => Ok(()),
    }
}

/// Adds the line of a step.
#[tactic(auto, unfolding(crate::specs::Lines::line_of_step))]
fn append_step_line(text: &mut Vec<u8>, step: &Step) -> Result<(), OutOfMemory>
    ensures { OnOk result (text.new.items ≡ text.old.items ++ line_of_step step.now) }
{
    text.extend_from_slice(word_of_step_kind(&step.kind))?;
    append_tab_and_escaped_bytes(text, step.path.as_bytes())?;
    append_tab_and_escaped_name(text, step.name.as_bytes())?;
    append_command_if_any(text, &step.kind)?;
    text.push(b'\n')?;
    Ok(())
}

/// Adds the lines of steps, in their order.
fn append_step_lines(text: &mut Vec<u8>, steps: &[Step]) -> Result<(), OutOfMemory>
    ensures { OnOk result (text.new.items ≡ text.old.items ++ flat_map line_of_step steps.now) }
{
    for step in steps {
        append_step_line(text, step)?;
    }
    Ok(())
}

fn word_of_skip_reason(why: Why) -> &'static [u8]
    ensures { result.now ≡ word_of_skip_reason why }
{
    match why {
        Why::BadActive => b"bad-active",
        Why::Inactive => b"inactive",
        Why::BadPath => b"bad-path",
        Why::Root => b"root",
        Why::DotGit => b"dot-git",
        Why::BadUpdate => b"bad-update",
        Why::SharedCommand => b"shared-command",
        Why::NoUpdate => b"no-update",
        Why::BadUrl => b"bad-url",
        Why::SamePath => b"same-path",
        Why::Link => b"link",
        Why::NotADirectory => b"not-a-directory",
    }
}

/// Adds the line of a submodule that is left out.
#[tactic(auto, unfolding(crate::specs::Lines::line_of_skipped))]
fn append_skipped_line(text: &mut Vec<u8>, one: &Skipped) -> Result<(), OutOfMemory>
    ensures { OnOk result (text.new.items ≡ text.old.items ++ line_of_skipped one.now) }
{
    text.extend_from_slice(b"skip ")?;
    text.extend_from_slice(word_of_skip_reason(one.why))?;
    append_tab_and_escaped_name(text, one.name.as_bytes())?;
    text.push(b'\n')?;
    Ok(())
}

/// Adds the lines of what is left out, in its order.
fn append_skipped_lines(text: &mut Vec<u8>, skipped: &[Skipped]) -> Result<(), OutOfMemory>
    ensures { OnOk result (text.new.items
        ≡ text.old.items ++ flat_map line_of_skipped skipped.now) }
{
    for one in skipped {
        append_skipped_line(text, one)?;
    }
    Ok(())
}

/// The text of a plan: a line for each step, and behind them one for each submodule that is left
/// out.
pub fn text_of_plan(alloc: Global, plan: &ModulePlan) -> Result<Bytes, OutOfMemory>
    ensures { IfOk result (λ text. text
        ≡ text_of_plan plan.now.steps.items plan.now.skipped.items) }
{
    let mut text = Vec::new(alloc);
    append_step_lines(&mut text, &plan.steps)?;
    append_skipped_lines(&mut text, &plan.skipped)?;
    Ok(Bytes::from_vec(text))
}
