//! What is answered of the paths of an input.
ghost use Rattle.std.specs.Prelude.{◌≡◌, ◌∷◌, [], map};
ghost use Rattle.check_ignore.specs.Checked.{empty_answer};
ghost use Rattle.check_ignore.specs.Finds.{FindsInTree};
ghost use Rattle.check_ignore.specs.Input as words;

use crate::answer::{Answered, append_answer, check_ignore, empty_answer};
use crate::input::{input_lines, line_feed_or_nul_if_z, parse_path_of_input_line};
use crate::options::CheckContext;
use crate::stop::Stop;
use gitbase_core::Bytes;
use std::alloc::Global;
use worktree_fs::Worktree;

/// What is answered of a line.
fn answer_of_input_line<W: Worktree>(
    alloc: Global,
    worktree: &mut W,
    context: &CheckContext<'_>,
    line: &[u8],
) -> Result<Answered, Stop>
    ensures { FindsInTree W.Worktree worktree.old worktree.new (λ t. words.answer_of_input_line t
        context.now.root.now
        context.now.prefix.now context.now.index.now context.now.outer.now
        context.now.checking.now line.now) result }
{
    let path = parse_path_of_input_line(alloc, context.checking, line)?;
    let paths = [path];
    check_ignore(alloc, worktree, context, &paths)
}

/// What is answered of some lines.
fn combined_answer_of_input_lines<W: Worktree>(
    alloc: Global,
    worktree: &mut W,
    context: &CheckContext<'_>,
    lines: &[&[u8]],
) -> Result<Answered, Stop>
    ensures { FindsInTree W.Worktree worktree.old worktree.new (λ t. words.append_answers_of_lines t
        context.now.root.now context.now.prefix.now context.now.index.now context.now.outer.now
        context.now.checking.now empty_answer (map (λ line. line.now) lines.now)) result }
{
    let mut done = empty_answer(alloc);
    for line in lines {
        let now = answer_of_input_line(alloc, worktree, context, line)?;
        append_answer(alloc, &mut done, &now)?;
    }
    Ok(done)
}

/// What is answered of the paths of an input.
fn answer_of_whole_input<W: Worktree>(
    alloc: Global,
    worktree: &mut W,
    context: &CheckContext<'_>,
    input: &[u8],
) -> Result<Answered, Stop>
    ensures { FindsInTree W.Worktree worktree.old worktree.new (λ t. words.answer_of_whole_input t
        context.now.root.now context.now.prefix.now context.now.index.now context.now.outer.now
        context.now.checking.now input.now) result }
{
    let lines = input_lines(alloc, input, line_feed_or_nul_if_z(context.checking))?;
    combined_answer_of_input_lines(alloc, worktree, context, &lines)
}

/// What `git check-ignore` prints, and whether it ends with 0: of `paths`, as [`check_ignore`] has
/// it, or, with `--stdin`, of the paths of `input`, one a line. Each of these is answered by
/// itself, one after another.
///
/// A line ends in a line feed, or in a NUL with `-z`; what stands behind the last of them is a line
/// too, unless it is empty. A carriage return is part of a path. Without `-z` a NUL ends a path,
/// and a path that begins with a double quote stands in quotes, as git writes such ones: `\a`,
/// `\b`, `\t`, `\n`, `\v`, `\f`, `\r`, `\"`, `\\` and three octal digits behind a backslash mean
/// other bytes, and what follows the closing quote means nothing.
///
/// # Errors
///
/// - With `--stdin`, of the first line that is refused: `BadQuotes`: it begins with a double quote,
///   and no other closes it, or a backslash in it means nothing; else as [`check_ignore`] has them
///   of its path alone. Nothing is answered of the lines before it.
/// - Without: as [`check_ignore`] has them of all paths.
///
/// See docs/DIFFERENCES.md#check-ignore-input.
pub fn check_paths_or_stdin<W: Worktree>(
    alloc: Global,
    worktree: &mut W,
    context: &CheckContext<'_>,
    paths: &[Bytes],
    input: &[u8],
) -> Result<Answered, Stop>
    ensures { FindsInTree W.Worktree worktree.old worktree.new (λ t. words.answer_of_paths_or_stdin
        t context.now.root.now context.now.prefix.now context.now.index.now context.now.outer.now
        context.now.checking.now paths.now input.now) result }
{
    if context.checking.stdin {
        return answer_of_whole_input(alloc, worktree, context, input);
    }
    check_ignore(alloc, worktree, context, paths)
}
