//! The lines of a cleaning.
ghost use Rattle.std.specs.Prelude.{◌≡◌, ◌++◌, OnOk};
ghost use Rattle.git_clean.specs.Lines as lines;

use crate::options::Cleaning;
use git_paths::append_path_quoted_if_needed;
use gitbase_core::OutOfMemory;

/// What stands before a path that would be removed.
#[tactic(auto, unfolding(crate::specs::Lines::would_remove_words))]
pub fn would_remove_words() -> &'static [u8]
    ensures { result.now ≡ lines.would_remove_words }
{
    b"Would remove "
}

/// What stands before a repository that would be skipped.
#[tactic(auto, unfolding(crate::specs::Lines::would_skip_repository_words))]
pub fn would_skip_repository_words() -> &'static [u8]
    ensures { result.now ≡ lines.would_skip_repository_words }
{
    b"Would skip repository "
}

/// The line of the current directory.
#[tactic(auto, unfolding(crate::specs::Lines::would_refuse_current_directory_line))]
pub fn would_refuse_current_directory_line() -> &'static [u8]
    ensures { result.now ≡ lines.would_refuse_current_directory_line }
{
    b"Would refuse to remove current working directory\n"
}

/// Adds the line of a name, behind some words, unless nothing is to be named.
pub fn append_line_unless_quiet(
    text: &mut Vec<u8>,
    cleaning: &Cleaning,
    words: &[u8],
    name: &[u8],
) -> Result<(), OutOfMemory>
    ensures { OnOk result (text.new.items
        ≡ text.old.items ++ lines.line cleaning.now words.now name.now) }
{
    if cleaning.quiet {
        return Ok(());
    }
    text.extend_from_slice(words)?;
    append_path_quoted_if_needed(text, name, cleaning.quote_path)?;
    text.push(b'\n')?;
    Ok(())
}
