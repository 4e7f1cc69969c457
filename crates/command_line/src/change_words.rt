//! Which paths of an index `ls-files` shows by what stands in the work tree.
ghost use Rattle.std.specs.Prelude.{◌≡◌};
ghost use Rattle.command_line.specs.ChangeWords as words;

use crate::choice::Choice;
use ls_files::DeletedModifiedChoice;

/// Whether `-d` and `-m` stand among the words.
#[derive(Clone, Copy, Debug, PartialEq, Eq)]
pub struct ChangeWords {
    /// `-d`.
    pub deleted: bool,
    /// `-m`.
    pub modified: bool,
}

/// Neither stands where no word says any.
pub fn no_deleted_modified_flags() -> ChangeWords
    ensures { result ≡ words.no_deleted_modified_flags }
{
    ChangeWords {
        deleted: false,
        modified: false,
    }
}

/// The same with one choice made or dropped; all but two choices are about something else.
pub fn deleted_modified_flags_with_choice(
    changes: ChangeWords,
    choice: Choice,
    on: bool,
) -> ChangeWords
    ensures { result ≡ words.deleted_modified_flags_with_choice choice on changes }
{
    let mut changes = changes;
    match choice {
        Choice::Deleted => changes.deleted = on,
        Choice::Modified => changes.modified = on,
        Choice::Cached => {}
        Choice::Stages => {}
        Choice::Unmerged => {}
        Choice::Others => {}
        Choice::Killed => {}
        Choice::Ignored => {}
        Choice::Directories => {}
        Choice::EmptyDirectories => {}
        Choice::ExcludesStandard => {}
        Choice::ExcludesDirectories => {}
        Choice::ErrorUnmatch => {}
        Choice::Tags => {}
        Choice::Valid => {}
        Choice::Nul => {}
        Choice::Deduplicates => {}
        Choice::FullNames => {}
    }
    changes
}

/// Which paths are shown so; none where neither stands.
pub fn standings_of_deleted_modified_flags(changes: ChangeWords) -> Option<DeletedModifiedChoice>
    ensures { result ≡ words.standings_of_deleted_modified_flags changes }
{
    if changes.deleted {
        if changes.modified {
            return Some(DeletedModifiedChoice::Both);
        }
        return Some(DeletedModifiedChoice::Deleted);
    }
    if changes.modified {
        return Some(DeletedModifiedChoice::Modified);
    }
    None
}
