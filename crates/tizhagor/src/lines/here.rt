//! Why there is no text: the status and the line of each refusal.
ghost use Rattle.std.specs.Prelude.{◌≡◌, IfOk};
ghost use Rattle.tizhagor.specs.Refusals as words;

use crate::lines::git::line_of_git_refusal;
use crate::lines::program::{line_of_program_refusal, status_of_program_refusal};
use crate::lines::{copy_fixed_line, fault_line_with_path, text_with_escaped_path};
use crate::refusal::{CommandRefusal, Unchecked, Uncompared};
use crate::require_force::WrongClean;
use check_ignore::told;
use command_line::message_of_misuse;
use diff_files::Unanswered;
use gitbase_core::{Bytes, OutOfMemory};
use ls_files::WrongListing;
use std::alloc::Global;
use worktree_report::Refusal;

/// The status that the program ends with.
pub fn status_of(refusal: &CommandRefusal) -> u8
    ensures { result ≡ words.status_of refusal.now }
{
    match refusal {
        CommandRefusal::Words(_) => 129,
        CommandRefusal::Absent { directory: _ }
        | CommandRefusal::NotADirectory { directory: _ }
        | CommandRefusal::NotAtTop { root: _ }
        | CommandRefusal::Elsewhere
        | CommandRefusal::Git(_)
        | CommandRefusal::Listing(_)
        | CommandRefusal::ExcludeFile { name: _ }
        | CommandRefusal::Uncompared(_)
        | CommandRefusal::Unchecked(_)
        | CommandRefusal::Cleaning(_) => 128,
        CommandRefusal::Program(refusal) => status_of_program_refusal(refusal),
    }
}

/// The line of a listing that there is not.
fn wrong_listing_line(alloc: Global, wrong: WrongListing) -> Result<Bytes, OutOfMemory>
    ensures { IfOk result (λ line. line ≡ words.line_of_refusal (CommandRefusal.Listing wrong)) }
{
    let mut line = Bytes::from_slice(alloc, b"fatal: ")?;
    line.extend(alloc, wrong.text())?;
    line.extend(alloc, b"\n")?;
    Ok(line)
}

/// The line of a cleaning that there is not.
fn wrong_cleaning_line(alloc: Global, wrong: WrongClean) -> Result<Bytes, OutOfMemory>
    ensures { IfOk result (λ line. line ≡ words.line_of_refusal (CommandRefusal.Cleaning wrong)) }
{
    let mut line = Bytes::from_slice(alloc, b"fatal: ")?;
    line.extend(alloc, wrong.text())?;
    line.extend(alloc, b"\n")?;
    Ok(line)
}

/// The line of a form that is not answered, with the path of its entry.
fn unsupported_form_line(alloc: Global, refused: &Unanswered) -> Result<Bytes, OutOfMemory>
    ensures { IfOk result (λ line. line ≡ words.unsupported_form_line refused.now) }
{
    let mut front = Bytes::from_slice(alloc, b"fatal: ")?;
    front.extend(alloc, refused.form.text())?;
    front.extend(alloc, b": '")?;
    text_with_escaped_path(alloc, front.as_bytes(), refused.path.as_bytes(), b"'\n")
}

/// The line that says why a work tree is not compared with its index.
fn line_of_comparison_refusal(alloc: Global, reason: &Uncompared) -> Result<Bytes, OutOfMemory>
    ensures { IfOk result (λ line. line ≡ words.line_of_comparison_refusal reason.now) }
{
    match reason {
        Uncompared::Exclusive => copy_fixed_line(
            alloc,
            b"fatal: options '--name-only', '--name-status', '--check', and '-s' cannot be used together\n",
        ),
        Uncompared::Form(refused) => unsupported_form_line(alloc, refused),
    }
}

/// Why paths are not checked.
fn text_of_check_ignore_refusal(alloc: Global, reason: &Unchecked) -> Result<Bytes, OutOfMemory>
    ensures { IfOk result (λ text. text ≡ words.text_of_check_ignore_refusal reason.now) }
{
    match reason {
        Unchecked::Wrong(wrong) => Bytes::from_slice(alloc, wrong.text()),
        Unchecked::Stopped { root, stop } => told(alloc, root.as_bytes(), stop),
    }
}

/// The line that says so.
///
/// See docs/DIFFERENCES.md#check-ignore-lines.
fn line_of_check_ignore_refusal(alloc: Global, reason: &Unchecked) -> Result<Bytes, OutOfMemory>
    ensures { IfOk result (λ line. line ≡ words.line_of_check_ignore_refusal reason.now) }
{
    let text = text_of_check_ignore_refusal(alloc, reason)?;
    text_with_escaped_path(alloc, b"fatal: ", text.as_bytes(), b"\n")
}

/// The line on standard error, its line feed included.
///
/// # Errors
///
/// Memory was refused.
fn line_of_refusal(alloc: Global, refusal: &CommandRefusal) -> Result<Bytes, OutOfMemory>
    ensures { IfOk result (λ line. line ≡ words.line_of_refusal refusal.now) }
{
    match refusal {
        CommandRefusal::Words(misuse) => message_of_misuse(alloc, misuse),
        CommandRefusal::Absent { directory } => text_with_escaped_path(
            alloc,
            b"fatal: cannot change to '",
            directory.as_bytes(),
            b"': No such file or directory\n",
        ),
        CommandRefusal::NotADirectory { directory } => text_with_escaped_path(
            alloc,
            b"fatal: cannot change to '",
            directory.as_bytes(),
            b"': Not a directory\n",
        ),
        CommandRefusal::NotAtTop { root } => text_with_escaped_path(
            alloc,
            b"fatal: what is to be deleted is told at the top of the work tree; call it there: '",
            root.as_bytes(),
            b"'\n",
        ),
        CommandRefusal::Elsewhere => copy_fixed_line(
            alloc,
            b"fatal: clean is not supported with -C: it works in the current directory\n",
        ),
        CommandRefusal::Git(refusal) => line_of_git_refusal(alloc, refusal),
        CommandRefusal::Listing(wrong) => wrong_listing_line(alloc, *wrong),
        CommandRefusal::ExcludeFile { name } => text_with_escaped_path(
            alloc,
            b"fatal: cannot use ",
            name.as_bytes(),
            b" as an exclude file\n",
        ),
        CommandRefusal::Uncompared(reason) => line_of_comparison_refusal(alloc, reason),
        CommandRefusal::Unchecked(reason) => line_of_check_ignore_refusal(alloc, reason),
        CommandRefusal::Cleaning(wrong) => wrong_cleaning_line(alloc, *wrong),
        CommandRefusal::Program(refusal) => line_of_program_refusal(alloc, refusal),
    }
}

/// Whether the worktree, the owners or the stats failed.
fn is_fault_refusal(refusal: &CommandRefusal) -> bool
    ensures { result ≡ words.is_fault_refusal refusal.now }
{
    match refusal {
        CommandRefusal::Words(_)
        | CommandRefusal::Absent { directory: _ }
        | CommandRefusal::NotADirectory { directory: _ }
        | CommandRefusal::NotAtTop { root: _ }
        | CommandRefusal::Elsewhere
        | CommandRefusal::Git(_)
        | CommandRefusal::Listing(_)
        | CommandRefusal::ExcludeFile { name: _ }
        | CommandRefusal::Uncompared(_)
        | CommandRefusal::Unchecked(_)
        | CommandRefusal::Cleaning(_) => false,
        CommandRefusal::Program(refusal) => matches!(refusal, Refusal::Fault),
    }
}

/// The line of a refusal, its line feed included. That of a fault names the path of the worktree's
/// `first` one, where that has bytes.
///
/// # Errors
///
/// Memory was refused.
pub fn line_of_refusal_with_fault_path(
    alloc: Global,
    first: &[u8],
    refusal: &CommandRefusal,
) -> Result<Bytes, OutOfMemory>
    ensures { IfOk result (λ line. line ≡ words.line_of_refusal_with_fault_path first.now
        refusal.now) }
{
    if is_fault_refusal(refusal) {
        return fault_line_with_path(alloc, first);
    }
    line_of_refusal(alloc, refusal)
}
