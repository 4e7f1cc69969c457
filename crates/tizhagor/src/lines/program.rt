//! Why there is no text by a setup.
ghost use Rattle.std.specs.Prelude.{◌≡◌, IfOk};
ghost use Rattle.tizhagor.specs.ProgramLines as words;

use crate::lines::{
    FAULT, MEMORY, OUTPUT, bad_config_line, copy_fixed_line, text_with_escaped_path,
    text_with_number,
};
use gitbase_core::{Bytes, OutOfMemory};
use std::alloc::Global;
use worktree_report::{Misread, Refusal, WalkWord};

/// What a walk is refused for, before the path.
fn phrase_of_walk_refusal(word: WalkWord) -> &'static [u8]
    ensures { result.now ≡ words.phrase_of_walk_refusal word }
{
    match word {
        WalkWord::RootIsFile => b"fatal: the top of the work tree is no directory: '",
        WalkWord::OutsideRoot => b"fatal: outside the work tree: '",
        WalkWord::SymlinkInRoot => b"fatal: beyond a symbolic link: '",
        WalkWord::MissingRoot => b"fatal: nothing is there: '",
        WalkWord::AbsentDirectory => b"fatal: directory is gone: '",
        WalkWord::NotADirectory => b"fatal: no longer a directory: '",
        WalkWord::RulesFile => b"fatal: ignore rules are not read: '",
        WalkWord::Blob => {
            b"fatal: a skipped .gitignore is not checked out, and objects are not read; git ls-files -s names it by '"
        }
        WalkWord::Lookup => b"fatal: ignore rules cannot be asked: '",
        WalkWord::TooDeep =>
            b"fatal: deeper than --depth (256 where it is not said, at most 1000): '",
    }
}

/// The line of a configuration by its place among those of the setup.
fn bad_numbered_config_line(alloc: Global, at: usize, line: usize) -> Result<Bytes, OutOfMemory>
    ensures { IfOk result (λ text. text ≡ words.line_of_misread_submodules
        (Misread.Config at line)) }
{
    let end = text_with_number(alloc, b" in configuration ", at, b"\n")?;
    text_with_number(alloc, b"fatal: bad config line ", line, end.as_bytes())
}

fn line_of_misread_submodules(alloc: Global, misread: Misread) -> Result<Bytes, OutOfMemory>
    ensures { IfOk result (λ text. text ≡ words.line_of_misread_submodules misread) }
{
    match misread {
        Misread::Config { at, line } => bad_numbered_config_line(alloc, at, line),
        Misread::Modules { line } => bad_config_line(alloc, b".gitmodules", line),
        Misread::ActiveSpec { at } => text_with_number(
            alloc,
            b"fatal: bad config value for 'submodule.active': value ",
            at,
            b"\n",
        ),
    }
}

/// The line of a command that gives no text by a setup.
pub fn line_of_program_refusal(alloc: Global, refusal: &Refusal) -> Result<Bytes, OutOfMemory>
    ensures { IfOk result (λ line. line ≡ words.line_of_program_refusal refusal.now) }
{
    match refusal {
        Refusal::Interrupted => copy_fixed_line(alloc, b"fatal: interrupted\n"),
        Refusal::Usage => copy_fixed_line(alloc, b"fatal: nothing is asked\n"),
        Refusal::Setup { line } => text_with_number(alloc, b"fatal: bad setup line ", *line, b"\n"),
        Refusal::Walk { word, path } => text_with_escaped_path(
            alloc,
            phrase_of_walk_refusal(*word),
            path.as_bytes(),
            b"'\n",
        ),
        Refusal::Misread(misread) => line_of_misread_submodules(alloc, *misread),
        Refusal::Fault => copy_fixed_line(alloc, FAULT),
        Refusal::Output => copy_fixed_line(alloc, OUTPUT),
        Refusal::OutOfMemory => copy_fixed_line(alloc, MEMORY),
    }
}

/// The status of a command that gives no text by a setup.
pub fn status_of_program_refusal(refusal: &Refusal) -> u8
    ensures { result ≡ words.status_of_program_refusal refusal.now }
{
    match refusal {
        Refusal::Interrupted => 130,
        _ => 128,
    }
}
