//! Why there is no report: the status and the line of each refusal.
ghost use Rattle.std.specs.Prelude.{◌≡◌, ◌≤◌, [], true, false, IfOk, OnErr};
ghost use Rattle.worktree_report.specs.Ends.{ReportsRefusalOrMemory, ReportsRefusalLine};
ghost use Rattle.worktree_report.specs.Refusals.{status_of, bytes_of_walk_word, line_of_refusal, WritesLineOrRefusedFront, takes_memory_for_line, IsLineIfTakesMemory};

use crate::escape::append_path_escaped;
use crate::write_whole::write_all_bytes;
use gitbase_core::{Bytes, OutOfMemory, PathText};
use std::alloc::Global;
use worktree_fs::Sink;

/// The word of a walk that was refused.
#[derive(Clone, Copy, Debug, PartialEq, Eq)]
pub enum WalkWord {
    /// The traversal root is the worktree root, which is not entered and is no directory, a link
    /// not followed; or its kind could not be learnt.
    RootIsFile,
    /// The traversal root is absolute, or leads out of the worktree.
    OutsideRoot,
    /// A component of the traversal root is a link.
    SymlinkInRoot,
    /// A component of the traversal root is not there.
    MissingRoot,
    /// Nothing is where a directory was to be entered.
    AbsentDirectory,
    /// What was to be entered is no directory.
    NotADirectory,
    /// A rules file leads along more links than are followed, or to what is neither a file nor a
    /// directory; or it is a link, though it is mapped to a blob.
    RulesFile,
    /// The blob that a rules file is mapped to is not there, or is no blob. In the place of a path
    /// stands its id.
    Blob,
    /// The rules could not be asked for another reason, which does not come in a walk.
    Lookup,
    /// What was to be entered lies deeper than the limit.
    TooDeep,
}

/// What is outside its grammar among what tells of submodules.
#[derive(Clone, Copy, Debug, PartialEq, Eq)]
pub enum Misread {
    /// The first such line of a configuration, which has this place among those of the setup. Both
    /// are counted from 1.
    Config { at: usize, line: usize },
    /// The first such line of `.gitmodules`.
    Modules { line: usize },
    /// The first such value of `submodule.active`, counted from 1.
    ActiveSpec { at: usize },
}

/// Why a top call gives no text.
/// See docs/DECISIONS.md#error-texts.
#[derive(Debug, Drop)]
pub enum Refusal {
    /// The interrupt was raised.
    Interrupted,
    /// The words ask for nothing.
    Usage,
    /// The first line of the setup outside its grammar; 0 where the setup is not read as a file.
    Setup { line: usize },
    /// What tells of submodules is outside its grammar.
    Misread(Misread),
    /// The walk was refused, for what is at a path.
    Walk { word: WalkWord, path: PathText },
    /// The worktree failed.
    Fault,
    /// The report's bytes were refused.
    Output,
    /// Want of memory.
    OutOfMemory,
}

impl From<OutOfMemory> for Refusal {
    ghost use Rattle.std.specs.Prelude.{◌≡◌};
    ghost use Rattle.worktree_report.specs.declared.refusal.Refusal.TheVariants as refusals;

    ghost from_gives = { λ _ refusal. refusal ≡ refusals.OutOfMemory };

    fn from(_refused: OutOfMemory) -> Refusal {
        Refusal::OutOfMemory
    }
}

/// The status that the program ends with.
pub fn status_of(refusal: &Refusal) -> u8
    ensures { result ≡ status_of refusal.now }
{
    match refusal {
        Refusal::Interrupted => 1,
        Refusal::Usage => 2,
        Refusal::Setup { line: _ } => 3,
        Refusal::Walk { word: _, path: _ } => 4,
        Refusal::Misread(_) => 5,
        Refusal::Fault => 6,
        Refusal::Output => 7,
        Refusal::OutOfMemory => 8,
    }
}

fn bytes_of_walk_word(word: WalkWord) -> &'static [u8]
    ensures { result.now ≡ bytes_of_walk_word word }
{
    match word {
        WalkWord::RootIsFile => b"root-is-file",
        WalkWord::OutsideRoot => b"outside-root",
        WalkWord::SymlinkInRoot => b"symlink-in-root",
        WalkWord::MissingRoot => b"missing-root",
        WalkWord::AbsentDirectory => b"absent-directory",
        WalkWord::NotADirectory => b"not-a-directory",
        WalkWord::RulesFile => b"rules-file",
        WalkWord::Blob => b"blob",
        WalkWord::Lookup => b"lookup",
        WalkWord::TooDeep => b"too-deep",
    }
}

fn format_setup_refusal_line(alloc: Global, line: usize) -> Result<Bytes, OutOfMemory>
    ensures { IfOk result (λ text. text ≡ line_of_refusal [] (Refusal.Setup line)) }
{
    let text = format!(in alloc; "setup: line {line}\n")?;
    Ok(Bytes::from_slice(alloc, text.as_bytes())?)
}

fn format_misread_line(alloc: Global, misread: Misread) -> Result<Bytes, OutOfMemory>
    ensures { IfOk result (λ text. text ≡ line_of_refusal [] (Refusal.Misread misread)) }
{
    let text = match misread {
        Misread::Config { at, line } => format!(in alloc; "config {at}: line {line}\n")?,
        Misread::Modules { line } => format!(in alloc; "modules: line {line}\n")?,
        Misread::ActiveSpec { at } => format!(in alloc; "active: value {at}\n")?,
    };
    Ok(Bytes::from_slice(alloc, text.as_bytes())?)
}

fn format_walk_refusal_line(
    alloc: Global,
    word: WalkWord,
    path: &[u8],
) -> Result<Bytes, OutOfMemory>
    ensures { IfOk result (λ text. text ≡ line_of_refusal [] (Refusal.Walk word path.now)) }
{
    let mut text = Vec::new(alloc);
    text.extend_from_slice(b"walk: ")?;
    text.extend_from_slice(bytes_of_walk_word(word))?;
    text.push(b' ')?;
    append_path_escaped(&mut text, path)?;
    text.push(b'\n')?;
    Ok(Bytes::from_vec(text))
}

/// Writes a line, and lets a refusal be.
/// See docs/DECISIONS.md#line-wants-memory.
pub fn write_line_ignoring_refusal<E: Sink>(err: &mut E, line: &[u8])
    ensures said { WritesLineOrRefusedFront (E.written err.old) (E.written err.new)
        (E.refusals err.old) (E.refusals err.new) line.now }
    ensures later { E.refusals err.old ≤ E.refusals err.new }
{
    let _ = write_all_bytes(err, line);
}

/// The line of a refusal that needs no memory for it.
fn constant_line_of_refusal<'a>(usage: &'a [u8], refusal: &Refusal) -> &'a [u8]
    ensures { takes_memory_for_line refusal.now ≡ false → result.now ≡ line_of_refusal usage.now
        refusal.now }
{
    match refusal {
        Refusal::Interrupted => b"interrupted\n",
        Refusal::Usage => usage,
        Refusal::Fault => b"worktree fault\n",
        Refusal::Output => b"output fault\n",
        Refusal::OutOfMemory => b"out of memory\n",
        Refusal::Setup { line: _ } => b"",
        Refusal::Misread(_) => b"",
        Refusal::Walk { word: _, path: _ } => b"",
    }
}

/// The line of a refusal that needs memory for it; none where it needs none.
fn allocated_line_of_refusal(alloc: Global, refusal: &Refusal) -> Result<Option<Bytes>, OutOfMemory>
    ensures line { IfOk result (λ made. IsLineIfTakesMemory made refusal.now) }
    ensures memory { OnErr result (takes_memory_for_line refusal.now ≡ true) }
{
    match refusal {
        Refusal::Setup { line } => Ok(Some(format_setup_refusal_line(alloc, *line)?)),
        Refusal::Misread(misread) => Ok(Some(format_misread_line(alloc, *misread)?)),
        Refusal::Walk { word, path } => Ok(Some(format_walk_refusal_line(
            alloc,
            *word,
            path.as_bytes(),
        )?)),
        Refusal::Interrupted => Ok(None),
        Refusal::Usage => Ok(None),
        Refusal::Fault => Ok(None),
        Refusal::Output => Ok(None),
        Refusal::OutOfMemory => Ok(None),
    }
}

/// Says why there is no text, where the line needs no memory, and answers the status.
pub fn report_constant_refusal<E: Sink>(usage: &[u8], refusal: &Refusal, err: &mut E) -> u8
    requires { takes_memory_for_line refusal.now ≡ false }
    ensures told { ReportsRefusalLine E.Sink err.old err.new usage.now refusal.now result }
    ensures later { E.refusals err.old ≤ E.refusals err.new }
{
    write_line_ignoring_refusal(err, constant_line_of_refusal(usage, refusal));
    status_of(refusal)
}

/// Says why there is no text, and answers the status; where there is no memory for the line, that
/// want instead.
pub fn report_refusal<E: Sink>(alloc: Global, usage: &[u8], refusal: &Refusal, err: &mut E) -> u8
    ensures told { ReportsRefusalOrMemory E.Sink err.old err.new usage.now refusal.now result }
    ensures later { E.refusals err.old ≤ E.refusals err.new }
{
    match allocated_line_of_refusal(alloc, refusal) {
        Ok(Some(line)) => {
            write_line_ignoring_refusal(err, line.as_bytes());
            status_of(refusal)
        }
        Ok(None) => report_constant_refusal(usage, refusal, err),
        Err(OutOfMemory) => report_constant_refusal(usage, &Refusal::OutOfMemory, err),
    }
}
