//! The program: the words of its command line, answered over the real disk and the standard
//! streams.
#![tactic(auto)]

ghost use Rattle.std.specs.Prelude.{◌≡◌};
ghost use Rattle.report_cli.specs.Dispatch.{composes};

mod dispatch;
#[cfg(test)]
mod tests;

use dispatch::{composes, dispatch};
use gitbase_core::{Bytes, OutOfMemory};
use std::alloc::Global;
use std::env::{Env, FillError};
use std::process::ExitCode;
use std::str;
use worktree_fs::{DiskWorktree, PlannedInterrupt, StdSink};

/// The most bytes that Linux hands on in one word.
const WORD_LIMIT: usize = 131_072;

/// The most bytes that Linux has in a path.
const PATH_LIMIT: usize = 4096;

/// The words behind the program's name. Where the system does not give one of them there are none.
fn words<R: Env>(rt: &R, alloc: Global) -> Result<Vec<Bytes>, OutOfMemory> {
    let mut buffer = vec![in alloc; 0u8; WORD_LIMIT]?;
    let mut words = Vec::new(alloc);
    for i in 1..usize::MAX {
        match rt.arg(i, &mut buffer) {
            Ok(length) => words.push(Bytes::from_slice(alloc, &buffer[..length])?)?,
            Err(FillError::NotPresent) => break,
            Err(FillError::TooLong) => return Ok(Vec::new(alloc)),
        }
    }
    Ok(words)
}

/// The path of the current directory with a slash at its end; nothing where the system tells none
/// that is UTF-8.
fn current_directory_with_slash<R: Env>(rt: &R, alloc: Global) -> Result<String, OutOfMemory> {
    let mut buffer = vec![in alloc; 0u8; PATH_LIMIT]?;
    let Ok(length) = rt.current_dir(&mut buffer) else {
        return Ok(String::new(alloc));
    };
    let Ok(text) = str::from_utf8(&buffer[..length]) else {
        return Ok(String::new(alloc));
    };
    let mut path = String::from_str(alloc, text)?;
    path.push('/')?;
    Ok(path)
}

/// All files of the system, whose names are composed where the words ask for that.
fn disk_worktree_composing_by_words<'a>(
    rt: &'a HostRuntime,
    words: &[Bytes],
    current: &'a str,
) -> DiskWorktree<'a>
    ensures { result.composes ≡ composes words.now }
{
    DiskWorktree::new_with_current_dir(rt, composes(words), current)
}

fn main(rt: HostRuntime) -> ExitCode {
    let alloc = rt.alloc();
    let (Ok(words), Ok(current)) = (words(&rt, alloc), current_directory_with_slash(&rt, alloc))
    else {
        return ExitCode::from(8);
    };
    let mut worktree = disk_worktree_composing_by_words(&rt, &words, current.as_str());
    let mut interrupt = PlannedInterrupt::never();
    let mut out = StdSink::out(&rt);
    let mut err = StdSink::err(&rt);
    ExitCode::from(dispatch(
        alloc,
        &words,
        &mut worktree,
        &mut interrupt,
        &mut out,
        &mut err,
    ))
}
