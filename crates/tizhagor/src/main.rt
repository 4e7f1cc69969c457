//! The program: the words of its command line, answered in a git work tree over the real disk and
//! the standard streams.
#![tactic(auto)]

mod answer;
mod both;
mod by_stat;
mod call;
mod changed;
mod check;
mod clean;
mod compare;
mod directory;
mod environment;
mod exclude_files;
mod excluded_here;
mod fault;
mod files;
mod finish;
mod found;
mod input;
mod lines;
mod patterns;
mod progress;
mod quiet_report;
mod refusal;
mod reply;
mod require_force;
mod state_lines;
#[cfg(test)]
mod tests;
mod texts;
mod written;

use answer::{Called, answer_words_to_streams};
use diff_files::DiskStats;
use environment::{Handed, StartupRefusal, given};
use input::read_input_if_words_ask;
use progress::Progress;
use std::alloc::Global;
use std::io::IsTerminal;
use std::process::ExitCode;
use worktree_fs::{DiskOwners, DiskWorktree, StdSink};
use worktree_report::write_line_ignoring_refusal;

/// The line of a program that cannot begin.
fn line_of_startup_refusal(refused: StartupRefusal) -> &'static [u8] {
    match refused {
        StartupRefusal::TooLong => b"fatal: a word or a variable is too long\n",
        StartupRefusal::Directory => b"fatal: Unable to read current working directory\n",
        StartupRefusal::Input => b"fatal: the standard input could not be read\n",
        StartupRefusal::LongInput => b"fatal: the standard input has more than 1 GiB\n",
        StartupRefusal::OutOfMemory => lines::MEMORY,
    }
}

/// Answers the words over the real disk.
fn run_over_real_disk(
    rt: &HostRuntime,
    alloc: Global,
    given: &Handed,
) -> Result<u8, StartupRefusal> {
    let input = read_input_if_words_ask(rt, alloc, &given.words)?;
    let mut worktree = DiskWorktree::new_with_current_dir(rt, false, given.beside.as_str());
    let mut owners = DiskOwners::new(rt);
    let mut stats = DiskStats::new(rt);
    let mut progress = Progress::new(rt, alloc, &given.variables)?;
    let mut out = progress.out()?;
    let mut err = progress.err()?;
    let called = Called {
        words: &given.words,
        current: given.current.as_bytes(),
        variables: &given.variables,
        takes_colors: rt.stdout().is_terminal(),
        input: input.as_bytes(),
    };
    let status = answer_words_to_streams(
        alloc,
        &called,
        &mut worktree,
        &mut owners,
        &mut stats,
        &mut progress,
        &mut out,
        &mut err,
    );
    progress.wipe_line_if_shown();
    Ok(status)
}

/// The status of the program, over what the system hands to it.
fn status(rt: &HostRuntime, alloc: Global) -> Result<u8, StartupRefusal> {
    let given = given(rt, alloc)?;
    run_over_real_disk(rt, alloc, &given)
}

fn main(rt: HostRuntime) -> ExitCode {
    let alloc = rt.alloc();
    match status(&rt, alloc) {
        Ok(status) => ExitCode::from(status),
        Err(refused) => {
            write_line_ignoring_refusal(&mut StdSink::err(&rt), line_of_startup_refusal(refused));
            ExitCode::from(128)
        }
    }
}
