//! Prints what the index file on standard input says, for `scripts/compare-index`.
//!
//! First the number of entries, and ` sparse` where the index is; then for each entry what
//! `git ls-files -s -v -z` prints, and its stat fields on a line, with `N` behind them where it is
//! to be added and `S` where it is skipped. Or why the bytes are no index, with status 1. With a
//! word of at most eight bytes after its name it reads the file alone, and prints the number.
#![tactic(auto)]

use git_index::{Detail, IndexFile, IndexFileError, read_index};
use gitbase_core::{Flags, IndexEntry, IndexError, State};
use std::alloc::Global;
use std::env::Env;
use std::io;
use std::io::{Read, Write};
use std::process::ExitCode;

/// Whether the entry is left out of a sparse worktree.
fn has_skip_worktree_flag(entry: &IndexEntry) -> bool {
    entry.flags.contains(Flags::SKIP_WORKTREE)
}

/// The letter that `git ls-files -v` puts before an entry.
fn ls_files_status_letter(entry: &IndexEntry) -> char {
    let is_assumed = entry.flags.contains(Flags::ASSUME_VALID);
    if entry.stage > 0 {
        return if is_assumed { 'm' } else { 'M' };
    }
    if has_skip_worktree_flag(entry) {
        return if is_assumed { 's' } else { 'S' };
    }
    if is_assumed { 'h' } else { 'H' }
}

/// Adds the record of an entry.
fn append_entry_record(text: &mut Vec<u8>, alloc: Global, entry: &IndexEntry) -> io::Result<()> {
    let letter = ls_files_status_letter(entry);
    let mode = entry.mode.bits();
    let stage = entry.stage;
    let head = format!(in alloc; "{letter} {mode:06o} ")?;
    text.extend_from_slice(head.as_bytes())?;
    text.extend_from_slice(&entry.id.to_hex())?;
    let tail = format!(in alloc; " {stage}\t")?;
    text.extend_from_slice(tail.as_bytes())?;
    text.extend_from_slice(entry.path.as_bytes())?;
    text.push(0)?;
    Ok(())
}

/// Adds what the file says of an entry besides.
fn append_stat_and_flags(
    text: &mut Vec<u8>,
    alloc: Global,
    detail: &Detail,
    is_skipped: bool,
) -> io::Result<()> {
    let stat = detail.stat;
    let (c, m) = (stat.ctime, stat.mtime);
    let times = format!(in alloc;
        "{}:{} {}:{}",
        c.seconds, c.nanoseconds, m.seconds, m.nanoseconds
    )?;
    text.extend_from_slice(times.as_bytes())?;
    let place = format!(in alloc; " {} {} {} {}", stat.dev, stat.ino, stat.uid, stat.gid)?;
    text.extend_from_slice(place.as_bytes())?;
    let intent = if detail.intent_to_add { " N" } else { "" };
    let skipped = if is_skipped { " S" } else { "" };
    let rest = format!(in alloc; " {}{intent}{skipped}\n", stat.size)?;
    text.extend_from_slice(rest.as_bytes())?;
    Ok(())
}

/// All records.
fn records_of_all_entries(alloc: Global, state: &State, details: &[Detail]) -> io::Result<Vec<u8>> {
    let mut text = Vec::new(alloc);
    for (entry, detail) in state.entries().iter().zip(details) {
        append_entry_record(&mut text, alloc, entry)?;
        append_stat_and_flags(&mut text, alloc, detail, has_skip_worktree_flag(entry))?;
    }
    Ok(text)
}

/// Says why some bytes are no index file.
fn print_index_parse_error(rt: &HostRuntime, error: IndexFileError) -> io::Result<ExitCode> {
    println!(rt; "refused: {error:?}")?;
    Ok(ExitCode::from(1))
}

/// Says why the entries of a file are no index.
fn print_entries_refusal(rt: &HostRuntime, error: IndexError) -> io::Result<ExitCode> {
    println!(rt; "no index: {error:?}")?;
    Ok(ExitCode::from(1))
}

/// Prints how many entries there are.
fn print_entry_count(rt: &HostRuntime, length: usize, is_sparse: bool) -> io::Result<ExitCode> {
    let sparse = if is_sparse { " sparse" } else { "" };
    println!(rt; "{length} entries{sparse}")?;
    Ok(ExitCode::from(0))
}

/// Prints how many entries there are, and a record for each.
fn print_count_and_records(rt: &HostRuntime, file: IndexFile) -> io::Result<ExitCode> {
    let is_sparse = file.is_sparse();
    let (entries, details) = file.into_parts();
    match State::from_entries(entries) {
        Ok(state) => {
            let text = records_of_all_entries(rt.alloc(), &state, &details)?;
            let status = print_entry_count(rt, details.len(), is_sparse)?;
            io::writer(rt).write_all(&text)?;
            Ok(status)
        }
        Err(error) => print_entries_refusal(rt, error),
    }
}

/// Whether there is a word of at most eight bytes after the program's name.
fn has_first_argument_of_at_most_eight_bytes(rt: &HostRuntime) -> bool {
    let mut buffer = [0u8; 8];
    rt.arg(1, &mut buffer).is_ok()
}

fn main(rt: HostRuntime) -> io::Result<ExitCode> {
    let mut bytes = Vec::new(rt.alloc());
    rt.reader().read_to_end(&mut bytes)?;
    match read_index(rt.alloc(), &bytes) {
        Ok(file) if has_first_argument_of_at_most_eight_bytes(&rt) => print_entry_count(
            &rt,
            file.entries().len(),
            file.is_sparse(),
        ),
        Ok(file) => print_count_and_records(&rt, file),
        Err(error) => print_index_parse_error(&rt, error),
    }
}
