//! What is read of the standard input.
ghost use Rattle.std.specs.Prelude.{◌≡◌};
ghost use Rattle.tizhagor.specs.Input as words;

use crate::environment::StartupRefusal;
use check_ignore::first_option_error;
use command_line::{CheckAsked, Command, parse_request_words};
use git_setup::Asked;
use gitbase_core::Bytes;
use std::alloc::Global;
use std::io::{self, ErrorKind, Read};

/// The most bytes that are read of the standard input, 1 GiB.
const LIMIT: u64 = 1_073_741_824;

/// Whether `check-ignore` reads its paths there: with `--stdin`, unless its words are refused.
fn check_ignore_reads_input(asked: &Asked, wants: &CheckAsked) -> bool
    ensures { result ≡ words.check_ignore_reads_input asked.now wants.now }
{
    wants.checking.stdin && first_option_error(&wants.checking, asked.paths.len()).is_none()
}

/// Whether a command asks for what the standard input holds.
fn reads(command: &Command) -> bool
    ensures { result ≡ words.reads command.now }
{
    match command {
        Command::Report { asked: _, form: _ } => false,
        Command::Plan {
            asked: _,
            what: _,
            finding: _,
            form: _,
        } => false,
        Command::Modules { asked: _ } => false,
        Command::State {
            asked: _,
            form: _,
            by_stat: _,
        } => false,
        Command::Files { asked: _, files: _ } => false,
        Command::Changed {
            asked: _,
            files: _,
            standings: _,
        } => false,
        Command::Clean { asked: _, clean: _ } => false,
        Command::Compare {
            asked: _,
            comparing: _,
        } => false,
        Command::Check { asked, checking } => check_ignore_reads_input(asked, checking),
        Command::Help(_) => false,
        Command::Version => false,
    }
}

/// Whether words ask for what the standard input holds. Wrong ones do not, nor do those for which
/// memory is wanting.
fn words_ask_for_standard_input(alloc: Global, words: &[Bytes]) -> bool {
    match parse_request_words(alloc, words) {
        Ok(request) => reads(&request.command),
        Err(_) => false,
    }
}

/// Why the input is not read.
fn input_error_of_io_error(error: &io::Error) -> StartupRefusal {
    if error.kind() == ErrorKind::OutOfMemory && error.raw_os_error().is_none() {
        return StartupRefusal::OutOfMemory;
    }
    StartupRefusal::Input
}

/// All bytes of a reader.
fn read_bytes_or_refuse_over_limit<R: Read + Drop>(
    alloc: Global,
    reader: R,
) -> Result<Bytes, StartupRefusal> {
    let mut bytes = Vec::new(alloc);
    if let Err(error) = reader.take(LIMIT + 1).read_to_end(&mut bytes) {
        return Err(input_error_of_io_error(&error));
    }
    if bytes.len() as u64 > LIMIT {
        return Err(StartupRefusal::LongInput);
    }
    Ok(Bytes::from_vec(bytes))
}

/// What the standard input holds, if the words ask for it: `check-ignore` with `--stdin` does,
/// unless its words are refused. For other words it is left alone, and no bytes are given.
///
/// # Errors
///
/// - `Input`: it cannot be read.
/// - `LongInput`: it has more than 1 GiB.
/// - `OutOfMemory` for want of memory.
///
/// See docs/DECISIONS.md#check-input-first.
pub fn read_input_if_words_ask(
    rt: &HostRuntime,
    alloc: Global,
    words: &[Bytes],
) -> Result<Bytes, StartupRefusal> {
    if !words_ask_for_standard_input(alloc, words) {
        return Ok(Bytes::new(alloc));
    }
    read_bytes_or_refuse_over_limit(alloc, rt.stdin())
}
