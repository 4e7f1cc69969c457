//! What the system hands to the program: words, variables of the environment, and the current
//! directory.
ghost use Rattle.std.specs.Prelude.{◌≡◌, ◌==◌, ◌<◌, ◌++◌, length, position, IfOk, IfSome, OnOk};
ghost use Rattle.tizhagor.specs.Environment as words;

use command_line::{Command, parse_request_words};
use git_places::Variable;
use gitbase_core::{Bytes, OutOfMemory};
use std::alloc::Global;
use std::env::{Env, FillError};
use std::str;

/// The most bytes that Linux hands on in one word or variable.
const LIMIT: usize = 131_072;

/// The most bytes of a path that Linux hands on.
const PATH_LIMIT: usize = 4_096;

/// What the system hands to the program.
#[derive(Drop)]
pub struct Handed {
    /// The words behind the program's name.
    pub words: Vec<Bytes>,
    /// The variables of the environment.
    pub variables: Vec<Variable>,
    /// The current directory: an absolute path without links. The root, where there is none and the
    /// words need none.
    pub current: Bytes,
    /// The same with a slash at its end; nothing where there is none, or it is not UTF-8.
    pub beside: String,
}

/// Why the program cannot begin.
#[derive(Clone, Copy, Debug, PartialEq, Eq)]
pub enum StartupRefusal {
    /// A word or a variable is longer than the system hands on.
    TooLong,
    /// There is no current directory, and the words need one.
    Directory,
    /// The standard input cannot be read.
    Input,
    /// The standard input has more bytes than are read of it.
    LongInput,
    /// Want of memory.
    OutOfMemory,
}

impl From<OutOfMemory> for StartupRefusal {
    ghost use Rattle.std.specs.Prelude.{◌≡◌};
    ghost use Rattle.tizhagor.specs.declared.environment.StartupRefusal.TheVariants as errors;

    ghost from_gives = { λ _ e. e ≡ errors.OutOfMemory };

    fn from(_refused: OutOfMemory) -> StartupRefusal {
        StartupRefusal::OutOfMemory
    }
}

/// The words behind the program's name.
fn read_command_words<R: Env>(
    rt: &R,
    alloc: Global,
    buffer: &mut [u8],
) -> Result<Vec<Bytes>, StartupRefusal> {
    let mut words = Vec::new(alloc);
    for i in 1..usize::MAX {
        match rt.arg(i, buffer) {
            Ok(length) => add(alloc, &mut words, &buffer[..length])?,
            Err(FillError::NotPresent) => break,
            Err(FillError::TooLong) => return Err(StartupRefusal::TooLong),
        }
    }
    Ok(words)
}

fn add(alloc: Global, words: &mut Vec<Bytes>, word: &[u8]) -> Result<(), OutOfMemory> {
    words.push(Bytes::from_slice(alloc, word)?)?;
    Ok(())
}

/// The place of the first `=`.
fn index_of_first_equals(entry: &[u8]) -> Option<usize>
    ensures place { result ≡ position (λ b. b == 61) entry.now }
    ensures within { IfSome result (λ place. place < length entry.now) }
{
    entry.iter().position(|byte| *byte == b'=')
}

/// Adds the variable of an entry `NAME=value`; any other entry is none.
fn push_variable_of_entry(
    alloc: Global,
    variables: &mut Vec<Variable>,
    entry: &[u8],
) -> Result<(), OutOfMemory>
    ensures { OnOk result (variables.new.items ≡ variables.old.items ++ words.variable_of_entry
        entry.now) }
{
    if let Some(place) = index_of_first_equals(entry) {
        let (name, _) = entry.split_at(place);
        let (_, value) = entry.split_at(place + 1);
        let name = Bytes::from_slice(alloc, name)?;
        let value = Bytes::from_slice(alloc, value)?;
        variables.push(Variable { name, value })?;
    }
    Ok(())
}

/// The variables of entries of an environment, in their order.
fn variables_of_entries(alloc: Global, entries: &[Bytes]) -> Result<Vec<Variable>, OutOfMemory>
    ensures { IfOk result (λ variables. variables.items ≡ words.variables_of_entries entries.now) }
{
    let mut variables = Vec::new(alloc);
    for entry in entries {
        push_variable_of_entry(alloc, &mut variables, entry.as_bytes())?;
    }
    Ok(variables)
}

/// The entries of the environment.
fn entries<R: Env>(rt: &R, alloc: Global, buffer: &mut [u8]) -> Result<Vec<Bytes>, StartupRefusal> {
    let mut entries = Vec::new(alloc);
    for i in 0..usize::MAX {
        match rt.var_at(i, buffer) {
            Ok(length) => add(alloc, &mut entries, &buffer[..length])?,
            Err(FillError::NotPresent) => break,
            Err(FillError::TooLong) => return Err(StartupRefusal::TooLong),
        }
    }
    Ok(entries)
}

/// The current directory.
fn read_current_directory<R: Env>(rt: &R, alloc: Global) -> Result<Bytes, StartupRefusal> {
    let mut buffer = [0u8; PATH_LIMIT];
    match rt.current_dir(&mut buffer) {
        Ok(length) => Ok(Bytes::from_slice(alloc, &buffer[..length])?),
        Err(_) => Err(StartupRefusal::Directory),
    }
}

/// A path with a slash at its end; nothing where it is not UTF-8.
fn utf8_path_with_slash_or_empty(alloc: Global, path: &[u8]) -> Result<String, OutOfMemory> {
    let Ok(text) = str::from_utf8(path) else {
        return Ok(String::new(alloc));
    };
    let mut path = String::from_str(alloc, text)?;
    path.push('/')?;
    Ok(path)
}

/// Whether a command is answered without a work tree.
fn needs_no_work_tree(command: &Command) -> bool {
    matches!(command, Command::Help(_) | Command::Version)
}

/// Whether a directory is said by its whole path.
fn is_absolute_directory_given(directory: &Option<Bytes>) -> bool {
    match directory {
        Some(path) => path.as_bytes().starts_with(b"/"),
        None => false,
    }
}

/// Whether words are answered without the current directory: they ask for a help text or the
/// version, or for another directory by its whole path, or are wrong.
fn need_no_current_directory(alloc: Global, words: &[Bytes]) -> bool {
    match parse_request_words(alloc, words) {
        Ok(request) => needs_no_work_tree(&request.command)
            | is_absolute_directory_given(&request.directory),
        Err(_) => true,
    }
}

/// The current directory, and the same with a slash at its end. Where there is none and the words
/// need none, the root stands in its place, and nothing is beside it.
fn directory<R: Env>(
    rt: &R,
    alloc: Global,
    words: &[Bytes],
) -> Result<(Bytes, String), StartupRefusal> {
    match read_current_directory(rt, alloc) {
        Ok(current) => {
            let beside = utf8_path_with_slash_or_empty(alloc, current.as_bytes())?;
            Ok((current, beside))
        }
        Err(StartupRefusal::Directory) if need_no_current_directory(alloc, words) => {
            Ok((Bytes::from_slice(alloc, b"/")?, String::new(alloc)))
        }
        Err(refused) => Err(refused),
    }
}

/// All that the system hands to the program.
///
/// # Errors
///
/// - `TooLong`: a word or a variable is longer than the system hands on.
/// - `Directory`: there is no current directory, or its path is longer, and the words need one.
/// - `OutOfMemory` for want of memory.
pub fn given<R: Env>(rt: &R, alloc: Global) -> Result<Handed, StartupRefusal> {
    let mut buffer = room(alloc)?;
    let words = read_command_words(rt, alloc, &mut buffer)?;
    let entries = entries(rt, alloc, &mut buffer)?;
    let variables = variables_of_entries(alloc, &entries)?;
    let (current, beside) = directory(rt, alloc, &words)?;
    Ok(Handed {
        words,
        variables,
        current,
        beside,
    })
}

/// Room for a word.
fn room(alloc: Global) -> Result<Vec<u8>, OutOfMemory> {
    Ok(vec![in alloc; 0u8; LIMIT]?)
}
