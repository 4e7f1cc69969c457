//! What the words of a command line ask for.
ghost use Rattle.std.specs.Prelude.{◌≡◌};
ghost use Rattle.command_line.specs.Requests as requests;

use crate::change_words::standings_of_deleted_modified_flags;
use crate::command::{CleanAsked, Command, FilesAsked, Request};
use crate::draft::Draft;
use crate::misuse::{Misuse, Wrong};
use crate::read::{Read, read_command_words};
use crate::rules_given::RulesGiven;
use crate::verb::{Topic, Verb, prefers_current_directory, verb_of_word};
use git_clean::Cleaning;
use git_setup::Asked;
use gitbase_core::Bytes;
use ls_files::DeletedModifiedChoice;
use std::alloc::Global;

/// How deep `ls-files` and `clean` go: as deep as can be asked for.
const DEEPEST: usize = 1000;

/// How many components a directory that is entered may have.
fn given_depth_or_deepest_by_verb(verb: Verb, depth: usize) -> usize
    ensures { result ≡ requests.given_depth_or_deepest_by_verb verb depth }
{
    match verb {
        Verb::Report | Verb::Plan | Verb::Modules | Verb::State => depth,
        Verb::Files | Verb::Clean | Verb::Compare | Verb::Check => DEEPEST,
    }
}

/// What is asked of `clean`, by its paths too.
fn clean_request_of_directories_if_paths(cleaning: Cleaning, paths: &[Bytes]) -> Cleaning
    ensures { result ≡ requests.clean_request_of_directories_if_paths cleaning paths.now }
{
    match paths {
        [] => cleaning,
        _ => {
            let mut cleaning = cleaning;
            cleaning.directories = true;
            cleaning
        }
    }
}

/// What is listed: what changed too, where that is asked for.
fn ls_files_or_changed_command(
    standings: Option<DeletedModifiedChoice>,
    asked: Asked,
    files: FilesAsked,
) -> Command
    ensures { requests.seen result ≡ requests.ls_files_or_changed_command standings
        (requests.work_tree_request_of_asked asked) files.listing files.rules }
{
    match standings {
        Some(standings) => Command::Changed {
            asked,
            files,
            standings,
        },
        None => Command::Files { asked, files },
    }
}

/// What the words of a command ask of a work tree.
fn work_tree_request_of_draft(verb: Verb, draft: &Draft, paths: Vec<Bytes>) -> Asked
    ensures { requests.work_tree_request_of_asked result
        ≡ requests.work_tree_request_of_draft verb draft.now paths.items }
{
    Asked {
        options: draft.options,
        paths,
        depth: given_depth_or_deepest_by_verb(verb, draft.depth),
        prefers_current: prefers_current_directory(verb),
    }
}

/// The command of a verb, where its words are right.
fn command_of_verb_and_draft(
    verb: Verb,
    draft: Draft,
    paths: Vec<Bytes>,
    rules: RulesGiven,
) -> Command
    ensures { requests.seen result
        ≡ requests.command_of_verb_and_draft verb draft paths.items rules }
{
    let form = draft.form;
    let listing = draft.listing;
    let cleaning = clean_request_of_directories_if_paths(draft.cleaning, &paths);
    let asked = work_tree_request_of_draft(verb, &draft, paths);
    match verb {
        Verb::Report => Command::Report { asked, form },
        Verb::Plan => Command::Plan {
            asked,
            what: draft.what,
            finding: draft.finding,
            form,
        },
        Verb::Modules => Command::Modules { asked },
        Verb::State => Command::State {
            asked,
            form,
            by_stat: draft.by_stat,
        },
        Verb::Files => ls_files_or_changed_command(
            standings_of_deleted_modified_flags(draft.changes),
            asked,
            FilesAsked { listing, rules },
        ),
        Verb::Clean => Command::Clean {
            asked,
            clean: CleanAsked {
                cleaning,
                force: draft.force,
                patterns: rules.into_patterns(),
            },
        },
        Verb::Compare => Command::Compare {
            asked,
            comparing: draft.comparing,
        },
        Verb::Check => Command::Check {
            asked,
            checking: draft.checking,
        },
    }
}

/// What a command is to do, by what its words say.
fn command_from_draft(verb: Verb, draft: Draft, paths: Vec<Bytes>, rules: RulesGiven) -> Command
    ensures { requests.seen result ≡ requests.command_from_draft verb draft paths.items rules }
{
    if draft.is_help {
        Command::Help(Topic::Of(verb))
    } else {
        command_of_verb_and_draft(verb, draft, paths, rules)
    }
}

/// What the words behind a command ask for.
fn parse_words_of_verb(alloc: Global, verb: Verb, words: &[Bytes]) -> Result<Command, Misuse>
    ensures { requests.IsCommandOrMisuseOfAnswer result (requests.parse_words_of_verb verb
        words.now) }
{
    match read_command_words(alloc, verb, words)? {
        Read::Said(draft, paths, rules) => Ok(command_from_draft(verb, draft, paths, rules)),
        Read::Wrong(wrong, word) => Err(Misuse::Word {
            topic: Topic::Of(verb),
            wrong,
            word,
        }),
    }
}

/// That a word before any command is wrong.
fn misuse_before_command(alloc: Global, wrong: Wrong, word: &[u8]) -> Result<Command, Misuse>
    ensures { requests.IsCommandOrMisuseOfAnswer result (requests.misuse_before_command wrong
        word.now) }
{
    let word = Bytes::from_slice(alloc, word)?;
    Err(Misuse::Word {
        topic: Topic::Whole,
        wrong,
        word,
    })
}

/// Whether a word asks for help.
fn is_help_word(word: &[u8]) -> bool
    ensures { result ≡ requests.is_help_word word.now }
{
    word == b"-h".as_slice() || word == b"--help".as_slice()
}

/// What is wrong with a first word that is no command.
fn error_of_unknown_first_word(word: &[u8]) -> Wrong
    ensures { result ≡ requests.error_of_unknown_first_word word.now }
{
    if word == b"-C".as_slice() {
        Wrong::SecondDirectory
    } else if word.starts_with(b"-") {
        Wrong::UnknownOption
    } else {
        Wrong::UnknownCommand
    }
}

/// What the words that begin with this one ask for.
fn parse_command_from_first_word(
    alloc: Global,
    word: &[u8],
    words: &[Bytes],
) -> Result<Command, Misuse>
    ensures { requests.IsCommandOrMisuseOfAnswer result (requests.parse_command_from_first_word
        word.now words.now) }
{
    if is_help_word(word) {
        return Ok(Command::Help(Topic::Whole));
    }
    if word == b"--version".as_slice() {
        return Ok(Command::Version);
    }
    match verb_of_word(word) {
        Some(verb) => parse_words_of_verb(alloc, verb, words),
        None => misuse_before_command(alloc, error_of_unknown_first_word(word), word),
    }
}

/// What the words from the command on ask for.
fn parse_command_words(alloc: Global, words: &[Bytes]) -> Result<Command, Misuse>
    ensures { requests.IsCommandOrMisuseOfAnswer result (requests.parse_command_words words.now) }
{
    match words {
        [] => misuse_before_command(alloc, Wrong::NoCommand, b""),
        [word, rest @ ..] => parse_command_from_first_word(alloc, word.as_bytes(), rest),
    }
}

/// The directory that is said, where it is not empty.
fn directory_unless_empty(alloc: Global, word: &[u8]) -> Result<Option<Bytes>, Misuse>
    ensures { requests.IsDirectoryUnlessOutOfMemory result (requests.directory_unless_empty
        word.now) }
{
    if word.is_empty() {
        return Ok(None);
    }
    Ok(Some(Bytes::from_slice(alloc, word)?))
}

/// What words ask for in the directory that `-C` says.
fn parse_directory_and_command(alloc: Global, words: &[Bytes]) -> Result<Request, Misuse>
    ensures { requests.IsRequestOrMisuseOfWords result (requests.parse_directory_and_command
        words.now) }
{
    match words {
        [] => {
            let command = misuse_before_command(alloc, Wrong::NoValue, b"-C")?;
            Ok(Request {
                directory: None,
                command,
            })
        }
        [word, rest @ ..] => {
            let directory = directory_unless_empty(alloc, word.as_bytes())?;
            let command = parse_command_words(alloc, rest)?;
            Ok(Request { directory, command })
        }
    }
}

/// What the words of a command line ask for: `[-C DIR] report|plan|modules|state|ls-files|clean
/// [OPTION..] [--] [PATH..]`, or a help text, or the version.
///
/// # Errors
///
/// - `Word` names the first word that is wrong, and says how.
/// - `OutOfMemory` for want of memory.
pub fn parse_request_words(alloc: Global, words: &[Bytes]) -> Result<Request, Misuse>
    ensures { requests.IsRequestOrMisuseOfWords result (requests.parse_request_words words.now) }
{
    match words {
        [word, rest @ ..] if word.as_bytes() == b"-C".as_slice() => parse_directory_and_command(
            alloc, rest,
        ),
        _ => {
            let command = parse_command_words(alloc, words)?;
            Ok(Request {
                directory: None,
                command,
            })
        }
    }
}
