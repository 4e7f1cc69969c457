//! The commands by their names.
ghost use Rattle.std.specs.Prelude.{◌≡◌};
ghost use Rattle.command_line.specs.Verbs as verbs;

/// A command by its name.
#[derive(Clone, Copy, Debug, PartialEq, Eq)]
pub enum Verb {
    /// The paths of a work tree with their classes.
    Report,
    /// What may be removed.
    Plan,
    /// What an update of the submodules would do.
    Modules,
    /// What became of the paths of the index, and the report.
    State,
    /// The paths of the index and of the work tree, as `git ls-files` has them.
    Files,
    /// What `git clean` would remove.
    Clean,
    /// How the paths of the index changed in the work tree, as `git diff-files` has it.
    Compare,
    /// The paths that an ignore rule excludes, as `git check-ignore` has it.
    Check,
}

/// What a help text or a usage line is about.
#[derive(Clone, Copy, Debug, PartialEq, Eq)]
pub enum Topic {
    /// The program as a whole.
    Whole,
    /// One of its commands.
    Of(Verb),
}

/// The command of this name. None where there is none.
pub(crate) fn verb_of_word(word: &[u8]) -> Option<Verb>
    ensures { result ≡ verbs.verb_of_word word.now }
{
    if word == b"report".as_slice() {
        Some(Verb::Report)
    } else if word == b"plan".as_slice() {
        Some(Verb::Plan)
    } else if word == b"modules".as_slice() {
        Some(Verb::Modules)
    } else if word == b"state".as_slice() {
        Some(Verb::State)
    } else if word == b"ls-files".as_slice() {
        Some(Verb::Files)
    } else if word == b"clean".as_slice() {
        Some(Verb::Clean)
    } else if word == b"diff-files".as_slice() {
        Some(Verb::Compare)
    } else if word == b"check-ignore".as_slice() {
        Some(Verb::Check)
    } else {
        None
    }
}

/// Whether a command takes paths.
pub(crate) fn takes_paths(verb: Verb) -> bool
    ensures { result ≡ verbs.takes_paths verb }
{
    match verb {
        Verb::Report | Verb::Plan | Verb::Files | Verb::Clean | Verb::Compare | Verb::Check => true,
        Verb::Modules | Verb::State => false,
    }
}

/// Whether the current directory is meant where no path is asked for, and where each path excludes.
pub(crate) fn prefers_current_directory(verb: Verb) -> bool
    ensures { result ≡ verbs.prefers_current_directory verb }
{
    matches!(verb, Verb::Files | Verb::Clean)
}

/// Whether paths stand behind `--` alone: a word before it may be a revision.
pub(crate) fn needs_double_dash_before_paths(verb: Verb) -> bool
    ensures { result ≡ verbs.needs_double_dash_before_paths verb }
{
    matches!(verb, Verb::Compare)
}
