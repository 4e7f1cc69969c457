//! The options of `ls-files` by their names.
ghost use Rattle.std.specs.Prelude.{◌≡◌};
ghost use Rattle.command_line.specs.Choices as choices;

use crate::opt::Opt;

/// What an option of `ls-files` turns on or off; see git-ls-files(1).
#[derive(Clone, Copy, Debug)]
pub enum Choice {
    /// What the index has.
    Cached,
    /// The same with modes, objects and stages.
    Stages,
    /// The same of paths that are not merged, alone.
    Unmerged,
    /// What the index does not have.
    Others,
    /// What lies in the way of the index.
    Killed,
    /// Paths of the index of which nothing is there.
    Deleted,
    /// Those of which nothing is there, or something else.
    Modified,
    /// Of what the index does not have what is ignored, alone.
    Ignored,
    /// Directories in place of what they hold.
    Directories,
    /// Such directories without files too.
    EmptyDirectories,
    /// Ignore rules are asked.
    ExcludesStandard,
    /// Those of each directory are.
    ExcludesDirectories,
    /// A path spec that is about nothing is an error.
    ErrorUnmatch,
    /// A letter before each path.
    Tags,
    /// The same, in lower case where a file is assumed to be unchanged.
    Valid,
    /// A NUL behind each path.
    Nul,
    /// Each path of the index once.
    Deduplicates,
    /// Paths from the top of the work tree.
    FullNames,
}

/// The choice of this name that can be turned off.
fn negatable_ls_files_choice_of_name(name: &[u8]) -> Option<Choice>
    ensures { result ≡ choices.negatable_ls_files_choice_of_name name.now }
{
    if name == b"cached".as_slice() {
        Some(Choice::Cached)
    } else if name == b"stage".as_slice() {
        Some(Choice::Stages)
    } else if name == b"unmerged".as_slice() {
        Some(Choice::Unmerged)
    } else if name == b"others".as_slice() {
        Some(Choice::Others)
    } else if name == b"killed".as_slice() {
        Some(Choice::Killed)
    } else if name == b"deleted".as_slice() {
        Some(Choice::Deleted)
    } else if name == b"modified".as_slice() {
        Some(Choice::Modified)
    } else if name == b"ignored".as_slice() {
        Some(Choice::Ignored)
    } else if name == b"directory".as_slice() {
        Some(Choice::Directories)
    } else if name == b"empty-directory".as_slice() {
        Some(Choice::EmptyDirectories)
    } else if name == b"error-unmatch".as_slice() {
        Some(Choice::ErrorUnmatch)
    } else if name == b"deduplicate".as_slice() {
        Some(Choice::Deduplicates)
    } else {
        None
    }
}

/// The choice of this name that cannot be.
fn unnegatable_ls_files_choice_of_name(name: &[u8]) -> Option<Choice>
    ensures { result ≡ choices.unnegatable_ls_files_choice_of_name name.now }
{
    if name == b"full-name".as_slice() {
        Some(Choice::FullNames)
    } else {
        None
    }
}

/// Whether git has an option of this name, of what a path is or which rules are asked, that is not
/// answered here.
fn is_resolve_undo_option(name: &[u8]) -> bool
    ensures { result ≡ choices.is_resolve_undo_option name.now }
{
    name == b"resolve-undo".as_slice()
}

/// The same of submodules, objects and forms.
fn is_unsupported_ls_files_form_option(name: &[u8]) -> bool
    ensures { result ≡ choices.is_unsupported_ls_files_form_option name.now }
{
    name == b"recurse-submodules".as_slice()
        || name == b"eol".as_slice()
        || name == b"with-tree".as_slice()
        || name == b"format".as_slice()
        || name == b"abbrev".as_slice()
        || name == b"debug".as_slice()
        || name == b"sparse".as_slice()
}

/// Whether git has an option of this name that is not answered here.
fn is_unsupported_ls_files_option(name: &[u8]) -> bool
    ensures { result ≡ choices.is_unsupported_ls_files_option name.now }
{
    if is_resolve_undo_option(name) {
        return true;
    }
    is_unsupported_ls_files_form_option(name)
}

/// A choice that is made, if there is one.
fn choosing_option_of_optional_choice(choice: Option<Choice>) -> Option<Opt>
    ensures { result ≡ choices.choosing_option_of_optional_choice choice }
{
    match choice {
        Some(choice) => Some(Opt::Chooses(choice)),
        None => None,
    }
}

/// The option of this name that makes a choice, or drops it where `no-` stands before the name.
fn ls_files_option_with_optional_no_prefix(name: &[u8]) -> Option<Opt>
    ensures { result ≡ choices.ls_files_option_with_optional_no_prefix name.now }
{
    if name.starts_with(b"no-") {
        let (_, rest) = name.split_at(3);
        return match negatable_ls_files_choice_of_name(rest) {
            Some(choice) => Some(Opt::Drops(choice)),
            None => None,
        };
    }
    choosing_option_of_optional_choice(negatable_ls_files_choice_of_name(name))
}

/// The option of this name that is a choice, whether it can be turned off or not.
fn ls_files_choice_option_of_name(name: &[u8]) -> Option<Opt>
    ensures { result ≡ choices.ls_files_choice_option_of_name name.now }
{
    match choosing_option_of_optional_choice(unnegatable_ls_files_choice_of_name(name)) {
        Some(opt) => Some(opt),
        None => ls_files_option_with_optional_no_prefix(name),
    }
}

/// The option of rules of this name.
fn exclude_option_of_name(name: &[u8]) -> Option<Opt>
    ensures { result ≡ choices.exclude_option_of_name name.now }
{
    if name == b"exclude".as_slice() {
        Some(Opt::Pattern)
    } else if name == b"exclude-from".as_slice() {
        Some(Opt::ExcludeFrom)
    } else if name == b"exclude-standard".as_slice() {
        Some(Opt::Standard)
    } else if name == b"exclude-per-directory".as_slice() {
        Some(Opt::RulesFile)
    } else {
        None
    }
}

/// The option of `ls-files` of this name, which stands behind `--`. None where there is none.
#[tactic(auto, unfolding(crate::specs::Choices::ls_files_option_of_name))]
pub fn ls_files_option_of_name(name: &[u8]) -> Option<Opt>
    ensures { result ≡ choices.ls_files_option_of_name name.now }
{
    if name == b"help".as_slice() {
        return Some(Opt::Help);
    }
    if is_unsupported_ls_files_option(name) {
        return Some(Opt::Left);
    }
    match exclude_option_of_name(name) {
        Some(opt) => Some(opt),
        None => ls_files_choice_option_of_name(name),
    }
}

/// The choice of this letter.
fn ls_files_choice_of_letter(letter: u8) -> Option<Choice>
    ensures { result ≡ choices.ls_files_choice_of_letter letter }
{
    if letter == b'c' {
        Some(Choice::Cached)
    } else if letter == b's' {
        Some(Choice::Stages)
    } else if letter == b'u' {
        Some(Choice::Unmerged)
    } else if letter == b'o' {
        Some(Choice::Others)
    } else if letter == b'k' {
        Some(Choice::Killed)
    } else if letter == b'd' {
        Some(Choice::Deleted)
    } else if letter == b'm' {
        Some(Choice::Modified)
    } else if letter == b'i' {
        Some(Choice::Ignored)
    } else if letter == b't' {
        Some(Choice::Tags)
    } else if letter == b'v' {
        Some(Choice::Valid)
    } else if letter == b'z' {
        Some(Choice::Nul)
    } else {
        None
    }
}

/// Whether git has an option of this letter that is not answered here.
fn is_unsupported_ls_files_letter(letter: u8) -> bool
    ensures { result ≡ choices.is_unsupported_ls_files_letter letter }
{
    letter == b'f'
}

/// The option of `ls-files` of this letter, which stands behind `-`. None where there is none.
pub fn ls_files_option_of_letter(letter: u8) -> Option<Opt>
    ensures { result ≡ choices.ls_files_option_of_letter letter }
{
    if letter == b'h' {
        return Some(Opt::Help);
    }
    if letter == b'x' {
        return Some(Opt::Pattern);
    }
    if letter == b'X' {
        return Some(Opt::ExcludeFrom);
    }
    if is_unsupported_ls_files_letter(letter) {
        return Some(Opt::Left);
    }
    choosing_option_of_optional_choice(ls_files_choice_of_letter(letter))
}
