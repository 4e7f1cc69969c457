//! The options by their names.
ghost use Rattle.std.specs.Prelude.{◌≡◌};
ghost use Rattle.command_line.specs.Options as options;

use crate::check_options::CheckChoice;
use crate::choice::Choice;
use crate::clean_options::CleanChoice;
use crate::compare_options::CompareChoice;
use crate::verb::Verb;
use dir_classify::{CollapsedEntriesEmissionMode, EmissionMode, ForDeletionMode};

/// What an option turns on or off.
#[derive(Clone, Copy, Debug)]
pub enum Switch {
    /// Tracked paths are reported.
    Tracked,
    /// Pruned paths are.
    Pruned,
    /// Directories without names are.
    EmptyDirectories,
    /// Each line says which rule decided.
    Origins,
    /// Each line says of which submodule its path is.
    Submodules,
    /// A last line says how much was walked.
    Outcome,
    /// Ignore rules are asked.
    Excludes,
    /// A rule that begins with `$` keeps what it matches.
    Precious,
    /// What lies in an excluded directory stays excluded.
    StrictParents,
    /// Nested repositories are walked like other directories.
    RecurseRepositories,
    /// An untracked directory that is a bare repository is told as one.
    BareRepositories,
    /// Rules see a link as what it leads to.
    LinksAsDirectories,
}

/// An option by its name.
#[derive(Clone, Copy, Debug)]
pub enum Opt {
    /// Turns something on.
    With(Switch),
    /// Turns something off.
    Without(Switch),
    /// How untracked paths are reported.
    Untracked,
    /// Whether ignored paths are reported, and how.
    Ignored,
    /// Which paths are reported besides the directory that was folded over them.
    Collapsed,
    /// Whether the paths are to be deleted.
    Deletion,
    /// Which configurations are read.
    Permissions,
    /// How subtrees are walked.
    Strategy,
    /// How many components a directory that is entered may have.
    Depth,
    /// Ignored paths may be removed too.
    IgnoredToo,
    /// Ignored paths alone may be removed.
    IgnoredAlone,
    /// Bare repositories are directories like any other.
    NonBare,
    /// The stat fields of files tell what changed.
    ByStat,
    /// Lines end in NULs.
    Nul,
    /// Letters stand in place of words.
    Plain,
    /// Where lines are coloured.
    Color,
    /// Lines are not coloured.
    NoColor,
    /// The help text.
    Help,
    /// Makes a choice of `ls-files`.
    Chooses(Choice),
    /// Drops one.
    Drops(Choice),
    /// Makes a choice of `clean`, or drops it.
    Cleans(CleanChoice, bool),
    /// `-f` of `clean` once more, or not at all.
    Forces(bool),
    /// A rule of `clean` or `ls-files` before all others.
    Pattern,
    /// The name of the rules files of directories.
    RulesFile,
    /// A file of rules of `ls-files`.
    ExcludeFrom,
    /// The rules of the repository, of the user and of each directory.
    Standard,
    /// Makes a choice of `diff-files`, or drops it.
    Compares(CompareChoice, bool),
    /// Makes a choice of `check-ignore`, or drops it.
    Checks(CheckChoice, bool),
    /// Which submodules `diff-files` tells of.
    Submodules,
    /// It is git's, and is not answered here.
    Left,
}

/// What an option of this name says of what is reported.
fn output_switch_of_name(name: &[u8]) -> Option<Switch>
    ensures { result ≡ options.output_switch_of_name name.now }
{
    if name == b"tracked".as_slice() {
        Some(Switch::Tracked)
    } else if name == b"pruned".as_slice() {
        Some(Switch::Pruned)
    } else if name == b"empty-directories".as_slice() {
        Some(Switch::EmptyDirectories)
    } else if name == b"origins".as_slice() {
        Some(Switch::Origins)
    } else if name == b"submodules".as_slice() {
        Some(Switch::Submodules)
    } else if name == b"outcome".as_slice() {
        Some(Switch::Outcome)
    } else {
        None
    }
}

/// What an option of this name says of how paths are looked at.
fn walk_switch_of_name(name: &[u8]) -> Option<Switch>
    ensures { result ≡ options.walk_switch_of_name name.now }
{
    if name == b"excludes".as_slice() {
        Some(Switch::Excludes)
    } else if name == b"precious".as_slice() {
        Some(Switch::Precious)
    } else if name == b"strict-parents".as_slice() {
        Some(Switch::StrictParents)
    } else if name == b"recurse-repositories".as_slice() {
        Some(Switch::RecurseRepositories)
    } else if name == b"bare-repositories".as_slice() {
        Some(Switch::BareRepositories)
    } else if name == b"links-as-directories".as_slice() {
        Some(Switch::LinksAsDirectories)
    } else {
        None
    }
}

/// What an option of this name turns on.
#[tactic(auto, unfolding(crate::specs::Options::switch_of_name))]
fn switch_of_name(name: &[u8]) -> Option<Switch>
    ensures { result ≡ options.switch_of_name name.now }
{
    match output_switch_of_name(name) {
        Some(switch) => Some(switch),
        None => walk_switch_of_name(name),
    }
}

/// The option of this name that has a value, or may have one.
fn valued_option_of_name(name: &[u8]) -> Option<Opt>
    ensures { result ≡ options.valued_option_of_name name.now }
{
    if name == b"untracked-files".as_slice() {
        Some(Opt::Untracked)
    } else if name == b"ignored".as_slice() {
        Some(Opt::Ignored)
    } else if name == b"collapsed".as_slice() {
        Some(Opt::Collapsed)
    } else if name == b"for-deletion".as_slice() {
        Some(Opt::Deletion)
    } else if name == b"permissions".as_slice() {
        Some(Opt::Permissions)
    } else if name == b"strategy".as_slice() {
        Some(Opt::Strategy)
    } else if name == b"depth".as_slice() {
        Some(Opt::Depth)
    } else if name == b"color".as_slice() {
        Some(Opt::Color)
    } else {
        None
    }
}

/// The option of this name that has no value and is no switch.
fn valueless_option_of_name(name: &[u8]) -> Option<Opt>
    ensures { result ≡ options.valueless_option_of_name name.now }
{
    if name == b"nonbare".as_slice() {
        Some(Opt::NonBare)
    } else if name == b"by-stat".as_slice() {
        Some(Opt::ByStat)
    } else if name == b"null".as_slice() {
        Some(Opt::Nul)
    } else if name == b"plain".as_slice() {
        Some(Opt::Plain)
    } else if name == b"no-color".as_slice() {
        Some(Opt::NoColor)
    } else if name == b"help".as_slice() {
        Some(Opt::Help)
    } else {
        None
    }
}

/// The option that turns on or off what this name says, `no-` before it for off.
fn switch_option_with_optional_no_prefix(name: &[u8]) -> Option<Opt>
    ensures { result ≡ options.switch_option_with_optional_no_prefix name.now }
{
    if name.starts_with(b"no-") {
        let (_, rest) = name.split_at(3);
        return match switch_of_name(rest) {
            Some(switch) => Some(Opt::Without(switch)),
            None => None,
        };
    }
    match switch_of_name(name) {
        Some(switch) => Some(Opt::With(switch)),
        None => None,
    }
}

/// The option of this name, which stands behind `--`. None where there is none.
#[tactic(auto, unfolding(crate::specs::Options::option_of_name))]
pub fn option_of_name(name: &[u8]) -> Option<Opt>
    ensures { result ≡ options.option_of_name name.now }
{
    match valued_option_of_name(name) {
        Some(opt) => Some(opt),
        None => match valueless_option_of_name(name) {
            Some(opt) => Some(opt),
            None => switch_option_with_optional_no_prefix(name),
        },
    }
}

/// The option of this letter, which stands behind `-`. None where there is none.
pub fn option_of_letter(letter: u8) -> Option<Opt>
    ensures { result ≡ options.option_of_letter letter }
{
    if letter == b'u' {
        Some(Opt::Untracked)
    } else if letter == b'x' {
        Some(Opt::IgnoredToo)
    } else if letter == b'X' {
        Some(Opt::IgnoredAlone)
    } else if letter == b'z' {
        Some(Opt::Nul)
    } else if letter == b'h' {
        Some(Opt::Help)
    } else {
        None
    }
}

/// Whether a plan depends on what a switch says.
fn is_switch_of_plan(switch: Switch) -> bool
    ensures { result ≡ options.is_switch_of_plan switch }
{
    matches!(
        switch,
        Switch::Excludes | Switch::Precious | Switch::StrictParents | Switch::LinksAsDirectories
    )
}

/// Whether `report` has an option.
fn is_option_of_report(opt: Opt) -> bool
    ensures { result ≡ options.is_option_of_report opt }
{
    !matches!(
        opt,
        Opt::IgnoredToo | Opt::IgnoredAlone | Opt::NonBare | Opt::ByStat
    )
}

/// Whether `state` has an option.
fn is_option_of_state(opt: Opt) -> bool
    ensures { result ≡ options.is_option_of_state opt }
{
    match opt {
        Opt::Plain => false,
        Opt::ByStat => true,
        _ => is_option_of_report(opt),
    }
}

/// Whether `plan` has an option.
fn is_option_of_plan(opt: Opt) -> bool
    ensures { result ≡ options.is_option_of_plan opt }
{
    match opt {
        Opt::With(switch) => is_switch_of_plan(switch),
        Opt::Without(switch) => is_switch_of_plan(switch),
        _ => matches!(
            opt,
            Opt::Strategy
                | Opt::Depth
                | Opt::IgnoredToo
                | Opt::IgnoredAlone
                | Opt::NonBare
                | Opt::Nul
                | Opt::Help
        ),
    }
}

/// Whether a command has an option.
pub fn command_has_option(verb: Verb, opt: Opt) -> bool
    ensures { result ≡ options.command_has_option verb opt }
{
    match verb {
        Verb::Report => is_option_of_report(opt),
        Verb::Plan => is_option_of_plan(opt),
        Verb::Modules => matches!(opt, Opt::Permissions | Opt::Help),
        Verb::State => is_option_of_state(opt),
        Verb::Files | Verb::Clean | Verb::Compare | Verb::Check => true,
    }
}

/// How paths of a kind are reported, by a value.
pub fn parse_emission_mode(value: &[u8]) -> Option<EmissionMode>
    ensures { result ≡ options.parse_emission_mode value.now }
{
    if value == b"matching".as_slice() {
        Some(EmissionMode::Matching)
    } else if value == b"collapse".as_slice() {
        Some(EmissionMode::CollapseDirectory)
    } else {
        None
    }
}

/// Which paths are reported besides the directory that was folded over them, by a value.
pub fn parse_collapsed_mode(value: &[u8]) -> Option<CollapsedEntriesEmissionMode>
    ensures { result ≡ options.parse_collapsed_mode value.now }
{
    if value == b"mismatch".as_slice() {
        Some(CollapsedEntriesEmissionMode::OnStatusMismatch)
    } else if value == b"all".as_slice() {
        Some(CollapsedEntriesEmissionMode::All)
    } else {
        None
    }
}

/// How deletion goes about ignored directories, by a value.
pub fn parse_for_deletion_mode(value: &[u8]) -> Option<ForDeletionMode>
    ensures { result ≡ options.parse_for_deletion_mode value.now }
{
    if value == b"hide".as_slice() {
        Some(ForDeletionMode::IgnoredDirectoriesCanHideNestedRepositories)
    } else if value == b"nonbare".as_slice() {
        Some(ForDeletionMode::FindNonBareRepositoriesInIgnoredDirectories)
    } else if value == b"all".as_slice() {
        Some(ForDeletionMode::FindRepositoriesInIgnoredDirectories)
    } else {
        None
    }
}
