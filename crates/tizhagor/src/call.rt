//! What is done with a work tree.
ghost use Rattle.std.specs.Prelude.{◌≡◌};
ghost use Rattle.tizhagor.specs.Asking as words;

use clean_plan::{Finding, What, prepare};
use worktree_report::SetupOptions;

/// What is done with a work tree that is found.
#[derive(Clone, Copy, Debug, PartialEq, Eq)]
pub enum Call {
    /// The report.
    Report,
    /// What may be removed.
    Plan {
        /// What may be.
        what: What,
        /// How repositories are looked for.
        finding: Finding,
    },
    /// What an update of the submodules would do.
    Modules,
    /// What became of the paths of the index, and the report.
    State,
}

fn options_prepared_for_plan(options: &SetupOptions, finding: Finding) -> SetupOptions
    ensures { result ≡ words.setup_options_for_call (Call.Plan What.Untracked finding) options.now }
{
    let mut options = *options;
    prepare(&mut options, finding);
    options
}

fn options_with_submodules(options: &SetupOptions) -> SetupOptions
    ensures { result ≡ words.setup_options_for_call Call.Modules options.now }
{
    let mut options = *options;
    options.submodules = true;
    options
}

/// The options with which a work tree is found: a plan prepares them, and submodules are asked for
/// where what becomes of them is. See docs/DECISIONS.md#options-before-the-setup.
pub fn setup_options_for_call(call: Call, options: &SetupOptions) -> SetupOptions
    ensures { result ≡ words.setup_options_for_call call options.now }
{
    match call {
        Call::Report | Call::State => *options,
        Call::Plan { what: _, finding } => options_prepared_for_plan(options, finding),
        Call::Modules => options_with_submodules(options),
    }
}
