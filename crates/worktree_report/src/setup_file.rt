//! Reading the setup from the worktree.
ghost use Rattle.std.specs.Prelude.{◌≡◌, ◌≤◌, ℕ, true, Some, Ok, Err, IfOk, IfErr, IsErrOf, OnOk};
ghost use Rattle.worktree_fs.specs.Tree.{Names, look};
ghost use Rattle.worktree_fs.specs.Causes.{CountIncreasedOrSaturated, CountIncrementedOrSaturated};
ghost use Rattle.worktree_report.specs.SetupAt.{setup_of_file_looked_at};
ghost use Rattle.worktree_report.specs.Converted.{MayComeFromReadingSetup};

use crate::refusal::Refusal;
use crate::setup::{Setup, SetupError};
use gitbase_core::Bytes;
use std::alloc::Global;
use worktree_fs::{ReadAnswer, ReadError, Worktree};

impl From<ReadError> for Refusal {
    ghost use Rattle.std.specs.Prelude.{◌≡◌};
    ghost use Rattle.worktree_report.specs.Converted.{refusal_of_read_error};

    ghost from_gives = { λ error refusal. refusal ≡ refusal_of_read_error error };

    fn from(error: ReadError) -> Refusal {
        match error {
            ReadError::Fault => Refusal::Fault,
            ReadError::OutOfMemory => Refusal::OutOfMemory,
        }
    }
}

impl From<SetupError> for Refusal {
    ghost use Rattle.std.specs.Prelude.{◌≡◌};
    ghost use Rattle.worktree_report.specs.Converted.{refusal_of_setup_error};

    ghost from_gives = { λ error refusal. refusal ≡ refusal_of_setup_error error };

    fn from(error: SetupError) -> Refusal {
        match error {
            SetupError::Line { line } => Refusal::Setup { line },
            SetupError::OutOfMemory => Refusal::OutOfMemory,
        }
    }
}

/// The setup at a path, links followed.
///
/// # Errors
///
/// - `Setup` names its first line outside the grammar, 0 where there is no file.
/// - `Fault`: the worktree failed, and counted it.
/// - `OutOfMemory`: memory was refused.
pub fn read_setup<W: Worktree>(
    alloc: Global,
    worktree: &mut W,
    path: &[u8],
) -> Result<Setup, Refusal>
    ensures gives { (t : Names) → W.told worktree.old ≡ Some t
        → IfOk result (λ setup. setup_of_file_looked_at (look t path.now true) ≡ Ok setup) }
    ensures outside { (t : Names) → W.told worktree.old ≡ Some t → (line : ℕ)
        → IsErrOf result (Refusal.Setup line) → setup_of_file_looked_at (look t path.now true)
        ≡ Err line }
    ensures cause { IsErrOf result Refusal.Fault
        → CountIncreasedOrSaturated (W.faults worktree.old) (W.faults worktree.new) }
    ensures unfaulted { OnOk result (W.faults worktree.new ≡ W.faults worktree.old) }
    ensures answers { IfErr result MayComeFromReadingSetup }
    ensures tree { W.told worktree.new ≡ W.told worktree.old }
    ensures faults { W.faults worktree.old ≤ W.faults worktree.new }
    ensures list_faults { W.list_faults worktree.new ≡ W.list_faults worktree.old }
    ensures reads { CountIncrementedOrSaturated (W.reads worktree.old) (W.reads worktree.new) }
    ensures lists { W.lists worktree.new ≡ W.lists worktree.old }
    ensures precomposes { W.precomposes worktree.new ≡ W.precomposes worktree.old }
{
    let mut text = Bytes::new(alloc);
    match worktree.read(alloc, path, true, &mut text)? {
        ReadAnswer::Read => Ok(Setup::parse(alloc, text.as_bytes())?),
        _ => Err(Refusal::Setup { line: 0 }),
    }
}
