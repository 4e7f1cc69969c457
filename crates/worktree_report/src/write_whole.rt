//! Writing to a sink that takes as much at a time as it likes.
ghost use Rattle.std.specs.Prelude.{◌≡◌, ℕ, ◌≤◌, ◌++◌, List, OnOk, OnErr};
ghost use Rattle.worktree_fs.specs.Causes.{CountIncrementedOrSaturated};
ghost use Rattle.worktree_report.specs.Written.{AppendsWholeBytes, AppendsFrontOfBytes};

use worktree_fs::{Fault, Sink};

/// Writes all of the bytes, by as many writes as the sink likes; none comes behind one that is
/// refused.
///
/// # Errors
///
/// The sink refused a write or took nothing, once; a front of the bytes is then written.
pub fn write_all_bytes<S: Sink>(sink: &mut S, bytes: &[u8]) -> Result<(), Fault>
    ensures whole { OnOk result (AppendsWholeBytes (S.written sink.old) (S.written sink.new)
        bytes.now) }
    ensures part { OnErr result (AppendsFrontOfBytes (S.written sink.old) (S.written sink.new)
        bytes.now) }
    ensures cause { OnErr result (CountIncrementedOrSaturated (S.refusals sink.old)
        (S.refusals sink.new)) }
    ensures unrefused { OnOk result (S.refusals sink.new ≡ S.refusals sink.old) }
    ensures later { S.refusals sink.old ≤ S.refusals sink.new }
{
    let mut rest = bytes;
    while !rest.is_empty() {
        let taken = sink.write(rest)?;
        if taken == 0 {
            return Err(Fault);
        }
        let (_, after) = rest.split_at(taken);
        rest = after;
    }
    Ok(())
}
