//! The help text of `diff-files`.
ghost use Rattle.std.specs.Prelude.{◌≡◌};
ghost use Rattle.command_line.specs.CompareHelp as helps;

const COMPARE: &[u8] = b"usage: tizhagor [-C DIR] diff-files [OPTION..] [-- PATH..]

Writes how the paths of the index changed in the work tree, as git diff-files does, from
the top of the work tree: modes, ids, a letter and the path. A PATH is a path spec from
the current directory, and stands behind --; none means all.

  --raw                 modes, ids, a letter and the path; so it is where no form is said
  --name-status         a letter and the path
  --name-only           the path
  -z                    a NUL behind each field, and paths as they are
  -q                    taken, and changes nothing
  --exit-code           the status is 1 where something changed
  --quiet               the same, and nothing is written
  --ignore-submodules[=WHEN]
                        nothing of submodules; with none, dirty or untracked as WHEN
                        that which the configuration would leave out, too
  -h, --help            this text

Of options that say the same the last counts; --no-exit-code and --no-quiet take back what
they name. For example: tizhagor diff-files --name-only -- src
";

/// The help text of `diff-files`.
#[tactic(auto, unfolding(crate::specs::CompareHelp::diff_files_help_text))]
pub fn diff_files_help() -> &'static [u8]
    ensures { result.now ≡ helps.diff_files_help_text }
{
    COMPARE
}
