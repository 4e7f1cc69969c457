//! The help text of `check-ignore`.
ghost use Rattle.std.specs.Prelude.{◌≡◌};
ghost use Rattle.command_line.specs.CheckHelp as helps;

const CHECK: &[u8] = b"usage: tizhagor [-C DIR] check-ignore [OPTION..] [--] [PATH..]

Writes each PATH that an ignore rule excludes, as git check-ignore does, in the form in
which it is written. A PATH is from the current directory, and need not be there. The
status is 0 where a path is excluded, and 1 where none is.

  -v, --verbose         the rule that decides before each path: its file, its line and its
                        pattern; of a rule with ! in front too
  -n, --non-matching    with -v: the paths too that no rule decides about
  -q, --quiet           of one path, or with --stdin: nothing is written
  --stdin               the paths of the standard input, one a line, and no PATH; git's
                        way of quoting paths is understood there
  -z                    with --stdin: NULs end its lines, and part and end what is written;
                        nothing is quoted
  --no-index            paths of the index too: else no rule excludes these
  -h, --help            this text

Of options that say the same the last counts; --no- before a name takes it back, and
--index takes back --no-index. For example: tizhagor check-ignore -v -n build/main.o
";

/// The help text of `check-ignore`.
#[tactic(auto, unfolding(crate::specs::CheckHelp::check))]
pub fn check_ignore_help() -> &'static [u8]
    ensures { result.now ≡ helps.check }
{
    CHECK
}
