//! The help texts, and the version.
ghost use Rattle.std.specs.Prelude.{◌≡◌};
ghost use Rattle.command_line.specs.Helps as helps;

use crate::check_help::check_ignore_help;
use crate::compare_help::diff_files_help;
use crate::verb::{Topic, Verb};

const WHOLE: &[u8] =
    b"usage: tizhagor [-C DIR] report|plan|modules|state|ls-files|clean|diff-files|check-ignore [OPTION..] [--] [PATH..]

Says what lies in the git work tree around the current directory. Nothing is run,
changed or removed, and git is not needed.

  report    the untracked paths, and others that options ask for, with their class
  plan      what may be removed, as git clean -n -d names it
  modules   what git submodule update would do
  state     the paths of the index that are not as it has them, and the report
  ls-files  paths of the index and of the work tree, as git ls-files has them
  clean     with -n: what git clean would remove, as git clean -n has it
  diff-files
            how the paths of the index changed, as git diff-files has it
  check-ignore
            the paths that an ignore rule excludes, as git check-ignore has it

  -C DIR        works in DIR
  -h, --help    this text; behind a command, that of the command
  --version     the version

For example: tizhagor -C linux report --ignored=collapse
";

const REPORT: &[u8] = b"usage: tizhagor [-C DIR] report [OPTION..] [--] [PATH..]

Writes a line a path: its words, a tab, and the path from the top of the work tree.
A PATH is a path spec from the current directory, as git has them.

What is shown
  -u[MODE], --untracked-files[=MODE]
                        untracked paths each by itself (matching, the default),
                        or directories in place of what they hold (collapse)
  --ignored[=MODE]      ignored paths too: matching, or collapse; or no
  --collapsed=WHICH     besides a directory that stands for what it holds: what
                        has another status (mismatch), or all; or no
  --tracked, --pruned, --empty-directories
                        tracked paths; those named .git, left out of a sparse
                        work tree or meant by no PATH; empty directories
  --origins             a word more: the ignore rule that decided
  --submodules          a word more: the submodule at the path
  --permissions=WHICH   the configurations that tell of submodules: secure, all,
                        or isolated, which is that of the repository alone
  --outcome             a last line with the counts of the walk
How it is looked at
  --excludes, --no-excludes
                        ignore rules count, as they do by default; or none does,
                        though the files are read
  --precious            an ignore rule that begins with $ keeps what it matches
  --strict-parents, --no-strict-parents
                        what lies in an excluded directory stays excluded, as it does
                        by default; or rules may take it up again
  --recurse-repositories
                        nested repositories are directories like any other
  --bare-repositories   untracked bare repositories are told as repositories
  --links-as-directories
                        ignore rules see a link as what it leads to
  --for-deletion=MODE   as what is to be deleted: hide, nonbare or all says how
                        repositories are looked for in ignored directories; or no
  --strategy=HOW        held, or at-once: a job for each directory at the top
  --depth=N             directories are entered down to N components, at most 1000
How it is written
  -z, --null            a NUL behind each line, and paths as they are
  --plain               two letters in place of words: ?? untracked, !! ignored,
                        $$ precious, two blanks tracked, -- pruned
  --color[=WHEN], --no-color
                        lines in the colour of their status: auto, always, never
  -h, --help            this text

Of options that say the same the last counts; --no- before the name of one that
takes no value turns it off, but for --null, --plain and --help. For example:
tizhagor report --ignored -z src
";

const PLAN: &[u8] = b"usage: tizhagor plan [OPTION..] [--] [PATH..]

Writes the paths that may be removed, as git clean -n -d names them, one a line. It is
called at the top of the work tree, from where the paths lead. Nothing is removed. No
path of the index goes, no repository whose git directory is whole (bare ones go with
--nonbare), and not the current directory. A PATH is a path spec, as git has them.

  -x                    ignored paths too
  -X                    ignored paths alone
  --nonbare             bare repositories are directories like any other
  --excludes, --no-excludes
                        ignore rules count, as they do by default; or none does,
                        though the files are read
  --precious            an ignore rule that begins with $ keeps what it matches
  --strict-parents, --no-strict-parents
                        what lies in an excluded directory stays excluded, as it does
                        by default; or rules may take it up again
  --links-as-directories
                        ignore rules see a link as what it leads to
  --strategy=HOW        held, or at-once: a job for each directory at the top
  --depth=N             directories are entered down to N components, at most 1000
  -z, --null            a NUL behind each path, which stands as it is
  -h, --help            this text

Of options that say the same the last counts; --no- before the name of one that
takes no value turns it off, but for --nonbare, --null and --help. For example:
tizhagor plan -xz | xargs -0 -r ls -d --
";

const MODULES: &[u8] = b"usage: tizhagor [-C DIR] modules [OPTION..]

Writes the steps that git submodule update would take for the active submodules, and
the submodules that it would leave out, one a line. Nothing is run.

  --permissions=WHICH   the configurations that are read: secure, all, or isolated,
                        which is that of the repository alone
  -h, --help            this text

For example: tizhagor modules --permissions=isolated
";

const STATE: &[u8] = b"usage: tizhagor [-C DIR] state [OPTION..]

Writes a line for each path of the index that differs from it or is not looked at: its
state, a tab, and the path from the top of the work tree; then the lines of report.

What is shown
  -u[MODE], --untracked-files[=MODE]
                        untracked paths each by itself (matching, the default),
                        or directories in place of what they hold (collapse)
  --ignored[=MODE]      ignored paths too: matching, or collapse; or no
  --collapsed=WHICH     besides a directory that stands for what it holds: what
                        has another status (mismatch), or all; or no
  --tracked, --pruned, --empty-directories
                        tracked paths; those named .git or left out of a sparse
                        work tree; empty directories
  --origins             a word more: the ignore rule that decided
  --submodules          a word more: the submodule at the path
  --permissions=WHICH   the configurations that tell of submodules: secure, all,
                        or isolated, which is that of the repository alone
  --outcome             a last line with the counts of the walk
How it is looked at
  --by-stat             go by the stat fields of files, as diff-files does: bytes are read
                        only where these do not tell. Nothing is then told of what is
                        skipped or assumed unchanged, nor of submodules without a conflict
  --excludes, --no-excludes
                        ignore rules count, as they do by default; or none does,
                        though the files are read
  --precious            an ignore rule that begins with $ keeps what it matches
  --strict-parents, --no-strict-parents
                        what lies in an excluded directory stays excluded, as it does
                        by default; or rules may take it up again
  --recurse-repositories
                        nested repositories are directories like any other
  --bare-repositories   untracked bare repositories are told as repositories
  --links-as-directories
                        ignore rules see a link as what it leads to
  --for-deletion=MODE   as what is to be deleted: hide, nonbare or all says how
                        repositories are looked for in ignored directories; or no
  --strategy=HOW        held, or at-once: a job for each directory at the top
  --depth=N             directories are entered down to N components, at most 1000
How it is written
  -z, --null            a NUL behind each line, and paths as they are
  --color[=WHEN], --no-color
                        lines in the colour of their status: auto, always, never
  -h, --help            this text

Of options that say the same the last counts; --no- before the name of one that
takes no value turns it off, but for --by-stat, --null and --help. For example:
tizhagor state --ignored
";

const FILES: &[u8] = b"usage: tizhagor [-C DIR] ls-files [OPTION..] [--] [PATH..]

Writes paths as git ls-files does, from the current directory: those of the index, or
those that OPTION chooses. A PATH is a path spec; none means the current directory.

  -c, --cached          what the index has; it is shown too where nothing is chosen
  -s, --stage           the same with mode, object and stage
  -u, --unmerged        the same of paths that are not merged, alone
  -o, --others          what the index does not have
  -k, --killed          what lies in the way of the index
  -d, --deleted         of the index, that of which nothing is there
  -m, --modified        of the index, that of which nothing is there or something else
  -i, --ignored         what is ignored, alone, with -o or with -c; beside one of
                        the four below
  --exclude-standard    ignore rules are asked: .gitignore, info/exclude, and the
                        excludes file of the user
  --exclude-per-directory=.gitignore
                        of these rules those of each directory
  -x, --exclude=PATTERN  a rule before all others; as the only rule not with -k, and
                        with --directory only beside -i
  -X, --exclude-from=FILE  its rules, weaker than .gitignore, and than those of an
                        --exclude-standard behind it; FILE is read from the top
  --directory           a directory in place of what it holds, where the index has
                        nothing in it; with -i beside it, at the top and without a PATH
  --no-empty-directory  no directories without files
  -t                    a letter before each path: H, S, M, ? for -o, K for -k,
                        R for -d, C for -m
  -v                    the same, in lower case where a file is assumed unchanged
  -z                    a NUL behind each path, which stands as it is
  --deduplicate         each path of the index once
  --full-name           paths from the top of the work tree
  --error-unmatch       the status is 1 where a PATH is about nothing
  -h, --help            this text

Of options that say the same the last counts; --no- before a name turns it off, but
for --exclude-standard and --full-name. For example: tizhagor ls-files -o --directory
";

const CLEAN: &[u8] = b"usage: tizhagor clean -n [OPTION..] [--] [PATH..]

Names what git clean would remove, as git clean -n does, from the current directory.
Nothing is removed, so -n has to stand. A PATH is a path spec; none means the current
directory.

  -n, --dry-run         nothing is removed
  -d                    untracked directories too; so it is wherever a PATH stands
  -x                    ignored paths too: no ignore rule counts but those of -e
  -X                    ignored paths alone
  -e PATTERN, --exclude=PATTERN
                        an ignore rule before all others
  -f, --force           twice: untracked repositories too; where clean.requireForce is
                        false, once is enough
  -q, --quiet           nothing is named
  -h, --help            this text

Of options that say the same the last counts; --no-dry-run, --no-force and --no-quiet
take back what they name. For example: tizhagor clean -nd
";

/// The help text of `report`.
#[tactic(auto, unfolding(crate::specs::Helps::report))]
fn report_help() -> &'static [u8]
    ensures { result.now ≡ helps.report }
{
    REPORT
}

/// The help text of `plan`.
#[tactic(auto, unfolding(crate::specs::Helps::plan))]
fn plan_help() -> &'static [u8]
    ensures { result.now ≡ helps.plan }
{
    PLAN
}

/// The help text of `state`.
#[tactic(auto, unfolding(crate::specs::Helps::state_help_text))]
fn state_help() -> &'static [u8]
    ensures { result.now ≡ helps.state_help_text }
{
    STATE
}

/// The help text of `ls-files`.
#[tactic(auto, unfolding(crate::specs::Helps::files))]
fn ls_files_help() -> &'static [u8]
    ensures { result.now ≡ helps.files }
{
    FILES
}

/// The help text of `clean`.
#[tactic(auto, unfolding(crate::specs::Helps::clean))]
fn clean_help() -> &'static [u8]
    ensures { result.now ≡ helps.clean }
{
    CLEAN
}

/// How a command is called.
pub fn usage_line_of_topic(topic: Topic) -> &'static [u8]
    ensures { result.now ≡ helps.usage_line_of_topic topic }
{
    match topic {
        Topic::Whole =>
            b"usage: tizhagor [-C DIR] report|plan|modules|state|ls-files|clean|diff-files|check-ignore [OPTION..] [--] [PATH..]\n",
        Topic::Of(Verb::Report) => b"usage: tizhagor [-C DIR] report [OPTION..] [--] [PATH..]\n",
        Topic::Of(Verb::Plan) => b"usage: tizhagor plan [OPTION..] [--] [PATH..]\n",
        Topic::Of(Verb::Modules) => b"usage: tizhagor [-C DIR] modules [OPTION..]\n",
        Topic::Of(Verb::State) => b"usage: tizhagor [-C DIR] state [OPTION..]\n",
        Topic::Of(Verb::Files) => b"usage: tizhagor [-C DIR] ls-files [OPTION..] [--] [PATH..]\n",
        Topic::Of(Verb::Clean) => b"usage: tizhagor clean -n [OPTION..] [--] [PATH..]\n",
        Topic::Of(Verb::Compare) => b"usage: tizhagor [-C DIR] diff-files [OPTION..] [-- PATH..]\n",
        Topic::Of(Verb::Check) =>
            b"usage: tizhagor [-C DIR] check-ignore [OPTION..] [--] [PATH..]\n",
    }
}

/// The help text of a command, or of the whole program.
pub fn help_text_of_topic(topic: Topic) -> &'static [u8]
    ensures { result.now ≡ helps.help_text_of_topic topic }
{
    match topic {
        Topic::Whole => WHOLE,
        Topic::Of(Verb::Report) => report_help(),
        Topic::Of(Verb::Plan) => plan_help(),
        Topic::Of(Verb::Modules) => MODULES,
        Topic::Of(Verb::State) => state_help(),
        Topic::Of(Verb::Files) => ls_files_help(),
        Topic::Of(Verb::Clean) => clean_help(),
        Topic::Of(Verb::Compare) => diff_files_help(),
        Topic::Of(Verb::Check) => check_ignore_help(),
    }
}

/// The version of the program.
pub fn version_line() -> &'static [u8]
    ensures { result.now ≡ helps.version_line }
{
    b"tizhagor, unreleased\n"
}
