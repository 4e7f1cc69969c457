//! What is answered of paths.
ghost use Rattle.std.specs.Prelude.{◌≡◌, Ok, OnOk};
ghost use Rattle.check_ignore.specs.Checked as words;
ghost use Rattle.check_ignore.specs.Finds.{FindsInTree};

use crate::asked::AskedPath;
use crate::decision::{deciding_rule_unless_tracked, drop_negative_unless_verbose};
use crate::found_rule::FoundRule;
use crate::line::line;
use crate::links::parse_nonempty_asked_paths;
use crate::options::{CheckContext, Checking, OuterRules};
use crate::stop::Stop;
use crate::tracked::{refuse_paths_in_submodules, refuse_sparse_index};
use gitbase_core::{Bytes, OutOfMemory, State as Index};
use std::alloc::Global;
use worktree_fs::Worktree;

/// What is answered of paths.
#[derive(Debug, Drop)]
pub struct Answered {
    /// What is written.
    pub text: Bytes,
    /// Whether a rule decides about one of them: with `-v` a negative one too. git ends with 0
    /// where it is so, and with 1 where it is not.
    pub is_any: bool,
}

/// Nothing is written, and no rule decides; takes no memory.
pub fn empty_answer(alloc: Global) -> Answered
    ensures { result ≡ words.empty_answer }
{
    Answered {
        text: Bytes::new(alloc),
        is_any: false,
    }
}

/// Adds what is answered of one path.
pub fn append_answer(alloc: Global, done: &mut Answered, now: &Answered) -> Result<(), OutOfMemory>
    ensures { OnOk result (done.new ≡ words.answer_with_other_appended done.old now.now) }
{
    done.text.extend(alloc, now.text.as_bytes())?;
    done.is_any |= now.is_any;
    Ok(())
}

/// What is answered of a path by the rule that decides about it.
fn answer_of_deciding_rule<W: Worktree>(
    alloc: Global,
    worktree: &mut W,
    root: &[u8],
    outer: &OuterRules,
    checking: &Checking,
    asked: &AskedPath,
    rule: &Option<FoundRule>,
) -> Result<Answered, Stop>
    ensures { FindsInTree W.Worktree worktree.old worktree.new
        (λ t. Ok (words.answer_of_deciding_rule t root.now outer.now checking.now asked.now
        rule.now)) result }
{
    let path = asked.text.as_bytes();
    let text = line(alloc, worktree, root, outer, checking, path, rule)?;
    Ok(Answered {
        text,
        is_any: rule.is_some(),
    })
}

/// What is answered of a path.
#[tactic(auto, unfolding(crate::specs::Checked::answer_of_asked_path))]
fn answer_of_asked_path<W: Worktree>(
    alloc: Global,
    worktree: &mut W,
    root: &[u8],
    index: &Index,
    outer: &OuterRules,
    checking: &Checking,
    asked: &AskedPath,
) -> Result<Answered, Stop>
    ensures { FindsInTree W.Worktree worktree.old worktree.new (λ t. words.answer_of_asked_path t
        root.now index.now outer.now checking.now asked.now) result }
{
    let rule = deciding_rule_unless_tracked(alloc, worktree, root, index, outer, checking, asked)?;
    let rule = drop_negative_unless_verbose(checking, rule);
    answer_of_deciding_rule(alloc, worktree, root, outer, checking, asked, &rule)
}

/// What is answered of some paths.
fn combined_answer_of_asked_paths<W: Worktree>(
    alloc: Global,
    worktree: &mut W,
    root: &[u8],
    index: &Index,
    outer: &OuterRules,
    checking: &Checking,
    asked: &[AskedPath],
) -> Result<Answered, Stop>
    ensures { FindsInTree W.Worktree worktree.old worktree.new (λ t. words.append_answers_of_paths t
        root.now index.now outer.now checking.now words.empty_answer asked.now) result }
{
    let mut done = empty_answer(alloc);
    for one in asked {
        let now = answer_of_asked_path(alloc, worktree, root, index, outer, checking, one)?;
        append_answer(alloc, &mut done, &now)?;
    }
    Ok(done)
}

/// What `git check-ignore` prints of `paths`, each as it was written in a directory of a work tree,
/// and whether it ends with 0. The words have to be some that there are, which
/// [`first_option_error`](crate::first_option_error) tests.
///
/// Each path is looked up by itself: the rules files above it are read anew, and with `-v` the file
/// of the rule that decides once more, as git writes the pattern as its line has it. The index is
/// gone over once for each path.
///
/// # Errors
///
/// The first refusal, in this order; `text` is the path as it was written:
///
/// - `SparseIndex`: an entry of the index stands for all that is beneath a directory.
/// - `Empty`: a path has no bytes.
/// - Of the first path of which one holds: `Magic`: it begins with a colon; `Elsewhere`:
///   it is absolute, and does not begin with that of the top; `Prefix`: it and `prefix` have bytes
///   with a meaning of their own in a pattern; `Outside`: it leads out of the work tree; `Beyond`:
///   a symbolic link stands above it.
/// - `Inside`: a path lies in a submodule, the first of the index in which one does.
/// - Of the first path of which one holds, and of which the index has nothing: `Everything`: a rule
///   outside the work tree excludes all, as `*` behind a byte order mark does; `Unread`: the rules
///   above it are not read; `Slash`: it is the top, or asks for a directory that no rule excludes.
///
/// Besides, wherever it comes:
///
/// - `Fault`: the worktree failed, which it counted. No fault reads as "nothing is there".
/// - `OutOfMemory`: memory was refused.
#[tactic(auto, unfolding(crate::specs::Checked::check_ignore_answer))]
pub fn check_ignore<W: Worktree>(
    alloc: Global,
    worktree: &mut W,
    context: &CheckContext<'_>,
    paths: &[Bytes],
) -> Result<Answered, Stop>
    ensures { FindsInTree W.Worktree worktree.old worktree.new (λ t. words.check_ignore_answer t
        context.now.root.now context.now.prefix.now context.now.index.now context.now.outer.now
        context.now.checking.now paths.now) result }
{
    refuse_sparse_index(context.index.entries())?;
    let asked = parse_nonempty_asked_paths(alloc, worktree, context.root, context.prefix, paths)?;
    let each = asked.as_slice();
    refuse_paths_in_submodules(alloc, each, context.index.entries())?;
    combined_answer_of_asked_paths(
        alloc,
        worktree,
        context.root,
        context.index,
        context.outer,
        context.checking,
        each,
    )
}
