//! What all configurations of a work tree say.
ghost use Rattle.std.specs.Prelude.{◌≡◌, [], IfOk};
ghost use Rattle.git_config_files.specs.Files as joint;
ghost use Rattle.git_config_files.specs.Finds.{AnswersFromWorktree};
ghost use Rattle.git_config_files.specs.Stack as words;

use crate::appearance::files_in_order_of_appearance;
use crate::config_files::{ConfigFiles, Configured};
use crate::error::FilesError;
use crate::includes::read_keys_expanding_includes;
use crate::keys::Keys;
use crate::known::{Known, include_context_of_work_tree};
use crate::which::config_files_of_work_tree;
use git_config_lite::{File, Metadata, Source};
use git_places::{Places, Surroundings};
use gitbase_core::{Bytes, OutOfMemory};
use std::alloc::Global;
use std::marker::Model;
use worktree_fs::Worktree;

/// What all configurations of a work tree say. Contracts see a record of both parts.
#[derive(Debug, Drop)]
pub struct Stack {
    /// What the files say, in git's order and with what they include in place. Each key is a
    /// section by itself, which says in which file it stands.
    pub file: File,
    /// The files in which these keys stand, in the order in which they first appear; a file without
    /// keys is none of them.
    pub files: ConfigFiles,
}

impl Model for Stack {
    ghost use Rattle.git_config_files.specs.Stack as words;

    ghost Value = { words.Stack };

    ghost view = { λ stack. record { file = stack.file; files = stack.files } };
}

/// What files say, one behind another, gone through one by one.
fn read_keys_file_by_file<W: Worktree>(
    alloc: Global,
    worktree: &mut W,
    known: &Known,
    files: &[Configured],
) -> Result<Keys, FilesError>
    ensures { AnswersFromWorktree W.Worktree worktree.old worktree.new
        (λ t. joint.keys_of_files_behind_done t known.now [] files.now) result }
{
    let mut done = Keys::new(alloc);
    for file in files {
        let more = read_keys_expanding_includes(
            alloc,
            worktree,
            known,
            file.source,
            file.path.as_bytes(),
        )?;
        done.append(more)?;
    }
    Ok(done)
}

/// What files say, one behind another, each with what it includes in place.
fn read_keys_of_files<W: Worktree>(
    alloc: Global,
    worktree: &mut W,
    known: &Known,
    files: &[Configured],
) -> Result<Keys, FilesError>
    ensures { AnswersFromWorktree W.Worktree worktree.old worktree.new
        (λ t. joint.keys_of_files_with_includes t known.now files.now) result }
{
    read_keys_file_by_file(alloc, worktree, known, files)
}

/// The stack of some keys.
fn stack_of_keys(alloc: Global, keys: Keys) -> Result<Stack, OutOfMemory>
    ensures { IfOk result (λ stack. stack ≡ words.stack_of_keys keys) }
{
    let meta = Metadata {
        source: Source::Api,
        path: None,
    };
    let file = File::from_sections(alloc, meta, keys.into_sections());
    let files = files_in_order_of_appearance(alloc, &file)?;
    Ok(Stack { file, files })
}

/// What the configurations say that are read, by what their includes are judged by.
pub fn read_stack_of_files<W: Worktree>(
    alloc: Global,
    worktree: &mut W,
    known: &Known,
    files: &ConfigFiles,
) -> Result<Stack, FilesError>
    ensures { AnswersFromWorktree W.Worktree worktree.old worktree.new
        (λ t. words.read_stack_of_files t known.now files.now) result }
{
    let keys = read_keys_of_files(alloc, worktree, known, files.as_slice())?;
    Ok(stack_of_keys(alloc, keys)?)
}

/// The refusal of a variable that points git elsewhere.
pub fn elsewhere_error(alloc: Global, name: &[u8]) -> Result<FilesError, OutOfMemory>
    ensures { IfOk result (λ e. e ≡ FilesError.Elsewhere name.now) }
{
    Ok(FilesError::Elsewhere {
        name: Bytes::from_slice(alloc, name)?,
    })
}

/// What git's configurations say for the work tree of a repository, in its order: that of the
/// system, those of the user, that which all work trees share, and that of this one; each with the
/// files that it includes right behind the key that names them, up to ten deep. `around` is what
/// the caller's environment says.
///
/// A key is found by [`File::string`], the last one counts; a file that is not there says nothing.
///
/// # Errors
///
/// - `Elsewhere`: a variable of the environment points git elsewhere.
/// - `Config`: a line of a file is outside its grammar.
/// - `NoFile`: what stands at the path of a configuration, or of an included file, is no file, and
///   not the null device, which is an empty one.
/// - `Include`: a key that includes a file has no value.
/// - `Home`: the path of an included file begins with `~`, and there is no home; it, or a condition
///   on the git directory, begins with `~USER` or `%(prefix)/`; or such a condition begins with
///   `~`, and the home is empty.
/// - `Condition`: an include asks for what the configuration says, by `hasconfig:remote.*.url:`.
/// - `Depth`: a file that is there is included behind ten others.
/// - `Value`: `GIT_CONFIG_NOSYSTEM` is no boolean, or the path of an included file has a NUL.
/// - `Fault`: the worktree failed, which it counted. No fault reads as "nothing is there".
/// - `OutOfMemory` for want of memory.
///
/// See docs/DIFFERENCES.md#configurations-of-git.
pub fn read_stack<W: Worktree>(
    alloc: Global,
    worktree: &mut W,
    places: &Places,
    around: &Surroundings,
) -> Result<Stack, FilesError>
    ensures { AnswersFromWorktree W.Worktree worktree.old worktree.new
        (λ t. words.read_stack_of_work_tree t places.now around.now) result }
{
    if let Some(name) = &around.elsewhere {
        return Err(elsewhere_error(alloc, name.as_bytes())?);
    }
    let files = config_files_of_work_tree(alloc, places, around)?;
    let known = include_context_of_work_tree(alloc, worktree, places, around)?;
    read_stack_of_files(alloc, worktree, &known, &files)
}
