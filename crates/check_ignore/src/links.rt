//! Links on the way to paths that are asked about.
ghost use Rattle.std.specs.Prelude.{◌≡◌, [], Ok, IfOk};
ghost use Rattle.gitbase_core.specs.Path.{path_joined_with_slash};
ghost use Rattle.check_ignore.specs.Finds.{AnswersUnlessOutOfMemory, FindsInTree};
ghost use Rattle.check_ignore.specs.Links as words;

use crate::asked::{AskedPath, AskedPaths, parse_asked_path, path_with_slash_if_directory};
use crate::stop::Stop;
use gitbase_core::{Bytes, OutOfMemory, PathText};
use std::alloc::Global;
use worktree_fs::{NodeKind, Worktree};

/// A path of the work tree as a whole.
fn path_joined_to_root(alloc: Global, root: &[u8], path: &[u8]) -> Result<PathText, OutOfMemory>
    ensures { IfOk result (λ whole. whole ≡ path_joined_with_slash root.now path.now) }
{
    let mut whole = PathText::from_bytes(alloc, root)?;
    whole.push_component(alloc, path)?;
    Ok(whole)
}

fn is_symlink_kind(kind: Option<NodeKind>) -> bool
    ensures { result ≡ words.is_symlink_kind kind }
{
    match kind {
        None => false,
        Some(NodeKind::File) => false,
        Some(NodeKind::Symlink) => true,
        Some(NodeKind::Directory) => false,
        Some(NodeKind::Untrackable) => false,
    }
}

fn is_directory_kind(kind: Option<NodeKind>) -> bool
    ensures { result ≡ words.is_directory_kind kind }
{
    match kind {
        None => false,
        Some(NodeKind::File) => false,
        Some(NodeKind::Symlink) => false,
        Some(NodeKind::Directory) => true,
        Some(NodeKind::Untrackable) => false,
    }
}

/// Whether a directory stands at a path of the work tree, by itself.
pub fn is_directory_below_root<W: Worktree>(
    alloc: Global,
    worktree: &mut W,
    root: &[u8],
    path: &[u8],
) -> Result<bool, Stop>
    ensures { FindsInTree W.Worktree worktree.old worktree.new
        (λ t. Ok (words.is_directory_kind (words.kind_below_root_unfollowed t root.now path.now)))
        result }
{
    let whole = path_joined_to_root(alloc, root, path)?;
    let kind = worktree.kind(alloc, whole.as_bytes())?;
    Ok(is_directory_kind(kind))
}

/// Whether a link does.
fn is_symlink_below_root<W: Worktree>(
    alloc: Global,
    worktree: &mut W,
    root: &[u8],
    path: &[u8],
) -> Result<bool, Stop>
    ensures { FindsInTree W.Worktree worktree.old worktree.new
        (λ t. words.is_symlink_below_root t root.now path.now) result }
{
    let whole = path_joined_to_root(alloc, root, path)?;
    let kind = worktree.kind(alloc, whole.as_bytes())?;
    Ok(is_symlink_kind(kind))
}

/// The directories above a path, the highest first.
fn directories_above_path(alloc: Global, path: &[u8]) -> Result<Vec<Bytes>, OutOfMemory>
    ensures { IfOk result (λ above. above.items ≡ words.directories_above_path path.now) }
{
    let mut above = Vec::new(alloc);
    let mut at = 0;
    while at < path.len() {
        if path[at] == b'/' {
            above.push(Bytes::from_slice(alloc, &path[..at])?)?;
        }
        at += 1;
    }
    Ok(above)
}

/// Whether a link stands at one of some directories. What lies behind it is not looked at.
fn is_any_directory_symlink<W: Worktree>(
    alloc: Global,
    worktree: &mut W,
    root: &[u8],
    directories: &[Bytes],
) -> Result<bool, Stop>
    ensures { FindsInTree W.Worktree worktree.old worktree.new
        (λ t. words.is_any_directory_symlink t root.now directories.now) result }
{
    for directory in directories {
        if is_symlink_below_root(alloc, worktree, root, directory.as_bytes())? {
            return Ok(true);
        }
    }
    Ok(false)
}

/// Whether a link stands above a path.
fn is_behind_symlink<W: Worktree>(
    alloc: Global,
    worktree: &mut W,
    root: &[u8],
    path: &[u8],
) -> Result<bool, Stop>
    ensures { FindsInTree W.Worktree worktree.old worktree.new
        (λ t. words.is_behind_symlink t root.now path.now) result }
{
    let above = directories_above_path(alloc, path)?;
    is_any_directory_symlink(alloc, worktree, root, &above)
}

/// A path that is asked about, unless a link stands above it.
fn refuse_path_behind_link<W: Worktree>(
    alloc: Global,
    worktree: &mut W,
    root: &[u8],
    asked: AskedPath,
) -> Result<AskedPath, Stop>
    ensures { FindsInTree W.Worktree worktree.old worktree.new
        (λ t. words.refuse_path_behind_link t root.now asked) result }
{
    let named = path_with_slash_if_directory(alloc, asked.path.as_bytes(), asked.names_directory)?;
    if is_behind_symlink(alloc, worktree, root, named.as_bytes())? {
        return Err(Stop::Beyond { text: asked.text });
    }
    Ok(asked)
}

/// A path that is asked about in the directory `prefix`, unless a link stands above it.
fn parse_asked_path_not_behind_link<W: Worktree>(
    alloc: Global,
    worktree: &mut W,
    root: &[u8],
    prefix: &[u8],
    text: &[u8],
) -> Result<AskedPath, Stop>
    ensures { FindsInTree W.Worktree worktree.old worktree.new
        (λ t. words.parse_asked_path_not_behind_link t root.now prefix.now text.now) result }
{
    let asked = parse_asked_path(alloc, root, prefix, text)?;
    refuse_path_behind_link(alloc, worktree, root, asked)
}

/// That none of some paths is empty.
fn require_no_empty_paths(texts: &[Bytes]) -> Result<bool, Stop>
    ensures { AnswersUnlessOutOfMemory result (words.require_no_empty_paths texts.now) }
{
    for text in texts {
        if text.as_bytes().is_empty() {
            return Err(Stop::Empty);
        }
    }
    Ok(true)
}

/// Some paths that are asked about in the directory `prefix`.
fn parse_asked_paths<W: Worktree>(
    alloc: Global,
    worktree: &mut W,
    root: &[u8],
    prefix: &[u8],
    texts: &[Bytes],
) -> Result<AskedPaths, Stop>
    ensures { FindsInTree W.Worktree worktree.old worktree.new
        (λ t. words.append_parsed_asked_paths t root.now prefix.now [] texts.now) result }
{
    let mut done = AskedPaths::new(alloc);
    for text in texts {
        let asked = parse_asked_path_not_behind_link(
            alloc,
            worktree,
            root,
            prefix,
            text.as_bytes(),
        )?;
        done.push(asked)?;
    }
    Ok(done)
}

/// The same, if none is empty.
#[tactic(auto, unfolding(crate::specs::Links::parse_nonempty_asked_paths))]
pub fn parse_nonempty_asked_paths<W: Worktree>(
    alloc: Global,
    worktree: &mut W,
    root: &[u8],
    prefix: &[u8],
    texts: &[Bytes],
) -> Result<AskedPaths, Stop>
    ensures { FindsInTree W.Worktree worktree.old worktree.new
        (λ t. words.parse_nonempty_asked_paths t root.now prefix.now texts.now) result }
{
    require_no_empty_paths(texts)?;
    parse_asked_paths(alloc, worktree, root, prefix, texts)
}
