//! The files of ignore rules that the words of `ls-files` name.
ghost use Rattle.std.specs.Prelude.{◌≡◌, [], true, IfOk, IfErr};
ghost use Rattle.worktree_fs.specs.Tree.{look};
ghost use Rattle.tizhagor.specs.ExcludeFiles as words;
ghost use Rattle.tizhagor.specs.Finds.{FindsHereResultOverToldTree};
ghost use Rattle.tizhagor.specs.Refusals.{MayComeBeforeSetupIsFound};

use crate::refusal::CommandRefusal;
use command_line::FilesAsked;
use git_setup::{Found, exempt_top_from_star_rules};
use gitbase_core::{Bytes, OutOfMemory, without_byte_order_mark};
use std::alloc::Global;
use worktree_fs::{ReadAnswer, Worktree, resolve_path_from_directory};

/// That a file of rules is not read.
fn refusal_unread_exclude_file(alloc: Global, name: &[u8]) -> Result<CommandRefusal, OutOfMemory>
    ensures { IfOk result (λ e. e ≡ CommandRefusal.ExcludeFile name.now) }
{
    Ok(CommandRefusal::ExcludeFile {
        name: Bytes::from_slice(alloc, name)?,
    })
}

/// Whether a path is that of the null device.
fn is_null_device(path: &[u8]) -> bool
    ensures { result ≡ words.is_null_device path.now }
{
    path == b"/dev/null".as_slice()
}

/// The rules of a device, a pipe or a socket: the null device has none.
fn empty_rules_or_special_file_refusal(
    alloc: Global,
    name: &[u8],
    path: &[u8],
) -> Result<Bytes, CommandRefusal>
    ensures gives { words.IsResultOrOutOfMemory result (words.empty_rules_or_special_file_refusal
        name.now path.now) }
    ensures of { IfErr result MayComeBeforeSetupIsFound }
{
    if is_null_device(path) {
        return Ok(Bytes::new(alloc));
    }
    Err(refusal_unread_exclude_file(alloc, name)?)
}

/// The rules of a file, without the byte order mark at the front.
fn rules_without_byte_order_mark(alloc: Global, bytes: &[u8]) -> Result<Bytes, OutOfMemory>
    ensures { IfOk result (λ rules. rules ≡ words.rules_without_byte_order_mark bytes.now) }
{
    Bytes::from_slice(alloc, without_byte_order_mark(bytes))
}

/// The rules of what is at a path.
fn read_rules_at_path<W: Worktree>(
    alloc: Global,
    worktree: &mut W,
    name: &[u8],
    path: &[u8],
) -> Result<Bytes, CommandRefusal>
    ensures finds { FindsHereResultOverToldTree W.Worktree worktree.old worktree.new
        (λ t. words.rules_or_refusal_by_lookup name.now path.now (look t path.now true)) result }
    ensures of { IfErr result MayComeBeforeSetupIsFound }
{
    let mut bytes = Bytes::new(alloc);
    match worktree.read(alloc, path, true, &mut bytes)? {
        ReadAnswer::Read => Ok(rules_without_byte_order_mark(alloc, bytes.as_bytes())?),
        ReadAnswer::Special => Ok(empty_rules_or_special_file_refusal(alloc, name, path)?),
        _ => Err(refusal_unread_exclude_file(alloc, name)?),
    }
}

/// The rules of a file that is named from the top of the work tree, which is at `root`.
fn read_rules_of_named_file<W: Worktree>(
    alloc: Global,
    worktree: &mut W,
    root: &[u8],
    name: &[u8],
) -> Result<Bytes, CommandRefusal>
    ensures finds { FindsHereResultOverToldTree W.Worktree worktree.old worktree.new
        (λ t. words.rules_of_named_file t root.now name.now) result }
    ensures of { IfErr result MayComeBeforeSetupIsFound }
{
    let path = resolve_path_from_directory(alloc, name, root)?;
    read_rules_at_path(alloc, worktree, name, path.as_bytes())
}

/// A text with the rules of one more file, behind a line feed.
fn append_rules_behind_newline(
    alloc: Global,
    text: Bytes,
    rules: &[u8],
) -> Result<Bytes, OutOfMemory>
    ensures { IfOk result (λ longer. longer ≡ words.append_rules_behind_newline text rules.now) }
{
    let mut text = text;
    text.extend(alloc, b"\n")?;
    text.extend(alloc, rules)?;
    Ok(text)
}

/// The rules of files that are named from the top of the work tree, in their order.
#[tactic(auto, unfolding(crate::specs::ExcludeFiles::rules_of_files_after_text))]
fn read_rules_of_named_files<W: Worktree>(
    alloc: Global,
    worktree: &mut W,
    root: &[u8],
    names: &[Bytes],
) -> Result<Bytes, CommandRefusal>
    ensures finds { FindsHereResultOverToldTree W.Worktree worktree.old worktree.new
        (λ t. words.rules_of_files_after_text t root.now [] names.now) result }
    ensures of { IfErr result MayComeBeforeSetupIsFound }
{
    let mut text = Bytes::new(alloc);
    for name in names {
        let rules = read_rules_of_named_file(alloc, worktree, root, name.as_bytes())?;
        text = append_rules_behind_newline(alloc, text, rules.as_bytes())?;
    }
    Ok(text)
}

/// The rules outside the directories: those of weaker files, the standard ones where they are asked
/// for, and those of stronger files.
fn join_outer_rules(
    alloc: Global,
    is_standard: bool,
    weaker: &[u8],
    standard: &[u8],
    stronger: &[u8],
) -> Result<Bytes, OutOfMemory>
    ensures { IfOk result (λ rules. rules
        ≡ words.join_outer_rules is_standard weaker.now standard.now stronger.now) }
{
    let mut text = Vec::new(alloc);
    text.extend_from_slice(weaker)?;
    text.push(b'\n')?;
    text.extend_from_slice(standard_rules_if_asked(is_standard, standard))?;
    text.extend_from_slice(stronger)?;
    text.push(b'\n')?;
    exempt_top_from_star_rules(alloc, &text)
}

/// The standard rules, where they are asked for.
fn standard_rules_if_asked(is_standard: bool, rules: &[u8]) -> &[u8]
    ensures { result.now ≡ words.standard_rules_if_asked is_standard rules.now }
{
    if is_standard {
        without_byte_order_mark(rules)
    } else {
        b""
    }
}

/// What is found, with these rules outside the directories.
fn found_with_outer_rules(found: Found, rules: Bytes) -> Found
    ensures { result ≡ words.found_with_outer_rules found rules }
{
    let mut found = found;
    found.setup.globals = rules;
    found
}

/// What is found, with the rules of two texts.
fn found_with_joined_rules(
    alloc: Global,
    wants: &FilesAsked,
    found: Found,
    weaker: &[u8],
    stronger: &[u8],
) -> Result<Found, OutOfMemory>
    ensures { IfOk result
        (λ here. here ≡ words.found_with_joined_rules wants.now found weaker.now stronger.now) }
{
    let rules = join_outer_rules(
        alloc,
        wants.listing.excludes_standard,
        weaker,
        found.setup.globals.as_bytes(),
        stronger,
    )?;
    Ok(found_with_outer_rules(found, rules))
}

/// What is found, with the rules of the files that the words name among those outside the
/// directories; of these the standard ones stay only where they are asked for. A name leads from
/// the top of the work tree.
///
/// # Errors
///
/// - `ExcludeFile`: nothing is at a name, or what is there is no file, and not the null device.
/// - `Program(Fault)`: the worktree failed, which it counted.
/// - `Program(OutOfMemory)` for want of memory.
///
/// See docs/DIFFERENCES.md#list-exclude-from.
#[tactic(auto, unfolding(crate::specs::ExcludeFiles::read_exclude_files_into_found))]
pub fn read_exclude_files_into_found<W: Worktree>(
    alloc: Global,
    worktree: &mut W,
    wants: &FilesAsked,
    found: Found,
) -> Result<Found, CommandRefusal>
    ensures finds { FindsHereResultOverToldTree W.Worktree worktree.old worktree.new
        (λ t. words.read_exclude_files_into_found t wants.now found) result }
    ensures of { IfErr result MayComeBeforeSetupIsFound }
{
    let weaker = read_rules_of_named_files(
        alloc,
        worktree,
        found.root.as_bytes(),
        &wants.rules.weaker,
    )?;
    let stronger = read_rules_of_named_files(
        alloc,
        worktree,
        found.root.as_bytes(),
        &wants.rules.stronger,
    )?;
    Ok(found_with_joined_rules(alloc, wants, found, weaker.as_bytes(), stronger.as_bytes())?)
}
