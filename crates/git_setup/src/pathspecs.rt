//! The path specs that are asked for.
ghost use Rattle.std.specs.Prelude.{◌≡◌, [], IfOk, OnOk, ◌++◌, ◌∷◌};
ghost use Rattle.glob_rules.specs.PathSpecText.{parse_path_spec};
ghost use Rattle.git_setup.specs.AskedSpecs as words;
ghost use Rattle.git_setup.specs.Finds.{IsFoundOrRefusesMemory};

use crate::each::{AskedSpec, EachSpec};
use crate::error::GitRefusal;
use crate::placed::{outside_path_refusal, path_below_root, resolve_pathspec_from_top};
use crate::written::{Written, pathspecs_with_implied_current_directory};
use gitbase_core::{Bytes, OutOfMemory, PathText};
use glob_rules::pathspec::{Defaults, Error, Search, Spec};
use std::alloc::Global;

/// The path specs that are asked for.
#[derive(Debug, Drop)]
pub struct AskedSpecs {
    /// All of them together, from the top of the work tree.
    pub all: Search,
    /// Each by itself.
    pub each: EachSpec,
}

/// The refusal of a text that is no path spec.
fn refusal_text_is_no_pathspec(alloc: Global, text: &[u8]) -> Result<GitRefusal, OutOfMemory>
    ensures { IfOk result (λ e. e ≡ GitRefusal.PathSpec text.now) }
{
    Ok(GitRefusal::PathSpec {
        text: Bytes::from_slice(alloc, text)?,
    })
}

/// The path spec of a whole text; `text` is what was asked for.
fn parse_resolved_pathspec(
    alloc: Global,
    ignore_case: bool,
    text: &[u8],
    whole: &[u8],
) -> Result<Spec, GitRefusal>
    ensures { IsFoundOrRefusesMemory result (words.parsed_spec_or_refusal text.now
        (parse_path_spec ignore_case whole.now)) }
{
    match Spec::parse(alloc, whole, Defaults { ignore_case }) {
        Ok(spec) => Ok(spec),
        Err(Error::Parse { at: _ }) => Err(refusal_text_is_no_pathspec(alloc, text)?),
        Err(Error::Normalize) => Err(outside_path_refusal(alloc, text)?),
        Err(Error::OutOfMemory) => Err(GitRefusal::OutOfMemory),
    }
}

/// The path spec of a text from a directory of the work tree.
fn parse_pathspec_from_prefix(
    alloc: Global,
    ignore_case: bool,
    root: &[u8],
    prefix: &[u8],
    text: &[u8],
) -> Result<Spec, GitRefusal>
    ensures { IsFoundOrRefusesMemory result (words.parse_pathspec_from_prefix ignore_case root.now
        prefix.now text.now) }
{
    let whole = resolve_pathspec_from_top(alloc, root, prefix, text)?;
    parse_resolved_pathspec(alloc, ignore_case, text, whole.as_bytes())
}

/// Adds a path spec at the end.
fn push(done: &mut Vec<Spec>, spec: Spec) -> Result<(), OutOfMemory>
    ensures { OnOk result (done.new.items ≡ done.old.items ++ spec ∷ []) }
{
    done.push(spec)?;
    Ok(())
}

/// The path specs of some texts from a directory of the work tree.
fn parse_all_pathspecs(
    alloc: Global,
    ignore_case: bool,
    root: &[u8],
    prefix: &[u8],
    written: &[Written],
) -> Result<Search, GitRefusal>
    ensures { IsFoundOrRefusesMemory result
        (words.parse_all_pathspecs ignore_case root.now prefix.now [] written.now) }
{
    let mut done = Vec::new(alloc);
    for one in written {
        let spec = parse_pathspec_from_prefix(
            alloc,
            ignore_case,
            root,
            prefix,
            one.text.as_bytes(),
        )?;
        push(&mut done, spec)?;
    }
    Ok(Search::from_specs(done))
}

/// A path spec by itself, with what tells of it.
fn single_spec_with_text(alloc: Global, told: &[u8], spec: Spec) -> Result<AskedSpec, OutOfMemory>
    ensures { IfOk result (λ asked. asked ≡ words.single_spec_with_text told.now spec) }
{
    let mut specs = Vec::new(alloc);
    specs.push(spec)?;
    Ok(AskedSpec {
        text: Bytes::from_slice(alloc, told)?,
        spec: Search::from_specs(specs),
    })
}

/// The path spec of a text from a directory of the work tree, by itself.
fn parse_single_spec_with_text(
    alloc: Global,
    ignore_case: bool,
    root: &[u8],
    prefix: &[u8],
    one: &Written,
) -> Result<AskedSpec, GitRefusal>
    ensures { IsFoundOrRefusesMemory result (words.parse_single_spec_with_text ignore_case root.now
        prefix.now one.now) }
{
    let spec = parse_pathspec_from_prefix(alloc, ignore_case, root, prefix, one.text.as_bytes())?;
    Ok(single_spec_with_text(alloc, one.told.as_bytes(), spec)?)
}

/// Those of some texts, each by itself.
fn parse_each_pathspec_alone(
    alloc: Global,
    ignore_case: bool,
    root: &[u8],
    prefix: &[u8],
    written: &[Written],
) -> Result<EachSpec, GitRefusal>
    ensures { IsFoundOrRefusesMemory result
        (words.parse_each_pathspec_alone ignore_case root.now prefix.now [] written.now) }
{
    let mut done = EachSpec::new(alloc);
    for one in written {
        let alone = parse_single_spec_with_text(alloc, ignore_case, root, prefix, one)?;
        done.push(alone)?;
    }
    Ok(done)
}

/// Those of some texts, together and each by itself.
#[tactic(auto, unfolding(crate::specs::AskedSpecs::parse_specs_together_and_each))]
fn parse_specs_together_and_each(
    alloc: Global,
    ignore_case: bool,
    root: &[u8],
    prefix: &[u8],
    written: &[Written],
) -> Result<AskedSpecs, GitRefusal>
    ensures { IsFoundOrRefusesMemory result (words.parse_specs_together_and_each ignore_case
        root.now prefix.now written.now) }
{
    let all = parse_all_pathspecs(alloc, ignore_case, root, prefix, written)?;
    let each = parse_each_pathspec_alone(alloc, ignore_case, root, prefix, written)?;
    Ok(AskedSpecs { all, each })
}

/// The refusal of paths that are asked for from a directory that is not in the work tree.
fn refusal_outside_root(
    alloc: Global,
    directory: &[u8],
    root: &[u8],
) -> Result<GitRefusal, OutOfMemory>
    ensures { IfOk result (λ e. e ≡ GitRefusal.OutsideRoot directory.now root.now) }
{
    Ok(GitRefusal::OutsideRoot {
        directory: PathText::from_bytes(alloc, directory)?,
        root: PathText::from_bytes(alloc, root)?,
    })
}

/// Whether the directory has to be in the work tree.
fn needs_directory_in_work_tree(prefers: bool, texts: &[Bytes]) -> bool
    ensures { result ≡ words.needs_directory_in_work_tree prefers texts.now }
{
    match texts {
        [] => prefers,
        _ => true,
    }
}

/// Those of some texts from the directory `prefix` of the work tree.
fn parse_specs_in_prefix(
    alloc: Global,
    prefers: bool,
    ignore_case: bool,
    root: &[u8],
    prefix: &[u8],
    texts: &[Bytes],
) -> Result<AskedSpecs, GitRefusal>
    ensures { IsFoundOrRefusesMemory result (words.parse_specs_together_and_each ignore_case
        root.now prefix.now (words.pathspecs_with_implied_current_directory prefers prefix.now
        texts.now)) }
{
    let written = pathspecs_with_implied_current_directory(alloc, prefers, prefix, texts)?;
    parse_specs_together_and_each(alloc, ignore_case, root, prefix, &written)
}

/// The path specs of some texts, asked for from a directory of the work tree at `root`. Where
/// `prefers` says so, the directory is meant if there are none, and if each excludes.
pub fn parse_pathspec_arguments(
    alloc: Global,
    prefers: bool,
    ignore_case: bool,
    root: &[u8],
    directory: &[u8],
    texts: &[Bytes],
) -> Result<AskedSpecs, GitRefusal>
    ensures { IsFoundOrRefusesMemory result
        (words.parse_pathspec_arguments prefers ignore_case root.now directory.now texts.now) }
{
    if !needs_directory_in_work_tree(prefers, texts) {
        return Ok(AskedSpecs {
            all: Search::from_specs(Vec::new(alloc)),
            each: EachSpec::new(alloc),
        });
    }
    match path_below_root(root, directory) {
        Some(prefix) => parse_specs_in_prefix(alloc, prefers, ignore_case, root, prefix, texts),
        None => Err(refusal_outside_root(alloc, directory, root)?),
    }
}
