//! The path specs of a setup.
ghost use Rattle.std.specs.Prelude.{◌≡◌, map, IfOk};
ghost use Rattle.worktree_report.specs.SetupSpecs.{parse_spec, is_valid_spec, parse_valid_specs};

use gitbase_core::{Bytes, OutOfMemory};
use glob_rules::pathspec::{Defaults, Error, Search, Spec};
use std::alloc::Global;

/// The path spec of a text, where it is one.
fn parse_spec(alloc: Global, ignore_case: bool, text: &[u8]) -> Result<Option<Spec>, OutOfMemory>
    ensures { IfOk result (λ spec. spec ≡ parse_spec ignore_case text.now) }
{
    match Spec::parse(alloc, text, Defaults { ignore_case }) {
        Ok(spec) => Ok(Some(spec)),
        Err(Error::Parse { at: _ }) => Ok(None),
        Err(Error::Normalize) => Ok(None),
        Err(Error::OutOfMemory) => Err(OutOfMemory),
    }
}

/// Whether a text is a path spec, whether letters fold or not.
///
/// See docs/DECISIONS.md#spec-line.
pub fn is_valid_spec(alloc: Global, text: &[u8]) -> Result<bool, OutOfMemory>
    ensures { IfOk result (λ is. is ≡ is_valid_spec text.now) }
{
    let plain = parse_spec(alloc, false, text)?;
    let folded = parse_spec(alloc, true, text)?;
    Ok(plain.is_some() && folded.is_some())
}

/// The path specs of some texts, in their order.
pub fn search_from_spec_texts(
    alloc: Global,
    ignore_case: bool,
    texts: &[Bytes],
) -> Result<Search, OutOfMemory>
    ensures { IfOk result (λ specs. specs ≡ parse_valid_specs ignore_case texts.now) }
{
    let mut specs = Vec::new(alloc);
    for text in texts {
        if let Some(spec) = parse_spec(alloc, ignore_case, text.as_bytes())? {
            specs.push(spec)?;
        }
    }
    Ok(Search::from_specs(specs))
}
