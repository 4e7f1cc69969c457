//! The branch of a submodule.
ghost use Rattle.std.specs.Prelude.{◌≡◌, ◌==◌, codes, count_by, option_copied, IfOk};
ghost use Rattle.std.specs.List.{list_any};
ghost use Rattle.submodule.specs.Branches as branches;
ghost use Rattle.submodule.specs.Gives.{BranchParseAgrees};
ghost use Rattle.submodule.specs.Access as access;
ghost use Rattle.submodule.specs.Answers as answers;
ghost use Rattle.submodule.specs.declared.branch.Branch.TheVariants as variants;
ghost use Rattle.submodule.specs.declared.branch.Error.TheVariants as refusals;
ghost use Rattle.submodule.specs.declared.branch.RefspecError.TheVariants as refspec_errors;

use crate::shown::lossy_text_of_bytes;
use crate::text::{contains, text_before_first_occurrence};
use gitbase_core::{Bytes, OutOfMemory};
use std::alloc::Global;

/// The branch that a submodule follows on its remote, as `submodule.NAME.branch` of gitmodules(5).
#[derive(Debug, Drop, PartialEq, Eq, PartialOrd, Ord, Hash)]
pub enum Branch {
    /// The one that is checked out in the superproject.
    CurrentInSuperproject,
    /// The one of this name.
    Name(Bytes),
}

/// Why a text names no branch.
#[derive(Clone, Copy, Debug, PartialEq, Eq, thiserror::Error)]
pub enum RefspecError {
    /// It is no name.
    #[error("Invalid")]
    Invalid,
    /// Want of memory.
    #[error("OutOfMemory")]
    OutOfMemory,
}

impl From<OutOfMemory> for RefspecError {
    ghost use Rattle.std.specs.Prelude.{◌≡◌};
    ghost use Rattle.submodule.specs.declared.branch.RefspecError.TheVariants as refspec_errors;

    ghost from_gives = { λ _ e. e ≡ refspec_errors.OutOfMemory };

    fn from(_refused: OutOfMemory) -> RefspecError {
        RefspecError::OutOfMemory
    }
}

/// Why a submodule has no branch.
#[derive(Debug, Drop, PartialEq, Eq, thiserror::Error)]
pub enum Error {
    /// Its value names none.
    #[error("The value '{}' of the 'branch' field of submodule '{}' couldn't be turned into a valid fetch refspec", lossy_text_of_bytes(.actual), lossy_text_of_bytes(.submodule))]
    Refspec {
        /// The name of the submodule.
        submodule: Bytes,
        /// The value.
        actual: Bytes,
        /// Why the value names none.
        source: RefspecError,
    },
    /// Want of memory.
    #[error("OutOfMemory")]
    OutOfMemory,
}

impl From<OutOfMemory> for Error {
    ghost use Rattle.std.specs.Prelude.{◌≡◌};
    ghost use Rattle.submodule.specs.declared.branch.Error.TheVariants as refusals;

    ghost from_gives = { λ _ e. e ≡ refusals.OutOfMemory };

    fn from(_refused: OutOfMemory) -> Error {
        Error::OutOfMemory
    }
}

impl Branch {
    /// The branch of a submodule that names none: `HEAD`.
    /// See docs/DIFFERENCES.md#gix-default-branch.
    pub fn default_branch(alloc: Global) -> Result<Branch, OutOfMemory>
        ensures { IfOk result (λ branch. branch ≡ variants.Name (codes "HEAD")) }
    {
        Ok(Branch::Name(Bytes::from_slice(alloc, b"HEAD")?))
    }

    /// The branch that a text names. `.` is the one that is checked out in the superproject.
    ///
    /// Any other text is read as what is fetched: behind one optional `+`, what stands before the
    /// first `:` is the name, and no name is `HEAD`.
    ///
    /// # Errors
    ///
    /// - `Invalid` exactly where the name has a control byte, a blank, one of `~^?[\`, `..`, `@{`,
    ///   `//`, a slash at either end, a `.` or `.lock` at its end, a component that begins with a
    ///   `.`, or two `*`.
    /// - `OutOfMemory` for want of memory.
    ///
    /// See docs/DIFFERENCES.md#gix-branch.
    pub fn try_from(alloc: Global, value: &[u8]) -> Result<Branch, RefspecError>
        ensures { BranchParseAgrees result (branches.parse_branch value.now) }
    {
        if value == b".".as_slice() {
            return Ok(Branch::CurrentInSuperproject);
        }
        branch_of_refspec_source(alloc, refspec_source(value))
    }
}

fn without_leading_plus(text: &[u8]) -> &[u8]
    ensures { result.now ≡ branches.without_leading_plus text.now }
{
    match text {
        [b'+', after @ ..] => after,
        _ => text,
    }
}

/// The name in what is fetched.
/// See docs/DECISIONS.md#branch-as-fetched.
/// See docs/DIFFERENCES.md#branch-colon.
/// See docs/DIFFERENCES.md#branch-plus.
fn refspec_source(text: &[u8]) -> &[u8]
    ensures { result.now ≡ branches.refspec_source text.now }
{
    text_before_first_occurrence(b':', without_leading_plus(text))
}

/// The branch of a name.
fn branch_of_refspec_source(alloc: Global, name: &[u8]) -> Result<Branch, RefspecError>
    ensures { BranchParseAgrees result (branches.branch_of_refspec_source name.now) }
{
    if let [] = name {
        return Ok(Branch::default_branch(alloc)?);
    }
    if is_invalid_ref_name(name) {
        return Err(RefspecError::Invalid);
    }
    Ok(Branch::Name(Bytes::from_slice(alloc, name)?))
}

/// A control byte, a blank, or one of `~^?[\`.
fn is_forbidden_ref_name_byte(byte: u8) -> bool
    ensures { result ≡ branches.is_forbidden_ref_name_byte byte }
{
    byte <= b' ' || matches!(byte, 0x7f | b'~' | b'^' | b'?' | b'[' | b'\\')
}

fn has_forbidden_ref_name_byte(name: &[u8]) -> bool
    ensures { result ≡ list_any branches.is_forbidden_ref_name_byte name.now }
{
    name.iter().any(|byte| is_forbidden_ref_name_byte(*byte))
}

/// `..`, `@{`, `//`, or a component behind a slash that begins with a dot.
fn has_forbidden_ref_name_part(name: &[u8]) -> bool
    ensures { result ≡ branches.has_forbidden_ref_name_part name.now }
{
    contains(b"..", name) || contains(b"@{", name) || contains(b"//", name) || contains(b"/.", name)
}

/// A slash or a dot at the start.
fn has_forbidden_ref_name_start(name: &[u8]) -> bool
    ensures { result ≡ branches.has_forbidden_ref_name_start name.now }
{
    name.starts_with(b"/") || name.starts_with(b".")
}

/// A slash, a dot or `.lock` at the end.
/// See docs/DIFFERENCES.md#branch-lock.
fn has_forbidden_ref_name_end(name: &[u8]) -> bool
    ensures { result ≡ branches.has_forbidden_ref_name_end name.now }
{
    name.ends_with(b"/") || name.ends_with(b".") || name.ends_with(b".lock")
}

fn count_of_stars(name: &[u8]) -> usize
    ensures { result ≡ count_by (λ b. b == 42) name.now }
{
    name.iter().filter(|byte| **byte == b'*').count()
}

fn has_several_stars(name: &[u8]) -> bool
    ensures { result ≡ branches.has_several_stars name.now }
{
    count_of_stars(name) >= 2
}

fn is_invalid_ref_name(name: &[u8]) -> bool
    ensures { result ≡ branches.is_invalid_ref_name name.now }
{
    has_forbidden_ref_name_byte(name)
        || has_forbidden_ref_name_part(name)
        || has_forbidden_ref_name_start(name)
        || has_forbidden_ref_name_end(name)
        || has_several_stars(name)
}

fn refspec_error_of_submodule(
    alloc: Global,
    name: &[u8],
    value: &[u8],
) -> Result<Error, OutOfMemory>
    ensures { IfOk result (λ e. e ≡ refusals.Refspec name.now value.now refspec_errors.Invalid) }
{
    Ok(Error::Refspec {
        submodule: Bytes::from_slice(alloc, name)?,
        actual: Bytes::from_slice(alloc, value)?,
        source: RefspecError::Invalid,
    })
}

/// The branch that a value names, if there is one.
pub(crate) fn branch_of_optional_value(
    alloc: Global,
    name: &[u8],
    value: Option<&[u8]>,
) -> Result<Option<Branch>, Error>
    ensures { answers.BranchFieldResultAgrees result (access.branch_of_optional_value name.now
        (option_copied value.entry)) }
{
    let Some(value) = value else {
        return Ok(None);
    };
    match Branch::try_from(alloc, value) {
        Ok(branch) => Ok(Some(branch)),
        Err(RefspecError::Invalid) => Err(refspec_error_of_submodule(alloc, name, value)?),
        Err(RefspecError::OutOfMemory) => Err(Error::OutOfMemory),
    }
}
