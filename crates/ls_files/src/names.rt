//! How paths are written.
ghost use Rattle.std.specs.Prelude.{◌≡◌, ◌++◌, OnOk};
ghost use Rattle.ls_files.specs.Lines as lines;

use crate::options::Listing;
use git_paths::{append_path_quoted_if_needed, path_relative_to_prefix};
use gitbase_core::OutOfMemory;
use std::alloc::Global;

/// The directory from which paths read.
fn prefix_unless_full_names<'a>(listing: &Listing, prefix: &'a [u8]) -> &'a [u8]
    ensures { result.now ≡ lines.prefix_unless_full_names listing.now prefix.now }
{
    if listing.full_names { b"" } else { prefix }
}

/// Adds a path as it reads from the current directory, and what ends it.
pub fn append_relative_path_line(
    alloc: Global,
    text: &mut Vec<u8>,
    listing: &Listing,
    prefix: &[u8],
    path: &[u8],
) -> Result<(), OutOfMemory>
    ensures { OnOk result (text.new.items
        ≡ text.old.items ++ lines.relative_path_line listing.now prefix.now path.now) }
{
    let name = path_relative_to_prefix(alloc, path, prefix_unless_full_names(listing, prefix))?;
    if listing.ends_in_nul {
        text.extend_from_slice(name.as_bytes())?;
        text.push(0)?;
        return Ok(());
    }
    append_path_quoted_if_needed(text, name.as_bytes(), listing.quote_path)?;
    text.push(b'\n')?;
    Ok(())
}
