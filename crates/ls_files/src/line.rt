//! The lines of paths.
ghost use Rattle.std.specs.Prelude.{◌≡◌, ◌++◌, ℕ, ◌+◌, ◌%◌, OnOk};
ghost use Rattle.gitbase_core.specs.Entry.{mode_bits};
ghost use Rattle.ls_files.specs.Choices as choices;
ghost use Rattle.ls_files.specs.Lines as lines;

use crate::names::append_relative_path_line;
use crate::options::Listing;
use crate::shown::{ShownEntry, Sign};
use gitbase_core::{Flags, IndexEntry, Mode, OutOfMemory};
use std::alloc::Global;

/// Whether stages are shown.
pub fn lists_stages(listing: &Listing) -> bool
    ensures { result ≡ choices.lists_stages listing.now }
{
    listing.stages || listing.unmerged
}

/// Adds the letter of a path, where letters are shown.
fn append_tag_if_shown(text: &mut Vec<u8>, listing: &Listing, letter: u8) -> Result<(), OutOfMemory>
    ensures { OnOk result (text.new.items ≡ text.old.items ++ lines.tag_if_shown listing.now
        letter) }
{
    if listing.tags | listing.valid {
        text.push(letter)?;
        text.push(b' ')?;
    }
    Ok(())
}

/// The letter of an entry.
fn tag_letter_of_entry(entry: &IndexEntry) -> u8
    ensures { result ≡ lines.tag_letter_of_entry entry.now }
{
    if entry.stage != 0 {
        return b'M';
    }
    if entry.flags.contains(Flags::SKIP_WORKTREE) {
        return b'S';
    }
    b'H'
}

/// Whether the letter of an entry is a small one.
fn is_tag_lowercase(listing: &Listing, entry: &IndexEntry) -> bool
    ensures { result ≡ lines.is_tag_lowercase listing.now entry.now }
{
    listing.valid & entry.flags.contains(Flags::ASSUME_VALID)
}

/// The letter of an entry, as it is shown.
fn tag_letter_with_case(listing: &Listing, entry: &IndexEntry) -> u8
    ensures { result ≡ lines.tag_letter_with_case listing.now entry.now }
{
    if is_tag_lowercase(listing, entry) {
        return lowercase_tag_of_entry(entry);
    }
    tag_letter_of_entry(entry)
}

/// The letter of an entry, as a small one.
fn lowercase_tag_of_entry(entry: &IndexEntry) -> u8
    ensures { result ≡ lines.tag_letter_of_entry entry.now + 32 }
{
    tag_letter_of_entry(entry) + 32
}

/// The last octal digit of a number.
fn last_octal_digit(number: u32) -> u8
    ensures { result ≡ lines.last_octal_digit number }
{
    b'0' + (number % 8) as u8
}

/// Adds a mode.
fn append_mode_octal(text: &mut Vec<u8>, mode: Mode) -> Result<(), OutOfMemory>
    ensures { OnOk result (text.new.items ≡ text.old.items ++ lines.mode_octal_digits
        (mode_bits mode)) }
{
    let bits = mode.bits();
    text.push(last_octal_digit(bits / 32768))?;
    text.push(last_octal_digit(bits / 4096))?;
    text.push(last_octal_digit(bits / 512))?;
    text.push(last_octal_digit(bits / 64))?;
    text.push(last_octal_digit(bits / 8))?;
    text.push(last_octal_digit(bits))?;
    Ok(())
}

/// Adds the mode, the object and the stage of an entry.
fn append_mode_id_and_stage(
    alloc: Global,
    text: &mut Vec<u8>,
    entry: &IndexEntry,
) -> Result<(), OutOfMemory>
    ensures { OnOk result (text.new.items ≡ text.old.items ++ lines.mode_id_and_stage entry.now) }
{
    append_mode_octal(text, entry.mode)?;
    text.push(b' ')?;
    text.extend_from_slice(&entry.id.to_hex())?;
    let stage = entry.stage;
    let words = format!(in alloc; " {stage}\t")?;
    text.extend_from_slice(words.as_bytes())?;
    Ok(())
}

/// Adds them, where stages are shown.
fn append_mode_id_stage_if_listed(
    alloc: Global,
    text: &mut Vec<u8>,
    listing: &Listing,
    entry: &IndexEntry,
) -> Result<(), OutOfMemory>
    ensures { OnOk result (text.new.items
        ≡ text.old.items ++ lines.mode_id_stage_if_listed listing.now entry.now) }
{
    if !lists_stages(listing) {
        return Ok(());
    }
    append_mode_id_and_stage(alloc, text, entry)
}

/// Adds the line of an entry.
#[tactic(auto, unfolding(crate::specs::Lines::line_of_index_entry))]
pub fn append_index_entry_line(
    alloc: Global,
    text: &mut Vec<u8>,
    listing: &Listing,
    prefix: &[u8],
    entry: &IndexEntry,
) -> Result<(), OutOfMemory>
    ensures { OnOk result (text.new.items
        ≡ text.old.items ++ lines.line_of_index_entry listing.now prefix.now entry.now) }
{
    append_tag_if_shown(text, listing, tag_letter_with_case(listing, entry))?;
    append_mode_id_stage_if_listed(alloc, text, listing, entry)?;
    append_relative_path_line(alloc, text, listing, prefix, entry.path.as_bytes())
}

/// Adds the line of a path that the index does not have.
pub fn append_untracked_line(
    alloc: Global,
    text: &mut Vec<u8>,
    listing: &Listing,
    prefix: &[u8],
    path: &[u8],
) -> Result<(), OutOfMemory>
    ensures { OnOk result (text.new.items
        ≡ text.old.items ++ lines.line_of_untracked_path listing.now prefix.now path.now) }
{
    append_tag_if_shown(text, listing, b'?')?;
    append_relative_path_line(alloc, text, listing, prefix, path)
}

/// Adds the line of a path that lies in the way of the index.
pub fn append_killed_line(
    alloc: Global,
    text: &mut Vec<u8>,
    listing: &Listing,
    prefix: &[u8],
    path: &[u8],
) -> Result<(), OutOfMemory>
    ensures { OnOk result (text.new.items
        ≡ text.old.items ++ lines.line_of_killed_path listing.now prefix.now path.now) }
{
    append_tag_if_shown(text, listing, b'K')?;
    append_relative_path_line(alloc, text, listing, prefix, path)
}

/// The letter of an entry, by as what it is shown.
fn tag_letter_of_kept_gone_modified(sign: Sign, entry: &IndexEntry) -> u8
    ensures { result ≡ lines.tag_letter_of_kept_gone_modified sign entry.now }
{
    match sign {
        Sign::Kept => tag_letter_of_entry(entry),
        Sign::Gone => b'R',
        Sign::Modified => b'C',
    }
}

/// The same as a small one.
fn lowercase_tag_of_kept_gone_modified(sign: Sign, entry: &IndexEntry) -> u8
    ensures { result ≡ lines.tag_letter_of_kept_gone_modified sign entry.now + 32 }
{
    match sign {
        Sign::Kept => lowercase_tag_of_entry(entry),
        Sign::Gone => b'r',
        Sign::Modified => b'c',
    }
}

/// The letter of an entry, as it is shown.
fn tag_letter_of_shown(listing: &Listing, shown: &ShownEntry<'_>) -> u8
    ensures { result ≡ lines.tag_letter_of_shown listing.now shown.now }
{
    if is_tag_lowercase(listing, shown.entry()) {
        return lowercase_tag_of_kept_gone_modified(shown.kept_gone_or_modified(), shown.entry());
    }
    tag_letter_of_kept_gone_modified(shown.kept_gone_or_modified(), shown.entry())
}

/// Adds the line of an entry, by as what it is shown.
#[tactic(auto, unfolding(crate::specs::Lines::line_of_shown_entry))]
pub fn append_shown_entry_line(
    alloc: Global,
    text: &mut Vec<u8>,
    listing: &Listing,
    prefix: &[u8],
    shown: &ShownEntry<'_>,
) -> Result<(), OutOfMemory>
    ensures { OnOk result (text.new.items
        ≡ text.old.items ++ lines.line_of_shown_entry listing.now prefix.now shown.now) }
{
    let entry = shown.entry();
    append_tag_if_shown(text, listing, tag_letter_of_shown(listing, shown))?;
    append_mode_id_stage_if_listed(alloc, text, listing, entry)?;
    append_relative_path_line(alloc, text, listing, prefix, entry.path.as_bytes())
}
