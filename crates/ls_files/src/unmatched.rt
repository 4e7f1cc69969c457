//! Path specs that no path is matched by.
ghost use Rattle.std.specs.Prelude.{◌≡◌, ◌++◌, map, IfOk, OnOk};
ghost use Rattle.ls_files.specs.Unmatched as words;

use crate::options::NamedSpec;
use crate::place::Place;
use gitbase_core::{Bytes, OutOfMemory};
use glob_rules::pathspec::{Match, Matcher};
use std::alloc::Global;

/// Whether a match is by a spec that excludes.
fn is_match_by_exclusion(found: Match) -> bool
    ensures { result ≡ words.is_match_by_exclusion found }
{
    found.excluded || found.sequence_number == 0
}

/// How a spec alone matches a path.
fn match_of_single_spec(place: &Place<'_>, named: &NamedSpec) -> Option<Match>
    ensures { result ≡ words.match_of_single_spec place.now named.now }
{
    let is_dir = place.is_directory_path();
    named
        .spec
        .pattern_matching_relative_path(place.path(), Some(is_dir))
}

/// Whether a spec that does not exclude matches a path.
fn does_single_spec_include_place(place: &Place<'_>, named: &NamedSpec) -> bool
    ensures { result ≡ words.does_single_spec_include_place place.now named.now }
{
    match match_of_single_spec(place, named) {
        Some(found) => !is_match_by_exclusion(found),
        None => false,
    }
}

/// Whether one of some specs does.
pub fn does_any_spec_include_place(all: &[NamedSpec], place: &Place<'_>) -> bool
    ensures { result ≡ words.does_any_spec_include_place all.now place.now }
{
    all.iter()
        .any(|named| does_single_spec_include_place(place, named))
}

/// Whether a path is what a spec is about.
fn counts_as_match_of_spec(all: &[NamedSpec], named: &NamedSpec, place: &Place<'_>) -> bool
    ensures { result ≡ words.counts_as_match_of_spec all.now named.now place.now }
{
    match match_of_single_spec(place, named) {
        Some(found) if is_match_by_exclusion(found) => does_any_spec_include_place(all, place),
        Some(_) => true,
        None => false,
    }
}

/// Whether some path is what a spec is about.
fn has_matching_place(all: &[NamedSpec], places: &[Place<'_>], named: &NamedSpec) -> bool
    ensures { result ≡ words.has_matching_place all.now places.now named.now }
{
    places
        .iter()
        .any(|place| counts_as_match_of_spec(all, named, place))
}

/// Whether no path is what a spec is about.
fn is_spec_without_match(all: &[NamedSpec], places: &[Place<'_>], named: &NamedSpec) -> bool
    ensures { result ≡ words.is_spec_without_match all.now places.now named.now }
{
    !has_matching_place(all, places, named)
}

/// Whether a byte is shown as a question mark.
fn is_shown_as_question_mark(byte: u8) -> bool
    ensures { result ≡ words.is_shown_as_question_mark byte }
{
    (byte < 32 || byte == 127) && byte != b'\t' && byte != b'\n'
}

/// A byte as a line tells it.
fn control_byte_as_question_mark(byte: u8) -> u8
    ensures { result ≡ words.control_byte_as_question_mark byte }
{
    if is_shown_as_question_mark(byte) {
        b'?'
    } else {
        byte
    }
}

/// Adds some bytes as a line tells them.
fn append_bytes_with_control_masked(text: &mut Vec<u8>, bytes: &[u8]) -> Result<(), OutOfMemory>
    ensures { OnOk result (text.new.items ≡ text.old.items ++ map
        words.control_byte_as_question_mark bytes.now) }
{
    for byte in bytes {
        text.push(control_byte_as_question_mark(*byte))?;
    }
    Ok(())
}

#[tactic(auto, unfolding(crate::specs::Unmatched::unmatched_line_prefix))]
fn unmatched_line_prefix() -> &'static [u8]
    ensures { result.now ≡ words.unmatched_line_prefix }
{
    b"error: pathspec '"
}

#[tactic(auto, unfolding(crate::specs::Unmatched::unmatched_line_suffix))]
fn unmatched_line_suffix() -> &'static [u8]
    ensures { result.now ≡ words.unmatched_line_suffix }
{
    b"' did not match any file(s) known to git\n"
}

#[tactic(auto, unfolding(crate::specs::Unmatched::git_add_hint_line))]
fn git_add_hint_line() -> &'static [u8]
    ensures { result.now ≡ words.git_add_hint_line }
{
    b"Did you forget to 'git add'?\n"
}

/// Adds the line that tells of a spec.
fn append_unmatched_spec_line(text: &mut Vec<u8>, named: &NamedSpec) -> Result<(), OutOfMemory>
    ensures { OnOk result (text.new.items ≡ text.old.items ++ words.unmatched_spec_line named.now) }
{
    text.extend_from_slice(unmatched_line_prefix())?;
    append_bytes_with_control_masked(text, named.text.as_bytes())?;
    text.extend_from_slice(unmatched_line_suffix())?;
    Ok(())
}

/// Adds that line, if the spec is about no path.
fn append_line_if_unmatched(
    text: &mut Vec<u8>,
    all: &[NamedSpec],
    places: &[Place<'_>],
    named: &NamedSpec,
) -> Result<(), OutOfMemory>
    ensures { OnOk result (text.new.items ≡ text.old.items
        ++ words.spec_line_if_unmatched all.now places.now named.now) }
{
    if !is_spec_without_match(all, places, named) {
        return Ok(());
    }
    append_unmatched_spec_line(text, named)
}

/// Adds a line for each spec that is about no path.
fn append_lines_of_unmatched(
    text: &mut Vec<u8>,
    all: &[NamedSpec],
    places: &[Place<'_>],
) -> Result<(), OutOfMemory>
    ensures { OnOk result (text.new.items ≡ text.old.items
        ++ words.lines_of_unmatched_specs all.now places.now) }
{
    for named in all {
        append_line_if_unmatched(text, all, places, named)?;
    }
    Ok(())
}

/// The lines that tell of specs that are about no path.
pub fn unmatched_specs_message(
    alloc: Global,
    all: &[NamedSpec],
    places: &[Place<'_>],
) -> Result<Bytes, OutOfMemory>
    ensures { IfOk result (λ text. text ≡ words.unmatched_specs_message all.now places.now) }
{
    let mut text = Vec::new(alloc);
    append_lines_of_unmatched(&mut text, all, places)?;
    if text.is_empty() {
        return Ok(Bytes::from_vec(text));
    }
    text.extend_from_slice(git_add_hint_line())?;
    Ok(Bytes::from_vec(text))
}
