//! One entry of an index file.
ghost use Rattle.std.specs.Prelude.{◌≡◌, ◌≤◌, option_map, IfOk};
ghost use Rattle.git_index.specs.Entries as entries;
ghost use Rattle.git_index.specs.Seen.{fixed_fields_as_record, extended_flags_as_record, path_and_rest_as_record, entry_and_rest_as_record};

use crate::head::{
    Fixed, HEAD_LENGTH, flags_of_assumed_and_skipped, is_assume_valid_set, is_extended_flag_set,
    parse_fixed_entry_fields, stage_from_flags,
};
use crate::more::{ExtendedFlagsAndRest, read_extended_flags_if_present};
use crate::name::{PathAndRest, path_length_matches_flags, read_entry_path};
use crate::parts::split_first_bytes;
use crate::stat::Detail;
use gitbase_core::{IndexEntry, OutOfMemory};
use std::alloc::Global;

/// An entry, what the file says of it besides, and what is behind it.
#[derive(Drop)]
pub struct EntryAndRest<'a> {
    pub entry: IndexEntry,
    pub detail: Detail,
    pub rest: &'a [u8],
}

/// The entry at the front of some bytes, behind an entry with the path `previous`; none where they
/// begin with none.
pub fn read_entry<'a>(
    alloc: Global,
    version: u32,
    previous: &[u8],
    bytes: &'a [u8],
) -> Result<Option<EntryAndRest<'a>>, OutOfMemory>
    ensures { IfOk result (λ read. option_map entry_and_rest_as_record read ≡ entries.read_entry
        version previous.now bytes.now) }
{
    let Some(head) = split_first_bytes(bytes, HEAD_LENGTH) else {
        return Ok(None);
    };
    let Some(fixed) = parse_fixed_entry_fields(head.part) else {
        return Ok(None);
    };
    read_entry_after_fixed_fields(alloc, version, previous, fixed, head.rest)
}

/// The entry whose first 62 bytes are read.
fn read_entry_after_fixed_fields<'a>(
    alloc: Global,
    version: u32,
    previous: &[u8],
    fixed: Fixed,
    bytes: &'a [u8],
) -> Result<Option<EntryAndRest<'a>>, OutOfMemory>
    ensures { IfOk result (λ read. option_map entry_and_rest_as_record read
        ≡ entries.read_entry_after_fixed_fields version previous.now (fixed_fields_as_record fixed)
        bytes.now) }
{
    let Some(more) = read_extended_flags_if_present(
        version,
        is_extended_flag_set(fixed.flags),
        bytes,
    ) else {
        return Ok(None);
    };
    let Some(named) = read_path_of_flagged_length(alloc, version, previous, fixed.flags, more)?
    else {
        return Ok(None);
    };
    Ok(Some(EntryAndRest {
        entry: IndexEntry {
            path: named.path,
            stage: stage_from_flags(fixed.flags),
            mode: fixed.mode,
            flags: flags_of_assumed_and_skipped(is_assume_valid_set(fixed.flags), more.is_skipped),
            id: fixed.id,
        },
        detail: Detail {
            stat: fixed.stat,
            intent_to_add: more.intent_to_add,
        },
        rest: named.rest,
    }))
}

/// The path, where the flags tell its length.
fn read_path_of_flagged_length<'a>(
    alloc: Global,
    version: u32,
    previous: &[u8],
    flags: u16,
    more: ExtendedFlagsAndRest<'a>,
) -> Result<Option<PathAndRest<'a>>, OutOfMemory>
    requires { more.size ≤ 2 }
    ensures { IfOk result (λ named. option_map path_and_rest_as_record named
        ≡ entries.read_path_of_flagged_length version previous.now flags (extended_flags_as_record
        more.entry)) }
{
    let before = HEAD_LENGTH + more.size;
    let Some(named) = read_entry_path(alloc, version, previous, before, more.rest)? else {
        return Ok(None);
    };
    if !path_length_matches_flags(flags, &named) {
        return Ok(None);
    }
    Ok(Some(named))
}
