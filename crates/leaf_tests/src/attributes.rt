//! The attributes of paths.
use crate::attribute_answers as git;
use crate::rows::replaced;
use bstr::ByteSlice;
use gitbase_core::{Bytes, PathText};
use glob_rules::Case;
use glob_rules::attributes::{Assignment, MetadataCollection, Outcome, Search, fill};
use std::alloc::Global;
use test_cases::split_at_byte;

/// Whether a search took a list of a file, where a bar stands for each LF; a file without text is
/// no file.
fn is_added(
    alloc: Global,
    search: &mut Search,
    collection: &mut MetadataCollection,
    text: &[u8],
    base: &[u8],
    macros: bool,
) -> bool {
    if text.is_empty() {
        return true;
    }
    let Some(bytes) = replaced(alloc, text, b'|', b'\n') else {
        return false;
    };
    let Ok(source) = PathText::from_bytes(alloc, b"attributes") else {
        return false;
    };
    let Ok(base) = PathText::from_bytes(alloc, base) else {
        return false;
    };
    search
        .add_patterns_buffer(alloc, &bytes, source, base, collection, macros)
        .is_ok()
}

/// Whether what was found of a name reads so; `-` says that nothing was found, or `!`.
fn is_state(found: Option<&Assignment>, want: &[u8]) -> bool {
    match found {
        Some(Assignment::Set) => want == b"set".as_slice(),
        Some(Assignment::Unset) => want == b"unset".as_slice(),
        Some(Assignment::Value(value)) => value.as_bytes() == want,
        Some(Assignment::Unspecified) => want == b"!".as_slice(),
        None => want == b"-".as_slice(),
    }
}

/// Whether git prints what was found of a name without being asked for the name.
fn is_printed(found: Option<&Assignment>) -> bool {
    match found {
        Some(Assignment::Unspecified) => false,
        Some(_) => true,
        None => false,
    }
}

/// How many attributes git prints.
fn printed_count(out: &Outcome) -> usize {
    let mut count: usize = 0;
    for (_, found) in out.iter_selected() {
        if is_printed(found) {
            count = count.saturating_add(1);
        }
    }
    count
}

/// Whether what was found is what the words say, each a name, `=` and a state, and no more of it is
/// printed.
fn are_found(out: &Outcome, words: &[u8]) -> bool {
    let mut count: usize = 0;
    for word in words.split(|byte| *byte == b',') {
        if word.is_empty() {
            continue;
        }
        let (name, state) = word.split_once_str(b"=").unwrap_or((word, b""));
        if !is_state(out.found_state_of_name(name), state) {
            return false;
        }
        if is_printed(out.found_state_of_name(name)) {
            count = count.saturating_add(1);
        }
    }
    count == printed_count(out)
}

/// A row: what is found, the path, and the texts of the user's file, that of the root, the
/// information file, and that of the directory `d`.
#[derive(Clone, Copy)]
struct Row<'a> {
    found: &'a [u8],
    path: &'a [u8],
    user: &'a [u8],
    root: &'a [u8],
    info: &'a [u8],
    directory: &'a [u8],
}

fn row_of(row: &[u8]) -> Row<'_> {
    let (found, rest) = split_at_byte(row, b';');
    let (path, rest) = split_at_byte(rest, b';');
    let (user, rest) = split_at_byte(rest, b';');
    let (root, rest) = split_at_byte(rest, b';');
    let (info, directory) = split_at_byte(rest, b';');
    Row {
        found,
        path,
        user,
        root,
        info,
        directory,
    }
}

/// Whether a path lies beneath `d`.
fn is_beneath(path: &[u8]) -> bool {
    path.len() > 2 && path.starts_with(b"d/")
}

/// The lists of a row, those of the user and those of the repository; that of `d` is one for paths
/// beneath it.
fn searches_of(
    alloc: Global,
    row: Row<'_>,
    collection: &mut MetadataCollection,
) -> Option<(Search, Search)> {
    let mut globals = Search::new_with_builtin_binary_macro(alloc, collection).ok()?;
    let mut stack = Search::new(alloc);
    let is_made = is_added(alloc, &mut globals, collection, row.user, b"", true)
        && is_added(alloc, &mut stack, collection, row.root, b"", true)
        && is_added(alloc, &mut stack, collection, row.info, b"", true)
        && (!is_beneath(row.path)
            || is_added(alloc, &mut stack, collection, row.directory, b"d", false));
    if is_made {
        Some((globals, stack))
    } else {
        None
    }
}

/// Whether the path of a row has the attributes that the row says.
fn is_filled(alloc: Global, row: Row<'_>, case: Case) -> bool {
    let mut collection = MetadataCollection::new(alloc);
    let Some((globals, stack)) = searches_of(alloc, row, &mut collection) else {
        return false;
    };
    let mut out = Outcome::new(alloc);
    out.initialize(alloc, &collection).is_ok()
        && is_answered(alloc, &globals, &stack, row, case, &mut out)
}

/// Whether lists answer as a row says what is asked for.
fn is_answered(
    alloc: Global,
    globals: &Search,
    stack: &Search,
    row: Row<'_>,
    case: Case,
    out: &mut Outcome,
) -> bool {
    let is_dir = Some(row.path.ends_with(b"/"));
    let path = row.path.trim_end_with(|c| c == '/');
    fill(alloc, globals, stack, path, case, is_dir, out).is_ok() && are_found(out, row.found)
}

/// Whether copies of the lists and of the collection answer as a row says, asked for all names as a
/// selection, and once more after that was forgotten.
fn is_answered_by_copies(alloc: Global, row: Row<'_>) -> bool {
    let mut collection = MetadataCollection::new(alloc);
    let Some((globals, stack)) = searches_of(alloc, row, &mut collection) else {
        return false;
    };
    let Ok(globals) = globals.copy(alloc) else {
        return false;
    };
    let Ok(stack) = stack.copy(alloc) else {
        return false;
    };
    let Ok(names) = collection.copy(alloc) else {
        return false;
    };
    let mut out = Outcome::new(alloc);
    out.initialize_with_selection(alloc, names.names()).is_ok()
        && is_answered(alloc, &globals, &stack, row, Case::Sensitive, &mut out)
        && out
            .initialize(alloc, &MetadataCollection::new(alloc))
            .is_ok()
        && !are_found(&out, row.found)
        && is_answered(alloc, &globals, &stack, row, Case::Sensitive, &mut out)
}

/// The first row of a table that these definitions do not answer.
fn first_lie(alloc: Global, table: &'static [u8], case: Case) -> Option<&'static [u8]> {
    for row in table.split(|byte| *byte == b'\n') {
        if !row.is_empty() && !is_filled(alloc, row_of(row), case) {
            return Some(row);
        }
    }
    None
}

/// What is found, the path, and the texts of files.
const ROWS: &[u8] = b"\
text=unset,diff=c;d/x.c;;*.c text diff=c;;x.c -text\n\
text=!;a.c;;*.c text !text\n\
binary=set,diff=unset,merge=unset,text=unset;x.bin;;*.bin binary\n\
a=set,b=set,c=unset;f;;[attr]a b|[attr]b a c|f a -c\n\
m=set,b=x,c=set;f;[attr]m a;f m;[attr]m b=x c;\n\
";

#[test]
fn attributes_of_paths(rt: HostRuntime) {
    let alloc = rt.alloc();
    assert_eq!(rt; first_lie(alloc, ROWS, Case::Sensitive), None);
}

#[test]
fn attributes_by_copies_and_a_selection(rt: HostRuntime) {
    let alloc = rt.alloc();
    for row in ROWS.split(|byte| *byte == b'\n') {
        assert!(rt;
            row.is_empty() || is_answered_by_copies(alloc, row_of(row)),
            "{row:?}"
        );
    }
}

#[test]
fn attributes_as_git_has_them(rt: HostRuntime) {
    let alloc = rt.alloc();
    assert_eq!(rt; first_lie(alloc, git::ANSWERS, Case::Sensitive), None);
    assert_eq!(rt; first_lie(alloc, git::FOLDED, Case::Fold), None);
}

#[test]
fn attributes_where_git_answers_otherwise(rt: HostRuntime) {
    let alloc = rt.alloc();
    assert_eq!(rt; first_lie(alloc, git::DIFFERENCES, Case::Sensitive), None);
}
