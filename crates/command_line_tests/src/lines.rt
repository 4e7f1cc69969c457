//! How answers are written.
use bstr::ByteSlice;
use command_line::{
    Color, Form, LineEnd, Style, Wording, plan_text_with_line_ends, restyle_report_text,
    style_for_output,
};
use std::alloc::Global;

/// Rows, parted by `|`: the style (`w` or `l`, `f` or `n`, `c` or `-`), a text of a report, and
/// what is wanted, parted by `^`.
const ROWS: &[u8] = b"\
wf-^untracked file - always - -\ta b\\0a\n# read_dir 1 returned 2 seen 3\n\
^untracked file - always - -\ta b\\0a\n# read_dir 1 returned 2 seen 3\n|\
wn-^untracked file - always - -\ta b\\0a\\5c\n# read_dir 1 returned 2 seen 3\n\
^untracked file - always - -\ta b\n\\\0# read_dir 1 returned 2 seen 3\0|\
lf-^untracked file - always - -\ta\nignored directory - always - -\tb\\09\nprecious symlink - always - -\tc\n\
tracked repository repository always - -\td\npruned - - - dotgit -\t.git\n\
^?? a\n!! b\\09/\n$$ c\n   d/\n-- .git\n|\
ln-^ignored directory - always - -\tb\\09\n^!! b\t/\0|\
lfc^untracked file - always - -\ta\n^\x1b[31m?? a\x1b[0m\n|\
wfc^ignored file - always - -\ta\nprecious file - always - -\tb\ntracked file file always - -\tc\npruned - - - dotgit -\t.git\n\
^\x1b[33mignored file - always - -\ta\x1b[0m\n\x1b[35mprecious file - always - -\tb\x1b[0m\n\
\x1b[32mtracked file file always - -\tc\x1b[0m\n\x1b[90mpruned - - - dotgit -\t.git\x1b[0m\n|\
wfc^modified\ta\n^modified\ta\n|\
wn-^deleted\ta\\7f\n^deleted\ta\x7f\0|\
wf-^^|\
wn-^untracked file - always - -\ta\\5c0a\\0\n^untracked file - always - -\ta\\0a\\0\0";

/// The style that a word of three letters says.
fn style_of(word: &[u8]) -> Style {
    Style {
        wording: if word.starts_with(b"w") {
            Wording::Words
        } else {
            Wording::Letters
        },
        end: if word.contains_str(b"n") {
            LineEnd::Nul
        } else {
            LineEnd::Feed
        },
        is_colored: word.ends_with(b"c"),
    }
}

fn is_written(alloc: Global, style: Style, text: &[u8], want: &[u8]) -> bool {
    match restyle_report_text(alloc, style, text) {
        Ok(out) => out.as_bytes() == want,
        Err(_) => false,
    }
}

fn holds(alloc: Global, row: &[u8]) -> bool {
    let (style, rest) = row.split_once_str(b"^").unwrap_or((b"wf-", row));
    let (text, want) = rest.split_once_str(b"^").unwrap_or((rest, b""));
    is_written(alloc, style_of(style), text, want)
}

fn are_paths(alloc: Global, end: LineEnd, want: &[u8]) -> bool {
    match plan_text_with_line_ends(alloc, end, b"# a\nb\\0a c\n") {
        Ok(out) => out.as_bytes() == want,
        Err(_) => false,
    }
}

fn form(end: LineEnd, color: Color) -> Form {
    Form {
        wording: Wording::Words,
        end,
        color,
    }
}

#[test]
fn lines_have_the_form_that_is_asked_for(rt: HostRuntime) {
    for row in ROWS.split(|byte| *byte == b'|') {
        assert!(rt; holds(rt.alloc(), row), "{}", row.as_bstr());
    }
}

#[test]
fn paths_of_a_plan_stand_alone(rt: HostRuntime) {
    let alloc = rt.alloc();
    let fed = are_paths(alloc, LineEnd::Feed, b"# a\nb\\0a c\n");
    let ended = are_paths(alloc, LineEnd::Nul, b"# a\0b\n c\0");
    assert!(rt; fed & ended);
}

#[test]
fn colours_are_shown_where_they_are_taken(rt: HostRuntime) {
    let shown = style_for_output(form(LineEnd::Feed, Color::Auto), true).is_colored;
    let hidden = style_for_output(form(LineEnd::Feed, Color::Auto), false).is_colored;
    let ended = style_for_output(form(LineEnd::Nul, Color::Auto), true).is_colored;
    let forced = style_for_output(form(LineEnd::Nul, Color::Always), false).is_colored;
    let barred = style_for_output(form(LineEnd::Feed, Color::Never), true).is_colored;
    assert!(rt; shown & !hidden & !ended & forced & !barred);
}
