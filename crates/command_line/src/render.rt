//! Texts in the form that is asked for.
ghost use Rattle.std.specs.Prelude.{◌≡◌, ◌++◌, IfOk, OnOk};
ghost use Rattle.command_line.specs.Rendered as rendered;

use crate::form::{LineEnd, Style, Wording};
use crate::row::{append_line_end, append_path_unescaped_if_nul_end, append_styled_line};
use bstr::ByteSlice;
use gitbase_core::{Bytes, OutOfMemory};
use std::alloc::Global;

/// Adds a line of a report and its end.
fn append_styled_line_with_end(
    text: &mut Vec<u8>,
    style: Style,
    line: &[u8],
) -> Result<(), OutOfMemory>
    ensures { OnOk result (text.new.items ≡ text.old.items ++ rendered.styled_line_with_end style
        line.now) }
{
    append_styled_line(text, style, line)?;
    append_line_end(text, style.end)?;
    Ok(())
}

/// Each line of a report in a style.
fn rewrite_report_lines_in_style(
    alloc: Global,
    style: Style,
    text: &[u8],
) -> Result<Bytes, OutOfMemory>
    ensures { IfOk result (λ out. out ≡ rendered.rewrite_report_lines_in_style style text.now) }
{
    let mut out = Vec::new(alloc);
    for line in text.lines() {
        append_styled_line_with_end(&mut out, style, line)?;
    }
    Ok(Bytes::from_vec(out))
}

/// Whether a report stays as it is: words, line feeds, and no colours.
fn style_leaves_report_text_unchanged(style: Style) -> bool
    ensures { result ≡ rendered.style_leaves_report_text_unchanged style }
{
    match style.wording {
        Wording::Words => match style.end {
            LineEnd::Feed => !style.is_colored,
            LineEnd::Nul => false,
        },
        Wording::Letters => false,
    }
}

/// The text of a report in a style: words or letters before the paths, coloured or not, each line
/// with its end. The states of the index before a report are such lines too. With words, line feeds
/// and no colours the text stays as it is.
///
/// # Errors
///
/// Memory was refused.
pub fn restyle_report_text(alloc: Global, style: Style, text: &[u8]) -> Result<Bytes, OutOfMemory>
    ensures { IfOk result (λ out. out ≡ rendered.restyle_report_text style text.now) }
{
    if style_leaves_report_text_unchanged(style) {
        return Bytes::from_slice(alloc, text);
    }
    rewrite_report_lines_in_style(alloc, style, text)
}

/// Adds a path and the end of its line.
fn append_path_with_end(text: &mut Vec<u8>, end: LineEnd, path: &[u8]) -> Result<(), OutOfMemory>
    ensures { OnOk result (text.new.items ≡ text.old.items ++ rendered.path_with_line_end end
        path.now) }
{
    append_path_unescaped_if_nul_end(text, end, path)?;
    append_line_end(text, end)?;
    Ok(())
}

/// Each path of a plan, with such ends of lines.
fn paths_with_line_ends(alloc: Global, end: LineEnd, text: &[u8]) -> Result<Bytes, OutOfMemory>
    ensures { IfOk result (λ out. out ≡ rendered.paths_with_line_ends end text.now) }
{
    let mut out = Vec::new(alloc);
    for line in text.lines() {
        append_path_with_end(&mut out, end, line)?;
    }
    Ok(Bytes::from_vec(out))
}

/// The text of a plan, which has a path a line, with such ends of lines. With line feeds it stays
/// as it is.
///
/// # Errors
///
/// Memory was refused.
pub fn plan_text_with_line_ends(
    alloc: Global,
    end: LineEnd,
    text: &[u8],
) -> Result<Bytes, OutOfMemory>
    ensures { IfOk result (λ out. out ≡ rendered.plan_text_with_line_ends end text.now) }
{
    match end {
        LineEnd::Feed => Bytes::from_slice(alloc, text),
        LineEnd::Nul => paths_with_line_ends(alloc, LineEnd::Nul, text),
    }
}
