//! How an answer is written.
ghost use Rattle.std.specs.Prelude.{◌≡◌};
ghost use Rattle.command_line.specs.Forms as forms;

/// What stands before the path of a line.
#[derive(Clone, Copy, Debug, PartialEq, Eq)]
pub enum Wording {
    /// The words of the report.
    Words,
    /// Two letters, as `git status` has them.
    Letters,
}

/// What ends a line.
#[derive(Clone, Copy, Debug, PartialEq, Eq)]
pub enum LineEnd {
    /// A line feed; some bytes of paths are escaped.
    Feed,
    /// A NUL; paths stand as they are.
    Nul,
}

/// Where lines are coloured.
#[derive(Clone, Copy, Debug, PartialEq, Eq)]
pub enum Color {
    /// Where the output takes colours, and lines end in line feeds.
    Auto,
    /// Everywhere.
    Always,
    /// Nowhere.
    Never,
}

/// How an answer is to be written, as the words of a command say.
#[derive(Clone, Copy, Debug, PartialEq, Eq)]
pub struct Form {
    /// What stands before the path of a line.
    pub wording: Wording,
    /// What ends a line.
    pub end: LineEnd,
    /// Where lines are coloured.
    pub color: Color,
}

/// How an answer is written.
#[derive(Clone, Copy, Debug, PartialEq, Eq)]
pub struct Style {
    /// What stands before the path of a line.
    pub wording: Wording,
    /// What ends a line.
    pub end: LineEnd,
    /// Whether lines are coloured by their status.
    pub is_colored: bool,
}

/// Whether lines are coloured, where the output takes colours or not.
fn are_lines_colored(color: Color, end: LineEnd, takes_colors: bool) -> bool
    ensures { result ≡ forms.are_lines_colored color end takes_colors }
{
    match color {
        Color::Always => true,
        Color::Never => false,
        Color::Auto => match end {
            LineEnd::Feed => takes_colors,
            LineEnd::Nul => false,
        },
    }
}

/// The style that a form means for an output that takes colours or not. Colours left to the program
/// are shown where the output takes them, unless lines end in NULs.
pub fn style_for_output(form: Form, takes_colors: bool) -> Style
    ensures { result ≡ forms.style_for_output form takes_colors }
{
    Style {
        wording: form.wording,
        end: form.end,
        is_colored: are_lines_colored(form.color, form.end, takes_colors),
    }
}
