//! Options without their functions.
ghost use Rattle.std.specs.Prelude.{◌≡◌};
ghost use Rattle.textwrap_layout.specs.Options.{layout_view};
ghost use Rattle.textwrap_layout.specs.Paragraph.{indent_of};

use crate::options::Options;
use textwrap_text::line_ending::LineEnding;

/// The options but for the algorithm, the separator and the splitter. It holds no function.
#[derive(Clone, Copy, Debug)]
pub struct Layout<'a> {
    /// The columns of a line, with its indent.
    pub width: usize,
    /// What ends a paragraph, and joins lines.
    pub line_ending: LineEnding,
    /// What is printed before the first line.
    pub initial_indent: &'a str,
    /// What is printed before each later line.
    pub subsequent_indent: &'a str,
    /// Whether words that are too wide for a line are broken.
    pub break_words: bool,
    /// Whether blanks at line ends are kept.
    pub preserve_trailing_space: bool,
    /// Whether the first lines of later paragraphs are divided for the width that their own indent
    /// leaves.
    pub even_paragraphs: bool,
    /// Whether a piece behind which a hyphen may be printed is broken so that the hyphen has room, too.
    /// [`Options`] do not ask for it: there such a line passes its width by the hyphen.
    pub room_for_hyphens: bool,
}

impl Layout<'static> {
    ghost use Rattle.textwrap_layout.specs.Options.{settings_at};

    /// That of [`Options`] at a width in columns, and else as by default.
    pub fn new(width: usize) -> Layout<'static>
        ensures { layout_view result ≡ settings_at width }
    {
        Layout::of(&Options::new(width))
    }
}

impl<'a> Layout<'a> {
    ghost use Rattle.textwrap_layout.specs.Options.{layout_of};

    /// That of some options.
    pub fn of(options: &Options<'a>) -> Layout<'a>
        ensures { result ≡ layout_of options.now }
    {
        let Options {
            width,
            line_ending,
            initial_indent,
            subsequent_indent,
            break_words,
            preserve_trailing_space,
            even_paragraphs,
            ..
        } = *options;
        Layout {
            width,
            line_ending,
            initial_indent,
            subsequent_indent,
            break_words,
            preserve_trailing_space,
            even_paragraphs,
            room_for_hyphens: false,
        }
    }
}

/// The indent of the next line. `is_later` says that a line stands before it.
pub fn next_indent<'a>(layout: &Layout<'a>, is_later: bool) -> &'a str
    ensures { result.now ≡ indent_of (layout_view layout.now) is_later }
{
    if is_later {
        layout.subsequent_indent
    } else {
        layout.initial_indent
    }
}
