//! What the crates above need beside the public calls, which `textwrap` does not pass on.
ghost use Rattle.std.specs.Prelude.{◌≡◌, if◌then◌else◌};
ghost use Rattle.textwrap_text.specs.Blanks.{without_final_blanks};
ghost use Rattle.textwrap_words.specs.Pieces.{as_splitter, stand_from};
ghost use Rattle.textwrap_words.specs.PiecesLeft.{standing_left};
ghost use Rattle.textwrap_layout.specs.Options.{settings_view};
ghost use Rattle.textwrap_layout.specs.Paragraph.{first_width, is_whole, later_width, pieces_of};

pub use crate::filling::fill_by;
use crate::wrapping;
pub use crate::wrapping::{fill_to, push_paragraph_by, wrap_by};
use textwrap_layout::frame::Frame;
use textwrap_layout::layout::{Layout, next_indent};
use textwrap_layout::options::Options;
use textwrap_words::inner::{BuiltInSplitter, Pieces};

/// The pieces of a paragraph by built-in parts, one after another: those that its lines are made of.
pub fn paragraph_pieces<'t>(
    paragraph: &'t str,
    options: &Options<'_>,
    splitter: BuiltInSplitter,
) -> Pieces<'t>
    ensures { standing_left result ≡ stand_from 0
        (pieces_of (settings_view options.now) (as_splitter splitter) paragraph.now) }
{
    let frame = Frame::of(Layout::of(options));
    Pieces::of(paragraph, frame.limit, splitter, frame.has_front)
}

/// The width of a paragraph's first line, and that of its others. `is_later` says that a line stands
/// before it.
pub fn line_widths(options: &Options<'_>, is_later: bool) -> (usize, usize)
    ensures first { result.0 ≡ first_width (settings_view options.now) is_later }
    ensures later { result.1 ≡ later_width (settings_view options.now) }
{
    let frame = Frame::at(Layout::of(options), is_later);
    (frame.first_columns, frame.later_columns)
}

/// Whether a paragraph is one line as a whole. `is_later` says that a line stands before it.
pub fn is_one_line(paragraph: &str, options: &Options<'_>, is_later: bool) -> bool
    ensures { result ≡ is_whole (settings_view options.now) is_later paragraph.now }
{
    let layout = Layout::of(options);
    wrapping::is_one_line(paragraph, next_indent(&layout, is_later), layout.width)
}

/// The line of a paragraph that is one as a whole.
pub fn whole_line<'t>(paragraph: &'t str, options: &Options<'_>) -> &'t str
    ensures { result.now ≡ (if options.now.preserve_trailing_space then paragraph.now
        else without_final_blanks paragraph.now) }
{
    wrapping::whole_line(paragraph, &Layout::of(options))
}
