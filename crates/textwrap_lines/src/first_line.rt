//! The first line of a paragraph by first fit, found piece by piece, and where it ends. The pieces
//! after it do not depend on it, so the other lines can be found in another way.
ghost use Rattle.std.specs.Prelude.{◌≡◌, [], ◌∷◌, IsCharBoundary, IfOk, IsOk};
ghost use Rattle.textwrap_words.specs.Pieces.{as_splitter};
ghost use Rattle.textwrap_layout.specs.Frame.{frame_settings};
ghost use Rattle.textwrap_layout.specs.LineSinks.{Pushed};
ghost use Rattle.textwrap_layout.specs.Places.{CutLine};
ghost use Rattle.textwrap_lines.specs.PieceLines.{IsFirstUpTo, line_of, line_so_far};

use crate::piece_lines::OpenLine;
use std::alloc::{AllocError, Allocator};
use textwrap_layout::frame::Frame;
use textwrap_layout::line_sinks::LineSink;
use textwrap_words::inner::{BuiltInSplitter, next_piece};

/// Pushes the first line of a paragraph by first fit, with words split by the splitter, and returns
/// where it ends.
///
/// # Errors
/// [`AllocError`] where memory runs out.
pub(crate) fn push_first_line<'t, A: Allocator + Copy, S: LineSink<'t, A>>(
    alloc: A,
    paragraph: &'t str,
    frame: &Frame<'_>,
    splitter: BuiltInSplitter,
    lines: &mut S,
) -> Result<usize, AllocError>
    ensures name { S.name lines.new ≡ S.name lines.old }
    ensures done { S.never_fails → IsOk result }
    ensures boundary { IfOk result (λ end. IsCharBoundary paragraph.now end) }
    ensures first { IfOk result (λ end. (line : CutLine)
        × Pushed S.holds lines.old lines.new (line ∷ []) × IsFirstUpTo (frame_settings frame.now)
        (as_splitter splitter) frame.now.is_later paragraph.now line end) }
{
    let line = first_line(paragraph, frame, splitter);
    line.push_to(alloc, &frame.layout, lines)?;
    Ok(line.bounds.end)
}

/// The first line of a paragraph, with all pieces that have room on it.
fn first_line<'t, 'a>(
    paragraph: &'t str,
    frame: &Frame<'a>,
    splitter: BuiltInSplitter,
) -> OpenLine<'t, 'a>
    ensures text { result.text.now ≡ paragraph.now }
    ensures first { IsFirstUpTo (frame_settings frame.now) (as_splitter splitter) frame.now.is_later
        paragraph.now (line_of (frame_settings frame.now).preserve_trailing_space
        (line_so_far result)) result.bounds.end }
{
    let columns = frame.first_columns;
    let mut line = OpenLine::at(paragraph, 0, columns, frame.indent, frame.has_front);
    while line.bounds.end < paragraph.len() {
        let piece = next_piece(paragraph, line.bounds.end, frame.limit, splitter);
        if line.is_past(&piece) {
            return line;
        }
        line.take(&piece);
    }
    line
}
