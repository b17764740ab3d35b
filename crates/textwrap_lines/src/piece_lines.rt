//! Lines by first fit that are found piece by piece: of the line that takes the next piece, a few
//! numbers are kept, and no list of words.
ghost use Rattle.std.specs.Prelude.{◌≡◌, ◌*◌, ◌+◌, ◌<◌, ◌≤◌, List, [], ◌∷◌, length};
ghost use Rattle.std.specs.Prelude.{IsCharBoundary, OnOk, IsOk};
ghost use Rattle.textwrap_base.specs.Division.{IsGreedy};
ghost use Rattle.textwrap_words.specs.Words.{WordText, sizes_of};
ghost use Rattle.textwrap_layout.specs.Direct.{CanBeCut, pieces_cut, cuts_of};
ghost use Rattle.textwrap_layout.specs.Frame.{frame_lines, frame_settings, frame_widths};
ghost use Rattle.textwrap_layout.specs.LineBounds.{AreBounds};
ghost use Rattle.textwrap_layout.specs.LineSinks.{Pushed};
ghost use Rattle.textwrap_layout.specs.Paragraph.{text_limit};

use std::alloc::{AllocError, Allocator};
use textwrap_layout::frame::Frame;
use textwrap_layout::layout::Layout;
use textwrap_layout::line_bounds::{LineBounds, push_between};
use textwrap_layout::line_sinks::LineSink;
use textwrap_layout::paragraph_pieces::{Cuts, cut_paragraph};
use textwrap_words::inner::Piece;

/// The line that takes the next piece.
#[derive(Clone, Copy)]
pub(crate) struct OpenLine<'t, 'a> {
    /// The paragraph that it stands in.
    text: &'t str,
    width: usize,
    indent: &'a str,
    /// Where its pieces stand.
    pub(crate) bounds: LineBounds,
    /// The columns of the pieces and of all their whitespace.
    columns: usize,
    /// Whether the line has a piece.
    has_piece: bool,
    ghost limit: { length text.now < text_limit },
    ghost stands: { AreBounds text.now bounds },
    ghost bounded: { columns ≤ bounds.end },
}

/// Pushes the lines of a paragraph by first fit, where it is cut there.
///
/// # Errors
/// [`AllocError`] where memory runs out.
pub(crate) fn push_lines_by_pieces<'t, A: Allocator + Copy, S: LineSink<'t, A>>(
    alloc: A,
    paragraph: &'t str,
    frame: &Frame<'_>,
    cuts: &Cuts<'_>,
    lines: &mut S,
) -> Result<(), AllocError>
    requires { CanBeCut (cuts_of cuts.now) paragraph.now }
    ensures name { S.name lines.new ≡ S.name lines.old }
    ensures done { S.never_fails → IsOk result }
    ensures pushed { OnOk result ((division : List (List WordText))
        × IsGreedy sizes_of (frame_widths frame.now)
        (pieces_cut (frame_settings frame.now) cuts.now paragraph.now) division
        × Pushed S.holds lines.old lines.new (frame_lines frame.now division)) }
{
    let layout = &frame.layout;
    let width = frame.later_columns;
    let mut line = OpenLine::at(paragraph, 0, frame.first_columns, frame.indent, false);
    for piece in cut_paragraph(paragraph, frame, cuts) {
        if line.is_past(&piece) {
            line.push_to(alloc, layout, lines)?;
            let end = line.bounds.end;
            line = OpenLine::at(line.text, end, width, layout.subsequent_indent, false);
        }
        line.take(&piece);
    }
    line.push_to(alloc, layout, lines)
}

impl<'t, 'a> OpenLine<'t, 'a> {
    ghost use Rattle.textwrap_lines.specs.PieceLines.{is_past, line_of, line_opened, line_so_far};
    ghost use Rattle.textwrap_lines.specs.PieceLines.{with_piece, ComesAt};

    /// A line from a place in a text on: without pieces, or of a piece without text if `has_piece`
    /// says so.
    pub(crate) fn at(
        text: &'t str,
        start: usize,
        width: usize,
        indent: &'a str,
        has_piece: bool,
    ) -> OpenLine<'t, 'a>
        requires { IsCharBoundary text.now start }
        ensures { line_so_far result ≡ line_opened text.now start width indent.now has_piece }
    {
        OpenLine {
            text,
            width,
            indent,
            bounds: LineBounds {
                start,
                word_end: start,
                end: start,
            },
            columns: 0,
            has_piece,
        }
    }

    /// Whether the line has a piece already, and no room for this one.
    pub(crate) fn is_past(&self, piece: &Piece) -> bool
        requires { ComesAt self.now.text.now self.now.bounds.end piece.now }
        ensures { result ≡ is_past (line_so_far self.now) piece.now }
    {
        self.has_piece && self.columns + piece.width > self.width
    }

    /// Takes one more piece.
    pub(crate) fn take(&mut self, piece: &Piece)
        requires { ComesAt self.old.text.now self.old.bounds.end piece.now }
        ensures { line_so_far self.new ≡ with_piece (line_so_far self.old) piece.now }
    {
        *self = OpenLine {
            text: self.text,
            width: self.width,
            indent: self.indent,
            bounds: LineBounds {
                start: self.bounds.start,
                word_end: piece.word_end,
                end: piece.end,
            },
            columns: self.columns + (piece.width + (piece.end - piece.word_end)),
            has_piece: true,
        };
    }

    /// Pushes the line. A line without pieces is empty.
    ///
    /// # Errors
    /// [`AllocError`] where memory runs out.
    pub(crate) fn push_to<A: Allocator + Copy, S: LineSink<'t, A>>(
        &self,
        alloc: A,
        layout: &Layout<'_>,
        lines: &mut S,
    ) -> Result<(), AllocError>
        ensures name { S.name lines.new ≡ S.name lines.old }
        ensures done { S.never_fails → IsOk result }
        ensures pushed { OnOk result (Pushed S.holds lines.old lines.new
            (line_of layout.now.preserve_trailing_space (line_so_far self.now) ∷ [])) }
    {
        let indent = if self.has_piece { self.indent } else { "" };
        push_between(alloc, self.text, self.bounds, layout, indent, "", lines)
    }
}
