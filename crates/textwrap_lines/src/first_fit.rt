//! The lines of a paragraph by first fit, without a list of its words: line by line where its bytes
//! tell it, and else piece by piece.
ghost use Rattle.std.specs.Prelude.{◌≡◌, ◌<◌, IsOk, IsTrue, List, OnOk, length};
ghost use Rattle.textwrap_base.specs.Division.{IsGreedy};
ghost use Rattle.textwrap_words.specs.Pieces.{as_splitter};
ghost use Rattle.textwrap_text.specs.Units.{IsPrintable};
ghost use Rattle.textwrap_words.specs.Words.{WordText, sizes_of};
ghost use Rattle.textwrap_layout.specs.LineSinks.{Pushed};
ghost use Rattle.textwrap_layout.specs.Frame.{frame_lines, frame_settings, frame_widths};
ghost use Rattle.textwrap_layout.specs.Paragraph.{later_width, pieces_of, pieces_of_words};

use crate::first_line::push_first_line;
use crate::piece_lines::push_lines_by_pieces;
use crate::printable::push_printable_lines;
use std::alloc::{AllocError, Allocator};
use textwrap_layout::frame::Frame;
use textwrap_layout::line_sinks::LineSink;
use textwrap_layout::paragraph_pieces::Cuts;
use textwrap_layout::parts::Parts;
use textwrap_layout::printable_cuts::BlankCuts;
use textwrap_text::printable::is_printable;
use textwrap_words::inner::BuiltInSplitter;

/// Pushes the lines of a paragraph by first fit, with words that are split by the splitter.
///
/// What comes first in the table is taken. A paragraph is told from its bytes where it is printable
/// ASCII, not empty, and its later lines have room beside their indent:
///
/// | Paragraph | Way |
/// |---|---|
/// | told from its bytes, as its words are, with lines of one width | [`push_printable_lines`] |
/// | told from its bytes, with words between blanks | [`push_after_first`] |
/// | any | [`push_lines_by_pieces`] |
///
/// # Errors
/// [`AllocError`] where memory runs out, or a function of the caller says so.
pub(crate) fn push_by_first_fit<'t, A: Allocator + Copy, S: LineSink<'t, A>, P: Parts<A>>(
    alloc: A,
    paragraph: &'t str,
    parts: &P,
    frame: &Frame<'_>,
    splitter: BuiltInSplitter,
    lines: &mut S,
) -> Result<(), AllocError>
    ensures name { S.name lines.new ≡ S.name lines.old }
    ensures done { S.never_fails → P.is_direct parts.now → IsOk result }
    ensures pushed { OnOk result ((words : List WordText) × (division : List (List WordText))
        × (P.may parts.now).Words paragraph.now words
        × IsGreedy sizes_of (frame_widths frame.now)
        (pieces_of_words (frame_settings frame.now) (as_splitter splitter) words) division
        × Pushed S.holds lines.old lines.new (frame_lines frame.now division)) }
{
    let jumps = frame.later_columns > 0
        && !paragraph.is_empty()
        && is_printable(paragraph.as_bytes());
    if jumps && frame.first_columns == frame.later_columns {
        if let Some(cuts) = parts.printable_cuts() {
            return push_printable_lines(alloc, paragraph, 0, frame, &cuts, splitter, lines);
        }
    }
    let found = parts.word_cuts(paragraph)?;
    let cuts = Cuts {
        words: found.as_deref(),
        splitter,
    };
    if jumps && cuts.words.is_none() {
        return push_after_first(alloc, paragraph, frame, splitter, lines);
    }
    push_lines_by_pieces(alloc, paragraph, frame, &cuts, lines)
}

/// Pushes the lines of a printable paragraph by first fit, with words between blanks, which are split
/// by the splitter. The first line, which has a width of its own, is found piece by piece.
///
/// # Errors
/// [`AllocError`] where memory runs out.
fn push_after_first<'t, A: Allocator + Copy, S: LineSink<'t, A>>(
    alloc: A,
    paragraph: &'t str,
    frame: &Frame<'_>,
    splitter: BuiltInSplitter,
    lines: &mut S,
) -> Result<(), AllocError>
    requires printable { IsPrintable paragraph.now }
    requires room { 0 < later_width (frame_settings frame.now) }
    ensures name { S.name lines.new ≡ S.name lines.old }
    ensures done { S.never_fails → IsOk result }
    ensures pushed { OnOk result ((division : List (List WordText))
        × IsGreedy sizes_of (frame_widths frame.now)
        (pieces_of (frame_settings frame.now) (as_splitter splitter) paragraph.now) division
        × Pushed S.holds lines.old lines.new (frame_lines frame.now division)) }
{
    let end = push_first_line(alloc, paragraph, frame, splitter, lines)?;
    let cuts = BlankCuts {};
    push_printable_lines(
        alloc,
        paragraph,
        end,
        &frame.later(),
        &cuts,
        splitter,
        lines,
    )
}
