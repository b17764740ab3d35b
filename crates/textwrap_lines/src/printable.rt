//! Lines of a printable text, one of printable ASCII alone. They are found by its bytes, without a
//! list of words: a line goes up to its width, and from there back to the last place where the text
//! is cut.
ghost use Rattle.std.specs.Prelude.{◌≡◌, ◌<◌, ◌≤◌, ◌-◌, length, slice_range, true};
ghost use Rattle.std.specs.Prelude.{OnOk, IsOk};
ghost use Rattle.textwrap_words.specs.PieceCuts.{pieces_from};
ghost use Rattle.textwrap_words.specs.Pieces.{as_splitter, stand_from};
ghost use Rattle.textwrap_layout.specs.Frame.{frame_settings};
ghost use Rattle.textwrap_layout.specs.Layout.{break_limit, limit_at};
ghost use Rattle.textwrap_layout.specs.LineSinks.{Pushed};
ghost use Rattle.textwrap_layout.specs.Paragraph.{indent_of, later_width};
ghost use Rattle.textwrap_text.specs.Units.{IsPrintable};
ghost use Rattle.textwrap_layout.specs.Printable.{IsFirstLine, NoCutBetween, is_cut_by, line_slice};
ghost use Rattle.textwrap_lines.specs.PieceLines.{lines_left, no_pieces};

use std::alloc::{AllocError, Allocator};
use textwrap_layout::frame::Frame;
use textwrap_layout::line_bounds::{LineBounds, push_between};
use textwrap_layout::line_sinks::LineSink;
use textwrap_layout::printable_cuts::PrintableCuts;
use textwrap_text::blanks::{blanks_end, trimmed_len};
use textwrap_words::inner::BuiltInSplitter;

/// Pushes the lines of a printable paragraph from a place on by first fit, where they all have the
/// width of the later ones.
///
/// # Errors
/// [`AllocError`] where memory runs out.
pub(crate) fn push_printable_lines<'t, A: Allocator + Copy, C: PrintableCuts, S: LineSink<'t, A>>(
    alloc: A,
    paragraph: &'t str,
    start: usize,
    frame: &Frame<'_>,
    cuts: &C,
    splitter: BuiltInSplitter,
    lines: &mut S,
) -> Result<(), AllocError>
    requires printable { IsPrintable paragraph.now }
    requires start { start ≤ length paragraph.now }
    requires room { 0 < later_width (frame_settings frame.now) }
    ensures name { S.name lines.new ≡ S.name lines.old }
    ensures done { S.never_fails → IsOk result }
    ensures pushed { OnOk result (Pushed S.holds lines.old lines.new
        (lines_left (frame_settings frame.now) (no_pieces paragraph.now start
        (later_width (frame_settings frame.now))
        (indent_of (frame_settings frame.now) frame.now.is_later)) (stand_from start
        (pieces_from (is_cut_by (C.cuts cuts.now paragraph.now) (as_splitter splitter)
        paragraph.now) (break_limit (frame_settings frame.now)) paragraph.now start)))) }
{
    let layout = &frame.layout;
    let width = frame.later_columns;
    let text = paragraph.as_bytes();
    let mut at = start;
    let mut indent = frame.indent;
    while at < text.len() {
        let (next, goes_on) = line_end(text, at, width, cuts, splitter, layout.break_words);
        let bounds = LineBounds {
            start: at,
            // The blanks at a line's end are no part of its last word, unless that goes on.
            word_end: if goes_on {
                next
            } else {
                at + trimmed_len(&text[at..next])
            },
            end: next,
        };
        push_between(alloc, paragraph, bounds, layout, indent, "", lines)?;
        at = next;
        indent = layout.subsequent_indent;
    }
    Ok(())
}

/// Where the line ends of a printable text that begins at a place, and whether a word goes on there;
/// `breaks` says that words wider than a line are broken. If the text is cut behind the blanks at the
/// width, the line ends there; else at the last cut before the width. Without one its first word is
/// too wide: it is broken at the width, or goes on to its end.
fn line_end<C: PrintableCuts>(
    text: &[u8],
    at: usize,
    width: usize,
    cuts: &C,
    splitter: BuiltInSplitter,
    breaks: bool,
) -> (usize, bool)
    requires printable { IsPrintable text.now }
    requires inside { at < length text.now }
    requires width { 0 < width }
    ensures line { IsFirstLine (is_cut_by (C.cuts cuts.now text.now) (as_splitter splitter)
        text.now) (limit_at breaks width) width text.now at result.0 result.1 }
    ensures some { at < result.0 }
    ensures within { result.0 ≤ length text.now }
{
    if text.len() - at <= width {
        return (text.len(), false);
    }
    let limit = at + width;
    let past = blanks_end(text, limit);
    if past == text.len() || is_cut_at(text, past, cuts, splitter) {
        return (past, false);
    }
    let cut = last_cut(text, at, limit - 1, cuts, splitter);
    if cut > at {
        return (cut, false);
    }
    if breaks {
        return (limit, true);
    }
    (next_cut(text, past + 1, cuts, splitter), false)
}

/// The last place after the start up to the end at which a printable text is cut, the start where
/// there is none.
pub(crate) fn last_cut<C: PrintableCuts>(
    text: &[u8],
    start: usize,
    end: usize,
    cuts: &C,
    splitter: BuiltInSplitter,
) -> usize
    requires printable { IsPrintable text.now }
    requires order { start ≤ end }
    requires inside { end < length text.now }
    ensures from { start ≤ result }
    ensures within { result ≤ end }
    ensures cut { start < result
        → is_cut_by (C.cuts cuts.now text.now) (as_splitter splitter) text.now result ≡ true }
    ensures last { NoCutBetween (is_cut_by (C.cuts cuts.now text.now) (as_splitter splitter)
        text.now) result end }
{
    let mut place = end;
    while place > start && !is_cut_at(text, place, cuts, splitter) {
        place -= 1;
    }
    place
}

/// The first place from the start on at which a printable text is cut, its end where there is none.
pub(crate) fn next_cut<C: PrintableCuts>(
    text: &[u8],
    start: usize,
    cuts: &C,
    splitter: BuiltInSplitter,
) -> usize
    requires printable { IsPrintable text.now }
    requires after_start { 0 < start }
    requires within { start ≤ length text.now }
    ensures from { start ≤ result }
    ensures within { result ≤ length text.now }
    ensures cut { result < length text.now
        → is_cut_by (C.cuts cuts.now text.now) (as_splitter splitter) text.now result ≡ true }
    ensures first { NoCutBetween (is_cut_by (C.cuts cuts.now text.now) (as_splitter splitter)
        text.now) (start - 1) (result - 1) }
{
    let mut place = start;
    while place < text.len() && !is_cut_at(text, place, cuts, splitter) {
        place += 1;
    }
    place
}

/// Whether a printable text is cut before the byte at a place: between two words, or by the
/// splitter, after a hyphen between letters or digits.
#[tactic(auto, using(crate::proofs::PrintableTexts::Bytes::point_printable))]
fn is_cut_at<C: PrintableCuts>(
    text: &[u8],
    place: usize,
    cuts: &C,
    splitter: BuiltInSplitter,
) -> bool
    requires printable { IsPrintable text.now }
    requires after_start { 0 < place }
    requires inside { place < length text.now }
    ensures { result ≡ is_cut_by (C.cuts cuts.now text.now) (as_splitter splitter) text.now place }
{
    if cuts.is_cut(text, place) {
        return true;
    }
    text[place - 1] == b'-'
        && matches!(splitter, BuiltInSplitter::HyphenSplitter)
        && place > 1
        && text[place - 2].is_ascii_alphanumeric()
        && text[place].is_ascii_alphanumeric()
}
