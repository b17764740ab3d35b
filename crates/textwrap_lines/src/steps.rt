//! The steps of `textwrap::wrap` on one paragraph, over data: pieces at cuts and points, and lines at
//! ends. Offsets count bytes.
ghost use Rattle.std.specs.Prelude.{◌≡◌, ◌<◌, ◌↔◌, IfOk, OnOk, map, true};
ghost use Rattle.std.specs.Io.{StartsWith};
ghost use Rattle.std.specs.List.{flat_map};
ghost use Rattle.textwrap_words.specs.Cuts.{AreCuts, AreInnerCuts, IsNextCut, parts_between};
ghost use Rattle.textwrap_words.specs.LineEnds.{AreEnds, IsNextEnd, lines_between};
ghost use Rattle.textwrap_words.specs.Words.{Tiles, tiled, word_of, word_view};
ghost use Rattle.textwrap_layout.specs.Options.{settings_view};
ghost use Rattle.textwrap_layout.specs.Paragraph.{ArePieces, line_from, line_view, parts_from};
ghost use Rattle.textwrap_layout.specs.Paragraph.{text_limit};
ghost use Rattle.textwrap_layout.specs.Places.{ArePlacesOf, HasPlacesMore, division_cuts, further};
ghost use Rattle.textwrap_lines.specs.Steps.{AreWordsBetween, pieces_at, split_at};

use crate::placed::{PlacedLines, push_division};
use crate::wrapping::push_lines;
use points::points_within;
use std::alloc::{AllocError, Allocator};
use std::borrow::CowStr;
use textwrap_layout::frame::Frame;
use textwrap_layout::layout::Layout;
use textwrap_layout::line_sinks::ListedLines;
use textwrap_layout::options::Options;
use textwrap_layout::pieces::break_pieces;
use textwrap_words::inner::{lines_between, push_split, words_between};
use textwrap_words::words::Word;

mod points;

/// Whether a text may be cut at these offsets into parts that are not empty: they increase, above 0
/// and below its length, and are character boundaries. `"héé"` may be cut at 1 and 3, not at 2.
pub fn are_inner_cuts(text: &str, cuts: &[usize]) -> bool
    ensures { result ≡ true ↔ AreInnerCuts text.now cuts.now }
{
    let mut last = 0;
    for cut in cuts {
        if !is_next_cut(text, last, *cut) {
            return false;
        }
        last = *cut;
    }
    true
}

/// Whether a text may be cut at this offset, after it was cut at the last one.
fn is_next_cut(text: &str, last: usize, cut: usize) -> bool
    ensures { result ≡ true ↔ IsNextCut text.now last cut }
{
    last < cut && cut < text.len() && text.is_char_boundary(cut)
}

/// Whether lines of these pieces may end so, each before so many of them: the ends do not decrease,
/// and are no more than the pieces. Of two pieces, lines may end at 1 and 2, not at 3.
pub fn are_ends(pieces: &[Word<'_>], ends: &[usize]) -> bool
    ensures { result ≡ true ↔ AreEnds pieces.now ends.now }
{
    let mut last = 0;
    for end in ends {
        if !is_next_end(pieces.len(), last, *end) {
            return false;
        }
        last = *end;
    }
    true
}

/// Whether, of so many pieces, a line may end so after the last one.
fn is_next_end(count: usize, last: usize, end: usize) -> bool
    ensures { result ≡ true ↔ IsNextEnd count last end }
{
    last <= end && end <= count
}

/// The pieces of a paragraph that is cut into words at `cuts`, whose words are split at those of the
/// `points` that are inside them, and are broken as the options say. Both are offsets of the
/// paragraph. The options' separator, splitter and algorithm are not used.
///
/// A piece before a point has the penalty `-`, unless it ends in a hyphen. If words are broken and
/// there is an initial indent, an empty piece stands in front. `"foo bar"` cut at 4, with the points
/// 2 and 4, has the pieces `"fo"` with `-`, `"o "` and `"bar"`: a point at a word's end is not inside.
///
/// # Errors
/// [`AllocError`] where memory runs out.
pub fn pieces_at<'t, A: Allocator + Copy>(
    alloc: A,
    paragraph: &'t str,
    cuts: &[usize],
    points: &[usize],
    options: &Options<'_>,
) -> Result<Vec<Word<'t>, A>, AllocError>
    requires cuts { AreInnerCuts paragraph.now cuts.now }
    requires points { AreInnerCuts paragraph.now points.now }
    ensures pieces { IfOk result (λ pieces. map word_view pieces.items
        ≡ pieces_at (settings_view options.now) cuts.now points.now paragraph.now) }
    // They are pieces of words between inner cuts, split at points where words may be cut.
    ensures are { IfOk result (λ pieces. ArePieces (settings_view options.now) AreWordsBetween
        AreCuts paragraph.now (map word_view pieces.items)) }
    ensures tiles { IfOk result (λ pieces. Tiles (map word_view pieces.items) paragraph.now) }
{
    let split = split_at(alloc, paragraph, cuts, points)?;
    break_pieces(alloc, split, &Frame::of(Layout::of(options)))
}

/// The words of a paragraph between cuts, split at the points inside them.
fn split_at<'t, A: Allocator + Copy>(
    alloc: A,
    paragraph: &'t str,
    cuts: &[usize],
    points: &[usize],
) -> Result<Vec<Word<'t>, A>, AllocError>
    requires cuts { AreInnerCuts paragraph.now cuts.now }
    requires points { AreInnerCuts paragraph.now points.now }
    ensures { IfOk result (λ pieces. map word_view pieces.items
        ≡ split_at 0 points.now (map word_of (parts_between cuts.now paragraph.now))) }
{
    let words = words_between(alloc, paragraph, cuts)?;
    let mut pieces = Vec::new(alloc);
    let mut start = 0;
    for word in &words {
        let inner = points_within(alloc, points, start, word.word.len())?;
        push_split(&mut pieces, *word, &inner)?;
        start += word.word.len() + word.whitespace.len();
    }
    Ok(pieces)
}

/// The lines of these pieces, by where they stand in the paragraph: each ends before so many of the
/// pieces. `is_later` says that a line stands before them, and so which indent the first has. Pieces
/// after the last end are in no line.
///
/// With the pieces `"fo"` with `-`, `"o "` and `"bar"` of `"foo bar"`, lines that end at 1 and 3 are
/// `fo-`, a text of its own, and the slice `o bar` at 2.
///
/// # Errors
/// [`AllocError`] where memory runs out.
pub fn lines_at<A: Allocator + Copy>(
    alloc: A,
    paragraph: &str,
    pieces: &[Word<'_>],
    ends: &[usize],
    options: &Options<'_>,
    is_later: bool,
) -> Result<PlacedLines<A>, AllocError>
    requires tiles { Tiles (map word_view pieces.now) paragraph.now }
    requires ends { AreEnds pieces.now ends.now }
    ensures { IfOk result (λ placed. ArePlacesOf (division_cuts (settings_view options.now) is_later
        (lines_between ends.now (map word_view pieces.now))) placed.places.items
        placed.built.items) }
{
    let mut lines = PlacedLines::new(alloc);
    push_lines_at(
        alloc, &mut lines, 0, paragraph, pieces, ends, options, is_later,
    )?;
    Ok(lines)
}

/// Adds the lines that [`lines_at`] finds to those of the paragraphs before, by where they stand in a
/// text. `start` bytes of it come before the paragraph.
///
/// # Errors
/// [`AllocError`] where memory runs out.
pub fn push_lines_at<A: Allocator + Copy>(
    alloc: A,
    lines: &mut PlacedLines<A>,
    start: usize,
    paragraph: &str,
    pieces: &[Word<'_>],
    ends: &[usize],
    options: &Options<'_>,
    is_later: bool,
) -> Result<(), AllocError>
    requires start { start < text_limit }
    requires tiles { Tiles (map word_view pieces.now) paragraph.now }
    requires ends { AreEnds pieces.now ends.now }
    ensures { OnOk result (HasPlacesMore lines.old lines.new (map (further start)
        (division_cuts (settings_view options.now) is_later
        (lines_between ends.now (map word_view pieces.now))))) }
{
    let division = division_at(alloc, paragraph, pieces, ends)?;
    push_division(alloc, lines, start, paragraph, &division, options, is_later)
}

/// The lines that [`lines_at`] finds, as `textwrap::wrap` lists lines.
///
/// # Errors
/// [`AllocError`] where memory runs out.
pub fn list_lines_at<'t, A: Allocator + Copy>(
    alloc: A,
    paragraph: &'t str,
    pieces: &[Word<'_>],
    ends: &[usize],
    options: &Options<'_>,
    is_later: bool,
) -> Result<Vec<CowStr<'t, A>, A>, AllocError>
    requires tiles { Tiles (map word_view pieces.now) paragraph.now }
    requires ends { AreEnds pieces.now ends.now }
    ensures { IfOk result (λ lines. map line_view lines.items
        ≡ map line_from (parts_from (settings_view options.now) is_later
        (lines_between ends.now (map word_view pieces.now)))) }
{
    let division = division_at(alloc, paragraph, pieces, ends)?;
    list_division(alloc, paragraph, &division, options, is_later)
}

/// The pieces of each line.
fn division_at<'p, 't, A: Allocator + Copy>(
    alloc: A,
    paragraph: &str,
    pieces: &'p [Word<'t>],
    ends: &[usize],
) -> Result<Vec<&'p [Word<'t>], A>, AllocError>
    requires tiles { Tiles (map word_view pieces.now) paragraph.now }
    requires ends { AreEnds pieces.now ends.now }
    ensures begins { IfOk result (λ division. StartsWith paragraph.now
        (flat_map (λ line. tiled (map word_view line.now)) division.items)) }
    ensures lines { IfOk result (λ division. map (λ line. map word_view line.now) division.items
        ≡ lines_between ends.now (map word_view pieces.now)) }
{
    lines_between(alloc, pieces, ends)
}

/// The line of each list of pieces, as `wrap` lists lines.
fn list_division<'t, A: Allocator + Copy>(
    alloc: A,
    paragraph: &'t str,
    division: &[&[Word<'_>]],
    options: &Options<'_>,
    is_later: bool,
) -> Result<Vec<CowStr<'t, A>, A>, AllocError>
    requires { StartsWith paragraph.now
        (flat_map (λ line. tiled (map word_view line.now)) division.now) }
    ensures { IfOk result (λ lines. map line_view lines.items
        ≡ map line_from (parts_from (settings_view options.now) is_later
        (map (λ line. map word_view line.now) division.now))) }
{
    let frame = Frame::at(Layout::of(options), is_later);
    let mut list = Vec::new(alloc);
    let mut lines = ListedLines { lines: &mut list };
    push_lines(alloc, paragraph, division, &frame, &mut lines)?;
    Ok(list)
}
