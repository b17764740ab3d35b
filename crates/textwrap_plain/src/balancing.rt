//! Balanced lines, for titles and centred texts: the lines of first fit at the least width that takes
//! no more of them than the width of the layout, as `text-wrap: balance` of browsers makes lines
//! (CSS Text Module Level 4).
ghost use Rattle.std.specs.Prelude.{◌≡◌, ◌≢◌, ◌≤◌, ℕ, List, None, IfOk, IsOk, length, map, max};
ghost use Rattle.textwrap_base.specs.Cost.{total_width};
ghost use Rattle.textwrap_base.specs.Errors.{Fits64Bits, OnlyMemoryRunsOut};
ghost use Rattle.textwrap_words.specs.CutPiecesLeft.{cut_standing_left};
ghost use Rattle.textwrap_words.specs.PiecesLeft.{standing_left};
ghost use Rattle.textwrap_words.specs.Words.{sizes_of, word_view};
ghost use Rattle.textwrap_layout.specs.Options.{layout_view};
ghost use Rattle.textwrap_layout.specs.Paragraph.{Line, line_view};
ghost use Rattle.textwrap_layout.specs.PiecesLeft.{left_standing};
ghost use Rattle.textwrap_plain.specs.Balance.{AreFirstFitAt, AreBalanced, HasRoom, IsBalanced};
ghost use Rattle.textwrap_plain.specs.Balance.{TakesLines, whole_pieces};
ghost use Rattle.textwrap_plain.specs.Options.{port_splitter, points_by, split_by_points};
ghost use Rattle.textwrap_plain.specs.Widest.{widest_of_words, widest_place};

use crate::options::PlainSplitter;
use crate::parts::PlainParts;
use std::alloc::{AllocError, Allocator};
use std::borrow::CowStr;
use textwrap::WrapError;
use textwrap::words::display_width;
use textwrap_layout::frame::Frame;
use textwrap_layout::layout::Layout;
use textwrap_layout::lent_places::{LentLinePlaces, LentPlaces};
use textwrap_layout::paragraph_pieces::{Cuts, ParagraphPieces, cut_paragraph};
use textwrap_layout::parts::BuiltInAlgorithm;
use textwrap_layout::pieces::find_pieces;
use textwrap_layout::printable_cuts::PrintableCuts;
use textwrap_lines::inner::{fill_to, wrap_by};
use textwrap_lines::parts::split_paragraph;
use textwrap_lines::placed::TextwrapLine;
use textwrap_words::inner::{CutPieces, Pieces};
use textwrap_words::words::Word;

/// A balanced width, and what it took to find it.
#[derive(Clone, Copy, Debug)]
pub struct Balance {
    /// The width, in columns.
    pub width: usize,
    /// How many times the text was divided into lines.
    pub fillings: usize,
}

/// The least width at which first fit takes no more lines of a text than at the width of the layout,
/// and at which each piece of it has room: the wider of the indents, and after it any one word, split
/// but not broken, with its hyphen. Where some piece has none at the width of the layout, it is that
/// width. Words end and are split as the parts say; their algorithm is not used. At blanks and by a
/// built-in splitter nothing is allocated.
///
/// It tells also how many fillings that took: none where some piece has no room, else one at the width of
/// the layout and at most 64 more, as each of these leaves at most half of the widths.
///
/// At 40 columns `It was the best of times, it was the worst` takes two lines, and so it does at 23,
/// where they are about as wide.
///
/// # Errors
/// [`WrapError::Memory`] where memory runs out.
pub fn balanced_width<A: Allocator + Copy, W: PrintableCuts + Copy>(
    alloc: A,
    text: &str,
    layout: Layout<'_>,
    parts: &PlainParts<'_, W>,
) -> Result<Balance, WrapError>
    ensures balanced { IfOk result (λ balance. IsBalanced (layout_view layout.entry)
        (W.words parts.now.words) (points_by parts.now.splitter) text.now balance.width) }
    ensures fillings { IfOk result (λ balance. balance.fillings ≤ 65) }
    ensures done { W.at_blanks parts.now.words → port_splitter parts.now.splitter ≢ None → IsOk result }
    ensures only_memory { OnlyMemoryRunsOut result }
{
    let width = layout.width;
    let indent = wider(
        display_width(layout.initial_indent),
        display_width(layout.subsequent_indent),
    );
    let widest = widest_piece(alloc, text, layout, parts)?;
    if indent > width || widest > width - indent {
        return Ok(Balance { width, fillings: 0 });
    }
    search(alloc, text, layout, parts, indent + widest)
}

/// The lines of a text by first fit at its [`balanced_width`]. They are as many as at the width of the
/// layout.
///
/// At 40 columns `It was the best of times, it was the worst` has the lines `It was the best of` and
/// `times, it was the worst`.
///
/// # Errors
/// [`WrapError::Memory`] where memory runs out.
pub fn wrap_balanced<'t, A: Allocator + Copy, W: PrintableCuts + Copy>(
    alloc: A,
    text: &'t str,
    layout: Layout<'_>,
    parts: &PlainParts<'_, W>,
) -> Result<Vec<CowStr<'t, A>, A>, WrapError>
    ensures lines { IfOk result (λ lines. AreBalanced (layout_view layout.entry)
        (W.words parts.now.words) (points_by parts.now.splitter) text.now
        (map line_view lines.items)) }
    // As many as first fit takes at the width of the layout.
    ensures as_many { IfOk result (λ lines. (others : List Line)
        → AreFirstFitAt (layout_view layout.entry) (W.words parts.now.words)
        (points_by parts.now.splitter) text.now layout.entry.width others
        → length lines.items ≡ length others) }
    ensures only_memory { OnlyMemoryRunsOut result }
{
    let balance = balanced_width(alloc, text, layout, parts)?;
    let narrow = Layout {
        width: balance.width,
        ..layout
    };
    let first_fit = PlainParts {
        algorithm: BuiltInAlgorithm::FirstFit,
        ..*parts
    };
    wrap_by(alloc, text, narrow, &first_fit)
}

/// The columns of the widest piece of a text with its penalty, 0 where it has none.
///
/// # Errors
/// [`AllocError`] where memory runs out.
fn widest_piece<A: Allocator + Copy, W: PrintableCuts + Copy>(
    alloc: A,
    text: &str,
    layout: Layout<'_>,
    parts: &PlainParts<'_, W>,
) -> Result<usize, AllocError>
    ensures widest { IfOk result (λ columns. columns ≡ widest_of_words (whole_pieces
        (layout_view layout.entry) (W.words parts.now.words)
        (points_by parts.now.splitter) text.now)) }
    ensures done { W.at_blanks parts.now.words → port_splitter parts.now.splitter ≢ None → IsOk result }
{
    let line_ending = layout.line_ending;
    let mut widest = 0;
    let mut rest = Some(text);
    while let Some(text) = rest {
        let (paragraph, after) = split_paragraph(text, line_ending);
        widest = wider(widest, widest_in(alloc, paragraph, layout, parts)?);
        rest = after;
    }
    Ok(widest)
}

/// The columns of the widest piece of a paragraph with its penalty: its words are split but not broken.
///
/// # Errors
/// [`AllocError`] where memory runs out.
fn widest_in<A: Allocator + Copy, W: PrintableCuts + Copy>(
    alloc: A,
    paragraph: &str,
    layout: Layout<'_>,
    parts: &PlainParts<'_, W>,
) -> Result<usize, AllocError>
    ensures widest { IfOk result (λ columns. columns ≡ widest_of_words (split_by_points
        (points_by parts.now.splitter) (W.words parts.now.words paragraph.now))) }
    ensures done { W.at_blanks parts.now.words → port_splitter parts.now.splitter ≢ None → IsOk result }
{
    let frame = Frame::of(Layout {
        break_words: false,
        ..layout
    });
    match parts.splitter {
        PlainSplitter::BuiltIn(splitter) => {
            let found = parts.words.word_cuts(paragraph)?;
            let cuts = Cuts {
                words: found.as_deref(),
                splitter,
            };
            Ok(widest_of(cut_paragraph(paragraph, &frame, &cuts)))
        }
        PlainSplitter::OutsideSequences | PlainSplitter::Dictionary(_) => {
            let pieces = find_pieces(alloc, paragraph, &frame, parts)?;
            Ok(widest_of_list(&pieces))
        }
    }
}

/// The columns of the widest of these pieces with its penalty.
fn widest_of_list(pieces: &[Word<'_>]) -> usize
    requires { Fits64Bits (total_width sizes_of (map word_view pieces.now)) }
    ensures { result ≡ widest_of_words (map word_view pieces.now) }
{
    let mut widest = 0;
    for piece in pieces {
        widest = wider(widest, piece.width + piece.penalty.len());
    }
    widest
}

/// The columns of the widest of these pieces, none of which has a penalty. Each kind of them has a loop of its own, which asks of no
/// piece which kind it is.
fn widest_of(pieces: ParagraphPieces<'_, '_>) -> usize
    ensures { result ≡ widest_place (left_standing pieces.entry) }
{
    match pieces {
        ParagraphPieces::AtBlanks(pieces) => widest_at_blanks(pieces),
        ParagraphPieces::AtCuts(pieces) => widest_at_cuts(pieces),
    }
}

/// Those of pieces of words between blanks.
fn widest_at_blanks(pieces: Pieces<'_>) -> usize
    ensures { result ≡ widest_place (standing_left pieces.entry) }
{
    let mut widest = 0;
    for piece in pieces {
        widest = wider(widest, piece.width);
    }
    widest
}

/// Those of pieces of words that end at cuts.
fn widest_at_cuts(pieces: CutPieces<'_, '_>) -> usize
    ensures { result ≡ widest_place (cut_standing_left pieces.entry) }
{
    let mut widest = 0;
    for piece in pieces {
        widest = wider(widest, piece.width);
    }
    widest
}

/// The balanced width, where all pieces have room at the width of the layout: it lies between that and
/// the least at which they have.
///
/// # Errors
/// [`WrapError::Memory`] where memory runs out.
fn search<A: Allocator + Copy, W: PrintableCuts + Copy>(
    alloc: A,
    text: &str,
    layout: Layout<'_>,
    parts: &PlainParts<'_, W>,
    least: usize,
) -> Result<Balance, WrapError>
    requires within { least ≤ layout.width }
    requires room { HasRoom (layout_view layout) (W.words parts.now.words)
        (points_by parts.now.splitter) text.now least }
    requires least { (other : ℕ) → HasRoom (layout_view layout) (W.words parts.now.words)
        (points_by parts.now.splitter) text.now other → least ≤ other }
    ensures balanced { IfOk result (λ balance. IsBalanced (layout_view layout.entry)
        (W.words parts.now.words) (points_by parts.now.splitter) text.now balance.width) }
    ensures fillings { IfOk result (λ balance. balance.fillings ≤ 65) }
    ensures done { W.at_blanks parts.now.words → port_splitter parts.now.splitter ≢ None → IsOk result }
    ensures only_memory { OnlyMemoryRunsOut result }
{
    let most = count_lines(alloc, text, layout, parts, layout.width)?;
    let mut low = least;
    let mut high = layout.width;
    let mut fillings = 1;
    while low < high {
        let middle = low + (high - low) / 2;
        let count = count_lines(alloc, text, layout, parts, middle)?;
        if count <= most {
            high = middle;
        } else {
            low = middle + 1;
        }
        fillings += 1;
    }
    Ok(Balance {
        width: high,
        fillings,
    })
}

/// How many lines a text takes at a width, by first fit.
///
/// # Errors
/// [`WrapError::Memory`] where memory runs out.
fn count_lines<A: Allocator + Copy, W: PrintableCuts + Copy>(
    alloc: A,
    text: &str,
    layout: Layout<'_>,
    parts: &PlainParts<'_, W>,
    width: usize,
) -> Result<usize, WrapError>
    ensures counted { IfOk result (TakesLines (layout_view layout.entry) (W.words parts.now.words)
        (points_by parts.now.splitter) text.now width) }
    ensures done { W.at_blanks parts.now.words → port_splitter parts.now.splitter ≢ None → IsOk result }
    ensures only_memory { OnlyMemoryRunsOut result }
{
    let narrow = Layout { width, ..layout };
    let first_fit = PlainParts {
        algorithm: BuiltInAlgorithm::FirstFit,
        ..*parts
    };
    let mut lines: [TextwrapLine; 0] = [];
    let mut room: [u8; 0] = [];
    let mut placed = LentPlaces::new(&mut lines, &mut room);
    let mut sink = LentLinePlaces {
        placed: &mut placed,
    };
    fill_to(alloc, text, narrow, &first_fit, &mut sink)?;
    Ok(placed.counts().lines)
}

/// The greater of two widths.
fn wider(first: usize, second: usize) -> usize
    ensures { result ≡ max first second }
{
    if first < second { second } else { first }
}
