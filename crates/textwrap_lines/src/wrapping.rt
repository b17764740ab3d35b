//! Wrapping a text into lines.
ghost use Rattle.std.specs.Prelude.{◌≡◌, ℕ, List, ◌∷◌, [], ◌++◌, ◌<◌, length, drop, map};
ghost use Rattle.std.specs.Prelude.{◌+◌, IsCharBoundary, nat_lt, if◌then◌else◌, true, IfOk, IfSome};
ghost use Rattle.std.specs.Prelude.{◌≢◌, ◌==◌, ◌&&◌, OnOk, IsOk, IsSomeAnd, MatchOption, None};
ghost use Rattle.textwrap_layout.specs.Paragraph.{DividesWith, MayPass64BitsWith};
ghost use Rattle.textwrap_layout.specs.Direct.{AreParts};
ghost use Rattle.std.specs.List.{flat_map};
ghost use Rattle.std.specs.Str.{IsUtf8};
ghost use Rattle.std.specs.Io.{StartsWith};
ghost use Rattle.textwrap_text.specs.Blanks.{without_final_blanks};
ghost use Rattle.textwrap_words.specs.WrapAlgorithms.{Algorithm, algorithm_view, ByFirstFit};
ghost use Rattle.textwrap_words.specs.Words.{WordText, word_view, tiled};
ghost use Rattle.textwrap_words.specs.declared.wrap_algorithms.WrapAlgorithm.TheVariants.{FirstFit};
ghost use Rattle.textwrap_layout.specs.Frame.{frame_lines, frame_settings};
ghost use Rattle.textwrap_layout.specs.Fuzzing.{AppendsLines};
ghost use Rattle.textwrap_layout.specs.LineBounds.{AreBounds};
ghost use Rattle.textwrap_text.specs.LineEnding.{paragraphs_of};
ghost use Rattle.textwrap_layout.specs.LineSinks.{Pushed};
ghost use Rattle.textwrap_layout.specs.Options.{Settings, layout_view, settings_view};
ghost use Rattle.textwrap_layout.specs.Options.{HasBuiltInParts, HasParts, MayOverflow};
ghost use Rattle.textwrap_layout.specs.Paragraph.{text_limit, LineParts, line_view, covered};
ghost use Rattle.textwrap_layout.specs.Paragraph.{widths_of, parts_of, parts_from, Adds};
ghost use Rattle.textwrap_layout.specs.Paragraph.{DividesBy, AreDividedParts, AreParagraphParts};
ghost use Rattle.textwrap_layout.specs.Paragraph.{DividesAs, MayPass64Bits, OnlyCharactersPass};
ghost use Rattle.textwrap_layout.specs.Places.{AreCutLines, CutLine, cut_lines};
ghost use Rattle.textwrap_layout.specs.Text.{AreTextLines, IsWrapped, LinesKeepToWidth};
ghost use Rattle.textwrap_layout.specs.Text.{CanKeepToWidth, ArePrintedWithin, HasParagraphThat};
ghost use Rattle.textwrap_layout.specs.Text.{SomeMayPass64Bits};
ghost use Rattle.textwrap_words.specs.WordSplitters.{Splitter, splitter_view};
ghost use Rattle.textwrap_base.specs.Errors.{OnlyMemoryRunsOut};

use crate::first_fit::push_by_first_fit;
use crate::least_cost::{push_by_least_cost, suits_search};
use crate::printable_words::push_with_points;
use std::alloc::{AllocError, Allocator};
use std::borrow::CowStr;
use textwrap_layout::frame::Frame;
use textwrap_layout::layout::{Layout, next_indent};
use textwrap_layout::line_bounds::{LineBounds, push_between};
use textwrap_layout::line_sinks::{LineSink, ListedLines};
use textwrap_layout::options::Options;
use textwrap_layout::paragraph_pieces::Cuts;
use textwrap_layout::parts::{BuiltInAlgorithm, BuiltInParts, Parts};
use textwrap_layout::pieces::find_pieces;
use textwrap_text::blanks::split_final_blanks;
use textwrap_text::line_ending::LineEnding;
use textwrap_words::words::Word;
use textwrap_words::wrap_algorithms::WrapError;

/// Wraps a text and returns its lines.
///
/// At 5 columns `foo-bar baz` has the lines `foo-`, `bar` and `baz`, all of them borrowed from the
/// text. Each paragraph, the text between two line endings, is wrapped by itself. One that has no
/// indent, and fewer bytes than the width has columns, stays one line. Any other is cut into words;
/// these are split and broken as the options say, and divided into lines by their algorithm.
///
/// By built-in parts there is always at least one line. Only blanks at line ends are lost, and only
/// the indents are added; a line with an indent is a text of its own.
///
/// By first fit, where words are broken, no line of a divided paragraph passes the width that it was
/// divided for, but one that is a single piece with one character that takes columns. Blanks
/// preserved at its end do not count. With [`Options::even_paragraphs`] the line keeps to the width
/// of the options together with its indent, but for such a piece, and unless the indent alone passes
/// the width. The same is true of the columns of the printed line, if no blanks are preserved and no
/// escape sequence is cut.
///
/// # Errors
/// [`WrapError::Memory`] where memory runs out, or a function of the caller says so.
/// [`WrapError::Overflow`] only where a function of the caller gives the points of words and
/// optimal fit divides them.
pub fn wrap<'t, A: Allocator + Copy>(
    alloc: A,
    text: &'t str,
    options: Options<'_>,
) -> Result<Vec<CowStr<'t, A>, A>, WrapError>
    // The lines are those of the text. By a built-in algorithm they are at least one, and lose only
    // blanks. By a built-in splitter they add only indents, and by first fit, where words are
    // broken, they keep to their widths.
    ensures lines { IfOk result (λ lines. IsWrapped (settings_view options.entry)
        (splitter_view options.entry.word_splitter) (algorithm_view options.entry.wrap_algorithm)
        (DividesBy options.entry) text.now (map line_view lines.items)) }
    // Where paragraphs are even, lines keep to the width with their indents, if they can: by first
    // fit, where words are broken and the splitter is built in.
    ensures even { options.entry.even_paragraphs ≡ true → options.entry.wrap_algorithm ≡ FirstFit
        → splitter_view options.entry.word_splitter ≢ None → options.entry.break_words ≡ true
        → IfOk result (λ lines. LinesKeepToWidth (settings_view options.entry)
        (DividesBy options.entry) text.now (map line_view lines.items)) }
    // The same lines, where all parts are built in and can be named.
    ensures built_in { IfOk result (λ lines.
        (settings : Settings) (splitter : Splitter) (algorithm : Algorithm)
        → HasParts options.entry settings splitter algorithm → AreTextLines settings
        (DividesAs splitter algorithm settings) text.now (map line_view lines.items)) }
    ensures built_in_even { IfOk result (λ lines. (settings : Settings) (splitter : Splitter)
        → HasParts options.entry settings splitter ByFirstFit → settings.even_paragraphs ≡ true
        → settings.break_words ≡ true → LinesKeepToWidth settings
        (DividesAs splitter ByFirstFit settings) text.now (map line_view lines.items)) }
    // And so they do in the columns that they are printed in, if no blanks are preserved and neither
    // an indent nor a piece cuts an escape sequence; a text of one paragraph need not be even.
    ensures printed { options.entry.wrap_algorithm ≡ FirstFit
        → splitter_view options.entry.word_splitter ≢ None
        → CanKeepToWidth (settings_view options.entry) text.now
        → IfOk result (λ lines. ArePrintedWithin (settings_view options.entry)
        (DividesBy options.entry) text.now (map line_view lines.items)) }
    ensures only_memory { ¬ MayOverflow options.entry → OnlyMemoryRunsOut result }
    // Overflow needs a paragraph whose pieces are together wider than 64 bits can say.
    ensures no_overflow { ¬ SomeMayPass64Bits options.entry text.now → OnlyMemoryRunsOut result }
{
    wrap_by(alloc, text, Layout::of(&options), &options)
}

/// The lines that [`wrap`] returns, by this layout and any parts.
///
/// # Errors
/// Those of [`wrap`].
pub fn wrap_by<'t, A: Allocator + Copy, P: Parts<A>>(
    alloc: A,
    text: &'t str,
    layout: Layout<'_>,
    parts: &P,
) -> Result<Vec<CowStr<'t, A>, A>, WrapError>
    ensures lines { IfOk result (λ lines. AreTextLines (layout_view layout.entry)
        (DividesWith (P.may parts.now) (layout_view layout.entry)) text.now
        (map line_view lines.items)) }
    ensures only_memory { ¬ P.may_overflow parts.now → OnlyMemoryRunsOut result }
    ensures no_overflow { ¬ HasParagraphThat (MayPass64BitsWith (P.may parts.now)
        (layout_view layout.entry)) (layout_view layout.entry).line_ending text.now
        → OnlyMemoryRunsOut result }
{
    let mut list = Vec::new(alloc);
    let mut lines = ListedLines { lines: &mut list };
    fill_to(alloc, text, layout, parts, &mut lines)?;
    Ok(list)
}

/// Hands the lines that [`wrap_by`] returns, one after another, to what takes lines and has taken none.
///
/// # Errors
/// Those of [`wrap`], and out of memory where it has none for a line.
pub fn fill_to<'t, A: Allocator + Copy, S: LineSink<'t, A>, P: Parts<A>>(
    alloc: A,
    text: &'t str,
    layout: Layout<'_>,
    parts: &P,
    lines: &mut S,
) -> Result<(), WrapError>
    requires none { S.holds lines.now lines.now 0 [] }
    ensures name { S.name lines.new ≡ S.name lines.old }
    // By first fit, words between blanks and a built-in splitter no memory is needed.
    ensures done { S.never_fails → P.is_direct parts.now → IsOk result }
    ensures lines { OnOk result ((taken : List CutLine) × AreCutLines (layout_view layout.entry)
        (DividesWith (P.may parts.now) (layout_view layout.entry)) text.now taken
        × (end : ℕ) × S.holds lines.old lines.new end taken) }
    ensures only_memory { ¬ P.may_overflow parts.now → OnlyMemoryRunsOut result }
    ensures no_overflow { ¬ HasParagraphThat (MayPass64BitsWith (P.may parts.now)
        (layout_view layout.entry)) (layout_view layout.entry).line_ending text.now
        → OnlyMemoryRunsOut result }
{
    push_text(alloc, text, layout, parts, parts.built_in(), lines)
}

/// The same, by lists of words and pieces where no built-in parts are given.
///
/// # Errors
/// Those of [`wrap`].
pub(crate) fn push_text<'t, A: Allocator + Copy, S: LineSink<'t, A>, P: Parts<A>>(
    alloc: A,
    text: &'t str,
    layout: Layout<'_>,
    parts: &P,
    built_in: Option<BuiltInParts>,
    lines: &mut S,
) -> Result<(), WrapError>
    requires built_in { IfSome built_in (AreParts (layout_view layout) (P.may parts.now).Words
        (DividesWith (P.may parts.now) (layout_view layout))) }
    requires none { S.holds lines.now lines.now 0 [] }
    ensures name { S.name lines.new ≡ S.name lines.old }
    ensures done { S.never_fails → P.is_direct parts.now
        → IsSomeAnd built_in (λ parts. parts.algorithm ≡ BuiltInAlgorithm.FirstFit) → IsOk result }
    ensures lines { OnOk result ((taken : List CutLine) × AreCutLines (layout_view layout.entry)
        (DividesWith (P.may parts.now) (layout_view layout.entry)) text.now taken
        × (end : ℕ) × S.holds lines.old lines.new end taken) }
    ensures only_memory { ¬ P.may_overflow parts.now → OnlyMemoryRunsOut result }
    ensures no_overflow { ¬ HasParagraphThat (MayPass64BitsWith (P.may parts.now)
        (layout_view layout.entry)) (layout_view layout.entry).line_ending text.now
        → OnlyMemoryRunsOut result }
{
    let line_ending = layout.line_ending;
    let first = &Frame::of(layout);
    let later = &first.later();
    let mut start = 0;
    let mut rest = Some(text);
    while let Some(text) = rest {
        let (paragraph, after) = split_paragraph(text, line_ending);
        lines.begin_paragraph(start);
        let frame = if lines.has_line() { later } else { first };
        push_paragraph(alloc, paragraph, parts, frame, &built_in, lines)?;
        start += paragraph.len() + line_ending.as_str().len();
        rest = after;
    }
    Ok(())
}

/// Pushes the lines of one paragraph.
///
/// # Errors
/// Those of [`wrap`].
fn push_paragraph<'t, A: Allocator + Copy, S: LineSink<'t, A>, P: Parts<A>>(
    alloc: A,
    paragraph: &'t str,
    parts: &P,
    frame: &Frame<'_>,
    built_in: &Option<BuiltInParts>,
    lines: &mut S,
) -> Result<(), WrapError>
    requires built_in { IfSome built_in.now (AreParts (frame_settings frame.now)
        (P.may parts.now).Words (DividesWith (P.may parts.now) (frame_settings frame.now))) }
    ensures name { S.name lines.new ≡ S.name lines.old }
    ensures done { S.never_fails → P.is_direct parts.now
        → IsSomeAnd built_in.now (λ parts. parts.algorithm ≡ BuiltInAlgorithm.FirstFit)
        → IsOk result }
    ensures taken { OnOk result ((own : List LineParts)
        × AreParagraphParts (frame_settings frame.now)
        (DividesWith (P.may parts.now) (frame_settings frame.now)) frame.now.is_later paragraph.now own
        × Pushed S.holds lines.old lines.new (cut_lines 0 own)) }
    ensures only_memory { ¬ P.may_overflow parts.now → OnlyMemoryRunsOut result }
    ensures no_overflow { ¬ MayPass64BitsWith (P.may parts.now) (frame_settings frame.now)
        paragraph.now → OnlyMemoryRunsOut result }
{
    if is_one_line(paragraph, frame.indent, frame.layout.width) {
        let slice = whole_line(paragraph, &frame.layout);
        return Ok(lines.push_line(alloc, "", 0, slice, "")?);
    }
    push_pieces(alloc, paragraph, parts, frame, built_in, lines)
}

/// Pushes the lines of the pieces of a paragraph: without a list of its words, where the parts are
/// built in and no number is too great.
///
/// This is where the way of a paragraph is chosen. What comes first in the table is taken:
///
/// | Parts | Algorithm | Paragraph | Way |
/// |---|---|---|---|
/// | built in | first fit | any | [`push_by_first_fit`], which has its own table |
/// | built in | least cost | not empty, no number too great | [`push_by_least_cost`] |
/// | with a dictionary | first fit | any | [`push_with_points`] |
/// | any | any | any | [`push_divided`]: by lists of its words and pieces |
///
/// # Errors
/// Those of [`wrap`].
fn push_pieces<'t, A: Allocator + Copy, S: LineSink<'t, A>, P: Parts<A>>(
    alloc: A,
    paragraph: &'t str,
    parts: &P,
    frame: &Frame<'_>,
    built_in: &Option<BuiltInParts>,
    lines: &mut S,
) -> Result<(), WrapError>
    requires built_in { IfSome built_in.now (AreParts (frame_settings frame.now)
        (P.may parts.now).Words (DividesWith (P.may parts.now) (frame_settings frame.now))) }
    ensures name { S.name lines.new ≡ S.name lines.old }
    ensures done { S.never_fails → P.is_direct parts.now
        → IsSomeAnd built_in.now (λ parts. parts.algorithm ≡ BuiltInAlgorithm.FirstFit)
        → IsOk result }
    ensures taken { OnOk result ((division : List (List WordText))
        × DividesWith (P.may parts.now) (frame_settings frame.now)
        frame.now.is_later paragraph.now division
        × Pushed S.holds lines.old lines.new (frame_lines frame.now division)) }
    ensures only_memory { ¬ P.may_overflow parts.now → OnlyMemoryRunsOut result }
    ensures no_overflow { ¬ MayPass64BitsWith (P.may parts.now) (frame_settings frame.now)
        paragraph.now → OnlyMemoryRunsOut result }
{
    let Some(methods) = built_in else {
        if parts.takes_what_fits() && parts.has_points() {
            return Ok(push_with_points(alloc, paragraph, parts, frame, lines)?);
        }
        return push_divided(alloc, paragraph, parts, frame, lines);
    };
    let BuiltInAlgorithm::OptimalFit(penalties) = methods.algorithm else {
        let splitter = methods.splitter;
        return Ok(push_by_first_fit(alloc, paragraph, parts, frame, splitter, lines)?);
    };
    if !suits_search(paragraph, frame, &penalties) {
        return push_divided(alloc, paragraph, parts, frame, lines);
    }
    let found = parts.word_cuts(paragraph)?;
    let cuts = Cuts {
        words: found.as_deref(),
        splitter: methods.splitter,
    };
    Ok(push_by_least_cost(alloc, paragraph, frame, &cuts, &penalties, lines)?)
}

/// The same by lists of its words and pieces.
///
/// # Errors
/// Those of [`wrap`].
fn push_divided<'t, A: Allocator + Copy, S: LineSink<'t, A>, P: Parts<A>>(
    alloc: A,
    paragraph: &'t str,
    parts: &P,
    frame: &Frame<'_>,
    lines: &mut S,
) -> Result<(), WrapError>
    ensures name { S.name lines.new ≡ S.name lines.old }
    ensures taken { OnOk result ((division : List (List WordText))
        × DividesWith (P.may parts.now) (frame_settings frame.now)
        frame.now.is_later paragraph.now division
        × Pushed S.holds lines.old lines.new (frame_lines frame.now division)) }
    ensures only_memory { ¬ P.may_overflow parts.now → OnlyMemoryRunsOut result }
    ensures no_overflow { ¬ MayPass64BitsWith (P.may parts.now) (frame_settings frame.now)
        paragraph.now → OnlyMemoryRunsOut result }
{
    let pieces = find_pieces(alloc, paragraph, frame, parts)?;
    let line_widths = [frame.first_columns, frame.later_columns];
    let division = parts.divide(alloc, &pieces, &line_widths)?;
    Ok(push_lines(alloc, paragraph, &division, frame, lines)?)
}

/// The first paragraph of the text, and what follows its ending, if it has one. Cut at LF, the text
/// `"a\nb\nc"` has the first paragraph `"a"`, which `"b\nc"` follows; nothing follows in `"a"`.
pub fn split_paragraph(text: &str, line_ending: LineEnding) -> (&str, Option<&str>)
    ensures paragraphs { MatchOption result.1
        (paragraphs_of line_ending text.now ≡ result.0.now ∷ [])
        (λ after. paragraphs_of line_ending text.now
        ≡ result.0.now ∷ paragraphs_of line_ending after.now) }
    ensures shorter { IfSome result.1 (λ after. length after.now < length text.now) }
{
    // A line feed alone is one byte, which is found sooner than a text.
    match line_ending {
        LineEnding::LF => match text.split_once('\n') {
            Some((paragraph, after)) => (paragraph, Some(after)),
            None => (text, None),
        },
        LineEnding::CRLF => match text.split_once("\r\n") {
            Some((paragraph, after)) => (paragraph, Some(after)),
            None => (text, None),
        },
    }
}

/// Appends the lines of one paragraph, as [`wrap`] does for each. The initial indent is used only
/// where the list has no line yet. At an error the list stays as it was.
///
/// At 10 columns, by first fit and with the initial indent `>>>`, `foobar ba` is appended as one
/// line, if a line stands before it.
///
/// # Errors
/// [`WrapError::Memory`] where memory runs out, or a function of the caller says so.
/// [`WrapError::Overflow`] only where a function of the caller gives the points of words and
/// optimal fit divides them.
pub fn wrap_single_line<'t, A: Allocator + Copy>(
    alloc: A,
    line: &'t str,
    options: &Options<'_>,
    lines: &mut Vec<CowStr<'t, A>, A>,
) -> Result<(), WrapError>
    ensures appended { AppendsLines (MayOverflow options.now)
        (AreParagraphParts (settings_view options.now) (DividesBy options.now)
        (nat_lt 0 (length lines.old.items)) line.now) lines.old.items lines.new.items result }
    // Overflow needs pieces that are together wider than 64 bits can say.
    ensures no_overflow { ¬ MayPass64Bits options.now line.now → OnlyMemoryRunsOut result }
    // By built-in parts, without an initial indent, these are lines of the slow path.
    ensures as_slow_path { HasBuiltInParts options.now → options.now.initial_indent.now ≡ []
        → OnOk result ((parts : List LineParts)
        × AreDividedParts (settings_view options.now) (DividesBy options.now)
        (nat_lt 0 (length lines.old.items)) line.now parts
        × Adds lines.old.items lines.new.items parts) }
{
    // A list of its own, so that an error leaves the other as it was.
    let mut own = Vec::new(alloc);
    let mut found = ListedLines { lines: &mut own };
    let is_later = !lines.is_empty();
    push_paragraph_by(
        alloc,
        line,
        Layout::of(options),
        options,
        is_later,
        &mut found,
    )?;
    Ok(lines.append(&mut own)?)
}

/// Pushes the lines of one paragraph by this layout and any parts. `is_later` says that a line stands
/// before them.
///
/// # Errors
/// Those of [`wrap`].
pub fn push_paragraph_by<'t, A: Allocator + Copy, S: LineSink<'t, A>, P: Parts<A>>(
    alloc: A,
    paragraph: &'t str,
    layout: Layout<'_>,
    parts: &P,
    is_later: bool,
    lines: &mut S,
) -> Result<(), WrapError>
    ensures name { S.name lines.new ≡ S.name lines.old }
    ensures taken { OnOk result ((own : List LineParts)
        × AreParagraphParts (layout_view layout.entry)
        (DividesWith (P.may parts.now) (layout_view layout.entry)) is_later paragraph.now own
        × Pushed S.holds lines.old lines.new (cut_lines 0 own)) }
    ensures only_memory { ¬ P.may_overflow parts.now → OnlyMemoryRunsOut result }
    ensures no_overflow { ¬ MayPass64BitsWith (P.may parts.now) (layout_view layout.entry)
        paragraph.now → OnlyMemoryRunsOut result }
{
    let frame = Frame::at(layout, is_later);
    push_paragraph(alloc, paragraph, parts, &frame, &parts.built_in(), lines)
}

/// Whether a paragraph is one line as a whole, with this indent before it in so many columns.
pub(crate) fn is_one_line(paragraph: &str, indent: &str, width: usize) -> bool
    ensures { result ≡ ((length indent.now == 0) && nat_lt (length paragraph.now) width) }
{
    indent.is_empty() && paragraph.len() < width
}

/// The line of a paragraph that is one as a whole.
pub(crate) fn whole_line<'t>(paragraph: &'t str, layout: &Layout<'_>) -> &'t str
    ensures { result.now ≡ (if layout.now.preserve_trailing_space then paragraph.now
        else without_final_blanks paragraph.now) }
{
    if layout.preserve_trailing_space {
        return paragraph;
    }
    split_final_blanks(paragraph).0
}

/// Appends the lines of one paragraph, dividing its pieces however short it is. At an error the
/// list stays as it was.
///
/// At 10 columns, by first fit and with the initial indent `>>>`, `foobar ba` is appended as
/// `foobar` and `ba`, if a line stands before it: unless paragraphs are even, the first line of each
/// is divided for the 7 columns that the indent leaves.
///
/// # Errors
/// [`WrapError::Memory`] where memory runs out, or a function of the caller says so.
/// [`WrapError::Overflow`] only where a function of the caller gives the points of words and
/// optimal fit divides them.
pub fn wrap_single_line_slow_path<'t, A: Allocator + Copy>(
    alloc: A,
    line: &'t str,
    options: &Options<'_>,
    lines: &mut Vec<CowStr<'t, A>, A>,
) -> Result<(), WrapError>
    ensures appended { AppendsLines (MayOverflow options.now)
        (AreDividedParts (settings_view options.now) (DividesBy options.now)
        (nat_lt 0 (length lines.old.items)) line.now) lines.old.items lines.new.items result }
    // Overflow needs pieces that are together wider than 64 bits can say.
    ensures no_overflow { ¬ MayPass64Bits options.now line.now → OnlyMemoryRunsOut result }
    // By first fit and a built-in splitter, where words are broken, a line passes its width only
    // where it is one piece with one character that takes columns.
    ensures overlong { options.now.wrap_algorithm ≡ FirstFit
        → splitter_view options.now.word_splitter ≢ None → options.now.break_words ≡ true
        → OnOk result ((division : List (List WordText))
        × DividesBy options.now (nat_lt 0 (length lines.old.items)) line.now division
        × Adds lines.old.items lines.new.items (parts_from (settings_view options.now)
        (nat_lt 0 (length lines.old.items)) division)
        × OnlyCharactersPass (widths_of (settings_view options.now)
        (nat_lt 0 (length lines.old.items))) 0 division) }
{
    let frame = Frame::at(Layout::of(options), !lines.is_empty());
    let mut own = Vec::new(alloc);
    let mut found = ListedLines { lines: &mut own };
    push_divided(alloc, line, options, &frame, &mut found)?;
    Ok(lines.append(&mut own)?)
}

/// Pushes the line of each list of pieces. Together they tile the paragraph, or its beginning.
pub(crate) fn push_lines<'t, A: Allocator + Copy, S: LineSink<'t, A>>(
    alloc: A,
    paragraph: &'t str,
    division: &[&[Word<'_>]],
    frame: &Frame<'_>,
    lines: &mut S,
) -> Result<(), AllocError>
    requires { StartsWith paragraph.now
        (flat_map (λ line. tiled (map word_view line.now)) division.now) }
    ensures name { S.name lines.new ≡ S.name lines.old }
    ensures pushed { OnOk result (Pushed S.holds lines.old lines.new (frame_lines frame.now
        (map (λ line. map word_view line.now) division.now))) }
{
    let layout = &frame.layout;
    let mut start = 0;
    let mut has_line = frame.is_later;
    for pieces in division {
        start = push_line(alloc, paragraph, start, pieces, layout, has_line, lines)?;
        has_line = true;
    }
    Ok(())
}

/// Pushes the line of the pieces that stand in the paragraph from `start` on, and returns where they
/// end.
pub(crate) fn push_line<'t, A: Allocator + Copy, S: LineSink<'t, A>>(
    alloc: A,
    paragraph: &'t str,
    start: usize,
    pieces: &[Word<'_>],
    layout: &Layout<'_>,
    is_later: bool,
    lines: &mut S,
) -> Result<usize, AllocError>
    requires start { IsCharBoundary paragraph.now start }
    requires begins { StartsWith (drop start paragraph.now) (tiled (map word_view pieces.now)) }
    ensures name { S.name lines.new ≡ S.name lines.old }
    ensures line { OnOk result (Pushed S.holds lines.old lines.new (cut_lines start
        (parts_of (layout_view layout.now) is_later (map word_view pieces.now) ∷ []))) }
    ensures end { IfOk result (λ end. end ≡ start + length (tiled (map word_view pieces.now))) }
    ensures boundary { IfOk result (λ end. IsCharBoundary paragraph.now end) }
{
    let Some((last, front)) = pieces.split_last() else {
        lines.push_line(alloc, "", start, "", "")?;
        return Ok(start);
    };
    let bounds = bounds_of(paragraph, start, front, last);
    let indent = next_indent(layout, is_later);
    push_between(
        alloc,
        paragraph,
        bounds,
        layout,
        indent,
        last.penalty,
        lines,
    )?;
    Ok(bounds.end)
}

/// Where the line of the pieces stands, of which this is the last.
fn bounds_of(paragraph: &str, start: usize, front: &[Word<'_>], last: &Word<'_>) -> LineBounds
    requires start { IsCharBoundary paragraph.now start }
    requires begins { StartsWith (drop start paragraph.now)
        (tiled (map word_view (front.now ++ last.now ∷ []))) }
    ensures bounds { AreBounds paragraph.now result }
    ensures start { result.start ≡ start }
    ensures word_end { result.word_end
        ≡ start + length (covered (map word_view (front.now ++ last.now ∷ []))) }
    ensures end { result.end
        ≡ start + length (tiled (map word_view (front.now ++ last.now ∷ []))) }
{
    let word_end = start + tiled_len(front) + last.word.as_bytes().len();
    LineBounds {
        start,
        word_end,
        end: word_end + last.whitespace.as_bytes().len(),
    }
}

/// The bytes of the pieces with their whitespace.
fn tiled_len(pieces: &[Word<'_>]) -> usize
    requires { length (tiled (map word_view pieces.now)) < text_limit }
    ensures len { result ≡ length (tiled (map word_view pieces.now)) }
    ensures utf8 { IsUtf8 (tiled (map word_view pieces.now)) }
{
    let mut len = 0;
    for piece in pieces {
        len += piece.word.as_bytes().len() + piece.whitespace.as_bytes().len();
    }
    len
}
