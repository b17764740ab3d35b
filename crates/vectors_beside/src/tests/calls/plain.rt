//! What the tests share: options, the calls that write alike, and the assertions. A call is made here
//! alone, in a function without clauses, so that no test has to prove what the call promises.
use super::known::{write_known_lines, write_known_text};
use std::alloc::Global;
use std::process::Abort;
use textwrap_calls::columns::{TextwrapGaps, textwrap_rows_of_lines, textwrap_wrap_columns};
use textwrap_calls::dictionary::TextwrapDictionary;
use textwrap_calls::display::{
    textwrap_align, textwrap_expand_tabs, textwrap_fill_justified, textwrap_justify,
    textwrap_shorten, textwrap_shorten_by,
};
use textwrap_calls::filling::textwrap_fill;
use textwrap_calls::indentation::{textwrap_dedent, textwrap_indent};
use textwrap_calls::line_lists::{
    textwrap_carry_styles, textwrap_shorten_lines, textwrap_shorten_lines_by,
};
use textwrap_calls::options::{TextwrapOptions, VERSION};
use textwrap_calls::refilling::{TextwrapLayout, textwrap_refill, textwrap_unfill};
use textwrap_calls::reflowing::{TextwrapReflowOptions, textwrap_reflow};
use textwrap_calls::texts::TextwrapText;
use textwrap_calls::widths::textwrap_strip_ansi_escape_sequences;
use textwrap_calls::wrapping::{TextwrapLine, textwrap_wrap};
use textwrap_more_calls::attributes::textwrap_carry_attributes;
use textwrap_more_calls::balancing::textwrap_wrap_balanced;
use textwrap_more_calls::breaks::textwrap_unicode_cuts;
use textwrap_more_calls::fitting::textwrap_fitting_widths;
use textwrap_more_calls::fragments::{
    TextwrapFragment, TextwrapPenalties, textwrap_wrap_first_fit, textwrap_wrap_optimal_fit,
};
use textwrap_more_calls::hyphens::points::textwrap_hyphen_points;
use textwrap_more_calls::justified_steps::textwrap_fill_justified_at;
use textwrap_more_calls::pieces::{
    TextwrapPiece, textwrap_break_apart, textwrap_find_words_at, textwrap_pieces,
    textwrap_split_points, textwrap_split_points_outside,
};
use textwrap_more_calls::steps::{
    TextwrapSteps, textwrap_ends_at, textwrap_lines_at, textwrap_pieces_at,
};
use textwrap_more_calls::tables::{
    TextwrapCell, TextwrapColumn, textwrap_table, textwrap_table_of_lines,
};
use textwrap_more_calls::terminal::textwrap_strip_other_sequences;
use textwrap_more_calls::text_steps::{textwrap_fill_at, textwrap_wrap_at};

/// The library's defaults at 10 columns.
pub(super) const DEFAULTS: TextwrapOptions<'_> = TextwrapOptions {
    version: VERSION,
    optimal_fit: 1,
    split_at_hyphens: 1,
    break_words: 1,
    preserve_trailing_space: 0,
    even_paragraphs: 0,
    crlf: 0,
    unicode_breaks: 0,
    width: 10,
    initial_indent: b"",
    subsequent_indent: b"",
    nline_penalty: 1000,
    overflow_penalty: 2500,
    short_last_line_fraction: 4,
    short_last_line_penalty: 25,
    hyphen_penalty: 25,
    dictionary: NO_DICTIONARY,
    reserved_sizes: [0; 4],
};

/// A dictionary without numbers.
pub(super) const NO_DICTIONARY: TextwrapDictionary<'_> = TextwrapDictionary {
    numbers: &[],
    in_parts: 0,
    is_checked: 0,
    soft_hyphens: 0,
    reserved: 0,
    left: 0,
    right: 0,
};

/// First fit at 16 columns with nothing declared, for texts with marks.
pub(super) const REFLOWED: TextwrapReflowOptions<'_> = TextwrapReflowOptions {
    version: VERSION,
    optimal_fit: 0,
    ending: 0,
    markdown: 0,
    bare: 0,
    indented: 0,
    justify: 0,
    reserved: 0,
    width: 16,
    markers: &[],
    prefixes: &[],
    nline_penalty: 1000,
    overflow_penalty: 2500,
    short_last_line_fraction: 4,
    short_last_line_penalty: 25,
    hyphen_penalty: 25,
    reserved_sizes: [0; 4],
};

/// The defaults at 4 columns.
pub(super) const AT_4: TextwrapOptions<'_> = TextwrapOptions {
    width: 4,
    ..DEFAULTS
};

/// The defaults at 5 columns.
pub(super) const AT_5: TextwrapOptions<'_> = TextwrapOptions {
    width: 5,
    ..DEFAULTS
};

/// The defaults at 6 columns.
pub(super) const AT_6: TextwrapOptions<'_> = TextwrapOptions {
    width: 6,
    ..DEFAULTS
};

/// The defaults at 80 columns.
pub(super) const AT_80: TextwrapOptions<'_> = TextwrapOptions {
    width: 80,
    ..DEFAULTS
};

/// Each character on a line of its own, after an indent that has the first line for itself.
pub(super) const NARROW: TextwrapOptions<'_> = TextwrapOptions {
    optimal_fit: 0,
    width: 1,
    initial_indent: b"**",
    subsequent_indent: b">",
    ..DEFAULTS
};

/// A text whose lines at 10 columns differ by algorithm and penalties.
pub(super) const HAMLET: &[u8] = b"To be, or not to be: that is the question";

/// No gaps around the cells of a row.
pub(super) const NO_GAPS: TextwrapGaps<'_> = TextwrapGaps {
    left: b"",
    middle: b"",
    right: b"",
    reserved_sizes: [0; 4],
};

/// Bars around the cells of a row.
pub(super) const BARS: TextwrapGaps<'_> = TextwrapGaps {
    left: b"|",
    middle: b"|",
    right: b"|",
    reserved_sizes: [0; 4],
};

/// Gaps with a number that means nothing.
pub(super) const UNKNOWN_GAPS: TextwrapGaps<'_> = TextwrapGaps {
    reserved_sizes: [0, 0, 0, 1],
    ..BARS
};

/// What a number is before a call, which writes over it or leaves it.
pub(super) const BEFORE: usize = 97;

/// What a byte of the room is before a call.
pub(super) const BLANK: u8 = b'_';

/// A line that stands nowhere.
pub(super) const NOWHERE: TextwrapLine = TextwrapLine {
    offset: 99,
    len: 99,
    is_built: 99,
};

/// A piece that stands nowhere.
pub(super) const NO_PIECE: TextwrapPiece = TextwrapPiece {
    offset: 99,
    len: 99,
    whitespace_len: 99,
    penalty_len: 99,
    width: 99,
};

/// A layout that no text has.
pub(super) const NO_LAYOUT: TextwrapLayout = TextwrapLayout {
    width: 99,
    crlf: 99,
    initial_indent_len: 99,
    subsequent_indent_len: 99,
    reserved_sizes: [99; 4],
};

/// A call that writes one text into room, and what it is given beside a text.
#[derive(Clone, Copy)]
pub(super) enum TextCall<'a> {
    Fill(TextwrapOptions<'a>),
    Refill(TextwrapOptions<'a>),
    Unfill,
    Indent(&'a [u8]),
    Dedent,
    /// The width, and the number of the alignment.
    Align(usize, u32),
    Justify(usize),
    ExpandTabs(usize),
    FillJustified(TextwrapOptions<'a>),
    Reflow(TextwrapReflowOptions<'a>),
    /// The width, and what a cut line ends in.
    Shorten(usize, &'a [u8]),
    /// The same, and whether words are broken.
    ShortenBy(usize, &'a [u8], u32),
    Strip,
    StripOther,
    FillAt(&'a [TextwrapSteps<'a>], TextwrapOptions<'a>),
    JustifyAt(&'a [TextwrapSteps<'a>], TextwrapOptions<'a>),
}

/// Makes the call. Answers the status. Where the text is known to be UTF-8, and there is a call for such
/// texts, it is that.
pub(super) fn write_text(
    alloc: Global,
    is_known: bool,
    call: TextCall<'_>,
    text: &[u8],
    room: &mut [u8],
    len: &mut usize,
) -> u32 {
    if is_known {
        if let Some(status) = write_known_text(alloc, call, text, room, len) {
            return status;
        }
    }
    match call {
        TextCall::Fill(options) => textwrap_fill(alloc, text, &options, room, len),
        TextCall::Refill(options) => textwrap_refill(alloc, text, &options, room, len),
        TextCall::Unfill => write_unfilled(text, room, len),
        TextCall::Indent(prefix) => textwrap_indent(text, prefix, room, len),
        TextCall::Dedent => textwrap_dedent(text, room, len),
        TextCall::Align(width, alignment) => {
            textwrap_align(alloc, text, width, alignment, room, len)
        }
        TextCall::Justify(width) => textwrap_justify(alloc, text, width, room, len),
        TextCall::ExpandTabs(stop) => textwrap_expand_tabs(alloc, text, stop, room, len),
        TextCall::FillJustified(options) => {
            textwrap_fill_justified(alloc, text, &options, room, len)
        }
        TextCall::Reflow(options) => textwrap_reflow(alloc, text, &options, room, len),
        TextCall::Shorten(width, placeholder) => {
            textwrap_shorten(alloc, text, width, placeholder, room, len)
        }
        TextCall::ShortenBy(width, placeholder, break_words) => textwrap_shorten_by(
            alloc,
            text,
            width,
            placeholder,
            break_words,
            room,
            len,
        ),
        TextCall::Strip => textwrap_strip_ansi_escape_sequences(alloc, text, room, len),
        TextCall::StripOther => textwrap_strip_other_sequences(alloc, text, room, len),
        TextCall::FillAt(steps, options) => {
            textwrap_fill_at(alloc, text, steps, &options, room, len)
        }
        TextCall::JustifyAt(steps, options) => {
            textwrap_fill_justified_at(alloc, text, steps, &options, room, len)
        }
    }
}

/// Unfills the text, without a layout.
fn write_unfilled(text: &[u8], room: &mut [u8], len: &mut usize) -> u32 {
    let mut layout = NO_LAYOUT;
    textwrap_unfill(text, room, len, &mut layout)
}

/// A call that writes lines and their room, and what it is given beside a text. Those that take a
/// list of texts take no other.
#[derive(Clone, Copy)]
pub(super) enum LinesCall<'a> {
    Wrap(TextwrapOptions<'a>),
    WrapBalanced(TextwrapOptions<'a>),
    /// How many columns, and what stands around them.
    Columns(usize, TextwrapOptions<'a>, TextwrapGaps<'a>),
    /// How many lines at most, their width, and what a cut one ends in.
    ShortenLines(&'a [TextwrapText<'a>], usize, usize, &'a [u8]),
    /// The same, and whether words are broken.
    ShortenLinesBy(&'a [TextwrapText<'a>], usize, usize, &'a [u8], u32),
    CarryStyles(&'a [TextwrapText<'a>], TextwrapOptions<'a>),
    CarryAttributes(&'a [TextwrapText<'a>], TextwrapOptions<'a>),
    Table(&'a [TextwrapText<'a>], &'a [TextwrapColumn<'a>], TextwrapGaps<'a>),
    /// How many columns, and the width of a row.
    RowsOfLines(&'a [TextwrapText<'a>], usize, usize, TextwrapGaps<'a>),
    TableOfLines(&'a [TextwrapCell<'a>], &'a [TextwrapColumn<'a>], TextwrapGaps<'a>),
    /// Cuts, points, ends, and whether a line stands before them.
    LinesAt(&'a [usize], &'a [usize], &'a [usize], TextwrapOptions<'a>, usize),
    WrapAt(&'a [TextwrapSteps<'a>], TextwrapOptions<'a>),
}

/// Makes the call, as `write_text` does.
pub(super) fn write_lines(
    alloc: Global,
    is_known: bool,
    call: LinesCall<'_>,
    text: &[u8],
    lines: &mut [TextwrapLine],
    count: &mut usize,
    room: &mut [u8],
    len: &mut usize,
) -> u32 {
    if is_known {
        if let Some(status) = write_known_lines(alloc, call, text, lines, count, room, len) {
            return status;
        }
    }
    match call {
        LinesCall::Wrap(options) => {
            textwrap_wrap(alloc, text, &options, lines, count, room, len)
        }
        LinesCall::WrapBalanced(options) => {
            textwrap_wrap_balanced(alloc, text, &options, lines, count, room, len)
        }
        LinesCall::Columns(columns, options, gaps) => textwrap_wrap_columns(
            alloc, text, columns, &options, &gaps, lines, count, room, len,
        ),
        LinesCall::ShortenLines(given, most, width, placeholder) => textwrap_shorten_lines(
            alloc,
            given,
            most,
            width,
            placeholder,
            lines,
            count,
            room,
            len,
        ),
        LinesCall::ShortenLinesBy(given, most, width, placeholder, break_words) =>
            textwrap_shorten_lines_by(
                alloc,
                given,
                most,
                width,
                placeholder,
                break_words,
                lines,
                count,
                room,
                len,
            ),
        LinesCall::CarryStyles(given, options) => textwrap_carry_styles(
            alloc, given, &options, lines, count, room, len,
        ),
        LinesCall::CarryAttributes(given, options) => textwrap_carry_attributes(
            alloc, given, &options, lines, count, room, len,
        ),
        LinesCall::Table(cells, columns, gaps) => textwrap_table(
            alloc, cells, columns, &gaps, lines, count, room, len,
        ),
        LinesCall::RowsOfLines(given, columns, width, gaps) => textwrap_rows_of_lines(
            alloc, given, columns, width, &gaps, lines, count, room, len,
        ),
        LinesCall::TableOfLines(cells, columns, gaps) => textwrap_table_of_lines(
            alloc, cells, columns, &gaps, lines, count, room, len,
        ),
        LinesCall::LinesAt(cuts, points, ends, options, is_later) => textwrap_lines_at(
            alloc, text, cuts, points, ends, &options, is_later, lines, count, room, len,
        ),
        LinesCall::WrapAt(steps, options) => {
            textwrap_wrap_at(alloc, text, steps, &options, lines, count, room, len)
        }
    }
}

/// A call that writes pieces, and what it is given beside a text.
#[derive(Clone, Copy)]
pub(super) enum PiecesCall<'a> {
    Pieces(TextwrapOptions<'a>),
    WordsAt(&'a [usize]),
    BreakApart(usize),
    /// Cuts and points.
    PiecesAt(&'a [usize], &'a [usize], TextwrapOptions<'a>),
}

/// Makes the call. Answers the status.
pub(super) fn write_pieces(
    alloc: Global,
    call: PiecesCall<'_>,
    text: &[u8],
    pieces: &mut [TextwrapPiece],
    count: &mut usize,
) -> u32 {
    match call {
        PiecesCall::Pieces(options) => textwrap_pieces(alloc, text, &options, pieces, count),
        PiecesCall::WordsAt(offsets) => {
            textwrap_find_words_at(alloc, text, offsets, pieces, count)
        }
        PiecesCall::BreakApart(width) => textwrap_break_apart(alloc, text, width, pieces, count),
        PiecesCall::PiecesAt(cuts, points, options) => textwrap_pieces_at(
            alloc, text, cuts, points, &options, pieces, count,
        ),
    }
}

/// A call that writes offsets, ends or widths, and all that it is given.
#[derive(Clone, Copy)]
pub(super) enum OffsetsCall<'a> {
    SplitPoints(&'a [u8]),
    SplitPointsOutside(&'a [u8]),
    UnicodeCuts(&'a [u8]),
    HyphenPoints(&'a [u8], TextwrapDictionary<'a>),
    /// How many columns, and their width together.
    FittingWidths(&'a [TextwrapText<'a>], usize, usize),
    /// The fragments, and the widths of lines.
    FirstFit(&'a [TextwrapFragment], &'a [usize]),
    OptimalFit(&'a [TextwrapFragment], &'a [usize], TextwrapPenalties),
    /// A paragraph, cuts, points, and whether a line stands before it.
    EndsAt(&'a [u8], &'a [usize], &'a [usize], TextwrapOptions<'a>, usize),
}

/// Makes the call. Answers the status.
pub(super) fn write_offsets(
    alloc: Global,
    call: OffsetsCall<'_>,
    offsets: &mut [usize],
    count: &mut usize,
) -> u32 {
    match call {
        OffsetsCall::SplitPoints(word) => textwrap_split_points(alloc, word, offsets, count),
        OffsetsCall::SplitPointsOutside(word) => {
            textwrap_split_points_outside(alloc, word, offsets, count)
        }
        OffsetsCall::UnicodeCuts(line) => textwrap_unicode_cuts(alloc, line, offsets, count),
        OffsetsCall::HyphenPoints(word, dictionary) => {
            textwrap_hyphen_points(alloc, &dictionary, word, offsets, count)
        }
        OffsetsCall::FittingWidths(cells, columns, total) => textwrap_fitting_widths(
            alloc, cells, columns, total, offsets, count,
        ),
        OffsetsCall::FirstFit(fragments, line_widths) => textwrap_wrap_first_fit(
            alloc,
            fragments,
            line_widths,
            offsets,
            count,
        ),
        OffsetsCall::OptimalFit(fragments, line_widths, penalties) => textwrap_wrap_optimal_fit(
            alloc,
            fragments,
            line_widths,
            &penalties,
            offsets,
            count,
        ),
        OffsetsCall::EndsAt(paragraph, cuts, points, options, is_later) => textwrap_ends_at(
            alloc, paragraph, cuts, points, &options, is_later, offsets, count,
        ),
    }
}

/// Asserts that the call of a row answered this status, and told this number.
pub(super) fn assert_told(rt: &impl Abort, row: usize, told: (u32, usize), expected: (u32, usize)) {
    assert!(rt; told == expected, "row {row}: {told:?}");
}

/// Asserts that a number is the one of a row.
pub(super) fn assert_number(rt: &impl Abort, row: usize, number: usize, expected: usize) {
    assert!(rt; number == expected, "row {row}: {number}");
}

/// Asserts that the room holds this after the call of a row.
pub(super) fn assert_room(rt: &impl Abort, row: usize, room: &[u8], expected: &[u8]) {
    assert!(rt; room == expected, "row {row}: {room:?}");
}

/// Asserts what else the row says.
pub(super) fn assert_holds(rt: &impl Abort, row: usize, holds: bool) {
    assert!(rt; holds, "row {row}");
}
