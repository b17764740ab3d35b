//! Balanced lines and their width, styles over line ends, and widths that fit the cells of a table.
use super::hyphens::AT_11;
use super::places::{
    LinesRow, NO_OFFSET, NONE, OffsetsRow, RefusedLines, assert_lines, assert_no_lines,
    assert_offsets,
};
use super::plain::{AT_6, BEFORE, DEFAULTS, LinesCall, OffsetsCall, assert_told};
use std::alloc::Global;
use textwrap_calls::options::TextwrapOptions;
use textwrap_calls::status::{DONE, NOT_UTF8, TOO_SMALL, UNKNOWN_OPTIONS};
use textwrap_calls::texts::TextwrapText;
use textwrap_more_calls::balancing::textwrap_balanced_width;

/// A text that takes two lines at 40 columns.
const TITLE: &[u8] = b"It was the best of times, it was the worst";

/// The defaults at 40 columns. Their algorithm is not used.
const AT_40: TextwrapOptions<'_> = TextwrapOptions {
    width: 40,
    ..DEFAULTS
};

/// The same with a later indent.
const QUOTED: TextwrapOptions<'_> = TextwrapOptions {
    subsequent_indent: b"> ",
    ..AT_40
};

/// The same with an indent that is no text.
const NO_TEXT_INDENT: TextwrapOptions<'_> = TextwrapOptions {
    subsequent_indent: b"\xff",
    ..AT_40
};

/// Balanced lines are reported as those of a text are.
#[rattlefmt::skip]
const BALANCED: &[LinesRow] = &[
    ((LinesCall::WrapBalanced(AT_40), TITLE), (DONE, 2, 0), (&[(0, 18, 0), (19, 23, 0), NONE], b"")),
    ((LinesCall::WrapBalanced(AT_40), TITLE), (TOO_SMALL, 2, 0), (&[(0, 18, 0)], b"")),
    ((LinesCall::WrapBalanced(QUOTED), TITLE), (DONE, 2, 18), (&[(0, 25, 0), (0, 18, 1), NONE], b"> it was the worst____")),
    ((LinesCall::WrapBalanced(QUOTED), TITLE), (TOO_SMALL, 2, 18), (&[(0, 25, 0), (0, 18, 1)], b"> it was t")),
    ((LinesCall::WrapBalanced(TextwrapOptions { unicode_breaks: 1, width: 12, ..DEFAULTS }), b"either/or not"), (DONE, 2, 0), (&[(0, 7, 0), (7, 6, 0), NONE], b"")),
    // A word that is wider than a line is broken at the width of the options.
    ((LinesCall::WrapBalanced(AT_6), b"a wonderful word"), (DONE, 4, 0), (&[(0, 1, 0), (2, 6, 0), (8, 3, 0), (12, 4, 0), NONE], b"")),
];

/// Lines of which the first leaves two attributes open, and the second ends one of them.
#[rattlefmt::skip]
const COLOURED: &[TextwrapText<'_>] = &[TextwrapText { bytes: b"a \x1b[1;31mb" }, TextwrapText { bytes: b"c\x1b[39md" }, TextwrapText { bytes: b"e" }];

/// A line that is no text.
const NO_TEXT: &[TextwrapText<'_>] = &[TextwrapText { bytes: b"\xff" }];

/// Each line sets anew what is open, of each attribute the last setting alone.
#[rattlefmt::skip]
const ATTRIBUTES: &[LinesRow] = &[
    ((LinesCall::CarryAttributes(COLOURED, AT_6), b""), (DONE, 3, 43),
        (&[(0, 14, 1), (14, 20, 1), (34, 9, 1), NONE], b"a \x1b[1;31mb\x1b[0m\x1b[1m\x1b[31mc\x1b[39md\x1b[0m\x1b[1me\x1b[0m__")),
    ((LinesCall::CarryAttributes(COLOURED, AT_6), b""), (TOO_SMALL, 3, 43), (&[(0, 14, 1)], b"a \x1b[1;31mb\x1b[0m\x1b[1m\x1b[31mc")),
];

/// The texts of two columns, row by row.
#[rattlefmt::skip]
const CELLS: &[TextwrapText<'_>] = &[
    TextwrapText { bytes: b"-h" },
    TextwrapText { bytes: b"Print this help." },
    TextwrapText { bytes: b"--width N" },
    TextwrapText { bytes: b"Wrap at N columns." },
];

/// Columns share a total by what stands in them.
#[rattlefmt::skip]
const WIDTHS: &[OffsetsRow] = &[
    (OffsetsCall::FittingWidths(CELLS, 2, 20), (DONE, 2), &[8, 12, NO_OFFSET]),
    (OffsetsCall::FittingWidths(CELLS, 2, 20), (TOO_SMALL, 2), &[8]),
    // Columns without texts share evenly, and the first gets what is left over.
    (OffsetsCall::FittingWidths(&[], 3, 10), (DONE, 3), &[4, 3, 3, NO_OFFSET]),
    (OffsetsCall::FittingWidths(CELLS, 0, 20), (DONE, 0), &[NO_OFFSET]),
    (OffsetsCall::FittingWidths(NO_TEXT, 2, 20), (NOT_UTF8, BEFORE), &[NO_OFFSET]),
];

/// What is not known is refused before what is no text.
#[rattlefmt::skip]
const REFUSED_LINES: &[RefusedLines] = &[
    (UNKNOWN_OPTIONS, &[(LinesCall::WrapBalanced(TextwrapOptions { version: 1, ..AT_40 }), b"\xff"),
        (LinesCall::CarryAttributes(NO_TEXT, TextwrapOptions { version: 1, ..AT_40 }), b"")]),
    (NOT_UTF8, &[
        (LinesCall::WrapBalanced(AT_40), b"a \xff"),
        (LinesCall::WrapBalanced(NO_TEXT_INDENT), b"a"),
        (LinesCall::CarryAttributes(NO_TEXT, AT_6), b""),
        (LinesCall::CarryAttributes(&[], NO_TEXT_INDENT), b""),
    ]),
];

#[test]
fn lines_are_balanced_and_columns_fitted(rt: HostRuntime) {
    assert_lines(&rt, BALANCED);
    assert_no_lines(&rt, REFUSED_LINES);
    assert_lines(&rt, ATTRIBUTES);
    assert_offsets(&rt, WIDTHS);
}

/// The status and the width that are told of a text.
fn told_balanced_width(alloc: Global, text: &[u8], options: &TextwrapOptions<'_>) -> (u32, usize) {
    let mut width = BEFORE;
    let status = textwrap_balanced_width(alloc, text, options, &mut width);
    (status, width)
}

/// A text, options, and the status and the width that are told.
///
/// The least width that takes no more lines, or that of the options where some piece has no room at it.
#[rattlefmt::skip]
const BALANCED_WIDTHS: &[(&[u8], TextwrapOptions<'_>, (u32, usize))] = &[
    (TITLE, AT_40, (DONE, 23)),
    (TITLE, QUOTED, (DONE, 25)),
    (b"either/or not", TextwrapOptions { unicode_breaks: 1, width: 12, ..DEFAULTS }, (DONE, 7)),
    (b"a wonderful word", AT_6, (DONE, 6)),
    // By a dictionary: `the hy-` and `phenation`.
    (b"the hyphenation", AT_11, (DONE, 9)),
    (b"", AT_40, (DONE, 0)),
    (b"\xff", TextwrapOptions { version: 1, ..AT_40 }, (UNKNOWN_OPTIONS, BEFORE)),
    (b"\xff", AT_40, (NOT_UTF8, BEFORE)),
    (b"a", NO_TEXT_INDENT, (NOT_UTF8, BEFORE)),
];

#[test]
fn a_text_has_a_balanced_width(rt: HostRuntime) {
    for (row, &(text, options, expected)) in BALANCED_WIDTHS.iter().enumerate() {
        let told = told_balanced_width(rt.alloc(), text, &options);
        assert_told(&rt, row, told, expected);
    }
}
