//! Lines and rows: where they stand in the text or in the room.
use super::places::{LinesRow, NONE, RefusedLines, assert_lines, assert_no_lines};
use super::plain::{AT_4, AT_5, AT_6, BARS, BEFORE, DEFAULTS, LinesCall, UNKNOWN_GAPS};
use textwrap_calls::columns::TextwrapGaps;
use textwrap_calls::options::TextwrapOptions;
use textwrap_calls::status::{DONE, NOT_UTF8, TOO_SMALL, UNKNOWN_OPTIONS};
use textwrap_calls::texts::TextwrapText;
use textwrap_more_calls::tables::{TextwrapCell, TextwrapColumn};

/// A line is a slice of the text, or with an indent a text of its own in the room. Where there is no
/// room for all, the first of them are told, and how many they are.
#[rattlefmt::skip]
const PLACES: &[LinesRow] = &[
    ((LinesCall::Wrap(TextwrapOptions { subsequent_indent: b"> ", ..AT_5 }), b"foo  bar"), (DONE, 2, 5), (&[(0, 3, 0), (0, 5, 1), NONE], b"> bar___")),
    ((LinesCall::Wrap(AT_5), b"foo  bar"), (TOO_SMALL, 2, 0), (&[(0, 3, 0)], b"")),
    ((LinesCall::Wrap(TextwrapOptions { subsequent_indent: b"> ", ..AT_5 }), b"foo  bar"), (TOO_SMALL, 2, 5), (&[(0, 3, 0), (0, 5, 1), NONE], b"> b")),
    ((LinesCall::Wrap(TextwrapOptions { subsequent_indent: b"> ", ..AT_5 }), b"foo  bar baz"), (TOO_SMALL, 3, 10), (&[(0, 3, 0), (0, 5, 1)], b"> bar> ba")),
    ((LinesCall::Wrap(AT_5), b"foo  bar"), (DONE, 2, 0), (&[(0, 3, 0), (5, 3, 0), NONE], b"")),
    // The second line is no part of the first one, which is a text of its own.
    ((LinesCall::Wrap(TextwrapOptions { initial_indent: b"* ", ..AT_6 }), b"foo foo"), (DONE, 2, 5), (&[(0, 5, 1), (4, 3, 0), NONE], b"* foo___")),
    // The empty line stands at its own paragraph, and not behind the line before it.
    ((LinesCall::Wrap(DEFAULTS), b"foo  \n\n  \nbar"), (DONE, 4, 0), (&[(0, 3, 0), (6, 0, 0), (7, 0, 0), (10, 3, 0)], b"")),
    // A short text is one line without its last blanks, whether it is printable ASCII or not.
    ((LinesCall::Wrap(DEFAULTS), b"foo  "), (DONE, 1, 0), (&[(0, 3, 0), NONE], b"")),
    ((LinesCall::Wrap(DEFAULTS), b"\xc3\xa9\t "), (DONE, 1, 0), (&[(0, 3, 0), NONE], b"")),
    // A line that is a line feed or a carriage return alone is not the one in the ending before it.
    ((LinesCall::Wrap(TextwrapOptions { crlf: 1, ..DEFAULTS }), b"a\r\n\n\r\n\r\r\nb"), (DONE, 4, 0), (&[(0, 1, 0), (3, 1, 0), (6, 1, 0), (9, 1, 0)], b"")),
];

/// Blanks at line ends are kept, with an indent of the first line.
const PRESERVED: TextwrapOptions<'_> = TextwrapOptions {
    optimal_fit: 0,
    preserve_trailing_space: 1,
    initial_indent: b"* ",
    width: 7,
    ..DEFAULTS
};

/// Blanks that are preserved are part of the line before, also of a built one.
#[rattlefmt::skip]
const BLANKS: &[LinesRow] = &[
    ((LinesCall::Wrap(PRESERVED), b"foo bar  baz\nqux qux"), (DONE, 5, 6), (&[(0, 6, 1), (4, 5, 0), (9, 3, 0), (13, 4, 0), (17, 3, 0)], b"* foo __")),
    ((LinesCall::Wrap(TextwrapOptions { even_paragraphs: 1, ..PRESERVED }), b"foo bar  baz\nqux qux"),
        (DONE, 4, 6), (&[(0, 6, 1), (4, 5, 0), (9, 3, 0), (13, 7, 0), NONE], b"* foo __")),
];

/// A text in columns.
#[rattlefmt::skip]
const IN_COLUMNS: &[LinesRow] = &[
    ((LinesCall::Columns(4, TextwrapOptions { width: 24, ..DEFAULTS }, BARS), b"Foo Bar Baz Quux"),
        (DONE, 1, 24), (&[(0, 24, 1), NONE], b"|Foo |Bar |Baz |Quux   |________")),
];

/// Lines of which the first leaves a style open.
#[rattlefmt::skip]
const STYLED: &[TextwrapText<'_>] = &[TextwrapText { bytes: b"\x1b[1mone" }, TextwrapText { bytes: b"two" }];

/// The same, with one line more.
#[rattlefmt::skip]
const STYLED_AND_ONE: &[TextwrapText<'_>] = &[TextwrapText { bytes: b"\x1b[1mone" }, TextwrapText { bytes: b"two" }, TextwrapText { bytes: b"three" }];

/// Lines are left out, and styles carried.
#[rattlefmt::skip]
const LISTS: &[LinesRow] = &[
    ((LinesCall::ShortenLines(STYLED_AND_ONE, 2, 6, b"..."), b""), (DONE, 2, 13), (&[(0, 7, 1), (7, 6, 1)], b"\x1b[1monetwo...___________________")),
    // There are fewer than may be kept.
    ((LinesCall::ShortenLines(STYLED_AND_ONE, usize::MAX, 6, b"..."), b""), (DONE, 3, 15),
        (&[(0, 7, 1), (7, 3, 1), (10, 5, 1)], b"\x1b[1monetwothree___________________")),
    ((LinesCall::ShortenLinesBy(STYLED_AND_ONE, 1, 3, b".", 1), b""), (DONE, 1, 11), (&[(0, 11, 1)], b"\x1b[1mon\x1b[0m._____________________")),
    ((LinesCall::CarryStyles(STYLED, AT_6), b""), (DONE, 2, 22), (&[(0, 11, 1), (11, 11, 1)], b"\x1b[1mone\x1b[0m\x1b[1mtwo\x1b[0m__________")),
];

/// A column of 4 whose lines stand at the left.
const LEFT: TextwrapColumn<'_> = TextwrapColumn {
    options: AT_4,
    alignment: 0,
    reserved: 0,
};

/// Columns of 4 and 5, whose lines stand at the left and at the right.
#[rattlefmt::skip]
const COLUMNS: &[TextwrapColumn<'_>] = &[LEFT, TextwrapColumn { options: AT_5, alignment: 1, reserved: 0 }];

/// Texts in two columns, the last of them alone.
#[rattlefmt::skip]
const CELLS: &[TextwrapText<'_>] = &[TextwrapText { bytes: b"foo bar" }, TextwrapText { bytes: b"1.5" }, TextwrapText { bytes: b"baz" }];

/// A cell that is no text.
const NO_TEXT: &[TextwrapText<'_>] = &[TextwrapText { bytes: b"\xff" }];

/// Texts stand in their columns, where there is room.
#[rattlefmt::skip]
const TABLES: &[LinesRow] = &[
    ((LinesCall::Table(CELLS, COLUMNS, BARS), b""), (TOO_SMALL, 3, 36), (&[(0, 12, 1), (12, 12, 1), (24, 12, 1)], b"|foo |  1.5||bar |     ||baz |     ")),
    ((LinesCall::Table(CELLS, COLUMNS, BARS), b""), (DONE, 3, 36), (&[(0, 12, 1), (12, 12, 1), (24, 12, 1)], b"|foo |  1.5||bar |     ||baz |     |")),
];

/// Lines of which the last column has fewer.
#[rattlefmt::skip]
const FEW_LINES: &[TextwrapText<'_>] = &[TextwrapText { bytes: b"Foo" }, TextwrapText { bytes: b"Bar" }, TextwrapText { bytes: b"Baz" }];

/// Gaps of which one is no text.
pub(super) const NO_TEXT_GAPS: TextwrapGaps<'_> = TextwrapGaps {
    middle: b"\xff",
    ..BARS
};

/// Lines in columns are the rows of the text that has these lines.
#[rattlefmt::skip]
const ROWS_OF_LINES: &[LinesRow] = &[
    ((LinesCall::RowsOfLines(&[TextwrapText { bytes: b"Foo" }, TextwrapText { bytes: b"Bar" }, TextwrapText { bytes: b"Baz" }, TextwrapText { bytes: b"Quux" }],
        4, 24, BARS), b""), (DONE, 1, 24), (&[(0, 24, 1), NONE], b"|Foo |Bar |Baz |Quux   |________")),
    // The first column is filled first, and the width that is left over stands at the end.
    ((LinesCall::RowsOfLines(FEW_LINES, 2, 12, BARS), b""), (DONE, 2, 24), (&[(0, 12, 1), (12, 12, 1)], b"|Foo |Baz  ||Bar |     |")),
    ((LinesCall::RowsOfLines(FEW_LINES, 2, 12, BARS), b""), (TOO_SMALL, 2, 24), (&[(0, 12, 1), (12, 12, 1)], b"|Foo |Baz  ||Bar |     ")),
    // Gaps that leave no room leave a width of 1, and lines are not cut.
    ((LinesCall::RowsOfLines(FEW_LINES, 2, 0, BARS), b""), (DONE, 2, 16), (&[(0, 9, 1), (9, 7, 1)], b"|Foo|Baz||Bar| |")),
    ((LinesCall::RowsOfLines(&[], usize::MAX, 24, BARS), b""), (DONE, 0, 0), (&[NONE], b"____")),
];

/// The lines of the texts in two columns, the last of them alone.
#[rattlefmt::skip]
const WRAPPED_CELLS: &[TextwrapCell<'_>] = &[
    TextwrapCell { lines: &[TextwrapText { bytes: b"foo" }, TextwrapText { bytes: b"bar" }] },
    TextwrapCell { lines: &[TextwrapText { bytes: b"1.5" }] },
    TextwrapCell { lines: &[TextwrapText { bytes: b"baz" }] },
];

/// A cell of which the last line is no text.
#[rattlefmt::skip]
const NO_TEXT_CELLS: &[TextwrapCell<'_>] = &[
    TextwrapCell { lines: &[] },
    TextwrapCell { lines: &[TextwrapText { bytes: b"foo" }, TextwrapText { bytes: b"\xff" }] },
];

/// A table of lines is that of the texts that have these lines.
#[rattlefmt::skip]
const TABLES_OF_LINES: &[LinesRow] = &[
    ((LinesCall::TableOfLines(WRAPPED_CELLS, COLUMNS, BARS), b""), (DONE, 3, 36),
        (&[(0, 12, 1), (12, 12, 1), (24, 12, 1)], b"|foo |  1.5||bar |     ||baz |     |")),
    ((LinesCall::TableOfLines(WRAPPED_CELLS, COLUMNS, BARS), b""), (TOO_SMALL, 3, 36), (&[(0, 12, 1), (12, 12, 1)], b"|foo |  1.5||bar |     ||baz |     |")),
    // A cell without lines takes no row, and there are none without columns.
    ((LinesCall::TableOfLines(&[TextwrapCell { lines: &[] }], COLUMNS, BARS), b""), (DONE, 0, 0), (&[NONE], b"____")),
    ((LinesCall::TableOfLines(WRAPPED_CELLS, &[], BARS), b""), (DONE, 0, 0), (&[NONE], b"____")),
];

/// No columns at all, columns that have an unknown alignment or a number in reserve, and gaps that are not
/// known are refused before what is no text.
#[rattlefmt::skip]
const REFUSED_LINES: &[RefusedLines] = &[
    (UNKNOWN_OPTIONS, &[
        (LinesCall::Columns(0, TextwrapOptions { width: 24, ..DEFAULTS }, BARS), b"Foo Bar Baz Quux"),
        (LinesCall::Columns(4, TextwrapOptions { width: 24, ..DEFAULTS }, UNKNOWN_GAPS), b"Foo Bar Baz Quux"),
        (LinesCall::Table(NO_TEXT, &[LEFT, TextwrapColumn { alignment: 3, ..LEFT }], BARS), b""),
        (LinesCall::Table(NO_TEXT, &[LEFT, TextwrapColumn { reserved: 1, ..LEFT }], BARS), b""),
        (LinesCall::Table(NO_TEXT, &[LEFT], UNKNOWN_GAPS), b""),
        (LinesCall::RowsOfLines(NO_TEXT, 0, 24, BARS), b""),
        (LinesCall::RowsOfLines(NO_TEXT, 1, 24, UNKNOWN_GAPS), b""),
        (LinesCall::TableOfLines(NO_TEXT_CELLS, &[TextwrapColumn { alignment: 3, ..LEFT }], BARS), b""),
        (LinesCall::TableOfLines(NO_TEXT_CELLS, COLUMNS, UNKNOWN_GAPS), b""),
    ]),
    (NOT_UTF8, &[
        (LinesCall::Table(NO_TEXT, COLUMNS, BARS), b""),
        (LinesCall::RowsOfLines(NO_TEXT, 1, 24, BARS), b""),
        (LinesCall::RowsOfLines(FEW_LINES, 1, 24, NO_TEXT_GAPS), b""),
        (LinesCall::TableOfLines(NO_TEXT_CELLS, COLUMNS, BARS), b""),
        (LinesCall::TableOfLines(WRAPPED_CELLS, COLUMNS, NO_TEXT_GAPS), b""),
    ]),
];

#[test]
fn lines_and_rows_are_places_in_the_text_or_in_the_room(rt: HostRuntime) {
    assert_lines(&rt, PLACES);
    assert_lines(&rt, BLANKS);
    assert_lines(&rt, IN_COLUMNS);
    assert_no_lines(&rt, REFUSED_LINES);
    assert_lines(&rt, LISTS);
    assert_lines(&rt, TABLES);
    assert_lines(&rt, ROWS_OF_LINES);
    assert_lines(&rt, TABLES_OF_LINES);
}
