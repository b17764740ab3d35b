//! A paragraph in steps: pieces at cuts and points, and lines at ends.
use super::places::{
    LinesRow, NO_PLACE, NONE, PiecesRow, RefusedLines, RefusedPieces, assert_lines,
    assert_no_lines, assert_no_pieces, assert_pieces,
};
use super::plain::{BEFORE, DEFAULTS, LinesCall, PiecesCall};
use textwrap_calls::options::TextwrapOptions;
use textwrap_calls::status::{DONE, NOT_UTF8, TOO_SMALL, UNKNOWN_OPTIONS, WRONG_PLACES};

/// The defaults at 9 columns.
const AT_9: TextwrapOptions<'_> = TextwrapOptions {
    width: 9,
    ..DEFAULTS
};

/// The defaults at 20 columns.
const AT_20: TextwrapOptions<'_> = TextwrapOptions {
    width: 20,
    ..DEFAULTS
};

/// The paragraph `foo bär-baz`.
const PARAGRAPH: &[u8] = b"foo b\xc3\xa4r-baz";

/// The pieces of a paragraph at cuts and points.
#[rattlefmt::skip]
const PIECES: &[PiecesRow<'_>] = &[
    ((PiecesCall::PiecesAt(&[], &[], AT_20), PARAGRAPH), (DONE, 1), &[(0, 12, 0, 0, 11), NO_PLACE, NO_PLACE, NO_PLACE]),
    ((PiecesCall::PiecesAt(&[4], &[], AT_20), PARAGRAPH), (DONE, 2), &[(0, 3, 1, 0, 3), (4, 8, 0, 0, 7), NO_PLACE, NO_PLACE]),
    ((PiecesCall::PiecesAt(&[4], &[], AT_20), PARAGRAPH), (TOO_SMALL, 2), &[(0, 3, 1, 0, 3)]),
    // A point at a word's end, or in its blanks, is not used; after a hyphen none is added.
    ((PiecesCall::PiecesAt(&[4], &[2, 3, 4, 9], AT_20), PARAGRAPH), (DONE, 4), &[(0, 2, 0, 1, 2), (2, 1, 1, 0, 1), (4, 5, 0, 0, 4), (9, 3, 0, 0, 3)]),
    // What is wider than a line is broken.
    ((PiecesCall::PiecesAt(&[4], &[9], TextwrapOptions { width: 3, ..DEFAULTS }), PARAGRAPH),
        (DONE, 4), &[(0, 3, 1, 0, 3), (4, 4, 0, 0, 3), (8, 1, 0, 0, 1), (9, 3, 0, 0, 3)]),
];

/// The paragraph `foo bär`, whose character of two bytes stands at 5.
const OTHER: &[u8] = b"foo b\xc3\xa4r";

/// What is refused first; and cuts and points that are none: not increasing, at an end, inside a
/// character.
#[rattlefmt::skip]
const REFUSED_PIECES: &[RefusedPieces] = &[
    (UNKNOWN_OPTIONS, &[(PiecesCall::PiecesAt(&[9], &[], TextwrapOptions { version: 0, ..AT_9 }), OTHER)]),
    (NOT_UTF8, &[(PiecesCall::PiecesAt(&[9], &[], AT_9), b"\xff")]),
    (WRONG_PLACES, &[
        (PiecesCall::PiecesAt(&[4, 4], &[], AT_9), OTHER),
        (PiecesCall::PiecesAt(&[], &[5, 4], AT_9), OTHER),
        (PiecesCall::PiecesAt(&[0], &[], AT_9), OTHER),
        (PiecesCall::PiecesAt(&[8], &[], AT_9), OTHER),
        (PiecesCall::PiecesAt(&[], &[9], AT_9), OTHER),
        (PiecesCall::PiecesAt(&[], &[6], AT_9), OTHER),
    ]),
];

/// Ends that do not increase or are past the pieces, and a line that nobody knows.
#[rattlefmt::skip]
const REFUSED_LINES: &[RefusedLines] = &[
    (UNKNOWN_OPTIONS, &[(LinesCall::LinesAt(&[4, 8], &[], &[3], AT_9, 2), b"foo bar baz")]),
    (WRONG_PLACES, &[(LinesCall::LinesAt(&[4, 8], &[], &[2, 1], AT_9, 0), b"foo bar baz"), (LinesCall::LinesAt(&[4, 8], &[], &[4], AT_9, 0), b"foo bar baz")]),
];

#[test]
fn a_paragraph_has_pieces_at_cuts_and_points(rt: HostRuntime) {
    assert_pieces(&rt, PIECES);
    assert_no_pieces(&rt, REFUSED_PIECES);
}

/// Lines end where the caller says.
#[rattlefmt::skip]
const LINES: &[LinesRow] = &[
    // The pieces are `fo` with a hyphen, `o `, `bar ` and `baz`.
    ((LinesCall::LinesAt(&[4, 8], &[2], &[1, 3, 4], AT_9, 0), b"foo bar baz"), (DONE, 3, 3), (&[(0, 3, 1), (2, 5, 0), (8, 3, 0)], b"fo-_____")),
    // After other lines the first has the subsequent indent; pieces after the last end are in none.
    ((LinesCall::LinesAt(&[4, 8], &[], &[1], TextwrapOptions { subsequent_indent: b"> ", ..AT_9 }, 1), b"foo bar baz"),
        (DONE, 1, 5), (&[(0, 5, 1), NONE, NONE], b"> foo___")),
];

#[test]
fn lines_end_where_the_caller_says(rt: HostRuntime) {
    assert_lines(&rt, LINES);
    assert_no_lines(&rt, REFUSED_LINES);
}
