//! Words and pieces, by where they stand, and the offsets where words may be split and lines cut.
use super::hyphens::AT_11;
use super::places::{
    NO_OFFSET, NO_PLACE, OffsetsRow, PiecesRow, RefusedPieces, assert_no_pieces, assert_offsets,
    assert_pieces,
};
use super::plain::{AT_4, BEFORE, OffsetsCall, PiecesCall};
use textwrap_calls::options::TextwrapOptions;
use textwrap_calls::status::{DONE, NOT_UTF8, TOO_SMALL, UNKNOWN_OPTIONS, WRONG_PLACES};

/// The pieces of a paragraph stand one after another, split and broken as the options say.
#[rattlefmt::skip]
const PIECES: &[PiecesRow<'_>] = &[
    ((PiecesCall::Pieces(AT_4), b"foo  ba-r"), (DONE, 3), &[(0, 3, 2, 0, 3), (5, 3, 0, 0, 3), (8, 1, 0, 0, 1), NO_PLACE]),
    ((PiecesCall::Pieces(TextwrapOptions { split_at_hyphens: 0, break_words: 0, ..AT_4 }), b"foo  ba-rr"),
        (DONE, 2), &[(0, 3, 2, 0, 3), (5, 5, 0, 0, 5), NO_PLACE, NO_PLACE]),
    // With an initial indent an empty piece stands before them. The text is `你好.`.
    ((PiecesCall::Pieces(TextwrapOptions { initial_indent: b"> ", ..AT_4 }), b"\xe4\xbd\xa0\xe5\xa5\xbd."),
        (DONE, 3), &[(0, 0, 0, 0, 0), (0, 6, 0, 0, 4), (6, 1, 0, 0, 1), NO_PLACE]),
    // By a dictionary a line that ends with the second or the third shows a hyphen.
    ((PiecesCall::Pieces(AT_11), b"the hyphenation"), (DONE, 4), &[(0, 3, 1, 0, 3), (4, 2, 0, 1, 2), (6, 4, 0, 1, 4), (10, 5, 0, 0, 5), NO_PLACE]),
    ((PiecesCall::Pieces(AT_4), b""), (DONE, 0), &[NO_PLACE, NO_PLACE, NO_PLACE, NO_PLACE]),
    ((PiecesCall::Pieces(AT_4), b"a b"), (TOO_SMALL, 2), &[(0, 1, 1, 0, 1)]),
];

/// Words are cut at offsets of the visible text, which increase and are character boundaries.
#[rattlefmt::skip]
const WORDS_AT: &[PiecesRow<'_>] = &[
    ((PiecesCall::WordsAt(&[4, 8, 11]), b"foo-bar baz"), (DONE, 2), &[(0, 7, 1, 0, 7), (8, 3, 0, 0, 3), NO_PLACE, NO_PLACE]),
    // Escape sequences do not count: `foo bar` is visible.
    ((PiecesCall::WordsAt(&[0, 4, 7]), b"\x1b[1mfoo\x1b[0m bar"), (DONE, 2), &[(0, 11, 1, 0, 3), (12, 3, 0, 0, 3), NO_PLACE, NO_PLACE]),
];

/// A word is broken where it is too wide.
#[rattlefmt::skip]
const BROKEN: &[PiecesRow<'_>] = &[
    ((PiecesCall::BreakApart(3), b"Hello!"), (DONE, 2), &[(0, 3, 0, 0, 3), (3, 3, 0, 0, 3), NO_PLACE, NO_PLACE]),
    ((PiecesCall::BreakApart(3), b""), (DONE, 0), &[NO_PLACE, NO_PLACE, NO_PLACE, NO_PLACE]),
];

/// Offsets of words that do not increase, are past the visible text, or inside a character.
#[rattlefmt::skip]
const REFUSED_PIECES: &[RefusedPieces] = &[
    (UNKNOWN_OPTIONS, &[(PiecesCall::Pieces(TextwrapOptions { version: 0, ..AT_4 }), b"a")]),
    (NOT_UTF8, &[(PiecesCall::BreakApart(3), b"a\xff")]),
    (WRONG_PLACES, &[
        (PiecesCall::WordsAt(&[8]), b"foo-bar"),
        (PiecesCall::WordsAt(&[4, 3]), b"foo bar"),
        (PiecesCall::WordsAt(&[4, 4]), b"foo bar"),
        (PiecesCall::WordsAt(&[4, 12]), b"\x1b[1mfoo\x1b[0m bar"),
        // Inside an `é`.
        (PiecesCall::WordsAt(&[1]), b"\xc3\xa9"),
    ]),
];

#[test]
fn pieces_are_words_that_are_split_and_broken(rt: HostRuntime) {
    assert_pieces(&rt, PIECES);
    assert_no_pieces(&rt, REFUSED_PIECES);
    assert_pieces(&rt, WORDS_AT);
    assert_pieces(&rt, BROKEN);
}

/// The line `foo-bar 日本`.
const UNICODE: &[u8] = b"foo-bar \xe6\x97\xa5\xe6\x9c\xac";

/// A link, with a hyphen in its address and one in what is shown.
const LINK: &[u8] = b"\x1b]8;;x-y\x1b\\b-c\x1b]8;;\x1b\\";

/// Words are split after hyphens, and lines cut at Unicode breaks.
#[rattlefmt::skip]
const OFFSETS: &[OffsetsRow] = &[
    (OffsetsCall::SplitPoints(b"can-be-split"), (DONE, 2), &[4, 7, NO_OFFSET]),
    (OffsetsCall::SplitPoints(LINK), (DONE, 2), &[7, 12, NO_OFFSET]),
    (OffsetsCall::SplitPointsOutside(LINK), (DONE, 1), &[12, NO_OFFSET]),
    (OffsetsCall::SplitPointsOutside(b"can-be-split"), (TOO_SMALL, 2), &[4]),
    (OffsetsCall::SplitPointsOutside(b"a-\xff"), (NOT_UTF8, BEFORE), &[NO_OFFSET]),
    (OffsetsCall::UnicodeCuts(UNICODE), (DONE, 2), &[8, 11, NO_OFFSET]),
    (OffsetsCall::UnicodeCuts(UNICODE), (TOO_SMALL, 2), &[8]),
    (OffsetsCall::UnicodeCuts(b"a \xff"), (NOT_UTF8, BEFORE), &[NO_OFFSET, NO_OFFSET, NO_OFFSET]),
];

#[test]
fn words_are_split_after_hyphens_and_lines_cut_at_unicode_breaks(rt: HostRuntime) {
    assert_offsets(&rt, OFFSETS);
}
