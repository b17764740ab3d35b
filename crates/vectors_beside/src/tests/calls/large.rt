//! A text of 1 MiB through each call, and other texts that make its answer large: first with no room, so
//! that its length is reported, and then with just so much.
use super::alone::told_width;
use super::hyphens::AT_11;
use super::known::told_known_width;
use super::places::{NO_PLACE, PiecePlace, is_piece};
use super::plain::{
    AT_80, BARS, BEFORE, DEFAULTS, LinesCall, NO_GAPS, NO_PIECE, NOWHERE, PiecesCall, REFLOWED,
    TextCall, assert_holds, assert_told, write_lines, write_pieces, write_text,
};
use std::alloc::{AllocError, Global};
use std::process::Abort;
use textwrap_calls::columns::TextwrapGaps;
use textwrap_calls::filling::textwrap_fill_inplace;
use textwrap_calls::options::TextwrapOptions;
use textwrap_calls::reflowing::TextwrapReflowOptions;
use textwrap_calls::status::{DONE, TOO_SMALL};
use textwrap_more_calls::pieces::TextwrapPiece;

/// A line of the text.
pub(super) const LINE: &str = "foo bar baz\n";

/// How many lines it has. An empty one comes after them.
pub(super) const LINES: usize = 87_382;

/// Half of them.
pub(super) const HALF: usize = LINES / 2;

/// How long it is, in bytes: 1 MiB and 8.
pub(super) const LEN: usize = LINES * 12;

/// What a call tells where it has no room, and where it has just so much; and whether it then fills it. For
/// all that there has to be memory.
pub(super) type Told = Result<((u32, usize), (u32, usize), bool), AllocError>;

/// Asserts that there was memory for a call, and that it told this length both times.
pub(super) fn assert_told_twice(rt: &impl Abort, row: usize, told: Told, len: usize) {
    let (without, with, is_full) = told.expect(rt, "memory");
    assert_told(rt, row, without, (TOO_SMALL, len));
    assert_told(rt, row, with, (DONE, len));
    assert_holds(rt, row, is_full);
}

/// Makes the call twice.
fn write_text_twice(alloc: Global, is_known: bool, call: TextCall<'_>, text: &[u8]) -> Told {
    let mut len = BEFORE;
    let without = write_text(alloc, is_known, call, text, &mut [], &mut len);
    let reported = len;
    let mut room = vec![in alloc; b'.'; reported]?;
    let with = write_text(alloc, is_known, call, text, &mut room, &mut len);
    Ok(((without, reported), (with, len), !room.contains(&b'.')))
}

/// Makes the call twice, with so many lines.
pub(super) fn write_lines_twice(
    alloc: Global,
    is_known: bool,
    call: LinesCall<'_>,
    text: &[u8],
    most: usize,
) -> Told {
    let mut lines = vec![in alloc; NOWHERE; most]?;
    let (mut count, mut len) = (BEFORE, BEFORE);
    let no_room: &mut [u8] = &mut [];
    let without = write_lines(
        alloc, is_known, call, text, &mut lines, &mut count, no_room, &mut len,
    );
    let reported = len;
    let mut room = vec![in alloc; b'.'; reported]?;
    let with = write_lines(
        alloc, is_known, call, text, &mut lines, &mut count, &mut room, &mut len,
    );
    Ok(((without, reported), (with, len), !room.contains(&b'.')))
}

/// A call, what its text is made of and how often, and how long the answer is.
type TextRow = (TextCall<'static>, &'static str, usize, usize);

#[rattlefmt::skip]
const TEXTS: &[TextRow] = &[
    (TextCall::Fill(AT_80), LINE, LINES, LEN),
    (TextCall::Refill(TextwrapOptions { width: 11, ..DEFAULTS }), LINE, LINES, LEN),
    (TextCall::Fill(TextwrapOptions { unicode_breaks: 1, ..AT_80 }), LINE, LINES, LEN),
    (TextCall::Strip, LINE, LINES, LEN),
    (TextCall::StripOther, "\x1b(Bab\n", LINES, 3 * LINES),
    (TextCall::Unfill, LINE, LINES, LEN),
    (TextCall::Indent(b"> "), LINE, LINES, LEN + 2 * LINES),
    (TextCall::Dedent, LINE, LINES, LEN),
    (TextCall::FillJustified(TextwrapOptions { width: 8, ..DEFAULTS }), LINE, LINES, LEN + LINES),
    // One paragraph.
    (TextCall::Reflow(TextwrapReflowOptions { width: 80, ..REFLOWED }), LINE, LINES, LEN),
    // The text as one line, in which a line feed takes no columns.
    (TextCall::Align(LEN, 1), LINE, LINES, LEN + LINES),
    (TextCall::Justify(LEN), LINE, LINES, LEN + LINES),
    (TextCall::Shorten(11 * HALF + 7, b""), LINE, LINES, HALF * 12 + 7),
    // Blanks beside no text, and nine gaps of 5,000.
    (TextCall::Align(10_000, 2), "", 1, 10_000),
    (TextCall::Justify(45_011), "a ", 10, 45_011),
    (TextCall::ExpandTabs(8), "abc\td\n", LINES, 10 * LINES),
    // Each line becomes two.
    (TextCall::Fill(AT_11), "the hyphenation\n", 20_000, 18 * 20_000),
];

/// A call, what its text is made of and how often, how many lines there are at most, and how much room
/// they take.
type LinesRow = (LinesCall<'static>, &'static str, usize, usize, usize);

#[rattlefmt::skip]
const LINES_AND_ROWS: &[LinesRow] = &[
    // Rows of one column of 11 with a bar at their right, and lines with an indent of one blank, so
    // that each of them is built.
    (LinesCall::Columns(1, TextwrapOptions { width: 12, ..DEFAULTS }, TextwrapGaps { right: b"|", ..NO_GAPS }), LINE, LINES, LINES + 1, LEN + 12),
    (LinesCall::Wrap(TextwrapOptions { initial_indent: b" ", subsequent_indent: b" ", ..AT_80 }), LINE, LINES, LINES + 1, LEN + 1),
    (LinesCall::WrapBalanced(TextwrapOptions { initial_indent: b" ", subsequent_indent: b" ", ..AT_80 }), LINE, LINES, LINES + 1, LEN + 1),
    // The first of each two lines has a hyphen and is built.
    (LinesCall::Wrap(AT_11), "the hyphenation\n", 20_000, 2 * 20_000 + 1, 11 * 20_000),
    // Two rows of 200 columns of 4, with a bar beside each.
    (LinesCall::Columns(200, TextwrapOptions { width: 1_001, ..DEFAULTS }, BARS), "ab ", 400, 2, 2 * 1_001),
];

/// What the call of a row tells.
fn told_of_text(alloc: Global, is_known: bool, (call, part, times, _): TextRow) -> Told {
    let text = part.repeat(alloc, times)?;
    write_text_twice(alloc, is_known, call, text.as_bytes())
}

/// What the calls tell with a prefix of 1,000 bytes, or with such a placeholder, which leaves ten
/// columns.
fn told_of_long(alloc: Global, is_placeholder: bool) -> Told {
    let long = "+".repeat(alloc, 1_000)?;
    let text = LINE.repeat(alloc, 1_000)?;
    let call = match is_placeholder {
        true => TextCall::Shorten(1_010, long.as_bytes()),
        false => TextCall::Indent(long.as_bytes()),
    };
    write_text_twice(alloc, false, call, text.as_bytes())
}

/// The same of lines and rows.
fn told_of_lines(alloc: Global, is_known: bool, (call, part, times, most, _): LinesRow) -> Told {
    let text = part.repeat(alloc, times)?;
    write_lines_twice(alloc, is_known, call, text.as_bytes(), most)
}

#[test]
fn large_texts_are_written(rt: HostRuntime) {
    for (row, &texts) in TEXTS.iter().enumerate() {
        let told = told_of_text(rt.alloc(), false, texts);
        assert_told_twice(&rt, row, told, texts.3);
    }
    let indented = told_of_long(rt.alloc(), false);
    assert_told_twice(&rt, TEXTS.len(), indented, 1_000 * (1_000 + 12));
    let shortened = told_of_long(rt.alloc(), true);
    assert_told_twice(&rt, TEXTS.len() + 1, shortened, 7 + 1_000);
}

#[test]
fn large_texts_that_are_known_are_written(rt: HostRuntime) {
    for (row, &texts) in TEXTS.iter().enumerate() {
        let told = told_of_text(rt.alloc(), true, texts);
        assert_told_twice(&rt, row, told, texts.3);
    }
}

#[test]
fn large_texts_have_their_lines_and_rows(rt: HostRuntime) {
    for is_known in [false, true] {
        for (row, &lines) in LINES_AND_ROWS.iter().enumerate() {
            let told = told_of_lines(rt.alloc(), is_known, lines);
            assert_told_twice(&rt, row, told, lines.4);
        }
    }
}

/// The status, how many pieces are told, and the last of so many.
pub(super) fn last_piece(
    alloc: Global,
    call: PiecesCall<'_>,
    text: &[u8],
    most: usize,
) -> Result<((u32, usize), TextwrapPiece), AllocError> {
    let mut pieces = vec![in alloc; NO_PIECE; most]?;
    let mut count = BEFORE;
    let status = write_pieces(alloc, call, text, &mut pieces, &mut count);
    let last = match pieces.last() {
        Some(last) => *last,
        None => NO_PIECE,
    };
    Ok(((status, count), last))
}

/// Calls with room for one piece more than two a line; the status, and how many pieces they tell; the
/// last of the room.
#[rattlefmt::skip]
const PIECES: &[(PiecesCall<'_>, (u32, usize), PiecePlace)] = &[
    (PiecesCall::Pieces(AT_80), (DONE, 2 * LINES + 1), (LEN - 4, 4, 0, 0, 3)),
    // A line may end after each line feed, so these are more than there is room for.
    (PiecesCall::Pieces(TextwrapOptions { unicode_breaks: 1, ..AT_80 }), (TOO_SMALL, 3 * LINES), (2 * LINES / 3 * 12 + 8, 4, 0, 0, 3)),
    // Its lines have 11 columns each.
    (PiecesCall::BreakApart(10), (DONE, (11 * LINES + 9) / 10), NO_PLACE),
    (PiecesCall::WordsAt(&[12]), (DONE, 2), NO_PLACE),
];

#[test]
fn a_large_text_is_cut_split_and_broken(rt: HostRuntime) {
    let text = LINE.repeat(rt.alloc(), LINES).expect(&rt, "text");
    for (row, &(call, expected, place)) in PIECES.iter().enumerate() {
        let most = 2 * LINES + 1;
        let (told, last) = last_piece(rt.alloc(), call, text.as_bytes(), most).expect(&rt, "room");
        assert_told(&rt, row, told, expected);
        assert_holds(&rt, row, is_piece(&last, place));
    }
}

#[test]
fn a_large_text_is_measured(rt: HostRuntime) {
    let text = LINE.repeat(rt.alloc(), LINES).expect(&rt, "text");
    assert_told(&rt, 0, told_width(text.as_bytes()), (DONE, LEN - LINES));
    assert_told(&rt, 1, told_known_width(&text), (DONE, LEN - LINES));
}

/// The status, and whether the text is then filled.
fn is_filled_in_place(alloc: Global) -> Result<(u32, bool), AllocError> {
    let mut bytes = LINE.repeat(alloc, LINES)?.into_bytes();
    let filled = "foo bar\nbaz\n".repeat(alloc, LINES)?;
    let status = textwrap_fill_inplace(alloc, &mut bytes, 7);
    Ok((status, bytes.as_slice() == filled.as_bytes()))
}

#[test]
fn a_large_text_is_filled_in_place(rt: HostRuntime) {
    let found = is_filled_in_place(rt.alloc()).expect(&rt, "bytes");
    assert_holds(&rt, 0, found == (DONE, true));
}
