//! The bounds of answers: each is enough, and some answers are as long.
use super::hyphens::{AT_11, AT_15, BAR};
use super::plain::{
    BARS, BEFORE, BLANK, DEFAULTS, HAMLET, LinesCall, NARROW, NO_GAPS, NOWHERE, TextCall,
    assert_number, assert_told, write_lines, write_text,
};
use std::process::Abort;
use textwrap_calls::bounds::{
    textwrap_fill_bound, textwrap_wrap_columns_room_bound, textwrap_wrap_columns_rows_bound,
    textwrap_wrap_lines_bound, textwrap_wrap_room_bound,
};
use textwrap_calls::options::TextwrapOptions;
use textwrap_calls::status::DONE;

/// How much room the longest row has.
const MOST: usize = 160;

/// How many lines the longest row has.
const MOST_LINES: usize = 16;

/// The bounds of the lines and of the room of a call for a text of so many bytes, if there are any.
fn lines_bounds(call: LinesCall<'_>, text_len: usize) -> (usize, usize) {
    match call {
        LinesCall::Wrap(options) => (
            textwrap_wrap_lines_bound(text_len),
            textwrap_wrap_room_bound(text_len, &options),
        ),
        LinesCall::Columns(columns, options, gaps) => (
            textwrap_wrap_columns_rows_bound(text_len, columns),
            textwrap_wrap_columns_room_bound(text_len, columns, &options, &gaps),
        ),
        _ => (BEFORE, BEFORE),
    }
}

/// The same with CRLF, which takes a byte more a line.
const NARROW_CRLF: TextwrapOptions<'_> = TextwrapOptions { crlf: 1, ..NARROW };

/// Options and a text; how long the filled text is, and its bound.
const FILLED: &[(TextwrapOptions<'_>, &[u8], usize, usize)] = &[
    (DEFAULTS, b"", 0, 0),
    (DEFAULTS, b"\n", 1, 2),
    (DEFAULTS, HAMLET, 41, 82),
    (NARROW, b"", 2, 2),
    (NARROW, b"ab", 8, 8),
    (NARROW_CRLF, b"ab", 10, 10),
    (NARROW, b"ab\nc", 13, 14),
    (AT_11, b"the hyphenation", 17, 46),
];

#[test]
fn a_text_is_no_longer_than_its_bound(rt: HostRuntime) {
    for (row, &(options, text, len, bound)) in FILLED.iter().enumerate() {
        let most = textwrap_fill_bound(text.len(), &options);
        assert_told(&rt, row, (DONE, most), (DONE, bound));
        let mut room = [BLANK; MOST];
        let mut told = BEFORE;
        let room = &mut room[..bound.min(MOST)];
        let call = TextCall::Fill(options);
        let status = write_text(rt.alloc(), false, call, text, room, &mut told);
        assert_told(&rt, row, (status, told), (DONE, len));
    }
}

/// A call and a text; how many lines it has, and their bound; how much room they take, and its bound.
#[rattlefmt::skip]
const LINES: &[(LinesCall<'_>, &[u8], (usize, usize), (usize, usize))] = &[
    (LinesCall::Wrap(DEFAULTS), b"", (1, 1), (0, 0)),
    (LinesCall::Wrap(DEFAULTS), b"foo\n\nbar", (3, 9), (0, 0)),
    (LinesCall::Wrap(DEFAULTS), b"\n\n", (3, 3), (0, 0)),
    (LinesCall::Wrap(NARROW), b"ab", (3, 3), (6, 6)),
    (LinesCall::Wrap(AT_11), b"the hyphenation", (2, 16), (11, 31)),
    (LinesCall::Columns(2, AT_15, BAR), b"the hyphenation", (2, 8), (30, 159)),
    (LinesCall::Columns(2, TextwrapOptions { width: 2, ..DEFAULTS }, NO_GAPS), b"\n\n\n", (2, 2), (4, 7)),
];

#[test]
fn lines_and_their_room_keep_to_their_bounds(rt: HostRuntime) {
    for (row, &(call, text, (count, most), (len, bound))) in LINES.iter().enumerate() {
        let bounds = lines_bounds(call, text.len());
        assert_told(&rt, row, (DONE, bounds.0), (DONE, most));
        assert_told(&rt, row, (DONE, bounds.1), (DONE, bound));
        let mut lines = [NOWHERE; MOST_LINES];
        let lines = &mut lines[..most.min(MOST_LINES)];
        let mut room = [BLANK; MOST];
        let room = &mut room[..bound.min(MOST)];
        let (mut found, mut told) = (BEFORE, BEFORE);
        let alloc = rt.alloc();
        let status = write_lines(alloc, false, call, text, lines, &mut found, room, &mut told);
        assert_told(&rt, row, (status, found), (DONE, count));
        assert_told(&rt, row, (status, told), (DONE, len));
    }
}

/// No columns have no rows; the gaps of each row count, and those between its cells.
#[test]
fn bounds_count_rows_and_gaps(rt: HostRuntime) {
    let rows = textwrap_wrap_columns_rows_bound(3, 0);
    let room = textwrap_wrap_columns_room_bound(5, 2, &DEFAULTS, &BARS);
    assert_number(&rt, 0, rows, 0);
    assert_number(&rt, 1, room, 44);
}

/// Lengths of texts, and the bounds of these filled. One that no number holds is the greatest.
#[rattlefmt::skip]
const GREATEST: &[(usize, usize)] = &[(usize::MAX / 2 + 1, usize::MAX), (usize::MAX / 2, usize::MAX - 1)];

/// Calls, and the bounds of the lines and of the room of the greatest text.
const GREATEST_LINES: &[(LinesCall<'_>, (usize, usize))] = &[
    (LinesCall::Wrap(NARROW), (usize::MAX, usize::MAX)),
    (LinesCall::Wrap(DEFAULTS), (usize::MAX, 0)),
];

#[test]
fn a_bound_that_no_number_holds_is_the_greatest(rt: HostRuntime) {
    for (row, &(text_len, bound)) in GREATEST.iter().enumerate() {
        let most = textwrap_fill_bound(text_len, &DEFAULTS);
        assert_told(&rt, row, (DONE, most), (DONE, bound));
    }
    for (row, &(call, (most, bound))) in GREATEST_LINES.iter().enumerate() {
        let bounds = lines_bounds(call, usize::MAX);
        assert_number(&rt, row, bounds.0, most);
        assert_number(&rt, row, bounds.1, bound);
    }
    let rows = textwrap_wrap_columns_rows_bound(usize::MAX, 1);
    assert_number(&rt, 2, rows, usize::MAX);
}
