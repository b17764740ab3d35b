//! Calls that write into what they are given, or a number.
use super::plain::{
    BARS, BEFORE, NO_LAYOUT, UNKNOWN_GAPS, assert_holds, assert_number, assert_room, assert_told,
};
use std::alloc::Global;
use textwrap_calls::columns::{TextwrapGaps, textwrap_column_width};
use textwrap_calls::filling::textwrap_fill_inplace;
use textwrap_calls::refilling::textwrap_unfill;
use textwrap_calls::status::{DONE, NOT_UTF8, TOO_SMALL, UNKNOWN_OPTIONS};
use textwrap_calls::widths::textwrap_display_width;
use textwrap_more_calls::breaks::{TextwrapLineBreak, textwrap_line_breaks};
use textwrap_more_calls::terminal::textwrap_terminal_width;

/// The status and the columns that are told of a text.
pub(super) fn told_width(text: &[u8]) -> (u32, usize) {
    let mut columns = BEFORE;
    let status = textwrap_display_width(text, &mut columns);
    (status, columns)
}

#[test]
fn columns_are_counted(rt: HostRuntime) {
    assert_told(&rt, 0, told_width("Café".as_bytes()), (DONE, 4));
    assert_told(&rt, 1, told_width(b"Caf\xe9"), (NOT_UTF8, BEFORE));
}

/// The same of a text as a terminal reads it.
fn told_terminal_width(text: &[u8]) -> (u32, usize) {
    let mut columns = BEFORE;
    let status = textwrap_terminal_width(text, &mut columns);
    (status, columns)
}

#[test]
fn columns_are_counted_as_by_a_terminal(rt: HostRuntime) {
    assert_told(
        &rt,
        0,
        told_terminal_width(b"\x1b(BCaf\xc3\xa9\x1b[m\x1bP1q\x1b\\"),
        (DONE, 4),
    );
    assert_told(&rt, 1, told_terminal_width(b"Caf\xe9"), (NOT_UTF8, BEFORE));
}

/// A width, so many columns with these gaps, and the status and the width of a column.
type ColumnWidthRow<'a> = (usize, usize, TextwrapGaps<'a>, (u32, usize));

/// The width that texts in columns are wrapped at. What is not known is refused before a gap that is no
/// text.
#[rattlefmt::skip]
const COLUMN_WIDTHS: &[ColumnWidthRow<'_>] = &[
    (24, 4, BARS, (DONE, 4)),
    (24, 1, BARS, (DONE, 22)),
    // The gaps leave no room.
    (3, 2, BARS, (DONE, 1)),
    (0, usize::MAX, BARS, (DONE, 1)),
    (24, 0, BARS, (UNKNOWN_OPTIONS, BEFORE)),
    (24, 4, UNKNOWN_GAPS, (UNKNOWN_OPTIONS, BEFORE)),
    (24, 4, TextwrapGaps { right: b"\xff", ..BARS }, (NOT_UTF8, BEFORE)),
    (24, 0, TextwrapGaps { right: b"\xff", ..BARS }, (UNKNOWN_OPTIONS, BEFORE)),
];

#[test]
fn columns_have_a_width(rt: HostRuntime) {
    for (row, &(width, columns, gaps, expected)) in COLUMN_WIDTHS.iter().enumerate() {
        let mut column_width = BEFORE;
        let status = textwrap_column_width(width, columns, &gaps, &mut column_width);
        assert_told(&rt, row, (status, column_width), expected);
    }
}

/// Whether a text has these breaks, each with whether a line must end there.
fn has_breaks(
    alloc: Global,
    text: &[u8],
    unicode_breaks: u32,
    expected: &[(usize, usize)],
) -> bool {
    let mut breaks = [NO_BREAK; 4];
    let mut count = BEFORE;
    let status = textwrap_line_breaks(alloc, text, unicode_breaks, &mut breaks, &mut count);
    let mut are_equal = status == DONE && count == expected.len();
    for (place, &(offset, is_mandatory)) in breaks.iter().zip(expected) {
        are_equal = are_equal && place.offset == offset && place.is_mandatory == is_mandatory;
    }
    are_equal
}

/// No place.
const NO_BREAK: TextwrapLineBreak = TextwrapLineBreak {
    offset: 0,
    is_mandatory: 0,
};

/// Texts, forms of the rules, and the breaks.
const BREAKS: &[(&[u8], u32, &[(usize, usize)])] = &[
    (b"foo bar\nbaz", 1, &[(4, 0), (8, 1), (11, 1)]),
    (b"equals .35", 1, &[(10, 1)]),
    (b"equals .35", 2, &[(8, 0), (10, 1)]),
    (b"", 2, &[]),
];

#[test]
fn lines_may_and_must_end(rt: HostRuntime) {
    for (row, &(text, unicode_breaks, expected)) in BREAKS.iter().enumerate() {
        let are_found = has_breaks(rt.alloc(), text, unicode_breaks, expected);
        assert_holds(&rt, row, are_found);
    }
}

/// Texts and forms of the rules that are refused, or have no room.
const REFUSED: &[(&[u8], u32, (u32, usize))] = &[
    (b"a b", 1, (TOO_SMALL, 2)),
    (b"a", 0, (UNKNOWN_OPTIONS, BEFORE)),
    (b"a", 3, (UNKNOWN_OPTIONS, BEFORE)),
    (b"\xff", 2, (NOT_UTF8, BEFORE)),
    (b"\xff", 3, (UNKNOWN_OPTIONS, BEFORE)),
];

#[test]
fn line_breaks_are_refused(rt: HostRuntime) {
    for (row, &(text, unicode_breaks, expected)) in REFUSED.iter().enumerate() {
        let mut count = BEFORE;
        let status = textwrap_line_breaks(rt.alloc(), text, unicode_breaks, &mut [], &mut count);
        assert_told(&rt, row, (status, count), expected);
    }
}

#[test]
fn a_text_is_filled_in_its_place(rt: HostRuntime) {
    let mut text = *b"foo  bar";
    let status = textwrap_fill_inplace(rt.alloc(), &mut text, 5);
    assert_holds(&rt, 0, status == DONE);
    assert_room(&rt, 0, &text, b"foo \nbar");
}

#[test]
fn a_filled_text_has_a_layout(rt: HostRuntime) {
    let mut room = [0; 16];
    let mut len = BEFORE;
    let mut layout = NO_LAYOUT;
    let text = b"* foo\n  bar\n";
    let status = textwrap_unfill(text, &mut room, &mut len, &mut layout);
    assert_told(&rt, 0, (status, len), (DONE, 12));
    assert_number(&rt, 1, layout.width, 5);
    assert_number(&rt, 2, layout.crlf, 0);
    assert_number(&rt, 3, layout.initial_indent_len, 2);
    assert_number(&rt, 4, layout.subsequent_indent_len, 2);
    assert_holds(&rt, 5, layout.reserved_sizes == [0; 4]);
}
