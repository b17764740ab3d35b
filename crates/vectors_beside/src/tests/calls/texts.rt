//! Texts that are written into room: as they are filled, indented and made for display.
use super::plain::{
    AT_5, AT_6, BEFORE, BLANK, DEFAULTS, HAMLET, NARROW, TextCall, assert_room, assert_told,
    write_text,
};
use std::process::Abort;
use textwrap_calls::options::TextwrapOptions;
use textwrap_calls::status::{DONE, NOT_UTF8, TOO_SMALL, UNKNOWN_OPTIONS};

/// A call and a text; the status, the length that is told, and the room afterwards.
pub(super) type TextRow<'a> = ((TextCall<'a>, &'a [u8]), (u32, usize, &'a [u8]));

/// How much room the longest row has.
const MOST: usize = 64;

/// Asserts what each row says, also of its text where that is known.
pub(super) fn assert_texts(rt: &(impl Abort + AllocGlobal), rows: &[TextRow<'_>]) {
    for is_known in [false, true] {
        for (row, &((call, text), (status, len, expected))) in rows.iter().enumerate() {
            let mut room = [BLANK; MOST];
            let room = &mut room[..expected.len().min(MOST)];
            let mut told = BEFORE;
            let answer = write_text(rt.alloc(), is_known, call, text, room, &mut told);
            assert_told(rt, row, (answer, told), (status, len));
            assert_room(rt, row, room, expected);
        }
    }
}

/// A status, and calls with their texts that are refused with it.
pub(super) type RefusedTexts = (u32, &'static [(TextCall<'static>, &'static [u8])]);

/// Asserts that these calls are refused, and change nothing.
pub(super) fn assert_no_texts(rt: &(impl Abort + AllocGlobal), refused: &[RefusedTexts]) {
    for &(status, calls) in refused {
        for &call in calls {
            assert_texts(rt, &[(call, (status, BEFORE, b"____"))]);
        }
    }
}

/// Asserts of each row that shorter room holds the beginning of what the row's room holds.
pub(super) fn assert_beginnings(rt: &(impl Abort + AllocGlobal), rows: &[TextRow<'_>]) {
    for is_known in [false, true] {
        assert_beginnings_where(rt, is_known, rows);
    }
}

/// The same of texts that are all known or not.
fn assert_beginnings_where(rt: &(impl Abort + AllocGlobal), is_known: bool, rows: &[TextRow<'_>]) {
    for (row, &((call, text), (_status, len, expected))) in rows.iter().enumerate() {
        for has in 0..len.min(expected.len()).min(MOST) {
            let mut room = [BLANK; MOST];
            let room = &mut room[..has];
            let mut told = BEFORE;
            let answer = write_text(rt.alloc(), is_known, call, text, room, &mut told);
            assert_told(rt, row, (answer, told), (TOO_SMALL, len));
            assert_room(rt, row, room, &expected[..has]);
        }
    }
}

/// Room that is too short holds the beginning, which may end inside a character.
#[rattlefmt::skip]
const ROOM: &[TextRow<'_>] = &[
    ((TextCall::Fill(DEFAULTS), b"foo bar baz"), (DONE, 11, b"foo bar\nbaz_____")),
    ((TextCall::Fill(DEFAULTS), b"foo bar baz"), (TOO_SMALL, 11, b"foo bar\nba")),
    ((TextCall::Fill(TextwrapOptions { optimal_fit: 0, ..DEFAULTS }), b"foo bar \xc3\xa9"), (TOO_SMALL, 10, b"foo bar \xc3")),
    // A short text is one line without its last blanks, also of characters outside ASCII.
    ((TextCall::Fill(DEFAULTS), b"\xe6\x97\xa5\xe6\x9c\xac  "), (DONE, 6, b"\xe6\x97\xa5\xe6\x9c\xac__")),
    ((TextCall::Fill(DEFAULTS), b"a\xc3\xa9\n"), (DONE, 4, b"a\xc3\xa9\n____")),
];

/// Options whose numbers mean nothing.
#[rattlefmt::skip]
const UNKNOWN: &[TextwrapOptions<'_>] = &[
    TextwrapOptions { version: 1, ..DEFAULTS },
    TextwrapOptions { optimal_fit: 2, ..DEFAULTS },
    TextwrapOptions { even_paragraphs: 2, ..DEFAULTS },
    TextwrapOptions { unicode_breaks: 3, ..DEFAULTS },
    TextwrapOptions { reserved_sizes: [0, 0, 0, 1], ..DEFAULTS },
];

/// Options and a text; the filled text. Each of these options alone changes what is written.
#[rattlefmt::skip]
const FILLED: &[(TextwrapOptions<'_>, &[u8], &[u8])] = &[
    (DEFAULTS, HAMLET, b"To be,\nor not to\nbe: that\nis the\nquestion"),
    (TextwrapOptions { optimal_fit: 0, ..DEFAULTS }, HAMLET, b"To be, or\nnot to be:\nthat is\nthe\nquestion"),
    (TextwrapOptions { unicode_breaks: 1, width: 8, ..DEFAULTS }, b"see foo/bar.txt", b"see foo/\nbar.txt"),
    (TextwrapOptions { unicode_breaks: 1, width: 9, ..DEFAULTS }, b"equals .35", b"equals .3\n5"),
    (TextwrapOptions { unicode_breaks: 2, width: 9, ..DEFAULTS }, b"equals .35", b"equals .\n35"),
    (TextwrapOptions { nline_penalty: 1_000_000, ..DEFAULTS }, HAMLET, HAMLET),
    (TextwrapOptions { overflow_penalty: 0, ..DEFAULTS }, HAMLET, HAMLET),
    (TextwrapOptions { width: 11, ..DEFAULTS }, b"foo bar baz a", b"foo bar\nbaz a"),
    (TextwrapOptions { short_last_line_penalty: 0, width: 11, ..DEFAULTS }, b"foo bar baz a", b"foo bar baz\na"),
    (TextwrapOptions { short_last_line_fraction: 20, width: 11, ..DEFAULTS }, b"foo bar baz a", b"foo bar baz\na"),
    (AT_5, b"foo-bar", b"foo-\nbar"),
    (TextwrapOptions { split_at_hyphens: 0, width: 5, ..DEFAULTS }, b"foo-bar", b"foo-b\nar"),
    (TextwrapOptions { break_words: 0, width: 5, ..DEFAULTS }, b"foobarbaz", b"foobarbaz"),
    (TextwrapOptions { preserve_trailing_space: 1, width: 5, ..DEFAULTS }, b"foo bar", b"foo \nbar"),
    (TextwrapOptions { crlf: 1, width: 5, ..DEFAULTS }, b"foo bar\r\nbaz", b"foo\r\nbar\r\nbaz"),
    (TextwrapOptions { initial_indent: b"* ", subsequent_indent: b"    ", width: 9, ..DEFAULTS }, b"foo bar\nbaz qu", b"* foo bar\n    baz qu"),
    (TextwrapOptions { initial_indent: b"* ", subsequent_indent: b"    ", even_paragraphs: 1, width: 9, ..DEFAULTS },
        b"foo bar\nbaz qu", b"* foo bar\n    baz\n    qu"),
    // No text is wider than the greatest width.
    (TextwrapOptions { width: usize::MAX, ..DEFAULTS }, HAMLET, HAMLET),
    (TextwrapOptions { initial_indent: b"* ", width: usize::MAX, ..DEFAULTS }, b"foo bar", b"* foo bar"),
    (TextwrapOptions { optimal_fit: 0, initial_indent: b"* ", width: usize::MAX, ..DEFAULTS }, b"foo bar", b"* foo bar"),
];

#[test]
fn each_option_reaches_the_library(rt: HostRuntime) {
    for &(options, text, filled) in FILLED {
        let call = TextCall::Fill(options);
        let row = ((call, text), (DONE, filled.len(), filled));
        assert_texts(&rt, &[row]);
        assert_beginnings(&rt, &[row]);
    }
}

/// A filled text, joined with its indents after it, and filled again; and a text with other indents.
#[rattlefmt::skip]
const INDENTED: &[TextRow<'_>] = &[
    ((TextCall::Unfill, b"* foo\n  bar\n"), (DONE, 12, b"foo bar\n*   ____")),
    ((TextCall::Refill(TextwrapOptions { width: 20, ..DEFAULTS }), b"* foo\n  bar\n"), (DONE, 10, b"* foo bar\n______")),
    // Each later line has the indent of the second one, and each ends in CRLF.
    ((TextCall::Refill(TextwrapOptions { crlf: 1, ..NARROW }), b"a\n>>>>bcd\n"), (DONE, 24, b"a\r\n>>>>b\r\n>>>>c\r\n>>>>d\r\n")),
    ((TextCall::Indent(b"> "), b"a\n\nb\n"), (DONE, 10, b"> a\n>\n> b\n______")),
    ((TextCall::Indent(b"#"), b"\n\n"), (DONE, 4, b"#\n#\n")),
    ((TextCall::Dedent, b"  a\n    b\n"), (DONE, 6, b"a\n  b\n__________")),
];

/// The unfilled text with its indents, in twice the room of the text. In the third the second line is
/// joined whole, as it is the first that is not empty, and is the later indent too.
#[rattlefmt::skip]
const UNFILLED: &[TextRow<'_>] = &[
    ((TextCall::Unfill, b""), (DONE, 0, b"")),
    ((TextCall::Unfill, b"foo\n"), (DONE, 4, b"foo\n____")),
    ((TextCall::Unfill, b"\n > "), (DONE, 6, b" >  > __")),
    ((TextCall::Unfill, b"\r\n >\r\n"), (DONE, 6, b" >\r\n >______")),
];

/// A line stands where the number of the alignment says.
const ALIGNED: &[TextRow<'_>] = &[
    ((TextCall::Align(6, 0), b"ab"), (DONE, 6, b"ab    ")),
    ((TextCall::Align(6, 1), b"ab"), (DONE, 6, b"    ab")),
    ((TextCall::Align(6, 2), b"ab"), (DONE, 6, b"  ab  ")),
    ((TextCall::Align(7, 0), b"ab"), (TOO_SMALL, 7, b"ab    ")),
];

/// Gaps are widened up to the width, but for the last line of a paragraph; a line is cut before its
/// placeholder; tabs become blanks.
#[rattlefmt::skip]
const WIDENED: &[TextRow<'_>] = &[
    ((TextCall::Justify(14), b"a few words"), (DONE, 14, b"a   few  words__")),
    ((TextCall::Shorten(8, b"..."), b"a few words"), (DONE, 8, b"a few...________")),
    ((TextCall::ShortenBy(8, b"..", 1), b"a \x1b[1mverylong"), (DONE, 16, b"a \x1b[1mvery\x1b[0m..")),
    ((TextCall::ShortenBy(8, b"..", 0), b"a verylong"), (DONE, 3, b"a.._____________")),
    ((TextCall::FillJustified(AT_6), b"a bb cc dd"), (DONE, 12, b"a   bb\ncc dd____")),
    ((TextCall::ExpandTabs(4), b"a\tb\n\tc"), (DONE, 11, b"a   b\n    c_____")),
    ((TextCall::StripOther, b"a\x1b(B\x1b[1mb"), (DONE, 6, b"a\x1b[1mb__________")),
];

/// An alignment or a form that is not known is refused before a line that is no text.
#[rattlefmt::skip]
const REFUSED_TEXTS: &[RefusedTexts] = &[
    (UNKNOWN_OPTIONS, &[(TextCall::ShortenBy(8, b"..", 2), b"a verylong"), (TextCall::Align(6, 3), b"\xe9")]),
    (NOT_UTF8, &[(TextCall::Fill(DEFAULTS), b"foo\xff"), (TextCall::Align(6, 2), b"\xe9"), (TextCall::ExpandTabs(4), b"a\tb\xff"), (TextCall::StripOther, b"\x1b(B\xff")]),
];

#[test]
fn texts_are_written_where_there_is_room_and_options_are_known(rt: HostRuntime) {
    assert_texts(&rt, ROOM);
    assert_no_texts(&rt, REFUSED_TEXTS);
    for &options in UNKNOWN {
        let call = TextCall::Fill(options);
        assert_texts(&rt, &[((call, b"foo"), (UNKNOWN_OPTIONS, BEFORE, b"____"))]);
    }
    assert_texts(&rt, INDENTED);
    assert_texts(&rt, UNFILLED);
    assert_texts(&rt, ALIGNED);
    assert_texts(&rt, WIDENED);
}

#[test]
fn shorter_room_holds_the_beginning(rt: HostRuntime) {
    assert_beginnings(&rt, INDENTED);
    assert_beginnings(&rt, UNFILLED);
    assert_beginnings(&rt, WIDENED);
}
