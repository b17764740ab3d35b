//! Texts in which marks stand before the words, filled again and written into room.
use super::plain::{BEFORE, REFLOWED, TextCall};
use super::texts::{RefusedTexts, TextRow, assert_beginnings, assert_no_texts, assert_texts};
use textwrap_calls::reflowing::TextwrapReflowOptions;
use textwrap_calls::status::{DONE, NOT_UTF8, TOO_SMALL, UNKNOWN_OPTIONS};
use textwrap_calls::texts::TextwrapText;

/// Options and a text; what becomes of it. Each of these options alone changes what is written.
#[rattlefmt::skip]
const ROWS: &[(TextwrapReflowOptions<'_>, &[u8], &[u8])] = &[
    (REFLOWED, b"> one two three four\n> five\n", b"> one two three\n> four five\n"),
    (TextwrapReflowOptions { justify: 1, ..REFLOWED }, b"> one two six ten red blue\n", b"> one   two  six\n> ten red blue\n"),
    (TextwrapReflowOptions { width: 12, optimal_fit: 1, ..REFLOWED }, b"To be, or not to be: that is\n", b"To be, or\nnot to be:\nthat is\n"),
    (TextwrapReflowOptions { ending: 1, ..REFLOWED }, b"one\r\n==\r\n", b"one\n==\n"),
    (TextwrapReflowOptions { ending: 2, ..REFLOWED }, b"one two three four\n==\n", b"one two three\r\nfour\r\n==\r\n"),
    (TextwrapReflowOptions { markdown: 1, ..REFLOWED }, b"# One two three four\n", b"# One two three four\n"),
    (TextwrapReflowOptions { bare: 1, ..REFLOWED }, b"/* one two three four */\n", b"/* one two three\n   four */\n"),
    (TextwrapReflowOptions { indented: 1, ..REFLOWED }, b"one\n\n    two three four five\n", b"one\n\n    two three\n    four five\n"),
    (TextwrapReflowOptions { markers: &[TextwrapText { bytes: b"dnl" }, TextwrapText { bytes: b"!" }], ..REFLOWED },
        b"dnl one two three four\ndnl five\n", b"dnl one two\ndnl three four\ndnl five\n"),
    (TextwrapReflowOptions { prefixes: &[TextwrapText { bytes: b"*" }, TextwrapText { bytes: b"//" }], ..REFLOWED },
        b"one two three four\n// one two three four\n", b"one two three four\n// one two three\n// four\n"),
];

#[test]
fn each_option_of_texts_with_marks_reaches_the_library(rt: HostRuntime) {
    for &(options, text, reflowed) in ROWS {
        let call = TextCall::Reflow(options);
        let row = ((call, text), (DONE, reflowed.len(), reflowed));
        assert_texts(&rt, &[row]);
        assert_beginnings(&rt, &[row]);
    }
}

/// Options whose numbers mean nothing are found out before a text that is none.
#[rattlefmt::skip]
const UNKNOWN: &[TextwrapReflowOptions<'_>] = &[
    TextwrapReflowOptions { version: 1, ..REFLOWED },
    TextwrapReflowOptions { optimal_fit: 2, ..REFLOWED },
    TextwrapReflowOptions { ending: 3, ..REFLOWED },
    TextwrapReflowOptions { markdown: 2, ..REFLOWED },
    TextwrapReflowOptions { bare: 2, ..REFLOWED },
    TextwrapReflowOptions { indented: 2, ..REFLOWED },
    TextwrapReflowOptions { justify: 2, ..REFLOWED },
    TextwrapReflowOptions { reserved: 1, ..REFLOWED },
    TextwrapReflowOptions { reserved_sizes: [0, 0, 0, 1], ..REFLOWED },
];

/// A text, a mark or a prefix that is no UTF-8 changes nothing.
#[rattlefmt::skip]
const REFUSED_TEXTS: &[RefusedTexts] = &[
    (NOT_UTF8, &[
        (TextCall::Reflow(REFLOWED), b"foo\xff"),
        (TextCall::Reflow(TextwrapReflowOptions { markers: &[TextwrapText { bytes: b"a" }, TextwrapText { bytes: b"\xff" }], ..REFLOWED }), b"foo"),
        (TextCall::Reflow(TextwrapReflowOptions { prefixes: &[TextwrapText { bytes: b"\xff" }], ..REFLOWED }), b"foo"),
    ]),
];

/// Room that is too short holds the beginning.
#[rattlefmt::skip]
const SHORT: &[TextRow<'_>] = &[((TextCall::Reflow(REFLOWED), b"> one two three four\n"), (TOO_SMALL, 23, b"> one"))];

#[test]
fn texts_with_marks_are_told_apart_from_what_is_none(rt: HostRuntime) {
    assert_no_texts(&rt, REFUSED_TEXTS);
    for &options in UNKNOWN {
        let call = TextCall::Reflow(options);
        let refused = (UNKNOWN_OPTIONS, BEFORE, b"____" as &[u8]);
        assert_texts(&rt, &[((call, b"\xff"), refused)]);
    }
    assert_texts(&rt, SHORT);
}
