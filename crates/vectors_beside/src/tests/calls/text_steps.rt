//! A whole text in steps, its paragraphs, and where lines end by the options.
use super::places::{
    LinesRow, NO_OFFSET, NONE, OffsetsRow, RefusedLines, assert_lines, assert_no_lines,
    assert_offsets,
};
use super::plain::{
    AT_5, BEFORE, DEFAULTS, LinesCall, NOWHERE, OffsetsCall, TextCall, assert_holds, assert_told,
    write_lines, write_text,
};
use super::texts::{RefusedTexts, TextRow, assert_no_texts, assert_texts};
use std::alloc::{AllocError, Global};
use textwrap_calls::options::TextwrapOptions;
use textwrap_calls::status::{DONE, NOT_UTF8, TOO_SMALL, UNKNOWN_OPTIONS, WRONG_PLACES};
use textwrap_more_calls::paragraphs::{
    TextwrapParagraph, TextwrapWidths, textwrap_paragraph_widths, textwrap_paragraphs,
};
use textwrap_more_calls::steps::TextwrapSteps;

/// The steps of a paragraph that is one line as a whole, or of one without lines.
const NO_STEPS: TextwrapSteps<'_> = TextwrapSteps {
    cuts: &[],
    points: &[],
    ends: &[],
};

/// Three paragraphs, of which the second is one line as a whole.
const TEXT: &[u8] = b"foo bar\n\nbaz qux";

/// Their steps. The pieces of the last are `ba` with a hyphen, `z ` and `qux`.
#[rattlefmt::skip]
const STEPS: &[TextwrapSteps<'_>] = &[
    TextwrapSteps { cuts: &[4], points: &[], ends: &[1, 2] },
    // Not used.
    TextwrapSteps { cuts: &[9], points: &[7], ends: &[5] },
    TextwrapSteps { cuts: &[4], points: &[2], ends: &[1, 3] },
];

/// One piece in one line, for each of two paragraphs.
#[rattlefmt::skip]
const EACH_ONE: &[TextwrapSteps<'_>] = &[TextwrapSteps { cuts: &[], points: &[], ends: &[1] }, TextwrapSteps { cuts: &[], points: &[], ends: &[1] }];

/// No line in the first paragraph. In the second the empty piece of the indent, and its word.
#[rattlefmt::skip]
const LATE: &[TextwrapSteps<'_>] = &[NO_STEPS, TextwrapSteps { cuts: &[], points: &[], ends: &[2] }];

/// An end past the pieces.
#[rattlefmt::skip]
const LONG: &[TextwrapSteps<'_>] = &[TextwrapSteps { cuts: &[4], points: &[], ends: &[3] }];

/// The defaults at 3 columns, with paragraphs between CRLF.
const AT_3: TextwrapOptions<'_> = TextwrapOptions {
    width: 3,
    crlf: 1,
    ..DEFAULTS
};

/// Indents that differ.
const INDENTED: TextwrapOptions<'_> = TextwrapOptions {
    initial_indent: b"> ",
    subsequent_indent: b">>> ",
    ..DEFAULTS
};

/// The lines of each paragraph are those at its steps, and stand where they do in the text.
#[rattlefmt::skip]
const WRAPPED: &[LinesRow] = &[
    ((LinesCall::WrapAt(STEPS, AT_5), TEXT), (DONE, 5, 3), (&[(0, 3, 0), (4, 3, 0), (8, 0, 0), (0, 3, 1), (11, 5, 0)], b"ba-_____")),
    ((LinesCall::WrapAt(STEPS, AT_5), TEXT), (TOO_SMALL, 5, 3), (&[(0, 3, 0), (4, 3, 0), (8, 0, 0), (0, 3, 1)], b"ba-_____")),
    // Whether a line stands before a paragraph depends on the lines, not on the paragraphs.
    ((LinesCall::WrapAt(LATE, INDENTED), b"foo\nbar"), (DONE, 1, 5), (&[(0, 5, 1), NONE], b"> bar___")),
    ((LinesCall::WrapAt(EACH_ONE, AT_3), b"foo\r\nbar"), (DONE, 2, 0), (&[(0, 3, 0), (5, 3, 0)], b"")),
];

/// Steps that are too few, too many, or wrong in one; and what is refused before them.
#[rattlefmt::skip]
const REFUSED_LINES: &[RefusedLines] = &[
    (UNKNOWN_OPTIONS, &[(LinesCall::WrapAt(STEPS, TextwrapOptions { version: 0, ..AT_5 }), b"foo\xff")]),
    (NOT_UTF8, &[(LinesCall::WrapAt(STEPS, AT_5), b"foo\xff")]),
    (WRONG_PLACES, &[(LinesCall::WrapAt(EACH_ONE, AT_5), TEXT), (LinesCall::WrapAt(STEPS, AT_5), b"foo bar"), (LinesCall::WrapAt(LONG, AT_5), b"foo bar")]),
];

/// The same of the calls that write a text.
#[rattlefmt::skip]
const REFUSED_TEXTS: &[RefusedTexts] = &[
    (UNKNOWN_OPTIONS, &[
        (TextCall::FillAt(LONG, TextwrapOptions { version: 0, ..AT_5 }), b"foo\xff"),
        (TextCall::JustifyAt(LONG, TextwrapOptions { version: 0, ..AT_5 }), b"foo\xff"),
    ]),
    (NOT_UTF8, &[(TextCall::FillAt(LONG, AT_5), b"foo\xff"), (TextCall::JustifyAt(LONG, AT_5), b"foo\xff")]),
    (WRONG_PLACES, &[(TextCall::FillAt(LONG, AT_5), b"foo bar"), (TextCall::JustifyAt(LONG, AT_5), b"foo bar")]),
];

#[test]
fn the_lines_of_a_text_end_where_the_caller_says(rt: HostRuntime) {
    assert_lines(&rt, WRAPPED);
    assert_no_lines(&rt, REFUSED_LINES);
}

/// The same lines, joined by the line ending.
#[rattlefmt::skip]
const FILLED: &[TextRow<'_>] = &[
    ((TextCall::FillAt(STEPS, AT_5), TEXT), (DONE, 18, b"foo\nbar\n\nba-\nz qux__")),
    ((TextCall::FillAt(STEPS, AT_5), TEXT), (TOO_SMALL, 18, b"foo\nbar\n\nba-\nz qu")),
    ((TextCall::FillAt(EACH_ONE, AT_3), b"foo\r\nbar"), (DONE, 8, b"foo\r\nbar")),
];

/// 8 columns, with an indent before the first line.
const AT_8: TextwrapOptions<'_> = TextwrapOptions {
    width: 8,
    initial_indent: b"> ",
    ..DEFAULTS
};

/// Three lines of a paragraph, before one that is a line as a whole. The empty piece of the indent stands
/// in the first line.
#[rattlefmt::skip]
const WORDS: &[TextwrapSteps<'_>] = &[TextwrapSteps { cuts: &[2, 4, 7, 9], points: &[], ends: &[3, 5, 6] }, NO_STEPS];

/// All lines but the last of each paragraph are justified, the first of them after its indent.
#[rattlefmt::skip]
const JUSTIFIED: &[TextRow<'_>] = &[
    ((TextCall::JustifyAt(WORDS, AT_8), b"a b cd e f\ngh i jk"), (DONE, 27, b"> a    b\ncd     e\nf\ngh i jk__")),
    ((TextCall::JustifyAt(WORDS, AT_8), b"a b cd e f\ngh i jk"), (TOO_SMALL, 27, b"> a    b\ncd     e\nf\ngh i j")),
];

#[test]
fn a_text_is_filled_and_justified_where_the_caller_says(rt: HostRuntime) {
    assert_texts(&rt, FILLED);
    assert_texts(&rt, JUSTIFIED);
    assert_no_texts(&rt, REFUSED_TEXTS);
}

/// First fit at 9 columns.
const FIRST_FIT: TextwrapOptions<'_> = TextwrapOptions {
    width: 9,
    optimal_fit: 0,
    ..DEFAULTS
};

/// Lines end by the algorithm of the options.
#[rattlefmt::skip]
const ENDS: &[OffsetsRow] = &[
    (OffsetsCall::EndsAt(b"foo bar baz", &[4, 8], &[], FIRST_FIT, 0), (DONE, 2), &[2, 3, NO_OFFSET]),
    (OffsetsCall::EndsAt(b"foo bar baz", &[4, 8], &[], TextwrapOptions { width: 9, ..DEFAULTS }, 1), (DONE, 2), &[2, 3, NO_OFFSET]),
    (OffsetsCall::EndsAt(b"foo bar baz", &[4, 8], &[], TextwrapOptions { width: 9, ..DEFAULTS }, 0), (TOO_SMALL, 2), &[2]),
    (OffsetsCall::EndsAt(b"foo bar baz", &[4, 8], &[], FIRST_FIT, 2), (UNKNOWN_OPTIONS, BEFORE), &[NO_OFFSET]),
    (OffsetsCall::EndsAt(b"foo bar baz", &[8, 4], &[], FIRST_FIT, 0), (WRONG_PLACES, BEFORE), &[NO_OFFSET]),
];

#[test]
fn lines_end_by_the_algorithm_of_the_options(rt: HostRuntime) {
    assert_offsets(&rt, ENDS);
}

/// A paragraph that stands nowhere.
const NO_PARAGRAPH: TextwrapParagraph = TextwrapParagraph {
    offset: 99,
    len: 99,
};

/// Options and a text; the status and how many paragraphs are told; and where they stand.
///
/// What is between the line endings. There is always a paragraph, and the first ones are written where
/// there is no room for all.
#[rattlefmt::skip]
const PARAGRAPHS: &[(TextwrapOptions<'_>, &[u8], (u32, usize), &[(usize, usize)])] = &[
    (DEFAULTS, b"a\n\nbc", (DONE, 3), &[(0, 1), (2, 0), (3, 2)]),
    (DEFAULTS, b"", (DONE, 1), &[(0, 0), (99, 99)]),
    (AT_3, b"a\nb\r\n", (DONE, 2), &[(0, 3), (5, 0)]),
    (DEFAULTS, b"a\nb", (TOO_SMALL, 2), &[(0, 1)]),
    (DEFAULTS, b"\xff", (NOT_UTF8, BEFORE), &[(99, 99)]),
    (TextwrapOptions { version: 0, ..DEFAULTS }, b"\xff", (UNKNOWN_OPTIONS, BEFORE), &[(99, 99)]),
];

/// Whether the paragraphs stand there.
fn are_paragraphs(paragraphs: &[TextwrapParagraph], places: &[(usize, usize)]) -> bool {
    for (paragraph, place) in paragraphs.iter().zip(places) {
        if (paragraph.offset, paragraph.len) != *place {
            return false;
        }
    }
    true
}

#[test]
fn paragraphs_stand_between_line_endings(rt: HostRuntime) {
    for (row, &(options, text, expected, places)) in PARAGRAPHS.iter().enumerate() {
        let mut paragraphs = [NO_PARAGRAPH; 3];
        let paragraphs = &mut paragraphs[..places.len().min(3)];
        let mut count = BEFORE;
        let status = textwrap_paragraphs(rt.alloc(), text, &options, paragraphs, &mut count);
        assert_told(&rt, row, (status, count), expected);
        assert_holds(&rt, row, are_paragraphs(paragraphs, places));
    }
}

/// Options, and whether a line stands before the paragraph `foo`; the status; whether it is whole, and
/// the widths.
///
/// A paragraph is whole if it has no indent and fewer bytes than columns. Indents take their columns.
#[rattlefmt::skip]
const WIDTHS: &[(TextwrapOptions<'_>, usize, u32, (usize, usize, usize))] = &[
    (DEFAULTS, 0, DONE, (1, 10, 10)),
    (AT_3, 1, DONE, (0, 3, 3)),
    (INDENTED, 0, DONE, (0, 8, 6)),
    (INDENTED, 1, DONE, (0, 8, 6)),
    (TextwrapOptions { even_paragraphs: 1, ..INDENTED }, 1, DONE, (0, 6, 6)),
    (TextwrapOptions { initial_indent: b"", ..INDENTED }, 0, DONE, (1, 10, 6)),
    (DEFAULTS, 2, UNKNOWN_OPTIONS, (99, 99, 99)),
    (TextwrapOptions { initial_indent: b"\xff", ..DEFAULTS }, 0, NOT_UTF8, (99, 99, 99)),
];

#[test]
fn a_paragraph_has_widths(rt: HostRuntime) {
    for (row, &(options, is_later, expected, told)) in WIDTHS.iter().enumerate() {
        let (is_whole, first, later) = told;
        let mut widths = TextwrapWidths {
            is_whole: 99,
            first: 99,
            later: 99,
        };
        let status = textwrap_paragraph_widths(b"foo", &options, is_later, &mut widths);
        assert_told(&rt, row, (status, widths.is_whole), (expected, is_whole));
        assert_told(&rt, row, (status, widths.first), (expected, first));
        assert_told(&rt, row, (status, widths.later), (expected, later));
    }
}

/// How many paragraphs a large text has, and how many words the other.
const MANY: usize = 10_000;

/// What is told of lines and of room.
type Told = (u32, usize, usize);

/// What is told of the lines of a text of many paragraphs, each one line as a whole, which take no room.
fn many_lines(alloc: Global) -> Result<Told, AllocError> {
    let text = "ab\n".repeat(alloc, MANY - 1)?;
    let steps = vec![in alloc; NO_STEPS; MANY]?;
    let mut lines = vec![in alloc; NOWHERE; MANY]?;
    let (mut count, mut len) = (BEFORE, BEFORE);
    let wrap = LinesCall::WrapAt(&steps, DEFAULTS);
    let text = text.as_bytes();
    let room: &mut [u8] = &mut [];
    let status = write_lines(
        alloc, false, wrap, text, &mut lines, &mut count, room, &mut len,
    );
    Ok((status, count, len))
}

/// What is told of the same text, filled or justified.
fn many_paragraphs(alloc: Global, is_justified: bool) -> Result<(u32, usize), AllocError> {
    let text = "ab\n".repeat(alloc, MANY - 1)?;
    let steps = vec![in alloc; NO_STEPS; MANY]?;
    let mut room = vec![in alloc; 0; 3 * MANY]?;
    let call = match is_justified {
        true => TextCall::JustifyAt(&steps, DEFAULTS),
        false => TextCall::FillAt(&steps, DEFAULTS),
    };
    let mut len = BEFORE;
    let status = write_text(alloc, false, call, text.as_bytes(), &mut room, &mut len);
    Ok((status, len))
}

#[test]
fn a_text_of_many_paragraphs_has_lines_in_steps(rt: HostRuntime) {
    let told = many_lines(rt.alloc()).expect(&rt, "room");
    assert_holds(&rt, 0, told == (DONE, MANY, 0));
    for is_justified in [false, true] {
        let told = many_paragraphs(rt.alloc(), is_justified).expect(&rt, "room");
        assert_told(&rt, 1, told, (DONE, 3 * (MANY - 1)));
    }
}
