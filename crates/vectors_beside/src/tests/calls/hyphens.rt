//! Hyphenation by patterns: dictionaries that are read into numbers, the points of words, and texts with
//! hyphens.
use super::lines::NO_TEXT_GAPS;
use super::places::{
    LinesRow, NO_OFFSET, NONE, OffsetsRow, RefusedLines, assert_lines, assert_no_lines,
    assert_offsets,
};
use super::plain::{
    BARS, BEFORE, DEFAULTS, LinesCall, NO_DICTIONARY, OffsetsCall, TextCall, UNKNOWN_GAPS,
    assert_holds,
};
use super::texts::{RefusedTexts, TextRow, assert_beginnings, assert_no_texts, assert_texts};
use std::alloc::{AllocError, Global};
use textwrap_calls::columns::TextwrapGaps;
use textwrap_calls::dictionary::TextwrapDictionary;
use textwrap_calls::options::TextwrapOptions;
use textwrap_calls::status::{DONE, NOT_UTF8, TOO_SMALL, UNKNOWN_OPTIONS};
use textwrap_calls::texts::TextwrapText;
use textwrap_more_calls::hyphens::reading::{textwrap_patterns_check, textwrap_patterns_read};
use textwrap_more_calls::hyphens::status::{DAMAGED_TABLE, WRONG_PATTERNS};
use textwrap_more_calls::tables::TextwrapColumn;

/// The patterns of `hy-phen-ation`.
const PATTERNS: &[u8] = b"hy3ph\nhe2n\nhena4\nhen5at\n1na\nn2at\n1tio\n2io\no2n\n";

/// How many numbers their dictionary has.
const NUMBERS: usize = 202;

/// How much room for numbers the longest row has.
const MOST: usize = 220;

/// A slot of a trie that is empty.
const FREE: usize = 8_388_607;

/// A number that was not written.
const NO_NUMBER: usize = 99;

/// The numbers of their dictionary, but that the second is this one, that so many letters stay before a
/// point and behind it, and that this is the sum of all, if there is any.
macro_rules! numbers {
    ($second:literal, $left:literal, $right:literal $(, $sum:literal)?) => {
        &[
            1_417_111_557, $second, 137, 41_943_040, 0, 0, 0, 0, 0, 234_881_024, 0, 0, 0, 0, FREE, FREE,
            FREE, FREE, FREE, 0, FREE, FREE, 0, FREE, FREE, FREE, FREE, FREE, FREE, FREE, FREE, FREE, FREE,
            FREE, FREE, FREE, FREE, FREE, FREE, FREE, FREE, FREE, FREE, FREE, FREE, FREE, FREE, FREE, FREE,
            FREE, FREE, FREE, FREE, FREE, FREE, FREE, FREE, FREE, FREE, FREE, FREE, FREE, FREE, FREE, FREE,
            FREE, FREE, FREE, FREE, FREE, FREE, FREE, FREE, FREE, FREE, FREE, FREE, FREE, FREE, FREE, FREE,
            FREE, FREE, FREE, FREE, FREE, FREE, FREE, FREE, FREE, FREE, FREE, FREE, FREE, FREE, FREE, FREE,
            FREE, FREE, FREE, FREE, FREE, 2_097_250, FREE, FREE, FREE, FREE, FREE, FREE, 16_777_318,
            52_428_898, 155_189_353, FREE, FREE, FREE, FREE, 10_485_871, FREE, FREE, FREE, 96_469_109,
            25_165_937, 205_521_008, 348_127_344, 314_572_911, 67_108_970, 272_629_877, 33_554_537,
            58_720_362, 41_943_162, FREE, FREE, FREE, 75_497_583, 83_886_192, FREE, FREE, FREE, FREE,
            134_217_845, 4, 0, 0, 2, 0, 5, 0, 0, 0, 0, 4, 6, 0, 0, 0, 5, 0, 0, 5, 0, 0, 3, 0, 0, 3, 2, 0,
            0, 3, 1, 0, 0, 4, 0, 2, 0, 0, 3, 0, 2, 0, 4, 1, 0, 0, 0, 6_291_456, 0, 6_291_456, 0, 0, 0, 188,
            0, 0, 0, 186, 1, 5, $left, $right $(, $sum)?
        ]
    };
}

/// The dictionary of the patterns.
const WHOLE: TextwrapDictionary<'_> = TextwrapDictionary {
    numbers: numbers!(159_383_552, 2, 3, 12_027_845_612_238_754_055),
    ..NO_DICTIONARY
};

/// The same, which hyphenates the parts of words too.
const IN_PARTS: TextwrapDictionary<'_> = TextwrapDictionary {
    in_parts: 1,
    ..WHOLE
};

/// The same without a test of the numbers.
const CHECKED: TextwrapDictionary<'_> = TextwrapDictionary {
    is_checked: 1,
    ..IN_PARTS
};

/// With soft hyphens as points.
const SOFT: TextwrapDictionary<'_> = TextwrapDictionary {
    soft_hyphens: 1,
    ..WHOLE
};

/// Numbers that mean nothing.
const UNKNOWN: TextwrapDictionary<'_> = TextwrapDictionary {
    in_parts: 2,
    ..WHOLE
};

/// With more letters before a point than the numbers say.
const FAR: TextwrapDictionary<'_> = TextwrapDictionary { left: 3, ..WHOLE };

/// Numbers of which one is another.
const CHANGED: TextwrapDictionary<'_> = TextwrapDictionary {
    numbers: numbers!(159_383_553, 2, 3, 12_027_845_612_238_754_055),
    ..WHOLE
};

/// Numbers of which two are exchanged: how many letters stay before a point, and how many behind it.
const EXCHANGED: TextwrapDictionary<'_> = TextwrapDictionary {
    numbers: numbers!(159_383_552, 3, 2, 12_027_845_612_238_754_055),
    ..WHOLE
};

/// Numbers without the last one.
const SHORT: TextwrapDictionary<'_> = TextwrapDictionary {
    numbers: numbers!(159_383_552, 2, 3),
    ..WHOLE
};

const NO_NUMBERS: TextwrapDictionary<'_> = TextwrapDictionary {
    numbers: &[],
    ..CHECKED
};

/// Reads a dictionary; the status, how many numbers are told, and which line.
fn read(alloc: Global, text: &[u8], room: &mut [usize]) -> (u32, usize, usize) {
    let (mut len, mut line) = (BEFORE, BEFORE);
    let status = textwrap_patterns_read(alloc, text, room, &mut len, &mut line);
    (status, len, line)
}

/// Tests the numbers of a dictionary. Answers the status.
fn check(dictionary: TextwrapDictionary<'_>) -> u32 {
    textwrap_patterns_check(dictionary.numbers)
}

/// A text, how much room there is, and the status, the numbers and the line that are told.
type ReadRow = (&'static [u8], usize, (u32, usize, usize));

/// The first line that is wrong is told, and nothing else then.
#[rattlefmt::skip]
const READ: &[ReadRow] = &[
    (PATTERNS, MOST, (DONE, NUMBERS, BEFORE)),
    (PATTERNS, NUMBERS, (DONE, NUMBERS, BEFORE)),
    (PATTERNS, NUMBERS - 1, (TOO_SMALL, NUMBERS, BEFORE)),
    (PATTERNS, 0, (TOO_SMALL, NUMBERS, BEFORE)),
    (b"", MOST, (WRONG_PATTERNS, BEFORE, 1)),
    (b"hy3ph\n\nhe/2n\nNOHYPHEN a\n", MOST, (WRONG_PATTERNS, BEFORE, 3)),
    (b"ISO8859-1\nhy3ph n}\n", 0, (WRONG_PATTERNS, BEFORE, 2)),
    (b"% TeX\n\\patterns{hy3ph\n", 0, (WRONG_PATTERNS, BEFORE, 2)),
    (b"hy/3ph\n\xff", 0, (NOT_UTF8, BEFORE, BEFORE)),
];

#[test]
fn dictionaries_are_read(rt: HostRuntime) {
    for (row, &(text, has, expected)) in READ.iter().enumerate() {
        let mut room = [NO_NUMBER; MOST];
        let told = read(rt.alloc(), text, &mut room[..has.min(MOST)]);
        assert!(rt; told == expected, "row {row}: {told:?}");
        let has = if told.1 == NUMBERS { has } else { 0 };
        let written = has.min(NUMBERS);
        assert_holds(&rt, row, WHOLE.numbers.starts_with(&room[..written]));
        assert_holds(&rt, row, room.get(written) == Some(&NO_NUMBER));
    }
}

/// What is told of the patterns that many times, and of these with a wrong line behind them.
fn read_large(
    alloc: Global,
    times: usize,
) -> Result<((u32, usize, usize), (u32, usize, usize)), AllocError> {
    let mut text = PATTERNS.repeat(alloc, times)?;
    let mut room = [NO_NUMBER; MOST];
    let right = read(alloc, &text, &mut room);
    text.extend_from_slice(b"a b}\n")?;
    Ok((right, read(alloc, &text, &mut room)))
}

#[test]
fn a_large_dictionary_is_read(rt: HostRuntime) {
    let told = read_large(rt.alloc(), 1_000).expect(&rt, "memory");
    let expected = ((DONE, NUMBERS, BEFORE), (WRONG_PATTERNS, BEFORE, 9_001));
    assert_holds(&rt, 0, told == expected);
}

/// Dictionaries, and what testing their numbers answers.
const TESTED: &[(TextwrapDictionary<'_>, u32)] = &[
    (WHOLE, DONE),
    (CHANGED, DAMAGED_TABLE),
    (EXCHANGED, DAMAGED_TABLE),
    (SHORT, DAMAGED_TABLE),
    (NO_NUMBERS, DAMAGED_TABLE),
];

#[test]
fn numbers_are_tested(rt: HostRuntime) {
    for (row, &(dictionary, expected)) in TESTED.iter().enumerate() {
        let status = check(dictionary);
        assert!(rt; status == expected, "row {row}: {status}");
    }
}

/// A word with a hyphen has no points, unless its parts are hyphenated. What is not known is refused
/// before a word that is none, and that before numbers that were damaged.
#[rattlefmt::skip]
const POINTS: &[OffsetsRow] = &[
    (OffsetsCall::HyphenPoints(b"hyphenation", WHOLE), (DONE, 2), &[2, 6, NO_OFFSET]),
    (OffsetsCall::HyphenPoints(b"hyphenation", WHOLE), (TOO_SMALL, 2), &[2]),
    (OffsetsCall::HyphenPoints(b"(Hyphenation),", WHOLE), (DONE, 2), &[3, 7, NO_OFFSET]),
    (OffsetsCall::HyphenPoints(b"re-hyphenation", WHOLE), (DONE, 0), &[NO_OFFSET]),
    (OffsetsCall::HyphenPoints(b"re-hyphenation", IN_PARTS), (DONE, 2), &[5, 9]),
    (OffsetsCall::HyphenPoints(b"re-hyphenation", CHECKED), (DONE, 2), &[5, 9]),
    (OffsetsCall::HyphenPoints(b"", WHOLE), (DONE, 0), &[]),
    (OffsetsCall::HyphenPoints(b"\xff", UNKNOWN), (UNKNOWN_OPTIONS, BEFORE), &[NO_OFFSET]),
    (OffsetsCall::HyphenPoints(b"\xff", TextwrapDictionary { is_checked: 2, ..WHOLE }), (UNKNOWN_OPTIONS, BEFORE), &[NO_OFFSET]),
    (OffsetsCall::HyphenPoints(b"hyphenation", FAR), (DONE, 1), &[6]),
    (OffsetsCall::HyphenPoints(b"hyphenation", TextwrapDictionary { right: 6, ..CHECKED }), (DONE, 1), &[2]),
    (OffsetsCall::HyphenPoints(b"\xff", SHORT), (NOT_UTF8, BEFORE), &[NO_OFFSET]),
    (OffsetsCall::HyphenPoints(b"hyphenation", CHANGED), (DAMAGED_TABLE, BEFORE), &[NO_OFFSET]),
    (OffsetsCall::HyphenPoints(b"hyphenation", EXCHANGED), (DAMAGED_TABLE, BEFORE), &[NO_OFFSET]),
    (OffsetsCall::HyphenPoints(b"hyphenation", SHORT), (DAMAGED_TABLE, BEFORE), &[NO_OFFSET]),
    // Three letters have to stand before a point here, in place of two.
    (OffsetsCall::HyphenPoints(b"hyphenation", TextwrapDictionary { is_checked: 1, in_parts: 1, ..EXCHANGED }), (DONE, 1), &[6, NO_OFFSET]),
    (OffsetsCall::HyphenPoints(b"hyphenation", NO_NUMBERS), (DONE, 0), &[NO_OFFSET]),
    // Soft hyphens are not seen, or are the points.
    (OffsetsCall::HyphenPoints(b"hy\xc2\xadphenation", WHOLE), (DONE, 2), &[4, 8, NO_OFFSET]),
    (OffsetsCall::HyphenPoints(b"hy\xc2\xadphenation", SOFT), (DONE, 1), &[4, NO_OFFSET]),
    (OffsetsCall::HyphenPoints(b"hyphenation", SOFT), (DONE, 2), &[2, 6, NO_OFFSET]),
    (OffsetsCall::HyphenPoints(b"\xff", TextwrapDictionary { soft_hyphens: 2, ..WHOLE }), (UNKNOWN_OPTIONS, BEFORE), &[NO_OFFSET]),
    (OffsetsCall::HyphenPoints(b"\xff", TextwrapDictionary { reserved: 1, ..NO_DICTIONARY }), (UNKNOWN_OPTIONS, BEFORE), &[NO_OFFSET]),
];

#[test]
fn words_have_points(rt: HostRuntime) {
    assert_offsets(&rt, POINTS);
}

/// First fit at 11 columns.
pub(super) const AT_11: TextwrapOptions<'_> = TextwrapOptions {
    width: 11,
    optimal_fit: 0,
    dictionary: WHOLE,
    ..DEFAULTS
};

/// The defaults at 6 columns.
const AT_6: TextwrapOptions<'_> = TextwrapOptions {
    width: 6,
    dictionary: WHOLE,
    ..DEFAULTS
};

/// First fit at 4 columns.
const AT_4: TextwrapOptions<'_> = TextwrapOptions { width: 4, ..AT_11 };

/// A word that is a link, with hyphens in its address and in what is shown.
const LINK: &[u8] = b"a \x1b]8;;x-y\x1b\\b-c\x1b]8;;\x1b\\";

/// Its lines at 4 columns, split behind the hyphen that is shown.
const OUTSIDE: &[u8] = b"a \x1b]8;;x-y\x1b\\b-\nc\x1b]8;;\x1b\\__";

/// A hyphen is written at a point of the patterns, and none behind a hyphen of the word.
#[rattlefmt::skip]
const FILLED: &[TextRow<'_>] = &[
    ((TextCall::Fill(AT_11), b"the hyphenation"), (DONE, 17, b"the hyphen-\nation__")),
    ((TextCall::Fill(AT_6), b"hyphenation"), (DONE, 15, b"hy-\nphen-\nation__")),
    ((TextCall::Fill(TextwrapOptions { dictionary: FAR, width: 7, ..AT_6 }), b"hyphenation"), (DONE, 13, b"hyphen-\nation__")),
    // A part whose hyphen has no room is broken.
    ((TextCall::Fill(TextwrapOptions { dictionary: FAR, ..AT_6 }), b"hyphenation"), (DONE, 12, b"hyphe\nnation__")),
    ((TextCall::Fill(AT_11), b"the re-hyphenation"), (DONE, 19, b"the re-\nhyphenation__")),
    ((TextCall::Fill(TextwrapOptions { dictionary: IN_PARTS, ..AT_6 }), b"re-hyphenation"), (DONE, 18, b"re-hy-\nphen-\nation__")),
    // At blanks this is one word.
    ((TextCall::Fill(TextwrapOptions { width: 7, ..AT_6 }), b"\xe4\xbd\xa0\xe5\xa5\xbdhyphenation"), (DONE, 21, b"\xe4\xbd\xa0\xe5\xa5\xbdhy-\nphen-\nation__")),
    ((TextCall::Fill(AT_BREAKS), b"\xe4\xbd\xa0\xe5\xa5\xbdhyphenation"), (DONE, 22, b"\xe4\xbd\xa0\xe5\xa5\xbd\nhy-\nphen-\nation__")),
    // By pairs no line ends between `%` and `(`; by the expression it may, as no digit stands there.
    ((TextCall::Fill(AT_BREAKS), b"ab%(cdef)"), (DONE, 10, b"ab%(cd\nef)__")),
    ((TextCall::Fill(TextwrapOptions { unicode_breaks: 2, ..AT_6 }), b"ab%(cdef)"), (DONE, 10, b"ab%\n(cdef)__")),
    ((TextCall::Fill(TextwrapOptions { unicode_breaks: 2, ..AT_6 }), b"\xe4\xbd\xa0\xe5\xa5\xbdhyphenation"),
        (DONE, 22, b"\xe4\xbd\xa0\xe5\xa5\xbd\nhy-\nphen-\nation__")),
    ((TextCall::Fill(AT_11), b"the hy\xc2\xadphenation"), (DONE, 19, b"the hy\xc2\xadphen-\nation__")),
    ((TextCall::Fill(TextwrapOptions { dictionary: SOFT, ..AT_11 }), b"the hy\xc2\xadphenation"), (DONE, 19, b"the hy\xc2\xad-\nphenation__")),
    ((TextCall::Fill(TextwrapOptions { split_at_hyphens: 0, ..AT_11 }), b"the re-hyphenation"), (DONE, 19, b"the re-\nhyphenation__")),
    // No line ends within the address of a link, unless any hyphen is a point.
    ((TextCall::Fill(AT_4), LINK), (DONE, 23, OUTSIDE)),
    ((TextCall::Fill(TextwrapOptions { split_at_hyphens: 2, dictionary: NO_DICTIONARY, ..AT_4 }), LINK), (DONE, 23, OUTSIDE)),
    ((TextCall::Fill(TextwrapOptions { dictionary: NO_DICTIONARY, ..AT_4 }), LINK), (DONE, 23, b"a \x1b]8;;x-\ny\x1b\\b-c\x1b]8;;\x1b\\__")),
    // Without numbers there is no dictionary.
    ((TextCall::Fill(TextwrapOptions { dictionary: NO_NUMBERS, ..AT_11 }), b"the hyphenation"), (DONE, 15, b"the\nhyphenation__")),
    // A line of the least cost may do without a hyphen.
    ((TextCall::Fill(TextwrapOptions { optimal_fit: 1, ..AT_11 }), b"the hyphenation"), (DONE, 17, b"the hyphen-\nation__")),
    ((TextCall::Fill(TextwrapOptions { optimal_fit: 1, hyphen_penalty: 1_000_000, ..AT_11 }), b"the hyphenation"), (DONE, 15, b"the\nhyphenation__")),
    ((TextCall::FillJustified(TextwrapOptions { width: 13, ..AT_11 }), b"a b hyphenation"), (DONE, 19, b"a  b  hyphen-\nation__")),
];

/// A line without room, one with blanks in front, and one that is wider than the later ones.
#[rattlefmt::skip]
const NARROW_LINES: &[TextRow<'_>] = &[
    ((TextCall::Fill(AT_4), b"aaaa hyphenation"), (DONE, 22, b"aaaa\nhy-\nphe\nn-\natio\nn__")),
    ((TextCall::Fill(TextwrapOptions { width: 5, ..AT_11 }), b"aa bb hyphenation cc"), (DONE, 24, b"aa bb\nhy-\nphen-\nation\ncc__")),
    ((TextCall::Fill(TextwrapOptions { width: 8, ..AT_11 }), b"  hyphenation"), (DONE, 17, b"  hy-\nphen-\nation__")),
    ((TextCall::Fill(TextwrapOptions { width: 8, subsequent_indent: b"    ", ..AT_11 }), b"a hyphenation"),
        (DONE, 29, b"a hyphe\n    n-\n    atio\n    n__")),
];

/// Words that end nobody knows where.
const AT_UNKNOWN: TextwrapOptions<'_> = TextwrapOptions {
    unicode_breaks: 3,
    ..AT_11
};

/// Words that end where Unicode lets a line end.
const AT_BREAKS: TextwrapOptions<'_> = TextwrapOptions {
    unicode_breaks: 1,
    ..AT_6
};

/// An indent that is no text.
const WRONG_INDENT: TextwrapOptions<'_> = TextwrapOptions {
    subsequent_indent: b"\xff",
    ..AT_11
};

/// A dictionary that is not known, or was damaged, is refused before a text that is none.
#[rattlefmt::skip]
const REFUSED_TEXTS: &[RefusedTexts] = &[
    (UNKNOWN_OPTIONS, &[
        (TextCall::Fill(TextwrapOptions { dictionary: UNKNOWN, ..AT_11 }), b"\xff"),
        (TextCall::Fill(AT_UNKNOWN), b"a"),
        (TextCall::Fill(TextwrapOptions { dictionary: TextwrapDictionary { is_checked: 2, ..WHOLE }, ..AT_11 }), b"a"),
        (TextCall::Fill(TextwrapOptions { dictionary: TextwrapDictionary { soft_hyphens: 2, ..WHOLE }, ..AT_11 }), b"a"),
        (TextCall::Fill(TextwrapOptions { dictionary: TextwrapDictionary { reserved: 1, ..NO_DICTIONARY }, ..AT_11 }), b"a"),
        (TextCall::Fill(TextwrapOptions { dictionary: SHORT, ..AT_11 }), b"\xff"),
        (TextCall::Fill(TextwrapOptions { dictionary: SHORT, ..WRONG_INDENT }), b"a"),
        (TextCall::Fill(TextwrapOptions { dictionary: CHANGED, ..AT_11 }), b"a"),
        (TextCall::Fill(TextwrapOptions { dictionary: EXCHANGED, ..AT_11 }), b"a"),
        (TextCall::Fill(TextwrapOptions { dictionary: SHORT, ..AT_11 }), b"a"),
        (TextCall::FillJustified(TextwrapOptions { dictionary: SHORT, ..AT_11 }), b"\xff"),
    ]),
    (NOT_UTF8, &[(TextCall::Fill(AT_11), b"\xff"), (TextCall::Fill(WRONG_INDENT), b"a")]),
];

/// The same where a text is refilled.
#[rattlefmt::skip]
const REFUSED_REFILLS: &[RefusedTexts] = &[
    (UNKNOWN_OPTIONS, &[
        (TextCall::Refill(AT_UNKNOWN), b"\xff"),
        (TextCall::Refill(TextwrapOptions { dictionary: TextwrapDictionary { is_checked: 2, ..WHOLE }, ..AT_11 }), b"a"),
        (TextCall::Refill(TextwrapOptions { dictionary: SHORT, ..WRONG_INDENT }), b"a"),
        (TextCall::Refill(TextwrapOptions { dictionary: CHANGED, ..AT_11 }), b"a"),
    ]),
    (NOT_UTF8, &[(TextCall::Refill(WRONG_INDENT), b"a")]),
];

/// The same of the calls that write lines.
#[rattlefmt::skip]
const REFUSED_LINES: &[RefusedLines] = &[
    (UNKNOWN_OPTIONS, &[
        (LinesCall::Wrap(AT_UNKNOWN), b"a"),
        (LinesCall::Columns(0, AT_15, BAR), b"\xff"),
        (LinesCall::Columns(1, AT_15, UNKNOWN_GAPS), b"a"),
        (LinesCall::Columns(1, TextwrapOptions { dictionary: UNKNOWN, ..AT_15 }, NO_TEXT_GAPS), b"a"),
        (LinesCall::Wrap(TextwrapOptions { dictionary: SHORT, ..AT_11 }), b"\xff"),
        (LinesCall::Columns(1, TextwrapOptions { dictionary: SHORT, ..AT_15 }, NO_TEXT_GAPS), b"a"),
        (LinesCall::Wrap(TextwrapOptions { dictionary: SHORT, ..AT_11 }), b"a"),
        (LinesCall::Columns(1, TextwrapOptions { dictionary: EXCHANGED, ..AT_15 }, BAR), b"a"),
        (LinesCall::WrapBalanced(TextwrapOptions { dictionary: CHANGED, ..AT_11 }), b"a"),
        (LinesCall::Table(CELLS, &[TextwrapColumn { options: TextwrapOptions { dictionary: SHORT, ..AT_11 }, ..RIGHT }], BARS), b""),
    ]),
    (NOT_UTF8, &[(LinesCall::Wrap(AT_11), b"\xff"), (LinesCall::Columns(1, AT_15, NO_TEXT_GAPS), b"a")]),
];

#[test]
fn texts_are_filled_with_hyphens(rt: HostRuntime) {
    assert_texts(&rt, FILLED);
    assert_texts(&rt, NARROW_LINES);
    assert_no_texts(&rt, REFUSED_TEXTS);
    assert_no_texts(&rt, REFUSED_REFILLS);
    assert_beginnings(&rt, FILLED);
}

/// A text is filled again with its own indents, and not with that of the options. A hyphen that was added
/// before stays.
#[rattlefmt::skip]
const REFILLED: &[TextRow<'_>] = &[
    ((TextCall::Refill(TextwrapOptions { width: 14, initial_indent: b"> ", ..AT_11 }), b"// the\n// hyphenation\n"), (DONE, 24, b"// the hyphen-\n// ation\n__")),
    ((TextCall::Refill(TextwrapOptions { width: 20, initial_indent: b"> ", ..AT_11 }), b"// the hyphen-\n// ation\n"), (DONE, 21, b"// the hyphen- ation\n__")),
    ((TextCall::Refill(TextwrapOptions { dictionary: CHECKED, ..AT_6 }), b"re-hyphenation"), (DONE, 18, b"re-hy-\nphen-\nation__")),
    // At blanks this is one word.
    ((TextCall::Refill(AT_BREAKS), b"> \xe4\xbd\xa0\xe5\xa5\xbdhyphenation\n"), (DONE, 25, b"> \xe4\xbd\xa0\n\xe5\xa5\xbdhy-\nphen-\nation\n__")),
];

#[test]
fn texts_are_filled_again_with_hyphens(rt: HostRuntime) {
    assert_texts(&rt, REFILLED);
    assert_beginnings(&rt, REFILLED);
}

/// A line with a hyphen is a text of its own.
#[rattlefmt::skip]
const WRAPPED: &[LinesRow] = &[
    ((LinesCall::Wrap(AT_11), b"the hyphenation"), (DONE, 2, 11), (&[(0, 11, 1), (10, 5, 0), NONE], b"the hyphen-_")),
    ((LinesCall::Wrap(AT_11), b"the hyphenation"), (TOO_SMALL, 2, 11), (&[(0, 11, 1)], b"the hyphen-")),
    ((LinesCall::Wrap(AT_11), b"the hyphenation"), (TOO_SMALL, 2, 11), (&[(0, 11, 1), (10, 5, 0)], b"the hyphen")),
    ((LinesCall::Wrap(AT_11), b""), (DONE, 1, 0), (&[(0, 0, 0)], b"_")),
    ((LinesCall::Wrap(AT_BREAKS), b"\xe4\xbd\xa0\xe5\xa5\xbdhyphenation"), (DONE, 4, 8), (&[(0, 6, 0), (0, 3, 1), (3, 5, 1), (12, 5, 0), NONE], b"hy-phen-_")),
    ((LinesCall::WrapBalanced(AT_11), b"the hyphenation"), (DONE, 2, 7), (&[(0, 7, 1), (6, 9, 0), NONE], b"the hy-_")),
];

#[test]
fn texts_are_wrapped_with_hyphens(rt: HostRuntime) {
    assert_lines(&rt, WRAPPED);
    assert_no_lines(&rt, REFUSED_LINES);
}

/// A text in a table.
#[rattlefmt::skip]
const CELLS: &[TextwrapText<'_>] = &[TextwrapText { bytes: b"the hyphenation" }];

/// A column whose lines stand at the right.
const RIGHT: TextwrapColumn<'_> = TextwrapColumn {
    options: AT_11,
    alignment: 1,
    reserved: 0,
};

/// A bar between each two columns.
pub(super) const BAR: TextwrapGaps<'_> = TextwrapGaps {
    left: b"",
    middle: b"|",
    right: b"",
    reserved_sizes: [0; 4],
};

/// Rows of 15 columns, by first fit.
pub(super) const AT_15: TextwrapOptions<'_> = TextwrapOptions { width: 15, ..AT_11 };

/// The width of a column is that of the lines.
#[rattlefmt::skip]
const IN_COLUMNS: &[LinesRow] = &[
    ((LinesCall::Columns(2, AT_15, BAR), b"the hyphenation"), (DONE, 2, 30), (&[(0, 15, 1), (15, 15, 1), NONE], b"the hy-|ation  phen-  |       _")),
    ((LinesCall::Columns(2, TextwrapOptions { dictionary: CHECKED, ..AT_15 }, BAR), b"the hyphenation"),
        (TOO_SMALL, 2, 30), (&[(0, 15, 1)], b"the hy-|ation  phen")),
    ((LinesCall::Columns(2, TextwrapOptions { width: 13, unicode_breaks: 1, dictionary: CHECKED, ..AT_11 }, BAR), b"\xe4\xbd\xa0\xe5\xa5\xbdhyphenation"),
        (DONE, 2, 28), (&[(0, 15, 1), (15, 13, 1), NONE], b"\xe4\xbd\xa0\xe5\xa5\xbd  |phen- hy-   |ation _")),
    ((LinesCall::Table(CELLS, &[RIGHT], BARS), b""), (DONE, 2, 26), (&[(0, 13, 1), (13, 13, 1), NONE], b"|the hyphen-||      ation|_")),
];

#[test]
fn texts_stand_in_columns_with_hyphens(rt: HostRuntime) {
    assert_lines(&rt, IN_COLUMNS);
}
