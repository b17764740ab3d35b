//! Texts by `wrap` and `fill`, whatever the way of a paragraph.
use super::given::{Found, are_joined, assert_found};
use super::plain::{plain_append, plain_fill, plain_wrap};
use super::texts::Call::Wrap;
use super::texts::{Layout, OPTIMAL_FIT, PENALTIES, gives, options_of};
use LineEnding::{CRLF, LF};
use std::alloc::Global;
use std::borrow::CowStr;
use std::process::Abort;
use textwrap::wrap_algorithms::Penalties;
use textwrap::{LineEnding, Options, WrapError};

/// A last line is short if it takes less than a tenth of its width.
const LONG_LAST_LINE: Penalties = Penalties {
    short_last_line_fraction: 10,
    ..PENALTIES
};

/// By other penalties other lines have the least sum of costs.
#[test]
fn penalties_are_those_of_the_options(rt: HostRuntime) {
    let layout = Layout {
        penalties: Some(LONG_LAST_LINE),
        ..OPTIMAL_FIT
    };
    let text = "This is a demo of the short last line penalty.";
    let expected = "This is a demo of the short last line|penalty.|";
    let holds = gives(rt.alloc(), Wrap(37, layout), text, expected);
    assert_found(&rt, text, holds);
}

/// Penalties that are all unlike the defaults.
const ODD: Penalties = Penalties {
    nline_penalty: 3,
    overflow_penalty: 7,
    short_last_line_fraction: 2,
    short_last_line_penalty: 90,
    hyphen_penalty: 11,
};

/// Penalties that are too great for a search for the least costs.
const GREAT: Penalties = Penalties {
    nline_penalty: usize::MAX,
    ..PENALTIES
};

#[rattlefmt::skip]
const WIDTHS: &[usize] = &[0, 1, 2, 3, 4, 5, 6, 7, 8, 9, 10, 11, 12, 13, 20, 31, 50, 80, usize::MAX];

const ALL_PENALTIES: &[Option<Penalties>] = &[None, Some(PENALTIES), Some(ODD), Some(GREAT)];

const SPLIT: &[bool] = &[true, false];

/// Most paragraphs are divided without a list of their words; the lines are those of the lists.
#[test]
fn a_list_of_words_makes_no_difference(rt: HostRuntime) {
    for &penalties in ALL_PENALTIES {
        for &width in WIDTHS {
            for &split_words in SPLIT {
                let layout = Layout {
                    penalties,
                    split_words,
                    ..OPTIMAL_FIT
                };
                assert_same_lines(&rt, width, layout);
            }
        }
    }
}

const INDENTS: &[(&str, &str)] = &[("", ""), ("* ", "  "), ("", "> "), ("\x1b[1m안안안", "")];

/// No setting by built-in parts needs that list.
#[test]
fn indents_make_no_difference_to_that(rt: HostRuntime) {
    for &(initial_indent, subsequent_indent) in INDENTS {
        for penalties in [None, Some(PENALTIES)] {
            for width in [0, 1, 2, 3, 5, 7, 10, 13, 20, 40] {
                let layout = Layout {
                    initial_indent,
                    subsequent_indent,
                    penalties,
                    ..OPTIMAL_FIT
                };
                assert_same_under_settings(&rt, width, layout);
            }
        }
    }
}

/// Whether words are broken, whether blanks are kept, and whether paragraphs are even.
#[rattlefmt::skip]
const SETTINGS: &[(bool, bool, bool)] = &[
    (false, false, false), (false, false, true), (false, true, false), (false, true, true), (true, false, false),
    (true, false, true), (true, true, false), (true, true, true),
];

/// Asserts the same for words that are broken or whole, blanks that are preserved or left off, and
/// even and uneven paragraphs.
fn assert_same_under_settings(rt: &(impl Abort + AllocGlobal), width: usize, layout: Layout<'_>) {
    for &(break_words, preserve_trailing_space, even_paragraphs) in SETTINGS {
        let layout = Layout {
            break_words,
            preserve_trailing_space,
            even_paragraphs,
            ..layout
        };
        assert_same_lines(rt, width, layout);
    }
}

const TEXTS: &[&str] = &[
    "",
    " ",
    "To be, or not to be: that is the question",
    "a well-known 9-to-5 job, x--y -z z- \"a-b\" -a-b-c- 1-2-3",
    "  blanks  before   and    between     and after      ",
    "averyveryveryverylongword-and-another-of-them and-more",
    "plain\n\nnaïve café-crème\r\nplain-text again\n",
    "a\ttab, \x1b[31mred\x1b[0m-green, a delete \x7f-\x7f and ~ alone",
    "안녕 하세요-안녕하세요 abc",
    "  안녕   하세요  안녕하세요안녕하세요-a-안    ",
    "é a-é-b é-안 1-é ١-٢ -é- é-- --é é-\u{301}a",
    // Combining marks, also where a line is full, and without a character before them.
    "e\u{301}e\u{301}e\u{301} \u{301} \u{301}\u{301} aa     \u{301} b",
    "안\u{301}안\u{301}  \u{301}   안\u{301}",
    // Escape sequences in words, across them, at cuts, and without an end.
    "\x1b[31mlong-coloured-words\x1b[0m and\x1b[1m \x1b[0mmore é",
    "\x1b]8;;a b-c\x1b\\li nk-a-b\x1b]8;;\x07 é",
    "aa\x1b[1;\x1b[2m-bb안\x1b!-\x1b안 안\x1b[3",
    "\x1b[1m \x1b[2m  \x1b[3m-\x1b[4m",
    "é\tb\t\tc \t d\u{a0}e",
    "é\r\n안녕하 세요\n\n \n안\r\r\n  a안-b  \n",
];

/// Asserts that the texts have the lines of the lists, by each ending.
fn assert_same_lines(rt: &(impl Abort + AllocGlobal), width: usize, layout: Layout<'_>) {
    for &text in TEXTS {
        for line_ending in [LF, CRLF] {
            let layout = Layout {
                line_ending,
                ..layout
            };
            assert_listed(rt, text, &options_of(width, &layout));
        }
    }
}

/// Asserts that a text has the lines of the lists of words, in a list and in one text.
fn assert_listed(rt: &(impl Abort + AllocGlobal), text: &str, options: &Options<'_>) {
    let holds = is_listed(rt.alloc(), text, options);
    assert_found(rt, (text, options.width), holds);
}

/// Whether the lines have the same texts.
fn are_same(lines: &[CowStr<'_>], listed: &[CowStr<'_>]) -> bool {
    for (line, listed) in lines.iter().zip(listed) {
        if line.as_str() != listed.as_str() {
            return false;
        }
    }
    lines.len() == listed.len()
}

/// Whether a text is wrapped and filled to the lines by way of lists of words.
fn is_listed(alloc: Global, text: &str, options: &Options<'_>) -> Found {
    let listed = listed_lines(alloc, text, options)?;
    let lines = plain_wrap(alloc, text, Options::from(options))?;
    let filled = plain_fill(alloc, text, Options::from(options))?;
    let is_filled = are_joined(&listed, options.line_ending.as_str(), &filled);
    Ok(is_filled && are_same(&lines, &listed))
}

/// The lines of a text, paragraph by paragraph. Each is divided by way of a list of its words, unless
/// it is one line as a whole.
fn listed_lines<'t>(
    alloc: Global,
    text: &'t str,
    options: &Options<'_>,
) -> Result<Vec<CowStr<'t>>, WrapError> {
    let mut lines = Vec::new(alloc);
    for paragraph in text.split(options.line_ending.as_str()) {
        let slowly = !is_one_line(paragraph, options, lines.is_empty());
        plain_append(alloc, paragraph, options, slowly, &mut lines)?;
    }
    Ok(lines)
}

/// Whether a paragraph is one line as a whole: no indent stands before it, and it is short.
fn is_one_line(paragraph: &str, options: &Options<'_>, is_first: bool) -> bool {
    let indent = if is_first {
        options.initial_indent
    } else {
        options.subsequent_indent
    };
    indent.is_empty() && paragraph.len() < options.width
}
