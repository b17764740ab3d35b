//! Long texts: of nothing but line endings, of nothing but blanks, and of many words. A body that
//! gave up on what is longer than the rows of the other tables would pass those.
use super::given::{Found, assert_found, has_words};
use super::plain::{plain_fill, plain_find_words};
use super::texts::Call::{
    Append, Columns, Dedent, Fill, FillInplace, Indent, Refill, Strip, Unfill, Wrap,
};
use super::texts::{Call, FIRST_FIT, Layout, OPTIMAL_FIT, gives, options_of};
use LineEnding::LF;
use std::alloc::{AllocError, Global};
use textwrap::words::Word;
use textwrap::{LineEnding, WordSeparator};

/// A text: a beginning; a part that is repeated so many times, with what follows it; how many times
/// that stands; an end.
type Long<'a> = (&'a str, &'a str, usize, &'a str, usize, &'a str);

/// A part that is repeated so many times, with what follows it.
fn repeated(alloc: Global, part: &str, count: usize, after: &str) -> Result<String, AllocError> {
    let repeated = part.repeat(alloc, count)?;
    format!(in alloc; "{repeated}{after}")
}

/// The whole text.
fn whole(alloc: Global, text: Long<'_>) -> Result<String, AllocError> {
    let (beginning, part, parts, after, lines, end) = text;
    let line = repeated(alloc, part, parts, after)?;
    let lines = repeated(alloc, &line, lines, end)?;
    format!(in alloc; "{beginning}{lines}")
}

const EMPTY: Long<'_> = ("", "", 0, "", 0, "");

/// How many line endings. A built test has a million of them done in less than a second, but
/// `rt try`, which checks each access, would take minutes for so many.
const LINE_ENDINGS: usize = 10_000;

const LINE_FEEDS: Long<'_> = ("", "\n", LINE_ENDINGS, "", 1, "");

/// How many blanks.
const MILLION: usize = 1_000_000;

const BLANKS: Long<'_> = ("", " ", MILLION, "", 1, "");

/// How many words.
const WORDS: usize = 6_000;

const MANY_WORDS: Long<'_> = ("", "ab ", WORDS, "", 1, "");

const LINES_OF_WORDS: Long<'_> = ("", "ab ab ab\n", WORDS / 3 - 1, "", 1, "ab ab ab");

/// Many paragraphs, each of three lines and an empty one.
const PARAGRAPHS: Long<'_> = ("", "To be,\tor not\r\nto be\n\n", 300, "", 1, "");

const KEEPING_BLANKS: Layout<'_> = Layout {
    preserve_trailing_space: true,
    ..OPTIMAL_FIT
};

/// What both indents are in most rows, or in some.
const NONE: Long<'_> = EMPTY;

const QUOTE: Long<'_> = ("> ", "", 0, "", 0, "");

const LONG_QUOTE: Long<'_> = ("", "> ", 5000, "", 1, "");

/// Lines that begin with the long one.
const QUOTED: Long<'_> = ("", "> ", 5000, "ab\n", 50, "");

/// What is tried; the call but for its indents, what these are, and its text; what it gives.
type Row<'a> = (&'a str, Call<'a>, Long<'a>, Long<'a>, Long<'a>);

#[rattlefmt::skip]
const ROWS: &[Row<'_>] = &[
    // Each line ending stays one: the paragraphs before, between and after them are empty lines.
    ("line feeds wrapped", Wrap(80, OPTIMAL_FIT), NONE, LINE_FEEDS, ("", "|", LINE_ENDINGS + 1, "", 1, "")),
    ("line feeds filled", Fill(80, OPTIMAL_FIT), NONE, LINE_FEEDS, LINE_FEEDS),
    ("line feeds in place", FillInplace(80), NONE, LINE_FEEDS, LINE_FEEDS),
    ("line feeds in a column", Columns(1, 1, OPTIMAL_FIT, "", "", ""), NONE, LINE_FEEDS, ("", " \n", LINE_ENDINGS + 1, "", 1, "")),
    // Empty lines are nothing to fill again. They get the indent without its blank, and lose
    // nothing.
    ("line feeds refilled", Refill(80, OPTIMAL_FIT), NONE, LINE_FEEDS, EMPTY),
    ("line feeds indented", Indent(""), QUOTE, LINE_FEEDS, ("", ">\n", LINE_ENDINGS, "", 1, "")),
    ("line feeds dedented", Dedent, NONE, LINE_FEEDS, LINE_FEEDS),
    // Blanks are the end of one line, which is left off, and no place to break it in place.
    ("blanks wrapped", Wrap(80, OPTIMAL_FIT), NONE, BLANKS, ("|", "", 0, "", 1, "")),
    ("blanks filled", Fill(80, OPTIMAL_FIT), NONE, BLANKS, EMPTY),
    ("blanks kept", Fill(80, KEEPING_BLANKS), NONE, BLANKS, BLANKS),
    ("blanks in place", FillInplace(80), NONE, BLANKS, BLANKS),
    ("blanks in a column", Columns(1, 1, OPTIMAL_FIT, "", "", ""), NONE, BLANKS, (" \n", "", 0, "", 1, "")),
    // Blanks are the indent of a line that has nothing else.
    ("blanks refilled", Refill(80, OPTIMAL_FIT), NONE, BLANKS, BLANKS),
    ("blanks indented", Indent(""), QUOTE, BLANKS, (">", " ", MILLION, "", 1, "")),
    ("blanks dedented", Dedent, NONE, BLANKS, EMPTY),
    // Line endings have no text, and blanks are the indent of a line that has nothing else.
    ("line feeds unfilled", Unfill(0, "", "", LF), NONE, LINE_FEEDS, EMPTY),
    ("blanks unfilled", Unfill(MILLION, "", "", LF), BLANKS, BLANKS, EMPTY),
    // Lines of three words are full, so no others cost less.
    ("words filled", Fill(8, OPTIMAL_FIT), NONE, MANY_WORDS, LINES_OF_WORDS),
    ("words wrapped", Wrap(8, OPTIMAL_FIT), NONE, MANY_WORDS, ("", "ab ab ab|", WORDS / 3, "", 1, "")),
    ("words refilled", Refill(8, OPTIMAL_FIT), NONE, LINES_OF_WORDS, LINES_OF_WORDS),
    ("words alone", Append(8, OPTIMAL_FIT), NONE, ("", "ab\n", WORDS - 1, "", 1, "ab"), ("", "ab|", WORDS, "", 1, "")),
    // No line follows the last two words.
    ("words in place", FillInplace(7), NONE, ("", "abc ", 100_000, "", 1, ""), ("", "abc abc\n", 49_999, "", 1, "abc abc ")),
    // Each paragraph has its lines.
    ("paragraphs wrapped", Wrap(10, FIRST_FIT), NONE, PARAGRAPHS, ("", "To be,\tor|not\r|to be||", 300, "", 1, "|")),
    ("paragraphs filled", Fill(10, FIRST_FIT), NONE, PARAGRAPHS, ("", "To be,\tor\nnot\r\nto be\n\n", 300, "", 1, "")),
    // A long indent stands before each line, and a long margin is lost.
    ("a long prefix", Indent(""), LONG_QUOTE, ("", "ab\n", 50, "", 1, ""), QUOTED),
    ("long indents", Fill(10_002, OPTIMAL_FIT), LONG_QUOTE, ("", "ab ", 49, "", 1, "ab"), QUOTED),
    ("a long margin", Dedent, NONE, ("", " ", 5000, "ab\n", 50, ""), ("", "ab\n", 50, "", 1, "")),
    // A word with many points is split at those where a line is full.
    ("points filled", Fill(8, OPTIMAL_FIT), NONE, ("", "a-", 20_000, "", 1, ""), ("", "a-a-a-a-\n", 4_999, "", 1, "a-a-a-a-")),
    // Many escape sequences.
    ("sequences stripped", Strip, NONE, ("", "a\x1b[1m", 20_000, "", 1, ""), ("", "a", 20_000, "", 1, "")),
    // Many columns of many lines, and a wide one.
    ("a large table", Columns(200, 401, OPTIMAL_FIT, "|", "|", "|"), NONE, ("", "a\n", 200 * 200 - 1, "", 1, "a"), ("", "|a", 200, "|\n", 200, "")),
    ("a letter in a wide column", Columns(1, 100_000, OPTIMAL_FIT, "", "", ""), NONE, ("a", "", 0, "", 1, ""), ("a", " ", 99_999, "", 1, "\n")),
];

/// The call with this indent, before the first line and each later one, or as what is found before
/// the first.
fn with_indent<'a>(call: Call<'a>, indent: &'a str) -> Call<'a> {
    match call {
        Indent(_) => Indent(indent),
        Unfill(width, _, later, ending) => Unfill(width, indent, later, ending),
        Fill(width, layout) => Fill(
            width,
            Layout {
                initial_indent: indent,
                subsequent_indent: indent,
                ..layout
            },
        ),
        other => other,
    }
}

/// Whether the call of a row gives this. Where the text ends in no line feed, what is filled does not
/// either.
fn gives_by(alloc: Global, row: &Row<'_>, expected: &str) -> Found {
    let &(_, call, indent, text, _) = row;
    let indent = whole(alloc, indent)?;
    let text = whole(alloc, text)?;
    let has_no_end = matches!(call, Fill(_, _)) && !text.ends_with('\n');
    let end = if has_no_end { "\n" } else { "" };
    let expected = expected.strip_suffix(end).unwrap_or(expected);
    gives(alloc, with_indent(call, &indent), &text, expected)
}

/// Whether the call of a row gives what the row says.
fn is_right(alloc: Global, row: &Row<'_>) -> Found {
    let expected = whole(alloc, row.4)?;
    gives_by(alloc, row, &expected)
}

/// A long text is treated as a short one is.
#[test]
fn long_texts_are_laid_out(rt: HostRuntime) {
    for row in ROWS {
        assert_found(&rt, row.0, is_right(rt.alloc(), row));
    }
}

/// Whether the text is one word, of which so many bytes are whitespace.
fn is_one_word(alloc: Global, text: Long<'_>, blanks: usize) -> Found {
    let text = whole(alloc, text)?;
    let has_blanks = Word::from(text.as_str()).whitespace.len() == blanks;
    let words = plain_find_words(alloc, alloc, WordSeparator::new(), &text);
    Ok(has_words(words, &[text.as_str()])? && has_blanks)
}

/// Line endings are a word of no blanks, and blanks a word without text.
#[test]
fn long_texts_are_one_word(rt: HostRuntime) {
    for (text, blanks) in [(LINE_FEEDS, 0), (BLANKS, MILLION)] {
        assert_found(&rt, blanks, is_one_word(rt.alloc(), text, blanks));
    }
}

/// Whether the text is filled in place to the lines of first fit.
fn is_filled_alike(alloc: Global, text: &str, width: usize) -> Found {
    let filled = plain_fill(alloc, text, options_of(width, &FIRST_FIT))?;
    gives(alloc, FillInplace(width), text, &filled)
}

/// Words of several lengths.
const UNEVEN_WORDS: Long<'_> = ("", "ab c def ", WORDS / 3 - 1, "", 1, "ab c def");

/// Filled in place the text has the lines of first fit, at widths of one to four digits.
#[test]
fn many_words_are_filled_in_place(rt: HostRuntime) {
    let text = whole(rt.alloc(), UNEVEN_WORDS).expect(&rt, "text");
    for width in [7, 77, 777, 7777] {
        assert_found(&rt, width, is_filled_alike(rt.alloc(), &text, width));
    }
}
