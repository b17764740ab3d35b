//! Balanced lines: the least width that takes no more lines, and the lines at it.
use super::hyphenated::german;
use super::plain::assert_found;
use std::alloc::{AllocError, Allocator};
use std::borrow::CowStr;
use std::process::Abort;
use textwrap::wrap_algorithms::Penalties;
use textwrap::{Options, WrapError};
use textwrap_layout::layout::Layout;
use textwrap_layout::printable_cuts::BlankCuts;
use textwrap_plain::parts::PlainParts;
use textwrap_plain::{
    BuiltInAlgorithm, BuiltInSplitter, PlainOptions, PlainSeparator, PlainSplitter, balanced_width,
    wrap_balanced,
};

/// The rule, the text, the columns, the initial and the subsequent indent, the balanced width, and the
/// lines at it.
type Row<'a> = (&'a str, &'a str, usize, [&'a str; 2], usize, &'a [&'a str]);

/// Of words between blanks.
#[rattlefmt::skip]
const BALANCED: &[Row<'_>] = &[
    ("two lines of about one width", "It was the best of times, it was the worst", 40, ["", ""], 23, &["It was the best of", "times, it was the worst"]),
    ("one line is as wide as its text", "a title", 40, ["", ""], 7, &["a title"]),
    ("an empty text", "", 10, ["", ""], 0, &[""]),
    ("an indent alone", "", 10, ["> ", ""], 2, &["> "]),
    ("one word", "word", 10, ["", ""], 4, &["word"]),
    ("a word that is wider than a line", "a wonderful word", 5, ["", ""], 5, &["a", "wonde", "rful", "word"]),
    ("the widest word bounds it", "a wonderful word", 10, ["", ""], 9, &["a", "wonderful", "word"]),
    ("with the wider of the indents, which is the later one", "one two three four", 14, ["- ", "    "], 14, &["- one two", "    three four"]),
    ("or the first one", "one two three four", 14, ["     ", " "], 12, &["     one two", " three four"]),
    ("indents that are wider than a line", "one two", 3, ["-----", ""], 3, &["-----", "one", "two"]),
    ("the lines of all paragraphs are counted", "a b c d e f\n\none two three four", 16, ["", ""], 11, &["a b c d e f", "", "one two", "three four"]),
    ("words that are split", "well-known facts of note", 16, ["", ""], 13, &["well-known", "facts of note"]),
    ("no width", "a b", 0, ["", ""], 0, &["a", "b"]),
    ("escape sequences take no columns", "\x1b[1maa\x1b[0m bb cc", 6, ["", ""], 5, &["\x1b[1maa\x1b[0m bb", "cc"]),
];

/// A layout with this width and these indents, and else as by default.
fn layout_of<'a>(width: usize, initial_indent: &'a str, subsequent_indent: &'a str) -> Layout<'a> {
    Layout {
        initial_indent,
        subsequent_indent,
        ..Layout::of(&Options::new(width))
    }
}

/// Words between blanks, split behind hyphens. The algorithm makes no difference.
fn at_blanks() -> PlainParts<'static, BlankCuts> {
    PlainParts {
        words: BlankCuts {},
        splitter: PlainSplitter::BuiltIn(BuiltInSplitter::HyphenSplitter),
        algorithm: BuiltInAlgorithm::OptimalFit(Penalties::new()),
    }
}

/// Whether that is the balanced width of a text.
fn has_width<A: Allocator + Copy>(
    alloc: A,
    text: &str,
    layout: Layout<'_>,
    wanted: usize,
) -> Result<bool, WrapError> {
    let balance = balanced_width(alloc, text, layout, &at_blanks())?;
    Ok(balance.width == wanted)
}

/// `wrap_balanced` at blanks.
fn wrap_at_blanks<'t, A: Allocator + Copy>(
    alloc: A,
    text: &'t str,
    layout: Layout<'_>,
) -> Result<Vec<CowStr<'t, A>, A>, WrapError> {
    wrap_balanced(alloc, text, layout, &at_blanks())
}

/// Whether a call gave these lines.
fn has_lines<A: Allocator + Copy>(
    given: Result<Vec<CowStr<'_, A>, A>, WrapError>,
    wanted: &[&str],
) -> Result<bool, WrapError> {
    let lines = given?;
    Ok(are_lines(&lines, wanted))
}

/// Whether lines are these texts.
pub fn are_lines<A: Allocator>(lines: &[CowStr<'_, A>], wanted: &[&str]) -> bool {
    for (i, line) in lines.iter().enumerate() {
        if wanted.get(i).copied() != Some(line.as_str()) {
            return false;
        }
    }
    lines.len() == wanted.len()
}

/// A text that takes two lines at 40 columns.
const TITLE: &str = "It was the best of times, it was the worst";

/// Whether that is the balanced width of the title.
pub fn has_width_balanced<A: Allocator + Copy>(alloc: A) -> Result<bool, WrapError> {
    has_width(alloc, TITLE, layout_of(40, "", ""), 23)
}

/// Whether the title has these lines.
pub fn has_lines_balanced<A: Allocator + Copy>(alloc: A) -> Result<bool, WrapError> {
    let lines = wrap_at_blanks(alloc, TITLE, layout_of(40, "", ""));
    has_lines(lines, &["It was the best of", "times, it was the worst"])
}

/// Asserts what a row says of balanced lines.
fn assert_balanced(
    rt: &(impl Abort + AllocGlobal),
    (rule, text, width, [initial, later], balanced, wanted): Row<'_>,
) {
    let layout = layout_of(width, initial, later);
    assert_found(rt, rule, has_width(rt.alloc(), text, layout, balanced));
    assert_found(
        rt,
        rule,
        has_lines(wrap_at_blanks(rt.alloc(), text, layout), wanted),
    );
}

#[test]
fn lines_are_balanced(rt: HostRuntime) {
    for &row in BALANCED {
        assert_balanced(&rt, row);
    }
}

/// 10,000 words of three letters, and how wide they are at these columns: 20 words have 79.
#[test]
fn a_long_text_is_balanced(rt: HostRuntime) {
    let text = "foo ".repeat(rt.alloc(), 10_000).expect(&rt, "text");
    for &(width, balanced) in &[(80, 79), (81, 79), (83, 83), (usize::MAX, 39_999)] {
        let found = has_width(rt.alloc(), &text, layout_of(width, "", ""), balanced);
        assert_found(&rt, "a long text", found);
    }
}

/// A text, a width, the balanced one, and the lines at it, where words end as Unicode lets lines end.
#[rattlefmt::skip]
const AT_BREAKS: &[(&str, usize, usize, &[&str])] = &[
    ("これは「ペン」です。", 14, 10, &["これは「ペ", "ン」です。"]),
    ("either/or not", 12, 7, &["either/", "or not"]),
    ("", 9, 0, &[""]),
];

/// Asserts what is balanced by options without functions.
fn assert_balanced_plainly(
    rt: &(impl Abort + AllocGlobal),
    options: &PlainOptions<'_>,
    text: &str,
    balanced: usize,
    wanted: &[&str],
) {
    let (layout, parts) = (options.layout(), options.parts(rt.alloc()));
    let found = balanced_width(rt.alloc(), text, layout, &parts);
    assert_found(rt, text, found.map(|balance| balance.width == balanced));
    let lines = wrap_balanced(rt.alloc(), text, layout, &parts);
    assert_found(rt, text, has_lines(lines, wanted));
}

#[test]
fn lines_are_balanced_at_breaks(rt: HostRuntime) {
    for &(text, width, balanced, wanted) in AT_BREAKS {
        assert_balanced_plainly(&rt, &PlainOptions::new(width), text, balanced, wanted);
    }
}

#[test]
fn lines_are_balanced_by_a_dictionary(rt: HostRuntime) -> Result<(), AllocError> {
    let patterns = german(rt.alloc())?;
    let options = PlainOptions {
        word_separator: PlainSeparator::AtBlanks,
        word_splitter: PlainSplitter::Dictionary(patterns.table()),
        ..PlainOptions::new(15)
    };
    let wanted = ["der Zei-", "lenumbruch"];
    assert_balanced_plainly(&rt, &options, "der Zeilenumbruch", 10, &wanted);
    Ok(())
}
