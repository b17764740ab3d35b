//! Long lines that are cut, or get blanks up to a width.
use super::super::plain::{assert_count, assert_holds};
use super::Change::{Aligned, Cut, Expanded, Justified, Shortened};
use super::{Change, changed};
use Alignment::{Centre, Left, Right};
use std::process::Abort;
use textwrap_display::Alignment;

/// The rule, the call, what the line is made of and how often, the columns, the bytes of the new line,
/// and what it begins and ends with.
#[rattlefmt::skip]
const LONG: &[(&str, Change<'_>, (&str, usize), usize, usize, &str, &str)] = &[
    ("a cut one column before the end", Shortened("..."), ("word ", 200_000), 999_999, 999_994 + 3, "word ", "word..."),
    ("a line that loses nearly all", Shortened(" ..."), ("word ", 200_000), 80, 74 + 4, "word ", "word ..."),
    ("a word that is cut one column before the end", Cut("..."), ("word", 250_000), 999_999, 999_999, "word", "word..."),
    ("blanks in each gap", Justified, ("word ", 10_000), 70_000, 70_000, "word ", "word "),
    ("blanks before the line", Aligned(Right), ("word ", 10_000), 70_000, 70_000, "  ", "word word "),
    ("an empty line", Aligned(Left), ("", 1), 10_000, 10_000, "  ", "  "),
    ("an empty line", Aligned(Right), ("", 1), 10_000, 10_000, "  ", "  "),
    ("an empty line", Aligned(Centre), ("", 1), 10_000, 10_000, "  ", "  "),
    ("tabs on one line", Expanded, ("abc\t", 100_000), 8, 800_000, "abc     abc", "abc     "),
    ("tabs on lines of their own", Expanded, ("abc\td\n", 100_000), 8, 1_000_000, "abc     d\na", "d\n"),
    ("a tab of 100,000 columns", Expanded, ("\t", 1), 100_000, 100_000, "   ", "   "),
    ("gaps of 5,000 blanks", Justified, ("a ", 10), 45_011, 45_011, "a  ", "  a "),
];

/// Asserts how long a line is, and how it begins and ends.
fn assert_spans(rt: &impl Abort, rule: &str, line: &str, (len, start, end): (usize, &str, &str)) {
    assert_count(rt, rule, line.len(), len);
    assert_holds(rt, rule, line.starts_with(start));
    assert_holds(rt, rule, line.ends_with(end));
}

#[test]
fn long_lines_are_changed(rt: HostRuntime) {
    for &(rule, change, (part, times), width, len, start, end) in LONG {
        let line = part.repeat(rt.alloc(), times).expect(&rt, rule);
        let found = changed(rt.alloc(), change, &line, width).expect(&rt, rule);
        assert_spans(&rt, rule, found.as_str(), (len, start, end));
    }
}
