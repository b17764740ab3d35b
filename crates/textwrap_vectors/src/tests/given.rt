//! What a call gave, beside what a row says, and the assertions that the tests share.
//!
//! A value that has to be let go costs in the proof of each function that holds it. So what a call gave
//! is handed on as it is, and comes back as whether it is what the row says, if there was memory for it.
ghost use Rattle.std.specs.Prelude.{All, IsCharBoundary, IsTrue};
ghost use Rattle.std.specs.List.Sorted.{IsStrictlyIncreasing};

use std::alloc::Allocator;
use std::borrow::CowStr;
use std::fmt::Debug;
use std::process::Abort;
use textwrap::WrapError;
use textwrap::minima::Minimum;
use textwrap::words::Word;

/// Whether something was found to hold, if there was memory for it.
pub(super) type Found = Result<bool, WrapError>;

/// Asserts that what a row says holds.
pub(super) fn assert_row<R: Copy + Debug>(rt: &impl Abort, row: R, holds: bool) {
    assert!(rt; holds, "{row:?}");
}

/// Asserts that what a row says was found to hold.
pub(super) fn assert_found<R: Copy + Debug>(rt: &impl Abort, row: R, holds: Found) {
    assert!(rt; holds.expect(rt, "memory"), "{row:?}");
}

/// Asserts that the call of a row was out of memory.
pub(super) fn assert_out_of_memory<R: Copy + Debug>(rt: &impl Abort, row: R, given: Found) {
    assert!(rt; matches!(given, Err(WrapError::Memory(_))), "{row:?}");
}

/// Whether a call gave this text.
pub(super) fn is_text<A: Allocator + Copy>(
    given: Result<String<A>, WrapError>,
    expected: &str,
) -> Found {
    let text = given?;
    Ok(text.as_str() == expected)
}

/// What is left of a text after these three parts of it, if it begins with them.
fn after<'t>(text: Option<&'t str>, before: &str, line: &str, end: &str) -> Option<&'t str> {
    text?
        .strip_prefix(before)?
        .strip_prefix(line)?
        .strip_prefix(end)
}

/// Whether the lines are these: `|` stands after each, and `+` before one that is no part of the
/// text that was wrapped.
pub(super) fn are_lines<A: Allocator>(lines: &[CowStr<'_, A>], expected: &str) -> bool {
    let mut rest = Some(expected);
    for line in lines {
        let is_part = matches!(line, CowStr::Borrowed(_));
        let mark = if is_part { "" } else { "+" };
        rest = after(rest, mark, line.as_str(), "|");
    }
    rest == Some("")
}

/// Whether a call gave these lines, written as [`are_lines`] has them.
pub(super) fn has_lines<A: Allocator + Copy>(
    given: Result<Vec<CowStr<'_, A>, A>, WrapError>,
    expected: &str,
) -> Found {
    let lines = given?;
    Ok(are_lines(&lines, expected))
}

/// Whether a text is the lines, with the ending between each two.
pub(super) fn are_joined(lines: &[CowStr<'_>], ending: &str, text: &str) -> bool {
    let mut rest = Some(text);
    for (i, line) in lines.iter().enumerate() {
        let before = if i == 0 { "" } else { ending };
        rest = after(rest, before, line.as_str(), "");
    }
    rest == Some("")
}

/// Whether the rows are the lines of this text, with a line feed after each.
fn are_rows<A: Allocator>(rows: &[String<A>], expected: &str) -> bool {
    let mut rest = Some(expected);
    for row in rows {
        rest = after(rest, "", row.as_str(), "\n");
    }
    rest == Some("")
}

/// Whether a call gave the rows of this text, with a line feed after each.
pub(super) fn has_rows<A: Allocator + Copy>(
    given: Result<Vec<String<A>, A>, WrapError>,
    expected: &str,
) -> Found {
    let rows = given?;
    Ok(are_rows(&rows, expected))
}

/// Whether the words are those of these texts.
fn are_words(words: &[Word<'_>], texts: &[&str]) -> bool {
    for (word, text) in words.iter().zip(texts) {
        if *word != Word::from(*text) {
            return false;
        }
    }
    words.len() == texts.len()
}

/// Whether a call gave the words or pieces of these texts.
pub(super) fn has_words<A: Allocator + Copy>(
    given: Result<Vec<Word<'_>, A>, WrapError>,
    texts: &[&str],
) -> Found {
    let words = given?;
    Ok(are_words(&words, texts))
}

/// Whether a call gave these numbers, such as the points of a word.
pub(super) fn has_numbers<A: Allocator + Copy>(
    given: Result<Vec<usize, A>, WrapError>,
    expected: &[usize],
) -> Found {
    let numbers = given?;
    Ok(numbers.as_slice() == expected)
}

/// Whether the lines have so many fragments each.
pub(super) fn have_lens<T>(lines: &[&[T]], lens: &[usize]) -> bool {
    for (line, len) in lines.iter().zip(lens) {
        if line.len() != *len {
            return false;
        }
    }
    lines.len() == lens.len()
}

/// Whether a call gave lines of so many fragments each.
pub(super) fn has_lens<T, A: Allocator + Copy>(
    given: Result<Vec<&[T], A>, WrapError>,
    lens: &[usize],
) -> Found {
    let lines = given?;
    Ok(have_lens(&lines, lens))
}

/// Whether the minima have these starts and costs.
pub(super) fn are_minima(minima: &[Minimum], expected: &[(usize, u128)]) -> bool {
    for (minimum, (start, cost)) in minima.iter().zip(expected) {
        if minimum.start != *start || minimum.cost != *cost {
            return false;
        }
    }
    minima.len() == expected.len()
}

/// Whether a call gave minima with these starts and costs.
pub(super) fn has_minima<A: Allocator + Copy>(
    given: Result<Vec<Minimum, A>, WrapError>,
    expected: &[(usize, u128)],
) -> Found {
    let minima = given?;
    Ok(are_minima(&minima, expected))
}

/// Whether the offsets increase and are places at which the text may be cut.
pub(super) fn are_offsets(text: &str, offsets: &[usize]) -> bool
    ensures increasing { IsTrue result → IsStrictlyIncreasing offsets.now }
    ensures boundaries { IsTrue result → All (IsCharBoundary text.now) offsets.now }
{
    for i in 0..offsets.len() {
        if !text.is_char_boundary(offsets[i]) || i > 0 && offsets[i - 1] >= offsets[i] {
            return false;
        }
    }
    true
}
