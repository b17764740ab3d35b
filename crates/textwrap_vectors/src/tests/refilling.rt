//! Texts that are filled and refilled.
use super::given::{Found, assert_found, is_text};
use super::plain::{plain_fill, plain_refill};
use super::texts::{Layout, OPTIMAL_FIT, options_of};
use std::alloc::Global;
use textwrap::WrapError;

/// The text, filled at the first width with its words kept whole, and refilled at the second.
fn filled_twice(
    alloc: Global,
    text: &str,
    first: usize,
    second: usize,
) -> Result<String, WrapError> {
    let whole_words = Layout {
        break_words: false,
        split_words: false,
        ..OPTIMAL_FIT
    };
    let filled = plain_fill(alloc, text, options_of(first, &whole_words))?;
    plain_refill(alloc, &filled, options_of(second, &OPTIMAL_FIT))
}

/// Whether the text, filled at the first width and refilled at the second, is the text filled at the
/// second.
fn is_filled_once(alloc: Global, text: &str, first: usize, second: usize) -> Found {
    let once = plain_fill(alloc, text, options_of(second, &OPTIMAL_FIT))?;
    is_text(filled_twice(alloc, text, first, second), &once)
}

#[rattlefmt::skip]
const PLAIN_TEXTS: &[&str] = &[
    "", "a", "aa bb cc dd", "one two three four five six seven", "To be, or not to be: that is the question",
    "well-known facts, no other words", "a bb ccc dddd eeeee ffffff ggggggg", "안녕 하세요 안녕하세요", "x\ty z",
    "averyveryverylongword and some others",
];

/// Filling a plain text at one width and refilling it at another is filling it at the other.
#[test]
fn a_plain_text_filled_again_is_filled_once(rt: HostRuntime) {
    for &text in PLAIN_TEXTS {
        for width in 1..41 {
            let holds = is_filled_once(rt.alloc(), text, width, 41 - width);
            assert_found(&rt, (text, width), holds);
        }
    }
}
