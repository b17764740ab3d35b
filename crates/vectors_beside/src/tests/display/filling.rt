//! Texts that are filled with their lines justified.
use super::super::plain::{
    assert_count, assert_gives, assert_holds, plain_fill_justified, plain_options,
};
use std::process::Abort;
use textwrap::wrap_algorithms::LineEnds;
use textwrap::{Options, WrapAlgorithm, WrapError};
use textwrap_vectors::functions::{end_all, end_early, end_twice};
use textwrap_vectors::heap::Heap;

/// Asserts what becomes of a text where a function of the caller ends the lines. The options are made
/// here, by their own methods: a function that is handed another is not covered by the borrow checker
/// if it calls a third that gives options with it.
fn assert_ended(rt: &(impl Abort + AllocGlobal), ends: LineEnds, text: &str, wanted: &str) {
    let options = Options::new(8)
        .initial_indent("> ")
        .subsequent_indent("  ")
        .break_words(false)
        .wrap_algorithm(WrapAlgorithm::Custom(ends));
    let filled = plain_fill_justified(rt.alloc(), text, options);
    assert_gives(rt, text, filled, wanted);
}

/// A line that is not full, words that are in no line, a line without words, and paragraphs without
/// lines, before the first one and after it.
#[test]
fn lines_are_those_of_a_caller(rt: HostRuntime) {
    let all = LineEnds::new(rt.alloc(), end_all);
    assert_ended(&rt, all, "a b c d e f", "> a\n  b    c\n  d e f");
    let early = LineEnds::new(rt.alloc(), end_early);
    assert_ended(&rt, early, "a b c d e f", "> a\n  b c");
    let twice = LineEnds::new(rt.alloc(), end_twice);
    assert_ended(&rt, twice, "a b c d e f", "> a\n\n  b c d e f");
    assert_ended(&rt, all, "x\na b c d e f\ny", "> a\n  b    c\n  d e f");
    assert_ended(&rt, all, "x", "");
}

/// The rule, what is repeated, how often, the columns, and the bytes of the text filled by the default
/// algorithm.
#[rattlefmt::skip]
const LONG: &[(&str, &str, usize, usize, usize)] = &[
    ("6249 lines of 80 columns with their endings, and one of 16 words", "word ", 100_000, 80, 6249 * 81 + 79),
    ("in each paragraph two lines of 9 columns and one of 4", "a bc def a bc def a bc\n", 10_000, 9, 10_000 * 25),
];

#[test]
fn long_texts_are_filled(rt: HostRuntime) {
    for &(rule, part, times, width, len) in LONG {
        let text = part.repeat(rt.alloc(), times).expect(&rt, rule);
        let filled = plain_fill_justified(rt.alloc(), &text, Options::new(width));
        assert_count(&rt, rule, filled.expect(&rt, rule).len(), len);
    }
}

/// A line that fits no memory is refused at once, and not once it is half written.
#[test]
fn widths_past_any_memory_are_refused(rt: HostRuntime) {
    let options = Options::new(usize::MAX)
        .initial_indent("> ")
        .break_words(false)
        .wrap_algorithm(WrapAlgorithm::Custom(LineEnds::new(rt.alloc(), end_all)));
    let refused = plain_fill_justified(rt.alloc(), "a b c d e f", options);
    let is_told = matches!(refused, Err(WrapError::Memory(_)));
    assert_holds(&rt, "out of memory", is_told);
}

/// Whether two paragraphs are filled as they are to be.
pub fn is_filled(heap: &Heap) -> Result<bool, WrapError> {
    let options = plain_options(6, "- ", "  ", WrapAlgorithm::new());
    let filled = plain_fill_justified(heap, "a b c\nd e f", options)?;
    Ok(filled.as_str() == "- a  b\n  c\n  d  e\n  f")
}
