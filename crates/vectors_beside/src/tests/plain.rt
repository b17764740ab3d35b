//! The calls that several tests make, without their clauses, since each function that makes a call
//! pays for its clauses; and what tests assert. What a call gives is handed to an assertion as it is:
//! the assertion expects that there was memory for it.
use std::alloc::{AllocError, Allocator, Global};
use std::borrow::CowStr;
use std::process::Abort;
use textwrap::{Options, WrapAlgorithm, WrapError, wrap};
use textwrap_display::{carry_styles, fill_justified};
use textwrap_layout::layout::Layout;

/// Options with this width, these indents and this algorithm, and else as by default.
pub fn plain_options<'a>(
    width: usize,
    initial_indent: &'a str,
    subsequent_indent: &'a str,
    algorithm: WrapAlgorithm,
) -> Options<'a> {
    Options::new(width)
        .initial_indent(initial_indent)
        .subsequent_indent(subsequent_indent)
        .wrap_algorithm(algorithm)
}

/// `wrap`.
pub fn plain_wrap<'t>(
    alloc: Global,
    text: &'t str,
    options: Options<'_>,
) -> Result<Vec<CowStr<'t>>, WrapError> {
    wrap(alloc, text, options)
}

/// `carry_styles`.
pub fn plain_carry_styles<'l, A: Allocator + Copy>(
    alloc: A,
    lines: &'l [CowStr<'_, A>],
    options: &Options<'_>,
) -> Result<Vec<CowStr<'l, A>, A>, AllocError> {
    carry_styles(alloc, lines, options)
}

/// `fill_justified`.
pub fn plain_fill_justified<A: Allocator + Copy>(
    alloc: A,
    text: &str,
    options: Options<'_>,
) -> Result<String<A>, WrapError> {
    fill_justified(alloc, text, Layout::of(&options), &options)
}

/// Asserts what a test has found to hold.
pub fn assert_holds(rt: &impl Abort, rule: &str, holds: bool) {
    assert!(rt; holds, "{rule}");
}

/// Asserts that a call did not fail, and that what it found holds.
pub fn assert_found<E: Drop>(rt: &impl Abort, rule: &str, found: Result<bool, E>) {
    assert_holds(rt, rule, matches!(found, Ok(true)));
}

/// Asserts that there are so many, of whatever is counted.
pub fn assert_count(rt: &impl Abort, rule: &str, count: usize, wanted: usize) {
    assert!(rt; count == wanted, "{rule}: {count} and not {wanted}");
}

/// Asserts that a text is the one that is wanted.
pub fn assert_text(rt: &impl Abort, rule: &str, text: &str, wanted: &str) {
    assert!(rt; text == wanted, "{rule}: {text:?}");
}

/// Asserts that a call gave this text.
pub fn assert_gives<E: Drop>(rt: &impl Abort, rule: &str, given: Result<String, E>, wanted: &str) {
    match given {
        Ok(given) => assert_text(rt, rule, &given, wanted),
        Err(_) => assert_holds(rt, rule, false),
    }
}

/// Asserts that a call gave these texts.
pub fn assert_gives_texts(
    rt: &impl Abort,
    rule: &str,
    given: Result<Vec<String>, WrapError>,
    wanted: &[&str],
) {
    let given = given.expect(rt, rule);
    assert!(rt; are_texts(&given, wanted), "{rule}: {given:?}");
}

/// Whether texts of their own are these.
fn are_texts(texts: &[String], wanted: &[&str]) -> bool {
    for (text, wanted) in texts.iter().zip(wanted) {
        if text.as_str() != *wanted {
            return false;
        }
    }
    texts.len() == wanted.len()
}
