//! Styles and links that go on over the ends of lines.
use super::super::plain::{assert_count, assert_holds, plain_carry_styles};
use std::alloc::{AllocError, Allocator, Global};
use std::borrow::CowStr;
use std::process::Abort;
use textwrap::Options;
use textwrap_vectors::heap::Heap;

/// The texts as lines, borrowed.
fn lines<A: Allocator + Copy>(
    alloc: A,
    texts: &[&'static str],
) -> Result<Vec<CowStr<'static, A>, A>, AllocError> {
    let mut lines = Vec::new(alloc);
    for text in texts {
        lines.push(CowStr::Borrowed(*text))?;
    }
    Ok(lines)
}

/// The first line and so many others.
fn many_lines<'l>(
    alloc: Global,
    first: &'l str,
    count: usize,
    other: &'l str,
) -> Result<Vec<CowStr<'l>>, AllocError> {
    let mut lines = Vec::new(alloc);
    lines.push(CowStr::Borrowed(first))?;
    for _ in 0..count {
        lines.push(CowStr::Borrowed(other))?;
    }
    Ok(lines)
}

/// Asserts how many lines there are, and what the last is.
fn assert_last(rt: &impl Abort, lines: &[CowStr<'_>], count: usize, text: &str) {
    assert_count(rt, "lines", lines.len(), count);
    let last = lines.last().map(|line| line.as_str());
    assert_holds(rt, "the last", last == Some(text));
}

#[test]
fn many_lines_are_carried(rt: HostRuntime) {
    let (first, other) = ("\x1b]8;;u\x07some", "more \x1b[0m\x1b[1mwords");
    let lines = many_lines(rt.alloc(), first, 9_999, other).expect(&rt, "lines");
    let carried = plain_carry_styles(rt.alloc(), &lines, &Options::new(0)).expect(&rt, "carried");
    let last = "\x1b]8;id=w1;u\x07\x1b[1mmore \x1b[0m\x1b[1mwords\x1b[0m\x1b]8;;\x1b\\";
    assert_last(&rt, &carried, 10_000, last);
}

/// Whether as many lines come of these where so many allocations are allowed once the lines are made.
pub fn are_carried(
    heap: &Heap,
    texts: &[&'static str],
    allowed: usize,
) -> Result<bool, AllocError> {
    heap.allow(100);
    let lines = lines(heap, texts)?;
    heap.allow(allowed);
    let carried = plain_carry_styles(heap, &lines, &Options::new(0))?;
    Ok(carried.len() == texts.len())
}
