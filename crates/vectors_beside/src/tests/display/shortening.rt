//! Lines that are cut, and end in a placeholder.
use std::alloc::{AllocError, Allocator};
use std::borrow::CowStr;
use textwrap_display::shorten_lines;
use textwrap_vectors::heap::Heap;

const LINES: [&str; 5] = ["one two three", "four", "five  ", "", "six seven eight"];

/// A line of `LINES`: `four` is a text of its own.
fn line<A: Allocator + Copy>(
    alloc: A,
    line: &'static str,
) -> Result<CowStr<'static, A>, AllocError> {
    match line {
        "four" => Ok(CowStr::Owned(String::from_str(alloc, line)?)),
        _ => Ok(CowStr::Borrowed(line)),
    }
}

/// The lines of `LINES`.
fn lines<A: Allocator + Copy>(alloc: A) -> Result<Vec<CowStr<'static, A>, A>, AllocError> {
    let mut lines = Vec::new(alloc);
    for text in LINES {
        lines.push(line(alloc, text)?)?;
    }
    Ok(lines)
}

/// Whether `LINES` become two where so many allocations are allowed once the lines are made.
pub fn are_shortened(heap: &Heap, allowed: usize) -> Result<bool, AllocError> {
    heap.allow(100);
    let lines = lines(heap)?;
    heap.allow(allowed);
    let short = shorten_lines(heap, &lines, 2, 9, " ..")?;
    Ok(short.len() == 2)
}
