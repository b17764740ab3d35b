//! What the tests share: calls without their clauses, since each clause costs at each call, and
//! assertions.
use crate::streams::{Feed, Sink};
use std::alloc::{AllocError, Allocator, Global};
use std::process::Abort;
use textwrap_program::arguments::Algorithm;
use textwrap_program::filling::{RunError, run};
use textwrap_program::program::execute;

/// The words as strings.
pub fn strings(alloc: Global, words: &[&str]) -> Result<Vec<String>, AllocError> {
    let mut strings = Vec::new(alloc);
    for word in words {
        strings.push(String::from_str(alloc, word)?)?;
    }
    Ok(strings)
}

/// [`run`].
pub fn plain_run<A: Allocator + Copy>(
    alloc: A,
    reader: &mut Feed,
    writer: &mut Sink,
    width: usize,
    algorithm: Algorithm,
) -> Result<(), RunError> {
    run(alloc, reader, writer, width, algorithm)
}

/// [`execute`].
pub fn plain_execute<A: Allocator + Copy>(
    alloc: A,
    words: &[String],
    reader: &mut Feed,
    output: &mut Sink,
    messages: &mut Sink,
) -> u8 {
    execute(alloc, words, reader, output, messages)
}

/// Asserts that the writer took these bytes.
pub fn assert_taken(rt: &impl Abort, rule: &str, writer: &Sink, bytes: &[u8]) {
    assert!(rt; writer.taken.as_slice() == bytes, "{rule}");
}

/// Asserts that the numbers are equal.
pub fn assert_number(rt: &impl Abort, rule: &str, number: usize, expected: usize) {
    assert_eq!(rt; number, expected, "{rule}");
}
