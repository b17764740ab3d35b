//! What becomes of a reader and a writer.
use super::plain::{assert_number, assert_taken, plain_run};
use crate::heap::Heap;
use crate::streams::{Feed, FeedFault, Sink, SinkFault};
use std::alloc::{AllocError, Global};
use std::io::ErrorKind;
use std::process::Abort;
use textwrap_program::arguments::Algorithm;
use textwrap_program::filling::{RunError, fault};

/// What a run is given.
#[derive(Clone, Copy)]
struct Given<'a> {
    input: &'a [u8],
    /// How many bytes the reader gives at a time, and what goes wrong with it.
    reader: (usize, FeedFault),
    /// How many bytes the writer takes at a time, and what goes wrong with it.
    writer: (usize, SinkFault),
    width: usize,
    algorithm: Algorithm,
}

/// What a run left behind.
#[derive(Drop)]
struct Left {
    done: Result<(), RunError>,
    reader: Feed,
    writer: Sink,
}

/// What a run leaves behind.
fn left_by(alloc: Global, given: Given<'_>) -> Result<Left, AllocError> {
    let mut reader = Feed::new(alloc, given.input, given.reader.0, given.reader.1)?;
    let mut writer = Sink::new(alloc, given.writer.0, given.writer.1);
    let (width, algorithm) = (given.width, given.algorithm);
    let done = plain_run(alloc, &mut reader, &mut writer, width, algorithm);
    Ok(Left {
        done,
        reader,
        writer,
    })
}

/// Asserts that this is what a run returned.
fn assert_done(
    rt: &impl Abort,
    rule: &str,
    done: Result<(), RunError>,
    expected: Result<(), RunError>,
) {
    assert_eq!(rt; done, expected, "{rule}");
}

/// Asserts that the writer took these bytes, and was flushed so often, the last time after all of
/// them.
fn assert_written(rt: &impl Abort, rule: &str, writer: &Sink, output: &[u8], flushes: usize) {
    assert_taken(rt, rule, writer, output);
    assert_number(rt, rule, writer.flushes, flushes);
    let unflushed = writer.taken.len().saturating_sub(writer.flushed);
    assert!(rt; flushes == 0 || unflushed == 0, "{rule}");
}

/// Asserts that a run reads all of its input, and what it returns and writes. The output is flushed
/// once if all goes well, and else never.
fn assert_run(
    rt: &(impl Abort + AllocGlobal),
    rule: &str,
    given: Given<'_>,
    done: Result<(), RunError>,
    output: &[u8],
) -> Result<(), AllocError> {
    let left = left_by(rt.alloc(), given)?;
    assert_done(rt, rule, left.done, done);
    assert_number(rt, rule, left.reader.left(), 0);
    assert_written(rt, rule, &left.writer, output, usize::from(done.is_ok()));
    Ok(())
}

const READS: FeedFault = FeedFault::Nothing;

const WRITES: SinkFault = SinkFault::Nothing;

const FIRST: Algorithm = Algorithm::FirstFit;

const OPTIMAL: Algorithm = Algorithm::OptimalFit;

/// An input, a width and an algorithm, and the output.
#[rattlefmt::skip]
const FILLED_INPUTS: &[(&str, usize, Algorithm, &str)] = &[
    ("", 10, FIRST, ""),
    ("", 10, OPTIMAL, ""),
    ("To be, or not to be: that is the question", 10, FIRST, "To be, or\nnot to be:\nthat is\nthe\nquestion"),
    ("To be, or not to be: that is the question\n", 10, FIRST, "To be, or\nnot to be:\nthat is\nthe\nquestion\n"),
    ("To be, or not to be: that is the question", 10, OPTIMAL, "To be,\nor not to\nbe: that\nis the\nquestion"),
    ("To be, or not to be: that is the question\n", 10, OPTIMAL, "To be,\nor not to\nbe: that\nis the\nquestion\n"),
    // Words are split and broken.
    ("foo-bar", 5, OPTIMAL, "foo-\nbar"),
    ("abcdefgh\nijkl", 5, FIRST, "abcde\nfgh\nijkl"),
    ("foo  bar ", usize::MAX, FIRST, "foo  bar"),
    ("foo  bar ", usize::MAX, OPTIMAL, "foo  bar"),
];

/// Asserts that an input is filled to this output.
fn assert_filled(
    rt: &(impl Abort + AllocGlobal),
    input: &str,
    width: usize,
    algorithm: Algorithm,
    output: &str,
) -> Result<(), AllocError> {
    let given = Given {
        input: input.as_bytes(),
        reader: (usize::MAX, READS),
        writer: (usize::MAX, WRITES),
        width,
        algorithm,
    };
    assert_run(rt, input, given, Ok(()), output.as_bytes())
}

#[test]
fn the_input_is_filled(rt: HostRuntime) -> Result<(), AllocError> {
    for &(input, width, algorithm, output) in FILLED_INPUTS {
        assert_filled(&rt, input, width, algorithm, output)?;
    }
    Ok(())
}

#[test]
fn a_long_input_is_filled_whole(rt: HostRuntime) -> Result<(), AllocError> {
    let input = "foo bar baz\n".repeat(rt.alloc(), 30000)?;
    let output = "foo bar\nbaz\n".repeat(rt.alloc(), 30000)?;
    assert_filled(&rt, &input, 10, FIRST, &output)
}

/// A reader may give more after its end, as a terminal does, and a writer may have been written to
/// before.
#[test]
fn the_end_is_read_once_and_the_output_flushed_once(rt: HostRuntime) -> Result<(), AllocError> {
    let mut reader = Feed::new(rt.alloc(), b"foofoo", 3, FeedFault::GivesNothing(3))?;
    let mut writer = Sink::new(rt.alloc(), 5, WRITES);
    let done = plain_run(rt.alloc(), &mut reader, &mut writer, 2, FIRST);
    assert_done(&rt, "a terminal", done, Ok(()));
    assert_number(&rt, "the reads of a terminal", reader.reads, 2);
    assert_written(&rt, "a terminal", &writer, b"fo\no", 1);
    let mut reader = Feed::new(rt.alloc(), b"foo bar baz", 20, READS)?;
    let done = plain_run(rt.alloc(), &mut reader, &mut writer, 10, FIRST);
    assert_done(&rt, "a second run", done, Ok(()));
    assert_written(&rt, "a second run", &writer, b"fo\nofoo bar\nbaz", 2);
    Ok(())
}

/// A text, and the lines of it at 10 columns by first fit.
const HAMLET: &[u8] = b"To be, or not to be: that is the question";

const FILLED: &[u8] = b"To be, or\nnot to be:\nthat is\nthe\nquestion";

/// What a row shows, the input, how the reader gives and the writer takes, and what the run returns
/// and writes at 10 columns by first fit.
#[rattlefmt::skip]
const RUNS: &[(&str, &[u8], (usize, FeedFault), (usize, SinkFault), Result<(), RunError>, &[u8])] = &[
    // A text may come in pieces, which may cut a character, and be taken in pieces.
    ("byte by byte", HAMLET, (1, READS), (1, WRITES), Ok(()), FILLED),
    ("seven and three", HAMLET, (7, READS), (3, WRITES), Ok(()), FILLED),
    ("a character that is cut", &[0xE3, 0x81, 0x82], (2, READS), (2, WRITES), Ok(()), &[0xE3, 0x81, 0x82]),
    // What cannot be read whole, or is no text, leaves the writer untouched.
    ("a read that fails after some bytes", b"To be", (5, FeedFault::Fails(5, ErrorKind::BrokenPipe)), (5, WRITES), Err(RunError::Read), b""),
    ("a read that is interrupted", b"To be", (5, FeedFault::Fails(5, ErrorKind::Interrupted)), (5, WRITES), Err(RunError::Read), b""),
    ("a first read that fails", b"", (5, FeedFault::Fails(0, ErrorKind::BrokenPipe)), (5, WRITES), Err(RunError::Read), b""),
    ("a read that fails after what is no text", &[0x61, 0xFF], (5, FeedFault::Fails(2, ErrorKind::BrokenPipe)), (5, WRITES), Err(RunError::Read), b""),
    ("no text", &[0xFF], (5, READS), (5, WRITES), Err(RunError::NotUtf8), b""),
    ("a text that ends in none", &[0x61, 0xFF], (5, READS), (5, WRITES), Err(RunError::NotUtf8), b""),
    ("a character that is cut off", &[0xE3, 0x81], (5, READS), (5, WRITES), Err(RunError::NotUtf8), b""),
    // A write that fails or takes nothing ends the run, with what was written before it, and so does a
    // flush that fails.
    ("a first write that takes nothing", HAMLET, (50, READS), (5, SinkFault::TakesNothing(0)), Err(RunError::Write), b""),
    ("a first write that fails", HAMLET, (50, READS), (5, SinkFault::Fails(0, ErrorKind::BrokenPipe)), Err(RunError::Write), b""),
    ("a first write that is interrupted", HAMLET, (50, READS), (5, SinkFault::Fails(0, ErrorKind::Interrupted)), Err(RunError::Write), b""),
    ("a write that fails in mid-stream", HAMLET, (50, READS), (5, SinkFault::Fails(4, ErrorKind::BrokenPipe)), Err(RunError::Write), b"To b"),
    ("a write that takes nothing in mid-stream", HAMLET, (50, READS), (5, SinkFault::TakesNothing(4)), Err(RunError::Write), b"To b"),
    ("a last write that is interrupted", HAMLET, (50, READS), (5, SinkFault::Fails(FILLED.len() - 1, ErrorKind::Interrupted)),
        Err(RunError::Write), b"To be, or\nnot to be:\nthat is\nthe\nquestio"),
    ("a flush that fails", HAMLET, (50, READS), (5, SinkFault::FlushFails), Err(RunError::Write), FILLED),
    ("a flush that fails where nothing is written", b"", (50, READS), (5, SinkFault::FlushFails), Err(RunError::Write), b""),
];

/// A run ends at the first read, write or flush that fails, and returns that.
#[test]
fn a_run_ends_where_its_streams_fail(rt: HostRuntime) -> Result<(), AllocError> {
    for &(rule, input, reader, writer, done, output) in RUNS {
        let given = Given {
            input,
            reader,
            writer,
            width: 10,
            algorithm: FIRST,
        };
        assert_run(&rt, rule, given, done, output)?;
    }
    Ok(())
}

/// Runs over the heap, and asserts what the run returns and writes.
fn assert_run_over(
    rt: &(impl Abort + AllocGlobal),
    heap: &Heap,
    algorithm: Algorithm,
    done: Result<(), RunError>,
    output: &[u8],
) -> Result<(), AllocError> {
    let mut reader = Feed::new(rt.alloc(), HAMLET, 9, READS)?;
    let mut writer = Sink::new(rt.alloc(), 9, WRITES);
    let returned = plain_run(heap, &mut reader, &mut writer, 10, algorithm);
    assert_done(rt, "over a heap", returned, done);
    assert_taken(rt, "over a heap", &writer, output);
    Ok(())
}

/// An algorithm, how many allocations its run takes, and the output.
#[rattlefmt::skip]
const REFUSALS: &[(Algorithm, usize, &[u8])] = &[(FIRST, 5, FILLED), (OPTIMAL, 12, b"To be,\nor not to\nbe: that\nis the\nquestion")];

/// What a run returns and writes.
type Ended = (Result<(), RunError>, &'static [u8]);

const OUT_OF_MEMORY: Ended = (Err(RunError::Memory), b"");

/// Where memory runs out at any of the allocations of a run, nothing is written.
#[test]
fn a_run_out_of_memory_writes_nothing(rt: HostRuntime) -> Result<(), AllocError> {
    let heap = Heap::new(rt.alloc(), 0);
    for &(algorithm, refusals, output) in REFUSALS {
        for allowed in 0..=refusals {
            heap.allow(allowed);
            let (done, written): Ended = if allowed < refusals {
                OUT_OF_MEMORY
            } else {
                (Ok(()), output)
            };
            assert_run_over(&rt, &heap, algorithm, done, written)?;
        }
        assert_number(&rt, "allocations left", heap.left(), 0);
    }
    Ok(())
}

const FAULT_LINES: &[(RunError, &str)] = &[
    (RunError::Read, "textwrap_cli: cannot read input"),
    (RunError::NotUtf8, "textwrap_cli: input is not UTF-8"),
    (RunError::Memory, "textwrap_cli: out of memory"),
    (RunError::Write, "textwrap_cli: cannot write output"),
];

#[test]
fn faults_have_their_lines(rt: HostRuntime) {
    for (error, line) in FAULT_LINES {
        assert!(rt; fault(error) == *line, "{line}");
    }
}
