//! The words, the input, the output and the messages together.
use super::plain::{assert_number, assert_taken, plain_execute, strings};
use crate::heap::Heap;
use crate::streams::{Feed, FeedFault, Sink, SinkFault};
use std::alloc::{AllocError, Allocator};
use std::io::ErrorKind;
use std::process::Abort;

const HAMLET: &[u8] = b"To be, or not to be: that is the question";

/// What goes wrong with the input, the output and the messages.
type Faults = (FeedFault, SinkFault, SinkFault);

/// The output, the messages and the status.
type Ended<'a> = (&'a str, &'a str, u8);

/// What a row shows, its words, the input, what goes wrong, and what comes of it.
type Run<'a> = (&'a str, &'a [&'a str], &'a [u8], Faults, Ended<'a>);

/// Nothing goes wrong, the input cannot be read, the output cannot be written, no message can be
/// written.
#[rattlefmt::skip]
const SOUND: Faults = (FeedFault::Nothing, SinkFault::Nothing, SinkFault::Nothing);

#[rattlefmt::skip]
const NO_INPUT: Faults = (FeedFault::Fails(0, ErrorKind::BrokenPipe), SinkFault::Nothing, SinkFault::Nothing);

#[rattlefmt::skip]
const NO_OUTPUT: Faults = (FeedFault::Nothing, SinkFault::Fails(0, ErrorKind::BrokenPipe), SinkFault::Nothing);

#[rattlefmt::skip]
const NO_MESSAGES: Faults = (FeedFault::Nothing, SinkFault::Nothing, SinkFault::Fails(0, ErrorKind::BrokenPipe));

const USAGE: &str = "usage: textwrap_cli WIDTH [first|optimal]\n";

#[rattlefmt::skip]
const RUNS: &[Run<'_>] = &[
    ("least cost is what is meant", &["10"], HAMLET, SOUND, ("To be,\nor not to\nbe: that\nis the\nquestion", "", 0)),
    ("least cost", &["10", "optimal"], HAMLET, SOUND, ("To be,\nor not to\nbe: that\nis the\nquestion", "", 0)),
    ("first fit", &["10", "first"], HAMLET, SOUND, ("To be, or\nnot to be:\nthat is\nthe\nquestion", "", 0)),
    ("a narrow width", &["2", "first"], b"abc", SOUND, ("ab\nc", "", 0)),
    ("no text", &["10", "first"], &[0xFF], SOUND, ("", "textwrap_cli: input is not UTF-8\n", 1)),
    ("no words", &[], HAMLET, SOUND, ("", USAGE, 2)),
    ("three words", &["10", "first", "x"], HAMLET, SOUND, ("", USAGE, 2)),
    // A wide line needs no more memory than a narrow one.
    ("a wide width", &["10001", "first"], HAMLET, SOUND, ("To be, or not to be: that is the question", "", 0)),
    ("the largest width", &["18446744073709551615"], HAMLET, SOUND, ("To be, or not to be: that is the question", "", 0)),
    ("an input that cannot be read", &["10"], HAMLET, NO_INPUT, ("", "textwrap_cli: cannot read input\n", 1)),
    ("an output that cannot be written", &["10"], HAMLET, NO_OUTPUT, ("", "textwrap_cli: cannot write output\n", 1)),
    // A message that cannot be written leaves the status.
    ("no usage", &["x"], &[0xFF], NO_MESSAGES, ("", "", 2)),
    ("no message", &["10"], &[0xFF], NO_MESSAGES, ("", "", 1)),
];

/// Asserts that a run over this allocator gives its output, its messages and its status.
fn assert_run<A: Allocator + Copy>(
    rt: &(impl Abort + AllocGlobal),
    alloc: A,
    run: &Run<'_>,
) -> Result<(), AllocError> {
    let &(rule, words, input, faults, (output, messages, status)) = run;
    let words = strings(rt.alloc(), words)?;
    let mut reader = Feed::new(rt.alloc(), input, 50, faults.0)?;
    let mut written = Sink::new(rt.alloc(), 50, faults.1);
    let mut said = Sink::new(rt.alloc(), 50, faults.2);
    let ended = plain_execute(alloc, &words, &mut reader, &mut written, &mut said);
    assert_number(rt, rule, usize::from(ended), usize::from(status));
    assert_taken(rt, rule, &written, output.as_bytes());
    assert_taken(rt, rule, &said, messages.as_bytes());
    Ok(())
}

#[test]
fn words_and_input_give_output_messages_and_status(rt: HostRuntime) -> Result<(), AllocError> {
    for run in RUNS {
        assert_run(&rt, rt.alloc(), run)?;
    }
    Ok(())
}

/// How many allocations filling [`HAMLET`] by the least cost takes.
const REFUSALS: usize = 9;

/// The run over a heap that allows them, and over one that refuses any.
#[rattlefmt::skip]
const ALLOWED: Run<'_> = ("over a heap", &["10"], HAMLET, SOUND, ("To be,\nor not to\nbe: that\nis the\nquestion", "", 0));

#[rattlefmt::skip]
const REFUSED: Run<'_> = ("over a heap that refuses", &["10"], HAMLET, SOUND, ("", "textwrap_cli: out of memory\n", 1));

/// Wherever one of its allocations is refused, the program says that it is out of memory, and writes
/// nothing.
#[test]
fn a_program_out_of_memory_says_so(rt: HostRuntime) -> Result<(), AllocError> {
    let heap = Heap::new(rt.alloc(), 0);
    for allowed in 0..=REFUSALS {
        heap.allow(allowed);
        let is_refused = allowed < REFUSALS;
        let run = if is_refused { &REFUSED } else { &ALLOWED };
        assert_run(&rt, &heap, run)?;
    }
    assert_number(&rt, "allocations left", heap.left(), 0);
    Ok(())
}
