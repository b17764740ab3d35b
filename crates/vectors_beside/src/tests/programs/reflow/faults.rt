//! Reads and writes of the standard streams that fail, and texts that come and go in pieces.
use super::folder::{FileFault, Given};
use super::plain::{
    Faults, SOUND, Start, assert_reflowed, assert_whole_run, repeated, run, sound_start,
};
use std::io::ErrorKind;
use textwrap_vectors::streams::{FeedFault, SinkFault};

const FILES: &[Given] = &[
    ("a", b"one two three four\n", FileFault::Nothing),
    ("b", b"five six seven\n", FileFault::Nothing),
    ("empty", b"", FileFault::Nothing),
];

/// What a row shows, its words, the standard input, what goes wrong with that, with the output and
/// with the messages, and the output, the messages and the status.
#[rattlefmt::skip]
const FAULT_RUNS: &[(&str, &[&str], &[u8], Faults, &str, &str, u8)] = &[
    ("nothing is printed of an input whose read fails", &["-w", "10"], b"one two three four\n",
        (FeedFault::Fails(6, ErrorKind::Other), SinkFault::Nothing, SinkFault::Nothing), "", "reflow: standard input: cannot read\n", 2),
    ("the same at the first read", &["-w", "10", "--check"], b"one two three four\n",
        (FeedFault::Fails(0, ErrorKind::Other), SinkFault::Nothing, SinkFault::Nothing), "", "reflow: standard input: cannot read\n", 2),
    ("an input that is no text, at its end", &["-w", "10"], b"one \xE3\x81", SOUND, "", "reflow: standard input: not UTF-8 after 4 bytes\n", 2),
    ("a check of the standard input that would change", &["-w", "10", "--check"], b"one two three four\n", SOUND, "standard input\n", "", 1),
    ("a check of the standard input that would not change", &["-w", "10", "--check"], b"one two\nthree four\n", SOUND, "", "", 0),
    ("a write fails in mid-stream", &["-w", "10"], b"one two three four\n",
        (FeedFault::Nothing, SinkFault::Fails(12, ErrorKind::Other), SinkFault::Nothing), "one two\nthre", "reflow: standard output: cannot write\n", 2),
    ("a write that takes nothing is a fault", &["-w", "10"], b"one two three four\n",
        (FeedFault::Nothing, SinkFault::TakesNothing(12), SinkFault::Nothing), "one two\nthre", "reflow: standard output: cannot write\n", 2),
    ("nobody reads the output when it is flushed", &["-w", "10"], b"one two three four\n",
        (FeedFault::Nothing, SinkFault::FlushFails, SinkFault::Nothing), "one two\nthree four\n", "", 0),
    ("nobody reads the output, where there is nothing to write", &["-w", "10"], b"",
        (FeedFault::Nothing, SinkFault::FlushFails, SinkFault::Nothing), "", "", 0),
    ("the same of a file: no further one is read", &["-w", "10", "empty", "a"], b"",
        (FeedFault::Nothing, SinkFault::FlushFails, SinkFault::Nothing), "", "", 0),
    ("a write fails at the first of two files", &["-w", "10", "a", "b"], b"", (FeedFault::Nothing, SinkFault::Fails(4, ErrorKind::Other), SinkFault::Nothing),
        "one five six\nseven\n", "reflow: standard output: cannot write\n", 2),
    ("where nobody reads the output any more, nothing is said, and no further file is read", &["-w", "10", "a", "b"],
        b"", (FeedFault::Nothing, SinkFault::Fails(4, ErrorKind::BrokenPipe), SinkFault::Nothing), "one ", "", 0),
    ("where there is no space", &["-w", "10", "a"], b"", (FeedFault::Nothing, SinkFault::Fails(4, ErrorKind::StorageFull), SinkFault::Nothing),
        "one ", "reflow: standard output: no space is left\n", 2),
    ("no line has the marks that are filled", &["-w", "10", "--prefix", "//", "-", "empty"], b"one two three\n", SOUND, "one two three\n",
        "reflow: standard input: no line begins with what --prefix says\n\
reflow: empty: no line begins with what --prefix says\n", 0),
    ("some line has", &["-w", "10", "--prefix", "#", "--prefix", "//"],
        b"one two three\n// four five six\n", SOUND, "one two three\n// four\n// five\n// six\n", "", 0),
    ("a write fails at a name", &["-w", "10", "--check", "a", "b"], b"",
        (FeedFault::Nothing, SinkFault::Fails(1, ErrorKind::Other), SinkFault::Nothing), "ab\n", "reflow: standard output: cannot write\n", 2),
    ("a message that is cut off", &["-w", "10", "x", "a"], b"",
        (FeedFault::Nothing, SinkFault::Nothing, SinkFault::Fails(11, ErrorKind::Other)), "one two\nthree four\n", "reflow: x: ", 2),
    ("a message that cannot be flushed", &["-w", "10", "x"], b"", (FeedFault::Nothing, SinkFault::Nothing, SinkFault::FlushFails), "", "reflow", 2),
    ("a message on the words that cannot be written", &["-w", "x"], b"",
        (FeedFault::Nothing, SinkFault::Nothing, SinkFault::Fails(0, ErrorKind::Other)), "", "", 2),
];

/// No file is replaced. A run ends with whether each message was written whole.
#[test]
fn faults_of_the_streams_are_reported(rt: HostRuntime) {
    for &(rule, words, input, faults, output, messages, status) in FAULT_RUNS {
        let start = Start {
            faults,
            ..sound_start(words, input, FILES)
        };
        let said = matches!(faults.2, SinkFault::Nothing);
        let written = (output.as_bytes(), messages.as_bytes());
        assert_whole_run(&rt, rule, &run(&rt, rule, start), written, (status, said));
    }
}

/// A megabyte of paragraphs.
#[test]
fn a_large_text_is_reflowed_whole(rt: HostRuntime) {
    let input = repeated(&rt, "- foo\n  bar\n  baz\n\n", 70_000);
    let output = repeated(&rt, "- foo bar\n  baz\n\n", 70_000);
    let words = ["-w", "9", "--first-fit"];
    assert_reflowed(&rt, "a large text", &words, &input, &output);
}
