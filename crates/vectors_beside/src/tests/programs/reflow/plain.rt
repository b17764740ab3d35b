//! What the tests share: a run without its clauses, since each clause costs at each call, and
//! assertions on what it leaves.
use super::folder::{Folder, Given, READ_AT_ONCE, WRITTEN_AT_ONCE};
use clap::ArgMatches;
use filter_programs::fill::program::Fill;
use filter_programs::hyphenate::program::Hyphenate;
use filter_programs::reflow::program::Reflow;
use std::alloc::{AllocError, Global};
use std::process::Abort;
use text_filters::program::Ending;
use text_filters::tool::execute;
use textwrap_vectors::streams::{Feed, FeedFault, Sink, SinkFault};

/// What goes wrong with the standard input, the output and the messages.
pub type Faults = (FeedFault, SinkFault, SinkFault);

/// Nothing goes wrong.
pub const SOUND: Faults = (FeedFault::Nothing, SinkFault::Nothing, SinkFault::Nothing);

/// Which program is run.
#[derive(Clone, Copy)]
pub enum Program {
    Reflow,
    /// The one that is installed as `textwrap`.
    Fill,
    Hyphenate,
}

/// What a run is given.
#[derive(Clone, Copy)]
pub struct Start<'a> {
    pub words: &'a [&'a str],
    pub input: &'a [u8],
    pub files: &'a [Given],
    pub faults: Faults,
}

/// A start with streams at which nothing goes wrong.
pub fn sound_start<'a>(words: &'a [&'a str], input: &'a [u8], files: &'a [Given]) -> Start<'a> {
    Start {
        words,
        input,
        files,
        faults: SOUND,
    }
}

/// What a run left behind.
#[derive(Drop)]
pub struct Left {
    pub ending: Ending,
    pub reader: Feed,
    pub output: Sink,
    pub messages: Sink,
    pub folder: Folder,
}

/// The words as strings.
pub fn strings(alloc: Global, words: &[&str]) -> Result<Vec<String>, AllocError> {
    let mut strings = Vec::new(alloc);
    for word in words {
        strings.push(String::from_str(alloc, word)?)?;
    }
    Ok(strings)
}

/// Runs `reflow`. What it is given has to have memory.
pub fn run(rt: &(impl Abort + AllocGlobal), rule: &str, start: Start<'_>) -> Left {
    run_of(rt, rule, Program::Reflow, start)
}

/// Runs a program. What it is given has to have memory.
pub fn run_of(
    rt: &(impl Abort + AllocGlobal),
    rule: &str,
    program: Program,
    start: Start<'_>,
) -> Left {
    let alloc = rt.alloc();
    let (of_input, of_output, of_messages) = start.faults;
    let words = strings(alloc, start.words).expect(rt, rule);
    let mut left = Left {
        ending: Ending {
            status: 3,
            said: false,
            replaced: 0,
        },
        reader: Feed::new(alloc, start.input, READ_AT_ONCE, of_input).expect(rt, rule),
        output: Sink::new(alloc, WRITTEN_AT_ONCE, of_output),
        messages: Sink::new(alloc, WRITTEN_AT_ONCE, of_messages),
        folder: Folder::new(alloc, start.files).expect(rt, rule),
    };
    left.ending = execute_program(alloc, program, &words, &mut left);
    left
}

/// Executes a program over these words, and over what is to be left behind.
fn execute_program(alloc: Global, program: Program, words: &[String], left: &mut Left) -> Ending {
    let files = &mut left.folder;
    let reader = &mut left.reader;
    let output = &mut left.output;
    let messages = &mut left.messages;
    match program {
        Program::Reflow => execute(alloc, &Reflow, words, files, reader, output, messages),
        Program::Fill => execute(alloc, &Fill, words, files, reader, output, messages),
        Program::Hyphenate => execute(alloc, &Hyphenate, words, files, reader, output, messages),
    }
}

/// Runs a program, and asserts what it writes and says, and its status.
pub fn assert_run(
    rt: &(impl Abort + AllocGlobal),
    rule: &str,
    program: Program,
    start: Start<'_>,
    (wrote, said, status): (&str, &str, u8),
) {
    let left = run_of(rt, rule, program, start);
    assert_ending(rt, rule, left.ending, status, true);
    assert_bytes(rt, rule, &left.output.taken, wrote.as_bytes());
    assert_bytes(rt, rule, &left.messages.taken, said.as_bytes());
}

/// Asserts that words are no request: nothing is written, and it is said why.
pub fn assert_no_request(
    rt: &(impl Abort + AllocGlobal),
    program: Program,
    words: &[&str],
    files: &[Given],
) {
    let start = sound_start(words, b"one two", files);
    let left = run_of(rt, "no request", program, start);
    assert_ending(rt, "no request", left.ending, 2, true);
    assert_bytes(rt, "no request", &left.output.taken, b"");
    assert!(rt; !left.messages.taken.is_empty(), "it is said why");
}

/// A text, so many times.
pub fn repeated(rt: &(impl Abort + AllocGlobal), part: &str, times: usize) -> String {
    part.repeat(rt.alloc(), times).expect(rt, part)
}

/// Asserts that words mean no request, and that `clap` displays this text of them.
pub fn assert_rendered(
    rt: &(impl Abort + AllocGlobal),
    parse: Result<ArgMatches<'_>, clap::Error>,
    text: &str,
) {
    match parse {
        Err(error) => {
            let rendered = format!(in rt.alloc(); "{error}").expect(rt, text);
            assert_bytes(rt, text, rendered.as_bytes(), text.as_bytes());
        }
        Ok(_) => assert!(rt; false, "{text}"),
    }
}

/// Asserts that the bytes are these.
pub fn assert_bytes(rt: &impl Abort, rule: &str, bytes: &[u8], expected: &[u8]) {
    assert!(rt; bytes == expected, "{rule}");
}

/// Asserts that the number is this.
pub fn assert_number(rt: &impl Abort, rule: &str, number: usize, expected: usize) {
    assert!(rt; number == expected, "{rule}: {number}");
}

/// Asserts that the bytes begin and end with these texts.
pub fn assert_spans(rt: &impl Abort, rule: &str, bytes: &[u8], first: &str, last: &str) {
    assert!(rt; bytes.starts_with(first.as_bytes()), "{rule}");
    assert!(rt; bytes.ends_with(last.as_bytes()), "{rule}");
}

/// Asserts that a run ended with this status, and whether each message was written whole.
pub fn assert_ending(rt: &impl Abort, rule: &str, ending: Ending, status: u8, said: bool) {
    assert_number(rt, rule, usize::from(ending.status), usize::from(status));
    assert!(rt; ending.said == said, "{rule}");
}

/// Asserts what a run wrote into its output and into its messages.
pub fn assert_left(rt: &impl Abort, rule: &str, left: &Left, (output, messages): (&[u8], &[u8])) {
    assert_bytes(rt, rule, &left.output.taken, output);
    assert_bytes(rt, rule, &left.messages.taken, messages);
}

/// Asserts the same, that no file was replaced, and how the run ended.
pub fn assert_whole_run(
    rt: &impl Abort,
    rule: &str,
    left: &Left,
    written: (&[u8], &[u8]),
    (status, said): (u8, bool),
) {
    assert_left(rt, rule, left, written);
    assert_ending(rt, rule, left.ending, status, said);
    assert_number(rt, rule, left.folder.replaced, 0);
}

/// Asserts that a run read no input, and how it ended. Each message was written whole.
pub fn assert_unread(rt: &impl Abort, rule: &str, left: &Left, status: u8) {
    assert_number(rt, rule, left.reader.reads, 0);
    assert_ending(rt, rule, left.ending, status, true);
}

/// Asserts that a run reflows the standard input to this output, without a message.
pub fn assert_reflowed(
    rt: &(impl Abort + AllocGlobal),
    rule: &str,
    words: &[&str],
    input: &str,
    output: &str,
) {
    let left = run(rt, rule, sound_start(words, input.as_bytes(), &[]));
    assert_whole_run(rt, rule, &left, (output.as_bytes(), b""), (0, true));
}
