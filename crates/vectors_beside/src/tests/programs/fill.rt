//! The program that is installed as `textwrap`.
use super::reflow::folder::{FileFault, Given};
use super::reflow::plain::{
    Program, Start, assert_bytes, assert_ending, assert_no_request, assert_rendered, assert_run,
    repeated, run_of, sound_start,
};
use filter_programs::fill::arguments::{HELP, VERSION};
use filter_programs::fill::program::Fill;
use std::io::ErrorKind;
use std::process::Abort;
use text_filters::tool::matches_in;
use textwrap_vectors::streams::{FeedFault, SinkFault};

const HAMLET: &str = "To be, or not to be; that is the question\n";

const BY_FIRST_FIT: &str = "To be, or\nnot to be;\nthat is\nthe\nquestion\n";

const BY_LEAST_COST: &str = "To be,\nor not to\nbe; that\nis the\nquestion\n";

/// The files of each run.
const FILES: &[Given] = &[
    ("one", b"one two three\nfour\n", FileFault::Nothing),
    ("40", b"five six", FileFault::Nothing),
    ("no text", b"a\xffb\n", FileFault::Nothing),
    ("first", b"seven\n", FileFault::Nothing),
];

/// Runs the program over these words, and asserts what it writes and says, and the status.
fn assert_writes(
    rt: &(impl Abort + AllocGlobal),
    rule: &str,
    words: &[&str],
    input: &[u8],
    wanted: (&str, &str, u8),
) {
    let start = sound_start(words, input, FILES);
    assert_run(rt, rule, Program::Fill, start, wanted);
}

/// What a row shows, words, and what is written of a line of Hamlet on the standard input.
#[rattlefmt::skip]
const READ_AND_WRITTEN: &[(&str, &[&str], &str)] = &[
    ("without words the width is 80", &[], HAMLET),
    ("the width first, and least cost", &["10"], BY_LEAST_COST),
    ("an algorithm behind it", &["10", "first"], BY_FIRST_FIT),
    ("the other one", &["10", "optimal"], BY_LEAST_COST),
    ("zeros before a width", &["0010", "first"], BY_FIRST_FIT),
    ("a width as an option", &["-w", "10"], BY_LEAST_COST),
    ("in one word", &["-w10", "--first-fit"], BY_FIRST_FIT),
    ("a long width", &["--width", "10"], BY_LEAST_COST),
    ("a long width after =", &["--first-fit", "--width=10"], BY_FIRST_FIT),
    ("a hyphen and digits", &["-10"], BY_LEAST_COST),
    ("least cost counts for more", &["-10", "--least-cost", "--first-fit"], BY_LEAST_COST),
    ("the last width counts", &["80", "-10"], BY_LEAST_COST),
    ("the standard input by its name", &["10", "-"], BY_LEAST_COST),
    ("files one after another, and the standard input among them", &["10", "one", "-", "40"],
        "one two\nthree\nfour\nTo be,\nor not to\nbe; that\nis the\nquestion\nfive six"),
    ("a file whose name is a number", &["-w10", "40"], "five six"),
    ("behind a file the name of an algorithm is a file", &["10", "one", "first"], "one two\nthree\nfour\nseven\n"),
    ("behind -- everything is a file", &["-w", "10", "--", "40"], "five six"),
];

#[test]
fn texts_are_filled(rt: HostRuntime) {
    for (rule, words, wanted) in READ_AND_WRITTEN {
        assert_writes(&rt, rule, words, HAMLET.as_bytes(), (wanted, "", 0));
    }
}

/// What a row shows, words, what is written, and what is said.
#[rattlefmt::skip]
const FAULTS: &[(&str, &[&str], &str, &str)] = &[
    ("a file that is not there, and one that is", &["10", "none", "40"], "five six", "textwrap: none: not found\n"),
    ("a file that is no text", &["10", "no text"], "", "textwrap: no text: not UTF-8 after 1 bytes\n"),
    ("a width that is no number", &["-w", "ten"], "", "textwrap: --width: 'ten' is not a number of 64 bits\n"),
    ("a width that is too large", &["18446744073709551616"], "", "textwrap: --width: '18446744073709551616' is not a number of 64 bits\n"),
];

#[test]
fn faults_are_named(rt: HostRuntime) {
    for (rule, words, wrote, said) in FAULTS {
        assert_writes(&rt, rule, words, b"one two", (wrote, said, 2));
    }
}

/// Words that are not those of the program.
#[rattlefmt::skip]
const NO_REQUESTS: &[&[&str]] = &[&["--bogus"], &["10", "--width"], &["--in-place", "one"], &["-x"]];

#[test]
fn other_words_are_no_request(rt: HostRuntime) {
    for words in NO_REQUESTS {
        assert_no_request(&rt, Program::Fill, words, FILES);
    }
}

#[test]
fn help_and_version_are_shown(rt: HostRuntime) {
    for words in [&["--help"][..], &["-h"], &["10", "--help"]] {
        assert_writes(&rt, "the help", words, b"", (HELP, "", 0));
    }
    for words in [&["--version"][..], &["-V"]] {
        assert_writes(&rt, "the version", words, b"", (VERSION, "", 0));
    }
}

#[test]
fn what_is_shown_is_as_clap_makes_it(rt: HostRuntime) {
    assert_rendered(&rt, matches_in(rt.alloc(), &Fill, &["--help"]), HELP);
    assert_rendered(&rt, matches_in(rt.alloc(), &Fill, &["--version"]), VERSION);
}

/// What goes wrong with the output, what is said of it, and the status.
#[rattlefmt::skip]
const OUTPUTS: &[(ErrorKind, &str, u8)] = &[
    (ErrorKind::BrokenPipe, "", 0),
    (ErrorKind::StorageFull, "textwrap: standard output: no space is left\n", 2),
    (ErrorKind::Other, "textwrap: standard output: cannot write\n", 2),
];

#[test]
fn faults_of_the_output_are_told(rt: HostRuntime) {
    for &(kind, said, status) in OUTPUTS {
        for words in [&["10"][..], &["--help"]] {
            let fault = SinkFault::Fails(4, kind);
            let start = Start {
                faults: (FeedFault::Nothing, fault, SinkFault::Nothing),
                ..sound_start(words, HAMLET.as_bytes(), FILES)
            };
            let left = run_of(&rt, said, Program::Fill, start);
            assert_ending(&rt, said, left.ending, status, true);
            assert_bytes(&rt, said, &left.messages.taken, said.as_bytes());
        }
    }
}

#[test]
fn a_large_text_is_filled(rt: HostRuntime) {
    let text = repeated(&rt, HAMLET, 2000);
    for (algorithm, line) in [("first", BY_FIRST_FIT), ("optimal", BY_LEAST_COST)] {
        let wanted = repeated(&rt, line, 2000);
        let words = ["10", algorithm];
        assert_writes(&rt, algorithm, &words, text.as_bytes(), (&wanted, "", 0));
    }
}
