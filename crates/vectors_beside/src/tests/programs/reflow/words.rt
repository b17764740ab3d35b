//! What the words after the program's name mean, seen by what is done with the standard input.
use super::plain::{
    Left, Start, assert_bytes, assert_reflowed, assert_rendered, assert_spans, assert_unread, run,
    sound_start,
};
use filter_programs::reflow::arguments::{HELP, VERSION};
use filter_programs::reflow::program::Reflow;
use std::io::ErrorKind;
use std::process::Abort;
use text_filters::tool::matches_in;
use textwrap_vectors::streams::{FeedFault, SinkFault};

const COUNT: &str = "one two three four\n";

const COUNT_AT_10: &str = "one two\nthree four\n";

const TO_SIX: &str = "one two three four five six\n";

const TO_SIX_AT_20: &str = "one two three four\nfive six\n";

const HAMLET: &str = "To be, or not to be; that is the question";

const HAMLET_BY_FIRST_FIT: &str = "To be, or\nnot to be;\nthat is\nthe\nquestion";

const HAMLET_BY_LEAST_COST: &str = "To be,\nor not to\nbe; that\nis the\nquestion";

/// Eight words of nine letters and one of two, of 82 columns.
const EIGHTY_TWO: &str = "aaaaaaaaa aaaaaaaaa aaaaaaaaa aaaaaaaaa aaaaaaaaa aaaaaaaaa aaaaaaaaa \
aaaaaaaaa bb\n";

const EIGHTY_TWO_AT_80: &str = "aaaaaaaaa aaaaaaaaa aaaaaaaaa aaaaaaaaa aaaaaaaaa aaaaaaaaa \
aaaaaaaaa aaaaaaaaa\nbb\n";

/// Seven words of nine letters and one of ten, of 80 columns.
const EIGHTY: &str = "aaaaaaaaa aaaaaaaaa aaaaaaaaa aaaaaaaaa aaaaaaaaa aaaaaaaaa aaaaaaaaa \
aaaaaaaaaa\n";

/// What a row shows, its words, the standard input, and the output.
#[rattlefmt::skip]
const READ_AND_WRITTEN: &[(&str, &[&str], &str, &str)] = &[
    ("without words the width is 80", &[], EIGHTY, EIGHTY),
    ("without a width it is 80", &["--first-fit"], EIGHTY_TWO, EIGHTY_TWO_AT_80),
    ("a width", &["-w", "20"], TO_SIX, TO_SIX_AT_20),
    ("a width in one word", &["-w20"], TO_SIX, TO_SIX_AT_20),
    ("a width after =", &["-w=20"], TO_SIX, TO_SIX_AT_20),
    ("a long width", &["--width", "20"], TO_SIX, TO_SIX_AT_20),
    ("a long width after =", &["--width=20"], TO_SIX, TO_SIX_AT_20),
    ("zeros before a width", &["-w", "0020"], TO_SIX, TO_SIX_AT_20),
    ("the largest width", &["-w", "18446744073709551615"], "one\ntwo\n", "one two\n"),
    ("the width 0", &["-w", "0"], "ab c\n", "ab\nc\n"),
    ("first fit", &["-w", "10", "--first-fit"], HAMLET, HAMLET_BY_FIRST_FIT),
    ("least cost", &["-w", "10", "--least-cost"], HAMLET, HAMLET_BY_LEAST_COST),
    ("least cost is what is meant", &["-w", "10"], HAMLET, HAMLET_BY_LEAST_COST),
    ("least cost counts for more than first fit", &["--least-cost", "-w", "10", "--first-fit"], HAMLET, HAMLET_BY_LEAST_COST),
    ("of two widths the last one counts", &["-w", "80", "--width=10"], COUNT, COUNT_AT_10),
    ("a width behind a hyphen", &["-10"], COUNT, COUNT_AT_10),
    ("which counts as the others do", &["-80", "-w", "80", "-10"], COUNT, COUNT_AT_10),
    ("a flag may come twice", &["-10", "--first-fit", "--first-fit"], COUNT, COUNT_AT_10),
    ("lines end as they did", &["-10"], "one two three four\r\n", "one two\r\nthree four\r\n"),
    ("CR LF", &["-10", "--crlf"], COUNT, "one two\r\nthree four\r\n"),
    ("LF, which counts for more", &["-10", "--crlf", "--lf"], "one two three four\r\n", COUNT_AT_10),
    ("a prefix", &["-12", "--prefix", ">"], "> one two three four\n\n// one two three four\n", "> one two\n> three four\n\n// one two three four\n"),
    ("two prefixes", &["-12", "--prefix", ">", "--prefix=//"], "> one two three four\n\n// one two three four\n\none two three four\n",
        "> one two\n> three four\n\n// one two\n// three\n// four\n\none two three four\n"),
    ("a prefix that begins with a hyphen", &["-12", "--prefix=--"],
        "-- one two three four\n\none two three four\n", "-- one two\n-- three\n-- four\n\none two three four\n"),
    ("no text of a prefix, with which all marks begin", &["-12", "--prefix="], "> one two three four\n", "> one two\n> three four\n"),
    ("a comment", &["-12"], "# one two three four\n", "# one two\n# three four\n"),
    ("a heading", &["-12", "--markdown"], "# one two three four\n", "# one two three four\n"),
    ("one more mark", &["-12", "--marker", "dnl"], "dnl one two three\ndnl four\n", "dnl one two\ndnl three\ndnl four\n"),
    ("a block comment without a margin of asterisks", &["-12", "--bare"], "/* one two\n   three.  */\n", "/* one two\n   three. */\n"),
    ("text that is deeper stays", &["-12"], "one\n\n    two three four\n", "one\n\n    two three four\n"),
    ("unless it is to be filled", &["-12", "--indented"], "one\n\n    two three four\n", "one\n\n    two\n    three\n    four\n"),
    ("code is always kept, and may be asked for", &["-10", "--least-cost"], "```\none two three four\n```\n\n    one two three\n\none two three four\n",
        "```\none two three four\n```\n\n    one two three\n\none two\nthree four\n"),
    ("a quote", &["-16", "--first-fit"], "> one two three four\n> five\n", "> one two three\n> four five\n"),
    ("a table", &["-16", "--first-fit"], "a | b\n--|--\n1 | 2\n", "a | b\n--|--\n1 | 2\n"),
    ("hard breaks", &["-16", "--first-fit"], "one  \ntwo\\\nthree\nfour\n", "one  \ntwo\\\nthree four\n"),
    ("words with a letter begin lines, bullets do not", &["-12", "--first-fit"],
        "Use --all --force or -1 and *note* now\n", "Use --all\n--force or\n-1 and\n*note* now\n"),
    ("a comment of one line", &["-16", "--first-fit"], "# One two three four five\n", "# One two three\n# four five\n"),
    ("the paragraph at one line", &["-8", "--first-fit", "--lines", "4:4"], "one two\nthree\n\none two three\n", "one two\nthree\n\none two\nthree\n"),
    ("the paragraph at some lines", &["-8", "--lines", "2:3"],
        "one two three\n\none two\nthree\n\none two three\n", "one two three\n\none two\nthree\n\none two three\n"),
    ("at one line, where a paragraph has more", &["-8", "--lines=1:1"], "one two three\nfour\n\none two three\n", "one two\nthree\nfour\n\none two three\n"),
    ("at the last line, and past it", &["-8", "--lines", "3:9", "--lf"], "one two three\r\n\none two three\r\n", "one two three\r\n\none two\r\nthree\r\n"),
    ("at no line, between a paragraph and an empty one", &["-8", "--lines", "2:1"], "one two three\n\none two three\n", "one two three\n\none two three\n"),
    ("and between two lines of a paragraph", &["-8", "--first-fit", "--lines", "3:2"], "one two three\none\ntwo\n", "one two\nthree\none two\n"),
    ("lines are justified", &["-16", "--first-fit", "--justify"], "one two three four five\n", "one   two  three\nfour five\n"),
    ("the name of the standard input", &["-10", "-"], COUNT, COUNT_AT_10),
    ("which is read once", &["-10", "-", "-"], COUNT, COUNT_AT_10),
    ("behind the end of the options too", &["-10", "--", "-"], COUNT, COUNT_AT_10),
    ("an end of the options", &["-w", "10", "--"], COUNT, COUNT_AT_10),
    ("the standard input is printed, since it cannot be replaced", &["-w", "10", "--in-place"], COUNT, COUNT_AT_10),
    ("no input", &["-w", "10"], "", ""),
];

#[test]
fn options_lay_out_the_standard_input(rt: HostRuntime) {
    for &(rule, words, input, output) in READ_AND_WRITTEN {
        assert_reflowed(&rt, rule, words, input, output);
    }
}

/// How the message ends on a value that is no number.
const NO_NUMBER: &str = "' is not a number of 64 bits\n";

/// What a row shows, its words, how the messages begin, and how they end.
#[rattlefmt::skip]
const REFUSED: &[(&str, &[&str], &str, &str)] = &[
    ("a width with a letter", &["-w", "1O"], "reflow: --width: '1O' is", NO_NUMBER),
    ("no width", &["-w="], "reflow: --width: '' is", NO_NUMBER),
    ("a width with a sign", &["--width", "+5"], "reflow: --width: '+5' is", NO_NUMBER),
    ("a width of 65 bits", &["--width=18446744073709551616"], "reflow: --width: '18446744073709551616' is", NO_NUMBER),
    ("a width left out", &["-w"], "error: a value is required for '--width <N>' but none was supplied\n", "try '--help'.\n"),
    ("a width with a letter, behind a hyphen", &["-7x"], "reflow: --width: '7x' is", NO_NUMBER),
    ("lines without a colon", &["--lines", "7"], "reflow: --lines: '7' is not two numbers of 64 bits, A:B\n", ""),
    ("an unknown option", &["--bogus"], "error: unexpected argument '--bogus' found\n", "try '--help'.\n"),
    ("an unknown short option, before a file", &["-x", "a"], "error: unexpected argument '-x' found\n", "try '--help'.\n"),
    ("a value of a flag", &["--check=yes"], "error: unexpected value 'yes' for '--check' found; no more were expected\n", "try '--help'.\n"),
    ("a prefix that begins with a hyphen, not after =", &["--prefix", "- "], "error: unexpected argument '- ' found\n", "try '--help'.\n"),
];

/// Asserts that a run read and wrote nothing, and how its message begins and ends.
fn assert_no_request(rt: &impl Abort, rule: &str, left: &Left, (first, last): (&str, &str)) {
    assert_unread(rt, rule, left, 2);
    assert_spans(rt, rule, &left.messages.taken, first, last);
    assert_bytes(rt, rule, &left.output.taken, b"");
}

#[test]
fn other_words_are_no_request(rt: HostRuntime) {
    for &(rule, words, first, last) in REFUSED {
        let start = sound_start(words, b"one two", &[]);
        assert_no_request(&rt, rule, &run(&rt, rule, start), (first, last));
    }
}

/// Words that ask for help or the version, and the answer.
#[rattlefmt::skip]
const SHOWN: &[(&[&str], &str)] = &[(&["--help"], HELP), (&["-w", "x", "-h"], HELP), (&["--check", "a", "--version"], VERSION), (&["-V"], VERSION)];

/// What goes wrong with the output, and the message and the status then.
#[rattlefmt::skip]
const SHOWING_FAULTS: &[(SinkFault, &[u8], u8)] = &[
    (SinkFault::Nothing, b"", 0),
    (SinkFault::Fails(4, ErrorKind::Other), b"reflow: standard output: cannot write\n", 2),
    (SinkFault::FlushFails, b"", 0),
];

/// Asserts that a run read nothing, what it said, and what it answered if it could be written.
fn assert_answer(rt: &impl Abort, answer: &str, left: &Left, (message, status): (&[u8], u8)) {
    assert_unread(rt, answer, left, status);
    assert_bytes(rt, answer, &left.messages.taken, message);
    if status == 0 {
        assert_bytes(rt, answer, &left.output.taken, answer.as_bytes());
    }
}

/// Asserts what the answer is, and what is said where it cannot be written.
fn assert_shown(
    rt: &(impl Abort + AllocGlobal),
    (words, answer): (&[&str], &str),
    &(fault, message, status): &(SinkFault, &[u8], u8),
) {
    let start = Start {
        words,
        input: b"one two",
        files: &[],
        faults: (FeedFault::Nothing, fault, SinkFault::Nothing),
    };
    assert_answer(rt, answer, &run(rt, answer, start), (message, status));
}

/// The answer goes to the output, and if that fails, a message says so.
#[test]
fn help_and_version_are_shown(rt: HostRuntime) {
    for &shown in SHOWN {
        for faulty in SHOWING_FAULTS {
            assert_shown(&rt, shown, faulty);
        }
    }
}

/// Words that ask for help or the version, and all that is shown.
#[rattlefmt::skip]
const RENDERED: &[(&[&str], &str)] = &[(&["--help"], HELP), (&["-h"], HELP), (&["--version"], VERSION), (&["-V"], VERSION)];

/// The texts that are shown are those that `clap` makes of the command line.
#[test]
fn what_is_shown_is_as_clap_makes_it(rt: HostRuntime) {
    for &(words, text) in RENDERED {
        assert_rendered(&rt, matches_in(rt.alloc(), &Reflow, words), text);
    }
}
