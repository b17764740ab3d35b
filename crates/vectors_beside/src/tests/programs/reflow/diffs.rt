//! What would change, as a unified diff. What is expected is what GNU `diff -u` writes, with the
//! length of each range.
use super::super::super::plain::assert_holds;
use super::folder::{FileFault, Given};
use super::plain::{
    Start, assert_bytes, assert_number, assert_reflowed, assert_spans, assert_whole_run, repeated,
    run, sound_start,
};
use std::io::ErrorKind;
use std::process::Abort;
use text_files::differences::diff_text;
use textwrap_program::filling::{RunError, read_to_end};
use textwrap_vectors::heap::Heap;
use textwrap_vectors::streams::{Feed, FeedFault, SinkFault};

/// A rule, the standard input, and the diff at ten columns.
#[rattlefmt::skip]
const OF_INPUT: &[(&str, &str, &str)] = &[
    ("no change", "one two\nthree four\n", ""),
    ("no input", "", ""),
    ("one line", "one two three four\n", "--- -\n+++ -\n@@ -1 +1,2 @@\n-one two three four\n+one two\n+three four\n"),
    ("lines before and behind", "- a\n\n- b\n\n- c\n\n- one two three\n\n- d\n\n- e\n\n- f\n", "\
--- -\n+++ -\n@@ -4,7 +4,8 @@\n \n - c\n \n-- one two three\n+- one two\n+  three\n \n - d\n \n"),
    ("two hunks", "one two three four\n\n- a\n- b\n- c\n- d\n- e\n\nfive six seven\n", "\
--- -\n+++ -\n@@ -1,4 +1,5 @@\n-one two three four\n+one two\n+three four\n \n - a\n - b\n@@ -6,4 +7,5 @@\n - d\n - e\n \n-five six seven\n+five six\n+seven\n"),
    ("one hunk, where six lines lie between", "one two three four\n\n- a\n- b\n- c\n- d\n\nfive six seven\n", "\
--- -\n+++ -\n@@ -1,8 +1,10 @@\n-one two three four\n+one two\n+three four\n \n - a\n - b\n - c\n - d\n \n-five six seven\n+five six\n+seven\n"),
    ("no line feed at the end", "one two three four", "\
--- -\n+++ -\n@@ -1 +1,2 @@\n-one two three four\n\\ No newline at end of file\n+one two\n+three four\n\\ No newline at end of file\n"),
    ("none behind a line that stays", "one two three four\n\nfive", "\
--- -\n+++ -\n@@ -1,3 +1,4 @@\n-one two three four\n+one two\n+three four\n \n five\n\\ No newline at end of file\n"),
    ("CR LF", "one two three four\r\n\r\nfive\r\n", "\
--- -\n+++ -\n@@ -1,3 +1,4 @@\n-one two three four\r\n+one two\r\n+three four\r\n \r\n five\r\n"),
];

#[test]
fn diffs_of_the_standard_input(rt: HostRuntime) {
    for &(rule, input, diff) in OF_INPUT {
        assert_reflowed(&rt, rule, &["-10", "--diff"], input, diff);
    }
}

/// A rule, the old text, the new one, and what stands in the diff behind the names.
#[rattlefmt::skip]
const OF_TEXTS: &[(&str, &str, &str, &str)] = &[
    ("the same", "a\nb", "a\nb", ""),
    ("a text comes", "", "a\nb\n", "@@ -0,0 +1,2 @@\n+a\n+b\n"),
    ("a text goes", "a", "", "@@ -1 +0,0 @@\n-a\n\\ No newline at end of file\n"),
    ("a line feed comes", "a\nb", "a\nb\n", "@@ -1,2 +1,2 @@\n a\n-b\n\\ No newline at end of file\n+b\n"),
    ("a line feed goes", "a\nb\n", "a\nb", "@@ -1,2 +1,2 @@\n a\n-b\n+b\n\\ No newline at end of file\n"),
    ("a line comes in front", "a\nb\nc\nd\n", "x\na\nb\nc\nd\n", "@@ -1,3 +1,4 @@\n+x\n a\n b\n c\n"),
    ("a line goes at the end", "a\nb\nc\nd\ne\n", "a\nb\nc\nd\n", "@@ -2,4 +2,3 @@\n b\n c\n d\n-e\n"),
    ("lines with signs of their own", "-a\n+b\n\\ c\n", "-a\n@@ b\n\\ c\n", "@@ -1,3 +1,3 @@\n -a\n-+b\n+@@ b\n \\ c\n"),
];

#[test]
fn diffs_of_two_texts(rt: HostRuntime) {
    for &(rule, old, new, diff) in OF_TEXTS {
        let found = diff_text(rt.alloc(), "a b", old.as_bytes(), new.as_bytes()).expect(&rt, rule);
        let (names, hunks) = found.split_at(found.len().min(18));
        assert_bytes(&rt, rule, names, b"--- a b\t\n+++ a b\t\n");
        assert_bytes(&rt, rule, hunks, diff.as_bytes());
    }
}

/// What a row shows, a name, and how it is written.
#[rattlefmt::skip]
const NAMES: &[(&str, &str, &str)] = &[
    ("what is not ASCII is written as it is", "\u{e4}b", "\u{e4}b"),
    ("a tab and a line feed", "a\tb\nc", "\"a\\011b\\012c\""),
    ("a quote in front", "\"a b", "\"\\042a b\""),
    ("a backslash", "a\\b", "\"a\\134b\""),
    ("a byte that is not shown", "a\u{7f}", "\"a\\177\""),
];

#[test]
fn names_are_quoted_as_in_c(rt: HostRuntime) {
    for &(rule, name, written) in NAMES {
        let found = diff_text(rt.alloc(), name, b"a\n", b"b\n").expect(&rt, rule);
        let diff = format!(in rt.alloc();
            "--- {written}\n+++ {written}\n@@ -1 +1 @@\n-a\n+b\n"
        ).expect(&rt, rule);
        assert_bytes(&rt, rule, &found, diff.as_bytes());
    }
}

/// A diff of lines of which no two are the same is one hunk, however many they are.
#[test]
fn a_large_text_without_a_common_line(rt: HostRuntime) {
    let old = repeated(&rt, "one two three four\n", 600);
    let new = repeated(&rt, "one two\n", 700);
    let found = diff_text(rt.alloc(), "a", old.as_bytes(), new.as_bytes()).expect(&rt, "a diff");
    let first = "--- a\n+++ a\n@@ -1,600 +1,700 @@\n-one two three four\n";
    assert_spans(&rt, "a diff", &found, first, "+one two\n");
    assert_number(&rt, "its length", found.len(), 32 + 600 * 20 + 700 * 9);
}

/// However far away a line stands that both texts have, it is kept: here 700 lines go before 700
/// others, and come behind them.
#[test]
fn a_far_line_that_both_have_is_kept(rt: HostRuntime) {
    let rule = "a line that both have";
    let ones = "a\n".repeat(rt.alloc(), 700).expect(&rt, rule);
    let twos = "b\n".repeat(rt.alloc(), 700).expect(&rt, rule);
    let old = format!(in rt.alloc(); "{ones}{twos}").expect(&rt, rule);
    let new = format!(in rt.alloc(); "{twos}{ones}").expect(&rt, rule);
    let gone = "-a\n".repeat(rt.alloc(), 700).expect(&rt, rule);
    let come = "+a\n".repeat(rt.alloc(), 700).expect(&rt, rule);
    let diff = format!(in rt.alloc();
        "--- a\n+++ a\n@@ -1,703 +1,3 @@\n{gone} b\n b\n b\n@@ -1398,3 +698,703 @@\n b\n b\n b\n{come}"
    ).expect(&rt, rule);
    let found = diff_text(rt.alloc(), "a", old.as_bytes(), new.as_bytes()).expect(&rt, rule);
    assert_bytes(&rt, rule, &found, diff.as_bytes());
}

const FILES: &[Given] = &[
    ("a", b"one two three four\n", FileFault::Nothing),
    ("my b", b"five six seven\n", FileFault::Nothing),
    ("c", b"eight\n", FileFault::Nothing),
    ("no text", b"one \xFF", FileFault::Nothing),
];

const DIFF_OF_A: &str = "--- a\n+++ a\n@@ -1 +1,2 @@\n-one two three four\n+one two\n+three four\n";

const DIFF_OF_B: &str =
    "--- my b\t\n+++ my b\t\n@@ -1 +1,2 @@\n-five six seven\n+five six\n+seven\n";

/// A rule, the words, what goes wrong with the output, the output in two parts, the messages, and the
/// status.
#[rattlefmt::skip]
const RUNS: &[(&str, &[&str], SinkFault, (&str, &str), &str, u8)] = &[
    ("files are told one after another", &["-10", "--diff", "a", "c", "my b"], SinkFault::Nothing, (DIFF_OF_A, DIFF_OF_B), "", 0),
    ("none that does not change", &["-10", "--diff", "c", "c"], SinkFault::Nothing, ("", ""), "", 0),
    ("beside a check it counts", &["-10", "--diff", "a", "--check", "c"], SinkFault::Nothing, (DIFF_OF_A, ""), "", 1),
    ("where nothing changes, it does not", &["-10", "--diff", "--check", "c"], SinkFault::Nothing, ("", ""), "", 0),
    ("nothing is replaced", &["-10", "--in-place", "--diff", "my b"], SinkFault::Nothing, ("", DIFF_OF_B), "", 0),
    ("what the faults are", &["-10", "--diff", "x", "no text", "my b"], SinkFault::Nothing, ("", DIFF_OF_B), "reflow: x: not found\nreflow: no text: not UTF-8 after 4 bytes\n", 2),
    ("what --prefix does not name stays", &["-10", "--diff", "--prefix", "//", "a"], SinkFault::Nothing, ("", ""), "reflow: a: no line begins with what --prefix says\n", 0),
    ("a write fails", &["-10", "--diff", "a"], SinkFault::Fails(7, ErrorKind::Other), ("--- a\n+", ""), "reflow: standard output: cannot write\n", 2),
    ("nobody reads the output any more", &["-10", "--diff", "--check", "a", "my b"], SinkFault::Fails(7, ErrorKind::BrokenPipe), ("--- a\n+", ""), "", 0),
];

/// No file is replaced.
#[test]
fn diffs_of_files(rt: HostRuntime) {
    for &(rule, words, fault, (first, second), messages, status) in RUNS {
        let start = Start {
            faults: (FeedFault::Nothing, fault, SinkFault::Nothing),
            ..sound_start(words, b"", FILES)
        };
        let output = format!(in rt.alloc(); "{first}{second}").expect(&rt, rule);
        let written = (output.as_bytes(), messages.as_bytes());
        assert_whole_run(&rt, rule, &run(&rt, rule, start), written, (status, true));
    }
}

const OLD: &str =
    "- a\n- b\n\none two three four\n\n- c\n- d\n- e\n- f\n- g\n- h\n\nfive six seven\n";

const NEW: &str =
    "- a\n- b\n\none two\nthree four\n\n- c\n- d\n- e\n- f\n- g\n- h\n\nfive six\nseven\n";

const OLD_TO_NEW: &str =
    "--- a\n+++ a\n@@ -1,7 +1,8 @@\n - a\n - b\n \n-one two three four\n+one two\n+three four\n \n - c\n - d\n\
@@ -10,4 +11,5 @@\n - g\n - h\n \n-five six seven\n+five six\n+seven\n";

/// Whether the heap made a call fail, which is then out of memory; once it did not, asserts that what
/// was found is right, and took all that was allowed.
fn is_refused(rt: &impl Abort, heap: &Heap, allowed: usize, found: Option<bool>) -> bool {
    let left = match found {
        Some(_) => 0,
        None => usize::MAX,
    };
    assert!(rt; heap.left() == left, "{allowed} allocations");
    assert!(rt; found != Some(false), "{allowed} allocations");
    found.is_none()
}

/// Whether the diff is right, if there was memory for it.
fn is_diff(heap: &Heap) -> Option<bool> {
    match diff_text(heap, "a", OLD.as_bytes(), NEW.as_bytes()) {
        Ok(diff) => Some(diff.as_slice() == OLD_TO_NEW.as_bytes()),
        Err(_) => None,
    }
}

/// Each allocation of a diff is refused in turn: then it is out of memory, and never another text.
#[test]
fn refused_allocations_of_a_diff_are_told(rt: HostRuntime) {
    let heap = Heap::new(rt.alloc(), 0);
    for allowed in 0..100 {
        heap.allow(allowed);
        if !is_refused(&rt, &heap, allowed, is_diff(&heap)) {
            assert_holds(&rt, "more than ten", 10 < allowed);
            return;
        }
    }
    assert_holds(&rt, "at most a hundred", false);
}

/// Whether all is read, if there was memory for it.
fn is_read(heap: &Heap, mut reader: Feed) -> Option<bool> {
    match read_to_end(heap, &mut reader) {
        Ok(input) => Some(input.as_slice() == OLD.as_bytes()),
        Err(RunError::Memory) => None,
        Err(_) => Some(false),
    }
}

/// The same of a reader that is read to its end.
#[test]
fn refused_allocations_of_reading_are_told(rt: HostRuntime) {
    let heap = Heap::new(rt.alloc(), 0);
    for allowed in 0..100 {
        heap.allow(allowed);
        let reader = Feed::new(rt.alloc(), OLD.as_bytes(), 3, FeedFault::Nothing);
        let found = is_read(&heap, reader.expect(&rt, "a reader"));
        if !is_refused(&rt, &heap, allowed, found) {
            return;
        }
    }
    assert_holds(&rt, "at most a hundred", false);
}
