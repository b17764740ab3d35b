//! The callers of `uses`: what each gives on its happy path.
use super::balance::are_lines;
use super::plain::{assert_count, assert_gives, assert_gives_texts, assert_holds, assert_text};
use crate::uses::checking::is_filled;
use crate::uses::comments::{common_mark, rewrapped};
use crate::uses::gallery::{Picture, few_rows, hung_rows};
use crate::uses::help::{fitted_help_rows, help_entry, help_rows};
use crate::uses::languages::lines_in_any_language;
use crate::uses::lists::listed_lines;
use crate::uses::mail::{filled_anew, quote, quoted_as_it_is, sent_lines};
use crate::uses::notes::fill_note;
use crate::uses::paths::path_lines;
use crate::uses::scripts::script;
use crate::uses::styled::rows_beside;
use crate::uses::tables::barred_rows;
use std::alloc::Global;
use std::borrow::CowStr;
use std::process::Abort;
use textwrap::{Options, WrapError};
use textwrap_display::Gaps;
use textwrap_vectors::functions::are_borrowed;

#[rattlefmt::skip]
const HELP_ROWS: &[&str] = &["  -h      Print this help.", "  -w N    Wrap at N       ", "          columns.        "];

#[test]
fn help_has_flags_and_texts(rt: HostRuntime) {
    let entry = help_entry(rt.alloc(), "-w      ", "The width of a line.", 20);
    let wanted = "-w      The width of\n        a line.";
    assert_gives(&rt, "an entry", entry, wanted);
    let entries = ["-h", "Print this help.", "-w N", "Wrap at N columns."];
    let rows = help_rows(rt.alloc(), &entries, 6, 26);
    assert_gives_texts(&rt, "help", rows, HELP_ROWS);
}

/// The flags of a program and what they mean.
#[rattlefmt::skip]
const ENTRIES: &[&str] = &[
    "-h, --help", "Print this help and exit.", "-w, --width N",
    "Wrap at N columns, where the default is that of the terminal, or 80.",
];

/// The columns, and the help at so many: at 120 no row is wider than what stands in it.
#[rattlefmt::skip]
const FITTED_HELP: &[(usize, &[&str])] = &[
    (60, &["  -h, --help     Print this help and exit.                  ",
           "  -w, --width N  Wrap at N columns, where the default is    ",
           "                 that of the terminal, or 80.               "]),
    (80, &["  -h, --help     Print this help and exit.                                      ",
           "  -w, --width N  Wrap at N columns, where the default is that of the terminal,  ",
           "                 or 80.                                                         "]),
    (120, &["  -h, --help     Print this help and exit.                                           ",
            "  -w, --width N  Wrap at N columns, where the default is that of the terminal, or 80."]),
];

#[test]
fn flags_are_as_wide_as_they_need(rt: HostRuntime) {
    for &(width, wanted) in FITTED_HELP {
        let rows = fitted_help_rows(rt.alloc(), ENTRIES, width);
        assert_gives_texts(&rt, "fitted help", rows, wanted);
    }
}

#[rattlefmt::skip]
const STYLED_ROWS: &[&str] = &["\x1b[1mone\x1b[0m|\x1b[31ma b\x1b[0m|", "\x1b[1mtwo\x1b[0m|\x1b[31mc\x1b[0m  |", "\x1b[1msix\x1b[0m|   |"];

const STYLED_GAPS: Gaps<'static> = Gaps {
    left: "",
    middle: "|",
    right: "|",
};

/// A style that goes on over the end of a line does not go on into the text beside it.
#[test]
fn texts_beside_one_another_keep_their_styles(rt: HostRuntime) {
    let (left, right) = ("\x1b[1mone two six\x1b[0m", "\x1b[31ma b c");
    let rows = rows_beside(rt.alloc(), left, right, 3, 3, &STYLED_GAPS);
    assert_gives_texts(&rt, "styled", rows, STYLED_ROWS);
}

#[rattlefmt::skip]
const BARRED_ROWS: &[&str] = &["| one   | four  |", "| two   | five  |", "| three |       |"];

#[test]
fn rows_stand_between_bars(rt: HostRuntime) {
    let rows = barred_rows(rt.alloc(), "one two three four five", 2, 17);
    assert_gives_texts(&rt, "rows", rows, BARRED_ROWS);
}

#[test]
fn mail_is_quoted_and_filled(rt: HostRuntime) {
    let quoted = quote(rt.alloc(), "foo bar baz\nfoo", 9);
    assert_gives(&rt, "quoted", quoted, "> foo bar\n> baz\n> foo");
    let quoted = quoted_as_it_is(rt.alloc(), "Hi\n\nyou\n");
    assert_gives(&rt, "quoted as it is", quoted, "> Hi\n>\n> you\n");
    let filled = filled_anew(rt.alloc(), "foo\nbar baz", 7);
    assert_gives(&rt, "filled anew", filled, "foo bar\nbaz");
}

#[test]
fn mail_is_sent_twice_by_the_same_options(rt: HostRuntime) {
    let options = Options::new(7);
    for turn in ["sent", "sent again"] {
        let lines = sent_lines(rt.alloc(), "foo bar baz\r\nfoo", &options);
        assert_cut(&rt, turn, lines, &["foo bar", "baz", "foo"]);
    }
}

#[test]
fn comments_keep_their_marks(rt: HostRuntime) {
    let comment = "/// A short\n/// line of\n/// text";
    let rewrapped = rewrapped(rt.alloc(), comment, 16);
    assert_gives(&rt, "comment", rewrapped, "/// A short line\n/// of text");
    let mark = common_mark(rt.alloc(), "/* A\n * short\n * comment").expect(&rt, "mark");
    assert_text(&rt, "mark", mark, " * ");
}

/// A note that is filled.
fn filled_note(alloc: Global, text: &str, width: usize) -> Result<String, WrapError> {
    let mut note = String::from_str(alloc, text)?;
    fill_note(alloc, &mut note, width)?;
    Ok(note)
}

#[test]
fn notes_and_scripts_are_laid_out(rt: HostRuntime) {
    let note = filled_note(rt.alloc(), "milk and bread", 9);
    assert_gives(&rt, "note", note, "milk and\nbread");
    let script = script(rt.alloc(), "    if x:\n      y\n");
    assert_gives(&rt, "script", script, "if x:\n  y\n");
}

/// A text, the columns, and whether it is filled already.
#[rattlefmt::skip]
const ARE_FILLED: &[(&str, usize, bool)] = &[("foo bar\nbaz", 7, true), ("foo bar baz", 7, false), ("foo ", 7, false), ("", 0, true)];

#[test]
fn a_filled_text_is_filled_already(rt: HostRuntime) {
    for &(text, width, wanted) in ARE_FILLED {
        let is_filled = is_filled(rt.alloc(), text, width).expect(&rt, text);
        assert_holds(&rt, text, is_filled == wanted);
    }
}

#[rattlefmt::skip]
const PICTURES: &[Picture] = &[
    Picture { width: 60, margin: 10 },
    Picture { width: 80, margin: 10 },
    Picture { width: 70, margin: 10 },
    Picture { width: 70, margin: 10 },
];

/// Asserts that rows have so many pictures each.
fn assert_hung(rt: &impl Abort, rule: &str, rows: &[&[Picture]], wanted: &[usize]) {
    assert_count(rt, rule, rows.len(), wanted.len());
    for (row, wanted) in rows.iter().zip(wanted) {
        assert_count(rt, rule, row.len(), *wanted);
    }
}

#[test]
fn pictures_fill_rows(rt: HostRuntime) {
    let rows = hung_rows(rt.alloc(), PICTURES, 150).expect(&rt, "rows");
    assert_hung(&rt, "rows", &rows, &[2, 2]);
    let rows = few_rows(rt.alloc(), PICTURES, 150).expect(&rt, "few rows");
    assert_hung(&rt, "few rows", &rows, &[2, 2]);
}

/// A caller that gives the lines of a text, each a part of it.
#[derive(Clone, Copy)]
enum Caller {
    /// Ends the lines of a path after slashes.
    Paths,
    /// Ends the lines of a text in Japanese where it may.
    Languages,
}

/// The caller, the text, the columns, and the lines.
#[rattlefmt::skip]
const LINES: &[(Caller, &str, usize, &[&str])] = &[
    (Caller::Paths, "/usr/local/share/doc", 10, &["/usr/", "local/", "share/doc"]),
    (Caller::Paths, "/a b/c d/", 5, &["/a b/", "c d/"]),
    (Caller::Paths, "añ/b", 4, &["añ/b"]),
    (Caller::Paths, "añ/b", 3, &["añ/", "b"]),
    (Caller::Paths, "names", 3, &["nam", "es"]),
    (Caller::Languages, "これは「ペン」です。", 8, &["これは", "「ペン」", "です。"]),
];

/// The lines that a caller gives.
fn lines_by(
    alloc: Global,
    caller: Caller,
    text: &str,
    width: usize,
) -> Result<Vec<CowStr<'_>>, WrapError> {
    match caller {
        Caller::Paths => path_lines(alloc, text, width),
        Caller::Languages => lines_in_any_language(alloc, text, width),
    }
}

/// Asserts that a call gave these lines, each a part of the text.
fn assert_cut(
    rt: &impl Abort,
    rule: &str,
    lines: Result<Vec<CowStr<'_>>, WrapError>,
    wanted: &[&str],
) {
    let lines = lines.expect(rt, rule);
    assert_holds(rt, rule, are_borrowed(&lines, wanted));
}

#[test]
fn lines_end_where_a_caller_cuts(rt: HostRuntime) {
    for &(caller, text, width, wanted) in LINES {
        assert_cut(&rt, text, lines_by(rt.alloc(), caller, text, width), wanted);
    }
}

/// A text, the columns, and its words as a list.
const LISTED: &[(&str, usize, &[&str])] = &[
    ("a superset", 8, &["a", "super-", "set"]),
    ("a superset", 11, &["a superset"]),
    ("super supersonic", 6, &["super", "super-", "sonic"]),
    ("one\ntwo three", 5, &["one", "two", "three"]),
];

#[test]
fn words_are_listed(rt: HostRuntime) {
    for &(text, width, wanted) in LISTED {
        let lines = listed_lines(rt.alloc(), text, width).expect(&rt, text);
        assert_holds(&rt, text, are_lines(&lines, wanted));
    }
}
