//! What each call gives, as a row writes it.
use crate::breaks::{at_blanks, at_breaks, cut, pieces};
use crate::dictionaries::{by_bytes, by_name, by_patterns, by_text};
use crate::display;
use crate::faults::Fault;
use crate::hyphenated::{hyphenated, plain};
use crate::notation::{lines_written, push_text, push_word, rows_written, text_written};
use crate::paragraphs::{appended, laid_out};
use crate::pieces::{broken, broken_apart, found, measured, points, split, stripped};
use crate::settings::{number, options};
use std::alloc::Global;
use textwrap::fuzzing::fill_slow_path;
use textwrap::{
    LineEnding, dedent, fill, fill_inplace, indent, refill, unfill, wrap, wrap_columns,
};

/// What the call of this name gives on its arguments.
pub fn answer(alloc: Global, words: &[String]) -> Result<String, Fault> {
    let Some((name, arguments)) = words.split_first() else {
        return Err(Fault::Malformed);
    };
    match name.as_str() {
        "wrap" => wrapped(alloc, arguments),
        "fill" => filled(alloc, arguments),
        "slow" => filled_slowly(alloc, arguments),
        "laid" => laid_out(alloc, arguments),
        "paragraph" => appended(alloc, arguments, false),
        "slowparagraph" => appended(alloc, arguments, true),
        "inplace" => filled_in_place(alloc, arguments),
        "columns" => in_columns(alloc, arguments),
        "unfill" => unfilled(alloc, arguments),
        "refill" => refilled(alloc, arguments),
        "indent" => indented(alloc, arguments),
        "dedent" => dedented(alloc, arguments),
        "width" => measured(alloc, arguments),
        "strip" => stripped(alloc, arguments),
        "words" => found(alloc, arguments),
        "points" => points(alloc, arguments),
        "split" => split(alloc, arguments),
        "break" => broken(alloc, arguments),
        "apart" => broken_apart(alloc, arguments),
        name => answer_beside(alloc, name, arguments),
    }
}

/// What a call of the crates beside `textwrap` gives on its arguments, if this is its name.
fn answer_beside(alloc: Global, name: &str, arguments: &[String]) -> Result<String, Fault> {
    match name {
        "cuts" => cut(alloc, arguments),
        "atblanks" => at_blanks(alloc, arguments),
        "atbreaks" => at_breaks(alloc, arguments),
        "pieces" => pieces(alloc, arguments),
        "hyphens" => by_text(alloc, arguments),
        "bytehyphens" => by_bytes(alloc, arguments),
        "patterns" => by_patterns(alloc, arguments),
        "wordpoints" => by_name(alloc, arguments, false),
        "softpoints" => by_name(alloc, arguments, true),
        "hyphenated" => hyphenated(alloc, arguments, false),
        "rehyphenated" => hyphenated(alloc, arguments, true),
        "plain" => plain(alloc, arguments),
        _ => display::answer(alloc, name, arguments),
    }
}

/// `wrap TEXT WIDTH SETTINGS..`: the lines, with `+` before each that is no part of the text.
fn wrapped(alloc: Global, arguments: &[String]) -> Result<String, Fault> {
    let [text, settings @ ..] = arguments else {
        return Err(Fault::Malformed);
    };
    let lines = wrap(alloc, text.as_str(), options(settings)?)?;
    Ok(lines_written(alloc, &lines)?)
}

/// `fill TEXT WIDTH SETTINGS..`: the filled text.
fn filled(alloc: Global, arguments: &[String]) -> Result<String, Fault> {
    let [text, settings @ ..] = arguments else {
        return Err(Fault::Malformed);
    };
    let filled = fill(alloc, text.as_str(), options(settings)?)?;
    text_written(alloc, &filled)
}

/// `slow TEXT WIDTH SETTINGS..`: the text that `fill_slow_path` gives.
fn filled_slowly(alloc: Global, arguments: &[String]) -> Result<String, Fault> {
    let [text, settings @ ..] = arguments else {
        return Err(Fault::Malformed);
    };
    let filled = fill_slow_path(alloc, text.as_str(), options(settings)?)?;
    text_written(alloc, &filled)
}

/// `inplace TEXT WIDTH`: the text that `fill_inplace` leaves.
fn filled_in_place(alloc: Global, arguments: &[String]) -> Result<String, Fault> {
    let [text, width] = arguments else {
        return Err(Fault::Malformed);
    };
    let mut filled = String::from_str(alloc, text.as_str())?;
    fill_inplace(alloc, &mut filled, number(width.as_str())?)?;
    text_written(alloc, &filled)
}

/// `columns TEXT COLUMNS LEFT MIDDLE RIGHT WIDTH SETTINGS..`: the rows.
fn in_columns(alloc: Global, arguments: &[String]) -> Result<String, Fault> {
    let [text, columns, left, middle, right, settings @ ..] = arguments else {
        return Err(Fault::Malformed);
    };
    let columns = number(columns.as_str())?;
    if columns == 0 {
        return Err(Fault::Malformed);
    }
    let options = options(settings)?;
    let (text, left, middle, right) = (
        text.as_str(),
        left.as_str(),
        middle.as_str(),
        right.as_str(),
    );
    let rows = wrap_columns(alloc, text, columns, options, left, middle, right)?;
    Ok(rows_written(alloc, &rows)?)
}

/// `unfill TEXT`: the text, then the width, the two indents and the line ending of the options.
fn unfilled(alloc: Global, arguments: &[String]) -> Result<String, Fault> {
    let [text] = arguments else {
        return Err(Fault::Malformed);
    };
    let (unfilled, options) = unfill(alloc, text.as_str())?;
    let mut row = text_written(alloc, &unfilled)?;
    push_word(&mut row, &format!(in alloc; "{}", options.width)?)?;
    push_text(&mut row, "", options.initial_indent)?;
    push_text(&mut row, "", options.subsequent_indent)?;
    push_word(&mut row, ending_name(options.line_ending))?;
    Ok(row)
}

/// The name of a line ending.
fn ending_name(ending: LineEnding) -> &'static str {
    match ending {
        LineEnding::LF => "lf",
        LineEnding::CRLF => "crlf",
    }
}

/// `refill TEXT WIDTH SETTINGS..`: the refilled text.
fn refilled(alloc: Global, arguments: &[String]) -> Result<String, Fault> {
    let [text, settings @ ..] = arguments else {
        return Err(Fault::Malformed);
    };
    let refilled = refill(alloc, text.as_str(), options(settings)?)?;
    text_written(alloc, &refilled)
}

/// `indent TEXT PREFIX`: the indented text.
fn indented(alloc: Global, arguments: &[String]) -> Result<String, Fault> {
    let [text, prefix] = arguments else {
        return Err(Fault::Malformed);
    };
    text_written(alloc, &indent(alloc, text.as_str(), prefix.as_str())?)
}

/// `dedent TEXT`: the dedented text.
fn dedented(alloc: Global, arguments: &[String]) -> Result<String, Fault> {
    let [text] = arguments else {
        return Err(Fault::Malformed);
    };
    text_written(alloc, &dedent(alloc, text.as_str())?)
}
