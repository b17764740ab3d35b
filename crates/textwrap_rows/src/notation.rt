//! How rows are written: in words, which stand bare or, if they are texts, between quotes. There a
//! backslash and one of the names of `ESCAPES` stand for a quote or a character that would not be seen,
//! as in Rust.
use crate::faults::Fault;
use std::alloc::{AllocError, Global};
use std::borrow::CowStr;

/// The characters that are always escaped, and what stands for them after a backslash.
const ESCAPES: &[(char, &str)] = &[
    ('\n', "n"),
    ('\r', "r"),
    ('\t', "t"),
    ('"', "x22"),
    ('\\', "\\"),
    ('\x07', "x07"),
    ('\x0b', "x0b"),
    ('\x1b', "x1b"),
    ('\u{9b}', "u{9b}"),
    ('\u{a0}', "u{a0}"),
    ('\u{ad}', "u{ad}"),
    ('\u{301}', "u{301}"),
    ('\u{308}', "u{308}"),
    ('\u{17d8}', "u{17d8}"),
    ('\u{2002}', "u{2002}"),
    ('\u{2003}', "u{2003}"),
    ('\u{200b}', "u{200b}"),
    ('\u{200d}', "u{200d}"),
    ('\u{2010}', "u{2010}"),
    ('\u{2011}', "u{2011}"),
    ('\u{3000}', "u{3000}"),
    ('\u{feff}', "u{feff}"),
];

/// The words of a call, in order, texts without their quotes.
pub fn words(alloc: Global, written: &str) -> Result<Vec<String>, Fault> {
    let mut words = Vec::new(alloc);
    let mut is_quoted = false;
    for part in written.split('"') {
        if is_quoted {
            words.push(unescaped(alloc, part)?)?;
        } else {
            push_bare(alloc, &mut words, part)?;
        }
        is_quoted = !is_quoted;
    }
    // The last part is bare, unless a quote is missing.
    if is_quoted {
        Ok(words)
    } else {
        Err(Fault::Malformed)
    }
}

/// Appends the words of a part without quotes.
fn push_bare(alloc: Global, words: &mut Vec<String>, part: &str) -> Result<(), Fault> {
    for word in part.split_ascii_whitespace() {
        words.push(String::from_str(alloc, word)?)?;
    }
    Ok(())
}

/// The text that is written so between quotes.
fn unescaped(alloc: Global, written: &str) -> Result<String, Fault> {
    let mut text = String::new(alloc);
    let mut is_escape = false;
    for part in written.split('\\') {
        if !is_escape {
            text.push_str(part)?;
            is_escape = true;
        } else if part.is_empty() {
            // Of two backslashes the second has been the end of this part.
            text.push('\\')?;
            is_escape = false;
        } else {
            push_escaped(&mut text, part)?;
        }
    }
    // Nothing follows a backslash at the end.
    if is_escape {
        Ok(text)
    } else {
        Err(Fault::Malformed)
    }
}

/// Appends what follows a backslash: a character by its name, and the text after that.
fn push_escaped(text: &mut String, part: &str) -> Result<(), Fault> {
    for (character, name) in ESCAPES {
        if let Some(after) = part.strip_prefix(*name) {
            text.push(*character)?;
            text.push_str(after)?;
            return Ok(());
        }
    }
    Err(Fault::Malformed)
}

/// Appends a bare word, after a blank if it is not the first.
pub fn push_word(row: &mut String, word: &str) -> Result<(), AllocError> {
    if !row.is_empty() {
        row.push(' ')?;
    }
    row.push_str(word)
}

/// Appends a text between quotes, after this mark, and after a blank if it is not the first.
pub fn push_text(row: &mut String, mark: &str, text: &str) -> Result<(), AllocError> {
    push_word(row, mark)?;
    row.push('"')?;
    for character in text.chars() {
        push_character(row, character)?;
    }
    row.push('"')
}

/// Appends a character, escaped if it has a name.
fn push_character(row: &mut String, character: char) -> Result<(), AllocError> {
    for (escaped, name) in ESCAPES {
        if *escaped == character {
            row.push('\\')?;
            return row.push_str(*name);
        }
    }
    row.push(character)
}

/// One text.
pub fn text_written(alloc: Global, text: &str) -> Result<String, Fault> {
    let mut row = String::new(alloc);
    push_text(&mut row, "", text)?;
    Ok(row)
}

/// The lines, with `+` before each that is no part of the text.
pub fn lines_written(alloc: Global, lines: &[CowStr<'_>]) -> Result<String, AllocError> {
    let mut row = String::new(alloc);
    for line in lines {
        let mark = if matches!(line, CowStr::Owned(_)) {
            "+"
        } else {
            ""
        };
        push_text(&mut row, mark, line.as_str())?;
    }
    Ok(row)
}

/// The rows of a table, or `none`.
pub fn rows_written(alloc: Global, rows: &[String]) -> Result<String, AllocError> {
    let mut row = String::new(alloc);
    for text in rows {
        push_text(&mut row, "", text.as_str())?;
    }
    or_none(row)
}

/// What is written, or `none` if that is nothing.
pub fn or_none(mut row: String) -> Result<String, AllocError> {
    if row.is_empty() {
        row.push_str("none")?;
    }
    Ok(row)
}

/// Numbers, or `none`.
pub fn numbers_written(alloc: Global, numbers: &[usize]) -> Result<String, AllocError> {
    let mut row = String::new(alloc);
    for number in numbers {
        push_word(&mut row, &format!(in alloc; "{number}")?)?;
    }
    or_none(row)
}
