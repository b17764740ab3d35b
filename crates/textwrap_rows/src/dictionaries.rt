//! What the calls by a dictionary of hyphenation give.
use crate::faults::Fault;
use crate::notation::numbers_written;
use std::alloc::{AllocError, Global};
use textwrap_dictionaries::errors::ParseError;
use textwrap_hyphens::dictionary::Patterns;
use textwrap_hyphens::points::points;
use textwrap_patterns::patterns::{Exception, Pattern};
use textwrap_patterns::written::{exception, pattern};

/// The points of a word.
fn points_written(alloc: Global, word: &str, patterns: &Patterns) -> Result<String, AllocError> {
    numbers_written(alloc, &points(alloc, word, &patterns.table())?)
}

/// The points of a word by what was read, or the line that is wrong and what is wrong there.
fn pointed(alloc: Global, word: &str, read: Result<Patterns, ParseError>) -> Result<String, Fault> {
    match read {
        Ok(patterns) => Ok(points_written(alloc, word, &patterns)?),
        Err(ParseError::Memory(_)) => Err(Fault::Memory),
        Err(ParseError::Line { line, fault }) => Ok(format!(in alloc; "{line} {fault:?}")?),
    }
}

/// `hyphens DICTIONARY WORD`: the points of the word by the dictionary that a text is.
pub fn by_text(alloc: Global, arguments: &[String]) -> Result<String, Fault> {
    let [text, word] = arguments else {
        return Err(Fault::Malformed);
    };
    let read = Patterns::parse(alloc, text.as_str());
    pointed(alloc, word.as_str(), read)
}

/// `bytehyphens DICTIONARY WORD`: the same, where each character stands for the byte of its number.
pub fn by_bytes(alloc: Global, arguments: &[String]) -> Result<String, Fault> {
    let [text, word] = arguments else {
        return Err(Fault::Malformed);
    };
    let mut bytes = Vec::new(alloc);
    for character in text.chars() {
        bytes.push(u8::try_from(character as u32).map_err(|_| Fault::Malformed)?)?;
    }
    let read = Patterns::parse_bytes(alloc, &bytes);
    pointed(alloc, word.as_str(), read)
}

/// The patterns that are written so, with blanks between.
fn patterns_of(alloc: Global, written: &str) -> Result<Vec<Pattern>, AllocError> {
    let mut patterns = Vec::new(alloc);
    for text in written.split_ascii_whitespace() {
        patterns.push(pattern(alloc, text)?)?;
    }
    Ok(patterns)
}

/// The same, one a line.
fn lines_of(alloc: Global, written: &str) -> Result<String, AllocError> {
    let mut lines = String::new(alloc);
    for text in written.split_ascii_whitespace() {
        lines.push_str(text)?;
        lines.push('\n')?;
    }
    Ok(lines)
}

/// `patterns PATTERNS WORD`: the points of the word by a list of the patterns, if it has the same where
/// they are read.
pub fn by_patterns(alloc: Global, arguments: &[String]) -> Result<String, Fault> {
    let [written, word] = arguments else {
        return Err(Fault::Malformed);
    };
    let (written, word) = (written.as_str(), word.as_str());
    let patterns = Patterns::new(alloc, patterns_of(alloc, written)?, Vec::new(alloc), 2, 3)?;
    let listed = points_written(alloc, word, &patterns)?;
    let read = Patterns::parse(alloc, &lines_of(alloc, written)?);
    let read = pointed(alloc, word, read)?;
    if listed.as_str() == read.as_str() {
        Ok(listed)
    } else {
        Ok(format!(in alloc; "{listed}, but where they are read {read}")?)
    }
}

/// The exceptions that are written so, with blanks between.
fn exceptions_of(alloc: Global, written: &str) -> Result<Vec<Exception>, AllocError> {
    let mut exceptions = Vec::new(alloc);
    for word in written.split_ascii_whitespace() {
        let (mut letters, mut places) = (Vec::new(alloc), Vec::new(alloc));
        for character in word.chars() {
            if character == '-' {
                places.push(letters.len())?;
            } else {
                letters.push(character)?;
            }
        }
        if let Some(made) = exception(letters, places) {
            exceptions.push(made)?;
        }
    }
    Ok(exceptions)
}

/// Patterns of Zei-len-um-bruch, Sil-ben-tren-nung, schma-len and Spal-ten.
const GERMAN: &str = "i1l i2l1b n1u n1n2u m1b n1t a1l a2l1t";

/// The patterns of Liang's thesis that stand in `hyphenation`, and others of other scripts and signs.
const MIXED: &str = "hy3ph he2n hena4 hen5at 1na n2at 1tio 2io o2n \
                     \u{e4}1\u{df} \u{df}1e \u{130}1i 1d1'a .a1b e1\u{301}";

/// Exceptions from them.
const EXCEPTIONS: &str = "t-abl-e phenation";

/// The dictionary of this name. Those of `parts` hyphenate the parts of a word with a hyphen, and
/// `nothing` has no patterns.
pub fn dictionary(alloc: Global, name: &str) -> Result<Patterns, Fault> {
    let (written, excepted, right, in_parts) = match name {
        "german" => (GERMAN, "", 2, false),
        "parts" => (GERMAN, "", 2, true),
        "mixed" => (MIXED, EXCEPTIONS, 3, false),
        "mixedparts" => (MIXED, EXCEPTIONS, 3, true),
        "nothing" => ("", "", 2, false),
        _ => return Err(Fault::Malformed),
    };
    let patterns = patterns_of(alloc, written)?;
    let exceptions = exceptions_of(alloc, excepted)?;
    let dictionary = Patterns::new(alloc, patterns, exceptions, 2, right)?;
    Ok(dictionary.in_parts(in_parts))
}

/// `wordpoints DICTIONARY WORD`, or `softpoints` where soft hyphens are points: the points of the word.
pub fn by_name(alloc: Global, arguments: &[String], is_soft: bool) -> Result<String, Fault> {
    let [name, word] = arguments else {
        return Err(Fault::Malformed);
    };
    let patterns = dictionary(alloc, name.as_str())?;
    let table = patterns.table().soft_hyphens(is_soft);
    Ok(numbers_written(alloc, &points(alloc, word.as_str(), &table)?)?)
}
