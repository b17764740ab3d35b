//! What the calls give by which words end where Unicode lets a line end, or at other cuts.
use crate::faults::Fault;
use crate::notation::{numbers_written, or_none, push_word, text_written};
use crate::settings::number;
use std::alloc::Global;
use textwrap::WrapError;
use textwrap_lines::steps::are_inner_cuts;
use textwrap_plain::{BuiltInAlgorithm, PlainOptions, fill};
use textwrap_unicode::inner::is_cut_at_blanks;
use textwrap_unicode::unicode_cuts;
use textwrap_words::inner::{BuiltInSplitter, CutPieces};

/// `cuts LINE`: where the line is cut into words.
pub fn cut(alloc: Global, arguments: &[String]) -> Result<String, Fault> {
    let [line] = arguments else {
        return Err(Fault::Malformed);
    };
    Ok(numbers_written(alloc, &unicode_cuts(alloc, line.as_str())?)?)
}

/// A text filled at a width by first fit, with words cut at its breaks.
fn filled(alloc: Global, text: &str, width: usize) -> Result<String, WrapError> {
    let options = PlainOptions {
        wrap_algorithm: BuiltInAlgorithm::FirstFit,
        ..PlainOptions::new(width)
    };
    fill(alloc, text, &options)
}

/// `atbreaks TEXT WIDTH`: the filled text.
pub fn at_breaks(alloc: Global, arguments: &[String]) -> Result<String, Fault> {
    let [text, width] = arguments else {
        return Err(Fault::Malformed);
    };
    text_written(
        alloc,
        &filled(alloc, text.as_str(), number(width.as_str())?)?,
    )
}

/// `atblanks TEXT`: whether the words of the text are known to be those between its blanks.
pub fn at_blanks(alloc: Global, arguments: &[String]) -> Result<String, Fault> {
    let [text] = arguments else {
        return Err(Fault::Malformed);
    };
    let is_at_blanks = is_cut_at_blanks(text.as_str());
    Ok(format!(in alloc; "{is_at_blanks}")?)
}

/// The splitter of this name.
fn splitter(name: &str) -> Result<BuiltInSplitter, Fault> {
    match name {
        "hyphens" => Ok(BuiltInSplitter::HyphenSplitter),
        "nowhere" => Ok(BuiltInSplitter::NoHyphenation),
        _ => Err(Fault::Malformed),
    }
}

/// Whether an empty piece stands before the words.
fn has_front(name: &str) -> Result<bool, Fault> {
    match name {
        "front" => Ok(true),
        "words" => Ok(false),
        _ => Err(Fault::Malformed),
    }
}

/// `pieces TEXT LIMIT SPLITTER FRONT CUTS..`: the pieces of a text whose words end at cuts. Of each
/// piece is told where its word ends, and its whitespace, and how many columns it has.
pub fn pieces(alloc: Global, arguments: &[String]) -> Result<String, Fault> {
    let [text, limit, name, front, cuts @ ..] = arguments else {
        return Err(Fault::Malformed);
    };
    let (text, limit) = (text.as_str(), number(limit.as_str())?);
    let (splitter, has_front) = (splitter(name.as_str())?, has_front(front.as_str())?);
    let mut read = Vec::new(alloc);
    for cut in cuts {
        read.push(number(cut.as_str())?)?;
    }
    if !are_inner_cuts(text, &read) {
        return Err(Fault::Malformed);
    }
    let mut row = String::new(alloc);
    for piece in CutPieces::of(text, &read, limit, splitter, has_front) {
        let (word_end, end, width) = (piece.word_end, piece.end, piece.width);
        push_word(&mut row, &format!(in alloc; "{word_end}:{end}:{width}")?)?;
    }
    Ok(or_none(row)?)
}
