//! The options of a call: a width and, in any order, the names of what is set.
use crate::faults::Fault;
use textwrap::wrap_algorithms::Penalties;
use textwrap::{LineEnding, Options, WordSeparator, WordSplitter, WrapAlgorithm};

/// What can be set, by built-in parts alone.
#[derive(Clone, Copy)]
struct Settings<'a> {
    width: usize,
    line_ending: LineEnding,
    initial_indent: &'a str,
    subsequent_indent: &'a str,
    break_words: bool,
    is_first_fit: bool,
    preserve_trailing_space: bool,
    even_paragraphs: bool,
}

/// The options that these words name, the width before all others.
pub fn options(words: &[String]) -> Result<Options<'_>, Fault> {
    let settings = read(words)?;
    let wrap_algorithm = if settings.is_first_fit {
        WrapAlgorithm::FirstFit
    } else {
        WrapAlgorithm::OptimalFit(Penalties::new())
    };
    let (word_separator, word_splitter) = (WordSeparator::AsciiSpace, WordSplitter::HyphenSplitter);
    Ok(Options {
        width: settings.width,
        line_ending: settings.line_ending,
        initial_indent: settings.initial_indent,
        subsequent_indent: settings.subsequent_indent,
        break_words: settings.break_words,
        wrap_algorithm,
        word_separator,
        word_splitter,
        preserve_trailing_space: settings.preserve_trailing_space,
        even_paragraphs: settings.even_paragraphs,
    })
}

/// What these words set.
fn read(words: &[String]) -> Result<Settings<'_>, Fault> {
    let Some((width, words)) = words.split_first() else {
        return Err(Fault::Malformed);
    };
    let mut settings = Settings {
        width: number(width.as_str())?,
        line_ending: LineEnding::LF,
        initial_indent: "",
        subsequent_indent: "",
        break_words: true,
        is_first_fit: false,
        preserve_trailing_space: false,
        even_paragraphs: false,
    };
    let mut name = "";
    for word in words {
        name = set(&mut settings, name, word.as_str())?;
    }
    if name.is_empty() {
        Ok(settings)
    } else {
        Err(Fault::Malformed)
    }
}

/// Sets what the name before it says to this word, or, without such a name, what the word says. The
/// word is returned if it is a name of what the next word is to be.
fn set<'a>(settings: &mut Settings<'a>, name: &str, word: &'a str) -> Result<&'a str, Fault> {
    match name {
        "initial" => settings.initial_indent = word,
        "subsequent" => settings.subsequent_indent = word,
        _ => return switch(settings, word),
    }
    Ok("")
}

/// Sets what this word alone says, or returns it if it is the name of what the next word is to be.
fn switch<'a>(settings: &mut Settings<'_>, word: &'a str) -> Result<&'a str, Fault> {
    match word {
        "first" => settings.is_first_fit = true,
        "whole" => settings.break_words = false,
        "crlf" => settings.line_ending = LineEnding::CRLF,
        "blanks" => settings.preserve_trailing_space = true,
        "even" => settings.even_paragraphs = true,
        "initial" | "subsequent" => return Ok(word),
        _ => return Err(Fault::Malformed),
    }
    Ok("")
}

/// A number, `max` for the greatest.
pub fn number(word: &str) -> Result<usize, Fault> {
    if word == "max" {
        return Ok(usize::MAX);
    }
    word.parse::<usize>().map_err(|_| Fault::Malformed)
}
