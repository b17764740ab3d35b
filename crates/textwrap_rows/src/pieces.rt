//! What the calls on words give. A word or piece is written as its text with its blanks, with `!` before
//! it if it is not the word of that text; `none` stands for no word, piece or point.
use crate::faults::Fault;
use crate::notation::{numbers_written, or_none, push_text, text_written};
use crate::settings::number;
use std::alloc::{AllocError, Global};
use textwrap::word_splitters::split_words;
use textwrap::words::{Word, break_words, display_width, strip_ansi_escape_sequences};
use textwrap::{WordSeparator, WordSplitter};

/// Words or pieces.
fn pieces_written(alloc: Global, pieces: &[Word<'_>]) -> Result<String, AllocError> {
    let mut row = String::new(alloc);
    for piece in pieces {
        push_piece(alloc, &mut row, piece)?;
    }
    or_none(row)
}

/// Appends a word or piece.
fn push_piece(alloc: Global, row: &mut String, piece: &Word<'_>) -> Result<(), AllocError> {
    let text = format!(in alloc; "{}{}", piece.word, piece.whitespace)?;
    let is_word = *piece == Word::from(text.as_str());
    push_text(row, if is_word { "" } else { "!" }, &text)
}

/// `width TEXT`: its columns.
pub fn measured(alloc: Global, arguments: &[String]) -> Result<String, Fault> {
    let [text] = arguments else {
        return Err(Fault::Malformed);
    };
    let columns = display_width(text.as_str());
    Ok(format!(in alloc; "{columns}")?)
}

/// `strip TEXT`: the text without escape sequences.
pub fn stripped(alloc: Global, arguments: &[String]) -> Result<String, Fault> {
    let [text] = arguments else {
        return Err(Fault::Malformed);
    };
    text_written(alloc, &strip_ansi_escape_sequences(alloc, text.as_str())?)
}

/// `words LINE`: its words.
pub fn found(alloc: Global, arguments: &[String]) -> Result<String, Fault> {
    let [line] = arguments else {
        return Err(Fault::Malformed);
    };
    let words = WordSeparator::new().find_words(alloc, line.as_str())?;
    let words: Vec<Word<'_>> = words.collect(alloc)?;
    Ok(pieces_written(alloc, &words)?)
}

/// The splitter of this name.
fn splitter(name: &str) -> Result<WordSplitter, Fault> {
    match name {
        "hyphens" => Ok(WordSplitter::HyphenSplitter),
        "nowhere" => Ok(WordSplitter::NoHyphenation),
        _ => Err(Fault::Malformed),
    }
}

/// `points WORD SPLITTER`: where the word may be split.
pub fn points(alloc: Global, arguments: &[String]) -> Result<String, Fault> {
    let [word, name] = arguments else {
        return Err(Fault::Malformed);
    };
    let points = splitter(name.as_str())?.split_points(alloc, word.as_str())?;
    Ok(numbers_written(alloc, &points)?)
}

/// The words of these texts, as they are.
fn words_of<'t>(alloc: Global, texts: &'t [String]) -> Result<Vec<Word<'t>>, AllocError> {
    let mut words = Vec::new(alloc);
    for text in texts {
        words.push(Word::from(text.as_str()))?;
    }
    Ok(words)
}

/// `split WORDS.. SPLITTER`: the pieces of the words.
pub fn split(alloc: Global, arguments: &[String]) -> Result<String, Fault> {
    let [texts @ .., name] = arguments else {
        return Err(Fault::Malformed);
    };
    let splitter = splitter(name.as_str())?;
    let words = words_of(alloc, texts)?;
    let pieces = split_words(alloc, words.iter().copied(), &splitter)?;
    Ok(pieces_written(alloc, &pieces)?)
}

/// `break WORDS.. LIMIT`: the words, and the pieces of those that pass the limit.
pub fn broken(alloc: Global, arguments: &[String]) -> Result<String, Fault> {
    let [texts @ .., limit] = arguments else {
        return Err(Fault::Malformed);
    };
    let limit = number(limit.as_str())?;
    let words = words_of(alloc, texts)?;
    let pieces = break_words(alloc, words.iter().copied(), limit)?;
    Ok(pieces_written(alloc, &pieces)?)
}

/// `apart WORD LIMIT`: the pieces that keep to the limit.
pub fn broken_apart(alloc: Global, arguments: &[String]) -> Result<String, Fault> {
    let [word, limit] = arguments else {
        return Err(Fault::Malformed);
    };
    let pieces = Word::from(word.as_str()).break_apart(number(limit.as_str())?);
    let pieces: Vec<Word<'_>> = pieces.collect(alloc)?;
    Ok(pieces_written(alloc, &pieces)?)
}
