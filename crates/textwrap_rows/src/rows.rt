//! A row: a call, `=>`, and what it gives.
use crate::calls;
use crate::faults::Fault;
use crate::notation::words;
use std::alloc::{AllocError, Global};

/// What became of a line.
#[derive(Debug, Drop)]
pub enum Outcome {
    /// The line is empty or a comment.
    NoRow,
    /// The call gave what the row says.
    Right,
    /// It gave something else, or could not be made. This tells it, with the row.
    Wrong(String),
}

/// Makes the call of a line, and compares what it gives with what stands after `=>`.
pub fn tried(alloc: Global, line: &str) -> Result<Outcome, AllocError> {
    if line.is_empty() || line.starts_with('#') {
        return Ok(Outcome::NoRow);
    }
    let Some((call, expected)) = line.split_once(" => ") else {
        return wrong(alloc, line, "is", "no row");
    };
    match given(alloc, call) {
        Ok(given) if given.as_str() == expected => Ok(Outcome::Right),
        Ok(given) => wrong(alloc, line, "gives", given.as_str()),
        Err(Fault::Malformed) => wrong(alloc, line, "is", "no row"),
        Err(_) => wrong(alloc, line, "has", "no memory"),
    }
}

/// The outcome of a wrong row, of which this is told.
fn wrong(alloc: Global, line: &str, verb: &str, object: &str) -> Result<Outcome, AllocError> {
    Ok(Outcome::Wrong(format!(in alloc; "{line}\n  {verb} {object}")?))
}

/// What a call gives, as a row writes it. Where the library refuses, that is one word.
fn given(alloc: Global, call: &str) -> Result<String, Fault> {
    let words = words(alloc, call)?;
    match answer(alloc, &words) {
        Err(Fault::Memory) => Ok(String::from_str(alloc, "memory")?),
        Err(Fault::Overflow) => Ok(String::from_str(alloc, "overflow")?),
        answer => answer,
    }
}

/// What a call gives. `at WORDS CALL TEXT REST..` makes the call `CALL TEXT WORD REST..` with each of
/// the words, between which there are commas, such as widths, and is what all of them give.
fn answer(alloc: Global, words: &[String]) -> Result<String, Fault> {
    match words {
        [at, each, call @ ..] if at.as_str() == "at" => at_each(alloc, each.as_str(), call),
        _ => calls::answer(alloc, words),
    }
}

/// What a call gives with each of these words, if that is always the same.
fn at_each(alloc: Global, each: &str, call: &[String]) -> Result<String, Fault> {
    let mut given = String::new(alloc);
    for word in each.split(',') {
        let answer = calls::answer(alloc, &with_word(alloc, call, word)?)?;
        if !given.is_empty() && given.as_str() != answer.as_str() {
            return Ok(format!(in alloc; "{given}, but at {word} {answer}")?);
        }
        given = answer;
    }
    Ok(given)
}

/// The words of a call with this one after its text.
fn with_word(alloc: Global, call: &[String], after: &str) -> Result<Vec<String>, Fault> {
    let [name, text, rest @ ..] = call else {
        return Err(Fault::Malformed);
    };
    let mut words = Vec::new(alloc);
    for word in [name.as_str(), text.as_str(), after] {
        words.push(String::from_str(alloc, word)?)?;
    }
    for word in rest {
        words.push(String::from_str(alloc, word.as_str())?)?;
    }
    Ok(words)
}
