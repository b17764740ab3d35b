//! The words after the program's name.
ghost use Rattle.std.specs.Prelude.{◌≡◌, ◌++◌, map, drop, slice_index, string_bytes, false, true};
ghost use Rattle.std.specs.Prelude.{IfOk, MatchOption, OnOk};
ghost use Rattle.text_filters.specs.Words.{is_digit, is_short_width, spelled_out, spelled_word};

use std::alloc::{AllocError, Global};

/// The words, where each that is a hyphen and digits is written as a width: `-72` as `-w 72`. What
/// stands behind `--` is the name of a file, and stays.
pub fn spelled_out<'a>(alloc: Global, words: &'a [String]) -> Result<Vec<&'a str>, AllocError>
    ensures { IfOk result (λ spelled. map (λ word. word.now) spelled.items
        ≡ spelled_out false (map string_bytes words.now)) }
{
    let mut spelled = Vec::new(alloc);
    push_spelled_out(&mut spelled, words)?;
    Ok(spelled)
}

/// Adds what the words are written as.
pub fn push_spelled_out<'a>(
    spelled: &mut Vec<&'a str>,
    words: &'a [String],
) -> Result<(), AllocError>
    ensures { OnOk result (map (λ word. word.now) spelled.new.items
        ≡ map (λ word. word.now) spelled.old.items ++ spelled_out false (map string_bytes words.now)) }
{
    let mut is_past = false;
    for word in words {
        is_past = is_past | (word.as_str() == "--");
        push_spelled(spelled, is_past, word.as_str())?;
    }
    Ok(())
}

/// Adds what a word is written as.
fn push_spelled<'a>(
    spelled: &mut Vec<&'a str>,
    is_past: bool,
    word: &'a str,
) -> Result<(), AllocError>
    ensures { OnOk result (map (λ word. word.now) spelled.new.items
        ≡ map (λ word. word.now) spelled.old.items ++ spelled_word is_past word.now) }
{
    match short_width(word) {
        Some(width) if !is_past => {
            spelled.push("-w")?;
            spelled.push(width)?;
        }
        _ => spelled.push(word)?,
    }
    Ok(())
}

/// What follows the hyphen, if a digit does.
fn short_width(word: &str) -> Option<&str>
    ensures { MatchOption result (is_short_width word.now ≡ false)
        (λ width. (is_short_width word.now ≡ true) × (width.now ≡ drop 1 word.now)) }
{
    match word.strip_prefix("-") {
        Some(width) if begins_with_digit(width) => Some(width),
        _ => None,
    }
}

/// Whether the first byte is an ASCII digit.
fn begins_with_digit(text: &str) -> bool
    ensures { result ≡ is_digit (slice_index text.now 0) }
{
    match text.as_bytes() {
        [first, ..] => first.is_ascii_digit(),
        [] => false,
    }
}
