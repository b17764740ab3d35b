//! The words after the program's name.
ghost use Rattle.std.specs.Prelude.{◌≡◌, ◌++◌, map, string_bytes, IfOk, OnOk, Some};
ghost use Rattle.std.specs.Prelude.{false, true, option_map};
ghost use Rattle.std.specs.Str.{all_ascii_digits};
ghost use Rattle.filter_programs.specs.FillWords.{flag_of, is_digit_word, spelled_algorithm, spelled_for_fill};

use std::alloc::{AllocError, Global};
use text_filters::words::push_spelled_out;

/// The words, where a number that comes first is written as a width, and the name of an algorithm
/// behind it as a flag: `40 first` as `-w 40 --first-fit`. The others are written as for each program,
/// `-72` as `-w 72`.
pub fn spelled_out<'a>(alloc: Global, words: &'a [String]) -> Result<Vec<&'a str>, AllocError>
    ensures { IfOk result (λ spelled. map (λ word. word.now) spelled.items
        ≡ spelled_for_fill (map string_bytes words.now)) }
{
    let mut spelled = Vec::new(alloc);
    match words {
        [width, rest @ ..] if is_number(width.as_str()) => {
            spelled.push("-w")?;
            spelled.push(width.as_str())?;
            push_algorithm(&mut spelled, rest)?;
        }
        _ => push_spelled_out(&mut spelled, words)?,
    }
    Ok(spelled)
}

/// Whether a word is one or more ASCII digits.
fn is_number(word: &str) -> bool
    ensures { result ≡ is_digit_word word.now }
{
    !word.is_empty() && is_all_digits(word.as_bytes())
}

/// Whether each byte is an ASCII digit.
fn is_all_digits(bytes: &[u8]) -> bool
    ensures { result ≡ all_ascii_digits bytes.now }
{
    for byte in bytes {
        if !byte.is_ascii_digit() {
            return false;
        }
    }
    true
}

/// Adds the words behind the width.
fn push_algorithm<'a>(spelled: &mut Vec<&'a str>, words: &'a [String]) -> Result<(), AllocError>
    ensures { OnOk result (map (λ word. word.now) spelled.new.items
        ≡ map (λ word. word.now) spelled.old.items ++ spelled_algorithm (map string_bytes words.now)) }
{
    let [name, rest @ ..] = words else {
        return Ok(());
    };
    match flag_of(name.as_str()) {
        Some(flag) => {
            spelled.push(flag)?;
            push_spelled_out(spelled, rest)
        }
        None => push_spelled_out(spelled, words),
    }
}

/// The flag of the algorithm of this name.
fn flag_of(name: &str) -> Option<&'static str>
    ensures { option_map (λ flag. flag.now) result ≡ flag_of name.now }
{
    if name == "first" {
        return Some("--first-fit");
    }
    (name == "optimal").then_some("--least-cost")
}
