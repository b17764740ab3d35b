//! Marks: words that make up a prefix.
ghost use Rattle.std.specs.Prelude.{◌≡◌};
ghost use Rattle.std.specs.Char.{is_ascii_digit};
ghost use Rattle.std.specs.List.{list_all};
ghost use Rattle.textwrap_marks.specs.Marks.{is_bullet, is_bullet_sign, is_counter, is_label, is_one_letter};
ghost use Rattle.textwrap_marks.specs.Marks.{is_line_comment, is_short_number, is_comment_opening};
ghost use Rattle.textwrap_marks.specs.Marks.{is_quote, is_roman, is_roman_digit};
ghost use Rattle.textwrap_marks.specs.Marks.{label_inside};

use crate::words::{contains, has_letter, is_made_of};
use textwrap_text::starts::starts_with;

/// Whether a word opens a block comment: it begins with `/*`, has no letter, and does not close
/// what it opens.
pub fn is_opening(word: &str) -> bool
    ensures { result ≡ is_comment_opening word.now }
{
    starts_with(word, "/*") & !has_letter(word) & !contains(word, "*/")
}

/// Whether a word is a comment mark of lines.
pub fn is_line_comment(word: &str) -> bool
    ensures { result ≡ is_line_comment word.now }
{
    matches!(
        word,
        "//" | "///" | "//!" | "#" | "--" | ";" | ";;" | ";;;" | ";;;;" | "%" | "%%" | "%%%"
    )
}

/// Whether a word is a quote mark: `>` several times, but for `>>>`, the prompt of Python.
pub fn is_quote(word: &str) -> bool
    ensures { result ≡ is_quote word.now }
{
    !word.is_empty() & is_made_of(b'>', word.as_bytes()) & (word.len() != 3)
}

fn are_digits(text: &[u8]) -> bool
    ensures { result ≡ list_all is_ascii_digit text.now }
{
    text.iter().all(|byte| byte.is_ascii_digit())
}

/// Whether a text is one to three digits.
fn is_number(text: &[u8]) -> bool
    ensures { result ≡ is_short_number text.now }
{
    are_digits(text) & (0 < text.len()) & (text.len() < 4)
}

/// Whether a text is one letter.
fn is_letter(text: &[u8]) -> bool
    ensures { result ≡ is_one_letter text.now }
{
    (text.len() == 1) & text.iter().all(|byte| byte.is_ascii_alphabetic())
}

fn are_roman_digits(text: &[u8]) -> bool
    ensures { result ≡ list_all is_roman_digit text.now }
{
    text.iter().all(|byte| is_roman_digit(*byte))
}

/// Whether a text is a number of Rome with two to four letters of i, v and x.
fn is_roman(text: &[u8]) -> bool
    ensures { result ≡ is_roman text.now }
{
    are_roman_digits(text) & (1 < text.len()) & (text.len() < 5)
}

fn is_roman_digit(byte: u8) -> bool
    ensures { result ≡ is_roman_digit byte }
{
    matches!(byte, b'i' | b'v' | b'x' | b'I' | b'V' | b'X')
}

/// Whether the items of a list may be counted by a text: a number, or a letter.
fn is_counter(text: &[u8]) -> bool
    ensures { result ≡ is_counter text.now }
{
    is_number(text) | is_letter(text) | is_roman(text)
}

/// What is a label in brackets, or before a closing one.
fn label_inside(word: &[u8]) -> &[u8]
    ensures { result.now ≡ label_inside word.now }
{
    match word {
        [b'(', inside @ .., b')'] => inside,
        [b'[', inside @ .., b']'] => inside,
        [inside @ .., b')'] => inside,
        _ => &[],
    }
}

fn is_label(word: &[u8]) -> bool
    ensures { result ≡ is_label word.now }
{
    match word {
        [front @ .., b'.'] => is_counter(front),
        _ => is_counter(label_inside(word)),
    }
}

fn is_bullet_sign(word: &str) -> bool
    ensures { result ≡ is_bullet_sign word.now }
{
    (word == "-") | (word == "+") | (word == "*") | (word == "•")
}

/// Whether a word is a bullet: `-` `+` `*` `•`, or a label, as `1.` `1)` `(1)` `[1]` `a.` `a)` `ii.`
pub fn is_bullet(word: &str) -> bool
    ensures { result ≡ is_bullet word.now }
{
    is_bullet_sign(word) | is_label(word.as_bytes())
}
