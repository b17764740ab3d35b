//! Patterns and exceptions, made of how they are written.
ghost use Rattle.std.specs.Prelude.{◌≡◌, ◌↔◌, ◌-◌, chars, length, IfOk, IfSome, IsSome, IsTrue};
ghost use Rattle.textwrap_patterns.specs.Listed.{exception_text, exception_view, pattern_view};
ghost use Rattle.textwrap_patterns.specs.Places.{AreInnerPlaces};
ghost use Rattle.textwrap_patterns.specs.Written.{is_digit, pattern_written};

use crate::letters::folded;
use crate::patterns::{Exception, Pattern};
use std::alloc::{AllocError, Allocator};

/// The pattern of a text of letters and digits, each digit the level of the place where it stands:
/// `hy3ph` has the letters `hyph`, and level 3 behind `hy`. Letters are folded as those of words
/// are. Of several digits at one place the first counts.
///
/// # Errors
/// [`AllocError`] where memory runs out.
pub fn pattern<A: Allocator + Copy>(alloc: A, text: &str) -> Result<Pattern<A>, AllocError>
    ensures { IfOk result (λ pattern. pattern_view pattern ≡ pattern_written (chars text.now)) }
{
    let characters = characters_of(alloc, text)?;
    pattern_of(alloc, &characters)
}

/// The characters of a text.
pub fn characters_of<A: Allocator>(alloc: A, text: &str) -> Result<Vec<char, A>, AllocError>
    ensures { IfOk result (λ characters. characters.items ≡ chars text.now) }
{
    let mut characters = Vec::new(alloc);
    for ch in text.chars() {
        characters.push(ch)?;
    }
    Ok(characters)
}

/// The pattern of these letters and digits.
pub fn pattern_of<A: Allocator + Copy>(
    alloc: A,
    characters: &[char],
) -> Result<Pattern<A>, AllocError>
    ensures { IfOk result (λ pattern. pattern_view pattern ≡ pattern_written characters.now) }
{
    let mut letters = Vec::new(alloc);
    let mut levels = Vec::new(alloc);
    let mut level = None;
    for ch in characters {
        if is_digit(*ch) {
            level = Some(level.unwrap_or((*ch as u32 - 0x30) as u8));
        } else {
            letters.push(folded(*ch))?;
            levels.push(level.unwrap_or(0))?;
            level = None;
        }
    }
    levels.push(level.unwrap_or(0))?;
    Ok(Pattern { letters, levels })
}

/// Whether a character is a digit of ASCII.
pub fn is_digit(ch: char) -> bool
    ensures { result ≡ is_digit ch }
{
    '0' <= ch && ch <= '9'
}

/// The exception of a word of these letters, in lower case, with hyphens behind so many of them:
/// for `ta-ble` the letters of `table` and 2. `None` where the places don't increase, inside the
/// word.
pub fn exception<A: Allocator>(letters: Vec<char, A>, places: Vec<usize, A>) -> Option<Exception<A>>
    ensures made { IfSome result
        (λ made. exception_view made ≡ exception_text letters.items places.items) }
    ensures inner { IsSome result ↔ AreInnerPlaces (length letters.items) places.items }
{
    if are_inner(letters.as_slice().len(), &places) {
        Some(Exception { letters, places })
    } else {
        None
    }
}

/// Whether places increase, inside a word of so many letters.
pub fn are_inner(len: usize, places: &[usize]) -> bool
    ensures { IsTrue result ↔ AreInnerPlaces len places.now }
{
    let mut last = 0;
    for place in places {
        if *place <= last || len <= *place {
            return false;
        }
        last = *place;
    }
    true
}
