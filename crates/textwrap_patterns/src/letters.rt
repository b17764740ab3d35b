//! The letters of a word.
ghost use Rattle.std.specs.Prelude.{◌≡◌, ◌<◌, ◌≤◌, length, take, true, IfNone, IfOk, IfSome};
ghost use Rattle.textwrap_patterns.specs.Letters.{begins_letter, counts, folded, has_letters};
ghost use Rattle.textwrap_patterns.specs.Letters.{is_hyphen_character, is_letter_or_mark};
ghost use Rattle.textwrap_patterns.specs.Letters.{is_combining_mark, letters_of, lowered, run_len};
ghost use Rattle.textwrap_text.specs.Units.{IsPrintable};

use std::alloc::{AllocError, Allocator};
use textwrap_text::characters::Characters;
use textwrap_text::printable::is_printable;
use unicode::properties::{is_alphabetic, is_grapheme_extend};

/// A letter of a word, as patterns have it.
#[derive(Clone, Copy, Debug)]
pub struct Letter {
    /// Where it begins, in bytes.
    pub at: usize,
    /// The letter, in lower case.
    pub ch: char,
}

/// The visible characters of a word without its soft hyphens, as patterns have them: of
/// `"Hy\u{ad}phen"` those of `hyphen`.
///
/// # Errors
/// [`AllocError`] where memory runs out.
pub fn letters_of<A: Allocator>(alloc: A, word: &str) -> Result<Vec<Letter, A>, AllocError>
    ensures { IfOk result (λ letters. letters.items ≡ letters_of word.now) }
{
    // A letter is at least a byte.
    let mut letters = Vec::with_capacity(alloc, word.len())?;
    for character in Characters::of(word) {
        if character.is_visible && character.ch != '\u{ad}' {
            let ch = folded(character.ch);
            letters.push(Letter {
                at: character.at,
                ch,
            })?;
        }
    }
    Ok(letters)
}

/// Puts the letters of a word, which [`letters_of`] gives too, at the beginning of some room. Returns
/// how many there are, or `None` where the room is too small for them. No memory is taken.
pub fn put_letters(word: &str, room: &mut [Letter]) -> Option<usize>
    ensures within { IfSome result (λ count. count ≤ length room.new) }
    ensures letters { IfSome result (λ count. take count room.new ≡ letters_of word.now) }
    ensures none { IfNone result (length room.old < length (letters_of word.now)) }
{
    if word.len() <= room.len() && is_printable(word.as_bytes()) {
        put_printable(word.as_bytes(), room);
        return Some(word.len());
    }
    let mut count = 0;
    for character in Characters::of(word) {
        if character.is_visible && character.ch != '\u{ad}' {
            if count >= room.len() {
                return None;
            }
            let ch = folded(character.ch);
            room[count] = Letter {
                at: character.at,
                ch,
            };
            count += 1;
        }
    }
    Some(count)
}

/// The same for a word of printable ASCII, in which each byte is a letter.
fn put_printable(word: &[u8], room: &mut [Letter])
    requires printable { IsPrintable word.now }
    requires room { length word.now ≤ length room.old }
    ensures { take (length word.now) room.new ≡ letters_of word.now }
{
    for (at, byte) in word.iter().enumerate() {
        let ch = byte.to_ascii_lowercase() as char;
        room[at] = Letter { at, ch };
    }
}

/// How many letters stand at the beginning, where an apostrophe before a letter counts as one.
pub fn run_len(letters: &[Letter]) -> usize
    ensures len { result ≡ run_len letters.now }
    ensures within { result ≤ length letters.now }
{
    for (i, letter) in letters.iter().enumerate() {
        if !is_letter(letter.ch) && !(letter.ch == '\'' && begins_letter(&letters[i + 1..])) {
            return i;
        }
    }
    letters.len()
}

fn begins_letter(letters: &[Letter]) -> bool
    ensures { result ≡ begins_letter letters.now }
{
    !letters.is_empty() && is_letter(letters[0].ch)
}

/// A character as patterns have it: in lower case, and an apostrophe of ASCII. One whose lower case
/// is not one character, as `İ` (U+0130), stays as it is; `ß` is in lower case.
pub fn folded(ch: char) -> char
    ensures { result ≡ folded ch }
{
    if ch == '\u{2019}' { '\'' } else { lowered(ch) }
}

fn lowered(ch: char) -> char
    ensures { result ≡ lowered ch }
{
    // For most letters no table has to be searched.
    if ch < '\u{80}' {
        return ch.to_ascii_lowercase();
    }
    if '\u{df}' <= ch && ch <= '\u{ff}' {
        return ch;
    }
    if is_lower_latin(ch) {
        return ch;
    }
    let mut cased = ch.to_lowercase();
    match (cased.next(), cased.next()) {
        (Some(lower), None) => lower,
        _ => ch,
    }
}

/// Whether a character is one of those letters of Latin Extended-A that are in lower case and alternate
/// with the others.
#[inline]
fn is_lower_latin(ch: char) -> bool
    ensures { result ≡ true → lowered ch ≡ ch }
{
    let is_odd = ch as u32 % 2 == 1;
    if '\u{100}' <= ch && ch <= '\u{137}' {
        return is_odd;
    }
    if '\u{138}' <= ch && ch <= '\u{148}' {
        return !is_odd;
    }
    if '\u{14a}' <= ch && ch <= '\u{177}' {
        return is_odd;
    }
    if '\u{179}' <= ch && ch <= '\u{17e}' {
        return !is_odd;
    }
    false
}

/// Whether a character counts as a letter: it is Alphabetic, or a combining mark.
pub fn is_letter(ch: char) -> bool
    ensures { result ≡ is_letter_or_mark ch }
{
    // For most letters no table has to be searched.
    if ch.is_ascii_lowercase() {
        return true;
    }
    if '\u{df}' <= ch && ch <= '\u{24f}' && ch != '\u{f7}' {
        return true;
    }
    is_alphabetic(ch) || is_mark(ch)
}

/// Whether a character is a combining mark, one with the property Grapheme_Extend.
fn is_mark(ch: char) -> bool
    ensures { result ≡ is_combining_mark ch }
{
    if ch < '\u{300}' {
        return false;
    }
    is_grapheme_extend(ch)
}

/// Whether at least so many of these count as letters before or behind a hyphen.
pub fn has_letters(letters: &[char], least: usize) -> bool
    ensures { result ≡ has_letters least letters.now }
{
    let mut missing = least;
    for letter in letters {
        if missing == 0 {
            return true;
        }
        if counts(*letter) {
            missing -= 1;
        }
    }
    missing == 0
}

/// Whether a letter counts: it is no apostrophe, as patterns have it, and no combining mark.
pub fn counts(letter: char) -> bool
    ensures { result ≡ counts letter }
{
    letter != '\'' && !is_mark(letter)
}

/// Whether a character is a hyphen, that of ASCII or U+2010.
pub fn is_hyphen(ch: char) -> bool
    ensures { result ≡ is_hyphen_character ch }
{
    ch == '-' || ch == '\u{2010}'
}
