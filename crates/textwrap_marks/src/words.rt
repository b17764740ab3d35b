//! The words of a line, each with the white behind it, and what is asked of one.
ghost use Rattle.std.specs.Prelude.{◌≡◌, ◌-◌, ◌<◌, ◌≤◌, ◌==◌, ◌∷◌, true, false, length};
ghost use Rattle.std.specs.Prelude.{nat_eq, take, drop};
ghost use Rattle.std.specs.Prelude.{MatchOption, slice_index};
ghost use Rattle.std.specs.List.{ends_with, prefix_len, slice_split};
ghost use Rattle.textwrap_marks.specs.Words.{behind_spaced, bytes_left, contains, has_byte, has_letter};
ghost use Rattle.textwrap_marks.specs.Words.{is_ink, is_made_of, is_white, parts_behind_mark, spaced_view};
ghost use Rattle.textwrap_marks.specs.Words.{spaced_words};

use std::marker::Model;

/// What stands between white, and the white behind it.
#[derive(Clone, Copy, Debug)]
pub struct SpacedWord<'t> {
    pub word: &'t str,
    pub white: &'t str,
}

/// The part of a text before a mark, and what follows that, if it stands there.
pub fn split_at(text: &str, mark: char) -> (&str, Option<&str>)
    requires { mark < 128 }
    ensures parts { slice_split (λ c. c == mark) text.now
        ≡ result.0.now ∷ parts_behind_mark mark result.1 }
    ensures shorter { bytes_left result.1 ≤ length text.now }
{
    match text.split_once(mark) {
        Some((part, rest)) => (part, Some(rest)),
        None => (text, None),
    }
}

/// Whether the byte is a blank or a tab.
pub fn is_white(byte: u8) -> bool
    ensures { result ≡ is_white byte }
{
    // Most bytes are past both, which one comparison tells.
    byte <= b' ' && ((byte == b' ') | (byte == b'\t'))
}

/// The text up to its first white, and what follows.
pub fn split_word(text: &str) -> (&str, &str)
    ensures word { result.0.now ≡ take (prefix_len is_ink text.now) text.now }
    ensures rest { result.1.now ≡ drop (prefix_len is_ink text.now) text.now }
{
    let bytes = text.as_bytes();
    let mut end = 0;
    while end < bytes.len() && !is_white(bytes[end]) {
        end += 1;
    }
    text.split_at(end)
}

/// The white that the text begins with, and what follows.
pub fn split_white(text: &str) -> (&str, &str)
    ensures white { result.0.now ≡ take (prefix_len is_white text.now) text.now }
    ensures rest { result.1.now ≡ drop (prefix_len is_white text.now) text.now }
{
    let bytes = text.as_bytes();
    let mut end = 0;
    while end < bytes.len() && is_white(bytes[end]) {
        end += 1;
    }
    text.split_at(end)
}

/// The first word of a text, and what follows it and its white.
pub fn split_first(text: &str) -> (SpacedWord<'_>, &str)
    requires { 0 < length text.now }
    ensures words { spaced_words text.now ≡ spaced_view result.0 ∷ spaced_words result.1.now }
    ensures behind { result.1.now ≡ behind_spaced text.now }
    ensures shorter { length result.1.now < length text.now }
{
    let (word, after) = split_word(text);
    let (white, rest) = split_white(after);
    (SpacedWord { word, white }, rest)
}

/// The words of a text, one after another. They need no memory. To contracts it is the list of the
/// words to come, of which only the first may be empty, before white.
#[derive(Drop)]
pub struct SpacedWords<'t>(&'t str);

impl<'t> Model for SpacedWords<'t> {
    ghost use Rattle.std.specs.Prelude.{List};
    ghost use Rattle.textwrap_marks.specs.Words.{SpacedText, spaced_words};

    ghost Value = { List SpacedText };

    ghost view = { λ words. spaced_words words.0.now };
}

impl<'t> SpacedWords<'t> {
    /// Those of this text.
    pub fn of(text: &'t str) -> SpacedWords<'t>
        ensures { result ≡ spaced_words text.now }
    {
        SpacedWords(text)
    }
}

impl<'t> Iterator for SpacedWords<'t> {
    ghost use Rattle.std.specs.Iterator.{YieldsFirstBy, item_count};

    type Item = SpacedWord<'t>;

    ghost next_gives = { YieldsFirstBy spaced_view (λ words. words) };

    ghost remaining = { item_count (λ words. words) };

    fn next(&mut self) -> Option<SpacedWord<'t>> {
        if self.0.is_empty() {
            return None;
        }
        let (word, rest) = split_first(self.0);
        self.0 = rest;
        Some(word)
    }
}

/// The text of the first so many words, or of all if there are fewer, and what follows.
pub fn split_words(text: &str, count: usize) -> (&str, &str)
    ensures front { spaced_words result.0.now ≡ take count (spaced_words text.now) }
    ensures behind { spaced_words result.1.now ≡ drop count (spaced_words text.now) }
{
    let mut rest = text;
    let mut len = 0;
    while len < count && !rest.is_empty() {
        let (_, behind) = split_first(rest);
        rest = behind;
        len += 1;
    }
    text.split_at(text.len() - rest.len())
}

/// Whether a letter or a digit is among the characters of a word.
pub fn has_letter(word: &str) -> bool
    ensures { result ≡ has_letter word.now }
{
    word.chars().any(|ch| ch.is_alphanumeric())
}

/// The first byte, and 0 where there is none.
pub fn first_byte(word: &str) -> u8
    ensures { result ≡ slice_index word.now 0 }
{
    match word.as_bytes() {
        [first, ..] => *first,
        [] => 0,
    }
}

/// Whether this byte is in a text.
pub fn has_byte(byte: u8, text: &[u8]) -> bool
    ensures { result ≡ has_byte byte text.now }
{
    text.iter().any(|other| *other == byte)
}

/// Whether each byte of a text is this one.
pub fn is_made_of(byte: u8, text: &[u8]) -> bool
    ensures { result ≡ is_made_of byte text.now }
{
    text.iter().all(|other| *other == byte)
}

pub fn ends_with(text: &str, part: &str) -> bool
    ensures { result ≡ ends_with nat_eq text.now part.now }
{
    text.ends_with(part)
}

/// The text without this end, if it has it.
pub fn without_end<'t>(text: &'t str, end: &str) -> Option<&'t str>
    ensures { MatchOption result (ends_with nat_eq text.now end.now ≡ false)
        (λ front. (ends_with nat_eq text.now end.now ≡ true)
        × (front.now ≡ take (length text.now - length end.now) text.now)) }
{
    text.strip_suffix(end)
}

/// Whether a part stands in a text. Its first byte, which is quickly told, is looked for first.
pub fn contains(text: &str, part: &str) -> bool
    ensures { result ≡ contains part.now text.now }
{
    match part.as_bytes() {
        [first, ..] => has_byte(*first, text.as_bytes()) && text.contains(part),
        [] => true,
    }
}
