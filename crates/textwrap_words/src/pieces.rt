//! The pieces of a text by where they stand in it, without a list of words.
ghost use Rattle.std.specs.Prelude.{◌≡◌, ℕ, ◌+◌, ◌<◌, ◌≤◌, true, false, ◌++◌, [], length};
ghost use Rattle.std.specs.Prelude.{slice_index, nat_lt, ◌&&◌, ◌∷◌, if◌then◌else◌, IsCharBoundary};
ghost use Rattle.textwrap_text.specs.Blanks.{is_blank};
ghost use Rattle.textwrap_words.specs.Breaking.{broken_words};
ghost use Rattle.textwrap_words.specs.PieceCuts.{is_point, pieces_from_place};
ghost use Rattle.textwrap_words.specs.Pieces.{as_splitter, stand_from, empty_front};
ghost use Rattle.textwrap_words.specs.Pieces.{is_stop, IsFirstStop, IsFirstWord, IsLetter};
ghost use Rattle.textwrap_words.specs.WordSplitters.{split_words};
ghost use Rattle.textwrap_words.specs.Words.{words_of};

use crate::word_splitters::hyphens::is_hyphen_point;
use textwrap_text::blanks::blanks_end;
use textwrap_text::characters::columns;
use textwrap_text::escapes::State;

/// Where a piece of a text stands. It begins where the one before it ends.
#[derive(Clone, Copy, Debug)]
pub struct Piece {
    /// Where its word ends.
    pub word_end: usize,
    /// Where the whitespace after that ends.
    pub end: usize,
    /// The columns of its word.
    pub width: usize,
}

/// A built-in splitter: a [`WordSplitter`](crate::word_splitters::WordSplitter) that is no function of
/// a caller.
#[derive(Clone, Copy, Debug)]
pub enum BuiltInSplitter {
    /// Words are not split.
    NoHyphenation,
    /// They are split after each hyphen between alphanumeric characters.
    HyphenSplitter,
}

/// The pieces of a text, one after another: its words, split, and broken where they are wider than a
/// limit.
#[derive(Debug, Drop)]
pub struct Pieces<'t> {
    text: &'t str,
    /// Where the next piece begins.
    at: usize,
    limit: usize,
    splitter: BuiltInSplitter,
    /// Whether a piece without text stands before the words.
    has_front: bool,
    ghost boundary: { IsCharBoundary text.now at },
}

impl<'t> Pieces<'t> {
    ghost use Rattle.textwrap_words.specs.PiecesLeft.{standing_left};

    /// The pieces of a text, after one without text where `has_front` says so. Words are split as
    /// the splitter says, and broken where they have more columns than the limit.
    pub fn of(text: &'t str, limit: usize, splitter: BuiltInSplitter, has_front: bool) -> Pieces<'t>
        ensures { standing_left result ≡ stand_from 0 ((if has_front then empty_front else [])
            ++ broken_words limit (split_words (as_splitter splitter) (words_of text.now))) }
    {
        Pieces {
            text,
            at: 0,
            limit,
            splitter,
            has_front,
        }
    }
}

impl<'t> Iterator for Pieces<'t> {
    ghost use Rattle.std.specs.Iterator.{YieldsFirstBy, item_count};
    ghost use Rattle.textwrap_words.specs.PiecesLeft.{standing_left};

    type Item = Piece;

    ghost next_gives = { YieldsFirstBy (λ piece. piece) standing_left };

    ghost remaining = { item_count standing_left };

    fn next(&mut self) -> Option<Piece> {
        if self.has_front {
            self.has_front = false;
            return Some(Piece {
                word_end: self.at,
                end: self.at,
                width: 0,
            });
        }
        if self.at == self.text.as_bytes().len() {
            return None;
        }
        let piece = next_piece(self.text, self.at, self.limit, self.splitter);
        self.at = piece.end;
        Some(piece)
    }
}

/// The piece of a text that begins at a place.
pub fn next_piece(text: &str, at: usize, limit: usize, splitter: BuiltInSplitter) -> Piece
    requires boundary { IsCharBoundary text.now at }
    requires inside { at < length text.now }
    ensures boundary { IsCharBoundary text.now result.end }
    ensures first { stand_from at (pieces_from_place (as_splitter splitter) limit text.now at)
        ≡ result ∷ stand_from result.end
        (pieces_from_place (as_splitter splitter) limit text.now result.end) }
{
    let (word_end, width) = first_word(text, at, limit, splitter);
    Piece {
        word_end,
        end: blanks_end(text.as_bytes(), word_end),
        width,
    }
}

/// Where the word of the piece ends that begins at a place, and its columns.
fn first_word(text: &str, at: usize, limit: usize, splitter: BuiltInSplitter) -> (usize, usize)
    requires boundary { IsCharBoundary text.now at }
    requires inside { at < length text.now }
    ensures { IsFirstWord (as_splitter splitter) limit text.now at result.0 result.1 }
{
    let bytes = text.as_bytes();
    let width = letters_len(bytes, at, limit);
    let start = at + width;
    // Most words end so, and no character has to be decoded for them.
    if start < bytes.len() && bytes[start] == b' ' {
        return (start, width);
    }
    read_on(text, at, width, text.len(), limit, splitter, true)
}

/// Where the first piece from a place on stops, which begins with so many letters, and its columns: at
/// a point of the splitter, before a blank where it ends at these, or before it is too wide.
#[inline(always)]
pub(crate) fn read_on(
    text: &str,
    at: usize,
    letters: usize,
    end: usize,
    limit: usize,
    splitter: BuiltInSplitter,
    at_blanks: bool,
) -> (usize, usize)
    requires boundary { IsCharBoundary text.now at }
    requires end { IsCharBoundary text.now end }
    requires within { at + letters ≤ end }
    requires most { letters ≤ limit }
    requires letters { (k : ℕ) → k < letters → IsLetter (slice_index text.now (at + k)) }
    requires other { at_blanks ≡ true → at < end → is_blank (slice_index text.now at) ≡ false }
    ensures { IsFirstStop (is_stop at_blanks (as_splitter splitter) text.now) limit text.now at end
        result.0 result.1 }
{
    let start = at + letters;
    let mut width = letters;
    let mut state = State::Text;
    for (after, ch) in text[start..end].char_indices() {
        let place = start + after;
        if at_blanks && ch == ' ' {
            return (place, width);
        }
        let (next, is_visible) = state.step(ch);
        if is_visible {
            let columns = columns(ch);
            if width > 0 && width + columns > limit {
                return (place, width);
            }
            width += columns;
        }
        state = next;
        if ch == '-' && is_point(text, place + 1, splitter) {
            return (place + 1, width);
        }
    }
    (end, width)
}

/// How many letters stand from a place on, at most so many. A letter is printable ASCII, and neither
/// a blank nor a hyphen.
pub(crate) fn letters_len(text: &[u8], at: usize, most: usize) -> usize
    requires { at ≤ length text.now }
    ensures within { at + result ≤ length text.now }
    ensures most { result ≤ most }
    ensures letters { (k : ℕ) → k < result → IsLetter (slice_index text.now (at + k)) }
{
    let last = text.len().min(at.saturating_add(most));
    let mut end = at;
    while end < last && text[end] > b' ' && text[end] <= b'~' && text[end] != b'-' {
        end += 1;
    }
    end - at
}

/// Whether a text is split at a place, after a hyphen.
fn is_point(text: &str, place: usize, splitter: BuiltInSplitter) -> bool
    requires { 0 < place }
    ensures { result ≡ (nat_lt place (length text.now)
        && is_point (as_splitter splitter) text.now place) }
{
    match splitter {
        BuiltInSplitter::NoHyphenation => false,
        BuiltInSplitter::HyphenSplitter => place < text.len() && is_hyphen_point(text, place),
    }
}
