//! Breaking words that are too wide for a line.
ghost use Rattle.std.specs.Prelude.{◌≡◌, ◌≢◌, true, List, [], ◌∷◌, take, drop, map, IfOk, OnOk, ◌++◌};
ghost use Rattle.std.specs.Prelude.{IsCharBoundary, IsUtf8};
ghost use Rattle.std.specs.Iterator.{IsFiniteIterable, Drains};
ghost use Rattle.textwrap_words.specs.Breaking.{broken_texts, broken_word, broken_words};
ghost use Rattle.textwrap_text.specs.Units.{text_width};
ghost use Rattle.textwrap_words.specs.Words.{word_view};

use super::Word;
use std::alloc::{AllocError, Allocator};
use textwrap_text::characters::columns;
use textwrap_text::escapes::State;

/// An iterator over the pieces of a word, made by `Word::break_apart`. It gives them in order and
/// needs no memory, and after the last piece it returns `None` each time: for `"Hello!  "` at 3
/// columns, `"Hel"`, `"lo!  "`, and then `None`.
#[derive(Clone, Debug, Drop)]
pub struct BreakApart<'a> {
    /// The part of the word that is still to be broken. Its `width` is not read.
    rest: Word<'a>,
    line_width: usize,
}

impl<'a> Word<'a> {
    ghost use Rattle.textwrap_words.specs.Breaking.{broken_pieces, pieces_left};

    /// Breaks the word into pieces that fit into `line_width` columns. Each piece takes what fits;
    /// it is wider than the line only where it has a single character with columns and that one is.
    /// No hyphen is added, no escape sequence (ECMA-48) is cut, and a sequence at a cut belongs to
    /// the piece before it.
    ///
    /// The last piece keeps the whitespace and the penalty of the word, and the others have none:
    /// at 3 columns `"Hello!  "` becomes `"Hel"` and `"lo!  "`. A word without text has no pieces.
    /// The call always succeeds and needs no memory.
    pub fn break_apart(&self, line_width: usize) -> BreakApart<'a>
        ensures { pieces_left result ≡ broken_pieces line_width (word_view self.now) }
    {
        BreakApart {
            rest: *self,
            line_width,
        }
    }
}

impl<'a> Iterator for BreakApart<'a> {
    ghost use Rattle.std.specs.Iterator.{YieldsFirstBy, item_count};
    ghost use Rattle.textwrap_words.specs.Breaking.{pieces_left};

    type Item = Word<'a>;

    ghost next_gives = { YieldsFirstBy word_view pieces_left };

    ghost remaining = { item_count pieces_left };

    fn next(&mut self) -> Option<Word<'a>> {
        let rest = self.rest;
        if rest.word.is_empty() {
            return None;
        }
        let (len, width) = first_piece(rest.word, self.line_width);
        let (word, after) = rest.word.split_at(len);
        self.rest.word = after;
        if after.is_empty() {
            return Some(Word {
                word,
                width,
                ..rest
            });
        }
        Some(Word {
            word,
            whitespace: "",
            penalty: "",
            width,
        })
    }
}

/// The first piece of a text that is not empty: its length in bytes, and its columns.
fn first_piece(text: &str, line_width: usize) -> (usize, usize)
    requires { text.now ≢ [] }
    ensures boundary { IsCharBoundary text.now result.0 }
    ensures first { broken_texts line_width text.now
        ≡ take result.0 text.now ∷ broken_texts line_width (drop result.0 text.now) }
    ensures width { result.1 ≡ text_width (take result.0 text.now) }
    ensures rest { IsUtf8 (drop result.0 text.now) }
{
    let mut state = State::Text;
    let mut width = 0;
    for (at, ch) in text.char_indices() {
        let (next, is_visible) = state.step(ch);
        if is_visible {
            let columns = columns(ch);
            if width > 0 && width + columns > line_width {
                return (at, width);
            }
            width += columns;
        }
        state = next;
    }
    (text.len(), width)
}

/// Replaces each word whose field `width` is above `line_width` columns by its pieces, those of
/// `Word::break_apart`, and keeps the other words: at 2 columns `"ab "` and `"cdef "` become
/// `"ab "`, `"cd"` and `"ef "`. The iterator has to end.
///
/// # Errors
/// Only where it is out of memory for the list.
pub fn break_words<'a, A: Allocator + Copy, I: IntoIterator<Item = Word<'a>>>(
    alloc: A,
    words: I,
    line_width: usize,
) -> Result<Vec<Word<'a>, A>, AllocError>
    requires ends { IsFiniteIterable I.into_iter_gives
        I.IntoIter.can_next I.IntoIter.remaining words }
    ensures pieces { IfOk result (λ pieces. (it : I.IntoIter) × (given : List Word)
        × I.into_iter_gives words it × Drains I.IntoIter.next_gives it given
        × (map word_view pieces.items ≡ broken_words line_width (map word_view given))) }
{
    let mut pieces = Vec::new(alloc);
    for word in words {
        push_broken(&mut pieces, word, line_width)?;
    }
    Ok(pieces)
}

/// Whether no word is wider than the line, so that [`break_words`] gives the words as they are: those of
/// `"ab cd"` at 2 columns. The call always succeeds.
pub fn stay_whole(words: &[Word<'_>], line_width: usize) -> bool
    ensures { result ≡ true → broken_words line_width (map word_view words.now)
        ≡ map word_view words.now }
{
    for word in words {
        if word.width > line_width {
            return false;
        }
    }
    true
}

/// Appends a word, or its pieces where it is wider than the line.
///
/// # Errors
/// [`AllocError`] where memory runs out.
pub fn push_broken<'a, A: Allocator>(
    pieces: &mut Vec<Word<'a>, A>,
    word: Word<'a>,
    line_width: usize,
) -> Result<(), AllocError>
    ensures { OnOk result (map word_view pieces.new.items
        ≡ map word_view pieces.old.items ++ broken_word line_width (word_view word.entry)) }
{
    if word.width <= line_width {
        pieces.push(word)?;
        return Ok(());
    }
    for piece in word.break_apart(line_width) {
        pieces.push(piece)?;
    }
    Ok(())
}
