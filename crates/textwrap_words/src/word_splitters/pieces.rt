//! The pieces that a word is split into.
ghost use Rattle.std.specs.Prelude.{◌≡◌, ◌<◌, ◌≤◌, [], ◌++◌, map, slice_range, OnOk, IsCharBoundary};
ghost use Rattle.textwrap_words.specs.Cuts.{AreCuts};
ghost use Rattle.textwrap_words.specs.WordSplitters.{cut_penalty, ends_in_hyphen, split_pieces};
ghost use Rattle.textwrap_words.specs.Words.{piece, word_view};

use crate::words::{Word, display_width};
use std::alloc::{AllocError, Allocator};

/// Adds the pieces of a word that is split at these points.
pub fn push_split<'a, A: Allocator>(
    pieces: &mut Vec<Word<'a>, A>,
    word: Word<'a>,
    points: &[usize],
) -> Result<(), AllocError>
    requires { AreCuts word.word.now points.now }
    ensures { OnOk result (map word_view pieces.new.items
        ≡ map word_view pieces.old.items ++ split_pieces points.now (word_view word.entry)) }
{
    let mut start = 0;
    for point in points {
        pieces.push(inner_piece(word.word, start, *point))?;
        start = *point;
    }
    let rest = &word.word[start..];
    pieces.push(Word {
        word: rest,
        width: display_width(rest),
        ..word
    })?;
    Ok(())
}

/// The piece of a text from one offset to another, at which it is cut.
fn inner_piece(text: &str, start: usize, point: usize) -> Word<'_>
    requires order { start ≤ point }
    requires from_cut { 0 < start → IsCharBoundary text.now start }
    requires to_cut { IsCharBoundary text.now point }
    ensures { word_view result
        ≡ piece (slice_range text.now start point) [] (cut_penalty text.now point) }
{
    let word = &text[start..point];
    Word {
        word,
        whitespace: "",
        penalty: if ends_in_hyphen(&text[..point]) {
            ""
        } else {
            "-"
        },
        width: display_width(word),
    }
}

/// Whether the text ends in a hyphen.
fn ends_in_hyphen(text: &str) -> bool
    ensures { result ≡ ends_in_hyphen text.now }
{
    text.as_bytes().last().is_some_and(|byte| *byte == b'-')
}
