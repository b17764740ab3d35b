//! The words of a line that is cut at given offsets of its visible text.
ghost use Rattle.std.specs.Prelude.{◌≡◌, ◌==◌, map, All, IfOk, IsCharBoundary};
ghost use Rattle.std.specs.List.{list_any};
ghost use Rattle.std.specs.List.Sorted.{IsStrictlyIncreasing};
ghost use Rattle.textwrap_text.specs.Units.{stripped};
ghost use Rattle.textwrap_words.specs.Words.{word_view, Tiles};
ghost use Rattle.textwrap_words.specs.WordOffsets.{is_cut_after, cuts_at, words_at};

use super::words::words_between;
use crate::words::Word;
use std::alloc::{AllocError, Allocator};
use textwrap_text::characters::Characters;
use textwrap_text::widths::visible_len;

/// The words of a line that is cut at these offsets, in order.
///
/// The offsets are those at which the line may be broken, as a line segmenter gives them. They
/// count the bytes of the line without its escape sequences (ECMA-48), as
/// `strip_ansi_escape_sequences` leaves it: they increase, and each is 0, a character boundary
/// or the end. At an offset the line is cut directly after the visible character that ends there,
/// so that an escape sequence at this place belongs to the next word. The words, with their
/// whitespace, are the line.
///
/// The line is not cut at its ends, nor directly after a hyphen `-` or a soft hyphen (U+00AD),
/// which are left to a word splitter. `"foo-bar baz"` at 4, 8 and 11 has the words `"foo-bar "` and
/// `"baz"`. An empty line has none.
///
/// # Errors
/// [`AllocError`] where memory runs out.
pub fn find_words_at<'a, A: Allocator + Copy>(
    alloc: A,
    line: &'a str,
    offsets: &[usize],
) -> Result<Vec<Word<'a>, A>, AllocError>
    requires increasing { IsStrictlyIncreasing offsets.now }
    requires boundaries { All (IsCharBoundary (stripped line.now)) offsets.now }
    ensures words { IfOk result (λ words. map word_view words.items
        ≡ words_at offsets.now line.now) }
    ensures tiles { IfOk result (λ words. Tiles (map word_view words.items) line.now) }
{
    let cuts = find_cuts(alloc, line, offsets)?;
    words_between(alloc, line, &cuts)
}

/// The offsets in the line itself at which it is cut.
fn find_cuts<A: Allocator>(
    alloc: A,
    line: &str,
    offsets: &[usize],
) -> Result<Vec<usize, A>, AllocError>
    requires { IsStrictlyIncreasing offsets.now }
    ensures { IfOk result (λ cuts. cuts.items ≡ cuts_at offsets.now line.now) }
{
    let total = visible_len(line);
    let mut cuts = Vec::new(alloc);
    let mut shown = 0;
    for character in Characters::of(line) {
        if character.is_visible {
            let len = character.ch.len_utf8();
            shown += len;
            if is_cut_after(character.ch, shown, total, offsets) {
                cuts.push(character.at + len)?;
            }
        }
    }
    Ok(cuts)
}

/// Whether the line is cut after a visible character, which ends after `shown` of the `total` bytes
/// of the visible text.
fn is_cut_after(ch: char, shown: usize, total: usize, offsets: &[usize]) -> bool
    requires { IsStrictlyIncreasing offsets.now }
    ensures { result ≡ is_cut_after offsets.now total ch shown }
{
    ch != '-' && ch != '\u{ad}' && shown < total && is_among(shown, offsets)
}

/// Whether this is one of the increasing offsets.
fn is_among(shown: usize, offsets: &[usize]) -> bool
    requires { IsStrictlyIncreasing offsets.now }
    ensures { result ≡ list_any (λ offset. offset == shown) offsets.now }
{
    offsets.binary_search(&shown).is_ok()
}
