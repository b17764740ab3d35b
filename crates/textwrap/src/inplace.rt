//! Filling in place: blanks of the text become line feeds.
ghost use Rattle.std.specs.Prelude.{◌≡◌, ◌+◌, ◌<◌, ◌++◌, List, ◌∷◌, [], length, All};
ghost use Rattle.std.specs.Prelude.{string_bytes, IfOk, IsOk, OnOk, OnErr};
ghost use Rattle.textwrap_base.specs.Division.{IsGreedy};
ghost use Rattle.textwrap_words.specs.Words.{WordText, sizes_of, words_of};
ghost use Rattle.textwrap.specs.InPlace.{IsFilledInPlace, OnlyBlanksChange, AreDividedAt};
ghost use Rattle.textwrap.specs.InPlace.{FitsOneLine, breaks_from, breaks_of, with_line_feeds};
ghost use Rattle.textwrap_text.specs.LineEnding.{paragraphs_of};
ghost use Rattle.textwrap_layout.specs.Paragraph.{text_limit};
ghost use Rattle.textwrap_text.specs.declared.line_ending.LineEnding.TheVariants.{LF};

use crate::words::Fragment;
use std::alloc::{AllocError, Allocator};
use std::mem;
use textwrap_lines::LineEnding;
use textwrap_lines::parts::split_paragraph;
use textwrap_words::inner::words_at_blanks;

/// Fills a text in its own place: a blank before each new line becomes a line feed.
///
/// At 10 columns `foo  bar    baz` becomes `foo  bar   `, a line feed and `baz`. Each part, the
/// text between two line feeds, is filled by itself: its words, cut at blanks and never split or
/// broken, are divided by first fit. Every line of a part but its last ends in a blank, and this
/// blank is turned into the line feed. All other bytes stay, so the length stays too.
///
/// The new lines, without the blanks at their ends, are those of `wrap` by first fit with words
/// kept whole (`laws::filled_in_place_is_wrapped`).
///
/// Memory is needed for the offsets of the blanks that change.
///
/// # Errors
/// [`AllocError`] where memory runs out. Then the text is as it was. A text that stays as it is
/// needs no memory, and the call succeeds.
pub fn fill_inplace<A: Allocator + Copy>(
    alloc: A,
    text: &mut String<A>,
    width: usize,
) -> Result<(), AllocError>
    // By each part's words, divided greedily, the text has its line feeds.
    ensures filled { OnOk result (IsFilledInPlace width (string_bytes text.old)
        (string_bytes text.new)) }
    ensures len { length (string_bytes text.new) ≡ length (string_bytes text.old) }
    ensures only_blanks { OnlyBlanksChange (string_bytes text.old) (string_bytes text.new) }
    ensures unchanged { OnErr result (text.new ≡ text.old) }
    ensures succeeds { IsFilledInPlace width (string_bytes text.old) (string_bytes text.old)
        → IsOk result }
{
    let breaks = find_breaks(alloc, text.as_str(), width)?;
    let mut bytes = mem::replace(text, String::new(alloc)).into_bytes();
    put_line_feeds(&mut bytes, &breaks);
    match String::from_utf8(bytes) {
        Ok(filled) => *text = filled,
        // A line feed in the place of a blank keeps a text in UTF-8.
        Err(_) => unreachable!(),
    }
    Ok(())
}

/// The offset of each blank of the text that becomes a line feed.
fn find_breaks<A: Allocator>(
    alloc: A,
    text: &str,
    width: usize,
) -> Result<Vec<usize, A>, AllocError>
    ensures breaks { IfOk result (λ breaks. (divisions : List (List (List WordText)))
        × AreDividedAt width (paragraphs_of LF text.now) divisions
        × (breaks.items ≡ breaks_from 0 divisions)) }
    ensures succeeds { All (FitsOneLine width) (paragraphs_of LF text.now) → IsOk result }
{
    let mut breaks = Vec::new(alloc);
    let mut start = 0;
    let mut rest = Some(text);
    while let Some(text) = rest {
        let (part, after) = split_paragraph(text, LineEnding::LF);
        push_breaks(part, start, width, &mut breaks)?;
        start += part.len() + 1;
        rest = after;
    }
    Ok(breaks)
}

/// Adds the offsets within a part, which begins at the offset `start` of the text.
fn push_breaks<A: Allocator>(
    part: &str,
    start: usize,
    width: usize,
    breaks: &mut Vec<usize, A>,
) -> Result<(), AllocError>
    requires { start < text_limit }
    ensures breaks { OnOk result ((division : List (List WordText))
        × IsGreedy sizes_of (width ∷ []) (words_of part.now) division
        × (breaks.new.items ≡ breaks.old.items ++ breaks_of start division)) }
    ensures succeeds { FitsOneLine width part.now → IsOk result }
{
    let mut line_start = start;
    let mut end = start;
    let mut open_width = 0u128;
    for word in words_at_blanks::<A>(part) {
        let word_width = word.width() as u128;
        if line_start < end && open_width + word_width > width as u128 {
            breaks.push(end - 1)?;
            line_start = end;
            open_width = 0;
        }
        end += word.word.len() + word.whitespace.len();
        open_width += word_width + word.whitespace.len() as u128;
    }
    Ok(())
}

/// Writes a line feed in each of these places.
fn put_line_feeds(bytes: &mut [u8], places: &[usize])
    requires { All (λ place. place < length bytes.now) places.now }
    ensures { bytes.new ≡ with_line_feeds places.now bytes.old }
{
    for place in places {
        bytes[*place] = b'\n';
    }
}
