//! Lines by first fit of a printable paragraph, one of printable ASCII alone, where words have points.
//! The words that a line has room for are taken at once, as one; a word that it has no room for is
//! asked for its points.
ghost use Rattle.std.specs.Prelude.{◌≡◌, ◌+◌, ◌-◌, ◌<◌, ◌≤◌, List, false, length, map, slice_range, true};
ghost use Rattle.std.specs.Prelude.{OnOk};
ghost use Rattle.textwrap_text.specs.Blanks.{trimmed_len};
ghost use Rattle.textwrap_text.specs.Units.{IsPrintable};
ghost use Rattle.textwrap_words.specs.PieceCuts.{parts_by};
ghost use Rattle.textwrap_words.specs.Words.{WordText, word_of};
ghost use Rattle.textwrap_layout.specs.Direct.{HasInnerPoints, TakesWhatFits};
ghost use Rattle.textwrap_layout.specs.Frame.{frame_lines, frame_settings};
ghost use Rattle.textwrap_layout.specs.LineSinks.{Pushed};
ghost use Rattle.textwrap_layout.specs.Paragraph.{DividesWith};
ghost use Rattle.textwrap_layout.specs.Printable.{NoCutBetween};

use crate::printable::{last_cut, next_cut};
use crate::word_lines::{WordLine, push_word_by_word, words_in_front};
use crate::wrapping::push_line;
use std::alloc::{AllocError, Allocator};
use textwrap_layout::frame::Frame;
use textwrap_layout::line_sinks::LineSink;
use textwrap_layout::parts::Parts;
use textwrap_layout::printable_cuts::PrintableCuts;
use textwrap_text::blanks::blanks_end;
use textwrap_text::printable::is_printable;
use textwrap_words::inner::BuiltInSplitter;
use textwrap_words::words::Word;

/// Pushes the lines of a paragraph by first fit, where each word is known to have points: by its bytes,
/// where these tell its words, and else word by word.
///
/// # Errors
/// [`AllocError`] where memory runs out, or a function of the caller says so.
pub(crate) fn push_with_points<'t, A: Allocator + Copy, S: LineSink<'t, A>, P: Parts<A>>(
    alloc: A,
    paragraph: &'t str,
    parts: &P,
    frame: &Frame<'_>,
    lines: &mut S,
) -> Result<(), AllocError>
    requires fit { TakesWhatFits (P.may parts.now).Lines }
    requires points { HasInnerPoints (P.may parts.now).Points }
    ensures name { S.name lines.new ≡ S.name lines.old }
    ensures taken { OnOk result ((division : List (List WordText))
        × DividesWith (P.may parts.now) (frame_settings frame.now)
        frame.now.is_later paragraph.now division
        × Pushed S.holds lines.old lines.new (frame_lines frame.now division)) }
{
    if is_printable(paragraph.as_bytes()) {
        if let Some(cuts) = parts.printable_cuts() {
            return push_printable_words(alloc, paragraph, parts, frame, &cuts, lines);
        }
    }
    push_word_by_word(alloc, paragraph, parts, frame, lines)
}

/// Pushes the lines of a printable paragraph whose words are told from its bytes.
///
/// # Errors
/// [`AllocError`] where memory runs out, or a function of the caller says so.
fn push_printable_words<'t, A: Allocator + Copy, C: PrintableCuts, S: LineSink<'t, A>, P: Parts<A>>(
    alloc: A,
    paragraph: &'t str,
    parts: &P,
    frame: &Frame<'_>,
    cuts: &C,
    lines: &mut S,
) -> Result<(), AllocError>
    requires printable { IsPrintable paragraph.now }
    requires words { (P.may parts.now).Words paragraph.now
        (map word_of (parts_by (C.cuts cuts.now paragraph.now) 0 paragraph.now)) }
    requires fit { TakesWhatFits (P.may parts.now).Lines }
    requires points { HasInnerPoints (P.may parts.now).Points }
    ensures name { S.name lines.new ≡ S.name lines.old }
    ensures taken { OnOk result ((division : List (List WordText))
        × DividesWith (P.may parts.now) (frame_settings frame.now)
        frame.now.is_later paragraph.now division
        × Pushed S.holds lines.old lines.new (frame_lines frame.now division)) }
{
    let text = paragraph.as_bytes();
    let mut line = WordLine::first(frame);
    let mut held = words_in_front(alloc, frame)?;
    let mut at = 0;
    while at < text.len() {
        // So the word is asked for its points only if the next line has no room for it, either.
        let ends = line.ends_before(text[at], &held, frame);
        if ends {
            line = line.close(alloc, paragraph, frame, &mut held, lines)?;
        }
        let (end, fit) = next_words(text, at, line.room(frame.limit), cuts);
        let words = Word::from(&paragraph[at..end]);
        if fit {
            held.push(words)?;
            line = line.with(&words);
        } else {
            line = line.take_word(alloc, paragraph, &words, parts, frame, &mut held, lines)?;
        }
        at = end;
    }
    push_line(
        alloc,
        paragraph,
        line.start,
        &held,
        &frame.layout,
        line.is_later,
        lines,
    )?;
    Ok(())
}

/// Where the words of a printable text end that have room from a place on, in so many columns, and
/// that they do; where the first of them has none, where it ends itself.
fn next_words<C: PrintableCuts>(text: &[u8], at: usize, room: usize, cuts: &C) -> (usize, bool)
    requires printable { IsPrintable text.now }
    requires inside { at < length text.now }
    ensures some { at < result.0 }
    ensures within { result.0 ≤ length text.now }
    ensures cut { result.0 < length text.now → C.cuts cuts.now text.now result.0 ≡ true }
    ensures room { result.1 ≡ true → 0 < room }
    ensures fit { result.1 ≡ true → trimmed_len (slice_range text.now at result.0) ≤ room }
    ensures word { result.1 ≡ false → NoCutBetween (C.cuts cuts.now text.now) at (result.0 - 1) }
{
    let whole = BuiltInSplitter::NoHyphenation;
    if room == 0 {
        return (next_cut(text, at + 1, cuts, whole), false);
    }
    if text.len() - at <= room {
        return (text.len(), true);
    }
    let limit = at + room;
    let past = blanks_end(text, limit);
    if past == text.len() || cuts.is_cut(text, past) {
        return (past, true);
    }
    let cut = last_cut(text, at, limit - 1, cuts, whole);
    if cut > at {
        return (cut, true);
    }
    (next_cut(text, limit, cuts, whole), false)
}
