//! Lines by first fit that are found word by word. A word is asked for its points only where it has no
//! room as a whole: else no line ends in it.
ghost use Rattle.std.specs.Prelude.{◌≡◌, ◌+◌, ◌^◌, ◌<◌, ◌≤◌, ℕ, List, [], ◌∷◌, ◌++◌, drop, length, map};
ghost use Rattle.std.specs.Prelude.{◌↔◌, ◌≢◌, false, IfOk, IsCharBoundary, IsTrue, OnOk};
ghost use Rattle.textwrap_text.specs.Units.{IsPrintable};
ghost use Rattle.textwrap_words.specs.Words.{WordText, tiled, word_view};
ghost use Rattle.textwrap_layout.specs.Direct.{HasInnerPoints, TakesWhatFits};
ghost use Rattle.textwrap_layout.specs.Frame.{frame_lines, frame_settings};
ghost use Rattle.textwrap_layout.specs.Layout.{front_of};
ghost use Rattle.textwrap_layout.specs.LineSinks.{Pushed};
ghost use Rattle.textwrap_layout.specs.Paragraph.{DividesWith};

use crate::wrapping::push_line;
use std::alloc::{AllocError, Allocator};
use textwrap_layout::frame::Frame;
use textwrap_layout::line_sinks::LineSink;
use textwrap_layout::parts::Parts;
use textwrap_layout::pieces::{find_words, pieces_of_word};
use textwrap_text::printable::is_printable;
use textwrap_words::words::Word;

/// The line that takes the next word. Its words stand in a list beside it.
#[derive(Clone, Copy)]
pub(crate) struct WordLine {
    /// Where it begins in the paragraph.
    pub(crate) start: usize,
    /// The columns that it is divided for.
    width: usize,
    /// Whether a line stands before it.
    pub(crate) is_later: bool,
    /// The columns of its words and of all their whitespace.
    columns: u128,
}

/// Pushes the lines of a paragraph by first fit, where each word is known to have points.
///
/// # Errors
/// [`AllocError`] where memory runs out, or a function of the caller says so.
pub(crate) fn push_word_by_word<'t, A: Allocator + Copy, S: LineSink<'t, A>, P: Parts<A>>(
    alloc: A,
    paragraph: &'t str,
    parts: &P,
    frame: &Frame<'_>,
    lines: &mut S,
) -> Result<(), AllocError>
    requires fit { TakesWhatFits (P.may parts.now).Lines }
    requires points { HasInnerPoints (P.may parts.now).Points }
    ensures name { S.name lines.new ≡ S.name lines.old }
    ensures taken { OnOk result ((division : List (List WordText))
        × DividesWith (P.may parts.now) (frame_settings frame.now)
        frame.now.is_later paragraph.now division
        × Pushed S.holds lines.old lines.new (frame_lines frame.now division)) }
{
    let words = find_words(alloc, paragraph, parts)?;
    let mut line = WordLine::first(frame);
    let mut held = words_in_front(alloc, frame)?;
    for word in &words {
        if line.has_room(word, frame.limit) {
            held.push(*word)?;
            line = line.with(word);
        } else {
            line = line.take_word(alloc, paragraph, word, parts, frame, &mut held, lines)?;
        }
    }
    push_line(
        alloc,
        paragraph,
        line.start,
        &held,
        &frame.layout,
        line.is_later,
        lines,
    )?;
    Ok(())
}

/// What stands on a first line before its words: where that may be the indent alone, an empty word.
pub(crate) fn words_in_front<'t, A: Allocator>(
    alloc: A,
    frame: &Frame<'_>,
) -> Result<Vec<Word<'t>, A>, AllocError>
    ensures { IfOk result (λ held. map word_view held.items ≡ front_of (frame_settings frame.now)) }
{
    let mut held = Vec::new(alloc);
    if frame.has_front {
        held.push(Word::from(""))?;
    }
    Ok(held)
}

impl WordLine {
    ghost use Rattle.textwrap_layout.specs.Paragraph.{broken_split};
    ghost use Rattle.textwrap_lines.specs.WordLines.{AreOn, GoesOnBehind, after_line, with_word};
    ghost use Rattle.std.specs.Io.{StartsWith};
    ghost use Rattle.textwrap_text.specs.Blanks.{blank};
    ghost use Rattle.textwrap_layout.specs.Paragraph.{later_width, parts_of};
    ghost use Rattle.textwrap_layout.specs.Places.{cut_lines};
    ghost use Rattle.textwrap_words.proofs.Word.Words.{IsMeasured};
    ghost use Rattle.textwrap_words.specs.WordSplitters.{split_pieces};

    /// The first line of a paragraph, before it takes a word.
    pub(crate) fn first(frame: &Frame<'_>) -> WordLine
        ensures start { result.start ≡ 0 }
        ensures width { result.width ≡ frame.now.first_columns }
        ensures later { result.is_later ≡ frame.now.is_later }
        ensures columns { result.columns ≡ 0 }
    {
        WordLine {
            start: 0,
            width: frame.first_columns,
            is_later: frame.is_later,
            columns: 0,
        }
    }

    /// The columns that words may take on it, no more than the limit.
    pub(crate) fn room(&self, limit: usize) -> usize
        ensures limit { result ≤ limit }
        ensures fits { 0 < result → self.now.columns + result ≤ self.now.width }
        ensures small { 0 < result → self.now.columns < 2 ^ 64 }
    {
        if self.columns >= self.width as u128 {
            return 0;
        }
        limit.min(self.width - self.columns as usize)
    }

    /// Takes a word by its pieces, one after another. Returns the line that is open behind it.
    ///
    /// # Errors
    /// [`AllocError`] where memory runs out, or a function of the caller says so.
    pub(crate) fn take_word<'t, A: Allocator + Copy, S: LineSink<'t, A>, P: Parts<A>>(
        self,
        alloc: A,
        paragraph: &'t str,
        word: &Word<'t>,
        parts: &P,
        frame: &Frame<'_>,
        held: &mut Vec<Word<'t>, A>,
        lines: &mut S,
    ) -> Result<WordLine, AllocError>
        requires word { IsMeasured (word_view word.now) }
        requires small { self.columns < 2 ^ 66 }
        requires on { (on : List WordText) × AreOn self (map word_view held.old.items) on }
        requires begins { IsCharBoundary paragraph.now self.start }
        requires seam { (rest : List ℕ) × (drop self.start paragraph.now
            ≡ tiled (map word_view held.old.items) ++ tiled (word_view word.now ∷ []) ++ rest) }
        ensures name { S.name lines.new ≡ S.name lines.old }
        ensures small { IfOk result (λ next. next.columns < 2 ^ 66) }
        ensures begins { IfOk result (λ next. IsCharBoundary paragraph.now next.start) }
        ensures seam { IfOk result (λ next. (rest : List ℕ) → drop self.start paragraph.now
            ≡ tiled (map word_view held.old.items) ++ tiled (word_view word.now ∷ []) ++ rest
            → drop next.start paragraph.now ≡ tiled (map word_view held.new.items) ++ rest) }
        ensures lines { IfOk result (λ next. (points : List ℕ)
            × (P.may parts.now).Points word.now.word.now points
            × GoesOnBehind S.holds (frame_settings frame.now) self (map word_view held.old.items)
            lines.old (broken_split (frame_settings frame.now) (split_pieces points (word_view word.now)))
            next (map word_view held.new.items) lines.new) }
    {
        let pieces = pieces_of_word(alloc, *word, parts, frame)?;
        self.take_pieces(alloc, paragraph, &pieces, frame, held, lines)
    }

    /// Takes pieces, one after another, and returns the line that is open behind them.
    ///
    /// # Errors
    /// [`AllocError`] where memory runs out.
    fn take_pieces<'t, A: Allocator + Copy, S: LineSink<'t, A>>(
        self,
        alloc: A,
        paragraph: &'t str,
        pieces: &[Word<'t>],
        frame: &Frame<'_>,
        held: &mut Vec<Word<'t>, A>,
        lines: &mut S,
    ) -> Result<WordLine, AllocError>
        requires small { self.columns < 2 ^ 66 }
        requires on { (on : List WordText) × AreOn self (map word_view held.old.items) on }
        requires begins { IsCharBoundary paragraph.now self.start }
        requires seam { (rest : List ℕ) × (drop self.start paragraph.now
            ≡ tiled (map word_view held.old.items) ++ tiled (map word_view pieces.now) ++ rest) }
        ensures name { S.name lines.new ≡ S.name lines.old }
        ensures small { IfOk result (λ next. next.columns < 2 ^ 66) }
        ensures begins { IfOk result (λ next. IsCharBoundary paragraph.now next.start) }
        ensures seam { IfOk result (λ next. (rest : List ℕ) → drop self.start paragraph.now
            ≡ tiled (map word_view held.old.items) ++ tiled (map word_view pieces.now) ++ rest
            → drop next.start paragraph.now ≡ tiled (map word_view held.new.items) ++ rest) }
        ensures lines { IfOk result (λ next. GoesOnBehind S.holds (frame_settings frame.now)
            self (map word_view held.old.items) lines.old (map word_view pieces.now)
            next (map word_view held.new.items) lines.new) }
    {
        let mut next = self;
        for piece in pieces {
            next = next.take_piece(alloc, paragraph, piece, frame, held, lines)?;
        }
        Ok(next)
    }

    /// Takes one piece. A line that has no room for it is pushed, and the piece begins the next one.
    ///
    /// # Errors
    /// [`AllocError`] where memory runs out.
    fn take_piece<'t, A: Allocator + Copy, S: LineSink<'t, A>>(
        self,
        alloc: A,
        paragraph: &'t str,
        piece: &Word<'t>,
        frame: &Frame<'_>,
        held: &mut Vec<Word<'t>, A>,
        lines: &mut S,
    ) -> Result<WordLine, AllocError>
        requires small { self.columns < 2 ^ 66 }
        requires on { (on : List WordText) × AreOn self (map word_view held.old.items) on }
        requires begins { IsCharBoundary paragraph.now self.start }
        requires seam { (rest : List ℕ) × (drop self.start paragraph.now
            ≡ tiled (map word_view held.old.items) ++ tiled (word_view piece.now ∷ []) ++ rest) }
        ensures name { S.name lines.new ≡ S.name lines.old }
        ensures small { IfOk result (λ next. next.columns < 2 ^ 66) }
        ensures begins { IfOk result (λ next. IsCharBoundary paragraph.now next.start) }
        ensures seam { IfOk result (λ next. (rest : List ℕ) → drop self.start paragraph.now
            ≡ tiled (map word_view held.old.items) ++ tiled (word_view piece.now ∷ []) ++ rest
            → drop next.start paragraph.now ≡ tiled (map word_view held.new.items) ++ rest) }
        ensures lines { IfOk result (λ next. GoesOnBehind S.holds (frame_settings frame.now)
            self (map word_view held.old.items) lines.old (word_view piece.now ∷ [])
            next (map word_view held.new.items) lines.new) }
    {
        if !held.is_empty() && self.is_past(piece) {
            let next = self.close(alloc, paragraph, frame, held, lines)?;
            held.push(*piece)?;
            return Ok(next.with(piece));
        }
        held.push(*piece)?;
        Ok(self.with(piece))
    }

    /// Pushes the line, and returns the next one, which has no word yet.
    ///
    /// # Errors
    /// [`AllocError`] where memory runs out.
    pub(crate) fn close<'t, A: Allocator + Copy, S: LineSink<'t, A>>(
        self,
        alloc: A,
        paragraph: &'t str,
        frame: &Frame<'_>,
        held: &mut Vec<Word<'t>, A>,
        lines: &mut S,
    ) -> Result<WordLine, AllocError>
        requires begins { IsCharBoundary paragraph.now self.start }
        requires tiles { StartsWith (drop self.start paragraph.now) (tiled (map word_view held.old.items)) }
        ensures name { S.name lines.new ≡ S.name lines.old }
        ensures emptied { IfOk result (λ next. held.new.items ≡ []) }
        ensures next { IfOk result (λ next. next ≡ after_line (later_width (frame_settings frame.now))
            self (map word_view held.old.items)) }
        ensures begins { IfOk result (λ next. IsCharBoundary paragraph.now next.start) }
        ensures pushed { OnOk result (Pushed S.holds lines.old lines.new (cut_lines self.start
            (parts_of (frame_settings frame.now) self.is_later (map word_view held.old.items) ∷ []))) }
    {
        let start = push_line(
            alloc,
            paragraph,
            self.start,
            held,
            &frame.layout,
            self.is_later,
            lines,
        )?;
        held.clear();
        Ok(WordLine {
            start,
            width: frame.later_columns,
            is_later: true,
            columns: 0,
        })
    }

    /// Whether the next word is known to begin another line: where that word takes columns, of which
    /// this line has none left.
    pub(crate) fn ends_before(&self, next: u8, held: &[Word<'_>], frame: &Frame<'_>) -> bool
        ensures word { IsTrue result → next ≢ blank }
        ensures full { IsTrue result → self.now.width ≤ self.now.columns }
        ensures some { IsTrue result → 0 < length held.now }
        ensures room { IsTrue result → 1 < frame.now.later_columns }
    {
        next != b' '
            && self.columns >= self.width as u128
            && !held.is_empty()
            && frame.later_columns > 1
    }

    /// Whether the line has no room for a piece.
    fn is_past(&self, piece: &Word<'_>) -> bool
        requires { self.now.columns < 2 ^ 66 }
        ensures past { IsTrue result ↔ self.now.width
            < self.now.columns + piece.now.width + length piece.now.penalty.now }
        ensures small { result ≡ false → self.now.columns < 2 ^ 64 }
    {
        let closed = self.columns + piece.width as u128 + piece.penalty.len() as u128;
        closed > self.width as u128
    }

    /// Whether a word is printable and no wider than that, and has room as a whole.
    fn has_room(&self, word: &Word<'_>, limit: usize) -> bool
        requires { self.now.columns < 2 ^ 66 }
        ensures fits { IsTrue result → self.now.columns + word.now.width ≤ self.now.width }
        ensures narrow { IsTrue result → word.now.width ≤ limit }
        ensures printable { IsTrue result → IsPrintable word.now.word.now }
        ensures small { IsTrue result → self.now.columns < 2 ^ 64 }
    {
        self.columns + word.width as u128 <= self.width as u128
            && word.width <= limit
            && is_printable(word.word.as_bytes())
    }

    /// The line with one more piece.
    pub(crate) fn with(self, piece: &Word<'_>) -> WordLine
        requires { self.columns < 2 ^ 64 }
        ensures more { result ≡ with_word self (word_view piece.now) }
        ensures small { result.columns < 2 ^ 66 }
    {
        WordLine {
            start: self.start,
            width: self.width,
            is_later: self.is_later,
            columns: self.columns + (piece.width as u128 + piece.whitespace.len() as u128),
        }
    }
}
