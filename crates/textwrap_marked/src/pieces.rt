//! The text of a paragraph's words, where it may be cut, and the pieces between the cuts.
ghost use Rattle.std.specs.Prelude.{◌≡◌, ℕ, ◌+◌, ◌≤◌, ◌<◌, ◌^◌, ◌++◌, [], List, length, map, IfOk, OnOk};
ghost use Rattle.std.specs.Option.{option_map};
ghost use Rattle.textwrap_marked_lines.specs.Lines.{marked_line_view};
ghost use Rattle.textwrap_marked.specs.Pieces.{AreInRow, IsJoined, is_cut_behind, is_kept_together};
ghost use Rattle.textwrap_marked.specs.Pieces.{joined_view, piece_priced, piece_view, with_cut, with_next};
ghost use Rattle.textwrap_marked.specs.Pieces.{with_words, words_of_lines};
ghost use Rattle.textwrap_marks.specs.Words.{spaced_words};
ghost use Rattle.textwrap_text.specs.Blanks.{final_blanks, without_final_blanks};
ghost use Rattle.textwrap_words.specs.Cuts.{AreCuts, parts_between};
ghost use Rattle.textwrap_words.specs.Words.{sizes_of, word_of};

use std::alloc::{AllocError, Global};
use textwrap_base::inner::PrefixSums;
use textwrap_marked_lines::lines::MarkedLine;
use textwrap_marks::options::ReflowOptions;
use textwrap_marks::signs::may_go_on;
use textwrap_marks::words::SpacedWords;
use textwrap_text::blanks::split_final_blanks;
use textwrap_words::words::{Fragment, display_width};
use textwrap_words::wrap_algorithms::Penalties;

/// How many bytes a word has with its blank, at a guess.
const USUAL_LEN: usize = 6;

/// Words, each with a blank behind it, to which others are added.
#[derive(Drop)]
pub(crate) struct JoinedWords<'t> {
    pub text: String,
    /// The offsets at which a line may end.
    pub cuts: Vec<usize>,
    /// The last word: the one after it tells whether a line may end behind it.
    last: Option<&'t str>,
}

impl<'t> JoinedWords<'t> {
    /// Adds a word.
    fn push(
        &mut self,
        word: &'t str,
        starred: bool,
        options: &ReflowOptions<'_>,
    ) -> Result<(), AllocError>
        ensures { OnOk result (joined_view self.new
            ≡ with_next options.now starred (joined_view self.old) word.now) }
    {
        let is_cut = is_cut_behind(options, starred, self.last, word);
        self.push_cut(is_cut)?;
        self.text.push_str(word)?;
        self.text.push_str(" ")?;
        self.last = Some(word);
        Ok(())
    }

    /// A line may end here or not.
    fn push_cut(&mut self, is_cut: bool) -> Result<(), AllocError>
        ensures { OnOk result (joined_view self.new ≡ with_cut is_cut (joined_view self.old)) }
    {
        if is_cut {
            self.cuts.push(self.text.len())?;
        }
        Ok(())
    }

    /// Adds the words of a text.
    fn push_words(
        &mut self,
        line: &'t str,
        starred: bool,
        options: &ReflowOptions<'_>,
    ) -> Result<(), AllocError>
        ensures { OnOk result ((words : List (List ℕ))
            → with_words options.now starred (joined_view self.new) words
            ≡ with_words options.now starred (joined_view self.old)
            (map (λ w. w.word) (spaced_words line.now) ++ words)) }
    {
        for word in SpacedWords::of(line) {
            self.push(word.word, starred, options)?;
        }
        Ok(())
    }
}

/// Whether no line ends between two words.
fn is_kept_together(options: &ReflowOptions<'_>, starred: bool, word: &str, next: &str) -> bool
    ensures { result ≡ is_kept_together options.now starred word.now next.now }
{
    matches!(word.as_bytes(), [.., b'\\']) | !may_go_on(options, starred, next)
}

/// Whether a line may end behind a word, if there is one, before the next.
pub(crate) fn is_cut_behind(
    options: &ReflowOptions<'_>,
    starred: bool,
    word: Option<&str>,
    next: &str,
) -> bool
    ensures { result ≡ is_cut_behind options.now starred (option_map (λ w. w.now) word.entry)
        next.now }
{
    match word {
        Some(word) => !is_kept_together(options, starred, word, next),
        None => false,
    }
}

/// How many bytes lines have, each with its ending.
fn total_len(lines: &[MarkedLine<'_>]) -> usize {
    let mut len = 0usize;
    for line in lines {
        len = len.saturating_add(line.raw.len()).saturating_add(1);
    }
    len
}

/// The words of lines, joined.
pub(crate) fn joined_of<'t>(
    alloc: Global,
    lines: &[MarkedLine<'t>],
    starred: bool,
    options: &ReflowOptions<'_>,
) -> Result<JoinedWords<'t>, AllocError>
    ensures { IfOk result (λ joined. IsJoined options.now starred
        (words_of_lines (map marked_line_view lines.now)) (joined_view joined)) }
{
    // White stands between most words, so the room for the text is seldom too small.
    let len = total_len(lines);
    let mut joined = JoinedWords {
        text: String::with_capacity(alloc, len)?,
        cuts: Vec::with_capacity(alloc, len / USUAL_LEN)?,
        last: None,
    };
    for line in lines {
        joined.push_words(line.text, starred, options)?;
    }
    Ok(joined)
}

/// A piece of a paragraph: a word, or words that keep together, with a blank behind each. A long line
/// has millions, so no more is kept of one than that.
#[derive(Clone, Copy, Debug)]
pub(crate) struct JoinedPiece<'t> {
    pub text: &'t str,
    /// The columns of the pieces before it, with all their blanks.
    opens: usize,
    /// Those, and the columns of the text without its final blanks.
    closes: usize,
}

impl<'t> JoinedPiece<'t> {
    /// A text as a piece behind so many columns, and how many there are behind its blanks.
    fn behind(opens: usize, text: &'t str) -> (JoinedPiece<'t>, usize)
        requires { opens + length text.now < 2 ^ 64 }
        ensures view { piece_view result.0 ≡ word_of text.now }
        ensures opens { result.0.opens ≡ opens }
        ensures order { opens ≤ result.0.closes }
        ensures end { result.1 ≡ result.0.closes + length (final_blanks result.0.text.now) }
        ensures room { result.1 ≤ opens + length text.now }
    {
        let (word, blanks) = split_final_blanks(text);
        let closes = opens + display_width(word);
        let piece = JoinedPiece {
            text,
            opens,
            closes,
        };
        (piece, closes + blanks.len())
    }

    /// Its text without the final blanks.
    pub fn word(&self) -> &'t str
        ensures { result.now ≡ without_final_blanks self.now.text.now }
    {
        let (word, _) = split_final_blanks(self.text);
        word
    }
}

impl Fragment for JoinedPiece<'_> {
    ghost use Rattle.std.specs.Prelude.{◌-◌};

    ghost sizes = { λ piece. sizes_of (piece_view piece) };

    fn width(&self) -> usize {
        self.closes.saturating_sub(self.opens)
    }

    fn whitespace_width(&self) -> usize {
        let (_, blanks) = split_final_blanks(self.text);
        blanks.len()
    }

    fn penalty_width(&self) -> usize {
        0
    }

    fn break_penalty(&self, penalties: &Penalties) -> usize {
        penalties.usual_break_penalty(self.penalty_width())
    }
}

impl PrefixSums for JoinedPiece<'_> {
    ghost priced = { piece_priced };

    ghost opens = { λ piece. piece.opens };

    ghost closes = { λ piece. piece.closes };

    fn closed_width(&self, first: &Self) -> u128 {
        (self.closes - first.opens) as u128
    }

    fn break_penalty(&self) -> usize {
        0
    }
}

/// The parts of a text between these cuts, each as a piece.
pub(crate) fn pieces_between<'t>(
    alloc: Global,
    text: &'t str,
    cuts: &[usize],
) -> Result<Vec<JoinedPiece<'t>>, AllocError>
    requires { AreCuts text.now cuts.now }
    ensures pieces { IfOk result (λ pieces.
        map piece_view pieces.items ≡ map word_of (parts_between cuts.now text.now)) }
    ensures row { IfOk result (λ pieces. AreInRow 0 pieces.items) }
{
    let mut pieces = Vec::with_capacity(alloc, cuts.len().saturating_add(1))?;
    if text.is_empty() {
        return Ok(pieces);
    }
    let mut start = 0;
    let mut opens = 0;
    for cut in cuts {
        let (piece, end) = JoinedPiece::behind(opens, &text[start..*cut]);
        pieces.push(piece)?;
        opens = end;
        start = *cut;
    }
    let (last, _) = JoinedPiece::behind(opens, &text[start..]);
    pieces.push(last)?;
    Ok(pieces)
}
