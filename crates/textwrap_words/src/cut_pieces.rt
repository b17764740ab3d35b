//! The pieces of a text whose words end at given cuts, by where they stand in it, without a list of
//! words.
ghost use Rattle.std.specs.Prelude.{◌≡◌, ◌-◌, ◌<◌, ◌≤◌, false, ◌++◌, [], ◌∷◌, length, map, slice_range};
ghost use Rattle.std.specs.Prelude.{if◌then◌else◌, IsCharBoundary};
ghost use Rattle.textwrap_text.specs.Blanks.{trimmed_len};
ghost use Rattle.textwrap_words.specs.Breaking.{broken_words};
ghost use Rattle.std.proofs.Props.{props};
ghost use Rattle.textwrap_words.specs.Cuts.{AreInnerCuts, AreLaterCuts, AreNext-prop, parts_after};
ghost use Rattle.textwrap_words.specs.Cuts.{parts_between};
ghost use Rattle.textwrap_words.specs.Pieces.{as_splitter, empty_front, stand_from, IsFirstWithin};
ghost use Rattle.textwrap_words.specs.WordSplitters.{split_words};
ghost use Rattle.textwrap_words.specs.Words.{word_of};

use crate::pieces::{BuiltInSplitter, Piece, letters_len, read_on};
use textwrap_text::blanks::trimmed_len;

/// The pieces of a text whose words end at given cuts, one after another: its words, split, and broken
/// where they are wider than a limit. Unlike words between blanks these may have blanks inside.
#[derive(Debug, Drop)]
pub struct CutPieces<'t, 'c> {
    text: &'t str,
    /// The cuts after the word that the next piece is of.
    cuts: &'c [usize],
    /// Where the next piece begins.
    at: usize,
    /// Where its word begins.
    start: usize,
    /// Where that ends, with its whitespace.
    end: usize,
    /// How many bytes it has without its whitespace.
    word_len: usize,
    limit: usize,
    splitter: BuiltInSplitter,
    /// Whether a piece without text stands before the words.
    has_front: bool,
    ghost starts: { IsCharBoundary text.now start },
    ghost ends: { IsCharBoundary text.now end },
    ghost order: { start ≤ end },
    ghost later: { AreLaterCuts end text.now cuts.now } by { Prim.hlevel (AreNext-prop, props) },
    ghost from: { start ≤ at },
    ghost boundary: { IsCharBoundary (slice_range text.now start end) (at - start) },
    ghost trimmed: { word_len ≡ trimmed_len (slice_range text.now start end) },
    ghost before_blanks: { at < end → at - start ≤ word_len },
}

impl<'t, 'c> CutPieces<'t, 'c> {
    ghost use Rattle.textwrap_words.specs.CutPiecesLeft.{cut_standing_left};

    /// The pieces of a text, after one without text where `has_front` says so. Words end at the cuts
    /// and at the end of the text. They are split as the splitter says, and broken where they have
    /// more columns than the limit.
    pub fn of(
        text: &'t str,
        cuts: &'c [usize],
        limit: usize,
        splitter: BuiltInSplitter,
        has_front: bool,
    ) -> CutPieces<'t, 'c>
        requires { AreInnerCuts text.now cuts.now }
        ensures { cut_standing_left result ≡ stand_from 0 ((if has_front then empty_front else [])
            ++ broken_words limit (split_words (as_splitter splitter)
            (map word_of (parts_between cuts.now text.now)))) }
    {
        CutPieces {
            text,
            cuts,
            at: 0,
            start: 0,
            end: 0,
            word_len: 0,
            limit,
            splitter,
            has_front,
        }
    }

    /// Goes on to the word after one that has no more pieces.
    fn begin_word(&mut self)
        requires done { self.old.at ≡ self.old.end }
        requires inside { self.old.end < length self.old.text.now }
        ensures inside { self.new.at < self.new.end }
        ensures left { cut_standing_left self.new ≡ cut_standing_left self.old }
        ensures no_front { self.new.has_front ≡ self.old.has_front }
    {
        let start = self.end;
        let (end, later) = next_end(self.text, start, self.cuts);
        self.word_len = trimmed_len(&self.text.as_bytes()[start..end]);
        self.start = start;
        self.end = end;
        self.cuts = later;
    }

    /// The next piece of the word.
    fn take_piece(&mut self) -> Piece
        requires inside { self.old.at < self.old.end }
        requires no_front { self.old.has_front ≡ false }
        ensures { cut_standing_left self.old ≡ result ∷ cut_standing_left self.new }
    {
        let word = &self.text[self.start..self.end];
        let place = self.at - self.start;
        let piece = next_within(word, self.word_len, place, self.limit, self.splitter);
        self.at = self.start + piece.end;
        Piece {
            word_end: self.start + piece.word_end,
            end: self.at,
            width: piece.width,
        }
    }
}

impl<'t, 'c> Iterator for CutPieces<'t, 'c> {
    ghost use Rattle.std.specs.Iterator.{YieldsFirstBy, item_count};
    ghost use Rattle.textwrap_words.specs.CutPiecesLeft.{cut_standing_left};

    type Item = Piece;

    ghost next_gives = { YieldsFirstBy (λ piece. piece) cut_standing_left };

    ghost remaining = { item_count cut_standing_left };

    fn next(&mut self) -> Option<Piece> {
        if self.has_front {
            self.has_front = false;
            return Some(Piece {
                word_end: self.at,
                end: self.at,
                width: 0,
            });
        }
        if self.at == self.end {
            if self.end == self.text.as_bytes().len() {
                return None;
            }
            self.begin_word();
        }
        Some(self.take_piece())
    }
}

/// Where the word of a text ends that begins at a place, and the cuts after that.
fn next_end<'c>(text: &str, start: usize, cuts: &'c [usize]) -> (usize, &'c [usize])
    requires inside { start < length text.now }
    requires cuts { AreLaterCuts start text.now cuts.now }
    ensures some { start < result.0 }
    ensures boundary { IsCharBoundary text.now result.0 }
    ensures later { AreLaterCuts result.0 text.now result.1.now }
    ensures parts { parts_after start cuts.now text.now
        ≡ slice_range text.now start result.0 ∷ parts_after result.0 result.1.now text.now }
{
    match cuts.split_first() {
        Some((cut, later)) => (*cut, later),
        None => (text.len(), cuts),
    }
}

/// The piece of a word that begins at a place in it, by where it stands in the text of the word and
/// its whitespace. Without that the word has so many bytes.
fn next_within(
    text: &str,
    word_len: usize,
    at: usize,
    limit: usize,
    splitter: BuiltInSplitter,
) -> Piece
    requires trimmed { word_len ≡ trimmed_len text.now }
    requires boundary { IsCharBoundary text.now at }
    requires before_blanks { at ≤ word_len }
    requires inside { at < length text.now }
    ensures { IsFirstWithin (as_splitter splitter) limit text.now at result }
{
    let letters = letters_len(&text.as_bytes()[..word_len], at, limit);
    let (word_end, width) = read_on(text, at, letters, word_len, limit, splitter, false);
    let end = if word_end == word_len {
        text.len()
    } else {
        word_end
    };
    Piece {
        word_end,
        end,
        width,
    }
}
