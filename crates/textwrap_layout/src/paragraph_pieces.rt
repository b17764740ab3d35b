//! The pieces of a paragraph, one after another, where built-in parts cut it.
ghost use Rattle.std.specs.Prelude.{◌≡◌};
ghost use Rattle.textwrap_layout.specs.Direct.{CanBeCut, pieces_cut, cuts_of};
ghost use Rattle.textwrap_layout.specs.PiecesLeft.{left_standing};
ghost use Rattle.textwrap_words.specs.Pieces.{stand_from};
ghost use Rattle.textwrap_layout.specs.Frame.{frame_settings};

use crate::frame::Frame;
use textwrap_words::inner::{BuiltInSplitter, CutPieces, Piece, Pieces};

/// Where a paragraph is cut into pieces by built-in parts.
#[derive(Clone, Copy)]
pub struct Cuts<'c> {
    /// Where its words end but the last, if they do not stand between blanks.
    pub words: Option<&'c [usize]>,
    /// Where they are split.
    pub splitter: BuiltInSplitter,
}

/// The pieces of a paragraph, one after another.
#[derive(Drop)]
pub enum ParagraphPieces<'t, 'c> {
    /// Of words between blanks.
    AtBlanks(Pieces<'t>),
    /// Of words between cuts.
    AtCuts(CutPieces<'t, 'c>),
}

impl<'t, 'c> Iterator for ParagraphPieces<'t, 'c> {
    ghost use Rattle.std.specs.Iterator.{YieldsFirstBy, item_count};
    ghost use Rattle.textwrap_layout.specs.PiecesLeft.{left_standing};

    type Item = Piece;

    ghost next_gives = { YieldsFirstBy (λ piece. piece) left_standing };

    ghost remaining = { item_count left_standing };

    fn next(&mut self) -> Option<Piece> {
        match self {
            ParagraphPieces::AtBlanks(pieces) => pieces.next(),
            ParagraphPieces::AtCuts(pieces) => pieces.next(),
        }
    }
}

/// The pieces that the lines of a paragraph are made of, where it is cut there.
pub fn cut_paragraph<'t, 'c>(
    paragraph: &'t str,
    frame: &Frame<'_>,
    cuts: &Cuts<'c>,
) -> ParagraphPieces<'t, 'c>
    requires { CanBeCut (cuts_of cuts.now) paragraph.now }
    ensures { left_standing result
        ≡ stand_from 0 (pieces_cut (frame_settings frame.now) cuts.now paragraph.now) }
{
    let Some(words) = cuts.words else {
        return ParagraphPieces::AtBlanks(Pieces::of(
            paragraph,
            frame.limit,
            cuts.splitter,
            frame.has_front,
        ));
    };
    ParagraphPieces::AtCuts(CutPieces::of(
        paragraph,
        words,
        frame.limit,
        cuts.splitter,
        frame.has_front,
    ))
}
