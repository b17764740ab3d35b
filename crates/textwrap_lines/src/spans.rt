//! Where the pieces of a paragraph stand in it, and what those before them take.
ghost use Rattle.std.specs.Prelude.{◌≡◌, IfOk};
ghost use Rattle.textwrap_layout.specs.Direct.{CanBeCut, pieces_cut, cuts_of};
ghost use Rattle.textwrap_layout.specs.Frame.{frame_settings};
ghost use Rattle.textwrap_lines.specs.Spans.{spans_from, span_priced};

use std::alloc::{AllocError, Allocator};
use textwrap_base::inner::PrefixSums;
use textwrap_layout::frame::Frame;
use textwrap_layout::paragraph_pieces::{Cuts, cut_paragraph};

/// Where a piece of a text ends, and what it takes.
#[derive(Clone, Copy)]
pub(crate) struct Span {
    /// Where its word ends.
    pub(crate) word_end: usize,
    /// Where the whitespace after that ends.
    pub(crate) end: usize,
    /// The columns of the pieces before it, with all their whitespace.
    opens: usize,
    /// Those, and the columns of its word.
    closes: usize,
}

impl PrefixSums for Span {
    ghost priced = { span_priced };

    ghost opens = { λ s. s.opens };

    ghost closes = { λ s. s.closes };

    fn closed_width(&self, first: &Self) -> u128 {
        (self.closes - first.opens) as u128
    }

    fn break_penalty(&self) -> usize {
        0
    }
}

/// The pieces of a paragraph that is cut there.
///
/// # Errors
/// [`AllocError`] where memory runs out.
pub(crate) fn find_spans<A: Allocator>(
    alloc: A,
    paragraph: &str,
    frame: &Frame<'_>,
    cuts: &Cuts<'_>,
) -> Result<Vec<Span, A>, AllocError>
    requires { CanBeCut (cuts_of cuts.now) paragraph.now }
    ensures { IfOk result (λ spans. spans.items ≡ spans_from 0 0
        (pieces_cut (frame_settings frame.now) cuts.now paragraph.now)) }
{
    let mut spans = Vec::new(alloc);
    let mut opens = 0;
    for piece in cut_paragraph(paragraph, frame, cuts) {
        let closes = opens + piece.width;
        spans.push(Span {
            word_end: piece.word_end,
            end: piece.end,
            opens,
            closes,
        })?;
        opens = closes + (piece.end - piece.word_end);
    }
    Ok(spans)
}
