//! Parts that are built in, with what says where texts are cut into words. They hold no function.
ghost use Rattle.std.specs.Prelude.{◌≡◌, Some};
ghost use Rattle.textwrap_words.specs.WrapAlgorithms.{algorithm_view};
ghost use Rattle.textwrap_layout.specs.Direct.{as_algorithm};

use crate::parts::{BuiltInAlgorithm, BuiltInParts, Parts};
use crate::printable_cuts::PrintableCuts;
use std::alloc::{AllocError, Allocator};
use textwrap_words::inner::BuiltInSplitter;
use textwrap_words::word_splitters::WordSplitter;
use textwrap_words::words::Word;
use textwrap_words::wrap_algorithms::{WrapAlgorithm, WrapError};

/// Parts that hold no function, so that many can be compared, stored and copied.
#[derive(Clone, Copy)]
pub struct BuiltIn<W: PrintableCuts + Copy> {
    /// Where words are split, and how their pieces are divided into lines.
    pub parts: BuiltInParts,
    /// Where texts are cut into words.
    pub words: W,
}

impl<A: Allocator + Copy, W: PrintableCuts + Copy> Parts<A> for BuiltIn<W> {
    ghost use Rattle.textwrap_words.proofs.Word.Pieces.{ArePoints-cuts};
    ghost use Rattle.textwrap_words.specs.Pieces.{as_splitter};
    ghost use Rattle.textwrap_words.specs.WordSplitters.{ArePoints};
    ghost use Rattle.textwrap_words.specs.WrapAlgorithms.{IsDividedBy};
    ghost use Rattle.textwrap_words.specs.Words.{sizes_of};
    ghost use Rattle.textwrap_layout.specs.Direct.{as_algorithm};
    ghost use Rattle.textwrap_layout.specs.declared.parts.BuiltInAlgorithm.TheVariants.{FirstFit};

    type Words = W;

    ghost may = { λ parts. record {
      Words = λ line words. words ≡ W.words parts.words line;
      Points = ArePoints (as_splitter parts.parts.splitter);
      Lines = IsDividedBy (as_algorithm parts.parts.algorithm) sizes_of;
    } };

    // No built-in splitter gives widths that overflow.
    ghost may_overflow = { λ parts. ⊥ };

    ghost is_direct = { λ parts. (parts.parts.algorithm ≡ FirstFit) × W.at_blanks parts.words };

    ghost can_split = { λ parts. ArePoints-cuts (as_splitter parts.parts.splitter) };

    fn built_in(&self) -> Option<BuiltInParts> {
        Some(self.parts)
    }

    fn printable_cuts(&self) -> Option<W> {
        if self.words.are_told() {
            Some(self.words)
        } else {
            None
        }
    }

    fn word_cuts(&self, paragraph: &str) -> Result<Option<Vec<usize>>, AllocError> {
        self.words.word_cuts(paragraph)
    }

    fn split_points(&self, alloc: A, word: &str) -> Result<Vec<usize, A>, AllocError> {
        match self.parts.splitter {
            BuiltInSplitter::NoHyphenation => WordSplitter::NoHyphenation.split_points(alloc, word),
            BuiltInSplitter::HyphenSplitter => WordSplitter::HyphenSplitter.split_points(
                alloc, word,
            ),
        }
    }

    fn divide<'p, 'w>(
        &self,
        alloc: A,
        pieces: &'w [Word<'p>],
        line_widths: &[usize],
    ) -> Result<Vec<&'w [Word<'p>], A>, WrapError> {
        wrap_algorithm(self.parts.algorithm).wrap(alloc, pieces, line_widths)
    }

    fn takes_what_fits(&self) -> bool {
        matches!(self.parts.algorithm, BuiltInAlgorithm::FirstFit)
    }

    fn has_points(&self) -> bool {
        false
    }
}

/// A built-in algorithm as one of the public ones.
fn wrap_algorithm(algorithm: BuiltInAlgorithm) -> WrapAlgorithm
    ensures { algorithm_view result ≡ Some (as_algorithm algorithm) }
{
    match algorithm {
        BuiltInAlgorithm::FirstFit => WrapAlgorithm::FirstFit,
        BuiltInAlgorithm::OptimalFit(penalties) => WrapAlgorithm::OptimalFit(penalties),
    }
}
