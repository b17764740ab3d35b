//! Parts by which words are split where a dictionary has hyphens, and behind hyphens of their own; and
//! parts that hold no function, with such a dictionary or without one.
ghost use Rattle.std.specs.Prelude.{◌≡◌};

use crate::options::PlainSplitter;
use std::alloc::{AllocError, Allocator};
use textwrap_hyphens::outside::hyphens_outside;
use textwrap_hyphens::splitting::split_points;
use textwrap_hyphens::table::PatternTable;
use textwrap_layout::built_in::BuiltIn;
use textwrap_layout::parts::{BuiltInAlgorithm, BuiltInParts, Parts};
use textwrap_layout::printable_cuts::{BlankCuts, PrintableCuts};
use textwrap_words::inner::BuiltInSplitter;
use textwrap_words::words::Word;
use textwrap_words::wrap_algorithms::WrapError;

/// What these parts do, but that words are split where this dictionary has hyphens and behind hyphens
/// of their own.
#[derive(Clone, Copy)]
pub struct Hyphenated<'p, P> {
    /// Where words end, and how pieces are divided into lines.
    pub parts: &'p P,
    /// The dictionary.
    pub patterns: &'p PatternTable<'p>,
}

impl<A: Allocator + Copy, P: Parts<A>> Parts<A> for Hyphenated<'_, P> {
    ghost use Rattle.textwrap_hyphens.proofs.SplitPieces.{held-cuts};
    ghost use Rattle.textwrap_hyphens.specs.Splitting.{ArePointsBy};
    ghost use Rattle.textwrap_hyphens.specs.Table.{held};

    type Words = BlankCuts;

    ghost may = { λ h. record {
      Words = (P.may h.parts.now).Words;
      Points = ArePointsBy (held h.patterns.now);
      Lines = (P.may h.parts.now).Lines;
    } };

    // Each hyphen that is added stands behind a byte of its own, so no widths overflow.
    ghost may_overflow = { λ h. ⊥ };

    ghost is_direct = { λ h. ⊥ };

    ghost can_split = { λ h. held-cuts h.patterns.now };

    fn built_in(&self) -> Option<BuiltInParts> {
        None
    }

    fn printable_cuts(&self) -> Option<BlankCuts> {
        None
    }

    fn word_cuts(&self, paragraph: &str) -> Result<Option<Vec<usize>>, AllocError> {
        self.parts.word_cuts(paragraph)
    }

    fn split_points(&self, alloc: A, word: &str) -> Result<Vec<usize, A>, AllocError> {
        split_points(alloc, word, self.patterns)
    }

    fn divide<'a, 'w>(
        &self,
        alloc: A,
        pieces: &'w [Word<'a>],
        line_widths: &[usize],
    ) -> Result<Vec<&'w [Word<'a>], A>, WrapError> {
        self.parts.divide(alloc, pieces, line_widths)
    }

    fn takes_what_fits(&self) -> bool {
        self.parts.takes_what_fits()
    }

    fn has_points(&self) -> bool {
        true
    }
}

/// Parts that hold no function.
#[derive(Clone, Copy)]
pub struct PlainParts<'a, W: PrintableCuts + Copy> {
    /// Where texts are cut into words.
    pub words: W,
    /// Where words are split.
    pub splitter: PlainSplitter<'a>,
    /// How their pieces are divided into lines.
    pub algorithm: BuiltInAlgorithm,
}

impl<'a, W: PrintableCuts + Copy> PlainParts<'a, W> {
    /// The same words and algorithm, by this splitter.
    fn built_in_by(&self, splitter: BuiltInSplitter) -> BuiltIn<W>
        ensures words { result.words ≡ self.now.words }
        ensures splitter { result.parts.splitter ≡ splitter }
        ensures algorithm { result.parts.algorithm ≡ self.now.algorithm }
    {
        BuiltIn {
            parts: BuiltInParts {
                splitter,
                algorithm: self.algorithm,
            },
            words: self.words,
        }
    }
}

impl<A: Allocator + Copy, W: PrintableCuts + Copy> Parts<A> for PlainParts<'_, W> {
    ghost use Rattle.std.specs.Prelude.{◌≢◌, None};
    ghost use Rattle.textwrap_words.specs.WrapAlgorithms.{IsDividedBy};
    ghost use Rattle.textwrap_words.specs.Words.{sizes_of};
    ghost use Rattle.textwrap_layout.specs.Direct.{as_algorithm};
    ghost use Rattle.textwrap_layout.specs.declared.parts.BuiltInAlgorithm.TheVariants.{FirstFit};
    ghost use Rattle.textwrap_plain.specs.CutSides.{points_by-cuts};
    ghost use Rattle.textwrap_plain.specs.Options.{port_splitter, points_by};

    type Words = W;

    ghost may = { λ parts. record {
      Words = λ line words. words ≡ W.words parts.words line;
      Points = λ word points. points ≡ points_by parts.splitter word;
      Lines = IsDividedBy (as_algorithm parts.algorithm) sizes_of;
    } };

    // No built-in splitter gives widths that overflow, and no dictionary.
    ghost may_overflow = { λ parts. ⊥ };

    ghost is_direct = { λ parts. (parts.algorithm ≡ FirstFit) × W.at_blanks parts.words
        × (port_splitter parts.splitter ≢ None) };

    ghost can_split = { λ parts. points_by-cuts parts.splitter };

    fn built_in(&self) -> Option<BuiltInParts> {
        match self.splitter {
            PlainSplitter::BuiltIn(splitter) => Some(BuiltInParts {
                splitter,
                algorithm: self.algorithm,
            }),
            PlainSplitter::OutsideSequences | PlainSplitter::Dictionary(_) => None,
        }
    }

    fn printable_cuts(&self) -> Option<W> {
        if self.words.are_told() {
            Some(self.words)
        } else {
            None
        }
    }

    fn word_cuts(&self, paragraph: &str) -> Result<Option<Vec<usize>>, AllocError> {
        self.words.word_cuts(paragraph)
    }

    fn split_points(&self, alloc: A, word: &str) -> Result<Vec<usize, A>, AllocError> {
        match self.splitter {
            PlainSplitter::BuiltIn(splitter) => self
                .built_in_by(splitter)
                .split_points(alloc, word),
            PlainSplitter::OutsideSequences => hyphens_outside(alloc, word),
            PlainSplitter::Dictionary(patterns) => split_points(alloc, word, &patterns),
        }
    }

    fn divide<'p, 'w>(
        &self,
        alloc: A,
        pieces: &'w [Word<'p>],
        line_widths: &[usize],
    ) -> Result<Vec<&'w [Word<'p>], A>, WrapError> {
        self.built_in_by(BuiltInSplitter::NoHyphenation)
            .divide(alloc, pieces, line_widths)
    }

    fn takes_what_fits(&self) -> bool {
        matches!(self.algorithm, BuiltInAlgorithm::FirstFit)
    }

    fn has_points(&self) -> bool {
        match self.splitter {
            PlainSplitter::BuiltIn(_) => false,
            PlainSplitter::OutsideSequences | PlainSplitter::Dictionary(_) => true,
        }
    }
}
