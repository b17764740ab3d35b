//! What the pieces of a text and its lines come from.
use crate::printable_cuts::PrintableCuts;
use std::alloc::{AllocError, Allocator};
use textwrap_words::inner::BuiltInSplitter;
use textwrap_words::words::Word;
use textwrap_words::wrap_algorithms::{Penalties, WrapError};

/// A built-in algorithm: one that is no function of a caller.
#[derive(Clone, Copy, Debug, PartialEq, Eq)]
pub enum BuiltInAlgorithm {
    /// Each line takes as many pieces as fit.
    FirstFit,
    /// The lines cost the least together.
    OptimalFit(Penalties),
}

/// How a paragraph is divided, where no function of a caller says where its words are split or its
/// lines end.
#[derive(Clone, Copy)]
pub struct BuiltInParts {
    /// Where words are split.
    pub splitter: BuiltInSplitter,
    /// How their pieces are divided into lines.
    pub algorithm: BuiltInAlgorithm,
}

/// Where a paragraph is cut into words, where these are split, and how their pieces are divided into
/// lines.
// A function that has a bound with a lifetime, as whatever takes lines has one, may not name a type
// that holds function pointers, as options do: it takes them by this bound.
pub trait Parts<A: Allocator> {
    /// Where printable paragraphs are cut into words.
    type Words: PrintableCuts + Copy;

    ghost use Rattle.std.specs.Prelude.{◌≡◌, ◌<◌, ◌^◌, ℕ, Bool, List, None, map, length};
    ghost use Rattle.std.specs.Prelude.{IfOk, IsOkAnd, IfSome, IsSomeAnd, IsTrue};
    ghost use Rattle.std.specs.Option.{option_map};
    ghost use Rattle.textwrap_base.specs.Cost.{total_width};
    ghost use Rattle.textwrap_base.specs.Errors.{Fits64Bits, OnlyMemoryRunsOut};
    ghost use Rattle.std.specs.Io.{StartsWith};
    ghost use Rattle.std.specs.List.{flat_map};
    ghost use Rattle.std.specs.Str.{IsUtf8};
    ghost use Rattle.textwrap_words.specs.Cuts.{AreCuts};
    ghost use Rattle.textwrap_words.specs.PieceCuts.{parts_by};
    ghost use Rattle.textwrap_text.specs.Units.{IsPrintable};
    ghost use Rattle.textwrap_words.specs.Words.{WordText, Tiles, sizes_of, tiled, word_of, word_view};
    ghost use Rattle.textwrap_layout.specs.Direct.{AreParts, AreWordsCut, CanBeCut, words_cut};
    ghost use Rattle.textwrap_layout.specs.Direct.{HasInnerPoints, TakesWhatFits};
    ghost use Rattle.textwrap_layout.specs.Options.{Settings};
    ghost use Rattle.textwrap_layout.specs.Paragraph.{ArePieces, DividesWith, Relations};

    // The words, the points and the lines that they may find.
    ghost may: { Self → Relations };

    // Whether widths may overflow by them.
    ghost may_overflow: { Self → Type 0 };

    // Whether they are built in, words stand between blanks, and lines are found by first fit.
    ghost is_direct: { Self → Type 0 };

    /// The algorithm and the splitter, if they are built in.
    fn built_in(&self) -> Option<BuiltInParts>
        ensures parts { (settings : Settings) → IfSome result (AreParts settings
            (may self.now).Words (DividesWith (may self.now) settings)) }
        ensures first_fit { is_direct self.now
            → IsSomeAnd result (λ parts. parts.algorithm ≡ BuiltInAlgorithm.FirstFit) };

    /// Where printable paragraphs are cut into words, if that is told from their bytes.
    fn printable_cuts(&self) -> Option<Self::Words>
        ensures { IfSome result (λ told. (paragraph : List ℕ) → IsPrintable paragraph
            → (may self.now).Words paragraph
            (map word_of (parts_by (Self.Words.cuts told paragraph) 0 paragraph))) };

    /// Where the words of a paragraph end but the last, if they do not stand between blanks.
    ///
    /// # Errors
    /// [`AllocError`] where memory runs out, or a function of the caller says so.
    fn word_cuts(&self, paragraph: &str) -> Result<Option<Vec<usize>>, AllocError>
        ensures words { IfOk result (λ found. (may self.now).Words paragraph.now
            (words_cut (option_map (λ cuts. cuts.items) found) paragraph.now)) }
        ensures cuts { IfOk result (λ found. CanBeCut (option_map (λ cuts. cuts.items) found)
            paragraph.now) }
        ensures direct { is_direct self.now → IsOkAnd result (λ found. found ≡ None) };

    /// Where a word is split.
    ///
    /// # Errors
    /// [`AllocError`] where memory runs out, or a function of the caller says so.
    fn split_points(&self, alloc: A, word: &str) -> Result<Vec<usize, A>, AllocError>
        ensures points { IfOk result (λ points. (may self.now).Points word.now points.items) }
        ensures cuts { IfOk result (λ points. AreCuts word.now points.items) };

    /// The pieces divided by the algorithm, for lines of these widths.
    ///
    /// # Errors
    /// Those of `wrap`.
    fn divide<'a, 'w>(
        &self,
        alloc: A,
        pieces: &'w [Word<'a>],
        line_widths: &[usize],
    ) -> Result<Vec<&'w [Word<'a>], A>, WrapError>
        ensures begins { IfOk result (λ lines. StartsWith (tiled (map word_view pieces.now))
            (flat_map (λ line. tiled (map word_view line.now)) lines.items)) }
        ensures divides { IfOk result (λ lines. (may self.now).Lines line_widths.now
            (map word_view pieces.now) (map (λ line. map word_view line.now) lines.items)) }
        ensures only_memory { (settings : Settings) (paragraph : List ℕ) → IsUtf8 paragraph
            → length paragraph < 2 ^ 63 → ArePieces settings AreWordsCut
            (may self.now).Points paragraph (map word_view pieces.now)
            → Tiles (map word_view pieces.now) paragraph → ¬ may_overflow self.now
            → OnlyMemoryRunsOut result }
        ensures no_overflow { Fits64Bits (total_width sizes_of (map word_view pieces.now))
            → OnlyMemoryRunsOut result };

    /// Whether each line takes as many pieces as fit.
    fn takes_what_fits(&self) -> bool
        ensures { IsTrue result → TakesWhatFits (may self.now).Lines };

    /// Whether each word is known to have points, all inside it, before it is asked for them.
    fn has_points(&self) -> bool
        ensures { IsTrue result → HasInnerPoints (may self.now).Points };

    // A word can be cut at the points at which it may be split.
    ghost can_split: { (parts : Self) (word points : List ℕ) → IsUtf8 word
        → (may parts).Points word points → AreCuts word points };
}
