//! Where words may be split, and the pieces that they are split into: `foo-bar` after its hyphen,
//! into `foo-` and `bar`.
ghost use Rattle.std.specs.Prelude.{◌≡◌, ℕ, List, map, IfOk, IsOk};
ghost use Rattle.std.specs.Iterator.{IsFiniteIterable, Drains};
ghost use Rattle.textwrap_words.specs.Cuts.{AreCuts};
ghost use Rattle.textwrap_words.specs.WordSplitters.{AreSplit, MayPoint, MaySplit};
ghost use Rattle.textwrap_words.specs.Words.{word_view};

use crate::words::Word;
use hyphens::hyphen_points;
use pieces::push_split;
use std::alloc::{AllocError, Allocator};
pub use word_cuts::{PointFunction, WordCuts};

pub(crate) mod hyphens;
pub(crate) mod pieces;
mod word_cuts;

/// Where a word may be split, when the line ends within it: `can-be-split` by `HyphenSplitter` at 4
/// and 7.
#[derive(Clone, Copy, Debug)]
pub enum WordSplitter {
    /// Nowhere.
    NoHyphenation,
    /// After each hyphen that stands between alphanumeric characters: `--foo-bar` is split into
    /// `--foo-` and `bar`.
    HyphenSplitter,
    /// Where a function of the caller says.
    Custom(WordCuts),
}

impl WordSplitter {
    ghost use Rattle.textwrap_words.specs.WordSplitters.{MaySplit};

    /// The offsets in bytes at which the word may be split, 4 and 7 for `can-be-split` by
    /// `HyphenSplitter`: below the length of the word and on character boundaries, and none below
    /// the one before it. Those of a built-in splitter increase, inside the word. `NoHyphenation`
    /// has none; with it the call needs no memory and always succeeds.
    ///
    /// # Errors
    /// [`AllocError`] where memory runs out, or a function of the caller says so.
    pub fn split_points<A: Allocator + Copy>(
        &self,
        alloc: A,
        word: &str,
    ) -> Result<Vec<usize, A>, AllocError>
        ensures points { IfOk result (λ points. MaySplit self.now word.now points.items) }
        ensures cuts { IfOk result (λ points. AreCuts word.now points.items) }
        ensures none { self.now ≡ WordSplitter.NoHyphenation → IsOk result }
    {
        match self {
            WordSplitter::NoHyphenation => Ok(Vec::new(alloc)),
            WordSplitter::HyphenSplitter => hyphen_points(alloc, word),
            WordSplitter::Custom(word_cuts) => given_points(alloc, word, *word_cuts),
        }
    }
}

/// Something that says where words may be split, as a [`WordSplitter`] does: `HyphenSplitter` says
/// 4 for `foo-bar`.
pub trait SplitPoints {
    /// The points that it may give for a word.
    ghost may_split: { Self → List ℕ → List ℕ → Type 0 };

    /// The offsets in bytes at which the word may be split, by `HyphenSplitter` 4 for `foo-bar`:
    /// below the length of the word and on character boundaries, and none below the one before it.
    ///
    /// # Errors
    /// [`AllocError`] where memory runs out, or the splitter says so.
    fn split_points<A: Allocator + Copy>(
        &self,
        alloc: A,
        word: &str,
    ) -> Result<Vec<usize, A>, AllocError>
        ensures points { IfOk result (λ points. may_split self.now word.now points.items) }
        ensures cuts { IfOk result (λ points. AreCuts word.now points.items) };
}

impl SplitPoints for WordSplitter {
    ghost use Rattle.textwrap_words.specs.WordSplitters.{MaySplit};

    ghost may_split = { MaySplit };

    fn split_points<A: Allocator + Copy>(
        &self,
        alloc: A,
        word: &str,
    ) -> Result<Vec<usize, A>, AllocError> {
        WordSplitter::split_points(self, alloc, word)
    }
}

impl PartialEq for WordSplitter {
    ghost use Rattle.std.proofs.Common.{rules};
    ghost use Rattle.std.specs.Cmp.Rules.{comparing};
    ghost use Rattle.textwrap_words.specs.WordSplitters.{are_equal};

    ghost eq = { are_equal };

    ghost laws = { Prim.search (comparing, rules) };

    /// Whether both are the same built-in splitter. No function of a caller is known to be equal to
    /// another, or to itself.
    fn eq(&self, other: &WordSplitter) -> bool {
        match self {
            WordSplitter::NoHyphenation => matches!(other, WordSplitter::NoHyphenation),
            WordSplitter::HyphenSplitter => matches!(other, WordSplitter::HyphenSplitter),
            WordSplitter::Custom(_) => false,
        }
    }
}

/// The points that the caller's function gives.
fn given_points<A: Allocator>(
    alloc: A,
    word: &str,
    word_cuts: WordCuts,
) -> Result<Vec<usize, A>, AllocError>
    ensures points { IfOk result (λ points. MayPoint word_cuts word.now points.items) }
    ensures cuts { IfOk result (λ points. AreCuts word.now points.items) }
{
    let points = (word_cuts.function)(word_cuts.alloc, word)?;
    let copied = Vec::from_slice(alloc, &points)?;
    Ok(copied)
}

/// Splits each word at the points of the splitter.
///
/// `foo-bar` becomes `foo-` and `bar`. A piece before a point has no whitespace; its penalty is `-`
/// where the word has no hyphen there, and else empty. The last piece keeps the whitespace and the
/// penalty of the word. The width of a piece is measured in its own text, also where a point stands
/// inside an escape sequence. The iterator has to end.
///
/// # Errors
/// [`AllocError`] where memory runs out, or the splitter says so.
pub fn split_words<'a, A: Allocator + Copy, I: IntoIterator<Item = Word<'a>>, S: SplitPoints>(
    alloc: A,
    words: I,
    word_splitter: &S,
) -> Result<Vec<Word<'a>, A>, AllocError>
    requires ends { IsFiniteIterable
        I.into_iter_gives I.IntoIter.can_next I.IntoIter.remaining words }
    ensures pieces { IfOk result (λ pieces. (it : I.IntoIter) × (given : List Word)
        × I.into_iter_gives words it × Drains I.IntoIter.next_gives it given
        × AreSplit (S.may_split word_splitter.now) (map word_view given) (map word_view pieces.items)) }
{
    let mut pieces = Vec::new(alloc);
    for word in words {
        let points = word_splitter.split_points(alloc, word.word)?;
        push_split(&mut pieces, word, &points)?;
    }
    Ok(pieces)
}
