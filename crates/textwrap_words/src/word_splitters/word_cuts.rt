//! A function of the caller that says where words may be split.
ghost use Rattle.std.specs.Prelude.{◌≡◌, IsUtf8};
ghost use Rattle.std.specs.Result.{ForOk};
ghost use Rattle.std.proofs.Props.{props};
ghost use Rattle.textwrap_words.specs.Cuts.{AreCuts, AreNext-prop};

use std::alloc::{AllocError, Global};
use std::fmt;

/// A function that says where a word may be split: see [`WordCuts`], which has the example.
pub type PointFunction = fn(Global, &str) -> Result<Vec<usize>, AllocError>;

/// A function of the caller that says where a word may be split. It returns offsets in bytes that
/// do not decrease, below the length of the word and on character boundaries.
///
/// Where `split_in_middle` returns 3 for `foobar`, the splitter
/// `WordSplitter::Custom(WordCuts::new(alloc, split_in_middle))` splits this into `foo`, with the
/// penalty `-`, and `bar`.
#[derive(Clone, Copy)]
pub struct WordCuts {
    /// The function.
    pub function: PointFunction,
    pub(super) alloc: Global,
    ghost callable: { IsAlwaysCallable function },
    ghost answers: { (alloc : _) (word : _) (answer : _) → IsUtf8 word.now
        → post function alloc word answer
        → ForOk answer (λ points. AreCuts word.now points.items) } by { Prim.hlevel (AreNext-prop, props) },
}

impl WordCuts {
    /// Splits words where this function says, which is called with this allocator. It may be called
    /// with any word, and its contract says that its points are right ones, as that of this
    /// function does:
    ///
    /// ```rust
    /// fn split_in_middle(alloc: Global, word: &str) -> Result<Vec<usize>, AllocError>
    ///     ensures { IfOk result (λ points. AreCuts word.now points.items) }
    /// ```
    pub fn new(alloc: Global, function: PointFunction) -> WordCuts
        requires callable { IsAlwaysCallable function }
        requires answers { (alloc : _) (word : _) (answer : _) → IsUtf8 word.now
            → post function alloc word answer
            → ForOk answer (λ points. AreCuts word.now points.items) }
        ensures { result.function ≡ function }
    {
        WordCuts { function, alloc }
    }
}

impl fmt::Debug for WordCuts {
    fn fmt<W: fmt::Write>(&self, f: &mut fmt::Formatter<W>) -> fmt::Result {
        f.write_str("WordCuts")
    }
}
