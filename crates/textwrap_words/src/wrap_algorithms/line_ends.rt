//! A function of the caller that says where lines end.
ghost use Rattle.std.specs.Prelude.{◌≡◌};
ghost use Rattle.std.specs.Result.{ForOk};
ghost use Rattle.std.proofs.Props.{props};
ghost use Rattle.textwrap_words.specs.Cuts.{AreNext-prop};
ghost use Rattle.textwrap_words.specs.LineEnds.{AreEnds};

use crate::words::Word;
use std::alloc::{AllocError, Global};
use std::fmt;

/// A function that says where lines of words end, given the words and the widths of the lines: see
/// [`LineEnds`], which has the example.
pub type EndsFunction = fn(Global, &[Word<'_>], &[usize]) -> Result<Vec<usize>, AllocError>;

/// A function of the caller that divides words into lines. It returns how many words stand before
/// the end of each line: numbers that do not decrease, and are not above the number of words.
///
/// Where `end_all` returns 1, 3 and 6, `WrapAlgorithm::Custom(LineEnds::new(alloc, end_all))`
/// divides six words into lines of 1, 2 and 3.
#[derive(Clone, Copy)]
pub struct LineEnds {
    /// The function.
    pub function: EndsFunction,
    pub(super) alloc: Global,
    ghost callable: { IsAlwaysCallable function },
    ghost answers: { (alloc : _) (words : _) (widths : _) (answer : _)
        → post function alloc words widths answer
        → ForOk answer (λ ends. AreEnds words.now ends.items) } by { Prim.hlevel (AreNext-prop, props) },
}

impl LineEnds {
    /// Divides words by this function, which is called with this allocator. It may be called with
    /// any words and widths, and its contract says that its ends are right ones, as that of this
    /// function does:
    ///
    /// ```rust
    /// fn end_all(
    ///     alloc: Global,
    ///     words: &[Word<'_>],
    ///     _line_widths: &[usize],
    /// ) -> Result<Vec<usize>, AllocError>
    ///     ensures { IfOk result (λ ends. AreEnds words.now ends.items) }
    /// ```
    pub fn new(alloc: Global, function: EndsFunction) -> LineEnds
        requires callable { IsAlwaysCallable function }
        requires answers { (alloc : _) (words : _) (widths : _) (answer : _)
            → post function alloc words widths answer
            → ForOk answer (λ ends. AreEnds words.now ends.items) }
        ensures { result.function ≡ function }
    {
        LineEnds { function, alloc }
    }
}

impl fmt::Debug for LineEnds {
    fn fmt<W: fmt::Write>(&self, f: &mut fmt::Formatter<W>) -> fmt::Result {
        f.write_str("LineEnds")
    }
}
