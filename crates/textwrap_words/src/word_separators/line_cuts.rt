//! A function of the caller that says where lines are cut into words.
ghost use Rattle.std.specs.Prelude.{◌≡◌, IsUtf8};
ghost use Rattle.std.specs.Result.{ForOk};
ghost use Rattle.std.proofs.Props.{props};
ghost use Rattle.textwrap_words.specs.Cuts.{AreInnerCuts, AreNext-prop};

use std::alloc::{AllocError, Global};
use std::fmt;

/// A function that says where a line is cut into words: see [`LineCuts`], which has the example.
pub type CutFunction = fn(Global, &str) -> Result<Vec<usize>, AllocError>;

/// A function of the caller that says where a line is cut into words. It returns where each word
/// but the first begins: offsets in bytes that increase, inside the line and on character
/// boundaries.
///
/// Where `cut_foobar` returns 3 for `foobar`, the separator
/// `WordSeparator::Custom(LineCuts::new(alloc, cut_foobar))` cuts it into `foo` and `bar`.
#[derive(Clone, Copy)]
pub struct LineCuts {
    /// The function.
    pub function: CutFunction,
    pub(crate) alloc: Global,
    ghost callable: { IsAlwaysCallable function },
    ghost answers: { (alloc : _) (line : _) (answer : _) → IsUtf8 line.now
        → post function alloc line answer
        → ForOk answer (λ cuts. AreInnerCuts line.now cuts.items) } by { Prim.hlevel (AreNext-prop, props) },
}

impl LineCuts {
    /// Cuts lines where this function says, which is called with this allocator. It may be called
    /// with any line, and its contract says that its cuts are right ones, as that of this function
    /// does:
    ///
    /// ```rust
    /// fn cut_foobar(alloc: Global, line: &str) -> Result<Vec<usize>, AllocError>
    ///     ensures { IfOk result (λ cuts. AreInnerCuts line.now cuts.items) }
    /// ```
    pub fn new(alloc: Global, function: CutFunction) -> LineCuts
        requires callable { IsAlwaysCallable function }
        requires answers { (alloc : _) (line : _) (answer : _) → IsUtf8 line.now
            → post function alloc line answer
            → ForOk answer (λ cuts. AreInnerCuts line.now cuts.items) }
        ensures { result.function ≡ function }
    {
        LineCuts { function, alloc }
    }
}

impl fmt::Debug for LineCuts {
    fn fmt<W: fmt::Write>(&self, f: &mut fmt::Formatter<W>) -> fmt::Result {
        f.write_str("LineCuts")
    }
}
