//! How the words of a line are found: those of `"foo bar"` are `"foo "` and `"bar"`.
ghost use Rattle.std.specs.Prelude.{◌≡◌, IfOk, IsOk};

use crate::words::Word;
pub use line_cuts::{CutFunction, LineCuts};
pub use offsets::find_words_at;
use std::alloc::{AllocError, Allocator};
pub use words::Words;

mod line_cuts;
mod offsets;
pub(crate) mod words;

/// Where a line is cut into words: by `AsciiSpace` the line `"foo bar"` into `"foo "` and `"bar"`.
#[derive(Clone, Copy, Debug)]
pub enum WordSeparator {
    /// Before each character that is no blank but comes right after one.
    AsciiSpace,
    /// Where a function of the caller says.
    Custom(LineCuts),
}

impl WordSeparator {
    ghost use Rattle.textwrap_words.specs.Words.{Tiles};
    ghost use Rattle.textwrap_words.specs.WordSeparators.{MaySeparate};

    /// Cuts at blanks: `WordSeparator::AsciiSpace`.
    pub fn new() -> Self
        ensures { result ≡ WordSeparator.AsciiSpace }
    {
        WordSeparator::AsciiSpace
    }

    /// The words of the line, in order.
    ///
    /// By blanks `"  foo bar"` has the words `"  "`, `"foo "` and `"bar"`: blanks belong to the
    /// word before them, or are a word without text where none is. At the cuts of a caller each
    /// part of the line is taken as a word, with its final blanks as whitespace. Put one after the
    /// other, the words with their whitespace are the line. An empty line has none.
    ///
    /// # Errors
    /// None by blanks: finding these words needs no memory. [`AllocError`] at a caller's cuts,
    /// where memory runs out or the caller's function says so.
    pub fn find_words<'a, A: Allocator + Copy>(
        &self,
        alloc: A,
        line: &'a str,
    ) -> Result<Words<'a, A>, AllocError>
        ensures words { IfOk result (λ words. MaySeparate self.now line.now words) }
        ensures tiles { IfOk result (λ words. Tiles words line.now) }
        ensures succeeds { self.now ≡ WordSeparator.AsciiSpace → IsOk result }
    {
        match self {
            WordSeparator::AsciiSpace => Ok(Words::of_line(line)),
            WordSeparator::Custom(line_cuts) => Words::at_cuts(alloc, line, *line_cuts),
        }
    }
}

impl PartialEq for WordSeparator {
    ghost use Rattle.std.proofs.Common.{rules};
    ghost use Rattle.std.specs.Cmp.Rules.{comparing};
    ghost use Rattle.textwrap_words.specs.WordSeparators.{are_equal};

    ghost eq = { are_equal };

    ghost laws = { Prim.search (comparing, rules) };

    /// Whether both cut at blanks. No function of a caller is known to be equal to another, or to
    /// itself.
    fn eq(&self, other: &WordSeparator) -> bool {
        matches!(
            (self, other),
            (WordSeparator::AsciiSpace, WordSeparator::AsciiSpace)
        )
    }
}
