//! What the crates above need of words beside the public calls, which `textwrap` does not pass on.
ghost use Rattle.std.specs.Prelude.{◌≡◌};
ghost use Rattle.textwrap_words.specs.Words.{words_of};

pub use crate::cut_pieces::CutPieces;
pub use crate::pieces::{BuiltInSplitter, Piece, Pieces, next_piece};
use crate::word_separators::Words;
pub use crate::word_separators::words::{given_cuts, words_between};
pub use crate::word_splitters::pieces::push_split;
pub use crate::words::breaking::{push_broken, stay_whole};
pub use crate::wrap_algorithms::at_ends::lines_between;
use std::alloc::Allocator;

/// The words of a line that is cut at its blanks, one after the other, as
/// [`WordSeparator::AsciiSpace`](crate::word_separators::WordSeparator) finds them: of `"foo bar"`
/// these are `"foo "` and `"bar"`. The call always succeeds and needs no memory: `A` is what words
/// at a caller's cuts would lie in.
pub fn words_at_blanks<A: Allocator>(line: &str) -> Words<'_, A>
    ensures { result ≡ words_of line.now }
{
    Words::of_line(line)
}
