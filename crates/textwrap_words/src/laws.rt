//! Laws of the definitions that the contracts cite. Each is the contract of a function that does
//! nothing, so that a proof may call on it.
//!
//! A law has no example: its statement is all there is to it. A call is written
//! `words_are_unique();`.
ghost use Rattle.textwrap_words.specs.Laws.{WordsAreUnique, WordsAtAreUnique};
ghost use Rattle.textwrap_words.specs.Laws.{BrokenPiecesAreUnique, BrokenTextsTile};
ghost use Rattle.textwrap_words.specs.Laws.{BrokenPiecesTile, BrokenWordsTile, PointsAreCuts};
ghost use Rattle.textwrap_words.specs.Laws.{SplitPiecesTile, SplitWordsTile};

pub use textwrap_base::laws::{
    chosen_division_is_unique, greedy_division_is_unique, table_division_is_unique,
    table_has_least_costs, table_overflow_is_overflow,
};
pub use textwrap_text::laws::{reader_shows_visible, texts_are_narrow, units_are_unique};

/// A line has exactly one list of words: it is cut between a blank and a byte that is none, and
/// nowhere else. It is what `words_of` gives.
pub fn words_are_unique()
    ensures { WordsAreUnique }
{}

/// A line has exactly one list of words at offsets of its visible text: its parts between all
/// places where a cut stands, and no others. It is what `words_at` gives.
pub fn words_at_are_unique()
    ensures { WordsAtAreUnique }
{}

/// The points of a splitter are cuts of the word, and the pieces at any cuts tile it, with its
/// whitespace. So the pieces of a list of words tile what the words do.
pub fn split_pieces_tile()
    ensures cuts { PointsAreCuts }
    ensures pieces { SplitPiecesTile }
    ensures words { SplitWordsTile }
{}

/// A word can be broken into one list of pieces, and no other: the one that is computed.
pub fn broken_pieces_are_unique()
    ensures { BrokenPiecesAreUnique }
{}

/// The pieces of a word tile its text, and where that is not empty its whitespace with it. So what
/// words cover is covered by their pieces, where each word that is too wide has a text.
pub fn broken_pieces_tile()
    ensures texts { BrokenTextsTile }
    ensures pieces { BrokenPiecesTile }
    ensures words { BrokenWordsTile }
{}
