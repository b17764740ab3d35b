//! Laws of the definitions that the contracts cite. Each is the contract of a function that does
//! nothing, so that a proof may call on it.
//!
//! A law has no example: its statement is all there is to it. A call is written
//! `lines_are_unique();`.
ghost use Rattle.textwrap_lines.specs.Laws.{ParagraphsAreUnique, PiecesAreUnique};
ghost use Rattle.textwrap_lines.specs.Laws.{DividedLinesAreUnique, ParagraphLinesAreUnique};
ghost use Rattle.textwrap_lines.specs.Laws.{TextLinesAreUnique, FilledTextIsUnique};
ghost use Rattle.textwrap_lines.specs.Laws.{TextLinesAreWrapped, EvenLinesKeepToWidth};
ghost use Rattle.textwrap_lines.specs.Laws.{PrintedLinesKeepToWidth};

pub use textwrap_words::laws::{
    broken_pieces_are_unique, broken_pieces_tile, chosen_division_is_unique,
    greedy_division_is_unique, split_pieces_tile, table_division_is_unique, table_has_least_costs,
    table_overflow_is_overflow, texts_are_narrow, units_are_unique, words_are_unique,
    words_at_are_unique,
};

/// A text has its paragraphs in exactly one way: joined by the ending they are the text, and none
/// has an ending in it. They are what `paragraphs_of` gives.
pub fn paragraphs_are_unique()
    ensures { ParagraphsAreUnique }
{}

/// By a built-in separator and a built-in splitter a paragraph is cut into exactly the pieces that
/// `pieces_of` gives.
pub fn pieces_are_unique()
    ensures { PiecesAreUnique }
{}

/// By built-in parts a paragraph has one list of lines, as a whole or divided, a text has one, and one
/// filled text, whatever else the options say. So the contracts of `wrap`, `fill` and `fuzzing` leave
/// them no choice.
pub fn lines_are_unique()
    ensures divided { DividedLinesAreUnique }
    ensures paragraph { ParagraphLinesAreUnique }
    ensures text { TextLinesAreUnique }
    ensures filled { FilledTextIsUnique }
{}

/// By built-in parts, the lines of a text, and so those that `fill` joins, are at least one, lose only
/// blanks and add only indents. By first fit, where words are broken, they keep to their widths; where
/// paragraphs are even, they keep to the width with their indents, if they can. So they do as they are
/// printed, in the columns that `display_width` measures, if no blanks are preserved and neither an
/// indent nor a piece cuts an escape sequence; for this a text of one paragraph need not be even.
pub fn text_lines_are_wrapped()
    ensures wrapped { TextLinesAreWrapped }
    ensures even { EvenLinesKeepToWidth }
    ensures printed { PrintedLinesKeepToWidth }
{}
