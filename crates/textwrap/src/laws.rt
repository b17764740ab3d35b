//! Laws of the definitions that the contracts cite. Each is the contract of a function that does
//! nothing, so that a proof may call on it.
//!
//! A law has no example: its statement is all there is to it. A call is written
//! `margins_are_unique();`.
ghost use Rattle.textwrap.specs.Laws.{FilledInPlaceIsUnique, FilledInPlaceIsWrapped};
ghost use Rattle.textwrap.specs.Laws.{EndedPartsAreUnique, IndentsAreParts, WholeIndents};
ghost use Rattle.textwrap.specs.Laws.{IndentsComeOff, IndentsComeBack};
ghost use Rattle.textwrap.specs.Laws.{MarginsAreUnique, LinesBeginWithMargin};
ghost use Rattle.textwrap.specs.Laws.{CommonPrefixesAreUnique, RefilledIsFilled, FilledIsPlain};
ghost use Rattle.textwrap.specs.Laws.{FilledTwiceIsFilledOnce, RefillingKeepsIndents};
ghost use Rattle.textwrap.specs.Laws.{RefilledTwiceIsRefilledOnce, RowsAreParts, RowsAreEven};
ghost use Rattle.textwrap.specs.Laws.{ColumnsKeepLines};

pub use textwrap_lines::laws::{
    broken_pieces_are_unique, broken_pieces_tile, chosen_division_is_unique,
    greedy_division_is_unique, lines_are_unique, paragraphs_are_unique, pieces_are_unique,
    split_pieces_tile, table_division_is_unique, table_has_least_costs, table_overflow_is_overflow,
    text_lines_are_wrapped, texts_are_narrow, units_are_unique, words_are_unique,
    words_at_are_unique,
};

/// At each width a text is filled in place in one way. Its new lines, each without the blanks at its
/// end, are those that `wrap` gives of the old text by first fit, with the default settings but words
/// neither split nor broken. All of these are borrowed.
pub fn filled_in_place_is_wrapped()
    ensures unique { FilledInPlaceIsUnique }
    ensures wrapped { FilledInPlaceIsWrapped }
{}

/// A text is cut after each line feed in exactly one way. A prefix without line feeds leaves the
/// cuts where they are: the parts of the indented text are those of the text, each indented. Where
/// the prefix has no whitespace at its end, or no part is blank, the whole prefix stands before
/// each part, and taken off again it leaves the text. Else, as with the prefix `"> "` of a quoted mail
/// that has blank lines, the text comes back where each part loses the whole prefix, and a blank one
/// the prefix without the whitespace at its end.
pub fn indents_are_parts()
    ensures cut { EndedPartsAreUnique }
    ensures parts { IndentsAreParts }
    ensures whole { WholeIndents }
    ensures come_off { IndentsComeOff }
    ensures come_back { IndentsComeBack }
{}

/// A text has exactly one margin, the one that `margin_of` gives, and each line that is not blank
/// begins with it.
pub fn margins_are_unique()
    ensures unique { MarginsAreUnique }
    ensures begins { LinesBeginWithMargin }
{}

/// Texts have exactly one common prefix: each begins with it, and with none that is longer. It is
/// what `common_prefix` gives.
pub fn common_prefixes_are_unique()
    ensures { CommonPrefixesAreUnique }
{}

/// A plain text is words with one blank or one line feed between each two, and no word of it begins
/// with a prefix character. Without indents, `refill` gives of it what `fill` gives of the text
/// with a blank in the place of each line feed. If it has no line feeds and is filled with words
/// neither split nor broken, no blanks preserved and LF as the line ending, the filled text is plain
/// too, and only blanks became line feeds. So `refill` after such a `fill` gives what a single
/// `fill` gives with the options of the second call.
pub fn refilling_is_filling()
    ensures refilled { RefilledIsFilled }
    ensures plain { FilledIsPlain }
    ensures twice { FilledTwiceIsFilledOnce }
{}

/// Let a plain text without line feeds be filled so under an initial and a subsequent indent of
/// prefix characters, either of which may be empty, and get two lines or more. Then `refill` finds
/// the indents, and gives what a single `fill` of the text gives under these indents with all other
/// options of the second call. Where the second call keeps words whole too, ends lines in LF,
/// preserves no blanks, and its text has two lines or more, a third call gives what it would have given of the text that was filled first.
pub fn refilling_keeps_indents()
    ensures indents { RefillingKeepsIndents }
    ensures twice { RefilledTwiceIsRefilledOnce }
{}

/// In a row of columns, the gaps, the lines in its cells, their blanks and the spare blanks are its
/// text. Where no line is wider than a column, and the gaps leave room for all columns, these
/// parts, each measured by itself, take together exactly the width.
pub fn rows_are_even()
    ensures parts { RowsAreParts }
    ensures even { RowsAreEven }
{}

/// The cells of a table, read one column after another, are the lines, and after these empty ones.
/// So no line is lost, and none is shown twice.
pub fn columns_keep_lines()
    ensures { ColumnsKeepLines }
{}
