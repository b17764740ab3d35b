//! Facts about the definitions.
ghost use Rattle.textwrap_plain.specs.Laws.{AddHyphensAlone, AreAtPoints, ArePrintedWithHyphens};
ghost use Rattle.textwrap_plain.specs.Laws.{AreTheTextBeside, AreWrapped, CellsKeepToColumns};
ghost use Rattle.textwrap_plain.specs.Laws.{HyphenatedLinesAreUnique, HyphenatedTextIsUnique};
ghost use Rattle.textwrap_plain.specs.Laws.{KeepToWidthButHyphens, KeepToWidthWithHyphens};
ghost use Rattle.textwrap_plain.specs.Laws.{PlainIsAtPoints, PlainLinesAreUnique};
ghost use Rattle.textwrap_plain.specs.Laws.{PlainTextIsUnique};

use textwrap::Options;
use textwrap_hyphens::table::PatternTable;

/// Under any options without functions a text has one list of lines, and one filled text.
pub fn plain_lines_are_unique()
    ensures lines { PlainLinesAreUnique }
    ensures text { PlainTextIsUnique }
{}

/// By any dictionary, between blanks and by a built-in algorithm, a text has one list of lines, and one
/// filled text.
pub fn hyphenated_lines_are_unique()
    ensures lines { HyphenatedLinesAreUnique }
    ensures text { HyphenatedTextIsUnique }
{}

/// Where words stand between blanks, options without functions divide a paragraph by a dictionary as
/// options that may hold functions do by [`Hyphenated`](crate::parts::Hyphenated).
pub fn plain_words_at_blanks()
    ensures { PlainIsAtPoints }
{}

/// By [`Hyphenated`](crate::parts::Hyphenated) of any options, also of those with functions of a caller,
/// and under any layout, behind a line nothing is printed, or a hyphen, and between lines only blanks are
/// lost; by a built-in algorithm, indents, hyphens and these blanks apart, the lines are the text. By first
/// fit, where words are broken, a line passes its width only where it is one piece, by its hyphen or as one
/// character that takes columns. Where hyphens have room, even paragraphs keep to the width with them, and
/// so do lines as they are printed, if they can. Where words stand between blanks, and the algorithm is
/// built in, a paragraph is divided as its words, the dictionary and the algorithm alone say.
pub fn hyphenated_lines(options: &Options<'_>, patterns: &PatternTable<'_>)
    ensures wrapped { AreWrapped options.now patterns.now }
    ensures hyphens { AddHyphensAlone options.now patterns.now }
    ensures spelled { AreTheTextBeside options.now patterns.now }
    ensures keep { KeepToWidthButHyphens options.now patterns.now }
    ensures even { KeepToWidthWithHyphens options.now patterns.now }
    ensures printed { ArePrintedWithHyphens options.now patterns.now }
    ensures built_in { AreAtPoints options.now patterns.now }
{}

/// The lines of a table's cells keep to their columns, as `table_rows_are_even` of `textwrap_display`
/// asks for, where first fit breaks the words of each text, no blanks at line ends are kept, paragraphs
/// are even or there is one alone, neither text nor indents have escape sequences, and each character
/// has room in its column, behind the indent, with a hyphen where a dictionary splits words.
pub fn cells_keep_to_columns()
    ensures { CellsKeepToColumns }
{}
