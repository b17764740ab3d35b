//! Laws of the definitions that the contracts cite. Each is the contract of a function that does
//! nothing, so that a proof may call on it.
//!
//! A law has no example: its statement is all there is to it. A call is written
//! `aligned_lines_are_as_wide();`.
#![tactic(auto, using(crate::proofs::ProvedLaws::laws))]

ghost use Rattle.std.specs.Prelude.{ℕ, List};
ghost use Rattle.textwrap_display.specs.JustifiedText.{IsJustifiedText};
ghost use Rattle.textwrap_display.specs.Tables.{AreTableRows, ColumnParts, HaveParts, IsTableOf};
ghost use Rattle.textwrap_display.specs.Tables.{RowGaps};
ghost use Rattle.textwrap_layout.specs.Options.{HasParts, Settings, settings_view};
ghost use Rattle.textwrap_layout.specs.Paragraph.{DividesAs, DividesBy};
ghost use Rattle.textwrap_words.specs.WordSplitters.{Splitter};
ghost use Rattle.textwrap_words.specs.WrapAlgorithms.{Algorithm};
ghost use Rattle.textwrap_display.specs.Laws.{AlignedLinesAreAsWide, AlignedLinesKeepPens};
ghost use Rattle.textwrap_display.specs.Laws.{ExpandedTextsStay, TableRowsKeepPens};
ghost use Rattle.textwrap_display.specs.Laws.{FittingWidthsAddUp, FittingWidthsHoldLines};
ghost use Rattle.textwrap_display.specs.Laws.{FittingWidthsHoldWords, FittingWidthsKeepToLines};
ghost use Rattle.textwrap_display.specs.Laws.{FittingWidthsKeepToWords, JustifiedLinesAreAsWide};
ghost use Rattle.textwrap_display.specs.Laws.{JustifiedLinesKeepPens, JustifiedLinesKeepWords};
ghost use Rattle.textwrap_display.specs.Laws.{KeptBeginningsAreUnique};
ghost use Rattle.textwrap_display.specs.Laws.{KeptWordsAreTheFirst, LinesAreExpandedApart};
ghost use Rattle.textwrap_display.specs.Laws.{NoTabIsLeft, ShortenedLinesAreClosed};
ghost use Rattle.textwrap_display.specs.Laws.{ShortenedLinesKeepPens, ShortenedLinesKeepToWidth};
ghost use Rattle.textwrap_display.specs.Laws.{TableRowsAreEven, TablesShowEachLineOnce};
ghost use Rattle.textwrap_display.specs.Laws.{TabsCutTexts, TabsReachStops, TextsWithoutTabsStay};

use crate::tables::Column;
use textwrap::Options;
pub use textwrap_styles::laws::{
    carried_lines_are_as_wide, carried_lines_are_short, carried_lines_end_plain,
    carried_lines_keep_pens, carried_lines_show_their_text, ends_are_known, links_keep_an_id,
    nothing_shorter_gives_the_pen, numbers_are_known, open_styles_are_setters, plain_lines_stay,
    styles_are_few, styles_are_set_anew, styles_give_the_pen, whole_lines_may_carry,
};

/// A line that is not wider than the width is exactly as wide once it is aligned, if its escape
/// sequences end in it.
pub fn aligned_lines_are_as_wide()
    ensures { AlignedLinesAreAsWide }
{}

/// A line that is whole and leaves the pen plain and no link open is such a text once it is aligned, and
/// shows what it shows between plain blanks.
pub fn aligned_lines_keep_pens()
    ensures { AlignedLinesKeepPens }
{}

/// A line that is not wider than the width, and has a gap between words, is exactly as wide once it
/// is justified, if the escape sequences of each word end in it.
pub fn justified_lines_are_as_wide()
    ensures { JustifiedLinesAreAsWide }
{}

/// A justified line has the words of the line, in their order, and begins with the same blanks.
/// Each word but the last has the same number of blanks more after it, and the first ones have one
/// more than that.
pub fn justified_lines_keep_words()
    ensures { JustifiedLinesKeepWords }
{}

/// A justified line shows the same but for blanks, each character with the pen and the link that it has
/// in the line, if the escape sequences of each word end in it.
pub fn justified_lines_keep_pens()
    ensures { JustifiedLinesKeepPens }
{}

/// Only one number of bytes may be kept of a line that is cut, so it becomes only one line.
pub fn kept_beginnings_are_unique()
    ensures { KeptBeginningsAreUnique }
{}

/// A line that was cut takes no more columns than the width, if the placeholder alone does not.
pub fn shortened_lines_keep_to_width()
    ensures { ShortenedLinesKeepToWidth }
{}

/// Where a line was cut, no style and no link is open before the placeholder.
pub fn shortened_lines_are_closed()
    ensures { ShortenedLinesAreClosed }
{}

/// What is kept of a line that was cut shows the first of what the line shows, each character with
/// the pen and the link that it has in the line. Behind it the placeholder shows what it shows by
/// itself.
pub fn shortened_lines_keep_pens()
    ensures { ShortenedLinesKeepPens }
{}

/// Where no word is to be cut, none is: the words of what is kept are the first words of the line.
pub fn kept_words_are_the_first()
    ensures { KeptWordsAreTheFirst }
{}

/// Each row of a table is exactly as wide as its gaps and its columns together, if no line is wider
/// than its column, and the escape sequences of the lines, of the left gap and of the middle one
/// end in them.
pub fn table_rows_are_even()
    ensures { TableRowsAreEven }
{}

/// Where the lines of the cells, the left gap and the middle one are whole and leave the pen plain and
/// no link open, a row shows what each of its gaps and texts shows by itself, with its pens and links.
pub fn table_rows_keep_pens()
    ensures { TableRowsKeepPens }
{}

/// Each row of a group of cells shows one text in each column, between the gaps. In a column these
/// are, from the first row to the last, the lines of its cell, each aligned, and below them blanks.
/// So no line is lost, none is shown twice, and the last column is no exception.
pub fn tables_show_each_line_once()
    ensures { TablesShowEachLineOnce }
{}

/// The widths of columns that fit what stands in them are exactly the total together, whatever it
/// is, if there is a column.
pub fn fitting_widths_add_up()
    ensures { FittingWidthsAddUp }
{}

/// Where the widest words of all columns have room in the total, no column is narrower than its
/// widest word.
pub fn fitting_widths_hold_words()
    ensures { FittingWidthsHoldWords }
{}

/// Where the widest lines of all columns have room in the total, no column is narrower than its
/// widest line.
pub fn fitting_widths_hold_lines()
    ensures { FittingWidthsHoldLines }
{}

/// Where they have just room or none, no column is wider than its widest line.
pub fn fitting_widths_keep_to_lines()
    ensures { FittingWidthsKeepToLines }
{}

/// Where not even the widest words have room, no column is wider than its widest word.
pub fn fitting_widths_keep_to_words()
    ensures { FittingWidthsKeepToWords }
{}

/// A text whose tabs were expanded has none.
pub fn no_tab_is_left()
    ensures { NoTabIsLeft }
{}

/// A text without a tab stays as it is if its tabs are expanded.
pub fn texts_without_tabs_stay()
    ensures { TextsWithoutTabsStay }
{}

/// So does a text whose tabs were expanded before, at whatever stops.
pub fn expanded_texts_stay()
    ensures { ExpandedTextsStay }
{}

/// What a tab becomes ends at a column of its line that `stop` divides, if neither this tab nor one
/// before it cuts an escape sequence of its line.
pub fn tabs_reach_stops()
    ensures { TabsReachStops }
{}

/// What follows a tab is expanded as if it stood alone.
pub fn tabs_cut_texts()
    ensures { TabsCutTexts }
{}

/// Each line is expanded as if it stood alone.
pub fn lines_are_expanded_apart()
    ensures { LinesAreExpandedApart }
{}

/// By options whose parts are built in and can be named, a justified text is what these parts say.
pub fn justified_texts_have_named_parts(options: &Options<'_>)
    ensures { (settings : Settings) (splitter : Splitter) (algorithm : Algorithm)
        → HasParts options.now settings splitter algorithm → (text filled : List ℕ)
        → IsJustifiedText (settings_view options.now) (DividesBy options.now) text filled
        → IsJustifiedText settings (DividesAs splitter algorithm settings) text filled }
{}

/// And so is a table whose columns have such options.
pub fn tables_have_named_parts(columns: &[Column<'_, Options<'_>>])
    ensures { (parts : List ColumnParts) → HaveParts columns.now parts
        → (gaps : RowGaps) (texts rows : List (List ℕ)) → AreTableRows columns.now gaps texts rows
        → IsTableOf parts gaps texts rows }
{}
