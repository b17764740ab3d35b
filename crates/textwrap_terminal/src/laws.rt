//! Laws of the definitions that the contracts cite. Each is the contract of a function that does
//! nothing, so that a proof may call on it.
//!
//! A law has no example: its statement is all there is to it. A call is written
//! `terminal_units_are_unique();`.
ghost use Rattle.textwrap_terminal.specs.Laws.{TerminalUnitsAreUnique, StrippedTextsAreMeasured};
ghost use Rattle.textwrap_terminal.specs.Laws.{StrippedTextsStay};

/// A text has exactly one list of units on a terminal: whole ones, of which the last may be a
/// sequence without an end. It is what `terminal_units` gives.
pub fn terminal_units_are_unique()
    ensures { TerminalUnitsAreUnique }
{}

/// What `strip_other_sequences` leaves of a text has for `display_width` the columns that the text
/// takes on a terminal.
pub fn stripped_texts_are_measured()
    ensures { StrippedTextsAreMeasured }
{}

/// From what `strip_other_sequences` leaves of a text, a second call drops nothing.
pub fn stripped_texts_stay()
    ensures { StrippedTextsStay }
{}
