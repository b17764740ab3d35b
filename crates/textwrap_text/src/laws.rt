//! Laws of the definitions that the contracts cite. Each is the contract of a function that does
//! nothing, so that a proof may call on it.
//!
//! A law has no example: its statement is all there is to it. A call is written
//! `units_are_unique();`.
ghost use Rattle.textwrap_text.specs.Laws.{ReaderShowsVisible, TextsAreNarrow, UnitsAreUnique};

/// A text has exactly one list of units: whole ones, of which the last may be an escape sequence
/// without an end. It is what `units` gives.
pub fn units_are_unique()
    ensures { UnitsAreUnique }
{}

/// The visible characters of a text are those that `State::step` shows, one after another: from each
/// state on, the first of them is the next character, or they are those after it.
pub fn reader_shows_visible()
    ensures { ReaderShowsVisible }
{}

/// No character takes more columns than its bytes in UTF-8.
pub fn texts_are_narrow()
    ensures { TextsAreNarrow }
{}
