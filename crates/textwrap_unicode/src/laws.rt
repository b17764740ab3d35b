//! Laws of the definitions that the contracts cite. Each is the contract of a function that does
//! nothing, so that a proof may call on it.
//!
//! A law has no example: its statement is all there is to it. A call is written
//! `breaks_are_unique();`.
ghost use Rattle.textwrap_unicode.specs.Laws.{BreaksAreBoundaries, BreaksAreUnique, ClosingIsKept};
ghost use Rattle.textwrap_unicode.specs.Laws.{LineFeedsEndLines, LinesMustEnd, ListHasBreaks};
ghost use Rattle.textwrap_unicode.specs.Laws.{MarksAreKept, ReturnAndFeedAreKept, RulesDecide};
ghost use Rattle.textwrap_unicode.specs.Laws.{SpacesAreKept, StartsAreKept, TextsEnd};

/// The list that `line_breaks` gives has a place, with its flag, if and only if the rules say that
/// a line may or must end there.
pub fn list_has_breaks()
    ensures { ListHasBreaks }
{}

/// A text has exactly one increasing list of the places where the rules say that a line may or must
/// end. It is what `line_breaks` gives.
pub fn breaks_are_unique()
    ensures { BreaksAreUnique }
{}

/// Each break is a character boundary of the text, is above 0, and is at most the text's length.
/// The end of a text that is not empty is a break, where a line must end.
pub fn breaks_are_boundaries()
    ensures boundaries { BreaksAreBoundaries }
    ensures end { TextsEnd }
{}

/// A text has a break before a character if and only if the rules say so of the characters up to
/// there and that one, and a line must end there if and only if they say that. So what the other
/// laws say of the rules holds of the breaks.
pub fn rules_decide()
    ensures { RulesDecide }
{}

/// A line must end after a character of class BK, LF or NL, and after one of class CR that no LF
/// follows. The rules say so of no other place before a character. No line ends at the start.
pub fn lines_must_end()
    ensures start { StartsAreKept }
    ensures after { LinesMustEnd }
    ensures line_feeds { LineFeedsEndLines }
{}

/// Where no line must end, none ends before a space, a zero width space or a character that ends a
/// line. So none ends between a carriage return and the line feed after it.
pub fn spaces_are_kept()
    ensures spaces { SpacesAreKept }
    ensures return_and_feed { ReturnAndFeedAreKept }
{}

/// No line ends before a combining mark or a joiner that belongs to the character before it: one
/// that ends no line and is no space and no zero width space.
pub fn marks_are_kept()
    ensures { MarksAreKept }
{}

/// Where no line must end, none ends before a closing mark (CL, CP, EX, IS or SY), except after a
/// zero width space and the spaces that follow it.
pub fn closing_is_kept()
    ensures { ClosingIsKept }
{}
