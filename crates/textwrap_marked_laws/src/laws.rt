//! Laws of the definitions that the contracts cite. Each is the contract of a function that does
//! nothing, so that a proof may call on it.
//!
//! A law has no example: its statement is all there is to it. A call is written
//! `reflowed_texts_are_unique();`.
ghost use Rattle.textwrap_marked_laws.specs.Laws.{EarlierEndingsMakeNoDifference};
ghost use Rattle.textwrap_marked_laws.specs.Laws.{EarlierWidthsMakeNoDifference, FirstFitKeepsToWidth};
ghost use Rattle.textwrap_marked_laws.specs.Laws.{JustifiedPartsAreAsWide, LeastCostIsLeast};
ghost use Rattle.textwrap_marked_laws.specs.Laws.{LinesAloneStay, LinesAloneStayWithin, NothingIsLost};
ghost use Rattle.textwrap_marked_laws.specs.Laws.{NothingIsLostWithin, PartsAreKept, PartsAreKeptWithin};
ghost use Rattle.textwrap_marked_laws.specs.Laws.{ReflowedTextsAreUnique, ReflowedTextsStay};
ghost use Rattle.textwrap_marked_laws.specs.Laws.{WhatStandsApartStays, WordsAreKept};

/// A text becomes one text at the same options: the one that `reflow` returns.
pub fn reflowed_texts_are_unique()
    ensures { ReflowedTextsAreUnique }
{}

/// By first fit, each printed line of a paragraph keeps to the width, with the columns of its
/// prefix, or is one piece.
pub fn first_fit_keeps_to_width()
    ensures { FirstFitKeepsToWidth }
{}

/// Where lines are justified, the words stay, and each printed line of a paragraph but its last is
/// as wide as the width, with the columns of its prefix, if it has a gap and its words fit.
pub fn justified_lines_are_as_wide()
    ensures { JustifiedPartsAreAsWide }
{}

/// By least cost, the lines of a paragraph are the cheapest of all divisions of its pieces, at the
/// penalties of the options.
pub fn least_cost_is_least()
    ensures { LeastCostIsLeast }
{}

/// The new text is, part by part, the blocks of the text in order: a block that stays is in it byte
/// for byte, if no ending is asked for, and each other begins with its prefix, and each later line
/// of it with the hanging form.
pub fn what_stands_apart_stays()
    ensures { WhatStandsApartStays }
{}

/// The words of each paragraph stay: the new text is, part by part, the blocks of the text in
/// order. Those that stay have at most other endings, and the lines of each paragraph, behind its
/// prefix and the hanging form, have the words of its lines in order.
pub fn words_are_kept()
    ensures { WordsAreKept }
{}

/// Nothing is lost, mixed or added, told without a word on how a text is read: both texts have the
/// same words between white, in the same order and between the same empty lines. Only what may stand
/// in the margin of a line comes and goes: white, one comment mark, which may be one that the caller
/// declared, and quote marks. So no line has words from both sides of an empty line.
pub fn nothing_is_lost()
    ensures { NothingIsLost }
{}

/// Where only the paragraphs at some lines are filled (`reflow_within`), nothing is lost, mixed or
/// added either, told in the same way.
pub fn nothing_is_lost_within()
    ensures { NothingIsLostWithin }
{}

/// A line that no text begins behind marks is in the new text byte for byte, but for its ending, and
/// in order, and no other line there is such: of signs alone, of a fence, a heading's underline, a tag,
/// what a tool reads. So is each line with a word `|`, as a row of a table has it.
/// Both hold also where only the paragraphs at some lines are filled, if the caller did not declare
/// `|` as a mark.
pub fn lines_alone_stay()
    ensures whole { LinesAloneStay }
    ensures within { LinesAloneStayWithin }
{}

/// The new text, read again, is read as the text was: block by block and in order the same lines
/// that stay, but for their endings where another one is asked for, and the same paragraphs, each
/// with its prefix, its hanging form, its words, and what stands behind its last line.
pub fn parts_are_kept()
    ensures { PartsAreKept }
{}

/// A text of which only the paragraphs at some lines were filled (`reflow_within`), read again, is
/// read as it was before in the same way.
pub fn parts_are_kept_within()
    ensures { PartsAreKeptWithin }
{}

/// Twice is once: a new text stays as it is at the same options.
pub fn reflowed_twice_is_once()
    ensures { ReflowedTextsStay }
{}

/// Another width or algorithm first makes no difference: what a text becomes that was reflowed by
/// them before, it becomes at once. All other options are the same in both runs. Only where the
/// text between is a single line, filled lines of it and of the text have to end the same: a text
/// of CR LF lines without a final one has forgotten its ending then.
pub fn earlier_widths_make_no_difference()
    ensures { EarlierWidthsMakeNoDifference }
{}

/// Another ending first makes no difference either, if one is asked for then: what a text becomes
/// that was reflowed before with any ending, at another width or by another algorithm, it becomes
/// at once. All other options are the same in both runs.
pub fn earlier_endings_make_no_difference()
    ensures { EarlierEndingsMakeNoDifference }
{}
