//! Laws of the definitions that the contracts cite. Each is the contract of a function that does
//! nothing, so that a proof may call on it.
//!
//! A law has no example: its statement is all there is to it. A call is written
//! `carried_lines_keep_pens();`.
#![tactic(auto, using(crate::proofs::ProvedLaws::laws))]

ghost use Rattle.textwrap_styles.specs.Laws.{CarriedLinesAreAsWide, CarriedLinesAreShort};
ghost use Rattle.textwrap_styles.specs.Laws.{CarriedLinesEndPlain, CarriedLinesKeepPens};
ghost use Rattle.textwrap_styles.specs.Laws.{CarriedLinesShowTheirText, EndsAreKnown};
ghost use Rattle.textwrap_styles.specs.Laws.{LinksKeepAnId, NothingShorterGivesThePen, NumbersAreKnown};
ghost use Rattle.textwrap_styles.specs.Laws.{OpenStylesAreSetters, PlainLinesStay, StylesAreFew};
ghost use Rattle.textwrap_styles.specs.Laws.{StylesAreSetAnew, StylesGiveThePen};
ghost use Rattle.textwrap_styles.specs.Laws.{WholeLinesMayCarry};

/// The table of the settings knows each number that changes a pen by itself.
pub fn numbers_are_known()
    ensures { NumbersAreKnown }
{}

/// It takes each number for an end that leaves a plain pen plain, but for those that a colour follows.
pub fn ends_are_known()
    ensures { EndsAreKnown }
{}

/// The link and the styles that are open, set anew, give the pen and the link that all sequences
/// before have given: what a terminal writes with, told from the number of each parameter, and not
/// from what this crate takes for a style.
pub fn styles_give_the_pen()
    ensures { StylesGiveThePen }
{}

/// The styles that are open are open again once they are set anew, and no others: so too those that
/// the table does not know, of which no pen tells.
pub fn styles_are_set_anew()
    ensures { StylesAreSetAnew }
{}

/// A link that is set anew has an id, its own or one by its number, and the same one in each line until
/// another link is set or ended: so a terminal takes its parts for one link.
pub fn links_keep_an_id()
    ensures { LinksKeepAnId }
{}

/// At most 17 of the settings that are open are of kinds that the table knows.
pub fn styles_are_few()
    ensures { StylesAreFew }
{}

/// All settings that are open set something, and end nothing, if the table knows them all.
pub fn open_styles_are_setters()
    ensures { OpenStylesAreSetters }
{}

/// The open settings that the table knows and that set something are as few as can be: no sequences
/// of fewer settings give the same pen, if what the table does not know changes no pen.
pub fn nothing_shorter_gives_the_pen()
    ensures { NothingShorterGivesThePen }
{}

/// Each visible character of lines whose styles are carried, each line read by itself from a plain
/// pen, has the pen and the link that it has in the text that goes on from line to line.
pub fn carried_lines_keep_pens()
    ensures { CarriedLinesKeepPens }
{}

/// And each of these lines leaves the pen plain and no link open.
pub fn carried_lines_end_plain()
    ensures { CarriedLinesEndPlain }
{}

/// Without indents these lines, each read by itself, show what the text shows that they join to.
pub fn carried_lines_show_their_text()
    ensures { CarriedLinesShowTheirText }
{}

/// Each of these lines takes as many columns as it did.
pub fn carried_lines_are_as_wide()
    ensures { CarriedLinesAreAsWide }
{}

/// A line is longer by 17 sequences, a link and the different settings that the table does not
/// know, each at most as long as the longest sequence before it, an id, and what ends it, at most.
pub fn carried_lines_are_short()
    ensures { CarriedLinesAreShort }
{}

/// These laws hold of lines whose escape sequences end in them, under indents of which the same is
/// true and that end plain.
pub fn whole_lines_may_carry()
    ensures { WholeLinesMayCarry }
{}

/// Lines whose texts have no escape sequence stay as they are.
pub fn plain_lines_stay()
    ensures { PlainLinesStay }
{}
