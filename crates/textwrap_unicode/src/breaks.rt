//! The places of a text where a line may or must end, one after the other.
ghost use Rattle.std.specs.Prelude.{◌≡◌, ◌+◌, ◌<◌, ◌^◌, List, length, chars};
ghost use Rattle.std.specs.Iterator.{YieldsFirst, item_count};
ghost use Rattle.textwrap_unicode.specs.Breaks.{breaks_by, line_breaks};
ghost use Rattle.textwrap_unicode.specs.BreaksLeft.{breaks_after};
ghost use Rattle.textwrap_unicode.specs.declared.breaks.LineBreak.{LineBreak};

use crate::before::Before;
use crate::numbers::{Numbers, decide_in};
use crate::rules::Verdict;
use std::marker::Model;
use textwrap_text::classes::Unit;

/// A place of a text where a line may or must end.
#[derive(Clone, Copy, Debug, PartialEq, Eq)]
pub struct LineBreak {
    /// How many bytes of the text come before it.
    pub at: usize,
    /// Whether a line must end there: after a line feed or its like, and at the end of the text.
    pub is_mandatory: bool,
}

/// The places of a text where a line may or must end, in order. To contracts it is the list of
/// those to come.
#[derive(Debug, Drop)]
pub struct LineBreaks<'t> {
    /// What is still to be read.
    rest: &'t str,
    /// How many bytes of the text come before it.
    at: usize,
    /// What the rules ask of these.
    before: Before,
    /// How numbers are kept together.
    numbers: Numbers,
}

/// The places of a text where a line may or must end, by the Unicode line breaking algorithm
/// ([UAX #14](https://www.unicode.org/reports/tr14/)). The last is the end, unless the text is
/// empty. `"foo bar\nbaz"` has breaks at 4, at 8, where a line must end, and at 11. Numbers are kept
/// together by pairs of characters. It allocates nothing.
pub fn line_breaks(text: &str) -> LineBreaks<'_>
    ensures { result ≡ line_breaks text.now }
{
    line_breaks_by(text, Numbers::ByPairs)
}

/// The same, with numbers kept together in this way: `"equals .35"` has a break at the end by pairs,
/// and by the expression one more, at 8.
pub fn line_breaks_by(text: &str, numbers: Numbers) -> LineBreaks<'_>
    ensures { result ≡ breaks_by numbers text.now }
{
    LineBreaks {
        rest: text,
        at: 0,
        before: Before::new(),
        numbers,
    }
}

impl<'t> Model for LineBreaks<'t> {
    ghost Value = { List LineBreak };

    ghost view = { λ breaks. breaks_after breaks.numbers breaks.before breaks.at
        (chars breaks.rest.now) };

    ghost invariant = { λ breaks. breaks.at + length breaks.rest.now < 2 ^ 64 };
}

impl<'t> Iterator for LineBreaks<'t> {
    type Item = LineBreak;

    ghost next_gives = { YieldsFirst (λ breaks. breaks) };

    ghost remaining = { item_count (λ breaks. breaks) };

    fn next(&mut self) -> Option<LineBreak> {
        let (rest, start, numbers) = (self.rest, self.at, self.numbers);
        let mut before = self.before;
        let mut is_in_word = before.is_in_word();
        for (offset, c) in rest.char_indices() {
            let unit = Unit::of(c);
            // No line ends between two letters of a word, and the second changes nothing.
            if is_in_word && unit.is_plain_letter() {
                continue;
            }
            let end = offset + c.len_utf8();
            let verdict = decide_in(rest, end, &before, unit, numbers);
            before = before.and(unit);
            is_in_word = before.is_in_word();
            let is_mandatory = match verdict {
                Verdict::Prohibited => continue,
                Verdict::Allowed => false,
                Verdict::Mandatory => true,
            };
            *self = LineBreaks {
                rest: &rest[end..],
                at: start + end,
                before,
                numbers,
            };
            return Some(LineBreak {
                at: start + offset,
                is_mandatory,
            });
        }
        if before.is_start {
            return None;
        }
        let at = start + rest.len();
        *self = LineBreaks {
            rest: "",
            at,
            before: Before::new(),
            numbers,
        };
        Some(LineBreak {
            at,
            is_mandatory: true,
        })
    }
}
