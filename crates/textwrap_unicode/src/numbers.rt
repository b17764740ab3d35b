//! Numbers, which LB25 keeps together in one of two ways.
ghost use Rattle.std.specs.Prelude.{◌≡◌, chars, drop, IsCharBoundary};
ghost use Rattle.textwrap_text.specs.Escapes.{visible_in};
ghost use Rattle.textwrap_unicode.specs.Rules.{decide_by, number_first, numbers_rule};

use crate::before::Before;
use crate::rules::{Verdict, asks_behind, decide, decide_by_expression};
use textwrap_text::characters::Characters;
use textwrap_text::class_sets::{is_mark, is_number};
use textwrap_text::classes::{Unit, class_of};
use textwrap_text::escapes::State;

/// How numbers are kept together: the two forms of LB25 in the annex at Unicode 15.0.
#[derive(Clone, Copy, Debug, PartialEq, Eq)]
pub enum Numbers {
    /// By pairs of characters, which is the default there: in `equals .35 cents` no line ends
    /// within `.35`, and in `code(s)%` none does.
    ByPairs,
    /// By the expression of example 7 of the annex, which its official cases assume and later
    /// versions made the rule: an affix (`$`, `%`), an opening bracket or a hyphen, digits with
    /// signs between, a closing bracket, an affix. In `$(12.35)` no line ends; in `.35` one may
    /// before the digits, and in `code(s)%` before the percent sign.
    ByExpression,
}

/// What the rules say of the place before the next unit, which ends there in the text.
pub(crate) fn decide_in(
    text: &str,
    end: usize,
    before: &Before,
    next: Unit,
    numbers: Numbers,
) -> Verdict
    requires { IsCharBoundary text.now end }
    ensures { result
        ≡ decide_by (numbers_rule numbers (chars (drop end text.now))) before.now next }
{
    match numbers {
        Numbers::ByPairs => decide(before, next),
        Numbers::ByExpression => {
            let number_follows = asks_behind(before, next) && number_first(&text[end..]);
            decide_by_expression(before, next, number_follows)
        }
    }
}

/// The same among the visible characters of a line, which is read up to there.
pub(crate) fn decide_among_visible(
    line: &str,
    end: usize,
    state: State,
    before: &Before,
    next: Unit,
    numbers: Numbers,
) -> Verdict
    requires { IsCharBoundary line.now end }
    ensures { result
        ≡ decide_by (numbers_rule numbers (visible_in state (chars (drop end line.now))))
        before.now next }
{
    match numbers {
        Numbers::ByPairs => decide(before, next),
        Numbers::ByExpression => {
            let number_follows = asks_behind(before, next)
                && shown_number_first(state, &line[end..]);
            decide_by_expression(before, next, number_follows)
        }
    }
}

/// Whether the first character of the text that is no mark is a digit (NU).
fn number_first(text: &str) -> bool
    ensures { result ≡ number_first (chars text.now) }
{
    for c in text.chars() {
        let class = class_of(c);
        if !is_mark(class) {
            return is_number(class);
        }
    }
    false
}

/// The same of the visible characters, where the reader is in this state before the text.
fn shown_number_first(state: State, text: &str) -> bool
    ensures { result ≡ number_first (visible_in state (chars text.now)) }
{
    for character in Characters::read_on(state, text) {
        if character.is_visible {
            let class = class_of(character.ch);
            if !is_mark(class) {
                return is_number(class);
            }
        }
    }
    false
}
