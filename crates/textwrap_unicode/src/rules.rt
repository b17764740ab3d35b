//! The rules of line breaking, LB2 to LB31 of [UAX #14](https://www.unicode.org/reports/tr14/) at
//! Unicode 15.0, LB25 in two forms. Each function says whether a rule applies between what stands
//! before a place and the next unit.
ghost use Rattle.std.specs.Prelude.{◌≡◌, ◌&&◌, not};
ghost use Rattle.textwrap_text.specs.ClassSets.{is_opening};
ghost use Rattle.textwrap_unicode.specs.Rules.{lb2, lb4, lb6, lb7, lb8, lb8a, lb9, lb11, lb12};
ghost use Rattle.textwrap_unicode.specs.Rules.{lb12a, lb13, lb14, lb15, lb16, lb17, lb18, lb19};
ghost use Rattle.textwrap_unicode.specs.Rules.{lb20, lb21, lb21a, lb21b, lb22, lb23, lb23a, lb24};
ghost use Rattle.textwrap_unicode.specs.Rules.{lb25, lb26, lb27, lb28, lb29, lb30, lb30a, lb30b};
ghost use Rattle.textwrap_unicode.specs.Rules.{is_kept, is_glued, is_held, decide, decide_by};
ghost use Rattle.textwrap_unicode.specs.Rules.{lb25_by_expression, asks_behind};

use crate::before::{Before, as_letter};
use textwrap_text::class_sets::{
    breaks_before_glue, ends_in_trailing, ends_in_vowel, ends_number, follows_leading,
    follows_vowel, goes_on_number, is_affix, is_after_text, is_closing, is_hebrew, is_hyphen,
    is_ideograph, is_jamo, is_leading_jamo, is_letter, is_letter_or_number, is_line_end, is_mark,
    is_never_first, is_opening, is_postfix, is_prefix, is_regional_indicator, is_space,
    is_trailing_jamo, is_zero_width_space, leads_to_number, opens_number, takes_no_mark,
};
use textwrap_text::classes::Unit;
use unicode::properties::LineBreak;

/// What the rules say of a place.
#[derive(Clone, Copy, Debug, PartialEq, Eq)]
pub enum Verdict {
    /// A line must end there.
    Mandatory,
    /// A line may end there.
    Allowed,
    /// No line ends there.
    Prohibited,
}

/// LB2: sot ×
fn lb2(before: &Before, next: Unit) -> bool
    ensures { result ≡ lb2 before.now next }
{
    before.is_start
}

/// LB4: BK !; LB5: CR × LF, CR !, LF !, NL !
fn lb4(before: &Before, next: Unit) -> bool
    ensures { result ≡ lb4 before.now next }
{
    is_line_end(before.class)
        & !(matches!(before.class, LineBreak::CarriageReturn)
            & matches!(next.class, LineBreak::LineFeed))
}

/// LB5: CR × LF; LB6: × (BK | CR | LF | NL)
fn lb6(before: &Before, next: Unit) -> bool
    ensures { result ≡ lb6 before.now next }
{
    is_line_end(next.class)
}

/// LB7: × SP, × ZW
fn lb7(before: &Before, next: Unit) -> bool
    ensures { result ≡ lb7 before.now next }
{
    is_space(next.class) | is_zero_width_space(next.class)
}

/// LB8: ZW SP* ÷
fn lb8(before: &Before, next: Unit) -> bool
    ensures { result ≡ lb8 before.now next }
{
    is_zero_width_space(before.past_spaces)
}

/// LB8a: ZWJ ×
fn lb8a(before: &Before, next: Unit) -> bool
    ensures { result ≡ lb8a before.now next }
{
    before.is_joined
}

/// LB9: X × (CM | ZWJ), where X is no BK, CR, LF, NL, SP or ZW
fn lb9(before: &Before, next: Unit) -> bool
    ensures { result ≡ lb9 before.now next }
{
    !(takes_no_mark(before.class)) & is_mark(next.class)
}

/// LB11: × WJ, WJ ×
fn lb11(before: &Before, next: Unit) -> bool
    ensures { result ≡ lb11 before.now next }
{
    matches!(next.class, LineBreak::WordJoiner) | matches!(before.class, LineBreak::WordJoiner)
}

/// LB12: GL ×
fn lb12(before: &Before, next: Unit) -> bool
    ensures { result ≡ lb12 before.now next }
{
    matches!(before.class, LineBreak::Glue)
}

/// LB12a: [^SP BA HY] × GL
fn lb12a(before: &Before, next: Unit) -> bool
    ensures { result ≡ lb12a before.now next }
{
    !(breaks_before_glue(before.class)) & matches!(next.class, LineBreak::Glue)
}

/// LB13: × (CL | CP | EX | IS | SY)
fn lb13(before: &Before, next: Unit) -> bool
    ensures { result ≡ lb13 before.now next }
{
    is_after_text(next.class)
}

/// LB14: OP SP* ×
fn lb14(before: &Before, next: Unit) -> bool
    ensures { result ≡ lb14 before.now next }
{
    is_opening(before.past_spaces)
}

/// LB15: QU SP* × OP
fn lb15(before: &Before, next: Unit) -> bool
    ensures { result ≡ lb15 before.now next }
{
    matches!(before.past_spaces, LineBreak::Quotation) & is_opening(next.class)
}

/// LB16: (CL | CP) SP* × NS
fn lb16(before: &Before, next: Unit) -> bool
    ensures { result ≡ lb16 before.now next }
{
    is_closing(before.past_spaces) & matches!(next.class, LineBreak::Nonstarter)
}

/// LB17: B2 SP* × B2
fn lb17(before: &Before, next: Unit) -> bool
    ensures { result ≡ lb17 before.now next }
{
    matches!(before.past_spaces, LineBreak::BreakBoth) & matches!(next.class, LineBreak::BreakBoth)
}

/// LB18: SP ÷
fn lb18(before: &Before, next: Unit) -> bool
    ensures { result ≡ lb18 before.now next }
{
    is_space(before.class)
}

/// LB19: × QU, QU ×
fn lb19(before: &Before, next: Unit) -> bool
    ensures { result ≡ lb19 before.now next }
{
    matches!(next.class, LineBreak::Quotation) | matches!(before.class, LineBreak::Quotation)
}

/// LB20: ÷ CB, CB ÷
fn lb20(before: &Before, next: Unit) -> bool
    ensures { result ≡ lb20 before.now next }
{
    matches!(next.class, LineBreak::ContingentBreak)
        | matches!(before.class, LineBreak::ContingentBreak)
}

/// LB21: × (BA | HY | NS), BB ×
fn lb21(before: &Before, next: Unit) -> bool
    ensures { result ≡ lb21 before.now next }
{
    is_never_first(next.class) | matches!(before.class, LineBreak::BreakBefore)
}

/// LB21a: HL (HY | BA) ×
fn lb21a(before: &Before, next: Unit) -> bool
    ensures { result ≡ lb21a before.now next }
{
    is_hyphen(before.class) & before.follows_hebrew
}

/// LB21b: SY × HL
fn lb21b(before: &Before, next: Unit) -> bool
    ensures { result ≡ lb21b before.now next }
{
    matches!(before.class, LineBreak::BreakSymbols) & is_hebrew(next.class)
}

/// LB22: × IN
fn lb22(before: &Before, next: Unit) -> bool
    ensures { result ≡ lb22 before.now next }
{
    matches!(next.class, LineBreak::Inseparable)
}

/// LB23: (AL | HL) × NU, NU × (AL | HL)
fn lb23(before: &Before, next: Unit) -> bool
    ensures { result ≡ lb23 before.now next }
{
    (is_letter(before.class) & matches!(next.class, LineBreak::Numeric))
        | (matches!(before.class, LineBreak::Numeric) & is_letter(next.class))
}

/// LB23a: PR × (ID | EB | EM), (ID | EB | EM) × PO
fn lb23a(before: &Before, next: Unit) -> bool
    ensures { result ≡ lb23a before.now next }
{
    (is_prefix(before.class) & is_ideograph(next.class))
        | (is_ideograph(before.class) & is_postfix(next.class))
}

/// LB24: (PR | PO) × (AL | HL), (AL | HL) × (PR | PO)
fn lb24(before: &Before, next: Unit) -> bool
    ensures { result ≡ lb24 before.now next }
{
    (is_affix(before.class) & is_letter(next.class))
        | (is_letter(before.class) & is_affix(next.class))
}

/// LB25 by pairs: (CL | CP | NU) × (PO | PR), (PO | PR) × OP, (PO | PR | HY | IS | NU | SY) × NU
fn lb25(before: &Before, next: Unit) -> bool
    ensures { result ≡ lb25 before.now next }
{
    (ends_number(before.class) & is_affix(next.class))
        | (is_affix(before.class) & is_opening(next.class))
        | (leads_to_number(before.class) & matches!(next.class, LineBreak::Numeric))
}

/// LB25 by the expression of numbers in example 7 of the annex: (PR | PO) × (OP | HY)? NU,
/// (OP | HY) × NU, NU (NU | SY | IS)* × (NU | SY | IS | CL | CP),
/// NU (NU | SY | IS)* (CL | CP)? × (PR | PO). It is given whether NU stands behind the next unit.
fn lb25_by_expression(before: &Before, next: Unit, number_follows: bool) -> bool
    ensures { result ≡ lb25_by_expression number_follows before.now next }
{
    let is_number = matches!(next.class, LineBreak::Numeric);
    (is_affix(before.class) & is_number)
        | (is_affix(before.class) & opens_number(next.class) & number_follows)
        | (opens_number(before.class) & is_number)
        | (before.is_in_number & goes_on_number(next.class))
        | (before.is_past_number & is_affix(next.class))
}

/// LB26: JL × (JL | JV | H2 | H3), (JV | H2) × (JV | JT), (JT | H3) × JT
fn lb26(before: &Before, next: Unit) -> bool
    ensures { result ≡ lb26 before.now next }
{
    (is_leading_jamo(before.class) & follows_leading(next.class))
        | (ends_in_vowel(before.class) & follows_vowel(next.class))
        | (ends_in_trailing(before.class) & is_trailing_jamo(next.class))
}

/// LB27: (JL | JV | JT | H2 | H3) × PO, PR × (JL | JV | JT | H2 | H3)
fn lb27(before: &Before, next: Unit) -> bool
    ensures { result ≡ lb27 before.now next }
{
    (is_jamo(before.class) & is_postfix(next.class))
        | (is_prefix(before.class) & is_jamo(next.class))
}

/// LB28: (AL | HL) × (AL | HL)
fn lb28(before: &Before, next: Unit) -> bool
    ensures { result ≡ lb28 before.now next }
{
    is_letter(before.class) & is_letter(next.class)
}

/// LB29: IS × (AL | HL)
fn lb29(before: &Before, next: Unit) -> bool
    ensures { result ≡ lb29 before.now next }
{
    matches!(before.class, LineBreak::InfixNumeric) & is_letter(next.class)
}

/// LB30: (AL | HL | NU) × OP but a wide one, CP but a wide one × (AL | HL | NU)
fn lb30(before: &Before, next: Unit) -> bool
    ensures { result ≡ lb30 before.now next }
{
    (is_letter_or_number(before.class) & is_opening(next.class) & !next.is_wide)
        | (matches!(before.class, LineBreak::CloseParenthesis)
            & is_letter_or_number(next.class)
            & !before.is_wide)
}

/// LB30a: sot (RI RI)* RI × RI, [^RI] (RI RI)* RI × RI
fn lb30a(before: &Before, next: Unit) -> bool
    ensures { result ≡ lb30a before.now next }
{
    is_regional_indicator(next.class) & before.is_half_flag
}

/// LB30b: EB × EM, an unassigned pictograph × EM
fn lb30b(before: &Before, next: Unit) -> bool
    ensures { result ≡ lb30b before.now next }
{
    matches!(next.class, LineBreak::EModifier)
        & (matches!(before.class, LineBreak::EBase) | before.is_unassigned_pictograph)
}

/// LB5 to LB7, which forbid.
fn is_kept(before: &Before, next: Unit) -> bool
    ensures { result ≡ is_kept before.now next }
{
    lb6(before, next) | lb7(before, next)
}

/// LB11 to LB17, which forbid.
fn is_glued(before: &Before, next: Unit) -> bool
    ensures { result ≡ is_glued before.now next }
{
    lb11(before, next)
        | lb12(before, next)
        | lb12a(before, next)
        | lb13(before, next)
        | lb14(before, next)
        | lb15(before, next)
        | lb16(before, next)
        | lb17(before, next)
}

/// LB21 to LB30b, which forbid, where it is known whether LB25 does.
fn is_held(before: &Before, next: Unit, keeps_number: bool) -> bool
    ensures { result ≡ is_held (λ b n. keeps_number) before.now next }
{
    lb21(before, next)
        | lb21a(before, next)
        | lb21b(before, next)
        | lb22(before, next)
        | lb23(before, next)
        | lb23a(before, next)
        | lb24(before, next)
        | keeps_number
        | lb26(before, next)
        | lb27(before, next)
        | lb28(before, next)
        | lb29(before, next)
        | lb30(before, next)
        | lb30a(before, next)
        | lb30b(before, next)
}

/// What the rules say of the place between what stands before it and the next unit, with numbers by
/// pairs. Most places of a text are of a few kinds, for which it needs few of the rules.
#[inline]
pub fn decide(before: &Before, next: Unit) -> Verdict
    ensures { result ≡ decide before.now next }
{
    match next.class {
        LineBreak::Space if !is_line_end(before.class) => Verdict::Prohibited,
        LineBreak::Alphabetic | LineBreak::HebrewLetter | LineBreak::Numeric => {
            match before.class {
                LineBreak::Alphabetic | LineBreak::HebrewLetter | LineBreak::Numeric
                    if !is_zero_width_space(before.past_spaces) => { Verdict::Prohibited }
                LineBreak::Space if is_free(before) => Verdict::Allowed,
                _ => decide_by_pairs(before, next),
            }
        }
        LineBreak::Ideographic | LineBreak::H2 | LineBreak::H3 => match before.class {
            LineBreak::Space
            | LineBreak::ClosePunctuation
            | LineBreak::Ideographic
            | LineBreak::H2
            | LineBreak::H3
                if is_free(before) => { Verdict::Allowed }
            _ => decide_by_pairs(before, next),
        },
        _ => decide_by_pairs(before, next),
    }
}

/// Whether a rule asks for what stands behind the next unit.
pub fn asks_behind(before: &Before, next: Unit) -> bool
    ensures { result ≡ asks_behind before.now next }
{
    is_affix(before.class) & opens_number(as_letter(next).class)
}

/// What the rules say with numbers by the expression, given whether NU stands behind the next unit.
pub fn decide_by_expression(before: &Before, next: Unit, number_follows: bool) -> Verdict
    ensures { result ≡ decide_by (lb25_by_expression number_follows) before.now next }
{
    let letter = as_letter(next);
    let keeps_number = lb25_by_expression(before, letter, number_follows);
    if keeps_number == lb25(before, letter) {
        decide(before, next)
    } else {
        decide_by_rules(before, next, keeps_number)
    }
}

/// The same, by the rules one after the other.
fn decide_by_pairs(before: &Before, next: Unit) -> Verdict
    ensures { result ≡ decide before.now next }
{
    decide_by_rules(before, next, lb25(before, as_letter(next)))
}

/// Whether nothing but the class of the last unit can forbid that a line ends there.
fn is_free(before: &Before) -> bool
    ensures { result ≡ not before.now.is_start && not before.now.is_joined
        && not (is_opening before.now.past_spaces) }
{
    !before.is_start & !before.is_joined & !is_opening(before.past_spaces)
}

/// What the rules say, one after the other, where it is known whether LB25 forbids.
fn decide_by_rules(before: &Before, next: Unit, keeps_number: bool) -> Verdict
    ensures { result ≡ decide_by (λ b n. keeps_number) before.now next }
{
    let letter = as_letter(next);
    if lb2(before, next) {
        Verdict::Prohibited
    } else if lb4(before, next) {
        Verdict::Mandatory
    } else if is_kept(before, next) {
        Verdict::Prohibited
    } else if lb8(before, next) {
        Verdict::Allowed
    } else if lb8a(before, next) | lb9(before, next) | is_glued(before, letter) {
        Verdict::Prohibited
    } else if lb18(before, next) {
        Verdict::Allowed
    } else if lb19(before, letter) {
        Verdict::Prohibited
    } else if lb20(before, letter) {
        Verdict::Allowed
    } else if is_held(before, letter, keeps_number) {
        Verdict::Prohibited
    } else {
        Verdict::Allowed
    }
}
