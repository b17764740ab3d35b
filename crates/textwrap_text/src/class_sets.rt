//! The sets of classes that the rules of line breaking speak of.
ghost use Rattle.std.specs.Prelude.{◌≡◌};
ghost use Rattle.textwrap_text.specs.ClassSets.{is_mark, is_zwj, is_space};
ghost use Rattle.textwrap_text.specs.ClassSets.{is_regional_indicator, takes_no_mark};
ghost use Rattle.textwrap_text.specs.ClassSets.{is_line_end};
ghost use Rattle.textwrap_text.specs.ClassSets.{is_zero_width_space};
ghost use Rattle.textwrap_text.specs.ClassSets.{breaks_before_glue, is_closing, is_after_text};
ghost use Rattle.textwrap_text.specs.ClassSets.{is_opening};
ghost use Rattle.textwrap_text.specs.ClassSets.{is_never_first, is_hebrew};
ghost use Rattle.textwrap_text.specs.ClassSets.{is_hyphen, is_letter};
ghost use Rattle.textwrap_text.specs.ClassSets.{is_number, is_prefix, is_postfix, is_affix};
ghost use Rattle.textwrap_text.specs.ClassSets.{is_ideograph, ends_number, leads_to_number};
ghost use Rattle.textwrap_text.specs.ClassSets.{is_jamo, is_leading_jamo, follows_leading};
ghost use Rattle.textwrap_text.specs.ClassSets.{ends_in_vowel, follows_vowel, ends_in_trailing};
ghost use Rattle.textwrap_text.specs.ClassSets.{is_trailing_jamo, is_letter_or_number};
ghost use Rattle.textwrap_text.specs.ClassSets.{opens_number};
ghost use Rattle.textwrap_text.specs.ClassSets.{is_inside_number, goes_on_number};

use unicode::properties::LineBreak;

/// CM or ZWJ.
pub fn is_mark(class: LineBreak) -> bool
    ensures { result ≡ is_mark class }
{
    matches!(class, LineBreak::CombiningMark | LineBreak::Zwj)
}

pub fn is_zwj(class: LineBreak) -> bool
    ensures { result ≡ is_zwj class }
{
    matches!(class, LineBreak::Zwj)
}

/// SP.
pub fn is_space(class: LineBreak) -> bool
    ensures { result ≡ is_space class }
{
    matches!(class, LineBreak::Space)
}

/// RI.
pub fn is_regional_indicator(class: LineBreak) -> bool
    ensures { result ≡ is_regional_indicator class }
{
    matches!(class, LineBreak::RegionalIndicator)
}

/// BK, CR, LF, NL, SP or ZW: no mark belongs to it.
pub fn takes_no_mark(class: LineBreak) -> bool
    ensures { result ≡ takes_no_mark class }
{
    matches!(
        class,
        LineBreak::MandatoryBreak
            | LineBreak::CarriageReturn
            | LineBreak::LineFeed
            | LineBreak::NextLine
            | LineBreak::Space
            | LineBreak::ZWSpace
    )
}

/// BK, CR, LF or NL: ends a line.
pub fn is_line_end(class: LineBreak) -> bool
    ensures { result ≡ is_line_end class }
{
    matches!(
        class,
        LineBreak::MandatoryBreak
            | LineBreak::CarriageReturn
            | LineBreak::LineFeed
            | LineBreak::NextLine
    )
}

/// ZW.
pub fn is_zero_width_space(class: LineBreak) -> bool
    ensures { result ≡ is_zero_width_space class }
{
    matches!(class, LineBreak::ZWSpace)
}

/// SP, BA or HY.
pub fn breaks_before_glue(class: LineBreak) -> bool
    ensures { result ≡ breaks_before_glue class }
{
    matches!(
        class,
        LineBreak::Space | LineBreak::BreakAfter | LineBreak::Hyphen
    )
}

/// CL or CP.
pub fn is_closing(class: LineBreak) -> bool
    ensures { result ≡ is_closing class }
{
    matches!(
        class,
        LineBreak::ClosePunctuation | LineBreak::CloseParenthesis
    )
}

/// CL, CP, EX, IS or SY: closes what is before it.
pub fn is_after_text(class: LineBreak) -> bool
    ensures { result ≡ is_after_text class }
{
    matches!(
        class,
        LineBreak::ClosePunctuation
            | LineBreak::CloseParenthesis
            | LineBreak::Exclamation
            | LineBreak::InfixNumeric
            | LineBreak::BreakSymbols
    )
}

/// OP.
pub fn is_opening(class: LineBreak) -> bool
    ensures { result ≡ is_opening class }
{
    matches!(class, LineBreak::OpenPunctuation)
}

/// BA, HY or NS.
pub fn is_never_first(class: LineBreak) -> bool
    ensures { result ≡ is_never_first class }
{
    matches!(
        class,
        LineBreak::BreakAfter | LineBreak::Hyphen | LineBreak::Nonstarter
    )
}

/// HL.
pub fn is_hebrew(class: LineBreak) -> bool
    ensures { result ≡ is_hebrew class }
{
    matches!(class, LineBreak::HebrewLetter)
}

/// HY or BA.
pub fn is_hyphen(class: LineBreak) -> bool
    ensures { result ≡ is_hyphen class }
{
    matches!(class, LineBreak::Hyphen | LineBreak::BreakAfter)
}

/// AL or HL.
pub fn is_letter(class: LineBreak) -> bool
    ensures { result ≡ is_letter class }
{
    matches!(class, LineBreak::Alphabetic | LineBreak::HebrewLetter)
}

/// PR or PO: stands before a number or after one.
pub fn is_affix(class: LineBreak) -> bool
    ensures { result ≡ is_affix class }
{
    matches!(class, LineBreak::PrefixNumeric | LineBreak::PostfixNumeric)
}

/// ID, EB or EM.
pub fn is_ideograph(class: LineBreak) -> bool
    ensures { result ≡ is_ideograph class }
{
    matches!(
        class,
        LineBreak::Ideographic | LineBreak::EBase | LineBreak::EModifier
    )
}

/// CL, CP or NU.
pub fn ends_number(class: LineBreak) -> bool
    ensures { result ≡ ends_number class }
{
    matches!(
        class,
        LineBreak::ClosePunctuation | LineBreak::CloseParenthesis | LineBreak::Numeric
    )
}

/// PO, PR, HY, IS, NU or SY.
pub fn leads_to_number(class: LineBreak) -> bool
    ensures { result ≡ leads_to_number class }
{
    matches!(
        class,
        LineBreak::PostfixNumeric
            | LineBreak::PrefixNumeric
            | LineBreak::Hyphen
            | LineBreak::InfixNumeric
            | LineBreak::Numeric
            | LineBreak::BreakSymbols
    )
}

/// NU.
pub fn is_number(class: LineBreak) -> bool
    ensures { result ≡ is_number class }
{
    matches!(class, LineBreak::Numeric)
}

/// OP or HY: may stand between PR or PO and a number.
pub fn opens_number(class: LineBreak) -> bool
    ensures { result ≡ opens_number class }
{
    matches!(class, LineBreak::OpenPunctuation | LineBreak::Hyphen)
}

/// SY or IS: may stand inside a number.
pub fn is_inside_number(class: LineBreak) -> bool
    ensures { result ≡ is_inside_number class }
{
    matches!(class, LineBreak::BreakSymbols | LineBreak::InfixNumeric)
}

/// NU, SY, IS, CL or CP: may stand inside a number or close it.
pub fn goes_on_number(class: LineBreak) -> bool
    ensures { result ≡ goes_on_number class }
{
    matches!(
        class,
        LineBreak::Numeric
            | LineBreak::BreakSymbols
            | LineBreak::InfixNumeric
            | LineBreak::ClosePunctuation
            | LineBreak::CloseParenthesis
    )
}

/// JL, JV, JT, H2 or H3.
pub fn is_jamo(class: LineBreak) -> bool
    ensures { result ≡ is_jamo class }
{
    matches!(
        class,
        LineBreak::Jl | LineBreak::Jv | LineBreak::Jt | LineBreak::H2 | LineBreak::H3
    )
}

/// JL, JV, H2 or H3.
pub fn follows_leading(class: LineBreak) -> bool
    ensures { result ≡ follows_leading class }
{
    matches!(
        class,
        LineBreak::Jl | LineBreak::Jv | LineBreak::H2 | LineBreak::H3
    )
}

/// JV or H2.
pub fn ends_in_vowel(class: LineBreak) -> bool
    ensures { result ≡ ends_in_vowel class }
{
    matches!(class, LineBreak::Jv | LineBreak::H2)
}

/// JV or JT.
pub fn follows_vowel(class: LineBreak) -> bool
    ensures { result ≡ follows_vowel class }
{
    matches!(class, LineBreak::Jv | LineBreak::Jt)
}

/// JT or H3.
pub fn ends_in_trailing(class: LineBreak) -> bool
    ensures { result ≡ ends_in_trailing class }
{
    matches!(class, LineBreak::Jt | LineBreak::H3)
}

/// AL, HL or NU.
pub fn is_letter_or_number(class: LineBreak) -> bool
    ensures { result ≡ is_letter_or_number class }
{
    matches!(
        class,
        LineBreak::Alphabetic | LineBreak::HebrewLetter | LineBreak::Numeric
    )
}

/// PR.
pub fn is_prefix(class: LineBreak) -> bool
    ensures { result ≡ is_prefix class }
{
    matches!(class, LineBreak::PrefixNumeric)
}

/// PO.
pub fn is_postfix(class: LineBreak) -> bool
    ensures { result ≡ is_postfix class }
{
    matches!(class, LineBreak::PostfixNumeric)
}

/// JL.
pub fn is_leading_jamo(class: LineBreak) -> bool
    ensures { result ≡ is_leading_jamo class }
{
    matches!(class, LineBreak::Jl)
}

/// JT.
pub fn is_trailing_jamo(class: LineBreak) -> bool
    ensures { result ≡ is_trailing_jamo class }
{
    matches!(class, LineBreak::Jt)
}
