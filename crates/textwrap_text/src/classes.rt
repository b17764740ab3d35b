//! What the rules of line breaking ask of a character.
ghost use Rattle.std.specs.Prelude.{◌≡◌, ◌≤◌, ◌&&◌, true, false};
ghost use Rattle.textwrap_text.specs.Ideographs.{IsCommonIdeograph};
ghost use Rattle.unicode.specs.Binary.{is_extended_pictographic};
ghost use Rattle.unicode.specs.GeneralCategory.{general_category};
ghost use Rattle.unicode.specs.declared.properties.LineBreak.TheVariants.{Alphabetic, Ideographic};
ghost use Rattle.textwrap_text.specs.Classes.{class_of, is_unassigned, is_wide, resolve};
ghost use Rattle.textwrap_text.specs.Classes.{resolve_complex, unit_of};

use crate::ascii::CLASSES;
use crate::japanese::{SYLLABLES, WIDE};
use unicode::properties::{EastAsianWidth, GeneralCategory, LineBreak, is_extended_pictographic};

/// What the rules ask of a character.
#[derive(Clone, Copy, Debug)]
pub struct Unit {
    /// Its class: a value of the property `Line_Break` that LB1 leaves.
    pub class: LineBreak,
    /// Whether its East Asian width is F, W or H.
    pub is_wide: bool,
    /// Whether it is a pictograph that is not assigned yet.
    pub is_unassigned_pictograph: bool,
}

impl Unit {
    /// What the rules ask of this character.
    #[inline]
    #[tactic(auto, using(crate::proofs::ClassLemmas::ascii_unit, crate::proofs::ClassLemmas::ideograph_unit))]
    pub fn of(c: char) -> Unit
        ensures { result ≡ unit_of c }
    {
        let code = c as usize;
        // No ASCII character is wide, and none is a pictograph without an assignment.
        if code < 128 {
            return Unit {
                class: CLASSES[code],
                is_wide: false,
                is_unassigned_pictograph: false,
            };
        }
        // The block of the common ideographs, which most of a Chinese text is.
        if 0x4E00 <= code && code <= 0x9FFF {
            return Unit {
                class: LineBreak::Ideographic,
                is_wide: true,
                is_unassigned_pictograph: false,
            };
        }
        if 0x3000 <= code && code <= 0x30FF {
            return japanese_unit(code);
        }
        Unit {
            class: class_of(c),
            is_wide: is_wide(EastAsianWidth::for_char(c)),
            is_unassigned_pictograph: is_unassigned_pictograph(c),
        }
    }

    /// Whether the rules ask nothing more of it than that it is a letter.
    #[inline]
    pub fn is_plain_letter(self) -> bool
        ensures { result ≡ true → self ≡ record {
          class = Alphabetic;
          is_wide = false;
          is_unassigned_pictograph = false;
        } }
    {
        matches!(self.class, LineBreak::Alphabetic) & !self.is_wide & !self.is_unassigned_pictograph
    }

    /// Whether the rules ask nothing more of it than that it is an ideograph, and a wide one.
    #[inline]
    pub fn is_wide_ideograph(self) -> bool
        ensures { result ≡ true → self ≡ record {
          class = Ideographic;
          is_wide = true;
          is_unassigned_pictograph = false;
        } }
    {
        matches!(self.class, LineBreak::Ideographic) & self.is_wide & !self.is_unassigned_pictograph
    }
}

/// What the rules ask of a sign or a syllable of Japanese.
#[inline]
fn japanese_unit(code: usize) -> Unit
    requires from { 0x3000 ≤ code }
    requires to { code ≤ 0x30FF }
    ensures { result ≡ unit_of code }
{
    // None is a pictograph without an assignment.
    Unit {
        class: SYLLABLES[code - 0x3000],
        is_wide: WIDE[code - 0x3000],
        is_unassigned_pictograph: false,
    }
}

/// Whether this is a common ideograph, or a syllable of Japanese that is like one to the rules. Each of
/// these takes three bytes.
#[inline]
#[tactic(auto, using(crate::proofs::ClassLemmas::ideograph_unit))]
pub fn is_common_ideograph(c: char) -> bool
    ensures { result ≡ true → IsCommonIdeograph c }
{
    let code = c as usize;
    if 0x4E00 <= code && code <= 0x9FFF {
        return true;
    }
    0x3000 <= code && code <= 0x30FF && japanese_unit(code).is_wide_ideograph()
}

/// The class of a character, by LB1. Its category matters for SA alone, so only then is it looked
/// up.
#[inline]
pub fn class_of(c: char) -> LineBreak
    ensures { result ≡ class_of c }
{
    match LineBreak::for_char(c) {
        LineBreak::ComplexContext => resolve_complex(GeneralCategory::for_char(c)),
        value => resolve(value, GeneralCategory::Unassigned),
    }
}

/// Whether it is a pictograph that is not assigned yet. The first such one is past U+1F000, so for
/// most texts nothing is looked up.
#[inline]
#[tactic(auto, using(crate::proofs::ClassLemmas::early_assigned))]
fn is_unassigned_pictograph(c: char) -> bool
    ensures { result ≡ is_extended_pictographic c && is_unassigned (general_category c) }
{
    c as u32 >= 0x1F000
        && is_extended_pictographic(c)
        && is_unassigned(GeneralCategory::for_char(c))
}

fn resolve(value: LineBreak, category: GeneralCategory) -> LineBreak
    ensures { result ≡ resolve value category }
{
    match value {
        LineBreak::Ambiguous | LineBreak::Surrogate | LineBreak::Unknown => LineBreak::Alphabetic,
        LineBreak::Aksara | LineBreak::AksaraPrebase | LineBreak::AksaraStart => {
            LineBreak::Alphabetic
        }
        LineBreak::ComplexContext => resolve_complex(category),
        LineBreak::ConditionalJapaneseStarter => LineBreak::Nonstarter,
        LineBreak::Virama | LineBreak::ViramaFinal => LineBreak::CombiningMark,
        LineBreak::UnambiguousHyphen => LineBreak::BreakAfter,
        class => class,
    }
}

fn resolve_complex(category: GeneralCategory) -> LineBreak
    ensures { result ≡ resolve_complex category }
{
    match category {
        GeneralCategory::NonspacingMark | GeneralCategory::SpacingMark => LineBreak::CombiningMark,
        _ => LineBreak::Alphabetic,
    }
}

fn is_wide(width: EastAsianWidth) -> bool
    ensures { result ≡ is_wide width }
{
    matches!(
        width,
        EastAsianWidth::Fullwidth | EastAsianWidth::Wide | EastAsianWidth::Halfwidth
    )
}

fn is_unassigned(category: GeneralCategory) -> bool
    ensures { result ≡ is_unassigned category }
{
    matches!(category, GeneralCategory::Unassigned)
}
