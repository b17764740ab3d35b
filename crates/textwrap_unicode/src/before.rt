//! What stands before a place.
ghost use Rattle.std.specs.Prelude.{◌≡◌, true, false};
ghost use Rattle.unicode.specs.declared.properties.LineBreak.TheVariants.{Alphabetic, Ideographic};
ghost use Rattle.textwrap_unicode.specs.Before.{as_letter, before_of, nothing};
ghost use Rattle.textwrap_unicode.specs.BreaksLeft.{and, and_words};

use textwrap_text::class_sets::{
    is_closing, is_hebrew, is_inside_number, is_mark, is_number, is_regional_indicator, is_space,
    is_zwj, takes_no_mark,
};
use textwrap_text::classes::Unit;
use unicode::properties::LineBreak;

/// What the rules ask of the text before a place. Marks belong to the character before them.
#[derive(Clone, Copy, Debug)]
pub struct Before {
    /// Whether nothing stands there.
    pub is_start: bool,
    /// The class of the last unit.
    pub class: LineBreak,
    /// The class of the last unit that is no space.
    pub past_spaces: LineBreak,
    /// Whether the last unit but one is a Hebrew letter.
    pub follows_hebrew: bool,
    /// Whether an odd number of regional indicators stands there.
    pub is_half_flag: bool,
    /// Whether the last unit is wide.
    pub is_wide: bool,
    /// Whether the last unit is a pictograph that is not assigned yet.
    pub is_unassigned_pictograph: bool,
    /// Whether a ZWJ stands directly there.
    pub is_joined: bool,
    /// Whether a number stands there: digits, with signs between and behind (IS and SY).
    pub is_in_number: bool,
    /// Whether a number stands there, or one and a closing bracket (CL or CP) behind it.
    pub is_past_number: bool,
}

impl Before {
    /// Nothing.
    pub fn new() -> Before
        ensures { result ≡ before_of nothing }
    {
        Before {
            is_start: true,
            class: LineBreak::Unknown,
            past_spaces: LineBreak::Unknown,
            follows_hebrew: false,
            is_half_flag: false,
            is_wide: false,
            is_unassigned_pictograph: false,
            is_joined: false,
            is_in_number: false,
            is_past_number: false,
        }
    }

    /// The same, and one unit more.
    pub fn and(self, next: Unit) -> Before
        ensures { result ≡ and self next }
    {
        let is_joined = is_zwj(next.class);
        if is_mark(next.class) & !self.is_start & !takes_no_mark(self.class) {
            return Before { is_joined, ..self };
        }
        let unit = as_letter(next);
        let is_in_number = is_number(unit.class)
            | (is_inside_number(unit.class) & self.is_in_number);
        Before {
            is_start: false,
            class: unit.class,
            past_spaces: if is_space(unit.class) {
                self.past_spaces
            } else {
                unit.class
            },
            follows_hebrew: is_hebrew(self.class),
            is_half_flag: is_regional_indicator(unit.class) & !self.is_half_flag,
            is_wide: unit.is_wide,
            is_unassigned_pictograph: unit.is_unassigned_pictograph,
            is_joined,
            is_in_number,
            is_past_number: is_in_number | (is_closing(unit.class) & self.is_in_number),
        }
    }

    /// What stands there behind a letter of a word, and more letters, blanks and signs, of which the
    /// last, and the last that is no blank, are of these kinds.
    pub(crate) fn and_words(self, is_behind_blank: bool, is_behind_sign: bool) -> Before
        ensures { result ≡ and_words self is_behind_blank is_behind_sign }
    {
        let past_spaces = if is_behind_sign {
            LineBreak::InfixNumeric
        } else {
            LineBreak::Alphabetic
        };
        let class = if is_behind_blank {
            LineBreak::Space
        } else {
            past_spaces
        };
        Before {
            class,
            past_spaces,
            ..self
        }
    }

    /// Whether a letter of a word stands there, and nothing else that a rule asks for: then one
    /// more letter changes nothing.
    #[inline]
    pub(crate) fn is_in_word(&self) -> bool
        ensures { result ≡ true → self.now ≡ record {
          is_start = false;
          class = Alphabetic;
          past_spaces = Alphabetic;
          follows_hebrew = false;
          is_half_flag = false;
          is_wide = false;
          is_unassigned_pictograph = false;
          is_joined = false;
          is_in_number = false;
          is_past_number = false;
        } }
    {
        matches!(self.class, LineBreak::Alphabetic)
            & matches!(self.past_spaces, LineBreak::Alphabetic)
            & !(self.is_start | self.follows_hebrew | self.is_half_flag)
            & !(self.is_wide | self.is_unassigned_pictograph | self.is_joined)
            & !(self.is_in_number | self.is_past_number)
    }

    /// Whether a wide ideograph stands there, and nothing else that a rule asks for: then one more
    /// such ideograph changes nothing.
    #[inline]
    pub(crate) fn is_behind_ideograph(&self) -> bool
        ensures { result ≡ true → self.now ≡ record {
          is_start = false;
          class = Ideographic;
          past_spaces = Ideographic;
          follows_hebrew = false;
          is_half_flag = false;
          is_wide = true;
          is_unassigned_pictograph = false;
          is_joined = false;
          is_in_number = false;
          is_past_number = false;
        } }
    {
        matches!(self.class, LineBreak::Ideographic)
            & matches!(self.past_spaces, LineBreak::Ideographic)
            & self.is_wide
            & !(self.is_start | self.follows_hebrew | self.is_half_flag)
            & !(self.is_unassigned_pictograph | self.is_joined)
            & !(self.is_in_number | self.is_past_number)
    }
}

/// The unit, as a letter if it is a mark: LB10.
pub(crate) fn as_letter(unit: Unit) -> Unit
    ensures { result ≡ as_letter unit }
{
    if is_mark(unit.class) {
        Unit {
            class: LineBreak::Alphabetic,
            ..unit
        }
    } else {
        unit
    }
}
