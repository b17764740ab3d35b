//! Laws of the definitions on hyphenation.
ghost use Rattle.textwrap_hyphens.specs.Laws.{MorePatternsRaiseLevels, OneChangeIsTold};

/// Patterns that are all among others give no place a higher level than those. So their order makes
/// no difference, nor does a pattern that stands twice, and one more can only raise levels.
pub fn more_patterns_raise_levels()
    ensures { MorePatternsRaiseLevels }
{}

/// Where one number of a dictionary became another, the sum at the end or the version is wrong.
pub fn one_change_is_told()
    ensures { OneChangeIsTold }
{}
