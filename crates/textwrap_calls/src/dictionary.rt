//! A dictionary of hyphenation, as C hands it over.
ghost use Rattle.std.specs.Prelude.{◌≡◌, ◌↔◌, ◌⊎◌, [], true, MatchOption};
ghost use Rattle.textwrap_calls.specs.Dictionary.{IsDamaged, IsKnownDictionary, is_whole};
ghost use Rattle.textwrap_calls.specs.Dictionary.{hyphenation_of, with_letters};
ghost use Rattle.textwrap_hyphens.specs.Table.{held};

use textwrap_hyphens::table::{PatternTable, is_sealed};

/// A dictionary of hyphenation in numbers, and how it is used. A number that says yes or no is 1 or 0.
#[repr(C)]
#[derive(Clone, Copy)]
pub struct TextwrapDictionary<'a> {
    /// What `textwrap_patterns_read` wrote.
    pub numbers: &'a [usize],
    /// Whether the parts of a word with a hyphen are hyphenated too. If not, such a word has no points.
    pub in_parts: u32,
    /// Whether the version and the sum of the numbers are right, as `textwrap_patterns_read` or
    /// `textwrap_patterns_check` told. Then they are not tested, which would read all numbers. Numbers
    /// of which this is not so have points too, inside the word, which mean nothing.
    pub is_checked: u32,
    /// Whether soft hyphens (U+00AD) are the only points of a word in which a letter stands directly
    /// behind one.
    pub soft_hyphens: u32,
    /// 0, until a later option takes it, for which 0 will change nothing.
    pub reserved: u32,
    /// How many letters stay before a point. 0: as many as the numbers say.
    pub left: usize,
    /// How many letters stay behind a point. 0: as many as the numbers say.
    pub right: usize,
}

/// Whether each number beside those of the dictionary means something.
pub fn is_known(given: &TextwrapDictionary<'_>) -> bool
    ensures { result ≡ true ↔ IsKnownDictionary given.now }
{
    given.in_parts <= 1 && given.is_checked <= 1 && given.soft_hyphens <= 1 && given.reserved == 0
}

/// Whether these are no numbers, or those of a dictionary that is known and was not damaged.
#[tactic(auto, unfolding(crate::specs::Dictionary::is_whole))]
pub(crate) fn is_whole(given: &TextwrapDictionary<'_>) -> bool
    ensures value { result ≡ is_whole given.now }
    ensures means { result ≡ true ↔ IsKnownDictionary given.now
        × ((given.now.numbers.now ≡ []) ⊎ ¬ IsDamaged given.now) }
{
    is_known(given)
        && (given.numbers.is_empty() || given.is_checked != 0 || is_sealed(given.numbers))
}

/// The dictionary of these numbers. `None` if they are to be tested, and are damaged.
pub fn read_dictionary<'a>(given: &TextwrapDictionary<'a>) -> Option<PatternTable<'a>>
    ensures { MatchOption result (IsDamaged given.now)
        (λ table. ¬ IsDamaged given.now × (held table ≡ hyphenation_of given.now)) }
{
    if given.is_checked == 0 && !is_sealed(given.numbers) {
        return None;
    }
    Some(read_unchecked(given))
}

/// The dictionary of numbers that are known to be those of one.
pub(crate) fn read_unchecked<'a>(given: &TextwrapDictionary<'a>) -> PatternTable<'a>
    ensures { held result ≡ hyphenation_of given.now }
{
    let table = PatternTable::of_unchecked(given.numbers, given.in_parts != 0);
    with_letters(table, given.left, given.right).soft_hyphens(given.soft_hyphens != 0)
}

/// The dictionary with these numbers of letters before and behind a point, of which 0 changes none.
fn with_letters(table: PatternTable<'_>, left: usize, right: usize) -> PatternTable<'_>
    ensures { held result ≡ with_letters left right (held table.entry) }
{
    let left = if left == 0 { table.left() } else { left };
    let right = if right == 0 { table.right() } else { right };
    table.minima(left, right)
}
