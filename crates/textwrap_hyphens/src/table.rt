//! A dictionary in one list of numbers, which holds no address of memory.
ghost use Rattle.std.specs.Prelude.{◌≡◌, ℕ, ◌-◌, ◌<◌, ◌≤◌, List, true, false, None, Some, MatchOption, length};
ghost use Rattle.std.specs.Prelude.{max, min, slice_index};
ghost use Rattle.textwrap_patterns.specs.Places.{AreInnerPlaces};
ghost use Rattle.textwrap_hyphens.specs.InnerPlaces.{inner_places};
ghost use Rattle.textwrap_hyphens.specs.Seal.{from_end, is_sealed, sum_of};
ghost use Rattle.textwrap_hyphens.specs.Table.{held, levels_by};

use textwrap_patterns::lookup::Trie;
use textwrap_patterns::written::are_inner;

/// What the first number of a table says: "Twh", and a number that is raised where the layout changes.
pub(crate) const VERSION: usize = 0x5477_6805;

/// A dictionary of hyphenation in numbers that somebody holds. They hold no address of memory, so
/// they may be copied, and kept in a file.
#[derive(Clone, Copy, Debug)]
pub struct PatternTable<'t> {
    words: &'t [usize],
    in_parts: bool,
    left: usize,
    right: usize,
    soft_hyphens: bool,
}

impl<'t> PatternTable<'t> {
    ghost use Rattle.textwrap_hyphens.specs.Table.{held, held_in};

    /// The dictionary of these numbers, as [`PatternTable::words`] has them. `None` where they are
    /// none of this version, or where the sum at their end is wrong, as it is where one number became
    /// another. `in_parts` says whether the parts of a word with hyphens are hyphenated. The call
    /// always succeeds; it reads all numbers.
    pub fn of(words: &'t [usize], in_parts: bool) -> Option<PatternTable<'t>>
        ensures { MatchOption result (is_sealed words.now ≡ false)
            (λ table. (is_sealed words.now ≡ true) × (held table ≡ held_in words.now in_parts)) }
    {
        if is_sealed(words) {
            Some(PatternTable::of_unchecked(words, in_parts))
        } else {
            None
        }
    }

    /// The dictionary of these numbers, where the caller knows that they are one of this version. It
    /// tests none of them. Numbers that are no dictionary give points that mean nothing, but nothing
    /// outside of them is read. The call always succeeds.
    pub fn of_unchecked(words: &'t [usize], in_parts: bool) -> PatternTable<'t>
        ensures { held result ≡ held_in words.now in_parts }
    {
        PatternTable {
            words,
            in_parts,
            left: from_end(words, 3),
            right: from_end(words, 2),
            soft_hyphens: false,
        }
    }

    /// The same dictionary, where a point has at least `left` letters before it and `right` behind
    /// it, whatever its numbers say. The call always succeeds.
    pub fn minima(self, left: usize, right: usize) -> PatternTable<'t>
        ensures { held result ≡ record (held self.entry) { left = left; right = right } }
    {
        PatternTable {
            left,
            right,
            ..self
        }
    }

    /// The same dictionary, where soft hyphens (U+00AD) are the only points of a word in which a letter
    /// stands directly behind one, or not. At first they are not. The call always succeeds.
    pub fn soft_hyphens(self, soft_hyphens: bool) -> PatternTable<'t>
        ensures { held result ≡ record (held self.entry) { soft_hyphens = soft_hyphens } }
    {
        PatternTable {
            soft_hyphens,
            ..self
        }
    }

    /// The numbers of the dictionary, from which [`PatternTable::of`] makes it again, but for what
    /// [`PatternTable::minima`] and [`PatternTable::soft_hyphens`] set. The call always succeeds.
    pub fn words(&self) -> &'t [usize]
        ensures { held self.now ≡ record (held_in result.now (held self.now).in_parts) {
          left = (held self.now).left;
          right = (held self.now).right;
          soft_hyphens = (held self.now).soft_hyphens;
        } }
    {
        self.words
    }

    /// How many letters stay before a point. The call always succeeds.
    pub fn left(&self) -> usize
        ensures { result ≡ (held self.now).left }
    {
        self.left
    }

    /// How many letters stay behind a point. The call always succeeds.
    pub fn right(&self) -> usize
        ensures { result ≡ (held self.now).right }
    {
        self.right
    }

    /// At how many patterns letters would change, where no point is. The call always succeeds.
    pub fn changed(&self) -> usize
        ensures { result ≡ (held self.now).changed }
    {
        from_end(self.words, 12)
    }

    /// Whether the parts of a word with hyphens are hyphenated.
    pub(crate) fn in_parts(&self) -> bool
        ensures { result ≡ (held self.now).in_parts }
    {
        self.in_parts
    }

    /// Whether soft hyphens are the only points of a word that has them.
    pub(crate) fn has_soft_hyphens(&self) -> bool
        ensures { result ≡ (held self.now).soft_hyphens }
    {
        self.soft_hyphens
    }

    /// The places of the exception with these letters.
    pub(crate) fn exception(&self, letters: &[char]) -> Option<&'t [usize]>
        ensures { MatchOption result ((held self.now).exception letters.now ≡ None)
            (λ places. (held self.now).exception letters.now ≡ Some places.now) }
    {
        match Trie::at(self.words, from_end(self.words, 6)).numbers_for(letters) {
            Some(places) => inner_places(letters.len(), places),
            None => None,
        }
    }

    /// How many letters stay between a joint of a compound and a hyphen behind it.
    pub(crate) fn compound_left(&self) -> usize
        ensures { result ≡ (held self.now).compound_left }
    {
        from_end(self.words, 8)
    }

    /// How many letters stay between a hyphen and a joint behind it.
    pub(crate) fn compound_right(&self) -> usize
        ensures { result ≡ (held self.now).compound_right }
    {
        from_end(self.words, 7)
    }

    /// Where its patterns of joints stand, if there are any.
    pub(crate) fn joints(&self) -> Option<PatternTrie<'t>>
        ensures { MatchOption result
            ((text : List ℕ) (place : ℕ) → (held self.now).joint_from text place ≡ 0)
            (λ trie. (text : List ℕ) (place : ℕ)
            → (held self.now).joint_from text place ≡ levels_by trie text place) }
    {
        if from_end(self.words, 11) == 0 {
            return None;
        }
        Some(PatternTrie {
            trie: Trie::at(self.words, from_end(self.words, 10)),
            longest: from_end(self.words, 9),
        })
    }

    /// Where its patterns stand.
    pub(crate) fn patterns(&self) -> PatternTrie<'t>
        ensures levels { levels_by result ≡ (held self.now).level_from }
        ensures longest { result.longest ≡ (held self.now).longest }
    {
        PatternTrie {
            trie: Trie::at(self.words, from_end(self.words, 5)),
            longest: from_end(self.words, 4),
        }
    }
}

/// The patterns of a dictionary: a trie, and how many letters the longest of them has.
#[derive(Clone, Copy, Debug)]
pub(crate) struct PatternTrie<'t> {
    trie: Trie<'t>,
    longest: usize,
}

impl PatternTrie<'_> {
    /// Raises levels to those of the patterns at the beginning of a text. Returns how many letters were
    /// looked up.
    pub(crate) fn raise_from(&self, levels: &mut [usize], text: &[char]) -> usize
        ensures levels { (k : ℕ) → k < length levels.old → slice_index levels.new k
            ≡ max (slice_index levels.old k) (levels_by self.now text.now k) }
        ensures lookups { result ≤ min (length text.now) self.now.longest }
    {
        let text = &text[..self.longest.min(text.len())];
        self.trie.raise_levels(text, levels)
    }
}

/// Places, if they increase, inside a word of so many letters.
fn inner_places(len: usize, places: &[usize]) -> Option<&[usize]>
    ensures { MatchOption result (inner_places len (Some places.now) ≡ None)
        (λ inner. inner_places len (Some places.now) ≡ Some inner.now) }
{
    if are_inner(len, places) {
        Some(places)
    } else {
        None
    }
}

/// The nth number from the end, or 0 where there is none.
fn from_end(words: &[usize], n: usize) -> usize
    requires { 0 < n }
    ensures { result ≡ from_end n words.now }
{
    let at = words.len().saturating_sub(n);
    if at < words.len() { words[at] } else { 0 }
}

/// Whether the version and the sum of numbers are right. It reads all numbers.
pub fn is_sealed(words: &[usize]) -> bool
    ensures { result ≡ is_sealed words.now }
{
    words.len() >= 13
        && words[0] == VERSION
        && from_end(words, 1) == sum_of(&words[..words.len() - 1])
}

/// The sum of numbers, in 64 bits, which is tripled before each is added.
pub(crate) fn sum_of(words: &[usize]) -> usize
    ensures { result ≡ sum_of words.now }
{
    let mut sum: usize = 0;
    for word in words {
        sum = sum.wrapping_mul(3).wrapping_add(*word);
    }
    sum
}
