//! The levels of the places of a word.
ghost use Rattle.std.specs.Prelude.{◌≡◌, ℕ, ◌+◌, ◌-◌, ◌*◌, ◌%◌, ◌==◌, ◌<◌, ◌≤◌, All, List, filter, length};
ghost use Rattle.std.specs.Prelude.{slice_index, take, IfOk};
ghost use Rattle.std.specs.List.{range_with_len};
ghost use Rattle.textwrap_base.specs.Minima.{counted};
ghost use Rattle.textwrap_hyphens.specs.Hyphenation.{is_odd, joints_of};
ghost use Rattle.textwrap_hyphens.specs.Levels.{dotted, levels_of};
ghost use Rattle.textwrap_hyphens.specs.Table.{held, levels_by};

use crate::table::{PatternTable, PatternTrie};
use std::alloc::{AllocError, Allocator};
use textwrap_base::minima::Steps;

/// The levels of all places of a word of these letters, put between two dots.
///
/// The first is that of the place before the first dot, the next that of the place between it and
/// the first letter, and so on: so there are three more than letters. With the patterns `hy3ph`,
/// `he2n` and `hena4`, the place behind `hy` in `hyphenation` has level 3.
///
/// # Errors
/// [`AllocError`] where memory runs out.
pub fn levels<A: Allocator + Copy>(
    alloc: A,
    letters: &[char],
    patterns: &PatternTable<'_>,
) -> Result<Vec<usize, A>, AllocError>
    ensures { IfOk result (λ levels. levels.items
        ≡ levels_of (held patterns.now).level_from letters.now) }
{
    levels_counted(alloc, letters, patterns, &mut Steps::new())
}

/// The same levels, with a count of how often a letter is looked up in the trie of the patterns.
///
/// `lookups` goes up by at most (n + 2) m for n letters, where the longest pattern has m, however many
/// patterns there are.
///
/// # Errors
/// [`AllocError`] where memory runs out.
pub fn levels_counted<A: Allocator + Copy>(
    alloc: A,
    letters: &[char],
    patterns: &PatternTable<'_>,
    lookups: &mut Steps,
) -> Result<Vec<usize, A>, AllocError>
    ensures levels { IfOk result (λ levels. levels.items
        ≡ levels_of (held patterns.now).level_from letters.now) }
    ensures lookups { lookups.new ≤ counted lookups.old
        ((length letters.now + 2) * (held patterns.now).longest) }
    ensures never_less { lookups.old ≤ lookups.new }
{
    levels_in(alloc, letters, &patterns.patterns(), lookups)
}

/// The levels that the patterns of a trie give to the places of a word between two dots.
fn levels_in<A: Allocator + Copy>(
    alloc: A,
    letters: &[char],
    patterns: &PatternTrie<'_>,
    lookups: &mut Steps,
) -> Result<Vec<usize, A>, AllocError>
    ensures levels { IfOk result (λ levels. levels.items ≡ levels_of (levels_by patterns.now) letters.now) }
    ensures lookups { lookups.new ≤ counted lookups.old
        ((length letters.now + 2) * patterns.now.longest) }
    ensures never_less { lookups.old ≤ lookups.new }
{
    let dotted = dotted(alloc, letters)?;
    let mut levels = vec![in alloc; 0; dotted.len() + 1]?;
    let looked_up = raise_all(&mut levels, &dotted, patterns);
    lookups.add(looked_up as u128);
    Ok(levels)
}

/// The places inside a word at which a dictionary joins compounds.
pub(crate) fn joints<A: Allocator + Copy>(
    alloc: A,
    letters: &[char],
    patterns: &PatternTable<'_>,
) -> Result<Vec<usize, A>, AllocError>
    ensures { IfOk result (λ joints. joints.items ≡ joints_of (held patterns.now) letters.now) }
{
    match patterns.joints() {
        Some(trie) => odd_places(alloc, letters, &trie),
        None => Ok(Vec::new(alloc)),
    }
}

/// The places inside a word to which the patterns of a trie give an odd level.
fn odd_places<A: Allocator + Copy>(
    alloc: A,
    letters: &[char],
    patterns: &PatternTrie<'_>,
) -> Result<Vec<usize, A>, AllocError>
    ensures { IfOk result (λ places. places.items ≡ filter (is_odd (levels_by patterns.now) letters.now)
        (range_with_len 1 (length letters.now - 1))) }
{
    let levels = levels_in(alloc, letters, patterns, &mut Steps::new())?;
    let mut places = Vec::new(alloc);
    for place in 1..letters.len() {
        if is_odd(&levels, place) {
            places.push(place)?;
        }
    }
    Ok(places)
}

/// Whether a place inside a word has an odd level, by the levels of the word between two dots.
pub(crate) fn is_odd(levels: &[usize], place: usize) -> bool
    requires { place + 1 < length levels.now }
    ensures { result ≡ (slice_index levels.now (place + 1) % 2 == 1) }
{
    levels[place + 1] % 2 == 1
}

/// Raises the levels of the first places of a word between two dots, which are 0, to those that its
/// patterns give them. Returns how many letters were looked up.
pub(crate) fn raise_all(levels: &mut [usize], whole: &[char], patterns: &PatternTrie<'_>) -> usize
    requires len { length levels.old ≤ length whole.now + 1 }
    requires zero { All (λ level. level ≡ 0) levels.old }
    ensures levels { (letters : List ℕ) → whole.now ≡ dotted letters
        → levels.new ≡ take (length levels.old) (levels_of (levels_by patterns.now) letters) }
    ensures lookups { result ≤ length whole.now * patterns.now.longest }
{
    let mut looked_up: usize = 0;
    for at in 0..levels.len() {
        let text = &whole[at..];
        looked_up = looked_up.saturating_add(patterns.raise_from(&mut levels[at..], text));
    }
    looked_up
}

/// The letters between two dots.
fn dotted<A: Allocator>(alloc: A, letters: &[char]) -> Result<Vec<char, A>, AllocError>
    ensures { IfOk result (λ whole. whole.items ≡ dotted letters.now) }
{
    let mut whole = Vec::with_capacity(alloc, letters.len().saturating_add(2))?;
    whole.push('.')?;
    whole.extend_from_slice(letters)?;
    whole.push('.')?;
    Ok(whole)
}
