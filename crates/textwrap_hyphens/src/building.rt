//! A dictionary, written as one list of numbers.
ghost use Rattle.std.specs.Prelude.{◌≡◌, All, false, length, map, true, IfOk};
ghost use Rattle.textwrap_hyphens.specs.Building.{entries_view, exception_of, pattern_of};
ghost use Rattle.textwrap_hyphens.specs.Hyphenation.{hyphenation_by};
ghost use Rattle.textwrap_hyphens.specs.Levels.{longest};
ghost use Rattle.textwrap_hyphens.specs.Numbers.{KeepsLists, held_in};
ghost use Rattle.textwrap_hyphens.specs.Seal.{is_sealed, with_minima};
ghost use Rattle.textwrap_patterns.specs.Listed.{exception_view, pattern_view};
ghost use Rattle.textwrap_patterns.specs.Places.{AreInnerPlaces};

use crate::table::{VERSION, sum_of};
use std::alloc::{AllocError, Allocator};
use textwrap_patterns::entries::TrieEntry;
use textwrap_patterns::merging::{Rule, push_entries};
use textwrap_patterns::patterns::{Exception, Pattern};

/// What is listed in a dictionary, as entries of tries.
#[derive(Drop)]
pub(crate) struct Entries<A: Allocator> {
    pub(crate) joints: Vec<TrieEntry<A>, A>,
    pub(crate) patterns: Vec<TrieEntry<A>, A>,
    pub(crate) exceptions: Vec<TrieEntry<A>, A>,
    pub(crate) changed: usize,
}

/// How many letters stay before a hyphen and behind it, in a word and between it and a joint.
#[derive(Clone, Copy)]
pub(crate) struct Minima {
    pub(crate) left: usize,
    pub(crate) right: usize,
    pub(crate) compound_left: usize,
    pub(crate) compound_right: usize,
}

/// Patterns, as entries of a trie.
pub(crate) fn pattern_entries<A: Allocator + Copy>(
    alloc: A,
    patterns: Vec<Pattern<A>, A>,
) -> Result<Vec<TrieEntry<A>, A>, AllocError>
    ensures { IfOk result (λ entries.
        map pattern_of entries.items ≡ map pattern_view patterns.items) }
{
    let mut entries = Vec::new(alloc);
    for pattern in patterns {
        let numbers = numbers_of(alloc, &pattern.levels)?;
        entries.push(TrieEntry {
            key: pattern.letters,
            numbers,
        })?;
    }
    Ok(entries)
}

/// Levels as numbers.
fn numbers_of<A: Allocator>(alloc: A, levels: &[u8]) -> Result<Vec<usize, A>, AllocError>
    ensures { IfOk result (λ numbers. numbers.items ≡ levels.now) }
{
    let mut numbers = Vec::new(alloc);
    for level in levels {
        numbers.push(usize::from(*level))?;
    }
    Ok(numbers)
}

/// Exceptions, as entries of a trie.
pub(crate) fn exception_entries<A: Allocator>(
    alloc: A,
    exceptions: Vec<Exception<A>, A>,
) -> Result<Vec<TrieEntry<A>, A>, AllocError>
    ensures entries { IfOk result (λ entries.
        map exception_of entries.items ≡ map exception_view exceptions.items) }
    ensures inner { IfOk result (λ entries.
        All (λ e. AreInnerPlaces (length e.key.items) e.numbers.items) entries.items) }
{
    let mut entries = Vec::new(alloc);
    for exception in exceptions {
        entries.push(TrieEntry {
            key: exception.letters,
            numbers: exception.places,
        })?;
    }
    Ok(entries)
}

/// How many letters the longest key has.
fn longest_key<A: Allocator>(entries: &[TrieEntry<A>]) -> usize
    ensures { result ≡ longest (map pattern_of entries.now) }
{
    let mut longest = 0;
    for entry in entries {
        longest = longest.max(entry.key.as_slice().len());
    }
    longest
}

/// Sets how many letters stay before a point and behind it, in the numbers of a dictionary.
pub(crate) fn set_minima(words: &mut [usize], left: usize, right: usize)
    requires { is_sealed words.old ≡ true }
    ensures minima { words.new ≡ with_minima left right words.old }
    ensures sealed { is_sealed words.new ≡ true }
{
    let end = words.len();
    words[end - 3] = left;
    words[end - 2] = right;
    words[end - 1] = sum_of(&words[..end - 1]);
}

/// The numbers of a dictionary.
pub(crate) fn write_table<A: Allocator + Copy>(
    alloc: A,
    listed: Entries<A>,
    minima: Minima,
) -> Result<Vec<usize, A>, AllocError>
    requires { All (λ e. AreInnerPlaces (length e.key.items) e.numbers.items) listed.exceptions.items }
    ensures held { IfOk result (λ words. held_in words.items false
        ≡ hyphenation_by (entries_view listed minima)) }
    ensures sealed { IfOk result (λ words. is_sealed words.items ≡ true) }
    ensures kept { IfOk result (λ words. KeepsLists words.items) }
{
    let changed = listed.changed;
    let count = listed.joints.len();
    let longest_joint = longest_key(&listed.joints);
    let longest = longest_key(&listed.patterns);
    let mut words = Vec::new(alloc);
    words.push(VERSION)?;
    let patterns = push_entries(alloc, &mut words, listed.patterns, Rule::Greatest)?;
    let exceptions = push_entries(alloc, &mut words, listed.exceptions, Rule::First)?;
    let joints = push_entries(alloc, &mut words, listed.joints, Rule::Greatest)?;
    words.extend_from_slice(&[
        changed,
        count,
        joints,
        longest_joint,
        minima.compound_left,
        minima.compound_right,
        exceptions,
        patterns,
        longest,
        minima.left,
        minima.right,
    ])?;
    let sum = sum_of(&words);
    words.push(sum)?;
    Ok(words)
}
