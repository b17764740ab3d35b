//! What a trie is made of.
ghost use Rattle.std.specs.Prelude.{◌≡◌, ◌≢◌, ◌<◌, ◌≤◌, All, drop, length, slice_index, take};
ghost use Rattle.textwrap_patterns.specs.Entries.{AreSortedFrom, IsGroupOf, letter_at};

use std::alloc::{Allocator, Global};

/// A key, and its numbers.
#[derive(Debug, Drop)]
pub struct TrieEntry<A: Allocator = Global> {
    pub key: Vec<char, A>,
    pub numbers: Vec<usize, A>,
}

/// How many of the first entries, 0 or 1, have no letter at a place.
pub(crate) fn ended_len<A: Allocator>(entries: &[TrieEntry<A>], depth: usize) -> usize
    requires { AreSortedFrom depth entries.now }
    ensures within { result ≤ length entries.now }
    ensures ended { All (λ e. length e.key.items ≤ depth) (take result entries.now) }
    ensures longer { All (λ e. depth < length e.key.items) (drop result entries.now) }
{
    match entries {
        [first, ..] if first.key.as_slice().len() <= depth => 1,
        _ => 0,
    }
}

/// How many of the first entries have the same letter at a place.
pub(crate) fn group_len<A: Allocator>(entries: &[TrieEntry<A>], depth: usize) -> usize
    requires some { 0 < length entries.now }
    requires longer { All (λ e. depth < length e.key.items) entries.now }
    ensures { IsGroupOf depth entries.now result }
{
    let letter = entries[0].key.as_slice()[depth];
    for (i, entry) in entries.iter().enumerate() {
        if entry.key.as_slice()[depth] != letter {
            return i;
        }
    }
    entries.len()
}
