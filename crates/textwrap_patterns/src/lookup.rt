//! What a trie has for a key, and for the beginnings of a text.
ghost use Rattle.std.specs.Prelude.{◌≡◌, ℕ, ◌<◌, ◌≤◌, ◌^◌, length, max, None, Some, MatchOption, slice_index};
ghost use Rattle.std.specs.Prelude.{nat_lt};
ghost use Rattle.textwrap_patterns.specs.Trie.{child_at, child_of, empty_slot, kind_of, level_at, level_below};
ghost use Rattle.textwrap_patterns.specs.Trie.{trie_level, lists_of, numbers_in, numbers_of, slots_of, trie_at};

use crate::numbers::{list_and_rest, number_at, numbers_at, raise};
use crate::slots::{CODES, EMPTY, PLACE, slot_at};

/// A trie in numbers that somebody holds.
#[derive(Clone, Copy, Debug)]
pub struct Trie<'w> {
    root: usize,
    slots: &'w [usize],
    lists: &'w [usize],
}

impl<'w> Trie<'w> {
    ghost use Rattle.textwrap_patterns.specs.Tries.{trie_view};

    /// The trie at a place of numbers. Where none stands there, it is one that means nothing, but
    /// nothing outside of the numbers is read. The call always succeeds.
    pub fn at(words: &'w [usize], at: usize) -> Trie<'w>
        ensures { trie_view result ≡ trie_at words.now at }
    {
        let (slots, lists) = slots_and_lists(words, at);
        Trie {
            root: number_at(words, at),
            slots,
            lists,
        }
    }

    /// The numbers of a key, or `None` where the trie does not have that key. The call always
    /// succeeds.
    pub fn numbers_for(&self, key: &[char]) -> Option<&'w [usize]>
        ensures { MatchOption result (numbers_in (trie_view self.now) key.now ≡ None)
            (λ numbers. numbers_in (trie_view self.now) key.now ≡ Some numbers.now) }
    {
        let mut node = self.root;
        for letter in key {
            node = child_of(self.slots, node, *letter);
            if node == EMPTY {
                return None;
            }
        }
        numbers_of(self.slots, self.lists, node)
    }

    /// Raises levels to the numbers of all keys with which a text begins, each to that at its place.
    /// Returns how many letters were looked up: each with which some key goes on, and at most one more.
    /// The call always succeeds.
    pub fn raise_levels(&self, text: &[char], levels: &mut [usize]) -> usize
        ensures levels { (k : ℕ) → k < length levels.old → slice_index levels.new k
            ≡ max (slice_index levels.old k) (trie_level (trie_view self.now) text.now k) }
        ensures lookups { result ≤ length text.now }
    {
        raise_along(self.slots, self.lists, self.root, text, levels)
    }
}

/// Raises levels to the numbers of all keys below a node with which a text begins. Returns how many
/// letters were looked up.
fn raise_along(
    slots: &[usize],
    lists: &[usize],
    root: usize,
    text: &[char],
    levels: &mut [usize],
) -> usize
    ensures levels { (k : ℕ) → k < length levels.old → slice_index levels.new k
        ≡ max (slice_index levels.old k) (level_below text.now slots.now lists.now root k) }
    ensures lookups { result ≤ length text.now }
{
    let mut node = root;
    for (i, letter) in text.iter().enumerate() {
        if !raise_to(levels, slots, lists, node) {
            return i;
        }
        match child_at(slots, node / PLACE, *letter) {
            Some(child) => node = child,
            None => return i + 1,
        }
    }
    raise_to(levels, slots, lists, node);
    text.len()
}

/// Raises each level to the number at its place that a node has. Returns whether it has children.
#[inline]
fn raise_to(levels: &mut [usize], slots: &[usize], lists: &[usize], node: usize) -> bool
    ensures levels { (k : ℕ) → k < length levels.old → slice_index levels.new k
        ≡ max (slice_index levels.old k) (level_at slots.now lists.now node k) }
    ensures inner { result ≡ nat_lt (kind_of node) 2 }
{
    // Two tests are faster here than a table of four ways.
    let kind = node / CODES % 4;
    if kind > 1 {
        if kind == 2 {
            raise(levels, numbers_at(lists, node / PLACE));
        }
        return false;
    }
    if kind == 1 {
        let own = slot_at(slots, node / PLACE);
        raise(levels, numbers_at(lists, own / PLACE));
    }
    true
}

/// The slots and the lists of the trie at a place.
#[inline]
fn slots_and_lists(words: &[usize], root: usize) -> (&[usize], &[usize])
    ensures slots { result.0.now ≡ slots_of words.now root }
    ensures lists { result.1.now ≡ lists_of words.now root }
{
    if root >= words.len() {
        return (&[], &[]);
    }
    list_and_rest(words, root + 1)
}

/// The child for a letter of a node with children, by its place.
#[inline]
fn child_at(slots: &[usize], place: usize, letter: char) -> Option<usize>
    requires { place < 2 ^ 62 }
    ensures { MatchOption result (child_at slots.now place letter ≡ empty_slot)
        (λ child. child_at slots.now place letter ≡ child) }
{
    let code = letter as usize + 1;
    let slot = slot_at(slots, place + code);
    if slot % CODES == code {
        Some(slot)
    } else {
        None
    }
}

/// The child of a node for a letter.
fn child_of(slots: &[usize], node: usize, letter: char) -> usize
    ensures { result ≡ child_of slots.now node letter }
{
    if node / CODES % 4 > 1 {
        return EMPTY;
    }
    child_at(slots, node / PLACE, letter).unwrap_or(EMPTY)
}

/// The numbers that a node has, or `None`.
fn numbers_of<'w>(slots: &[usize], lists: &'w [usize], node: usize) -> Option<&'w [usize]>
    ensures { MatchOption result (numbers_of slots.now lists.now node ≡ None)
        (λ numbers. numbers_of slots.now lists.now node ≡ Some numbers.now) }
{
    match node / CODES % 4 {
        1 => Some(numbers_at(lists, slot_at(slots, node / PLACE) / PLACE)),
        2 => Some(numbers_at(lists, node / PLACE)),
        _ => None,
    }
}
