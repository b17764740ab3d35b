//! A trie of any entries.
ghost use Rattle.std.specs.Prelude.{◌≡◌, ◌≢◌, ℕ, List, ◌++◌, ◌<◌, ◌≤◌, All, length, map, max, IfOk};
ghost use Rattle.std.specs.Prelude.{slice_index, slice_index_or, take};
ghost use Rattle.textwrap_patterns.specs.Entries.{AreSortedFrom, entry_for};
ghost use Rattle.textwrap_patterns.specs.Merging.{AreInOrder, Grows, first_key, first_numbers};
ghost use Rattle.textwrap_patterns.specs.Merging.{greatest, greatest_number};
ghost use Rattle.textwrap_patterns.specs.Trie.{level_from, numbers_for};
ghost use Rattle.textwrap_patterns.specs.declared.merging.Rule.TheVariants.{First, Greatest};

use crate::entries::TrieEntry;
use crate::lists::no_lists;
use crate::numbers::raise;
use crate::slots::{no_slots, slot_of};
use crate::writing::{push_trie, write_trie};
use std::alloc::{AllocError, Allocator};

/// What counts of entries with the same key.
#[derive(Clone, Copy, Debug, PartialEq, Eq)]
pub enum Rule {
    /// The numbers of the first.
    First,
    /// The greatest number of all at each place.
    Greatest,
}

/// Appends a trie of these entries, in any order, to numbers. Returns its place. Numbers that are
/// written behind it later make no difference.
///
/// # Errors
/// [`AllocError`] where memory runs out, as it is taken to be for a trie of 2^41 slots or numbers.
pub fn push_entries<A: Allocator + Copy>(
    alloc: A,
    words: &mut Vec<usize, A>,
    entries: Vec<TrieEntry<A>, A>,
    rule: Rule,
) -> Result<usize, AllocError>
    ensures grown { IfOk result (λ root. Grows words.old.items words.new.items) }
    ensures first { rule ≡ First → IfOk result (λ root. (more key : List ℕ)
        → numbers_for key (words.new.items ++ more) root ≡ entry_for 0 entries.items key) }
    ensures greatest { rule ≡ Greatest → IfOk result (λ root. (more text : List ℕ) (place : ℕ)
        → level_from text (words.new.items ++ more) root place
        ≡ greatest_number entries.items text place) }
{
    let mut entries = entries;
    entries.sort_by(|one, other| one.key.cmp(&other.key))?;
    let merged = merged(alloc, &entries, rule)?;
    let mut slots = no_slots(alloc);
    let mut lists = no_lists(alloc)?;
    let node = push_trie(
        alloc,
        &mut slots,
        &mut lists,
        &merged,
        0,
        longest_key(&merged),
    )?;
    write_trie(words, slot_of(node, 0)?, &slots.words, &lists.words)
}

/// The entries with one for all that have the same key. They are in the order of their keys.
///
/// # Errors
/// [`AllocError`] where memory runs out.
fn merged<A: Allocator + Copy>(
    alloc: A,
    entries: &[TrieEntry<A>],
    rule: Rule,
) -> Result<Vec<TrieEntry<A>, A>, AllocError>
    requires { AreInOrder entries.now }
    ensures sorted { IfOk result (λ merged. AreSortedFrom 0 merged.items) }
    ensures first { rule ≡ First → IfOk result (λ merged. (key : List ℕ)
        → entry_for 0 merged.items key ≡ entry_for 0 entries.now key) }
    ensures greatest { rule ≡ Greatest → IfOk result (λ merged. (text : List ℕ) (place : ℕ)
        → greatest_number merged.items text place ≡ greatest_number entries.now text place) }
{
    let mut merged = Vec::new(alloc);
    let mut left = entries;
    while !left.is_empty() {
        let (group, others) = left.split_at(same_len(left));
        merged.push(merged_group(alloc, group, rule)?)?;
        left = others;
    }
    Ok(merged)
}

/// How many of the first entries have the key of the first one.
fn same_len<A: Allocator>(entries: &[TrieEntry<A>]) -> usize
    requires { 0 < length entries.now }
    ensures some { 0 < result }
    ensures within { result ≤ length entries.now }
    ensures same { All (λ e. e.key.items ≡ first_key entries.now) (take result entries.now) }
    ensures next { (d : TrieEntry A) → result < length entries.now
        → (slice_index_or entries.now result d).key.items ≢ first_key entries.now }
{
    let key = entries[0].key.as_slice();
    for (i, entry) in entries.iter().enumerate() {
        if entry.key.as_slice() != key {
            return i;
        }
    }
    entries.len()
}

/// One entry for some that have the same key.
///
/// # Errors
/// [`AllocError`] where memory runs out.
fn merged_group<A: Allocator + Copy>(
    alloc: A,
    group: &[TrieEntry<A>],
    rule: Rule,
) -> Result<TrieEntry<A>, AllocError>
    requires { 0 < length group.now }
    ensures key { IfOk result (λ e. e.key.items ≡ first_key group.now) }
    ensures first { rule ≡ First → IfOk result (λ e. e.numbers.items ≡ first_numbers group.now) }
    ensures greatest { rule ≡ Greatest → IfOk result (λ e. (place : ℕ)
        → slice_index e.numbers.items place
        ≡ greatest (map (λ f. slice_index f.numbers.items place) group.now)) }
{
    let mut key = Vec::new(alloc);
    key.extend_from_slice(&group[0].key)?;
    let mut numbers = Vec::new(alloc);
    numbers.extend_from_slice(&group[0].numbers)?;
    if rule == Rule::Greatest {
        for entry in group {
            raise_and_append(&mut numbers, &entry.numbers)?;
        }
    }
    Ok(TrieEntry { key, numbers })
}

/// Raises each number to the other at its place, and appends those behind.
///
/// # Errors
/// [`AllocError`] where memory runs out.
fn raise_and_append<A: Allocator>(
    numbers: &mut Vec<usize, A>,
    others: &[usize],
) -> Result<(), AllocError>
    ensures { IfOk result (λ done. (place : ℕ) → slice_index numbers.new.items place
        ≡ max (slice_index numbers.old.items place) (slice_index others.now place)) }
{
    raise(numbers.as_mut_slice(), others);
    let len = numbers.as_slice().len().min(others.len());
    numbers.extend_from_slice(&others[len..])
}

/// How many letters the longest key has.
fn longest_key<A: Allocator>(entries: &[TrieEntry<A>]) -> usize
    ensures { All (λ e. length e.key.items ≤ result) entries.now }
{
    entries
        .iter()
        .map(|entry| entry.key.as_slice().len())
        .max()
        .unwrap_or(0)
}
