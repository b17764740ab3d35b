//! A trie, written.
ghost use Rattle.std.specs.Prelude.{◌≡◌, ℕ, ◌+◌, ◌<◌, ◌≤◌, [], ◌∷◌, ◌++◌, All, length, IfOk};
ghost use Rattle.std.specs.Prelude.{None, Some};
ghost use Rattle.textwrap_patterns.specs.Entries.{AreSortedFrom, entry_for};
ghost use Rattle.textwrap_patterns.specs.Merging.{Grows};
ghost use Rattle.textwrap_patterns.specs.Writing.{HaveParents, IsLater, IsListOf, IsTrie, HoldsTrie};

use crate::entries::{TrieEntry, ended_len, group_len};
use crate::lists::{Lists, push_list, write_list};
use crate::slots::{Slots, make_child, push_node};
use std::alloc::{AllocError, Allocator};

/// Writes a trie of these entries, whose keys are taken from a letter on, and have at most so many
/// letters from there. Returns its root.
///
/// # Errors
/// [`AllocError`] where memory runs out, or where a place is 2^41 or more.
pub(crate) fn push_trie<A: Allocator + Copy>(
    alloc: A,
    slots: &mut Slots<A>,
    lists: &mut Lists<A>,
    entries: &[TrieEntry<A>],
    depth: usize,
    height: usize,
) -> Result<usize, AllocError>
    requires parents { HaveParents slots.old.words.items }
    requires sorted { AreSortedFrom depth entries.now }
    requires height { All (λ e. length e.key.items ≤ depth + height) entries.now }
    ensures parents { IfOk result (λ node. HaveParents slots.new.words.items) }
    ensures later { IfOk result (λ node. IsLater slots.old.words.items slots.new.words.items) }
    ensures grown { IfOk result (λ node. Grows lists.old.words.items lists.new.words.items) }
    ensures trie { IfOk result (λ node. IsTrie depth entries.now slots.new.words.items
        lists.new.words.items node) }
{
    let ended = ended_len(entries, depth);
    let numbers = push_numbers_of(lists, entries, depth)?;
    let mut children = Vec::new(alloc);
    let mut left = &entries[ended..];
    while !left.is_empty() {
        let letter = left[0].key.as_slice()[depth];
        let (group, others) = left.split_at(group_len(left, depth));
        let node = push_trie(alloc, slots, lists, group, depth + 1, height - 1)?;
        children.push(make_child(letter, node))?;
        left = others;
    }
    push_node(slots, numbers, &children)
}

/// Writes the numbers of the entry that has no letter at a place. Returns where they stand, or `None`
/// where there is none.
///
/// # Errors
/// [`AllocError`] where memory runs out.
fn push_numbers_of<A: Allocator>(
    lists: &mut Lists<A>,
    entries: &[TrieEntry<A>],
    depth: usize,
) -> Result<Option<usize>, AllocError>
    requires sorted { AreSortedFrom depth entries.now }
    ensures { IfOk result (λ place. IsListOf (entry_for depth entries.now []) lists.old.words.items
        lists.new.words.items place) }
{
    match entries {
        [first, ..] if first.key.as_slice().len() <= depth => {
            Ok(Some(push_list(lists, &first.numbers)?))
        }
        _ => Ok(None),
    }
}

/// Appends a trie: the slot of its root, its slots behind their length, and its lists. Returns its place.
///
/// # Errors
/// [`AllocError`] where memory runs out.
pub(crate) fn write_trie<A: Allocator>(
    words: &mut Vec<usize, A>,
    slot: usize,
    slots: &[usize],
    lists: &[usize],
) -> Result<usize, AllocError>
    ensures { IfOk result (λ root. HoldsTrie slot slots.now lists.now words.old.items
        words.new.items root) }
{
    let root = words.as_slice().len();
    words.push(slot)?;
    write_list(words, slots)?;
    words.extend_from_slice(lists)?;
    Ok(root)
}
