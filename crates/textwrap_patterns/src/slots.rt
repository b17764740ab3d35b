//! The slots of a trie, and where its nodes are put into them.
ghost use Rattle.std.specs.Prelude.{◌≡◌, ℕ, ◌+◌, ◌*◌, ◌^◌, ◌==◌, ◌<◌, ◌≤◌, [], All, List, true, length, IfOk};
ghost use Rattle.std.specs.Prelude.{if◌then◌else◌, Option};
ghost use Rattle.textwrap_patterns.specs.Trie.{slot_at};
ghost use Rattle.textwrap_patterns.specs.Writing.{AreFree, HaveParents, IsKind, IsNodeOf, slot_for};

use std::alloc::{AllocError, Allocator};

/// An empty slot: of a kind that has neither children nor numbers, with a code that no letter has.
pub(crate) const EMPTY: usize = 0x7F_FFFF;

/// From so many on a number is no code.
pub(crate) const CODES: usize = 0x20_0000;

/// What a place is times in a slot.
pub(crate) const PLACE: usize = 0x80_0000;

/// From so many on a place is too far for a node.
const PLACES: usize = 0x200_0000_0000;

/// How many places are tried for a node before it is put behind all others.
const TRIES: usize = 256;

/// A letter, and a node: its kind, and 4 times its place.
#[derive(Clone, Copy, Debug)]
pub(crate) struct Child {
    pub(crate) letter: char,
    pub(crate) node: usize,
}

/// The child for a letter.
pub(crate) fn make_child(letter: char, node: usize) -> Child
    ensures child { result ≡ record { letter = letter; node = node } }
    ensures code { letter < 0x110000 }
{
    Child { letter, node }
}

/// The slots of a trie.
#[derive(Debug, Drop)]
pub(crate) struct Slots<A: Allocator> {
    pub(crate) words: Vec<usize, A>,
    /// From where on a place is looked for.
    start: usize,
}

/// No slots.
pub(crate) fn no_slots<A: Allocator>(alloc: A) -> Slots<A>
    ensures { result.words.items ≡ [] }
{
    Slots {
        words: Vec::new(alloc),
        start: 0,
    }
}

/// The slot at a place: those past the end are empty.
#[inline]
pub(crate) fn slot_at(slots: &[usize], at: usize) -> usize
    ensures { result ≡ slot_at slots.now at }
{
    if at < slots.len() { slots[at] } else { EMPTY }
}

/// Makes a node of these children, with the place of its list of numbers. Returns the node.
///
/// # Errors
/// [`AllocError`] where memory runs out, or where a place is 2^41 or more.
pub(crate) fn push_node<A: Allocator>(
    slots: &mut Slots<A>,
    numbers: Option<usize>,
    children: &[Child],
) -> Result<usize, AllocError>
    requires { HaveParents slots.old.words.items }
    ensures { IfOk result (λ node. IsNodeOf numbers children.now slots.old.words.items
        slots.new.words.items node) }
{
    if children.is_empty() {
        return leaf(numbers);
    }
    let place = free_place(&slots.words, slots.start, children);
    slots.start = next_start(slots, place);
    put_node(&mut slots.words, place, numbers, children)
}

/// A node without children.
///
/// # Errors
/// [`AllocError`] where the place of its list is 2^41 or more.
fn leaf(numbers: Option<usize>) -> Result<usize, AllocError>
    ensures { IfOk result (λ node. (slots : List ℕ) → HaveParents slots
        → IsNodeOf numbers [] slots slots node) }
{
    match numbers {
        Some(place) => node_at(place, 2),
        None => Ok(3),
    }
}

/// The node at a place, of a kind.
///
/// # Errors
/// [`AllocError`] where the place is 2^41 or more.
fn node_at(place: usize, kind: usize) -> Result<usize, AllocError>
    requires { kind < 4 }
    ensures node { IfOk result (λ node. node ≡ place * 4 + kind) }
    ensures near { IfOk result (λ node. place < 2 ^ 41) }
{
    if place < PLACES {
        Ok(place * 4 + kind)
    } else {
        Err(AllocError)
    }
}

/// The slot of a child.
///
/// # Errors
/// [`AllocError`] where it does not fit.
fn child_slot(child: Child) -> Result<usize, AllocError>
    ensures slot { IfOk result (λ slot. slot ≡ child.node * 0x200000 + (child.letter + 1)) }
    ensures letter { child.letter < 0x110000 }
{
    slot_of(child.node, child.letter as usize + 1)
}

/// A slot with a node and a code.
///
/// # Errors
/// [`AllocError`] where it does not fit.
pub(crate) fn slot_of(node: usize, code: usize) -> Result<usize, AllocError>
    requires { code < 2 ^ 21 }
    ensures { IfOk result (λ slot. slot ≡ node * 0x200000 + code) }
{
    if node < PLACES * 4 {
        Ok(node * CODES + code)
    } else {
        Err(AllocError)
    }
}

/// A place where the slots of a node with these children are empty.
fn free_place(slots: &[usize], start: usize, children: &[Child]) -> usize
    ensures { AreFree slots.now result children.now }
{
    let end = slots.len().min(start.saturating_add(TRIES));
    for place in start..end {
        if is_free(slots, place, children) {
            return place;
        }
    }
    slots.len()
}

/// Whether the slots of a node at this place and of its children are empty.
fn is_free(slots: &[usize], place: usize, children: &[Child]) -> bool
    requires { place ≤ length slots.now }
    ensures { result ≡ true → AreFree slots.now place children.now }
{
    if slot_at(slots, place) != EMPTY {
        return false;
    }
    for child in children {
        if slot_at(slots, place + (child.letter as usize + 1)) != EMPTY {
            return false;
        }
    }
    true
}

/// From where on a place is looked for, after a node was put at this one.
fn next_start<A: Allocator>(slots: &Slots<A>, place: usize) -> usize {
    let tried = place.saturating_sub(slots.start);
    slots.start.saturating_add(tried / 16)
}

/// Puts a node at a place where all its slots are empty. Returns the node.
///
/// # Errors
/// [`AllocError`] where memory runs out, or where a place is 2^41 or more.
fn put_node<A: Allocator>(
    slots: &mut Vec<usize, A>,
    place: usize,
    numbers: Option<usize>,
    children: &[Child],
) -> Result<usize, AllocError>
    requires parents { HaveParents slots.old.items }
    requires free { AreFree slots.old.items place children.now }
    ensures { IfOk result (λ node. IsNodeOf numbers children.now slots.old.items slots.new.items node) }
{
    let (list, kind) = list_and_kind(numbers);
    let node = node_at(place, kind)?;
    put(slots, place, slot_of(node_at(list, 0)?, 0)?)?;
    put_children(slots, place, children)?;
    Ok(node)
}

/// The place in the own slot of a node with children, and its kind.
fn list_and_kind(numbers: Option<usize>) -> (usize, usize)
    ensures kind { IsKind numbers result.0 result.1 }
    ensures below { result.1 < 4 }
{
    match numbers {
        Some(list) => (list, 1),
        None => (0, 0),
    }
}

/// Puts the children of the node at a place into their slots.
///
/// # Errors
/// [`AllocError`] where memory runs out, or where a child does not fit.
fn put_children<A: Allocator>(
    slots: &mut Vec<usize, A>,
    place: usize,
    children: &[Child],
) -> Result<(), AllocError>
    requires { place < 2 ^ 41 }
    ensures put { IfOk result (λ done. (at : ℕ) → slot_at slots.new.items at
        ≡ slot_for children.now place at (slot_at slots.old.items at)) }
    ensures letters { IfOk result (λ done. All (λ c. c.letter < 0x110000) children.now) }
{
    for child in children {
        put(
            slots,
            place + (child.letter as usize + 1),
            child_slot(*child)?,
        )?;
    }
    Ok(())
}

/// Puts something into the slot at a place.
///
/// # Errors
/// [`AllocError`] where memory runs out.
fn put<A: Allocator>(slots: &mut Vec<usize, A>, place: usize, slot: usize) -> Result<(), AllocError>
    ensures { IfOk result (λ done. (at : ℕ) → slot_at slots.new.items at
        ≡ (if at == place then slot else slot_at slots.old.items at)) }
{
    while slots.len() <= place {
        slots.push(EMPTY)?;
    }
    slots[place] = slot;
    Ok(())
}
