//! The lists of numbers of a trie. Of lists that are equal most stand once.
ghost use Rattle.std.specs.Prelude.{◌≡◌, List, ℕ, ◌++◌, ◌∷◌, length, true, IfOk};
ghost use Rattle.textwrap_patterns.specs.Trie.{numbers_at};
ghost use Rattle.textwrap_patterns.specs.Writing.{IsList};

use crate::numbers::{number_at, numbers_at};
use std::alloc::{AllocError, Allocator};

/// How many lists are kept in mind.
const KEPT: usize = 4096;

/// Lists of numbers, each behind its length.
#[derive(Debug, Drop)]
pub(crate) struct Lists<A: Allocator> {
    pub(crate) words: Vec<usize, A>,
    /// For each remainder of a hash the place of the list that was last met with it.
    kept: Vec<usize, A>,
}

/// No lists.
///
/// # Errors
/// [`AllocError`] where memory runs out.
pub(crate) fn no_lists<A: Allocator + Copy>(alloc: A) -> Result<Lists<A>, AllocError> {
    Ok(Lists {
        words: Vec::new(alloc),
        kept: vec![in alloc; 0; KEPT]?,
    })
}

/// Appends a list, or finds it where it stands already. Returns its place.
///
/// # Errors
/// [`AllocError`] where memory runs out.
pub(crate) fn push_list<A: Allocator>(
    lists: &mut Lists<A>,
    numbers: &[usize],
) -> Result<usize, AllocError>
    ensures { IfOk result (λ place. IsList numbers.now lists.old.words.items lists.new.words.items
        place) }
{
    let hash = hash(numbers) % KEPT;
    let kept = number_at(&lists.kept, hash);
    if is_list(&lists.words, kept, numbers) {
        return Ok(kept);
    }
    let place = lists.words.len();
    keep(&mut lists.kept, hash, place);
    write_list(&mut lists.words, numbers)?;
    Ok(place)
}

/// Keeps a place in mind.
fn keep(kept: &mut [usize], hash: usize, place: usize) {
    if hash < kept.len() {
        kept[hash] = place;
    }
}

/// Appends a list: its length, then its numbers.
///
/// # Errors
/// [`AllocError`] where memory runs out.
pub(crate) fn write_list<A: Allocator>(
    words: &mut Vec<usize, A>,
    numbers: &[usize],
) -> Result<(), AllocError>
    ensures { IfOk result (λ done. words.new.items
        ≡ words.old.items ++ (length numbers.now ∷ numbers.now)) }
{
    words.push(numbers.len())?;
    words.extend_from_slice(numbers)
}

/// Whether these numbers stand at a place, as a whole.
fn is_list(words: &[usize], place: usize, numbers: &[usize]) -> bool
    ensures { result ≡ true → (more : List ℕ) → numbers_at (words.now ++ more) place ≡ numbers.now }
{
    if place >= words.len() || words[place] != numbers.len() {
        return false;
    }
    numbers_at(words, place) == numbers
}

/// A number that equal lists share.
fn hash(numbers: &[usize]) -> usize {
    let mut hash: usize = numbers.len();
    for number in numbers {
        hash = hash.wrapping_mul(31).wrapping_add(*number);
    }
    hash
}
