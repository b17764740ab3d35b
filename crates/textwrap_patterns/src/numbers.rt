//! Lists of numbers within one, each behind its length.
ghost use Rattle.std.specs.Prelude.{◌≡◌, ℕ, ◌+◌, ◌<◌, drop, length, max, slice_index};
ghost use Rattle.textwrap_patterns.specs.Trie.{numbers_at};

/// The number at a place, or 0 past the end.
#[inline]
pub(crate) fn number_at(words: &[usize], at: usize) -> usize
    ensures { result ≡ slice_index words.now at }
{
    if at < words.len() { words[at] } else { 0 }
}

/// The list that stands at a place: how many numbers it has, then these. What does not fit is left
/// out.
#[inline]
pub(crate) fn numbers_at(words: &[usize], at: usize) -> &[usize]
    ensures { result.now ≡ numbers_at words.now at }
{
    list_and_rest(words, at).0
}

/// The list that stands at a place, and what stands behind it.
#[inline]
pub(crate) fn list_and_rest(words: &[usize], at: usize) -> (&[usize], &[usize])
    ensures list { result.0.now ≡ numbers_at words.now at }
    ensures rest { result.1.now ≡ drop (at + 1 + length (numbers_at words.now at)) words.now }
{
    if at >= words.len() {
        return (&[], &[]);
    }
    let rest = &words[at + 1..];
    rest.split_at(words[at].min(rest.len()))
}

/// Raises each number to the other at its place, as far as both lists go.
#[inline]
pub(crate) fn raise(numbers: &mut [usize], others: &[usize])
    ensures { (k : ℕ) → k < length numbers.old → slice_index numbers.new k
        ≡ max (slice_index numbers.old k) (slice_index others.now k) }
{
    let len = numbers.len().min(others.len());
    for i in 0..len {
        numbers[i] = numbers[i].max(others[i]);
    }
}
