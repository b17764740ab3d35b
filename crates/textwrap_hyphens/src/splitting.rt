//! Words, split where a dictionary has hyphens, and behind hyphens of their own that stand within
//! no escape sequence.
ghost use Rattle.std.specs.Prelude.{◌≡◌, ◌==◌, IfOk};
ghost use Rattle.std.specs.List.{list_any};
ghost use Rattle.std.specs.List.Sorted.{IsStrictlyIncreasing};
ghost use Rattle.textwrap_words.specs.Cuts.{AreCuts};
ghost use Rattle.textwrap_hyphens.specs.Table.{held};
ghost use Rattle.textwrap_hyphens.specs.Splitting.{ArePointsBy};

use crate::outside::hyphens_outside;
use crate::points::points;
use crate::table::PatternTable;
use std::alloc::{AllocError, Allocator};

/// The offsets in bytes, in order, at which a word may be split: those of the dictionary, and those
/// behind a hyphen between alphanumeric characters, within no escape sequence. With the patterns of
/// `hy-phen-ation`, `hyphenation` has 2 and 6, and `re-hyphenation` has 3; where the parts of words are
/// asked for, it has 3, 5 and 9.
///
/// # Errors
/// [`AllocError`] where memory runs out.
pub fn split_points<A: Allocator + Copy>(
    alloc: A,
    word: &str,
    patterns: &PatternTable<'_>,
) -> Result<Vec<usize, A>, AllocError>
    ensures points { IfOk result (λ points.
        ArePointsBy (held patterns.now) word.now points.items) }
    ensures cuts { IfOk result (λ points. AreCuts word.now points.items) }
{
    let found = points(alloc, word, patterns)?;
    let hyphens = hyphens_outside(alloc, word)?;
    if hyphens.is_empty() {
        return Ok(found);
    }
    let mut points = Vec::new(alloc);
    for point in 1..word.len() {
        if is_among(point, &found) || is_among(point, &hyphens) {
            points.push(point)?;
        }
    }
    Ok(points)
}

/// Whether this is one of the increasing offsets.
fn is_among(point: usize, offsets: &[usize]) -> bool
    requires { IsStrictlyIncreasing offsets.now }
    ensures { result ≡ list_any (λ offset. offset == point) offsets.now }
{
    offsets.binary_search(&point).is_ok()
}
