//! Patterns of letters and levels.
ghost use Rattle.std.specs.Prelude.{◌≡◌, ◌+◌, length};
ghost use Rattle.textwrap_words.specs.Cuts.{AreNext-prop};
ghost use Rattle.textwrap_patterns.specs.Places.{AreInnerPlaces};
ghost use Rattle.std.proofs.Props.{props};

use std::alloc::{Allocator, Global};

/// Letters, and a level for the place before each of them and for the one behind the last: `hy3ph`
/// has the letters `hyph` and the levels 0, 0, 3, 0 and 0.
#[derive(Debug, Drop)]
pub struct Pattern<A: Allocator = Global> {
    /// The letters, in lower case. A dot is the beginning or the end of a word.
    pub letters: Vec<char, A>,
    /// The levels, one more than letters.
    pub levels: Vec<u8, A>,
    pub ghost level_each: { length levels.items ≡ length letters.items + 1 },
}

/// A word, and where it has its hyphens: `ta-ble` has the letters `table` and the place 2.
#[derive(Debug, Drop)]
pub struct Exception<A: Allocator = Global> {
    /// The letters, in lower case.
    pub letters: Vec<char, A>,
    /// Behind how many letters there is a hyphen. They increase, inside the word.
    pub places: Vec<usize, A>,
    pub ghost inner: { AreInnerPlaces (length letters.items) places.items } by { Prim.hlevel
        (AreNext-prop, props) },
}
