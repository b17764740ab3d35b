//! The points of a word.
ghost use Rattle.std.specs.Prelude.{◌≡◌, ◌≤◌, ◌↔◌, ◌⊎◌, IsUtf8};
ghost use Rattle.textwrap_calls.specs.Room.{WritesText};
ghost use Rattle.textwrap_calls.specs.Status.{not_utf8, unknown_options};
ghost use Rattle.textwrap_calls.specs.Dictionary.{IsDamaged, IsKnownDictionary, hyphenation_of};
ghost use Rattle.textwrap_more_calls.specs.Status.{damaged_table};
ghost use Rattle.textwrap_hyphens.specs.Points.{hyphenation_points};

use crate::hyphens::status::DAMAGED_TABLE;
use simdutf8::basic::from_utf8;
use std::alloc::Global;
use textwrap_calls::dictionary::{TextwrapDictionary, is_known, read_dictionary};
use textwrap_calls::room::put;
use textwrap_calls::status::{NOT_UTF8, OUT_OF_MEMORY, UNKNOWN_OPTIONS};
use textwrap_hyphens::points;

/// Writes the offsets in bytes at which a word has a hyphen by a dictionary, and to `count` how many they
/// are: 2 and 6 of `hyphenation`, with the patterns of `hy-phen-ation`. They increase, inside the word.
/// A dictionary that is not known is `UNKNOWN_OPTIONS`. One that is tested and was damaged, or is of
/// another version, is `DAMAGED_TABLE`.
pub fn textwrap_hyphen_points(
    alloc: Global,
    dictionary: &TextwrapDictionary<'_>,
    word: &[u8],
    points: &mut [usize],
    count: &mut usize,
) -> u32
    ensures points { WritesText (λ answer. answer ≡ hyphenation_points
        (hyphenation_of dictionary.now) word.now)
        result points.old points.new count.old count.new }
    ensures unknown { result ≡ unknown_options ↔ ¬ IsKnownDictionary dictionary.now }
    ensures not_utf8 { result ≡ not_utf8 ↔ IsKnownDictionary dictionary.now × ¬ IsUtf8 word.now }
    ensures damaged { result ≡ damaged_table
        ↔ IsKnownDictionary dictionary.now × IsUtf8 word.now × IsDamaged dictionary.now }
    ensures statuses { (result ≤ unknown_options) ⊎ (result ≡ damaged_table) }
{
    if !is_known(dictionary) {
        return UNKNOWN_OPTIONS;
    }
    let Ok(word) = from_utf8(word) else {
        return NOT_UTF8;
    };
    let Some(table) = read_dictionary(dictionary) else {
        return DAMAGED_TABLE;
    };
    match points::points(alloc, word, &table) {
        Ok(found) => put(&found, points, count),
        Err(_) => OUT_OF_MEMORY,
    }
}
