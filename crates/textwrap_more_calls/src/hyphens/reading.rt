//! Dictionaries, read into numbers, and numbers that are tested.
ghost use Rattle.std.specs.Prelude.{◌≡◌, ◌≢◌, ◌≤◌, ◌↔◌, ◌⊎◌, false, true, IsUtf8};
ghost use Rattle.textwrap_calls.specs.Room.{WritesText};
ghost use Rattle.textwrap_calls.specs.Status.{done, not_utf8, too_small};
ghost use Rattle.textwrap_more_calls.specs.Dictionaries.{AreNumbersOf, IsWrongAt};
ghost use Rattle.textwrap_more_calls.specs.Status.{damaged_table, wrong_patterns};
ghost use Rattle.textwrap_hyphens.specs.Seal.{is_sealed};

use crate::hyphens::status::{DAMAGED_TABLE, WRONG_PATTERNS};
use simdutf8::basic::from_utf8;
use std::alloc::Global;
use textwrap_calls::room::put;
use textwrap_calls::status::{DONE, NOT_UTF8, OUT_OF_MEMORY};
use textwrap_dictionaries::errors::ParseError;
use textwrap_hyphens::dictionary::Patterns;
use textwrap_hyphens::table::is_sealed;

/// Reads the text of a dictionary, and writes its numbers to the front of the room and to `len` how many
/// they are. Where the room is too short it holds the first of them, and `len` says what a second call
/// has to bring. The numbers hold no address of memory, so they may be copied. Where the text is wrong,
/// the first line that is wrong is written to `line`, counted from 1; else `line` stays as it was.
///
/// The text is one of TeX, a dictionary of libhyphen in UTF-8, or a list of patterns and exceptions, one
/// a line: `hy3ph` is a pattern and `ta-ble` an exception.
pub fn textwrap_patterns_read(
    alloc: Global,
    text: &[u8],
    room: &mut [usize],
    len: &mut usize,
    line: &mut usize,
) -> u32
    ensures read { WritesText (AreNumbersOf text.now) result room.old room.new len.old len.new }
    ensures wrong { result ≡ wrong_patterns → IsWrongAt text.now line.new }
    ensures kept { result ≢ wrong_patterns → line.new ≡ line.old }
    ensures not_utf8 { result ≡ not_utf8 ↔ ¬ IsUtf8 text.now }
    ensures statuses { (result ≤ too_small) ⊎ (result ≡ wrong_patterns) }
{
    let Ok(text) = from_utf8(text) else {
        return NOT_UTF8;
    };
    match Patterns::parse(alloc, text) {
        Ok(patterns) => put(patterns.words(), room, len),
        Err(ParseError::Memory(_)) => OUT_OF_MEMORY,
        Err(ParseError::Line { line: wrong, .. }) => {
            *line = wrong;
            WRONG_PATTERNS
        }
    }
}

/// Tests the numbers of a dictionary: `DONE`, or `DAMAGED_TABLE` if their version or their sum is wrong, as
/// where one became another. It reads all of them, so a caller with many words or texts tests them once,
/// and sets `is_checked` of the dictionary to 1.
pub fn textwrap_patterns_check(numbers: &[usize]) -> u32
    ensures done { result ≡ done ↔ is_sealed numbers.now ≡ true }
    ensures damaged { result ≡ damaged_table ↔ is_sealed numbers.now ≡ false }
    ensures statuses { (result ≡ done) ⊎ (result ≡ damaged_table) }
{
    if is_sealed(numbers) {
        DONE
    } else {
        DAMAGED_TABLE
    }
}
