//! Unicode line breaks.
ghost use Rattle.std.specs.Prelude.{◌≡◌, ◌<◌, ◌≤◌, ◌↔◌, ◌⊎◌, IfOk, IsUtf8};
ghost use Rattle.textwrap_more_calls.specs.Breaks.{break_places};
ghost use Rattle.textwrap_calls.specs.Options.{numbers_by};
ghost use Rattle.textwrap_calls.specs.Room.{WritesText};
ghost use Rattle.textwrap_calls.specs.Status.{not_utf8, too_small, unknown_options};
ghost use Rattle.textwrap_unicode.specs.Cuts.{unicode_cuts};

use simdutf8::basic::from_utf8;
use std::alloc::{AllocError, Global};
use textwrap_calls::room::put;
use textwrap_calls::status::{NOT_UTF8, OUT_OF_MEMORY, UNKNOWN_OPTIONS};
use textwrap_unicode::{Numbers, line_breaks_by, unicode_cuts};

/// A place of a text where a line may or must end.
#[repr(C)]
#[derive(Clone, Copy)]
pub struct TextwrapLineBreak {
    /// How many bytes of the text come before it.
    pub offset: usize,
    /// 1 where a line must end, and else 0.
    pub is_mandatory: usize,
}

/// Writes where a line of the text may end, and where it must, by the Unicode line breaking algorithm:
/// `4`, `8`, where a line must end, and `11` for `foo bar\nbaz`. The last is the end, unless the text
/// is empty. Numbers are kept together by pairs (1) or by the expression of numbers (2); any other
/// number is `UNKNOWN_OPTIONS`.
pub fn textwrap_line_breaks(
    alloc: Global,
    text: &[u8],
    unicode_breaks: u32,
    breaks: &mut [TextwrapLineBreak],
    count: &mut usize,
) -> u32
    ensures breaks { WritesText (λ answer. answer
        ≡ break_places (numbers_by unicode_breaks) text.now)
        result breaks.old breaks.new count.old count.new }
    ensures unknown { result ≡ unknown_options ↔ (unicode_breaks < 1) ⊎ (2 < unicode_breaks) }
    ensures not_utf8 { result ≡ not_utf8 ↔ (1 ≤ unicode_breaks) × (unicode_breaks ≤ 2)
        × ¬ IsUtf8 text.now }
    ensures statuses { result ≤ unknown_options }
{
    let numbers = match unicode_breaks {
        1 => Numbers::ByPairs,
        2 => Numbers::ByExpression,
        _ => return UNKNOWN_OPTIONS,
    };
    let Ok(text) = from_utf8(text) else {
        return NOT_UTF8;
    };
    match listed_breaks(alloc, text, numbers) {
        Ok(found) => put(&found, breaks, count),
        Err(_) => OUT_OF_MEMORY,
    }
}

/// Those places, as C has them.
fn listed_breaks(
    alloc: Global,
    text: &str,
    numbers: Numbers,
) -> Result<Vec<TextwrapLineBreak>, AllocError>
    ensures { IfOk result (λ breaks. breaks.items ≡ break_places numbers text.now) }
{
    let mut breaks = Vec::new(alloc);
    for place in line_breaks_by(text, numbers) {
        breaks.push(TextwrapLineBreak {
            offset: place.at,
            is_mandatory: if place.is_mandatory { 1 } else { 0 },
        })?;
    }
    Ok(breaks)
}

/// Writes where a line is cut into words by the Unicode line breaking algorithm: `8` and `11` for
/// `foo-bar 日本`. They serve `textwrap_pieces_at`.
pub fn textwrap_unicode_cuts(
    alloc: Global,
    line: &[u8],
    cuts: &mut [usize],
    count: &mut usize,
) -> u32
    ensures cuts { WritesText (λ answer. answer ≡ unicode_cuts line.now)
        result cuts.old cuts.new count.old count.new }
    ensures not_utf8 { result ≡ not_utf8 ↔ ¬ IsUtf8 line.now }
    ensures statuses { result ≤ too_small }
{
    let Ok(line) = from_utf8(line) else {
        return NOT_UTF8;
    };
    match unicode_cuts(alloc, line) {
        Ok(found) => put(&found, cuts, count),
        Err(_) => OUT_OF_MEMORY,
    }
}
