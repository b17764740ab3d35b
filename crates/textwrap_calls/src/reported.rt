//! Lines as they are reported: where each was cut from, or stands in the room.
ghost use Rattle.std.specs.Prelude.{◌≡◌, ◌⊎◌, ◌∷◌, []};
ghost use Rattle.textwrap.specs.Paragraph.{Slice};
ghost use Rattle.textwrap_layout.specs.Places.{place_of};
ghost use Rattle.textwrap_text.specs.LentText.{as_len};
ghost use Rattle.textwrap_calls.specs.Status.{done, too_small};
ghost use Rattle.textwrap_calls.specs.Reported.{ReportsLines, WritesReported};

use crate::status::{DONE, TOO_SMALL};
use std::alloc::Global;
pub use textwrap_lines::placed::TextwrapLine;
use textwrap_lines::placed::{LineCounts, Place, PlacedLines, write_places};

/// Writes where the lines stand to the front of `lines`, and those that are no slices of the text
/// to the front of the room, as much of both as has room; and how many they are, and how long.
pub fn put_lines(
    reported: &PlacedLines<Global>,
    lines: &mut [TextwrapLine],
    count: &mut usize,
    room: &mut [u8],
    len: &mut usize,
) -> u32
    ensures lines { WritesReported (λ n. n) reported.now.places.items reported.now.built.items result
        lines.old lines.new count.new room.old room.new len.new }
    ensures statuses { (result ≡ done) ⊎ (result ≡ too_small) }
{
    let (places, built) = (reported.places.as_slice(), reported.built.as_slice());
    let counts = write_places(places, built, lines, room);
    report_counts(counts, lines.len(), room.len(), count, len)
}

/// The same for a text that is one line, which begins where it does.
pub fn put_line(
    line: &[u8],
    lines: &mut [TextwrapLine],
    count: &mut usize,
    room: &mut [u8],
    len: &mut usize,
) -> u32
    ensures lines { WritesReported as_len (place_of 0 0 (Slice line.now) ∷ []) [] result
        lines.old lines.new count.new room.old room.new len.new }
    ensures statuses { (result ≡ done) ⊎ (result ≡ too_small) }
{
    let place = Place {
        offset: 0,
        len: line.len(),
        is_built: false,
    };
    let counts = write_places(&[place], &[], lines, room);
    report_counts(counts, lines.len(), room.len(), count, len)
}

/// Says how long lines are, and whether they have room: for so many lines, and so many bytes of those
/// that are no slices of the text.
pub fn report_counts(
    counts: LineCounts,
    lines: usize,
    room: usize,
    count: &mut usize,
    len: &mut usize,
) -> u32
    ensures { ReportsLines counts lines room result count.new len.new }
{
    *count = counts.lines;
    *len = counts.built;
    if lines < counts.lines || room < counts.built {
        return TOO_SMALL;
    }
    DONE
}
