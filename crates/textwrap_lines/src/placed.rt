//! The lines of a text by where they stand, for the calls from C. The crate `textwrap` does not
//! re-export this module.
ghost use Rattle.std.specs.Prelude.{◌≡◌, ◌<◌, [], ◌∷◌, map, OnOk};
ghost use Rattle.std.specs.Io.{StartsWith};
ghost use Rattle.std.specs.List.{flat_map};
ghost use Rattle.textwrap_layout.specs.LentPlaces.{WritesPlaces, reported_line};
ghost use Rattle.textwrap_layout.specs.Options.{settings_view};
ghost use Rattle.textwrap_layout.specs.Paragraph.{Slice, text_limit};
ghost use Rattle.textwrap_layout.specs.Places.{HasPlacesMore, cut_line};
ghost use Rattle.textwrap_layout.specs.Places.{division_cuts, further};
ghost use Rattle.textwrap_words.specs.Words.{tiled, word_view};

use crate::wrapping::push_lines;
use std::alloc::{AllocError, Allocator};
use textwrap_layout::frame::Frame;
use textwrap_layout::layout::Layout;
use textwrap_layout::lent_places::LentPlaces;
pub use textwrap_layout::lent_places::LineCounts;
use textwrap_layout::line_sinks::LineSink;
use textwrap_layout::options::Options;
pub use textwrap_layout::places::{Place, PlacedLines, TextwrapLine};
use textwrap_words::words::Word;

/// Writes where lines stand to the front of `lines`, and those that are texts of their own to the front
/// of the room, as much of them as has room, and returns how long they are. What follows stays as it
/// was.
pub fn write_places(
    places: &[Place],
    built: &[u8],
    lines: &mut [TextwrapLine],
    room: &mut [u8],
) -> LineCounts
    ensures { WritesPlaces places.now built.now result lines.old lines.new room.old room.new }
{
    let mut placed = LentPlaces::new(lines, room);
    placed.push_bytes(built);
    for place in places {
        placed.push(reported_line(*place));
    }
    placed.counts()
}

/// A place as it is reported.
fn reported_line(place: Place) -> TextwrapLine
    ensures { result ≡ reported_line place }
{
    TextwrapLine {
        offset: place.offset,
        len: place.len,
        is_built: if place.is_built { 1 } else { 0 },
    }
}

/// Adds the line of each list of pieces, by where it stands in the text. Together the pieces tile the
/// paragraph, or its beginning; `start` bytes of the text come before it. `is_later` says that a line
/// stands before them.
///
/// # Errors
/// [`AllocError`] where memory runs out.
pub(crate) fn push_division<A: Allocator + Copy>(
    alloc: A,
    lines: &mut PlacedLines<A>,
    start: usize,
    paragraph: &str,
    division: &[&[Word<'_>]],
    options: &Options<'_>,
    is_later: bool,
) -> Result<(), AllocError>
    requires begins { StartsWith paragraph.now
        (flat_map (λ line. tiled (map word_view line.now)) division.now) }
    requires start { start < text_limit }
    ensures { OnOk result (HasPlacesMore lines.old lines.new (map (further start)
        (division_cuts (settings_view options.now) is_later
        (map (λ line. map word_view line.now) division.now)))) }
{
    lines.begin_paragraph(start);
    let frame = Frame::at(Layout::of(options), is_later);
    push_lines(alloc, paragraph, division, &frame, lines)
}

/// Adds a slice of the text that so many bytes come before, as a line.
///
/// # Errors
/// [`AllocError`] where memory runs out.
pub fn push_slice<A: Allocator>(
    alloc: A,
    lines: &mut PlacedLines<A>,
    start: usize,
    slice: &str,
) -> Result<(), AllocError>
    requires { start < text_limit }
    ensures { OnOk result
        (HasPlacesMore lines.old lines.new (cut_line start (Slice slice.now) ∷ [])) }
{
    lines.begin_paragraph(start);
    lines.push_line(alloc, "", 0, slice, "")
}
