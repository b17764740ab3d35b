//! Lines and pieces by where they stand, which the calls from C report.
ghost use Rattle.std.specs.Prelude.{◌≡◌, IfErr, IfOk, IsOk, List, map};
ghost use Rattle.textwrap.specs.Paragraph.{Line};
ghost use Rattle.textwrap.specs.Words.{word_view, Tiles};
ghost use Rattle.textwrap_layout.specs.LentPlaces.{WritesPlaces};
ghost use Rattle.textwrap_layout.specs.Paragraph.{broken_pieces_of};
ghost use Rattle.textwrap_layout.specs.Places.{ArePlacedLines, built_text};
ghost use Rattle.textwrap_layout.specs.declared.places.Place.{Place};
ghost use Rattle.textwrap_plain.specs.Options.{AreDirect, DividesPlainly, plain_settings, points_by};
ghost use Rattle.textwrap_plain.specs.Options.{split_by_points, words_by};
ghost use Rattle.textwrap_base.specs.Errors.{OnlyMemoryRunsOut};

use crate::options::PlainOptions;
use std::alloc::{AllocError, Global};
use textwrap::WrapError;
use textwrap::words::Word;
use textwrap_layout::frame::Frame;
use textwrap_layout::lent_places::{LentLinePlaces, LentPlaces};
use textwrap_layout::pieces::find_pieces;
use textwrap_lines::inner::fill_to;
use textwrap_lines::placed::{LineCounts, PlacedLines, TextwrapLine, write_places};

/// Writes where the lines of [`wrap`](crate::wrap) stand to the front of `lines`, and those that are no
/// slices of the text to the front of the room, as much of both as has room, and returns how long they
/// are. What follows stays as it was. At blanks, by first fit and a built-in splitter nothing is
/// allocated.
///
/// # Errors
/// [`WrapError::Memory`] where memory runs out. Then the lines and the room are as they were.
pub fn place_into(
    alloc: Global,
    text: &str,
    options: &PlainOptions<'_>,
    lines: &mut [TextwrapLine],
    room: &mut [u8],
) -> Result<LineCounts, WrapError>
    ensures lines { IfOk result (λ counts. (placed : List Line) × (places : List Place)
        × ArePlacedLines (plain_settings options.now)
        (DividesPlainly options.now (plain_settings options.now)) text.now placed places
        × WritesPlaces places (built_text placed) counts lines.old lines.new room.old room.new) }
    ensures done { AreDirect options.now → IsOk result }
    ensures kept_lines { IfErr result (λ _. lines.new ≡ lines.old) }
    ensures kept_room { IfErr result (λ _. room.new ≡ room.old) }
    ensures only_memory { OnlyMemoryRunsOut result }
{
    let layout = options.layout();
    if let Some(parts) = options.direct_parts() {
        let mut placed = LentPlaces::new(lines, room);
        let mut sink = LentLinePlaces {
            placed: &mut placed,
        };
        fill_to(alloc, text, layout, &parts, &mut sink)?;
        return Ok(placed.counts());
    }
    let mut placed = PlacedLines::new(alloc);
    fill_to(alloc, text, layout, &options.parts(alloc), &mut placed)?;
    Ok(write_places(
        placed.places.as_slice(),
        placed.built.as_slice(),
        lines,
        room,
    ))
}

/// The pieces that a paragraph is divided into lines of: its words, split and broken.
///
/// # Errors
/// [`AllocError`] where memory runs out.
pub fn paragraph_pieces<'t>(
    alloc: Global,
    paragraph: &'t str,
    options: &PlainOptions<'_>,
) -> Result<Vec<Word<'t>>, AllocError>
    ensures pieces { IfOk result (λ pieces. map word_view pieces.items
        ≡ broken_pieces_of (plain_settings options.now) (split_by_points (points_by options.now.word_splitter)
        (words_by options.now.word_separator paragraph.now))) }
    ensures tiles { IfOk result (λ pieces. Tiles (map word_view pieces.items) paragraph.now) }
{
    let frame = Frame::of(options.layout());
    find_pieces(alloc, paragraph, &frame, &options.parts(alloc))
}
