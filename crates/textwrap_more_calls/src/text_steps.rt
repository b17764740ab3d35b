//! A whole text in steps: each of its paragraphs comes with what a caller found of it.
ghost use Rattle.std.specs.Io.{StartsWith};
ghost use Rattle.std.specs.Prelude.{◌≡◌, ◌≢◌, ◌≤◌, ◌<◌, ◌+◌, ◌⊎◌, ◌++◌, false, List, ℕ, IfErr};
ghost use Rattle.std.specs.Prelude.{IfOk, IsUtf8, OnOk, length, map, nat_lt, slice_range};
ghost use Rattle.std.specs.Prelude.{if◌then◌else◌};
ghost use Rattle.textwrap_calls.specs.Options.{step_settings, AreKnown, AreTexts, TellsUnknown};
ghost use Rattle.textwrap_calls.specs.Options.{TellsNotUtf8};
ghost use Rattle.textwrap_calls.specs.Room.{WritesText};
ghost use Rattle.textwrap_calls.specs.Status.{out_of_memory, unknown_options, wrong_places};
ghost use Rattle.textwrap_calls.specs.Wrapping.{ShowLines, WritesLines};
ghost use Rattle.textwrap_layout.specs.Options.{settings_view};
ghost use Rattle.textwrap_layout.specs.Paragraph.{Line, is_whole, line_bytes, text_limit};
ghost use Rattle.textwrap_layout.specs.Places.{HasPlaces, HasPlacesMore, cut_lines, lines_of};
ghost use Rattle.textwrap_layout.specs.Text.{covered_by};
ghost use Rattle.textwrap_more_calls.specs.Steps.{AreLineSteps, ArePlacedCuts};
ghost use Rattle.textwrap_more_calls.specs.TextSteps.{AreTextSteps, filled_at, parts_at};
ghost use Rattle.textwrap_more_calls.specs.TextSteps.{text_step_cuts, AreStepsOf};
ghost use Rattle.textwrap_text.specs.LineEnding.{ending_bytes, join_with, paragraphs_of};

use crate::steps::{TextwrapSteps, push_step_lines};
use simdutf8::basic::from_utf8;
use std::alloc::{AllocError, Global};
use textwrap::{LineEnding, Options};
use textwrap_calls::options::{TextwrapOptions, read_layout};
use textwrap_calls::reported::{TextwrapLine, put_lines};
use textwrap_calls::room::put;
use textwrap_calls::status::{NOT_UTF8, OUT_OF_MEMORY, WRONG_PLACES};
use textwrap_lines::inner::{is_one_line, whole_line};
use textwrap_lines::parts::split_paragraph;
use textwrap_lines::placed::{Place, PlacedLines, push_slice};

/// Writes the lines of a text as `textwrap_wrap` writes them, each paragraph of which is cut, split and
/// divided as these steps say. There are as many as `textwrap_paragraphs` finds paragraphs, and their
/// offsets are those of the paragraph; else the call answers `WRONG_PLACES`, and also where
/// `textwrap_lines_at` does. The steps of a paragraph that is one line as a whole are not used.
pub fn textwrap_wrap_at(
    alloc: Global,
    text: &[u8],
    steps: &[TextwrapSteps<'_>],
    options: &TextwrapOptions<'_>,
    lines: &mut [TextwrapLine],
    count: &mut usize,
    room: &mut [u8],
    len: &mut usize,
) -> u32
    ensures lines { WritesLines (ArePlacedCuts (text_step_cuts (step_settings options.now) steps.now
        text.now)) text.now result lines.old lines.new count.old count.new room.old room.new len.old
        len.new }
    ensures unknown { TellsUnknown result options.now }
    ensures not_utf8 { TellsNotUtf8 result options.now text.now }
    // That ends are more than the pieces is found out only if there is memory for these.
    ensures wrong_places { result ≡ wrong_places → AreKnown options.now
        × (IsUtf8 text.now × AreTexts options.now)
        × ¬ AreStepsOf options.now text.now steps.now }
    ensures right_places { result ≢ wrong_places → result ≢ out_of_memory → AreKnown options.now
        → IsUtf8 text.now × AreTexts options.now
        → AreStepsOf options.now text.now steps.now }
    ensures statuses { (result ≤ unknown_options) ⊎ (result ≡ wrong_places) }
{
    let options = match read_layout(options) {
        Ok(options) => options,
        Err(status) => return status,
    };
    let Ok(text) = from_utf8(text) else {
        return NOT_UTF8;
    };
    match place_text(alloc, text, steps, &options) {
        Ok(placed) => put_lines(&placed, lines, count, room, len),
        Err(status) => status,
    }
}

/// Writes these lines joined by the line ending, as `textwrap_fill` writes a filled text.
pub fn textwrap_fill_at(
    alloc: Global,
    text: &[u8],
    steps: &[TextwrapSteps<'_>],
    options: &TextwrapOptions<'_>,
    room: &mut [u8],
    len: &mut usize,
) -> u32
    ensures filled { WritesText (λ answer. answer ≡ filled_at (step_settings options.now) steps.now
        text.now) result room.old room.new len.old len.new }
    ensures unknown { TellsUnknown result options.now }
    ensures not_utf8 { TellsNotUtf8 result options.now text.now }
    // As in `textwrap_wrap_at`.
    ensures wrong_places { result ≡ wrong_places → AreKnown options.now
        × (IsUtf8 text.now × AreTexts options.now)
        × ¬ AreStepsOf options.now text.now steps.now }
    ensures right_places { result ≢ wrong_places → result ≢ out_of_memory → AreKnown options.now
        → IsUtf8 text.now × AreTexts options.now
        → AreStepsOf options.now text.now steps.now }
    ensures statuses { (result ≤ unknown_options) ⊎ (result ≡ wrong_places) }
{
    let options = match read_layout(options) {
        Ok(options) => options,
        Err(status) => return status,
    };
    let Ok(text) = from_utf8(text) else {
        return NOT_UTF8;
    };
    let placed = match place_text(alloc, text, steps, &options) {
        Ok(placed) => placed,
        Err(status) => return status,
    };
    match join_lines(alloc, text.as_bytes(), &placed, options.line_ending) {
        Ok(filled) => put(&filled, room, len),
        Err(_) => OUT_OF_MEMORY,
    }
}

/// The lines of a text at these steps, by where they stand.
///
/// # Errors
/// The status `WRONG_PLACES` or `OUT_OF_MEMORY`.
fn place_text(
    alloc: Global,
    text: &str,
    steps: &[TextwrapSteps<'_>],
    options: &Options<'_>,
) -> Result<PlacedLines<Global>, u32>
    ensures placed { IfOk result (λ placed. HasPlaces placed
        (text_step_cuts (settings_view options.now) steps.now text.now)) }
    ensures shown { IfOk result (λ placed. (rest : List ℕ) → ShowLines text.now
        (placed.built.items ++ rest) 0 0
        (lines_of (text_step_cuts (settings_view options.now) steps.now text.now))
        placed.places.items) }
    ensures steps { IfOk result (λ _. AreTextSteps (settings_view options.now) false
        (paragraphs_of options.now.line_ending text.now) steps.now) }
    ensures refused { IfErr result (λ status. ((status ≡ wrong_places)
        × ¬ AreTextSteps (settings_view options.now) false
        (paragraphs_of options.now.line_ending text.now) steps.now) ⊎ (status ≡ out_of_memory)) }
{
    let mut lines = PlacedLines::new(alloc);
    let mut start = 0;
    let mut number = 0;
    let mut rest = Some(text);
    while let Some(text) = rest {
        let (paragraph, after) = split_paragraph(text, options.line_ending);
        if number >= steps.len() {
            return Err(WRONG_PLACES);
        }
        let one = &steps[number];
        let is_later = has_line(&lines);
        match push_paragraph(alloc, &mut lines, start, paragraph, one, options, is_later) {
            Ok(()) => {}
            Err(status) => return Err(status),
        }
        start += paragraph.len() + options.line_ending.as_str().len();
        number += 1;
        rest = after;
    }
    if number < steps.len() {
        return Err(WRONG_PLACES);
    }
    Ok(lines)
}

/// Whether any line stands there.
fn has_line(lines: &PlacedLines<Global>) -> bool
    ensures { result ≡ nat_lt 0 (length lines.now.places.items) }
{
    !lines.places.is_empty()
}

/// Adds the lines of a paragraph that `start` bytes of the text come before, as a whole or at these
/// steps.
///
/// # Errors
/// The status `WRONG_PLACES` or `OUT_OF_MEMORY`.
fn push_paragraph(
    alloc: Global,
    lines: &mut PlacedLines<Global>,
    start: usize,
    paragraph: &str,
    steps: &TextwrapSteps<'_>,
    options: &Options<'_>,
    is_later: bool,
) -> Result<(), u32>
    requires { start < text_limit }
    ensures placed { OnOk result (HasPlacesMore lines.old lines.new (cut_lines start
        (parts_at (settings_view options.now) is_later paragraph.now steps.now))) }
    ensures begins { IfOk result (λ _. StartsWith paragraph.now (covered_by
        (parts_at (settings_view options.now) is_later paragraph.now steps.now))) }
    ensures steps { IfOk result (λ _.
        is_whole (settings_view options.now) is_later paragraph.now ≡ false
        → AreLineSteps (settings_view options.now) steps.now.cuts.now steps.now.points.now
        steps.now.ends.now paragraph.now) }
    ensures refused { IfErr result (λ status. ((status ≡ wrong_places)
        × (is_whole (settings_view options.now) is_later paragraph.now ≡ false)
        × ¬ AreLineSteps (settings_view options.now) steps.now.cuts.now steps.now.points.now
        steps.now.ends.now paragraph.now) ⊎ (status ≡ out_of_memory)) }
{
    if is_one_line(paragraph, options, is_later) {
        let line = whole_line(paragraph, options);
        return match push_slice(alloc, lines, start, line) {
            Ok(()) => Ok(()),
            Err(_) => Err(OUT_OF_MEMORY),
        };
    }
    push_step_lines(alloc, lines, start, paragraph, steps, options, is_later)
}

/// The lines that stand in a text or are built, joined by the line ending.
fn join_lines(
    alloc: Global,
    text: &[u8],
    placed: &PlacedLines<Global>,
    line_ending: LineEnding,
) -> Result<Vec<u8>, AllocError>
    requires { (lines : List Line)
        × ShowLines text.now placed.now.built.items 0 0 lines placed.now.places.items }
    ensures { (lines : List Line)
        → ShowLines text.now placed.now.built.items 0 0 lines placed.now.places.items
        → IfOk result (λ joined.
        joined.items ≡ join_with (ending_bytes line_ending) (map line_bytes lines)) }
{
    let mut joined = Vec::with_capacity(alloc, text.len())?;
    let ending = line_ending.as_str().as_bytes();
    for (i, place) in placed.places.iter().enumerate() {
        push_line(
            &mut joined,
            i > 0,
            ending,
            line_at(text, &placed.built, place),
        )?;
    }
    Ok(joined)
}

/// Adds a line, after a line ending if it has begun.
fn push_line(
    joined: &mut Vec<u8>,
    has_begun: bool,
    ending: &[u8],
    line: &[u8],
) -> Result<(), AllocError>
    ensures { OnOk result (joined.new.items
        ≡ (if has_begun then joined.old.items ++ ending.now ++ line.now
        else joined.old.items ++ line.now)) }
{
    if has_begun {
        joined.extend_from_slice(ending)?;
    }
    Ok(joined.extend_from_slice(line)?)
}

/// The line that stands at a place.
fn line_at<'t>(text: &'t [u8], built: &'t [u8], place: &Place) -> &'t [u8]
    requires { place.now.offset + place.now.len
        ≤ length (if place.now.is_built then built.now else text.now) }
    ensures { result.now ≡ slice_range (if place.now.is_built then built.now else text.now)
        place.now.offset (place.now.offset + place.now.len) }
{
    let bytes = if place.is_built { built } else { text };
    &bytes[place.offset..place.offset + place.len]
}
