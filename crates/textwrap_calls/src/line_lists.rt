//! Lists of lines for display: shortened, and with styles carried over their ends.
ghost use Rattle.textwrap_calls.specs.Options.{TellsFaults};
ghost use Rattle.std.specs.Prelude.{◌≡◌, false, ◌<◌, ◌≤◌, ℕ, ◌↔◌, [], List, map, All, IsUtf8, IfOk};
ghost use Rattle.textwrap.specs.Paragraph.{line_bytes};
ghost use Rattle.textwrap_calls.specs.Columns.{ArePlacedRows, AreRows};
ghost use Rattle.textwrap_calls.specs.Display.{AreShort};
ghost use Rattle.textwrap_calls.specs.Options.{options_settings, says_yes, AreKnown, AreTexts};
ghost use Rattle.textwrap_calls.specs.Status.{not_utf8, too_small, unknown_options};
ghost use Rattle.textwrap_calls.specs.Texts.{bytes_of, IsText};
ghost use Rattle.textwrap_calls.specs.Wrapping.{WritesLines};
ghost use Rattle.textwrap_display.specs.Styles.{carried_lines};

use crate::options::{TextwrapOptions, read_layout};
use crate::reported::{TextwrapLine, put_lines};
use crate::status::{NOT_UTF8, OUT_OF_MEMORY, UNKNOWN_OPTIONS};
use crate::texts::{TextwrapText, are_utf8, lines_of, place_all};
use simdutf8::basic::from_utf8;
use std::alloc::{AllocError, Global};
use textwrap::Options;
use textwrap_display::{Shortening, carry_styles, shorten_lines_by};
use textwrap_lines::placed::PlacedLines;

/// Writes so many of the lines at most, as `textwrap_wrap` writes lines that are texts of their own.
/// If some are left out, the last one ends in the placeholder.
pub fn textwrap_shorten_lines(
    alloc: Global,
    lines: &[TextwrapText<'_>],
    most: usize,
    width: usize,
    placeholder: &[u8],
    places: &mut [TextwrapLine],
    count: &mut usize,
    room: &mut [u8],
    len: &mut usize,
) -> u32
    ensures short { WritesLines (λ answer _. AreRows (AreShort false most width placeholder.now
        (bytes_of lines.now)) answer)
        [] result places.old places.new count.old count.new room.old room.new len.old len.new }
    ensures not_utf8 { result ≡ not_utf8
        ↔ ¬ (All IsText lines.now × IsUtf8 placeholder.now) }
    ensures statuses { result ≤ too_small }
{
    let Ok(placeholder) = from_utf8(placeholder) else {
        return NOT_UTF8;
    };
    if !are_utf8(lines) {
        return NOT_UTF8;
    }
    match place_shortened(alloc, lines, most, &Shortening::new(width, placeholder)) {
        Ok(placed) => put_lines(&placed, places, count, room, len),
        Err(_) => OUT_OF_MEMORY,
    }
}

/// Writes the same lines, where words may be cut that are too wide if `break_words` is 1, and not if
/// it is 0; any other number is `UNKNOWN_OPTIONS`.
pub fn textwrap_shorten_lines_by(
    alloc: Global,
    lines: &[TextwrapText<'_>],
    most: usize,
    width: usize,
    placeholder: &[u8],
    break_words: u32,
    places: &mut [TextwrapLine],
    count: &mut usize,
    room: &mut [u8],
    len: &mut usize,
) -> u32
    ensures short { WritesLines (λ answer _. AreRows (AreShort (says_yes break_words) most width
        placeholder.now (bytes_of lines.now)) answer)
        [] result places.old places.new count.old count.new room.old room.new len.old len.new }
    ensures unknown { result ≡ unknown_options ↔ 1 < break_words }
    ensures not_utf8 { result ≡ not_utf8
        ↔ (break_words ≤ 1) × ¬ (All IsText lines.now × IsUtf8 placeholder.now) }
    ensures statuses { result ≤ unknown_options }
{
    if break_words > 1 {
        return UNKNOWN_OPTIONS;
    }
    let Ok(placeholder) = from_utf8(placeholder) else {
        return NOT_UTF8;
    };
    if !are_utf8(lines) {
        return NOT_UTF8;
    }
    let shortening = Shortening::new(width, placeholder).break_words(break_words != 0);
    match place_shortened(alloc, lines, most, &shortening) {
        Ok(placed) => put_lines(&placed, places, count, room, len),
        Err(_) => OUT_OF_MEMORY,
    }
}

/// Those lines, placed.
fn place_shortened(
    alloc: Global,
    lines: &[TextwrapText<'_>],
    most: usize,
    shortening: &Shortening<'_>,
) -> Result<PlacedLines<Global>, AllocError>
    requires { All IsText lines.now }
    ensures { IfOk result (λ placed. (rows : List (List ℕ))
        × AreShort shortening.now.break_words most shortening.now.width
        shortening.now.placeholder.now (bytes_of lines.now) rows
        × ArePlacedRows rows placed.places.items placed.built.items) }
{
    let lines = lines_of(alloc, lines)?;
    let short = shorten_lines_by(alloc, &lines, most, shortening)?;
    place_all(alloc, short)
}

/// Writes the lines of one text so that each stands by itself: after its indent it sets anew the link
/// that the lines before it left open and, of each attribute, the last setting that did not end, and
/// at its end it takes back what is open. They are written as `textwrap_wrap` writes lines that are
/// texts of their own. The indents are those of the options, and nothing else of them is used.
pub fn textwrap_carry_styles(
    alloc: Global,
    lines: &[TextwrapText<'_>],
    options: &TextwrapOptions<'_>,
    places: &mut [TextwrapLine],
    count: &mut usize,
    room: &mut [u8],
    len: &mut usize,
) -> u32
    ensures carried { let settings = options_settings options.now in
        WritesLines (λ answer _. AreRows (λ rows. rows ≡ map line_bytes (carried_lines
        settings.initial_indent settings.subsequent_indent [] (bytes_of lines.now))) answer)
        [] result places.old places.new count.old count.new room.old room.new len.old len.new }
    ensures faults { TellsFaults result (AreKnown options.now)
        (All IsText lines.now × AreTexts options.now) }
{
    let options = match read_layout(options) {
        Ok(options) => options,
        Err(status) => return status,
    };
    if !are_utf8(lines) {
        return NOT_UTF8;
    }
    match place_carried(alloc, lines, &options) {
        Ok(placed) => put_lines(&placed, places, count, room, len),
        Err(_) => OUT_OF_MEMORY,
    }
}

/// Those lines, placed.
fn place_carried(
    alloc: Global,
    lines: &[TextwrapText<'_>],
    options: &Options<'_>,
) -> Result<PlacedLines<Global>, AllocError>
    requires { All IsText lines.now }
    ensures { IfOk result (λ placed. ArePlacedRows (map line_bytes (carried_lines
        options.now.initial_indent.now options.now.subsequent_indent.now [] (bytes_of lines.now)))
        placed.places.items placed.built.items) }
{
    let lines = lines_of(alloc, lines)?;
    let carried = carry_styles(alloc, &lines, options)?;
    place_all(alloc, carried)
}
