//! A paragraph in steps, for a caller who finds words, points or lines in another way.
ghost use Rattle.std.specs.Prelude.{◌≡◌, ◌≢◌, ◌≤◌, ◌<◌, ◌↔◌, ◌⊎◌, IsUtf8, IfOk, IfErr, OnOk, map};
ghost use Rattle.textwrap.specs.LineEnds.{AreEnds, lines_between};
ghost use Rattle.textwrap.specs.Options.{settings_view};
ghost use Rattle.textwrap.specs.Words.{Tiles, word_view};
ghost use Rattle.textwrap.specs.WrapAlgorithms.{IsDividedBy, OverflowsBy};
ghost use Rattle.textwrap_base.specs.Cost.{total_width};
ghost use Rattle.textwrap_base.specs.Errors.{Fits64Bits};
ghost use Rattle.textwrap_words.specs.Words.{sizes_of};
ghost use Rattle.textwrap_more_calls.specs.Fragments.{AreEndsOf};
ghost use Rattle.textwrap_layout.specs.Paragraph.{line_from, line_view, parts_from, text_limit};
ghost use Rattle.textwrap_layout.specs.Paragraph.{widths_of};
ghost use Rattle.textwrap_layout.specs.Places.{HasPlacesMore, division_cuts, further};
ghost use Rattle.textwrap_lines.specs.Steps.{pieces_at};
ghost use Rattle.textwrap_calls.specs.Options.{options_algorithm, step_settings, says_yes};
ghost use Rattle.textwrap_calls.specs.Options.{AreKnown, AreTexts, TellsUnknown, TellsNotUtf8};
ghost use Rattle.textwrap_more_calls.specs.Pieces.{piece_places};
ghost use Rattle.textwrap_calls.specs.Room.{WritesText};
ghost use Rattle.textwrap_calls.specs.Status.{done, not_utf8, out_of_memory, overflow, too_small};
ghost use Rattle.textwrap_calls.specs.Status.{unknown_options, wrong_places};
ghost use Rattle.textwrap_more_calls.specs.Steps.{AreSteps, AreLineSteps, ArePlacedCuts, step_cuts};
ghost use Rattle.textwrap_calls.specs.Wrapping.{WritesLines};

use crate::fragments::line_ends;
use crate::pieces::{TextwrapPiece, place_words};
use simdutf8::basic::from_utf8;
use std::alloc::Global;
use std::borrow::CowStr;
use textwrap::words::Word;
use textwrap::{Options, WrapError};
use textwrap_calls::options::{TextwrapOptions, read_layout, read_options, with_layout};
use textwrap_calls::reported::{TextwrapLine, put_lines};
use textwrap_calls::room::put;
use textwrap_calls::status::{NOT_UTF8, OUT_OF_MEMORY, OVERFLOW, UNKNOWN_OPTIONS, WRONG_PLACES};
use textwrap_lines::inner::line_widths;
use textwrap_lines::placed::PlacedLines;
use textwrap_lines::steps::{are_ends, are_inner_cuts, list_lines_at, pieces_at, push_lines_at};

/// What a caller found of a paragraph: where it is cut into words, where these are split, and where its
/// lines end.
#[repr(C)]
#[derive(Clone, Copy)]
pub struct TextwrapSteps<'a> {
    /// The offsets at which it is cut.
    pub cuts: &'a [usize],
    /// The offsets at which its words may be split.
    pub points: &'a [usize],
    /// How many of the pieces stand before the end of each line.
    pub ends: &'a [usize],
}

/// Writes the pieces of a paragraph that is cut into words at these offsets, whose words may be
/// split at these points, and are broken as the options say. Both are offsets of the paragraph,
/// increase, and are character boundaries inside it; else the call answers `WRONG_PLACES`. A point
/// outside the text of a word is not used.
pub fn textwrap_pieces_at(
    alloc: Global,
    paragraph: &[u8],
    cuts: &[usize],
    points: &[usize],
    options: &TextwrapOptions<'_>,
    pieces: &mut [TextwrapPiece],
    count: &mut usize,
) -> u32
    ensures pieces { WritesText (λ answer. answer ≡ piece_places 0
        (pieces_at (step_settings options.now) cuts.now points.now paragraph.now))
        result pieces.old pieces.new count.old count.new }
    ensures unknown { TellsUnknown result options.now }
    ensures not_utf8 { TellsNotUtf8 result options.now paragraph.now }
    ensures wrong_places { result ≡ wrong_places ↔ AreKnown options.now
        × (IsUtf8 paragraph.now × AreTexts options.now)
        × ¬ AreSteps cuts.now points.now paragraph.now }
    ensures statuses { (result ≤ unknown_options) ⊎ (result ≡ wrong_places) }
{
    let options = match read_layout(options) {
        Ok(options) => options,
        Err(status) => return status,
    };
    let Ok(paragraph) = from_utf8(paragraph) else {
        return NOT_UTF8;
    };
    let found = match find_pieces(alloc, paragraph, cuts, points, &options) {
        Ok(found) => found,
        Err(status) => return status,
    };
    let Ok(places) = place_words(alloc, paragraph, &found) else {
        return OUT_OF_MEMORY;
    };
    put(&places, pieces, count)
}

/// The pieces of a paragraph at these cuts and points.
///
/// # Errors
/// The status `WRONG_PLACES` or `OUT_OF_MEMORY`.
fn find_pieces<'t>(
    alloc: Global,
    paragraph: &'t str,
    cuts: &[usize],
    points: &[usize],
    options: &Options<'_>,
) -> Result<Vec<Word<'t>>, u32>
    ensures pieces { IfOk result (λ pieces. map word_view pieces.items
        ≡ pieces_at (settings_view options.now) cuts.now points.now paragraph.now) }
    ensures tiles { IfOk result (λ pieces. Tiles (map word_view pieces.items) paragraph.now) }
    ensures steps { IfOk result (λ _. AreSteps cuts.now points.now paragraph.now) }
    ensures refused { IfErr result (λ status.
        ((status ≡ wrong_places) × ¬ AreSteps cuts.now points.now paragraph.now)
        ⊎ ((status ≡ out_of_memory) × AreSteps cuts.now points.now paragraph.now)) }
{
    if !are_inner_cuts(paragraph, cuts) || !are_inner_cuts(paragraph, points) {
        return Err(WRONG_PLACES);
    }
    match pieces_at(alloc, paragraph, cuts, points, options) {
        Ok(pieces) => Ok(pieces),
        Err(_) => Err(OUT_OF_MEMORY),
    }
}

/// Writes where the lines of these pieces end by the algorithm of the options: how many of the pieces
/// stand before each end. `is_later` is as in `textwrap_lines_at`. `OVERFLOW` as in
/// `textwrap_wrap_optimal_fit`.
pub fn textwrap_ends_at(
    alloc: Global,
    paragraph: &[u8],
    cuts: &[usize],
    points: &[usize],
    options: &TextwrapOptions<'_>,
    is_later: usize,
    ends: &mut [usize],
    count: &mut usize,
) -> u32
    ensures ends { WritesText (AreEndsOf (IsDividedBy (options_algorithm options.now) sizes_of
        (widths_of (step_settings options.now) (says_yes is_later))
        (pieces_at (step_settings options.now) cuts.now points.now paragraph.now)))
        result ends.old ends.new count.old count.new }
    ensures overflow { result ≡ overflow → OverflowsBy (options_algorithm options.now) sizes_of
        (widths_of (step_settings options.now) (says_yes is_later))
        (pieces_at (step_settings options.now) cuts.now points.now paragraph.now) }
    ensures written_only { (result ≡ done) ⊎ (result ≡ too_small)
        → ¬ OverflowsBy (options_algorithm options.now) sizes_of
        (widths_of (step_settings options.now) (says_yes is_later))
        (pieces_at (step_settings options.now) cuts.now points.now paragraph.now) }
    // Overflow needs pieces that are together wider than 64 bits can say.
    ensures no_overflow { Fits64Bits (total_width sizes_of
        (pieces_at (step_settings options.now) cuts.now points.now paragraph.now))
        → result ≢ overflow }
    ensures unknown { result ≡ unknown_options ↔ (1 < is_later) ⊎ (¬ AreKnown options.now) }
    ensures not_utf8 { result ≡ not_utf8 ↔ (is_later ≤ 1) × AreKnown options.now
        × ¬ (IsUtf8 paragraph.now × AreTexts options.now) }
    ensures wrong_places { result ≡ wrong_places ↔ (is_later ≤ 1) × AreKnown options.now
        × (IsUtf8 paragraph.now × AreTexts options.now)
        × ¬ AreSteps cuts.now points.now paragraph.now }
    ensures statuses { result ≤ wrong_places }
{
    if is_later > 1 {
        return UNKNOWN_OPTIONS;
    }
    let options = match read_options(options) {
        Ok(options) => options,
        Err(status) => return status,
    };
    let layout = with_layout(options.layout());
    let Ok(paragraph) = from_utf8(paragraph) else {
        return NOT_UTF8;
    };
    let pieces = match find_pieces(alloc, paragraph, cuts, points, &layout) {
        Ok(pieces) => pieces,
        Err(status) => return status,
    };
    let (first_width, later_width) = line_widths(&layout, is_later != 0);
    let line_widths = [first_width, later_width];
    let division = match options.algorithm().wrap(alloc, &pieces, &line_widths) {
        Ok(division) => division,
        Err(WrapError::Memory(_)) => return OUT_OF_MEMORY,
        Err(WrapError::Overflow(_)) => return OVERFLOW,
    };
    match line_ends(alloc, &pieces, &division) {
        Ok(found) => put(&found, ends, count),
        Err(_) => OUT_OF_MEMORY,
    }
}

/// Writes the lines of these pieces as `textwrap_wrap` writes lines: each ends before so many of the
/// pieces. `is_later` is 1 if a line stands before them and else 0; any other number is
/// `UNKNOWN_OPTIONS`. The ends do not decrease, and are no more than the pieces; else the call answers
/// `WRONG_PLACES`. Pieces after the last end are in no line.
pub fn textwrap_lines_at(
    alloc: Global,
    paragraph: &[u8],
    cuts: &[usize],
    points: &[usize],
    ends: &[usize],
    options: &TextwrapOptions<'_>,
    is_later: usize,
    lines: &mut [TextwrapLine],
    count: &mut usize,
    room: &mut [u8],
    len: &mut usize,
) -> u32
    ensures lines { WritesLines (ArePlacedCuts (step_cuts (step_settings options.now) cuts.now
        points.now ends.now is_later paragraph.now))
        paragraph.now result lines.old lines.new count.old count.new room.old room.new len.old
        len.new }
    ensures unknown { result ≡ unknown_options ↔ (1 < is_later) ⊎ (¬ AreKnown options.now) }
    ensures not_utf8 { result ≡ not_utf8 ↔ (is_later ≤ 1) × AreKnown options.now
        × ¬ (IsUtf8 paragraph.now × AreTexts options.now) }
    // That the ends are more than the pieces is found out only if there is memory for these.
    ensures wrong_places { result ≡ wrong_places → (is_later ≤ 1) × AreKnown options.now
        × (IsUtf8 paragraph.now × AreTexts options.now)
        × ¬ AreLineSteps (step_settings options.now) cuts.now points.now ends.now paragraph.now }
    ensures right_places { result ≢ wrong_places → result ≢ out_of_memory → (is_later ≤ 1)
        → AreKnown options.now → IsUtf8 paragraph.now × AreTexts options.now
        → AreLineSteps (step_settings options.now) cuts.now points.now ends.now paragraph.now }
    ensures statuses { (result ≤ unknown_options) ⊎ (result ≡ wrong_places) }
{
    if is_later > 1 {
        return UNKNOWN_OPTIONS;
    }
    let options = match read_layout(options) {
        Ok(options) => options,
        Err(status) => return status,
    };
    let Ok(paragraph) = from_utf8(paragraph) else {
        return NOT_UTF8;
    };
    let steps = TextwrapSteps { cuts, points, ends };
    let mut found = PlacedLines::new(alloc);
    match push_step_lines(
        alloc,
        &mut found,
        0,
        paragraph,
        &steps,
        &options,
        is_later != 0,
    ) {
        Ok(()) => put_lines(&found, lines, count, room, len),
        Err(status) => status,
    }
}

/// Adds the lines of a paragraph at these steps, by where they stand in a text. `start` bytes of it
/// come before the paragraph.
///
/// # Errors
/// The status `WRONG_PLACES` or `OUT_OF_MEMORY`.
pub(crate) fn push_step_lines(
    alloc: Global,
    lines: &mut PlacedLines<Global>,
    start: usize,
    paragraph: &str,
    steps: &TextwrapSteps<'_>,
    options: &Options<'_>,
    is_later: bool,
) -> Result<(), u32>
    requires { start < text_limit }
    ensures placed { OnOk result (HasPlacesMore lines.old lines.new (map (further start)
        (division_cuts (settings_view options.now) is_later (lines_between steps.now.ends.now
        (pieces_at (settings_view options.now) steps.now.cuts.now steps.now.points.now
        paragraph.now))))) }
    ensures tiles { IfOk result (λ _. Tiles (pieces_at (settings_view options.now)
        steps.now.cuts.now steps.now.points.now paragraph.now) paragraph.now) }
    ensures steps { IfOk result (λ _. AreLineSteps (settings_view options.now) steps.now.cuts.now
        steps.now.points.now steps.now.ends.now paragraph.now) }
    ensures refused { IfErr result (λ status. ((status ≡ wrong_places)
        × ¬ AreLineSteps (settings_view options.now) steps.now.cuts.now steps.now.points.now
        steps.now.ends.now paragraph.now) ⊎ (status ≡ out_of_memory)) }
{
    let pieces = match find_step_pieces(alloc, paragraph, steps, options) {
        Ok(pieces) => pieces,
        Err(status) => return Err(status),
    };
    let ends = steps.ends;
    match push_lines_at(
        alloc, lines, start, paragraph, &pieces, ends, options, is_later,
    ) {
        Ok(placed) => Ok(placed),
        Err(_) => Err(OUT_OF_MEMORY),
    }
}

/// The lines of a paragraph at these steps, as a list.
///
/// # Errors
/// The status `WRONG_PLACES` or `OUT_OF_MEMORY`.
pub(crate) fn list_step_lines<'t>(
    alloc: Global,
    paragraph: &'t str,
    steps: &TextwrapSteps<'_>,
    options: &Options<'_>,
    is_later: bool,
) -> Result<Vec<CowStr<'t, Global>>, u32>
    ensures lines { IfOk result (λ lines. map line_view lines.items
        ≡ map line_from (parts_from (settings_view options.now) is_later (lines_between
        steps.now.ends.now (pieces_at (settings_view options.now) steps.now.cuts.now
        steps.now.points.now paragraph.now)))) }
    ensures steps { IfOk result (λ _. AreLineSteps (settings_view options.now) steps.now.cuts.now
        steps.now.points.now steps.now.ends.now paragraph.now) }
    ensures refused { IfErr result (λ status. ((status ≡ wrong_places)
        × ¬ AreLineSteps (settings_view options.now) steps.now.cuts.now steps.now.points.now
        steps.now.ends.now paragraph.now) ⊎ (status ≡ out_of_memory)) }
{
    let pieces = match find_step_pieces(alloc, paragraph, steps, options) {
        Ok(pieces) => pieces,
        Err(status) => return Err(status),
    };
    match list_lines_at(alloc, paragraph, &pieces, steps.ends, options, is_later) {
        Ok(lines) => Ok(lines),
        Err(_) => Err(OUT_OF_MEMORY),
    }
}

/// The pieces of a paragraph at these steps, if its lines may end as the steps say.
///
/// # Errors
/// The status `WRONG_PLACES` or `OUT_OF_MEMORY`.
fn find_step_pieces<'t>(
    alloc: Global,
    paragraph: &'t str,
    steps: &TextwrapSteps<'_>,
    options: &Options<'_>,
) -> Result<Vec<Word<'t>>, u32>
    ensures pieces { IfOk result (λ pieces. map word_view pieces.items ≡ pieces_at
        (settings_view options.now) steps.now.cuts.now steps.now.points.now paragraph.now) }
    ensures tiles { IfOk result (λ pieces. Tiles (map word_view pieces.items) paragraph.now) }
    ensures ends { IfOk result (λ pieces. AreEnds pieces.items steps.now.ends.now) }
    ensures steps { IfOk result (λ _. AreLineSteps (settings_view options.now) steps.now.cuts.now
        steps.now.points.now steps.now.ends.now paragraph.now) }
    ensures refused { IfErr result (λ status. ((status ≡ wrong_places)
        × ¬ AreLineSteps (settings_view options.now) steps.now.cuts.now steps.now.points.now
        steps.now.ends.now paragraph.now) ⊎ (status ≡ out_of_memory)) }
{
    let pieces = match find_pieces(alloc, paragraph, steps.cuts, steps.points, options) {
        Ok(pieces) => pieces,
        Err(status) => return Err(status),
    };
    if !are_ends(&pieces, steps.ends) {
        return Err(WRONG_PLACES);
    }
    Ok(pieces)
}
