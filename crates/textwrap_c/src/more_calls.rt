//! The exports of `textwrap_more_calls`.
ghost use Rattle.std.specs.Prelude.{All, IsUtf8, List, [], false, length, map, true, ◌<◌, ◌↔◌, ◌≡◌};
ghost use Rattle.std.specs.Prelude.{◌≢◌, ◌≤◌, ◌⊎◌};
ghost use Rattle.textwrap.specs.Paragraph.{Line, line_bytes};
ghost use Rattle.textwrap.specs.WrapAlgorithms.{IsDividedBy, OverflowsBy};
ghost use Rattle.textwrap_base.specs.Cost.{AreEqualFromSecond, Overflows, total_width};
ghost use Rattle.textwrap_base.specs.Division.{IsGreedy};
ghost use Rattle.textwrap_base.specs.Errors.{Fits64Bits, Passes128Bits};
ghost use Rattle.textwrap_base.specs.OptimalFit.{IsByOptimalFit};
ghost use Rattle.textwrap_base.specs.Table.{TableOverflows};
ghost use Rattle.textwrap_calls.specs.Columns.{AreKnownGaps, AreRows, AreTextGaps, row_gaps};
ghost use Rattle.textwrap_calls.specs.Dictionary.{IsDamaged, IsKnownDictionary, hyphenation_of};
ghost use Rattle.textwrap_calls.specs.Options.{AreKnown, AreTexts, TellsFaults, TellsNotUtf8};
ghost use Rattle.textwrap_calls.specs.Options.{TellsUnknown, have_dictionary, numbers_by};
ghost use Rattle.textwrap_calls.specs.Options.{options_algorithm, options_points, options_settings};
ghost use Rattle.textwrap_calls.specs.Options.{says_yes, separator_of, step_settings};
ghost use Rattle.textwrap_calls.specs.Room.{WritesText};
ghost use Rattle.textwrap_calls.specs.Status.{done, not_utf8, out_of_memory, overflow, too_small};
ghost use Rattle.textwrap_calls.specs.Status.{unknown_options, wrong_places};
ghost use Rattle.textwrap_calls.specs.Texts.{IsText, bytes_of};
ghost use Rattle.textwrap_calls.specs.Wrapping.{WritesLines, WritesLongLines};
ghost use Rattle.textwrap_display.specs.Fitting.{fitting_widths};
ghost use Rattle.textwrap_display.specs.Needs.{needs_of};
ghost use Rattle.textwrap_display.specs.Styles.{carried_lines};
ghost use Rattle.textwrap_display.specs.Tables.{rows_of_cells};
ghost use Rattle.textwrap_hyphens.specs.Outside.{hyphens_outside};
ghost use Rattle.textwrap_hyphens.specs.Points.{hyphenation_points};
ghost use Rattle.textwrap_hyphens.specs.Seal.{is_sealed};
ghost use Rattle.textwrap_layout.specs.Paragraph.{broken_pieces_of, widths_of};
ghost use Rattle.textwrap_lines.specs.Steps.{pieces_at};
ghost use Rattle.textwrap_more_calls.specs.Balancing.{AreBalancedBy, AreByFirstFit, IsBalancedBy};
ghost use Rattle.textwrap_more_calls.specs.Breaks.{break_places};
ghost use Rattle.textwrap_more_calls.specs.Dictionaries.{AreNumbersOf, IsWrongAt};
ghost use Rattle.textwrap_more_calls.specs.Fragments.{AreEndsOf, AreKnownPenalties, fragment_sizes};
ghost use Rattle.textwrap_more_calls.specs.Fragments.{fragments_problem};
ghost use Rattle.textwrap_more_calls.specs.JustifiedSteps.{justified_at};
ghost use Rattle.textwrap_more_calls.specs.Paragraphs.{paragraph_places, widths_view};
ghost use Rattle.textwrap_more_calls.specs.Pieces.{AreOffsets, piece_places};
ghost use Rattle.textwrap_more_calls.specs.Status.{damaged_table, wrong_patterns};
ghost use Rattle.textwrap_more_calls.specs.Steps.{AreLineSteps, ArePlacedCuts, AreSteps, step_cuts};
ghost use Rattle.textwrap_more_calls.specs.Tables.{AreTableTexts, HasTextLines, IsKnownColumn};
ghost use Rattle.textwrap_more_calls.specs.Tables.{lines_of_cells, parts_of_column};
ghost use Rattle.textwrap_more_calls.specs.Tables.{shape_of_column};
ghost use Rattle.textwrap_more_calls.specs.TextSteps.{AreStepsOf, filled_at, text_step_cuts};
ghost use Rattle.textwrap_plain.specs.Options.{split_by_points, words_by};
ghost use Rattle.textwrap_plain.specs.Tables.{IsPlainTable};
ghost use Rattle.textwrap_terminal.specs.TerminalUnits.{terminal_width, without_other_sequences};
ghost use Rattle.textwrap_text.specs.LineEnding.{ending_bytes, paragraphs_of};
ghost use Rattle.textwrap_text.specs.Units.{stripped};
ghost use Rattle.textwrap_unicode.specs.Cuts.{unicode_cuts};
ghost use Rattle.textwrap_words.specs.Breaking.{broken_pieces};
ghost use Rattle.textwrap_words.specs.WordOffsets.{words_at};
ghost use Rattle.textwrap_words.specs.WordSplitters.{hyphen_points};
ghost use Rattle.textwrap_words.specs.Words.{piece, sizes_of};

use std::alloc::Global;
use textwrap_calls::columns::TextwrapGaps;
use textwrap_calls::dictionary::TextwrapDictionary;
use textwrap_calls::options::TextwrapOptions;
use textwrap_calls::reported::TextwrapLine;
use textwrap_calls::texts::TextwrapText;
use textwrap_more_calls::breaks::TextwrapLineBreak;
use textwrap_more_calls::fragments::{TextwrapFragment, TextwrapPenalties};
use textwrap_more_calls::hyphens::{points, reading};
use textwrap_more_calls::paragraphs::{TextwrapParagraph, TextwrapWidths};
use textwrap_more_calls::pieces::TextwrapPiece;
use textwrap_more_calls::steps::TextwrapSteps;
use textwrap_more_calls::tables::{TextwrapCell, TextwrapColumn};
use textwrap_more_calls::{
    attributes, balancing, breaks, fitting, fragments, justified_steps, paragraphs, pieces, steps,
    tables, terminal, text_steps,
};

/// Exports [`textwrap_more_calls::attributes::textwrap_carry_attributes`].
#[unsafe(no_mangle)]
pub extern "C" fn textwrap_carry_attributes(
    alloc: Global,
    lines: &[TextwrapText<'_>],
    options: &TextwrapOptions<'_>,
    places: &mut [TextwrapLine],
    count: &mut usize,
    room: &mut [u8],
    len: &mut usize,
) -> u32
    ensures carried { let settings = options_settings options.now in
        WritesLines (λ answer _. AreRows (λ rows. rows ≡ map line_bytes (carried_lines
        settings.initial_indent settings.subsequent_indent [] (bytes_of lines.now))) answer)
        [] result places.old places.new count.old count.new room.old room.new len.old len.new }
    ensures faults { TellsFaults result (AreKnown options.now)
        (All IsText lines.now × AreTexts options.now) }
{
    attributes::textwrap_carry_attributes(alloc, lines, options, places, count, room, len)
}

/// Exports [`textwrap_more_calls::balancing::textwrap_wrap_balanced`].
#[unsafe(no_mangle)]
pub extern "C" fn textwrap_wrap_balanced(
    alloc: Global,
    text: &[u8],
    options: &TextwrapOptions<'_>,
    lines: &mut [TextwrapLine],
    count: &mut usize,
    room: &mut [u8],
    len: &mut usize,
) -> u32
    ensures balanced { WritesLongLines (AreBalancedBy options.now text.now)
        text.now result lines.old lines.new count.old count.new room.old room.new len.old len.new }
    ensures as_many { (result ≡ done) ⊎ (result ≡ too_small) → (others : List Line)
        → AreByFirstFit options.now text.now others → count.new ≡ length others }
    ensures faults { TellsFaults result (AreKnown options.now) (IsUtf8 text.now × AreTexts options.now) }
    ensures no_memory { options.now.unicode_breaks ≡ 0 → have_dictionary options.now ≡ false
        → options.now.split_at_hyphens ≢ 2 → result ≢ out_of_memory }
{
    balancing::textwrap_wrap_balanced(alloc, text, options, lines, count, room, len)
}

/// Exports [`textwrap_more_calls::balancing::textwrap_balanced_width`].
#[unsafe(no_mangle)]
pub extern "C" fn textwrap_balanced_width(
    alloc: Global,
    text: &[u8],
    options: &TextwrapOptions<'_>,
    width: &mut usize,
) -> u32
    ensures balanced { result ≡ done → IsBalancedBy options.now text.now width.new }
    ensures kept { result ≢ done → width.new ≡ width.old }
    ensures unknown { TellsUnknown result options.now }
    ensures not_utf8 { TellsNotUtf8 result options.now text.now }
    ensures no_memory { options.now.unicode_breaks ≡ 0 → have_dictionary options.now ≡ false
        → options.now.split_at_hyphens ≢ 2 → result ≢ out_of_memory }
    ensures statuses { (result ≡ done) ⊎ (result ≡ not_utf8) ⊎ (result ≡ out_of_memory)
        ⊎ (result ≡ unknown_options) }
{
    balancing::textwrap_balanced_width(alloc, text, options, width)
}

/// Exports [`textwrap_more_calls::breaks::textwrap_line_breaks`].
#[unsafe(no_mangle)]
pub extern "C" fn textwrap_line_breaks(
    alloc: Global,
    text: &[u8],
    unicode_breaks: u32,
    breaks: &mut [TextwrapLineBreak],
    count: &mut usize,
) -> u32
    ensures breaks { WritesText (λ answer. answer
        ≡ break_places (numbers_by unicode_breaks) text.now)
        result breaks.old breaks.new count.old count.new }
    ensures unknown { result ≡ unknown_options ↔ (unicode_breaks < 1) ⊎ (2 < unicode_breaks) }
    ensures not_utf8 { result ≡ not_utf8 ↔ (1 ≤ unicode_breaks) × (unicode_breaks ≤ 2)
        × ¬ IsUtf8 text.now }
    ensures statuses { result ≤ unknown_options }
{
    breaks::textwrap_line_breaks(alloc, text, unicode_breaks, breaks, count)
}

/// Exports [`textwrap_more_calls::breaks::textwrap_unicode_cuts`].
#[unsafe(no_mangle)]
pub extern "C" fn textwrap_unicode_cuts(
    alloc: Global,
    line: &[u8],
    cuts: &mut [usize],
    count: &mut usize,
) -> u32
    ensures cuts { WritesText (λ answer. answer ≡ unicode_cuts line.now)
        result cuts.old cuts.new count.old count.new }
    ensures not_utf8 { result ≡ not_utf8 ↔ ¬ IsUtf8 line.now }
    ensures statuses { result ≤ too_small }
{
    breaks::textwrap_unicode_cuts(alloc, line, cuts, count)
}

/// Exports [`textwrap_more_calls::fitting::textwrap_fitting_widths`].
#[unsafe(no_mangle)]
pub extern "C" fn textwrap_fitting_widths(
    alloc: Global,
    cells: &[TextwrapText<'_>],
    columns: usize,
    total: usize,
    widths: &mut [usize],
    count: &mut usize,
) -> u32
    ensures widths { WritesText (λ answer. answer ≡ fitting_widths total
        (needs_of columns (bytes_of cells.now))) result widths.old widths.new count.old count.new }
    ensures not_utf8 { result ≡ not_utf8 ↔ ¬ All IsText cells.now }
    ensures statuses { result ≤ too_small }
{
    fitting::textwrap_fitting_widths(alloc, cells, columns, total, widths, count)
}

/// Exports [`textwrap_more_calls::fragments::textwrap_wrap_first_fit`].
#[unsafe(no_mangle)]
pub extern "C" fn textwrap_wrap_first_fit(
    alloc: Global,
    fragments: &[TextwrapFragment],
    line_widths: &[usize],
    ends: &mut [usize],
    count: &mut usize,
) -> u32
    ensures greedy { WritesText (AreEndsOf (IsGreedy fragment_sizes line_widths.now fragments.now))
        result ends.old ends.new count.old count.new }
    ensures statuses { (result ≡ done) ⊎ (result ≡ out_of_memory) ⊎ (result ≡ too_small) }
{
    fragments::textwrap_wrap_first_fit(alloc, fragments, line_widths, ends, count)
}

/// Exports [`textwrap_more_calls::fragments::textwrap_wrap_optimal_fit`].
#[unsafe(no_mangle)]
pub extern "C" fn textwrap_wrap_optimal_fit(
    alloc: Global,
    fragments: &[TextwrapFragment],
    line_widths: &[usize],
    penalties: &TextwrapPenalties,
    ends: &mut [usize],
    count: &mut usize,
) -> u32
    ensures fit { WritesText (AreEndsOf (IsByOptimalFit
        (fragments_problem penalties.now line_widths.now fragments.now))) result ends.old ends.new
        count.old count.new }
    ensures overflow_only { result ≡ overflow → AreEqualFromSecond line_widths.now
        → Overflows (fragments_problem penalties.now line_widths.now fragments.now) }
    ensures written_only { (result ≡ done) ⊎ (result ≡ too_small)
        → AreEqualFromSecond line_widths.now
        → ¬ Overflows (fragments_problem penalties.now line_widths.now fragments.now) }
    ensures table_overflow_only { result ≡ overflow
        → TableOverflows (fragments_problem penalties.now line_widths.now fragments.now) }
    ensures table_written_only { (result ≡ done) ⊎ (result ≡ too_small)
        → ¬ TableOverflows (fragments_problem penalties.now line_widths.now fragments.now) }
    ensures too_wide { AreKnownPenalties penalties.now
        → Passes128Bits (total_width fragment_sizes fragments.now) → result ≡ overflow }
    ensures no_overflow { Fits64Bits (total_width fragment_sizes fragments.now) → result ≢ overflow }
    ensures unknown { result ≡ unknown_options ↔ ¬ AreKnownPenalties penalties.now }
    ensures statuses { (result ≡ done) ⊎ (result ≡ out_of_memory) ⊎ (result ≡ too_small)
        ⊎ (result ≡ unknown_options) ⊎ (result ≡ overflow) }
{
    fragments::textwrap_wrap_optimal_fit(alloc, fragments, line_widths, penalties, ends, count)
}

/// Exports [`textwrap_more_calls::hyphens::points::textwrap_hyphen_points`].
#[unsafe(no_mangle)]
pub extern "C" fn textwrap_hyphen_points(
    alloc: Global,
    dictionary: &TextwrapDictionary<'_>,
    word: &[u8],
    points: &mut [usize],
    count: &mut usize,
) -> u32
    ensures points { WritesText (λ answer. answer ≡ hyphenation_points
        (hyphenation_of dictionary.now) word.now)
        result points.old points.new count.old count.new }
    ensures unknown { result ≡ unknown_options ↔ ¬ IsKnownDictionary dictionary.now }
    ensures not_utf8 { result ≡ not_utf8 ↔ IsKnownDictionary dictionary.now × ¬ IsUtf8 word.now }
    ensures damaged { result ≡ damaged_table
        ↔ IsKnownDictionary dictionary.now × IsUtf8 word.now × IsDamaged dictionary.now }
    ensures statuses { (result ≤ unknown_options) ⊎ (result ≡ damaged_table) }
{
    points::textwrap_hyphen_points(alloc, dictionary, word, points, count)
}

/// Exports [`textwrap_more_calls::hyphens::reading::textwrap_patterns_read`].
#[unsafe(no_mangle)]
pub extern "C" fn textwrap_patterns_read(
    alloc: Global,
    text: &[u8],
    room: &mut [usize],
    len: &mut usize,
    line: &mut usize,
) -> u32
    ensures read { WritesText (AreNumbersOf text.now) result room.old room.new len.old len.new }
    ensures wrong { result ≡ wrong_patterns → IsWrongAt text.now line.new }
    ensures kept { result ≢ wrong_patterns → line.new ≡ line.old }
    ensures not_utf8 { result ≡ not_utf8 ↔ ¬ IsUtf8 text.now }
    ensures statuses { (result ≤ too_small) ⊎ (result ≡ wrong_patterns) }
{
    reading::textwrap_patterns_read(alloc, text, room, len, line)
}

/// Exports [`textwrap_more_calls::hyphens::reading::textwrap_patterns_check`].
#[unsafe(no_mangle)]
pub extern "C" fn textwrap_patterns_check(numbers: &[usize]) -> u32
    ensures done { result ≡ done ↔ is_sealed numbers.now ≡ true }
    ensures damaged { result ≡ damaged_table ↔ is_sealed numbers.now ≡ false }
    ensures statuses { (result ≡ done) ⊎ (result ≡ damaged_table) }
{
    reading::textwrap_patterns_check(numbers)
}

/// Exports [`textwrap_more_calls::justified_steps::textwrap_fill_justified_at`].
#[unsafe(no_mangle)]
pub extern "C" fn textwrap_fill_justified_at(
    alloc: Global,
    text: &[u8],
    steps: &[TextwrapSteps<'_>],
    options: &TextwrapOptions<'_>,
    room: &mut [u8],
    len: &mut usize,
) -> u32
    ensures filled { WritesText (λ answer. answer ≡ justified_at (step_settings options.now) steps.now
        text.now) result room.old room.new len.old len.new }
    ensures unknown { TellsUnknown result options.now }
    ensures not_utf8 { TellsNotUtf8 result options.now text.now }
    // As in `textwrap_wrap_at`.
    ensures wrong_places { result ≡ wrong_places → AreKnown options.now
        × (IsUtf8 text.now × AreTexts options.now)
        × ¬ AreStepsOf options.now text.now steps.now }
    ensures right_places { result ≢ wrong_places → result ≢ out_of_memory → AreKnown options.now
        → IsUtf8 text.now × AreTexts options.now
        → AreStepsOf options.now text.now steps.now }
    ensures statuses { (result ≤ unknown_options) ⊎ (result ≡ wrong_places) }
{
    justified_steps::textwrap_fill_justified_at(alloc, text, steps, options, room, len)
}

/// Exports [`textwrap_more_calls::paragraphs::textwrap_paragraphs`].
#[unsafe(no_mangle)]
pub extern "C" fn textwrap_paragraphs(
    alloc: Global,
    text: &[u8],
    options: &TextwrapOptions<'_>,
    paragraphs: &mut [TextwrapParagraph],
    count: &mut usize,
) -> u32
    ensures paragraphs { WritesText (λ answer. answer
        ≡ paragraph_places (length (ending_bytes (options_settings options.now).line_ending)) 0
        (paragraphs_of (options_settings options.now).line_ending text.now))
        result paragraphs.old paragraphs.new count.old count.new }
    ensures faults { TellsFaults result (AreKnown options.now)
        (IsUtf8 text.now × AreTexts options.now) }
{
    paragraphs::textwrap_paragraphs(alloc, text, options, paragraphs, count)
}

/// Exports [`textwrap_more_calls::paragraphs::textwrap_paragraph_widths`].
#[unsafe(no_mangle)]
pub extern "C" fn textwrap_paragraph_widths(
    paragraph: &[u8],
    options: &TextwrapOptions<'_>,
    is_later: usize,
    widths: &mut TextwrapWidths,
) -> u32
    ensures written { result ≡ done
        → widths.new ≡ widths_view (options_settings options.now) (says_yes is_later) paragraph.now }
    ensures unknown { result ≡ unknown_options ↔ (1 < is_later) ⊎ (¬ AreKnown options.now) }
    ensures not_utf8 { result ≡ not_utf8 ↔ (is_later ≤ 1) × AreKnown options.now
        × ¬ (IsUtf8 paragraph.now × AreTexts options.now) }
    ensures kept { result ≢ done → widths.new ≡ widths.old }
    ensures statuses { (result ≡ done) ⊎ (result ≡ not_utf8) ⊎ (result ≡ unknown_options) }
{
    paragraphs::textwrap_paragraph_widths(paragraph, options, is_later, widths)
}

/// Exports [`textwrap_more_calls::pieces::textwrap_pieces`].
#[unsafe(no_mangle)]
pub extern "C" fn textwrap_pieces(
    alloc: Global,
    paragraph: &[u8],
    options: &TextwrapOptions<'_>,
    pieces: &mut [TextwrapPiece],
    count: &mut usize,
) -> u32
    ensures pieces { WritesText (λ answer. answer ≡ piece_places 0 (broken_pieces_of
        (options_settings options.now) (split_by_points (options_points options.now)
        (words_by (separator_of options.now) paragraph.now)))) result pieces.old pieces.new count.old count.new }
    ensures faults { TellsFaults result (AreKnown options.now)
        (IsUtf8 paragraph.now × AreTexts options.now) }
{
    pieces::textwrap_pieces(alloc, paragraph, options, pieces, count)
}

/// Exports [`textwrap_more_calls::pieces::textwrap_find_words_at`].
#[unsafe(no_mangle)]
pub extern "C" fn textwrap_find_words_at(
    alloc: Global,
    line: &[u8],
    offsets: &[usize],
    words: &mut [TextwrapPiece],
    count: &mut usize,
) -> u32
    ensures words { WritesText (λ answer. answer ≡ piece_places 0 (words_at offsets.now line.now))
        result words.old words.new count.old count.new }
    ensures not_utf8 { result ≡ not_utf8 ↔ ¬ IsUtf8 line.now }
    ensures wrong_places { result ≡ wrong_places ↔ IsUtf8 line.now
        × ¬ AreOffsets (stripped line.now) offsets.now }
    ensures right_places { (result ≡ done) ⊎ (result ≡ too_small)
        → AreOffsets (stripped line.now) offsets.now }
    ensures statuses { (result ≤ too_small) ⊎ (result ≡ wrong_places) }
{
    pieces::textwrap_find_words_at(alloc, line, offsets, words, count)
}

/// Exports [`textwrap_more_calls::pieces::textwrap_split_points`].
#[unsafe(no_mangle)]
pub extern "C" fn textwrap_split_points(
    alloc: Global,
    word: &[u8],
    points: &mut [usize],
    count: &mut usize,
) -> u32
    ensures points { WritesText (λ answer. answer ≡ hyphen_points word.now)
        result points.old points.new count.old count.new }
    ensures not_utf8 { result ≡ not_utf8 ↔ ¬ IsUtf8 word.now }
    ensures statuses { result ≤ too_small }
{
    pieces::textwrap_split_points(alloc, word, points, count)
}

/// Exports [`textwrap_more_calls::pieces::textwrap_split_points_outside`].
#[unsafe(no_mangle)]
pub extern "C" fn textwrap_split_points_outside(
    alloc: Global,
    word: &[u8],
    points: &mut [usize],
    count: &mut usize,
) -> u32
    ensures points { WritesText (λ answer. answer ≡ hyphens_outside word.now)
        result points.old points.new count.old count.new }
    ensures not_utf8 { result ≡ not_utf8 ↔ ¬ IsUtf8 word.now }
    ensures statuses { result ≤ too_small }
{
    pieces::textwrap_split_points_outside(alloc, word, points, count)
}

/// Exports [`textwrap_more_calls::pieces::textwrap_break_apart`].
#[unsafe(no_mangle)]
pub extern "C" fn textwrap_break_apart(
    alloc: Global,
    word: &[u8],
    line_width: usize,
    pieces: &mut [TextwrapPiece],
    count: &mut usize,
) -> u32
    ensures pieces { WritesText (λ answer.
        answer ≡ piece_places 0 (broken_pieces line_width (piece word.now [] [])))
        result pieces.old pieces.new count.old count.new }
    ensures not_utf8 { result ≡ not_utf8 ↔ ¬ IsUtf8 word.now }
    ensures statuses { result ≤ too_small }
{
    pieces::textwrap_break_apart(alloc, word, line_width, pieces, count)
}

/// Exports [`textwrap_more_calls::steps::textwrap_pieces_at`].
#[unsafe(no_mangle)]
pub extern "C" fn textwrap_pieces_at(
    alloc: Global,
    paragraph: &[u8],
    cuts: &[usize],
    points: &[usize],
    options: &TextwrapOptions<'_>,
    pieces: &mut [TextwrapPiece],
    count: &mut usize,
) -> u32
    ensures pieces { WritesText (λ answer. answer ≡ piece_places 0
        (pieces_at (step_settings options.now) cuts.now points.now paragraph.now))
        result pieces.old pieces.new count.old count.new }
    ensures unknown { TellsUnknown result options.now }
    ensures not_utf8 { TellsNotUtf8 result options.now paragraph.now }
    ensures wrong_places { result ≡ wrong_places ↔ AreKnown options.now
        × (IsUtf8 paragraph.now × AreTexts options.now)
        × ¬ AreSteps cuts.now points.now paragraph.now }
    ensures statuses { (result ≤ unknown_options) ⊎ (result ≡ wrong_places) }
{
    steps::textwrap_pieces_at(alloc, paragraph, cuts, points, options, pieces, count)
}

/// Exports [`textwrap_more_calls::steps::textwrap_ends_at`].
#[unsafe(no_mangle)]
pub extern "C" fn textwrap_ends_at(
    alloc: Global,
    paragraph: &[u8],
    cuts: &[usize],
    points: &[usize],
    options: &TextwrapOptions<'_>,
    is_later: usize,
    ends: &mut [usize],
    count: &mut usize,
) -> u32
    ensures ends { WritesText (AreEndsOf (IsDividedBy (options_algorithm options.now) sizes_of
        (widths_of (step_settings options.now) (says_yes is_later))
        (pieces_at (step_settings options.now) cuts.now points.now paragraph.now)))
        result ends.old ends.new count.old count.new }
    ensures overflow { result ≡ overflow → OverflowsBy (options_algorithm options.now) sizes_of
        (widths_of (step_settings options.now) (says_yes is_later))
        (pieces_at (step_settings options.now) cuts.now points.now paragraph.now) }
    ensures written_only { (result ≡ done) ⊎ (result ≡ too_small)
        → ¬ OverflowsBy (options_algorithm options.now) sizes_of
        (widths_of (step_settings options.now) (says_yes is_later))
        (pieces_at (step_settings options.now) cuts.now points.now paragraph.now) }
    // Overflow needs pieces that are together wider than 64 bits can say.
    ensures no_overflow { Fits64Bits (total_width sizes_of
        (pieces_at (step_settings options.now) cuts.now points.now paragraph.now))
        → result ≢ overflow }
    ensures unknown { result ≡ unknown_options ↔ (1 < is_later) ⊎ (¬ AreKnown options.now) }
    ensures not_utf8 { result ≡ not_utf8 ↔ (is_later ≤ 1) × AreKnown options.now
        × ¬ (IsUtf8 paragraph.now × AreTexts options.now) }
    ensures wrong_places { result ≡ wrong_places ↔ (is_later ≤ 1) × AreKnown options.now
        × (IsUtf8 paragraph.now × AreTexts options.now)
        × ¬ AreSteps cuts.now points.now paragraph.now }
    ensures statuses { result ≤ wrong_places }
{
    steps::textwrap_ends_at(
        alloc, paragraph, cuts, points, options, is_later, ends, count,
    )
}

/// Exports [`textwrap_more_calls::steps::textwrap_lines_at`].
#[unsafe(no_mangle)]
pub extern "C" fn textwrap_lines_at(
    alloc: Global,
    paragraph: &[u8],
    cuts: &[usize],
    points: &[usize],
    ends: &[usize],
    options: &TextwrapOptions<'_>,
    is_later: usize,
    lines: &mut [TextwrapLine],
    count: &mut usize,
    room: &mut [u8],
    len: &mut usize,
) -> u32
    ensures lines { WritesLines (ArePlacedCuts (step_cuts (step_settings options.now) cuts.now
        points.now ends.now is_later paragraph.now))
        paragraph.now result lines.old lines.new count.old count.new room.old room.new len.old
        len.new }
    ensures unknown { result ≡ unknown_options ↔ (1 < is_later) ⊎ (¬ AreKnown options.now) }
    ensures not_utf8 { result ≡ not_utf8 ↔ (is_later ≤ 1) × AreKnown options.now
        × ¬ (IsUtf8 paragraph.now × AreTexts options.now) }
    // That the ends are more than the pieces is found out only if there is memory for these.
    ensures wrong_places { result ≡ wrong_places → (is_later ≤ 1) × AreKnown options.now
        × (IsUtf8 paragraph.now × AreTexts options.now)
        × ¬ AreLineSteps (step_settings options.now) cuts.now points.now ends.now paragraph.now }
    ensures right_places { result ≢ wrong_places → result ≢ out_of_memory → (is_later ≤ 1)
        → AreKnown options.now → IsUtf8 paragraph.now × AreTexts options.now
        → AreLineSteps (step_settings options.now) cuts.now points.now ends.now paragraph.now }
    ensures statuses { (result ≤ unknown_options) ⊎ (result ≡ wrong_places) }
{
    steps::textwrap_lines_at(
        alloc, paragraph, cuts, points, ends, options, is_later, lines, count, room, len,
    )
}

/// Exports [`textwrap_more_calls::tables::textwrap_table`].
#[unsafe(no_mangle)]
pub extern "C" fn textwrap_table(
    alloc: Global,
    cells: &[TextwrapText<'_>],
    columns: &[TextwrapColumn<'_>],
    gaps: &TextwrapGaps<'_>,
    rows: &mut [TextwrapLine],
    count: &mut usize,
    room: &mut [u8],
    len: &mut usize,
) -> u32
    ensures table { WritesLines (λ lines _. AreRows (IsPlainTable (map parts_of_column columns.now)
        (row_gaps gaps.now) (bytes_of cells.now)) lines)
        [] result rows.old rows.new count.old count.new room.old room.new len.old len.new }
    ensures unknown { result ≡ unknown_options
        ↔ ¬ (All IsKnownColumn columns.now × AreKnownGaps gaps.now) }
    ensures not_utf8 { result ≡ not_utf8 ↔ All IsKnownColumn columns.now × AreKnownGaps gaps.now
        × ¬ AreTableTexts cells.now columns.now gaps.now }
    ensures statuses { result ≤ unknown_options }
{
    tables::textwrap_table(alloc, cells, columns, gaps, rows, count, room, len)
}

/// Exports [`textwrap_more_calls::tables::textwrap_table_of_lines`].
#[unsafe(no_mangle)]
pub extern "C" fn textwrap_table_of_lines(
    alloc: Global,
    cells: &[TextwrapCell<'_>],
    columns: &[TextwrapColumn<'_>],
    gaps: &TextwrapGaps<'_>,
    rows: &mut [TextwrapLine],
    count: &mut usize,
    room: &mut [u8],
    len: &mut usize,
) -> u32
    ensures table { WritesLines (λ lines _. AreRows (λ rows. rows ≡ rows_of_cells
        (row_gaps gaps.now) (map shape_of_column columns.now) (lines_of_cells cells.now)) lines)
        [] result rows.old rows.new count.old count.new room.old room.new len.old len.new }
    ensures unknown { result ≡ unknown_options
        ↔ ¬ (All IsKnownColumn columns.now × AreKnownGaps gaps.now) }
    ensures not_utf8 { result ≡ not_utf8 ↔ All IsKnownColumn columns.now × AreKnownGaps gaps.now
        × ¬ (All HasTextLines cells.now × AreTextGaps gaps.now) }
    ensures statuses { result ≤ unknown_options }
{
    tables::textwrap_table_of_lines(alloc, cells, columns, gaps, rows, count, room, len)
}

/// Exports [`textwrap_more_calls::terminal::textwrap_terminal_width`].
#[unsafe(no_mangle)]
pub extern "C" fn textwrap_terminal_width(text: &[u8], columns: &mut usize) -> u32
    ensures written { result ≡ done → columns.new ≡ terminal_width text.now }
    ensures done { result ≡ done ↔ IsUtf8 text.now }
    ensures not_utf8 { result ≢ done → result ≡ not_utf8 }
    ensures kept { result ≢ done → columns.new ≡ columns.old }
{
    terminal::textwrap_terminal_width(text, columns)
}

/// Exports [`textwrap_more_calls::terminal::textwrap_strip_other_sequences`].
#[unsafe(no_mangle)]
pub extern "C" fn textwrap_strip_other_sequences(
    alloc: Global,
    text: &[u8],
    room: &mut [u8],
    len: &mut usize,
) -> u32
    ensures stripped { WritesText (λ answer. answer ≡ without_other_sequences text.now)
        result room.old room.new len.old len.new }
    ensures not_utf8 { result ≡ not_utf8 ↔ ¬ IsUtf8 text.now }
    ensures statuses { result ≤ too_small }
{
    terminal::textwrap_strip_other_sequences(alloc, text, room, len)
}

/// Exports [`textwrap_more_calls::text_steps::textwrap_wrap_at`].
#[unsafe(no_mangle)]
pub extern "C" fn textwrap_wrap_at(
    alloc: Global,
    text: &[u8],
    steps: &[TextwrapSteps<'_>],
    options: &TextwrapOptions<'_>,
    lines: &mut [TextwrapLine],
    count: &mut usize,
    room: &mut [u8],
    len: &mut usize,
) -> u32
    ensures lines { WritesLines (ArePlacedCuts (text_step_cuts (step_settings options.now) steps.now
        text.now)) text.now result lines.old lines.new count.old count.new room.old room.new len.old
        len.new }
    ensures unknown { TellsUnknown result options.now }
    ensures not_utf8 { TellsNotUtf8 result options.now text.now }
    // That ends are more than the pieces is found out only if there is memory for these.
    ensures wrong_places { result ≡ wrong_places → AreKnown options.now
        × (IsUtf8 text.now × AreTexts options.now)
        × ¬ AreStepsOf options.now text.now steps.now }
    ensures right_places { result ≢ wrong_places → result ≢ out_of_memory → AreKnown options.now
        → IsUtf8 text.now × AreTexts options.now
        → AreStepsOf options.now text.now steps.now }
    ensures statuses { (result ≤ unknown_options) ⊎ (result ≡ wrong_places) }
{
    text_steps::textwrap_wrap_at(alloc, text, steps, options, lines, count, room, len)
}

/// Exports [`textwrap_more_calls::text_steps::textwrap_fill_at`].
#[unsafe(no_mangle)]
pub extern "C" fn textwrap_fill_at(
    alloc: Global,
    text: &[u8],
    steps: &[TextwrapSteps<'_>],
    options: &TextwrapOptions<'_>,
    room: &mut [u8],
    len: &mut usize,
) -> u32
    ensures filled { WritesText (λ answer. answer ≡ filled_at (step_settings options.now) steps.now
        text.now) result room.old room.new len.old len.new }
    ensures unknown { TellsUnknown result options.now }
    ensures not_utf8 { TellsNotUtf8 result options.now text.now }
    // As in `textwrap_wrap_at`.
    ensures wrong_places { result ≡ wrong_places → AreKnown options.now
        × (IsUtf8 text.now × AreTexts options.now)
        × ¬ AreStepsOf options.now text.now steps.now }
    ensures right_places { result ≢ wrong_places → result ≢ out_of_memory → AreKnown options.now
        → IsUtf8 text.now × AreTexts options.now
        → AreStepsOf options.now text.now steps.now }
    ensures statuses { (result ≤ unknown_options) ⊎ (result ≡ wrong_places) }
{
    text_steps::textwrap_fill_at(alloc, text, steps, options, room, len)
}
