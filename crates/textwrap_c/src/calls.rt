//! The exports of `textwrap_calls`, but for the one that fills texts with marks.
ghost use Rattle.std.specs.Prelude.{All, IsUtf8, [], false, length, map, ◌+◌, ◌<◌, ◌↔◌, ◌≡◌, ◌≢◌};
ghost use Rattle.std.specs.Prelude.{◌≤◌, ◌⊎◌};
ghost use Rattle.textwrap.specs.Columns.{IsInColumns, row_layout, table_rows};
ghost use Rattle.textwrap.specs.Filling.{IsFilled};
ghost use Rattle.textwrap.specs.InPlace.{IsFilledInPlace};
ghost use Rattle.textwrap.specs.Indentation.{dedented, indented};
ghost use Rattle.textwrap.specs.Paragraph.{line_bytes};
ghost use Rattle.textwrap.specs.Refilling.{unfilled_parts, unfilled_settings};
ghost use Rattle.textwrap.specs.Units.{stripped, text_width};
ghost use Rattle.textwrap_calls.specs.Bounds.{ForLinesOf, ForRowsOf, ForTextsOf, HoldsEach};
ghost use Rattle.textwrap_calls.specs.Bounds.{Suffices, as_len, columns_room_bound, fill_bound};
ghost use Rattle.textwrap_calls.specs.Bounds.{rows_bound, wrap_room_bound};
ghost use Rattle.textwrap_calls.specs.Columns.{AreKnownGaps, AreRows, AreTextGaps};
ghost use Rattle.textwrap_calls.specs.Display.{AreShort, IsShort, alignment_of};
ghost use Rattle.textwrap_calls.specs.Options.{AreKnown, ArePlacedBy, AreTexts, Divides};
ghost use Rattle.textwrap_calls.specs.Options.{IsFilledByOptions, IsRefilledBy, NeedsNoMemory};
ghost use Rattle.textwrap_calls.specs.Options.{TellsFaults, options_settings, says_yes};
ghost use Rattle.textwrap_calls.specs.Refilling.{IsLayout};
ghost use Rattle.textwrap_calls.specs.Room.{WritesLong, WritesText};
ghost use Rattle.textwrap_calls.specs.Status.{done, not_utf8, out_of_memory, too_small};
ghost use Rattle.textwrap_calls.specs.Status.{unknown_options};
ghost use Rattle.textwrap_calls.specs.Texts.{IsText, bytes_of};
ghost use Rattle.textwrap_calls.specs.Wrapping.{WritesLines, WritesLongLines};
ghost use Rattle.textwrap_calls.specs.declared.columns.TextwrapGaps.{TextwrapGaps};
ghost use Rattle.textwrap_calls.specs.declared.options.TextwrapOptions.{TextwrapOptions};
ghost use Rattle.textwrap_display.specs.Alignment.{aligned};
ghost use Rattle.textwrap_display.specs.JustifiedText.{IsJustifiedText};
ghost use Rattle.textwrap_display.specs.Justifying.{justified};
ghost use Rattle.textwrap_display.specs.Styles.{carried_lines};
ghost use Rattle.textwrap_display.specs.Tabs.{expanded};
ghost use Rattle.textwrap_layout.specs.Places.{built_text};

use std::alloc::Global;
use textwrap_calls::columns::TextwrapGaps;
use textwrap_calls::options::TextwrapOptions;
use textwrap_calls::refilling::TextwrapLayout;
use textwrap_calls::reported::TextwrapLine;
use textwrap_calls::texts::TextwrapText;
use textwrap_calls::{
    bounds, columns, display, filling, indentation, line_lists, refilling, widths, wrapping,
};

/// Exports [`textwrap_calls::bounds::textwrap_fill_bound`].
#[unsafe(no_mangle)]
pub extern "C" fn textwrap_fill_bound(text_len: usize, options: &TextwrapOptions<'_>) -> usize
    ensures value { result ≡ as_len (fill_bound options.now text_len) }
    ensures enough { ForTextsOf text_len (λ text. HoldsEach (IsFilled (options_settings options.now)
        (Divides options.now (options_settings options.now))
        text) result) }
{
    bounds::textwrap_fill_bound(text_len, options)
}

/// Exports [`textwrap_calls::bounds::textwrap_wrap_lines_bound`].
#[unsafe(no_mangle)]
pub extern "C" fn textwrap_wrap_lines_bound(text_len: usize) -> usize
    ensures value { result ≡ as_len (text_len + 1) }
    ensures enough { (options : TextwrapOptions) → ForTextsOf text_len (λ text.
        ForLinesOf options text (λ lines. Suffices result (length lines))) }
{
    bounds::textwrap_wrap_lines_bound(text_len)
}

/// Exports [`textwrap_calls::bounds::textwrap_wrap_room_bound`].
#[unsafe(no_mangle)]
pub extern "C" fn textwrap_wrap_room_bound(text_len: usize, options: &TextwrapOptions<'_>) -> usize
    ensures value { result ≡ as_len (wrap_room_bound options.now text_len) }
    ensures enough { ForTextsOf text_len (λ text. ForLinesOf options.now text
        (λ lines. Suffices result (length (built_text lines)))) }
{
    bounds::textwrap_wrap_room_bound(text_len, options)
}

/// Exports [`textwrap_calls::bounds::textwrap_wrap_columns_rows_bound`].
#[unsafe(no_mangle)]
pub extern "C" fn textwrap_wrap_columns_rows_bound(text_len: usize, columns: usize) -> usize
    ensures value { result ≡ as_len (rows_bound text_len columns) }
    ensures enough { 1 ≤ columns → (options : TextwrapOptions) (gaps : TextwrapGaps)
        → ForTextsOf text_len (λ text. ForRowsOf options gaps columns text
        (λ rows. Suffices result (length rows))) }
{
    bounds::textwrap_wrap_columns_rows_bound(text_len, columns)
}

/// Exports [`textwrap_calls::bounds::textwrap_wrap_columns_room_bound`].
#[unsafe(no_mangle)]
pub extern "C" fn textwrap_wrap_columns_room_bound(
    text_len: usize,
    columns: usize,
    options: &TextwrapOptions<'_>,
    gaps: &TextwrapGaps<'_>,
) -> usize
    ensures value { result ≡ as_len (columns_room_bound options.now gaps.now text_len columns) }
    ensures enough { 1 ≤ columns → ForTextsOf text_len (λ text. ForRowsOf options.now gaps.now
        columns text (λ rows. Suffices result (length (built_text rows)))) }
{
    bounds::textwrap_wrap_columns_room_bound(text_len, columns, options, gaps)
}

/// Exports [`textwrap_calls::columns::textwrap_wrap_columns`].
#[unsafe(no_mangle)]
pub extern "C" fn textwrap_wrap_columns(
    alloc: Global,
    text: &[u8],
    columns: usize,
    options: &TextwrapOptions<'_>,
    gaps: &TextwrapGaps<'_>,
    rows: &mut [TextwrapLine],
    count: &mut usize,
    room: &mut [u8],
    len: &mut usize,
) -> u32
    ensures columns { WritesLines (λ lines _. AreRows (IsInColumns (options_settings options.now)
        (Divides options.now) columns text.now
        gaps.now.left.now gaps.now.middle.now gaps.now.right.now) lines)
        text.now result rows.old rows.new count.old count.new room.old room.new len.old len.new }
    ensures unknown { result ≡ unknown_options ↔ (columns < 1) ⊎ (¬ AreKnown options.now)
        ⊎ (¬ AreKnownGaps gaps.now) }
    ensures not_utf8 { result ≡ not_utf8 ↔ (1 ≤ columns) × AreKnown options.now
        × AreKnownGaps gaps.now
        × ¬ (IsUtf8 text.now × AreTexts options.now × AreTextGaps gaps.now) }
    ensures statuses { result ≤ unknown_options }
{
    columns::textwrap_wrap_columns(alloc, text, columns, options, gaps, rows, count, room, len)
}

/// Exports [`textwrap_calls::columns::textwrap_column_width`].
#[unsafe(no_mangle)]
pub extern "C" fn textwrap_column_width(
    width: usize,
    columns: usize,
    gaps: &TextwrapGaps<'_>,
    column_width: &mut usize,
) -> u32
    ensures written { result ≡ done → column_width.new ≡ (row_layout width columns
        gaps.now.left.now gaps.now.middle.now gaps.now.right.now).column_width }
    ensures done { result ≡ done ↔ (1 ≤ columns) × AreKnownGaps gaps.now × AreTextGaps gaps.now }
    ensures unknown { result ≡ unknown_options ↔ (columns < 1) ⊎ (¬ AreKnownGaps gaps.now) }
    ensures not_utf8 { result ≡ not_utf8 ↔ (1 ≤ columns) × AreKnownGaps gaps.now
        × ¬ AreTextGaps gaps.now }
    ensures kept { result ≢ done → column_width.new ≡ column_width.old }
{
    columns::textwrap_column_width(width, columns, gaps, column_width)
}

/// Exports [`textwrap_calls::columns::textwrap_rows_of_lines`].
#[unsafe(no_mangle)]
pub extern "C" fn textwrap_rows_of_lines(
    alloc: Global,
    lines: &[TextwrapText<'_>],
    columns: usize,
    width: usize,
    gaps: &TextwrapGaps<'_>,
    rows: &mut [TextwrapLine],
    count: &mut usize,
    room: &mut [u8],
    len: &mut usize,
) -> u32
    ensures rows { WritesLines (λ answer _. AreRows (λ rows. rows ≡ table_rows (row_layout width
        columns gaps.now.left.now gaps.now.middle.now gaps.now.right.now) (bytes_of lines.now)) answer)
        [] result rows.old rows.new count.old count.new room.old room.new len.old len.new }
    ensures unknown { result ≡ unknown_options ↔ (columns < 1) ⊎ (¬ AreKnownGaps gaps.now) }
    ensures not_utf8 { result ≡ not_utf8 ↔ (1 ≤ columns) × AreKnownGaps gaps.now
        × ¬ (All IsText lines.now × AreTextGaps gaps.now) }
    ensures statuses { result ≤ unknown_options }
{
    columns::textwrap_rows_of_lines(alloc, lines, columns, width, gaps, rows, count, room, len)
}

/// Exports [`textwrap_calls::display::textwrap_align`].
#[unsafe(no_mangle)]
pub extern "C" fn textwrap_align(
    alloc: Global,
    line: &[u8],
    width: usize,
    alignment: u32,
    room: &mut [u8],
    len: &mut usize,
) -> u32
    ensures aligned { WritesText (λ answer. answer
        ≡ line_bytes (aligned (alignment_of alignment) width line.now))
        result room.old room.new len.old len.new }
    ensures unknown { result ≡ unknown_options ↔ 2 < alignment }
    ensures not_utf8 { result ≡ not_utf8 ↔ (alignment ≤ 2) × ¬ IsUtf8 line.now }
    ensures statuses { result ≤ unknown_options }
{
    display::textwrap_align(alloc, line, width, alignment, room, len)
}

/// Exports [`textwrap_calls::display::textwrap_justify`].
#[unsafe(no_mangle)]
pub extern "C" fn textwrap_justify(
    alloc: Global,
    line: &[u8],
    width: usize,
    room: &mut [u8],
    len: &mut usize,
) -> u32
    ensures justified { WritesText (λ answer. answer ≡ line_bytes (justified width line.now))
        result room.old room.new len.old len.new }
    ensures not_utf8 { result ≡ not_utf8 ↔ ¬ IsUtf8 line.now }
    ensures statuses { result ≤ too_small }
{
    display::textwrap_justify(alloc, line, width, room, len)
}

/// Exports [`textwrap_calls::display::textwrap_fill_justified`].
#[unsafe(no_mangle)]
pub extern "C" fn textwrap_fill_justified(
    alloc: Global,
    text: &[u8],
    options: &TextwrapOptions<'_>,
    room: &mut [u8],
    len: &mut usize,
) -> u32
    ensures filled { WritesText (IsJustifiedText (options_settings options.now)
        (Divides options.now (options_settings options.now)) text.now)
        result room.old room.new len.old len.new }
    ensures faults { TellsFaults result (AreKnown options.now)
        (IsUtf8 text.now × AreTexts options.now) }
{
    display::textwrap_fill_justified(alloc, text, options, room, len)
}

/// Exports [`textwrap_calls::display::textwrap_shorten`].
#[unsafe(no_mangle)]
pub extern "C" fn textwrap_shorten(
    alloc: Global,
    line: &[u8],
    width: usize,
    placeholder: &[u8],
    room: &mut [u8],
    len: &mut usize,
) -> u32
    ensures short { WritesText (IsShort false width placeholder.now line.now)
        result room.old room.new len.old len.new }
    ensures not_utf8 { result ≡ not_utf8 ↔ ¬ (IsUtf8 line.now × IsUtf8 placeholder.now) }
    ensures statuses { result ≤ too_small }
{
    display::textwrap_shorten(alloc, line, width, placeholder, room, len)
}

/// Exports [`textwrap_calls::display::textwrap_shorten_by`].
#[unsafe(no_mangle)]
pub extern "C" fn textwrap_shorten_by(
    alloc: Global,
    line: &[u8],
    width: usize,
    placeholder: &[u8],
    break_words: u32,
    room: &mut [u8],
    len: &mut usize,
) -> u32
    ensures short { WritesText (IsShort (says_yes break_words) width placeholder.now line.now)
        result room.old room.new len.old len.new }
    ensures unknown { result ≡ unknown_options ↔ 1 < break_words }
    ensures not_utf8 { result ≡ not_utf8
        ↔ (break_words ≤ 1) × ¬ (IsUtf8 line.now × IsUtf8 placeholder.now) }
    ensures statuses { result ≤ unknown_options }
{
    display::textwrap_shorten_by(alloc, line, width, placeholder, break_words, room, len)
}

/// Exports [`textwrap_calls::display::textwrap_expand_tabs`].
#[unsafe(no_mangle)]
pub extern "C" fn textwrap_expand_tabs(
    alloc: Global,
    text: &[u8],
    stop: usize,
    room: &mut [u8],
    len: &mut usize,
) -> u32
    ensures expanded { WritesText (λ answer. answer ≡ line_bytes (expanded stop text.now))
        result room.old room.new len.old len.new }
    ensures not_utf8 { result ≡ not_utf8 ↔ ¬ IsUtf8 text.now }
    ensures statuses { result ≤ too_small }
{
    display::textwrap_expand_tabs(alloc, text, stop, room, len)
}

/// Exports [`textwrap_calls::filling::textwrap_fill`].
#[unsafe(no_mangle)]
pub extern "C" fn textwrap_fill(
    alloc: Global,
    text: &[u8],
    options: &TextwrapOptions<'_>,
    room: &mut [u8],
    len: &mut usize,
) -> u32
    ensures filled { WritesLong (IsFilledByOptions options.now text.now)
        result room.old room.new len.old len.new }
    ensures faults { TellsFaults result (AreKnown options.now)
        (IsUtf8 text.now × AreTexts options.now) }
    ensures no_memory { NeedsNoMemory result options.now }
{
    filling::textwrap_fill(alloc, text, options, room, len)
}

/// Exports [`textwrap_calls::filling::textwrap_fill_utf8`].
#[unsafe(no_mangle)]
pub extern "C" fn textwrap_fill_utf8(
    alloc: Global,
    text: &[u8],
    options: &TextwrapOptions<'_>,
    room: &mut [u8],
    len: &mut usize,
) -> u32
    requires { IsUtf8 text.now }
    ensures filled { WritesLong (IsFilledByOptions options.now text.now)
        result room.old room.new len.old len.new }
    ensures faults { TellsFaults result (AreKnown options.now) (AreTexts options.now) }
    ensures no_memory { NeedsNoMemory result options.now }
{
    filling::textwrap_fill_utf8(alloc, text, options, room, len)
}

/// Exports [`textwrap_calls::filling::textwrap_fill_inplace`].
#[unsafe(no_mangle)]
pub extern "C" fn textwrap_fill_inplace(alloc: Global, text: &mut [u8], width: usize) -> u32
    ensures filled { result ≡ done → IsFilledInPlace width text.old text.new }
    ensures kept { result ≢ done → text.new ≡ text.old }
    ensures not_utf8 { result ≡ not_utf8 ↔ ¬ IsUtf8 text.old }
    ensures statuses { result ≤ out_of_memory }
{
    filling::textwrap_fill_inplace(alloc, text, width)
}

/// Exports [`textwrap_calls::indentation::textwrap_indent`].
#[unsafe(no_mangle)]
pub extern "C" fn textwrap_indent(
    text: &[u8],
    prefix: &[u8],
    room: &mut [u8],
    len: &mut usize,
) -> u32
    ensures indented { WritesLong (λ answer. answer ≡ indented prefix.now text.now)
        result room.old room.new len.old len.new }
    ensures not_utf8 { result ≡ not_utf8 ↔ ¬ (IsUtf8 text.now × IsUtf8 prefix.now) }
    ensures no_memory { result ≢ out_of_memory }
    ensures statuses { result ≤ too_small }
{
    indentation::textwrap_indent(text, prefix, room, len)
}

/// Exports [`textwrap_calls::indentation::textwrap_indent_utf8`].
#[unsafe(no_mangle)]
pub extern "C" fn textwrap_indent_utf8(
    text: &[u8],
    prefix: &[u8],
    room: &mut [u8],
    len: &mut usize,
) -> u32
    requires text { IsUtf8 text.now }
    requires prefix { IsUtf8 prefix.now }
    ensures indented { WritesLong (λ answer. answer ≡ indented prefix.now text.now)
        result room.old room.new len.old len.new }
    ensures statuses { (result ≡ done) ⊎ (result ≡ too_small) }
{
    indentation::textwrap_indent_utf8(text, prefix, room, len)
}

/// Exports [`textwrap_calls::indentation::textwrap_dedent`].
#[unsafe(no_mangle)]
pub extern "C" fn textwrap_dedent(text: &[u8], room: &mut [u8], len: &mut usize) -> u32
    ensures dedented { WritesText (λ answer. answer ≡ dedented text.now)
        result room.old room.new len.old len.new }
    ensures not_utf8 { result ≡ not_utf8 ↔ ¬ IsUtf8 text.now }
    ensures no_memory { result ≢ out_of_memory }
    ensures statuses { result ≤ too_small }
{
    indentation::textwrap_dedent(text, room, len)
}

/// Exports [`textwrap_calls::indentation::textwrap_dedent_utf8`].
#[unsafe(no_mangle)]
pub extern "C" fn textwrap_dedent_utf8(text: &[u8], room: &mut [u8], len: &mut usize) -> u32
    requires { IsUtf8 text.now }
    ensures dedented { WritesText (λ answer. answer ≡ dedented text.now)
        result room.old room.new len.old len.new }
    ensures statuses { (result ≡ done) ⊎ (result ≡ too_small) }
{
    indentation::textwrap_dedent_utf8(text, room, len)
}

/// Exports [`textwrap_calls::line_lists::textwrap_shorten_lines`].
#[unsafe(no_mangle)]
pub extern "C" fn textwrap_shorten_lines(
    alloc: Global,
    lines: &[TextwrapText<'_>],
    most: usize,
    width: usize,
    placeholder: &[u8],
    places: &mut [TextwrapLine],
    count: &mut usize,
    room: &mut [u8],
    len: &mut usize,
) -> u32
    ensures short { WritesLines (λ answer _. AreRows (AreShort false most width placeholder.now
        (bytes_of lines.now)) answer)
        [] result places.old places.new count.old count.new room.old room.new len.old len.new }
    ensures not_utf8 { result ≡ not_utf8
        ↔ ¬ (All IsText lines.now × IsUtf8 placeholder.now) }
    ensures statuses { result ≤ too_small }
{
    line_lists::textwrap_shorten_lines(
        alloc,
        lines,
        most,
        width,
        placeholder,
        places,
        count,
        room,
        len,
    )
}

/// Exports [`textwrap_calls::line_lists::textwrap_shorten_lines_by`].
#[unsafe(no_mangle)]
pub extern "C" fn textwrap_shorten_lines_by(
    alloc: Global,
    lines: &[TextwrapText<'_>],
    most: usize,
    width: usize,
    placeholder: &[u8],
    break_words: u32,
    places: &mut [TextwrapLine],
    count: &mut usize,
    room: &mut [u8],
    len: &mut usize,
) -> u32
    ensures short { WritesLines (λ answer _. AreRows (AreShort (says_yes break_words) most width
        placeholder.now (bytes_of lines.now)) answer)
        [] result places.old places.new count.old count.new room.old room.new len.old len.new }
    ensures unknown { result ≡ unknown_options ↔ 1 < break_words }
    ensures not_utf8 { result ≡ not_utf8
        ↔ (break_words ≤ 1) × ¬ (All IsText lines.now × IsUtf8 placeholder.now) }
    ensures statuses { result ≤ unknown_options }
{
    line_lists::textwrap_shorten_lines_by(
        alloc,
        lines,
        most,
        width,
        placeholder,
        break_words,
        places,
        count,
        room,
        len,
    )
}

/// Exports [`textwrap_calls::line_lists::textwrap_carry_styles`].
#[unsafe(no_mangle)]
pub extern "C" fn textwrap_carry_styles(
    alloc: Global,
    lines: &[TextwrapText<'_>],
    options: &TextwrapOptions<'_>,
    places: &mut [TextwrapLine],
    count: &mut usize,
    room: &mut [u8],
    len: &mut usize,
) -> u32
    ensures carried { let settings = options_settings options.now in
        WritesLines (λ answer _. AreRows (λ rows. rows ≡ map line_bytes (carried_lines
        settings.initial_indent settings.subsequent_indent [] (bytes_of lines.now))) answer)
        [] result places.old places.new count.old count.new room.old room.new len.old len.new }
    ensures faults { TellsFaults result (AreKnown options.now)
        (All IsText lines.now × AreTexts options.now) }
{
    line_lists::textwrap_carry_styles(alloc, lines, options, places, count, room, len)
}

/// Exports [`textwrap_calls::refilling::textwrap_refill`].
#[unsafe(no_mangle)]
pub extern "C" fn textwrap_refill(
    alloc: Global,
    text: &[u8],
    options: &TextwrapOptions<'_>,
    room: &mut [u8],
    len: &mut usize,
) -> u32
    ensures refilled { WritesText (IsRefilledBy options.now text.now)
        result room.old room.new len.old len.new }
    ensures faults { TellsFaults result (AreKnown options.now)
        (IsUtf8 text.now × AreTexts options.now) }
{
    refilling::textwrap_refill(alloc, text, options, room, len)
}

/// Exports [`textwrap_calls::refilling::textwrap_refill_utf8`].
#[unsafe(no_mangle)]
pub extern "C" fn textwrap_refill_utf8(
    alloc: Global,
    text: &[u8],
    options: &TextwrapOptions<'_>,
    room: &mut [u8],
    len: &mut usize,
) -> u32
    requires { IsUtf8 text.now }
    ensures refilled { WritesText (IsRefilledBy options.now text.now)
        result room.old room.new len.old len.new }
    ensures faults { TellsFaults result (AreKnown options.now) (AreTexts options.now) }
{
    refilling::textwrap_refill_utf8(alloc, text, options, room, len)
}

/// Exports [`textwrap_calls::refilling::textwrap_unfill`].
#[unsafe(no_mangle)]
pub extern "C" fn textwrap_unfill(
    text: &[u8],
    room: &mut [u8],
    len: &mut usize,
    layout: &mut TextwrapLayout,
) -> u32
    ensures unfilled { WritesText (λ answer. answer ≡ unfilled_parts text.now)
        result room.old room.new len.old len.new }
    ensures layout { result ≡ done → IsLayout (unfilled_settings text.now) layout.new }
    ensures kept { result ≢ done → layout.new ≡ layout.old }
    ensures not_utf8 { result ≡ not_utf8 ↔ ¬ IsUtf8 text.now }
    ensures no_memory { result ≢ out_of_memory }
    ensures statuses { result ≤ too_small }
{
    refilling::textwrap_unfill(text, room, len, layout)
}

/// Exports [`textwrap_calls::refilling::textwrap_unfill_utf8`].
#[unsafe(no_mangle)]
pub extern "C" fn textwrap_unfill_utf8(
    text: &[u8],
    room: &mut [u8],
    len: &mut usize,
    layout: &mut TextwrapLayout,
) -> u32
    requires { IsUtf8 text.now }
    ensures unfilled { WritesText (λ answer. answer ≡ unfilled_parts text.now)
        result room.old room.new len.old len.new }
    ensures layout { result ≡ done → IsLayout (unfilled_settings text.now) layout.new }
    ensures kept { result ≢ done → layout.new ≡ layout.old }
    ensures statuses { (result ≡ done) ⊎ (result ≡ too_small) }
{
    refilling::textwrap_unfill_utf8(text, room, len, layout)
}

/// Exports [`textwrap_calls::widths::textwrap_display_width`].
#[unsafe(no_mangle)]
pub extern "C" fn textwrap_display_width(text: &[u8], columns: &mut usize) -> u32
    ensures written { result ≡ done → columns.new ≡ text_width text.now }
    ensures done { result ≡ done ↔ IsUtf8 text.now }
    ensures not_utf8 { result ≢ done → result ≡ not_utf8 }
    ensures kept { result ≢ done → columns.new ≡ columns.old }
{
    widths::textwrap_display_width(text, columns)
}

/// Exports [`textwrap_calls::widths::textwrap_display_width_utf8`].
#[unsafe(no_mangle)]
pub extern "C" fn textwrap_display_width_utf8(text: &[u8], columns: &mut usize) -> u32
    requires { IsUtf8 text.now }
    ensures written { columns.new ≡ text_width text.now }
    ensures done { result ≡ done }
{
    widths::textwrap_display_width_utf8(text, columns)
}

/// Exports [`textwrap_calls::widths::textwrap_strip_ansi_escape_sequences`].
#[unsafe(no_mangle)]
pub extern "C" fn textwrap_strip_ansi_escape_sequences(
    alloc: Global,
    text: &[u8],
    room: &mut [u8],
    len: &mut usize,
) -> u32
    ensures stripped { WritesText (λ answer. answer ≡ stripped text.now)
        result room.old room.new len.old len.new }
    ensures not_utf8 { result ≡ not_utf8 ↔ ¬ IsUtf8 text.now }
    ensures statuses { result ≤ too_small }
{
    widths::textwrap_strip_ansi_escape_sequences(alloc, text, room, len)
}

/// Exports [`textwrap_calls::wrapping::textwrap_wrap`].
#[unsafe(no_mangle)]
pub extern "C" fn textwrap_wrap(
    alloc: Global,
    text: &[u8],
    options: &TextwrapOptions<'_>,
    lines: &mut [TextwrapLine],
    count: &mut usize,
    room: &mut [u8],
    len: &mut usize,
) -> u32
    ensures wrapped { WritesLongLines (ArePlacedBy options.now text.now)
        text.now result lines.old lines.new count.old count.new room.old room.new len.old len.new }
    ensures faults { TellsFaults result (AreKnown options.now)
        (IsUtf8 text.now × AreTexts options.now) }
    ensures no_memory { NeedsNoMemory result options.now }
{
    wrapping::textwrap_wrap(alloc, text, options, lines, count, room, len)
}

/// Exports [`textwrap_calls::wrapping::textwrap_wrap_utf8`].
#[unsafe(no_mangle)]
pub extern "C" fn textwrap_wrap_utf8(
    alloc: Global,
    text: &[u8],
    options: &TextwrapOptions<'_>,
    lines: &mut [TextwrapLine],
    count: &mut usize,
    room: &mut [u8],
    len: &mut usize,
) -> u32
    requires { IsUtf8 text.now }
    ensures wrapped { WritesLongLines (ArePlacedBy options.now text.now)
        text.now result lines.old lines.new count.old count.new room.old room.new len.old len.new }
    ensures faults { TellsFaults result (AreKnown options.now) (AreTexts options.now) }
    ensures no_memory { NeedsNoMemory result options.now }
{
    wrapping::textwrap_wrap_utf8(alloc, text, options, lines, count, room, len)
}
