//! A text in columns beside one another.
ghost use Rattle.std.specs.Prelude.{◌≡◌, ◌≢◌, ◌≤◌, ◌<◌, ◌↔◌, ◌⊎◌, [], IsUtf8, true, All, map};
ghost use Rattle.std.specs.Prelude.{string_bytes, IfNone, IfOk, IfSome};
ghost use Rattle.textwrap.specs.Columns.{IsInColumns, row_layout, table_view, table_rows};
ghost use Rattle.textwrap_calls.specs.Columns.{AreKnownGaps, AreTextGaps, AreRows, ArePlacedRows};
ghost use Rattle.textwrap_calls.specs.Columns.{row_gaps};
ghost use Rattle.textwrap_calls.specs.Options.{options_settings, AreKnown, Divides, AreTexts};
ghost use Rattle.textwrap_calls.specs.Status.{done, not_utf8, unknown_options};
ghost use Rattle.textwrap_calls.specs.Texts.{bytes_of, IsText};
ghost use Rattle.textwrap_calls.specs.Wrapping.{WritesLines};
ghost use Rattle.textwrap_display.specs.Tables.{gaps_view};

use crate::options::{TextwrapOptions, read_options};
use crate::reported::{TextwrapLine, put_lines};
use crate::status::{DONE, NOT_UTF8, OUT_OF_MEMORY, UNKNOWN_OPTIONS};
use crate::texts::{TextwrapText, are_utf8, lines_of};
use simdutf8::basic::from_utf8;
use std::alloc::{AllocError, Global};
use textwrap::inner::{Table, table_rows, wrap_columns_by};
use textwrap_display::Gaps;
use textwrap_lines::placed::PlacedLines;

/// What stands around the cells of a row, in UTF-8.
#[repr(C)]
#[derive(Clone, Copy)]
pub struct TextwrapGaps<'a> {
    /// What stands before the first cell.
    pub left: &'a [u8],
    /// What stands between each two cells.
    pub middle: &'a [u8],
    /// What stands after the last cell.
    pub right: &'a [u8],
    /// 0 each, until a later number takes one, for which 0 will change nothing.
    pub reserved_sizes: [usize; 4],
}

/// Wraps the text into so many columns beside one another, and writes the rows as `textwrap_wrap`
/// writes lines that are texts of their own. No columns at all are `UNKNOWN_OPTIONS`, and so are gaps
/// that are not known.
pub fn textwrap_wrap_columns(
    alloc: Global,
    text: &[u8],
    columns: usize,
    options: &TextwrapOptions<'_>,
    gaps: &TextwrapGaps<'_>,
    rows: &mut [TextwrapLine],
    count: &mut usize,
    room: &mut [u8],
    len: &mut usize,
) -> u32
    ensures columns { WritesLines (λ lines _. AreRows (IsInColumns (options_settings options.now)
        (Divides options.now) columns text.now
        gaps.now.left.now gaps.now.middle.now gaps.now.right.now) lines)
        text.now result rows.old rows.new count.old count.new room.old room.new len.old len.new }
    ensures unknown { result ≡ unknown_options ↔ (columns < 1) ⊎ (¬ AreKnown options.now)
        ⊎ (¬ AreKnownGaps gaps.now) }
    ensures not_utf8 { result ≡ not_utf8 ↔ (1 ≤ columns) × AreKnown options.now
        × AreKnownGaps gaps.now
        × ¬ (IsUtf8 text.now × AreTexts options.now × AreTextGaps gaps.now) }
    ensures statuses { result ≤ unknown_options }
{
    if columns == 0 || !are_known_gaps(gaps) {
        return UNKNOWN_OPTIONS;
    }
    let options = match read_options(options) {
        Ok(options) => options,
        Err(status) => return status,
    };
    let (Ok(text), Ok(left), Ok(middle), Ok(right)) = (
        from_utf8(text),
        from_utf8(gaps.left),
        from_utf8(gaps.middle),
        from_utf8(gaps.right),
    ) else {
        return NOT_UTF8;
    };
    let (layout, parts) = (options.layout(), options.parts(alloc));
    let Ok(found) = wrap_columns_by(alloc, text, columns, layout, &parts, left, middle, right)
    else {
        return OUT_OF_MEMORY;
    };
    let Ok(placed) = place_rows(alloc, found) else {
        return OUT_OF_MEMORY;
    };
    put_lines(&placed, rows, count, room, len)
}

/// Writes the width that `textwrap_wrap_columns` wraps a text at, where the rows have this width: what
/// the gaps leave of it, divided evenly. It answers `DONE`, `NOT_UTF8` or `UNKNOWN_OPTIONS`: no columns
/// at all are the latter, and so are gaps that are not known.
pub fn textwrap_column_width(
    width: usize,
    columns: usize,
    gaps: &TextwrapGaps<'_>,
    column_width: &mut usize,
) -> u32
    ensures written { result ≡ done → column_width.new ≡ (row_layout width columns
        gaps.now.left.now gaps.now.middle.now gaps.now.right.now).column_width }
    ensures done { result ≡ done ↔ (1 ≤ columns) × AreKnownGaps gaps.now × AreTextGaps gaps.now }
    ensures unknown { result ≡ unknown_options ↔ (columns < 1) ⊎ (¬ AreKnownGaps gaps.now) }
    ensures not_utf8 { result ≡ not_utf8 ↔ (1 ≤ columns) × AreKnownGaps gaps.now
        × ¬ AreTextGaps gaps.now }
    ensures kept { result ≢ done → column_width.new ≡ column_width.old }
{
    if columns == 0 || !are_known_gaps(gaps) {
        return UNKNOWN_OPTIONS;
    }
    let Some(table) = read_table(columns, width, gaps) else {
        return NOT_UTF8;
    };
    *column_width = table.column_width;
    DONE
}

/// Writes the rows of so many columns that these lines fill one after another, as
/// `textwrap_wrap_columns` writes those of the lines of its text. The rows have this width. No columns
/// at all are `UNKNOWN_OPTIONS`, and so are gaps that are not known.
pub fn textwrap_rows_of_lines(
    alloc: Global,
    lines: &[TextwrapText<'_>],
    columns: usize,
    width: usize,
    gaps: &TextwrapGaps<'_>,
    rows: &mut [TextwrapLine],
    count: &mut usize,
    room: &mut [u8],
    len: &mut usize,
) -> u32
    ensures rows { WritesLines (λ answer _. AreRows (λ rows. rows ≡ table_rows (row_layout width
        columns gaps.now.left.now gaps.now.middle.now gaps.now.right.now) (bytes_of lines.now)) answer)
        [] result rows.old rows.new count.old count.new room.old room.new len.old len.new }
    ensures unknown { result ≡ unknown_options ↔ (columns < 1) ⊎ (¬ AreKnownGaps gaps.now) }
    ensures not_utf8 { result ≡ not_utf8 ↔ (1 ≤ columns) × AreKnownGaps gaps.now
        × ¬ (All IsText lines.now × AreTextGaps gaps.now) }
    ensures statuses { result ≤ unknown_options }
{
    if columns == 0 || !are_known_gaps(gaps) {
        return UNKNOWN_OPTIONS;
    }
    if !are_utf8(lines) {
        return NOT_UTF8;
    }
    let Some(table) = read_table(columns, width, gaps) else {
        return NOT_UTF8;
    };
    match place_lines(alloc, lines, &table) {
        Ok(placed) => put_lines(&placed, rows, count, room, len),
        Err(_) => OUT_OF_MEMORY,
    }
}

/// The rows that these lines have, placed.
fn place_lines(
    alloc: Global,
    lines: &[TextwrapText<'_>],
    table: &Table<'_>,
) -> Result<PlacedLines<Global>, AllocError>
    requires columns { 1 ≤ table.now.columns }
    requires lines { All IsText lines.now }
    ensures { IfOk result (λ placed.
        ArePlacedRows (table_rows (table_view table.now) (bytes_of lines.now))
        placed.places.items placed.built.items) }
{
    let lines = lines_of(alloc, lines)?;
    place_rows(alloc, table_rows(alloc, &lines, table)?)
}

/// What rows of this width have in common, if the gaps are UTF-8.
fn read_table<'a>(columns: usize, width: usize, given: &TextwrapGaps<'a>) -> Option<Table<'a>>
    requires { 1 ≤ columns }
    ensures layout { IfSome result (λ table. table_view table ≡ row_layout width columns
        given.now.left.now given.now.middle.now given.now.right.now) }
    ensures some { IfSome result (λ _. AreTextGaps given.now) }
    ensures none { IfNone result (¬ AreTextGaps given.now) }
{
    let gaps = read_gaps(given)?;
    Some(Table::new(columns, width, gaps.left, gaps.middle, gaps.right))
}

/// Whether the numbers in reserve are 0.
pub fn are_known_gaps(gaps: &TextwrapGaps<'_>) -> bool
    ensures { result ≡ true ↔ AreKnownGaps gaps.now }
{
    gaps.reserved_sizes == [0; 4]
}

/// The gaps as the library has them, if they are UTF-8.
pub fn read_gaps<'a>(given: &TextwrapGaps<'a>) -> Option<Gaps<'a>>
    ensures gaps { IfSome result (λ gaps. gaps_view gaps ≡ row_gaps given.now) }
    ensures some { IfSome result (λ _. AreTextGaps given.now) }
    ensures none { IfNone result (¬ AreTextGaps given.now) }
{
    Some(Gaps {
        left: from_utf8(given.left).ok()?,
        middle: from_utf8(given.middle).ok()?,
        right: from_utf8(given.right).ok()?,
    })
}

/// The rows, placed as lines of their own.
///
/// # Errors
/// Out of memory.
pub fn place_rows(alloc: Global, rows: Vec<String>) -> Result<PlacedLines<Global>, AllocError>
    ensures { IfOk result (λ placed. ArePlacedRows (map string_bytes rows.items)
        placed.places.items placed.built.items) }
{
    let mut placed = PlacedLines::new(alloc);
    for row in rows {
        placed.push_built("", &row, "")?;
    }
    Ok(placed)
}
