//! Texts in the columns of a table.
ghost use Rattle.std.specs.Prelude.{◌≡◌, ◌≤◌, ◌↔◌, ℕ, true, [], List, map, All, IfOk};
ghost use Rattle.textwrap_calls.specs.Columns.{AreKnownGaps, ArePlacedRows, AreRows, AreTextGaps};
ghost use Rattle.textwrap_calls.specs.Columns.{row_gaps};
ghost use Rattle.textwrap_calls.specs.Status.{not_utf8, unknown_options};
ghost use Rattle.textwrap_more_calls.specs.Tables.{AreTableTexts, HasTextLines, HasTexts, IsKnownColumn};
ghost use Rattle.textwrap_more_calls.specs.Tables.{lines_of_cells, parts_of_column, shape_of_column};
ghost use Rattle.textwrap_calls.specs.Texts.{bytes_of, IsText};
ghost use Rattle.textwrap_calls.specs.Wrapping.{WritesLines};
ghost use Rattle.textwrap_display.specs.Tables.{cell_texts, gaps_view, rows_of_cells};
ghost use Rattle.textwrap_plain.specs.Tables.{IsPlainTable, plain_parts};

use simdutf8::basic::from_utf8;
use std::alloc::{AllocError, Global};
use std::borrow::CowStr;
use textwrap::WrapError;
use textwrap_calls::columns::{TextwrapGaps, are_known_gaps, place_rows, read_gaps};
use textwrap_calls::display::read_alignment;
use textwrap_calls::options::{TextwrapOptions, are_known, read_options};
use textwrap_calls::reported::{TextwrapLine, put_lines};
use textwrap_calls::status::{NOT_UTF8, OUT_OF_MEMORY, UNKNOWN_OPTIONS};
use textwrap_calls::texts::{TextwrapText, are_utf8, lines_of, strs_of};
use textwrap_display::{Column, Gaps, Layout, table, table_of_lines};
use textwrap_lines::placed::PlacedLines;
use textwrap_plain::PlainWords;
use textwrap_plain::parts::PlainParts;

/// A column of a table.
#[repr(C)]
#[derive(Clone, Copy)]
pub struct TextwrapColumn<'a> {
    /// How its texts are wrapped.
    pub options: TextwrapOptions<'a>,
    /// Where their lines stand in the width: as in `textwrap_align`.
    pub alignment: u32,
    /// 0. A later version may give it a meaning, in which 0 will change nothing.
    pub reserved: u32,
}

/// A cell of a table whose texts are wrapped already.
#[repr(C)]
#[derive(Clone, Copy)]
pub struct TextwrapCell<'a> {
    /// Its lines.
    pub lines: &'a [TextwrapText<'a>],
}

/// Wraps the cells in the columns, as many beside one another as there are columns, and writes the
/// rows as `textwrap_wrap` writes lines that are texts of their own. The last cells may be fewer. A
/// column that is not known is `UNKNOWN_OPTIONS`, and so are such gaps.
pub fn textwrap_table(
    alloc: Global,
    cells: &[TextwrapText<'_>],
    columns: &[TextwrapColumn<'_>],
    gaps: &TextwrapGaps<'_>,
    rows: &mut [TextwrapLine],
    count: &mut usize,
    room: &mut [u8],
    len: &mut usize,
) -> u32
    ensures table { WritesLines (λ lines _. AreRows (IsPlainTable (map parts_of_column columns.now)
        (row_gaps gaps.now) (bytes_of cells.now)) lines)
        [] result rows.old rows.new count.old count.new room.old room.new len.old len.new }
    ensures unknown { result ≡ unknown_options
        ↔ ¬ (All IsKnownColumn columns.now × AreKnownGaps gaps.now) }
    ensures not_utf8 { result ≡ not_utf8 ↔ All IsKnownColumn columns.now × AreKnownGaps gaps.now
        × ¬ AreTableTexts cells.now columns.now gaps.now }
    ensures statuses { result ≤ unknown_options }
{
    if !are_known_columns(columns) || !are_known_gaps(gaps) {
        return UNKNOWN_OPTIONS;
    }
    if !are_utf8(cells) || !have_texts(columns) {
        return NOT_UTF8;
    }
    let Some(gaps) = read_gaps(gaps) else {
        return NOT_UTF8;
    };
    match place_table(alloc, cells, columns, &gaps) {
        Ok(placed) => put_lines(&placed, rows, count, room, len),
        Err(_) => OUT_OF_MEMORY,
    }
}

/// Writes the rows of a table whose cells have these lines, as `textwrap_table` writes those of the
/// lines of its texts. Of a column only its width and its alignment matter. One that is not known is
/// `UNKNOWN_OPTIONS`, and so are such gaps.
pub fn textwrap_table_of_lines(
    alloc: Global,
    cells: &[TextwrapCell<'_>],
    columns: &[TextwrapColumn<'_>],
    gaps: &TextwrapGaps<'_>,
    rows: &mut [TextwrapLine],
    count: &mut usize,
    room: &mut [u8],
    len: &mut usize,
) -> u32
    ensures table { WritesLines (λ lines _. AreRows (λ rows. rows ≡ rows_of_cells
        (row_gaps gaps.now) (map shape_of_column columns.now) (lines_of_cells cells.now)) lines)
        [] result rows.old rows.new count.old count.new room.old room.new len.old len.new }
    ensures unknown { result ≡ unknown_options
        ↔ ¬ (All IsKnownColumn columns.now × AreKnownGaps gaps.now) }
    ensures not_utf8 { result ≡ not_utf8 ↔ All IsKnownColumn columns.now × AreKnownGaps gaps.now
        × ¬ (All HasTextLines cells.now × AreTextGaps gaps.now) }
    ensures statuses { result ≤ unknown_options }
{
    if !are_known_columns(columns) || !are_known_gaps(gaps) {
        return UNKNOWN_OPTIONS;
    }
    if !have_text_lines(cells) {
        return NOT_UTF8;
    }
    let Some(gaps) = read_gaps(gaps) else {
        return NOT_UTF8;
    };
    match place_cells(alloc, cells, columns, &gaps) {
        Ok(placed) => put_lines(&placed, rows, count, room, len),
        Err(_) => OUT_OF_MEMORY,
    }
}

/// Whether all columns are known.
fn are_known_columns(columns: &[TextwrapColumn<'_>]) -> bool
    ensures { result ≡ true ↔ All IsKnownColumn columns.now }
{
    for column in columns {
        if !is_known_column(column) {
            return false;
        }
    }
    true
}

/// Whether its options are known, and each number means something.
fn is_known_column(column: &TextwrapColumn<'_>) -> bool
    ensures { result ≡ true ↔ IsKnownColumn column.now }
{
    are_known(&column.options) && column.alignment <= 2 && column.reserved == 0
}

/// Whether the indents of all columns are UTF-8.
fn have_texts(columns: &[TextwrapColumn<'_>]) -> bool
    ensures { result ≡ true ↔ All HasTexts columns.now }
{
    for column in columns {
        if !has_texts(column) {
            return false;
        }
    }
    true
}

/// Whether its indents are UTF-8.
fn has_texts(column: &TextwrapColumn<'_>) -> bool
    ensures { result ≡ true ↔ HasTexts column.now }
{
    let options = &column.options;
    from_utf8(options.initial_indent).is_ok() && from_utf8(options.subsequent_indent).is_ok()
}

/// The rows of the table, placed.
fn place_table(
    alloc: Global,
    cells: &[TextwrapText<'_>],
    columns: &[TextwrapColumn<'_>],
    gaps: &Gaps<'_>,
) -> Result<PlacedLines<Global>, WrapError>
    requires known { All IsKnownColumn columns.now }
    requires texts { All HasTexts columns.now }
    requires cells { All IsText cells.now }
    ensures { IfOk result (λ placed. (rows : List (List ℕ))
        × IsPlainTable (map parts_of_column columns.now) (gaps_view gaps.now) (bytes_of cells.now) rows
        × ArePlacedRows rows placed.places.items placed.built.items) }
{
    let texts = strs_of(alloc, cells)?;
    let columns = read_columns(alloc, columns)?;
    let rows = table(alloc, &texts, &columns, gaps)?;
    Ok(place_rows(alloc, rows)?)
}

/// The columns as the library has them.
fn read_columns<'a>(
    alloc: Global,
    given: &[TextwrapColumn<'a>],
) -> Result<Vec<Column<'a, PlainParts<'a, PlainWords>>>, AllocError>
    requires known { All IsKnownColumn given.now }
    requires texts { All HasTexts given.now }
    ensures { IfOk result (λ columns.
        map plain_parts columns.items ≡ map parts_of_column given.now) }
{
    let mut columns = Vec::with_capacity(alloc, given.len())?;
    for column in given {
        let Ok(options) = read_options(&column.options) else {
            unreachable!();
        };
        let Some(alignment) = read_alignment(column.alignment) else {
            unreachable!();
        };
        columns.push(Column {
            layout: options.layout(),
            parts: options.parts(alloc),
            alignment,
        })?;
    }
    Ok(columns)
}

/// Whether the lines of all cells are UTF-8.
fn have_text_lines(cells: &[TextwrapCell<'_>]) -> bool
    ensures { result ≡ true ↔ All HasTextLines cells.now }
{
    for cell in cells {
        if !are_utf8(cell.lines) {
            return false;
        }
    }
    true
}

/// The rows of these cells, placed.
fn place_cells(
    alloc: Global,
    cells: &[TextwrapCell<'_>],
    columns: &[TextwrapColumn<'_>],
    gaps: &Gaps<'_>,
) -> Result<PlacedLines<Global>, AllocError>
    requires known { All IsKnownColumn columns.now }
    requires cells { All HasTextLines cells.now }
    ensures { IfOk result (λ placed. ArePlacedRows (rows_of_cells (gaps_view gaps.now)
        (map shape_of_column columns.now) (lines_of_cells cells.now))
        placed.places.items placed.built.items) }
{
    let cells = read_cells(alloc, cells)?;
    let mut shapes = Vec::with_capacity(alloc, columns.len())?;
    for column in columns {
        let Some(alignment) = read_alignment(column.alignment) else {
            unreachable!();
        };
        shapes.push(Column {
            layout: Layout::new(column.options.width),
            parts: (),
            alignment,
        })?;
    }
    place_rows(alloc, table_of_lines(alloc, &cells, &shapes, gaps)?)
}

/// The cells as the library has them.
fn read_cells<'t>(
    alloc: Global,
    given: &[TextwrapCell<'t>],
) -> Result<Vec<Vec<CowStr<'t>>>, AllocError>
    requires { All HasTextLines given.now }
    ensures { IfOk result (λ cells. cell_texts cells.items ≡ lines_of_cells given.now) }
{
    let mut cells = Vec::with_capacity(alloc, given.len())?;
    for cell in given {
        let lines = lines_of(alloc, cell.lines)?;
        cells.push(lines)?;
    }
    Ok(cells)
}
