//! Texts in the columns of a table.
ghost use Rattle.std.specs.Prelude.{◌≡◌, List, [], ◌++◌, All, length, map};
ghost use Rattle.std.specs.Prelude.{slice_index_or, string_bytes, IfOk, OnOk};
ghost use Rattle.textwrap_display.specs.Tables.{NonePasses, AreCells, IsTableBy, cell_line, groups_of};
ghost use Rattle.textwrap_display.specs.Tables.{cell_texts, ColumnMakes, ColumnMayPass};
ghost use Rattle.textwrap_display.specs.Tables.{gaps_view, group_rows, height};
ghost use Rattle.textwrap_display.specs.Tables.{rows_of_cells, shape_of, texts_in};
ghost use Rattle.textwrap_base.specs.Errors.{OnlyMemoryRunsOut};

use crate::alignment::{Alignment, aligned_cell};
use std::alloc::{AllocError, Allocator};
use std::borrow::CowStr;
use textwrap::WrapError;
use textwrap::inner::{RowCell, RowCells, RowFrame, line_at, push_rows};
use textwrap_layout::layout::Layout;
use textwrap_layout::parts::Parts;
use textwrap_lines::inner::wrap_by;

/// A column of a table.
#[derive(Drop)]
pub struct Column<'a, P> {
    /// Its width, in columns of the screen, and what else is said of the lines of its texts.
    pub layout: Layout<'a>,
    /// Where their words end and are split, and how these are divided into lines.
    pub parts: P,
    /// Where each line stands in the column.
    pub alignment: Alignment,
}

/// What stands around the cells of a row.
#[derive(Clone, Copy, Debug)]
pub struct Gaps<'a> {
    /// What stands before the first column.
    pub left: &'a str,
    /// What stands between each two columns.
    pub middle: &'a str,
    /// What stands after the last column.
    pub right: &'a str,
}

/// The lines of a text.
type Cell<'t, A> = Vec<CowStr<'t, A>, A>;

/// Wraps texts in the columns of a table, and returns its rows, from the top down.
///
/// The cells are texts. As many as there are columns stand beside one another, and the last ones
/// may be fewer. Each is wrapped by the layout and the parts of its column. Together they take as many rows as
/// the highest of them has lines; below its own last line a cell shows nothing. Each line is
/// aligned in the width of its column, as [`display_width`](textwrap::words::display_width)
/// measures it, and one that is wider is not cut. The gaps stand before the first column, between
/// each two, and after the last one. The rows are not joined: no line ending is added. Without
/// columns there are no rows.
///
/// ```rust
/// let (layout, parts) = (Layout::new(4), Options::new(4));
/// let flags = Column { layout, parts, alignment: Alignment::Left };
/// let (layout, parts) = (Layout::new(12), Options::new(12));
/// let columns = [flags, Column { layout, parts, alignment: Alignment::Left }];
/// let gaps = Gaps { left: "", middle: "  ", right: "|" };
/// let texts = ["-h", "Print this help.", "-q", "Say nothing."];
/// let rows = table(alloc, &texts, &columns, &gaps)?;
/// ```
///
/// The rows are `"-h    Print this  |"`, `"      help.       |"` and `"-q    Say nothing.|"`.
///
/// # Errors
/// Those of `wrap`. A row that is longer than 64 bits can say is out of memory too, and is refused
/// before any of it is written.
pub fn table<A: Allocator + Copy, P: Parts<A>>(
    alloc: A,
    cells: &[&str],
    columns: &[Column<'_, P>],
    gaps: &Gaps<'_>,
) -> Result<Vec<String<A>, A>, WrapError>
    ensures rows { IfOk result (λ rows. IsTableBy (ColumnMakes P.may) shape_of columns.now
        (gaps_view gaps.now) (texts_in cells.now) (map string_bytes rows.items)) }
    ensures only_memory { All (λ column. ¬ P.may_overflow column.parts) columns.now
        → OnlyMemoryRunsOut result }
    ensures no_overflow { All (NonePasses (ColumnMayPass P.may) columns.now)
        (groups_of (length columns.now) (texts_in cells.now)) → OnlyMemoryRunsOut result }
{
    let mut rows = Vec::new(alloc);
    if columns.is_empty() {
        return Ok(rows);
    }
    for texts in cells.chunks(columns.len()) {
        let group = wrap_cells(alloc, texts, columns)?;
        push_group(alloc, &mut rows, &group, columns, gaps)?;
    }
    Ok(rows)
}

/// The rows of a table whose cells have these lines, from the top down.
///
/// They are the rows that [`table`] makes of the lines of its texts. Of a column only its width and
/// its alignment matter.
///
/// # Errors
/// [`AllocError`] where memory runs out, also for a row that is longer than 64 bits can say.
pub fn table_of_lines<A: Allocator + Copy, P>(
    alloc: A,
    cells: &[Vec<CowStr<'_, A>, A>],
    columns: &[Column<'_, P>],
    gaps: &Gaps<'_>,
) -> Result<Vec<String<A>, A>, AllocError>
    ensures { IfOk result (λ rows. map string_bytes rows.items
        ≡ rows_of_cells (gaps_view gaps.now) (map shape_of columns.now) (cell_texts cells.now)) }
{
    let mut rows = Vec::new(alloc);
    if columns.is_empty() {
        return Ok(rows);
    }
    for group in cells.chunks(columns.len()) {
        push_group(alloc, &mut rows, group, columns, gaps)?;
    }
    Ok(rows)
}

/// Wraps each text in its column.
///
/// # Errors
/// Those of `wrap`.
fn wrap_cells<'t, A: Allocator + Copy, P: Parts<A>>(
    alloc: A,
    texts: &[&'t str],
    columns: &[Column<'_, P>],
) -> Result<Vec<Cell<'t, A>, A>, WrapError>
    ensures cells { IfOk result (λ cells.
        AreCells (ColumnMakes P.may) columns.now (texts_in texts.now) (cell_texts cells.items)) }
    ensures only_memory { All (λ column. ¬ P.may_overflow column.parts) columns.now
        → OnlyMemoryRunsOut result }
    ensures no_overflow { NonePasses (ColumnMayPass P.may) columns.now (texts_in texts.now)
        → OnlyMemoryRunsOut result }
{
    let mut cells = Vec::new(alloc);
    for (text, column) in texts.iter().zip(columns) {
        cells.push(wrap_by(alloc, text, column.layout, &column.parts)?)?;
    }
    Ok(cells)
}

/// Adds the rows of a group of cells, as many as the highest cell has lines.
fn push_group<A: Allocator + Copy, P>(
    alloc: A,
    rows: &mut Vec<String<A>, A>,
    cells: &[Cell<'_, A>],
    columns: &[Column<'_, P>],
    gaps: &Gaps<'_>,
) -> Result<(), AllocError>
    ensures { OnOk result (map string_bytes rows.new.items ≡ map string_bytes rows.old.items
        ++ group_rows (gaps_view gaps.now) (map shape_of columns.now) (cell_texts cells.now)) }
{
    let frame = RowFrame {
        left: gaps.left,
        middle: gaps.middle,
        spare: 0,
        right: gaps.right,
    };
    let group = Group { cells, columns };
    push_rows(alloc, rows, &group, height(cells), &frame)
}

/// How many lines the highest cell has.
fn height<A: Allocator>(cells: &[Cell<'_, A>]) -> usize
    ensures { result ≡ height (cell_texts cells.now) }
{
    let mut most = 0;
    for lines in cells {
        most = most.max(lines.len());
    }
    most
}

/// Cells that stand beside one another.
#[derive(Drop)]
struct Group<'l, 't, A: Allocator, P> {
    cells: &'l [Cell<'t, A>],
    columns: &'l [Column<'l, P>],
}

impl<A: Allocator, P> RowCells for Group<'_, '_, A, P> {
    ghost use Rattle.std.specs.Prelude.{length, map};
    ghost use Rattle.textwrap_display.specs.Tables.{cell_texts, shape_of, shown_cells};

    ghost texts = { λ group. shown_cells (map shape_of group.columns.now)
        (cell_texts group.cells.now) };

    ghost columns = { λ group. length group.columns.now };

    fn columns(&self) -> usize {
        self.columns.len()
    }

    fn cell(&self, r: usize, c: usize) -> RowCell<'_> {
        let column = &self.columns[c];
        aligned_cell(
            cell_line(self.cells, c, r),
            column.layout.width,
            column.alignment,
        )
    }

    fn alike(&self, _r: usize, _c: usize) -> usize {
        1
    }
}

/// The line at `r` of the cell at `c`, or nothing where there is none.
fn cell_line<'l, A: Allocator>(cells: &'l [Cell<'_, A>], c: usize, r: usize) -> &'l str
    ensures { result.now ≡ cell_line (slice_index_or (cell_texts cells.now) c []) r }
{
    match cells.get(c) {
        Some(lines) => line_at(lines, r),
        None => "",
    }
}
