//! Rows of cells between gaps.
ghost use Rattle.std.specs.Prelude.{◌≡◌, ◌<◌, ◌^◌, ◌++◌, length, map, string_bytes, IfOk, OnOk};
ghost use Rattle.std.specs.Prelude.{SomeIff, [], slice_index_or};
ghost use Rattle.std.specs.List.{range_with_len};
ghost use Rattle.textwrap.specs.Rows.{cell_text, gap_before, framed};
ghost use Rattle.textwrap_layout.specs.Paragraph.{line_bytes, line_view};

use std::alloc::{AllocError, Allocator};
use std::borrow::CowStr;
use textwrap_text::blanks::push_blanks;

/// A cell: a text between blanks.
#[derive(Clone, Copy)]
pub struct RowCell<'a> {
    /// The blanks before the text.
    pub before: usize,
    /// The text.
    pub text: &'a str,
    /// The blanks after the text.
    pub after: usize,
}

/// What stands around the cells of a row.
#[derive(Clone, Copy)]
pub struct RowFrame<'a> {
    /// What stands before the first cell.
    pub left: &'a str,
    /// What stands between each two cells.
    pub middle: &'a str,
    /// The blanks after the last cell.
    pub spare: usize,
    /// What stands after these blanks.
    pub right: &'a str,
}

/// The cells of rows.
pub trait RowCells {
    ghost use Rattle.std.specs.Prelude.{◌≡◌, ℕ, List, [], ◌+◌, ◌<◌, ◌≤◌, length, slice_index_or};
    ghost use Rattle.textwrap.specs.Rows.{cell_text};

    // The cells of a row.
    ghost texts: { Self → ℕ → List (List ℕ) };

    // How many these are.
    ghost columns: { Self → ℕ };

    /// How many cells each row has.
    fn columns(&self) -> usize
        ensures value { result ≡ columns self.now }
        ensures all { (r : ℕ) → length (texts self.now r) ≡ result };

    /// The cell in a row and a column.
    fn cell(&self, r: usize, c: usize) -> RowCell<'_>
        requires { c < columns self.now }
        ensures { cell_text result ≡ slice_index_or (texts self.now r) c [] };

    /// How many cells from there on are the same, so far as that is known: at least 1.
    fn alike(&self, r: usize, c: usize) -> usize
        requires { c < columns self.now }
        ensures some { 1 ≤ result }
        ensures within { c + result ≤ columns self.now }
        ensures same { (i : ℕ) → c ≤ i → i < c + result
            → slice_index_or (texts self.now r) i [] ≡ slice_index_or (texts self.now r) c [] };
}

/// Adds so many rows of these cells, from the first one on.
///
/// # Errors
/// [`AllocError`] where memory runs out. A row that is longer than 64 bits can say is out of memory
/// too, and is refused before any of it is written.
pub fn push_rows<A: Allocator + Copy, C: RowCells>(
    alloc: A,
    rows: &mut Vec<String<A>, A>,
    cells: &C,
    count: usize,
    frame: &RowFrame<'_>,
) -> Result<(), AllocError>
    ensures { OnOk result (map string_bytes rows.new.items ≡ map string_bytes rows.old.items
        ++ map (λ r. framed frame.now (C.texts cells.now r)) (range_with_len 0 count)) }
{
    for r in 0..count {
        rows.push(row(alloc, cells, r, frame)?)?;
    }
    Ok(())
}

/// A row of these cells.
fn row<A: Allocator, C: RowCells>(
    alloc: A,
    cells: &C,
    r: usize,
    frame: &RowFrame<'_>,
) -> Result<String<A>, AllocError>
    ensures { IfOk result (λ row. string_bytes row ≡ framed frame.now (C.texts cells.now r)) }
{
    // Reserved before a cell is written, so that a row that fits no memory is refused at once.
    let len = row_len(cells, r, frame).ok_or(AllocError)?;
    let mut row = String::with_capacity(alloc, len)?;
    row.push_str(frame.left)?;
    let columns = cells.columns();
    let mut c = 0;
    while c < columns {
        let alike = cells.alike(r, c);
        let cell = cells.cell(r, c);
        for at in c..c + alike {
            row.push_str(gap_before(at, frame.middle))?;
            push_cell(&mut row, &cell)?;
        }
        c += alike;
    }
    push_blanks(&mut row, frame.spare)?;
    row.push_str(frame.right)?;
    Ok(row)
}

/// The bytes of that row, or `None` where their number does not fit 64 bits.
fn row_len<C: RowCells>(cells: &C, r: usize, frame: &RowFrame<'_>) -> Option<usize>
    ensures { let row = framed frame.now (C.texts cells.now r)
        in SomeIff result (length row < 2 ^ 64) (length row) }
{
    let columns = cells.columns();
    let mut len = 0u128;
    let mut c = 0;
    while c < columns {
        // Cells that are the same may be more than can be gone through one by one.
        let alike = cells.alike(r, c);
        let cell_len = cell_len(&cells.cell(r, c));
        len = len.saturating_add((alike as u128).saturating_mul(cell_len));
        c += alike;
    }
    let gaps = columns.saturating_sub(1) as u128;
    let gaps_len = gaps.saturating_mul(frame.middle.len() as u128);
    let ends_len = frame.left.len() as u128 + frame.spare as u128 + frame.right.len() as u128;
    let len = len.saturating_add(gaps_len).saturating_add(ends_len);
    usize::try_from(len).ok()
}

/// What stands between the cell at `c` and the one before it, if there is one.
fn gap_before<'a>(c: usize, middle: &'a str) -> &'a str
    ensures { result.now ≡ gap_before c middle.now }
{
    if c == 0 { "" } else { middle }
}

/// The bytes of a cell.
fn cell_len(cell: &RowCell<'_>) -> u128
    ensures { result ≡ length (cell_text cell.now) }
{
    cell.before as u128 + cell.text.len() as u128 + cell.after as u128
}

/// Adds a cell.
fn push_cell<A: Allocator>(row: &mut String<A>, cell: &RowCell<'_>) -> Result<(), AllocError>
    ensures { OnOk result (string_bytes row.new ≡ string_bytes row.old ++ cell_text cell.now) }
{
    push_blanks(row, cell.before)?;
    row.push_str(cell.text)?;
    push_blanks(row, cell.after)
}

/// The line at a place, or nothing where there is none.
pub fn line_at<'l, A: Allocator>(lines: &'l [CowStr<'_, A>], place: usize) -> &'l str
    ensures { result.now ≡ slice_index_or (map line_bytes (map line_view lines.now)) place [] }
{
    if place < lines.len() {
        lines[place].as_str()
    } else {
        ""
    }
}
