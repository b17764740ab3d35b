//! A text in columns beside one another.
ghost use Rattle.std.specs.Prelude.{◌≡◌, ◌+◌, ◌-◌, ◌*◌, ◌≤◌, List, length, map};
ghost use Rattle.std.specs.Prelude.{string_bytes, IfOk, min};
ghost use Rattle.textwrap.specs.Columns.{inner_width, row_layout, table_view, table_rows};
ghost use Rattle.textwrap.specs.Columns.{IsInColumns};
ghost use Rattle.textwrap.specs.Columns.{at_column_width};
ghost use Rattle.textwrap_layout.specs.Paragraph.{DividesWith, MayPass64BitsWith};
ghost use Rattle.textwrap_layout.specs.Options as options_of;
ghost use Rattle.textwrap_layout.specs.Options.{Settings, settings_view, HasParts, MayOverflow};
ghost use Rattle.textwrap_layout.specs.Paragraph.{line_view, line_bytes, DividesAs};
ghost use Rattle.textwrap_layout.specs.Paragraph.{DividesUnder};
ghost use Rattle.textwrap_layout.specs.Text.{HasParagraphThat};
ghost use Rattle.textwrap_layout.specs.Text.{SomeMayPass64BitsUnder};
ghost use Rattle.textwrap_words.specs.WordSplitters.{Splitter};
ghost use Rattle.textwrap_words.specs.WrapAlgorithms.{Algorithm};
ghost use Rattle.textwrap_base.specs.Errors.{OnlyMemoryRunsOut};

use crate::rows::{RowCell, RowCells, RowFrame, line_at, push_rows};
use crate::words::display_width;
use crate::wrap_algorithms::WrapError;
use std::alloc::{AllocError, Allocator};
use std::borrow::CowStr;
use textwrap_layout::layout::Layout;
use textwrap_layout::parts::Parts;
use textwrap_lines::Options;
use textwrap_lines::inner::wrap_by;

/// What the rows of a table have in common.
#[derive(Drop)]
pub struct Table<'a> {
    /// How many cells a row has.
    pub columns: usize,
    /// The columns of a cell.
    pub column_width: usize,
    /// The blanks after the last cell.
    pub spare_width: usize,
    /// What stands before the first cell.
    pub left_gap: &'a str,
    /// What stands between each two cells.
    pub middle_gap: &'a str,
    /// What stands after the spare blanks.
    pub right_gap: &'a str,
}

impl<'a> Table<'a> {
    /// What the rows of this width have in common: what the gaps leave of it is divided evenly, at
    /// least 1 to a column, and the rest is spare.
    pub fn new(
        columns: usize,
        width: usize,
        left_gap: &'a str,
        middle_gap: &'a str,
        right_gap: &'a str,
    ) -> Table<'a>
        requires { 1 ≤ columns }
        ensures { table_view result
            ≡ row_layout width columns left_gap.now middle_gap.now right_gap.now }
    {
        let inner = inner_width(width, columns, left_gap, middle_gap, right_gap);
        let column_width = (inner / columns).max(1);
        Table {
            columns,
            column_width,
            spare_width: inner.saturating_sub(columns.saturating_mul(column_width)),
            left_gap,
            middle_gap,
            right_gap,
        }
    }
}

/// Wraps a text into columns beside one another, and returns the rows.
///
/// In 4 columns between bars, `Foo Bar Baz Quux` has at 24 columns the one row
/// `|Foo |Bar |Baz |Quux   |`. The gaps stand before the first column, between each two, and after
/// the last one. The width of the options is that of a whole row: what the gaps leave of it is
/// divided evenly, at least 1 to a column, and the text is wrapped at that width with all other
/// options as they are. There has to be at least one column.
///
/// The columns are filled one after another, so that the last one may be shorter. Each line is
/// padded with blanks to the width of its column, as [`display_width`] measures it, and the last
/// column gets the blanks that the division leaves over. A line that is wider than its column is
/// not cut, and where the gaps leave no room, rows are wider than the options say. The rows are not
/// joined: no line ending is added.
///
/// # Errors
/// Those of `wrap`. A row that is longer than 64 bits can say is out of memory too, and is refused
/// before any of it is written.
pub fn wrap_columns<A: Allocator + Copy>(
    alloc: A,
    text: &str,
    columns: usize,
    options: Options<'_>,
    left_gap: &str,
    middle_gap: &str,
    right_gap: &str,
) -> Result<Vec<String<A>, A>, WrapError>
    requires { 1 ≤ columns }
    ensures rows { IfOk result (λ rows. IsInColumns (settings_view options.entry)
        (DividesUnder options.entry) columns text.now left_gap.now middle_gap.now right_gap.now
        (map string_bytes rows.items)) }
    // The same rows, where all parts are built in and can be named.
    ensures built_in { IfOk result (λ rows.
        (settings : Settings) (splitter : Splitter) (algorithm : Algorithm)
        → HasParts options.entry settings splitter algorithm → IsInColumns settings
        (DividesAs splitter algorithm) columns text.now left_gap.now middle_gap.now right_gap.now
        (map string_bytes rows.items)) }
    ensures only_memory { ¬ MayOverflow options.entry → OnlyMemoryRunsOut result }
    // Overflow only where a paragraph may have pieces that pass 64 bits together.
    ensures no_overflow { ¬ SomeMayPass64BitsUnder options.entry (at_column_width
        (settings_view options.entry) columns left_gap.now middle_gap.now right_gap.now) text.now
        → OnlyMemoryRunsOut result }
{
    let layout = Layout::of(&options);
    wrap_columns_by(
        alloc, text, columns, layout, &options, left_gap, middle_gap, right_gap,
    )
}

/// The same by this layout and any parts.
///
/// # Errors
/// Those of [`wrap_columns`].
pub fn wrap_columns_by<A: Allocator + Copy, P: Parts<A>>(
    alloc: A,
    text: &str,
    columns: usize,
    layout: Layout<'_>,
    parts: &P,
    left_gap: &str,
    middle_gap: &str,
    right_gap: &str,
) -> Result<Vec<String<A>, A>, WrapError>
    requires { 1 ≤ columns }
    ensures rows { IfOk result (λ rows. IsInColumns (options_of.layout_view layout.entry)
        (DividesWith (P.may parts.now)) columns text.now left_gap.now middle_gap.now right_gap.now
        (map string_bytes rows.items)) }
    ensures only_memory { ¬ P.may_overflow parts.now → OnlyMemoryRunsOut result }
    ensures no_overflow { ¬ HasParagraphThat (MayPass64BitsWith (P.may parts.now) (at_column_width
        (options_of.layout_view layout.entry) columns left_gap.now middle_gap.now right_gap.now))
        (options_of.layout_view layout.entry).line_ending text.now → OnlyMemoryRunsOut result }
{
    let table = Table::new(columns, layout.width, left_gap, middle_gap, right_gap);
    let narrow = Layout {
        width: table.column_width,
        ..layout
    };
    let lines = wrap_by(alloc, text, narrow, parts)?;
    Ok(table_rows(alloc, &lines, &table)?)
}

/// The columns that the gaps leave of a row.
fn inner_width(
    width: usize,
    columns: usize,
    left_gap: &str,
    middle_gap: &str,
    right_gap: &str,
) -> usize
    requires { 1 ≤ columns }
    ensures { result ≡ inner_width width columns left_gap.now middle_gap.now right_gap.now }
{
    // Gaps whose sum does not fit leave nothing, and nothing of the greatest width either.
    let gaps = (columns - 1)
        .saturating_mul(display_width(middle_gap))
        .saturating_add(display_width(left_gap))
        .saturating_add(display_width(right_gap));
    width.saturating_sub(gaps)
}

/// The rows of a table of these lines, which fill its columns one after another.
pub fn table_rows<A: Allocator + Copy>(
    alloc: A,
    lines: &[CowStr<'_, A>],
    table: &Table<'_>,
) -> Result<Vec<String<A>, A>, AllocError>
    requires { 1 ≤ table.now.columns }
    ensures { IfOk result (λ rows. map string_bytes rows.items
        ≡ table_rows (table_view table.now) (map line_bytes (map line_view lines.now))) }
{
    let cells = LineCells {
        lines,
        rows: lines.len().div_ceil(table.columns),
        columns: table.columns,
        width: table.column_width,
    };
    let frame = RowFrame {
        left: table.left_gap,
        middle: table.middle_gap,
        spare: table.spare_width,
        right: table.right_gap,
    };
    let mut rows = Vec::new(alloc);
    push_rows(alloc, &mut rows, &cells, cells.rows, &frame)?;
    Ok(rows)
}

/// The cells of a table of these lines, which fill its columns one after another.
#[derive(Drop)]
struct LineCells<'l, 't, A: Allocator> {
    lines: &'l [CowStr<'t, A>],
    rows: usize,
    columns: usize,
    width: usize,
}

impl<A: Allocator> LineCells<'_, '_, A> {
    /// Where the line of a cell stands, or how many lines there are, if it has none.
    fn place(&self, r: usize, c: usize) -> usize
        ensures { result ≡ min (r + c * self.now.rows) (length self.now.lines.now) }
    {
        c.saturating_mul(self.rows)
            .saturating_add(r)
            .min(self.lines.len())
    }
}

impl<A: Allocator> RowCells for LineCells<'_, '_, A> {
    ghost use Rattle.std.specs.Prelude.{map};
    ghost use Rattle.textwrap.specs.Columns.{cells, padded};
    ghost use Rattle.textwrap_layout.specs.Paragraph.{line_bytes, line_view};

    ghost texts = { λ table r. map (padded table.width)
        (cells (map line_bytes (map line_view table.lines.now)) table.rows table.columns r) };

    ghost columns = { λ table. table.columns };

    fn columns(&self) -> usize {
        self.columns
    }

    fn cell(&self, r: usize, c: usize) -> RowCell<'_> {
        let text = line_at(self.lines, self.place(r, c));
        RowCell {
            before: 0,
            text,
            after: self.width.saturating_sub(display_width(text)),
        }
    }

    fn alike(&self, r: usize, c: usize) -> usize {
        // Below the last line all columns that are left are empty.
        if self.place(r, c) < self.lines.len() {
            1
        } else {
            self.columns - c
        }
    }
}
