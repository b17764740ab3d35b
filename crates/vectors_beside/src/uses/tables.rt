//! A text in columns between bars.
ghost use Rattle.std.specs.Prelude.{◌≡◌, ◌≤◌, List, map, string_bytes, IfOk};
ghost use Rattle.textwrap.specs.Columns.{table_rows};
ghost use Rattle.textwrap.specs.Options.{settings_at, default_algorithm};
ghost use Rattle.textwrap.specs.Paragraph.{Line, line_bytes};
ghost use Rattle.textwrap.specs.Text.{AreLinesBy};
ghost use Rattle.vectors_beside.specs.Tables.{barred, IsEachShownOnce, IsEven};
ghost use Rattle.textwrap.specs.Errors.{OnlyMemoryRunsOut};

use std::alloc::Global;
use textwrap::laws::{columns_keep_lines, rows_are_even};
use textwrap::{Options, WrapError, wrap_columns};

/// The rows of a text in so many columns between bars, each row of so many columns of the screen:
/// in 2 columns and at 17, `one two three four five` has the rows `| one   | four  |`,
/// `| two   | five  |` and `| three |       |`.
pub fn barred_rows(
    alloc: Global,
    text: &str,
    columns: usize,
    width: usize,
) -> Result<Vec<String>, WrapError>
    requires { 1 ≤ columns }
    // These are the rows of a table of the text's lines at the width of a column. No line is lost or
    // shown twice, and each row takes exactly the width, where no line is wider than its column and
    // the bars leave room.
    ensures table { IfOk result (λ rows. (lines : List Line)
        × AreLinesBy (settings_at (barred width columns).column_width) default_algorithm text.now
        lines
        × (map string_bytes rows.items ≡ table_rows (barred width columns) (map line_bytes lines))
        × IsEachShownOnce (map line_bytes lines) columns
        × IsEven width columns (map line_bytes lines)) }
    ensures only_memory { OnlyMemoryRunsOut result }
{
    columns_keep_lines();
    rows_are_even();
    let options = Options::new(width);
    let rows = wrap_columns(alloc, text, columns, options, "| ", " | ", " |")?;
    Ok(rows)
}
